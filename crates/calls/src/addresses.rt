// Addresses in a script.
//
// What a reader leaves, `rest`, stands in the clauses of each, as it speaks of before and after, and no type does.
ghost use Rattle.calls.specs.Addresses.{address_by, address_of};
ghost use Rattle.script.specs.Fields.{others};
ghost use Rattle.script.specs.Reads.{Says};
ghost use Rattle.script.specs.Words.{first_as};
ghost use Rattle.std.specs.Prelude.{◌≡◌};

use association::Address;
use script::{Fields, Refusal};

// The address that 16 bytes write: the high 64 bits and then the low, of each the highest byte first.
#[tactic(auto, using(crate::proofs::Halves::half_is))]
fn address_by(bytes: &[u8]) -> Option<Address>
    ensures { result ≡ address_by bytes.now }
{
    if bytes.len() != 16 {
        return None;
    }
    let high = u64::from_be_bytes(*bytes.first_chunk()?);
    let low = u64::from_be_bytes(*bytes.last_chunk()?);
    Some((high, low))
}

// The next field as an address: the 32 digits that write it.
pub fn read_address(fields: &mut Fields) -> Result<Address, Refusal>
    ensures value { Says (λ a. a) result (first_as address_of fields.old) }
    ensures rest { fields.new ≡ others fields.old }
{
    let bytes = fields.bytes()?;
    address_by(bytes.as_slice()).ok_or(Refusal::BadLine)
}
