// Fields by their kinds.
//
// What a reader leaves, `rest`, stands in the clauses of each, as it speaks of before and after, and no type does.
ghost use Rattle.script.specs.Fields.{first, others};
ghost use Rattle.script.specs.Hex.{bytes_of};
ghost use Rattle.script.specs.Reads.{Says};
ghost use Rattle.script.specs.Words.{algorithm_of, association_of, first_as, ik_of, no_more, number16, number32, number8};
ghost use Rattle.script.specs.declared.refusal.Refusal.TheVariants.{BadLine};
ghost use Rattle.std.specs.Prelude.{◌≡◌, ℕ, List, Option, vec_items};
ghost use Rattle.std.specs.Option.{ok_or};
ghost use Rattle.std.specs.Result.{result_map_both};

use crate::decimal::read_number;
use crate::fields::Fields;
use crate::hex::read_bytes;
use crate::refusal::Refusal;
use esp::Association;
use integrity::{Algorithm, Ik};
use std::alloc::Global;

// What a field can be read as, with no memory taken.
pub trait Field: Sized {
    // The value that a text writes, if it writes one.
    ghost read: { List ℕ → Option Self };

    fn read(text: &[u8]) -> Option<Self>
        ensures { result ≡ read text.now };
}

// The grammar names the numbers of 32, 16 and 8 bits one by one, so that each has its impl; they are read by one function.

// A number of 32 bits.
impl Field for u32 {
    ghost read = { number32 };

    fn read(text: &[u8]) -> Option<u32> {
        read_number(text, u32::MAX)
    }
}

// A number of 16 bits.
impl Field for u16 {
    ghost read = { number16 };

    fn read(text: &[u8]) -> Option<u16> {
        read_number(text, 65535).map(|number| number as u16)
    }
}

// A number of 8 bits.
impl Field for u8 {
    ghost read = { number8 };

    fn read(text: &[u8]) -> Option<u8> {
        read_number(text, 255).map(|number| number as u8)
    }
}

// An algorithm by its number.
impl Field for Algorithm {
    ghost read = { algorithm_of };

    fn read(text: &[u8]) -> Option<Algorithm> {
        Algorithm::try_from(u8::read(text)?).ok()
    }
}

// The 16 bytes of an IK.
fn read_ik(heap: Global, text: &[u8]) -> Result<Ik, Refusal>
    ensures { Says (λ ik. ik) result (ik_of text.now) }
{
    let bytes = read_bytes(heap, text)?;
    Ik::try_from(bytes.as_slice()).map_err(|_| Refusal::BadLine)
}

impl<'a> Fields<'a> {
    // The next field, where one has to follow.
    pub fn expected(&mut self) -> Result<&'a [u8], Refusal>
        ensures field { result_map_both (λ y. y.now) (λ e. e) result ≡ ok_or (first self.old) BadLine }
        ensures rest { self.new ≡ others self.old }
    {
        self.next().ok_or(Refusal::BadLine)
    }

    // The next field as an `F`.
    pub fn read<F: Field>(&mut self) -> Result<F, Refusal>
        ensures value { result ≡ ok_or (first_as F.Field.read self.old) BadLine }
        ensures rest { self.new ≡ others self.old }
    {
        F::read(self.expected()?).ok_or(Refusal::BadLine)
    }

    // The next field as an IK. What takes memory (an IK, bytes, a segment, a packet) has a method of one line of its own: a type
    // says what is read, and the bytes that a Vec holds are no type of the definitions.
    pub fn ik(&mut self) -> Result<Ik, Refusal>
        ensures value { Says (λ ik. ik) result (first_as ik_of self.old) }
        ensures rest { self.new ≡ others self.old }
    {
        read_ik(self.heap, self.expected()?)
    }

    // The next three fields as an association.
    pub fn association(&mut self) -> Result<Association, Refusal>
        ensures { Says (λ a. (a, self.new)) result (association_of self.old) }
    {
        let algorithm = self.read()?;
        let ik = self.ik()?;
        let spi = self.read()?;
        Ok(Association { algorithm, ik, spi })
    }

    // The next field as bytes.
    pub fn bytes(&mut self) -> Result<Vec<u8>, Refusal>
        ensures value { Says vec_items result (first_as bytes_of self.old) }
        ensures rest { self.new ≡ others self.old }
    {
        read_bytes(self.heap, self.expected()?)
    }

    // That no field is left.
    pub fn end(&mut self) -> Result<(), Refusal>
        ensures { result ≡ ok_or (no_more self.old) BadLine }
    {
        match self.next() {
            None => Ok(()),
            Some(_) => Err(Refusal::BadLine),
        }
    }
}
