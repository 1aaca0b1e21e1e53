// Bytes in hexadecimal.
ghost use Rattle.std.specs.Prelude.{◌≡◌, ℕ, ◌<◌, List, IfSome, Some, vec_items};
ghost use Rattle.script.specs.Hex.{byte_of, bytes_of, digit_of, hex_of, paired};
ghost use Rattle.script.specs.Reads.{Says};
ghost use Rattle.std.specs.Int.Digits.{AllBelowBase};

use crate::refusal::Refusal;
use std::alloc::Global;
use std::fmt;

// The value of a digit.
fn digit(byte: u8) -> Option<u32>
    ensures value { result ≡ digit_of byte }
    ensures small { IfSome result (λ d. d < 16) }
{
    char::from(byte).to_digit(16)
}

// The byte that two digits write.
fn pair(high: u8, low: u8) -> Option<u8>
    ensures { result ≡ byte_of (digit_of high) (digit_of low) }
{
    Some((16 * digit(high)? + digit(low)?) as u8)
}

// The bytes of digits, two and two.
#[tactic(auto, using(crate::proofs::Pairs::paired_whole, crate::proofs::Pairs::prefixed_even, crate::proofs::Pairs::prefixed_odd))]
fn read_pairs(heap: Global, text: &[u8]) -> Result<Vec<u8>, Refusal>
    ensures { Says vec_items result (paired text.now) }
{
    let (pairs, odd) = text.as_chunks::<2>();
    let mut bytes = Vec::new(heap);
    for [high, low] in pairs {
        bytes.push(pair(*high, *low).ok_or(Refusal::BadLine)?)?;
    }
    if !odd.is_empty() {
        return Err(Refusal::BadLine);
    }
    Ok(bytes)
}

// The bytes that a text writes, `-` for none. What `Hex` prints of bytes reads back as them.
pub fn read_bytes(heap: Global, text: &[u8]) -> Result<Vec<u8>, Refusal>
    ensures value { Says vec_items result (bytes_of text.now) }
    ensures back { (bs : List ℕ) → AllBelowBase 256 bs → text.now ≡ hex_of bs → Says vec_items result (Some bs) }
{
    match text {
        b"" => Err(Refusal::BadLine),
        b"-" => Ok(Vec::new(heap)),
        _ => read_pairs(heap, text),
    }
}

// Bytes to be printed in lower case, `-` for none.
#[derive(Clone, Copy)]
pub struct Hex<'a>(pub &'a [u8]);

impl fmt::Display for Hex<'_> {
    ghost output = { λ h. Some (hex_of h.0.now) };

    fn fmt<W: fmt::Write>(&self, f: &mut fmt::Formatter<W>) -> fmt::Result {
        if self.0.is_empty() {
            return f.write_str("-");
        }
        for &b in self.0 {
            write!(f, "{b:02x}")?;
        }
        Ok(())
    }
}
