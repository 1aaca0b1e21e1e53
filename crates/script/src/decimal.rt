// Numbers in decimal.
ghost use Rattle.std.specs.Prelude.{◌≡◌, ℕ, ◌<◌, ◌≤◌, length, IfSome, Some, decimal};
ghost use Rattle.script.specs.Decimal.{longer, number_of};

// The number that a text writes, if it is one and at most `most`. What `{}` prints of a number reads back as it.
#[tactic(auto, using(crate::proofs::Digits::number_back, crate::proofs::Digits::number_within, crate::proofs::Digits::number_none, std::proofs::lemmas::Fmt::decimal_nonempty))]
pub fn read_number(text: &[u8], most: u32) -> Option<u32>
    ensures value { result ≡ number_of most text.now }
    ensures within { IfSome result (λ n. n ≤ most) }
    ensures back { (n : ℕ) → n ≤ most → text.now ≡ decimal n → result ≡ Some n }
{
    if text.is_empty() {
        None
    } else {
        read_digits(text, most)
    }
}

// The number that the digits of a text write, at most `most`.
#[tactic(auto, using(crate::proofs::Digits::number_read, crate::proofs::Digits::read_more, crate::proofs::Digits::read_end))]
fn read_digits(text: &[u8], most: u32) -> Option<u32>
    ensures { 0 < length text.now → result ≡ number_of most text.now }
{
    let mut number = 0;
    for b in text {
        number = with_digit(number, *b, most)?;
    }
    Some(number)
}

// A number with one more digit behind it, if the byte is a digit and the number at most `most`.
fn with_digit(number: u32, byte: u8, most: u32) -> Option<u32>
    ensures { result ≡ longer most number byte }
{
    let digit = char::from(byte).to_digit(10)?;
    let longer = u64::from(number) * 10 + u64::from(digit);
    if longer > u64::from(most) {
        None
    } else {
        Some(longer as u32)
    }
}
