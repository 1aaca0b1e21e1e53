// Words of 32 bits and the bytes that they are written in. MD5 has the low byte first, SHA-1 the high one.
ghost use Rattle.std.specs.Prelude.{◌≡◌, ◌≤◌, ℕ, ◌*◌, List};
ghost use Rattle.std.specs.List.{flat_map};
ghost use Rattle.hmac.specs.Words.{high_bytes, high_first, low_bytes, low_first, word_at, words_of};

// The order of a word's bytes.
pub trait ByteOrder {
    // The word in four bytes.
    ghost word: { ℕ → ℕ → ℕ → ℕ → ℕ };

    // The four bytes of a word.
    ghost bytes: { ℕ → List ℕ };

    fn word(four: [u8; 4]) -> u32
        ensures { result ≡ word_at word four 0 };

    fn bytes(x: u32) -> [u8; 4]
        ensures { result ≡ bytes x };
}

// The low byte first (RFC 1321, clause 2).
pub struct LowFirst;

// The high byte first (FIPS 180-4, clause 3.1).
pub struct HighFirst;

impl ByteOrder for LowFirst {
    ghost word = { low_first };

    ghost bytes = { low_bytes };

    fn word(four: [u8; 4]) -> u32 {
        u32::from_le_bytes(four)
    }

    fn bytes(x: u32) -> [u8; 4] {
        x.to_le_bytes()
    }
}

impl ByteOrder for HighFirst {
    ghost word = { high_first };

    ghost bytes = { high_bytes };

    fn word(four: [u8; 4]) -> u32 {
        u32::from_be_bytes(four)
    }

    fn bytes(x: u32) -> [u8; 4] {
        x.to_be_bytes()
    }
}

// The sixteen words of a block.
pub fn words<B: ByteOrder>(block: &[u8; 64]) -> [u32; 16]
    ensures { result ≡ words_of B.word block.now }
{
    let (fours, _) = block.as_chunks::<4>();
    let mut all = [0; 16];
    // By places, as `map` makes a digest a tenth slower, and after `iter_mut().zip(fours)` nothing is known of `all`, so that
    // the goal that it is `words_of B.word block.now` does not close.
    for (i, four) in fours.iter().enumerate() {
        all[i] = B::word(*four);
    }
    all
}

// Words one after another, byte by byte. `map` asks for a bound on how many it takes, and a digest has fewer than 16.
pub fn written<B: ByteOrder, const WORDS: usize, const BYTES: usize>(
    words: [u32; WORDS],
) -> [u8; BYTES]
    requires long { BYTES ≡ 4 * WORDS }
    requires few { WORDS ≤ 16 }
    ensures { result ≡ flat_map B.bytes words.entry }
{
    let fours = words.map(
        |x: u32| -> [u8; 4]
            ensures { result ≡ B.bytes x }
        { B::bytes(x) },
    );
    let mut out = [0; BYTES];
    out.copy_from_slice(fours.as_flattened());
    out
}
