// What every digest with blocks of 64 bytes shares: padding, the blocks in turn, the chaining state.
ghost use Rattle.std.specs.Prelude.{◌≡◌, ℕ, ◌+◌, ◌-◌, ◌*◌, ◌%◌, ◌^◌, ◌<◌, ◌≤◌, List, ◌++◌, length, replicate, fold};
ghost use Rattle.hmac.specs.Digest.{blocks, chained, padding};

// How many bytes a block has: B of RFC 2104.
pub const BLOCK: usize = 64;

// A digest, by its chaining state and what one block makes of it.
pub trait Digest {
    // The chaining state: the registers that a block changes.
    type State: Copy;

    // The bytes of a digest.
    type Output: Copy;

    // The digest of a message, both byte by byte.
    ghost hash: { List ℕ → List ℕ };

    // The state before the first block.
    ghost initial: { Self.State };

    // The state after one more block.
    ghost step: { Self.State → List ℕ → Self.State };

    // The 8 bytes in which the padding writes the low 64 bits of a number.
    ghost count: { ℕ → List ℕ };

    // The digest that a state stands for after the last block.
    ghost bytes: { Self.State → List ℕ };

    // An output, byte by byte.
    ghost listed: { Self.Output → List ℕ };

    fn start() -> Self::State
        ensures { result ≡ initial };

    fn absorb(state: &mut Self::State, block: &[u8; 64])
        ensures { state.new ≡ step state.old block.now };

    fn bit_count(bits: u64) -> [u8; 8]
        ensures { result ≡ count bits };

    fn finish(state: &Self::State) -> Self::Output
        ensures { listed result ≡ bytes state.now };

    // The output lent as a slice. A tag of 96 bits can be cut from it, and as a key of HMAC it fits a block.
    fn view(out: &Self::Output) -> &[u8]
        ensures value { result.now ≡ listed out.now }
        ensures long { 12 ≤ length result.now }
        ensures short { length result.now ≤ 64 };

    // The digest comes from the blocks of the padded message, one after another.
    ghost made: { (m : List ℕ) → hash m ≡ bytes (chained initial step count m) };

    // Only the low 64 bits of a message's length are written.
    ghost cut: { (n : ℕ) → count (n % 2 ^ 64) ≡ count n };
}

// The bytes, and then zeros up to a block.
pub fn filled(bytes: &[u8]) -> [u8; 64]
    requires { length bytes.now ≤ 64 }
    ensures { result ≡ bytes.now ++ replicate (64 - length bytes.now) 0 }
{
    let mut block = [0; BLOCK];
    block[..bytes.len()].copy_from_slice(bytes);
    block
}

fn absorb_all<D: Digest>(state: &mut D::State, whole: &[[u8; 64]])
    ensures { state.new ≡ fold D.Digest.step state.old whole.now }
{
    for block in whole {
        D::absorb(state, block);
    }
}

// Takes in what the whole blocks left of a message, and the padding. `bits` is the message's length in
// bits, of which the padding has only the low 64.
//
//     rest | 80 | 00 .. 00 | bits        where rest, 80 and the 8 bytes fit one block
//     rest | 80 | 00 .. 00 || 00 .. 00 | bits        else
fn close<D: Digest>(state: &mut D::State, rest: &[u8], bits: u64)
    requires { length rest.now < 64 }
    ensures { (n : ℕ) → length rest.now ≡ n % 64 → bits ≡ (8 * n) % 2 ^ 64 → state.new ≡ fold D.Digest.step state.old (blocks (rest.now ++ padding D.Digest.count n)) }
{
    let mut last = filled(rest);
    last[rest.len()] = 0x80;
    if rest.len() >= 56 {
        D::absorb(state, &last);
        last = [0; BLOCK];
    }
    last[56..64].copy_from_slice(&D::bit_count(bits));
    D::absorb(state, &last);
}

// The digest of a message that begins with `before` bytes, whole blocks that led to `state`, and goes on
// with `message`.
pub fn digest_from<D: Digest>(mut state: D::State, before: u64, message: &[u8]) -> D::Output
    requires { before % 64 ≡ 0 }
    ensures { D.Digest.listed result ≡ D.Digest.bytes (fold D.Digest.step state (blocks (message.now ++ padding D.Digest.count (before + length message.now)))) }
{
    let (whole, rest) = message.as_chunks::<BLOCK>();
    absorb_all::<D>(&mut state, whole);
    let bits = before.wrapping_add(message.len() as u64).wrapping_mul(8);
    close::<D>(&mut state, rest, bits);
    D::finish(&state)
}

// The digest of a message.
#[tactic(auto, unfolding(crate::specs::Digest::chained))]
pub fn digest_of<D: Digest>(message: &[u8]) -> D::Output
    ensures { D.Digest.listed result ≡ D.Digest.hash message.now }
{
    digest_from::<D>(D::start(), 0, message)
}
