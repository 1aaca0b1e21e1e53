// SHA-1 (FIPS 180-4).
ghost use Rattle.hmac.specs.Sha1.{compressed, constant, function, initial, output, schedule, sha1};
ghost use Rattle.hmac.specs.Words.{high_count};
ghost use Rattle.std.specs.Prelude.{◌≡◌};
ghost use Rattle.std.proofs.Common.{rules};

use crate::chaining::Digest;
use crate::words::{HighFirst, words, written};

// The digest SHA-1.
pub struct Sha1;

// The working variables, and between blocks the hash value.
#[derive(Clone, Copy)]
pub struct Working {
    a: u32,
    b: u32,
    c: u32,
    d: u32,
    e: u32,
}

impl Digest for Sha1 {
    type State = Working;

    type Output = [u8; 20];

    ghost hash = { sha1 };

    ghost initial = { initial };

    ghost step = { compressed };

    ghost count = { high_count };

    ghost bytes = { output };

    ghost listed = { λ out. out };

    ghost made = { Prim.search rules };

    ghost cut = { Prim.search rules };

    fn start() -> Working {
        Working {
            a: 0x67452301,
            b: 0xefcdab89,
            c: 0x98badcfe,
            d: 0x10325476,
            e: 0xc3d2e1f0,
        }
    }

    fn absorb(state: &mut Working, block: &[u8; 64]) {
        *state = compress(*state, block);
    }

    fn bit_count(bits: u64) -> [u8; 8] {
        bits.to_be_bytes()
    }

    fn finish(state: &Working) -> [u8; 20] {
        written::<HighFirst, 5, 20>([state.a, state.b, state.c, state.d, state.e])
    }

    fn view(out: &[u8; 20]) -> &[u8] {
        out
    }
}

// f of round t: Ch, Parity, Maj and Parity, twenty rounds each.
fn mix(t: usize, x: u32, y: u32, z: u32) -> u32
    ensures { result ≡ function t x y z }
{
    match t {
        0..20 => (x & y) ^ (!x & z),
        40..60 => (x & y) ^ (x & z) ^ (y & z),
        _ => x ^ y ^ z,
    }
}

// K of round t.
fn constant_of(t: usize) -> u32
    ensures { result ≡ constant t }
{
    match t {
        0..20 => 0x5a827999,
        20..40 => 0x6ed9eba1,
        40..60 => 0x8f1bbcdc,
        _ => 0xca62c1d6,
    }
}

// The message schedule: the sixteen words of the block, and 64 made from them.
fn expand(block: &[u8; 64]) -> [u32; 80]
    ensures { result ≡ schedule block.now }
{
    let mut w = [0; 80];
    w[..16].copy_from_slice(&words::<HighFirst>(block));
    // Each word is made from earlier ones by their numbers, as the standard writes it: no chain over the words is plainer.
    for j in 16..80 {
        w[j] = (w[j - 3] ^ w[j - 8] ^ w[j - 14] ^ w[j - 16]).rotate_left(1);
    }
    w
}

// The hash value after one block.
fn compress(hash: Working, block: &[u8; 64]) -> Working
    ensures { result ≡ compressed hash block.now }
{
    let w = expand(block);
    let Working {
        mut a,
        mut b,
        mut c,
        mut d,
        mut e,
    } = hash;
    // A round's function and constant go by its number t.
    for (t, word) in w.iter().enumerate() {
        let next = a
            .rotate_left(5)
            .wrapping_add(mix(t, b, c, d))
            .wrapping_add(e)
            .wrapping_add(constant_of(t))
            .wrapping_add(*word);
        e = d;
        d = c;
        c = b.rotate_left(30);
        b = a;
        a = next;
    }
    Working {
        a: a.wrapping_add(hash.a),
        b: b.wrapping_add(hash.b),
        c: c.wrapping_add(hash.c),
        d: d.wrapping_add(hash.d),
        e: e.wrapping_add(hash.e),
    }
}
