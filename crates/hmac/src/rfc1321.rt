// MD5 (RFC 1321).
ghost use Rattle.hmac.specs.Md5.{auxiliary, compressed, initial, md5, output};
ghost use Rattle.hmac.specs.Words.{low_count};
ghost use Rattle.std.specs.Prelude.{◌≡◌};
ghost use Rattle.std.proofs.Common.{rules};

use crate::chaining::Digest;
use crate::words::{LowFirst, words, written};

// The digest MD5.
pub struct Md5;

// The buffer: the registers A, B, C and D.
#[derive(Clone, Copy)]
pub struct Abcd {
    a: u32,
    b: u32,
    c: u32,
    d: u32,
}

impl Digest for Md5 {
    type State = Abcd;

    type Output = [u8; 16];

    ghost hash = { md5 };

    ghost initial = { initial };

    ghost step = { compressed };

    ghost count = { low_count };

    ghost bytes = { output };

    ghost listed = { λ out. out };

    ghost made = { Prim.search rules };

    ghost cut = { Prim.search rules };

    fn start() -> Abcd {
        Abcd {
            a: 0x67452301,
            b: 0xefcdab89,
            c: 0x98badcfe,
            d: 0x10325476,
        }
    }

    fn absorb(state: &mut Abcd, block: &[u8; 64]) {
        *state = compress(*state, block);
    }

    fn bit_count(bits: u64) -> [u8; 8] {
        bits.to_le_bytes()
    }

    fn finish(state: &Abcd) -> [u8; 16] {
        written::<LowFirst, 4, 16>([state.a, state.b, state.c, state.d])
    }

    fn view(out: &[u8; 16]) -> &[u8] {
        out
    }
}

// T: the integer part of 2 ^ 32 * |sin (i + 1)|, for four steps to a row.
const SINES: [[u32; 4]; 16] = [
    [0xd76aa478, 0xe8c7b756, 0x242070db, 0xc1bdceee],
    [0xf57c0faf, 0x4787c62a, 0xa8304613, 0xfd469501],
    [0x698098d8, 0x8b44f7af, 0xffff5bb1, 0x895cd7be],
    [0x6b901122, 0xfd987193, 0xa679438e, 0x49b40821],
    [0xf61e2562, 0xc040b340, 0x265e5a51, 0xe9b6c7aa],
    [0xd62f105d, 0x02441453, 0xd8a1e681, 0xe7d3fbc8],
    [0x21e1cde6, 0xc33707d6, 0xf4d50d87, 0x455a14ed],
    [0xa9e3e905, 0xfcefa3f8, 0x676f02d9, 0x8d2a4c8a],
    [0xfffa3942, 0x8771f681, 0x6d9d6122, 0xfde5380c],
    [0xa4beea44, 0x4bdecfa9, 0xf6bb4b60, 0xbebfbc70],
    [0x289b7ec6, 0xeaa127fa, 0xd4ef3085, 0x04881d05],
    [0xd9d4d039, 0xe6db99e5, 0x1fa27cf8, 0xc4ac5665],
    [0xf4292244, 0x432aff97, 0xab9423a7, 0xfc93a039],
    [0x655b59c3, 0x8f0ccc92, 0xffeff47d, 0x85845dd1],
    [0x6fa87e4f, 0xfe2ce6e0, 0xa3014314, 0x4e0811a1],
    [0xf7537e82, 0xbd3af235, 0x2ad7d2bb, 0xeb86d391],
];

// k: which word of the block each step takes, a round to a row.
const PICKS: [[usize; 16]; 4] = [
    [0, 1, 2, 3, 4, 5, 6, 7, 8, 9, 10, 11, 12, 13, 14, 15],
    [1, 6, 11, 0, 5, 10, 15, 4, 9, 14, 3, 8, 13, 2, 7, 12],
    [5, 8, 11, 14, 1, 4, 7, 10, 13, 0, 3, 6, 9, 12, 15, 2],
    [0, 7, 14, 5, 12, 3, 10, 1, 8, 15, 6, 13, 4, 11, 2, 9],
];

// s: by how many bits each step turns, a round to a row: its four numbers come round four times.
const TURNS: [[u32; 4]; 4] = [
    [7, 12, 17, 22],
    [5, 9, 14, 20],
    [4, 11, 16, 23],
    [6, 10, 15, 21],
];

// F, G, H and I, sixteen steps each.
fn mix(t: usize, x: u32, y: u32, z: u32) -> u32
    ensures { result ≡ auxiliary t x y z }
{
    match t {
        0..16 => (x & y) | (!x & z),
        16..32 => (x & z) | (y & !z),
        32..48 => x ^ y ^ z,
        _ => y ^ (x | !z),
    }
}

// The buffer after one block.
fn compress(saved: Abcd, block: &[u8; 64]) -> Abcd
    ensures { result ≡ compressed saved block.now }
{
    let w = words::<LowFirst>(block);
    let Abcd {
        mut a,
        mut b,
        mut c,
        mut d,
    } = saved;
    // A step takes its word, its sine and its turn by its number, as the text writes it: a chain over three tables of
    // different shapes is no plainer.
    for t in 0..64 {
        let sum = a
            .wrapping_add(mix(t, b, c, d))
            .wrapping_add(w[PICKS[t / 16][t % 16]])
            .wrapping_add(SINES[t / 4][t % 4]);
        let next = b.wrapping_add(sum.rotate_left(TURNS[t / 16][t % 4]));
        a = d;
        d = c;
        c = b;
        b = next;
    }
    Abcd {
        a: a.wrapping_add(saved.a),
        b: b.wrapping_add(saved.b),
        c: c.wrapping_add(saved.c),
        d: d.wrapping_add(saved.d),
    }
}
