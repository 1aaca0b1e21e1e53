// HMAC (RFC 2104), once for every digest.
ghost use Rattle.std.specs.Prelude.{◌≡◌, ◌≤◌, ◌++◌, length};
ghost use Rattle.hmac.specs.Hmac.{hmac_of, keyed};

use crate::chaining::{BLOCK, Digest, digest_from, digest_of, filled};

// The byte that the inner key is xored with, and that of the outer key.
const IPAD: u8 = 0x36;

const OPAD: u8 = 0x5c;

// The key filled up to a block, each byte xored with `pad`.
fn key_block(key: &[u8], pad: u8) -> [u8; 64]
    requires { length key.now ≤ 64 }
    ensures { result ≡ keyed pad key.now }
{
    let mut block = filled(key);
    for byte in &mut block {
        *byte ^= pad;
    }
    block
}

// The digest of a block and then a message.
fn digest_after<D: Digest>(block: &[u8; 64], message: &[u8]) -> D::Output
    ensures { D.Digest.listed result ≡ D.Digest.hash (block.now ++ message.now) }
{
    let mut state = D::start();
    D::absorb(&mut state, block);
    digest_from::<D>(state, BLOCK as u64, message)
}

// HMAC under a key of at most one block.
fn with_short_key<D: Digest>(key: &[u8], message: &[u8]) -> D::Output
    requires { length key.now ≤ 64 }
    ensures { D.Digest.listed result ≡ D.Digest.hash (keyed 0x5c key.now ++ D.Digest.hash (keyed 0x36 key.now ++ message.now)) }
{
    let inner = digest_after::<D>(&key_block(key, IPAD), message);
    digest_after::<D>(&key_block(key, OPAD), D::view(&inner))
}

// HMAC of a message. A key longer than a block is hashed first.
#[tactic(auto, unfolding(crate::specs::Hmac::hmac_of))]
pub fn hmac<D: Digest>(key: &[u8], message: &[u8]) -> D::Output
    ensures { D.Digest.listed result ≡ hmac_of D.Digest.hash key.now message.now }
{
    if key.len() > BLOCK {
        let hashed = digest_of::<D>(key);
        with_short_key::<D>(D::view(&hashed), message)
    } else {
        with_short_key::<D>(key, message)
    }
}
