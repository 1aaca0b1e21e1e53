// The integrity algorithms of TS 33.203: HMAC cut to 96 bits, over the first 4096 bytes of a text.
ghost use Rattle.std.specs.Prelude.{◌≡◌, ◌-◌, ◌≤◌, ◌++◌, take, replicate};
ghost use Rattle.hmac.specs.Algorithms.{hmac_md5_tag, hmac_sha1_tag};
ghost use Rattle.hmac.specs.Hmac.{hmac_of};
ghost use Rattle.std.proofs.Math.Path.{refl};

use crate::chaining::Digest;
use crate::fips180::Sha1;
use crate::rfc1321::Md5;
use crate::rfc2104::hmac;
use integrity::{Ik, Integrity, Tag};

// How much of a text is read.
const LONGEST: usize = 4096;

// HMAC-MD5-96 (RFC 2403): the key is IK itself.
pub struct HmacMd5;

// HMAC-SHA-1-96 (RFC 2404): the key is IK and four zero bytes (TS 33.203, annex I).
pub struct HmacSha1;

// Both algorithms are `cut` over `expanded`. The two impls stay apart, since each one's `mac` names the definition of its
// own RFC.
impl Integrity for HmacMd5 {
    const KEY_LEN: usize = 16;

    ghost mac = { hmac_md5_tag };

    ghost twelve = { unfold hmac_md5_tag hmac_of in λ ik text. refl };

    #[tactic(auto, unfolding(crate::specs::Algorithms::hmac_md5_tag))]
    fn tag(ik: &Ik, text: &[u8]) -> Tag {
        cut::<Md5>(&expanded::<{ HmacMd5::KEY_LEN }>(ik), text)
    }
}

impl Integrity for HmacSha1 {
    const KEY_LEN: usize = 20;

    ghost mac = { hmac_sha1_tag };

    ghost twelve = { unfold hmac_sha1_tag hmac_of in λ ik text. refl };

    #[tactic(auto, unfolding(crate::specs::Algorithms::hmac_sha1_tag))]
    fn tag(ik: &Ik, text: &[u8]) -> Tag {
        cut::<Sha1>(&expanded::<{ HmacSha1::KEY_LEN }>(ik), text)
    }
}

// A key of N bytes: IK, and then zeros.
fn expanded<const N: usize>(ik: &Ik) -> [u8; N]
    requires { 16 ≤ N }
    ensures { result ≡ ik.now ++ replicate (N - 16) 0 }
{
    let mut key = [0; N];
    key[..16].copy_from_slice(ik);
    key
}

// The first 96 bits of HMAC over what is read of a text.
#[tactic(auto, using(std::proofs::lemmas::List::take_min))]
fn cut<D: Digest>(key: &[u8], text: &[u8]) -> Tag
    ensures { result ≡ take 12 (hmac_of D.Digest.hash key.now (take 4096 text.now)) }
{
    let n = LONGEST.min(text.len());
    let whole = hmac::<D>(key, &text[..n]);
    *D::view(&whole).first_chunk().unwrap()
}
