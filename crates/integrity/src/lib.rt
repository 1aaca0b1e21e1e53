// What an integrity algorithm means to the proxy (TS 33.203, clause 7.1; the ICV of RFC 2406, clause 2.7).
//
// Whoever seals, opens or keeps associations knows an algorithm by this interface alone. An algorithm is
// a type without a value of its own: it keeps nothing from call to call and comes in as a type parameter.
#![tactic(auto)]

ghost use Rattle.std.specs.Prelude.{◌≡◌, ℕ, List, length, take};
ghost use Rattle.std.specs.Str.{bytes_eq};

mod algorithm;

pub use algorithm::{Algorithm, UnknownAlgorithm};

// The integrity key that authentication and key agreement gave the handset and the network.
pub type Ik = [u8; 16];

// The 96 bits that close a sealed packet.
pub type Tag = [u8; 12];

pub trait Integrity {
    // How many bytes the algorithm's own key has. It is made from the 16 of IK.
    const KEY_LEN: usize;

    // The algorithm: the tag of a text of at most 4096 bytes under an IK, both byte by byte.
    ghost mac: { List ℕ → List ℕ → List ℕ };

    // The tag of a text, of which no more than the first 4096 bytes are read.
    fn tag(ik: &Ik, text: &[u8]) -> Tag
        ensures { result ≡ mac ik.now (take 4096 text.now) };

    // Every tag has 12 bytes.
    ghost twelve: { (ik text : List ℕ) → length (mac ik text) ≡ 12 };
}

// Whether two tags are the same. Every byte is looked at whatever the ones before it say, so that the time taken
// does not tell a forger how far a guess was right.
#[tactic(auto, using(crate::proofs::Differences::other_length))]
fn same(found: &[u8], due: &Tag) -> bool
    ensures { result ≡ bytes_eq found.now due.now }
{
    if found.len() != due.len() {
        return false;
    }
    found
        .iter()
        .zip(due)
        .fold(0, |difference, (a, b)| difference | (a ^ b))
        == 0
}

// Whether a tag is the one that the algorithm gives for a text.
pub fn verify<I: Integrity>(ik: &Ik, text: &[u8], tag: &[u8]) -> bool
    ensures { result ≡ bytes_eq tag.now (I.Integrity.mac ik.now (take 4096 text.now)) }
{
    same(tag, &I::tag(ik, text))
}
