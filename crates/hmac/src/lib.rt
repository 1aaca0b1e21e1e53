// Digests with blocks of 64 bytes, HMAC over any of them, and the two integrity algorithms of TS 33.203.
#![tactic(auto)]

mod algorithms;
mod chaining;
mod fips180;
mod rfc1321;
mod rfc2104;
mod words;

pub use algorithms::{HmacMd5, HmacSha1};
pub use chaining::{Digest, digest_of};
pub use fips180::Sha1;
pub use rfc1321::Md5;
pub use rfc2104::hmac;
