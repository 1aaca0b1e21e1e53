// The product: the proxy and the packet layer put together from HMAC-MD5-96 as algorithm 1 and HMAC-SHA-1-96 as
// algorithm 2 (TS 33.203, clause 7.1). Which tag a packet carries is proved here, by the two algorithms' own definitions.
#![tactic(auto)]

mod packets;
mod pcscf;

pub use packets::{open, seal, tag};
pub use pcscf::Pcscf;
