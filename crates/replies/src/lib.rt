// The replies to the lines of a script's packet layer, under the product's algorithms.
#![tactic(auto)]

mod packets;
mod replies;

pub use packets::packet_bytes;
pub use replies::{perform, unread};
