// ESP packets with integrity only (RFC 2406), over any integrity algorithm: sealing a UDP segment into a
// packet, opening one again, and the replay window that lets each packet in once.
#![tactic(auto)]

mod association;
mod faults;
mod layout;
mod opening;
mod reader;
mod sealing;
mod segment;
mod suite;
mod window;

pub use association::Association;
pub use faults::Fault;
pub use layout::LONGEST_PACKET;
pub use opening::open;
pub use reader::PacketReader;
pub use sealing::{seal, sealed_len};
pub use segment::Segment;
pub use suite::Suite;
pub use window::ReplayWindow;
