// The three slots in which a subscriber's sets of associations stand (TS 33.203, clause 7.4), their moves and
// their expiry, for every kind of set that has an expiry.
//
// A registration makes a new set while the set before it still carries traffic, so that there are up to three:
//
//     registration --success--> current --success under it--> old
#![tactic(auto)]

mod cover;
mod expiring;
mod slot;
mod three;

pub use cover::Cover;
pub use expiring::Expiring;
pub use slot::Slot;
pub use three::Slots;
