// A set of associations: one inbound and one outbound, made together in one registration (TS 33.203, clause 7.1).
// What a set is, what it seals and opens, and why it refuses.
#![tactic(auto)]

mod address;
mod faults;
mod ports;
mod set;
mod sets;

pub use address::{Address, Pair};
pub use faults::Fault;
pub use ports::{destination_port, source_port};
pub use set::{Parameters, Set};
