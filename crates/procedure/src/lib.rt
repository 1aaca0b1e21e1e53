// What a registration is made of (TS 33.203, clauses 7.1 to 7.4): the handset's offer, the proxy's choice, the stages, the
// messages and outcomes that the host reports, what a segment goes by, and why a call is refused.
#![tactic(auto)]

mod carrier;
mod chosen;
mod faults;
mod message;
mod offer;
mod service;
mod stage;

pub use carrier::{Carrier, Sent};
pub use chosen::Chosen;
pub use faults::Fault;
pub use message::{Arrived, Message, Outcome};
pub use offer::Offer;
pub use service::{Preference, Service};
pub use stage::{Phase, Procedure, Stage};
