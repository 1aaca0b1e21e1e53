// The proxy over the rows that a host lends: opening it, and its calls. Whatever the host hands over, a call answers
// or is refused with a number and a place.
#![tactic(auto)]

mod calls;
mod opening;
mod proxy;
mod table;
mod within;

pub use opening::MOST;
pub use proxy::Proxy;
