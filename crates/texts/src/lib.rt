// The text of each answer of a call.
#![tactic(auto)]

mod call;
mod name;

pub use call::CallAnswer;
pub use name::CallName;
