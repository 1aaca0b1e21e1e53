// Reading the script lines that call the proxy, and lines of the whole grammar.
#![tactic(auto)]

mod addresses;
mod line;
mod lines;
mod messages;
mod opening;
mod outcomes;

pub use line::{CallLine, Line};
pub use lines::read_line;
pub use opening::Opening;
