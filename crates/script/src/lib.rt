// Scripts of calls: reading a line, and printing an answer.
#![tactic(auto)]

mod answer;
mod decimal;
mod fields;
mod hex;
mod line;
mod lines;
mod packet;
mod packets;
mod refusal;
mod words;

pub use answer::{Answer, Call};
pub use decimal::read_number;
pub use fields::{Fields, Separator};
pub use hex::{Hex, read_bytes};
pub use line::Line;
pub use lines::{body, read_line};
pub use packet::{Packet, Source};
pub use refusal::Refusal;
pub use words::Field;
