// One subscriber's row: the sets in his slots, his registered IMPUs, and the stage of a running registration
// (TS 33.203, clauses 7.1 and 7.4.2a). Each call's work on that row; of the rest of the table a call learns one bit,
// whether another set has the same address and port.
#![tactic(auto)]

mod blocks;
mod entering;
mod keeping;
mod origin;
mod receiving;
mod row;
mod sending;

pub use blocks::{BLOCK, FIRST_BLOCK};
pub use origin::Origin;
pub use row::Row;
