//! What a verifier knows of a number: unsigned intervals, what operations make of them, and what tests say of them.
#![tactic(auto)]

mod cuts;
mod interval;
mod rows;
mod transfers;

pub use cuts::refine;
pub use interval::Interval;
pub use transfers::{movsx32, movsx64, neg, swap, transfer};
