//! Replays of the shipped program: each run follows the steering rule, the counts in its maps are those of the report, and its lookup table
//! at the end is that of the backends that the script leaves up.
#![tactic(auto)]

pub mod laws;
mod words;

pub use words::last_words;
