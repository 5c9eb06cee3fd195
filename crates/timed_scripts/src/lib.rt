//! Scripts whose lines begin with a moment, and the script that such a text means for the records of a capture.
#![tactic(auto)]

mod actions;
mod cutting;
mod lines;
mod moments;
mod numbers;
#[cfg(test)]
mod tests;
mod timed_text;

pub use timed_text::{TimedScript, timed_script};
