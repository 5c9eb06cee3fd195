//! The verifier and the machine as C functions, for the benchmark in bench/.
#![tactic(auto)]

mod accept;
pub mod exports;
mod running;
