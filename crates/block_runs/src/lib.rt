//! What a program does, as a plan of calls, verdict and frame; and the law by which it is shown block by block.
#![tactic(auto)]

pub mod laws;
