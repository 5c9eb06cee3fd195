//! What the helper functions of programs take, answer and do (Linux's XDP).
#![tactic(auto)]

pub mod arguments;
mod head;

pub use head::adjust_head;
