//! Receive queues: what one dispatcher hands to the workers, the controller and the reclaimer, each job once and in order.
//!
//! A queue holds up to 64 jobs. The right to put into all of them is one [`PutPass`], the right to take from one of them a
//! [`TakePass`]; each knows what was done through it, and threads share the [`Queues`] by reference.
#![tactic(auto)]

mod job;
mod passes;
mod queues;
mod rule;

pub use job::Job;
pub use map_rules::OpenFault;
pub use passes::{PutPass, Queues, TakePass};
pub use queues::spread;
pub use semantics::Caller;
