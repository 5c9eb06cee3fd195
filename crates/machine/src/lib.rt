//! The machine: runs an image that the verifier accepted, on one frame.
#![tactic(auto)]

mod advance;
mod arms;
mod calls;
mod exit;
mod facts;
mod map_call;
mod moment;
mod next;
mod onward;
mod rare;
mod rest;
mod runner;
mod words;

pub use exit::{Exit, Stop};
pub use map_port::MapPort;
pub use moment::Moment;
pub use runner::run;
