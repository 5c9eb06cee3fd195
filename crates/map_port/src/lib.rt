//! What a run calls maps through.
#![tactic(auto)]

mod port;

pub use port::MapPort;
