//! Ports over the shards of an image's maps: of a single caller, and of a worker's pass.
#![tactic(auto)]

mod handles;
pub mod laws;
pub mod plain;
pub mod port;
mod schedule_hook;

pub use map_port::MapPort;
pub use plain::PlainPort;
pub use port::ShardPort;
pub use schedule_hook::{Gate, NoGate, Tally};
