//! The rules of a map's shard that every form of it follows: which shard a key is in, whether a caller may make a call, whether the journal has room
//! for it, and what it is answered by the map's kind. They keep no state: each is passed what it depends on, so a fast shard and a plain one share them.
#![tactic(auto)]

pub mod answers;
pub mod conditions;
pub mod held;
mod open_fault;
pub mod opening;
pub mod sections;

pub use open_fault::OpenFault;
