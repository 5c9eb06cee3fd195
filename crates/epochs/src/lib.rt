//! When a retired cell may be freed (epoch-based reclamation): no reader is left that entered before its retirement.
//!
//! An `EpochBook` counts the runs inside a shard by the epoch in which each entered. A retirement ends an epoch, and its stamp is the
//! epoch that it ends: so a stamp is below the floor, the oldest epoch that has a run inside, exactly where every run inside entered after
//! that retirement.
#![tactic(auto)]

pub mod book;
pub mod counts;

pub use book::EpochBook;
