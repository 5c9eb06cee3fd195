//! Shards that evict the key that was used longest ago.
#![tactic(auto)]

pub mod laws;
pub mod recency;
pub mod shard;

pub use recency::Recency;
pub use shard::LruShard;
