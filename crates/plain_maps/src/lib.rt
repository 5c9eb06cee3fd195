//! Shards of arrays and hash maps: which key has which cell. All room is made at open.
#![tactic(auto)]

pub mod array;
pub mod buckets;
pub mod hash;
pub mod index;
mod number_block;
mod number_list;
mod search;

pub use array::ArrayShard;
pub use hash::HashShard;
pub use index::KeyIndex;
