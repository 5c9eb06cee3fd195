//! A map's shard on one thread: the definitions of a map, run. Slow and plain, so that a faster shard can be compared with it.

pub mod answers;
mod changes;
pub mod history;
mod one_thread;
pub mod state;

pub use one_thread::OneThreadShard;
