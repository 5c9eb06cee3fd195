//! The journal of a map's shard: every call that was served, with its reply, in the room that its own kind needs.
//!
//! A shard writes an entry for each call, under its lock, so what an entry costs is what a call costs. An [`Entry`] by value has room for a
//! whole key and a whole value. Here each is a row of 12 bytes, one variant for each kind of call; keys and values are in one list of bytes beside the rows,
//! numbers in one list of words. All three rooms are taken when the journal is opened, and no later call takes memory. An Enter or a Leave is its row
//! alone, a lookup that finds its key has one word more, a load two: what an entry costs is mostly the fresh memory that it writes.
#![tactic(auto)]

mod append;
mod counted;
mod journal_of_shard;
mod log;
mod row;
mod written;

pub use append::{AtomicChange, CellRange};
pub use journal_of_shard::{Journal, MOST_ROWS};
pub use row::{key_at, value_at};
pub use semantics::{Caller, Entry};
pub use written::put_bytes;
