//! What callers do on shards, and whose deeds are kept together. No value of these types is made: they are what contracts see.

use semantics::{Call, Caller, Entry};
use std::collections::LinkedList;

/// What a caller did on a shard.
pub enum Deed {
    /// It made this entry.
    Wrote { entry: Entry },
    /// Its call met a full journal.
    MetFull { who: Caller, call: Call },
}

/// Whose deeds are kept together.
pub enum OrderPart {
    /// All that was done on the shard of this number.
    OnShard { number: u32 },
    /// All that the caller did, on every shard.
    ByCaller { who: Caller },
    /// What was done first: the order begins with it, and then goes on.
    AtFirst,
}

/// The deeds of one part, the newest first.
pub struct Account {
    pub part: OrderPart,
    pub deeds: LinkedList<Deed>,
}
