//! What a shard is opened with, and what its state consists of.

ghost use Rattle.std.specs.Prelude.{◌≡◌, ◌<◌};
ghost use Rattle.semantics.specs.ShardPlan.{capacity};

use crate::bytes::Key;
use ebpf_decode::MapDef;

/// What a shard is opened with: its place among the shards, its map, and the room of its journal.
#[derive(Clone, Copy, Debug, PartialEq, Eq)]
pub struct ShardPlan {
    /// The shard's number among those of all maps.
    pub number: u32,
    /// Which of the map's shards it is.
    pub part: u32,
    /// How many shards the map has.
    pub parts: u32,
    /// The map.
    pub definition: MapDef,
    /// How many workers there are.
    pub workers: u32,
    /// How many entries the journal has room for.
    pub reserve: u32,
}

impl ShardPlan {
    /// How many keys the shard may have: its part of the map's entries.
    pub fn capacity(&self) -> u32
        requires { 0 < self.now.parts }
        ensures { result ≡ capacity self.now }
    {
        self.definition.max_entries / self.parts
    }
}

/// A present key, with the cell that has its value.
#[derive(Clone, Copy, Debug, PartialEq, Eq)]
pub struct PresentKey {
    pub key: Key,
    pub cell: u64,
}

/// A cell whose key was deleted or evicted, and the place of the entry that did so.
#[derive(Clone, Copy, Debug, PartialEq, Eq)]
pub struct RetiredCell {
    pub cell: u64,
    pub since: u64,
}
