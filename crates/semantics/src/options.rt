//! How shards are opened.

ghost use Rattle.std.specs.Prelude.{◌≡◌, ◌↔◌, ◌⊎◌, ◌%◌, ◌<◌, ◌≤◌, true, All, List};
ghost use Rattle.ebpf_decode.specs.declared.map.MapDef.{MapDef};
ghost use Rattle.semantics.specs.ShardPlan.{AreOptions, AreServedOptions, recorded, is_shard_count, are_equal_parts, are_served_options};

use ebpf_decode::MapDef;

/// The most workers.
pub const MOST_WORKERS: u32 = 8;

/// The least room of a journal, in entries.
pub const LEAST_ENTRIES: u32 = 16;

/// The most room of a journal whose rows are kept, in entries.
pub const MOST_ENTRIES: u32 = 1_048_576;

/// The room of a journal without rows: 4,000,000,000 entries.
const UNRECORDED: u32 = 4_000_000_000;

/// Whether shards keep the rows of their journals.
#[derive(Clone, Copy, Debug, PartialEq, Eq)]
pub enum Recording {
    /// They do, so a journal has room for as many entries as the options say, and can be read.
    Rows,
    /// They do not: a journal has room for 4,000,000,000 entries, which are counted and cannot be read.
    NoRows,
}

/// How shards are opened: as many for each map, with a journal for each.
#[derive(Clone, Copy, Debug, PartialEq, Eq)]
pub struct Options {
    /// How many workers there are: 1 to 8.
    pub workers: u32,
    /// How many shards each map has: 1, 2, 4 or 8.
    pub shards: u32,
    /// How many entries each shard's journal has room for: 16 to 1,048,576 where its rows are kept.
    pub journal: u32,
}

impl Options {
    /// Whether the shards of these maps can be opened so.
    pub fn fit(&self, maps: &[MapDef]) -> bool
        ensures allowed { (result ≡ true) ↔ AreServedOptions maps.now self.now }
        ensures served { result ≡ are_served_options maps.now self.now }
        ensures shards { result ≡ true → (0 < self.now.shards) × (self.now.shards ≤ 8) }
    {
        1 <= self.workers
            && self.workers <= MOST_WORKERS
            && LEAST_ENTRIES <= self.journal
            && self.journal <= MOST_ENTRIES
            && is_shard_count(self.shards)
            && are_equal_parts(maps, self.shards)
    }

    /// The options of shards that are opened so.
    pub fn recorded(self, recording: Recording) -> Self
        ensures options { result ≡ recorded recording self }
        ensures fit { (maps : List MapDef) → AreServedOptions maps self → AreOptions maps result }
    {
        match recording {
            Recording::Rows => self,
            Recording::NoRows => Options {
                workers: self.workers,
                shards: self.shards,
                journal: UNRECORDED,
            },
        }
    }
}

/// Whether a map may have this many shards.
fn is_shard_count(count: u32) -> bool
    ensures test { result ≡ is_shard_count count }
    ensures power_of_two { (result ≡ true) ↔ ((count ≡ 1) ⊎ (count ≡ 2) ⊎ (count ≡ 4) ⊎ (count ≡ 8)) }
{
    count == 1 || count == 2 || count == 4 || count == 8
}

/// Whether each map's entries can be divided among this many shards.
fn are_equal_parts(maps: &[MapDef], parts: u32) -> bool
    requires { 0 < parts }
    ensures test { result ≡ are_equal_parts maps.now parts }
    ensures each { (result ≡ true) ↔ All (λ (definition : MapDef). definition.max_entries % parts ≡ 0) maps.now }
{
    maps.iter()
        .all(|definition| definition.max_entries % parts == 0)
}
