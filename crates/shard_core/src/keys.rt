//! Which key of a shard has which cell.

ghost use Rattle.std.specs.Prelude.{◌≡◌, ◌<◌, ◌≤◌, ℕ, List, [], ◌∷◌, length, IfOk, None, option_map, if◌then◌else◌};
ghost use Rattle.semantics.specs.declared.call.Entry.{Entry};
ghost use Rattle.semantics.specs.declared.plan.ShardPlan.{ShardPlan};
ghost use Rattle.semantics.specs.declared.plan.PresentKey.{PresentKey};
ghost use Rattle.semantics.specs.PlanLimits.{IsPlan};
ghost use Rattle.shard_core.specs.KeyTables.{cell_in, key_count, IsAskedSize, touched_in, victim_cell, without_victim_in, IsInserted};
ghost use Rattle.shard_core.specs.KeyTables.{IsRemoved, FitsPlan, HasKeys, IsKeyed, HasRoomForKey, MayGrow, is_full_of};
ghost use Rattle.shard_core.specs.KeyTables.{cell_there, CanBeListed};
ghost use Rattle.plain_maps.specs.Listed.{ListsAll};
ghost use Rattle.lru_maps.specs.LruTable.{cell_of_lru_key, victim, without_victim};

use ebpf_decode::MapKind;
use lru_maps::LruShard;
use plain_maps::{ArrayShard, HashShard};
use semantics::{Key, ShardPlan};
use std::alloc::{AllocError, Global};

/// The keys of a shard, each with its cell, as its map's kind keeps them.
#[derive(Drop)]
pub enum KeyTable {
    /// Of an array: its indices are always there.
    Indices { indices: ArrayShard },
    /// Of a hash map.
    Hashed { keys: HashShard },
    /// Of an LRU map: by their last uses.
    Recent { keys: LruShard },
}

impl KeyTable {
    /// The keys of a shard in which nothing has happened. Fails only for lack of memory; no other call takes any.
    pub(crate) fn open(alloc: Global, plan: &ShardPlan) -> Result<Self, AllocError>
        requires plan { IsPlan plan.now }
        ensures fits { IfOk result (λ keys. FitsPlan keys plan.now) }
        ensures none { IfOk result (λ keys. HasKeys keys [] []) }
    {
        let definition = &plan.definition;
        match definition.kind {
            MapKind::Array => Ok(KeyTable::Indices {
                indices: ArrayShard::new(definition.max_entries, plan.parts),
            }),
            MapKind::Hash => Ok(KeyTable::Hashed {
                keys: hashed(alloc, definition.key_size, plan.capacity())?,
            }),
            MapKind::LruHash => Ok(KeyTable::Recent {
                keys: recent(alloc, definition.key_size, plan.capacity())?,
            }),
        }
    }

    /// The cell of a key. This is no use of the key.
    #[inline(always)]
    pub(crate) fn find(&self, key: &[u8]) -> Option<u64>
        requires { IsAskedSize self.now (length key.now) }
        ensures { result ≡ cell_in self.now key.now }
    {
        match self {
            KeyTable::Indices { indices } => indices.find(key),
            KeyTable::Hashed { keys } => keys.find(key),
            KeyTable::Recent { keys } => keys.find(key),
        }
    }

    /// Each key that is there with its cell, of an array the indices of this part; in no order that a contract names. Fails only for lack of
    /// memory.
    pub(crate) fn entries(&self, alloc: Global, part: u32) -> Result<Vec<(Key, u64)>, AllocError>
        requires { CanBeListed self.now part }
        ensures { IfOk result (λ entries. ListsAll (cell_there self.now part) entries.items) }
    {
        match self {
            KeyTable::Indices { indices } => indices.entries(alloc, part),
            KeyTable::Hashed { keys } => keys.entries(alloc),
            KeyTable::Recent { keys } => keys.entries(alloc),
        }
    }

    /// The cell of a key, which is used. Where the key is absent nothing is changed.
    pub(crate) fn touch(&mut self, key: &[u8]) -> Option<u64>
        requires { IsAskedSize self.old (length key.now) }
        ensures cell { result ≡ cell_in self.old key.now }
        ensures table { self.new ≡ touched_in key.now self.old }
        ensures unchanged { result ≡ None → self.new ≡ self.old }
    {
        if let KeyTable::Recent { keys } = self {
            keys.touch(key)
        } else {
            self.find(key)
        }
    }

    /// How many keys are there; of an array none is counted.
    pub(crate) fn len(&self) -> usize
        ensures { result ≡ key_count self.now }
    {
        match self {
            KeyTable::Indices { .. } => 0,
            KeyTable::Hashed { keys } => keys.len(),
            KeyTable::Recent { keys } => keys.len(),
        }
    }

    /// Takes the key out of a full LRU table that was used longest ago, and returns the cell that it had. No other table gives up a key.
    pub(crate) fn evict_if_full(&mut self) -> Option<u64>
        requires { MayGrow self.old }
        ensures cell { result ≡ victim_cell self.old }
        ensures table { self.new ≡ without_victim_in self.old }
        ensures room { HasRoomForKey self.new }
        ensures size { (size : ℕ) → IsAskedSize self.old size → IsAskedSize self.new size }
        ensures absent { (q : List ℕ) → cell_in self.old q ≡ None → cell_in self.new q ≡ None }
    {
        match self {
            KeyTable::Indices { .. } => None,
            KeyTable::Hashed { .. } => None,
            KeyTable::Recent { keys } => evict_if_full(keys),
        }
    }

    /// Gives a new key this cell.
    pub(crate) fn insert(&mut self, key: &[u8], id: u64)
        requires size { IsAskedSize self.old (length key.now) }
        requires absent { cell_in self.old key.now ≡ None }
        requires room { HasRoomForKey self.old }
        ensures { IsInserted key.now id self.old self.new }
    {
        match self {
            KeyTable::Indices { .. } => unreachable!(),
            KeyTable::Hashed { keys } => keys.insert(key, id),
            KeyTable::Recent { keys } => keys.insert(key, id),
        }
    }

    /// Takes a key out, and returns the cell that it had.
    pub(crate) fn remove(&mut self, key: &[u8]) -> Option<u64>
        requires size { IsAskedSize self.old (length key.now) }
        requires keyed { IsKeyed self.old }
        ensures cell { result ≡ cell_in self.old key.now }
        ensures removed { IsRemoved key.now self.old self.new }
    {
        match self {
            KeyTable::Indices { .. } => unreachable!(),
            KeyTable::Hashed { keys } => keys.remove(key),
            KeyTable::Recent { keys } => keys.remove(key),
        }
    }
}

/// The keys of a hash map's shard, none as yet.
fn hashed(alloc: Global, size: u32, capacity: u32) -> Result<HashShard, AllocError>
    requires size { size ≤ 32 }
    requires capacity { capacity ≤ 131072 }
    ensures { IfOk result (λ keys. keys ≡ record { size = size; capacity = capacity; entries = [] }) }
{
    HashShard::new(alloc, size as usize, capacity)
}

/// The keys of an LRU map's shard, none as yet.
fn recent(alloc: Global, size: u32, capacity: u32) -> Result<LruShard, AllocError>
    requires size { size ≤ 32 }
    requires some { 0 < capacity }
    requires capacity { capacity ≤ 131072 }
    ensures { IfOk result (λ keys. keys ≡ record { size = size; capacity = capacity; entries = [] }) }
{
    LruShard::new(alloc, size as usize, capacity)
}

/// Takes the key out of a full table that was used longest ago.
fn evict_if_full(keys: &mut LruShard) -> Option<u64>
    ensures cell { result ≡ (if is_full_of keys.old then option_map (λ entry. entry.1) (victim keys.old) else None) }
    ensures table { keys.new ≡ (if is_full_of keys.old then without_victim keys.old else keys.old) }
    ensures room { length keys.new.entries < keys.new.capacity }
    ensures absent { (q : List ℕ) → cell_of_lru_key keys.old q ≡ None → cell_of_lru_key keys.new q ≡ None }
{
    if keys.len() < keys.capacity() {
        None
    } else {
        Some(keys.evict())
    }
}
