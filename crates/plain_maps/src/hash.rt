//! Hash shards: the cell of each key.

ghost use Rattle.std.specs.Prelude.{◌≡◌, ◌<◌, ◌≤◌, ◌+◌, ℕ, List, [], length, IfOk, None, Some, cond, if◌then◌else◌};
ghost use Rattle.std.specs.Prelude.{bytes_eq, is_some, slice_index_or, vec_capacity};
ghost use Rattle.plain_maps.specs.HashTable.{HashTable, cell_of};
ghost use Rattle.plain_maps.specs.Listed.{ListsAll};

use crate::index::KeyIndex;
use semantics::bytes::Key;
use std::alloc::{AllocError, Global};
use std::marker::Model;

/// The keys of one shard of a hash map, and the cell that each has. Contracts see a `HashTable`.
#[derive(Drop)]
pub struct HashShard {
    index: KeyIndex,
    /// The cell of each entry number.
    ids: Vec<u64>,
    /// The entry numbers that no key has.
    free: Vec<u32>,
}

impl Model for HashShard {
    ghost use Rattle.std.specs.Prelude.{vec_capacity};
    ghost use Rattle.plain_maps.specs.HashTable.{HashTable, hash_table, IsHashTable};

    ghost Value = { HashTable };

    ghost view = { λ x. hash_table x.index x.ids.items };

    ghost invariant = { λ x. IsHashTable x.index x.ids.items x.free.items (vec_capacity x.free) };
}

impl HashShard {
    /// A shard with no keys, and room for `capacity` keys of `size` bytes. Fails only for lack of memory; no other call takes any.
    pub fn new(alloc: Global, size: usize, capacity: u32) -> Result<Self, AllocError>
        requires size { size ≤ 256 }
        requires capacity { capacity < 4294967295 }
        ensures { IfOk result (λ shard. shard ≡ record { size = size; capacity = capacity; entries = [] }) }
    {
        let index = KeyIndex::new(alloc, size, capacity)?;
        let ids = vec![in alloc; 0; capacity as usize]?;
        let free = all_numbers(alloc, capacity)?;
        Ok(HashShard { index, ids, free })
    }

    /// How many keys are there.
    pub fn len(&self) -> usize
        ensures { result ≡ length self.now.entries }
    {
        self.ids.len() - self.free.len()
    }

    /// How many keys there may be.
    pub fn capacity(&self) -> usize
        ensures { result ≡ self.now.capacity }
    {
        self.ids.len()
    }

    /// The cell of a key.
    pub fn find(&self, key: &[u8]) -> Option<u64>
        requires { length key.now ≡ self.now.size }
        ensures { result ≡ cell_of self.now key.now }
    {
        match self.index.find(key) {
            Some(number) => Some(self.ids[number as usize]),
            None => None,
        }
    }

    /// Each key with its cell, in no order that a contract names. Fails only for lack of memory.
    pub fn entries(&self, alloc: Global) -> Result<Vec<(Key, u64)>, AllocError>
        requires { self.now.size ≤ 32 }
        ensures { IfOk result (λ entries. ListsAll (cell_of self.now) entries.items) }
    {
        let entries = self.index.entries(alloc, &self.ids)?;
        Ok(entries)
    }

    /// Gives a new key this cell.
    pub fn insert(&mut self, key: &[u8], id: u64)
        requires size { length key.now ≡ self.old.size }
        requires absent { cell_of self.old key.now ≡ None }
        requires room { length self.old.entries < self.old.capacity }
        ensures shape { (self.new.size ≡ self.old.size) × (self.new.capacity ≡ self.old.capacity) }
        ensures count { length self.new.entries ≡ length self.old.entries + 1 }
        ensures cells { (q : List ℕ) → cell_of self.new q ≡ cond (bytes_eq key.now q) (Some id) (cell_of self.old q) }
    {
        let Some(number) = self.free.pop() else {
            unreachable!()
        };
        self.index.insert(key, number);
        self.ids[number as usize] = id;
    }

    /// Takes a key out, and returns the cell that it had.
    pub fn remove(&mut self, key: &[u8]) -> Option<u64>
        requires { length key.now ≡ self.old.size }
        ensures cell { result ≡ cell_of self.old key.now }
        ensures shape { (self.new.size ≡ self.old.size) × (self.new.capacity ≡ self.old.capacity) }
        ensures count { length self.new.entries + (if is_some result then 1 else 0) ≡ length self.old.entries }
        ensures cells { (q : List ℕ) → cell_of self.new q ≡ cond (bytes_eq key.now q) None (cell_of self.old q) }
    {
        match self.index.remove(key) {
            Some(number) => {
                self.free.push_reserved(number);
                Some(self.ids[number as usize])
            }
            None => None,
        }
    }
}

/// The numbers below `capacity`.
fn all_numbers(alloc: Global, capacity: u32) -> Result<Vec<u32>, AllocError>
    ensures count { IfOk result (λ free. length free.items ≡ capacity) }
    ensures each { IfOk result (λ free. (k : ℕ) → k < capacity → slice_index_or free.items k 0 ≡ k) }
    ensures room { IfOk result (λ free. capacity ≤ vec_capacity free) }
{
    let mut free = Vec::with_capacity(alloc, capacity as usize)?;
    for number in 0..capacity {
        free.push_reserved(number);
    }
    Ok(free)
}
