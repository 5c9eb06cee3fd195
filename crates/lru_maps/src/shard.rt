//! LRU shards: the cell of each key, and which key was used longest ago.

ghost use Rattle.std.specs.Prelude.{◌≡◌, ℕ, ◌<◌, ◌≤◌, ◌+◌, List, [], length, IfOk, Some, None, option_map};
ghost use Rattle.lru_maps.specs.LruTable.{LruTable, cell_of_lru_key, touched, with_newest_key, table_without_key, victim, without_victim};
ghost use Rattle.plain_maps.specs.Listed.{ListsAll};

use crate::recency::Recency;
use plain_maps::KeyIndex;
use semantics::bytes::Key;
use std::alloc::{AllocError, Global};
use std::marker::Model;

/// The keys of one shard of an LRU map, the cell that each has, and the order of their last uses. Contracts see an `LruTable`.
#[derive(Drop)]
pub struct LruShard {
    index: KeyIndex,
    /// The cell of each entry number.
    ids: Vec<u64>,
    /// All entry numbers: those of keys by their last uses, then those that no key has.
    recency: Recency,
    /// How many keys are there.
    count: usize,
}

impl Model for LruShard {
    ghost use Rattle.lru_maps.specs.Recency.{order_of};
    ghost use Rattle.lru_maps.specs.LruTable.{LruTable};
    ghost use Rattle.lru_maps.specs.Numbered.{lru_table, IsLruShard};

    ghost Value = { LruTable };

    ghost view = { λ x. lru_table x.index x.ids.items (order_of x.recency.cache.entries) };

    ghost invariant = { λ x. IsLruShard x.index x.ids.items (order_of x.recency.cache.entries) x.count };
}

impl LruShard {
    /// A shard with no keys, and room for `capacity` keys of `size` bytes. Fails only for lack of memory; no other call takes any.
    pub fn new(alloc: Global, size: usize, capacity: u32) -> Result<Self, AllocError>
        requires size { size ≤ 32 }
        requires some { 0 < capacity }
        requires capacity { capacity < 4294967295 }
        ensures { IfOk result (λ shard. shard ≡ record { size = size; capacity = capacity; entries = [] }) }
    {
        let index = KeyIndex::new(alloc, size, capacity)?;
        let ids = vec![in alloc; 0; capacity as usize]?;
        let recency = Recency::new(alloc, capacity)?;
        let count = 0;
        Ok(LruShard {
            index,
            ids,
            recency,
            count,
        })
    }

    /// How many keys are there.
    pub fn len(&self) -> usize
        ensures count { result ≡ length self.now.entries }
        ensures within { length self.now.entries ≤ self.now.capacity }
    {
        self.count
    }

    /// How many keys there may be.
    pub fn capacity(&self) -> usize
        ensures { result ≡ self.now.capacity }
    {
        self.ids.len()
    }

    /// The cell of a key. This is no use of the key.
    pub fn find(&self, key: &[u8]) -> Option<u64>
        requires { length key.now ≡ self.now.size }
        ensures { result ≡ cell_of_lru_key self.now key.now }
    {
        self.index.keys_and_numbers();
        match self.index.find(key) {
            Some(number) => Some(self.ids[number as usize]),
            None => None,
        }
    }

    /// Each key with its cell, in no order that a contract names. This is no use of a key. Fails only for lack of memory.
    pub fn entries(&self, alloc: Global) -> Result<Vec<(Key, u64)>, AllocError>
        ensures { IfOk result (λ entries. ListsAll (cell_of_lru_key self.now) entries.items) }
    {
        self.index.keys_and_numbers();
        let entries = self.index.entries(alloc, &self.ids)?;
        Ok(entries)
    }

    /// The cell of a key, which is used: it is first. Where the key is absent nothing is changed.
    pub fn touch(&mut self, key: &[u8]) -> Option<u64>
        requires { length key.now ≡ self.old.size }
        ensures cell { result ≡ cell_of_lru_key self.old key.now }
        ensures table { self.new ≡ touched key.now self.old }
        ensures unchanged { result ≡ None → self.new ≡ self.old }
    {
        self.index.keys_and_numbers();
        self.recency.numbers_differ();
        match self.index.find(key) {
            Some(number) => {
                self.recency.touch(number);
                Some(self.ids[number as usize])
            }
            None => None,
        }
    }

    /// Gives a new key this cell. It is used: it is first.
    pub fn insert(&mut self, key: &[u8], id: u64)
        requires size { length key.now ≡ self.old.size }
        requires absent { cell_of_lru_key self.old key.now ≡ None }
        requires room { length self.old.entries < self.old.capacity }
        ensures { self.new ≡ with_newest_key key.now id self.old }
    {
        let Some(number) = self.recency.oldest() else {
            unreachable!()
        };
        self.recency.numbers_differ();
        self.index.keys_and_numbers();
        self.index.insert(key, number);
        self.index.keys_and_numbers();
        self.ids[number as usize] = id;
        self.recency.touch(number);
        self.count += 1;
    }

    /// Takes a key out, and returns the cell that it had. Where the key is absent nothing is changed.
    pub fn remove(&mut self, key: &[u8]) -> Option<u64>
        requires { length key.now ≡ self.old.size }
        ensures cell { result ≡ cell_of_lru_key self.old key.now }
        ensures table { self.new ≡ table_without_key key.now self.old }
        ensures unchanged { result ≡ None → self.new ≡ self.old }
    {
        self.recency.numbers_differ();
        self.index.keys_and_numbers();
        let removed = self.index.remove(key);
        self.index.keys_and_numbers();
        match removed {
            Some(number) => {
                self.recency.release(number);
                self.count -= 1;
                Some(self.ids[number as usize])
            }
            None => None,
        }
    }

    /// Takes the key out of a full shard that was used longest ago, and returns the cell that it had.
    pub fn evict(&mut self) -> u64
        requires { length self.old.entries ≡ self.old.capacity }
        ensures cell { option_map (λ entry. entry.1) (victim self.old) ≡ Some result }
        ensures table { self.new ≡ without_victim self.old }
        ensures count { length self.new.entries + 1 ≡ length self.old.entries }
        ensures absent { (q : List ℕ) → cell_of_lru_key self.old q ≡ None → cell_of_lru_key self.new q ≡ None }
    {
        let Some(number) = self.recency.oldest() else {
            unreachable!()
        };
        self.recency.numbers_differ();
        self.index.keys_and_numbers();
        let Some(key) = Key::of(self.index.key(number)) else {
            unreachable!()
        };
        self.index.remove(key.as_slice());
        self.index.keys_and_numbers();
        self.count -= 1;
        self.ids[number as usize]
    }
}
