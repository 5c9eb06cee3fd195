//! The index.

ghost use Rattle.std.specs.Prelude.{◌≡◌, ◌<◌, ◌≤◌, ◌+◌, ◌*◌, ◌^◌, ◌≢◌, ℕ, List, [], length, IfOk, IfSome, None, Some};
ghost use Rattle.std.specs.Prelude.{cond, if◌then◌else◌};
ghost use Rattle.std.specs.Prelude.{is_some, bytes_eq, map};
ghost use Rattle.plain_maps.specs.Keyed.{KeyMap, entry_number_of, key_of_number, AreInverse};
ghost use Rattle.plain_maps.specs.Hashing.{home_of};
ghost use Rattle.plain_maps.specs.Buckets.{bucket_at};
ghost use Rattle.plain_maps.specs.Keyed.{key_of, entries_of, numbers_there};
ghost use Rattle.plain_maps.specs.HashTable.{with_id};
ghost use Rattle.plain_maps.specs.Listed.{ListsAll, item_of};

use crate::buckets::{Bucket, cleared, found_in, home_of, placed};
use crate::number_list::NumberList;
use crate::search::{key_at, search};
use map_cells::blocks::write_at;
use semantics::bytes::Key;
use std::alloc::{AllocError, Global};
use std::marker::Model;

/// A map from keys of one size to entry numbers. Keys are in buckets by their hash, and those that find no place there in order: so no
/// key, not even one that an attacker chose, costs more than the logarithm.
#[derive(Drop)]
pub struct KeyIndex {
    size: usize,
    capacity: usize,
    /// The keys by entry number, one behind the other.
    keys: Vec<u8>,
    /// Whether an entry number has a key.
    is_there: Vec<bool>,
    buckets: Vec<Bucket>,
    /// The numbers that are in no bucket, by rising keys.
    order: NumberList,
}

impl Model for KeyIndex {
    ghost use Rattle.plain_maps.specs.Keyed.{KeyMap, key_map};
    ghost use Rattle.plain_maps.specs.Buckets.{IsIndex};

    ghost Value = { KeyMap };

    ghost view = { λ x. key_map x.size x.capacity x.keys.items x.is_there.items };

    ghost invariant = { λ x. IsIndex x.size x.capacity x.keys.items x.is_there.items x.order.numbers x.order.room x.buckets.items };
}

impl KeyIndex {
    /// An index with no keys, and room for `capacity` keys of `size` bytes. Fails only for lack of memory; no other call takes any.
    pub fn new(alloc: Global, size: usize, capacity: u32) -> Result<Self, AllocError>
        requires size { size ≤ 256 }
        requires capacity { capacity < 4294967295 }
        ensures { IfOk result (λ index. index ≡ record { size = size; capacity = capacity; entries = [] }) }
    {
        let capacity = capacity as usize;
        Ok(KeyIndex {
            size,
            capacity,
            keys: vec![in alloc; 0; capacity * size]?,
            is_there: vec![in alloc; false; capacity]?,
            buckets: vec![in alloc; Bucket::EMPTY; bucket_count(capacity)]?,
            order: NumberList::new(alloc, capacity)?,
        })
    }

    /// The entry number of a key.
    pub fn find(&self, key: &[u8]) -> Option<u32>
        requires { length key.now ≡ self.now.size }
        ensures number { result ≡ entry_number_of self.now key.now }
        ensures within { IfSome result (λ n. n < self.now.capacity) }
    {
        let home = home_in(&self.buckets, key);
        let bucket = bucket_in(&self.buckets, home);
        if let Some(number) = found_in(&self.keys, self.size, &bucket, key) {
            return Some(number);
        }
        if bucket.over == 0 {
            return None;
        }
        match search(&self.keys, self.size, self.capacity, &self.order, key) {
            Ok(at) => Some(self.order.get(at)),
            Err(_) => None,
        }
    }

    /// The key that has an entry number, which some key must have.
    pub fn key(&self, number: u32) -> &[u8]
        requires { (q : List ℕ) × (entry_number_of self.now q ≡ Some number) }
        ensures key { entry_number_of self.now result.now ≡ Some number }
        ensures size { length result.now ≡ self.now.size }
    {
        key_at(&self.keys, self.size, number as usize)
    }

    /// Does nothing: a key has a number exactly where the number has the key, and each such number is below the capacity.
    pub fn keys_and_numbers(&self)
        ensures inverse { AreInverse (entry_number_of self.now) (key_of_number self.now) }
        ensures small { (q : List ℕ) (n : ℕ) → entry_number_of self.now q ≡ Some n → n < self.now.capacity }
    {
        let _capacity = self.capacity;
    }

    /// Each key, with what `items` has at its entry number. Fails only for lack of memory.
    pub fn entries(&self, alloc: Global, items: &[u64]) -> Result<Vec<(Key, u64)>, AllocError>
        requires size { self.now.size ≤ 32 }
        requires items { length items.now ≡ self.now.capacity }
        ensures { IfOk result (λ entries. ListsAll (item_of self.now items.now) entries.items) }
    {
        let entries = listed(alloc, &self.keys, self.size, &self.is_there, items)?;
        Ok(entries)
    }

    /// Gives a new key an entry number that no key has.
    pub fn insert(&mut self, key: &[u8], number: u32)
        requires size { length key.now ≡ self.old.size }
        requires absent { entry_number_of self.old key.now ≡ None }
        requires number { number < self.old.capacity }
        requires unused { (q : List ℕ) → entry_number_of self.old q ≢ Some number }
        ensures shape { (self.new.size ≡ self.old.size) × (self.new.capacity ≡ self.old.capacity) }
        ensures count { length self.new.entries ≡ length self.old.entries + 1 }
        ensures lookups { (q : List ℕ) → entry_number_of self.new q ≡ cond (bytes_eq key.now q) (Some number) (entry_number_of self.old q) }
    {
        let home = home_in(&self.buckets, key);
        let bucket = bucket_in(&self.buckets, home);
        if let Some(more) = placed(number, bucket) {
            self.buckets[home] = more;
            write_at(&mut self.keys, self.size, number as usize, 0, key);
            self.is_there[number as usize] = true;
            return;
        }
        let at = match search(&self.keys, self.size, self.capacity, &self.order, key) {
            Ok(_) => unreachable!(),
            Err(at) => at,
        };
        self.order.insert(at, number);
        let over = bucket.over + 1;
        self.buckets[home] = Bucket { over, ..bucket };
        write_at(&mut self.keys, self.size, number as usize, 0, key);
        self.is_there[number as usize] = true;
    }

    /// Takes a key out, and returns the entry number that it had.
    pub fn remove(&mut self, key: &[u8]) -> Option<u32>
        requires { length key.now ≡ self.old.size }
        ensures value { result ≡ entry_number_of self.old key.now }
        ensures within { IfSome result (λ n. n < self.old.capacity) }
        ensures freed { IfSome result (λ n. (q : List ℕ) → entry_number_of self.new q ≢ Some n) }
        ensures shape { (self.new.size ≡ self.old.size) × (self.new.capacity ≡ self.old.capacity) }
        ensures count { length self.new.entries + (if is_some result then 1 else 0) ≡ length self.old.entries }
        ensures lookups { (q : List ℕ) → entry_number_of self.new q ≡ cond (bytes_eq key.now q) None (entry_number_of self.old q) }
    {
        let home = home_in(&self.buckets, key);
        let bucket = bucket_in(&self.buckets, home);
        if let Some(number) = found_in(&self.keys, self.size, &bucket, key) {
            self.buckets[home] = cleared(number, bucket);
            self.is_there[number as usize] = false;
            return Some(number);
        }
        if bucket.over == 0 {
            return None;
        }
        match search(&self.keys, self.size, self.capacity, &self.order, key) {
            Ok(at) => {
                let number = self.order.remove(at);
                let over = bucket.over - 1;
                self.buckets[home] = Bucket { over, ..bucket };
                self.is_there[number as usize] = false;
                Some(number)
            }
            Err(_) => None,
        }
    }
}

/// The keys of the entry numbers whose flags are set, each with the item of its number.
fn listed(
    alloc: Global,
    keys: &[u8],
    size: usize,
    is_there: &[bool],
    items: &[u64],
) -> Result<Vec<(Key, u64)>, AllocError>
    requires short { size ≤ 32 }
    requires keys { length keys.now ≡ length is_there.now * size }
    requires items { length items.now ≡ length is_there.now }
    ensures { IfOk result
        (λ entries. entries.items ≡ map (with_id items.now) (entries_of size keys.now (numbers_there 0 is_there.now))) }
{
    let mut entries = Vec::new(alloc);
    'numbers: for number in 0..is_there.len() {
        if is_there[number] {
            entries.push((copied_key(keys, size, number), items[number]))?;
        }
    }
    Ok(entries)
}

/// A copy of the key of an entry number.
fn copied_key(keys: &[u8], size: usize, number: usize) -> Key
    requires within { number * size + size ≤ length keys.now }
    requires short { size ≤ 32 }
    ensures { result ≡ key_of size keys.now number }
{
    let Some(key) = Key::of(key_at(keys, size, number)) else {
        unreachable!()
    };
    key
}

/// The number of a key's bucket.
fn home_in(buckets: &[Bucket], key: &[u8]) -> usize
    requires { 0 < length buckets.now }
    ensures home { result ≡ home_of (length buckets.now) key.now }
    ensures within { result < length buckets.now }
{
    home_of(key, buckets.len())
}

/// The bucket of this number.
fn bucket_in(buckets: &[Bucket], number: usize) -> Bucket
    requires { number < length buckets.now }
    ensures { result ≡ bucket_at buckets.now number }
{
    buckets[number]
}

/// How many buckets an index has: a power of two, at least twice the capacity.
fn bucket_count(capacity: usize) -> usize
    requires { capacity < 4294967295 }
    ensures some { 0 < result }
    ensures few { result < 2 ^ 36 }
{
    let mut count = 1;
    for _ in 0..34 {
        if count < 2 * capacity {
            count *= 2;
        }
    }
    count
}
