//! Array shards: the cell of each index.

ghost use Rattle.std.specs.Prelude.{◌≡◌, ◌<◌, ◌≤◌, ◌/◌, ◌%◌, ◌^◌, length, IfOk};
ghost use Rattle.semantics.specs.LittleEndian.{number_of_bytes, bytes_of_number};
ghost use Rattle.plain_maps.specs.ArrayTable.{cell_of_array_index, cell_in_part};
ghost use Rattle.plain_maps.specs.Listed.{ListsAll};

use semantics::bytes::Key;
use semantics::little_endian::{bytes_of_number, number_of_bytes};
use std::alloc::{AllocError, Global};

/// The indices of one shard of an array. All of them are there from the start, each with the cell whose id is its rank in the shard.
#[derive(Drop)]
pub struct ArrayShard {
    max_entries: u32,
    parts: u32,
    ghost some_part: { 0 < parts },
}

impl ArrayShard {
    /// A shard of an array of `max_entries` indices that are dealt to `parts` shards.
    pub fn new(max_entries: u32, parts: u32) -> Self
        requires { 0 < parts }
        ensures entries { result.max_entries ≡ max_entries }
        ensures parts { result.parts ≡ parts }
    {
        ArrayShard { max_entries, parts }
    }

    /// The cell of an index of this shard, given as a key; none past the array's end.
    pub fn find(&self, key: &[u8]) -> Option<u64>
        requires { length key.now ≤ 8 }
        ensures { result ≡ cell_of_array_index self.now.max_entries self.now.parts (number_of_bytes key.now) }
    {
        let index = index_of(key);
        if index < u64::from(self.max_entries) {
            Some(rank_of(index, self.parts))
        } else {
            None
        }
    }

    /// Each index of the shard of this part as a key, with its cell, by rising indices. Fails only for lack of memory.
    pub fn entries(&self, alloc: Global, part: u32) -> Result<Vec<(Key, u64)>, AllocError>
        requires part { part < self.now.parts }
        requires equal_parts { self.now.max_entries % self.now.parts ≡ 0 }
        ensures { IfOk result (λ entries. ListsAll (cell_in_part self.now.max_entries self.now.parts part) entries.items) }
    {
        index_entries(alloc, self.max_entries, self.parts, part)
    }
}

/// Each index of a part as a key, with its cell, by rising indices.
fn index_entries(
    alloc: Global,
    max_entries: u32,
    parts: u32,
    part: u32,
) -> Result<Vec<(Key, u64)>, AllocError>
    requires part { part < parts }
    requires equal_parts { max_entries % parts ≡ 0 }
    ensures { IfOk result (λ entries. ListsAll (cell_in_part max_entries parts part) entries.items) }
{
    let mut entries = Vec::new(alloc);
    let count = u64::from(max_entries / parts);
    'ranks: for rank in 0..count {
        let index = rank * u64::from(parts) + u64::from(part);
        entries.push((key_of_index(index), rank))?;
    }
    Ok(entries)
}

/// The key of an index: its four bytes, the lowest first.
fn key_of_index(index: u64) -> Key
    requires { index < 2 ^ 32 }
    ensures { result ≡ bytes_of_number 4 index }
{
    let mut key = Key::empty();
    key.append(bytes_of_number(4, index).as_slice());
    key
}

/// The index that a key represents. Most keys have four bytes, which are read in one step.
fn index_of(key: &[u8]) -> u64
    requires { length key.now ≤ 8 }
    ensures { result ≡ number_of_bytes key.now }
{
    match key {
        [a, b, c, d] => u64::from(u32::from_le_bytes([*a, *b, *c, *d])),
        _ => number_of_bytes(key),
    }
}

/// How many indices of the same shard are before this one. The numbers of parts that maps are opened with have a case each, since a
/// division by a variable takes longer than all the rest.
fn rank_of(index: u64, parts: u32) -> u64
    requires { 0 < parts }
    ensures { result ≡ index / parts }
{
    if parts == 1 {
        index
    } else {
        rank_among(index, parts)
    }
}

/// The same among several parts. It is a function of its own, since from four cases on they would be one jump through a table, which takes
/// longer than a lookup's other steps.
#[inline(never)]
fn rank_among(index: u64, parts: u32) -> u64
    requires { 0 < parts }
    ensures { result ≡ index / parts }
{
    match parts {
        2 => index / 2,
        4 => index / 4,
        8 => index / 8,
        _ => index / u64::from(parts),
    }
}
