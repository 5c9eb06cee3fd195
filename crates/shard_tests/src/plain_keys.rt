//! Keys in and out, in a small index and in a large one.

mod colliding;

ghost use Rattle.std.specs.Prelude.{◌≡◌, IfOk, length};

use crate::asserting::{holds, same};
use crate::cell_places::{held_cell, two_retired_cells};
use plain_maps::{ArrayShard, HashShard, KeyIndex};
use std::alloc::{AllocError, Global};
use std::process::Abort;

#[test]
fn a_key_comes_and_goes(rt: HostRuntime) -> Result<(), AllocError> {
    let mut index = KeyIndex::new(rt.alloc(), 5, 4)?;
    same(&rt, "not there at first", &index.find(b"hello"), &None);
    index.insert(b"hello", 3);
    same(&rt, "the key", &index.find(b"hello"), &Some(3));
    same(&rt, "another key", &index.find(b"hellp"), &None);
    same(&rt, "it is removed", &index.remove(b"hello"), &Some(3));
    same(&rt, "and is gone", &index.find(b"hello"), &None);
    same(&rt, "nothing to remove", &index.remove(b"hello"), &None);
    Ok(())
}

/// Whether the key is there, and is the key of its number.
fn gives_back(index: &KeyIndex, key: &[u8]) -> bool
    requires { length key.now ≡ index.now.size }
{
    match index.find(key) {
        Some(number) => index.key(number) == key,
        None => false,
    }
}

#[test]
fn a_large_index(rt: HostRuntime) -> Result<(), AllocError> {
    let mut index = KeyIndex::new(rt.alloc(), 16, 131_072)?;
    index.insert(&[7; 16], 131_071);
    holds(&rt, "the key of its number", gives_back(&index, &[7; 16]));
    holds(&rt, "no number, no key", !gives_back(&index, &[8; 16]));
    same(&rt, "the key", &index.find(&[7; 16]), &Some(131_071));
    same(&rt, "another key", &index.find(&[8; 16]), &None);
    Ok(())
}

#[test]
fn a_key_of_a_hash_shard_has_its_cell(rt: HostRuntime) -> Result<(), AllocError> {
    let mut shard = HashShard::new(rt.alloc(), 4, 131_072)?;
    shard.insert(b"abcd", 1_000_000);
    same(&rt, "the key", &shard.find(b"abcd"), &Some(1_000_000));
    same(&rt, "another key", &shard.find(b"abce"), &None);
    same(
        &rt,
        "it is removed",
        &shard.remove(b"abcd"),
        &Some(1_000_000),
    );
    same(&rt, "and is gone", &shard.find(b"abcd"), &None);
    Ok(())
}

#[test]
fn an_index_of_an_array_shard_has_its_cell(rt: HostRuntime) {
    // 12 indices in 4 shards: index 9 is the third of its shard.
    let shard = ArrayShard::new(12, 4);
    same(&rt, "index 9", &shard.find(&[9, 0, 0, 0]), &Some(2));
    same(&rt, "past the end", &shard.find(&[12, 0, 0, 0]), &None);
    same(&rt, "9 in its low byte", &shard.find(&[9, 0, 0, 1]), &None);
}

/// Puts A into a shard of one key, takes it out for B, and finds B.
fn a_and_b(rt: &impl Abort, alloc: Global) -> Result<HashShard, AllocError>
    ensures size { IfOk result (λ shard. shard.size ≡ 1) }
{
    let mut shard = HashShard::new(alloc, 1, 1)?;
    shard.insert(b"A", 0);
    same(rt, "A's cell", &shard.remove(b"A"), &Some(0));
    shard.insert(b"B", 1);
    same(rt, "B's cell", &shard.find(b"B"), &Some(1));
    Ok(shard)
}

#[test]
fn two_retired_cells_leave_none_for_a_new_key(rt: HostRuntime) -> Result<(), AllocError> {
    two_retired_cells(&rt, rt.alloc())?;
    let mut shard = a_and_b(&rt, rt.alloc())?;
    same(&rt, "B goes", &shard.remove(b"B"), &Some(1));
    same(&rt, "no key beside the cells that wait", &shard.len(), &0);
    try_insert(&mut shard, b"C", 2);
    same(&rt, "C's cell", &shard.find(b"C"), &Some(2));
    Ok(())
}

#[test]
fn a_held_cell_keeps_its_bytes_though_its_key_is_gone(rt: HostRuntime) -> Result<(), AllocError> {
    held_cell(&rt, rt.alloc())?;
    let _shard = a_and_b(&rt, rt.alloc())?;
    Ok(())
}

/// Puts a key in that is absent, where there is room.
fn try_insert(shard: &mut HashShard, key: &[u8], id: u64)
    requires { length key.now ≡ shard.old.size }
    ensures { shard.new.size ≡ shard.old.size }
{
    if shard.find(key).is_none() && shard.len() < shard.capacity() {
        shard.insert(key, id);
    }
}
