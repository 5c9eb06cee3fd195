//! Look-ups and updates of keyed shards: a row a line, a name and tenths of a nanosecond.

ghost use Rattle.std.specs.Prelude.{◌≡◌, ◌<◌, ℕ, List, None, length};
ghost use Rattle.lru_maps.specs.LruTable.{cell_of_lru_key};

use crate::scattered::scattered;
use anyhow::Error;
use lru_maps::LruShard;
use plain_maps::HashShard;
use std::alloc::{AllocError, Global};
use std::time::Instant;

/// How many look-ups are timed at a time: a multiple of each number of keys, since the keys are gone over in whole rounds.
const LOOKUPS: u32 = 2_097_152;

/// The factor and the start of the shards' hash.
const FACTOR: u64 = 0x9e37_79b9_7f4a_7c15;

const FACTOR_INVERSE: u64 = 0xf1de_83e1_9937_733d;

const START: u64 = 0xcbf2_9ce4_8422_2325;

type KeyBytes = [u8; 16];

fn joined(first: u64, second: u64) -> KeyBytes {
    let [a, b, c, d, e, f, g, h] = first.to_le_bytes();
    let [i, j, k, l, m, n, o, p] = second.to_le_bytes();
    [a, b, c, d, e, f, g, h, i, j, k, l, m, n, o, p]
}

/// The keys of a row: those of different kinds differ.
fn key(number: u64, kind: u64) -> KeyBytes {
    let x = number.wrapping_mul(0xbf58_476d_1ce4_e5b9);
    joined(x ^ (x >> 29), x.wrapping_mul(0x94d0_49bb_1331_11eb) ^ kind)
}

fn mixed(hash: u64, word: u64) -> u64 {
    let product = (hash ^ word).wrapping_mul(FACTOR);
    product ^ (product >> 32)
}

/// Keys that were chosen to have one hash.
fn colliding_key(number: u64, kind: u64) -> KeyBytes {
    let first = number.wrapping_mul(2).wrapping_add(kind);
    let target: u64 = 0x0123_4567_89ab_cdef;
    let before = (target ^ (target >> 32)).wrapping_mul(FACTOR_INVERSE);
    joined(first, before ^ mixed(START, first))
}

/// Keys in an order that memory does not follow.
fn keys(alloc: Global, count: u32, kind: u64, chosen: bool) -> Result<Vec<KeyBytes>, AllocError> {
    let mut keys = Vec::new(alloc);
    for i in 0..count {
        let number = u64::from(scattered(i, count));
        keys.push(if chosen {
            colliding_key(number, kind)
        } else {
            key(number, kind)
        })?;
    }
    Ok(keys)
}

fn try_insert(shard: &mut HashShard, key: &KeyBytes, id: u64)
    requires { shard.old.size ≡ 16 }
    ensures { shard.new.size ≡ 16 }
{
    if shard.find(key).is_none() && shard.len() < shard.capacity() {
        shard.insert(key, id);
    }
}

fn fill(shard: &mut HashShard, keys: &[KeyBytes])
    requires { shard.old.size ≡ 16 }
    ensures { shard.new.size ≡ 16 }
{
    for key in keys {
        try_insert(shard, key, 1);
    }
}

fn finds(shard: &HashShard, keys: &[KeyBytes]) -> u64
    requires { shard.now.size ≡ 16 }
{
    let mut sum: u64 = 0;
    let mut left = LOOKUPS;
    'rounds: for _ in 0..LOOKUPS {
        if left == 0 {
            break;
        }
        sum = sum.wrapping_add(round(shard, keys));
        left = left.saturating_sub(count_of(keys));
    }
    sum
}

fn count_of(keys: &[KeyBytes]) -> u32 {
    let count = keys.len();
    if count < 1_000_000 {
        count as u32
    } else {
        1_000_000
    }
}

fn round(shard: &HashShard, keys: &[KeyBytes]) -> u64
    requires { shard.now.size ≡ 16 }
{
    let mut sum: u64 = 0;
    for key in keys {
        if let Some(id) = shard.find(key) {
            sum = sum.wrapping_add(id);
        }
    }
    sum
}

/// Evicts a key where there is no room for another.
fn make_room(shard: &mut LruShard) -> u64
    ensures size { shard.new.size ≡ shard.old.size }
    ensures absent { (q : List ℕ) → cell_of_lru_key shard.old q ≡ None → cell_of_lru_key shard.new q ≡ None }
{
    if shard.len() == shard.capacity() {
        return shard.evict();
    }
    0
}

/// Puts a key that is not there, where there is room.
fn put_new(shard: &mut LruShard, key: &KeyBytes, id: u64)
    requires size { shard.old.size ≡ 16 }
    requires absent { cell_of_lru_key shard.old key.now ≡ None }
    ensures { shard.new.size ≡ 16 }
{
    if shard.len() < shard.capacity() {
        shard.insert(key, id);
    }
}

/// An update of a key as an LRU shard makes it: a new key takes the place of the one that was used longest ago.
fn update(shard: &mut LruShard, key: &KeyBytes, id: u64) -> u64
    requires { shard.old.size ≡ 16 }
    ensures { shard.new.size ≡ 16 }
{
    if let Some(old) = shard.touch(key) {
        return old;
    }
    let gone = make_room(shard);
    put_new(shard, key, id);
    gone
}

fn updates(shard: &mut LruShard, keys: &[KeyBytes]) -> u64
    requires { shard.old.size ≡ 16 }
    ensures { shard.new.size ≡ 16 }
{
    let mut sum: u64 = 0;
    for key in keys {
        sum = sum.wrapping_add(update(shard, key, 1));
    }
    sum
}

/// Prints the rows of an LRU shard that is full: look-ups that find their key and use it, and updates of new keys.
fn measure_uses(rt: &HostRuntime, count: u32, chosen: bool) -> Result<(), Error>
    requires some { 0 < count }
    requires few { count < 4294967295 }
{
    let name = if chosen { "chosen" } else { "any" };
    let there = keys(rt.alloc(), count, 0, chosen)?;
    let absent = keys(rt.alloc(), count, 1, chosen)?;
    let mut shard = LruShard::new(rt.alloc(), 16, count)?;
    let filled = updates(&mut shard, &there);
    let start = Instant::now(rt)?;
    let sum = updates(&mut shard, &there);
    let time = start.elapsed(rt)?.as_nanos() * 10 / u128::from(count);
    println!(rt; "{name}-use-{count} {time} {sum} {filled}")?;
    let start = Instant::now(rt)?;
    let sum = updates(&mut shard, &absent);
    let time = start.elapsed(rt)?.as_nanos() * 10 / u128::from(count);
    println!(rt; "{name}-update-{count} {time} {sum}")?;
    Ok(())
}

/// Prints what a look-up of one of these keys takes.
fn measure_finds(
    rt: &HostRuntime,
    name: &str,
    row: &str,
    count: u32,
    shard: &HashShard,
    keys: &[KeyBytes],
) -> Result<(), Error>
    requires { shard.now.size ≡ 16 }
{
    let start = Instant::now(rt)?;
    let sum = finds(shard, keys);
    let time = start.elapsed(rt)?.as_micros() * 10_000 / u128::from(LOOKUPS);
    println!(rt; "{name}-{row}-{count} {time} {sum}")?;
    Ok(())
}

/// Prints the rows of a hash shard of one size.
fn measure(rt: &HostRuntime, count: u32, chosen: bool) -> Result<(), Error>
    requires some { 0 < count }
    requires few { count < 4294967295 }
{
    let name = if chosen { "chosen" } else { "any" };
    let there = keys(rt.alloc(), count, 0, chosen)?;
    let absent = keys(rt.alloc(), count, 1, chosen)?;
    let mut shard = HashShard::new(rt.alloc(), 16, count)?;
    fill(&mut shard, &there);
    measure_finds(rt, name, "found", count, &shard, &there)?;
    measure_finds(rt, name, "absent", count, &shard, &absent)
}

/// Prints all rows.
pub(crate) fn measure_all(rt: &HostRuntime) -> Result<(), Error> {
    measure(rt, 64, false)?;
    measure(rt, 4096, false)?;
    measure(rt, 131_072, false)?;
    measure(rt, 64, true)?;
    measure(rt, 4096, true)?;
    measure(rt, 131_072, true)?;
    measure_uses(rt, 64, false)?;
    measure_uses(rt, 4096, false)?;
    measure_uses(rt, 131_072, false)?;
    measure_uses(rt, 64, true)?;
    measure_uses(rt, 4096, true)?;
    measure_uses(rt, 131_072, true)
}
