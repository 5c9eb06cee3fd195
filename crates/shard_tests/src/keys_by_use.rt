//! The order over a few uses, and shards small and large.

ghost use Rattle.std.specs.Prelude.{◌≡◌, ◌<◌, ◌≤◌};

use crate::asserting::{holds, same};
use crate::cell_places::held_cell;
use lru_maps::{LruShard, Recency};
use std::alloc::{AllocError, Global};
use std::process::Abort;

#[test]
fn the_oldest_use_is_given_up(rt: HostRuntime) -> Result<(), AllocError> {
    let mut recency = Recency::new(rt.alloc(), 3)?;
    same(&rt, "none is used", &recency.oldest(), &Some(0));
    recency.touch(0);
    same(&rt, "0 is used", &recency.oldest(), &Some(1));
    recency.touch(1);
    recency.touch(2);
    same(&rt, "all are used in turn", &recency.oldest(), &Some(0));
    recency.touch(0);
    same(&rt, "0 is used again", &recency.oldest(), &Some(1));
    // A number that is given up comes before all that are in use.
    recency.release(2);
    same(&rt, "2 is given up", &recency.oldest(), &Some(2));
    Ok(())
}

#[test]
fn a_large_order(rt: HostRuntime) -> Result<(), AllocError> {
    let mut recency = Recency::new(rt.alloc(), 131_072)?;
    same(&rt, "none is used", &recency.oldest(), &Some(0));
    recency.touch(0);
    same(&rt, "0 is used", &recency.oldest(), &Some(1));
    Ok(())
}

/// A call on a shard whose keys are one byte, once or repeated, or a number that it returns.
#[derive(Clone, Copy)]
enum LruCall {
    /// Key, cell.
    Insert(u8, u64),
    Touch(u8),
    Find(u8),
    Remove(u8),
    Evict,
    /// How many keys are there.
    Count,
    /// How many keys there may be.
    Capacity,
}

/// A call, and the cell or number that it returns.
type Row = (&'static str, LruCall, Option<u64>);

/// Puts a new key in, for which there is room.
fn insert<const N: usize>(rt: &impl Abort, shard: &mut LruShard, name: &str, byte: u8, id: u64)
    requires size { shard.old.size ≡ N }
    requires small { N ≤ 32 }
    ensures { shard.new.size ≡ N }
{
    let key = [byte; N];
    holds(rt, name, shard.find(&key).is_none());
    holds(rt, name, shard.len() < shard.capacity());
    shard.insert(&key, id);
}

/// Takes a key out of a full shard.
fn evict(rt: &impl Abort, shard: &mut LruShard, name: &str) -> u64
    ensures { shard.new.size ≡ shard.old.size }
{
    holds(rt, name, shard.len() == shard.capacity());
    shard.evict()
}

fn answer<const N: usize>(
    rt: &impl Abort,
    shard: &mut LruShard,
    name: &str,
    ask: LruCall,
) -> Option<u64>
    requires size { shard.old.size ≡ N }
    requires small { N ≤ 32 }
    ensures { shard.new.size ≡ N }
{
    match ask {
        LruCall::Insert(byte, id) => {
            insert::<N>(rt, shard, name, byte, id);
            None
        }
        LruCall::Touch(byte) => shard.touch(&[byte; N]),
        LruCall::Find(byte) => shard.find(&[byte; N]),
        LruCall::Remove(byte) => shard.remove(&[byte; N]),
        LruCall::Evict => Some(evict(rt, shard, name)),
        LruCall::Count => Some(shard.len() as u64),
        LruCall::Capacity => Some(shard.capacity() as u64),
    }
}

/// Makes the calls of the rows in turn, on a shard with no keys.
fn serves<const N: usize>(
    rt: &impl Abort,
    alloc: Global,
    capacity: u32,
    rows: &[Row],
) -> Result<(), AllocError>
    requires size { N ≤ 32 }
    requires some { 0 < capacity }
    requires capacity { capacity < 4294967295 }
{
    let mut shard = LruShard::new(alloc, N, capacity)?;
    for (name, ask, want) in rows {
        same(rt, name, &answer::<N>(rt, &mut shard, name, *ask), want);
    }
    Ok(())
}

#[rattlefmt::skip]
const A_LOOKUP_SAVES_A_KEY: [Row; 8] = [
    ("A comes",      LruCall::Insert(b'A', 0), None),
    ("B comes",      LruCall::Insert(b'B', 1), None),
    ("A is used",    LruCall::Touch(b'A'),     Some(0)),
    ("B goes",       LruCall::Evict,           Some(1)),
    ("C comes",      LruCall::Insert(b'C', 2), None),
    ("A is there",   LruCall::Find(b'A'),      Some(0)),
    ("B is not",     LruCall::Find(b'B'),      None),
    ("C is there",   LruCall::Find(b'C'),      Some(2)),
];

#[test]
fn a_lookup_saves_a_key_from_eviction(rt: HostRuntime) -> Result<(), AllocError> {
    serves::<1>(&rt, rt.alloc(), 2, &A_LOOKUP_SAVES_A_KEY)
}

#[rattlefmt::skip]
const A_FIND_SAVES_NO_KEY: [Row; 6] = [
    ("A comes",      LruCall::Insert(b'A', 0), None),
    ("B comes",      LruCall::Insert(b'B', 1), None),
    ("A is found",   LruCall::Find(b'A'),      Some(0)),
    ("A goes",       LruCall::Evict,           Some(0)),
    ("B stays",      LruCall::Count,           Some(1)),
    ("A is gone",    LruCall::Touch(b'A'),     None),
];

#[test]
fn a_find_saves_no_key_from_eviction(rt: HostRuntime) -> Result<(), AllocError> {
    serves::<1>(&rt, rt.alloc(), 2, &A_FIND_SAVES_NO_KEY)
}

#[rattlefmt::skip]
const A_REMOVED_KEY_LEAVES_ROOM: [Row; 7] = [
    ("A comes",      LruCall::Insert(b'A', 0), None),
    ("B comes",      LruCall::Insert(b'B', 1), None),
    ("B is removed", LruCall::Remove(b'B'),    Some(1)),
    ("B is gone",    LruCall::Remove(b'B'),    None),
    ("C comes",      LruCall::Insert(b'C', 2), None),
    ("A goes",       LruCall::Evict,           Some(0)),
    ("C is there",   LruCall::Find(b'C'),      Some(2)),
];

#[test]
fn a_removed_key_leaves_room(rt: HostRuntime) -> Result<(), AllocError> {
    serves::<1>(&rt, rt.alloc(), 2, &A_REMOVED_KEY_LEAVES_ROOM)
}

#[rattlefmt::skip]
const OF_A_LARGE_SHARD: [Row; 6] = [
    ("the capacity", LruCall::Capacity,        Some(131_072)),
    ("a key comes",  LruCall::Insert(7, 9),    None),
    ("it is used",   LruCall::Touch(7),        Some(9)),
    ("no other is",  LruCall::Touch(8),        None),
    ("it goes",      LruCall::Remove(7),       Some(9)),
    ("none is left", LruCall::Count,           Some(0)),
];

#[test]
fn a_large_shard(rt: HostRuntime) -> Result<(), AllocError> {
    serves::<32>(&rt, rt.alloc(), 131_072, &OF_A_LARGE_SHARD)
}

#[rattlefmt::skip]
const A_CELL_IS_HELD: [Row; 10] = [
    ("A comes",              LruCall::Insert(b'A', 0), None),
    ("A goes for B",         LruCall::Evict,           Some(0)),
    ("B comes",              LruCall::Insert(b'B', 1), None),
    ("one key beside A's cell", LruCall::Count,        Some(1)),
    ("B stays",              LruCall::Find(b'B'),      Some(1)),
    ("B goes for C",         LruCall::Evict,           Some(1)),
    ("none is left",         LruCall::Count,           Some(0)),
    ("C comes",              LruCall::Insert(b'C', 2), None),
    ("C is there",           LruCall::Find(b'C'),      Some(2)),
    ("B is not",             LruCall::Find(b'B'),      None),
];

/// A run that entered before holds A's cell while B takes its place: with one key there and one cell that waits both cells are taken, so no
/// key is evicted for C. When the run is gone there is a cell for C, and B is evicted.
#[test]
fn a_held_cell_keeps_a_new_key_out(rt: HostRuntime) -> Result<(), AllocError> {
    held_cell(&rt, rt.alloc())?;
    serves::<1>(&rt, rt.alloc(), 1, &A_CELL_IS_HELD)
}
