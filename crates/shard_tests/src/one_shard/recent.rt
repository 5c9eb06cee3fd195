//! Rows of LRU shards: which key goes for a new one, and which calls are uses.

use super::{ANY, EXIST, IndexCall, NOEXIST, Row, SHARD, entries_of, plan_of};
use crate::asserting::same;
use ebpf_decode::MapKind;
use semantics::{CellRef, Reply};
use std::alloc::{AllocError, Global};
use std::process::Abort;

#[rattlefmt::skip]
const AN_UPDATE_IS_A_USE: [Row; 6] = [
    ("a first key",                       IndexCall::Put(1, 1, ANY),     Reply::Answer { code: 0 }),
    ("a second key",                      IndexCall::Put(2, 2, ANY),     Reply::Answer { code: 0 }),
    ("the first is written",              IndexCall::Put(1, 4, EXIST),   Reply::Answer { code: 0 }),
    ("a third key",                       IndexCall::Put(3, 3, NOEXIST), Reply::Answer { code: 0 }),
    ("the first is there",                IndexCall::Put(1, 5, NOEXIST), Reply::Answer { code: -17 }),
    ("the second is not",                 IndexCall::Put(2, 5, EXIST),   Reply::Answer { code: -2 }),
];

#[rattlefmt::skip]
static OTHER_CALLS_ARE_NO_USES: [Row; 11] = [
    ("a first key",                       IndexCall::Put(1, 1, ANY),     Reply::Answer { code: 0 }),
    ("a worker enters",                   IndexCall::Enter(0),           Reply::Entered),
    ("it finds the key",                  IndexCall::Look(0, 1),         Reply::Cell { cell: CellRef { shard: SHARD, id: 0 } }),
    ("a second key",                      IndexCall::Put(2, 2, ANY),     Reply::Answer { code: 0 }),
    ("the first is refused under NOEXIST", IndexCall::Put(1, 4, NOEXIST), Reply::Answer { code: -17 }),
    ("its bytes are read",                IndexCall::Load(0, 0, 0, 8),   Reply::Word { value: 0x01010101_01010101 }),
    ("and changed",                       IndexCall::Store(0, 0, 0, 1, 9), Reply::Done),
    ("a third key",                       IndexCall::Put(3, 3, ANY),     Reply::Answer { code: 0 }),
    ("the first is not there",            IndexCall::Look(0, 1),         Reply::Null),
    ("the second is",                     IndexCall::Look(0, 2),         Reply::Cell { cell: CellRef { shard: SHARD, id: 1 } }),
    ("the held cell has its bytes",       IndexCall::Load(0, 0, 0, 2),   Reply::Word { value: 0x0109 }),
];

/// A worker holds A, for which B came. C finds no free cell, and B stays.
#[rattlefmt::skip]
static NO_CELL_NO_EVICTION: [Row; 17] = [
    ("A",                                 IndexCall::Put(1, 1, ANY),     Reply::Answer { code: 0 }),
    ("a worker enters",                   IndexCall::Enter(0),           Reply::Entered),
    ("it holds A's cell",                 IndexCall::Look(0, 1),         Reply::Cell { cell: CellRef { shard: SHARD, id: 0 } }),
    ("B comes for A",                     IndexCall::Put(2, 2, ANY),     Reply::Answer { code: 0 }),
    ("A's cell is held",                  IndexCall::Reclaim,            Reply::Freed { count: 0 }),
    ("C finds no free cell",              IndexCall::Put(3, 3, ANY),     Reply::Answer { code: -12 }),
    ("B stays",                           IndexCall::Look(0, 2),         Reply::Cell { cell: CellRef { shard: SHARD, id: 1 } }),
    ("C is not there",                    IndexCall::Look(0, 3),         Reply::Null),
    ("nor is A",                          IndexCall::Look(0, 1),         Reply::Null),
    ("A's cell has its bytes",            IndexCall::Load(0, 0, 0, 8),   Reply::Word { value: 0x01010101_01010101 }),
    ("the worker leaves",                 IndexCall::Leave(0),           Reply::Left),
    ("A's cell is freed, B's was kept",   IndexCall::Reclaim,            Reply::Freed { count: 1 }),
    ("C comes for B",                     IndexCall::Put(3, 3, ANY),     Reply::Answer { code: 0 }),
    ("a worker enters again",             IndexCall::Enter(0),           Reply::Entered),
    ("B is not there",                    IndexCall::Look(0, 2),         Reply::Null),
    ("C is",                              IndexCall::Look(0, 3),         Reply::Cell { cell: CellRef { shard: SHARD, id: 2 } }),
    ("with its bytes",                    IndexCall::Load(0, 2, 0, 8),   Reply::Word { value: 0x03030303_03030303 }),
];

#[rattlefmt::skip]
const A_DELETED_KEY_LEAVES_ROOM: [Row; 8] = [
    ("a first key",                       IndexCall::Put(1, 1, ANY),     Reply::Answer { code: 0 }),
    ("a second key",                      IndexCall::Put(2, 2, ANY),     Reply::Answer { code: 0 }),
    ("the second goes",                   IndexCall::Remove(2),          Reply::Answer { code: 0 }),
    ("and is there no more",              IndexCall::Remove(2),          Reply::Answer { code: -2 }),
    ("a third key",                       IndexCall::Put(3, 3, ANY),     Reply::Answer { code: 0 }),
    ("the first stays",                   IndexCall::Put(1, 1, NOEXIST), Reply::Answer { code: -17 }),
    ("one cell waits",                    IndexCall::Reclaim,            Reply::Freed { count: 1 }),
    ("and no other",                      IndexCall::Reclaim,            Reply::Freed { count: 0 }),
];

/// Makes the calls of the rows in turn, on a new LRU map, and says how many entries the journal then has.
fn recent(
    rt: &impl Abort,
    alloc: Global,
    max_entries: u32,
    rows: &[Row],
) -> Result<usize, AllocError> {
    entries_of(
        rt,
        alloc,
        plan_of(MapKind::LruHash, 8, max_entries, 64),
        rows,
    )
}

#[test]
fn an_update_is_a_use(rt: HostRuntime) -> Result<(), AllocError> {
    let _count = recent(&rt, rt.alloc(), 2, &AN_UPDATE_IS_A_USE)?;
    Ok(())
}

#[test]
fn other_calls_are_no_uses(rt: HostRuntime) -> Result<(), AllocError> {
    let _count = recent(&rt, rt.alloc(), 2, &OTHER_CALLS_ARE_NO_USES)?;
    Ok(())
}

#[test]
fn a_deleted_key_leaves_room(rt: HostRuntime) -> Result<(), AllocError> {
    let _count = recent(&rt, rt.alloc(), 2, &A_DELETED_KEY_LEAVES_ROOM)?;
    Ok(())
}

#[test]
fn large_lru_map(rt: HostRuntime) -> Result<(), AllocError> {
    let _count = recent(&rt, rt.alloc(), 131_072, &A_DELETED_KEY_LEAVES_ROOM)?;
    Ok(())
}

/// The journal has each call with its reply, and nothing of an eviction.
#[test]
fn no_cell_no_eviction(rt: HostRuntime) -> Result<(), AllocError> {
    let count = recent(&rt, rt.alloc(), 1, &NO_CELL_NO_EVICTION)?;
    same(&rt, "how many entries", &count, &NO_CELL_NO_EVICTION.len());
    Ok(())
}
