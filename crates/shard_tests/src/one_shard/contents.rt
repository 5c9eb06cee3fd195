//! Rows whose calls leave entries: what a shard then holds, as a list.

ghost use Rattle.semantics.specs.PlanLimits.{IsPlan};

use super::{
    ANY, EXIST, IndexCall, NOEXIST, Row, SHARD, key_of, make, plan, plan_of, serves_new, value_of,
};
use crate::asserting::same;
use ebpf_decode::MapKind;
use semantics::{CellRef, Key, Reply, ShardPlan, Value};
use shard_core::shard::Shard;
use std::alloc::{AllocError, Global};
use std::process::Abort;

/// The key of an index, and the number that its value makes.
type Held = (u32, u64);

/// Compares what the shard holds, in order.
fn shows(
    rt: &impl Abort,
    alloc: Global,
    shard: &Shard,
    name: &str,
    wanted: &[Held],
) -> Result<(), AllocError> {
    let entries = shard.contents(alloc)?;
    same(rt, name, &entries.len(), &wanted.len());
    for (entry, want) in entries.iter().zip(wanted) {
        let value = Value::of(&want.1.to_le_bytes()).unwrap_or(Value::empty());
        same(rt, name, &entry.0, &key_of(want.0));
        same(rt, name, &entry.1, &value);
    }
    Ok(())
}

/// Makes the calls of the rows in turn, on a shard in which nothing has happened, and compares what it holds then.
fn leaves(
    rt: &impl Abort,
    alloc: Global,
    plan: ShardPlan,
    rows: &[Row],
    name: &str,
    wanted: &[Held],
) -> Result<(), AllocError>
    requires { IsPlan plan }
{
    let shard = serves_new(rt, alloc, plan, rows)?;
    shows(rt, alloc, &shard, name, wanted)
}

#[rattlefmt::skip]
static WRITES_OF_AN_ARRAY: [Row; 7] = [
    ("an index is set",              IndexCall::Put(2, 2, ANY),             Reply::Answer { code: 0 }),
    ("another is not",               IndexCall::Put(1, 9, NOEXIST),         Reply::Answer { code: -17 }),
    ("a worker enters",              IndexCall::Enter(0),                   Reply::Entered),
    ("it finds an index",            IndexCall::Look(0, 3),                 Reply::Cell { cell: CellRef { shard: SHARD, id: 3 } }),
    ("stores two bytes",             IndexCall::Store(0, 3, 1, 2, 0xabcd),  Reply::Done),
    ("and adds",                     IndexCall::Change(0, 3, 0x00, 7, 0),   Reply::Word { value: 0xab_cd00 }),
    ("the worker leaves",            IndexCall::Leave(0),                   Reply::Left),
];

const ARRAY_HOLDS: [Held; 4] = [(0, 0), (1, 0), (2, 0x02020202_02020202), (3, 0xab_cd07)];

#[test]
fn an_array_has_all_its_indices(rt: HostRuntime) -> Result<(), AllocError> {
    leaves(
        &rt,
        rt.alloc(),
        plan(8, 4, 64),
        &WRITES_OF_AN_ARRAY,
        "after writes",
        &ARRAY_HOLDS,
    )
}

/// 256 comes after 255, though its lowest byte is 0.
#[test]
fn indices_are_in_order(rt: HostRuntime) -> Result<(), AllocError> {
    let shard = Shard::open(rt.alloc(), plan(8, 300, 16))?;
    let entries = shard.contents(rt.alloc())?;
    same(&rt, "how many", &entries.len(), &300);
    let mut index = 0_u32;
    for entry in &entries {
        same(&rt, "an index", &entry.0, &key_of(index));
        index = index.wrapping_add(1);
    }
    Ok(())
}

#[rattlefmt::skip]
static KEYS_OF_A_HASH_MAP: [Row; 13] = [
    ("a key",                        IndexCall::Put(0x0002, 2, ANY),        Reply::Answer { code: 0 }),
    ("a second",                     IndexCall::Put(0x0100, 1, ANY),        Reply::Answer { code: 0 }),
    ("a third",                      IndexCall::Put(0x0001, 3, NOEXIST),    Reply::Answer { code: 0 }),
    ("a fourth",                     IndexCall::Put(0x0003, 4, ANY),        Reply::Answer { code: 0 }),
    ("a worker enters",              IndexCall::Enter(1),                   Reply::Entered),
    ("it finds the fourth",          IndexCall::Look(1, 0x0003),            Reply::Cell { cell: CellRef { shard: SHARD, id: 3 } }),
    ("which goes",                   IndexCall::Remove(0x0003),             Reply::Answer { code: 0 }),
    ("its cell is written",          IndexCall::Store(1, 3, 0, 8, 77),      Reply::Done),
    ("an absent key is not set",     IndexCall::Put(0x0004, 9, EXIST),      Reply::Answer { code: -2 }),
    ("it finds the first",           IndexCall::Look(1, 0x0002),            Reply::Cell { cell: CellRef { shard: SHARD, id: 0 } }),
    ("and adds there",               IndexCall::Change(1, 0, 0x00, 1, 0),   Reply::Word { value: 0x02020202_02020202 }),
    ("the second is set again",      IndexCall::Put(0x0100, 5, EXIST),      Reply::Answer { code: 0 }),
    ("the worker leaves",            IndexCall::Leave(1),                   Reply::Left),
];

/// By the bytes of the keys: 00 01, 01 00, 02 00.
const HASH_MAP_HOLDS: [Held; 3] = [
    (0x0100, 0x05050505_05050505),
    (0x0001, 0x03030303_03030303),
    (0x0002, 0x02020202_02020203),
];

#[test]
fn a_deleted_key_is_absent(rt: HostRuntime) -> Result<(), AllocError> {
    leaves(
        &rt,
        rt.alloc(),
        plan_of(MapKind::Hash, 8, 8, 64),
        &KEYS_OF_A_HASH_MAP,
        "three keys",
        &HASH_MAP_HOLDS,
    )
}

#[rattlefmt::skip]
static KEYS_OF_AN_LRU_MAP: [Row; 6] = [
    ("a first key",                  IndexCall::Put(1, 1, ANY),             Reply::Answer { code: 0 }),
    ("a second",                     IndexCall::Put(2, 2, ANY),             Reply::Answer { code: 0 }),
    ("a worker enters",              IndexCall::Enter(0),                   Reply::Entered),
    ("it finds the first",           IndexCall::Look(0, 1),                 Reply::Cell { cell: CellRef { shard: SHARD, id: 0 } }),
    ("a third, for which the second goes", IndexCall::Put(3, 3, ANY),       Reply::Answer { code: 0 }),
    ("the first is there",           IndexCall::Put(1, 9, NOEXIST),         Reply::Answer { code: -17 }),
];

const LRU_MAP_HOLDS: [Held; 2] = [(1, 0x01010101_01010101), (3, 0x03030303_03030303)];

#[test]
fn an_evicted_key_is_absent(rt: HostRuntime) -> Result<(), AllocError> {
    leaves(
        &rt,
        rt.alloc(),
        plan_of(MapKind::LruHash, 8, 2, 64),
        &KEYS_OF_AN_LRU_MAP,
        "two keys",
        &LRU_MAP_HOLDS,
    )
}

#[test]
fn a_map_without_keys(rt: HostRuntime) -> Result<(), AllocError> {
    leaves(
        &rt,
        rt.alloc(),
        plan_of(MapKind::Hash, 8, 8, 64),
        &[],
        "none",
        &[],
    )?;
    leaves(
        &rt,
        rt.alloc(),
        plan_of(MapKind::LruHash, 8, 8, 64),
        &[],
        "none",
        &[],
    )
}

/// The key of a number whose bytes rise with it.
fn large_key(number: u32) -> IndexCall {
    IndexCall::Put(number.swap_bytes(), (number % 251) as u8, ANY)
}

/// Compares a key and its value with those of a number.
fn is_of(rt: &impl Abort, entry: &(Key, Value), number: u32) {
    same(rt, "its key", &entry.0, &key_of(number.swap_bytes()));
    same(rt, "its value", &entry.1, &value_of((number % 251) as u8));
}

/// Puts 10,000 keys in an order that goes to and fro, and takes each third out.
fn fill(rt: &impl Abort, shard: &mut Shard) {
    for turn in 0..10_000_u32 {
        let put = make(rt, shard, large_key(turn * 7919 % 10_000), "a key");
        same(rt, "it is put in", &put, &Ok(Reply::Answer { code: 0 }));
    }
    for third in 0..3_334_u32 {
        let gone = make(
            rt,
            shard,
            IndexCall::Remove((third * 3).swap_bytes()),
            "a key",
        );
        same(rt, "it goes", &gone, &Ok(Reply::Answer { code: 0 }));
    }
}

#[test]
fn ten_thousand_keys(rt: HostRuntime) -> Result<(), AllocError> {
    let mut shard = Shard::open(rt.alloc(), plan_of(MapKind::Hash, 8, 10_000, 16_384))?;
    fill(&rt, &mut shard);
    let entries = shard.contents(rt.alloc())?;
    same(&rt, "how many", &entries.len(), &6_666);
    let mut number = 1_u32;
    for entry in &entries {
        is_of(&rt, entry, number);
        number = number.wrapping_add(1 + number % 3 / 2);
    }
    Ok(())
}

/// Of 10,000 keys an LRU map of 5,000 holds those that came last.
#[test]
fn the_last_five_thousand(rt: HostRuntime) -> Result<(), AllocError> {
    let mut shard = Shard::open(rt.alloc(), plan_of(MapKind::LruHash, 8, 5_000, 16_384))?;
    for number in 0..10_000_u32 {
        let put = make(&rt, &mut shard, large_key(number), "a key");
        same(&rt, "it is put in", &put, &Ok(Reply::Answer { code: 0 }));
    }
    let entries = shard.contents(rt.alloc())?;
    same(&rt, "how many", &entries.len(), &5_000);
    let mut number = 5_000_u32;
    for entry in &entries {
        is_of(&rt, entry, number);
        number = number.wrapping_add(1);
    }
    Ok(())
}
