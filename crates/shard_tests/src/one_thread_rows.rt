//! Rows that run the definitions of a map's shard.

ghost use Rattle.std.specs.Prelude.{◌≤◌};
ghost use Rattle.semantics.specs.PlanLimits.{IsPlan};

use crate::asserting::{holds, same};
use ebpf_decode::{MapDef, MapKind};
use semantics::{Call, Caller, CellRef, Key, Reply, ShardPlan, Value};
use std::alloc::{AllocError, Global};
use std::process::Abort;
use test_support::one_thread_map::OneThreadShard;

const ANY: u64 = 0;

const NOEXIST: u64 = 1;

const EXIST: u64 = 2;

/// Keys by one letter.
const A: u8 = 1;

const B: u8 = 2;

const C: u8 = 3;

/// A call in one row of a table: keys by their first byte, values by all of theirs.
#[derive(Clone, Copy)]
enum KeyCall {
    /// By a worker.
    Enter(u8),
    Leave(u8),
    Look(u8, u8),
    /// Worker, cell, offset, size.
    Load(u8, u64, u64, u64),
    /// Worker, cell, offset, size, number.
    Store(u8, u64, u64, u64, u64),
    /// Worker, cell, operation, number, expected: on the first eight bytes.
    Change(u8, u64, u64, u64, u64),
    /// Worker, cell, offset: adds one to the four bytes there.
    Add(u8, u64, u64),
    /// By the controller: key, flags.
    Put(u8, u64),
    Remove(u8),
    /// By the reclaimer.
    Reclaim,
}

type Row = (&'static str, KeyCall, Reply);

fn plan(kind: MapKind, max_entries: u32, reserve: u32) -> ShardPlan
    requires some { 1 ≤ max_entries }
    requires most { max_entries ≤ 131072 }
    requires least { 16 ≤ reserve }
    requires greatest { reserve ≤ 1048576 }
    ensures { IsPlan result }
{
    ShardPlan {
        number: 0,
        part: 0,
        parts: 1,
        definition: MapDef {
            kind,
            key_size: 4,
            value_size: 8,
            max_entries,
        },
        workers: 2,
        reserve,
    }
}

fn key_of(byte: u8) -> Key {
    Key::of(&[byte, 0, 0, 0]).unwrap_or(Key::empty())
}

fn value_of(byte: u8) -> Value {
    Value::of(&[byte; 8]).unwrap_or(Value::empty())
}

fn caller_of(ask: KeyCall) -> Caller {
    match ask {
        KeyCall::Enter(number) => Caller::Worker { number },
        KeyCall::Leave(number) => Caller::Worker { number },
        KeyCall::Look(number, _) => Caller::Worker { number },
        KeyCall::Load(number, _, _, _) => Caller::Worker { number },
        KeyCall::Store(number, _, _, _, _) => Caller::Worker { number },
        KeyCall::Change(number, _, _, _, _) => Caller::Worker { number },
        KeyCall::Add(number, _, _) => Caller::Worker { number },
        KeyCall::Put(_, _) => Caller::Controller,
        KeyCall::Remove(_) => Caller::Controller,
        KeyCall::Reclaim => Caller::Reclaimer,
    }
}

fn cell(id: u64) -> CellRef {
    CellRef { shard: 0, id }
}

fn call_of(ask: KeyCall) -> Call {
    match ask {
        KeyCall::Enter(_) => Call::Enter { shard: 0 },
        KeyCall::Leave(_) => Call::Leave { shard: 0 },
        KeyCall::Look(_, key) => Call::Lookup {
            shard: 0,
            key: key_of(key),
        },
        KeyCall::Load(_, id, offset, size) => Call::Load {
            cell: cell(id),
            offset,
            size,
        },
        KeyCall::Store(_, id, offset, size, value) => Call::Store {
            cell: cell(id),
            offset,
            size,
            value,
        },
        KeyCall::Change(_, id, op, value, expected) => Call::Atomic {
            cell: cell(id),
            offset: 0,
            size: 8,
            op,
            value,
            expected,
        },
        KeyCall::Add(_, id, offset) => Call::Atomic {
            cell: cell(id),
            offset,
            size: 4,
            op: 0,
            value: 1,
            expected: 0,
        },
        KeyCall::Put(key, flags) => Call::Update {
            shard: 0,
            key: key_of(key),
            value: value_of(key),
            flags,
        },
        KeyCall::Remove(key) => Call::Delete {
            shard: 0,
            key: key_of(key),
        },
        KeyCall::Reclaim => Call::Reclaim { shard: 0 },
    }
}

/// Makes a call that its caller may make and for which there is room. Its reply is foretold.
fn make(rt: &impl Abort, shard: &mut OneThreadShard, name: &str, ask: KeyCall) -> Reply {
    let who = caller_of(ask);
    let call = call_of(ask);
    holds(rt, name, shard.meets(&who, &call));
    holds(rt, name, !shard.is_full(&call));
    let foretold = shard.reply(&who, &call);
    let reply = shard.step(who, &call).expect(rt, "a step");
    same(rt, name, &foretold, &reply);
    reply
}

/// Makes the calls of the rows in turn.
fn serves(rt: &impl Abort, shard: &mut OneThreadShard, rows: &[Row]) {
    for (name, ask, want) in rows {
        same(rt, name, &make(rt, shard, name, *ask), want);
    }
}

/// Makes the calls of the rows in turn, on a shard in which nothing has happened.
fn serves_new(
    rt: &impl Abort,
    alloc: Global,
    plan: ShardPlan,
    rows: &[Row],
) -> Result<OneThreadShard, AllocError>
    requires { IsPlan plan }
{
    let mut shard = OneThreadShard::open(alloc, plan)?;
    serves(rt, &mut shard, rows);
    Ok(shard)
}

#[rattlefmt::skip]
const ONE_ENTRY: [Row; 5] = [
    ("a new key",                    KeyCall::Put(A, ANY),     Reply::Answer { code: 0 }),
    ("a present key under NOEXIST",  KeyCall::Put(A, NOEXIST), Reply::Answer { code: -17 }),
    ("a new key in a full hash map", KeyCall::Put(B, ANY),     Reply::Answer { code: -7 }),
    ("a present key is deleted",     KeyCall::Remove(A),       Reply::Answer { code: 0 }),
    ("an absent key is not deleted", KeyCall::Remove(A),       Reply::Answer { code: -2 }),
];

#[rattlefmt::skip]
const NO_FREE_CELL: [Row; 8] = [
    ("the first key",                      KeyCall::Put(A, ANY),   Reply::Answer { code: 0 }),
    ("its cell waits for readers",         KeyCall::Remove(A),     Reply::Answer { code: 0 }),
    ("the second key",                     KeyCall::Put(B, ANY),   Reply::Answer { code: 0 }),
    ("its cell waits as well",             KeyCall::Remove(B),     Reply::Answer { code: 0 }),
    ("an absent key under EXIST",          KeyCall::Put(C, EXIST), Reply::Answer { code: -2 }),
    ("no cell is free for a new key",      KeyCall::Put(C, ANY),   Reply::Answer { code: -12 }),
    ("without readers both are freed",     KeyCall::Reclaim,       Reply::Freed { count: 2 }),
    ("then a cell is free for a new key",  KeyCall::Put(C, ANY),   Reply::Answer { code: 0 }),
];

#[rattlefmt::skip]
static HELD_CELL: [Row; 13] = [
    ("a key",                                KeyCall::Put(A, ANY),       Reply::Answer { code: 0 }),
    ("a worker enters",                      KeyCall::Enter(0),          Reply::Entered),
    ("it finds the cell",                    KeyCall::Look(0, A),        Reply::Cell { cell: CellRef { shard: 0, id: 0 } }),
    ("the key is deleted",                   KeyCall::Remove(A),         Reply::Answer { code: 0 }),
    ("the held cell is not freed",           KeyCall::Reclaim,           Reply::Freed { count: 0 }),
    ("another worker enters later",          KeyCall::Enter(1),          Reply::Entered),
    ("another key gets another cell",        KeyCall::Put(B, ANY),       Reply::Answer { code: 0 }),
    ("the held cell keeps its bytes",        KeyCall::Load(0, 0, 4, 2),  Reply::Word { value: 0x0101 }),
    ("the deleted key is not found",         KeyCall::Look(0, A),        Reply::Null),
    ("the other has the next id",            KeyCall::Look(1, B),        Reply::Cell { cell: CellRef { shard: 0, id: 1 } }),
    ("the first worker leaves",              KeyCall::Leave(0),          Reply::Left),
    ("who entered later keeps no cell back", KeyCall::Reclaim,           Reply::Freed { count: 1 }),
    ("nothing is freed twice",               KeyCall::Reclaim,           Reply::Freed { count: 0 }),
];

#[rattlefmt::skip]
static TWO_USED: [Row; 9] = [
    ("the first key",                          KeyCall::Put(A, ANY), Reply::Answer { code: 0 }),
    ("the second key",                         KeyCall::Put(B, ANY), Reply::Answer { code: 0 }),
    ("a worker enters",                        KeyCall::Enter(0),    Reply::Entered),
    ("a Lookup that finds is a use",           KeyCall::Look(0, A),  Reply::Cell { cell: CellRef { shard: 0, id: 0 } }),
    ("an Update that fails is no use",         KeyCall::Put(B, NOEXIST), Reply::Answer { code: -17 }),
    ("a third key evicts the one used longest ago", KeyCall::Put(C, ANY), Reply::Answer { code: 0 }),
    ("the key that was looked up stays",       KeyCall::Look(0, A),  Reply::Cell { cell: CellRef { shard: 0, id: 0 } }),
    ("the new key is there",                   KeyCall::Look(0, C),  Reply::Cell { cell: CellRef { shard: 0, id: 2 } }),
    ("the key used longest ago is gone",       KeyCall::Look(0, B),  Reply::Null),
];

#[rattlefmt::skip]
static ARRAY_OF_TWO: [Row; 15] = [
    ("an index out of range under NOEXIST",  KeyCall::Put(2, NOEXIST),   Reply::Answer { code: -7 }),
    ("an index is there under NOEXIST",      KeyCall::Put(0, NOEXIST),   Reply::Answer { code: -17 }),
    ("unknown flags",                        KeyCall::Put(0, 3),         Reply::Answer { code: -22 }),
    ("an index under EXIST",                 KeyCall::Put(1, EXIST),     Reply::Answer { code: 0 }),
    ("an array deletes nothing",             KeyCall::Remove(0),         Reply::Answer { code: -22 }),
    ("a worker enters",                      KeyCall::Enter(0),          Reply::Entered),
    ("an index out of range is not found",   KeyCall::Look(0, 2),        Reply::Null),
    ("index 1 has cell 1",                   KeyCall::Look(0, 1),        Reply::Cell { cell: CellRef { shard: 0, id: 1 } }),
    ("a store of two bytes",                 KeyCall::Store(0, 1, 2, 2, 0xabcd), Reply::Done),
    ("bytes are little-endian",              KeyCall::Load(0, 1, 0, 8),  Reply::Word { value: 0x01010101_abcd0101 }),
    ("a load at no multiple of its size",   KeyCall::Load(0, 1, 2, 4),  Reply::Word { value: 0x0101abcd }),
    ("an atomic addition of four bytes",     KeyCall::Add(0, 1, 4),      Reply::Word { value: 0x01010101 }),
    ("adds to these four alone",             KeyCall::Load(0, 1, 0, 8),  Reply::Word { value: 0x01010102_abcd0101 }),
    ("an atomic addition replies the old number", KeyCall::Change(0, 1, 0x00, 0xff, 0), Reply::Word { value: 0x01010102_abcd0101 }),
    ("and adds",                             KeyCall::Load(0, 1, 0, 8),  Reply::Word { value: 0x01010102_abcd0200 }),
];

/// The same, where nothing more is asked of the shard.
fn serves_all(
    rt: &impl Abort,
    alloc: Global,
    plan: ShardPlan,
    rows: &[Row],
) -> Result<(), AllocError>
    requires { IsPlan plan }
{
    let _shard = serves_new(rt, alloc, plan, rows)?;
    Ok(())
}

#[test]
fn hash_map_of_one_entry(rt: HostRuntime) -> Result<(), AllocError> {
    serves_all(&rt, rt.alloc(), plan(MapKind::Hash, 1, 64), &ONE_ENTRY)?;
    serves_all(&rt, rt.alloc(), plan(MapKind::Hash, 1, 64), &NO_FREE_CELL)
}

#[test]
fn held_cell_survives(rt: HostRuntime) -> Result<(), AllocError> {
    serves_all(&rt, rt.alloc(), plan(MapKind::Hash, 1, 64), &HELD_CELL)
}

#[test]
fn lru_map_of_two_entries(rt: HostRuntime) -> Result<(), AllocError> {
    serves_all(&rt, rt.alloc(), plan(MapKind::LruHash, 2, 64), &TWO_USED)
}

#[test]
fn array_of_two_entries(rt: HostRuntime) -> Result<(), AllocError> {
    serves_all(&rt, rt.alloc(), plan(MapKind::Array, 2, 64), &ARRAY_OF_TWO)
}

const A_RUN_ENTERS: [Row; 1] = [("a worker enters", KeyCall::Enter(0), Reply::Entered)];

const PAST_THE_END: [Row; 14] = [("an index out of range", KeyCall::Look(0, 2), Reply::Null); 14];

const THE_RUN_LEAVES: [Row; 1] = [("the run leaves", KeyCall::Leave(0), Reply::Left)];

/// With one run inside and 15 entries, a journal of 16 has room for that run's Leave alone.
#[test]
fn journal_of_16_entries(rt: HostRuntime) -> Result<(), AllocError> {
    let plan = plan(MapKind::Array, 2, 16);
    let mut shard = serves_new(&rt, rt.alloc(), plan, &A_RUN_ENTERS)?;
    serves(&rt, &mut shard, &PAST_THE_END);
    same(&rt, "how many entries", &shard.journal().len(), &15);
    holds(
        &rt,
        "a Lookup",
        shard.is_full(&call_of(KeyCall::Look(0, 2))),
    );
    holds(
        &rt,
        "another run",
        shard.is_full(&call_of(KeyCall::Enter(1))),
    );
    serves(&rt, &mut shard, &THE_RUN_LEAVES);
    holds(&rt, "a Reclaim", shard.is_full(&call_of(KeyCall::Reclaim)));
    Ok(())
}

#[rattlefmt::skip]
static NOT_SERVED: [(&str, KeyCall); 14] = [
    ("a worker enters once",                   KeyCall::Enter(0)),
    ("a worker outside does not leave",        KeyCall::Leave(1)),
    ("a worker outside looks nothing up",      KeyCall::Look(1, 0)),
    ("a worker that the plan lacks",           KeyCall::Enter(2)),
    ("a cell that was not found is not held",  KeyCall::Load(0, 0, 0, 8)),
    ("a size of three",                       KeyCall::Load(0, 1, 0, 3)),
    ("an atomic addition at no multiple of four", KeyCall::Add(0, 1, 2)),
    ("bytes past the value",                   KeyCall::Load(0, 1, 8, 1)),
    ("an offset near 2^64",                    KeyCall::Load(0, 1, 0xffff_ffff_ffff_fff8, 8)),
    ("a number wider than its bytes",          KeyCall::Store(0, 1, 0, 1, 0x100)),
    ("an operation that the table lacks",      KeyCall::Change(0, 1, 0x02, 1, 0)),
    ("an expected number without comparison",  KeyCall::Change(0, 1, 0x00, 1, 1)),
    ("a cell of an earlier run",               KeyCall::Load(1, 0, 0, 8)),
    ("an operation of another instruction",    KeyCall::Change(0, 1, 0xe0, 1, 0)),
];

/// What happened before.
#[rattlefmt::skip]
const TWO_RUNS: [Row; 5] = [
    ("an earlier run enters", KeyCall::Enter(1),   Reply::Entered),
    ("it finds cell 0",       KeyCall::Look(1, 0), Reply::Cell { cell: CellRef { shard: 0, id: 0 } }),
    ("it leaves",             KeyCall::Leave(1),   Reply::Left),
    ("a run enters",          KeyCall::Enter(0),   Reply::Entered),
    ("it finds cell 1",       KeyCall::Look(0, 1), Reply::Cell { cell: CellRef { shard: 0, id: 1 } }),
];

/// No caller of the rows may make its call.
fn serves_none(rt: &impl Abort, shard: &OneThreadShard, rows: &[(&str, KeyCall)]) {
    for (name, ask) in rows {
        holds(rt, name, !shard.meets(&caller_of(*ask), &call_of(*ask)));
    }
}

#[test]
fn calls_that_are_not_served(rt: HostRuntime) -> Result<(), AllocError> {
    let shard = serves_new(&rt, rt.alloc(), plan(MapKind::Array, 2, 64), &TWO_RUNS)?;
    serves_none(&rt, &shard, &NOT_SERVED);
    Ok(())
}
