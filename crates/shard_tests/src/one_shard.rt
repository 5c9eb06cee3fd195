//! Rows that run a shard.

ghost use Rattle.std.specs.Prelude.{◌<◌};
ghost use Rattle.semantics.specs.PlanLimits.{IsPlan};

use crate::asserting::{holds, same};
use ebpf_decode::{MapDef, MapKind};
use semantics::{Call, Caller, CellRef, JournalFull, Key, Reply, ShardPlan, Value};
use shard_core::shard::Shard;
use std::alloc::{AllocError, Global};
use std::process::Abort;
use std::test::Fail;

mod contents;
mod parts;
mod recent;
mod wide;

const ANY: u64 = 0;

const NOEXIST: u64 = 1;

const EXIST: u64 = 2;

/// The number of the shard in every row.
const SHARD: u32 = 3;

/// A call in one row of a table, on a map with values of eight bytes.
#[derive(Clone, Copy)]
enum IndexCall {
    /// By a worker.
    Enter(u8),
    Leave(u8),
    /// Worker, index.
    Look(u8, u32),
    /// Worker, cell, offset, size.
    Load(u8, u64, u64, u64),
    /// Worker, cell, offset, size, number.
    Store(u8, u64, u64, u64, u64),
    /// Worker, cell, operation, number, expected: on the first eight bytes.
    Change(u8, u64, u64, u64, u64),
    /// By the controller: index, byte, flags.
    Put(u32, u8, u64),
    Remove(u32),
    /// By the reclaimer.
    Reclaim,
}

type Row = (&'static str, IndexCall, Reply);

fn plan_of(kind: MapKind, value_size: u32, max_entries: u32, reserve: u32) -> ShardPlan
    ensures { IsPlan result }
{
    ShardPlan {
        number: SHARD,
        part: 0,
        parts: 1,
        definition: MapDef {
            kind,
            key_size: 4,
            value_size: value_size.min(256),
            max_entries: max_entries.max(1).min(131_072),
        },
        workers: 2,
        reserve: reserve.max(16).min(1_048_576),
    }
}

fn plan(value_size: u32, max_entries: u32, reserve: u32) -> ShardPlan
    ensures { IsPlan result }
{
    plan_of(MapKind::Array, value_size, max_entries, reserve)
}

fn key_of(index: u32) -> Key {
    Key::of(&index.to_le_bytes()).unwrap_or(Key::empty())
}

fn value_of(byte: u8) -> Value {
    Value::of(&[byte; 8]).unwrap_or(Value::empty())
}

fn caller_of(ask: IndexCall) -> Caller {
    match ask {
        IndexCall::Enter(number) => Caller::Worker { number },
        IndexCall::Leave(number) => Caller::Worker { number },
        IndexCall::Look(number, _) => Caller::Worker { number },
        IndexCall::Load(number, _, _, _) => Caller::Worker { number },
        IndexCall::Store(number, _, _, _, _) => Caller::Worker { number },
        IndexCall::Change(number, _, _, _, _) => Caller::Worker { number },
        IndexCall::Put(_, _, _) => Caller::Controller,
        IndexCall::Remove(_) => Caller::Controller,
        IndexCall::Reclaim => Caller::Reclaimer,
    }
}

fn cell(id: u64) -> CellRef {
    CellRef { shard: SHARD, id }
}

fn call_of(ask: IndexCall) -> Call {
    match ask {
        IndexCall::Enter(_) => Call::Enter { shard: SHARD },
        IndexCall::Leave(_) => Call::Leave { shard: SHARD },
        IndexCall::Look(_, index) => Call::Lookup {
            shard: SHARD,
            key: key_of(index),
        },
        IndexCall::Load(_, id, offset, size) => Call::Load {
            cell: cell(id),
            offset,
            size,
        },
        IndexCall::Store(_, id, offset, size, value) => Call::Store {
            cell: cell(id),
            offset,
            size,
            value,
        },
        IndexCall::Change(_, id, op, value, expected) => Call::Atomic {
            cell: cell(id),
            offset: 0,
            size: 8,
            op,
            value,
            expected,
        },
        IndexCall::Put(index, byte, flags) => Call::Update {
            shard: SHARD,
            key: key_of(index),
            value: value_of(byte),
            flags,
        },
        IndexCall::Remove(index) => Call::Delete {
            shard: SHARD,
            key: key_of(index),
        },
        IndexCall::Reclaim => Call::Reclaim { shard: SHARD },
    }
}

/// Makes a call that its caller may make.
fn make(
    rt: &impl Abort,
    shard: &mut Shard,
    ask: IndexCall,
    name: &'static str,
) -> Result<Reply, JournalFull> {
    let who = caller_of(ask);
    let call = call_of(ask);
    holds(rt, name, shard.meets(&who, &call));
    shard.apply(who, &call)
}

/// Caller, call and reply of the newest entry.
fn newest(shard: &Shard) -> Option<(Caller, Call, Reply)> {
    let journal = shard.journal();
    let count = journal.len();
    if count == 0 || !journal.keeps_rows() {
        return None;
    }
    let entry = journal.entry(count - 1);
    Some((entry.who, entry.call, entry.reply))
}

/// Makes a call, which is served, and whose entry is the newest.
fn served(rt: &impl Abort, shard: &mut Shard, name: &'static str, ask: IndexCall, want: Reply) {
    same(rt, name, &make(rt, shard, ask, name), &Ok(want));
    let entered = Some((caller_of(ask), call_of(ask), want));
    same(rt, name, &newest(shard), &entered);
}

/// Makes a call, which a full journal refuses, and nothing is changed.
fn refused(rt: &impl Abort, shard: &mut Shard, name: &'static str, ask: IndexCall) {
    let before = shard.journal().len();
    let full = Err(JournalFull { shard: SHARD });
    same(rt, name, &make(rt, shard, ask, name), &full);
    same(rt, name, &shard.journal().len(), &before);
}

/// Makes the calls of the rows in turn. Each is served.
fn serves(rt: &impl Abort, shard: &mut Shard, rows: &[Row]) {
    for (name, ask, want) in rows {
        served(rt, shard, name, *ask, *want);
    }
}

/// Makes the calls of the rows in turn, on a shard in which nothing has happened.
fn serves_new(
    rt: &impl Abort,
    alloc: Global,
    plan: ShardPlan,
    rows: &[Row],
) -> Result<Shard, AllocError>
    requires { IsPlan plan }
{
    let mut shard = Shard::open(alloc, plan)?;
    serves(rt, &mut shard, rows);
    Ok(shard)
}

/// The same, and says how many entries the journal then has.
fn entries_of(
    rt: &impl Abort,
    alloc: Global,
    plan: ShardPlan,
    rows: &[Row],
) -> Result<usize, AllocError>
    requires { IsPlan plan }
{
    let shard = serves_new(rt, alloc, plan, rows)?;
    Ok(shard.journal().len())
}

#[rattlefmt::skip]
static ARRAY_OF_TWO: [Row; 22] = [
    ("unknown flags out of range",                IndexCall::Put(2, 7, 3),       Reply::Answer { code: -22 }),
    ("an index under EXIST",                      IndexCall::Put(0, 1, EXIST),   Reply::Answer { code: 0 }),
    ("an index under ANY",                        IndexCall::Put(1, 2, ANY),     Reply::Answer { code: 0 }),
    ("nor out of range",                          IndexCall::Remove(2),          Reply::Answer { code: -22 }),
    ("a worker enters",                           IndexCall::Enter(0),           Reply::Entered),
    ("an index out of range is not found",        IndexCall::Look(0, 2),         Reply::Null),
    ("nor one that is 0 in its low half",         IndexCall::Look(0, 0x10000),   Reply::Null),
    ("index 1 has cell 1",                        IndexCall::Look(0, 1),         Reply::Cell { cell: CellRef { shard: SHARD, id: 1 } }),
    ("index 0 has cell 0",                        IndexCall::Look(0, 0),         Reply::Cell { cell: CellRef { shard: SHARD, id: 0 } }),
    ("failed updates changed nothing",            IndexCall::Load(0, 0, 0, 8),   Reply::Word { value: 0x01010101_01010101 }),
    ("a store of two bytes",                      IndexCall::Store(0, 1, 2, 2, 0xabcd), Reply::Done),
    ("bytes are little-endian",                   IndexCall::Load(0, 1, 0, 8),   Reply::Word { value: 0x02020202_abcd0202 }),
    ("one byte",                                  IndexCall::Load(0, 1, 3, 1),   Reply::Word { value: 0xab }),
    ("an atomic addition replies the old number", IndexCall::Change(0, 1, 0x00, 0xfe, 0), Reply::Word { value: 0x02020202_abcd0202 }),
    ("and adds once",                             IndexCall::Load(0, 1, 0, 8),   Reply::Word { value: 0x02020202_abcd0300 }),
    ("a comparison that fails",                   IndexCall::Change(0, 1, 0xf1, 5, 6), Reply::Word { value: 0x02020202_abcd0300 }),
    ("stores nothing",                            IndexCall::Load(0, 1, 0, 8),   Reply::Word { value: 0x02020202_abcd0300 }),
    ("an Update of a held cell",                  IndexCall::Put(1, 9, ANY),     Reply::Answer { code: 0 }),
    ("is seen at once",                           IndexCall::Load(0, 1, 4, 4),   Reply::Word { value: 0x09090909 }),
    ("the other cell stays",                      IndexCall::Load(0, 0, 4, 4),   Reply::Word { value: 0x01010101 }),
    ("an array retires nothing",                  IndexCall::Reclaim,            Reply::Freed { count: 0 }),
    ("the worker leaves",                         IndexCall::Leave(0),           Reply::Left),
];

#[test]
fn array_of_two_entries(rt: HostRuntime) -> Result<(), AllocError> {
    let count = entries_of(&rt, rt.alloc(), plan(8, 2, 64), &ARRAY_OF_TWO)?;
    same(&rt, "how many entries", &count, &ARRAY_OF_TWO.len());
    Ok(())
}

/// The size of a value, and how many entries the map has.
#[rattlefmt::skip]
const SIZES: [(u32, u32); 10] = [
    (8, 1), (16, 2), (24, 3), (32, 4), (40, 5), (48, 6), (56, 7), (64, 8), (8, 4096), (64, 256),
];

/// Finds the last cell of such an array, and reads its last bytes.
fn array_of_size(
    rt: &impl Abort,
    alloc: Global,
    value_size: u32,
    max_entries: u32,
) -> Result<(), AllocError> {
    let last = max_entries.saturating_sub(1);
    let found = cell(u64::from(last));
    let place = u64::from(value_size.saturating_sub(8));
    let rows = [
        ("a worker enters", IndexCall::Enter(1), Reply::Entered),
        ("past the end", IndexCall::Look(1, max_entries), Reply::Null),
        (
            "the last index",
            IndexCall::Look(1, last),
            Reply::Cell { cell: found },
        ),
        (
            "its last bytes are zeros",
            IndexCall::Load(1, found.id, place, 8),
            Reply::Word { value: 0 },
        ),
    ];
    let _count = entries_of(rt, alloc, plan(value_size, max_entries, 16), &rows)?;
    Ok(())
}

#[test]
fn arrays_of_each_size(rt: HostRuntime) -> Result<(), AllocError> {
    for (value_size, max_entries) in &SIZES {
        array_of_size(&rt, rt.alloc(), *value_size, *max_entries)?;
    }
    Ok(())
}

#[rattlefmt::skip]
static HELD_CELL_STAYS: [Row; 14] = [
    ("a key",                             IndexCall::Put(1, 1, ANY),     Reply::Answer { code: 0 }),
    ("a worker enters",                   IndexCall::Enter(0),           Reply::Entered),
    ("an absent key",                     IndexCall::Look(0, 2),         Reply::Null),
    ("the key's cell",                    IndexCall::Look(0, 1),         Reply::Cell { cell: CellRef { shard: SHARD, id: 0 } }),
    ("the key goes",                      IndexCall::Remove(1),          Reply::Answer { code: 0 }),
    ("its cell is held",                  IndexCall::Reclaim,            Reply::Freed { count: 0 }),
    ("another key",                       IndexCall::Put(2, 2, ANY),     Reply::Answer { code: 0 }),
    ("has another cell",                  IndexCall::Look(0, 2),         Reply::Cell { cell: CellRef { shard: SHARD, id: 1 } }),
    ("the held cell has its bytes",       IndexCall::Load(0, 0, 0, 8),   Reply::Word { value: 0x01010101_01010101 }),
    ("and takes others",                  IndexCall::Change(0, 0, 0x00, 1, 0), Reply::Word { value: 0x01010101_01010101 }),
    ("for itself",                        IndexCall::Load(0, 1, 0, 8),   Reply::Word { value: 0x02020202_02020202 }),
    ("the worker leaves",                 IndexCall::Leave(0),           Reply::Left),
    ("its cell is freed",                 IndexCall::Reclaim,            Reply::Freed { count: 1 }),
    ("and none is left to free",          IndexCall::Reclaim,            Reply::Freed { count: 0 }),
];

fn hash_plan(max_entries: u32) -> ShardPlan
    ensures { IsPlan result }
{
    plan_of(MapKind::Hash, 8, max_entries, 64)
}

#[test]
fn large_hash(rt: HostRuntime) -> Result<(), AllocError> {
    let _count = entries_of(&rt, rt.alloc(), hash_plan(131_072), &HELD_CELL_STAYS)?;
    Ok(())
}

/// A call that is made this many times: its reply, or None where the full journal refuses it.
type Filling = (&'static str, u32, IndexCall, Option<Reply>);

/// Makes the calls of the rows in turn, on an array with a journal of 16, and says how many entries it then has.
fn fills(rt: &impl Abort, alloc: Global, rows: &[Filling]) -> Result<usize, AllocError> {
    let mut shard = Shard::open(alloc, plan(8, 2, 16))?;
    for (name, times, ask, want) in rows {
        for _ in 0..*times {
            match want {
                Some(reply) => served(rt, &mut shard, name, *ask, *reply),
                None => refused(rt, &mut shard, name, *ask),
            }
        }
    }
    Ok(shard.journal().len())
}

#[rattlefmt::skip]
const LAST_IS_A_LEAVE: [Filling; 8] = [
    ("a worker enters",       1,  IndexCall::Enter(0),       Some(Reply::Entered)),
    ("an index out of range", 14, IndexCall::Look(0, 2),     Some(Reply::Null)),
    ("a Lookup",              1,  IndexCall::Look(0, 0),     None),
    ("another run",           1,  IndexCall::Enter(1),       None),
    ("the controller",        1,  IndexCall::Put(0, 1, ANY), None),
    ("the run leaves",        1,  IndexCall::Leave(0),       Some(Reply::Left)),
    ("a Reclaim",             1,  IndexCall::Reclaim,        None),
    ("an Enter",              1,  IndexCall::Enter(0),       None),
];

/// With one run inside and 15 entries, a journal of 16 has room for that run's Leave alone.
#[test]
fn last_entry_is_a_leave(rt: HostRuntime) -> Result<(), AllocError> {
    let count = fills(&rt, rt.alloc(), &LAST_IS_A_LEAVE)?;
    same(&rt, "how many entries", &count, &16);
    Ok(())
}

#[rattlefmt::skip]
const HOLDS_CELL_0: [Row; 2] = [
    ("a worker enters", IndexCall::Enter(1),   Reply::Entered),
    ("it finds cell 0", IndexCall::Look(1, 0), Reply::Cell { cell: CellRef { shard: SHARD, id: 0 } }),
];

const LEAVES: [Row; 1] = [("it leaves", IndexCall::Leave(1), Reply::Left)];

/// Whether the workers 1 and 0 are inside, and whether they hold a cell: 1 the cells 0 and 1, 0 the cell 0.
fn standings(shard: &Shard) -> [bool; 5] {
    [
        shard.is_inside(1),
        shard.is_inside(0),
        has_found(shard, 1, 0),
        has_found(shard, 1, 1),
        has_found(shard, 0, 0),
    ]
}

/// Whether the worker holds the cell, as the rows of the journal say.
fn has_found(shard: &Shard, worker: u8, id: u64) -> bool
    requires { worker < 8 }
{
    if shard.keeps_rows() {
        shard.holds(worker, id)
    } else {
        false
    }
}

/// What a caller can ask of a shard before it calls.
#[test]
fn tests_for_callers(rt: HostRuntime) -> Result<(), AllocError> {
    let mut shard = serves_new(&rt, rt.alloc(), plan(8, 2, 16), &HOLDS_CELL_0)?;
    let inside = [true, false, true, false, false];
    same(&rt, "who is inside and holds", &standings(&shard), &inside);
    serves(&rt, &mut shard, &LEAVES);
    same(&rt, "after the Leave", &standings(&shard), &[false; 5]);
    holds(
        &rt,
        "there is room",
        !shard.is_full(&call_of(IndexCall::Reclaim)),
    );
    same(&rt, "its number", &shard.plan().number, &SHARD);
    Ok(())
}

/// The printed fault.
#[test]
fn fault_text(rt: HostRuntime) -> Result<(), Fail> {
    let fault = JournalFull { shard: 7 };
    let text = format!(in rt.alloc(); "{fault}")?;
    same(
        &rt,
        "its text",
        &text.as_str(),
        &"fault 50 JournalFull shard 7",
    );
    same(&rt, "its number", &fault.number(), &50);
    Ok(())
}
