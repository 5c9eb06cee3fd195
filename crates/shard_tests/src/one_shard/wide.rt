//! Rows with values of 256 bytes, in each kind of map.

use super::{SHARD, cell, plan_of};
use crate::asserting::{holds, same};
use ebpf_decode::MapKind;
use semantics::{Call, Caller, CellRef, Key, Reply, Value};
use shard_core::shard::Shard;
use std::alloc::{AllocError, Global};
use std::process::Abort;

/// A call of one worker on key 3, whose cell is 3.
#[derive(Clone, Copy)]
enum Wide {
    Enter,
    /// The value of counted bytes.
    Put,
    Look,
    /// Offset, size.
    Load(u64, u64),
    /// Offset, size, number.
    Store(u64, u64, u64),
    Add(u64, u64, u64),
}

/// The calls of one worker, and what each is answered.
#[rattlefmt::skip]
static ROWS: [(&str, Wide, Reply); 8] = [
    ("a worker enters",                       Wide::Enter,                 Reply::Entered),
    ("a value of 256 bytes",                  Wide::Put,                   Reply::Answer { code: 0 }),
    ("its key is found",                      Wide::Look,                  Reply::Cell { cell: CellRef { shard: SHARD, id: 3 } }),
    ("its first bytes",                       Wide::Load(0, 4),            Reply::Word { value: 0x0302_0100 }),
    ("its last bytes",                        Wide::Load(248, 8),          Reply::Word { value: 0xfffe_fdfc_fbfa_f9f8 }),
    ("a store into the last two",             Wide::Store(254, 2, 0x1122), Reply::Done),
    ("an addition to the four before them",   Wide::Add(248, 4, 8),        Reply::Word { value: 0xfbfa_f9f8 }),
    ("both are there",                        Wide::Load(248, 8),          Reply::Word { value: 0x1122_fdfc_fbfa_fa00 }),
];

/// The bytes 0 to 255.
fn counted() -> Value {
    let mut bytes = [0; 256];
    for place in 0..256 {
        bytes[place] = place as u8;
    }
    Value::of(&bytes).unwrap_or(Value::empty())
}

/// Puts the counted bytes as a key's value.
fn update(index: u8) -> Call {
    Call::Update {
        shard: SHARD,
        key: Key::of(&[index, 0, 0, 0]).unwrap_or(Key::empty()),
        value: counted(),
        flags: 0,
    }
}

fn call_of(wide: Wide) -> Call {
    let cell = cell(3);
    match wide {
        Wide::Enter => Call::Enter { shard: SHARD },
        Wide::Put => update(3),
        Wide::Look => Call::Lookup {
            shard: SHARD,
            key: Key::of(&[3, 0, 0, 0]).unwrap_or(Key::empty()),
        },
        Wide::Load(offset, size) => Call::Load { cell, offset, size },
        Wide::Store(offset, size, value) => Call::Store {
            cell,
            offset,
            size,
            value,
        },
        Wide::Add(offset, size, value) => Call::Atomic {
            cell,
            offset,
            size,
            op: 0,
            value,
            expected: 0,
        },
    }
}

/// Makes a call that its caller may make, and compares the reply.
fn makes(rt: &impl Abort, shard: &mut Shard, name: &str, who: Caller, call: &Call, want: Reply) {
    holds(rt, name, shard.meets(&who, call));
    same(rt, name, &shard.apply(who, call), &Ok(want));
}

/// Three keys come first, so that the fourth has cell 3 in each kind of map.
fn three_before(rt: &impl Abort, shard: &mut Shard) {
    let name = "one of three keys before";
    let done = Reply::Answer { code: 0 };
    for index in 0..3 {
        makes(rt, shard, name, Caller::Controller, &update(index), done);
    }
}

/// Makes the calls of the rows in turn.
fn serves_wide(rt: &impl Abort, shard: &mut Shard, rows: &[(&str, Wide, Reply)]) {
    let worker = Caller::Worker { number: 0 };
    for (name, wide, want) in rows {
        makes(rt, shard, name, worker, &call_of(*wide), *want);
    }
}

/// Makes all calls on a new shard.
fn serves_new_wide(rt: &impl Abort, alloc: Global, kind: MapKind) -> Result<(), AllocError> {
    let mut shard = Shard::open(alloc, plan_of(kind, 256, 4, 16))?;
    three_before(rt, &mut shard);
    serves_wide(rt, &mut shard, &ROWS);
    Ok(())
}

#[test]
fn values_of_256_bytes(rt: HostRuntime) -> Result<(), AllocError> {
    serves_new_wide(&rt, rt.alloc(), MapKind::Array)?;
    serves_new_wide(&rt, rt.alloc(), MapKind::Hash)?;
    serves_new_wide(&rt, rt.alloc(), MapKind::LruHash)
}
