//! The calls of one worker on a shard that threads share.

ghost use Rattle.std.specs.Prelude.{◌≡◌, ◌<◌, true, IfOk, IfSome, OnOk};
ghost use Rattle.shards.specs.Passes.{own_at};
ghost use Rattle.bench_parts.specs.Measured.{measured_plan, IsPassReady, IsPassAtWork, PassHoldsThere};

use crate::scattered::scattered;
use ebpf_decode::{MapDef, MapKind};
use journal::CellRange;
use semantics::{Caller, JournalFull, Options};
use shards::{Dealer, Naming, Pass, PassFault, Shards};
use std::alloc::Global;
use std::sync::Wait;

/// How many threads there are at most: as many as workers, and as maps.
pub const THREADS: u32 = 4;

/// How many keys a map has: a power of two.
pub const KEYS: u32 = 64;

/// Each of the maps.
pub const MAP: MapDef = MapDef {
    kind: MapKind::Array,
    key_size: 4,
    value_size: 8,
    max_entries: KEYS,
};

/// How the shards are opened: each map has one.
pub const OPTIONS: Options = Options {
    workers: THREADS,
    shards: 1,
    journal: 1_048_576,
};

/// How many lookups a thread makes, each with a load: two entries of a journal.
pub const LOOKUPS: u32 = 100_000;

/// A worker's pass, and the shard that it calls.
#[derive(Drop)]
pub struct CallTask<B: Naming> {
    pub pass: Pass<B>,
    pub shard: u32,
}

/// Whether there is a shard of this number, and it is planned as those that are measured.
fn is_measured<B: Naming>(shards: &Shards<B>, shard: u32) -> bool
    ensures below { result ≡ true → shard < B.count }
    ensures planned { result ≡ true → B.plan shard ≡ measured_plan shard }
{
    shards.planned();
    match shards.maps().get(shard as usize) {
        Some(map) => *map == MAP && shards.options() == OPTIONS,
        None => false,
    }
}

/// A worker's task.
pub fn task_of<B: Naming>(
    alloc: Global,
    shards: &Shards<B>,
    dealer: &mut Dealer<B>,
    number: u8,
    shard: u32,
) -> Result<CallTask<B>, PassFault>
    requires { number < 4 }
    ensures { IfOk result (λ task. IsPassReady B.count B.plan task.pass task.shard) }
{
    if !is_measured(shards, shard) {
        return Err(PassFault::BadOptions);
    }
    let pass = dealer.pass(alloc, Caller::Worker { number })?;
    Ok(CallTask { pass, shard })
}

/// The worker enters the shard.
fn enter<B: Naming>(
    rt: &impl Wait,
    shards: &Shards<B>,
    pass: &mut Pass<B>,
    shard: u32,
) -> Result<(), JournalFull>
    requires { IsPassReady B.count B.plan pass.old shard }
    ensures { OnOk result (IsPassAtWork B.count B.plan pass.new shard) }
{
    shards.enter(rt, pass, shard)
}

/// The cell of a key.
fn look<B: Naming>(
    rt: &impl Wait,
    shards: &Shards<B>,
    pass: &mut Pass<B>,
    shard: u32,
    key: u32,
) -> Result<Option<u64>, JournalFull>
    requires { IsPassAtWork B.count B.plan pass.old shard }
    ensures work { IsPassAtWork B.count B.plan pass.new shard }
    ensures held { IfOk result (λ found. IfSome found (λ cell. PassHoldsThere pass.new shard cell)) }
{
    shards.lookup(rt, pass, shard, &key.to_le_bytes())
}

/// The number in a cell.
fn load<B: Naming>(
    rt: &impl Wait,
    shards: &Shards<B>,
    pass: &mut Pass<B>,
    shard: u32,
    cell: u64,
) -> Result<u64, JournalFull>
    requires work { IsPassAtWork B.count B.plan pass.old shard }
    requires held { PassHoldsThere pass.old shard cell }
    ensures { IsPassAtWork B.count B.plan pass.new shard }
{
    let range = CellRange {
        cell,
        offset: 0,
        size: 8,
    };
    shards.load(rt, pass, shard, &range)
}

/// A key's lookup and load, and what was loaded.
fn look_and_load<B: Naming>(
    rt: &impl Wait,
    shards: &Shards<B>,
    pass: &mut Pass<B>,
    shard: u32,
    key: u32,
) -> Result<u64, JournalFull>
    requires { IsPassAtWork B.count B.plan pass.old shard }
    ensures { IsPassAtWork B.count B.plan pass.new shard }
{
    match look(rt, shards, pass, shard, key)? {
        Some(cell) => load(rt, shards, pass, shard, cell),
        None => Ok(0),
    }
}

/// All lookups of a thread, and the sum of what was loaded.
pub fn work<B: Naming>(
    rt: &impl Wait,
    shards: &Shards<B>,
    task: CallTask<B>,
) -> Result<u64, JournalFull>
    requires { IsPassReady B.count B.plan task.pass task.shard }
{
    let CallTask { mut pass, shard } = task;
    enter(rt, shards, &mut pass, shard)?;
    let mut sum = 0u64;
    'keys: for number in 0..LOOKUPS {
        let key = scattered(number, KEYS);
        let loaded = look_and_load(rt, shards, &mut pass, shard, key)?;
        sum = sum.wrapping_add(loaded);
    }
    Ok(sum)
}
