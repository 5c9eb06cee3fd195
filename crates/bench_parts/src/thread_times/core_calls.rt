//! Lookups and loads on one shard without lock, word and pass: what shared shards are compared with.

ghost use Rattle.std.specs.Prelude.{◌≡◌, [], IfOk, IfSome, OnOk};
ghost use Rattle.semantics.specs.PlanLimits.{IsPlan};
ghost use Rattle.bench_parts.specs.Alone.{alone_plan, IsAlone, HoldsAlone};

use super::shared_calls::{KEYS, LOOKUPS, MAP, OPTIONS, THREADS};
use crate::scattered::scattered;
use anyhow::Error;
use journal::CellRange;
use semantics::{Caller, JournalFull, ShardPlan};
use shard_core::Shard;
use std::alloc::Global;
use std::time::{Clock, Instant};

/// Who makes the calls.
const WORKER: Caller = Caller::Worker { number: 0 };

/// The plan of the shard.
fn plan() -> ShardPlan
    ensures plan { result ≡ alone_plan }
    ensures limits { IsPlan result }
{
    ShardPlan {
        number: 0,
        part: 0,
        parts: 1,
        definition: MAP,
        workers: THREADS,
        reserve: OPTIONS.journal,
    }
}

/// The worker enters the shard, in which nothing has happened.
fn enter(shard: &mut Shard) -> Result<(), JournalFull>
    requires planned { shard.old.plan ≡ alone_plan }
    requires opened { shard.old.journal ≡ [] }
    ensures { OnOk result (IsAlone shard.new) }
{
    shard.enter(WORKER)
}

/// The cell of a key.
fn look(shard: &mut Shard, key: u32) -> Result<Option<u64>, JournalFull>
    requires { IsAlone shard.old }
    ensures work { IsAlone shard.new }
    ensures held { IfOk result (λ found. IfSome found (λ cell. HoldsAlone shard.new cell)) }
{
    shard.lookup(WORKER, &key.to_le_bytes())
}

/// The number in a cell.
fn load(shard: &mut Shard, cell: u64) -> Result<u64, JournalFull>
    requires work { IsAlone shard.old }
    requires held { HoldsAlone shard.old cell }
    ensures { IsAlone shard.new }
{
    let range = CellRange {
        cell,
        offset: 0,
        size: 8,
    };
    shard.load(WORKER, &range)
}

/// A key's lookup and load, and what was loaded.
fn look_and_load(shard: &mut Shard, key: u32) -> Result<u64, JournalFull>
    requires { IsAlone shard.old }
    ensures { IsAlone shard.new }
{
    match look(shard, key)? {
        Some(cell) => load(shard, cell),
        None => Ok(0),
    }
}

/// All lookups, and the sum of what was loaded.
fn work(shard: &mut Shard) -> Result<u64, JournalFull>
    requires planned { shard.old.plan ≡ alone_plan }
    requires opened { shard.old.journal ≡ [] }
{
    enter(shard)?;
    let mut sum = 0u64;
    'keys: for number in 0..LOOKUPS {
        let key = scattered(number, KEYS);
        sum = sum.wrapping_add(look_and_load(shard, key)?);
    }
    Ok(sum)
}

/// The time of all lookups and loads of a thread, on a shard that it alone has.
pub fn timed_core(rt: &impl Clock, alloc: Global) -> Result<u128, Error> {
    let mut shard = Shard::open(alloc, plan())?;
    let start = Instant::now(rt)?;
    let _sum = work(&mut shard)?;
    Ok(start.elapsed(rt)?.as_nanos())
}
