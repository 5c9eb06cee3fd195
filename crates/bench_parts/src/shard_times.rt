//! Calls of a shard on one thread: a row a line, a name and tenths of a nanosecond.

ghost use Rattle.std.specs.Prelude.{◌≡◌, ◌≤◌, [], IfOk, IfSome, OnOk};
ghost use Rattle.semantics.specs.PlanLimits.{IsPlan};
ghost use Rattle.bench_parts.specs.AtWork.{bench_plan, IsAtWork, HoldsThere};

use crate::scattered::scattered;
use anyhow::Error;
use ebpf_decode::{MapDef, MapKind};
use isa::AtomicOp;
use journal::{AtomicChange, CellRange};
use semantics::{Caller, JournalFull, ShardPlan};
use shard_core::Shard;
use std::time::Instant;

/// Who makes the calls.
const WORKER: Caller = Caller::Worker { number: 0 };

/// How many entries a journal has room for.
const JOURNAL: u32 = 65_536;

/// How often a shard is opened and measured; the least time is printed.
const TIMES: usize = 100;

/// A shard for this many keys of 4 bytes, with values of 8.
fn plan(kind: MapKind, count: u32) -> ShardPlan
    requires some { 1 ≤ count }
    requires few { count ≤ 131072 }
    ensures plan { result ≡ bench_plan kind count }
    ensures limits { IsPlan result }
{
    ShardPlan {
        number: 0,
        part: 0,
        parts: 1,
        definition: MapDef {
            kind,
            key_size: 4,
            value_size: 8,
            max_entries: count,
        },
        workers: 1,
        reserve: JOURNAL,
    }
}

/// The worker enters the shard, in which nothing has happened.
fn enter(shard: &mut Shard) -> Result<(), JournalFull>
    requires planned { shard.old.plan ≡ bench_plan shard.old.plan.definition.kind shard.old.plan.definition.max_entries }
    requires opened { shard.old.journal ≡ [] }
    ensures { OnOk result (IsAtWork shard.new) }
{
    shard.enter(WORKER)
}

/// Sets the value of a key.
fn put(shard: &mut Shard, key: u32) -> Result<i32, JournalFull>
    requires { IsAtWork shard.old }
    ensures { IsAtWork shard.new }
{
    shard.update(WORKER, &key.to_le_bytes(), &[0; 8], 0)
}

/// The cell of a key.
#[inline(always)]
fn look(shard: &mut Shard, key: u32) -> Result<Option<u64>, JournalFull>
    requires { IsAtWork shard.old }
    ensures work { IsAtWork shard.new }
    ensures held { IfOk result (λ found. IfSome found (λ cell. HoldsThere shard.new cell)) }
{
    shard.lookup(WORKER, &key.to_le_bytes())
}

/// The number in a cell.
#[inline(always)]
fn load(shard: &mut Shard, cell: u64) -> Result<u64, JournalFull>
    requires work { IsAtWork shard.old }
    requires held { HoldsThere shard.old cell }
    ensures work { IsAtWork shard.new }
    ensures held { HoldsThere shard.new cell }
{
    let range = CellRange {
        cell,
        offset: 0,
        size: 8,
    };
    shard.load(WORKER, &range)
}

/// Adds 1 to the number in a cell.
#[inline(always)]
fn add(shard: &mut Shard, cell: u64) -> Result<u64, JournalFull>
    requires work { IsAtWork shard.old }
    requires held { HoldsThere shard.old cell }
    ensures work { IsAtWork shard.new }
    ensures held { HoldsThere shard.new cell }
{
    let range = CellRange {
        cell,
        offset: 0,
        size: 8,
    };
    let change = AtomicChange {
        op: u64::from(AtomicOp::FetchAdd.code()),
        value: 1,
        expected: 0,
    };
    shard.atomic(WORKER, &range, &change)
}

/// Puts the keys below a number.
fn fill(shard: &mut Shard, count: u32) -> Result<(), JournalFull>
    requires { IsAtWork shard.old }
    ensures { IsAtWork shard.new }
{
    'keys: for key in 0..count {
        put(shard, key)?;
    }
    Ok(())
}

/// A key's lookup and load, and what was loaded.
fn look_and_load(shard: &mut Shard, key: u32) -> Result<u64, JournalFull>
    requires { IsAtWork shard.old }
    ensures { IsAtWork shard.new }
{
    match look(shard, key)? {
        Some(cell) => load(shard, cell),
        None => Ok(0),
    }
}

/// The same with an atomic add between.
fn look_add_and_load(shard: &mut Shard, key: u32) -> Result<u64, JournalFull>
    requires { IsAtWork shard.old }
    ensures { IsAtWork shard.new }
{
    match look(shard, key)? {
        Some(cell) => {
            add(shard, cell)?;
            load(shard, cell)
        }
        None => Ok(0),
    }
}

/// One pass over the keys below a number, in an order that memory does not follow.
fn pass(shard: &mut Shard, count: u32, adds: bool) -> Result<u64, JournalFull>
    requires { IsAtWork shard.old }
    ensures { IsAtWork shard.new }
{
    let mut sum = 0u64;
    'keys: for number in 0..count {
        let key = scattered(number, count);
        let loaded = if adds {
            look_add_and_load(shard, key)?
        } else {
            look_and_load(shard, key)?
        };
        sum = sum.wrapping_add(loaded);
    }
    Ok(sum)
}

/// How many look-ups are timed at a time; each takes up to three entries of the journal.
const LOOKUPS: u32 = 16_384;

/// This many passes.
fn passes(shard: &mut Shard, count: u32, adds: bool) -> Result<u64, JournalFull>
    requires work { IsAtWork shard.old }
    requires some { 1 ≤ count }
{
    let mut sum = 0u64;
    'passes: for _ in 0..LOOKUPS / count {
        sum = sum.wrapping_add(pass(shard, count, adds)?);
    }
    Ok(sum)
}

/// What a key's calls take, in tenths of a nanosecond, and the sum of what was loaded.
fn timed(rt: &HostRuntime, kind: MapKind, count: u32, adds: bool) -> Result<(u128, u64), Error>
    requires some { 1 ≤ count }
    requires few { count ≤ 131072 }
{
    let mut shard = Shard::open(rt.alloc(), plan(kind, count))?;
    enter(&mut shard)?;
    fill(&mut shard, count)?;
    let start = Instant::now(rt)?;
    let sum = passes(&mut shard, count, adds)?;
    let time = start.elapsed(rt)?.as_nanos();
    Ok((time * 10 / u128::from(LOOKUPS), sum))
}

/// Prints the least of some times.
fn measure(rt: &HostRuntime, kind: MapKind, count: u32, adds: bool) -> Result<(), Error>
    requires some { 1 ≤ count }
    requires few { count ≤ 131072 }
{
    let mut least = u128::MAX;
    let mut last = 0;
    'times: for _ in 0..TIMES {
        let (time, sum) = timed(rt, kind, count, adds)?;
        least = least.min(time);
        last = sum;
    }
    let name = match kind {
        MapKind::Array => "array",
        MapKind::Hash => "hash",
        MapKind::LruHash => "lru",
    };
    let calls = if adds { "look-add-load" } else { "look-load" };
    println!(rt; "{name}-{calls}-{count} {least} {last}")?;
    Ok(())
}

/// Prints the rows of all kinds of map.
pub(crate) fn measure_all(rt: &HostRuntime) -> Result<(), Error> {
    'kinds: for kind in [MapKind::Array, MapKind::Hash, MapKind::LruHash] {
        'counts: for count in [64, 4096] {
            measure(rt, kind, count, false)?;
            measure(rt, kind, count, true)?;
        }
    }
    Ok(())
}
