//! Rows of maps in two, four and eight parts.

ghost use Rattle.std.specs.Prelude.{◌≡◌, ◌<◌, ◌%◌};
ghost use Rattle.semantics.specs.PlanLimits.{IsPlan};

use super::{ANY, IndexCall, SHARD, call_of, caller_of, cell, entries_of, serves_new};
use crate::asserting::holds;
use ebpf_decode::{MapDef, MapKind};
use semantics::{Reply, ShardPlan};
use shard_core::shard::Shard;
use std::alloc::{AllocError, Global};
use std::process::Abort;

/// One part of a map of sixteen entries.
fn part_of(kind: MapKind, part: u32, parts: u32) -> ShardPlan
    requires part { part < parts }
    requires equal { 16 % parts ≡ 0 }
    ensures { IsPlan result }
{
    ShardPlan {
        number: SHARD,
        part,
        parts,
        definition: MapDef {
            kind,
            key_size: 4,
            value_size: 8,
            max_entries: 16,
        },
        workers: 2,
        reserve: 16,
    }
}

/// The plan of this part of a map in one, two, four or eight.
fn plan_of_part(kind: MapKind, part: u32, parts: u32) -> ShardPlan
    ensures { IsPlan result }
{
    match parts {
        2 => part_of(kind, part % 2, 2),
        4 => part_of(kind, part % 4, 4),
        8 => part_of(kind, part % 8, 8),
        _ => part_of(kind, 0, 1),
    }
}

/// Whether the caller of the call may make it.
fn may(shard: &Shard, ask: IndexCall) -> bool {
    shard.meets(&caller_of(ask), &call_of(ask))
}

/// The same of a shard in which nothing has happened.
fn may_at_first(alloc: Global, plan: ShardPlan, ask: IndexCall) -> Result<bool, AllocError>
    requires { IsPlan plan }
{
    let shard = Shard::open(alloc, plan)?;
    Ok(may(&shard, ask))
}

/// Parts, an index, its part, and its cell there: none past the end.
#[rattlefmt::skip]
const INDICES: [(u32, u32, u32, Option<u64>); 12] = [
    (1, 15, 0, Some(15)), (1, 16, 0, None),
    (2, 0, 0, Some(0)), (2, 5, 1, Some(2)), (2, 14, 0, Some(7)), (2, 17, 1, None),
    (4, 6, 2, Some(1)), (4, 15, 3, Some(3)), (4, 18, 2, None),
    (8, 7, 7, Some(0)), (8, 8, 0, Some(1)), (8, 19, 3, None),
];

/// Writes an index in its part, and looks it up. No other part of several may be asked.
fn index_in_its_part(
    rt: &impl Abort,
    alloc: Global,
    parts: u32,
    index: u32,
    part: u32,
    id: Option<u64>,
) -> Result<(), AllocError> {
    let found = match id {
        Some(id) => Reply::Cell { cell: cell(id) },
        None => Reply::Null,
    };
    let code = if id.is_some() { 0 } else { -7 };
    let rows = [
        (
            "an index is written",
            IndexCall::Put(index, 1, ANY),
            Reply::Answer { code },
        ),
        ("a worker enters", IndexCall::Enter(0), Reply::Entered),
        ("the index", IndexCall::Look(0, index), found),
    ];
    let shard = serves_new(rt, alloc, plan_of_part(MapKind::Array, part, parts), &rows)?;
    let next = index.wrapping_add(1);
    let is_looked_up = may(&shard, IndexCall::Look(0, next));
    holds(rt, "the next index", parts == 1 || !is_looked_up);
    let is_written = may(&shard, IndexCall::Put(next, 1, ANY));
    holds(rt, "by the controller", parts == 1 || !is_written);
    Ok(())
}

/// An index that is its remainder's belongs to that part alone.
#[test]
fn indices_by_parts(rt: HostRuntime) -> Result<(), AllocError> {
    for (parts, index, part, id) in &INDICES {
        index_in_its_part(&rt, rt.alloc(), *parts, *index, *part, *id)?;
    }
    Ok(())
}

/// A key, and the remainder by 8 of the 64-bit FNV-1a of its four bytes.
#[rattlefmt::skip]
const KEYS: [(u32, u32); 8] = [(0, 5), (1, 4), (2, 7), (3, 6), (4, 1), (5, 0), (6, 3), (7, 2)];

/// Writes a key in its part, and looks it up. No other part of several may be asked.
fn key_in_its_part(
    rt: &impl Abort,
    alloc: Global,
    kind: MapKind,
    parts: u32,
    index: u32,
    remainder: u32,
) -> Result<(), AllocError> {
    let rows = [
        (
            "a key",
            IndexCall::Put(index, 1, ANY),
            Reply::Answer { code: 0 },
        ),
        ("a worker enters", IndexCall::Enter(0), Reply::Entered),
        (
            "the key",
            IndexCall::Look(0, index),
            Reply::Cell { cell: cell(0) },
        ),
    ];
    let _count = entries_of(rt, alloc, plan_of_part(kind, remainder, parts), &rows)?;
    let next = plan_of_part(kind, remainder.wrapping_add(1), parts);
    let is_written = may_at_first(alloc, next, IndexCall::Put(index, 1, ANY))?;
    holds(rt, "in another part", parts == 1 || !is_written);
    Ok(())
}

/// Does so for all keys.
fn keys_in_their_parts(
    rt: &impl Abort,
    alloc: Global,
    kind: MapKind,
    parts: u32,
) -> Result<(), AllocError> {
    for (index, remainder) in &KEYS {
        key_in_its_part(rt, alloc, kind, parts, *index, *remainder)?;
    }
    Ok(())
}

const PARTS: [u32; 4] = [1, 2, 4, 8];

/// A key belongs to the part that is the remainder of its FNV-1a, and not to the next one.
#[test]
fn keys_by_parts(rt: HostRuntime) -> Result<(), AllocError> {
    for parts in &PARTS {
        keys_in_their_parts(&rt, rt.alloc(), MapKind::Hash, *parts)?;
        keys_in_their_parts(&rt, rt.alloc(), MapKind::LruHash, *parts)?;
    }
    Ok(())
}
