//! The shards that are opened with options which fit their maps.

ghost use Rattle.std.specs.Prelude.{◌≡◌, ◌*◌, ◌<◌, ◌≤◌, Some, IfOk, length};
ghost use Rattle.std.specs.List.{AllByRecursion};
ghost use Rattle.semantics.specs.ShardPlan.{AreOptions, plan_at};
ghost use Rattle.semantics.specs.PlanLimits.{HasImageSizes, IsPlan};
ghost use Rattle.shards.specs.Opening.{AreOpened};

use ebpf_decode::MapDef;
use shard_core::{Options, Shard, ShardPlan};
use std::alloc::{AllocError, Global};

/// What the shard of a number is opened with.
fn plan_at(maps: &[MapDef], options: &Options, number: u32) -> ShardPlan
    requires allowed { AllByRecursion HasImageSizes maps.now }
    requires options { AreOptions maps.now options.now }
    requires shards { 0 < options.now.shards }
    requires number { number < length maps.now * options.now.shards }
    ensures plan { Some result ≡ plan_at maps.now options.now number }
    ensures limits { IsPlan result }
{
    let definition = &maps[(number / options.shards) as usize];
    ShardPlan {
        number,
        part: number % options.shards,
        parts: options.shards,
        definition: *definition,
        workers: options.workers,
        reserve: options.journal,
    }
}

/// Opens the shards of these maps, map after map.
pub fn open_each(
    alloc: Global,
    maps: &[MapDef],
    options: &Options,
) -> Result<Vec<Shard>, AllocError>
    requires allowed { AllByRecursion HasImageSizes maps.now }
    requires few { length maps.now ≤ 16 }
    requires shards { (0 < options.now.shards) × (options.now.shards ≤ 8) }
    requires options { AreOptions maps.now options.now }
    ensures { IfOk result (λ shards. AreOpened maps.now options.now shards.items) }
{
    let count = maps.len() as u32 * options.shards;
    let mut shards = Vec::with_capacity(alloc, count as usize)?;
    for number in 0..count {
        let shard = Shard::open(alloc, plan_at(maps, options, number))?;
        shards.push(shard)?;
    }
    Ok(shards)
}
