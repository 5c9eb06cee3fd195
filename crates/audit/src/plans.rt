//! What each shard was opened with.

ghost use Rattle.std.specs.Prelude.{◌≡◌, ◌<◌, ◌*◌, Some, length};
ghost use Rattle.semantics.specs.ShardPlan.{AreOptions, plan_at};
ghost use Rattle.semantics.specs.PlanLimits.{IsPlan};
ghost use Rattle.journals.specs.JournalsView.{AreImageMaps};

use ebpf_decode::MapDef;
use semantics::{Options, ShardPlan};

/// What the shard of a number was opened with.
pub(crate) fn plan_at(maps: &[MapDef], options: &Options, number: usize) -> ShardPlan
    requires maps { AreImageMaps maps.now }
    requires options { AreOptions maps.now options.now }
    requires number { number < length maps.now * options.now.shards }
    ensures plan { plan_at maps.now options.now number ≡ Some result }
    ensures limits { IsPlan result }
{
    let number = number as u32;
    ShardPlan {
        number,
        part: number % options.shards,
        parts: options.shards,
        definition: maps[(number / options.shards) as usize],
        workers: options.workers,
        reserve: options.journal,
    }
}
