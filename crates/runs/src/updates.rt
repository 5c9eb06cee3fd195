//! What the controller sets before a run.

ghost use Rattle.std.specs.Prelude.{◌≡◌, ◌<◌, ◌≤◌, IsTrue, IfOk, IfErr, IsErrOf, OnOk, OnErr, None, length, slice_get};
ghost use Rattle.std.specs.List.{AllByRecursion};
ghost use Rattle.semantics.specs.PlanLimits.{HasImageSizes};
ghost use Rattle.semantics.specs.ShardPlan.{AreOptions};
ghost use Rattle.shards.specs.Opening.{AreOpened};
ghost use Rattle.shard_port.specs.PortView.{ServesMaps};
ghost use Rattle.map_updates.specs.Misfits.{misfit_of, AreFitting};
ghost use Rattle.map_rules.specs.declared.open_fault.OpenFault.TheVariants.{BadOptions};
ghost use Rattle.runs.specs.declared.fault.RunFault.TheVariants.{Open};
ghost use Rattle.runs.specs.SingleRuns.{IsWhyNoRun};
ghost use Rattle.runs.specs.Updates.{served_by, shard_of_update, AreUpdated, may_update, IsUpdateMade, IsFull};

use crate::fault::RunFault;
use ebpf_decode::{Image, MapDef};
use map_rules::conditions::shard_of_map;
use map_updates::MapUpdate;
use semantics::facts::bytes_have_8_bits;
use semantics::{Caller, JournalFull, Options, UpdateFlags};
use shard_port::laws::{calls_keep_serving, opened_serve};
use shards::{PlainShards, maps_of};

/// Makes the updates, one after the other, as the controller, each whether or not its key is there. No memory is taken.
///
/// The first that is refused ends it: 93 where its map's answer is no 0, and 94 where the journal of its shard has no room for it.
pub(crate) fn make_all(
    image: &Image,
    options: &Options,
    shards: &mut PlainShards,
    updates: &[MapUpdate],
) -> Result<(), RunFault>
    requires opened { AreOpened image.now.maps options.now shards.old }
    requires options { AreOptions image.now.maps options.now }
    requires fit { AreFitting image.now.maps updates.now }
    ensures made { OnOk result (AreUpdated image.now.maps options.now updates.now shards.new) }
    ensures serve { OnOk result (ServesMaps image.now.maps options.now shards.new) }
    ensures refused { IfErr result (IsWhyNoRun image.now.maps options.now updates.now) }
    ensures no_options { ¬ IsErrOf result (Open BadOptions) }
{
    opened_serve();
    calls_keep_serving();
    let maps = maps_of(image);
    'updates: for place in 0..updates.len() {
        let update = &updates[place];
        let number = shard_of(maps, options, update);
        bytes_have_8_bits(update.key.as_slice());
        bytes_have_8_bits(update.value.as_slice());
        match make(shards, number, update) {
            Ok(answer) => {
                if answer != 0 {
                    return Err(RunFault::Refused { place, answer });
                }
            }
            Err(_) => return Err(RunFault::Full { place }),
        }
    }
    Ok(())
}

/// The number of the shard that an update's key belongs to.
fn shard_of(maps: &[MapDef], options: &Options, update: &MapUpdate) -> u32
    requires few { length maps.now ≤ 16 }
    requires sizes { AllByRecursion HasImageSizes maps.now }
    requires options { AreOptions maps.now options.now }
    requires fits { misfit_of maps.now update.now ≡ None }
    ensures { result ≡ shard_of_update (served_by maps.now options.now) update.now }
{
    shard_of_map(maps, options.shards, update.map, &update.key)
}

/// Makes one update at the shard of a number.
fn make(shards: &mut PlainShards, number: u32, update: &MapUpdate) -> Result<i32, JournalFull>
    requires { IsTrue (may_update (slice_get shards.old number) update.now) }
    ensures made { IfOk result (λ answer. IsUpdateMade shards.old number update.now answer shards.new) }
    ensures full { OnErr result (IsFull shards.old number update.now) }
{
    let one = shards.shard(number);
    one.update(
        Caller::Controller,
        update.key.as_slice(),
        update.value.as_slice(),
        UpdateFlags::Any.number(),
    )
}
