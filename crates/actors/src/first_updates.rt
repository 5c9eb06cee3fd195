//! What the controller sets before the first record.

ghost use Rattle.std.specs.Prelude.{◌≡◌, OnOk, IfOk, IfErr, IsErrOf};
ghost use Rattle.semantics.specs.declared.call.Caller.TheVariants.{Controller as TheController};
ghost use Rattle.map_updates.specs.Misfits.{AreFitting};
ghost use Rattle.actors.specs.Actors.{IsUnused};
ghost use Rattle.actors.specs.Commands.{HasSet};
ghost use Rattle.actors.specs.FirstUpdates.{AreSet, IsWhyLeft};
ghost use Rattle.actors.specs.UpdateFaults.{IsWhyByPass};
ghost use Rattle.actors.specs.declared.fault.ReplayFault.TheVariants.{BadOptions, NoThread};

use crate::fault::ReplayFault;
use crate::updates::{GatedUpdates, SharedUpdates};
use control::UpdatePort;
use map_updates::MapUpdate;
use semantics::Caller;
use shard_port::{Gate, Tally};
use shards::{Naming, Pass, Shards};
use std::alloc::{AllocError, Global};
use std::sync::Wait;

/// Makes the updates, one after the other, each whether or not its key is there. No memory is taken.
///
/// The first that is refused ends it: 93 where its map's answer is no 0, and 94 where the journal of its shard has no room for it. Those
/// before it are made.
pub fn set_all<U: UpdatePort>(port: &mut U, updates: &[MapUpdate]) -> Result<(), ReplayFault>
    requires fit { AreFitting (U.serves port.old) updates.now }
    ensures set { OnOk result (AreSet U.gives port.old updates.now port.new) }
    ensures serves { OnOk result (U.serves port.new ≡ U.serves port.old) }
    ensures refused { IfErr result (IsWhyLeft U.gives U.refuses port.old updates.now port.new) }
    ensures served { ¬ IsErrOf result BadOptions }
    ensures no_thread { ¬ IsErrOf result NoThread }
{
    'updates: for place in 0..updates.len() {
        let update = &updates[place];
        match port.update(update.map, &update.key, &update.value) {
            Ok(answer) => {
                if answer != 0 {
                    return Err(ReplayFault::Refused { place, answer });
                }
            }
            Err(_) => return Err(ReplayFault::Full { place }),
        }
    }
    Ok(())
}

/// Why the controller's updates were not all made, and its pass, which has made those before.
#[derive(Drop)]
pub struct Unset<B: Naming> {
    pub fault: ReplayFault,
    pub pass: Pass<B>,
}

/// Makes these updates on shards that the controller shares with others, one after the other, as `set_all` does. Each answer goes through the
/// gate.
pub fn set_first<B: Naming, W: Wait, G: Gate>(
    rt: &W,
    shards: &Shards<B>,
    pass: Pass<B>,
    gate: &G,
    updates: &[MapUpdate],
) -> Result<Pass<B>, Unset<B>>
    requires who { pass.who ≡ TheController }
    requires unused { IsUnused pass }
    requires fit { AreFitting shards.now.maps updates.now }
    ensures set { IfOk result (HasSet shards.now.maps shards.now.options updates.now) }
    ensures who { IfOk result (λ after. after.who ≡ TheController) }
    ensures refused { IfErr result
        (λ unset. IsWhyByPass B.plan shards.now.maps shards.now.options pass unset.pass updates.now unset.fault) }
    ensures still { IfErr result (λ unset. unset.pass.who ≡ TheController) }
    ensures served { IfErr result (λ unset. ¬ (unset.fault ≡ BadOptions)) }
{
    let mut gated = GatedUpdates {
        port: SharedUpdates::over(rt, shards, pass),
        tally: Tally::new(gate, Caller::Controller, 0),
    };
    let done = set_all(&mut gated, updates);
    let GatedUpdates { port, .. } = gated;
    let pass = port.finish();
    match done {
        Ok(()) => Ok(pass),
        Err(fault) => Err(Unset { fault, pass }),
    }
}

/// The updates, for what a replay returns.
pub fn copied(alloc: Global, updates: &[MapUpdate]) -> Result<Vec<MapUpdate>, AllocError>
    ensures { IfOk result (λ copy. copy.items ≡ updates.now) }
{
    let mut copy = Vec::with_capacity(alloc, updates.len())?;
    copy.extend_from_slice(updates)?;
    Ok(copy)
}
