//! The lookup table behind commands of a script.

ghost use Rattle.std.specs.Prelude.{◌≡◌, IfOk, OnOk};
ghost use Rattle.maglev.specs.RingSize.{IsRingSize};
ghost use Rattle.conntrack.specs.SteeringMaps.{steering_maps, AreSteeringMaps};
ghost use Rattle.traffic.specs.Applied.{AreWordsAfter, IsApplied};

use crate::tables::opened;
use crate::written_maps::WrittenMaps;
use control::{Command, ControlFault, Controller};
use std::alloc::{AllocError, Global};

/// Carries a command out, if it is not refused.
fn apply(
    alloc: Global,
    command: &Command,
    controller: &mut Controller,
    maps: &mut WrittenMaps,
) -> Result<(), AllocError>
    requires { AreSteeringMaps controller.old.size (steering_maps maps.old.size) }
    ensures applied { OnOk result (IsApplied controller.old maps.old command.now.action controller.new maps.new) }
    ensures serves { AreSteeringMaps controller.new.size (steering_maps maps.new.size) }
{
    match controller.apply(alloc, command, maps) {
        Ok(()) => Ok(()),
        Err(ControlFault::Memory) => Err(AllocError),
        Err(_fault) => Ok(()),
    }
}

/// The words of a lookup table of this size behind these commands: of each slot the number of its owner and one, or 0. A command that is
/// refused leaves what the controller says. It fails only for lack of memory.
#[tactic(auto, using(crate::proofs::TableLemmas::own_serves))]
pub fn words_after(alloc: Global, commands: &[Command], size: u32) -> Result<Vec<u32>, AllocError>
    requires { IsRingSize size }
    ensures { IfOk result (λ words. AreWordsAfter size commands.now words.items) }
{
    let mut controller = opened(alloc, size);
    let mut maps = WrittenMaps::open(alloc, size)?;
    'lines: for command in commands {
        apply(alloc, command, &mut controller, &mut maps)?;
    }
    let table = maps.words().to_vec(alloc)?;
    Ok(table)
}
