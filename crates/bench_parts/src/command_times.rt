//! What a command costs the controller: for each number of backends, microseconds of a `down` and of the `up` after it, and how many
//! slots of the lookup table change hands.

ghost use Rattle.std.specs.Prelude.{◌≡◌, ◌/◌, ◌<◌, ◌≤◌, IfOk};
ghost use Rattle.conntrack.specs.SteeringMaps.{AreSteeringMaps};

use anyhow::Error;
use conntrack::maps;
use control::{Action, Command, ControlFault, Controller, UpdatePort};
use ebpf_decode::MapDef;
use semantics::{JournalFull, Key, Value};
use std::alloc::Global;
use std::time::Instant;
use wire::Ipv4Address;

/// How many slots the lookup table has.
const SIZE: u32 = 65537;

/// How many backends there are before the one that goes and comes.
const COUNTS: [u8; 4] = [2, 10, 50, 100];

/// Maps that take every update and keep none: what is timed is the controller alone.
#[derive(Drop)]
struct UpdateSink {
    maps: Vec<MapDef>,
    updates: usize,
}

impl UpdatePort for UpdateSink {
    ghost use Rattle.std.specs.Prelude.{◌≡◌, pos};
    ghost use Rattle.bench_parts.specs.Sinks.{IsTaken};

    ghost serves = { λ sink. sink.maps.items };

    ghost gives = { λ before update answer after. IsTaken before.maps.items answer after.maps.items };

    ghost refuses = { λ before update after. after.maps.items ≡ before.maps.items };

    ghost keeps = { λ before after update answer taken. taken.same };

    ghost stays = { λ before after update same. same };

    ghost arrays_answer = { λ before after update answer stands taken. taken.done };

    fn update(&mut self, _map: u32, _key: &Key, _value: &Value) -> Result<i32, JournalFull> {
        self.updates = self.updates.wrapping_add(1);
        Ok(0)
    }
}

fn up(number: u8) -> Command {
    Command {
        frame: 0,
        action: Action::Up {
            backend: u32::from(number),
            address: Ipv4Address([192, 0, 2, number]),
        },
    }
}

fn down(number: u8) -> Command {
    Command {
        frame: 0,
        action: Action::Down {
            backend: u32::from(number),
        },
    }
}

/// A controller with this many backends up, numbered from 0.
fn with_backends(
    alloc: Global,
    count: u8,
    sink: &mut UpdateSink,
) -> Result<Controller, ControlFault>
    requires { AreSteeringMaps SIZE sink.old.maps.items }
    ensures serves { IfOk result (λ controller. AreSteeringMaps controller.size sink.new.maps.items) }
{
    let mut controller = Controller::open(alloc, SIZE)?;
    'backends: for number in 0..count {
        controller.apply(alloc, &up(number), sink)?;
    }
    Ok(controller)
}

/// Times one row, and prints it.
fn measure(rt: &HostRuntime, count: u8) -> Result<(), Error> {
    let alloc = rt.alloc();
    let mut sink = UpdateSink {
        maps: maps(alloc, SIZE)?,
        updates: 0,
    };
    let mut controller = with_backends(alloc, count, &mut sink)?;
    let middle = count / 2;
    sink.updates = 0;
    let start = Instant::now(rt)?;
    controller.apply(alloc, &down(middle), &mut sink)?;
    let downward = start.elapsed(rt)?.as_micros();
    let changed = sink.updates;
    let start = Instant::now(rt)?;
    controller.apply(alloc, &up(middle), &mut sink)?;
    let upward = start.elapsed(rt)?.as_micros();
    println!(rt; "{count} {downward} {upward} {}", changed.saturating_sub(1))?;
    Ok(())
}

/// Prints a row for each number of backends.
pub(crate) fn measure_all(rt: &HostRuntime) -> Result<(), Error> {
    for count in COUNTS {
        measure(rt, count)?;
    }
    Ok(())
}
