//! One frame's run over shards of its own, after updates of their maps.

ghost use Rattle.std.specs.Prelude.{◌≡◌, ◌⊎◌, ◌≤◌, ◌↔◌, IfOk, IfErr, OnErr, IsErrOf, IsFalse};
ghost use Rattle.semantics.specs.MachineState.{initial_state};
ghost use Rattle.semantics.specs.ShardPlan.{are_served_options};
ghost use Rattle.machine.specs.Running.{program_of};
ghost use Rattle.map_rules.specs.declared.open_fault.OpenFault.TheVariants.{BadOptions};
ghost use Rattle.map_updates.specs.Misfits.{AreFitting};
ghost use Rattle.runs.specs.declared.fault.RunFault.TheVariants.{Open};
ghost use Rattle.runs.specs.SingleRuns.{HasRunAlone, HasStoppedAlone, IsWhyNoRun};

use crate::closing::journals_of;
use crate::fault::RunFault;
use crate::shard_runs::worker_run;
use crate::updates::make_all;
use journals::Journals;
use machine::{Exit, Moment, Stop};
use map_updates::MapUpdate;
use semantics::Options;
use shards::{OpenFault, PlainShards, copied, maps_of};
use std::alloc::Global;
use verifier::Verified;
use wire::Frame;

/// What a run came to, and the journals of all shards after it.
#[derive(Drop)]
pub struct SingleRun {
    pub ended: Result<Exit, Stop>,
    pub journals: Journals,
}

/// Runs the program of an accepted image on a frame, as a worker of the moment's number, over shards that are opened for it: an array has
/// zeros, the other maps no keys, except what these updates set before the run, one after the other, as the controller. It takes the memory
/// of the shards, which are kept with their journals.
///
/// Verdict, frame and number of steps are the program's own on replies that are in the journals: on each shard that it called, Enter, its
/// calls there with these replies, and Leave. The journals have the updates before that, and nothing else, and are legal: so each reply is
/// that of the one-thread map with these values. Stop 60 where a journal was full for a call: the calls before it are in the journals in
/// the same way, and the frame is as the run has made it by then.
///
/// Refused with 51 where no shards of the image's maps can be opened with the options, or have no worker of that number, with 52 for lack
/// of memory, with 93 for the first update that a map refused, and with 94 for the first for which a journal was full. Then nothing was
/// run, and the frame is as it was.
pub fn run_alone(
    alloc: Global,
    verified: &Verified,
    frame: &mut Frame,
    moment: &Moment,
    options: Options,
    updates: &[MapUpdate],
) -> Result<SingleRun, RunFault>
    requires headroom { frame.old.headroom ≡ 256 }
    requires fit { AreFitting verified.now.maps updates.now }
    ensures exit { IfOk result (λ single. IfOk single.ended (λ exit. HasRunAlone (program_of verified.now options.shards)
        (initial_state frame.old moment.now.worker moment.now.now_ns) options moment.now.worker updates.now
        exit.verdict exit.steps frame.new single.journals)) }
    ensures stop { IfOk result (λ single. IfErr single.ended (λ stop. HasStoppedAlone (program_of verified.now options.shards)
        (initial_state frame.old moment.now.worker moment.now.now_ns) options moment.now.worker updates.now
        frame.new stop single.journals)) }
    ensures bad_options { IsErrOf result (Open BadOptions) ↔
        (IsFalse (are_served_options verified.now.maps options) ⊎ (options.workers ≤ moment.now.worker)) }
    ensures why { IfErr result (IsWhyNoRun verified.now.maps options updates.now) }
    ensures unchanged { OnErr result (frame.new ≡ frame.old) }
{
    if options.workers <= u32::from(moment.worker) {
        return Err(RunFault::Open(OpenFault::BadOptions));
    }
    verified.encodable();
    let image = verified.image();
    let mut shards = PlainShards::open(alloc, image, options)?;
    let maps = copied(alloc, maps_of(image))?;
    make_all(image, &options, &mut shards, updates)?;
    let ended = worker_run(verified, options, &mut shards, moment, frame);
    let journals = journals_of(shards, maps, options);
    Ok(SingleRun { ended, journals })
}
