//! One run over maps of its own, as events of the system.

ghost use Rattle.std.specs.Prelude.{◌≡◌, ◌⊎◌, ◌≤◌, ◌↔◌, IfOk, IfErr, OnErr, IsErrOf, IsFalse};
ghost use Rattle.map_rules.specs.declared.open_fault.OpenFault.TheVariants.{BadOptions};
ghost use Rattle.map_updates.specs.Misfits.{AreFitting};
ghost use Rattle.semantics.specs.Events.{Exited};
ghost use Rattle.semantics.specs.MachineState.{initial_state};
ghost use Rattle.semantics.specs.ShardPlan.{are_served_options};
ghost use Rattle.machine.specs.Running.{program_of};
ghost use Rattle.runs.specs.SingleRuns.{HasRunAlone, HasStoppedAlone, IsWhyNoRun};
ghost use Rattle.runs.specs.declared.fault.RunFault.TheVariants.{Open};
ghost use Rattle.guarantees.specs.RunsAlone.{IsAloneInSystem, ending_at};
ghost use Rattle.guarantees.specs.SystemRuns.{setting_of};

use crate::{runs_alone_are_of_the_system, stopped_runs_alone_are_of_the_system};
use machine::Moment;
use map_updates::MapUpdate;
use runs::{RunFault, SingleRun, run_alone};
use semantics::Options;
use semantics::facts::{frame_may_come_in, time_has_64_bits};
use std::alloc::Global;
use verifier::Verified;
use wire::Frame;

/// `run_alone`, said of the system: the updates and the run, ended or stopped at a full journal, are one list of events, which leads to
/// the journals. Refused as `run_alone` is, with 51, 52, 93 or 94; then nothing was run, and the frame is as it was.
pub fn lone_run(
    alloc: Global,
    verified: &Verified,
    frame: &mut Frame,
    moment: &Moment,
    options: Options,
    updates: &[MapUpdate],
) -> Result<SingleRun, RunFault>
    requires headroom { frame.old.headroom ≡ 256 }
    requires fit { AreFitting verified.now.maps updates.now }
    ensures exit { IfOk result (λ single. IfOk single.ended (λ exit. HasRunAlone (program_of verified.now options.shards)
        (initial_state frame.old moment.now.worker moment.now.now_ns) options moment.now.worker updates.now
        exit.verdict exit.steps frame.new single.journals)) }
    ensures stop { IfOk result (λ single. IfErr single.ended (λ stop. HasStoppedAlone (program_of verified.now options.shards)
        (initial_state frame.old moment.now.worker moment.now.now_ns) options moment.now.worker updates.now
        frame.new stop single.journals)) }
    ensures of_system { IfOk result (λ single. IfOk single.ended (λ exit. IsAloneInSystem (setting_of verified.now options)
        moment.now.worker moment.now.now_ns frame.old.bytes updates.now (Exited exit.verdict frame.new.bytes exit.steps)
        single.journals)) }
    ensures stopped_in_system { IfOk result (λ single. IfErr single.ended (λ stop. IsAloneInSystem (setting_of verified.now options)
        moment.now.worker moment.now.now_ns frame.old.bytes updates.now (ending_at stop) single.journals)) }
    ensures bad_options { IsErrOf result (Open BadOptions) ↔
        (IsFalse (are_served_options verified.now.maps options) ⊎ (options.workers ≤ moment.now.worker)) }
    ensures why { IfErr result (IsWhyNoRun verified.now.maps options updates.now) }
    ensures unchanged { OnErr result (frame.new ≡ frame.old) }
{
    runs_alone_are_of_the_system();
    stopped_runs_alone_are_of_the_system();
    frame_may_come_in(frame);
    time_has_64_bits(moment.now_ns);
    let _ = options.fit(verified.image().maps());
    run_alone(alloc, verified, frame, moment, options, updates)
}
