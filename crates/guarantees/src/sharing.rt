//! A run over shards that other threads call meanwhile, as events of the system of all workers.

ghost use Rattle.std.specs.Prelude.{◌≡◌, ◌<◌, ℕ, IsTrue, IfOk, IfErr};
ghost use Rattle.machine.specs.Running.{program_of};
ghost use Rattle.semantics.specs.MachineState.{initial_state};
ghost use Rattle.runs.specs.FrameRuns.{HasRunTold, HasStoppedTold};
ghost use Rattle.shard_port.specs.PassPorts.{is_worker_below, worker_number};
ghost use Rattle.shard_port.specs.PassSessions.{IsOutsideAt};
ghost use Rattle.guarantees.specs.SystemRuns.{setting_of, RanInSystem, HasStoppedInSystem};

use crate::{runs_are_of_the_system, stopped_runs_are_of_the_system};
use machine::{Exit, Moment, Stop};
use runs::run_frame;
use semantics::facts::{frame_may_come_in, time_has_64_bits};
use shard_port::Gate;
use shards::{Naming, Pass, Shards};
use std::sync::Wait;
use verifier::Verified;
use wire::Frame;

/// `run_frame`, said of the system: where the run ends, it is a list of its worker's events from idle to idle, and what they write is
/// what the worker's own entries have more. So it is where a full journal stopped it (60), up to the call that was refused. Either way
/// the next run can begin with the pass. The gate was called for each reply of the run, as `run_frame` says, and `replies` counts them.
pub fn shared_run<B: Naming, W: Wait, G: Gate>(
    rt: &W,
    verified: &Verified,
    frame: &mut Frame,
    moment: &Moment,
    shards: &Shards<B>,
    pass: &mut Pass<B>,
    gate: &G,
    replies: &mut u64,
) -> Result<Exit, Stop>
    requires served { shards.now.maps ≡ verified.now.maps }
    requires headroom { frame.old.headroom ≡ 256 }
    requires moment { moment.now.worker < 8 }
    requires worker { IsTrue (is_worker_below shards.now.options.workers pass.old.who) }
    requires outside { (number : ℕ) → number < B.count → IsOutsideAt (worker_number pass.old.who) pass.old number }
    ensures exit { IfOk result (λ exit. RanInSystem (setting_of verified.now shards.now.options) (worker_number pass.old.who) moment.now
        frame.old.bytes B.count pass.old pass.new exit.verdict exit.steps frame.new) }
    ensures stop { IfErr result (HasStoppedInSystem (setting_of verified.now shards.now.options) (worker_number pass.old.who) moment.now
        frame.old.bytes B.plan B.count pass.old pass.new frame.new) }
    ensures counted { IfOk result (λ exit. HasRunTold (program_of verified.now shards.now.options.shards)
        (initial_state frame.old moment.now.worker moment.now.now_ns) B.count (worker_number pass.old.who)
        pass.old pass.new exit.verdict exit.steps frame.new replies.old replies.new) }
    ensures counted_to_stop { IfErr result (HasStoppedTold (program_of verified.now shards.now.options.shards)
        (initial_state frame.old moment.now.worker moment.now.now_ns) B.plan B.count (worker_number pass.old.who) pass.old pass.new
        frame.new
        replies.old replies.new) }
    ensures same_caller { pass.new.who ≡ pass.old.who }
    ensures outside { (number : ℕ) → number < B.count → IsOutsideAt (worker_number pass.old.who) pass.new number }
{
    runs_are_of_the_system();
    stopped_runs_are_of_the_system();
    frame_may_come_in(frame);
    time_has_64_bits(moment.now_ns);
    run_frame(rt, verified, frame, moment, shards, pass, gate, replies)
}
