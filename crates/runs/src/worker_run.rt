//! One run of a worker, from its pass and back to it.

ghost use Rattle.std.specs.Prelude.{◌≡◌, ◌<◌, ℕ, IsTrue, IfOk, IfErr};
ghost use Rattle.semantics.specs.declared.call.Caller.TheVariants.{Worker};
ghost use Rattle.semantics.specs.MachineState.{initial_state};
ghost use Rattle.machine.specs.Running.{program_of};
ghost use Rattle.shard_port.specs.PassPorts.{is_worker_below, worker_number, IsFinishedBy};
ghost use Rattle.shard_port.specs.PassSessions.{IsOutsideAt};
ghost use Rattle.runs.specs.FrameRuns.{told_by, EndsTold, StopsTold, HasRunTold, HasStoppedTold};

use machine::{Exit, Moment, Stop, run};
use semantics::Caller;
use shard_port::laws::{own_entries_after_a_refusal, own_entries_are_sessions};
use shard_port::{Gate, ShardPort, Tally};
use shards::{Naming, Pass, Shards};
use std::sync::Wait;
use verifier::Verified;
use wire::Frame;

/// The moment's worker, which has had this many replies, and the gate that is called for its next ones.
fn tally_of<'a, G: Gate>(gate: &'a G, moment: &Moment, replies: u64) -> Tally<'a, G>
    ensures who { result.who ≡ Worker moment.now.worker }
    ensures count { result.count ≡ replies }
{
    let who = Caller::Worker {
        number: moment.worker,
    };
    Tally::new(gate, who, replies)
}

/// Leaves the shards, and keeps how many replies the gate was called for.
fn leave<'a, B: Naming, W: Wait, G: Gate>(port: ShardPort<'a, B, W, G>, replies: &mut u64)
    ensures left { IsFinishedBy B.plan B.count port.entry.pass.now port.exit.0.now }
    ensures told { replies.new ≡ port.entry.tally.count }
{
    *replies = port.finish();
}

/// `run` at the port of a pass, which is the same port after it, whether the run ended or stopped. The gate is called for each reply.
fn run_at<B: Naming, W: Wait, G: Gate>(
    verified: &Verified,
    frame: &mut Frame,
    moment: &Moment,
    port: &mut ShardPort<'_, B, W, G>,
) -> Result<Exit, Stop>
    requires served { port.old.shards.now.maps ≡ verified.now.maps }
    requires headroom { frame.old.headroom ≡ 256 }
    requires moment { moment.now.worker < 8 }
    ensures exit { IfOk result (λ exit. EndsTold B.plan B.count verified.now frame.old moment.now
        (told_by port.old.shards.now port.old.pass.now port.old.tally.count)
        (told_by port.new.shards.now port.new.pass.now port.new.tally.count) exit frame.new) }
    ensures stop { IfErr result (λ stop. StopsTold B.plan B.count verified.now frame.old moment.now
        (told_by port.old.shards.now port.old.pass.now port.old.tally.count)
        (told_by port.new.shards.now port.new.pass.now port.new.tally.count) stop frame.new) }
    ensures same_pass { port.new.pass.ghost_name ≡ port.old.pass.ghost_name }
{
    run(verified, frame, moment, port)
}

/// Runs the program of an accepted image on a frame, over shards that other threads may call, by a worker's pass that is outside all of
/// them.
///
/// Verdict, frame and number of steps are the program's own on replies that are among the worker's own entries: on each shard that it
/// called, Enter, its calls there with these replies, and Leave, in the order in which it made them. Each reply is the one-thread map's at
/// the entry's own place in the shard's history, whatever other threads do. Waits for locks, and takes no memory.
///
/// Stop 60 where a shard's journal was full for a call, or for the Enter before it: the calls before are those that the program makes
/// first; they are between Enter and Leave in the same way. The frame is as the run has made it by then, not to be sent.
///
/// Either way the worker is outside every shard again. The gate was called for each reply, while the worker held no lock, as one of the
/// worker of `moment`, and of nothing else; `replies` counts its calls for this worker, and has grown by the run's replies.
pub fn run_frame<B: Naming, W: Wait, G: Gate>(
    rt: &W,
    verified: &Verified,
    frame: &mut Frame,
    moment: &Moment,
    shards: &Shards<B>,
    pass: &mut Pass<B>,
    gate: &G,
    replies: &mut u64,
) -> Result<Exit, Stop>
    requires served { shards.now.maps ≡ verified.now.maps }
    requires headroom { frame.old.headroom ≡ 256 }
    requires moment { moment.now.worker < 8 }
    requires worker { IsTrue (is_worker_below shards.now.options.workers pass.old.who) }
    requires outside { (number : ℕ) → number < B.count → IsOutsideAt (worker_number pass.old.who) pass.old number }
    ensures exit { IfOk result (λ exit. HasRunTold (program_of verified.now shards.now.options.shards)
        (initial_state frame.old moment.now.worker moment.now.now_ns) B.count (worker_number pass.old.who)
        pass.old pass.new exit.verdict exit.steps frame.new replies.old replies.new) }
    ensures stop { IfErr result (HasStoppedTold (program_of verified.now shards.now.options.shards)
        (initial_state frame.old moment.now.worker moment.now.now_ns) B.plan B.count (worker_number pass.old.who) pass.old pass.new
        frame.new
        replies.old replies.new) }
    ensures same_caller { pass.new.who ≡ pass.old.who }
    ensures outside { (number : ℕ) → number < B.count → IsOutsideAt (worker_number pass.old.who) pass.new number }
{
    own_entries_are_sessions();
    own_entries_after_a_refusal();
    let tally = tally_of(gate, moment, *replies);
    let mut port = ShardPort::over(rt, shards, pass, tally);
    let ended = run_at(verified, frame, moment, &mut port);
    leave(port, replies);
    ended
}
