//! A worker's run over shards that it is outside of.

ghost use Rattle.std.specs.Prelude.{◌≡◌, ◌<◌, IfOk, IfErr};
ghost use Rattle.semantics.specs.ShardPlan.{AreOptions};
ghost use Rattle.semantics.specs.MachineState.{initial_state};
ghost use Rattle.machine.specs.Running.{program_of};
ghost use Rattle.shard_port.specs.PortView.{ServesMaps};
ghost use Rattle.runs.specs.ShardRuns.{HasRunOver, HasStoppedOver, IsOutsideNumbered};

use crate::plain_run::run_at;
use machine::{Exit, Moment, Stop};
use semantics::Options;
use shard_port::PlainPort;
use shard_port::laws::{journals_after_a_refusal, journals_have_the_calls};
use shards::PlainShards;
use verifier::Verified;
use wire::Frame;

/// Runs the program of an accepted image on a frame, as the moment's worker, over shards of its maps that this worker is outside of. No
/// memory is taken, and nobody is waited for.
///
/// The shards' journals then have the run's calls more, with their replies, between an Enter and a Leave. Stop 60 where a journal was full
/// for a call or for the Enter before it: the calls before it are in the same way, and the frame is as the run has made it by then.
pub(crate) fn worker_run(
    verified: &Verified,
    options: Options,
    shards: &mut PlainShards,
    moment: &Moment,
    frame: &mut Frame,
) -> Result<Exit, Stop>
    requires options { AreOptions verified.now.maps options }
    requires shards { ServesMaps verified.now.maps options shards.old }
    requires outside { IsOutsideNumbered moment.now.worker shards.old }
    requires worker { moment.now.worker < 8 }
    requires among { moment.now.worker < options.workers }
    requires headroom { frame.old.headroom ≡ 256 }
    ensures exit { IfOk result
        (λ exit. HasRunOver (program_of verified.now options.shards) (initial_state frame.old moment.now.worker moment.now.now_ns)
        moment.now.worker shards.old shards.new exit.verdict exit.steps frame.new) }
    ensures stop { IfErr result
        (HasStoppedOver (program_of verified.now options.shards) (initial_state frame.old moment.now.worker moment.now.now_ns)
        moment.now.worker shards.old shards.new frame.new) }
{
    journals_have_the_calls();
    journals_after_a_refusal();
    let mut port = PlainPort::over(verified.image(), options, shards, moment.worker);
    let ended = run_at(verified, frame, moment, &mut port);
    port.finish();
    ended
}
