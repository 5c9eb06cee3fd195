//! The calls that the guarantees on runs are about, made in their order.

ghost use Rattle.std.specs.Prelude.{◌≡◌, ◌<◌, IfOk, IfErr};
ghost use Rattle.semantics.specs.ShardPlan.{AreOptions};
ghost use Rattle.machine.specs.Running.{program_of};
ghost use Rattle.shard_port.specs.PortView.{ServesMaps};
ghost use Rattle.guarantees.specs.Runs.{IsOutside, run_start, IsTheMeaning, IsStoppedBeginning};

use crate::one_caller::{runs_are_their_meaning, stopped_runs_are_beginnings};
use machine::{Exit, Moment, Stop};
use runs::plain_run::run_at;
use semantics::Options;
use shard_port::PlainPort;
use shards::PlainShards;
use verifier::Verified;
use wire::Frame;

/// One run of a worker over shards that it is not inside of. It shows that what the guarantees on runs ask for is what the calls ensure:
/// the run is the meaning of its program on the replies in the journals, or, where it stopped (60), a beginning of that. The
/// shards serve the maps as before, for the next run. Takes no memory.
pub fn worker_run(
    verified: &Verified,
    options: Options,
    shards: &mut PlainShards,
    moment: &Moment,
    frame: &mut Frame,
) -> Result<Exit, Stop>
    requires options { AreOptions verified.now.maps options }
    requires shards { ServesMaps verified.now.maps options shards.old }
    requires outside { IsOutside moment.now.worker shards.old }
    requires worker { moment.now.worker < 8 }
    requires among { moment.now.worker < options.workers }
    requires headroom { frame.old.headroom ≡ 256 }
    ensures exit { IfOk result (λ exit.
        IsTheMeaning (program_of verified.now options.shards)
        (run_start moment.now frame.old) shards.old shards.new exit.verdict exit.steps frame.new) }
    ensures stop { IfErr result
        (IsStoppedBeginning (program_of verified.now options.shards) (run_start moment.now frame.old) shards.old shards.new frame.new) }
    ensures serve { ServesMaps verified.now.maps options shards.new }
{
    runs_are_their_meaning();
    stopped_runs_are_beginnings();
    let mut port = PlainPort::over(verified.image(), options, shards, moment.worker);
    let ended = run_at(verified, frame, moment, &mut port);
    port.finish();
    ended
}
