//! One run over the port of a single caller.

ghost use Rattle.std.specs.Prelude.{◌≡◌, ◌<◌, IfOk, IfErr};
ghost use Rattle.semantics.specs.MachineState.{initial_state};
ghost use Rattle.machine.specs.Running.{program_of, Ends, StopsSo};
ghost use Rattle.shard_port.specs.PlainPorts.{PortGives, PortRefuses};

use machine::{Exit, Moment, Stop, run};
use shard_port::PlainPort;
use shard_port::laws::stays_one_port;
use verifier::Verified;
use wire::Frame;

/// `run` at the port of a single caller, which is the same port after it, whether the run ended or stopped.
pub fn run_at(
    verified: &Verified,
    frame: &mut Frame,
    moment: &Moment,
    port: &mut PlainPort,
) -> Result<Exit, Stop>
    requires maps { port.old.image.now.maps ≡ verified.now.maps }
    requires headroom { frame.old.headroom ≡ 256 }
    requires worker { moment.now.worker < 8 }
    ensures exit { IfOk result (λ exit. Ends PortGives (program_of verified.now port.old.options.shards)
        (initial_state frame.old moment.now.worker moment.now.now_ns) port.old port.new exit.verdict exit.steps frame.new) }
    ensures stop { IfErr result (StopsSo PortGives PortRefuses (program_of verified.now port.old.options.shards)
        (initial_state frame.old moment.now.worker moment.now.now_ns) port.old port.new frame.new) }
    ensures same_shards { port.new.shards.ghost_name ≡ port.old.shards.ghost_name }
    ensures same_maps { port.new.image.now.maps ≡ port.old.image.now.maps }
    ensures same_options { port.new.options ≡ port.old.options }
{
    stays_one_port();
    run(verified, frame, moment, port)
}
