//! The steering rule carried out.

ghost use Rattle.std.specs.Prelude.{◌≡◌, ◌≤◌};
ghost use Rattle.conntrack.specs.SteeringRule.{IsSteered, frame_after};

use crate::choosing::{Choice, Records, choose};
use ipip::encapsulate;
use wire::Frame;

/// Decides what becomes of a frame whose records are these, and does it: where a backend is chosen, the frame is in the tunnel to that
/// backend afterwards; else it is as it came. Cannot fail: a packet that the rule sends fits through the tunnel. Takes no memory.
///
/// The caller owes 20 bytes of headroom, which a frame has when it comes in.
pub fn steer(frame: &mut Frame, records: &Records) -> Choice
    requires room { 20 ≤ frame.old.headroom }
    ensures chosen { IsSteered frame.old.bytes records.now result }
    ensures steered { frame.new ≡ frame_after records.now.tunnel result frame.old }
{
    let choice = choose(frame, records);
    if let (Choice::Tx { address, .. }, Some(tunnel)) = (choice, records.tunnel) {
        match encapsulate(frame, tunnel.to(address)) {
            Ok(()) => {}
            Err(_) => unreachable!(),
        }
    }
    choice
}
