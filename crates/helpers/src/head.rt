//! Moving a frame's start.

ghost use Rattle.std.specs.Prelude.{◌≡◌};
ghost use Rattle.semantics.specs.HeadAdjustment.{adjusted_head, adjust_answer};

use semantics::Errno;
use wire::{Frame, MIN_FRAME};

/// Moves a frame's start by a signed number of bytes: forward where it is positive, so that its first
/// bytes become headroom, and back where it is negative, into the headroom (Linux's
/// `bpf_xdp_adjust_head`).
///
/// Answers 0. Answers -22 (`Errno::Invalid`), and changes nothing, where the headroom would fall below 0 or the frame
/// below 14 bytes. Newly opened bytes are zero. Takes no memory.
#[tactic(auto, using(crate::proofs::shared::ReachLemmas::reaches_within, crate::proofs::shared::ReachLemmas::reaches_past))]
pub fn adjust_head(frame: &mut Frame, delta: i32) -> i32
    ensures moved { frame.new ≡ adjusted_head delta frame.old }
    ensures answer { result ≡ adjust_answer delta frame.old }
{
    if delta < 0 {
        let back = delta.unsigned_abs() as usize;
        if back > frame.room() || frame.len() < MIN_FRAME.saturating_sub(back) {
            return Errno::Invalid.code();
        }
        frame.grow_front(back);
    } else {
        let forward = delta as usize;
        if frame.len() < forward + MIN_FRAME {
            return Errno::Invalid.code();
        }
        frame.shrink_front(forward);
    }
    0
}
