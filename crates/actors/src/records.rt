//! What each record of a capture is, as its type says. The functions do nothing.

ghost use Rattle.std.specs.Prelude.{◌≤◌, length};
ghost use Rattle.std.specs.List.{AllByRecursion};
ghost use Rattle.actors.specs.Captured.{IsCaptured};

use semantics::facts::bytes_have_8_bits;
use wire::{Capture, Sent};

/// A record with no more bytes than a captured frame may have is one that a capture has.
fn is_captured(sent: &Sent)
    requires { length sent.now.bytes.items ≤ 2048 }
    ensures { IsCaptured sent.now }
{
    bytes_have_8_bits(&sent.bytes);
}

/// Each record of a capture is one that a capture has.
pub fn all_are_captured(capture: &Capture)
    ensures { AllByRecursion IsCaptured capture.now.records.items }
{
    'records: for number in 0..capture.records.len() {
        is_captured(&capture.records[number]);
    }
}
