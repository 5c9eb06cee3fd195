//! What a replay leaves out of its capture and its script.

ghost use Rattle.std.specs.Prelude.{◌≡◌, false};
ghost use Rattle.std.specs.List.{AllByRecursion};
ghost use Rattle.xlb_commands.specs.Replays.{IsInTime};

use crate::notes::Altered;
use control::{Command, Script};

/// Whether a command comes behind the last of so many records, and not before all.
fn is_late(command: &Command, records: usize) -> bool
    ensures { result ≡ false → IsInTime records command.now }
{
    command.frame > 0 && command.frame as usize >= records
}

/// Whether one of the commands comes behind the last record.
fn is_any_late(script: &Script, records: usize) -> bool
    ensures { result ≡ false → AllByRecursion (IsInTime records) script.now }
{
    'commands: for command in script.commands() {
        if is_late(command, records) {
            return true;
        }
    }
    false
}

/// Whether something is left out, besides runs that were stopped: records that are not as they were on the wire, or commands.
pub(crate) fn is_left_out(altered: Altered, script: &Script, records: usize) -> bool
    ensures { result ≡ false → AllByRecursion (IsInTime records) script.now }
{
    altered.is_any() || is_any_late(script, records)
}
