//! The script's commands in the part of a capture that a replay takes.

ghost use Rattle.std.specs.Prelude.{◌≡◌, IfOk, Some};
ghost use Rattle.xlb_commands.specs.Parts.{command_frames, script_in};

use control::{Script, commands_never_fall};
use fleet::{Part, numbers_in_part};
use std::alloc::{AllocError, Global};
use wire::Sent;

/// How many records of the capture come before each command.
pub(crate) fn frames_of(alloc: Global, script: &Script) -> Result<Vec<u32>, AllocError>
    ensures { IfOk result (λ frames. frames.items ≡ command_frames script.now) }
{
    script
        .commands()
        .iter()
        .map(|command| command.frame)
        .collect(alloc)
}

/// The commands of a script, at their numbers in a part of these records. It fails only for lack of memory.
pub(crate) fn script_of_part(
    alloc: Global,
    part: Part,
    records: &[Sent],
    script: &Script,
) -> Result<Script, AllocError>
    ensures { IfOk result (λ made. made ≡ script_in (Some part) records.now script.now) }
{
    commands_never_fall(script);
    let frames = frames_of(alloc, script)?;
    let numbers = numbers_in_part(alloc, part, records, &frames)?;
    script.at_frames(alloc, &numbers)
}
