//! The commands of a script at other frames.

ghost use Rattle.std.specs.Prelude.{◌≡◌, IfOk, length};
ghost use Rattle.std.specs.List.{AllByRecursion};
ghost use Rattle.control.specs.ScriptText.{CommandFits, NeverFalls};
ghost use Rattle.control.specs.Renumbering.{at_frame, at_frames};

use crate::command::{Command, Script};
use crate::facts::command_fits;
use std::alloc::{AllocError, Global};

/// A command at another frame.
fn at_frame(command: &Command, frame: u32) -> Command
    ensures at { result ≡ at_frame frame command.now }
    ensures fits { CommandFits result }
{
    let moved = Command {
        frame,
        action: command.action,
    };
    command_fits(moved);
    moved
}

/// Each command at the frame with its place.
fn renumbered(
    alloc: Global,
    frames: &[u32],
    commands: &[Command],
) -> Result<Vec<Command>, AllocError>
    requires { length frames.now ≡ length commands.now }
    ensures commands { IfOk result (λ made. made.items ≡ at_frames frames.now commands.now) }
    ensures fit { IfOk result (λ made. AllByRecursion CommandFits made.items) }
{
    let mut made = Vec::new(alloc);
    'commands: for place in 0..commands.len() {
        made.push(at_frame(&commands[place], frames[place]))?;
    }
    Ok(made)
}

impl Script {
    /// The same commands at these frames, which never fall: one frame for each command. It fails only for lack of memory.
    pub fn at_frames(&self, alloc: Global, frames: &[u32]) -> Result<Script, AllocError>
        requires as_many { length frames.now ≡ length self.now }
        requires in_order { NeverFalls 0 (at_frames frames.now self.now) }
        ensures { IfOk result (λ script. script ≡ at_frames frames.now self.now) }
    {
        let commands = renumbered(alloc, frames, &self.commands)?;
        Ok(Script { commands })
    }
}
