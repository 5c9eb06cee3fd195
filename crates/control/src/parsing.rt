//! A script read from its text.

ghost use Rattle.std.specs.Prelude.{◌≡◌, ◌≤◌, ◌+◌, ◌<◌, List, ℕ, length, IfOk, IfErr, MatchResult};
ghost use Rattle.std.specs.Option.{MatchOption};
ghost use Rattle.std.specs.Str.{IsUtf8};
ghost use Rattle.control.specs.declared.command.Command.{Command as Line};
ghost use Rattle.control.specs.declared.fault.ControlFault.{ControlFault as Fault};
ghost use Rattle.control.specs.declared.fault.ControlFault.TheVariants.{BadLine, Memory};
ghost use Rattle.control.specs.ScriptText.{IsScriptText};
ghost use Rattle.control.specs.ScriptReading.{TellsCommand, BeginsWithNoCommand, IsFirstCommand, AreCommandsRead, IsBadScriptLine, ExplainsScript};

use crate::command::{Command, Script};
use crate::facts::script_is_of_its_text;
use crate::fault::ControlFault;
use crate::printing::line;
use crate::reading::command_read;
use std::alloc::{AllocError, Global};
use text_lines::text_or_line;

/// The command whose line this is, if it is one's: what was read is printed again and compared.
fn command_of(alloc: Global, text: &str) -> Result<Option<Command>, AllocError>
    ensures { IfOk result (λ found. TellsCommand text.now found) }
{
    let command = command_read(text);
    let again = line(alloc, command)?;
    if again.as_str() == text {
        Ok(Some(command))
    } else {
        Ok(None)
    }
}

/// The command of the first line and what comes after it, if that line is a command's.
fn first_command(alloc: Global, text: &str) -> Result<Option<(Command, &str)>, AllocError>
    ensures { IfOk result (λ found. MatchOption found (BeginsWithNoCommand text.now) (λ x. IsFirstCommand text.now x.0 x.1.now)) }
{
    match text.split_once('\n') {
        None => Ok(None),
        Some((line, rest)) => match command_of(alloc, line)? {
            None => Ok(None),
            Some(command) => Ok(Some((command, rest))),
        },
    }
}

/// The commands of as many first lines as are commands' with frames that never fall, and what comes after them.
fn commands_of(alloc: Global, text: &str) -> Result<(Vec<Command>, &str), AllocError>
    ensures { IfOk result (λ read. AreCommandsRead text.now read.0.items read.1.now) }
{
    let mut commands = Vec::new(alloc);
    let mut rest = text;
    let mut least = 0;
    'lines: while let Some((command, after)) = first_command(alloc, rest)? {
        if command.frame < least {
            return Ok((commands, rest));
        }
        commands.push(command)?;
        least = command.frame;
        rest = after;
    }
    Ok((commands, rest))
}

/// The line after those of the commands.
fn bad_line_after(commands: &[Command]) -> ControlFault
    ensures { result ≡ BadLine (1 + length commands.now) }
{
    ControlFault::BadLine {
        line: 1 + commands.len(),
    }
}

/// The script of a text.
fn script_of(alloc: Global, text: &str) -> Result<Script, ControlFault>
    requires { IsUtf8 text.now }
    ensures found { IfOk result (λ script. IsScriptText text.now script) }
    ensures refused { IfErr result (λ fault. ExplainsScript text.now fault) }
    ensures only { (script : List Line) → IsScriptText text.now script → IfOk result (λ made. made ≡ script) }
    ensures accepts { (script : List Line) → IsScriptText text.now script → IfErr result (λ fault. fault ≡ Memory) }
{
    let (commands, rest) = commands_of(alloc, text)?;
    if rest.is_empty() {
        Ok(Script { commands })
    } else {
        Err(bad_line_after(&commands))
    }
}

/// The script of a text: the commands that `Script::text` prints so. An empty text is the script without commands.
///
/// Refused with 90 and the first line, counted from 1, that is no command's in its one spelling, or whose frame is below the one before
/// (what comes after the last line feed is such a line; where the bytes are no UTF-8, it is the line of the first byte that is not); with
/// 95 if memory is refused. Nothing is left behind.
pub fn parse_script(alloc: Global, bytes: &[u8]) -> Result<Script, ControlFault>
    // What is accepted prints back to the same bytes.
    ensures found { IfOk result (λ script. IsScriptText bytes.now script) }
    ensures refused { IfErr result (λ fault. ExplainsScript bytes.now fault) }
    // Every text of the form is accepted, as the script whose text it is.
    ensures only { (script : List Line) → IsScriptText bytes.now script → IfOk result (λ made. made ≡ script) }
    ensures accepts { (script : List Line) → IsScriptText bytes.now script → IfErr result (λ fault. fault ≡ Memory) }
{
    match text_or_line(bytes) {
        Ok(text) => script_of(alloc, text),
        Err(line) => Err(ControlFault::BadLine { line }),
    }
}

/// A text is that of one script at most. The function does nothing: its contract is the law.
pub fn one_script()
    ensures { (text : List ℕ) (one other : List Line) → IsScriptText text one → IsScriptText text other → one ≡ other }
{}

/// The law of the two: `parse_script` returns what `Script::text` printed, unless memory is refused.
pub fn round_trip(alloc: Global, script: &Script) -> Result<Script, ControlFault>
    ensures same { IfOk result (λ made. made ≡ script.now) }
    ensures accepts { IfErr result (λ fault. fault ≡ Memory) }
{
    script_is_of_its_text(script);
    let printed = script.text(alloc)?;
    parse_script(alloc, printed.as_bytes())
}
