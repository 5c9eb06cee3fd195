//! The script that a timed script means for a capture.

ghost use Rattle.std.specs.Prelude.{◌≡◌, ◌-◌, ◌<◌, ◌^◌, IfErr, IfOk, false, string_bytes};
ghost use Rattle.control.specs.declared.fault.ControlFault.{ControlFault as Why};
ghost use Rattle.timed_scripts.specs.MeantScript.{ExplainsTimedScript, IsMeantScript};
ghost use Rattle.xlb_commands.specs.Files.{AreKept};
ghost use Rattle.xlb_commands.specs.Refused.{HasFailed, IsTimedRefusal};
ghost use Rattle.xlb_commands.specs.Timed.{IsScriptShown};

use crate::fault::{Fault, Refusal};
use crate::files::bytes_of;
use crate::notes::Altered;
use crate::replays::capture_of;
use crate::report::Report;
use capture_readings::Reading;
use comparison::{parts_at, row_at};
use control::ControlFault;
use folders::Folder;
use std::alloc::{AllocError, Global};
use text_lines::text_or_line;
use timed_scripts::{TimedScript, timed_script};
use wire::Sent;

/// The most late lines that are named.
const MOST_LINES: usize = 10;

/// What a line of a timed script is.
const EXPECTED: &str =
    "expected a moment (2026-11-28T10:03:00Z, 1764324180.25, or +180s from the first record), a space, a command (down 17), and a line feed alone\n";

/// Whether these words, as the only line, are a timed script.
fn is_right_alone(alloc: Global, words: &str, records: &[Sent]) -> Result<bool, AllocError> {
    let alone = format!(in alloc; "{words}\n")?;
    match timed_script(alloc, alone.as_bytes(), records) {
        Ok(_made) => Ok(true),
        Err(_fault) => Ok(false),
    }
}

/// Whether a line that was refused is right alone, so that its moment is before that of a line above. What no line feed ends is no line.
fn falls(alloc: Global, bytes: &[u8], records: &[Sent], line: usize) -> Result<bool, AllocError> {
    let Ok(text) = text_or_line(bytes) else {
        return Ok(false);
    };
    let lines = parts_at(alloc, text, '\n')?;
    if lines.len() <= line {
        return Ok(false);
    }
    is_right_alone(alloc, row_at(&lines, line.saturating_sub(1)), records)
}

/// Why a line cannot stand where it does.
fn about_line(
    alloc: Global,
    bytes: &[u8],
    records: &[Sent],
    line: usize,
) -> Result<String, AllocError> {
    if falls(alloc, bytes, records, line)? {
        return format!(in alloc; "line {line}: its moment is before that of a line above\n");
    }
    let mut text = format!(in alloc; "line {line} is not one of a timed script\n")?;
    text.push_str(EXPECTED)?;
    Ok(text)
}

/// Why a timed script means no script.
fn about_timed(
    alloc: Global,
    bytes: &[u8],
    records: &[Sent],
    fault: ControlFault,
) -> Result<Option<String>, AllocError> {
    match fault {
        ControlFault::BadLine { line } => Ok(Some(about_line(alloc, bytes, records, line)?)),
        _ => Ok(None),
    }
}

/// The lines whose moments lie behind the last record.
fn about_late(alloc: Global, late: &[usize]) -> Result<String, AllocError> {
    let mut text = String::new(alloc);
    for line in late.iter().take(MOST_LINES) {
        text.push_str(&format!(in alloc; "line {line}: its moment is behind the last record\n")?)?;
    }
    if late.len() > MOST_LINES {
        let more = late.len().saturating_sub(MOST_LINES);
        text.push_str(&format!(in alloc; "and {more} more lines\n")?)?;
    }
    Ok(text)
}

/// The script that a text means for these records.
fn meant(alloc: Global, bytes: &[u8], records: &[Sent]) -> Result<TimedScript, Refusal>
    ensures meant { IfOk result (λ made. IsMeantScript records.now bytes.now (string_bytes made.text) made.late.items) }
    ensures refused { IfErr result (λ refusal. (why : Why) × ExplainsTimedScript records.now bytes.now why × (refusal.fault ≡ Fault.Script why)) }
{
    match timed_script(alloc, bytes, records) {
        Ok(made) => Ok(made),
        Err(fault) => Err(Refusal::hinted(
            Fault::Script(fault),
            about_timed(alloc, bytes, records, fault),
        )),
    }
}

/// Prints the script that a timed script's file means for the capture of another file, which is read in this way.
/// Refused as a replay refuses the capture, then with 7 or 8 where the timed script is not read, 90 with the first
/// of its lines that is wrong, or 95. No file changes.
pub fn timed_file<D: Folder>(
    alloc: Global,
    folder: &mut D,
    capture: &str,
    timed: &str,
    reading: Reading,
) -> Result<Report, Refusal>
    requires { D.failure_count folder.old < 2 ^ 64 - 1 }
    ensures done { IfOk result (λ report. IsScriptShown (D.holds folder.old) reading capture.now timed.now (string_bytes report.text)) }
    ensures whole { IfOk result (λ report. report.is_refused ≡ false) }
    ensures kept { AreKept (D.holds folder.old) (D.holds folder.new) }
    ensures refused { IfErr result (λ refusal. IsTimedRefusal (D.holds folder.old)
        (HasFailed (D.failure_count folder.old) (D.failure_count folder.new)) reading capture.now timed.now refusal.fault) }
{
    let mut altered = Altered::default();
    let captured = capture_of(alloc, folder, capture, reading, &mut altered)?;
    let bytes = bytes_of(alloc, folder, timed)?;
    let made = meant(alloc, &bytes, &captured.records)?;
    let notes = about_late(alloc, &made.late).ok();
    Ok(Report {
        text: made.text,
        is_refused: false,
        leaves_out: false,
        notes,
        maps: None,
    })
}
