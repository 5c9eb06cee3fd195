//! The script that a timed script means.

ghost use Rattle.std.specs.Prelude.{◌≡◌, IfErr, IfOk, string_bytes, true, false};
ghost use Rattle.std.specs.Option.{MatchOption};
ghost use Rattle.control.specs.declared.fault.ControlFault.TheVariants.{Memory};
ghost use Rattle.timed_scripts.specs.TimedLines.{IsFrom};
ghost use Rattle.timed_scripts.specs.MeantScript.{IsMeantScript, ExplainsTimedScript};
ghost use Rattle.timed_scripts.specs.LineReading.{MayCome, IsCommandPut, IsLinePut, IsNoNext, ExplainsTimedText};

use crate::cutting::cut_at;
use crate::lines::{Said, said_in};
use crate::moments::records_before;
use control::ControlFault;
use std::alloc::Global;
use text_lines::text_or_line;
use wire::Sent;

/// The script that a timed script means for a capture.
#[derive(Debug, Drop)]
pub struct TimedScript {
    /// The script, as `parse_script` reads it.
    pub text: String,
    /// The lines of the timed script, counted from 1, whose moments lie behind the last record.
    pub late: Vec<usize>,
}

/// Whether a moment is this one or a later one.
fn is_from(least: Option<i128>, moment: i128) -> bool
    ensures is { result ≡ true → IsFrom least moment }
    ensures is_not { result ≡ false → ¬ IsFrom least moment }
{
    match least {
        Some(least) => least <= moment,
        None => true,
    }
}

/// Puts the line of a command, and returns its moment; or none where it is earlier than the one before, or where a script has no number for
/// the records before it.
fn put_command(
    alloc: Global,
    made: &mut TimedScript,
    records: &[Sent],
    number: usize,
    least: Option<i128>,
    moment: i128,
    words: &str,
) -> Result<Option<Option<i128>>, ControlFault>
    ensures put { IfOk result (λ next. MatchOption next (¬ MayCome records.now least moment) (λ next. IsCommandPut records.now number least
        moment words.now next (string_bytes made.old.text) (string_bytes made.new.text) made.old.late.items made.new.late.items)) }
    ensures memory { IfErr result (λ fault. fault ≡ Memory) }
{
    let before = records_before(moment, records);
    if !is_from(least, moment) {
        return Ok(None);
    }
    if 4_294_967_296 <= before {
        return Ok(None);
    }
    made.text
        .push_str(&format!(in alloc; "{before} {words}\n")?)?;
    if before == records.len() {
        made.late.push(number)?;
    }
    Ok(Some(Some(moment)))
}

/// Puts what a line says, and returns the latest moment behind it; or none where the line says nothing known or nothing that may come.
fn put_line(
    alloc: Global,
    made: &mut TimedScript,
    records: &[Sent],
    number: usize,
    least: Option<i128>,
    line: &str,
) -> Result<Option<Option<i128>>, ControlFault>
    ensures put { IfOk result (λ next. MatchOption next (IsNoNext records.now least line.now) (λ next. IsLinePut records.now number least
        line.now next (string_bytes made.old.text) (string_bytes made.new.text) made.old.late.items made.new.late.items)) }
    ensures memory { IfErr result (λ fault. fault ≡ Memory) }
{
    match said_in(alloc, records, line)? {
        Said::Unknown => Ok(None),
        Said::Nothing => Ok(Some(least)),
        Said::Does { moment, words } => {
            put_command(alloc, made, records, number, least, moment, words)
        }
    }
}

/// The script that the lines of a text mean.
fn script_of(alloc: Global, text: &str, records: &[Sent]) -> Result<TimedScript, ControlFault>
    ensures meant { IfOk result (λ made. IsMeantScript records.now text.now (string_bytes made.text) made.late.items) }
    ensures refused { IfErr result (λ fault. ExplainsTimedText records.now text.now fault) }
{
    let mut made = TimedScript {
        text: String::new(alloc),
        late: Vec::new(alloc),
    };
    let mut rest = text;
    let mut number = 1;
    let mut least = None;
    'lines: while let Some((line, after)) = cut_at(rest, '\n') {
        let Some(next) = put_line(alloc, &mut made, records, number, least, line)? else {
            return Err(ControlFault::BadLine { line: number });
        };
        least = next;
        number += 1;
        rest = after;
    }
    if rest.is_empty() {
        Ok(made)
    } else {
        Err(ControlFault::BadLine { line: number })
    }
}

/// The script that a timed script means for the records of a capture: each line that is more than a comment becomes a command behind the
/// records that come before the first one that is not earlier than the line's moment. `parse_script` reads it.
///
/// A line is a moment, a blank and the words of a command as a script has them; blanks at its end and a comment from `#` on are left out,
/// and a line of nothing else means nothing. A moment is a date and a time of RFC 3339 with its offset, seconds since the start of 1970
/// with up to six digits behind a point, or `+180s` from the first record on.
///
/// Refused with 90 and the first line, counted from 1, that is no such line, whose moment is earlier than the one before, or that comes
/// behind 2^32 records or more (what comes after the last line feed is such a line; where the bytes are no UTF-8, it is the line of the
/// first byte that is not); with 95 if memory is refused. Nothing is left behind.
pub fn timed_script(
    alloc: Global,
    bytes: &[u8],
    records: &[Sent],
) -> Result<TimedScript, ControlFault>
    ensures meant { IfOk result (λ made. IsMeantScript records.now bytes.now (string_bytes made.text) made.late.items) }
    ensures refused { IfErr result (λ fault. ExplainsTimedScript records.now bytes.now fault) }
{
    match text_or_line(bytes) {
        Ok(text) => script_of(alloc, text, records),
        Err(line) => Err(ControlFault::BadLine { line }),
    }
}
