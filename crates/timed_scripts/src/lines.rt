//! What a line of a timed script says.

ghost use Rattle.std.specs.Prelude.{◌≡◌, ◌<◌, IfOk, IfErr, length};
ghost use Rattle.control.specs.declared.fault.ControlFault.TheVariants.{Memory};
ghost use Rattle.timed_scripts.specs.Cutting.{content};
ghost use Rattle.timed_scripts.specs.LineReading.{TellsSaid};

use crate::actions::is_action;
use crate::cutting::{content, cut_at};
use crate::moments::{first_moment, moment_of};
use control::ControlFault;
use std::alloc::Global;
use wire::Sent;

/// What a line says.
#[derive(Clone, Copy, Debug, PartialEq, Eq)]
pub(crate) enum Said<'a> {
    /// It is none of a timed script.
    Unknown,
    /// It has blanks and a comment alone.
    Nothing,
    /// These words of an action, at a moment in nanoseconds since the start of 1970.
    Does { moment: i128, words: &'a str },
}

/// What a line says that has more than a comment.
fn said_by<'a>(alloc: Global, records: &[Sent], content: &'a str) -> Result<Said<'a>, ControlFault>
    requires { 0 < length content.now }
    ensures said { IfOk result (λ said. TellsSaid records.now content.now said) }
    ensures memory { IfErr result (λ fault. fault ≡ Memory) }
{
    let Some((word, words)) = cut_at(content, ' ') else {
        return Ok(Said::Unknown);
    };
    let Some(moment) = moment_of(first_moment(records), word) else {
        return Ok(Said::Unknown);
    };
    if is_action(alloc, words)? {
        Ok(Said::Does { moment, words })
    } else {
        Ok(Said::Unknown)
    }
}

/// What a line says.
pub(crate) fn said_in<'a>(
    alloc: Global,
    records: &[Sent],
    line: &'a str,
) -> Result<Said<'a>, ControlFault>
    ensures said { IfOk result (λ said. TellsSaid records.now (content line.now) said) }
    ensures memory { IfErr result (λ fault. fault ≡ Memory) }
{
    let content = content(line);
    if content.is_empty() {
        Ok(Said::Nothing)
    } else {
        said_by(alloc, records, content)
    }
}
