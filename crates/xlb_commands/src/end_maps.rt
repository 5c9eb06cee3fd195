//! What the maps hold at the end of a run or a replay, as lines.

ghost use Rattle.std.specs.Prelude.{◌≡◌, IfOk};
ghost use Rattle.journals.specs.LegalJournals.{AreLegal};
ghost use Rattle.command_line.specs.Reading.{text_of};
ghost use Rattle.xlb_commands.specs.EndMaps.{AreMapsLines, lines_bytes, maps_form};

use crate::record_report::form_of;
use journals::Journals;
use map_contents::contents_text;
use map_meanings::ContentsForm;
use std::alloc::{AllocError, Global};
use traffic::ReportForm;

/// The form of a file of this name: JSON where a report of the name has it, otherwise words.
fn maps_form(alloc: Global, name: &str) -> Result<ContentsForm, AllocError>
    ensures { IfOk result (λ form. form ≡ maps_form name.now) }
{
    match form_of(alloc, name)? {
        ReportForm::Csv => Ok(ContentsForm::Words),
        ReportForm::Json => Ok(ContentsForm::Json),
    }
}

/// The lines of what the maps hold after the calls of these journals, in the form of the file's name, where one is named for them. Fails
/// only for lack of memory.
pub(crate) fn maps_lines(
    alloc: Global,
    name: Option<&str>,
    journals: &Journals,
) -> Result<Option<String>, AllocError>
    requires { AreLegal journals.now }
    ensures { IfOk result (λ lines. AreMapsLines (text_of name.entry) journals.now (lines_bytes lines)) }
{
    match name {
        Some(name) => {
            let form = maps_form(alloc, name)?;
            Ok(Some(contents_text(alloc, form, journals)?))
        }
        None => Ok(None),
    }
}

/// The lines, where they were made, else an empty text.
pub(crate) fn text_of_lines(lines: &Option<String>) -> &str
    ensures { result.now ≡ lines_bytes lines.now }
{
    match lines {
        Some(lines) => lines.as_str(),
        None => "",
    }
}
