//! What is printed where two files are not compared.

ghost use Rattle.std.specs.Prelude.{◌≡◌, IfOk, string_bytes};
ghost use Rattle.comparison.specs.Mistakes.{json_text, name_of, named_field_text, no_report_text, no_rows_text, others_text, unlike_text, wrong_field_text};

use crate::columns::column_name;
use crate::fault::{NoRows, Unlike, Which};
use std::alloc::{AllocError, Global};

/// The name of one of the two files.
fn name_of<'a>(which: Which, first: &'a str, second: &'a str) -> &'a str
    ensures { result.now ≡ name_of which first.now second.now }
{
    match which {
        Which::First => first,
        Which::Second => second,
    }
}

/// The line that says that a file has JSON lines. It fails only for lack of memory.
pub fn json_text(alloc: Global, name: &str) -> Result<String, AllocError>
    ensures { IfOk result (λ text. string_bytes text ≡ json_text name.now) }
{
    format!(in alloc; "error: {name} has JSON lines, and a report of CSV is needed\n")
}

/// The line that says that a file is no report of CSV, and which of its lines, from 1, shows it. It fails only for lack of memory.
pub fn no_report_text(alloc: Global, name: &str, line: usize) -> Result<String, AllocError>
    ensures { IfOk result (λ text. string_bytes text ≡ no_report_text name.now line) }
{
    format!(in alloc; "error: {name} is no report of CSV: line {line}\n")
}

fn named_field_text(
    alloc: Global,
    name: &str,
    line: usize,
    column: &str,
) -> Result<String, AllocError>
    ensures { IfOk result (λ text. string_bytes text ≡ named_field_text name.now line column.now) }
{
    format!(in alloc; "error: {name} is no report of CSV: line {line}, column {column}\n")
}

/// The line that says that a file is no report of CSV, and which field, by its line from 1 and its column from 0, shows it. It fails only for
/// lack of memory.
pub fn wrong_field_text(
    alloc: Global,
    name: &str,
    line: usize,
    column: usize,
) -> Result<String, AllocError>
    ensures { IfOk result (λ text. string_bytes text ≡ wrong_field_text name.now line column) }
{
    named_field_text(alloc, name, line, column_name(column))
}

fn others_text(
    alloc: Global,
    first: &str,
    second: &str,
    number: usize,
) -> Result<String, AllocError>
    ensures { IfOk result (λ text. string_bytes text ≡ others_text first.now second.now number) }
{
    format!(in alloc;
        "error: {first} and {second} are not of the same records: record {number} differs\n"
    )
}

impl NoRows {
    /// The line that says why the rows of the file of this name are not read. It fails only for lack of memory.
    pub fn text(self, alloc: Global, name: &str) -> Result<String, AllocError>
        ensures { IfOk result (λ text. string_bytes text ≡ no_rows_text self name.now) }
    {
        match self {
            NoRows::JsonLines => json_text(alloc, name),
            NoRows::NoReport { line } => no_report_text(alloc, name, line),
            NoRows::WrongField { line, column } => wrong_field_text(alloc, name, line, column),
            NoRows::Memory => String::from_str(alloc, "fault 8 Memory\n"),
        }
    }
}

impl Unlike {
    /// The line that says why the files of these names are not compared. It fails only for lack of memory.
    pub fn text(self, alloc: Global, first: &str, second: &str) -> Result<String, AllocError>
        ensures { IfOk result (λ text. string_bytes text ≡ unlike_text self first.now second.now) }
    {
        match self {
            Unlike::JsonLines { which } => json_text(alloc, name_of(which, first, second)),
            Unlike::NoReport { which, line } => {
                no_report_text(alloc, name_of(which, first, second), line)
            }
            Unlike::WrongField {
                which,
                line,
                column,
            } => wrong_field_text(alloc, name_of(which, first, second), line, column),
            Unlike::OtherRecords { number } => others_text(alloc, first, second, number),
            Unlike::Memory => String::from_str(alloc, "fault 8 Memory\n"),
        }
    }
}
