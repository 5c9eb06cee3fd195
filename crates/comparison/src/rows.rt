//! The rows of a report.

ghost use Rattle.std.specs.Prelude.{◌≡◌, ◌≢◌, ◌<◌, ◌^◌, ◌++◌, ℕ, List, IfErr, IfNone, IfOk, IfSome, false, map, true};
ghost use Rattle.comparison.specs.Rows.{BeginsAsJson, IsReport, IsRowCount, IsUnread, earlier_fields, field, fields_between, fields_from, first_field};
ghost use Rattle.comparison.specs.Rows.{ended_lines, has_fields, head_line, is_row, last_line, later_fields, parts_between, right_fields, row_at, why_no_row};
ghost use Rattle.comparison.specs.Rows.{with_field, without_last};

use crate::columns::{COLUMNS, is_field};
use crate::fault::NoRows;
use std::alloc::{AllocError, Global};
use text_lines::text_or_line;

/// What comes before the first line of a record, a line of the columns' names.
const HEAD: &str =
    "number,moment,worker,verdict,steps,case,backend,address,source,source_port,destination,destination_port,protocol,choice\n";

/// The first line of a report, with its line feed.
pub fn head_line() -> &'static str
    ensures { result.now ≡ head_line }
{
    HEAD
}

/// Whether a line has as many fields as there are columns.
fn has_fields(line: &str) -> bool
    ensures { result ≡ has_fields line.now }
{
    line.as_bytes().iter().filter(|byte| **byte == b',').count() == COLUMNS - 1
}

/// One field more, where so many from the first one on are what their columns say.
fn with_field(count: usize, place: usize, text: &str) -> usize
    requires { place < 2 ^ 32 }
    ensures { result ≡ with_field count place text.now }
{
    if count == place && is_field(place, text) {
        place + 1
    } else {
        count
    }
}

/// How many of so many fields of a line, from the first one on, are what their columns say.
#[tactic(auto, unfolding(crate::specs::Rows::right_fields))]
fn right_fields(line: &str, most: usize) -> usize
    requires { most < 2 ^ 32 }
    ensures { result ≡ right_fields line.now most }
{
    let mut rest = line;
    let mut count = 0;
    'columns: for place in 0..most {
        count = with_field(count, place, first_field(rest));
        rest = later_fields(rest);
    }
    count
}

/// Whether a line has the fields of a record.
fn is_row(line: &str) -> bool
    ensures { result ≡ is_row line.now }
{
    has_fields(line) && right_fields(line, COLUMNS) == COLUMNS
}

/// Why a line is no row.
fn why_no_row(row: &str, line: usize) -> NoRows
    ensures { result ≡ why_no_row row.now line }
{
    if has_fields(row) {
        NoRows::WrongField {
            line,
            column: right_fields(row, COLUMNS),
        }
    } else {
        NoRows::NoReport { line }
    }
}

/// What is before the first comma, or all.
pub(crate) fn first_field(line: &str) -> &str
    ensures { result.now ≡ first_field line.now }
{
    match line.split_once(',') {
        Some((front, _)) => front,
        None => line,
    }
}

/// What comes after the first comma.
pub(crate) fn later_fields(line: &str) -> &str
    ensures { result.now ≡ later_fields line.now }
{
    match line.split_once(',') {
        Some((_, back)) => back,
        None => "",
    }
}

/// The fields from this one on, counted from 0.
pub(crate) fn fields_from(line: &str, place: usize) -> &str
    ensures { result.now ≡ fields_from place line.now }
{
    let mut rest = line;
    'fields: for _place in 0..place {
        rest = later_fields(rest);
    }
    rest
}

/// What is before the last comma, or nothing.
fn earlier_fields(line: &str) -> &str
    ensures { result.now ≡ earlier_fields line.now }
{
    match line.rfind(',') {
        Some(end) => &line[..end],
        None => "",
    }
}

/// A row without so many fields at its end.
fn without_last(row: &str, count: usize) -> &str
    ensures { result.now ≡ without_last count row.now }
{
    let mut rest = row;
    'fields: for _place in 0..count {
        rest = earlier_fields(rest);
    }
    rest
}

/// The fields of a row from the first one of these columns to the second one, with commas between them.
pub fn fields_between(row: &str, first: usize, last: usize) -> &str
    ensures { result.now ≡ fields_between first last row.now }
{
    fields_from(without_last(row, (COLUMNS - 1).saturating_sub(last)), first)
}

/// A field, counted from 0.
pub fn field(line: &str, place: usize) -> &str
    ensures { result.now ≡ field place line.now }
{
    first_field(fields_from(line, place))
}

/// The parts of a text between marks.
pub fn parts_at(alloc: Global, text: &str, mark: char) -> Result<Vec<&str>, AllocError>
    requires { mark < 128 }
    ensures { IfOk result (λ parts. map (λ part. part.now) parts.items ≡ parts_between mark text.now) }
{
    text.split(mark).collect(alloc)
}

/// How many lines from the first on are rows.
fn row_count(lines: &[&str]) -> usize
    ensures { IsRowCount (map (λ line. line.now) lines.now) result }
{
    let mut count = 0;
    'lines: while count < lines.len() && is_row(row_at(lines, count)) {
        count += 1;
    }
    count
}

/// The row at a place, or an empty one.
pub fn row_at<'a>(rows: &[&'a str], place: usize) -> &'a str
    ensures { result.now ≡ row_at (map (λ row. row.now) rows.now) place }
{
    match rows.get(place) {
        Some(row) => *row,
        None => "",
    }
}

/// What comes behind the last line feed.
fn last_line<'a>(lines: &[&'a str]) -> &'a str
    ensures { result.now ≡ last_line (map (λ line. line.now) lines.now) }
{
    row_at(lines, lines.len().saturating_sub(1))
}

/// Leaves the lines that a line feed ends.
fn drop_last(lines: &mut Vec<&str>)
    ensures { map (λ line. line.now) lines.new.items ≡ ended_lines (map (λ line. line.now) lines.old.items) }
{
    lines.truncate(lines.len().saturating_sub(1));
}

/// The rows of a report, from what comes after its head.
fn rows_of(alloc: Global, rest: &str) -> Result<Vec<&str>, NoRows>
    ensures rows { IfOk result (λ rows. IsReport (head_line ++ rest.now) (map (λ row. row.now) rows.items)) }
    ensures refused { IfErr result (λ none. IsUnread (head_line ++ rest.now) none) }
{
    let mut lines = parts_at(alloc, rest, '\n')?;
    let behind = last_line(&lines).len();
    drop_last(&mut lines);
    let count = row_count(&lines);
    if behind == 0 && count == lines.len() {
        Ok(lines)
    } else {
        Err(why_no_row(row_at(&lines, count), 2 + count))
    }
}

/// What comes after the head of a report.
fn after_head(text: &str) -> Option<&str>
    ensures begins { IfSome result (λ rest. text.now ≡ head_line ++ rest.now) }
    ensures none { IfNone result ((rest : List ℕ) → text.now ≢ head_line ++ rest) }
{
    text.strip_prefix(HEAD)
}

/// Whether the bytes begin as JSON lines do.
fn begins_as_json(bytes: &[u8]) -> bool
    ensures so { result ≡ true → BeginsAsJson bytes.now }
    ensures otherwise { result ≡ false → ¬ BeginsAsJson bytes.now }
{
    !bytes.is_empty() && bytes[0] == b'{'
}

/// The rows of a report. Refused where the bytes are none, with the first line that shows it, and the column where a field does, and where
/// memory is refused.
pub fn rows_in(alloc: Global, bytes: &[u8]) -> Result<Vec<&str>, NoRows>
    ensures rows { IfOk result (λ rows. IsReport bytes.now (map (λ row. row.now) rows.items)) }
    ensures refused { IfErr result (λ none. IsUnread bytes.now none) }
{
    if begins_as_json(bytes) {
        return Err(NoRows::JsonLines);
    }
    match text_or_line(bytes) {
        Err(line) => Err(NoRows::NoReport { line }),
        Ok(text) => match after_head(text) {
            Some(rest) => rows_of(alloc, rest),
            None => Err(NoRows::NoReport { line: 1 }),
        },
    }
}
