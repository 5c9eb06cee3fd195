//! Of a line that is no command of a script: which word is wrong, and what was expected.

ghost use Rattle.std.specs.Prelude.{string_bytes, IfOk};
ghost use Rattle.mistakes.specs.Notes.{AreFewNotes};

use crate::kinds::{FileKind, kind_of, name_of};
use crate::notes::notes_of;
use crate::quoting::quoted;
use crate::spacing::{LineMistake, spacing_mistake};
use crate::words::{command_in, example_of, words_mistake};
use std::alloc::{AllocError, Global};
use text_lines::{count_of, cut, text_or_line};

/// The lines before the one of a number, the line, and whether it ends with a line feed; none where there is no such line.
pub(crate) fn line_at(text: &str, line: usize) -> Option<(&str, &str, bool)> {
    let mut rest = text;
    let mut before = "";
    for _ in 1..line {
        match rest.split_once('\n') {
            Some((front, later)) => {
                before = front;
                rest = later;
            }
            None => return None,
        }
    }
    match rest.split_once('\n') {
        Some((front, _)) => Some((before, front, true)),
        None => if rest.is_empty() {
            None
        } else {
            Some((before, rest, false))
        },
    }
}

/// The first mistake of the line.
fn mistake_in<'a>(line: &'a str, before: &str) -> Option<LineMistake<'a>> {
    let (frame, _) = cut(before, ' ');
    match spacing_mistake(line) {
        Some(mistake) => Some(mistake),
        None => words_mistake(line, count_of(frame)),
    }
}

/// The lines on a mistake: where, what was expected, and a line that is right.
fn about_mistake(
    alloc: Global,
    line: usize,
    text: &str,
    mistake: LineMistake<'_>,
) -> Result<String, AllocError>
    ensures { IfOk result (λ text. AreFewNotes 3 (string_bytes text)) }
{
    let column = mistake.before.saturating_add(1);
    let what = mistake.what;
    let wrong = if mistake.piece.is_empty() {
        format!(in alloc; "line {line}, column {column}: {what}")?
    } else {
        let piece = quoted(alloc, mistake.piece.as_bytes())?;
        format!(in alloc; "line {line}, column {column}: {piece}: {what}")?
    };
    let expected = format!(in alloc; "expected {}", mistake.expected)?;
    notes_of(
        alloc,
        wrong.as_str(),
        expected.as_str(),
        example_of(command_in(text)),
    )
}

/// The lines on a line of a text.
fn about_line(alloc: Global, text: &str, line: usize) -> Result<String, AllocError>
    ensures { IfOk result (λ text. AreFewNotes 3 (string_bytes text)) }
{
    let Some((before, found, is_ended)) = line_at(text, line) else {
        return notes_of(alloc, "", "", "");
    };
    if let Some(mistake) = mistake_in(found, before) {
        return about_mistake(alloc, line, found, mistake);
    }
    if is_ended {
        return notes_of(alloc, "", "", "");
    }
    let wrong = format!(in alloc; "line {line}, the last one, has no line feed at its end")?;
    notes_of(
        alloc,
        wrong.as_str(),
        "expected a line feed after each line, the last one too",
        "echo >> SCRIPT adds it",
    )
}

/// The lines on a file that is of another kind.
fn about_kind(alloc: Global, kind: FileKind) -> Result<String, AllocError>
    ensures { IfOk result (λ text. AreFewNotes 3 (string_bytes text)) }
{
    notes_of(
        alloc,
        name_of(kind),
        "expected a script: a command on each line",
        example_of(""),
    )
}

/// Whether a file of this kind has no lines to look at.
fn is_other(kind: FileKind) -> bool {
    kind != FileKind::Script
        && kind != FileKind::Text
        && kind != FileKind::HexDigits
        && kind != FileKind::Unknown
        && kind != FileKind::Empty
}

/// The bytes that some editors put in front of a text in UTF-8.
pub(crate) const BYTE_ORDER_MARK: &[u8] = b"\xef\xbb\xbf";

/// The lines on a file, called so on the command line, that begins with them.
pub(crate) fn about_byte_order_mark(alloc: Global, file: &str) -> Result<String, AllocError>
    ensures { IfOk result (λ text. AreFewNotes 3 (string_bytes text)) }
{
    let expected = format!(in alloc;
        "expected plain ASCII text: tail -c +4 {file} > NEW takes the mark away"
    )?;
    notes_of(
        alloc,
        "line 1, column 1: the file begins with a byte order mark, the bytes ef bb bf",
        expected.as_str(),
        "",
    )
}

/// The lines on bytes that are no text.
fn about_bytes(alloc: Global, bytes: &[u8], line: usize) -> Result<String, AllocError>
    ensures { IfOk result (λ text. AreFewNotes 3 (string_bytes text)) }
{
    if bytes.starts_with(b"\xff\xfe") || bytes.starts_with(b"\xfe\xff") {
        return notes_of(
            alloc,
            "the file is a text in UTF-16",
            "expected plain ASCII text: iconv -f UTF-16 -t ASCII SCRIPT > NEW makes it",
            "",
        );
    }
    let wrong = format!(in alloc; "line {line} has a byte that is not UTF-8")?;
    notes_of(alloc, wrong.as_str(), "expected plain ASCII text", "")
}

/// Lines for people on a script that was refused at a line (fault 90), counted from 1: the piece of the line that is wrong and its column,
/// what was expected, and a line that is right. Nothing of a line that is not there, nor of one that is right.
///
/// At most three lines, each with two spaces at its beginning and a line feed at its end. It can fail only for lack of memory.
pub fn about_script(alloc: Global, bytes: &[u8], line: usize) -> Result<String, AllocError>
    ensures { IfOk result (λ text. AreFewNotes 3 (string_bytes text)) }
{
    let kind = kind_of(alloc, bytes);
    if is_other(kind) {
        return about_kind(alloc, kind);
    }
    if line == 1 && bytes.starts_with(BYTE_ORDER_MARK) {
        return about_byte_order_mark(alloc, "SCRIPT");
    }
    match text_or_line(bytes) {
        Ok(text) => about_line(alloc, text, line),
        Err(_) => about_bytes(alloc, bytes, line),
    }
}
