//! Of a file of journals: its line that is wrong, or the line of an entry that is not legal.

ghost use Rattle.std.specs.Prelude.{string_bytes, IfOk};
ghost use Rattle.mistakes.specs.Notes.{AreFewNotes};

use crate::kinds::{FileKind, kind_of, name_of};
use crate::notes::notes_of;
use crate::quoting::quoted;
use crate::scripts::{BYTE_ORDER_MARK, about_byte_order_mark, line_at};
use crate::spacing::{LineMistake, Mark, mark_mistake, outer_space};
use ebpf_decode::{MapDef, MapKind};
use std::alloc::{AllocError, Global};
use text_lines::{cut, text_or_line};

/// What the first line has to be.
const HEADER: &str =
    "expected XLBJ 1 <workers> <shards> <journal>, options that open the image's maps";

/// What the other lines have to be.
const ENTRY: &str =
    "expected an entry of a shard of the image's maps, not of an earlier shard than the line above";

/// The marks that no line has.
#[rattlefmt::skip]
const MARKS: [Mark; 3] = [
    ("\t", "a tab",                                     "one space between words"),
    ("  ", "two spaces",                                "one space between words"),
    ("\r", "a carriage return, as lines end on Windows", "a line feed alone: tr -d '\\r' < JOURNALS > NEW takes carriage returns away"),
];

/// The first word of the header.
const MAGIC: &str = "XLBJ";

/// The mistake of the line's first letter in upper case, behind the header's first word.
fn upper_case(line: &str) -> Option<LineMistake<'_>> {
    let rest = line.strip_prefix(MAGIC).unwrap_or(line);
    let before = rest.find(|letter: char| letter.is_ascii_uppercase())?;
    let (piece, _) = cut(rest.get(before..)?, ' ');
    Some(LineMistake {
        before: line.len().saturating_sub(rest.len()).saturating_add(before),
        piece,
        what: "in upper case",
        expected: "lower case, in words and in hexadecimal digits",
    })
}

/// The mistake in the line's spaces or in its case, if there is one.
fn mistake_in(line: &str) -> Option<LineMistake<'_>> {
    if let Some(mistake) = mark_mistake(line, &MARKS) {
        return Some(mistake);
    }
    match outer_space(line, "the number of a shard") {
        Some(mistake) => Some(mistake),
        None => upper_case(line),
    }
}

/// The lines on a mistake.
fn about_mistake(alloc: Global, line: usize, mistake: LineMistake<'_>) -> Result<String, AllocError>
    ensures { IfOk result (λ text. AreFewNotes 3 (string_bytes text)) }
{
    let column = mistake.before.saturating_add(1);
    let piece = quoted(alloc, mistake.piece.as_bytes())?;
    let wrong = format!(in alloc; "line {line}, column {column}: {piece}: {}", mistake.what)?;
    let expected = format!(in alloc; "expected {}", mistake.expected)?;
    notes_of(alloc, wrong.as_str(), expected.as_str(), "")
}

/// The line of a number, between quotes.
fn shown_line(alloc: Global, line: usize, text: &str) -> Result<String, AllocError> {
    let shown = quoted(alloc, text.as_bytes())?;
    format!(in alloc; "line {line}: {shown}")
}

/// The lines on a line that is no header and no entry.
fn about_line(alloc: Global, text: &str, line: usize) -> Result<String, AllocError>
    ensures { IfOk result (λ text. AreFewNotes 3 (string_bytes text)) }
{
    let Some((_, found, is_ended)) = line_at(text, line) else {
        return notes_of(alloc, "", "", "");
    };
    if (line > 1 || found.starts_with(MAGIC))
        && let Some(mistake) = mistake_in(found)
    {
        return about_mistake(alloc, line, mistake);
    }
    let wrong = shown_line(alloc, line, found)?;
    if !is_ended {
        return notes_of(
            alloc,
            wrong.as_str(),
            "expected a line feed after each line, the last one too",
            "",
        );
    }
    if line == 1 {
        return notes_of(
            alloc,
            wrong.as_str(),
            HEADER,
            "for example: XLBJ 1 8 1 65536",
        );
    }
    notes_of(
        alloc,
        wrong.as_str(),
        ENTRY,
        "for example: 0 w0 lookup 07000000 cell 0, where keys have 4 bytes; IMAGE has to be the one that was run",
    )
}

/// The lines on bytes that are no text.
fn about_bytes(alloc: Global, line: usize) -> Result<String, AllocError>
    ensures { IfOk result (λ text. AreFewNotes 3 (string_bytes text)) }
{
    let wrong = format!(in alloc; "line {line} has a byte that is not UTF-8")?;
    notes_of(alloc, wrong.as_str(), "expected plain ASCII text", "")
}

/// Lines for people on a file of journals that was refused at a line (fault 55), counted from 1: what the file is, if it is another one;
/// else the line, and what was expected.
///
/// At most three lines, each with two spaces at its beginning and a line feed at its end. It can fail only for lack of memory.
pub fn about_journals(alloc: Global, bytes: &[u8], line: usize) -> Result<String, AllocError>
    ensures { IfOk result (λ text. AreFewNotes 3 (string_bytes text)) }
{
    let kind = kind_of(alloc, bytes);
    if kind != FileKind::Journals && kind != FileKind::Unknown && kind != FileKind::Text {
        return notes_of(
            alloc,
            name_of(kind),
            "expected journals, which xlb run and xlb replay write with --journals",
            "the journals come after the image on the command line: are two names swapped?",
        );
    }
    if line == 1 && bytes.starts_with(BYTE_ORDER_MARK) {
        return about_byte_order_mark(alloc, "JOURNALS");
    }
    match text_or_line(bytes) {
        Ok(text) => about_line(alloc, text, line),
        Err(_) => about_bytes(alloc, line),
    }
}

/// The number of a hexadecimal digit; 0 of another byte.
fn digit_of(byte: u8) -> u32 {
    if byte.is_ascii_digit() {
        u32::from(byte.saturating_sub(b'0'))
    } else if byte >= b'a' && byte <= b'f' {
        u32::from(byte.saturating_sub(b'a').saturating_add(10))
    } else {
        0
    }
}

/// The number of a key of four bytes, the low byte first.
fn index_of(key: &str) -> u32 {
    let mut index: u32 = 0;
    let mut scale: u32 = 16;
    for (place, digit) in key.bytes().enumerate() {
        index = index.wrapping_add(digit_of(digit).wrapping_mul(scale));
        scale = if place % 2 == 0 {
            scale.wrapping_div(16)
        } else {
            scale.wrapping_mul(4096)
        };
    }
    index
}

/// The element that an entry's line names, if its map is an array that has no such element.
fn missing_element(line: &str, map: &MapDef) -> Option<u32> {
    let (_, caller) = cut(line, ' ');
    let (_, call) = cut(caller, ' ');
    let (name, behind) = cut(call, ' ');
    let (key, _) = cut(behind, ' ');
    let index = index_of(key);
    let has_key = name == "lookup" || name == "update" || name == "delete";
    if map.kind == MapKind::Array && has_key && key.len() == 8 && index >= map.max_entries {
        Some(index)
    } else {
        None
    }
}

/// The lines on an entry of a map that has no such element.
fn about_other_map(
    alloc: Global,
    entry: &str,
    index: u32,
    number: usize,
    map: &MapDef,
) -> Result<String, AllocError>
    ensures { IfOk result (λ text. AreFewNotes 3 (string_bytes text)) }
{
    let entries = map.max_entries;
    let why = format!(in alloc;
        "the entry is of element {index}, and map {number} of this image has {entries} elements: the journals are not those of its maps"
    )?;
    notes_of(
        alloc,
        entry,
        why.as_str(),
        "expected the image that was run: xlb shipped --ring N --flows N OUT writes the shipped program for the sizes of the replay",
    )
}

/// Lines for people on a file of journals that has an entry on this line, counted from 1, that is not legal (fault 53). The entry is one of
/// the map of this number, counted from 0, in the list of maps.
///
/// At most three lines, each with two spaces at its beginning and a line feed at its end. It can fail only for lack of memory.
pub fn about_entry(
    alloc: Global,
    bytes: &[u8],
    line: usize,
    number: usize,
    maps: &[MapDef],
) -> Result<String, AllocError>
    ensures { IfOk result (λ text. AreFewNotes 3 (string_bytes text)) }
{
    let found = match text_or_line(bytes) {
        Ok(text) => line_at(text, line),
        Err(_) => None,
    };
    let Some((_, found, _)) = found else {
        return notes_of(alloc, "", "", "");
    };
    let wrong = shown_line(alloc, line, found)?;
    if let Some(map) = maps.get(number)
        && let Some(index) = missing_element(found, map)
    {
        return about_other_map(alloc, wrong.as_str(), index, number, map);
    }
    notes_of(
        alloc,
        wrong.as_str(),
        "after the entries above it the journal is full, a map on one thread returns another reply, or this caller may not make this call",
        "",
    )
}
