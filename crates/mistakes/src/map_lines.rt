//! Of a map's line that no image has: which of its numbers is wrong.

ghost use Rattle.std.specs.Prelude.{string_bytes, IfOk};
ghost use Rattle.mistakes.specs.Notes.{AreFewNotes};

use crate::images::wrong_number;
use crate::notes::notes_of;
use std::alloc::{AllocError, Global};
use text_lines::{count_of, cut};

/// The line without its comment and its label, and without white space around the rest.
fn statement(line: &str) -> &str {
    let (words, _) = cut(line, '#');
    match words.split_once(':') {
        Some((_, behind)) => behind.trim(),
        None => words.trim(),
    }
}

/// The number of a version's line.
fn version_in(text: &str) -> u8 {
    for line in text.split('\n') {
        if statement(line) == "version 2" {
            return 2;
        }
    }
    1
}

/// The line, counted from 1, of the map of a number, and what is behind its first word.
fn map_at(text: &str, map: u32) -> Option<(usize, &str)> {
    let mut number = 0usize;
    let mut before = 0u32;
    for line in text.split('\n') {
        number = number.saturating_add(1);
        if let Some(rest) = statement(line).strip_prefix("map ") {
            if before == map {
                return Some((number, rest));
            }
            before = before.saturating_add(1);
        }
    }
    None
}

/// The number of a kind in an image's file.
fn kind_number(name: &str) -> u32 {
    match name {
        "hash" => 1,
        "array" => 2,
        "lru" => 9,
        _ => 0,
    }
}

/// Lines for people on a text or a source with a map that no image may have (fault 11), by the map's number, counted from 0: the line,
/// which of its numbers is wrong, and what is allowed.
///
/// At most three lines, each with two spaces at its beginning and a line feed at its end. It can fail only for lack of memory.
pub fn about_map_line(alloc: Global, text: &str, map: u32) -> Result<String, AllocError>
    ensures { IfOk result (λ text. AreFewNotes 3 (string_bytes text)) }
{
    let Some((line, words)) = map_at(text, map) else {
        return notes_of(alloc, "", "", "");
    };
    let (kind, sizes) = cut(words, ' ');
    let (key, later) = cut(sizes, ' ');
    let (value, entries) = cut(later, ' ');
    let (wrong, allowed) = wrong_number(
        alloc,
        version_in(text),
        kind_number(kind),
        count_of(key),
        count_of(value),
        count_of(entries),
    )?;
    let which = format!(in alloc; "line {line}, map {map}: {wrong}")?;
    notes_of(alloc, which.as_str(), allowed, "")
}
