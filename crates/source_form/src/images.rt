//! Which line of a source no image has, in words.

use crate::slot_notes::line_of_slot;
use crate::words::{first_word, words_of};
use ebpf_decode::DecodeFault;
use std::alloc::{AllocError, Global};

/// The line, counted from 1, on which the map of a number is.
fn line_of_map(statements: &[&str], map: usize) -> usize {
    let mut line = 0usize;
    let mut before = 0usize;
    'lines: for statement in statements {
        line = line.saturating_add(1);
        if first_word(words_of(*statement)) == "map" {
            if before >= map {
                return line;
            }
            before = before.saturating_add(1);
        }
    }
    line
}

/// What no image has, and on which line; nothing of the other faults, since a source has no bytes to be wrong.
pub(crate) fn image_note(
    alloc: Global,
    statements: &[&str],
    why: DecodeFault,
) -> Result<String, AllocError> {
    match why {
        DecodeFault::BadHead => {
            let line = line_of_map(statements, 16);
            format!(in alloc; "line {line}: an image has at most 16 maps")
        }
        DecodeFault::BadMap { map } => {
            let line = line_of_map(statements, map as usize);
            format!(in alloc; "line {line}: map {map} has a size that no such map may have")
        }
        DecodeFault::Empty => String::from_str(alloc, "there is no instruction"),
        DecodeFault::TooLong => {
            let line = line_of_slot(statements, 4096);
            format!(in alloc; "line {line}: an image has at most 4096 slots")
        }
        DecodeFault::NotInProfile { slot } => {
            let line = line_of_slot(statements, slot as u128);
            format!(in alloc;
                "line {line}, slot {slot}: images of this version have no such instruction"
            )
        }
        _ => Ok(String::new(alloc)),
    }
}
