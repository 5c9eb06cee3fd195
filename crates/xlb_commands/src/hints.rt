//! Lines for people below a fault's line: what the file is, and where it is wrong.

use crate::printable::in_lines;
use audit::AuditFault;
use conntrack::is_note_count;
use control::ControlFault;
use ebpf_decode::image::MAGIC;
use ebpf_decode::{DecodeFault, MapDef};
use journals::{FileFault, Journals};
use maglev::is_ring_size;
use mistakes::{
    about_entry, about_flows, about_frame, about_image, about_journals, about_map, about_map_line,
    about_options, about_ring, about_script, about_text_as_frame, about_worker,
};
use replay::ReplayFault;
use semantics::Options;
use source_form::{SourceFault, assemble_source, explain, slot_note};
use std::alloc::{AllocError, Global};
use verifier::Reject;
use wire::FrameFault;

/// A note in words, or none.
fn note(alloc: Global, words: &str) -> Result<Option<String>, AllocError> {
    Ok(Some(String::from_str(alloc, words)?))
}

/// Of bytes that are no image.
pub(crate) fn of_image(
    alloc: Global,
    bytes: &[u8],
    fault: DecodeFault,
) -> Result<Option<String>, AllocError> {
    match fault {
        DecodeFault::BadHead => Ok(Some(about_image(alloc, bytes)?)),
        DecodeFault::BadMap { map } => Ok(Some(about_map(alloc, bytes, map)?)),
        _ => Ok(None),
    }
}

/// Of bytes that are no frame.
pub(crate) fn of_frame(
    alloc: Global,
    bytes: &[u8],
    fault: FrameFault,
) -> Result<Option<String>, AllocError> {
    match fault {
        FrameFault::Memory => Ok(None),
        _ => Ok(Some(about_frame(alloc, bytes)?)),
    }
}

/// Of a frame's bytes that are a text.
pub(crate) fn of_text_as_frame(alloc: Global, bytes: &[u8]) -> Option<String> {
    about_text_as_frame(alloc, bytes).ok()
}

/// Of a lookup table of `ring` slots or a flow table of `flows` notes, if there is none of this size.
pub(crate) fn of_sizes(alloc: Global, flows: u32, ring: u32) -> Result<Option<String>, AllocError> {
    if is_note_count(flows) {
        of_ring(alloc, ring)
    } else {
        Ok(Some(about_flows(alloc, flows)?))
    }
}

/// Of a lookup table of `ring` slots, if there is none of this size.
pub(crate) fn of_ring(alloc: Global, ring: u32) -> Result<Option<String>, AllocError> {
    if is_ring_size(ring) {
        Ok(None)
    } else {
        Ok(Some(about_ring(alloc, ring)?))
    }
}

/// Of bytes that are no script.
pub(crate) fn of_script(
    alloc: Global,
    bytes: &[u8],
    fault: ControlFault,
) -> Result<Option<String>, AllocError> {
    match fault {
        ControlFault::BadLine { line } => Ok(Some(about_script(alloc, bytes, line)?)),
        _ => Ok(None),
    }
}

/// Of bytes that are no journals of an image's maps.
pub(crate) fn of_journals(
    alloc: Global,
    bytes: &[u8],
    fault: FileFault,
) -> Result<Option<String>, AllocError> {
    match fault {
        FileFault::BadJournalFile { line } => Ok(Some(about_journals(alloc, bytes, line)?)),
        _ => Ok(None),
    }
}

/// Of the bytes of journals that are not legal.
pub(crate) fn of_audit(
    alloc: Global,
    bytes: &[u8],
    journals: &Journals,
    fault: AuditFault,
) -> Result<Option<String>, AllocError> {
    match fault {
        AuditFault::Illegal { shard, place } => {
            let line = line_of_entry(journals, shard, place);
            let map = shard
                .checked_div(journals.options().shards as usize)
                .unwrap_or(0);
            Ok(Some(about_entry(alloc, bytes, line, map, journals.maps())?))
        }
        _ => Ok(None),
    }
}

/// The line of an entry in the file of these journals: behind the header, and the entries of the shards before its own.
fn line_of_entry(journals: &Journals, shard: usize, place: usize) -> usize {
    let mut line = place.saturating_add(2);
    'shards: for number in 0..journals.count() {
        if number < shard {
            line = line.saturating_add(journals.len(number));
        }
    }
    line
}

/// Of a replay that was given up.
pub(crate) fn of_replay(
    alloc: Global,
    options: Options,
    maps: &[MapDef],
    fault: ReplayFault,
) -> Result<Option<String>, AllocError> {
    match fault {
        ReplayFault::BadOptions => Ok(Some(about_options(alloc, options, maps)?)),
        ReplayFault::Refused { place, .. } => Ok(Some(update_note(alloc, place)?)),
        ReplayFault::Full { place } => Ok(Some(update_note(alloc, place)?)),
        _ => Ok(None),
    }
}

/// Which update of the command line it was, counted from 1.
pub(crate) fn update_note(alloc: Global, place: usize) -> Result<String, AllocError> {
    let number = place as u128 + 1;
    format!(in alloc; "update {number} of the command line")
}

/// Of a worker that there is not.
pub(crate) fn of_worker(alloc: Global, worker: u32) -> Result<Option<String>, AllocError> {
    Ok(Some(about_worker(alloc, worker)?))
}

/// Of bytes that are no exact text, because of this line.
pub(crate) fn of_text(
    alloc: Global,
    bytes: &[u8],
    line: usize,
) -> Result<Option<String>, AllocError> {
    if bytes.starts_with(&MAGIC) {
        return note(
            alloc,
            "TEXT begins as an image does: 'xlb disasm' makes a text of it",
        );
    }
    match str::from_utf8(bytes) {
        Ok(text) => of_source(alloc, text, line),
        Err(_) => Ok(None),
    }
}

/// Whether the line of a number, counted from 1, ends as lines end on Windows.
fn has_carriage_return(text: &str, line: usize) -> bool {
    let mut number = 0usize;
    for found in text.split('\n') {
        number = number.saturating_add(1);
        if number == line {
            return found.ends_with("\r");
        }
    }
    false
}

/// Of a text that is right in the source form alone.
fn of_source_form(alloc: Global, text: &str, exact: usize) -> Result<Option<String>, AllocError> {
    if has_carriage_return(text, exact) {
        return note(
            alloc,
            "a carriage return ends the line, as on Windows: 'xlb asm --source' reads such lines, and tr -d '\\r' < TEXT > NEW takes it away",
        );
    }
    note(
        alloc,
        "TEXT is in the source form: 'xlb asm --source' makes an image of it",
    )
}

/// What is wrong with a source, with escapes for what a terminal would not show.
fn explained(
    alloc: Global,
    source: &str,
    fault: SourceFault,
) -> Result<Option<String>, AllocError> {
    let line = explain(alloc, source, fault)?;
    Ok(Some(in_lines(alloc, line.as_str())?))
}

/// Of a text that is right in the source form, or whose line is wrong there too.
fn of_source(alloc: Global, text: &str, exact: usize) -> Result<Option<String>, AllocError> {
    match assemble_source(alloc, text) {
        Ok(_) | Err(SourceFault::Image(_)) => of_source_form(alloc, text, exact),
        Err(SourceFault::BadLine { line, problem }) if line == exact => {
            explained(alloc, text, SourceFault::BadLine { line, problem })
        }
        Err(_) => Ok(None),
    }
}

/// Of a source that means no image.
pub(crate) fn of_source_fault(
    alloc: Global,
    source: &str,
    fault: SourceFault,
) -> Result<Option<String>, AllocError> {
    match fault {
        SourceFault::Image(DecodeFault::BadMap { map }) => {
            Ok(Some(about_map_line(alloc, source, map)?))
        }
        SourceFault::Memory => Ok(None),
        _ => explained(alloc, source, fault),
    }
}

/// Of a program that may not run: where its instruction is in the source, if its file is one.
pub(crate) fn of_reject(
    alloc: Global,
    source: &[u8],
    reject: Reject,
) -> Result<Option<String>, AllocError> {
    match (reject.slot(), str::from_utf8(source)) {
        (Some(slot), Ok(text)) if !text.is_empty() => {
            let place = slot_note(alloc, text, slot)?;
            Ok(Some(in_lines(alloc, place.as_str())?))
        }
        _ => Ok(None),
    }
}

/// Of a program that may not run, where there is no source of it: what says why.
pub(crate) fn of_refused(alloc: Global, reject: Reject) -> Result<Option<String>, AllocError> {
    match reject.slot() {
        Some(_) => note(alloc, "  xlb check --explain IMAGE says why\n"),
        None => Ok(None),
    }
}

/// Of a program whose file may be a source: where its instruction is there, and behind it why the program may not run.
pub(crate) fn of_explained(
    alloc: Global,
    source: &[u8],
    reject: Reject,
    reasons: String,
) -> Result<Option<String>, AllocError> {
    match of_reject(alloc, source, reject)? {
        Some(place) => {
            let mut notes = place;
            notes.push_str(reasons.as_str())?;
            Ok(Some(notes))
        }
        None => Ok(Some(reasons)),
    }
}
