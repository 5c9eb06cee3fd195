//! Of options that open no maps: which of them, and what it may be.

ghost use Rattle.std.specs.Prelude.{string_bytes, IfOk};
ghost use Rattle.mistakes.specs.Notes.{AreFewNotes};

use crate::notes::notes_of;
use conntrack::NOTE_COUNTS;
use ebpf_decode::MapDef;
use maglev::RING_SIZES;
use semantics::{LEAST_ENTRIES, MOST_ENTRIES, MOST_WORKERS, Options};
use std::alloc::{AllocError, Global};

/// The lines on the number of an option.
fn about_number(
    alloc: Global,
    option: &str,
    number: u32,
    expected: &str,
) -> Result<String, AllocError>
    ensures { IfOk result (λ text. AreFewNotes 3 (string_bytes text)) }
{
    let wrong = format!(in alloc; "--{option} {number}")?;
    notes_of(alloc, wrong.as_str(), expected, "")
}

/// The first map whose entries are not divided by a number of shards, and its entries.
fn uneven(maps: &[MapDef], shards: u32) -> Option<(usize, u32)> {
    for (number, map) in maps.iter().enumerate() {
        if map.max_entries.checked_rem(shards) != Some(0) {
            return Some((number, map.max_entries));
        }
    }
    None
}

/// The lines on maps that such a number of shards does not divide; or else on a script whose commands have no maps.
fn about_maps(alloc: Global, shards: u32, maps: &[MapDef]) -> Result<String, AllocError>
    ensures { IfOk result (λ text. AreFewNotes 3 (string_bytes text)) }
{
    let Some((map, entries)) = uneven(maps, shards) else {
        return notes_of(
            alloc,
            "--script: the program has other maps than those that a script's commands change",
            "expected the shipped program, or with --program one that has its maps (docs/STEERING.md)",
            "",
        );
    };
    let wrong = format!(in alloc; "--shards {shards}: map {map} has {entries} entries")?;
    notes_of(
        alloc,
        wrong.as_str(),
        "expected a number of shards that divides the entries of each map",
        "",
    )
}

/// Lines for people on options with which a replay over these maps was refused (fault 51): the first option that is wrong, and what it may
/// be. Where none is, the maps are not those that the commands of a script change.
///
/// At most three lines, each with two spaces at its beginning and a line feed at its end. It can fail only for lack of memory.
pub fn about_options(alloc: Global, options: Options, maps: &[MapDef]) -> Result<String, AllocError>
    ensures { IfOk result (λ text. AreFewNotes 3 (string_bytes text)) }
{
    let Options {
        workers,
        shards,
        journal,
    } = options;
    if workers < 1 || workers > MOST_WORKERS {
        return about_number(alloc, "workers", workers, "expected 1 to 8");
    }
    if shards != 1 && shards != 2 && shards != 4 && shards != 8 {
        return about_number(alloc, "shards", shards, "expected 1, 2, 4 or 8");
    }
    if journal < LEAST_ENTRIES || journal > MOST_ENTRIES {
        return about_number(alloc, "journal", journal, "expected 16 to 1048576");
    }
    about_maps(alloc, shards, maps)
}

/// Lines for people on a worker that there is not (fault 51 of a run).
///
/// At most three lines, each with two spaces at its beginning and a line feed at its end. It can fail only for lack of memory.
pub fn about_worker(alloc: Global, worker: u32) -> Result<String, AllocError>
    ensures { IfOk result (λ text. AreFewNotes 3 (string_bytes text)) }
{
    about_number(alloc, "worker", worker, "expected 0 to 7")
}

/// The first of these numbers, which rise, that is larger than this one.
fn next_of(numbers: &[u32], number: u32) -> Option<u32> {
    for next in numbers {
        if *next > number {
            return Some(*next);
        }
    }
    None
}

/// Lines for people on a number of slots that no lookup table has (fault 73): which numbers there are, and the next larger one.
///
/// At most three lines, each with two spaces at its beginning and a line feed at its end. It can fail only for lack of memory.
pub fn about_ring(alloc: Global, ring: u32) -> Result<String, AllocError>
    ensures { IfOk result (λ text. AreFewNotes 3 (string_bytes text)) }
{
    let wrong = format!(in alloc; "--ring {ring}")?;
    let next = match next_of(&RING_SIZES, ring) {
        Some(size) => format!(in alloc; "the next larger one is {size}")?,
        None => String::from_str(alloc, "the largest one is 65537")?,
    };
    notes_of(
        alloc,
        wrong.as_str(),
        "expected the number of slots of a lookup table: 7, 251, 4093 or 65537",
        next.as_str(),
    )
}

/// Lines for people on a number of notes that no flow table has (fault 73): which numbers there are, and the next larger one.
///
/// At most three lines, each with two spaces at its beginning and a line feed at its end. It can fail only for lack of memory.
pub fn about_flows(alloc: Global, flows: u32) -> Result<String, AllocError>
    ensures { IfOk result (λ text. AreFewNotes 3 (string_bytes text)) }
{
    let wrong = format!(in alloc; "--flows {flows}")?;
    let next = match next_of(&NOTE_COUNTS, flows) {
        Some(count) => format!(in alloc; "the next larger one is {count}")?,
        None => String::from_str(alloc, "the largest one is 131072")?,
    };
    notes_of(
        alloc,
        wrong.as_str(),
        "expected the number of notes of a flow table: 4096, 8192, 16384, 32768, 65536 or 131072",
        next.as_str(),
    )
}
