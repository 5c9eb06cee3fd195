//! Options, and files of journals.

use crate::asserting::same_text;
use ebpf_decode::{MapDef, MapKind};
use mistakes::{about_entry, about_flows, about_journals, about_options, about_ring, about_worker};
use semantics::Options;
use std::alloc::Global;
use std::process::Abort;

/// What a row shows, the workers, shards and journal, and what is said.
type OptionsRow = (&'static str, u32, u32, u32, &'static str);

/// Two maps, of 256 and of 6 entries.
static MAPS: [MapDef; 2] = [
    MapDef {
        kind: MapKind::Hash,
        key_size: 4,
        value_size: 8,
        max_entries: 256,
    },
    MapDef {
        kind: MapKind::Array,
        key_size: 4,
        value_size: 8,
        max_entries: 6,
    },
];

#[rattlefmt::skip]
const OPTIONS: [OptionsRow; 11] = [
    ("no worker",              0, 1,      16, "  --workers 0\n  expected 1 to 8\n"),
    ("nine workers",           9, 1,      16, "  --workers 9\n  expected 1 to 8\n"),
    ("no shard",               1, 0,      16, "  --shards 0\n  expected 1, 2, 4 or 8\n"),
    ("three shards",           8, 3,      16, "  --shards 3\n  expected 1, 2, 4 or 8\n"),
    ("sixteen shards",         8, 16,     16, "  --shards 16\n  expected 1, 2, 4 or 8\n"),
    ("a journal of 15",        1, 1,      15, "  --journal 15\n  expected 16 to 1048576\n"),
    ("a journal above 2^20",   1, 1, 1048577, "  --journal 1048577\n  expected 16 to 1048576\n"),
    ("6 entries in 4 parts",   1, 4,      16,
        "  --shards 4: map 1 has 6 entries\n  expected a number of shards that divides the entries of each map\n"),
    ("and in 8",               1, 8, 1048576,
        "  --shards 8: map 1 has 6 entries\n  expected a number of shards that divides the entries of each map\n"),
    ("the first that is wrong", 9, 3,      0, "  --workers 9\n  expected 1 to 8\n"),
    ("options that are right", 8, 2,      16,
        "  --script: the program has other maps than those that a script's commands change\n  \
         expected the shipped program, or with --program one that has its maps (docs/STEERING.md)\n"),
];

fn options_are_said(rt: &impl Abort, alloc: Global, rows: &[OptionsRow]) {
    for (name, workers, shards, journal, wanted) in rows {
        let options = Options {
            workers: *workers,
            shards: *shards,
            journal: *journal,
        };
        let said = about_options(alloc, options, &MAPS).expect(rt, "a text");
        same_text(rt, *name, said.as_str(), *wanted);
    }
}

#[test]
fn options_that_open_no_maps(rt: HostRuntime) {
    options_are_said(&rt, rt.alloc(), &OPTIONS);
}

#[test]
fn no_such_worker(rt: HostRuntime) {
    let said = about_worker(rt.alloc(), 8).expect(&rt, "a text");
    same_text(
        &rt,
        "worker 8",
        said.as_str(),
        "  --worker 8\n  expected 0 to 7\n",
    );
}

/// What a row shows, a number of slots, and what is said.
type RingRow = (&'static str, u32, &'static str);

#[rattlefmt::skip]
const RINGS: [RingRow; 5] = [
    ("no slot", 0, "  --ring 0\n  expected the number of slots of a lookup table: 7, 251, 4093 or 65537\n  the next larger one is 7\n"),
    ("between two sizes", 8,
        "  --ring 8\n  expected the number of slots of a lookup table: 7, 251, 4093 or 65537\n  the next larger one is 251\n"),
    ("one more than a size", 252,
        "  --ring 252\n  expected the number of slots of a lookup table: 7, 251, 4093 or 65537\n  the next larger one is 4093\n"),
    ("2^16", 65536,
        "  --ring 65536\n  expected the number of slots of a lookup table: 7, 251, 4093 or 65537\n  the next larger one is 65537\n"),
    ("above all", u32::MAX,
        "  --ring 4294967295\n  expected the number of slots of a lookup table: 7, 251, 4093 or 65537\n  the largest one is 65537\n"),
];

fn rings_are_said(rt: &impl Abort, alloc: Global, rows: &[RingRow]) {
    for (name, ring, wanted) in rows {
        let said = about_ring(alloc, *ring).expect(rt, "a text");
        same_text(rt, *name, said.as_str(), *wanted);
    }
}

#[test]
fn no_such_ring(rt: HostRuntime) {
    rings_are_said(&rt, rt.alloc(), &RINGS);
}

#[rattlefmt::skip]
const NO_NOTES: [RingRow; 3] = [
    ("no note", 0,
        "  --flows 0\n  expected the number of notes of a flow table: 4096, 8192, 16384, 32768, 65536 or 131072\n  the next larger one is 4096\n"),
    ("between two numbers", 100000,
        "  --flows 100000\n  expected the number of notes of a flow table: 4096, 8192, 16384, 32768, 65536 or 131072\n  \
         the next larger one is 131072\n"),
    ("above all", 131073,
        "  --flows 131073\n  expected the number of notes of a flow table: 4096, 8192, 16384, 32768, 65536 or 131072\n  \
         the largest one is 131072\n"),
];

#[test]
fn no_such_flow_table(rt: HostRuntime) {
    for (name, notes, wanted) in &NO_NOTES {
        let said = about_flows(rt.alloc(), *notes).expect(&rt, "a text");
        same_text(&rt, *name, said.as_str(), *wanted);
    }
}

/// What a row shows, the file, the line at which it is refused, and what is said.
type Row = (&'static str, &'static [u8], usize, &'static str);

#[rattlefmt::skip]
const JOURNALS: [Row; 18] = [
    ("no bytes", b"", 1,
        "  the file is empty\n  expected journals, which xlb run and xlb replay write with --journals\n  \
         the journals come after the image on the command line: are two names swapped?\n"),
    ("an image", b"XLBP\x01\x00\x00\x00", 1,
        "  the file is an image\n  expected journals, which xlb run and xlb replay write with --journals\n  \
         the journals come after the image on the command line: are two names swapped?\n"),
    ("a text of an image", b"version 1\nexit\n", 1,
        "  the file is the text of an image\n  expected journals, which xlb run and xlb replay write with --journals\n  \
         the journals come after the image on the command line: are two names swapped?\n"),
    ("nine workers", b"XLBJ 1 9 1 16\n", 1,
        "  line 1: \"XLBJ 1 9 1 16\"\n  expected XLBJ 1 <workers> <shards> <journal>, options that open the image's maps\n  for example: XLBJ 1 8 1 65536\n"),
    ("a header of another version", b"XLBJ 2 1 1 16\n0 w0 enter ok\n", 1,
        "  line 1: \"XLBJ 2 1 1 16\"\n  expected XLBJ 1 <workers> <shards> <journal>, options that open the image's maps\n  for example: XLBJ 1 8 1 65536\n"),
    ("another word", b"XLBJ 1 1 1 16\n0 w0 enter ok\n0 w0 leaves ok\n", 3,
        "  line 3: \"0 w0 leaves ok\"\n  expected an entry of a shard of the image's maps, not of an earlier shard than the line above\n  \
         for example: 0 w0 lookup 07000000 cell 0, where keys have 4 bytes; IMAGE has to be the one that was run\n"),
    ("an empty line", b"XLBJ 1 1 1 16\n\n", 2,
        "  line 2: \"\"\n  expected an entry of a shard of the image's maps, not of an earlier shard than the line above\n  \
         for example: 0 w0 lookup 07000000 cell 0, where keys have 4 bytes; IMAGE has to be the one that was run\n"),
    ("no line feed at the end", b"XLBJ 1 1 1 16\n0 w0 enter ok", 2,
        "  line 2: \"0 w0 enter ok\"\n  expected a line feed after each line, the last one too\n"),
    ("a byte that is no text", b"XLBJ 1 1 1 16\n0 w0 \xff\n", 2, "  line 2 has a byte that is not UTF-8\n  expected plain ASCII text\n"),
    ("a byte order mark", b"\xef\xbb\xbfXLBJ 1 1 1 16\n", 1,
        "  line 1, column 1: the file begins with a byte order mark, the bytes ef bb bf\n  \
         expected plain ASCII text: tail -c +4 JOURNALS > NEW takes the mark away\n"),
    ("another text", b"Some  text\n", 1,
        "  line 1: \"Some  text\"\n  expected XLBJ 1 <workers> <shards> <journal>, options that open the image's maps\n  for example: XLBJ 1 8 1 65536\n"),
    ("two spaces", b"XLBJ 1 1 1 16\n0 w0  enter ok\n", 2,
        "  line 2, column 5: \"  \": two spaces\n  expected one space between words\n"),
    ("a line that ends as on Windows", b"XLBJ 1 1 1 16\r\n0 w0 enter ok\r\n", 1,
        "  line 1, column 14: \"\\r\": a carriage return, as lines end on Windows\n  \
         expected a line feed alone: tr -d '\\r' < JOURNALS > NEW takes carriage returns away\n"),
    ("digits in upper case", b"XLBJ 1 1 1 16\n0 w0 lookup 0A000000 null\n", 2,
        "  line 2, column 14: \"A000000\": in upper case\n  expected lower case, in words and in hexadecimal digits\n"),
    ("a caller in upper case", b"XLBJ 1 1 1 16\n0 W0 enter ok\n", 2,
        "  line 2, column 3: \"W0\": in upper case\n  expected lower case, in words and in hexadecimal digits\n"),
    ("a space at the end", b"XLBJ 1 1 1 16 \n", 1,
        "  line 1, column 14: \" \": a space at the line's end\n  expected a line feed right after the last word\n"),
    ("a tab", b"XLBJ 1 1 1 16\n0\tw0 enter ok\n", 2,
        "  line 2, column 2: \"\\t\": a tab\n  expected one space between words\n"),
    ("a line that is not there", b"XLBJ 1 1 1 16\n", 2, ""),
];

fn journals_are_said(rt: &impl Abort, alloc: Global, rows: &[Row]) {
    for (name, bytes, line, wanted) in rows {
        let said = about_journals(alloc, *bytes, *line).expect(rt, "a text");
        same_text(rt, *name, said.as_str(), *wanted);
    }
}

#[test]
fn no_journals(rt: HostRuntime) {
    journals_are_said(&rt, rt.alloc(), &JOURNALS);
}

/// What a row shows, the file, the line of its entry, the number of its map, and what is said.
type JournalEntryRow = (&'static str, &'static [u8], usize, usize, &'static str);

#[rattlefmt::skip]
const ENTRIES: [JournalEntryRow; 10] = [
    ("the second entry", b"XLBJ 1 1 1 16\n0 w0 enter ok\n0 w0 load 0 0 8 word 1\n", 3, 1,
        "  line 3: \"0 w0 load 0 0 8 word 1\"\n  \
         after the entries above it the journal is full, a map on one thread returns another reply, or this caller may not make this call\n"),
    ("a line that is not there", b"XLBJ 1 1 1 16\n", 2, 1, ""),
    ("no text", b"\xff\n", 1, 1, ""),
    ("the element behind the last one", b"1 c update 06000000 0100000000000000 0 answer 0\n", 1, 1,
        "  line 1: \"1 c update 06000000 0100000000000000 0 a...\"\n  \
         the entry is of element 6, and map 1 of this image has 6 elements: the journals are not those of its maps\n  \
         expected the image that was run: xlb shipped --ring N --flows N OUT writes the shipped program for the sizes of the replay\n"),
    ("an element of four bytes", b"1 w0 lookup fedcba98 cell 1\n", 1, 1,
        "  line 1: \"1 w0 lookup fedcba98 cell 1\"\n  \
         the entry is of element 2562383102, and map 1 of this image has 6 elements: the journals are not those of its maps\n  \
         expected the image that was run: xlb shipped --ring N --flows N OUT writes the shipped program for the sizes of the replay\n"),
    ("the last element", b"1 w0 lookup 05000000 null\n", 1, 1,
        "  line 1: \"1 w0 lookup 05000000 null\"\n  \
         after the entries above it the journal is full, a map on one thread returns another reply, or this caller may not make this call\n"),
    ("a key of a hash map", b"0 w0 lookup ffffffff cell 1\n", 1, 0,
        "  line 1: \"0 w0 lookup ffffffff cell 1\"\n  \
         after the entries above it the journal is full, a map on one thread returns another reply, or this caller may not make this call\n"),
    ("a map that is not there", b"2 w0 lookup ffffffff cell 1\n", 1, 2,
        "  line 1: \"2 w0 lookup ffffffff cell 1\"\n  \
         after the entries above it the journal is full, a map on one thread returns another reply, or this caller may not make this call\n"),
    ("a key of eight bytes", b"1 w0 lookup ffffffffffffffff cell 1\n", 1, 1,
        "  line 1: \"1 w0 lookup ffffffffffffffff cell 1\"\n  \
         after the entries above it the journal is full, a map on one thread returns another reply, or this caller may not make this call\n"),
    ("a store of many cells", b"1 w0 store ffffffff 0 8 1 ok\n", 1, 1,
        "  line 1: \"1 w0 store ffffffff 0 8 1 ok\"\n  \
         after the entries above it the journal is full, a map on one thread returns another reply, or this caller may not make this call\n"),
];

fn entries_are_said(rt: &impl Abort, alloc: Global, rows: &[JournalEntryRow]) {
    for (name, bytes, line, map, wanted) in rows {
        let said = about_entry(alloc, *bytes, *line, *map, &MAPS).expect(rt, "a text");
        same_text(rt, *name, said.as_str(), *wanted);
    }
}

#[test]
fn entries_that_are_not_legal(rt: HostRuntime) {
    entries_are_said(&rt, rt.alloc(), &ENTRIES);
}
