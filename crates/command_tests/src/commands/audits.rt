//! Files of journals, written by hand, and what an audit says of them.

use super::first_path::IMAGE;
use super::{LEGAL, Wanted, compare, over_text, put, put_digits, refused};
use folders::MemoryFolder;
use std::alloc::Global;
use std::process::Abort;
use std::sync::Wait;
use std::thread::Threads;

/// What a row shows, the image's map, the header's numbers, the entries, and what is printed: the entry that is not legal, and its line;
/// nothing where all are.
type Row = (
    &'static str,
    &'static str,
    &'static str,
    &'static str,
    &'static str,
    &'static str,
);

/// A worker updates a key, looks it up, adds to its value and reads it.
#[rattlefmt::skip]
const RUNS: [Row; 15] = [
    ("no entries",                    "hash 4 8 1",  "1 1 16", "", "", ""),
    ("an addition that was lost", "hash 4 8 1", "1 1 16",
        "0 w0 enter ok\n0 w0 update 07000000 0200000000000000 0 answer 0\n0 w0 lookup 07000000 cell 0\n0 w0 atomic 0 0 8 1 1 0 word 2\n\
         0 w0 load 0 0 8 word 2\n", "0 place 4", "line 6: \"0 w0 load 0 0 8 word 2\""),
    ("a store that is read", "array 4 8 2", "1 1 16",
        "0 w0 enter ok\n0 w0 lookup 01000000 cell 1\n0 w0 store 1 2 4 305419896 ok\n0 w0 load 1 0 8 word 20015998304256\n0 w0 load 1 3 1 word 86\n",
        "", ""),
    ("a store that is not read", "array 4 8 2", "1 1 16",
        "0 w0 enter ok\n0 w0 lookup 01000000 cell 1\n0 w0 store 1 2 4 305419896 ok\n0 w0 load 1 0 8 word 0\n", "0 place 3",
        "line 5: \"0 w0 load 1 0 8 word 0\""),
    ("exactly full", "hash 4 8 1", "1 1 16",
        "0 w0 enter ok\n0 w0 lookup 07000000 null\n0 w0 lookup 07000000 null\n0 w0 lookup 07000000 null\n0 w0 lookup 07000000 null\n\
         0 w0 lookup 07000000 null\n0 w0 lookup 07000000 null\n0 w0 lookup 07000000 null\n0 w0 lookup 07000000 null\n0 w0 lookup 07000000 null\n\
         0 w0 lookup 07000000 null\n0 w0 lookup 07000000 null\n0 w0 lookup 07000000 null\n0 w0 lookup 07000000 null\n0 w0 lookup 07000000 null\n\
         0 w0 leave ok\n", "", ""),
    ("worker 1 of two",               "hash 4 8 1",  "2 1 16", "0 w1 enter ok\n", "", ""),
    ("a lookup in no run",            "hash 4 8 1",  "1 1 16", "0 w0 lookup 07000000 null\n", "0 place 0",
        "line 2: \"0 w0 lookup 07000000 null\""),
    ("an update in no run", "hash 4 8 1", "1 1 16", "0 w0 update 07000000 0200000000000000 0 answer 0\n", "0 place 0",
        "line 2: \"0 w0 update 07000000 0200000000000000 0 ...\""),
    ("a leave in no run",             "hash 4 8 1",  "1 1 16", "0 w0 leave ok\n", "0 place 0", "line 2: \"0 w0 leave ok\""),
    ("an enter in a run",             "hash 4 8 1",  "1 1 16", "0 w0 enter ok\n0 w0 enter ok\n", "0 place 1", "line 3: \"0 w0 enter ok\""),
    ("after a leave", "hash 4 8 1", "1 1 16", "0 w0 enter ok\n0 w0 leave ok\n0 w0 lookup 07000000 null\n", "0 place 2",
        "line 4: \"0 w0 lookup 07000000 null\""),
    ("the controller enters",         "hash 4 8 1",  "1 1 16", "0 c enter ok\n", "0 place 0", "line 2: \"0 c enter ok\""),
    ("the controller looks up",       "hash 4 8 1",  "1 1 16", "0 c lookup 07000000 null\n", "0 place 0",
        "line 2: \"0 c lookup 07000000 null\""),
    ("the reclaimer updates", "hash 4 8 1", "1 1 16", "0 r update 07000000 0200000000000000 0 answer 0\n", "0 place 0",
        "line 2: \"0 r update 07000000 0200000000000000 0 a...\""),
    ("the controller reclaims",       "hash 4 8 1",  "1 1 16", "0 c reclaim freed 0\n", "0 place 0", "line 2: \"0 c reclaim freed 0\""),
];

/// Keys that come and go, cells that wait for their readers, ids.
#[rattlefmt::skip]
const CELLS: [Row; 20] = [
    ("answers of one key's shard", "hash 4 8 1", "1 1 16",
        "0 c update 01000000 0200000000000000 0 answer 0\n0 c update 01000000 0200000000000000 1 answer -17\n\
         0 c update 02000000 0200000000000000 0 answer -7\n0 c update 02000000 0200000000000000 2 answer -2\n\
         0 c update 02000000 0200000000000000 3 answer -22\n0 c delete 01000000 answer 0\n0 c delete 01000000 answer -2\n", "", ""),
    ("another answer", "hash 4 8 1", "1 1 16",
        "0 c update 01000000 0200000000000000 0 answer 0\n0 c update 01000000 0200000000000000 1 answer 0\n",
        "0 place 1", "line 3: \"0 c update 01000000 0200000000000000 1 a...\""),
    ("cells run out", "hash 4 8 1", "1 1 16",
        "0 c update 01000000 0200000000000000 0 answer 0\n0 c delete 01000000 answer 0\n0 c update 02000000 0200000000000000 0 answer 0\n\
         0 c delete 02000000 answer 0\n0 c update 03000000 0200000000000000 0 answer -12\n0 r reclaim freed 2\n\
         0 c update 03000000 0200000000000000 0 answer 0\n", "", ""),
    ("a cell of the retired", "hash 4 8 1", "1 1 16",
        "0 c update 01000000 0200000000000000 0 answer 0\n0 c delete 01000000 answer 0\n0 c update 02000000 0200000000000000 0 answer 0\n\
         0 c delete 02000000 answer 0\n0 c update 03000000 0200000000000000 0 answer 0\n", "0 place 4",
        "line 6: \"0 c update 03000000 0200000000000000 0 a...\""),
    ("read through a delete", "hash 4 8 1", "1 1 16",
        "0 c update 01000000 0900000000000000 0 answer 0\n0 w0 enter ok\n0 w0 lookup 01000000 cell 0\n0 c delete 01000000 answer 0\n\
         0 r reclaim freed 0\n0 c update 02000000 0500000000000000 0 answer 0\n0 w0 load 0 0 8 word 9\n0 w0 leave ok\n0 r reclaim freed 1\n", "", ""),
    ("a held cell freed", "hash 4 8 1", "1 1 16",
        "0 c update 01000000 0900000000000000 0 answer 0\n0 w0 enter ok\n0 w0 lookup 01000000 cell 0\n0 c delete 01000000 answer 0\n\
         0 r reclaim freed 1\n", "0 place 4", "line 6: \"0 r reclaim freed 1\""),
    ("a cell that stays", "hash 4 8 1", "1 1 16",
        "0 c update 01000000 0900000000000000 0 answer 0\n0 c delete 01000000 answer 0\n0 r reclaim freed 0\n", "0 place 2",
        "line 4: \"0 r reclaim freed 0\""),
    ("a freed cell read", "hash 4 8 1", "1 1 16",
        "0 c update 01000000 0900000000000000 0 answer 0\n0 w0 enter ok\n0 w0 lookup 01000000 cell 0\n0 w0 leave ok\n0 c delete 01000000 answer 0\n\
         0 r reclaim freed 1\n0 w0 enter ok\n0 w0 load 0 0 8 word 9\n", "0 place 7", "line 9: \"0 w0 load 0 0 8 word 9\""),
    ("an id given again", "hash 4 8 1", "1 1 16",
        "0 c update 01000000 0900000000000000 0 answer 0\n0 c delete 01000000 answer 0\n0 r reclaim freed 1\n\
         0 c update 02000000 0900000000000000 0 answer 0\n0 w0 enter ok\n0 w0 lookup 02000000 cell 0\n", "0 place 5",
        "line 7: \"0 w0 lookup 02000000 cell 0\""),
    ("the next id", "hash 4 8 1", "1 1 16",
        "0 c update 01000000 0900000000000000 0 answer 0\n0 c delete 01000000 answer 0\n0 r reclaim freed 1\n\
         0 c update 02000000 0900000000000000 0 answer 0\n0 w0 enter ok\n0 w0 lookup 02000000 cell 1\n", "", ""),
    ("found out of nothing", "hash 4 8 1", "1 1 16", "0 w0 enter ok\n0 w0 lookup 01000000 cell 0\n", "0 place 1",
        "line 3: \"0 w0 lookup 01000000 cell 0\""),
    ("a key that is gone", "hash 4 8 1", "1 1 16",
        "0 c update 01000000 0900000000000000 0 answer 0\n0 c delete 01000000 answer 0\n0 w0 enter ok\n0 w0 lookup 01000000 cell 0\n", "0 place 3",
        "line 5: \"0 w0 lookup 01000000 cell 0\""),
    ("a key that is missed", "hash 4 8 1", "1 1 16",
        "0 c update 01000000 0900000000000000 0 answer 0\n0 w0 enter ok\n0 w0 lookup 01000000 null\n",
        "0 place 2", "line 4: \"0 w0 lookup 01000000 null\""),
    ("the oldest use is the victim", "lru 4 8 2", "1 1 16",
        "0 c update 01000000 0900000000000000 0 answer 0\n0 c update 02000000 0900000000000000 0 answer 0\n0 w0 enter ok\n\
         0 w0 lookup 01000000 cell 0\n0 c update 03000000 0900000000000000 0 answer 0\n0 w0 lookup 02000000 null\n0 w0 lookup 01000000 cell 0\n\
         0 w0 lookup 03000000 cell 2\n", "", ""),
    ("another victim", "lru 4 8 2", "1 1 16",
        "0 c update 01000000 0900000000000000 0 answer 0\n0 c update 02000000 0900000000000000 0 answer 0\n0 w0 enter ok\n\
         0 w0 lookup 01000000 cell 0\n0 c update 03000000 0900000000000000 0 answer 0\n0 w0 lookup 01000000 null\n", "0 place 5",
        "line 7: \"0 w0 lookup 01000000 null\""),
    ("no victim", "lru 4 8 2", "1 1 16",
        "0 c update 01000000 0900000000000000 0 answer 0\n0 c update 02000000 0900000000000000 0 answer 0\n0 w0 enter ok\n\
         0 w0 lookup 01000000 cell 0\n0 c update 03000000 0900000000000000 0 answer 0\n0 w0 lookup 02000000 cell 1\n", "0 place 5",
        "line 7: \"0 w0 lookup 02000000 cell 1\""),
    ("a cell of an earlier run", "array 4 8 2", "1 1 16",
        "0 w0 enter ok\n0 w0 lookup 01000000 cell 1\n0 w0 leave ok\n0 w0 enter ok\n0 w0 load 1 0 8 word 0\n", "0 place 4",
        "line 6: \"0 w0 load 1 0 8 word 0\""),
    ("a cell that another looked up", "array 4 8 2", "2 1 16",
        "0 w0 enter ok\n0 w1 enter ok\n0 w0 lookup 01000000 cell 1\n0 w1 load 1 0 8 word 0\n",
        "0 place 3", "line 5: \"0 w1 load 1 0 8 word 0\""),
    ("another cell", "array 4 8 2", "1 1 16", "0 w0 enter ok\n0 w0 lookup 01000000 cell 1\n0 w0 load 0 0 8 word 0\n", "0 place 2",
        "line 4: \"0 w0 load 0 0 8 word 0\""),
    ("an index past the last", "array 4 8 2", "1 1 16",
        "0 w0 enter ok\n0 w0 lookup 02000000 null\n0 w0 update 02000000 0900000000000000 0 answer -7\n0 w0 delete 01000000 answer -22\n", "", ""),
];

/// Numbers of the right form that no map serves, and shards of a map in parts.
#[rattlefmt::skip]
const NUMBERS: [Row; 15] = [
    ("a load off its alignment",      "array 4 8 1", "1 1 16",
        "0 w0 enter ok\n0 w0 lookup 00000000 cell 0\n0 w0 load 0 3 4 word 0\n", "", ""),
    ("three bytes", "array 4 8 1", "1 1 16", "0 w0 enter ok\n0 w0 lookup 00000000 cell 0\n0 w0 load 0 0 3 word 0\n", "0 place 2",
        "line 4: \"0 w0 load 0 0 3 word 0\""),
    ("past the value", "array 4 8 1", "1 1 16", "0 w0 enter ok\n0 w0 lookup 00000000 cell 0\n0 w0 load 0 5 4 word 0\n", "0 place 2",
        "line 4: \"0 w0 load 0 5 4 word 0\""),
    ("past all numbers", "array 4 8 1", "1 1 16", "0 w0 enter ok\n0 w0 lookup 00000000 cell 0\n0 w0 load 0 18446744073709551615 8 word 0\n",
        "0 place 2", "line 4: \"0 w0 load 0 18446744073709551615 8 word ...\""),
    ("too much for a byte", "array 4 8 1", "1 1 16", "0 w0 enter ok\n0 w0 lookup 00000000 cell 0\n0 w0 store 0 0 1 256 ok\n", "0 place 2",
        "line 4: \"0 w0 store 0 0 1 256 ok\""),
    ("an unknown operation", "array 4 8 1", "1 1 16", "0 w0 enter ok\n0 w0 lookup 00000000 cell 0\n0 w0 atomic 0 0 8 99 1 0 word 0\n",
        "0 place 2", "line 4: \"0 w0 atomic 0 0 8 99 1 0 word 0\""),
    ("an atomic off its alignment", "array 4 8 1", "1 1 16", "0 w0 enter ok\n0 w0 lookup 00000000 cell 0\n0 w0 atomic 0 2 4 0 1 0 word 0\n",
        "0 place 2", "line 4: \"0 w0 atomic 0 2 4 0 1 0 word 0\""),
    ("an addition that compares", "array 4 8 1", "1 1 16", "0 w0 enter ok\n0 w0 lookup 00000000 cell 0\n0 w0 atomic 0 0 8 0 1 1 word 0\n",
        "0 place 2", "line 4: \"0 w0 atomic 0 0 8 0 1 1 word 0\""),
    ("an exchange that compares", "array 4 8 1", "1 1 16",
        "0 w0 enter ok\n0 w0 lookup 00000000 cell 0\n0 w0 atomic 0 0 8 241 1 1 word 0\n0 w0 atomic 0 0 8 241 7 0 word 0\n0 w0 load 0 0 8 word 7\n",
        "", ""),
    ("a cell far away", "array 4 8 1", "1 1 16", "0 w0 enter ok\n0 w0 lookup 00000000 cell 18446744073709551615\n", "0 place 1",
        "line 3: \"0 w0 lookup 00000000 cell 18446744073709...\""),
    ("two parts", "array 4 8 2", "1 2 16",
        "0 w0 enter ok\n0 w0 lookup 00000000 cell 0\n1 w0 enter ok\n1 w0 lookup 01000000 cell 0\n", "", ""),
    ("a key of the other part", "array 4 8 2", "1 2 16",
        "0 w0 enter ok\n0 w0 lookup 00000000 cell 0\n1 w0 enter ok\n1 w0 lookup 00000000 cell 0\n",
        "1 place 1", "line 5: \"1 w0 lookup 00000000 cell 0\""),
    ("the second shard's first",      "array 4 8 2", "1 2 16", "1 w0 leave ok\n", "1 place 0", "line 2: \"1 w0 leave ok\""),
    ("the most journals",
        "hash 4 8 8\nmap hash 4 8 8\nmap hash 4 8 8\nmap hash 4 8 8\nmap hash 4 8 8\nmap hash 4 8 8\nmap hash 4 8 8\nmap hash 4 8 8\n\
         map hash 4 8 8\nmap hash 4 8 8\nmap hash 4 8 8\nmap hash 4 8 8\nmap hash 4 8 8\nmap hash 4 8 8\nmap hash 4 8 8\nmap hash 4 8 8", "1 8 16",
        "127 w0 enter ok\n", "", ""),
    ("the first shard's goes before", "array 4 8 2", "1 2 16", "0 w0 enter ok\n0 w0 enter ok\n1 w0 leave ok\n", "0 place 1",
        "line 3: \"0 w0 enter ok\""),
];

/// Holds what an audit says of a file, of the map of an image whose program may not run, against what it is to say.
fn compare_audit<R: Abort + Threads + Wait + Sync>(
    rt: &R,
    alloc: Global,
    name: &str,
    map: &str,
    journals: &[u8],
    wanted: Wanted<'_>,
) {
    let text = format!(in alloc; "version 1\nmap {map}\nexit\n").expect(rt, "a text");
    let line = "xlb audit image journals";
    over_text(rt, alloc, name, &text, ("journals", journals), line, wanted);
}

/// What is said of each entry that is not legal.
const WHY: &str =
    "after the entries above it the journal is full, a map on one thread returns another reply, or this caller may not make this call";

/// Holds what an audit says of a row's file against the row.
fn compare_row<R: Abort + Threads + Wait + Sync>(rt: &R, alloc: Global, row: &Row) {
    let (name, map, header, entries, place, line) = *row;
    let text = format!(in alloc; "XLBJ 1 {header}\n{entries}").expect(rt, "a file");
    let err = format!(in alloc; "fault 53 Illegal shard {place}\n  {line}\n  {WHY}\n").expect(
        rt, "lines",
    );
    let wanted = if place.is_empty() {
        LEGAL
    } else {
        refused(&err)
    };
    compare_audit(rt, alloc, name, map, text.as_bytes(), wanted);
}

/// Each row's audit.
fn compare_rows<R: Abort + Threads + Wait + Sync>(rt: &R, alloc: Global, rows: &[Row]) {
    for row in rows {
        compare_row(rt, alloc, row);
    }
}

#[test]
fn audits_runs(rt: HostRuntime) {
    compare_rows(&rt, rt.alloc(), &RUNS);
}

#[test]
fn audits_cells(rt: HostRuntime) {
    compare_rows(&rt, rt.alloc(), &CELLS);
}

#[test]
fn audits_numbers(rt: HostRuntime) {
    compare_rows(&rt, rt.alloc(), &NUMBERS);
}

/// The journals of this many runs of one lookup each.
fn many_runs<R: Abort>(rt: &R, alloc: Global, count: u32) -> String {
    let mut text = String::from_str(alloc, "XLBJ 1 1 1 65536\n").expect(rt, "a header");
    for _ in 0..count {
        text.push_str("0 w0 enter ok\n0 w0 lookup 07000000 null\n0 w0 leave ok\n")
            .expect(rt, "a run");
    }
    text
}

#[test]
fn audits_3000_entries(rt: HostRuntime) {
    let text = many_runs(&rt, rt.alloc(), 1000);
    let map = "hash 4 8 1";
    compare_audit(&rt, rt.alloc(), "all legal", map, text.as_bytes(), LEGAL);
}

/// The same and a leave in no run.
fn many_runs_and_a_leave<R: Abort>(rt: &R, alloc: Global, count: u32) -> String {
    let mut text = many_runs(rt, alloc, count);
    text.push_str("0 w0 leave ok\n").expect(rt, "a leave");
    text
}

#[test]
fn audits_the_entry_after_3000(rt: HostRuntime) {
    let alloc = rt.alloc();
    let text = many_runs_and_a_leave(&rt, alloc, 1000);
    let line = "line 3002: \"0 w0 leave ok\"";
    let err = format!(in alloc; "fault 53 Illegal shard 0 place 3000\n  {line}\n  {WHY}\n").expect(
        &rt, "lines",
    );
    let wanted = refused(&err);
    compare_audit(&rt, alloc, line, "hash 4 8 1", text.as_bytes(), wanted);
}

/// What a row shows, a file's bytes, and what is printed.
type Unread = (&'static str, &'static [u8], &'static str);

/// Files that are none of journals.
#[rattlefmt::skip]
const NO_FILES: [Unread; 6] = [
    ("an empty file", b"",
        "fault 55 BadJournalFile line 1\n  the file is empty\n  expected journals, which xlb run and xlb replay write with --journals\n  \
         the journals come after the image on the command line: are two names swapped?\n"),
    ("nine workers", b"XLBJ 1 9 1 16\n",
        "fault 55 BadJournalFile line 1\n  line 1: \"XLBJ 1 9 1 16\"\n  \
         expected XLBJ 1 <workers> <shards> <journal>, options that open the image's maps\n  for example: XLBJ 1 8 1 65536\n"),
    ("an unended line", b"XLBJ 1 1 1 16\n0 w0 enter ok",
        "fault 55 BadJournalFile line 2\n  line 2: \"0 w0 enter ok\"\n  expected a line feed after each line, the last one too\n"),
    ("a shard out of order", b"XLBJ 1 1 2 16\n1 w0 enter ok\n0 w0 enter ok\n",
        "fault 55 BadJournalFile line 3\n  line 3: \"0 w0 enter ok\"\n  \
         expected an entry of a shard of the image's maps, not of an earlier shard than the line above\n  \
         for example: 0 w0 lookup 07000000 cell 0, where keys have 4 bytes; IMAGE has to be the one that was run\n"),
    ("no text", b"XLBJ 1 1 1 16\nbad\n0 w0 \xff ok\n",
        "fault 55 BadJournalFile line 3\n  line 3 has a byte that is not UTF-8\n  expected plain ASCII text\n"),
    ("bad before illegal", b"XLBJ 1 1 1 16\n0 w0 leave ok\n0\n",
        "fault 55 BadJournalFile line 3\n  line 3: \"0\"\n  \
         expected an entry of a shard of the image's maps, not of an earlier shard than the line above\n  \
         for example: 0 w0 lookup 07000000 cell 0, where keys have 4 bytes; IMAGE has to be the one that was run\n"),
];

/// Each row's file, audited.
fn refuse_each<R: Abort + Threads + Wait + Sync>(rt: &R, alloc: Global, rows: &[Unread]) {
    for row in rows {
        let (name, bytes, err) = *row;
        compare_audit(rt, alloc, name, "hash 4 8 2", bytes, refused(err));
    }
}

#[test]
fn refuses_files(rt: HostRuntime) {
    refuse_each(&rt, rt.alloc(), &NO_FILES);
}

/// Command lines over a folder that has journals and no image.
const NOT_THERE: [(&str, &str); 3] = [
    (
        "xlb audit nosuch journals",
        "fault 7 Device\n  cannot open nosuch: there is no such file\n",
    ),
    (
        "xlb audit journals nosuch",
        "fault 10 BadHead\n  the file has journals\n  expected an image, which begins with 58 4c 42 50 (XLBP)\n  \
         are two names on the command line swapped?\n",
    ),
    (
        "xlb audit image nosuch",
        "fault 7 Device\n  cannot open nosuch: there is no such file\n",
    ),
];

/// Holds what is printed of a command line over the first image and empty journals against what is to be printed.
fn compare_line<R: Abort + Threads + Wait + Sync>(rt: &R, alloc: Global, line: &str, err: &str) {
    let folder = put_digits(rt, alloc, MemoryFolder::new(alloc), "image", IMAGE);
    let folder = put(rt, alloc, folder, "journals", b"XLBJ 1 1 1 16\n");
    compare(rt, alloc, line, folder, line, refused(err));
}

#[test]
fn files_that_are_not_there(rt: HostRuntime) {
    for row in &NOT_THERE {
        compare_line(&rt, rt.alloc(), row.0, row.1);
    }
}
