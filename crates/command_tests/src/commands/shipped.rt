//! The image of the shipped program.

ghost use Rattle.std.specs.Prelude.{◌≡◌};

use super::replays::HEAD;
use super::{LEGAL, NOTHING, compare, done, left_by, put, put_digits, succeeded, writes_nothing};
use crate::asserting::holds_of;
use folders::MemoryFolder;
use std::alloc::Global;
use std::process::Abort;
use std::sync::Wait;
use std::thread::Threads;

/// The words behind the file, the notes of the flow table, and the entries of the map of the lookup table: its slots, rounded up to a
/// multiple of eight.
#[rattlefmt::skip]
const SIZES: [(&str, &str, &str); 11] = [
    ("",                            "4096",   "256"),
    (" --ring 7",                   "4096",   "8"),
    (" --ring 251",                 "4096",   "256"),
    (" --ring 4093",                "4096",   "4096"),
    (" --ring 65537",               "4096",   "65544"),
    (" --flows 4096",               "4096",   "256"),
    (" --flows 8192",               "8192",   "256"),
    (" --ring 65537 --flows 16384", "16384",  "65544"),
    (" --flows 32768 --ring 7",     "32768",  "8"),
    (" --flows 65536",              "65536",  "256"),
    (" --flows 131072",             "131072", "256"),
];

/// Sizes that no lookup table has, and which one is said to be next.
const NO_SIZES: [(&str, &str); 4] = [
    ("0", "the next larger one is 7"),
    ("8", "the next larger one is 251"),
    ("65536", "the next larger one is 65537"),
    ("4294967295", "the largest one is 65537"),
];

/// Numbers of notes that no flow table has, and which one is said to be next.
const NO_NOTES: [(&str, &str); 5] = [
    ("0", "the next larger one is 4096"),
    ("4095", "the next larger one is 4096"),
    ("5000", "the next larger one is 8192"),
    ("131073", "the largest one is 131072"),
    ("4294967295", "the largest one is 131072"),
];

/// A folder of the image that the command writes, with these words behind its file.
fn shipped<R: Abort + Threads + Wait + Sync>(rt: &R, alloc: Global, words: &str) -> MemoryFolder
    ensures { result.failures ≡ 0 }
{
    let line = format!(in alloc; "xlb shipped made{words}").expect(rt, "a line");
    left_by(rt, alloc, &line, MemoryFolder::new(alloc), &line, NOTHING)
}

/// Holds the maps of the image of a size against a row, and that it may run.
fn compare_maps<R: Abort + Threads + Wait + Sync>(
    rt: &R,
    alloc: Global,
    words: &str,
    notes: &str,
    entries: &str,
) {
    let maps = format!(in alloc;
        "version 1\nmap hash 8 8 64\nmap lru 16 8 {notes}\nmap array 4 8 {entries}\nmap array 4 8 256\nmap array 4 24 8\nmap array 4 8 8\n"
    ).expect(rt, "maps");
    let folder = shipped(rt, alloc, words);
    let shown = succeeded(rt, alloc, words, folder, "xlb disasm made");
    let has_maps = shown.out.bytes().starts_with(maps.as_bytes());
    holds_of(rt, words, "maps", has_maps);
    let found = succeeded(rt, alloc, words, shown.folder, "xlb check made");
    let is_accepted = found.out.bytes().starts_with(b"accepted slots ");
    holds_of(rt, words, "line", is_accepted);
    let has_numbers = found.out.bytes().ends_with(b" maps 6 reader no\n");
    holds_of(rt, words, "numbers", has_numbers);
}

#[test]
fn writes_the_image_of_each_size(rt: HostRuntime) {
    for row in &SIZES {
        compare_maps(&rt, rt.alloc(), row.0, row.1, row.2);
    }
}

/// Holds that there is no image of this size.
fn compare_no_size<R: Abort + Threads + Wait + Sync>(
    rt: &R,
    alloc: Global,
    size: &str,
    next: &str,
) {
    let line = format!(in alloc; "xlb shipped made --ring {size}").expect(rt, "a line");
    let err = format!(in alloc;
        "fault 73 BadSize\n  --ring {size}\n  expected the number of slots of a lookup table: 7, 251, 4093 or 65537\n  {next}\n"
    ).expect(rt, "lines");
    writes_nothing(
        rt,
        alloc,
        &line,
        MemoryFolder::new(alloc),
        &line,
        &err,
        "made",
    );
}

#[test]
fn has_no_image_of_another_size(rt: HostRuntime) {
    for row in &NO_SIZES {
        compare_no_size(&rt, rt.alloc(), row.0, row.1);
    }
}

/// Holds that there is no image of so many notes, whatever the lookup table.
fn compare_no_notes<R: Abort + Threads + Wait + Sync>(
    rt: &R,
    alloc: Global,
    notes: &str,
    next: &str,
) {
    let err = format!(in alloc;
        "fault 73 BadSize\n  --flows {notes}\n  expected the number of notes of a flow table: 4096, 8192, 16384, 32768, 65536 or 131072\n  {next}\n"
    ).expect(rt, "lines");
    for more in ["", " --ring 8"] {
        let line = format!(in alloc; "xlb shipped made --flows {notes}{more}").expect(rt, "a line");
        writes_nothing(
            rt,
            alloc,
            &line,
            MemoryFolder::new(alloc),
            &line,
            &err,
            "made",
        );
    }
}

#[test]
fn has_no_image_of_another_number_of_notes(rt: HostRuntime) {
    for row in &NO_NOTES {
        compare_no_notes(&rt, rt.alloc(), row.0, row.1);
    }
}

#[test]
fn audits_a_replay_of_the_shipped_program(rt: HostRuntime) {
    let alloc = rt.alloc();
    let name = "a replay";
    let folder = shipped(&rt, alloc, " --ring 7");
    let folder = put_digits(&rt, alloc, folder, "capture", HEAD);
    let folder = put(&rt, alloc, folder, "script", b"0 up 0 192.0.2.1\n");
    let line = "xlb replay capture sent --script script --ring 7 --journals journals";
    let folder = done(&rt, alloc, name, folder, line);
    compare(&rt, alloc, name, folder, "xlb audit made journals", LEGAL);
}
