//! The lookup table after each command of a script.

ghost use Rattle.std.specs.Prelude.{◌≡◌};

use super::{Wanted, compare, put, refused};
use folders::MemoryFolder;
use std::alloc::Global;
use std::process::Abort;
use std::sync::Wait;
use std::thread::Threads;

/// Two backends come up, and the first one goes down.
const SCRIPT: &str = "0 vip 203.0.113.1 80 udp\n0 up 0 192.0.2.1\n0 up 1 192.0.2.2\n20 down 0\n";

/// Its tables of seven slots, and of 251, from populations that were made apart from this code.
const OF_7: &str = "\
command 1 frame 0 moved 0 least 0
command 2 frame 0 moved 7 least 7
backend 0 address 192.0.2.1 slots 7 percent 100.00
command 3 frame 0 moved 3 least 3
backend 0 address 192.0.2.1 slots 4 percent 57.14
backend 1 address 192.0.2.2 slots 3 percent 42.86
command 4 frame 20 moved 4 least 4
backend 1 address 192.0.2.2 slots 7 percent 100.00
";

const OF_251: &str = "\
command 1 frame 0 moved 0 least 0
command 2 frame 0 moved 251 least 251
backend 0 address 192.0.2.1 slots 251 percent 100.00
command 3 frame 0 moved 125 least 125
backend 0 address 192.0.2.1 slots 126 percent 50.20
backend 1 address 192.0.2.2 slots 125 percent 49.80
command 4 frame 20 moved 126 least 126
backend 1 address 192.0.2.2 slots 251 percent 100.00
";

/// A backend comes up twice, and one goes down that is not up.
const REFUSED: &str = "0 up 0 192.0.2.1\n0 up 0 192.0.2.2\n0 down 3\n";

const OF_REFUSED: &str = "\
command 1 frame 0 moved 7 least 7
backend 0 address 192.0.2.1 slots 7 percent 100.00
command 2 refused 92
command 3 refused 91
";

const WHY_REFUSED: &str =
    "  line 2 of the script, 0 up 0 192.0.2.2: this number or this address is up
  line 3 of the script, 0 down 3: no such backend is up
";

/// The table of the backend with the largest number.
const OF_255: &str =
    "command 1 frame 0 moved 4093 least 4093\nbackend 255 address 192.0.2.1 slots 4093 percent 100.00\n";

const WHY_NOT_256: &str =
    "  line 1 of the script, 0 up 256 192.0.2.1: a backend's number is below 256 and below the ring's size\n";

/// Of three backends the last one goes down: its two slots change hands, and a third leaves a backend that stays.
const LAST_DOWN: &str = "0 up 0 192.0.2.1\n0 up 1 192.0.2.2\n0 up 2 192.0.2.3\n20 down 2\n";

const OF_LAST_DOWN: &str = "\
command 1 frame 0 moved 7 least 7
backend 0 address 192.0.2.1 slots 7 percent 100.00
command 2 frame 0 moved 3 least 3
backend 0 address 192.0.2.1 slots 4 percent 57.14
backend 1 address 192.0.2.2 slots 3 percent 42.86
command 3 frame 0 moved 3 least 2
backend 0 address 192.0.2.1 slots 3 percent 42.86
backend 1 address 192.0.2.2 slots 2 percent 28.57
backend 2 address 192.0.2.3 slots 2 percent 28.57
command 4 frame 20 moved 3 least 2
backend 0 address 192.0.2.1 slots 4 percent 57.14
backend 1 address 192.0.2.2 slots 3 percent 42.86
";

/// What a row shows; the script; the words behind it; the status, and what is printed on both streams.
type Row = (
    &'static str,
    &'static str,
    &'static str,
    u8,
    &'static str,
    &'static str,
);

#[rattlefmt::skip]
const ROWS: [Row; 7] = [
    ("seven slots",        SCRIPT,  " --ring 7", 0, OF_7,       ""),
    ("as a replay has it", SCRIPT,  "",          0, OF_251,     ""),
    ("refused commands",   REFUSED, " --ring 7", 1, OF_REFUSED, WHY_REFUSED),
    ("a slot leaves a backend that stays", LAST_DOWN, " --ring 7", 0, OF_LAST_DOWN, ""),
    ("no command",         "",      "",          0, "",         ""),
    ("the largest number", "0 up 255 192.0.2.1\n", " --ring 4093", 0, OF_255,                   ""),
    ("a number of 256",    "0 up 256 192.0.2.1\n", " --ring 4093", 1, "command 1 refused 91\n", WHY_NOT_256),
];

/// Holds a row's tables against what is wanted.
fn compare_tables<R: Abort + Threads + Wait + Sync>(
    rt: &R,
    alloc: Global,
    name: &str,
    script: &str,
    words: &str,
    wanted: Wanted<'_>,
) {
    let folder = put(
        rt,
        alloc,
        MemoryFolder::new(alloc),
        "script",
        script.as_bytes(),
    );
    let line = format!(in alloc; "xlb table script{words}").expect(rt, "a line");
    compare(rt, alloc, name, folder, &line, wanted);
}

/// A row's tables.
fn compare_row<R: Abort + Threads + Wait + Sync>(rt: &R, alloc: Global, row: &Row) {
    let (name, script, words, status, out, err) = *row;
    let wanted = Wanted { status, out, err };
    compare_tables(rt, alloc, name, script, words, wanted);
}

#[test]
fn tables_follow_each_command(rt: HostRuntime) {
    for row in &ROWS {
        compare_row(&rt, rt.alloc(), row);
    }
}

#[test]
fn no_table_has_eight_slots(rt: HostRuntime) {
    let words = " --ring 8";
    compare_tables(
        &rt,
        rt.alloc(),
        words,
        SCRIPT,
        words,
        refused(
            "fault 73 BadSize\n  --ring 8\n  expected the number of slots of a lookup table: 7, 251, 4093 or 65537\n  the next larger one is 251\n",
        ),
    );
}
