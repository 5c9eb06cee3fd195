//! Texts and images, both ways.

use super::first_path::over_image;
use super::{Wanted, put, writes_nothing};
use folders::MemoryFolder;
use std::alloc::Global;
use std::process::Abort;
use std::sync::Wait;
use std::thread::Threads;

/// What a row shows, the text's bytes, and what is printed.
type Row = (&'static str, &'static [u8], &'static str);

#[rattlefmt::skip]
const ROWS: [Row; 15] = [
    ("a leading zero", b"version 1\nmov r0, 02\nexit\n", "fault 21 BadLine line 2\n  \"02\": expected a number without a zero in front\n"),
    ("register 11",    b"version 1\nmov r11, 1\nexit\n", "fault 21 BadLine line 2\n  \"r11\": expected a register, r0 to r10\n"),
    ("minus zero",     b"version 1\nmov r0, -0\nexit\n", "fault 21 BadLine line 2\n  \"-0\": expected a number without a zero in front\n"),
    ("above its field", b"version 1\nmov r0, 4294967296\nexit\n",
        "fault 21 BadLine line 2\n  \"4294967296\": expected a register, r0 to r10, or a number from -2147483648 to 4294967295\n"),
    ("a number that only sources have", b"version 1\nmov r0, 4294967295\nexit\n",
        "fault 21 BadLine line 2\n  TEXT is in the source form: 'xlb asm --source' makes an image of it\n"),
    ("a short number", b"version 1\nlddw r1, 0x2\nexit\n",
        "fault 21 BadLine line 2\n  TEXT is in the source form: 'xlb asm --source' makes an image of it\n"),
    ("lines that end as on Windows", b"version 1\r\nexit\r\n",
        "fault 21 BadLine line 1\n  \
         a carriage return ends the line, as on Windows: 'xlb asm --source' reads such lines, and tr -d '\\r' < TEXT > NEW takes it away\n"),
    ("no last line feed", b"version 1\nexit",
        "fault 21 BadLine line 2\n  TEXT is in the source form: 'xlb asm --source' makes an image of it\n"),
    ("no text", b"",
        "fault 21 BadLine line 1\n  expected version 1 or version 2 on the first line, then map KIND KEY-BYTES VALUE-BYTES ENTRIES (hash, array or \
         lru) before the instructions\n"),
    ("another line than the first bad one of its source", b"version 1\n  mov r0, 2\nmov r11, 2\n", "fault 21 BadLine line 2\n"),
    ("no instructions",           b"version 1\n",                                 "fault 22 Image decode 12\n  there is no instruction\n"),
    ("a map of no entries", b"version 1\nmap array 4 8 0\nexit\n",
        "fault 22 Image decode 11\n  line 2, map 0: it has 0 entries\n  expected 1 to 131072 entries\n"),
    ("not UTF-8, line 1",         b"\xffersion 1\nexit\n",                        "fault 21 BadLine line 1\n"),
    ("not UTF-8, line 3",         b"version 1\nmov r0, 2\nex\xc3(t\n",            "fault 21 BadLine line 3\n"),
    ("not UTF-8 before bad line", b"version 1\nbad\nmov r0, 2\n\xe2\x82\n",       "fault 21 BadLine line 4\n"),
];

/// Holds what is printed of a text against what is to be printed; no file is written.
fn compare_refused<R: Abort + Threads + Wait + Sync>(rt: &R, alloc: Global, row: &Row) {
    let (name, text, err) = *row;
    let folder = put(rt, alloc, MemoryFolder::new(alloc), "text", text);
    let line = "xlb asm text made";
    writes_nothing(rt, alloc, name, folder, line, err, "made");
}

#[test]
fn refuses_texts(rt: HostRuntime) {
    for row in &ROWS {
        compare_refused(&rt, rt.alloc(), row);
    }
}

#[test]
fn prints_without_judging(rt: HostRuntime) {
    let image = "584c4250010000009500000000000000";
    let wanted = Wanted {
        status: 0,
        out: "version 1\nexit\n",
        err: "",
    };
    over_image(
        &rt,
        rt.alloc(),
        "exit alone",
        image,
        "",
        "xlb disasm image",
        wanted,
    );
}
