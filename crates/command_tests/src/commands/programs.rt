//! Programs judged, each from its text.

use super::{Wanted, ZEROS, over_text};
use std::alloc::Global;
use std::process::Abort;
use std::sync::Wait;
use std::thread::Threads;

/// What a row shows, the text, the status, and what is printed on the output and on the error stream.
type Row = (&'static str, &'static str, u8, &'static str, &'static str);

#[rattlefmt::skip]
const ROWS: [Row; 7] = [
    ("the worker is read", "version 1\ncall 8\nexit\n", 0, "accepted slots 2 maps 0 reader no\n", ""),
    ("the time is read", "version 1\ncall 5\nexit\n", 0, "accepted slots 2 maps 0 reader yes\n", ""),
    ("a wide slot counts twice", "version 1\nlddw r0, 0x0000000000000002\nexit\n", 0, "accepted slots 3 maps 0 reader yes\n", ""),
    ("a jump past the end", "version 1\nmov r0, 2\njeq r0, 2, +1\nexit\n", 1, "", "fault 31 JumpOutside slot 1\n"),
    ("no exit at the end", "version 1\nmov r0, 2\nadd r0, 1\n", 1, "", "fault 33 FallsOff slot 1\n"),
    ("past a value",
        "version 1\nmap array 4 8 1\nstw [r10-4], 0\nmov r2, r10\nadd r2, -4\nldmap r1, 0\ncall 1\njeq r0, 0, +1\nldxdw r3, [r0+8]\nmov r0, 2\n\
         exit\n", 1, "", "fault 40 ValueBounds slot 7\n"),
    ("no such helper", "version 1\ncall 99\nexit\n", 1, "", "fault 44 UnknownHelper slot 0\n"),
];

/// Each row's program, checked.
fn compare_rows<R: Abort + Threads + Wait + Sync>(rt: &R, alloc: Global, rows: &[Row]) {
    for row in rows {
        let (name, text, status, out, err) = *row;
        let wanted = Wanted { status, out, err };
        over_text(
            rt,
            alloc,
            name,
            text,
            ("frame", ZEROS),
            "xlb check image",
            wanted,
        );
    }
}

#[test]
fn judges_programs(rt: HostRuntime) {
    compare_rows(&rt, rt.alloc(), &ROWS);
}
