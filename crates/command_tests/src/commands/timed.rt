//! The script that a timed script means for a capture.

ghost use Rattle.std.specs.Prelude.{◌≡◌};

use super::{Wanted, compare, put, put_digits, refused};
use folders::MemoryFolder;
use std::alloc::Global;
use std::process::Abort;
use std::sync::Wait;
use std::thread::Threads;

/// A capture of five frames of 14 zeros, of 2025-11-28T10:03:00Z and 0, 0.25, 1, 0.9 and 10 seconds later.
const CAPTURE: &str = "\
d4c3b2a1020004000000000000000000ffff000001000000\
54732969000000000e0000000e0000000000000000000000000000000000\
5473296990d003000e0000000e0000000000000000000000000000000000\
55732969000000000e0000000e0000000000000000000000000000000000\
54732969a0bb0d000e0000000e0000000000000000000000000000000000\
5e732969000000000e0000000e0000000000000000000000000000000000";

/// A header, and four bytes of a record.
const CUT: &str = "d4c3b2a1020004000000000000000000ffff00000100000014742969";

/// Commands at moments of each kind, and a last line that is none.
const TIMED: &str = "\
# two backends
+0s up 0 192.0.2.1
+0s up 1 192.0.2.2

2025-11-28T11:03:00.25+01:00 down 1   # maintenance
1764324181 up 1 192.0.2.2
+3m down 0
";

/// The same without its last line.
const TIMED_RIGHT: &str = "\
# two backends
+0s up 0 192.0.2.1
+0s up 1 192.0.2.2

2025-11-28T11:03:00.25+01:00 down 1   # maintenance
1764324181 up 1 192.0.2.2
";

const MEANT: &str = "0 up 0 192.0.2.1\n0 up 1 192.0.2.2\n1 down 1\n2 up 1 192.0.2.2\n";

/// What is said of the first line of a timed script, and of the seventh.
const FIRST: &str = "\
fault 90 BadLine line 1
  line 1 is not one of a timed script
  expected a moment (2026-11-28T10:03:00Z, 1764324180.25, or +180s from the first record), a space, a command (down 17), and a line feed alone
";

const SEVENTH: &str = "\
fault 90 BadLine line 7
  line 7 is not one of a timed script
  expected a moment (2026-11-28T10:03:00Z, 1764324180.25, or +180s from the first record), a space, a command (down 17), and a line feed alone
";

/// What is said of a second line that says an earlier moment than the first one.
const FALLS: &str =
    "fault 90 BadLine line 2\n  line 2: its moment is before that of a line above\n";

/// What a row shows; the timed script; the status, and what is printed on both streams.
type Row = (&'static str, &'static str, u8, &'static str, &'static str);

#[rattlefmt::skip]
const ROWS: [Row; 7] = [
    ("a unit of minutes",        TIMED,                                   1, "",                        SEVENTH),
    ("all kinds of moments",     TIMED_RIGHT,                             0, MEANT,                     ""),
    ("no line",                  "",                                      0, "",                        ""),
    ("a moment of no record",    "+11s down 1\n",                         0, "5 down 1\n",              "  line 1: its moment is behind the last record\n"),
    ("the number of a record",   "12 vip\n",                              1, "",                        FIRST),
    ("a moment that falls",      "+1s down 1\n+0.5s down 2\n",           1, "",                        FALLS),
    ("at the last record",       "1764324190 down 1\n",                   0, "4 down 1\n",              ""),
];

/// Holds what a timed script means for a capture against what is wanted.
fn compare_timed<R: Abort + Threads + Wait + Sync>(
    rt: &R,
    alloc: Global,
    name: &str,
    capture: &str,
    timed: &str,
    wanted: Wanted<'_>,
) {
    let folder = put_digits(rt, alloc, MemoryFolder::new(alloc), "capture", capture);
    let folder = put(rt, alloc, folder, "timed", timed.as_bytes());
    compare(rt, alloc, name, folder, "xlb script capture timed", wanted);
}

/// A row's timed script.
fn compare_row<R: Abort + Threads + Wait + Sync>(rt: &R, alloc: Global, row: &Row) {
    let (name, timed, status, out, err) = *row;
    let wanted = Wanted { status, out, err };
    compare_timed(rt, alloc, name, CAPTURE, timed, wanted);
}

#[test]
fn timed_scripts_mean_scripts(rt: HostRuntime) {
    for row in &ROWS {
        compare_row(&rt, rt.alloc(), row);
    }
}

#[test]
fn a_capture_is_refused_before_its_timed_script(rt: HostRuntime) {
    compare_timed(
        &rt,
        rt.alloc(),
        "cut",
        CUT,
        "12 vip\n",
        refused(
            "fault 4 CutHead record 1\n  at byte 24 of 28\n  the head of a record has 16 bytes, and the file ends after 4 of them\n",
        ),
    );
}
