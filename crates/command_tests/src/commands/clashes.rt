//! Files that a command would write over others that it has.

use super::{Wanted, ZEROS, assembled, compare_file, left_by, put};
use std::alloc::Global;
use std::process::Abort;
use std::sync::Wait;
use std::thread::Threads;

/// Passes every frame.
const PASSES: &str = "version 1\nmov r0, 2\nexit\n";

/// What each file has that a command must leave as it is.
const KEPT: &[u8] = b"as it was";

/// What a row shows, a command, the name that it would write, and the other one, which is the same.
type Row = (&'static str, &'static str, &'static str, &'static str);

#[rattlefmt::skip]
const ROWS: [Row; 25] = [
    ("an image over its text",       "xlb asm kept kept",                             "kept", "kept"),
    ("an image over its source",     "xlb asm --source kept kept",                    "kept", "kept"),
    ("a run's journals and frame",   "xlb run image kept --journals kept",            "kept", "kept"),
    ("a run's journals and image",   "xlb run kept frame --journals kept",            "kept", "kept"),
    ("a run's maps and frame",       "xlb run image kept --maps kept",                "kept", "kept"),
    ("a run's maps and journals",    "xlb run image frame --journals kept --maps kept", "kept", "kept"),
    ("sent frames and capture",      "xlb replay kept kept",                          "kept", "kept"),
    ("sent frames and image",        "xlb replay frame kept --image kept",            "kept", "kept"),
    ("sent frames and program",      "xlb replay frame kept --program kept",          "kept", "kept"),
    ("sent frames and script",       "xlb replay frame kept --script kept",           "kept", "kept"),
    ("journals and capture",         "xlb replay kept sent --journals kept",          "kept", "kept"),
    ("journals and image",           "xlb replay frame sent --image kept --journals kept", "kept", "kept"),
    ("journals and script",          "xlb replay frame sent --script kept --journals kept", "kept", "kept"),
    ("journals and sent frames",     "xlb replay frame kept --journals kept",         "kept", "kept"),
    ("a report and capture",         "xlb replay kept sent --report kept",            "kept", "kept"),
    ("a report and image",           "xlb replay frame sent --image kept --report kept", "kept", "kept"),
    ("a report and script",          "xlb replay frame sent --script kept --report kept", "kept", "kept"),
    ("a report and sent frames",     "xlb replay frame kept --report kept",           "kept", "kept"),
    ("a report and journals",        "xlb replay frame sent --journals kept --report kept", "kept", "kept"),
    ("maps and capture",             "xlb replay kept sent --maps kept",              "kept", "kept"),
    ("maps and script",              "xlb replay frame sent --script kept --maps kept", "kept", "kept"),
    ("maps and sent frames",         "xlb replay frame kept --maps kept",             "kept", "kept"),
    ("maps and journals",            "xlb replay frame sent --journals kept --maps kept", "kept", "kept"),
    ("maps and a report",            "xlb replay frame sent --report kept --maps kept", "kept", "kept"),
    ("before any fault of a file",   "xlb replay nosuch kept --image nosuch --journals kept --workers 9", "kept", "kept"),
];

/// Holds that a command refuses to write over one of its files, and leaves it.
fn compare_clash<R: Abort + Threads + Wait + Sync>(rt: &R, alloc: Global, row: &Row) {
    let (name, line, written, other) = *row;
    let err = format!(in alloc;
        "error: {written} would be written over {other}: they are one file\n"
    ).expect(rt, "a line");
    let folder = assembled(rt, alloc, name, PASSES, ("frame", ZEROS));
    let folder = put(rt, alloc, folder, "kept", KEPT);
    let wanted = Wanted {
        status: 2,
        out: "",
        err: err.as_str(),
    };
    let folder = left_by(rt, alloc, name, folder, line, wanted);
    compare_file(rt, alloc, name, folder, "kept", KEPT);
}

#[test]
fn writes_over_no_file_of_its_own(rt: HostRuntime) {
    for row in &ROWS {
        compare_clash(&rt, rt.alloc(), row);
    }
}

/// A name that a terminal would not show as it is.
const ODD: &str = "kept\u{1b}[31m\n";

#[test]
fn names_are_shown_in_one_line(rt: HostRuntime) {
    let name = "an odd name";
    let folder = assembled(&rt, rt.alloc(), name, PASSES, ("frame", ZEROS));
    let folder = put(&rt, rt.alloc(), folder, ODD, KEPT);
    let line = "xlb asm kept\u{1b}[31m\n kept\u{1b}[31m\n";
    let wanted = Wanted {
        status: 2,
        out: "",
        err: "error: kept\\u{1b}[31m\\u{a} would be written over kept\\u{1b}[31m\\u{a}: they are one file\n",
    };
    let folder = left_by(&rt, rt.alloc(), name, folder, line, wanted);
    compare_file(&rt, rt.alloc(), name, folder, ODD, KEPT);
}

/// What a row shows, and a command that would write the file `kept`, which is there.
#[rattlefmt::skip]
const THERE: [(&str, &str); 6] = [
    ("sent frames",                 "xlb replay frame kept --no-clobber"),
    ("journals",                    "xlb replay frame sent --journals kept --no-clobber"),
    ("a report",                    "xlb replay frame sent --report kept --no-clobber"),
    ("what the maps hold",          "xlb replay frame sent --maps kept --no-clobber"),
    ("a report, and exact",         "xlb replay frame sent --report kept --exact --no-clobber"),
    ("before any fault of a file",  "xlb replay nosuch kept --image nosuch --no-clobber --workers 9"),
];

/// Holds that a command refuses to write over a file that is there, and leaves it.
fn compare_there<R: Abort + Threads + Wait + Sync>(rt: &R, alloc: Global, name: &str, line: &str) {
    let folder = assembled(rt, alloc, name, PASSES, ("frame", ZEROS));
    let folder = put(rt, alloc, folder, "kept", KEPT);
    let wanted = Wanted {
        status: 2,
        out: "",
        err: "error: kept is there already: --no-clobber writes over no file\n",
    };
    let folder = left_by(rt, alloc, name, folder, line, wanted);
    compare_file(rt, alloc, name, folder, "kept", KEPT);
}

#[test]
fn writes_over_nothing_that_is_there(rt: HostRuntime) {
    for (name, line) in &THERE {
        compare_there(&rt, rt.alloc(), name, line);
    }
}

/// A capture of no frames.
const NO_FRAMES: &[u8] = &[
    0xd4, 0xc3, 0xb2, 0xa1, 2, 0, 4, 0, 0, 0, 0, 0, 0, 0, 0, 0, 0xff, 0xff, 0, 0, 1, 0, 0, 0,
];

#[test]
fn writes_what_is_not_there(rt: HostRuntime) {
    let name = "nothing is there";
    let folder = assembled(&rt, rt.alloc(), name, PASSES, ("capture", NO_FRAMES));
    let wanted = Wanted {
        status: 0,
        out: "frames 0\nshort 0\nstopped 0\naborted 0\ndrop 0\npass 0\ntx 0\n",
        err: "",
    };
    let line = "xlb replay capture sent --image image --no-clobber --strict";
    let folder = left_by(&rt, rt.alloc(), name, folder, line, wanted);
    compare_file(&rt, rt.alloc(), name, folder, "sent", NO_FRAMES);
}
