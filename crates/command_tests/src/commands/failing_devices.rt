//! Devices that fail at one call, whichever it is: the command is then refused with 7, has printed a beginning of what it prints, and
//! leaves no file in part.

use super::first_path::IMAGE;
use super::replays::DATAGRAM;
use super::weak_devices::{Left, MOST, NEVER, SOUND_FOLDER, Weakness, has_few_failures, left_over};
use super::{put, put_digits};
use crate::asserting::{holds_of, same_bytes_of, same_status};
use folders::{Folder, FolderFault, MemoryFolder};
use std::alloc::Global;
use std::process::Abort;
use std::sync::Wait;
use std::thread::Threads;
use test_support::files::SERVICE;

/// The journals of a run of `IMAGE` on one frame.
const JOURNALS: &str =
    "XLBJ 1 1 1 16\n0 w0 enter ok\n0 w0 lookup 00000000 cell 0\n0 w0 load 0 0 8 word 0\n0 w0 leave ok\n";

/// The command's words, how many of its calls of the folder there are, and the files that it makes.
type Row = (&'static str, u64, &'static [&'static str]);

#[rattlefmt::skip]
const ROWS: [Row; 16] = [
    ("xlb check image", 1, &[]),
    ("xlb check --explain image", 1, &[]),
    ("xlb run image frame", 2, &[]),
    ("xlb run image frame --journals made", 3, &["made"]),
    ("xlb run image frame --journals made --maps more", 4, &["made", "more"]),
    ("xlb disasm image", 1, &[]),
    ("xlb asm text made", 2, &["made"]),
    ("xlb shipped made", 1, &["made"]),
    ("xlb audit image journals", 2, &[]),
    ("xlb explain 7", 0, &[]),
    ("xlb replay capture made --script script --ring 7 --journal 256 --journals more", 11, &["made", "more"]),
    ("xlb replay capture made --script script --ring 7 --journal 256 --journals more --report lines", 12, &["made", "more", "lines"]),
    ("xlb replay capture made --script script --ring 7 --journal 256 --maps more --report lines", 12, &["made", "lines", "more"]),
    ("xlb replay capture made --script script --ring 7 --journal 256 --exact", 13, &["made"]),
    ("xlb replay capture made --script script --ring 7 --journal 256 --exact --journals more", 14, &["made", "more"]),
    ("xlb replay capture made --script script --ring 7 --journal 256 --exact --maps more", 14, &["made", "more"]),
];

/// The files that the commands read.
fn files_of<R: Abort>(rt: &R, alloc: Global) -> MemoryFolder {
    let folder = put_digits(rt, alloc, MemoryFolder::new(alloc), "image", IMAGE);
    let folder = put(rt, alloc, folder, "frame", &[0; 14]);
    let folder = put(rt, alloc, folder, "text", b"version 1\nmov r0, 2\nexit\n");
    let folder = put(rt, alloc, folder, "journals", JOURNALS.as_bytes());
    let folder = put(rt, alloc, folder, "script", SERVICE.as_bytes());
    put_digits(rt, alloc, folder, "capture", DATAGRAM)
}

/// Which call of the folder fails, which of the output, and which of the error stream.
#[derive(Clone, Copy)]
struct Failing {
    folder: u64,
    out: u64,
    err: u64,
}

/// The program over devices whose calls of these numbers fail.
fn left_by<R: Abort + Threads + Wait + Sync>(
    rt: &R,
    alloc: Global,
    line: &str,
    failing: Failing,
) -> Left {
    let files = files_of(rt, alloc);
    let weakness = Weakness {
        fails_at: failing.folder,
        ..SOUND_FOLDER
    };
    left_over(rt, alloc, files, line, weakness, failing.out, failing.err)
}

/// No device fails.
const SOUND: Failing = Failing {
    folder: NEVER,
    out: NEVER,
    err: NEVER,
};

/// Compares a file that a command makes: it is whole, or it is not there.
fn compare_made<R: Abort>(
    rt: &R,
    alloc: Global,
    line: &str,
    name: &str,
    whole: &mut MemoryFolder,
    found: &mut MemoryFolder,
) {
    has_few_failures(rt, line, whole);
    has_few_failures(rt, line, found);
    let bytes = whole.read(alloc, name).expect(rt, "a file that is made");
    match found.read(alloc, name) {
        Ok(left) => same_bytes_of(rt, line, name, &left, &bytes),
        Err(fault) => holds_of(rt, line, "no file", fault == FolderFault::Device),
    }
}

/// Compares the files that a command makes.
fn compare_files<R: Abort>(
    rt: &R,
    alloc: Global,
    line: &str,
    made: &[&str],
    mut whole: MemoryFolder,
    mut found: MemoryFolder,
) {
    for &name in made {
        compare_made(rt, alloc, line, name, &mut whole, &mut found);
    }
}

/// How many bytes a weak stream takes in `calls` calls.
fn taken_in(calls: u64) -> usize {
    MOST.saturating_mul(calls as usize)
}

/// Compares a command where one call of the folder fails.
fn compare_folder<R: Abort + Threads + Wait + Sync>(rt: &R, alloc: Global, row: &Row, call: u64) {
    let (line, _calls, made) = *row;
    let whole = left_by(rt, alloc, line, SOUND);
    let found = left_by(
        rt,
        alloc,
        line,
        Failing {
            folder: call,
            ..SOUND
        },
    );
    same_status(rt, line, found.status, 1);
    same_bytes_of(rt, line, "output", &found.out.taken, b"");
    holds_of(
        rt,
        line,
        "error",
        found.err.taken.starts_with(b"fault 7 Device\n  "),
    );
    holds_of(rt, line, "one failure", found.folder.failures == 1);
    compare_files(
        rt,
        alloc,
        line,
        made,
        whole.folder.files,
        found.folder.files,
    );
}

/// Compares what a command leaves whose call of the output with this number fails; says whether it came to this call.
fn compare_taken(rt: &impl Abort, line: &str, found: &Left, whole: &[u8], call: u64) -> bool {
    holds_of(rt, line, "a beginning", whole.starts_with(&found.out.taken));
    if found.out.failures == 0 {
        same_status(rt, line, found.status, 0);
        same_bytes_of(rt, line, "output", &found.out.taken, whole);
        return false;
    }
    same_status(rt, line, found.status, 1);
    same_bytes_of(rt, line, "error", &found.err.taken, b"fault 7 Device\n");
    holds_of(rt, line, "a part", found.out.taken.len() == taken_in(call));
    true
}

/// Compares a command where one call of the output fails; says whether it came to this call.
fn compare_output<R: Abort + Threads + Wait + Sync>(
    rt: &R,
    alloc: Global,
    line: &str,
    whole: &[u8],
    call: u64,
) -> bool {
    let found = left_by(rt, alloc, line, Failing { out: call, ..SOUND });
    compare_taken(rt, line, &found, whole, call)
}

/// Compares a command with each call of the output failing in turn, until one is not reached any more.
fn compare_each_output<R: Abort + Threads + Wait + Sync>(
    rt: &R,
    alloc: Global,
    line: &str,
    whole: &[u8],
) {
    for call in 0..NEVER {
        if !compare_output(rt, alloc, line, whole, call) {
            return;
        }
    }
    holds_of(rt, line, "an end", false);
}

/// Compares a command with each call of the output that it makes until it is done failing in turn.
fn compare_outputs<R: Abort + Threads + Wait + Sync>(rt: &R, alloc: Global, row: &Row) {
    let whole = left_by(rt, alloc, row.0, SOUND);
    compare_each_output(rt, alloc, row.0, &whole.out.taken);
}

/// Compares a command that is refused for a failing folder, and whose error stream fails at this call.
fn compare_error<R: Abort + Threads + Wait + Sync>(rt: &R, alloc: Global, line: &str, call: u64) {
    let whole = left_by(rt, alloc, line, Failing { folder: 0, ..SOUND });
    let found = left_by(
        rt,
        alloc,
        line,
        Failing {
            folder: 0,
            out: NEVER,
            err: call,
        },
    );
    same_status(rt, line, found.status, 1);
    same_bytes_of(rt, line, "output", &found.out.taken, b"");
    holds_of(
        rt,
        line,
        "a beginning",
        whole.err.taken.starts_with(&found.err.taken),
    );
    holds_of(rt, line, "a part", found.err.taken.len() == taken_in(call));
}

/// Compares how many calls of the folder a command makes where none fails.
fn compare_calls<R: Abort + Threads + Wait + Sync>(rt: &R, alloc: Global, row: &Row) {
    let left = left_by(rt, alloc, row.0, SOUND);
    holds_of(rt, row.0, "calls", left.folder.calls == row.1);
    same_status(rt, row.0, left.status, 0);
}

#[test]
fn each_call_of_a_folder_fails_in_turn(rt: HostRuntime) {
    for row in &ROWS {
        for call in 0..row.1 {
            compare_folder(&rt, rt.alloc(), row, call);
        }
        compare_calls(&rt, rt.alloc(), row);
    }
}

#[test]
fn each_call_of_an_output_fails_in_turn(rt: HostRuntime) {
    for row in &ROWS {
        compare_outputs(&rt, rt.alloc(), row);
    }
}

#[test]
fn an_error_stream_fails_at_each_of_its_calls(rt: HostRuntime) {
    for call in 0..2 {
        compare_error(&rt, rt.alloc(), "xlb check image", call);
        compare_error(
            &rt,
            rt.alloc(),
            "xlb replay capture made --script script --ring 7 --journal 256",
            call,
        );
    }
}
