//! Exact replays of two pieces over folders with a call that fails.

ghost use Rattle.std.specs.Prelude.{◌≡◌};

use super::in_pieces::{has_none, numbered};
use super::replays::SENDS;
use super::weak_devices::{
    FolderCall, Left, NEVER, SOUND_FOLDER, Weakness, has_few_failures, left_over,
};
use super::{put, with_image};
use crate::asserting::{holds_of, same_bytes_of, same_status};
use folders::{Folder, MemoryFolder};
use std::alloc::Global;
use std::process::Abort;
use std::sync::Wait;
use std::thread::Threads;

/// What a row shows, the words for a replay of 1,025 records, which call fails and its number from 0, the status, what is printed on the
/// error stream, and how many bytes the sent file has, none where it isn't made.
type Failing = (
    &'static str,
    &'static str,
    FolderCall,
    u64,
    u8,
    &'static str,
    Option<usize>,
);

/// All sent frames: 24 bytes, and 1025 times 30.
const ALL_SENT: Option<usize> = Some(30774);

const NO_SENT: &str = "fault 7 Device\n  sent failed\n";

const NO_LINES: &str = "fault 7 Device\n  lines failed\n";

/// The summary of frames whose Ethernet types are the numbers below 1,025.
const SUMMED: &str = "  1025 frames of another Ethernet type\n  1025 frames sent, by the program\n";

const NO_READ: &str = "fault 7 Device\n  capture failed\n";

/// The first reading finds the numbers that commands have in a part: where none is asked for, it takes one call of `next`, for the header. The
/// second takes one, since the whole capture has room in the reader's buffer, and from record 957 on, where fewer than 2,064 bytes are unread,
/// one more before each record and one at the end: 70 calls.
#[rattlefmt::skip]
const FAILING: [Failing; 29] = [
    ("the first reading is not opened",              "--exact", FolderCall::Open,   0,  1, NO_READ, None),
    ("the second one is not",                        "--exact", FolderCall::Open,   1,  1, NO_READ, None),
    ("there is no third one",                        "--exact", FolderCall::Open,   2,  0, "", ALL_SENT),
    ("the header is not read",                       "--exact", FolderCall::Next,   0,  1, NO_READ, None),
    ("the header is not read the second time",       "--exact", FolderCall::Next,   1,  1, NO_READ, None),
    ("the end is not read",                          "--exact", FolderCall::Next,   70, 1, NO_READ, None),
    ("nothing is read behind it",                    "--exact", FolderCall::Next,   71, 0, "", ALL_SENT),
    ("the sent frames are not begun",                "--exact", FolderCall::Begin,  0,  1, NO_SENT, None),
    ("their header is not added",                    "--exact", FolderCall::Add,    0,  1, NO_SENT, None),
    ("those of the first piece are not",             "--exact", FolderCall::Add,    1,  1, NO_SENT, None),
    ("those of the second piece are not",            "--exact", FolderCall::Add,    2,  1, NO_SENT, None),
    ("there is no third piece",                      "--exact", FolderCall::Add,    3,  0, "", ALL_SENT),
    ("they are not finished",                        "--exact", FolderCall::Finish, 0,  1, NO_SENT, None),
    ("no capture is read whole",                     "--exact", FolderCall::Read,   0,  0, "", ALL_SENT),
    ("no file is written whole",                     "--exact", FolderCall::Write,  0,  0, "", ALL_SENT),
    ("a summary is counted in pieces",               "--exact --summary", FolderCall::Read, 0, 0, SUMMED, ALL_SENT),
    ("a report is written in pieces",                "--exact --report lines", FolderCall::Read, 0, 0, "", ALL_SENT),
    ("it is not begun",                              "--exact --report lines", FolderCall::Begin, 1, 1, NO_LINES, None),
    ("its head is not added",                        "--exact --report lines", FolderCall::Add, 1, 1, NO_LINES, None),
    ("its lines of the second piece are not",        "--exact --report lines", FolderCall::Add, 5, 1, NO_LINES, None),
    ("it is not finished, behind the sent frames",   "--exact --report lines", FolderCall::Finish, 1, 1, NO_LINES, ALL_SENT),
    ("records that are skipped do not need it",      "--exact --skip-long", FolderCall::Read, 0, 0, "", ALL_SENT),
    ("records that are padded do not need it",       "--exact --pad-cut", FolderCall::Read, 0, 0, "", ALL_SENT),
    ("an end that may be cut does not need it",      "--exact --allow-cut", FolderCall::Read, 0, 0, "", ALL_SENT),
    ("a replay with threads reads it in pieces",     "--workers 1", FolderCall::Read, 0, 0, "", ALL_SENT),
    ("a part is not read whole",                     "--exact --part 0/1", FolderCall::Read, 0, 0, "", ALL_SENT),
    ("its second reading is not opened",             "--exact --part 0/1", FolderCall::Open, 1, 1, NO_READ, None),
    ("the frames of its second piece are not added", "--exact --part 0/1", FolderCall::Add, 2, 1, NO_SENT, None),
    ("a part with threads is not opened",            "--workers 1 --part 0/1", FolderCall::Open, 0, 1, NO_READ, None),
];

/// What a replay leaves in a folder with a call that fails.
fn left_in_failing<R: Abort + Threads + Wait + Sync>(
    rt: &R,
    alloc: Global,
    row: &Failing,
    folder: MemoryFolder,
) -> Left
    requires { folder.failures ≡ 0 }
{
    let (name, words, call, fails_at, _status, _err, _sent) = *row;
    let capture = numbered(rt, alloc, 1025);
    let folder = put(rt, alloc, folder, "capture", &capture);
    let folder = with_image(rt, alloc, name, folder, SENDS);
    let line = format!(in alloc; "xlb replay capture sent --image image {words}");
    let line = line.expect(rt, "a line");
    let weakness = Weakness {
        counts: Some(call),
        fails_at,
        ..SOUND_FOLDER
    };
    left_over(rt, alloc, folder, &line, weakness, NEVER, NEVER)
}

/// Compares a replay of a row, in a folder that has a file of the name that the sent frames are to have: where it isn't made, the file
/// stays as it was.
fn compare_failing<R: Abort + Threads + Wait + Sync>(rt: &R, alloc: Global, row: &Failing) {
    let (name, _words, _call, _fails_at, status, err, sent) = *row;
    let folder = put(rt, alloc, MemoryFolder::new(alloc), "sent", b"old");
    let left = left_in_failing(rt, alloc, row, folder);
    same_bytes_of(rt, name, "error", &left.err.taken, err.as_bytes());
    same_status(rt, name, left.status, status);
    compare_length(rt, alloc, name, left.folder.files, sent.unwrap_or(3));
}

/// The same in a folder that has no such file: where it isn't made, there is none.
fn compare_failing_new<R: Abort + Threads + Wait + Sync>(rt: &R, alloc: Global, row: &Failing) {
    let (name, _words, _call, _fails_at, status, err, sent) = *row;
    let left = left_in_failing(rt, alloc, row, MemoryFolder::new(alloc));
    same_bytes_of(rt, name, "error", &left.err.taken, err.as_bytes());
    same_status(rt, name, left.status, status);
    compare_made(rt, alloc, name, left.folder.files, sent);
}

/// Compares how many bytes the sent file has.
fn compare_length<R: Abort>(
    rt: &R,
    alloc: Global,
    name: &str,
    mut folder: MemoryFolder,
    length: usize,
) {
    has_few_failures(rt, name, &folder);
    let found = folder.read(alloc, "sent").expect(rt, "a file");
    holds_of(rt, name, "the length", found.len() == length);
}

/// The same; none: there is no such file.
fn compare_made<R: Abort>(
    rt: &R,
    alloc: Global,
    name: &str,
    folder: MemoryFolder,
    length: Option<usize>,
) {
    match length {
        Some(length) => compare_length(rt, alloc, name, folder, length),
        None => has_none(rt, alloc, name, folder, "sent"),
    }
}

#[test]
fn a_call_that_fails_leaves_no_file_in_part(rt: HostRuntime) {
    for row in &FAILING {
        compare_failing(&rt, rt.alloc(), row);
        compare_failing_new(&rt, rt.alloc(), row);
    }
}
