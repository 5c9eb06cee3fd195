//! Replays of captures with a record of more than 2048 bytes.

use super::replays::{SENDS, TWO_TX, compare_sent};
use super::{Wanted, left_by, put, with_image};
use folders::MemoryFolder;
use std::alloc::Global;
use std::process::Abort;
use std::sync::Wait;
use std::thread::Threads;

/// The header of a capture.
pub(super) const HEADER: [u8; 24] = [
    0xd4, 0xc3, 0xb2, 0xa1, 2, 0, 4, 0, 0, 0, 0, 0, 0, 0, 0, 0, 0xff, 0xff, 0, 0, 1, 0, 0, 0,
];

/// A record of 14 zeros.
pub(super) const RECORD: [u8; 30] = [
    1, 0, 0, 0, 2, 0, 0, 0, 14, 0, 0, 0, 14, 0, 0, 0, 0, 0, 0, 0, 0, 0, 0, 0, 0, 0, 0, 0, 0, 0,
];

/// The head of a record of 2049 bytes.
pub(super) const LONG_HEAD: [u8; 16] = [1, 0, 0, 0, 2, 0, 0, 0, 1, 8, 0, 0, 1, 8, 0, 0];

/// A capture of two frames of 14 zeros, at 1 second and 2 microseconds.
pub(super) const TWO_ZEROS: &str = "\
    d4c3b2a1020004000000000000000000ffff000001000000\
    01000000020000000e0000000e000000\
    0000000000000000000000000000\
    01000000020000000e0000000e000000\
    0000000000000000000000000000";

/// A capture of a record of 14 zeros, one of 2049 zeros, and the first `bytes_of_last` bytes of another one of 14 zeros.
fn capture<R: Abort>(rt: &R, alloc: Global, bytes_of_last: usize) -> Vec<u8> {
    let mut bytes = Vec::from_slice(alloc, &HEADER).expect(rt, "a header");
    bytes.extend_from_slice(&RECORD).expect(rt, "a record");
    bytes.extend_from_slice(&LONG_HEAD).expect(rt, "a head");
    for _ in 0..2049 {
        bytes.push(0).expect(rt, "room");
    }
    let last = RECORD.get(..bytes_of_last).unwrap_or(&RECORD);
    bytes.extend_from_slice(last).expect(rt, "a record");
    bytes
}

/// What a row shows; how many bytes of the last record there are; the words after the files; what it comes to: its status, its report and
/// its fault, or its notes; and the digits of the sent file, nothing where there is no such file.
type Row = (
    &'static str,
    usize,
    &'static str,
    u8,
    &'static str,
    &'static str,
    &'static str,
);

#[rattlefmt::skip]
const ROWS: [Row; 3] = [
    ("a long record is refused", 30, "--workers 1", 1, "", 
        "fault 6 FrameTooLong record 2\n  at byte 54 of 2149\n  \
         the record keeps 2049 bytes, and a frame has at most 2048: xlb replay --skip-long skips such records\n", ""),
    ("a long record is skipped", 30, "--skip-long", 0, TWO_TX, "  long 1: records above 2048 bytes were skipped\n", TWO_ZEROS),
    ("a cut record behind it",   29, "--skip-long", 1, "", 
        "fault 5 CutFrame record 2\n  at byte 2119 of 2148\n  \
         the record keeps 14 bytes by its head, and the file has 13 of them, 1 too few: xlb replay --allow-cut reads up to there\n", ""),
];

/// Holds what a replay comes to against a row.
fn compare_row<R: Abort + Threads + Wait + Sync>(rt: &R, alloc: Global, row: &Row) {
    let (name, bytes_of_last, words, status, out, err, sent) = *row;
    let bytes = capture(rt, alloc, bytes_of_last);
    let folder = put(rt, alloc, MemoryFolder::new(alloc), "capture", &bytes);
    let folder = with_image(rt, alloc, name, folder, SENDS);
    let line = format!(in alloc; "xlb replay capture sent --image image {words}").expect(
        rt, "a line",
    );
    let wanted = Wanted { status, out, err };
    let folder = left_by(rt, alloc, name, folder, &line, wanted);
    compare_sent(rt, alloc, name, folder, sent);
}

#[test]
fn long_records_are_skipped(rt: HostRuntime) {
    for row in &ROWS {
        compare_row(&rt, rt.alloc(), row);
    }
}
