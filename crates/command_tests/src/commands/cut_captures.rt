//! Replays of captures that are cut: records that keep fewer bytes than their frames had, and an end within a record.

use super::long_records::{HEADER, RECORD, TWO_ZEROS};
use super::replays::{SENDS, TWO_TX, compare_sent};
use super::{Wanted, left_by, put, with_image};
use folders::MemoryFolder;
use std::alloc::Global;
use std::process::Abort;
use std::sync::Wait;
use std::thread::Threads;

/// The report of one frame that is sent.
const ONE_TX: &str = "frames 1\nshort 0\nstopped 0\naborted 0\ndrop 0\npass 0\ntx 1\n";

/// A capture of a frame of 14 zeros, and of one of 16.
const PADDED: &str = "\
    d4c3b2a1020004000000000000000000ffff000001000000\
    01000000020000000e0000000e000000\
    0000000000000000000000000000\
    01000000020000001000000010000000\
    00000000000000000000000000000000";

/// A capture of a frame of 14 zeros.
const ONE_ZERO: &str = "\
    d4c3b2a1020004000000000000000000ffff000001000000\
    01000000020000000e0000000e000000\
    0000000000000000000000000000";

/// A capture of a record of 14 zeros, one of 14 zeros of a frame of so many bytes, and the first `bytes_of_last` bytes of another like the
/// first.
fn capture<R: Abort>(rt: &R, alloc: Global, frame: u16, bytes_of_last: usize) -> Vec<u8> {
    let mut bytes = Vec::from_slice(alloc, &HEADER).expect(rt, "a header");
    bytes.extend_from_slice(&RECORD).expect(rt, "a record");
    bytes
        .extend_from_slice(&[1, 0, 0, 0, 2, 0, 0, 0, 14, 0, 0, 0])
        .expect(rt, "a moment");
    bytes
        .extend_from_slice(&u32::from(frame).to_le_bytes())
        .expect(rt, "a length");
    bytes.extend_from_slice(&[0; 14]).expect(rt, "zeros");
    let last = RECORD.get(..bytes_of_last).unwrap_or(&RECORD);
    bytes.extend_from_slice(last).expect(rt, "a record");
    bytes
}

/// What a row shows; the length of the second frame, and how many bytes of the last record there are; the words after the files; what it
/// comes to: its status, its report and its fault, or its notes; and the digits of the sent file, nothing where there is no such file.
type Row = (
    &'static str,
    u16,
    usize,
    &'static str,
    u8,
    &'static str,
    &'static str,
    &'static str,
);

#[rattlefmt::skip]
const ROWS: [Row; 10] = [
    ("a cut record",                16,   0,  "--workers 1", 0, TWO_TX,
        "  cut 1: bytes were left out when these records were captured, and such a frame may be passed as malformed: --pad-cut fills them up\n", TWO_ZEROS),
    ("it is padded",                16,   0,  "--pad-cut", 0, TWO_TX,
        "  padded 1: these records were filled with zeros, to the length of their frames\n", PADDED),
    ("it is padded in turn",        16,   0,  "--pad-cut --exact", 0, TWO_TX,
        "  padded 1: these records were filled with zeros, to the length of their frames\n", PADDED),
    ("no record is cut",            14,   0,  "--pad-cut --allow-cut", 0, TWO_TX, "", TWO_ZEROS),
    ("a cut end is refused",        14,   29, "--pad-cut", 1, "",
        "fault 5 CutFrame record 3\n  at byte 84 of 113\n  \
         the record keeps 14 bytes by its head, and the file has 13 of them, 1 too few: xlb replay --allow-cut reads up to there\n", ""),
    ("it is left out",              14,   29, "--allow-cut", 0, TWO_TX,
        "  left out 29: bytes of record 3, within which the capture ends\n", TWO_ZEROS),
    ("in turn, within a head",      16,   8,  "--allow-cut --pad-cut --exact", 0, TWO_TX,
        "  padded 1: these records were filled with zeros, to the length of their frames\n  \
         left out 8: bytes of record 3, within which the capture ends\n", PADDED),
    ("a frame of 9000 bytes",       9000, 0,  "--pad-cut --allow-cut", 1, "",
        "fault 6 FrameTooLong record 2\n  at byte 54 of 84\n  \
         the record keeps 14 bytes of a frame of 9000, and a frame has at most 2048: xlb replay --skip-long skips such records\n", ""),
    ("it is skipped",               9000, 29, "--pad-cut --allow-cut --skip-long", 0, ONE_TX,
        "  long 1: records above 2048 bytes were skipped\n  \
         left out 29: bytes of record 3, within which the capture ends\n", ONE_ZERO),
    ("a cut end behind it",         9000, 29, "--pad-cut --skip-long", 1, "",
        "fault 5 CutFrame record 2\n  at byte 84 of 113\n  \
         the record keeps 14 bytes by its head, and the file has 13 of them, 1 too few: xlb replay --allow-cut reads up to there\n", ""),
];

/// Holds what a replay comes to against a row.
fn compare_row<R: Abort + Threads + Wait + Sync>(rt: &R, alloc: Global, row: &Row) {
    let (name, frame, bytes_of_last, words, status, out, err, sent) = *row;
    let bytes = capture(rt, alloc, frame, bytes_of_last);
    let folder = put(rt, alloc, MemoryFolder::new(alloc), "capture", &bytes);
    let folder = with_image(rt, alloc, name, folder, SENDS);
    let line = format!(in alloc; "xlb replay capture sent --image image {words}").expect(
        rt, "a line",
    );
    let wanted = Wanted { status, out, err };
    let folder = left_by(rt, alloc, name, folder, &line, wanted);
    compare_sent(rt, alloc, name, folder, sent);
}

#[test]
fn cut_captures_are_read(rt: HostRuntime) {
    for row in &ROWS {
        compare_row(&rt, rt.alloc(), row);
    }
}
