//! Captures with records of more than 2048 bytes, and what is left of them.

use crate::asserting::{holds_of, same_bytes_of};
use capture_readings::{Reading, altered_capture};
use std::alloc::Global;
use std::process::Abort;
use wire::{Capture, CaptureFault, MemorySource, read_capture};

/// The header of a capture: pcap 2.4, low byte first, with a snap length of 262144 bytes.
static HEADER: [u8; 24] = [
    0xd4, 0xc3, 0xb2, 0xa1, 2, 0, 4, 0, 0, 0, 0, 0, 0, 0, 0, 0, 0, 0, 4, 0, 1, 0, 0, 0,
];

/// Long records are skipped, and no more.
const WITHOUT_LONG: Reading = Reading {
    skip_long: true,
    pad_cut: false,
    allow_cut: false,
};

/// What a row shows; how many bytes each of three records keeps, and whether it stays; how many bytes of the file are missing at its end;
/// and how many records are left out.
type Row = (&'static str, u16, bool, u16, bool, u16, bool, usize, u64);

#[rattlefmt::skip]
const ROWS: [Row; 10] = [
    ("no long record",                           14,    true,  2048, true,  60,    true,  0,     0),
    ("2049 bytes are too many",                  14,    true,  2049, false, 60,    true,  0,     1),
    ("the first one",                            2049,  false, 0,    true,  14,    true,  0,     1),
    ("the last one",                             14,    true,  0,    true,  9000,  false, 0,     1),
    ("all of them",                              2049,  false, 4000, false, 65535, false, 0,     3),
    ("the last byte of a long record is cut",    14,    true,  2049, false, 9000,  true,  1,     1),
    ("a long record is cut behind its head",     9000,  false, 14,   true,  9000,  true,  9000,  1),
    ("the head of a long record is cut",         9000,  false, 14,   true,  9000,  true,  9001,  1),
    ("a short record is cut",                    9000,  false, 9000, false, 14,    true,  14,    2),
    ("a cut record before a long one, both cut", 14,    true,  60,   true,  9000,  true,  9060,  0),
];

/// A record: its moment has its number, as each byte that it keeps; of its frame a byte more was there.
fn put_record(rt: &impl Abort, file: &mut Vec<u8>, number: u8, kept: u16) {
    let original = u32::from(kept) + 1;
    file.extend_from_slice(&[number, 1, 2, 3, number, 4, 5, 0])
        .expect(rt, "a moment");
    file.extend_from_slice(&u32::from(kept).to_le_bytes())
        .expect(rt, "a length");
    file.extend_from_slice(&original.to_le_bytes())
        .expect(rt, "a length");
    for _ in 0..kept {
        file.push(number).expect(rt, "room");
    }
}

/// The file of a row: of all its records, or of those that stay.
fn file_of(rt: &impl Abort, alloc: Global, row: &Row, all: bool) -> Vec<u8> {
    let (_, first, first_stays, second, second_stays, third, third_stays, missing, _) = *row;
    let mut file = Vec::from_slice(alloc, &HEADER).expect(rt, "a header");
    if all || first_stays {
        put_record(rt, &mut file, 1, first);
    }
    if all || second_stays {
        put_record(rt, &mut file, 2, second);
    }
    if all || third_stays {
        put_record(rt, &mut file, 3, third);
    }
    let left = file.len().saturating_sub(missing);
    file.truncate(left);
    file
}

/// Compares what is left of a row's file.
fn compare(rt: &impl Abort, alloc: Global, row: &Row) {
    let (name, .., skipped) = *row;
    let file = file_of(rt, alloc, row, true);
    let wanted = file_of(rt, alloc, row, false);
    let shortened = altered_capture(alloc, &file, WITHOUT_LONG).expect(rt, "memory");
    same_bytes_of(
        rt,
        name,
        "bytes",
        shortened.bytes.as_slice(),
        wanted.as_slice(),
    );
    holds_of(rt, name, "left out", shortened.skipped == skipped);
}

#[test]
fn long_records_are_left_out(rt: HostRuntime) {
    for row in &ROWS {
        compare(&rt, rt.alloc(), row);
    }
}

/// Compares what is left of bytes that have no whole record.
fn stays(rt: &impl Abort, alloc: Global, bytes: &[u8]) {
    let shortened = altered_capture(alloc, bytes, WITHOUT_LONG).expect(rt, "memory");
    same_bytes_of(
        rt,
        "no whole record",
        "bytes",
        shortened.bytes.as_slice(),
        bytes,
    );
    holds_of(rt, "no whole record", "left out", shortened.skipped == 0);
}

/// A capture whose first record is longer than any file, and which has another one behind its head.
fn endless_file(rt: &impl Abort, alloc: Global) -> Vec<u8> {
    let mut endless = Vec::from_slice(alloc, &HEADER).expect(rt, "a header");
    endless
        .extend_from_slice(&[0, 0, 0, 0, 0, 0, 0, 0, 255, 255, 255, 255, 0, 0, 0, 0])
        .expect(rt, "a head");
    put_record(rt, &mut endless, 1, 9000);
    endless
}

#[test]
fn files_without_records_stay(rt: HostRuntime) {
    for length in 0..25 {
        stays(
            &rt,
            rt.alloc(),
            HEADER.get(..length).expect(&rt, "a length"),
        );
    }
    let endless = endless_file(&rt, rt.alloc());
    stays(&rt, rt.alloc(), &endless);
}

/// Reads a capture of fewer bytes than a million.
pub(super) fn read(alloc: Global, bytes: &mut Vec<u8>) -> Result<Capture, CaptureFault> {
    bytes.truncate(1_000_000);
    read_capture(alloc, &mut MemorySource::new(bytes))
}

#[test]
fn what_is_left_is_read(rt: HostRuntime) {
    let alloc = rt.alloc();
    let mut file = file_of(&rt, alloc, &ROWS[1], true);
    let before = read(alloc, &mut file);
    holds_of(&rt, "before", "refused", before.is_err());
    let mut shortened = altered_capture(alloc, &file, WITHOUT_LONG).expect(&rt, "memory");
    let capture = read(alloc, &mut shortened.bytes).expect(&rt, "a capture");
    holds_of(&rt, "after", "two records", capture.records.len() == 2);
    let third = capture.records[1].bytes.len();
    holds_of(&rt, "after", "the third", third == 60);
}
