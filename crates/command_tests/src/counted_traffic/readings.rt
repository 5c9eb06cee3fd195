//! Captures that are read otherwise than as they are: padded, without an end that is cut, without long records.

use super::long_records::read;
use crate::asserting::{holds_of, same_bytes_of};
use capture_readings::{Reading, altered_capture};
use std::alloc::Global;
use std::process::Abort;

/// The header of a capture: pcap 2.4, low byte first.
const HEADER: &str = "d4c3b2a1020004000000000000000000ffff000001000000";

/// Records, in hexadecimal digits: their moments, how many bytes they keep, how many their frames had, and the bytes.
const WHOLE: &str = "01000000020000000200000002000000aabb";

const TWO_OF_5: &str = "01000000020000000200000005000000ccdd";

const PADDED_TO_5: &str = "01000000020000000500000005000000ccdd000000";

const NONE_OF_1: &str = "01000000020000000000000001000000";

const PADDED_TO_1: &str = "0100000002000000010000000100000000";

const THREE_OF_1: &str = "01000000020000000300000001000000112233";

const ONE_OF_9000: &str = "01000000020000000100000028230000ee";

const HEAD_OF_9000: &str = "01000000020000002823000028230000ee";

const NONE_OF_2049: &str = "01000000020000000000000001080000";

const HEAD_OF_2049: &str = "01000000020000000108000001080000";

const NONE_OF_MOST: &str = "010000000200000000000000ffffffff";

const HEAD_OF_MOST: &str = "0100000002000000ffffffffffffffff";

/// Records that are cut: in the head, in the bytes, and one that says it keeps more than any file has.
const HALF_A_HEAD: &str = "0100000002000000";

const ONE_OF_2_THERE: &str = "01000000020000000200000005000000cc";

const ENDLESS: &str = "0100000002000000ffffffffffffffffaabb";

/// What a row shows; whether a cut end is allowed, records are padded, and long ones skipped; the two records of a file, and what is read of
/// each; how many are skipped and how many padded, and how many bytes are left out at the end.
type Row = (
    &'static str,
    bool,
    bool,
    bool,
    &'static str,
    &'static str,
    &'static str,
    &'static str,
    u64,
    u64,
    usize,
);

#[rattlefmt::skip]
static ROWS: [Row; 26] = [
    ("no record",                        true,  true,  true,  "",           "",             "",           "",             0, 0, 0),
    ("nothing is asked for",             false, false, false, TWO_OF_5,     ENDLESS,        TWO_OF_5,     ENDLESS,        0, 0, 0),
    ("whole records stay",               true,  true,  true,  WHOLE,        WHOLE,          WHOLE,        WHOLE,          0, 0, 0),
    ("three zeros",                      false, true,  false, TWO_OF_5,     WHOLE,          PADDED_TO_5,  WHOLE,          0, 1, 0),
    ("the last one",                     false, true,  false, WHOLE,        TWO_OF_5,       WHOLE,        PADDED_TO_5,    0, 1, 0),
    ("two of them",                      false, true,  false, NONE_OF_1,    TWO_OF_5,       PADDED_TO_1,  PADDED_TO_5,    0, 2, 0),
    ("more than its frame had",          false, true,  false, THREE_OF_1,   NONE_OF_1,      THREE_OF_1,   PADDED_TO_1,    0, 1, 0),
    ("not padded unasked",               true,  false, true,  TWO_OF_5,     NONE_OF_1,      TWO_OF_5,     NONE_OF_1,      0, 0, 0),
    ("long once padded",                 false, true,  false, ONE_OF_9000,  WHOLE,          HEAD_OF_9000, WHOLE,          0, 0, 0),
    ("2049 bytes are long",              false, true,  false, NONE_OF_2049, TWO_OF_5,       HEAD_OF_2049, PADDED_TO_5,    0, 1, 0),
    ("the longest frame",                false, true,  false, NONE_OF_MOST, WHOLE,          HEAD_OF_MOST, WHOLE,          0, 0, 0),
    ("long once padded, skipped",        false, true,  true,  ONE_OF_9000,  TWO_OF_5,       "",           PADDED_TO_5,    1, 1, 0),
    ("the longest frame, skipped",       false, true,  true,  WHOLE,        NONE_OF_MOST,   WHOLE,        "",             1, 0, 0),
    ("2049 bytes are skipped",           true,  true,  true,  NONE_OF_2049, NONE_OF_2049,   "",           "",             2, 0, 0),
    ("short where it is not padded",     true,  false, true,  ONE_OF_9000,  NONE_OF_MOST,   ONE_OF_9000,  NONE_OF_MOST,   0, 0, 0),
    ("half a head stays",                false, true,  true,  TWO_OF_5,     HALF_A_HEAD,    PADDED_TO_5,  HALF_A_HEAD,    0, 1, 0),
    ("half a head goes",                 true,  false, false, WHOLE,        HALF_A_HEAD,    WHOLE,        "",             0, 0, 8),
    ("a cut frame stays, unpadded",      false, true,  true,  WHOLE,        ONE_OF_2_THERE, WHOLE,        ONE_OF_2_THERE, 0, 0, 0),
    ("a cut frame goes",                 true,  false, false, WHOLE,        ONE_OF_2_THERE, WHOLE,        "",             0, 0, 17),
    ("a cut frame goes, unpadded",       true,  true,  false, TWO_OF_5,     ONE_OF_2_THERE, PADDED_TO_5,  "",             0, 1, 17),
    ("a cut frame alone",                true,  false, false, "",           ONE_OF_2_THERE, "",           "",             0, 0, 17),
    ("a cut long record stays",          false, true,  true,  WHOLE,        ENDLESS,        WHOLE,        ENDLESS,        0, 0, 0),
    ("a cut long record goes",           true,  false, false, WHOLE,        ENDLESS,        WHOLE,        "",             0, 0, 18),
    ("what goes is not skipped",         true,  true,  true,  ONE_OF_9000,  ENDLESS,        "",           "",             1, 0, 18),
    ("records behind an endless one go", true,  false, false, ENDLESS,      WHOLE,          "",           "",             0, 0, 36),
    ("all at once",                      true,  true,  true,  NONE_OF_MOST, HALF_A_HEAD,    "",           "",             1, 0, 8),
];

/// The bytes of a capture's header and of these two records.
fn file_of(rt: &impl Abort, alloc: Global, first: &str, second: &str) -> Vec<u8> {
    let digits = format!(in alloc; "{HEADER}{first}{second}").expect(rt, "a text");
    hex::decode(alloc, &digits).expect(rt, "hexadecimal digits")
}

/// Compares what is read of a row's file.
fn compare(rt: &impl Abort, alloc: Global, row: &Row) {
    let (name, allow_cut, pad_cut, skip_long, first, second, ..) = *row;
    let (.., first_read, second_read, skipped, padded, left_over) = *row;
    let file = file_of(rt, alloc, first, second);
    let wanted = file_of(rt, alloc, first_read, second_read);
    let reading = Reading {
        skip_long,
        pad_cut,
        allow_cut,
    };
    let altered = altered_capture(alloc, &file, reading).expect(rt, "memory");
    same_bytes_of(
        rt,
        name,
        "bytes",
        altered.bytes.as_slice(),
        wanted.as_slice(),
    );
    holds_of(rt, name, "skipped", altered.skipped == skipped);
    holds_of(rt, name, "padded", altered.padded == padded);
    holds_of(rt, name, "left out", altered.left_over == left_over);
}

#[test]
fn captures_are_read_as_asked(rt: HostRuntime) {
    for row in &ROWS {
        compare(&rt, rt.alloc(), row);
    }
}

/// Everything that a reading may be asked to do.
const EVERYTHING: Reading = Reading {
    skip_long: true,
    pad_cut: true,
    allow_cut: true,
};

/// Holds a capture of a record that keeps nothing of a frame of so many bytes, once it is padded, against the frame.
fn pads_to(rt: &impl Abort, alloc: Global, frame: u16) {
    let digits = format!(in alloc; "{HEADER}010000000200000000000000").expect(rt, "a text");
    let mut file = hex::decode(alloc, &digits).expect(rt, "hexadecimal digits");
    file.extend_from_slice(&u32::from(frame).to_le_bytes())
        .expect(rt, "a length");
    let mut altered = altered_capture(alloc, &file, EVERYTHING).expect(rt, "memory");
    let capture = read(alloc, &mut altered.bytes).expect(rt, "a capture");
    let record = capture.records.first().expect(rt, "a record");
    holds_of(rt, "padded", "length", record.bytes.len() == frame as usize);
    holds_of(
        rt,
        "padded",
        "zeros",
        record.bytes.iter().all(|byte| *byte == 0),
    );
}

#[test]
fn frames_of_2048_bytes_are_padded(rt: HostRuntime) {
    pads_to(&rt, rt.alloc(), 2047);
    pads_to(&rt, rt.alloc(), 2048);
}

#[test]
fn cut_headers_stay(rt: HostRuntime) {
    let whole = file_of(&rt, rt.alloc(), "", "");
    for length in 0..25 {
        let bytes = whole.get(..length).expect(&rt, "a length");
        let altered = altered_capture(rt.alloc(), bytes, EVERYTHING).expect(&rt, "memory");
        same_bytes_of(&rt, "a header", "bytes", altered.bytes.as_slice(), bytes);
        holds_of(&rt, "a header", "left out", altered.left_over == 0);
    }
}
