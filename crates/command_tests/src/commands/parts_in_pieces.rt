//! Exact replays of parts of captures of several pieces: they come to what replays of the whole capture in memory come to, and to what was
//! worked out. The parts of the flows were worked out elsewhere.

use super::Wanted;
use super::in_pieces::{Files, SERVED, WAYS, compare_ways, numbered};
use super::long_records::HEADER;
use super::parts::{put_datagrams, put_tunnelled};
use super::replays::{IN_A_TUNNEL, IN_THE_OTHER_TUNNEL, SENDS};
use std::alloc::Global;
use std::process::Abort;
use std::sync::Wait;
use std::thread::Threads;

/// How many bytes of a capture are before its first record, and how many each of `numbered` has.
const BEFORE: usize = 24;

const RECORD: usize = 30;

/// What is printed where so many frames are run and sent.
fn all_sent<R: Abort>(rt: &R, alloc: Global, count: u16) -> String {
    let text = format!(in alloc;
        "frames {count}\nshort 0\nstopped 0\naborted 0\ndrop 0\npass 0\ntx {count}\n"
    );
    text.expect(rt, "a text")
}

/// What a row shows; how many records a capture has, all without a flow; the words of the part; which of the records are sent: so many are
/// before them, and so many up to their last one.
type Flowless = (&'static str, u16, &'static str, u16, u16);

/// A record without a flow is in the first part, and where that one is lost in the second.
#[rattlefmt::skip]
static FLOWLESS: [Flowless; 12] = [
    ("no record",                           0,    "--part 0/2",               0,    0),
    ("the first part of a piece",           1024, "--part 0/2",               0,    1024),
    ("the second part has none",            1024, "--part 1/2",               0,    0),
    ("the first part of more than a piece", 1025, "--part 0/2",               0,    1025),
    ("of two pieces the second part",       2048, "--part 1/2",               0,    0),
    ("lost between two pieces",             2048, "--part 0/2 --lost 0@1024", 0,    1024),
    ("the other part behind that",          2048, "--part 1/2 --lost 0@1024", 1024, 2048),
    ("lost within the second piece",        2048, "--part 0/2 --lost 0@1030", 0,    1030),
    ("the other part behind that",          2048, "--part 1/2 --lost 0@1030", 1030, 2048),
    ("lost before the first record",        1025, "--part 0/2 --lost 0@0",    0,    0),
    ("the other part has all",              1025, "--part 1/2 --lost 0@0",    0,    1025),
    ("lost behind the last record",         1025, "--part 0/2 --lost 0@1025", 0,    1025),
];

/// A capture of the first `to` numbered records without the first `from` ones.
fn between<R: Abort>(rt: &R, alloc: Global, from: u16, to: u16) -> Vec<u8> {
    let all = numbered(rt, alloc, to);
    let mut bytes = Vec::from_slice(alloc, &HEADER).expect(rt, "a header");
    let records = all.get(BEFORE + from as usize * RECORD..).unwrap_or(b"");
    bytes.extend_from_slice(records).expect(rt, "records");
    bytes
}

/// Compares what the replay of a row comes to, whichever way it is made.
fn compare_flowless<R: Abort + Threads + Wait + Sync>(rt: &R, alloc: Global, row: &Flowless) {
    let (name, count, part, from, to) = *row;
    let capture = numbered(rt, alloc, count);
    let sent = between(rt, alloc, from, to);
    let out = all_sent(rt, alloc, to.saturating_sub(from));
    let words = format!(in alloc; "--image image {part}").expect(rt, "words");
    let files = Files {
        text: SENDS,
        script: "",
        capture: &capture,
    };
    let wanted = Wanted {
        status: 0,
        out: &out,
        err: "",
    };
    compare_ways(rt, alloc, name, files, &words, wanted, Some(&sent), &WAYS);
}

#[test]
fn records_without_a_flow_are_in_one_part(rt: HostRuntime) {
    for row in &FLOWLESS {
        compare_flowless(&rt, rt.alloc(), row);
    }
}

/// Sources of datagrams, and how often they come one after another.
pub(super) type Sources = (&'static [u8], u16);

/// What a row shows; the number of the commands by which the first backend goes down and the second one comes up; the words of the part; what
/// is printed on the error stream; how many frames are sent; the sources of those to the first backend, and of those to the second one.
type Steered = (
    &'static str,
    u16,
    &'static str,
    &'static str,
    u16,
    &'static [Sources],
    &'static [Sources],
);

/// What is said of commands that act when all frames of the part were run.
const LATE: &str =
    "  line 4 of the script and 1 more come behind the last record: no frame is run after that\n";

/// The capture has 2,050 datagrams, from 1 and 2 in turn. Of three parts the flow of 1 is in part 1, and that of 2 in part 2; where its part is
/// lost, the flow of 1 is in part 2.
#[rattlefmt::skip]
static STEERED: [Steered; 13] = [
    ("between two pieces",             1024, "--part 1/3", "",   1025, &[(&[1], 512)],  &[(&[1], 513)]),
    ("of the next part",               1024, "--part 2/3", "",   1025, &[(&[2], 512)],  &[(&[2], 513)]),
    ("of a part without records",      1024, "--part 0/3", "",   0,    &[],             &[]),
    ("before the piece's last record", 1023, "--part 1/3", "",   1025, &[(&[1], 512)],  &[(&[1], 513)]),
    ("of the next part",               1023, "--part 2/3", "",   1025, &[(&[2], 511)],  &[(&[2], 514)]),
    ("in the second piece",            1025, "--part 1/3", "",   1025, &[(&[1], 513)],  &[(&[1], 512)]),
    ("of the next part",               1025, "--part 2/3", "",   1025, &[(&[2], 512)],  &[(&[2], 513)]),
    ("behind the part's last record",  2049, "--part 1/3", LATE, 1025, &[(&[1], 1025)], &[]),
    ("of the next part",               2049, "--part 2/3", "",   1025, &[(&[2], 1024)], &[(&[2], 1)]),
    ("a part that is lost",            1024, "--part 1/3 --lost 1@1024", LATE, 512, &[(&[1], 512)], &[]),
    ("the heir of its flow",           1024, "--part 2/3 --lost 1@1024", "", 1538, &[(&[2], 512)], &[(&[1, 2], 513)]),
    ("a loss in the second piece",     1024, "--part 2/3 --lost 1@1026", "", 1537, &[(&[2], 512)], &[(&[2], 1), (&[1, 2], 512)]),
    ("a loss behind the last record",  1024, "--part 2/3 --lost 1@2050", "", 1025, &[(&[2], 512)], &[(&[2], 513)]),
];

/// Puts the frames from these sources that are sent to a backend at the end of bytes.
fn put_sent<R: Abort>(rt: &R, alloc: Global, bytes: &mut Vec<u8>, tunnel: &str, from: &[Sources]) {
    for sources in from {
        put_tunnelled(rt, alloc, bytes, tunnel, sources.0, sources.1);
    }
}

/// The capture of what is sent of a row.
pub(super) fn sent_of<R: Abort>(
    rt: &R,
    alloc: Global,
    first: &[Sources],
    second: &[Sources],
) -> Vec<u8> {
    let mut bytes = Vec::from_slice(alloc, &HEADER).expect(rt, "a header");
    put_sent(rt, alloc, &mut bytes, IN_A_TUNNEL, first);
    put_sent(rt, alloc, &mut bytes, IN_THE_OTHER_TUNNEL, second);
    bytes
}

/// Compares what the replay of a row comes to, with a summary that is counted in pieces, and of the whole capture.
fn compare_steered<R: Abort + Threads + Wait + Sync>(rt: &R, alloc: Global, row: &Steered) {
    let (name, number, part, err, count, first, second) = *row;
    let script = format!(in alloc; "{SERVED}{number} down 0\n{number} up 1 192.0.2.2\n");
    let script = script.expect(rt, "a script");
    let mut capture = Vec::from_slice(alloc, &HEADER).expect(rt, "a header");
    put_datagrams(rt, alloc, &mut capture, &[1, 2], 1025);
    let sent = sent_of(rt, alloc, first, second);
    let out = all_sent(rt, alloc, count);
    let words = format!(in alloc; "--script script --ring 7 {part}").expect(rt, "words");
    let files = Files {
        text: "",
        script: &script,
        capture: &capture,
    };
    let wanted = Wanted {
        status: 0,
        out: &out,
        err,
    };
    compare_ways(rt, alloc, name, files, &words, wanted, Some(&sent), &[]);
}

#[test]
fn commands_keep_their_places_in_a_part(rt: HostRuntime) {
    for row in &STEERED {
        compare_steered(&rt, rt.alloc(), row);
    }
}
