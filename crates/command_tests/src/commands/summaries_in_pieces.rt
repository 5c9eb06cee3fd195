//! Summaries that are counted in pieces of 1,024 records: they say what was worked out, and what the whole way says.

use super::Wanted;
use super::in_pieces::{Files, SUMMARY, WHOLE_SUMMARY, compare_way};
use super::long_records::HEADER;
use super::parts::put_datagrams;
use super::parts_in_pieces::{Sources, sent_of};
use std::alloc::Global;
use std::process::Abort;
use std::sync::Wait;
use std::thread::Threads;

/// What a row shows; the script; the words of the replay; the sources of the captured datagrams; what is printed on both streams; the sources
/// of those that are sent to the first backend, and behind these of those that are sent to the second one.
type Summed = (
    &'static str,
    &'static str,
    &'static str,
    &'static [Sources],
    &'static str,
    &'static str,
    &'static [Sources],
    &'static [Sources],
);

/// The words of a replay of all records, and of a part.
const ALL: &str = "--script script --ring 7";

const PART: &str = "--script script --ring 7 --part 1/3";

/// The lookup table's slots are read from its map, which has one place more.
const WITHOUT_ROWS: &str = "--script script --ring 7 --no-journals";

/// The sources of twelve flows.
const TWELVE: &[u8] = &[1, 2, 3, 4, 5, 6, 7, 8, 9, 10, 11, 12];

/// The first backend goes down between two pieces, and the second one comes up.
const MOVES_AT_1024: &str =
    "0 gateway 10.0.0.9 02:00:00:00:00:0a 02:00:00:00:00:0b\n0 vip 203.0.113.1 80 udp\n0 up 0 192.0.2.1\n\
    1024 down 0\n1024 up 1 192.0.2.2\n";

const ONE_MOVED: &str = "  1030 frames of TCP or UDP that fit into a tunnel
  1024 frames sent to 192.0.2.1
  6 frames sent to 192.0.2.2
  1 frame sent to another address than the frame of their flow before
  1 of these because the noted backend is not up
  1030 frames for 203.0.113.1 port 80 udp
  7 of 7 slots of the lookup table for backend 1, 192.0.2.2, at the end
  record 1025 went to another address than the frame of its flow before
";

/// The same behind 171 datagrams of each of twelve flows, in the third piece.
const MOVES_AT_2052: &str =
    "0 gateway 10.0.0.9 02:00:00:00:00:0a 02:00:00:00:00:0b\n0 vip 203.0.113.1 80 udp\n0 up 0 192.0.2.1\n\
    2052 down 0\n2052 up 1 192.0.2.2\n";

const TWELVE_MOVED: &str = "  2100 frames of TCP or UDP that fit into a tunnel
  2052 frames sent to 192.0.2.1
  48 frames sent to 192.0.2.2
  12 frames sent to another address than the frame of their flow before
  12 of these because the noted backend is not up
  2100 frames for 203.0.113.1 port 80 udp
  7 of 7 slots of the lookup table for backend 1, 192.0.2.2, at the end
  record 2053 went to another address than the frame of its flow before
  record 2054 went to another address than the frame of its flow before
  record 2055 went to another address than the frame of its flow before
  record 2056 went to another address than the frame of its flow before
  record 2057 went to another address than the frame of its flow before
  record 2058 went to another address than the frame of its flow before
  record 2059 went to another address than the frame of its flow before
  record 2060 went to another address than the frame of its flow before
  record 2061 went to another address than the frame of its flow before
  record 2062 went to another address than the frame of its flow before
  and 2 more records
";

/// The first backend comes up in the second piece.
const UP_AT_1026: &str =
    "0 gateway 10.0.0.9 02:00:00:00:00:0a 02:00:00:00:00:0b\n0 vip 203.0.113.1 80 udp\n1026 up 0 192.0.2.1\n";

const NO_BACKEND: &str = "  1030 frames of TCP or UDP that fit into a tunnel
  4 frames sent to 192.0.2.1
  1030 frames for 203.0.113.1 port 80 udp
  1026 frames dropped, without a tunnel or a backend that is up
  7 of 7 slots of the lookup table for backend 0, 192.0.2.1, at the end
";

/// There is another service, and the datagrams' own one comes in the second piece.
const VIP_AT_1027: &str =
    "0 gateway 10.0.0.9 02:00:00:00:00:0a 02:00:00:00:00:0b\n0 vip 203.0.113.1 81 udp\n0 up 0 192.0.2.1\n\
    1027 vip 203.0.113.1 80 udp\n";

const NO_SERVICE: &str = "  1030 frames of TCP or UDP that fit into a tunnel
  3 frames sent to 192.0.2.1
  1030 frames for 203.0.113.1 port 80 udp
  1027 frames passed, for no service
  7 of 7 slots of the lookup table for backend 0, 192.0.2.1, at the end
";

/// Of two flows, one has its frames in this part.
const PART_MOVED: &str = "  1025 frames of TCP or UDP that fit into a tunnel
  512 frames sent to 192.0.2.1
  513 frames sent to 192.0.2.2
  1 frame sent to another address than the frame of their flow before
  1 of these because the noted backend is not up
  1025 frames for 203.0.113.1 port 80 udp
  7 of 7 slots of the lookup table for backend 1, 192.0.2.2, at the end
  record 513 went to another address than the frame of its flow before
";

#[rattlefmt::skip]
static SUMMED: [Summed; 6] = [
    ("a flow moves between two pieces", MOVES_AT_1024, ALL, &[(&[1], 1030)],
        "frames 1030\nshort 0\nstopped 0\naborted 0\ndrop 0\npass 0\ntx 1030\n", ONE_MOVED, &[(&[1], 1024)], &[(&[1], 6)]),
    ("the same, without rows of journals", MOVES_AT_1024, WITHOUT_ROWS, &[(&[1], 1030)],
        "frames 1030\nshort 0\nstopped 0\naborted 0\ndrop 0\npass 0\ntx 1030\n", ONE_MOVED, &[(&[1], 1024)], &[(&[1], 6)]),
    ("more than ten move in the third piece", MOVES_AT_2052, ALL, &[(TWELVE, 175)],
        "frames 2100\nshort 0\nstopped 0\naborted 0\ndrop 0\npass 0\ntx 2100\n", TWELVE_MOVED, &[(TWELVE, 171)], &[(TWELVE, 4)]),
    ("a service without a backend", UP_AT_1026, ALL, &[(&[1], 1030)],
        "frames 1030\nshort 0\nstopped 0\naborted 0\ndrop 1026\npass 0\ntx 4\n", NO_BACKEND, &[(&[1], 4)], &[]),
    ("a service of the second piece", VIP_AT_1027, ALL, &[(&[1], 1030)],
        "frames 1030\nshort 0\nstopped 0\naborted 0\ndrop 0\npass 1027\ntx 3\n", NO_SERVICE, &[(&[1], 3)], &[]),
    ("a part of two pieces", MOVES_AT_1024, PART, &[(&[1, 2], 1025)],
        "frames 1025\nshort 0\nstopped 0\naborted 0\ndrop 0\npass 0\ntx 1025\n", PART_MOVED, &[(&[1], 512)], &[(&[1], 513)]),
];

/// The capture of a row.
fn captured<R: Abort>(rt: &R, alloc: Global, from: &[Sources]) -> Vec<u8> {
    let mut bytes = Vec::from_slice(alloc, &HEADER).expect(rt, "a header");
    for sources in from {
        put_datagrams(rt, alloc, &mut bytes, sources.0, sources.1);
    }
    bytes
}

/// Compares what the replay of a row comes to, in pieces and with the whole capture in memory.
fn compare_summed<R: Abort + Threads + Wait + Sync>(rt: &R, alloc: Global, row: &Summed) {
    let (name, script, words, from, out, err, first, second) = *row;
    let capture = captured(rt, alloc, from);
    let sent = sent_of(rt, alloc, first, second);
    let files = Files {
        text: "",
        script,
        capture: &capture,
    };
    let wanted = Wanted {
        status: 0,
        out,
        err,
    };
    compare_way(rt, alloc, name, files, words, wanted, Some(&sent), SUMMARY);
    compare_way(
        rt,
        alloc,
        name,
        files,
        words,
        wanted,
        Some(&sent),
        WHOLE_SUMMARY,
    );
}

#[test]
fn summaries_are_counted_over_all_pieces(rt: HostRuntime) {
    for row in &SUMMED {
        compare_summed(&rt, rt.alloc(), row);
    }
}
