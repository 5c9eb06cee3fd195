//! Replays of the parts of a capture: each sends the frames of its flows, and a command takes effect before the same frames as in the whole
//! capture. The parts of the flows were worked out elsewhere.

use super::long_records::HEADER;
use super::replays::{DATAGRAM, IN_A_TUNNEL, IN_THE_OTHER_TUNNEL};
use super::{Wanted, compare_file, left_by, put};
use folders::MemoryFolder;
use std::alloc::Global;
use std::process::Abort;
use std::sync::Wait;
use std::thread::Threads;

/// How many bytes of a capture are before its first record.
const BEFORE: usize = 24;

/// Where the last byte of the source's address is in a capture of a datagram, and in one of a datagram in a tunnel.
const SOURCE: usize = 69;

const SOURCE_IN_A_TUNNEL: usize = 89;

/// The last bytes of the sources' addresses, one for each frame of the capture. Of three parts the flow of 1 is in part 1, that of 2 in
/// part 2 and that of 3 in part 0; where its part is lost, the flow of 1 is in the second of the other two, and that of 2 in the first.
const SOURCES: [u8; 8] = [1, 2, 3, 1, 3, 2, 1, 3];

/// A service with a backend, which goes down behind the fourth frame, and another one comes up.
const MOVES_AT_4: &str =
    "0 gateway 10.0.0.9 02:00:00:00:00:0a 02:00:00:00:00:0b\n0 vip 203.0.113.1 80 udp\n0 up 0 192.0.2.1\n\
    4 down 0\n4 up 1 192.0.2.2\n";

/// The same behind the sixth frame.
const MOVES_AT_6: &str =
    "0 gateway 10.0.0.9 02:00:00:00:00:0a 02:00:00:00:00:0b\n0 vip 203.0.113.1 80 udp\n0 up 0 192.0.2.1\n\
    6 down 0\n6 up 1 192.0.2.2\n";

const TWO: &str = "frames 2\nshort 0\nstopped 0\naborted 0\ndrop 0\npass 0\ntx 2\n";

const THREE: &str = "frames 3\nshort 0\nstopped 0\naborted 0\ndrop 0\npass 0\ntx 3\n";

const FOUR: &str = "frames 4\nshort 0\nstopped 0\naborted 0\ndrop 0\npass 0\ntx 4\n";

const EIGHT: &str = "frames 8\nshort 0\nstopped 0\naborted 0\ndrop 0\npass 0\ntx 8\n";

/// What is said of commands behind the last frame of a part.
const LATE: &str =
    "  line 4 of the script and 1 more come behind the last record: no frame is run after that\n";

/// What a row shows; the script; the words of the part; the status, and what is printed on both streams; the sources of the frames that are
/// sent to the first backend, and behind these of those that are sent to the second one.
type Row = (
    &'static str,
    &'static str,
    &'static str,
    u8,
    &'static str,
    &'static str,
    &'static [u8],
    &'static [u8],
);

#[rattlefmt::skip]
static ROWS: [Row; 14] = [
    ("the whole capture",             MOVES_AT_4, "--exact",            0, EIGHT, "",   &[1, 2, 3, 1], &[3, 2, 1, 3]),
    ("its only part",                 MOVES_AT_4, "--exact --part 0/1", 0, EIGHT, "",   &[1, 2, 3, 1], &[3, 2, 1, 3]),
    ("the first of three parts",      MOVES_AT_4, "--exact --part 0/3", 0, THREE, "",   &[3],          &[3, 3]),
    ("the second one",                MOVES_AT_4, "--exact --part 1/3", 0, THREE, "",   &[1, 1],       &[1]),
    ("the third one",                 MOVES_AT_4, "--exact --part 2/3", 0, TWO,   "",   &[2],          &[2]),
    ("with nothing left out",         MOVES_AT_4, "--exact --part 2/3 --strict", 0, TWO, "", &[2],      &[2]),
    ("behind the part's last frame",  MOVES_AT_6, "--exact --part 2/3", 0, TWO,   LATE, &[2, 2],       &[]),
    ("which is left out",             MOVES_AT_6, "--exact --part 2/3 --strict", 1, TWO, LATE, &[2, 2], &[]),
    ("before another's last frame",   MOVES_AT_6, "--exact --part 1/3 --strict", 0, THREE, "", &[1, 1], &[1]),
    ("a part that is lost",           MOVES_AT_4, "--exact --part 1/3 --lost 1@4", 0, TWO, LATE, &[1, 1], &[]),
    ("the heir of its flow",          MOVES_AT_4, "--exact --part 2/3 --lost 1@4", 0, THREE, "", &[2],   &[2, 1]),
    ("another part beside the loss",  MOVES_AT_4, "--exact --part 0/3 --lost 1@4", 0, THREE, "", &[3],   &[3, 3]),
    ("the first part as the heir",    MOVES_AT_4, "--exact --part 0/3 --lost 2@4", 0, FOUR, "", &[3],    &[3, 2, 3]),
    ("a loss behind the last record", MOVES_AT_4, "--exact --part 1/3 --lost 1@8", 0, THREE, "", &[1, 1], &[1]),
];

/// Puts the record of a capture of one record at the end of bytes, from another source.
fn put_record<R: Abort>(
    rt: &R,
    alloc: Global,
    bytes: &mut Vec<u8>,
    digits: &str,
    place: usize,
    source: u8,
) {
    let mut capture = hex::decode(alloc, digits).expect(rt, "hexadecimal digits");
    if let Some(byte) = capture.get_mut(place) {
        *byte = source;
    }
    // The header's checksum is 0x1494 where the source ends in 7.
    if let Some(byte) = capture.get_mut(place.saturating_sub(4)) {
        *byte = 0x9b_u8.saturating_sub(source);
    }
    let record = capture.get(BEFORE..).unwrap_or(b"");
    bytes.extend_from_slice(record).expect(rt, "a record");
}

/// The records of captures of one record, from each of these sources.
fn records_of<R: Abort>(
    rt: &R,
    alloc: Global,
    digits: &str,
    place: usize,
    sources: &[u8],
) -> Vec<u8> {
    let mut records = Vec::new(alloc);
    for source in sources {
        put_record(rt, alloc, &mut records, digits, place, *source);
    }
    records
}

/// Puts the records of datagrams from these sources at the end of bytes, so often.
pub(super) fn put_datagrams<R: Abort>(
    rt: &R,
    alloc: Global,
    bytes: &mut Vec<u8>,
    sources: &[u8],
    times: u16,
) {
    let records = records_of(rt, alloc, DATAGRAM, SOURCE, sources);
    for _ in 0..times {
        bytes.extend_from_slice(&records).expect(rt, "records");
    }
}

/// Puts the records of such datagrams, in the tunnel to a backend, at the end of bytes, so often.
pub(super) fn put_tunnelled<R: Abort>(
    rt: &R,
    alloc: Global,
    bytes: &mut Vec<u8>,
    tunnel: &str,
    sources: &[u8],
    times: u16,
) {
    let records = records_of(rt, alloc, tunnel, SOURCE_IN_A_TUNNEL, sources);
    for _ in 0..times {
        bytes.extend_from_slice(&records).expect(rt, "records");
    }
}

/// The capture of a datagram from each of these sources.
fn captured<R: Abort>(rt: &R, alloc: Global) -> Vec<u8> {
    let mut bytes = Vec::from_slice(alloc, &HEADER).expect(rt, "a header");
    put_datagrams(rt, alloc, &mut bytes, &SOURCES, 1);
    bytes
}

/// The capture of what is sent of a row.
fn sent_of<R: Abort>(rt: &R, alloc: Global, first: &[u8], second: &[u8]) -> Vec<u8> {
    let mut bytes = Vec::from_slice(alloc, &HEADER).expect(rt, "a header");
    put_tunnelled(rt, alloc, &mut bytes, IN_A_TUNNEL, first, 1);
    put_tunnelled(rt, alloc, &mut bytes, IN_THE_OTHER_TUNNEL, second, 1);
    bytes
}

/// Holds what a replay comes to against a row.
fn compare_row<R: Abort + Threads + Wait + Sync>(rt: &R, alloc: Global, row: &Row) {
    let (name, script, words, status, out, err, first, second) = *row;
    let folder = put(
        rt,
        alloc,
        MemoryFolder::new(alloc),
        "capture",
        &captured(rt, alloc),
    );
    let folder = put(rt, alloc, folder, "script", script.as_bytes());
    let line = format!(in alloc; "xlb replay capture sent --script script --ring 7 {words}");
    let line = line.expect(rt, "a line");
    let folder = left_by(rt, alloc, name, folder, &line, Wanted { status, out, err });
    compare_file(
        rt,
        alloc,
        name,
        folder,
        "sent",
        &sent_of(rt, alloc, first, second),
    );
}

#[test]
fn parts_are_replayed(rt: HostRuntime) {
    for row in &ROWS {
        compare_row(&rt, rt.alloc(), row);
    }
}
