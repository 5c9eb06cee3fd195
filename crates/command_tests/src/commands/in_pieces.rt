//! Exact replays, whose captures are read in pieces of 1,024 records, and whose sent frames are written in pieces: they come to what the
//! replay of a whole capture in memory comes to, and to what was worked out.

ghost use Rattle.std.specs.Prelude.{◌≡◌};

use super::long_records::{HEADER, LONG_HEAD, RECORD};
use super::replays::{CUT_TWO, DATAGRAM, IN_A_TUNNEL, IN_THE_OTHER_TUNNEL, SENDS};
use super::weak_devices::{Left, NEVER, SOUND_FOLDER, Weakness, has_few_failures, left_over};
use super::{Wanted, put, with_image};
use crate::asserting::{holds_of, same_bytes_of, same_status};
use folders::{Folder, MemoryFolder};
use std::alloc::Global;
use std::process::Abort;
use std::sync::Wait;
use std::thread::Threads;
use test_support::programs::{COUNTS_TO_THREE, READS_ONE};

/// How many bytes of a capture are before its first record.
const BEFORE: usize = 24;

/// What a replay reads.
#[derive(Clone, Copy)]
pub(super) struct Files<'a> {
    /// The image's text; none: the shipped program.
    pub text: &'a str,
    pub script: &'a str,
    pub capture: &'a [u8],
}

/// How a replay is made: the words for it, and what its folder does not do.
#[derive(Clone, Copy)]
pub(super) struct WayRow<'a> {
    name: &'a str,
    words: &'a str,
    opens: bool,
    begins: bool,
}

/// Ways that are to come to the same, up to the last letter.
#[rattlefmt::skip]
pub(super) const WAYS: [WayRow<'static>; 3] = [
    IN_PIECES,
    WayRow { name: "no file is made in pieces",   words: "--exact", opens: true,  begins: false },
    WayRow { name: "no file is read in pieces",   words: "--exact", opens: false, begins: true },
];

pub(super) const IN_PIECES: WayRow<'static> = WayRow {
    name: "in pieces",
    words: "--exact",
    opens: true,
    begins: true,
};

/// A way whose notes have a summary more, and that writes a report.
pub(super) const SUMMARY: WayRow<'static> = WayRow {
    name: "with a summary and a report",
    words: "--exact --summary --report lines",
    opens: true,
    begins: true,
};

/// The same with the capture in memory.
pub(super) const WHOLE_SUMMARY: WayRow<'static> = WayRow {
    name: "with a summary and a report of the whole capture",
    words: "--exact --summary --report lines",
    opens: false,
    begins: true,
};

/// The files of a replay.
fn files_of<R: Abort + Threads + Wait + Sync>(
    rt: &R,
    alloc: Global,
    name: &str,
    files: Files<'_>,
) -> MemoryFolder
    ensures { result.failures ≡ 0 }
{
    let folder = MemoryFolder::new(alloc);
    let folder = put(rt, alloc, folder, "script", files.script.as_bytes());
    let folder = put(rt, alloc, folder, "capture", files.capture);
    if files.text.is_empty() {
        folder
    } else {
        with_image(rt, alloc, name, folder, files.text)
    }
}

/// What a replay with these words leaves, made this way.
fn left_by<R: Abort + Threads + Wait + Sync>(
    rt: &R,
    alloc: Global,
    name: &str,
    files: Files<'_>,
    words: &str,
    way: WayRow<'_>,
) -> Left {
    let folder = files_of(rt, alloc, name, files);
    let by = way.words;
    let line = format!(in alloc; "xlb replay capture sent {words} {by}");
    let line = line.expect(rt, "a line");
    let weakness = Weakness {
        opens: way.opens,
        begins: way.begins,
        ..SOUND_FOLDER
    };
    left_over(rt, alloc, folder, &line, weakness, NEVER, NEVER)
}

/// Compares the bytes of a file of a folder.
fn has_bytes<R: Abort>(
    rt: &R,
    alloc: Global,
    name: &str,
    mut folder: MemoryFolder,
    file: &str,
    wanted: &[u8],
) {
    has_few_failures(rt, name, &folder);
    let found = folder.read(alloc, file).expect(rt, "a file");
    same_bytes_of(rt, name, file, &found, wanted);
}

/// Ends the test where a folder has a file of this name.
pub(super) fn has_none<R: Abort>(
    rt: &R,
    alloc: Global,
    name: &str,
    mut folder: MemoryFolder,
    file: &str,
) {
    has_few_failures(rt, name, &folder);
    let is_lacking = folder.read(alloc, file).is_err();
    holds_of(rt, name, "no file", is_lacking);
}

/// Compares a file of a folder; none: there is no such file.
pub(super) fn compare_file<R: Abort>(
    rt: &R,
    alloc: Global,
    name: &str,
    folder: MemoryFolder,
    file: &str,
    wanted: Option<&[u8]>,
) {
    match wanted {
        Some(bytes) => has_bytes(rt, alloc, name, folder, file, bytes),
        None => has_none(rt, alloc, name, folder, file),
    }
}

/// Compares what a replay leaves, with its notes too.
fn compare_left<R: Abort>(
    rt: &R,
    alloc: Global,
    name: &str,
    left: Left,
    wanted: Wanted<'_>,
    sent: Option<&[u8]>,
) {
    same_bytes_of(rt, name, "error", &left.err.taken, wanted.err.as_bytes());
    compare_printed(rt, alloc, name, left, wanted, sent);
}

/// The same without its notes.
fn compare_printed<R: Abort>(
    rt: &R,
    alloc: Global,
    name: &str,
    left: Left,
    wanted: Wanted<'_>,
    sent: Option<&[u8]>,
) {
    same_bytes_of(rt, name, "output", &left.out.taken, wanted.out.as_bytes());
    same_status(rt, name, left.status, wanted.status);
    holds_of(rt, name, "no failure", left.folder.failures == 0);
    compare_file(rt, alloc, name, left.folder.files, "sent", sent);
}

/// Compares what a replay of these files comes to that is made this way.
pub(super) fn compare_way<R: Abort + Threads + Wait + Sync>(
    rt: &R,
    alloc: Global,
    name: &str,
    files: Files<'_>,
    words: &str,
    wanted: Wanted<'_>,
    sent: Option<&[u8]>,
    way: WayRow<'_>,
) {
    let by = way.name;
    let title = format!(in alloc; "{name}, {by}").expect(rt, "a title");
    let left = left_by(rt, alloc, &title, files, words, way);
    compare_left(rt, alloc, &title, left, wanted, sent);
}

/// The report of a replay.
fn lines_of<R: Abort>(rt: &R, alloc: Global, name: &str, left: &mut Left) -> Vec<u8>
    ensures { left.new.folder.files.failures ≡ left.old.folder.files.failures }
{
    has_few_failures(rt, name, &left.folder.files);
    left.folder
        .files
        .read(alloc, "lines")
        .expect(rt, "a report")
}

/// Compares what replays of these files come to that count a summary and write a report, in pieces and with the capture in memory: both print
/// the same, behind the notes of a replay without one, and write the same.
fn compare_summaries<R: Abort + Threads + Wait + Sync>(
    rt: &R,
    alloc: Global,
    name: &str,
    files: Files<'_>,
    words: &str,
    wanted: Wanted<'_>,
    sent: Option<&[u8]>,
) {
    let mut whole = left_by(rt, alloc, name, files, words, WHOLE_SUMMARY);
    let mut pieces = left_by(rt, alloc, name, files, words, SUMMARY);
    if sent.is_some() {
        let lines = lines_of(rt, alloc, name, &mut whole);
        let told = lines_of(rt, alloc, name, &mut pieces);
        same_bytes_of(rt, name, "report", &told, &lines);
    }
    same_bytes_of(rt, name, "summary", &pieces.err.taken, &whole.err.taken);
    let notes = wanted.err.as_bytes();
    holds_of(rt, name, "notes", pieces.err.taken.starts_with(notes));
    compare_printed(rt, alloc, name, whole, wanted, sent);
    compare_printed(rt, alloc, name, pieces, wanted, sent);
}

/// Compares what replays of these files come to, whichever way they are made.
pub(super) fn compare_ways<R: Abort + Threads + Wait + Sync>(
    rt: &R,
    alloc: Global,
    name: &str,
    files: Files<'_>,
    words: &str,
    wanted: Wanted<'_>,
    sent: Option<&[u8]>,
    ways: &[WayRow<'_>],
) {
    for way in ways {
        compare_way(rt, alloc, name, files, words, wanted, sent, *way);
    }
    compare_summaries(rt, alloc, name, files, words, wanted, sent);
}

/// A capture of this many records. Each has a frame of 14 bytes, which ends in the record's number, that many microseconds after 1 second.
pub(super) fn numbered<R: Abort>(rt: &R, alloc: Global, count: u16) -> Vec<u8> {
    let mut bytes = Vec::from_slice(alloc, &HEADER).expect(rt, "a header");
    for number in 0..count {
        let [low, high] = number.to_le_bytes();
        let head = [1, 0, 0, 0, low, high, 0, 0, 14, 0, 0, 0, 14, 0, 0, 0];
        bytes.extend_from_slice(&head).expect(rt, "a head");
        bytes
            .extend_from_slice(&[0, 0, 0, 0, 0, 0, 0, 0, 0, 0, 0, 0, high, low])
            .expect(rt, "a frame");
    }
    bytes
}

/// How many records a capture has, which are all sent, and what is printed.
#[rattlefmt::skip]
const COUNTED: [(&str, u16, &str); 6] = [
    ("no record",                    0,    "frames 0\nshort 0\nstopped 0\naborted 0\ndrop 0\npass 0\ntx 0\n"),
    ("three records",                3,    "frames 3\nshort 0\nstopped 0\naborted 0\ndrop 0\npass 0\ntx 3\n"),
    ("one fewer than a piece",       1023, "frames 1023\nshort 0\nstopped 0\naborted 0\ndrop 0\npass 0\ntx 1023\n"),
    ("a piece",                      1024, "frames 1024\nshort 0\nstopped 0\naborted 0\ndrop 0\npass 0\ntx 1024\n"),
    ("a piece and a record",         1025, "frames 1025\nshort 0\nstopped 0\naborted 0\ndrop 0\npass 0\ntx 1025\n"),
    ("two pieces",                   2048, "frames 2048\nshort 0\nstopped 0\naborted 0\ndrop 0\npass 0\ntx 2048\n"),
];

/// Compares the replay of this many records: what is sent is the capture itself.
fn compare_counted<R: Abort + Threads + Wait + Sync>(
    rt: &R,
    alloc: Global,
    name: &str,
    count: u16,
    out: &str,
) {
    let capture = numbered(rt, alloc, count);
    let files = Files {
        text: SENDS,
        script: "",
        capture: &capture,
    };
    let wanted = Wanted {
        status: 0,
        out,
        err: "",
    };
    let words = "--image image";
    compare_ways(rt, alloc, name, files, words, wanted, Some(&capture), &WAYS);
    let mut left = left_by(rt, alloc, name, files, words, SUMMARY);
    let lines = lines_of(rt, alloc, name, &mut left);
    let ended = lines.iter().filter(|byte| **byte == b'\n').count();
    holds_of(
        rt,
        name,
        "a line for each record",
        ended == usize::from(count) + 1,
    );
}

#[test]
fn all_records_are_sent(rt: HostRuntime) {
    for row in &COUNTED {
        compare_counted(&rt, rt.alloc(), row.0, row.1, row.2);
    }
}

/// A capture of `HEADER`, and so often the record of a capture of one record, and then so often that of another one.
pub(super) fn repeated<R: Abort>(
    rt: &R,
    alloc: Global,
    first: (&str, u32),
    second: (&str, u32),
) -> Vec<u8> {
    let mut bytes = Vec::from_slice(alloc, &HEADER).expect(rt, "a header");
    put_times(rt, alloc, &mut bytes, first.0, first.1);
    put_times(rt, alloc, &mut bytes, second.0, second.1);
    bytes
}

/// Puts the record of a capture of one record at the end of bytes, so often.
fn put_times<R: Abort>(rt: &R, alloc: Global, bytes: &mut Vec<u8>, digits: &str, times: u32) {
    let capture = hex::decode(alloc, digits).expect(rt, "hexadecimal digits");
    let record = capture.get(BEFORE..).unwrap_or(b"");
    for _ in 0..times {
        bytes.extend_from_slice(record).expect(rt, "a record");
    }
}

/// A service with a backend.
pub(super) const SERVED: &str =
    "0 gateway 10.0.0.9 02:00:00:00:00:0a 02:00:00:00:00:0b\n0 vip 203.0.113.1 80 udp\n0 up 0 192.0.2.1\n";

/// What a row shows; the script behind `SERVED`; how many datagrams of one flow are captured, how many of them go to the first backend,
/// before the others go to the second one; the status, and what is printed on both streams.
type Steered = (
    &'static str,
    &'static str,
    u32,
    u32,
    u8,
    &'static str,
    &'static str,
);

/// What is printed of 1,030 records that are sent.
const ALL_1030: &str = "frames 1030\nshort 0\nstopped 0\naborted 0\ndrop 0\npass 0\ntx 1030\n";

/// What is printed where the fourth command is refused.
const FOURTH_REFUSED: &str =
    "frames 1030\nshort 0\nstopped 0\naborted 0\ndrop 0\npass 0\ntx 1030\ncommand 4 refused 91\n";

/// What is said of commands that act when all frames were run.
const LATE: &str =
    "  line 4 of the script and 1 more come behind the last record: no frame is run after that\n";

const UNKNOWN: &str = "  line 4 of the script, 1024 down 7: no such backend is up\n";

#[rattlefmt::skip]
const STEERED: [Steered; 6] = [
    ("before the last record of the first piece",    "1023 down 0\n1023 up 1 192.0.2.2\n", 1030, 1023, 0, ALL_1030, ""),
    ("between two pieces",                           "1024 down 0\n1024 up 1 192.0.2.2\n", 1030, 1024, 0, ALL_1030, ""),
    ("behind the first record of the second piece",  "1025 down 0\n1025 up 1 192.0.2.2\n", 1030, 1025, 0, ALL_1030, ""),
    ("behind the last record",                       "1030 down 0\n1030 up 1 192.0.2.2\n", 1030, 1030, 0, ALL_1030, LATE),
    ("behind the last record of a whole piece",      "1024 down 0\n1024 up 1 192.0.2.2\n", 1024, 1024, 0,
        "frames 1024\nshort 0\nstopped 0\naborted 0\ndrop 0\npass 0\ntx 1024\n", LATE),
    ("refused between two pieces", "1024 down 7\n1025 down 0\n1025 up 1 192.0.2.2\n", 1030, 1025, 1, FOURTH_REFUSED, UNKNOWN),
];

/// The status of a strict replay: 1 where something was left out, which is then said.
fn strict_status(status: u8, err: &str) -> u8 {
    if err.is_empty() { status } else { 1 }
}

/// Compares the replay of a row.
fn compare_steered<R: Abort + Threads + Wait + Sync>(
    rt: &R,
    alloc: Global,
    row: &Steered,
    strict: bool,
) {
    let (name, later, count, first, status, out, err) = *row;
    let script = format!(in alloc; "{SERVED}{later}").expect(rt, "a script");
    let capture = repeated(rt, alloc, (DATAGRAM, count), ("", 0));
    let second = count.saturating_sub(first);
    let sent = repeated(
        rt,
        alloc,
        (IN_A_TUNNEL, first),
        (IN_THE_OTHER_TUNNEL, second),
    );
    let files = Files {
        text: "",
        script: &script,
        capture: &capture,
    };
    let (status, words) = if strict {
        (
            strict_status(status, err),
            "--script script --ring 7 --strict",
        )
    } else {
        (status, "--script script --ring 7")
    };
    let wanted = Wanted { status, out, err };
    compare_summaries(rt, alloc, name, files, words, wanted, Some(&sent));
    if !strict {
        compare_way(
            rt,
            alloc,
            name,
            files,
            words,
            wanted,
            Some(&sent),
            IN_PIECES,
        );
    }
}

#[test]
fn commands_fall_on_the_ends_of_pieces(rt: HostRuntime) {
    for row in &STEERED {
        compare_steered(&rt, rt.alloc(), row, false);
        compare_steered(&rt, rt.alloc(), row, true);
    }
}

/// The frame of one of these records passes: so none is sent.
#[rattlefmt::skip]
const STOPPED: [(&str, &str, u16, &str, &str); 3] = [
    ("room for all", "--journal 4120", 1030, "frames 1030\nshort 0\nstopped 0\naborted 0\ndrop 0\npass 1030\ntx 0\n", ""),
    ("full in the second piece", "--journal 4104", 1030, "frames 1030\nshort 0\nstopped 4\naborted 0\ndrop 0\npass 1026\ntx 0\n",
        "  record 1027 is the first whose run was stopped\n  the journal of shard 0 is full, of map 0\n  \
         frames whose run needs a full journal are not run to their end: --no-journals has room for all, --journal N and \
         --shards N (at most 1048576 and 8) for more\n"),
    ("full in the first piece", "--journal 16", 1030, "frames 1030\nshort 0\nstopped 1026\naborted 0\ndrop 0\npass 4\ntx 0\n",
        "  record 5 is the first whose run was stopped\n  the journal of shard 0 is full, of map 0\n  \
         frames whose run needs a full journal are not run to their end: --no-journals has room for all, --journal N and \
         --shards N (at most 1048576 and 8) for more\n"),
];

/// Compares the replay of frames whose runs need four entries each of a journal.
fn compare_stopped<R: Abort + Threads + Wait + Sync>(
    rt: &R,
    alloc: Global,
    row: &(&str, &str, u16, &str, &str),
    strict: bool,
) {
    let (name, words, count, out, err) = *row;
    let capture = numbered(rt, alloc, count);
    let files = Files {
        text: READS_ONE,
        script: "",
        capture: &capture,
    };
    let (status, more) = if strict {
        (strict_status(0, err), " --strict")
    } else {
        (0, "")
    };
    let wanted = Wanted { status, out, err };
    let words = format!(in alloc; "--image image {words}{more}").expect(rt, "words");
    compare_ways(rt, alloc, name, files, &words, wanted, Some(&HEADER), &WAYS);
}

#[test]
fn the_first_stopped_run_is_named(rt: HostRuntime) {
    for row in &STOPPED {
        compare_stopped(&rt, rt.alloc(), row, false);
        compare_stopped(&rt, rt.alloc(), row, true);
    }
}

/// A record that kept 14 zeros of a frame of 64 bytes.
const CUT: [u8; 30] = [
    1, 0, 0, 0, 2, 0, 0, 0, 14, 0, 0, 0, 64, 0, 0, 0, 0, 0, 0, 0, 0, 0, 0, 0, 0, 0, 0, 0, 0, 0,
];

/// A capture of a record, 1,023 numbered ones, and the same record again: it is in both pieces.
fn in_both_pieces<R: Abort>(rt: &R, alloc: Global, record: &[u8]) -> Vec<u8> {
    let numbered = numbered(rt, alloc, 1023);
    let mut bytes = Vec::from_slice(alloc, &HEADER).expect(rt, "a header");
    bytes.extend_from_slice(record).expect(rt, "a record");
    bytes
        .extend_from_slice(numbered.get(BEFORE..).unwrap_or(b""))
        .expect(rt, "records");
    bytes.extend_from_slice(record).expect(rt, "a record");
    bytes
}

/// Records that were cut when they were captured are counted over all pieces, and are whole in what is sent.
#[test]
fn cut_records_are_counted(rt: HostRuntime) {
    let alloc = rt.alloc();
    let capture = in_both_pieces(&rt, alloc, &CUT);
    let sent = in_both_pieces(&rt, alloc, &RECORD);
    let files = Files {
        text: SENDS,
        script: "",
        capture: &capture,
    };
    let wanted = Wanted {
        status: 0,
        out: "frames 1025\nshort 0\nstopped 0\naborted 0\ndrop 0\npass 0\ntx 1025\n",
        err: CUT_TWO,
    };
    let words = "--image image";
    compare_ways(
        &rt,
        alloc,
        "cut records",
        files,
        words,
        wanted,
        Some(&sent),
        &WAYS,
    );
}

/// What a row shows; the first bytes of a file, how many records behind them, and its last bytes; and what it is refused with.
type RefusedRow = (
    &'static str,
    &'static [u8],
    u16,
    &'static [u8],
    &'static str,
);

/// The head of a record of 14 bytes, and the first one of these.
pub(super) const CUT_FRAME: &[u8] = &[1, 0, 0, 0, 2, 0, 0, 0, 14, 0, 0, 0, 14, 0, 0, 0, 0];

/// Record 1,030 begins at byte 24 + 1029 * 30.
#[rattlefmt::skip]
const REFUSED: [RefusedRow; 4] = [
    ("an empty file", b"", 0, b"", 
        "fault 4 CutHead record 0\n  at byte 0 of 0\n  a header has 24 bytes, and the file ends after 0 of them\n"),
    ("a cut frame", &HEADER, 1029, CUT_FRAME, 
        "fault 5 CutFrame record 1030\n  at byte 30894 of 30911\n  \
         the record keeps 14 bytes by its head, and the file has 1 of them, 13 too few: xlb replay --allow-cut reads up to there\n"),
    ("a cut head", &HEADER, 1029, b"\x01\0\0\0\x02\0\0\0\x0e\0\0\0\x0e\0\0", 
        "fault 4 CutHead record 1030\n  at byte 30894 of 30909\n  the head of a record has 16 bytes, and the file ends after 15 of them\n"),
    ("a record that is too long", &HEADER, 1029, &LONG_HEAD, 
        "fault 6 FrameTooLong record 1030\n  at byte 30894 of 30910\n  \
         the record keeps 2049 bytes by its head, and the file has 0 of them, 2049 too few\n"),
];

/// A file of these bytes, this many records behind them, and these at its end.
pub(super) fn refused_file<R: Abort>(
    rt: &R,
    alloc: Global,
    first: &[u8],
    count: u16,
    last: &[u8],
) -> Vec<u8> {
    let mut bytes = Vec::from_slice(alloc, first).expect(rt, "a header");
    let records = numbered(rt, alloc, count);
    bytes
        .extend_from_slice(records.get(BEFORE..).unwrap_or(b""))
        .expect(rt, "records");
    bytes.extend_from_slice(last).expect(rt, "an end");
    bytes
}

/// Compares what a file that is no capture is refused with: no file is made.
fn compare_refused<R: Abort + Threads + Wait + Sync>(rt: &R, alloc: Global, row: &RefusedRow) {
    let (name, first, count, last, err) = *row;
    let capture = refused_file(rt, alloc, first, count, last);
    let files = Files {
        text: SENDS,
        script: "",
        capture: &capture,
    };
    let wanted = Wanted {
        status: 1,
        out: "",
        err,
    };
    let words = "--image image";
    compare_ways(rt, alloc, name, files, words, wanted, None, &WAYS);
}

#[test]
fn no_capture_makes_no_file(rt: HostRuntime) {
    for row in &REFUSED {
        compare_refused(&rt, rt.alloc(), row);
    }
}

/// The entries of a run of `COUNTS_TO_THREE`, and of a round.
const RUN: &str = "0 w0 enter ok
0 w0 update 07000000 0200000000000000 0 answer 0
0 w0 lookup 07000000 cell 0
0 w0 atomic 0 0 8 1 1 0 word 2
0 w0 load 0 0 8 word 3
0 w0 leave ok
";

const ROUND: &str = "0 r reclaim freed 0\n";

/// The journals of this many runs: a round comes behind each 64 of them, and behind the last one.
fn counted_journals<R: Abort>(rt: &R, alloc: Global, count: u16) -> String {
    let mut text = String::from_str(alloc, "XLBJ 1 1 1 65536\n").expect(rt, "a header");
    for number in 0..count {
        text.push_str(RUN).expect(rt, "a run");
        if number % 64 == 63 {
            text.push_str(ROUND).expect(rt, "a round");
        }
    }
    text.push_str(ROUND).expect(rt, "a round");
    text
}

/// The journals of a replay that is made this way.
fn journals_by<R: Abort + Threads + Wait + Sync>(
    rt: &R,
    alloc: Global,
    name: &str,
    files: Files<'_>,
    words: &str,
    way: WayRow<'_>,
) -> Vec<u8> {
    let mut left = left_by(rt, alloc, name, files, words, way);
    same_status(rt, name, left.status, 0);
    has_few_failures(rt, name, &left.folder.files);
    let journals = left.folder.files.read(alloc, "journals");
    journals.expect(rt, "the journals")
}

/// Compares the journals of replays of these files, whichever way they are made.
fn compare_journals<R: Abort + Threads + Wait + Sync>(
    rt: &R,
    alloc: Global,
    name: &str,
    files: Files<'_>,
    words: &str,
    wanted: &[u8],
    ways: &[WayRow<'_>],
) {
    for way in ways {
        let found = journals_by(rt, alloc, name, files, words, *way);
        same_bytes_of(rt, name, way.name, &found, wanted);
    }
}

/// Compares the journals of runs that are all alike with those that were worked out.
fn compare_counted_journals<R: Abort + Threads + Wait + Sync>(
    rt: &R,
    alloc: Global,
    name: &str,
    count: u16,
) {
    let capture = numbered(rt, alloc, count);
    let wanted = counted_journals(rt, alloc, count);
    let files = Files {
        text: COUNTS_TO_THREE,
        script: "",
        capture: &capture,
    };
    let words = "--image image --journals journals";
    compare_journals(rt, alloc, name, files, words, wanted.as_bytes(), &WAYS);
}

/// Compares the journals of frames that are steered with those of the replay of a whole capture.
fn compare_steered_journals<R: Abort + Threads + Wait + Sync>(
    rt: &R,
    alloc: Global,
    name: &str,
    count: u32,
) {
    let script = format!(in alloc; "{SERVED}1024 down 0\n1024 up 1 192.0.2.2\n");
    let script = script.expect(rt, "a script");
    let capture = repeated(rt, alloc, (DATAGRAM, count), ("", 0));
    let files = Files {
        text: "",
        script: &script,
        capture: &capture,
    };
    let words = "--script script --ring 7 --journals journals";
    let wanted = journals_by(rt, alloc, name, files, words, WHOLE_SUMMARY);
    compare_journals(rt, alloc, name, files, words, &wanted, &[IN_PIECES]);
}

#[test]
fn journals_are_those_of_the_whole_way(rt: HostRuntime) {
    compare_counted_journals(&rt, rt.alloc(), "a piece", 1024);
    compare_counted_journals(&rt, rt.alloc(), "a piece and a record", 1025);
    compare_steered_journals(&rt, rt.alloc(), "steered", 1030);
}
