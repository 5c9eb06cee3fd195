//! Exact replays of a capture that changes between the two times that it is read: while its frames are run it is another one, or none any
//! more.

ghost use Rattle.std.specs.Prelude.{◌≡◌};

use super::in_pieces::{CUT_FRAME, SERVED, compare_file, numbered, refused_file};
use super::long_records::HEADER;
use super::parts::{put_datagrams, put_tunnelled};
use super::replays::{IN_A_TUNNEL, IN_THE_OTHER_TUNNEL, SENDS};
use super::{Wanted, put, with_image};
use crate::asserting::{holds_of, same_bytes_of, same_status};
use command_line::settings;
use folders::{Folder, FolderFault, Front, MemoryFolder};
use std::alloc::{AllocError, Global};
use std::process::Abort;
use std::sync::Wait;
use std::thread::Threads;
use wire::MemorySink;
use xlb_commands::{NoProgress, serve};

/// A folder whose capture is another one from its second opening on.
#[derive(Drop)]
struct ChangingFolder {
    files: MemoryFolder,
    later: Vec<u8>,
    openings: u64,
    /// No more bytes than these are read of the file that is open.
    left: u64,
}

impl Folder for ChangingFolder {
    ghost holds = { λ _ _ _. Unit {0} };

    ghost are_one = { λ _ _ _. Unit {0} };

    ghost has = { λ _ _ _. Unit {0} };

    ghost is_left = { λ _ _. Unit {0} };

    ghost most_left = { λ folder. folder.left };

    ghost is_begun = { λ _ _ _. Unit {0} };

    ghost failure_count = { λ folder. folder.files.failures };

    fn read(&mut self, alloc: Global, name: &str) -> Result<Vec<u8>, FolderFault> {
        self.files.read(alloc, name)
    }

    fn read_front(&mut self, alloc: Global, name: &str, most: usize) -> Result<Front, FolderFault> {
        self.files.read_front(alloc, name, most)
    }

    fn write(&mut self, alloc: Global, name: &str, bytes: &[u8]) -> Result<(), FolderFault> {
        self.files.write(alloc, name, bytes)
    }

    fn open(&mut self, alloc: Global, name: &str) -> Result<bool, FolderFault> {
        self.left = 0;
        self.openings = self.openings.wrapping_add(1);
        if self.openings == 2 {
            match self.files.write(alloc, name, &self.later) {
                Ok(()) => {}
                Err(fault) => return Err(fault),
            }
        }
        match self.files.open(alloc, name) {
            Ok(opened) => {
                self.left = 1 << 40;
                Ok(opened)
            }
            Err(fault) => Err(fault),
        }
    }

    fn next(&mut self, buffer: &mut [u8]) -> Result<usize, FolderFault> {
        match self.files.next(buffer) {
            Ok(count) => {
                if count as u64 > self.left {
                    return Ok(0);
                }
                self.left -= count as u64;
                Ok(count)
            }
            Err(fault) => Err(fault),
        }
    }

    fn begin(&mut self, alloc: Global, name: &str) -> Result<bool, FolderFault> {
        self.files.begin(alloc, name)
    }

    fn add(&mut self, name: &str, bytes: &[u8]) -> Result<(), FolderFault> {
        self.files.add(name, bytes)
    }

    fn finish(&mut self, name: &str) -> Result<(), FolderFault> {
        self.files.finish(name)
    }

    fn give_up(&mut self) {
        self.files.give_up();
    }

    fn is_same(&self, name: &str, other: &str) -> bool {
        self.files.is_same(name, other)
    }

    fn has(&self, name: &str) -> bool {
        self.files.has(name)
    }

    fn failures(&self) -> u64 {
        self.files.failures()
    }

    fn complaint(&self, alloc: Global, name: &str) -> Result<String, AllocError> {
        self.files.complaint(alloc, name)
    }
}

/// What a row shows; how many records the capture has at first; the first bytes of the file that it is later, how many records behind them,
/// and its last bytes; the status, and what is printed on both streams. What is sent is the later capture; nothing where it is none.
type Row = (
    &'static str,
    u16,
    &'static [u8],
    u16,
    &'static [u8],
    u8,
    &'static str,
    &'static str,
);

#[rattlefmt::skip]
const ROWS: [Row; 4] = [
    ("it has more records", 3, &HEADER, 1030, b"", 0, "frames 1030\nshort 0\nstopped 0\naborted 0\ndrop 0\npass 0\ntx 1030\n", ""),
    ("it has fewer records", 1030, &HEADER, 3, b"", 0, "frames 3\nshort 0\nstopped 0\naborted 0\ndrop 0\npass 0\ntx 3\n", ""),
    ("it is cut in its second piece", 1030, &HEADER, 1029, CUT_FRAME, 1, "",
        "fault 5 CutFrame record 1030\n  at byte 30894 of 30911\n  \
         the record keeps 14 bytes by its head, and the file has 1 of them, 13 too few: xlb replay --allow-cut reads up to there\n"),
    ("it is empty", 1030, b"", 0, b"", 1, "",
        "fault 4 CutHead record 0\n  at byte 0 of 0\n  a header has 24 bytes, and the file ends after 0 of them\n"),
];

/// What a replay leaves: its status, what it printed, and its files.
#[derive(Drop)]
struct Given {
    status: u8,
    out: MemorySink,
    err: MemorySink,
    files: MemoryFolder,
}

/// What an exact replay with these words leaves of a capture that becomes these bytes.
fn served<R: Abort + Threads + Wait + Sync>(
    rt: &R,
    alloc: Global,
    files: MemoryFolder,
    later: Vec<u8>,
    words: &str,
) -> Given
    requires { files.failures ≡ 0 }
{
    let line = format!(in alloc; "xlb replay capture sent --exact {words}");
    let line = line.expect(rt, "a line");
    let words: Vec<&str> = line.split(' ').collect(alloc).expect(rt, "words");
    let settings = settings(alloc, words.as_slice()).expect(rt, "a command line");
    let mut folder = ChangingFolder {
        files,
        later,
        openings: 0,
        left: 0,
    };
    let mut out = MemorySink::new(alloc);
    let mut err = MemorySink::new(alloc);
    let status = serve(
        rt,
        alloc,
        &settings,
        &mut folder,
        &NoProgress,
        &mut out,
        &mut err,
    );
    holds_of(rt, "a capture that changes", "again", folder.openings > 1);
    Given {
        status,
        out,
        err,
        files: folder.files,
    }
}

/// Compares what a replay of a row leaves.
fn compare_row<R: Abort + Threads + Wait + Sync>(rt: &R, alloc: Global, row: &Row) {
    let (name, count, first, records, last, status, out, err) = *row;
    let capture = numbered(rt, alloc, count);
    let later = refused_file(rt, alloc, first, records, last);
    let folder = put(rt, alloc, MemoryFolder::new(alloc), "capture", &capture);
    let folder = with_image(rt, alloc, name, folder, SENDS);
    let wanted = Wanted { status, out, err };
    let again = Vec::from_slice(alloc, &later).expect(rt, "a file");
    let given = served(rt, alloc, folder, again, "--image image");
    compare_given(rt, alloc, name, given, wanted, &later);
}

/// Compares what a replay leaves with what is wanted, and with what is sent, if it succeeds.
fn compare_given<R: Abort>(
    rt: &R,
    alloc: Global,
    name: &str,
    given: Given,
    wanted: Wanted<'_>,
    sent: &[u8],
) {
    same_bytes_of(rt, name, "error", given.err.bytes(), wanted.err.as_bytes());
    same_bytes_of(rt, name, "output", given.out.bytes(), wanted.out.as_bytes());
    same_status(rt, name, given.status, wanted.status);
    let is_made = wanted.status == 0;
    compare_file(
        rt,
        alloc,
        name,
        given.files,
        "sent",
        if is_made { Some(sent) } else { None },
    );
}

#[test]
fn a_capture_may_change_before_it_is_run(rt: HostRuntime) {
    for row in &ROWS {
        compare_row(&rt, rt.alloc(), row);
    }
}

/// What a row shows; the sources of datagrams that the capture has so often at first, and later; what is printed; how many of those of part 1
/// are sent to the first backend, before the command behind three records, and then to the second one.
type PartRow = (
    &'static str,
    (&'static [u8], u16),
    (&'static [u8], u16),
    &'static str,
    u16,
    u16,
);

/// Of three parts the flow of 1 is in part 1, and that of 2 in part 2.
#[rattlefmt::skip]
static OF_A_PART: [PartRow; 4] = [
    ("the command has its number",  (&[1, 2], 600), (&[1, 2], 3),   "frames 3\nshort 0\nstopped 0\naborted 0\ndrop 0\npass 0\ntx 3\n", 2, 1),
    ("the command has another one", (&[1, 2], 600), (&[2, 1], 600), "frames 600\nshort 0\nstopped 0\naborted 0\ndrop 0\npass 0\ntx 600\n", 1, 599),
    ("and in more pieces",          (&[1], 3),      (&[2, 1], 600), "frames 600\nshort 0\nstopped 0\naborted 0\ndrop 0\npass 0\ntx 600\n", 1, 599),
    ("no record is left",           (&[1], 3),      (&[2], 1100),   "frames 0\nshort 0\nstopped 0\naborted 0\ndrop 0\npass 0\ntx 0\n", 0, 0),
];

/// A capture of datagrams from these sources, so often.
fn datagrams<R: Abort>(rt: &R, alloc: Global, sources: (&[u8], u16)) -> Vec<u8> {
    let mut bytes = Vec::from_slice(alloc, &HEADER).expect(rt, "a header");
    put_datagrams(rt, alloc, &mut bytes, sources.0, sources.1);
    bytes
}

/// The capture of so many frames of the flow of 1 that are sent to the first backend, and behind them to the second one.
fn sent_of_1<R: Abort>(rt: &R, alloc: Global, first: u16, second: u16) -> Vec<u8> {
    let mut bytes = Vec::from_slice(alloc, &HEADER).expect(rt, "a header");
    put_tunnelled(rt, alloc, &mut bytes, IN_A_TUNNEL, &[1], first);
    put_tunnelled(rt, alloc, &mut bytes, IN_THE_OTHER_TUNNEL, &[1], second);
    bytes
}

/// Compares what a replay of a part leaves of a row.
fn compare_part<R: Abort + Threads + Wait + Sync>(rt: &R, alloc: Global, row: &PartRow) {
    let (name, early, later, out, first, second) = *row;
    let script = format!(in alloc; "{SERVED}3 down 0\n3 up 1 192.0.2.2\n").expect(rt, "a script");
    let capture = datagrams(rt, alloc, early);
    let later = datagrams(rt, alloc, later);
    let folder = put(rt, alloc, MemoryFolder::new(alloc), "capture", &capture);
    let folder = put(rt, alloc, folder, "script", script.as_bytes());
    let wanted = Wanted {
        status: 0,
        out,
        err: "",
    };
    let words = "--script script --ring 7 --part 1/3";
    let given = served(rt, alloc, folder, later, words);
    let sent = sent_of_1(rt, alloc, first, second);
    compare_given(rt, alloc, name, given, wanted, &sent);
}

#[test]
fn a_capture_of_a_part_may_change_before_it_is_run(rt: HostRuntime) {
    for row in &OF_A_PART {
        compare_part(&rt, rt.alloc(), row);
    }
}
