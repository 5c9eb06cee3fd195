//! Replays: what they print, and the files that they leave.

ghost use Rattle.std.specs.Prelude.{◌≡◌};

use super::{
    Wanted, compare_digits, compare_file, done, lacks, left_by, put, put_digits, with_image,
};
use folders::MemoryFolder;
use std::alloc::Global;
use std::process::Abort;
use std::sync::Wait;
use std::thread::Threads;
use test_support::files::SERVICE;
use test_support::programs::READS_ONE;

/// Sends every frame.
pub(super) const SENDS: &str = "version 1\nmov r0, 3\nexit\n";

/// Reads a register that was never set.
const UNSET: &str = "version 1\nexit\n";

/// A capture of no frames: its head.
pub(super) const HEAD: &str = "d4c3b2a1020004000000000000000000ffff000001000000";

/// A capture of a frame of 14 zeros; each frame of a capture here is at 1 second and 2 microseconds.
const ZEROS_14: &str = "\
    d4c3b2a1020004000000000000000000ffff000001000000\
    01000000020000000e0000000e000000\
    0000000000000000000000000000";

/// A capture of a frame of 13 zeros.
pub(super) const ZEROS_13: &str = "\
    d4c3b2a1020004000000000000000000ffff000001000000\
    01000000020000000d0000000d000000\
    00000000000000000000000000";

/// A capture of two frames of 64 bytes, with 14 zeros of each kept, and one of 14 zeros.
const CUT_FRAMES: &str = "\
    d4c3b2a1020004000000000000000000ffff000001000000\
    01000000020000000e00000040000000\
    0000000000000000000000000000\
    01000000020000000e00000040000000\
    0000000000000000000000000000\
    01000000020000000e0000000e000000\
    0000000000000000000000000000";

/// A capture of three frames of 14 zeros.
const THREE_ZEROS: &str = "\
    d4c3b2a1020004000000000000000000ffff000001000000\
    01000000020000000e0000000e000000\
    0000000000000000000000000000\
    01000000020000000e0000000e000000\
    0000000000000000000000000000\
    01000000020000000e0000000e000000\
    0000000000000000000000000000";

/// A capture of five frames of 14 zeros.
const FIVE_ZEROS: &str = "\
    d4c3b2a1020004000000000000000000ffff000001000000\
    01000000020000000e0000000e000000\
    0000000000000000000000000000\
    01000000020000000e0000000e000000\
    0000000000000000000000000000\
    01000000020000000e0000000e000000\
    0000000000000000000000000000\
    01000000020000000e0000000e000000\
    0000000000000000000000000000\
    01000000020000000e0000000e000000\
    0000000000000000000000000000";

/// A capture of two frames of 14 zeros, and of the head and the first byte of a third one.
const CUT_ZEROS: &str = "\
    d4c3b2a1020004000000000000000000ffff000001000000\
    01000000020000000e0000000e000000\
    0000000000000000000000000000\
    01000000020000000e0000000e000000\
    0000000000000000000000000000\
    01000000020000000e0000000e00000000";

/// A capture of a UDP datagram without data to port 80 of 203.0.113.1.
pub(super) const DATAGRAM: &str = "\
    d4c3b2a1020004000000000000000000ffff000001000000\
    01000000020000002a0000002a000000\
    02000000000102000000000208004500001c0001000040111494c6336407cb0071019c40005000080000";

/// A capture of the same in a tunnel from 10.0.0.9 to 192.0.2.1.
pub(super) const IN_A_TUNNEL: &str = "\
    d4c3b2a1020004000000000000000000ffff000001000000\
    01000000020000003e0000003e000000\
    02000000000b02000000000a0800450000300000400040046ec00a000009c00002014500001c0001000040111494c6336407cb0071019c40005000080000";

/// A capture of the same in a tunnel to 192.0.2.2.
pub(super) const IN_THE_OTHER_TUNNEL: &str = "\
    d4c3b2a1020004000000000000000000ffff000001000000\
    01000000020000003e0000003e000000\
    02000000000b02000000000a0800450000300000400040046ebf0a000009c00002024500001c0001000040111494c6336407cb0071019c40005000080000";

/// A capture of the datagram with a time to live of 0.
pub(super) const NOT_TO_LIVE: &str = "\
    d4c3b2a1020004000000000000000000ffff000001000000\
    01000000020000002a0000002a000000\
    02000000000102000000000208004500001c0001000000111494c6336407cb0071019c40005000080000";

/// A capture of the datagram twice.
pub(super) const TWO_DATAGRAMS: &str = "\
    d4c3b2a1020004000000000000000000ffff000001000000\
    01000000020000002a0000002a000000\
    02000000000102000000000208004500001c0001000040111494c6336407cb0071019c40005000080000\
    01000000020000002a0000002a000000\
    02000000000102000000000208004500001c0001000040111494c6336407cb0071019c40005000080000";

/// A capture of the same, first in the one tunnel and then in the other.
const IN_BOTH_TUNNELS: &str = "\
    d4c3b2a1020004000000000000000000ffff000001000000\
    01000000020000003e0000003e000000\
    02000000000b02000000000a0800450000300000400040046ec00a000009c00002014500001c0001000040111494c6336407cb0071019c40005000080000\
    01000000020000003e0000003e000000\
    02000000000b02000000000a0800450000300000400040046ebf0a000009c00002024500001c0001000040111494c6336407cb0071019c40005000080000";

/// Its backend goes down behind the first frame, and another one comes up.
pub(super) const MOVES: &str =
    "0 gateway 10.0.0.9 02:00:00:00:00:0a 02:00:00:00:00:0b\n0 vip 203.0.113.1 80 udp\n0 up 0 192.0.2.1\n1 down 0\n1 up 1 192.0.2.2\n";

/// A flow that moves, in a summary: its note is of the backend that went down.
const MOVED: &str = "  2 frames of TCP or UDP that fit into a tunnel
  1 frame sent to 192.0.2.1
  1 frame sent to 192.0.2.2
  1 frame sent to another address than the frame of their flow before
  1 of these because the noted backend is not up
  2 frames for 203.0.113.1 port 80 udp
  251 of 251 slots of the lookup table for backend 1, 192.0.2.2, at the end
  record 2 went to another address than the frame of its flow before
";

/// The same of a service without tracking.
const UNTRACKED_MOVES: &str =
    "0 gateway 10.0.0.9 02:00:00:00:00:0a 02:00:00:00:00:0b\n0 vip 203.0.113.1 80 udp notrack\n0 up 0 192.0.2.1\n\
    1 down 0\n1 up 1 192.0.2.2\n";

const WITHOUT_TRACKING: &str = "  2 frames of TCP or UDP that fit into a tunnel
  1 frame sent to 192.0.2.1
  1 frame sent to 192.0.2.2
  1 frame sent to another address than the frame of their flow before
  1 of these because the service is without tracking
  2 frames for 203.0.113.1 port 80 udp
  251 of 251 slots of the lookup table for backend 1, 192.0.2.2, at the end
  record 2 went to another address than the frame of its flow before
";

/// The same, where the service is tracked from the second frame on, so that the first one left no note.
const LATER_TRACKED_MOVES: &str =
    "0 gateway 10.0.0.9 02:00:00:00:00:0a 02:00:00:00:00:0b\n0 vip 203.0.113.1 80 udp notrack\n0 up 0 192.0.2.1\n\
    1 vip 203.0.113.1 80 udp\n1 down 0\n1 up 1 192.0.2.2\n";

const WITHOUT_NOTE: &str = "  2 frames of TCP or UDP that fit into a tunnel
  1 frame sent to 192.0.2.1
  1 frame sent to 192.0.2.2
  1 frame sent to another address than the frame of their flow before
  1 of these because the flow has no note
  2 frames for 203.0.113.1 port 80 udp
  2 frames for 203.0.113.1 port 80 udp
  251 of 251 slots of the lookup table for backend 1, 192.0.2.2, at the end
  record 2 went to another address than the frame of its flow before
";

/// The noted backend gets another address.
const OTHER_ADDRESS: &str =
    "0 gateway 10.0.0.9 02:00:00:00:00:0a 02:00:00:00:00:0b\n0 vip 203.0.113.1 80 udp\n0 up 0 192.0.2.1\n\
    1 down 0\n1 up 0 192.0.2.2\n";

const BY_ITS_NOTE: &str = "  2 frames of TCP or UDP that fit into a tunnel
  1 frame sent to 192.0.2.1
  1 frame sent to 192.0.2.2
  1 frame sent to another address than the frame of their flow before
  1 of these by the flow's note
  2 frames for 203.0.113.1 port 80 udp
  251 of 251 slots of the lookup table for backend 0, 192.0.2.2, at the end
  record 2 went to another address than the frame of its flow before
";

pub(super) const TWO_TX: &str = "frames 2\nshort 0\nstopped 0\naborted 0\ndrop 0\npass 0\ntx 2\n";

/// Reports of replays.
const NO_FRAME: &str = "frames 0\nshort 0\nstopped 0\naborted 0\ndrop 0\npass 0\ntx 0\n";

const ONE_DROP: &str = "frames 1\nshort 0\nstopped 0\naborted 0\ndrop 1\npass 0\ntx 0\n";

const ONE_TX: &str = "frames 1\nshort 0\nstopped 0\naborted 0\ndrop 0\npass 0\ntx 1\n";

const THREE_TX: &str = "frames 3\nshort 0\nstopped 0\naborted 0\ndrop 0\npass 0\ntx 3\n";

/// Notes below reports.
const FULL: &str = "  record 5 is the first whose run was stopped
  the journal of shard 0 is full, of map 0
  frames whose run needs a full journal are not run to their end: --no-journals has room for all, --journal N and --shards N (at most 1048576 and 8) for more
";

pub(super) const CUT_TWO: &str =
    "  cut 2: bytes were left out when these records were captured, and such a frame may be passed as malformed: --pad-cut fills them up\n";

const RING_8: &str =
    "  --ring 8 has no effect: it is the size of the shipped program's lookup table\n";

const RING_8_AND_FLOWS: &str =
    "  --ring 8 has no effect: it is the size of the shipped program's lookup table\n  \
     --flows 5000 has no effect: it is the size of the shipped program's flow table\n";

/// Commands that may act too early, and behind the last record.
const LATE_NOT_EXACT: &str =
    "  commands with a number above 0 may take effect up to some 64 frames for each worker too early, or later: --exact makes their moments exact\n  \
     line 2 of the script comes behind the last record: no frame is run after that\n";

const LATE: &str =
    "  line 2 of the script comes behind the last record: no frame is run after that\n";

const FIVE: &str = "frames 5\nshort 0\nstopped 1\naborted 0\ndrop 0\npass 4\ntx 0\n";

const UNTRACKED: &str =
    "0 gateway 10.0.0.9 02:00:00:00:00:0a 02:00:00:00:00:0b\n0 vip 203.0.113.1 80 udp notrack\n0 up 0 192.0.2.1\n";

pub(super) const NO_BACKEND: &str =
    "0 gateway 10.0.0.9 02:00:00:00:00:0a 02:00:00:00:00:0b\n0 vip 203.0.113.1 80 udp\n";

/// Two of three backends stay up.
const TWO_BACKENDS: &str = "0 up 2 192.0.2.3\n0 up 0 192.0.2.1\n0 up 6 192.0.2.4\n0 down 0\n";

/// What a row shows; what a replay is given: the image's text (none: the shipped program), the script, the digits of the capture, and the
/// words after its files; and what it comes to: its status, its report, its fault, and the digits of the sent file, nothing where there is
/// no such file.
type Row = (
    &'static str,
    &'static str,
    &'static str,
    &'static str,
    &'static str,
    u8,
    &'static str,
    &'static str,
    &'static str,
);

/// What is said of a script whose commands have no maps.
const NO_MAPS: &str = "fault 51 BadOptions
  --script: the program has other maps than those that a script's commands change
  expected the shipped program, or with --program one that has its maps (docs/STEERING.md)
";

#[rattlefmt::skip]
const ROWS: [Row; 20] = [
    ("none is",                  SENDS, "", HEAD, "--image image", 0, NO_FRAME, "", HEAD),
    ("eight workers",            SENDS, "", ZEROS_14, "--image image --workers 8 --shards 8", 0, ONE_TX, "", ZEROS_14),
    ("the ring is not read",     SENDS, "", ZEROS_14, "--image image --ring 8", 0, ONE_TX, RING_8, ZEROS_14),
    ("nor is the flow table",    SENDS, "", ZEROS_14, "--image image --flows 5000 --ring 8", 0, ONE_TX, RING_8_AND_FLOWS, ZEROS_14),
    ("the ring that is the default", SENDS, "", ZEROS_14, "--image image --ring 251", 0, ONE_TX, "", ZEROS_14),
    ("records that were cut",    SENDS, "", CUT_FRAMES, "--image image", 0, THREE_TX, CUT_TWO, THREE_ZEROS),
    ("a full journal",           READS_ONE, "", FIVE_ZEROS, "--image image --journal 16", 0, FIVE, FULL, HEAD),
    ("a backend that isn't up", "", "0 down 3\n", HEAD, "--script script", 1,
        "frames 0\nshort 0\nstopped 0\naborted 0\ndrop 0\npass 0\ntx 0\ncommand 1 refused 91\n",
        "  line 1 of the script, 0 down 3: no such backend is up\n",
        HEAD),
    ("a backend twice", "", "0 up 0 10.0.0.1\n0 up 0 10.0.0.1\n", HEAD, "--script script", 1,
        "frames 0\nshort 0\nstopped 0\naborted 0\ndrop 0\npass 0\ntx 0\ncommand 2 refused 92\n",
        "  line 2 of the script, 0 up 0 10.0.0.1: this number or this address is up\n", HEAD),
    ("a down and a full journal", "", "0 up 0 10.0.0.1\n0 up 1 10.0.0.2\n0 down 0\n0 up 2 10.0.0.3\n", HEAD,
        "--script script --journal 400", 1,
        "frames 0\nshort 0\nstopped 0\naborted 0\ndrop 0\npass 0\ntx 0\ncommand 3 refused 94\ncommand 4 refused 94\n",
        "  line 3 of the script, 0 down 0: a journal is full: --journal N, at most 1048576, --shards N, at most 8, and --no-journals make more room\n  \
         line 4 of the script, 0 up 2 10.0.0.3: a journal is full: --journal N, at most 1048576, --shards N, at most 8, \
         and --no-journals make more room\n", HEAD),
    ("commands behind the last record", "", "0 up 0 10.0.0.1\n1 down 0\n9 up 0 10.0.0.1\n", HEAD, "--script script --exact", 0, NO_FRAME,
        "  line 2 of the script and 1 more come behind the last record: no frame is run after that\n", HEAD),
    ("few slots for each backend", "", "0 up 0 10.0.0.1\n0 up 1 10.0.0.2\n", HEAD, "--script script --ring 7", 0, NO_FRAME,
        "  with 2 backends up, each has 3 or 4 of the lookup table's 7 slots: a larger --ring N, at most 65537, with --no-journals, is more even\n", HEAD),
    ("an image before a script", UNSET, "0 up\n", "", "--image image", 1, "",
        "fault 35 UnsetRegister slot 0 register 0\n  xlb check --explain IMAGE says why\n", ""),
    ("a ring before a script",   "", "0 up\n", "", "--script script --ring 8", 1, "",
        "fault 73 BadSize\n  --ring 8\n  expected the number of slots of a lookup table: 7, 251, 4093 or 65537\n  the next larger one is 251\n", ""),
    ("a flow table before a script", "", "0 up\n", "", "--script script --flows 4095 --ring 8", 1, "",
        "fault 73 BadSize\n  --flows 4095\n  expected the number of notes of a flow table: 4096, 8192, 16384, 32768, 65536 or 131072\n  \
         the next larger one is 4096\n", ""),
    ("a script before a capture", "", "0 vip 203.0.113.1 80 udp  notrack\n", "", "--script script", 1, "",
        "fault 90 BadLine line 1\n  line 1, column 25: \"  \": two spaces\n  expected one space between words\n  \
         for example: 0 vip 203.0.113.1 80 tcp, with notrack as its last word where flows are not tracked\n", ""),
    ("an empty capture",         SENDS, "", "", "--image image --workers 9", 1, "", 
        "fault 4 CutHead record 0\n  at byte 0 of 0\n  a header has 24 bytes, and the file ends after 0 of them\n", ""),
    ("a cut third record",       SENDS, "", CUT_ZEROS, "--image image", 1, "", 
        "fault 5 CutFrame record 3\n  at byte 84 of 101\n  \
         the record keeps 14 bytes by its head, and the file has 1 of them, 13 too few: xlb replay --allow-cut reads up to there\n", ""),
    ("nine workers",             SENDS, "", ZEROS_14, "--image image --workers 9", 1, "",
        "fault 51 BadOptions\n  --workers 9\n  expected 1 to 8\n", ""),
    ("a script without its maps", SENDS, "0 down 3\n", ZEROS_14, "--program image --script script", 1, "", NO_MAPS, ""),
];

/// Frames that the shipped program steers.
#[rattlefmt::skip]
const STEERED: [Row; 11] = [
    ("no backend",               "", NO_BACKEND, DATAGRAM, "--script script --ring 7", 0, ONE_DROP, "", HEAD),
    ("a summary of one frame", "", SERVICE, DATAGRAM, "--script script --summary", 0, ONE_TX,
        "  1 frame of TCP or UDP that fit into a tunnel\n  1 frame sent to 192.0.2.1\n  1 frame for 203.0.113.1 port 80 udp\n  \
         251 of 251 slots of the lookup table for backend 0, 192.0.2.1, at the end\n", IN_A_TUNNEL),
    ("a summary of a flow that moves", "", MOVES, TWO_DATAGRAMS, "--script script --exact --summary", 0, TWO_TX, MOVED, IN_BOTH_TUNNELS),
    ("a summary of one without tracking", "", UNTRACKED_MOVES, TWO_DATAGRAMS, "--script script --exact --summary", 0, TWO_TX, WITHOUT_TRACKING,
        IN_BOTH_TUNNELS),
    ("a summary of one without a note", "", LATER_TRACKED_MOVES, TWO_DATAGRAMS, "--script script --exact --summary", 0, TWO_TX, WITHOUT_NOTE,
        IN_BOTH_TUNNELS),
    ("a summary of a backend with another address", "", OTHER_ADDRESS, TWO_DATAGRAMS, "--script script --exact --summary", 0, TWO_TX,
        BY_ITS_NOTE, IN_BOTH_TUNNELS),
    ("a summary of one that has expired", "", SERVICE, NOT_TO_LIVE, "--script script --summary", 0, ONE_DROP,
        "  1 frame of TCP or UDP with a time to live of 0\n  1 frame for 203.0.113.1 port 80 udp\n  1 frame dropped, with a time to live of 0\n  \
         251 of 251 slots of the lookup table for backend 0, 192.0.2.1, at the end\n", HEAD),
    ("a summary of another program", SENDS, "", DATAGRAM, "--image image --summary", 0, ONE_TX,
        "  1 frame of TCP or UDP that fit into a tunnel\n  1 frame sent, by the program\n", DATAGRAM),
    ("a summary of two shares in two shards", "", TWO_BACKENDS, HEAD, "--script script --ring 7 --shards 2 --summary", 0, NO_FRAME,
        "  with 2 backends up, each has 3 or 4 of the lookup table's 7 slots: a larger --ring N, at most 65537, with --no-journals, is more even\n  \
         4 of 7 slots of the lookup table for backend 2, 192.0.2.3, at the end\n  \
         3 of 7 slots of the lookup table for backend 6, 192.0.2.4, at the end\n", HEAD),
    ("commands behind the first frame", "", "0 up 0 192.0.2.1\n1 down 0\n", HEAD, "--script script", 0, NO_FRAME, LATE_NOT_EXACT, HEAD),
    ("the same at exact moments", "", "0 up 0 192.0.2.1\n1 down 0\n", HEAD, "--script script --exact", 0, NO_FRAME, LATE, HEAD),
];

/// The files of a replay: a script, the bytes of a capture's digits, and the image of a text where there is one.
fn files_of<R: Abort + Threads + Wait + Sync>(
    rt: &R,
    alloc: Global,
    name: &str,
    text: &str,
    script: &str,
    capture: &str,
) -> MemoryFolder
    ensures { result.failures ≡ 0 }
{
    let folder = MemoryFolder::new(alloc);
    let folder = put(rt, alloc, folder, "script", script.as_bytes());
    let folder = put_digits(rt, alloc, folder, "capture", capture);
    if text.is_empty() {
        folder
    } else {
        with_image(rt, alloc, name, folder, text)
    }
}

/// The line of a replay with these words, which writes its journals too.
fn line_of(rt: &impl Abort, alloc: Global, words: &str) -> String {
    format!(in alloc; "xlb replay capture sent {words} --journals journals").expect(rt, "a line")
}

/// Holds what a replay comes to against a row.
fn compare_row<R: Abort + Threads + Wait + Sync>(rt: &R, alloc: Global, row: &Row) {
    let (name, text, script, capture, words, status, out, err, sent) = *row;
    let wanted = Wanted { status, out, err };
    let folder = files_of(rt, alloc, name, text, script, capture);
    let line = line_of(rt, alloc, words);
    let folder = left_by(rt, alloc, name, folder, &line, wanted);
    compare_sent(rt, alloc, name, folder, sent);
}

/// Holds the frames that a replay sent against the wanted ones; none: there is no such file.
pub(super) fn compare_sent<R: Abort>(
    rt: &R,
    alloc: Global,
    name: &str,
    folder: MemoryFolder,
    sent: &str,
)
    requires { folder.failures ≡ 0 }
{
    if sent.is_empty() {
        lacks(rt, alloc, name, folder, "sent");
    } else {
        compare_digits(rt, alloc, name, folder, "sent", sent);
    }
}

/// Each row's replay.
fn compare_rows<R: Abort + Threads + Wait + Sync>(rt: &R, alloc: Global, rows: &[Row]) {
    for row in rows {
        compare_row(rt, alloc, row);
    }
}

#[test]
fn replays_captures(rt: HostRuntime) {
    compare_rows(&rt, rt.alloc(), &ROWS);
}

#[test]
fn steers_captures(rt: HostRuntime) {
    compare_rows(&rt, rt.alloc(), &STEERED);
}

/// What a row shows, what a replay is given, as above, and the journals that it writes.
type Journaled = (
    &'static str,
    &'static str,
    &'static str,
    &'static str,
    &'static str,
    &'static str,
);

/// The journals of four replays.
#[rattlefmt::skip]
const JOURNALS: [Journaled; 3] = [
    ("a service alone",  "", "0 vip 203.0.113.1 80 udp notrack\n", HEAD, "--script script --journal 16",
     "XLBJ 1 1 1 16\n0 c update cb00710100501100 0100000000000000 0 answer 0\n0 r reclaim freed 0\n1 r reclaim freed 0\n"),
    ("a new flow",       "", SERVICE, DATAGRAM, "--script script --ring 7 --journal 16",
     "XLBJ 1 1 1 16\n0 c update cb00710100501100 0000000000000000 0 answer 0\n0 w0 enter ok\n0 w0 lookup cb00710100501100 cell 0\n\
      0 w0 load 0 0 8 word 0\n0 w0 leave ok\n0 r reclaim freed 0\n1 w0 enter ok\n1 w0 lookup c6336407cb0071019c40005011000000 null\n\
      1 w0 update c6336407cb0071019c40005011000000 0000000000000000 0 answer 0\n1 w0 leave ok\n1 r reclaim freed 0\n\
      2 c update 00000000 0100000000000000 0 answer 0\n2 c update 01000000 0100000000000000 0 answer 0\n\
      2 c update 02000000 0100000000000000 0 answer 0\n2 c update 03000000 0100000000000000 0 answer 0\n\
      2 c update 04000000 0100000000000000 0 answer 0\n2 c update 05000000 0100000000000000 0 answer 0\n\
      2 c update 06000000 0100000000000000 0 answer 0\n2 w0 enter ok\n2 w0 lookup 00000000 cell 0\n2 w0 load 0 0 4 word 1\n2 w0 leave ok\n\
      3 c update 00000000 c000020101000000 0 answer 0\n3 w0 enter ok\n3 w0 lookup 00000000 cell 0\n3 w0 load 0 0 8 word 4311875776\n\
      3 w0 leave ok\n4 c update 00000000 0a00000902000000000a02000000000b0100000000000000 0 answer 0\n4 w0 enter ok\n\
      4 w0 lookup 00000000 cell 0\n4 w0 load 0 16 8 word 1\n4 w0 load 0 0 8 word 8740929546\n4 w0 load 0 8 8 word 792633534417340928\n\
      4 w0 leave ok\n5 w0 enter ok\n5 w0 lookup 03000000 cell 3\n5 w0 atomic 3 0 8 0 1 0 word 0\n5 w0 leave ok\n"),
    ("without tracking, no flow is noted", "", UNTRACKED, DATAGRAM, "--script script --ring 7 --journal 16",
     "XLBJ 1 1 1 16\n0 c update cb00710100501100 0100000000000000 0 answer 0\n0 w0 enter ok\n0 w0 lookup cb00710100501100 cell 0\n\
      0 w0 load 0 0 8 word 1\n0 w0 leave ok\n0 r reclaim freed 0\n1 r reclaim freed 0\n2 c update 00000000 0100000000000000 0 answer 0\n\
      2 c update 01000000 0100000000000000 0 answer 0\n2 c update 02000000 0100000000000000 0 answer 0\n\
      2 c update 03000000 0100000000000000 0 answer 0\n2 c update 04000000 0100000000000000 0 answer 0\n\
      2 c update 05000000 0100000000000000 0 answer 0\n2 c update 06000000 0100000000000000 0 answer 0\n2 w0 enter ok\n\
      2 w0 lookup 00000000 cell 0\n2 w0 load 0 0 4 word 1\n2 w0 leave ok\n3 c update 00000000 c000020101000000 0 answer 0\n3 w0 enter ok\n\
      3 w0 lookup 00000000 cell 0\n3 w0 load 0 0 8 word 4311875776\n3 w0 leave ok\n\
      4 c update 00000000 0a00000902000000000a02000000000b0100000000000000 0 answer 0\n4 w0 enter ok\n4 w0 lookup 00000000 cell 0\n\
      4 w0 load 0 16 8 word 1\n4 w0 load 0 0 8 word 8740929546\n4 w0 load 0 8 8 word 792633534417340928\n4 w0 leave ok\n5 w0 enter ok\n\
      5 w0 lookup 03000000 cell 3\n5 w0 atomic 3 0 8 0 1 0 word 0\n5 w0 leave ok\n"),
];

/// Holds the journals of a replay that succeeds against the wanted ones.
fn compare_journals<R: Abort + Threads + Wait + Sync>(rt: &R, alloc: Global, row: &Journaled) {
    let (name, text, script, capture, words, wanted) = *row;
    let folder = files_of(rt, alloc, name, text, script, capture);
    let line = line_of(rt, alloc, words);
    let folder = done(rt, alloc, name, folder, &line);
    compare_file(rt, alloc, name, folder, "journals", wanted.as_bytes());
}

#[test]
fn writes_journals(rt: HostRuntime) {
    for row in &JOURNALS {
        compare_journals(&rt, rt.alloc(), row);
    }
}
