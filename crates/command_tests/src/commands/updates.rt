//! Runs after updates of their maps.

ghost use Rattle.std.specs.Prelude.{◌≡◌};

use super::long_records::TWO_ZEROS;
use super::replays::{TWO_DATAGRAMS, TWO_TX};
use super::{
    Wanted, ZEROS, assembled, compare_begins, compare_digits, compare_file, done, lacks, left_by,
    over_text, put, put_digits, with_image,
};
use folders::MemoryFolder;
use std::alloc::Global;
use std::process::Abort;
use std::sync::Wait;
use std::thread::Threads;

/// Looks key 7 of a hash map up, and answers its value; 0 where it is absent.
const ANSWERS_KEY_7: &str = "version 1
map hash 4 8 2
map array 4 8 2
stw [r10-4], 7
mov r2, r10
add r2, -4
ldmap r1, 0
call 1
jeq r0, 0, +2
ldxdw r0, [r0+0]
exit
mov r0, 0
exit
";

/// What a row shows, the command line behind its files, the status, and what is printed on either stream.
type Row = (&'static str, &'static str, u8, &'static str, &'static str);

#[rattlefmt::skip]
const ROWS: [Row; 10] = [
    ("no update", "", 0, "verdict aborted\ninstructions 8\nframe 0000000000000000000000000000\n", ""),
    ("another branch", " --update 0 07000000 0300000000000000", 0, "verdict tx\ninstructions 8\nframe 0000000000000000000000000000\n", ""),
    ("the last one counts", " --update 0 07000000 0300000000000000 --update 0 07000000 0100000000000000", 0,
        "verdict drop\ninstructions 8\nframe 0000000000000000000000000000\n", ""),
    ("of another map", " --update 1 01000000 0300000000000000", 0,
        "verdict aborted\ninstructions 8\nframe 0000000000000000000000000000\n", ""),
    ("no such index", " --update 1 02000000 0300000000000000", 1, "", "fault 93 Refused answer -7\n  update 1 of the command line\n"),
    ("a short key", " --update 0 01 00 --update 0 01000000 0000000000000000", 2, "",
        "error: update 1: a key of map 0 has 4 bytes, not 1\n"),
    ("no map 2", " --update 0 07000000 0300000000000000 --update 2 07000000 0300000000000000", 2, "",
        "error: update 2: the image has no map 2\n"),
    ("a short value", " --update 1 00000000 03", 2, "", "error: update 1: a value of map 1 has 8 bytes, not 1\n"),
    ("no worker 8", " --update 0 07000000 0300000000000000 --worker 8", 1, "", "fault 51 BadOptions\n  --worker 8\n  expected 0 to 7\n"),
    ("a misfit before it",     " --update 2 00 00 --worker 8",                                      2, "",
        "error: update 1: the image has no map 2\n"),
];

/// A row's run.
fn compare_row<R: Abort + Threads + Wait + Sync>(rt: &R, alloc: Global, row: &Row) {
    let (name, words, status, out, err) = *row;
    let line = format!(in alloc; "xlb run image frame{words}").expect(rt, "a line");
    let wanted = Wanted { status, out, err };
    over_text(
        rt,
        alloc,
        name,
        ANSWERS_KEY_7,
        ("frame", ZEROS),
        &line,
        wanted,
    );
}

/// Each row's run.
fn compare_rows<R: Abort + Threads + Wait + Sync>(rt: &R, alloc: Global, rows: &[Row]) {
    for row in rows {
        compare_row(rt, alloc, row);
    }
}

#[test]
fn updates_come_before_a_run(rt: HostRuntime) {
    compare_rows(&rt, rt.alloc(), &ROWS);
}

/// A run with updates of two maps, which writes its journals.
const JOURNALED: &str =
    "xlb run image frame --update 1 01000000 FF00000000000000 --journals j --update 0 07000000 0300000000000000";

const JOURNALS: &str = "XLBJ 1 8 1 65536
0 c update 07000000 0300000000000000 0 answer 0
0 w0 enter ok
0 w0 lookup 07000000 cell 0
0 w0 load 0 0 8 word 3
0 w0 leave ok
1 c update 01000000 ff00000000000000 0 answer 0
";

#[test]
fn journals_have_the_updates_first(rt: HostRuntime) {
    let alloc = rt.alloc();
    let folder = assembled(&rt, alloc, "updates", ANSWERS_KEY_7, ("frame", ZEROS));
    let folder = done(&rt, alloc, "updates", folder, JOURNALED);
    compare_file(&rt, alloc, "updates", folder, "j", JOURNALS.as_bytes());
}

/// Two backends are up.
const TWO_UP: &[u8] = b"0 gateway 10.0.0.9 02:00:00:00:00:0a 02:00:00:00:00:0b\n\
    0 vip 203.0.113.1 80 udp\n0 up 0 192.0.2.1\n0 up 1 192.0.2.2\n";

/// Both datagrams in a tunnel to the first one.
const TO_THE_FIRST: &str = "\
    d4c3b2a1020004000000000000000000ffff000001000000\
    01000000020000003e0000003e000000\
    02000000000b02000000000a0800450000300000400040046ec00a000009c00002014500001c0001000040111494c6336407cb0071019c40005000080000\
    01000000020000003e0000003e000000\
    02000000000b02000000000a0800450000300000400040046ec00a000009c00002014500001c0001000040111494c6336407cb0071019c40005000080000";

/// And to the second one.
const TO_THE_SECOND: &str = "\
    d4c3b2a1020004000000000000000000ffff000001000000\
    01000000020000003e0000003e000000\
    02000000000b02000000000a0800450000300000400040046ebf0a000009c00002024500001c0001000040111494c6336407cb0071019c40005000080000\
    01000000020000003e0000003e000000\
    02000000000b02000000000a0800450000300000400040046ebf0a000009c00002024500001c0001000040111494c6336407cb0071019c40005000080000";

/// The backend's number that is noted for the datagrams' flow, and the capture of what is sent.
type Noted = (&'static str, &'static str);

const NOTED: [Noted; 2] = [
    ("0000000000000000", TO_THE_FIRST),
    ("0100000000000000", TO_THE_SECOND),
];

/// Compares where a flow goes whose note is set before the shipped program is replayed, as a program of its own.
fn compare_noted<R: Abort + Threads + Wait + Sync>(rt: &R, alloc: Global, row: &Noted) {
    let (value, sent) = *row;
    let folder = put_digits(
        rt,
        alloc,
        MemoryFolder::new(alloc),
        "capture",
        TWO_DATAGRAMS,
    );
    let folder = put(rt, alloc, folder, "script", TWO_UP);
    let folder = done(rt, alloc, value, folder, "xlb shipped program");
    let line = format!(in alloc;
        "xlb replay capture sent --program program --script script --exact --update 1 c6336407cb0071019c40005011000000 {value}"
    ).expect(rt, "a line");
    let folder = done(rt, alloc, value, folder, &line);
    compare_digits(rt, alloc, value, folder, "sent", sent);
}

#[test]
fn updates_come_before_a_replay_of_a_program(rt: HostRuntime) {
    for row in &NOTED {
        compare_noted(&rt, rt.alloc(), row);
    }
}

/// A run after this many updates of key 7; the last one sets 3.
fn many<R: Abort>(rt: &R, alloc: Global, count: u32) -> String {
    let mut line = String::from_str(alloc, "xlb run image frame").expect(rt, "a line");
    for _ in 1..count {
        line.push_str(" --update 0 07000000 0100000000000000")
            .expect(rt, "an update");
    }
    line.push_str(" --update 0 07000000 0300000000000000")
        .expect(rt, "an update");
    line
}

#[test]
fn a_hundred_updates_are_made(rt: HostRuntime) {
    let alloc = rt.alloc();
    let line = many(&rt, alloc, 100);
    let folder = assembled(&rt, alloc, "updates", ANSWERS_KEY_7, ("frame", ZEROS));
    let wanted = Wanted {
        status: 0,
        out: "verdict tx\n",
        err: "",
    };
    compare_begins(&rt, alloc, "a hundred updates", folder, &line, wanted);
}

const TWO_DROPPED: &str = "frames 2\nshort 0\nstopped 0\naborted 0\ndrop 2\npass 0\ntx 0\n";

/// As of a run. Sixteen entries are the least room of a journal.
#[rattlefmt::skip]
const REPLAYS: [Row; 9] = [
    ("one worker", " --update 0 07000000 0300000000000000", 0, TWO_TX, ""),
    ("four workers", " --workers 4 --update 0 07000000 0300000000000000", 0, TWO_TX, ""),
    ("exact", " --exact --update 0 07000000 0300000000000000", 0, TWO_TX, ""),
    ("the last one counts", " --update 0 07000000 0300000000000000 --exact --update 0 07000000 0100000000000000", 0, TWO_DROPPED, ""),
    ("no such index", " --update 0 07000000 0300000000000000 --update 1 02000000 0300000000000000", 1, "",
        "fault 93 Refused answer -7\n  update 2 of the command line\n"),
    ("no such index, exact", " --exact --update 1 02000000 0300000000000000", 1, "",
        "fault 93 Refused answer -7\n  update 1 of the command line\n"),
    ("a short key", " --update 0 01 00", 2, "", "error: update 1: a key of map 0 has 4 bytes, not 1\n"),
    ("no map 2", " --exact --update 0 07000000 0300000000000000 --update 2 00 00", 2, "", "error: update 2: the image has no map 2\n"),
    ("a misfit before the options", " --update 1 00000000 03 --workers 9", 2, "", "error: update 1: a value of map 1 has 8 bytes, not 1\n"),
];

/// A folder of the image of the text above, and of the capture.
fn with_capture<R: Abort + Threads + Wait + Sync>(rt: &R, alloc: Global) -> MemoryFolder
    ensures { result.failures ≡ 0 }
{
    let folder = put_digits(rt, alloc, MemoryFolder::new(alloc), "capture", TWO_ZEROS);
    with_image(rt, alloc, "updates of a replay", folder, ANSWERS_KEY_7)
}

/// A row's replay, which writes no file where it is refused.
fn compare_replay<R: Abort + Threads + Wait + Sync>(rt: &R, alloc: Global, row: &Row) {
    let (name, words, status, out, err) = *row;
    let line = format!(in alloc; "xlb replay capture sent --image image{words}").expect(
        rt, "a line",
    );
    let folder = with_capture(rt, alloc);
    let folder = left_by(rt, alloc, name, folder, &line, Wanted { status, out, err });
    lacks_if_refused(rt, alloc, name, folder, status);
}

/// Ends the test where a replay with a status above 0 has left a file of sent frames.
fn lacks_if_refused<R: Abort>(rt: &R, alloc: Global, name: &str, folder: MemoryFolder, status: u8)
    requires { folder.failures ≡ 0 }
{
    if status != 0 {
        lacks(rt, alloc, name, folder, "sent");
    }
}

/// Each row's replay.
fn compare_replays<R: Abort + Threads + Wait + Sync>(rt: &R, alloc: Global, rows: &[Row]) {
    for row in rows {
        compare_replay(rt, alloc, row);
    }
}

#[test]
fn updates_come_before_a_replay(rt: HostRuntime) {
    compare_replays(&rt, rt.alloc(), &REPLAYS);
}

/// What the controller made before the first frame, in its order, and then the runs.
const REPLAYED: &str = "XLBJ 1 1 1 65536
0 c update 07000000 0100000000000000 0 answer 0
0 c update 07000000 0300000000000000 0 answer 0
0 w0 enter ok
0 w0 lookup 07000000 cell 0
0 w0 load 0 0 8 word 3
0 w0 leave ok
0 w0 enter ok
0 w0 lookup 07000000 cell 0
0 w0 load 0 0 8 word 3
0 w0 leave ok
0 r reclaim freed 0
1 c update 01000000 ff00000000000000 0 answer 0
";

const REPLAYED_BY: &str =
    "xlb replay capture sent --image image --exact --journals j --update 0 07000000 0100000000000000 \
    --update 1 01000000 ff00000000000000 --update 0 07000000 0300000000000000";

#[test]
fn a_replay_begins_with_its_updates(rt: HostRuntime) {
    let alloc = rt.alloc();
    let folder = with_capture(&rt, alloc);
    let folder = done(&rt, alloc, "updates", folder, REPLAYED_BY);
    compare_file(&rt, alloc, "updates", folder, "j", REPLAYED.as_bytes());
}

/// A replay of journals of 16 entries after this many updates of key 7.
fn many_before<R: Abort>(rt: &R, alloc: Global, words: &str, count: u32) -> String {
    let line = format!(in alloc; "xlb replay capture sent --image image --journal 16{words}");
    let mut line = line.expect(rt, "a line");
    for _ in 0..count {
        line.push_str(" --update 0 07000000 0300000000000000")
            .expect(rt, "an update");
    }
    line
}

/// The first update that a journal of 16 entries has no room for.
const FULL: &str = "fault 94 JournalFull\n  update 17 of the command line\n";

fn compare_full<R: Abort + Threads + Wait + Sync>(rt: &R, alloc: Global, words: &str) {
    let line = many_before(rt, alloc, words, 17);
    let wanted = Wanted {
        status: 1,
        out: "",
        err: FULL,
    };
    let folder = left_by(rt, alloc, words, with_capture(rt, alloc), &line, wanted);
    lacks(rt, alloc, words, folder, "sent");
}

#[test]
fn updates_of_a_full_journal(rt: HostRuntime) {
    compare_full(&rt, rt.alloc(), "");
    compare_full(&rt, rt.alloc(), " --exact");
}
