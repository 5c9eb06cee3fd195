//! A replay that is looked back at, by its report and its script.

ghost use Rattle.std.specs.Prelude.{◌≡◌};

use super::replays::{MOVES, TWO_DATAGRAMS};
use super::{Wanted, compare, compare_begins, done, left_by, put, put_digits};
use folders::MemoryFolder;
use std::alloc::Global;
use std::process::Abort;
use std::sync::Wait;
use std::thread::Threads;

/// Two frames of a flow, the second of which is sent to another backend.
const MOVED: &str = "\
    number,moment,worker,verdict,steps,case,backend,address,source,source_port,destination,destination_port,protocol,choice\n\
    1,1.000002,0,TX,131,sent,0,192.0.2.1,198.51.100.7,40000,203.0.113.1,80,udp,no-note\n\
    2,2.000000,0,TX,131,sent,1,192.0.2.2,198.51.100.7,40000,203.0.113.1,80,udp,no-note\n";

/// The same, where the run found the flow's note, and its backend was not up.
const NOTE_DOWN: &str = "\
    number,moment,worker,verdict,steps,case,backend,address,source,source_port,destination,destination_port,protocol,choice\n\
    1,1.000002,0,TX,131,sent,0,192.0.2.1,198.51.100.7,40000,203.0.113.1,80,udp,no-note\n\
    2,2.000000,0,TX,131,sent,1,192.0.2.2,198.51.100.7,40000,203.0.113.1,80,udp,note-down\n";

/// No record.
const HEAD: &str =
    "number,moment,worker,verdict,steps,case,backend,address,source,source_port,destination,destination_port,protocol,choice\n";

/// The table of flows that is printed where the backend before was not up.
const DOWN: &str = "\
    source,source_port,destination,destination_port,protocol,first,last,frames,sent,dropped,no_backend,changes,backends\n\
    198.51.100.7,40000,203.0.113.1,80,udp,1.000002,2.000000,2,2,0,0,1,0 >down 1\n";

/// The table of flows that is printed where it was up, and the flow's note was gone.
const EVICTED: &str = "\
    source,source_port,destination,destination_port,protocol,first,last,frames,sent,dropped,no_backend,changes,backends\n\
    198.51.100.7,40000,203.0.113.1,80,udp,1.000002,2.000000,2,2,0,0,1,0 >evicted 1\n";

/// What is said of the first of these.
const ONE_DOWN: &str = "  1 flows with a sent frame, 1 of them moved, 0 of these TCP
  0 flows had no backend for a frame, 0 lost a frame behind a sent one
  1 frames moved: 1 down, 0 evicted, 0 untracked, 0 readdressed, 0 unknown
  1 changes of udp 198.51.100.7:40000 to 203.0.113.1:80: 0 >down 1
";

/// What is said of the second of these.
const ONE_EVICTED: &str = "  1 flows with a sent frame, 1 of them moved, 0 of these TCP
  0 flows had no backend for a frame, 0 lost a frame behind a sent one
  1 frames moved: 0 down, 1 evicted, 0 untracked, 0 readdressed, 0 unknown
  1 changes of udp 198.51.100.7:40000 to 203.0.113.1:80: 0 >evicted 1
";

/// A report without the row of record 1.
const LEFT_OUT: &str = "\
    number,moment,worker,verdict,steps,case,backend,address,source,source_port,destination,destination_port,protocol,choice\n\
    2,2.000000,0,TX,131,sent,1,192.0.2.2,198.51.100.7,40000,203.0.113.1,80,udp,no-note\n";

/// A report with a moment that is none.
const NO_MOMENT: &str = "\
    number,moment,worker,verdict,steps,case,backend,address,source,source_port,destination,destination_port,protocol,choice\n\
    1,1.0\u{1b}[2J,0,TX,131,sent,1,192.0.2.2,198.51.100.7,40000,203.0.113.1,80,udp,no-note\n";

/// The table of a flow whose backend goes down between its two frames, which a replay of one capture sends at one moment.
const REPLAYED: &str = "\
    source,source_port,destination,destination_port,protocol,first,last,frames,sent,dropped,no_backend,changes,backends\n\
    198.51.100.7,40000,203.0.113.1,80,udp,1.000002,1.000002,2,2,0,0,1,0 >down 1\n";

/// A script in which both backends stay up.
const STAY: &str = "0 vip 203.0.113.1 80 udp\n0 up 0 192.0.2.1\n0 up 1 192.0.2.2\n";

/// What a row shows, the command, the report and the script, the status, and what is printed on both streams.
type Row = (
    &'static str,
    &'static str,
    &'static str,
    &'static str,
    u8,
    &'static str,
    &'static str,
);

#[rattlefmt::skip]
static ROWS: [Row; 11] = [
    ("a backend that went down",       "flows", MOVED, MOVES, 0, DOWN, ONE_DOWN),
    ("a note that was gone",           "flows", MOVED, STAY,  0, EVICTED, ONE_EVICTED),
    ("a note whose backend was not up, whatever the script says", "flows", NOTE_DOWN, STAY, 0, DOWN, ONE_DOWN),
    ("flows of another file",          "flows", "a,b\n", STAY, 2, "", "error: report is no report of CSV: line 1\n"),
    ("flows of a report with a moment that is none", "flows", NO_MOMENT, STAY, 2, "", "error: report is no report of CSV: line 2, column moment\n"),
    ("a page of it",                   "page",  NO_MOMENT, STAY, 2, "", "error: report is no report of CSV: line 2, column moment\n"),
    ("flows of JSON lines",            "flows", "{}\n", STAY, 2, "", "error: report has JSON lines, and a report of CSV is needed\n"),
    ("flows of a report with a gap",   "flows", LEFT_OUT, STAY, 2, "", "error: report is not of all records of a replay: line 2\n"),
    ("a page of a report with a gap",  "page",  LEFT_OUT, STAY, 2, "", "error: report is not of all records of a replay: line 2\n"),
    ("a page of another file",         "page",  "a,b\n", STAY, 2, "", "error: report is no report of CSV: line 1\n"),
    ("a page of JSON lines",           "page",  "{}\n", STAY, 2, "", "error: report has JSON lines, and a report of CSV is needed\n"),
];

/// Rows of which only the beginning of each stream is compared.
#[rattlefmt::skip]
static BEGINNINGS: [Row; 6] = [
    ("a page",                         "page",  MOVED, MOVES, 0, "<!DOCTYPE html>\n", ""),
    ("a page of no record",            "page",  HEAD,  "",    0, "<!DOCTYPE html>\n", ""),
    ("flows by another script",        "flows", MOVED, "0 vip\n", 1, "", "fault 90 BadLine line 1\n"),
    ("a page by another script",       "page",  MOVED, "0 vip\n", 1, "", "fault 90 BadLine line 1\n"),
    ("flows of two files that are none", "flows", "a,b\n", "0 vip\n", 1, "", "fault 90 BadLine line 1\n"),
    ("a page of two files that are none", "page", "a,b\n", "0 vip\n", 1, "", "fault 90 BadLine line 1\n"),
];

/// The folder of a row's files.
fn folder_of<R: Abort>(rt: &R, alloc: Global, report: &str, script: &str) -> MemoryFolder
    ensures { result.failures ≡ 0 }
{
    let folder = put(
        rt,
        alloc,
        MemoryFolder::new(alloc),
        "report",
        report.as_bytes(),
    );
    put(rt, alloc, folder, "script", script.as_bytes())
}

/// Holds what a command over a row's files comes to against what is wanted.
fn compare_row<R: Abort + Threads + Wait + Sync>(rt: &R, alloc: Global, row: &Row) {
    let (name, command, report, script, status, out, err) = *row;
    let folder = folder_of(rt, alloc, report, script);
    let line = format!(in alloc; "xlb {command} report script").expect(rt, "a line");
    compare(rt, alloc, name, folder, &line, Wanted { status, out, err });
}

/// Holds how that begins against what is wanted.
fn compare_beginning<R: Abort + Threads + Wait + Sync>(rt: &R, alloc: Global, row: &Row) {
    let (name, command, report, script, status, out, err) = *row;
    let folder = folder_of(rt, alloc, report, script);
    let line = format!(in alloc; "xlb {command} report script").expect(rt, "a line");
    compare_begins(rt, alloc, name, folder, &line, Wanted { status, out, err });
}

#[test]
fn replays_are_looked_back_at(rt: HostRuntime) {
    for row in &ROWS {
        compare_row(&rt, rt.alloc(), row);
    }
    for row in &BEGINNINGS {
        compare_beginning(&rt, rt.alloc(), row);
    }
}

/// Holds a command that looks for a file in vain against its refusal.
fn compare_missing<R: Abort + Threads + Wait + Sync>(rt: &R, alloc: Global, line: &str) {
    let folder = folder_of(rt, alloc, MOVED, MOVES);
    let wanted = Wanted {
        status: 1,
        out: "",
        err: "fault 7 Device\n",
    };
    compare_begins(rt, alloc, line, folder, line, wanted);
}

#[test]
fn files_that_are_looked_back_at_are_there(rt: HostRuntime) {
    for line in &[
        "xlb flows none script",
        "xlb flows report none",
        "xlb page none script",
        "xlb page report none",
    ] {
        compare_missing(&rt, rt.alloc(), line);
    }
}

/// Holds what is read of the report of a replay that is made here against what is wanted: what became of its flow, that it is like itself, and a
/// page.
fn compare_replayed<R: Abort + Threads + Wait + Sync>(rt: &R, alloc: Global, name: &str) {
    let folder = put_digits(
        rt,
        alloc,
        MemoryFolder::new(alloc),
        "capture",
        TWO_DATAGRAMS,
    );
    let folder = put(rt, alloc, folder, "script", MOVES.as_bytes());
    let line = "xlb replay capture sent --script script --exact --report report";
    let folder = done(rt, alloc, name, folder, line);
    let wanted = Wanted {
        status: 0,
        out: REPLAYED,
        err: ONE_DOWN,
    };
    let folder = left_by(rt, alloc, name, folder, "xlb flows report script", wanted);
    let alike = Wanted {
        status: 0,
        out: "2 records in both, 0 treated differently\n",
        err: "",
    };
    let folder = left_by(rt, alloc, name, folder, "xlb compare report report", alike);
    let page = Wanted {
        status: 0,
        out: "<!DOCTYPE html>\n",
        err: "",
    };
    compare_begins(rt, alloc, name, folder, "xlb page report script", page);
}

#[test]
fn reports_that_a_replay_wrote_are_read(rt: HostRuntime) {
    compare_replayed(&rt, rt.alloc(), "the report of a replay");
}
