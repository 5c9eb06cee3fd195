//! The reports of replays: a line for each record.

ghost use Rattle.std.specs.Prelude.{◌≡◌};

use super::replays::{DATAGRAM, NO_BACKEND, NOT_TO_LIVE, SENDS, ZEROS_13};
use super::{done, put, put_digits, with_image};
use crate::asserting::{holds_of, same_bytes_of};
use folders::{Folder, MemoryFolder};
use std::alloc::Global;
use std::process::Abort;
use std::sync::Wait;
use std::thread::Threads;
use test_support::files::SERVICE;
use test_support::programs::READS_ONE;

/// Gives no verdict, in two steps.
const ABORTS: &str = "version 1\nmov r0, 0\nexit\n";

/// A capture of a frame of 14 zeros, at the last moment that a record can have.
const LAST_MOMENT: &str = "\
    d4c3b2a1020004000000000000000000ffff000001000000\
    ffffffff3f420f000e0000000e000000\
    0000000000000000000000000000";

/// A capture of five frames of 14 zeros.
const FIVE_ZEROS: &str = "\
    d4c3b2a1020004000000000000000000ffff000001000000\
    01000000020000000e0000000e000000\
    0000000000000000000000000000\
    02000000020000000e0000000e000000\
    0000000000000000000000000000\
    03000000020000000e0000000e000000\
    0000000000000000000000000000\
    04000000020000000e0000000e000000\
    0000000000000000000000000000\
    05000000020000000e0000000e000000\
    0000000000000000000000000000";

/// A capture of a frame of 13 zeros, the datagram, 14 zeros and the datagram again.
const FOUR: &str = "\
    d4c3b2a1020004000000000000000000ffff000001000000\
    01000000020000000d0000000d000000\
    00000000000000000000000000\
    01000000020000002a0000002a000000\
    02000000000102000000000208004500001c0001000040111494c6336407cb0071019c40005000080000\
    01000000020000000e0000000e000000\
    0000000000000000000000000000\
    01000000020000002a0000002a000000\
    02000000000102000000000208004500001c0001000040111494c6336407cb0071019c40005000080000";

/// A capture of the datagram, five times.
const FIVE_DATAGRAMS: &str = "\
    d4c3b2a1020004000000000000000000ffff000001000000\
    01000000020000002a0000002a000000\
    02000000000102000000000208004500001c0001000040111494c6336407cb0071019c40005000080000\
    01000000020000002a0000002a000000\
    02000000000102000000000208004500001c0001000040111494c6336407cb0071019c40005000080000\
    01000000020000002a0000002a000000\
    02000000000102000000000208004500001c0001000040111494c6336407cb0071019c40005000080000\
    01000000020000002a0000002a000000\
    02000000000102000000000208004500001c0001000040111494c6336407cb0071019c40005000080000\
    01000000020000002a0000002a000000\
    02000000000102000000000208004500001c0001000040111494c6336407cb0071019c40005000080000";

/// A capture of a packet of TCP between the same addresses and ports, twice.
const TWO_OF_TCP: &str = "\
    d4c3b2a1020004000000000000000000ffff000001000000\
    01000000020000002a0000002a000000\
    02000000000102000000000208004500001c000100004006149fc6336407cb0071019c40005000080000\
    01000000020000002a0000002a000000\
    02000000000102000000000208004500001c000100004006149fc6336407cb0071019c40005000080000";

/// What a report in CSV begins with.
const HEAD: &str =
    "number,moment,worker,verdict,steps,case,backend,address,source,source_port,destination,destination_port,protocol,choice\n";

/// The first backend goes down after three frames, and the second one is up from then on.
const MOVED: &str =
    "0 gateway 10.0.0.9 02:00:00:00:00:0a 02:00:00:00:00:0b\n0 vip 203.0.113.1 80 udp\n0 up 7 192.0.2.1\n3 up 5 192.0.2.2\n3 down 7\n";

/// One address for two numbers, one after the other.
const TWO_NUMBERS: &str =
    "0 gateway 10.0.0.9 02:00:00:00:00:0a 02:00:00:00:00:0b\n0 vip 203.0.113.1 80 udp\n0 up 0 192.0.2.1\n0 down 0\n0 up 1 192.0.2.1\n";

/// A backend that returns under another number.
const RETURNED: &str =
    "0 gateway 10.0.0.9 02:00:00:00:00:0a 02:00:00:00:00:0b\n0 vip 203.0.113.1 80 udp\n0 up 7 192.0.2.1\n3 down 7\n3 up 5 192.0.2.1\n";

/// Behind the second frame the backend goes down, for which another one is up; behind the third the service is without tracking, and behind the
/// fourth it is tracked again.
const CHOSEN: &str =
    "0 gateway 10.0.0.9 02:00:00:00:00:0a 02:00:00:00:00:0b\n0 vip 203.0.113.1 80 udp\n0 up 7 192.0.2.1\n2 up 5 192.0.2.2\n2 down 7\n\
     3 vip 203.0.113.1 80 udp notrack\n4 vip 203.0.113.1 80 udp\n";

/// A service of TCP with one backend.
const OF_TCP: &str =
    "0 gateway 10.0.0.9 02:00:00:00:00:0a 02:00:00:00:00:0b\n0 vip 203.0.113.1 80 tcp\n0 up 7 192.0.2.1\n";

/// What a row shows; what a replay is given: the image's text (none: the shipped program), the script, the digits of the capture, and the
/// words after its files; the name of the report, and its lines, with `#` in place of the steps where these are no concern of the row.
type Row = (
    &'static str,
    &'static str,
    &'static str,
    &'static str,
    &'static str,
    &'static str,
    &'static [&'static str],
);

#[rattlefmt::skip]
static ROWS: [Row; 20] = [
    ("13 bytes are short", SENDS, "", ZEROS_13, "--image image", "report.csv", &["1,1.000002,,SHORT,,#,,,,,,,,\n"]),
    ("the same for another program of steering", SENDS, "", ZEROS_13, "--program image", "report", &["1,1.000002,,SHORT,,#,,,,,,,,\n"]),
    ("the same in JSON", SENDS, "", ZEROS_13, "--image image", "report.JSON",
        &["{\"number\":1,\"moment\":\"1.000002\",\"worker\":null,\"verdict\":\"SHORT\",\"steps\":null,#\
           \"case\":null,\"backend\":null,\"address\":null,\"source\":null,\"source_port\":null,\"destination\":null,\
           \"destination_port\":null,\"protocol\":null,\"choice\":null}\n"]),
    ("a frame that is in no tunnel", SENDS, "", LAST_MOMENT, "--image image", "report.jsonx", &["1,4294967295.999999,0,TX,2,#,,,,,,,,\n"]),
    ("the same for another program of steering", SENDS, "", LAST_MOMENT, "--program image", "json",
        &["1,4294967295.999999,0,TX,2,#,,,,,,,,\n"]),
    ("a datagram that is sent as it is", SENDS, "", DATAGRAM, "--image image", "report", &["1,1.000002,0,TX,2,#,,,198.51.100.7,40000,203.0.113.1,80,udp,\n"]),
    ("no verdict", ABORTS, "", LAST_MOMENT, "--program image", "report", &["1,4294967295.999999,0,ABORTED,2,#,,,,,,,,\n"]),
    ("a full journal stops the last run", READS_ONE, "", FIVE_ZEROS, "--image image --journal 16", "report",
        &["1,1.000002,0,PASS,9,#,,,,,,,,\n", "2,2.000002,0,PASS,9,#,,,,,,,,\n", "3,3.000002,0,PASS,9,#,,,,,,,,\n", "4,4.000002,0,PASS,9,#,,,,,,,,\n",
          "5,5.000002,0,STOPPED,,#,,,,,,,,\n"]),
    ("no backend", "", NO_BACKEND, DATAGRAM, "--script script", "report", &["1,1.000002,0,DROP,#,no-backend,,,198.51.100.7,40000,203.0.113.1,80,udp,\n"]),
    ("a time to live of 0", "", SERVICE, NOT_TO_LIVE, "--script script", "report", &["1,1.000002,0,DROP,#,expired,,,198.51.100.7,40000,203.0.113.1,80,udp,\n"]),
    ("no service", "", "", DATAGRAM, "--script script", "report", &["1,1.000002,0,PASS,#,no-service,,,198.51.100.7,40000,203.0.113.1,80,udp,\n"]),
    ("another Ethernet type", "", "", LAST_MOMENT, "--script script", "report", &["1,4294967295.999999,0,PASS,#,other-type,,,,,,,,\n"]),
    ("a backend", "", SERVICE, DATAGRAM, "--script script", "report", &["1,1.000002,0,TX,#,sent,0,192.0.2.1,198.51.100.7,40000,203.0.113.1,80,udp,no-note\n"]),
    ("a backend in JSON", "", SERVICE, DATAGRAM, "--script script", "report.jsonl",
        &["{\"number\":1,\"moment\":\"1.000002\",\"worker\":0,\"verdict\":\"TX\",\"steps\":#,\
           \"case\":\"sent\",\"backend\":0,\"address\":\"192.0.2.1\",\"source\":\"198.51.100.7\",\"source_port\":40000,\
           \"destination\":\"203.0.113.1\",\"destination_port\":80,\"protocol\":\"udp\",\"choice\":\"no-note\"}\n"]),
    ("an address of two numbers", "", TWO_NUMBERS, DATAGRAM, "--script script", "report",
        &["1,1.000002,0,TX,#,sent,1,192.0.2.1,198.51.100.7,40000,203.0.113.1,80,udp,no-note\n"]),
    ("a backend that returns under another number", "", RETURNED, FOUR, "--script script --exact", "report",
        &["1,1.000002,,SHORT,#,short,,,,,,,,\n",
          "2,1.000002,0,TX,#,sent,7,192.0.2.1,198.51.100.7,40000,203.0.113.1,80,udp,no-note\n",
          "3,1.000002,0,PASS,#,other-type,,,,,,,,\n",
          "4,1.000002,0,TX,#,sent,5,192.0.2.1,198.51.100.7,40000,203.0.113.1,80,udp,note-down\n"]),
    ("no record", "", "", "d4c3b2a1020004000000000000000000ffff000001000000", "--script script", "report", &[]),
    ("a flow that goes to another backend", "", MOVED, FOUR, "--script script --exact", "report",
        &["1,1.000002,,SHORT,#,short,,,,,,,,\n",
        "2,1.000002,0,TX,#,sent,7,192.0.2.1,198.51.100.7,40000,203.0.113.1,80,udp,no-note\n",
        "3,1.000002,0,PASS,#,other-type,,,,,,,,\n",
          "4,1.000002,0,TX,#,sent,5,192.0.2.2,198.51.100.7,40000,203.0.113.1,80,udp,note-down\n"]),
    ("a flow without a note, with one, with a note of a backend that is down, of a service without tracking, and with its last note", "", CHOSEN,
        FIVE_DATAGRAMS, "--script script --exact", "report",
        &["1,1.000002,0,TX,195,sent,7,192.0.2.1,198.51.100.7,40000,203.0.113.1,80,udp,no-note\n",
          "2,1.000002,0,TX,134,sent,7,192.0.2.1,198.51.100.7,40000,203.0.113.1,80,udp,noted\n",
          "3,1.000002,0,TX,206,sent,5,192.0.2.2,198.51.100.7,40000,203.0.113.1,80,udp,note-down\n",
          "4,1.000002,0,TX,183,sent,5,192.0.2.2,198.51.100.7,40000,203.0.113.1,80,udp,untracked\n",
          "5,1.000002,0,TX,134,sent,5,192.0.2.2,198.51.100.7,40000,203.0.113.1,80,udp,noted\n"]),
    ("a flow of TCP without a note, and with one", "", OF_TCP, TWO_OF_TCP, "--script script --exact", "report",
        &["1,1.000002,0,TX,194,sent,7,192.0.2.1,198.51.100.7,40000,203.0.113.1,80,tcp,no-note\n",
          "2,1.000002,0,TX,133,sent,7,192.0.2.1,198.51.100.7,40000,203.0.113.1,80,tcp,noted\n"]),
];

/// The files of a replay: a script, a capture, and the image of a text where there is one.
fn files_of<R: Abort + Threads + Wait + Sync>(
    rt: &R,
    alloc: Global,
    name: &str,
    text: &str,
    script: &str,
    capture: &str,
) -> MemoryFolder
    ensures { result.failures ≡ 0 }
{
    let folder = MemoryFolder::new(alloc);
    let folder = put(rt, alloc, folder, "script", script.as_bytes());
    let folder = put_digits(rt, alloc, folder, "capture", capture);
    if text.is_empty() {
        folder
    } else {
        with_image(rt, alloc, name, folder, text)
    }
}

/// What a line begins with, before its steps.
fn front_of(line: &str) -> &str {
    match line.split('#').nth(0) {
        Some(part) => part,
        None => "",
    }
}

/// What a line ends with, behind its steps.
fn back_of(line: &str) -> &str {
    match line.split('#').nth(1) {
        Some(part) => part,
        None => "",
    }
}

/// Ends the test where a line is not this one, with steps between what it begins and what it ends with.
fn compare_line(rt: &impl Abort, name: &str, line: &[u8], front: &str, back: &str) {
    holds_of(rt, name, front, line.starts_with(front.as_bytes()));
    holds_of(rt, name, back, line.ends_with(back.as_bytes()));
    let (_, rest) = line.split_at(front.len().min(line.len()));
    let count = rest.len().saturating_sub(back.len());
    let are_digits = rest.iter().take(count).all(|byte| byte.is_ascii_digit());
    holds_of(rt, name, "steps alone", are_digits);
}

/// Compares the next line of a text. Returns what follows it.
fn after_line<'a>(
    rt: &impl Abort,
    name: &str,
    text: &'a [u8],
    front: &str,
    back: &str,
) -> &'a [u8] {
    let end = match text.iter().position(|byte| *byte == b'\n') {
        Some(place) => place.saturating_add(1),
        None => text.len(),
    };
    let (line, rest) = text.split_at(end.min(text.len()));
    compare_line(rt, name, line, front, back);
    rest
}

/// Ends the test where a report does not have these lines, below its head, and no others.
fn compare_lines(rt: &impl Abort, name: &str, report: &[u8], head: &str, lines: &[&str]) {
    holds_of(rt, name, "head", report.starts_with(head.as_bytes()));
    let (_, below) = report.split_at(head.len().min(report.len()));
    let mut rest = below;
    for line in lines {
        rest = after_line(rt, name, rest, front_of(line), back_of(line));
    }
    same_bytes_of(rt, name, "end", rest, b"");
}

/// What a report of this name begins with.
fn head_of(file: &str) -> &'static str {
    if file.ends_with(".JSON") || file.ends_with(".jsonl") {
        ""
    } else {
        HEAD
    }
}

/// Holds the report of a row's replay against its lines.
fn compare_row<R: Abort + Threads + Wait + Sync>(rt: &R, alloc: Global, row: &Row) {
    let (name, text, script, capture, words, file, lines) = *row;
    let folder = files_of(rt, alloc, name, text, script, capture);
    let line = format!(in alloc; "xlb replay capture sent {words} --report {file}").expect(
        rt, "a line",
    );
    let mut folder = done(rt, alloc, name, folder, &line);
    let report = folder.read(alloc, file).expect(rt, "a report");
    compare_lines(rt, name, &report, head_of(file), lines);
}

#[test]
fn reports_have_a_line_for_each_record(rt: HostRuntime) {
    for row in &ROWS {
        compare_row(&rt, rt.alloc(), row);
    }
}
