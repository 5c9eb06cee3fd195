//! Replays of captures by the program: reports, frames that are sent, journals, and audits of them.

mod schedules;

ghost use Rattle.std.specs.Prelude.{◌≡◌};

use crate::asserting::same_bytes;
use crate::commands::{
    has_digits, has_file, has_no_file, prints, put, put_digits, refuses, reports, with_image,
};
use folders::{Folder, MemoryFolder};
use schedules::segments_file;
use std::alloc::Global;
use std::process::Abort;
use std::sync::Wait;
use std::thread::Threads;
use test_support::files::{COUNTED_TO_THREE, SERVICE};
use test_support::programs::COUNTS_TO_THREE;
use wire::MemorySink;

/// The head of a capture: a capture of no frames.
const HEAD: &str = "d4c3b2a1020004000000000000000000ffff000001000000";

/// A capture of a frame of 14 zeros.
const ZEROS_14: &str = "\
    d4c3b2a1020004000000000000000000ffff000001000000\
    01000000020000000e0000000e000000\
    0000000000000000000000000000";

/// A capture of a UDP datagram without data from 198.51.100.7:40000 to port 80 of 203.0.113.1.
const DATAGRAM: &str = "\
    d4c3b2a1020004000000000000000000ffff000001000000\
    01000000020000002a0000002a000000\
    02000000000102000000000208004500001c0001000040111494c6336407cb0071019c40005000080000";

/// The same in a tunnel from 10.0.0.9 to 192.0.2.1.
const IN_A_TUNNEL: &str = "\
    d4c3b2a1020004000000000000000000ffff000001000000\
    01000000020000003e0000003e000000\
    02000000000b02000000000a0800\
    450000300000400040046ec00a000009c0000201\
    4500001c0001000040111494c6336407cb0071019c40005000080000";

/// The same in a tunnel to 192.0.2.2.
const IN_THE_OTHER_TUNNEL: &str = "\
    d4c3b2a1020004000000000000000000ffff000001000000\
    01000000020000003e0000003e000000\
    02000000000b02000000000a0800\
    450000300000400040046ebf0a000009c0000202\
    4500001c0001000040111494c6336407cb0071019c40005000080000";

const NO_FRAME: &str = "frames 0\nshort 0\nstopped 0\naborted 0\ndrop 0\npass 0\ntx 0\n";

const ONE_SHORT: &str = "frames 1\nshort 1\nstopped 0\naborted 0\ndrop 0\npass 0\ntx 0\n";

const ONE_DROP: &str = "frames 1\nshort 0\nstopped 0\naborted 0\ndrop 1\npass 0\ntx 0\n";

const ONE_PASS: &str = "frames 1\nshort 0\nstopped 0\naborted 0\ndrop 0\npass 1\ntx 0\n";

const ONE_TX: &str = "frames 1\nshort 0\nstopped 0\naborted 0\ndrop 0\npass 0\ntx 1\n";

/// A folder with a capture and a script.
fn with_script<R: Abort>(rt: &R, alloc: Global, capture: &str, script: &str) -> MemoryFolder
    ensures { result.failures ≡ 0 }
{
    let folder = put_digits(rt, alloc, MemoryFolder::new(alloc), "capture", capture);
    put(rt, alloc, folder, "script", script.as_bytes())
}

/// A replay of the shipped program over a capture, with a script.
const STEER: &str = "xlb replay capture sent --script script --journals journals";

/// The shipped program over a capture, with a script, reports this and sends this capture.
fn steers<R: Abort + Threads + Wait + Sync>(
    rt: &R,
    alloc: Global,
    capture: &str,
    script: &str,
    report: &str,
    sent: &str,
) -> MemoryFolder
    ensures { result.failures ≡ 0 }
{
    let folder = with_script(rt, alloc, capture, script);
    let folder = prints(rt, alloc, folder, STEER, report);
    has_digits(rt, alloc, folder, "sent", sent)
}

/// A replay with a script over no frames is refused a command: its status is 1.
fn refuses_a_command<R: Abort + Threads + Wait + Sync>(
    rt: &R,
    alloc: Global,
    line: &str,
    script: &str,
    refused: &str,
) -> MemoryFolder
    ensures { result.failures ≡ 0 }
{
    let folder = with_script(rt, alloc, HEAD, script);
    let report = format!(in alloc; "{NO_FRAME}{refused}").expect(rt, "a report");
    reports(rt, alloc, folder, line, 1, &report)
}

#[test]
fn a_record_of_13_bytes_is_short(rt: HostRuntime) {
    let alloc = rt.alloc();
    let folder = with_image(&rt, alloc, "version 1\nmov r0, 3\nexit\n");
    let capture = "\
        d4c3b2a1020004000000000000000000ffff000001000000\
        01000000020000000d0000000d000000\
        00000000000000000000000000";
    let folder = put_digits(&rt, alloc, folder, "capture", capture);
    let line = "xlb replay capture sent --image image";
    let folder = prints(&rt, alloc, folder, line, ONE_SHORT);
    has_digits(&rt, alloc, folder, "sent", HEAD);
}

#[test]
fn a_datagram_goes_to_the_backend(rt: HostRuntime) {
    steers(&rt, rt.alloc(), DATAGRAM, SERVICE, ONE_TX, IN_A_TUNNEL);
}

/// A service and the tunnel, and no backend.
const NO_BACKEND: &str =
    "0 gateway 10.0.0.9 02:00:00:00:00:0a 02:00:00:00:00:0b\n0 vip 203.0.113.1 80 udp\n";

#[test]
fn a_datagram_without_a_backend_is_dropped(rt: HostRuntime) {
    steers(&rt, rt.alloc(), DATAGRAM, NO_BACKEND, ONE_DROP, HEAD);
}

#[test]
fn a_datagram_of_no_service_passes(rt: HostRuntime) {
    steers(&rt, rt.alloc(), DATAGRAM, "", ONE_PASS, HEAD);
}

#[test]
fn a_command_that_is_refused_is_reported(rt: HostRuntime) {
    let alloc = rt.alloc();
    let refused = "command 1 refused 91\n";
    refuses_a_command(&rt, alloc, STEER, "0 down 3\n", refused);
    let script = "0 up 0 10.0.0.1\n0 up 0 10.0.0.1\n";
    let refused = "command 2 refused 92\n";
    refuses_a_command(&rt, alloc, STEER, script, refused);
}

/// A replay of a program over a capture is refused, and no frame is sent.
fn is_not_replayed<R: Abort + Threads + Wait + Sync>(
    rt: &R,
    alloc: Global,
    capture: &str,
    fault: &str,
) {
    let folder = with_image(rt, alloc, "version 1\nmov r0, 3\nexit\n");
    let folder = put_digits(rt, alloc, folder, "capture", capture);
    let line = "xlb replay capture sent --image image";
    let folder = refuses(rt, alloc, folder, line, fault);
    has_no_file(rt, alloc, folder, "sent");
}

#[test]
fn a_cut_capture_is_not_replayed(rt: HostRuntime) {
    let capture = "\
        d4c3b2a1020004000000000000000000ffff000001000000\
        01000000020000000e0000000e000000\
        0000000000000000000000000000\
        01000000020000000e0000000e000000\
        0000000000000000000000000000\
        01000000020000000e0000000e00000000";
    let fault = "fault 5 CutFrame record 3\n";
    is_not_replayed(&rt, rt.alloc(), capture, fault);
    is_not_replayed(&rt, rt.alloc(), "", "fault 4 CutHead record 0\n");
}

/// The same journals with another word at entry 3.
const MADE_UP: &str = "XLBJ 1 1 1 16
0 w0 enter ok
0 w0 update 07000000 0200000000000000 0 answer 0
0 w0 lookup 07000000 cell 0
0 w0 atomic 0 0 8 1 1 0 word 1
0 w0 load 0 0 8 word 3
0 w0 leave ok
0 r reclaim freed 0
";

#[test]
fn journals_are_written_and_audited(rt: HostRuntime) {
    let alloc = rt.alloc();
    let folder = with_image(&rt, alloc, COUNTS_TO_THREE);
    let folder = put_digits(&rt, alloc, folder, "capture", ZEROS_14);
    let line = "xlb replay capture sent --image image --journal 16 --journals journals";
    let folder = prints(&rt, alloc, folder, line, ONE_TX);
    let folder = has_digits(&rt, alloc, folder, "sent", ZEROS_14);
    let journals = COUNTED_TO_THREE.as_bytes();
    let folder = has_file(&rt, alloc, folder, "journals", journals);
    let line = "xlb audit image journals";
    let folder = prints(&rt, alloc, folder, line, "legal\n");
    let folder = put(&rt, alloc, folder, "journals", MADE_UP.as_bytes());
    let fault = "fault 53 Illegal shard 0 place 3\n";
    refuses(&rt, alloc, folder, line, fault);
}

/// Adds the value of element 0, which stays 0, to the low byte of a frame's source port, and answers the sum.
const ANSWERS_THE_PORT: &str = "version 1
map array 4 8 1
ldxw r2, [r1+0]
ldxw r3, [r1+4]
mov r4, r2
add r4, 36
mov r0, 2
jgt r4, r3, +11
ldxb r6, [r2+35]
stw [r10-4], 0
mov r2, r10
add r2, -4
ldmap r1, 0
call 1
jeq r0, 0, +3
ldxdw r7, [r0+0]
add r6, r7
mov r0, r6
exit
";

/// What is sent of five rounds over forty flows by this many workers.
fn sent_by<R: Abort + Threads + Wait + Sync>(
    rt: &R,
    alloc: Global,
    capture: &MemorySink,
    workers: u32,
) -> Vec<u8> {
    let folder = with_image(rt, alloc, ANSWERS_THE_PORT);
    let folder = put(rt, alloc, folder, "capture", capture.bytes());
    let line = format!(in alloc; "xlb replay capture sent --image image --workers {workers}");
    let line = line.expect(rt, "a line");
    let report = "frames 200\nshort 0\nstopped 0\naborted 185\ndrop 5\npass 5\ntx 5\n";
    let mut folder = prints(rt, alloc, folder, &line, report);
    folder.read(alloc, "sent").expect(rt, "the sent frames")
}

#[test]
fn any_number_of_workers_sends_the_same(rt: HostRuntime) {
    let alloc = rt.alloc();
    let capture = segments_file(&rt, alloc, 40192, 40, 5);
    let one = sent_by(&rt, alloc, &capture, 1);
    let two = sent_by(&rt, alloc, &capture, 2);
    same_bytes(&rt, "two workers", &two, &one);
    let four = sent_by(&rt, alloc, &capture, 4);
    same_bytes(&rt, "four workers", &four, &one);
    let eight = sent_by(&rt, alloc, &capture, 8);
    same_bytes(&rt, "eight workers", &eight, &one);
}

/// The lines of a file that begin so, in their order, each with its line feed.
fn lines_with(rt: &impl Abort, alloc: Global, text: &str, front: &str) -> String {
    let mut lines = String::new(alloc);
    for line in text.split('\n') {
        if line.starts_with(front) {
            lines.push_str(line).expect(rt, "room");
            lines.push_str("\n").expect(rt, "room");
        }
    }
    lines
}

/// The lines of the journals that begin so are these.
fn has_lines<R: Abort>(
    rt: &R,
    alloc: Global,
    mut folder: MemoryFolder,
    front: &str,
    wanted: &str,
) -> MemoryFolder
    requires { folder.failures ≡ 0 }
    ensures { result.failures ≡ 0 }
{
    let bytes = folder.read(alloc, "journals").expect(rt, "the journals");
    let text = String::from_utf8(bytes).expect(rt, "a text");
    let lines = lines_with(rt, alloc, &text, front);
    same_bytes(rt, front, lines.as_bytes(), wanted.as_bytes());
    folder
}

/// What the journal of the flows says of a new flow.
const A_NEW_FLOW: &str = "1 w0 enter ok
1 w0 lookup c6336407cb0071019c40005011000000 null
1 w0 update c6336407cb0071019c40005011000000 0000000000000000 0 answer 0
1 w0 leave ok
1 r reclaim freed 0
";

#[test]
fn a_new_flow_is_noted(rt: HostRuntime) {
    let alloc = rt.alloc();
    let folder = steers(&rt, alloc, DATAGRAM, SERVICE, ONE_TX, IN_A_TUNNEL);
    has_lines(&rt, alloc, folder, "1 ", A_NEW_FLOW);
}

#[test]
fn a_backend_that_is_down_gets_nothing(rt: HostRuntime) {
    let alloc = rt.alloc();
    let script = format!(in alloc; "{SERVICE}0 up 1 192.0.2.2\n0 down 0\n");
    let script = script.expect(&rt, "a script");
    let sent = IN_THE_OTHER_TUNNEL;
    steers(&rt, alloc, DATAGRAM, &script, ONE_TX, sent);
}

#[test]
fn a_datagram_with_no_time_to_live_is_dropped(rt: HostRuntime) {
    let expired = "\
        d4c3b2a1020004000000000000000000ffff000001000000\
        01000000020000002a0000002a000000\
        02000000000102000000000208004500001c0001000000111494c6336407cb0071019c40005000080000";
    steers(&rt, rt.alloc(), expired, SERVICE, ONE_DROP, HEAD);
}

#[test]
fn a_datagram_without_a_tunnel_is_dropped(rt: HostRuntime) {
    let script = "0 vip 203.0.113.1 80 udp\n0 up 0 192.0.2.1\n";
    steers(&rt, rt.alloc(), DATAGRAM, script, ONE_DROP, HEAD);
}

/// An audit of these journals, of the image of a program, answers this fault.
fn is_not_legal<R: Abort + Threads + Wait + Sync>(
    rt: &R,
    alloc: Global,
    journals: &str,
    fault: &str,
) {
    let folder = with_image(rt, alloc, COUNTS_TO_THREE);
    let folder = put(rt, alloc, folder, "journals", journals.as_bytes());
    refuses(rt, alloc, folder, "xlb audit image journals", fault);
}

#[test]
fn a_file_with_a_bad_head_is_55(rt: HostRuntime) {
    let fault = "fault 55 BadJournalFile line 1\n";
    is_not_legal(&rt, rt.alloc(), "XLBJ 1 9 1 16\n", fault);
    is_not_legal(&rt, rt.alloc(), "", fault);
}

/// An Enter and fifteen others in a journal of 16, so that the Leave has no place.
const PAST_FULL: &str = "XLBJ 1 1 1 16
0 w0 enter ok
0 w0 lookup 07000000 null
0 w0 lookup 07000000 null
0 w0 lookup 07000000 null
0 w0 lookup 07000000 null
0 w0 lookup 07000000 null
0 w0 lookup 07000000 null
0 w0 lookup 07000000 null
0 w0 lookup 07000000 null
0 w0 lookup 07000000 null
0 w0 lookup 07000000 null
0 w0 lookup 07000000 null
0 w0 lookup 07000000 null
0 w0 lookup 07000000 null
0 w0 lookup 07000000 null
0 w0 lookup 07000000 null
";

#[test]
fn an_entry_in_the_place_of_a_leave_is_not_legal(rt: HostRuntime) {
    let fault = "fault 53 Illegal shard 0 place 15\n";
    is_not_legal(&rt, rt.alloc(), PAST_FULL, fault);
}

#[test]
fn an_entry_that_nobody_may_make_is_not_legal(rt: HostRuntime) {
    let fault = "fault 53 Illegal shard 0 place 0\n";
    let journals = "XLBJ 1 1 1 16\n0 w0 load 0 0 8 word 0\n";
    is_not_legal(&rt, rt.alloc(), journals, fault);
    let journals = "XLBJ 1 2 1 16\n0 w3 enter ok\n";
    is_not_legal(&rt, rt.alloc(), journals, fault);
}

/// A service at each of the ports 0 to 64.
fn services(rt: &impl Abort, alloc: Global) -> String {
    let mut text = String::new(alloc);
    for port in 0..65u32 {
        let line = format!(in alloc; "0 vip 203.0.113.1 {port} udp\n").expect(rt, "a line");
        text.push_str(&line).expect(rt, "room");
    }
    text
}

#[test]
fn the_65th_service_is_refused(rt: HostRuntime) {
    let alloc = rt.alloc();
    let script = services(&rt, alloc);
    let refused = "command 65 refused 93\n";
    let folder = refuses_a_command(&rt, alloc, STEER, &script, refused);
    let front = "0 c update cb00710100401100";
    let wanted = "0 c update cb00710100401100 0000000000000000 0 answer -7\n";
    has_lines(&rt, alloc, folder, front, wanted);
}

/// What the controller writes into the journal of the services.
const NOT_TRACKED: &str = "0 c update cb00710100501100 0100000000000000 0 answer 0\n";

#[test]
fn a_service_without_tracking_notes_no_flow(rt: HostRuntime) {
    let alloc = rt.alloc();
    let script = "\
        0 gateway 10.0.0.9 02:00:00:00:00:0a 02:00:00:00:00:0b\n\
        0 vip 203.0.113.1 80 udp notrack\n\
        0 up 0 192.0.2.1\n";
    let folder = steers(&rt, alloc, DATAGRAM, script, ONE_TX, IN_A_TUNNEL);
    let folder = has_lines(&rt, alloc, folder, "0 c ", NOT_TRACKED);
    has_lines(&rt, alloc, folder, "1 ", "1 r reclaim freed 0\n");
}
