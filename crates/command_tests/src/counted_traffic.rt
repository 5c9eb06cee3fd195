//! Kinds of frames, the summary of a capture of them and of what was sent, and lookup tables.

mod long_records;
mod readings;

use crate::asserting::{holds_of, same_text};
use control::parse_script;
use std::alloc::Global;
use std::process::Abort;
use traffic::{
    Backends, FrameKind, LineVerdict, RecordLine, ReportForm, by_program, case_word, choice_word,
    least_moves, moved_places, moved_slots, services, share_of, shares_of, summary, tables_of,
};
use wire::Sent;

/// A UDP datagram without data from port 40000 of 198.51.100.7 to port 80 of 203.0.113.1.
const DATAGRAM: [u8; 42] = [
    2, 0, 0, 0, 0, 1, 2, 0, 0, 0, 0, 2, 8, 0, 0x45, 0, 0, 28, 0, 1, 0, 0, 64, 17, 0x14, 0x94, 198,
    51, 100, 7, 203, 0, 113, 1, 0x9c, 0x40, 0, 80, 0, 8, 0, 0,
];

/// What a row shows; how many bytes of the datagram are left; a place and the byte that it has, twice; and the kind.
type Row = (&'static str, usize, usize, u8, usize, u8, FrameKind);

#[rattlefmt::skip]
const ROWS: [Row; 24] = [
    ("as it is",                            42, 0, 2, 0, 2, FrameKind::Flow),
    ("of TCP",                              42, 23, 6, 0, 2, FrameKind::Flow),
    ("no byte",                             0, 0, 2, 0, 2, FrameKind::Short),
    ("13 bytes",                            13, 0, 2, 0, 2, FrameKind::Short),
    ("14 bytes of IPv4",                    14, 0, 2, 0, 2, FrameKind::Malformed),
    ("33 bytes of IPv4",                    33, 0, 2, 0, 2, FrameKind::Malformed),
    ("one byte fewer than its header says", 41, 0, 2, 0, 2, FrameKind::Malformed),
    ("14 bytes of IPv6",                    14, 12, 0x86, 13, 0xdd, FrameKind::Ipv6),
    ("ARP",                                 42, 12, 8, 13, 6, FrameKind::Arp),
    ("a VLAN",                              42, 12, 0x81, 13, 0, FrameKind::Vlan),
    ("a provider's VLAN",                   42, 12, 0x88, 13, 0xa8, FrameKind::Vlan),
    ("MPLS",                                42, 12, 0x88, 13, 0x47, FrameKind::OtherType),
    ("version 6 under the type of IPv4",    42, 14, 0x65, 0, 2, FrameKind::Malformed),
    ("a header of 16 bytes",                42, 14, 0x44, 0, 2, FrameKind::Malformed),
    ("a header of 24 bytes",                42, 14, 0x46, 0, 2, FrameKind::Options),
    ("a total of 19 bytes",                 42, 17, 19, 0, 2, FrameKind::Malformed),
    ("a total of 27 bytes",                 42, 17, 27, 0, 2, FrameKind::Malformed),
    ("more fragments",                      42, 20, 0x20, 0, 2, FrameKind::Fragment),
    ("the last fragment",                   42, 21, 1, 0, 2, FrameKind::Fragment),
    ("don't fragment",                      42, 20, 0x40, 0, 2, FrameKind::Flow),
    ("ICMP",                                42, 23, 1, 0, 2, FrameKind::Icmp),
    ("ICMP in fragments",                   42, 23, 1, 21, 1, FrameKind::Fragment),
    ("IP in IP",                            42, 23, 4, 0, 2, FrameKind::OtherProtocol),
    ("a time to live of 0",                 42, 22, 0, 0, 2, FrameKind::Expired),
];

/// Compares the kind of a row's frame.
fn compare(rt: &impl Abort, row: &Row) {
    let (name, length, at, byte, other, value, kind) = *row;
    let mut frame = DATAGRAM;
    if at < 42 && other < 42 {
        frame[at] = byte;
        frame[other] = value;
    }
    let found = FrameKind::of(frame.get(..length).expect(rt, "a length"));
    holds_of(rt, name, "the kind", found == kind);
}

#[test]
fn frames_are_of_their_kind(rt: HostRuntime) {
    for row in &ROWS {
        compare(&rt, row);
    }
}

/// A datagram whose header says this total, and whose frame is as long.
fn datagram(rt: &impl Abort, alloc: Global, total: u16) -> Sent {
    let mut frame = DATAGRAM;
    frame[16] = (total / 256) as u8;
    frame[17] = (total % 256) as u8;
    let mut bytes = Vec::from_slice(alloc, &frame).expect(rt, "a frame");
    for _ in 28..total.min(2000) {
        bytes.push(0).expect(rt, "room");
    }
    bytes.truncate(2304);
    Sent {
        seconds: 1,
        micros: 2,
        bytes,
    }
}

/// Datagrams of these totals.
fn datagrams(rt: &impl Abort, alloc: Global, totals: &[u16]) -> Vec<Sent> {
    let mut frames = Vec::new(alloc);
    for total in totals {
        frames.push(datagram(rt, alloc, *total)).expect(rt, "room");
    }
    frames
}

/// A datagram from this port in a tunnel to 192.0.2.x.
fn tunnelled(rt: &impl Abort, alloc: Global, port: u8, backend: u8) -> Sent {
    let mut inner = DATAGRAM;
    inner[35] = port;
    let mut outer = inner;
    outer[17] = 48;
    outer[23] = 4;
    outer[30..34].copy_from_slice(&[192, 0, 2, backend]);
    let mut bytes = Vec::from_slice(alloc, &outer[..34]).expect(rt, "a header");
    bytes
        .extend_from_slice(&inner[14..])
        .expect(rt, "a datagram");
    bytes.truncate(2304);
    Sent {
        seconds: 1,
        micros: 2,
        bytes,
    }
}

/// The ports and the backends of five frames in tunnels: the third and the fourth one go elsewhere than the frame of their flow before.
const FLOWS: [(u8, u8); 5] = [(1, 1), (2, 1), (1, 2), (1, 1), (3, 1)];

/// Datagrams from these ports in tunnels to these backends.
fn all_tunnelled(rt: &impl Abort, alloc: Global, flows: &[(u8, u8)]) -> Vec<Sent> {
    let mut frames = Vec::new(alloc);
    for (port, backend) in flows {
        frames
            .push(tunnelled(rt, alloc, *port, *backend))
            .expect(rt, "room");
    }
    frames
}

/// What the summary is of a capture of three datagrams, one at the limit and one above it, and of six sent frames of three flows.
const SUMMARY: &str = "1 frame of TCP or UDP in packets of more than 1480 bytes
2 frames of TCP or UDP that fit into a tunnel
4 frames sent to 192.0.2.1
1 frame sent to 192.0.2.2
2 frames sent to another address than the frame of their flow before
";

/// The totals of the captured datagrams.
const CAPTURED: [u16; 3] = [28, 1480, 1481];

#[test]
fn a_summary_counts_kinds_addresses_and_moves(rt: HostRuntime) {
    let alloc = rt.alloc();
    let captured = datagrams(&rt, alloc, &CAPTURED);
    let mut sent = all_tunnelled(&rt, alloc, &FLOWS);
    sent.push(datagram(&rt, alloc, 28)).expect(&rt, "room");
    let text = summary(alloc, &captured, &sent).expect(&rt, "a summary");
    same_text(&rt, "a summary", text.as_str(), SUMMARY);
}

#[test]
fn nothing_has_no_summary(rt: HostRuntime) {
    let text = summary(rt.alloc(), &[], &[]).expect(&rt, "a summary");
    same_text(&rt, "no frames", text.as_str(), "");
}

/// The fourth record: at 5.000012 s, by worker 2, sent in 131 steps to the backend of number 7 at 192.0.2.1, which was noted.
const SENT_LINE: RecordLine = RecordLine {
    number: 4,
    micros: 5_000_012,
    worker: Some(2),
    verdict: LineVerdict::Tx,
    steps: Some(131),
    case_of: "sent",
    backend: Some(7),
    address: Some(0xc000_0201),
    choice: "noted",
};

/// The first record; nothing more is known of it than that it is short.
const SHORT_LINE: RecordLine = RecordLine {
    number: 1,
    micros: 999_999,
    worker: None,
    verdict: LineVerdict::Short,
    steps: None,
    case_of: "",
    backend: None,
    address: None,
    choice: "",
};

/// A datagram of UDP from 198.51.100.7, port 40000, to 203.0.113.1, port 80.
#[rattlefmt::skip]
const REPORTED: &[u8] = &[
    2, 0, 0, 0, 0, 1, 2, 0, 0, 0, 0, 2, 8, 0, 0x45, 0, 0, 28, 0, 1, 0, 0, 64, 17, 0x14, 0x94, 198, 51, 100, 7, 203, 0, 113, 1,
    0x9c, 0x40, 0, 80, 0, 8, 0, 0,
];

/// The form, the line, its frame and its text.
type Line = (ReportForm, RecordLine, &'static [u8], &'static str);

static LINES: [Line; 4] = [
    (
        ReportForm::Csv,
        SENT_LINE,
        REPORTED,
        "4,5.000012,2,TX,131,sent,7,192.0.2.1,198.51.100.7,40000,203.0.113.1,80,udp,noted\n",
    ),
    (
        ReportForm::Csv,
        SHORT_LINE,
        &[],
        "1,0.999999,,SHORT,,,,,,,,,,\n",
    ),
    (
        ReportForm::Json,
        SENT_LINE,
        REPORTED,
        "{\"number\":4,\"moment\":\"5.000012\",\"worker\":2,\"verdict\":\"TX\",\"steps\":131,\"case\":\"sent\",\"backend\":7,\
        \"address\":\"192.0.2.1\",\"source\":\"198.51.100.7\",\"source_port\":40000,\"destination\":\"203.0.113.1\",\
        \"destination_port\":80,\"protocol\":\"udp\",\"choice\":\"noted\"}\n",
    ),
    (
        ReportForm::Json,
        SHORT_LINE,
        &[],
        "{\"number\":1,\"moment\":\"0.999999\",\"worker\":null,\"verdict\":\"SHORT\",\"steps\":null,\"case\":null,\"backend\":null,\
        \"address\":null,\"source\":null,\"source_port\":null,\"destination\":null,\"destination_port\":null,\"protocol\":null,\
        \"choice\":null}\n",
    ),
];

/// Compares the text of a line.
fn compare_line(rt: &impl Abort, alloc: Global, line: &Line) {
    let text = line.0.line(alloc, &line.1, line.2).expect(rt, "a line");
    same_text(rt, "a line", text.as_str(), line.3);
}

#[test]
fn lines_say_what_is_known(rt: HostRuntime) {
    for line in &LINES {
        compare_line(&rt, rt.alloc(), line);
    }
}

/// A kind, a verdict, and the case.
type Case = (FrameKind, LineVerdict, &'static str);

#[rattlefmt::skip]
const CASES: [Case; 12] = [
    (FrameKind::Short,   LineVerdict::Short,   "short"),
    (FrameKind::Arp,     LineVerdict::Pass,    "arp"),
    (FrameKind::Icmp,    LineVerdict::Pass,    "icmp"),
    (FrameKind::Expired, LineVerdict::Pass,    "no-service"),
    (FrameKind::Large,   LineVerdict::Pass,    "no-service"),
    (FrameKind::Flow,    LineVerdict::Pass,    "no-service"),
    (FrameKind::Expired, LineVerdict::Drop,    "expired"),
    (FrameKind::Large,   LineVerdict::Drop,    "large"),
    (FrameKind::Flow,    LineVerdict::Drop,    "no-backend"),
    (FrameKind::Flow,    LineVerdict::Tx,      "sent"),
    (FrameKind::Flow,    LineVerdict::Stopped, ""),
    (FrameKind::Flow,    LineVerdict::Aborted, ""),
];

/// Compares a case.
fn compare_case(rt: &impl Abort, case: &Case) {
    let word = case_word(case.0, case.1);
    same_text(rt, "a case", word, case.2);
}

#[test]
fn cases_follow_from_kind_and_verdict(rt: HostRuntime) {
    for case in &CASES {
        compare_case(&rt, case);
    }
}

/// A verdict, a number of steps, and how the shipped program chose the backend.
type Chosen = (LineVerdict, Option<u64>, &'static str);

#[rattlefmt::skip]
const CHOICES: [Chosen; 21] = [
    (LineVerdict::Tx,      Some(132), ""),
    (LineVerdict::Tx,      Some(133), "noted"),
    (LineVerdict::Tx,      Some(134), "noted"),
    (LineVerdict::Tx,      Some(135), ""),
    (LineVerdict::Tx,      Some(181), ""),
    (LineVerdict::Tx,      Some(182), "untracked"),
    (LineVerdict::Tx,      Some(183), "untracked"),
    (LineVerdict::Tx,      Some(184), ""),
    (LineVerdict::Tx,      Some(193), ""),
    (LineVerdict::Tx,      Some(194), "no-note"),
    (LineVerdict::Tx,      Some(195), "no-note"),
    (LineVerdict::Tx,      Some(196), ""),
    (LineVerdict::Tx,      Some(201), "note-down"),
    (LineVerdict::Tx,      Some(202), "note-down"),
    (LineVerdict::Tx,      Some(203), ""),
    (LineVerdict::Tx,      Some(205), "note-down"),
    (LineVerdict::Tx,      Some(206), "note-down"),
    (LineVerdict::Tx,      Some(207), ""),
    (LineVerdict::Tx,      None,      ""),
    (LineVerdict::Drop,    Some(133), ""),
    (LineVerdict::Stopped, None,      ""),
];

/// Compares how a backend was chosen.
fn compare_choice(rt: &impl Abort, row: &Chosen) {
    same_text(rt, "a choice", choice_word(row.0, row.1), row.2);
}

#[test]
fn choices_follow_from_the_steps(rt: HostRuntime) {
    for row in &CHOICES {
        compare_choice(&rt, row);
    }
}

/// What a row shows, an address, and its number.
type Numbered = (&'static str, u32, Option<u32>);

const NUMBERS: [Numbered; 4] = [
    ("named twice", 10, Some(3)),
    ("three numbers", 11, None),
    ("a number with two addresses", 12, Some(5)),
    ("not named", 13, None),
];

/// The numbers and the addresses that are named, in this order.
const NAMED: [(u32, u32); 6] = [(3, 10), (4, 11), (3, 10), (5, 11), (5, 12), (6, 11)];

/// The table of backends with these numbers and addresses.
fn backends(rt: &impl Abort, alloc: Global, named: &[(u32, u32)]) -> Backends {
    let mut table = Backends::none(alloc);
    for (number, address) in named {
        table.name(*number, *address).expect(rt, "room");
    }
    table
}

/// Compares the numbers that a table has of the rows' addresses.
fn compare_numbers(rt: &impl Abort, table: &Backends, rows: &[Numbered]) {
    for (name, address, number) in rows {
        holds_of(
            rt,
            *name,
            "its number",
            table.number_of(*address) == *number,
        );
    }
}

#[test]
fn a_backend_has_a_number_where_only_one_has_its_address(rt: HostRuntime) {
    let table = backends(&rt, rt.alloc(), &NAMED);
    compare_numbers(&rt, &table, &NUMBERS);
}

/// Three backends come up and go down; one number comes up twice.
const SCRIPT: &str =
    "0 vip 203.0.113.1 80 udp\n0 up 0 192.0.2.1\n0 up 1 192.0.2.2\n5 up 1 192.0.2.3\n9 up 2 192.0.2.3\n20 down 0\n20 down 1\n30 down 2\n";

/// Its tables of seven slots, from a population that was made apart from this code.
const TABLES: &str = "\
command 1 frame 0 moved 0 least 0
command 2 frame 0 moved 7 least 7
backend 0 address 192.0.2.1 slots 7 percent 100.00
command 3 frame 0 moved 3 least 3
backend 0 address 192.0.2.1 slots 4 percent 57.14
backend 1 address 192.0.2.2 slots 3 percent 42.86
command 4 refused 92
command 5 frame 9 moved 3 least 2
backend 0 address 192.0.2.1 slots 3 percent 42.86
backend 1 address 192.0.2.2 slots 2 percent 28.57
backend 2 address 192.0.2.3 slots 2 percent 28.57
command 6 frame 20 moved 3 least 3
backend 1 address 192.0.2.2 slots 4 percent 57.14
backend 2 address 192.0.2.3 slots 3 percent 42.86
command 7 frame 20 moved 4 least 4
backend 2 address 192.0.2.3 slots 7 percent 100.00
command 8 frame 30 moved 7 least 7
";

#[test]
fn tables_have_shares_and_moves(rt: HostRuntime) {
    let alloc = rt.alloc();
    let script = parse_script(alloc, SCRIPT.as_bytes()).expect(&rt, "a script");
    let tables = tables_of(alloc, &script, 7).expect(&rt, "tables");
    same_text(&rt, "the tables", tables.text.as_str(), TABLES);
    holds_of(&rt, "the tables", "refused", tables.is_refused());
    holds_of(&rt, "the tables", "one", tables.refused.len() == 1);
}

/// What a row shows; two tables; how many slots change hands, and the fewest that have to.
type Moved = (&'static str, [u32; 4], [u32; 4], u32, u128);

#[rattlefmt::skip]
static MOVES: [Moved; 5] = [
    ("one table",                   [1, 2, 1, 2], [1, 2, 1, 2], 0, 0),
    ("nobody before",               [0, 0, 0, 0], [1, 2, 1, 2], 4, 4),
    ("nobody afterwards",           [1, 2, 1, 2], [0, 0, 0, 0], 4, 4),
    ("the same shares elsewhere",   [1, 1, 2, 2], [2, 2, 1, 1], 4, 0),
    ("a third backend, one moved",  [1, 1, 2, 2], [2, 1, 1, 3], 3, 1),
];

/// Compares the moves of a row.
fn compare_moves(rt: &impl Abort, alloc: Global, row: &Moved) {
    let (name, old, new, moved, least) = row;
    let found = least_moves(alloc, old, new).expect(rt, "memory");
    holds_of(rt, *name, "moved", moved_slots(old, new, 4) == *moved);
    holds_of(rt, *name, "least", found == *least);
}

#[test]
fn least_moves_are_what_shares_gain(rt: HostRuntime) {
    for row in &MOVES {
        compare_moves(&rt, rt.alloc(), row);
    }
    holds_of(&rt, "a share", "two", share_of(2, &[2, 1, 2, 0]) == 2);
}

#[test]
fn shares_are_counted_by_word(rt: HostRuntime) {
    let shares = shares_of(rt.alloc(), &[2, 1, 2, 0, 9, 2], 4).expect(&rt, "shares");
    let found = shares.as_slice();
    holds_of(&rt, "shares", "of 0 to 3", found == [1, 1, 3, 0].as_slice());
}

/// Two services; a frame is for the first one.
const SERVICES: &str = "0 vip 203.0.113.1 80 udp\n0 vip 203.0.113.1 80 tcp notrack\n";

/// What is printed of a frame that is sent, one that is too large, one without a backend, and one that is passed.
const REASONS: &str = "4 frames for 203.0.113.1 port 80 udp
1 frame passed, for no service
1 frame dropped, in packets of more than 1480 bytes
1 frame dropped, without a tunnel or a backend that is up
";

/// The totals of these frames.
const JUDGED: [u16; 4] = [28, 1481, 1480, 30];

/// Their verdicts.
const VERDICTS: [LineVerdict; 4] = [
    LineVerdict::Tx,
    LineVerdict::Drop,
    LineVerdict::Drop,
    LineVerdict::Pass,
];

#[test]
fn frames_of_services_and_why_they_were_not_sent(rt: HostRuntime) {
    let alloc = rt.alloc();
    let script = parse_script(alloc, SERVICES.as_bytes()).expect(&rt, "a script");
    let frames = datagrams(&rt, alloc, &JUDGED);
    let text = services(alloc, &frames, &script, &VERDICTS).expect(&rt, "text");
    same_text(&rt, "the reasons", text.as_str(), REASONS);
}

/// What is printed of these frames by another program, whose reasons nobody knows.
const BY_PROGRAM: &str = "4 frames for 203.0.113.1 port 80 udp
1 frame passed, by the program
2 frames dropped, by the program
1 frame sent, by the program
";

/// What is printed of five frames that another program aborted, one that a full journal stopped and one of 13 bytes.
const ABORTED: &str = "5 frames aborted, by the program
";

/// The verdicts of these.
const FIVE_ABORTED: [LineVerdict; 7] = [
    LineVerdict::Aborted,
    LineVerdict::Short,
    LineVerdict::Aborted,
    LineVerdict::Aborted,
    LineVerdict::Stopped,
    LineVerdict::Aborted,
    LineVerdict::Aborted,
];

#[test]
fn frames_of_services_and_what_a_program_did(rt: HostRuntime) {
    let alloc = rt.alloc();
    let script = parse_script(alloc, SERVICES.as_bytes()).expect(&rt, "a script");
    let frames = datagrams(&rt, alloc, &JUDGED);
    let text = by_program(alloc, &frames, &script, &VERDICTS).expect(&rt, "text");
    same_text(&rt, "by the program", text.as_str(), BY_PROGRAM);
    let none = parse_script(alloc, b"").expect(&rt, "a script");
    let aborted = by_program(alloc, &frames, &none, &FIVE_ABORTED).expect(&rt, "text");
    same_text(&rt, "aborted", aborted.as_str(), ABORTED);
}

#[test]
fn frames_that_moved_have_their_places(rt: HostRuntime) {
    let alloc = rt.alloc();
    let sent = all_tunnelled(&rt, alloc, &FLOWS);
    let places = moved_places(alloc, &sent).expect(&rt, "places");
    holds_of(&rt, "moved", "how many", places.len() == 2);
    holds_of(&rt, "moved", "the first one", places[0] == 2);
    holds_of(&rt, "moved", "the second one", places[1] == 3);
}
