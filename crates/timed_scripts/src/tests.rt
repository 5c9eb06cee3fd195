//! What timed scripts mean for five records, the fourth of which is earlier than the third.

use crate::timed_script;
use control::{ControlFault, parse_script};
use std::alloc::Global;
use std::process::Abort;
use wire::Sent;

/// The moments of the records, from 2025-11-28T10:03:00Z on: seconds and microseconds.
const MOMENTS: [(u32, u32); 5] = [
    (1764324180, 0),
    (1764324180, 250000),
    (1764324181, 0),
    (1764324180, 900000),
    (1764324190, 0),
];

/// What a row shows, a timed script, and the script that it means.
type Row = (&'static str, &'static str, &'static str);

#[rattlefmt::skip]
static ROWS: [Row; 17] = [
    ("no line",                          "",                                         ""),
    ("blank lines and comments",         "# a\n\n   # b\n  \n",                      ""),
    ("the first moment",                 "+0s down 1\n",                             "0 down 1\n"),
    ("at a record",                      "+0.25s down 1\n",                          "1 down 1\n"),
    ("a microsecond later",              "+0.250001s down 1\n",                      "2 down 1\n"),
    ("the first that is not earlier",    "+0.95s down 1\n",                          "2 down 1\n"),
    ("later than those between",         "+1.5s down 1\n",                           "4 down 1\n"),
    ("seconds since 1970",               "1764324180.25 down 1\n",                   "1 down 1\n"),
    ("before all records",               "0 down 1\n",                               "0 down 1\n"),
    ("behind all records",               "1764324190.000001 down 1\n",               "5 down 1\n"),
    ("a date and a time",                "2025-11-28T10:03:00.5Z down 1\n",          "2 down 1\n"),
    ("an offset",                        "2025-11-28T11:03:10+01:00 down 1\n",       "4 down 1\n"),
    ("an offset behind UTC",             "2025-11-28T05:03:00.000000001-05:00 down 1\n", "1 down 1\n"),
    ("before 1970",                      "1937-01-01T12:00:27.87+00:20 down 1\n",    "0 down 1\n"),
    ("a comment behind a command",       "+0s up 1 192.0.2.2  # comes\n",            "0 up 1 192.0.2.2\n"),
    ("one moment twice",                 "+1s down 1\n\n1764324181 down 2\n",        "2 down 1\n2 down 2\n"),
    ("other words",                      "+9s vip 203.0.113.1 80 udp notrack\n",     "4 vip 203.0.113.1 80 udp notrack\n"),
];

/// What a row shows, bytes that are no timed script, and the line that is refused.
type Refusal = (&'static str, &'static [u8], usize);

#[rattlefmt::skip]
static REFUSED: [Refusal; 18] = [
    ("a moment that falls",              b"+1s down 1\n+0.999999s down 2\n",         2),
    ("no line feed at the end",          b"+0s down 1\n+1s down 1",                  2),
    ("a comment without a line feed",    b"# a",                                     1),
    ("seven digits behind the point",    b"+0.1234567s down 1\n",                    1),
    ("no digit behind the point",        b"+0.s down 1\n",                           1),
    ("no digit before the point",        b"+.5s down 1\n",                           1),
    ("no s",                             b"+1 down 1\n",                             1),
    ("more behind the s",                b"+1s2 down 1\n",                           1),
    ("13 digits",                        b"1000000000000 down 1\n",                  1),
    ("two signs",                        b"++1s down 1\n",                           1),
    ("two spaces",                       b"\n+0s  down 1\n",                         2),
    ("a space before the moment",        b" +0s down 1\n",                           1),
    ("no offset",                        b"2025-11-28T10:03:00 down 1\n",            1),
    ("a day that is none",               b"2025-02-29T10:03:00Z down 1\n",           1),
    ("words of no command",              b"# a\n\n+0s dwn 1\n",                      3),
    ("a moment alone",                   b"+0s\n",                                   1),
    ("a carriage return",                b"+0s down 1\r\n",                          1),
    ("bytes that are no text",           b"+0s down 1\n\xff\n",                      2),
];

/// A record for each moment.
fn records_at(rt: &impl Abort, alloc: Global, moments: &[(u32, u32)]) -> Vec<Sent> {
    let mut records = Vec::new(alloc);
    for (seconds, micros) in moments {
        let sent = Sent {
            seconds: *seconds,
            micros: *micros,
            bytes: Vec::new(alloc),
        };
        records.push(sent).expect(rt, "room");
    }
    records
}

/// Holds the script of a row against what is wanted; the controller reads it.
fn compare_row(rt: &impl Abort, alloc: Global, row: &Row) {
    let (name, text, wanted) = *row;
    let records = records_at(rt, alloc, &MOMENTS);
    let made = timed_script(alloc, text.as_bytes(), &records).expect(rt, name);
    assert_eq!(rt; made.text.as_str(), wanted, "{name}");
    let script = parse_script(alloc, made.text.as_bytes()).expect(rt, name);
    let again = script.text(alloc).expect(rt, name);
    assert_eq!(rt;
        again.as_str(),
        wanted,
        "{name}: as the controller reads it"
    );
}

/// Holds the line that is refused against what is wanted.
fn compare_refusal(rt: &impl Abort, alloc: Global, row: &Refusal) {
    let (name, bytes, line) = *row;
    let records = records_at(rt, alloc, &MOMENTS);
    let fault = timed_script(alloc, bytes, &records).err();
    assert_eq!(rt; fault, Some(ControlFault::BadLine { line }), "{name}");
}

#[test]
fn moments_become_numbers(rt: HostRuntime) {
    for row in &ROWS {
        compare_row(&rt, rt.alloc(), row);
    }
}

#[test]
fn wrong_lines_are_named(rt: HostRuntime) {
    for row in &REFUSED {
        compare_refusal(&rt, rt.alloc(), row);
    }
}

/// The lines that are late for the five records.
fn compare_late(rt: &impl Abort, alloc: Global, text: &str, wanted: &[usize]) {
    let records = records_at(rt, alloc, &MOMENTS);
    let made = timed_script(alloc, text.as_bytes(), &records).expect(rt, text);
    assert_eq!(rt; made.late.as_slice(), wanted, "{text}");
}

#[test]
fn late_lines_are_named(rt: HostRuntime) {
    compare_late(&rt, rt.alloc(), "+10s down 1\n", &[]);
    compare_late(
        &rt,
        rt.alloc(),
        "+0s down 1\n# a\n+11s down 1\n+11s down 2\n",
        &[3, 4],
    );
}

/// What a capture without records makes of a line.
fn compare_without_records(rt: &impl Abort, alloc: Global) {
    let none = records_at(rt, alloc, &[]);
    let since = timed_script(alloc, b"+0s down 1\n", &none).err();
    assert_eq!(rt;
        since,
        Some(ControlFault::BadLine { line: 1 }),
        "from a record that is not there"
    );
    let made = timed_script(alloc, b"1764324180 down 1\n", &none).expect(rt, "a moment");
    assert_eq!(rt; made.text.as_str(), "0 down 1\n", "no record");
    assert_eq!(rt; made.late.len(), 1, "no record");
}

#[test]
fn without_records_nothing_is_counted_from_the_first(rt: HostRuntime) {
    compare_without_records(&rt, rt.alloc());
}
