//! Printed paragraphs, and numbers that no fault has.

use crate::asserting::{same, same_bytes, same_text};
use faults::{Explanation, refusal_text};
use std::alloc::Global;
use std::process::Abort;

#[test]
fn printed_paragraph(rt: HostRuntime) {
    let row = Explanation::of(33).expect(&rt, "a row");
    let text = row.text(rt.alloc()).expect(&rt, "memory");
    let want = "fault 33 FallsOff
The last instruction goes on past the end.
Usual causes: The program does not end with `exit`.
For example: `mov r0, 2` as the whole program.
";
    same_text(&rt, "fault 33", &text, want);
}

const NO_FAULTS: [u32; 8] = [0, 24, 57, 61, 96, 255, 256, 4294967295];

/// No row explains these numbers.
fn are_none(rt: &impl Abort, numbers: &[u32]) {
    for number in numbers {
        let explained = Explanation::of(*number).map(|row| row.number);
        same(rt, "no row", &explained, &None);
    }
}

#[test]
fn numbers_that_are_none(rt: HostRuntime) {
    are_none(&rt, &NO_FAULTS);
}

/// A fault, notes, and the text.
const REFUSALS: [(&str, &str, &str); 7] = [
    ("fault 7 Device", "", "fault 7 Device\n"),
    (
        "fault 7 Device",
        "cannot open a: no",
        "fault 7 Device\n  cannot open a: no\n",
    ),
    (
        "fault 7 Device",
        "one\ntwo\n",
        "fault 7 Device\n  one\n  two\n",
    ),
    (
        "fault 7 Device",
        "one\n\ntwo",
        "fault 7 Device\n  one\n  \n  two\n",
    ),
    ("fault 37", "  one\n    two\n", "fault 37\n  one\n    two\n"),
    ("fault 37", "  one\ntwo\n", "fault 37\n    one\n  two\n"),
    ("two\nlines\n", "\n", "twolines\n  \n"),
];

/// Compares the text of a refusal.
fn is_printed(rt: &impl Abort, alloc: Global, fault: &str, notes: &str, want: &str) {
    let text = refusal_text(alloc, fault, notes).expect(rt, "memory");
    same_bytes(rt, want, &text, want.as_bytes());
}

/// The same of each row.
fn are_printed(rt: &impl Abort, alloc: Global, rows: &[(&str, &str, &str)]) {
    for (fault, notes, want) in rows {
        is_printed(rt, alloc, fault, notes, want);
    }
}

#[test]
fn printed_refusals(rt: HostRuntime) {
    are_printed(&rt, rt.alloc(), &REFUSALS);
}

/// This many lines of two letters.
fn long_notes(rt: &impl Abort, alloc: Global, count: u32) -> String {
    let mut notes = String::new(alloc);
    for _ in 0..count {
        notes.push_str("ab\n").expect(rt, "memory");
    }
    notes
}

#[test]
fn printed_long_refusal(rt: HostRuntime) {
    let notes = long_notes(&rt, rt.alloc(), 30_000);
    let text = refusal_text(rt.alloc(), "fault", &notes).expect(&rt, "memory");
    same(&rt, "length", &text.len(), &(6 + 30_000 * 5));
}
