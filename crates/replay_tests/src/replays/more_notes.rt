//! The shipped program over flow tables of two sizes: how many flows it forgets, and where their frames go then.

use super::exact::exactly;
use super::journals_file;
use super::shipped_program::{AT_FIRST, TRACKED, notes_of, segments};
use crate::asserting::same_at;
use replay::NoGate;
use std::alloc::Global;
use std::process::Abort;
use steer::shipped_with;
use verifier::{Verified, verify};
use wire::Sent;

/// The notes of the flow table; how often a backend is noted, and how many frames go to backend 1, in a replay for a lookup table of seven
/// slots. 5,000 flows have a frame each, all to backend 0; then backend 1 comes up and takes slots 0, 3 and 6; and each flow has another
/// frame, the last flow first. Of 4,096 notes 904 are forgotten in the first round, those of the first 904 flows. In the second round 4,096
/// flows find their note, and then these 904 find none: each is noted again, for which one more is forgotten. 376 of them have one of
/// the three slots. Of 8,192 notes none is forgotten.
const ROWS: [(u32, usize, usize); 2] = [(4096, 5904, 376), (8192, 5000, 0)];

/// The port of each frame.
fn ports<R: Abort>(rt: &R, alloc: Global) -> Vec<u16> {
    let mut ports = Vec::new(alloc);
    for port in 10000..15000u16 {
        ports.push(port).expect(rt, "room");
    }
    for place in 0..5000u16 {
        ports.push(14999 - place).expect(rt, "room");
    }
    ports
}

/// The shipped program for seven slots over a flow table of so many notes, accepted.
fn shipped_over<R: Abort>(rt: &R, alloc: Global, notes: u32) -> Verified {
    let image = shipped_with(alloc, notes, 7).expect(rt, "an image");
    verify(alloc, image).expect(rt, "an accepted program")
}

/// How many of these frames go through the tunnel to backend 1.
fn to_the_second(sent: &[Sent]) -> usize {
    sent.iter()
        .filter(|one| one.bytes.get(33) == Some(&2))
        .count()
}

/// Holds a replay of a flow table of so many notes against its row.
fn keeps<R: Abort>(rt: &R, alloc: Global, notes: u32, noted: usize, moved: usize) {
    let row = u64::from(notes);
    let verified = shipped_over(rt, alloc, notes);
    let capture = segments(rt, alloc, &ports(rt, alloc));
    let script = format!(in alloc; "{TRACKED}{AT_FIRST}5000 up 1 192.0.2.2\n").expect(
        rt, "a script",
    );
    let outcome = exactly(rt, alloc, &verified, &capture, &script, 1, 65536, &NoGate);
    same_at(rt, "frames sent", row, &outcome.sent.len(), &10000);
    same_at(
        rt,
        "to the second",
        row,
        &to_the_second(&outcome.sent),
        &moved,
    );
    let journals = journals_file(rt, alloc, &outcome);
    same_at(rt, "notes", row, &notes_of(journals.bytes()), &noted);
}

#[test]
fn more_notes_keep_more_flows(rt: HostRuntime) {
    for (notes, noted, moved) in ROWS {
        keeps(&rt, rt.alloc(), notes, noted, moved);
    }
}
