//! Replays with exact moments: which backend each frame goes to, by any number of workers.

use super::schedules::{A_FULL_JOURNAL, are_the_last_two};
use super::shipped_program::{
    AT_FIRST, FEW_FRAMES, FEW_KEPT, FRAMES, KEPT, LATER, OWNED, TRACKED, UNTRACKED, first_wrong,
    segments, shipped_for_7,
};
use super::{NONE, captured, journals_file, program};
use crate::asserting::{holds_of, same_bytes_of, same_fact};
use control::parse_script;
use replay::{Applied, Counts, Gate, NoGate, Outcome, replay_in_turn};
use semantics::{Caller, Options, Recording};
use std::alloc::Global;
use std::process::Abort;
use std::sync::atomic::{AtomicU64, Ordering};
use verifier::Verified;
use wire::Capture;

/// An exact replay over shards of one part.
pub(super) fn exactly<R: Abort, G: Gate>(
    rt: &R,
    alloc: Global,
    verified: &Verified,
    capture: &Capture,
    script: &str,
    workers: u32,
    journal: u32,
    gate: &G,
) -> Outcome {
    let script = parse_script(alloc, script.as_bytes()).expect(rt, "a script");
    let options = Options {
        workers,
        shards: 1,
        journal,
    };
    let outcome = replay_in_turn(
        alloc,
        verified,
        capture,
        &[],
        &script,
        options,
        Recording::Rows,
        gate,
    );
    outcome.expect(rt, "an outcome")
}

/// A script over a service and backend 0, and where each frame goes.
#[derive(Clone, Copy)]
struct Row {
    name: &'static str,
    service: &'static str,
    later: &'static str,
    /// The source port of each frame.
    frames: &'static [u16],
    /// Of each frame that is sent the port, and the last byte of the backend's address. They are the first frames.
    sent: &'static [(u16, u8)],
    /// Each refused command and its fault.
    refused: &'static [(usize, u8)],
}

/// The first three are the schedules that gates fix in `shipped_program`, without a gate.
#[rattlefmt::skip]
const EXACT: [Row; 8] = [
    Row {
        name: "a flow keeps its backend while that is up", service: TRACKED, later: LATER, frames: FRAMES, sent: KEPT,
        refused: &[],
    },
    Row {
        name: "without tracking it has the owner of its slot", service: UNTRACKED, later: LATER, frames: FRAMES, sent: OWNED,
        refused: &[],
    },
    Row {
        name: "flows of two workers", service: TRACKED, later: LATER, frames: FEW_FRAMES, sent: FEW_KEPT,
        refused: &[],
    },
    Row {
        name: "before the first frame", service: TRACKED, later: "0 down 0\n", frames: &[40001, 40001], sent: &[], refused: &[],
    },
    Row {
        name: "before the last frame", service: TRACKED, later: "3 down 0\n", frames: &[40001, 40001, 40001, 40001],
        sent: &[(40001, 1), (40001, 1), (40001, 1)], refused: &[],
    },
    Row {
        name: "behind the last frame", service: TRACKED, later: "4 down 0\n9 up 1 192.0.2.2\n", frames: &[40001, 40001, 40001, 40001],
        sent: &[(40001, 1), (40001, 1), (40001, 1), (40001, 1)], refused: &[],
    },
    Row {
        name: "down and up before one frame", service: TRACKED, later: "1 down 0\n1 up 1 192.0.2.2\n", frames: &[40001, 40001, 40001],
        sent: &[(40001, 1), (40001, 2), (40001, 2)], refused: &[],
    },
    Row {
        name: "a refused command", service: TRACKED, later: "1 down 7\n2 down 0\n", frames: &[40001, 40001, 40001],
        sent: &[(40001, 1), (40001, 1)], refused: &[(3, 91)],
    },
];

/// Whether these are the refused commands.
pub(super) fn are_refused(refused: &[Applied], want: &[(usize, u8)]) -> bool {
    let want = want.iter().map(|(command, fault)| (*command, Some(*fault)));
    refused
        .iter()
        .map(|one| (one.command, one.fault.map(|fault| fault.number())))
        .eq(want)
}

/// Compares what was sent, counted and refused.
fn compare<R: Abort>(rt: &R, row: &Row, outcome: &Outcome) {
    let wrong = first_wrong(&outcome.sent, row.sent);
    same_fact(rt, row.name, "the first wrong frame", &wrong, &None);
    let counts = Counts {
        tx: row.sent.len() as u64,
        drop: row.frames.len().saturating_sub(row.sent.len()) as u64,
        ..NONE
    };
    same_fact(rt, row.name, "the counts", &outcome.counts, &counts);
    let refused = are_refused(&outcome.refused, row.refused);
    holds_of(rt, row.name, "the refused commands", refused);
}

/// Replays a row by `workers` workers, and compares.
fn is_exact<R: Abort>(rt: &R, alloc: Global, verified: &Verified, row: &Row, workers: u32) {
    let script = format!(in alloc; "{}{AT_FIRST}{}", row.service, row.later);
    let script = script.expect(rt, "a script");
    let capture = segments(rt, alloc, row.frames);
    let outcome = exactly(
        rt, alloc, verified, &capture, &script, workers, 1024, &NoGate,
    );
    compare(rt, row, &outcome);
}

#[test]
fn commands_act_between_two_frames(rt: HostRuntime) {
    let verified = shipped_for_7(&rt, rt.alloc());
    for row in &EXACT {
        for workers in [1, 2, 4, 8] {
            is_exact(&rt, rt.alloc(), &verified, row, workers);
        }
    }
}

/// The ports of 300 frames, in turn, and the slots of a table of seven that they have.
const TURN: [(u16, u8); 5] = [(40001, 1), (40002, 3), (40004, 0), (40005, 1), (40008, 4)];

/// Before which frame backend 1 comes up, and before which backend 0 goes down.
#[derive(Clone, Copy)]
pub(super) struct ChangeFrames {
    pub up: usize,
    pub down: usize,
}

const LONG: ChangeFrames = ChangeFrames { up: 137, down: 200 };

/// Without tracking a frame goes to the owner of its slot: to backend 0 alone, then to backend 1 at slots 0, 3 and 6, and at last to
/// backend 1 alone. The last byte of its address is one more.
fn backend_of(number: usize, slot: u8, changes: ChangeFrames) -> u8 {
    let is_of_1 = slot % 3 == 0;
    if number < changes.up || (number < changes.down && !is_of_1) {
        1
    } else {
        2
    }
}

/// The port of each frame, and the last byte of its backend's address.
pub(super) fn long_frames<R: Abort>(
    rt: &R,
    alloc: Global,
    changes: ChangeFrames,
) -> (Vec<u16>, Vec<(u16, u8)>) {
    let mut ports = Vec::new(alloc);
    let mut sent = Vec::new(alloc);
    for (number, (port, slot)) in (0..300usize).zip(TURN.iter().cycle()) {
        ports.push(*port).expect(rt, "room");
        sent.push((*port, backend_of(number, *slot, changes)))
            .expect(rt, "room");
    }
    (ports, sent)
}

/// The script of these changes. Its fourth command, of a backend that is not up, is refused.
pub(super) fn long_script<R: Abort>(rt: &R, alloc: Global, changes: ChangeFrames) -> String {
    let ChangeFrames { up, down } = changes;
    let script = format!(in alloc;
        "{UNTRACKED}{AT_FIRST}{up} down 6\n{up} up 1 192.0.2.2\n{down} down 0\n"
    );
    script.expect(rt, "a script")
}

/// What is refused of it.
pub(super) const LONG_REFUSED: &[(usize, u8)] = &[(3, 91)];

/// A long replay by `workers` workers: where each frame goes, and the journals.
fn long_replay<R: Abort, G: Gate>(
    rt: &R,
    alloc: Global,
    verified: &Verified,
    workers: u32,
    gate: &G,
) -> Outcome {
    let (ports, want) = long_frames(rt, alloc, LONG);
    let script = long_script(rt, alloc, LONG);
    let capture = segments(rt, alloc, &ports);
    let outcome = exactly(rt, alloc, verified, &capture, &script, workers, 65536, gate);
    let wrong = first_wrong(&outcome.sent, &want);
    same_fact(rt, "a long replay", "the first wrong frame", &wrong, &None);
    same_fact(
        rt,
        "a long replay",
        "the frames that are sent",
        &outcome.sent.len(),
        &300,
    );
    outcome
}

#[test]
fn a_long_replay_is_exact(rt: HostRuntime) {
    let verified = shipped_for_7(&rt, rt.alloc());
    for workers in [1, 2, 4, 8] {
        let _ = long_replay(&rt, rt.alloc(), &verified, workers, &NoGate);
    }
}

/// Keeps the numbers that the reclaimer is called with, as decimal digits.
#[derive(Drop)]
pub(super) struct Rounds {
    digits: AtomicU64,
}

impl Rounds {
    /// Called with none.
    pub(super) fn new() -> Rounds {
        Rounds {
            digits: AtomicU64::new(0),
        }
    }

    /// The numbers, as decimal digits.
    pub(super) fn digits(&self) -> u64 {
        self.digits.load(Ordering::SeqCst)
    }
}

impl Gate for Rounds {
    fn replied(&self, who: Caller, nth: u64) {
        let before = self.digits.load(Ordering::SeqCst);
        let digit = if who == Caller::Reclaimer { nth } else { 9 };
        self.digits.store(
            before.wrapping_mul(10).wrapping_add(digit),
            Ordering::SeqCst,
        );
    }
}

/// The gate is called after each 64 records, and for nobody but the reclaimer.
#[test]
fn the_gate_counts_the_rounds(rt: HostRuntime) {
    let verified = shipped_for_7(&rt, rt.alloc());
    let rounds = Rounds::new();
    let _ = long_replay(&rt, rt.alloc(), &verified, 2, &rounds);
    same_fact(&rt, "300 records", "the rounds", &rounds.digits(), &1234);
}

/// A command that meets a full journal leaves the later ones to be refused, and nobody waits for them.
#[test]
fn an_exact_down_meets_a_full_journal(rt: HostRuntime) {
    let row = &A_FULL_JOURNAL;
    let verified = program(&rt, rt.alloc(), row.program);
    let capture = captured(&rt, rt.alloc(), row.frames);
    let outcome = exactly(
        &rt,
        rt.alloc(),
        &verified,
        &capture,
        row.script,
        2,
        row.journal,
        &NoGate,
    );
    let refused = are_the_last_two(&outcome.refused);
    holds_of(&rt, row.name, "the refused commands", refused);
    same_fact(&rt, row.name, "the counts", &outcome.counts, &row.counts);
}

/// In how many places of the journals one has an entry of the controller, and the other none.
fn controllers_apart(one: &Outcome, other: &Outcome) -> usize {
    let mut apart: usize = 0;
    if !one.journals.keeps_rows() {
        return usize::MAX;
    }
    for number in 0..one.journals.count() {
        let journal = one.journals.journal(number);
        for place in 0..journal.len() {
            let first = journal.entry(place).who == Caller::Controller;
            let second = controls(other, number, place);
            if first != second {
                apart = apart.saturating_add(1);
            }
        }
    }
    apart
}

/// Whether the entry at a place is one of the controller.
fn controls(outcome: &Outcome, number: usize, place: usize) -> bool {
    if number >= outcome.journals.count() || !outcome.journals.keeps_rows() {
        return false;
    }
    let journal = outcome.journals.journal(number);
    place < journal.len() && journal.entry(place).who == Caller::Controller
}

/// The same journals again: by four workers each update is at the place that it has by one.
#[test]
fn updates_stand_at_the_same_places(rt: HostRuntime) {
    let verified = shipped_for_7(&rt, rt.alloc());
    let once = long_replay(&rt, rt.alloc(), &verified, 1, &NoGate);
    let again = long_replay(&rt, rt.alloc(), &verified, 1, &NoGate);
    let first = journals_file(&rt, rt.alloc(), &once);
    let second = journals_file(&rt, rt.alloc(), &again);
    same_bytes_of(
        &rt,
        "a long replay",
        "the journals",
        second.bytes(),
        first.bytes(),
    );
    let four = long_replay(&rt, rt.alloc(), &verified, 4, &NoGate);
    let apart = controllers_apart(&once, &four);
    same_fact(&rt, "four workers", "updates at other places", &apart, &0);
}
