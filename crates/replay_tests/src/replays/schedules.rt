//! Replays whose schedule a gate fixes, or whose replies it counts.

use super::{Frames, NONE, Row, SENDS_ALL, has_part, journals_file, replayed};
use crate::asserting::{holds_of, same_fact};
use replay::{Applied, Counts, Gate, NoGate, Outcome};
use semantics::Caller;
use std::alloc::Global;
use std::process::Abort;
use std::sync::Wait;
use std::sync::atomic::{AtomicU64, Ordering};
use std::thread::Threads;
use test_support::programs::{COUNTS_TO_THREE, READS_ONE};

/// A gate that counts the replies of worker 0, the controller and the reclaimer, and those that came with another number than the next.
#[derive(Drop)]
struct CountingGate {
    worker: AtomicU64,
    controller: AtomicU64,
    reclaimer: AtomicU64,
    out_of_order: AtomicU64,
}

impl CountingGate {
    fn new() -> CountingGate {
        CountingGate {
            worker: AtomicU64::new(0),
            controller: AtomicU64::new(0),
            reclaimer: AtomicU64::new(0),
            out_of_order: AtomicU64::new(0),
        }
    }

    fn count(&self, of: &AtomicU64, nth: u64) {
        let before = of.fetch_add(1, Ordering::SeqCst);
        if before.wrapping_add(1) != nth {
            self.out_of_order.fetch_add(1, Ordering::SeqCst);
        }
    }

    /// Worker, controller, reclaimer, and how many were out of order.
    fn counts(&self) -> [u64; 4] {
        [
            self.worker.load(Ordering::SeqCst),
            self.controller.load(Ordering::SeqCst),
            self.reclaimer.load(Ordering::SeqCst),
            self.out_of_order.load(Ordering::SeqCst),
        ]
    }
}

impl Gate for CountingGate {
    fn replied(&self, who: Caller, nth: u64) {
        match who {
            Caller::Worker { number: 0 } => self.count(&self.worker, nth),
            Caller::Worker { .. } => {
                self.out_of_order.fetch_add(1, Ordering::SeqCst);
            }
            Caller::Controller => self.count(&self.controller, nth),
            Caller::Reclaimer => self.count(&self.reclaimer, nth),
        }
    }
}

/// A replay of READS_ONE by one worker.
const READS: Row<'static> = Row {
    name: "",
    program: READS_ONE,
    script: "",
    frames: Frames::Rounds {
        first: 40000,
        flows: 1,
        rounds: 1,
    },
    workers: 1,
    journal: 65536,
    counts: NONE,
};

/// For which replies of worker 0, the controller and the reclaimer the gate is called, and how many replies come out of order.
fn replayed_counting<R: Threads + Abort + Wait + Sync>(
    rt: &R,
    alloc: Global,
    row: &Row<'_>,
    gate_calls: [u64; 4],
) -> Outcome {
    let gate = CountingGate::new();
    let outcome = replayed(rt, alloc, row, &gate);
    same_fact(rt, row.name, "the replies", &gate.counts(), &gate_calls);
    outcome
}

const ONE_PASSES: Row<'static> = Row {
    workers: 2,
    journal: 16,
    counts: Counts { pass: 1, ..NONE },
    ..READS
};

/// Of two workers, which one runs a flow by its port.
#[rattlefmt::skip]
const SPREAD: [(Row<'static>, &str, &str); 2] = [
    (Row { name: "port 40000", ..ONE_PASSES }, "0 w0 enter ok\n", "0 w1 enter ok\n"),
    (
        Row { name: "port 40001", frames: Frames::Rounds { first: 40001, flows: 1, rounds: 1 }, ..ONE_PASSES },
        "0 w1 enter ok\n", "0 w0 enter ok\n",
    ),
];

/// Makes the replay, and compares which worker entered.
fn enters<R: Threads + Abort + Wait + Sync>(
    rt: &R,
    alloc: Global,
    row: &Row<'_>,
    runs: &str,
    rests: &str,
) {
    let outcome = replayed(rt, alloc, row, &NoGate);
    let journals = journals_file(rt, alloc, &outcome);
    holds_of(
        rt,
        row.name,
        "the worker that runs",
        has_part(journals.bytes(), runs),
    );
    holds_of(
        rt,
        row.name,
        "the worker that rests",
        !has_part(journals.bytes(), rests),
    );
}

#[test]
fn flows_have_their_worker(rt: HostRuntime) {
    for (row, runs, rests) in &SPREAD {
        enters(&rt, rt.alloc(), row, runs, rests);
    }
}

/// A worker's replies are counted on from run to run, each of an update, a lookup, an atomic operation and a load; and the reclaimer's.
const COUNTED: Row<'static> = Row {
    name: "a hundred counts",
    program: COUNTS_TO_THREE,
    frames: Frames::Rounds {
        first: 40000,
        flows: 1,
        rounds: 100,
    },
    counts: Counts { tx: 100, ..NONE },
    ..READS
};

#[test]
fn replies_are_counted_over_all_runs(rt: HostRuntime) {
    let _ = replayed_counting(&rt, rt.alloc(), &COUNTED, [400, 0, 2, 0]);
}

/// The fourth table meets a full journal after three of its slots. The updates made remain, and each later command is refused.
pub(super) const A_FULL_JOURNAL: Row<'static> = Row {
    name: "a down that meets a full journal",
    program: SENDS_ALL,
    script: "0 up 0 192.0.2.1
1 down 0
1 up 0 192.0.2.1
2 down 0
3 vip 203.0.113.1 80 udp
",
    frames: Frames::Rounds {
        first: 40000,
        flows: 1,
        rounds: 3,
    },
    journal: 24,
    counts: Counts { tx: 3, ..NONE },
    ..READS
};

/// Whether these are commands 3 and 4, each for a full journal.
pub(super) fn are_the_last_two(refused: &[Applied]) -> bool {
    refused
        .iter()
        .map(|one| (one.command, one.fault.map(|fault| fault.number())))
        .eq([(3, Some(94)), (4, Some(94))])
}

/// Each of its answers is a reply, and none of those that are refused.
#[test]
fn the_controllers_replies_are_counted(rt: HostRuntime) {
    let _ = replayed_counting(&rt, rt.alloc(), &A_FULL_JOURNAL, [0, 28, 2, 0]);
}
