//! When a command is handed over without exact moments: not before as many records as its number were handed out, and no later than needed.

use super::gated;
use super::shipped_program::{AT_FIRST, segments, shipped_for_7};
use crate::asserting::same_fact;
use replay::Gate;
use semantics::Caller;
use std::alloc::Global;
use std::hint::spin_loop;
use std::process::Abort;
use std::sync::Wait;
use std::sync::atomic::{AtomicU64, Ordering};
use std::thread::Threads;

/// How many replies the controller has had with the command of frame 65, and with that of frame 66.
const WITH_65: u64 = 11;

const WITH_66: u64 = 12;

/// How many replies the run of a new flow's first frame has.
const FIRST_RUN: u64 = 14;

const LIMIT: u32 = 400_000_000;

/// A gate that holds the worker at its first reply until the command of frame 65 came, but no longer than its limit of turns, and looks
/// after a while whether a later one came.
#[derive(Drop)]
struct Held {
    worker: AtomicU64,
    controller: AtomicU64,
    /// How many replies the controller had when the worker was let go.
    found: AtomicU64,
    /// How many replies the worker had at the command of frame 66.
    done: AtomicU64,
}

impl Held {
    fn new() -> Held {
        Held {
            worker: AtomicU64::new(0),
            controller: AtomicU64::new(0),
            found: AtomicU64::new(0),
            done: AtomicU64::new(0),
        }
    }

    fn wait_for_65(&self) {
        for _ in 0..LIMIT {
            if self.controller.load(Ordering::SeqCst) >= WITH_65 {
                return;
            }
            spin_loop();
        }
    }

    fn wait_a_while(&self) {
        for _ in 0..2_000_000u32 {
            spin_loop();
        }
    }
}

impl Gate for Held {
    fn replied(&self, who: Caller, nth: u64) {
        match who {
            Caller::Worker { .. } => {
                self.worker.store(nth, Ordering::SeqCst);
                if nth == 1 {
                    self.wait_for_65();
                    self.wait_a_while();
                    let found = self.controller.load(Ordering::SeqCst);
                    self.found.store(found, Ordering::SeqCst);
                }
            }
            Caller::Controller => {
                self.controller.store(nth, Ordering::SeqCst);
                if nth == WITH_66 {
                    let done = self.worker.load(Ordering::SeqCst);
                    self.done.store(done, Ordering::SeqCst);
                }
            }
            Caller::Reclaimer => {}
        }
    }
}

/// A hundred frames of one flow by one worker, which is held at its first frame. Then the queue takes 64 frames more: so 65 were handed
/// out, and no more. The command of frame 65 comes then, that of frame 66 only when the first frame is done.
fn compare_held<R: Threads + Abort + Wait + Sync>(rt: &R, alloc: Global) {
    let name = "a worker that is held at the first frame";
    let verified = shipped_for_7(rt, alloc);
    let script = format!(in alloc;
        "0 vip 203.0.113.1 80 tcp\n{AT_FIRST}65 vip 203.0.113.1 81 tcp\n66 vip 203.0.113.1 82 tcp\n"
    ).expect(rt, "a script");
    let capture = segments(rt, alloc, &[40001; 100]);
    let gate = Held::new();
    let outcome = gated(rt, alloc, &verified, &capture, &script, 1, 65536, &gate);
    same_fact(
        rt,
        name,
        "the frames that are sent",
        &outcome.counts.tx,
        &100,
    );
    let found = gate.found.load(Ordering::SeqCst);
    same_fact(
        rt,
        name,
        "the controller's replies while it is held",
        &found,
        &WITH_65,
    );
    let all = gate.controller.load(Ordering::SeqCst);
    same_fact(
        rt,
        name,
        "the controller's replies at the end",
        &all,
        &WITH_66,
    );
    let is_done = gate.done.load(Ordering::SeqCst) >= FIRST_RUN;
    same_fact(
        rt,
        name,
        "that the first frame is done at frame 66",
        &is_done,
        &true,
    );
}

#[test]
fn no_command_comes_before_its_number_of_records(rt: HostRuntime) {
    compare_held(&rt, rt.alloc());
}
