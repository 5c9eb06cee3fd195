//! Calls of one shard by a worker, the controller and the reclaimer, each on a thread of its own, in an order that is fixed by turns.

ghost use Rattle.shards.specs.NewShards.{IsNamed};

use super::in_turn::{C, R as RECLAIMER, Step, W0, entries_of, makes, opened, served};
use crate::asserting::{holds, same};
use crate::turns::{Signal, waits};
use ebpf_decode::MapKind;
use semantics::Caller;
use shards::{Naming, Opened, Pass, Shards};
use std::alloc::Global;
use std::marker::Brand;
use std::process::Abort;
use std::sync::Wait;
use std::thread::{Threads, join};

/// How long a caller waits for its turn.
const LIMIT: u32 = 1_000_000;

/// Makes a caller's calls of the steps, each when those of the steps before it were made. Gives the pass back.
fn in_turn<B: Naming, R: Abort + Wait>(
    rt: &R,
    shards: &Shards<B>,
    mut pass: Pass<B>,
    mine: usize,
    steps: &[Step],
    made: &Signal,
) -> Pass<B> {
    for (place, step) in steps.iter().enumerate() {
        if step.1 == mine {
            holds(rt, "no turn is late", waits(made, place as u64, LIMIT));
            makes(rt, shards, &mut pass, place, step);
            made.give();
        }
    }
    pass
}

/// Makes the calls of all steps in turn, by three threads, and compares how many entries the journal then has.
fn by_turns<B: Naming + Send + Sync, R: Threads + Abort + Wait + Sync>(
    rt: &R,
    alloc: Global,
    opened: Opened,
    steps: &[Step],
)
    requires { IsNamed B.count B.table B.plan B.order opened }
{
    let (shards, mut dealer) = opened.share::<B>(alloc).expect(rt, "shared shards");
    let worker = dealer.pass(alloc, Caller::Worker { number: 0 });
    let worker = worker.expect(rt, "a pass");
    let controller = dealer.pass(alloc, Caller::Controller);
    let controller = controller.expect(rt, "a pass");
    let reclaimer = dealer.pass(alloc, Caller::Reclaimer);
    let reclaimer = reclaimer.expect(rt, "a pass");
    let made = Signal::new();
    let (one, (two, three)) = join(
        rt,
        || in_turn(rt, &shards, worker, W0, steps, &made),
        || {
            join(
                rt,
                || in_turn(rt, &shards, controller, C, steps, &made),
                || in_turn(rt, &shards, reclaimer, RECLAIMER, steps, &made),
            )
        },
    );
    let mut passes = Vec::with_capacity(alloc, 3).expect(rt, "a list");
    passes.push(one).expect(rt, "room");
    passes.push(two).expect(rt, "room");
    passes.push(three).expect(rt, "room");
    let journals = shards.close(rt, passes);
    same(rt, "the entries", &entries_of(&journals), &served(steps));
}

/// The same on a new shard.
pub(super) fn are_made_on_threads<R: Threads + Abort + Wait + Sync>(
    rt: &R,
    alloc: Global,
    kind: MapKind,
    max_entries: u32,
    steps: &[Step],
) {
    let opened = opened(rt, alloc, kind, max_entries);
    by_turns::<Brand, R>(rt, alloc, opened, steps);
}
