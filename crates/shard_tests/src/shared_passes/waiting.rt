//! Many callers of one shard, where most have to wait: that all are answered shows that no wake is lost.

ghost use Rattle.shards.specs.NewShards.{IsNamed};

use super::{RUNS, Step, attempt, length_of, opened, runs, two_maps, two_passes};
use crate::asserting::{holds, same};
use journals::Journals;
use semantics::{Caller, Options, Reply};
use shards::{Naming, Opened, Pass, Shards};
use std::alloc::Global;
use std::marker::Brand;
use std::process::Abort;
use std::sync::Wait;
use std::sync::atomic::{AtomicU64, Ordering};
use std::thread::{Threads, join};

/// How often the visitor holds the shard, and how often it looks at a number meanwhile, so that others come to sleep.
const HOLDS: u32 = 400;

const LOOKS: u32 = 4_000;

/// Shards for four workers, whose journals have room for all calls of their runs.
fn opened_for_four<R: Abort>(rt: &R, alloc: Global) -> Opened {
    let options = Options {
        workers: 4,
        shards: 1,
        journal: 12 * RUNS + 4,
    };
    let image = two_maps(rt, alloc);
    Opened::open(alloc, &image, options).expect(rt, "shards")
}

/// The passes of four workers.
type Four<B> = (Pass<B>, Pass<B>, Pass<B>, Pass<B>);

/// New shards, and the passes of four workers.
fn four_passes<B: Naming, R: Abort>(rt: &R, alloc: Global, opened: Opened) -> (Shards<B>, Four<B>)
    requires { IsNamed B.count B.table B.plan B.order opened }
{
    let (shards, mut dealer) = opened.share::<B>(alloc).expect(rt, "shared shards");
    let one = dealer.pass(alloc, Caller::Worker { number: 0 });
    let one = one.expect(rt, "a pass");
    let two = dealer.pass(alloc, Caller::Worker { number: 1 });
    let two = two.expect(rt, "a pass");
    let three = dealer.pass(alloc, Caller::Worker { number: 2 });
    let three = three.expect(rt, "a pass");
    let four = dealer.pass(alloc, Caller::Worker { number: 3 });
    let four = four.expect(rt, "a pass");
    (shards, (one, two, three, four))
}

/// Looks at a number again and again, and counts one more.
fn counted(number: &AtomicU64, so_far: u32) -> u32 {
    for _ in 0..LOOKS {
        let _ = number.load(Ordering::SeqCst);
    }
    so_far.wrapping_add(1)
}

/// Holds the second shard again and again. Says how often.
fn visits<B: Naming, R: Abort + Wait>(rt: &R, shards: &Shards<B>) -> u32 {
    holds(rt, "there are two shards", 1 < shards.count());
    let number = AtomicU64::new(0);
    let mut held: u32 = 0;
    for _ in 0..HOLDS {
        held = shards.hold(rt, 1, || counted(&number, held));
    }
    held
}

/// The journals when the shards are closed with no pass.
fn closed<B: Naming, R: Abort + Wait>(rt: &R, alloc: Global, shards: Shards<B>) -> Journals {
    let passes = Vec::with_capacity(alloc, 0).expect(rt, "a list");
    shards.close(rt, passes)
}

fn by_five_threads<B: Naming + Send + Sync, R: Threads + Abort + Wait + Sync>(
    rt: &R,
    alloc: Global,
    opened: Opened,
)
    requires { IsNamed B.count B.table B.plan B.order opened }
{
    let (shards, (first, second, third, fourth)) = four_passes::<B, R>(rt, alloc, opened);
    let ((one, two), (three, (four, held))) = join(
        rt,
        || {
            join(
                rt,
                || runs(rt, &shards, first),
                || runs(rt, &shards, second),
            )
        },
        || {
            join(
                rt,
                || runs(rt, &shards, third),
                || join(rt, || runs(rt, &shards, fourth), || visits(rt, &shards)),
            )
        },
    );
    same(
        rt,
        "calls of all that were served",
        &[one, two, three, four],
        &[300, 300, 300, 300],
    );
    same(rt, "how often it was held", &held, &HOLDS);
    let journals = closed(rt, alloc, shards);
    same(rt, "the entries", &length_of(&journals, 1), &1200);
}

/// Four workers call one shard while a visitor holds it again and again: all of them are answered, each call once.
#[test]
fn four_workers_and_a_visitor_on_one_shard(rt: HostRuntime) {
    let opened = opened_for_four(&rt, rt.alloc());
    by_five_threads::<Brand, HostRuntime>(&rt, rt.alloc(), opened);
}

fn met<B: Naming, R: Abort + Wait>(rt: &R, alloc: Global, opened: Opened)
    requires { IsNamed B.count B.table B.plan B.order opened }
{
    let (shards, mut first, mut second) = two_passes::<B, R>(rt, alloc, opened);
    holds(rt, "there are two shards", 1 < shards.count());
    let entered = attempt(rt, &shards, &mut first, Step::Enter);
    same(rt, "the first enters", &entered, &Some(Reply::Entered));
    shards.meet(rt, 1, &mut first, &mut second);
    let left = attempt(rt, &shards, &mut first, Step::Leave);
    same(rt, "the first leaves", &left, &Some(Reply::Left));
    let entered = attempt(rt, &shards, &mut second, Step::Enter);
    same(rt, "the second enters", &entered, &Some(Reply::Entered));
}

/// Two callers meet, and both can call afterwards.
#[test]
fn two_callers_meet(rt: HostRuntime) {
    let opened = opened(&rt, rt.alloc(), 16);
    met::<Brand, HostRuntime>(&rt, rt.alloc(), opened);
}
