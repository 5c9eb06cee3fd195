//! A shard that is held while others call.

ghost use Rattle.shards.specs.NewShards.{IsNamed};

use super::{WORKER_0, WORKER_1};
use crate::asserting::{holds, same};
use crate::turns::{Signal, waits};
use disasm::assemble;
use semantics::{Call, JournalFull, Options, Reply};
use shards::{Naming, Opened, Pass, Shards};
use std::alloc::Global;
use std::marker::Brand;
use std::process::Abort;
use std::sync::Wait;
use std::thread::{Threads, join};

/// How long each waits for another.
const LIMIT: u32 = 10_000_000;

/// How long the holder looks whether the call on the held shard is answered.
const LOOKS: u64 = 1_000_000;

/// What the threads tell each other.
#[derive(Drop)]
struct Signals {
    /// The first shard is held.
    held: Signal,
    /// The call on the second shard is answered.
    other_answered: Signal,
    /// The call on the held shard is about to be made.
    calls: Signal,
    /// It is answered.
    answered: Signal,
    /// What runs while the shard is held has ended.
    ended: Signal,
}

/// What runs while the first shard is held: it lasts until a call on the second one is answered, and, long after a call on the first one was
/// made, looks whether that was answered.
fn meanwhile(rt: &impl Abort, signals: &Signals) -> bool {
    signals.held.give();
    holds(
        rt,
        "the other is answered",
        waits(&signals.other_answered, 1, LIMIT),
    );
    holds(
        rt,
        "the held one is called",
        waits(&signals.calls, 1, LIMIT),
    );
    let mut is_answered = false;
    for _ in 0..LOOKS {
        is_answered = is_answered || signals.answered.count() > 0;
    }
    signals.ended.give();
    is_answered
}

/// A call on the second shard, once the first one is held.
fn calls_the_other<B: Naming, R: Abort + Wait>(
    rt: &R,
    shards: &Shards<B>,
    mut pass: Pass<B>,
    signals: &Signals,
) -> Result<Reply, JournalFull> {
    let call = Call::Enter { shard: 1 };
    holds(rt, "there are two shards", 1 < shards.count());
    holds(rt, "the shard is held", waits(&signals.held, 1, LIMIT));
    holds(rt, "it may enter", shards.may_call(rt, &mut pass, &call));
    let told = shards.call(rt, &mut pass, &call);
    signals.other_answered.give();
    told
}

/// A call on the first shard, once it is held: what it is told, and whether that was after the end of what ran meanwhile.
fn calls_the_held<B: Naming, R: Abort + Wait>(
    rt: &R,
    shards: &Shards<B>,
    mut pass: Pass<B>,
    signals: &Signals,
    ready: &Signal,
) -> (Result<Reply, JournalFull>, bool) {
    let call = Call::Enter { shard: 0 };
    holds(rt, "there are two shards", 1 < shards.count());
    holds(rt, "it may enter", shards.may_call(rt, &mut pass, &call));
    ready.give();
    holds(rt, "the shard is held", waits(&signals.held, 1, LIMIT));
    signals.calls.give();
    let told = shards.call(rt, &mut pass, &call);
    let is_after = signals.ended.count() == 1;
    signals.answered.give();
    (told, is_after)
}

/// Holds the first shard, once the other thread is ready to call it.
fn holds_the_first<B: Naming, R: Abort + Wait>(
    rt: &R,
    shards: &Shards<B>,
    signals: &Signals,
    ready: &Signal,
) -> bool {
    holds(rt, "there are two shards", 1 < shards.count());
    holds(rt, "the other is ready", waits(ready, 1, LIMIT));
    shards.hold(rt, 0, || meanwhile(rt, signals))
}

fn held<B: Naming + Send + Sync, R: Threads + Abort + Wait + Sync>(
    rt: &R,
    alloc: Global,
    opened: Opened,
)
    requires { IsNamed B.count B.table B.plan B.order opened }
{
    let (shards, mut dealer) = opened.share::<B>(alloc).expect(rt, "shared shards");
    let first = dealer.pass(alloc, WORKER_0).expect(rt, "a pass");
    let second = dealer.pass(alloc, WORKER_1).expect(rt, "a pass");
    let ready = Signal::new();
    let signals = Signals {
        held: Signal::new(),
        other_answered: Signal::new(),
        calls: Signal::new(),
        answered: Signal::new(),
        ended: Signal::new(),
    };
    let (is_answered, (other, (told, is_after))) = join(
        rt,
        || holds_the_first(rt, &shards, &signals, &ready),
        || {
            join(
                rt,
                || calls_the_other(rt, &shards, first, &signals),
                || calls_the_held(rt, &shards, second, &signals, &ready),
            )
        },
    );
    same(rt, "the call on the other", &other, &Ok(Reply::Entered));
    same(rt, "the call on the held one", &told, &Ok(Reply::Entered));
    same(
        rt,
        "whether it was answered while held",
        &is_answered,
        &false,
    );
    same(rt, "whether it was answered after", &is_after, &true);
}

/// The shards of two arrays.
fn opened_two<R: Abort>(rt: &R, alloc: Global) -> Opened {
    let text = "version 1\nmap array 4 8 1\nmap array 4 8 1\nexit\n";
    let image = assemble(alloc, text).expect(rt, "an image");
    let options = Options {
        workers: 2,
        shards: 1,
        journal: 16,
    };
    Opened::open(alloc, &image, options).expect(rt, "shards")
}

#[test]
fn a_held_shard_answers_when_it_is_let_go(rt: HostRuntime) {
    let opened = opened_two(&rt, rt.alloc());
    held::<Brand, HostRuntime>(&rt, rt.alloc(), opened);
}
