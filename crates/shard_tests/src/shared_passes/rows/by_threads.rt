//! Calls of a worker, the controller and the reclaimer on one shard, each on a thread of its own.

mod one_key;

ghost use Rattle.shards.specs.NewShards.{IsNamed};

use super::{Asked, attempt, opened};
use crate::asserting::{holds, same};
use crate::shared_passes::length_of;
use ebpf_decode::MapKind;
use journals::Journals;
use one_key::{OneKey, first_value};
use semantics::{Caller, Reply};
use shards::{Naming, Opened, Pass, Shards};
use std::alloc::Global;
use std::marker::Brand;
use std::process::Abort;
use std::sync::Wait;
use std::sync::atomic::{AtomicU64, Ordering};
use std::thread::{Threads, join, yield_now};

/// Waits until this many have been counted.
fn wait_for<R: Wait>(rt: &R, counted: &AtomicU64, wanted: u64) {
    for _ in rt.forever() {
        if counted.load(Ordering::SeqCst) >= wanted {
            return;
        }
    }
    unreachable!()
}

/// What a caller has had of its calls.
#[derive(Clone, Copy)]
struct Had {
    /// How many replies.
    replies: usize,
    /// The first call with another reply than it should have.
    wrong: Option<&'static str>,
    /// How many updates that were answered 0.
    updates: u64,
}

const NOTHING: Had = Had {
    replies: 0,
    wrong: None,
    updates: 0,
};

impl Had {
    fn note(&mut self, name: &'static str, got: Option<Reply>, is_right: bool) {
        if got.is_some() {
            self.replies = self.replies.saturating_add(1);
        }
        if !is_right && self.wrong.is_none() {
            self.wrong = Some(name);
        }
    }
}

/// A caller's pass at the end of its thread, and what it had.
#[derive(Drop)]
struct Ended<B: Naming> {
    pass: Pass<B>,
    had: Had,
}

/// What two callers had.
fn both(one: Had, other: Had) -> Had {
    Had {
        replies: one.replies.saturating_add(other.replies),
        wrong: one.wrong.or(other.wrong),
        updates: one.updates.wrapping_add(other.updates),
    }
}

/// The journals when the shards are closed, and what all three callers had.
fn closed<B: Naming, R: Abort + Wait>(
    rt: &R,
    alloc: Global,
    shards: Shards<B>,
    worker: Ended<B>,
    controller: Ended<B>,
    reclaimer: Ended<B>,
) -> (Journals, Had) {
    let had = both(worker.had, both(controller.had, reclaimer.had));
    let mut passes = Vec::with_capacity(alloc, 3).expect(rt, "a list");
    passes.push(worker.pass).expect(rt, "room");
    passes.push(controller.pass).expect(rt, "room");
    passes.push(reclaimer.pass).expect(rt, "room");
    (shards.close(rt, passes), had)
}

/// A new shard, and the passes of a worker, the controller and the reclaimer.
fn three_passes<B: Naming, R: Abort>(
    rt: &R,
    alloc: Global,
    opened: Opened,
) -> (Shards<B>, Pass<B>, Pass<B>, Pass<B>)
    requires { IsNamed B.count B.table B.plan B.order opened }
{
    let (shards, mut dealer) = opened.share::<B>(alloc).expect(rt, "shared shards");
    let worker = dealer.pass(alloc, Caller::Worker { number: 0 });
    let worker = worker.expect(rt, "a pass");
    let controller = dealer.pass(alloc, Caller::Controller);
    let controller = controller.expect(rt, "a pass");
    let reclaimer = dealer.pass(alloc, Caller::Reclaimer);
    let reclaimer = reclaimer.expect(rt, "a pass");
    (shards, worker, controller, reclaimer)
}

/// How many runs the worker makes, and how often the controller sets and deletes the key.
const ROUNDS: u32 = 60;

/// How many rounds the reclaimer makes: this many that it seldom ends before the controller, who would find no free cell then.
const RECLAIMS: u32 = 240;

/// How often a run loads what it found.
const LOADS: u32 = 3;

const KEY: u32 = 10;

fn answer(code: i32) -> Option<Reply> {
    Some(Reply::Answer { code })
}

/// Waits until all three threads have begun, so that they call at the same time.
fn begin<R: Wait>(rt: &R, begun: &AtomicU64) {
    begun.fetch_add(1, Ordering::SeqCst);
    wait_for(rt, begun, 3);
}

/// A run: it looks the key up, and loads what it found, which is to keep the value that it was set to when it was made.
fn visit<B: Naming, R: Abort + Wait>(
    rt: &R,
    shards: &Shards<B>,
    pass: &mut Pass<B>,
    had: &mut Had,
) {
    let got = attempt(rt, shards, pass, Asked::Enter);
    had.note("an Enter", got, got == Some(Reply::Entered));
    let got = attempt(rt, shards, pass, Asked::Look { key: KEY });
    if let Some(Reply::Cell { cell }) = got {
        had.note("a Lookup", got, true);
        let want = Some(Reply::Word {
            value: first_value(cell.id),
        });
        for _ in 0..LOADS {
            yield_now();
            let got = attempt(rt, shards, pass, Asked::Load { id: cell.id });
            had.note("a Load", got, got == want);
        }
    } else {
        had.note("a Lookup", got, got == Some(Reply::Null));
    }
    let got = attempt(rt, shards, pass, Asked::Leave);
    had.note("a Leave", got, got == Some(Reply::Left));
}

/// Sets the key, to the value of the next cell. It may be that no cell is free.
fn set<B: Naming, R: Abort + Wait>(
    rt: &R,
    shards: &Shards<B>,
    pass: &mut Pass<B>,
    had: &mut Had,
) -> bool {
    let asked = Asked::Update {
        key: KEY,
        value: first_value(had.updates),
        flags: 0,
    };
    let got = attempt(rt, shards, pass, asked);
    let is_set = got == answer(0);
    had.note("an Update", got, is_set || got == answer(-12));
    if is_set {
        had.updates = had.updates.wrapping_add(1);
    }
    is_set
}

fn runs<B: Naming, R: Abort + Wait>(
    rt: &R,
    shards: &Shards<B>,
    mut pass: Pass<B>,
    begun: &AtomicU64,
) -> Ended<B> {
    let mut had = NOTHING;
    begin(rt, begun);
    for _ in 0..ROUNDS {
        visit(rt, shards, &mut pass, &mut had);
    }
    Ended { pass, had }
}

fn changes<B: Naming, R: Abort + Wait>(
    rt: &R,
    shards: &Shards<B>,
    mut pass: Pass<B>,
    begun: &AtomicU64,
) -> Ended<B> {
    let mut had = NOTHING;
    begin(rt, begun);
    for _ in 0..ROUNDS {
        let want = if set(rt, shards, &mut pass, &mut had) {
            0
        } else {
            -2
        };
        yield_now();
        let got = attempt(rt, shards, &mut pass, Asked::Delete { key: KEY });
        had.note("a Delete", got, got == answer(want));
    }
    Ended { pass, had }
}

fn reclaims<B: Naming, R: Abort + Wait>(
    rt: &R,
    shards: &Shards<B>,
    mut pass: Pass<B>,
    begun: &AtomicU64,
) -> Ended<B> {
    let mut had = NOTHING;
    begin(rt, begun);
    for _ in 0..RECLAIMS {
        let got = attempt(rt, shards, &mut pass, Asked::Reclaim);
        let is_right = match got {
            Some(Reply::Freed { count }) => count <= 2,
            _ => false,
        };
        had.note("a Reclaim", got, is_right);
        yield_now();
    }
    Ended { pass, had }
}

/// When all three have ended: what is retired is freed, the key is set once more, and the worker finds it.
fn afterwards<B: Naming, R: Abort + Wait>(
    rt: &R,
    shards: &Shards<B>,
    worker: &mut Ended<B>,
    controller: &mut Ended<B>,
    reclaimer: &mut Ended<B>,
) {
    let got = attempt(rt, shards, &mut reclaimer.pass, Asked::Reclaim);
    reclaimer.had.note("the last Reclaim", got, got.is_some());
    let is_set = set(rt, shards, &mut controller.pass, &mut controller.had);
    holds(rt, "the last Update", is_set);
    let before = worker.had.replies;
    visit(rt, shards, &mut worker.pass, &mut worker.had);
    same(
        rt,
        "replies of the last run",
        &worker.had.replies,
        &before.saturating_add(6),
    );
}

/// What the three do at the same time: each is replied what it may be, and the journal has their calls, each with the reply that one thread
/// would give.
fn freely<B: Naming + Send + Sync, R: Threads + Abort + Wait + Sync>(
    rt: &R,
    alloc: Global,
    opened: Opened,
)
    requires { IsNamed B.count B.table B.plan B.order opened }
{
    let (shards, worker, controller, reclaimer) = three_passes::<B, R>(rt, alloc, opened);
    let begun = AtomicU64::new(0);
    let (mut one, (mut two, mut three)) = join(
        rt,
        || runs(rt, &shards, worker, &begun),
        || {
            join(
                rt,
                || changes(rt, &shards, controller, &begun),
                || reclaims(rt, &shards, reclaimer, &begun),
            )
        },
    );
    afterwards(rt, &shards, &mut one, &mut two, &mut three);
    let (journals, had) = closed(rt, alloc, shards, one, two, three);
    same(rt, "a call with another reply", &had.wrong, &None);
    same(
        rt,
        "how many entries",
        &length_of(&journals, 0),
        &had.replies,
    );
    same(
        rt,
        "an entry that one thread would not make",
        &first_other(&journals),
        &None,
    );
}

/// The place of the first entry whose reply one thread would not give.
fn first_other(journals: &Journals) -> Option<usize> {
    let mut shard = OneKey::new();
    if journals.count() == 0 {
        return None;
    }
    if !journals.keeps_rows() {
        return Some(0);
    }
    let journal = journals.journal(0);
    for place in 0..journal.len() {
        let entry = journal.entry(place);
        if shard.reply(&entry.call) != entry.reply {
            return Some(place);
        }
    }
    None
}

#[test]
fn three_threads_on_one_shard(rt: HostRuntime) {
    let opened = opened(&rt, rt.alloc(), MapKind::Hash, 1);
    freely::<Brand, HostRuntime>(&rt, rt.alloc(), opened);
}
