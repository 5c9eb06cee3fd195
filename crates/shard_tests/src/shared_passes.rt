//! What no clause says: that shards are opened and passes dealt with memory, and that calls by threads return.

mod many_shards;
mod rows;
mod waiting;

ghost use Rattle.shards.specs.NewShards.{IsNamed};

use crate::asserting::{holds, same};
use ebpf_decode::{Image, Insn, MapDef, MapKind, Version};
use journals::Journals;
use semantics::{Call, Caller, CellRef, Key, Options, Reply};
use shards::{Naming, Opened, Pass, PassFault, Shards};
use std::alloc::Global;
use std::marker::Brand;
use std::process::Abort;
use std::sync::Wait;
use std::thread::{Threads, join};

/// An image of two arrays.
fn two_maps<R: Abort>(rt: &R, alloc: Global) -> Image {
    let mut maps = Vec::new(alloc);
    maps.push(array_of(4)).expect(rt, "a map");
    maps.push(array_of(4096)).expect(rt, "a map");
    let mut code = Vec::new(alloc);
    code.push(Insn::Exit).expect(rt, "code");
    Image::of(Version::V1, maps, code).expect(rt, "an image")
}

fn array_of(max_entries: u32) -> MapDef {
    MapDef {
        kind: MapKind::Array,
        key_size: 4,
        value_size: 8,
        max_entries,
    }
}

fn opened<R: Abort>(rt: &R, alloc: Global, journal: u32) -> Opened {
    let options = Options {
        workers: 2,
        shards: 1,
        journal,
    };
    let image = two_maps(rt, alloc);
    Opened::open(alloc, &image, options).expect(rt, "shards")
}

/// A call of the second shard.
#[derive(Clone, Copy)]
enum Step {
    Enter,
    Leave,
    Look { index: u32 },
    Load { id: u64 },
}

impl Step {
    fn call(self) -> Call {
        match self {
            Step::Enter => Call::Enter { shard: 1 },
            Step::Leave => Call::Leave { shard: 1 },
            Step::Look { index } => Call::Lookup {
                shard: 1,
                key: Key::of(&index.to_le_bytes()).unwrap_or(Key::empty()),
            },
            Step::Load { id } => Call::Load {
                cell: CellRef { shard: 1, id },
                offset: 0,
                size: 8,
            },
        }
    }
}

/// What the call replies; None where the caller may not make it, or the journal is full.
fn attempt<B: Naming, R: Abort + Wait>(
    rt: &R,
    shards: &Shards<B>,
    pass: &mut Pass<B>,
    step: Step,
) -> Option<Reply> {
    let call = step.call();
    assert!(rt; (call.shard() as usize) < shards.count());
    if shards.may_call(rt, pass, &call) {
        shards.call(rt, pass, &call).ok()
    } else {
        None
    }
}

/// What each call replies, and whether its caller is inside afterwards.
#[rattlefmt::skip]
static IN_TURN: [(&str, bool, Step, Option<Reply>, bool); 13] = [
    ("nobody leaves who is outside",       true,  Step::Leave,                None, false),
    ("a worker enters",                    true,  Step::Enter,                Some(Reply::Entered), true),
    ("it enters once",                     true,  Step::Enter,                None, true),
    ("it loads nothing that it has not",   true,  Step::Load { id: 4095 },    None, true),
    ("it finds the last index",
        true,  Step::Look { index: 4095 }, Some(Reply::Cell { cell: CellRef { shard: 1, id: 4095 } }), true),
    ("it loads what it found",             true,  Step::Load { id: 4095 },    Some(Reply::Word { value: 0 }), true),
    ("no index past the end",              true,  Step::Look { index: 4096 }, Some(Reply::Null), true),
    ("another enters",                     false, Step::Enter,                Some(Reply::Entered), true),
    ("the other has not found it",         false, Step::Load { id: 4095 },    None, true),
    ("the first still has it",             true,  Step::Load { id: 4095 },    Some(Reply::Word { value: 0 }), true),
    ("the first leaves",                   true,  Step::Leave,                Some(Reply::Left), false),
    ("and lets its cell go",               true,  Step::Load { id: 4095 },    None, false),
    ("the other leaves",                   false, Step::Leave,                Some(Reply::Left), false),
];

/// How many entries the shard's journal has.
fn length_of(journals: &Journals, number: usize) -> usize {
    if number < journals.count() {
        journals.len(number)
    } else {
        0
    }
}

/// New shards, and the passes of both workers.
fn two_passes<B: Naming, R: Abort>(
    rt: &R,
    alloc: Global,
    opened: Opened,
) -> (Shards<B>, Pass<B>, Pass<B>)
    requires { IsNamed B.count B.table B.plan B.order opened }
{
    let (shards, mut dealer) = opened.share::<B>(alloc).expect(rt, "shared shards");
    let first = dealer.pass(alloc, Caller::Worker { number: 0 });
    let first = first.expect(rt, "a pass");
    let second = dealer.pass(alloc, Caller::Worker { number: 1 });
    let second = second.expect(rt, "a pass");
    (shards, first, second)
}

/// New shards, and the pass of the first worker.
fn one_pass<B: Naming, R: Abort>(rt: &R, alloc: Global, opened: Opened) -> (Shards<B>, Pass<B>)
    requires { IsNamed B.count B.table B.plan B.order opened }
{
    let (shards, mut dealer) = opened.share::<B>(alloc).expect(rt, "shared shards");
    let pass = dealer.pass(alloc, Caller::Worker { number: 0 });
    (shards, pass.expect(rt, "a pass"))
}

/// The journals when the shards are closed.
fn closed<B: Naming, R: Abort + Wait>(
    rt: &R,
    alloc: Global,
    shards: Shards<B>,
    first: Pass<B>,
    second: Pass<B>,
) -> Journals {
    let mut passes = Vec::with_capacity(alloc, 2).expect(rt, "a list");
    passes.push(first).expect(rt, "room");
    passes.push(second).expect(rt, "room");
    shards.close(rt, passes)
}

/// Makes a call, and compares what it replies and whether its caller is inside afterwards.
fn turn<B: Naming, R: Abort + Wait>(
    rt: &R,
    shards: &Shards<B>,
    pass: &mut Pass<B>,
    name: &str,
    step: Step,
    want: Option<Reply>,
    inside: bool,
) {
    holds(rt, name, 1 < shards.count());
    same(rt, name, &attempt(rt, shards, pass, step), &want);
    same(rt, name, &pass.is_inside(1), &inside);
}

fn in_turn<B: Naming, R: Abort + Wait>(rt: &R, alloc: Global, opened: Opened)
    requires { IsNamed B.count B.table B.plan B.order opened }
{
    let (shards, mut first, mut second) = two_passes::<B, R>(rt, alloc, opened);
    for (name, is_first, step, want, inside) in &IN_TURN {
        if *is_first {
            turn(rt, &shards, &mut first, name, *step, *want, *inside);
        } else {
            turn(rt, &shards, &mut second, name, *step, *want, *inside);
        }
    }
    let journals = closed(rt, alloc, shards, first, second);
    same(rt, "how many journals", &journals.count(), &2);
    same(rt, "the first one's entries", &length_of(&journals, 0), &0);
    same(rt, "the second one's entries", &length_of(&journals, 1), &8);
}

#[test]
fn two_passes_of_one_shard(rt: HostRuntime) {
    let opened = opened(&rt, rt.alloc(), 16);
    in_turn::<Brand, HostRuntime>(&rt, rt.alloc(), opened);
}

#[rattlefmt::skip]
static DEALT: [(&str, Caller, Option<PassFault>); 7] = [
    ("the controller",        Caller::Controller,           None),
    ("the last worker",       Caller::Worker { number: 1 }, None),
    ("the controller again",  Caller::Controller,           Some(PassFault::PassTaken)),
    ("one worker too many",   Caller::Worker { number: 2 }, Some(PassFault::BadOptions)),
    ("the reclaimer",         Caller::Reclaimer,            None),
    ("the first worker",      Caller::Worker { number: 0 }, None),
    ("the last worker again", Caller::Worker { number: 1 }, Some(PassFault::PassTaken)),
];

fn dealt<B: Naming, R: Abort + Wait>(rt: &R, alloc: Global, opened: Opened)
    requires { IsNamed B.count B.table B.plan B.order opened }
{
    let (_shards, mut dealer) = opened.share::<B>(alloc).expect(rt, "shared shards");
    for (name, who, want) in &DEALT {
        same(rt, name, &dealer.pass(alloc, *who).err(), want);
    }
}

#[test]
fn passes_that_are_dealt(rt: HostRuntime) {
    let opened = opened(&rt, rt.alloc(), 65536);
    dealt::<Brand, HostRuntime>(&rt, rt.alloc(), opened);
}

const RUNS: u32 = 100;

/// Makes this many runs of three calls, and says how many calls were served.
fn runs<B: Naming, R: Abort + Wait>(rt: &R, shards: &Shards<B>, mut pass: Pass<B>) -> u32 {
    let mut served: u32 = 0;
    for _ in 0..RUNS {
        for step in [Step::Enter, Step::Look { index: 7 }, Step::Leave] {
            if attempt(rt, shards, &mut pass, step).is_some() {
                served = served.wrapping_add(1);
            }
        }
    }
    served
}

fn by_two_threads<B: Naming + Send + Sync, R: Threads + Abort + Wait + Sync>(
    rt: &R,
    alloc: Global,
    opened: Opened,
)
    requires { IsNamed B.count B.table B.plan B.order opened }
{
    let (shards, first, second) = two_passes::<B, R>(rt, alloc, opened);
    let (one, two) = join(
        rt,
        || runs(rt, &shards, first),
        || runs(rt, &shards, second),
    );
    same(
        rt,
        "calls of both that were served",
        &[one, two],
        &[300, 300],
    );
    let passes = Vec::with_capacity(alloc, 0).expect(rt, "a list");
    let journals = shards.close(rt, passes);
    same(rt, "their entries", &length_of(&journals, 1), &600);
}

/// The journal has room for the calls of both, and for no entry that is made twice.
#[test]
fn two_threads_on_one_shard(rt: HostRuntime) {
    let opened = opened(&rt, rt.alloc(), 600);
    by_two_threads::<Brand, HostRuntime>(&rt, rt.alloc(), opened);
}
