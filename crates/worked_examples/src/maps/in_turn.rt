//! Calls of one shard by all its callers, one after the other.

ghost use Rattle.shards.specs.NewShards.{IsNamed};

use crate::asserting::{holds, same, same_at};
use ebpf_decode::{Image, Insn, MapDef, MapKind, Version};
use journals::Journals;
use semantics::{Caller, CellRef, JournalFull, Key, Options, Reply, Value};
use shards::{Naming, Opened, Pass, Shards};
use std::alloc::Global;
use std::marker::Brand;
use std::process::Abort;
use std::sync::Wait;

/// A call of the shard. A load is of eight bytes.
#[derive(Clone, Copy)]
pub(crate) enum Call {
    Enter,
    Leave,
    Look { key: u32 },
    Load { id: u64 },
    Update { key: u32, value: u64, flags: u64 },
    Delete { key: u32 },
    Reclaim,
}

/// What a call is told: a reply, or that the journal is full.
pub(crate) type Told = Result<Reply, JournalFull>;

pub(crate) const FULL: Told = Err(JournalFull { shard: 0 });

/// How often a call is made, by whom, and what it is told.
pub(crate) type Step = (u32, usize, Call, Told);

/// Who calls, by the place of its pass.
pub(crate) const W0: usize = 0;

pub(crate) const C: usize = 2;

pub(crate) const R: usize = 3;

const CALLERS: [Caller; 4] = [
    Caller::Worker { number: 0 },
    Caller::Worker { number: 1 },
    Caller::Controller,
    Caller::Reclaimer,
];

/// A shard of a map with keys of 4 bytes and values of 8, for two workers, whose journal has room for 16 entries.
pub(crate) fn opened<R: Abort>(rt: &R, alloc: Global, kind: MapKind, max_entries: u32) -> Opened {
    let map = MapDef {
        kind,
        key_size: 4,
        value_size: 8,
        max_entries,
    };
    let mut maps = Vec::new(alloc);
    maps.push(map).expect(rt, "a map");
    let mut code = Vec::new(alloc);
    code.push(Insn::Exit).expect(rt, "code");
    let image = Image::of(Version::V1, maps, code).expect(rt, "an image");
    let options = Options {
        workers: 2,
        shards: 1,
        journal: 16,
    };
    Opened::open(alloc, &image, options).expect(rt, "shards")
}

fn key_of(key: u32) -> Key {
    Key::of(&key.to_le_bytes()).unwrap_or(Key::empty())
}

fn value_of(value: u64) -> Value {
    Value::of(&value.to_le_bytes()).unwrap_or(Value::empty())
}

impl Call {
    /// The call of the shard of this number.
    pub(crate) fn of(self, shard: u32) -> semantics::Call {
        match self {
            Call::Enter => semantics::Call::Enter { shard },
            Call::Leave => semantics::Call::Leave { shard },
            Call::Look { key } => semantics::Call::Lookup {
                shard,
                key: key_of(key),
            },
            Call::Load { id } => semantics::Call::Load {
                cell: CellRef { shard, id },
                offset: 0,
                size: 8,
            },
            Call::Update { key, value, flags } => semantics::Call::Update {
                shard,
                key: key_of(key),
                value: value_of(value),
                flags,
            },
            Call::Delete { key } => semantics::Call::Delete {
                shard,
                key: key_of(key),
            },
            Call::Reclaim => semantics::Call::Reclaim { shard },
        }
    }
}

/// Makes a call that its caller may make.
pub(crate) fn make<B: Naming, R: Abort + Wait>(
    rt: &R,
    shards: &Shards<B>,
    pass: &mut Pass<B>,
    call: &semantics::Call,
) -> Told {
    holds(rt, "the shard", (call.shard() as usize) < shards.count());
    let may_call = shards.may_call(rt, pass, call);
    holds(rt, "the caller may call", may_call);
    shards.call(rt, pass, call)
}

/// Makes the calls of a step, and compares what each is told.
pub(crate) fn makes<B: Naming, R: Abort + Wait>(
    rt: &R,
    shards: &Shards<B>,
    pass: &mut Pass<B>,
    place: usize,
    step: &Step,
) {
    let (times, _, call, want) = step;
    for _ in 0..*times {
        let told = make(rt, shards, pass, &call.of(0));
        same_at(rt, "step", place as u64, &told, want);
    }
}

/// How many calls of the steps are served: each is an entry.
pub(crate) fn served(steps: &[Step]) -> usize {
    let mut count = 0usize;
    for (times, _, _, told) in steps {
        if told.is_ok() {
            count = count.saturating_add(*times as usize);
        }
    }
    count
}

/// How many entries the first journal has.
pub(crate) fn entries_of(journals: &Journals) -> usize {
    if journals.count() == 0 {
        0
    } else {
        journals.len(0)
    }
}

/// Makes the calls of all steps in turn, and compares how many entries the journal then has.
fn made<B: Naming, R: Abort + Wait>(rt: &R, alloc: Global, opened: Opened, steps: &[Step])
    requires { IsNamed B.count B.table B.plan B.order opened }
{
    let (shards, mut dealer) = opened.share::<B>(alloc).expect(rt, "shared shards");
    let mut passes = Vec::with_capacity(alloc, 4).expect(rt, "a list");
    for who in &CALLERS {
        let pass = dealer.pass(alloc, *who).expect(rt, "a pass");
        passes.push(pass).expect(rt, "room");
    }
    for (place, step) in steps.iter().enumerate() {
        holds(rt, "the caller's pass", step.1 < passes.len());
        makes(rt, &shards, &mut passes[step.1], place, step);
    }
    let journals = shards.close(rt, passes);
    same(rt, "the entries", &entries_of(&journals), &served(steps));
}

/// The same on a new shard.
pub(crate) fn are_made<R: Abort + Wait>(
    rt: &R,
    alloc: Global,
    kind: MapKind,
    max_entries: u32,
    steps: &[Step],
) {
    let opened = opened(rt, alloc, kind, max_entries);
    made::<Brand, R>(rt, alloc, opened, steps);
}
