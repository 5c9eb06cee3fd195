//! As many shards as there are, and the texts of faults.

ghost use Rattle.shards.specs.NewShards.{IsNamed};

use super::{one_pass, opened};
use crate::asserting::{holds, same};
use ebpf_decode::{Image, Insn, MapDef, MapKind, Version};
use semantics::{Call, Options};
use shards::{Naming, Opened, Pass, PassFault, Shards};
use std::alloc::Global;
use std::marker::Brand;
use std::process::Abort;
use std::sync::Wait;
use std::test::Fail;

const HASH_OF_EIGHT: MapDef = MapDef {
    kind: MapKind::Hash,
    key_size: 4,
    value_size: 8,
    max_entries: 8,
};

/// Sixteen maps in eight parts each: 128 shards.
fn most_shards<R: Abort>(rt: &R, alloc: Global) -> Opened {
    let mut maps = Vec::new(alloc);
    for _ in 0..16 {
        maps.push(HASH_OF_EIGHT).expect(rt, "a map");
    }
    let mut code = Vec::new(alloc);
    code.push(Insn::Exit).expect(rt, "code");
    let image = Image::of(Version::V1, maps, code).expect(rt, "an image");
    let options = Options {
        workers: 8,
        shards: 8,
        journal: 16,
    };
    Opened::open(alloc, &image, options).expect(rt, "shards")
}

/// Whether a worker that is outside the shard enters it.
fn enters<B: Naming, R: Abort + Wait>(
    rt: &R,
    shards: &Shards<B>,
    pass: &mut Pass<B>,
    shard: u32,
) -> bool {
    let call = Call::Enter { shard };
    holds(
        rt,
        "there is such a shard",
        (shard as usize) < shards.count(),
    );
    shards.may_call(rt, pass, &call) && shards.call(rt, pass, &call).is_ok()
}

/// How many shards a worker enters, from the first one on.
fn entered<B: Naming, R: Abort + Wait>(rt: &R, alloc: Global, opened: Opened, count: u32) -> u32
    requires { IsNamed B.count B.table B.plan B.order opened }
{
    let (shards, mut pass) = one_pass::<B, R>(rt, alloc, opened);
    let mut served: u32 = 0;
    for shard in 0..count {
        if enters(rt, &shards, &mut pass, shard) {
            served = served.wrapping_add(1);
        }
    }
    served
}

/// Each of the most shards that there can be is found under its own number: a call of one that is not waits for ever.
#[test]
fn each_of_128_shards_answers(rt: HostRuntime) {
    let opened = most_shards(&rt, rt.alloc());
    let served = entered::<Brand, HostRuntime>(&rt, rt.alloc(), opened, 128);
    same(&rt, "shards entered", &served, &128);
}

fn second_held<B: Naming, R: Abort + Wait>(rt: &R, alloc: Global, opened: Opened)
    requires { IsNamed B.count B.table B.plan B.order opened }
{
    let (shards, mut pass) = one_pass::<B, R>(rt, alloc, opened);
    holds(rt, "there are two shards", 1 < shards.count());
    let got = shards.hold(rt, 1, || enters(rt, &shards, &mut pass, 0));
    same(rt, "the call on the first", &got, &true);
}

/// The shard that is held is the one of the number: else the call on the first one would wait for ever.
#[test]
fn a_call_of_the_first_while_the_second_is_held(rt: HostRuntime) {
    let opened = opened(&rt, rt.alloc(), 16);
    second_held::<Brand, HostRuntime>(&rt, rt.alloc(), opened);
}

const FAULTS: [(PassFault, &str); 3] = [
    (PassFault::BadOptions, "fault 51 BadOptions"),
    (PassFault::Memory, "fault 52 Memory"),
    (PassFault::PassTaken, "fault 54 PassTaken"),
];

/// Compares what is printed of a fault.
fn is_printed(rt: &impl Abort, alloc: Global, fault: PassFault, want: &str) -> Result<(), Fail> {
    let text = format!(in alloc; "{fault}")?;
    same(rt, want, &text.as_str(), &want);
    Ok(())
}

#[test]
fn pass_fault_texts(rt: HostRuntime) -> Result<(), Fail> {
    for row in &FAULTS {
        is_printed(&rt, rt.alloc(), row.0, row.1)?;
    }
    Ok(())
}
