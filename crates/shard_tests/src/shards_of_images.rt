//! Rows that open shards.

use crate::asserting::{holds, same};
use ebpf_decode::{Image, Insn, MapDef, MapKind, Version};
use shard_core::{Call, Caller, CellRef, JournalFull, Key, Options, Reply, Shard, ShardPlan};
use shards::{OpenFault, PlainShards};
use std::alloc::Global;
use std::process::Abort;
use std::test::Fail;

/// An image with these maps.
fn image_of<R: Abort>(rt: &R, alloc: Global, version: Version, definitions: &[MapDef]) -> Image {
    let mut maps = Vec::new(alloc);
    maps.extend_from_slice(definitions).expect(rt, "maps");
    let mut code = Vec::new(alloc);
    code.push(Insn::Exit).expect(rt, "code");
    Image::of(version, maps, code).expect(rt, "an image")
}

/// Two arrays.
#[rattlefmt::skip]
const TWO_MAPS: [MapDef; 2] = [
    MapDef { kind: MapKind::Array, key_size: 4, value_size: 8, max_entries: 3 },
    MapDef { kind: MapKind::Array, key_size: 4, value_size: 8, max_entries: 4096 },
];

fn two_maps<R: Abort>(rt: &R, alloc: Global) -> Image {
    image_of(rt, alloc, Version::V1, &TWO_MAPS)
}

/// A name, workers, shards to a map, entries of a journal, and why no shards are opened.
type OptionsRow = (&'static str, u32, u32, u32, Option<OpenFault>);

#[rattlefmt::skip]
const OPTIONS: [OptionsRow; 11] = [
    ("the least",                 1, 1, 16,        None),
    ("the most workers",          8, 1, 16,        None),
    ("no worker",                 0, 1, 16,        Some(OpenFault::BadOptions)),
    ("nine workers",              9, 1, 16,        Some(OpenFault::BadOptions)),
    ("no shard",                  1, 0, 16,        Some(OpenFault::BadOptions)),
    ("two shards to a map of 3",  1, 2, 16,        Some(OpenFault::BadOptions)),
    ("three shards to a map",     1, 3, 16,        Some(OpenFault::BadOptions)),
    ("a journal of 15",           1, 1, 15,        Some(OpenFault::BadOptions)),
    ("a journal of 1,048,577",    1, 1, 1_048_577, Some(OpenFault::BadOptions)),
    ("no journal",                1, 1, 0,         Some(OpenFault::BadOptions)),
    ("a journal of 65,536",       2, 1, 65_536,    None),
];

/// The shards of an image, with journals of 16 entries.
fn opened(
    alloc: Global,
    image: &Image,
    workers: u32,
    shards: u32,
) -> Result<PlainShards, OpenFault> {
    let options = Options {
        workers,
        shards,
        journal: 16,
    };
    PlainShards::open(alloc, image, options)
}

/// How many shards an image has with this many to a map; None where they are refused.
fn count_of(alloc: Global, image: &Image, shards: u32) -> Option<usize> {
    match opened(alloc, image, 1, shards) {
        Ok(all) => Some(all.count()),
        Err(_) => None,
    }
}

/// Why no shards are opened; None where they are.
fn refusal(alloc: Global, image: &Image, options: Options) -> Option<OpenFault> {
    match PlainShards::open(alloc, image, options) {
        Ok(_) => None,
        Err(fault) => Some(fault),
    }
}

/// Compares which options of the rows are refused, and why.
fn are_served(rt: &impl Abort, alloc: Global, image: &Image, rows: &[OptionsRow]) {
    for (name, workers, shards, journal, want) in rows {
        let options = Options {
            workers: *workers,
            shards: *shards,
            journal: *journal,
        };
        same(rt, name, &refusal(alloc, image, options), want);
    }
}

#[test]
fn options_that_are_served(rt: HostRuntime) {
    let image = two_maps(&rt, rt.alloc());
    are_served(&rt, rt.alloc(), &image, &OPTIONS);
}

const WORKER: Caller = Caller::Worker { number: 1 };

/// Enters a shard, or looks an index up there.
#[derive(Clone, Copy)]
enum WorkerCall {
    Enter,
    Look(u32),
}

/// A call of a shard, its reply, and how many entries the journals of both shards have then.
type Row = (&'static str, u32, WorkerCall, Reply, [usize; 2]);

#[rattlefmt::skip]
static OF_TWO_MAPS: [Row; 6] = [
    ("a worker enters the first",   0, WorkerCall::Enter,      Reply::Entered,                                      [1, 0]),
    ("the first's last index",      0, WorkerCall::Look(2),    Reply::Cell { cell: CellRef { shard: 0, id: 2 } },    [2, 0]),
    ("no index past the first's end", 0, WorkerCall::Look(3),    Reply::Null,                                         [3, 0]),
    ("the worker enters the other", 1, WorkerCall::Enter,      Reply::Entered,                                      [3, 1]),
    ("the other's last index",      1, WorkerCall::Look(4095), Reply::Cell { cell: CellRef { shard: 1, id: 4095 } }, [3, 2]),
    ("no index past the other's end", 1, WorkerCall::Look(4096), Reply::Null,                                         [3, 3]),
];

fn call_of(shard: u32, ask: WorkerCall) -> Call {
    match ask {
        WorkerCall::Enter => Call::Enter { shard },
        WorkerCall::Look(index) => Call::Lookup {
            shard,
            key: Key::of(&index.to_le_bytes()).unwrap_or(Key::empty()),
        },
    }
}

/// Makes a call of worker 1, which may make it.
fn make(rt: &impl Abort, shard: &mut Shard, name: &str, call: &Call) -> Result<Reply, JournalFull> {
    holds(rt, name, shard.meets(&WORKER, call));
    shard.apply(WORKER, call)
}

/// How many entries the shard's journal has.
fn length_of(rt: &impl Abort, shards: &mut PlainShards, number: u32) -> usize {
    holds(
        rt,
        "there is such a shard",
        (number as usize) < shards.count(),
    );
    shards.shard(number).journal().len()
}

/// Makes the call of each row, and compares.
fn serves(rt: &impl Abort, mut shards: PlainShards, rows: &[Row]) {
    for (name, number, ask, want, lengths) in rows {
        holds(rt, name, (*number as usize) < shards.count());
        let call = call_of(*number, *ask);
        let reply = make(rt, shards.shard(*number), name, &call);
        same(rt, name, &reply, &Ok(*want));
        let found = [length_of(rt, &mut shards, 0), length_of(rt, &mut shards, 1)];
        same(rt, name, &found, lengths);
    }
}

/// The shard of each map has the map's entries, its own number and its own journal.
#[test]
fn one_shard_for_each_map(rt: HostRuntime) {
    let image = two_maps(&rt, rt.alloc());
    let shards = opened(rt.alloc(), &image, 2, 1).expect(&rt, "shards");
    same(&rt, "how many shards", &shards.count(), &2);
    serves(&rt, shards, &OF_TWO_MAPS);
}

/// An array, a hash map and an LRU map, whose values have 256 bytes.
#[rattlefmt::skip]
const THREE_KINDS: [MapDef; 3] = [
    MapDef { kind: MapKind::Array,   key_size: 4, value_size: 256, max_entries: 16 },
    MapDef { kind: MapKind::Hash,    key_size: 4, value_size: 256, max_entries: 16 },
    MapDef { kind: MapKind::LruHash, key_size: 4, value_size: 256, max_entries: 16 },
];

fn three_kinds<R: Abort>(rt: &R, alloc: Global) -> Image {
    image_of(rt, alloc, Version::V2, &THREE_KINDS)
}

/// PlainShards to a map, and how many there are of three maps; none where the options are refused.
const COUNTS: [(&str, u32, Option<usize>); 8] = [
    ("one shard to a map", 1, Some(3)),
    ("two", 2, Some(6)),
    ("four", 4, Some(12)),
    ("eight", 8, Some(24)),
    ("none", 0, None),
    ("three", 3, None),
    ("six", 6, None),
    ("sixteen", 16, None),
];

#[test]
fn shards_to_a_map(rt: HostRuntime) {
    let image = three_kinds(&rt, rt.alloc());
    for (name, shards, want) in &COUNTS {
        same(&rt, name, &count_of(rt.alloc(), &image, *shards), want);
    }
}

/// A number, with its map's kind and its part of four.
const PLACES: [(&str, u32, MapKind, u32); 5] = [
    ("the array's first", 0, MapKind::Array, 0),
    ("its last", 3, MapKind::Array, 3),
    ("the hash map's first", 4, MapKind::Hash, 0),
    ("the LRU map's second", 9, MapKind::LruHash, 1),
    ("its last", 11, MapKind::LruHash, 3),
];

/// The plan of a shard.
fn plan_of(rt: &impl Abort, shards: &mut PlainShards, name: &str, number: u32) -> ShardPlan {
    holds(rt, name, (number as usize) < shards.count());
    *shards.shard(number).plan()
}

/// Compares the kind, the number and the part of a shard.
fn has_place(
    rt: &impl Abort,
    shards: &mut PlainShards,
    name: &str,
    number: u32,
    kind: MapKind,
    part: u32,
) {
    let plan = plan_of(rt, shards, name, number);
    same(rt, name, &plan.definition.kind, &kind);
    same(
        rt,
        name,
        &[plan.number, plan.part, plan.parts],
        &[number, part, 4],
    );
}

/// `PlainShards` are in order, map after map, part after part.
#[test]
fn places_of_shards(rt: HostRuntime) {
    let image = three_kinds(&rt, rt.alloc());
    let mut shards = opened(rt.alloc(), &image, 1, 4).expect(&rt, "shards");
    for (name, number, kind, part) in &PLACES {
        has_place(&rt, &mut shards, name, *number, *kind, *part);
    }
}

/// Compares a fault's number and its text.
fn prints(
    rt: &impl Abort,
    alloc: Global,
    fault: OpenFault,
    number: u8,
    text: &str,
) -> Result<(), Fail> {
    same(rt, text, &fault.number(), &number);
    let printed = format!(in alloc; "{fault}")?;
    same(rt, text, &printed.as_str(), &text);
    Ok(())
}

#[test]
fn fault_texts(rt: HostRuntime) -> Result<(), Fail> {
    prints(
        &rt,
        rt.alloc(),
        OpenFault::BadOptions,
        51,
        "fault 51 BadOptions",
    )?;
    prints(&rt, rt.alloc(), OpenFault::Memory, 52, "fault 52 Memory")
}
