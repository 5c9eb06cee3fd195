//! Which options open shards, by rows; lists of entries, read back.

use crate::asserting::same;
use ebpf_decode::{MapDef, MapKind};
use journals::EntryList;
use semantics::{Call, Caller, CellRef, Entry, Key, Options, Reply, Value};
use std::alloc::Global;
use std::process::Abort;

/// Two maps whose entries 1, 2 and 4 divide, and 8 does not.
const MAPS: [MapDef; 2] = [
    MapDef {
        kind: MapKind::Hash,
        key_size: 16,
        value_size: 8,
        max_entries: 4,
    },
    MapDef {
        kind: MapKind::Array,
        key_size: 4,
        value_size: 256,
        max_entries: 4096,
    },
];

#[rattlefmt::skip]
const OPTIONS: [(&str, u32, u32, u32, bool); 12] = [
    ("the least",                      1, 1, 16,        true),
    ("the most workers, two shards",   8, 2, 16,        true),
    ("four shards",                    8, 4, 16,        true),
    ("eight shards of four entries",   8, 8, 16,        false),
    ("no worker",                      0, 1, 16,        false),
    ("nine workers",                   9, 1, 16,        false),
    ("no shard",                       1, 0, 16,        false),
    ("three shards",                   1, 3, 16,        false),
    ("sixteen shards",                 1, 16, 16,       false),
    ("a journal of 15",                1, 1, 15,        false),
    ("a journal of 1,048,576",         1, 1, 1_048_576, true),
    ("a journal of 1,048,577",         1, 1, 1_048_577, false),
];

#[test]
fn options_that_open_shards(rt: HostRuntime) {
    for (name, workers, shards, journal, want) in &OPTIONS {
        let options = Options {
            workers: *workers,
            shards: *shards,
            journal: *journal,
        };
        same(&rt, name, &options.fit(&MAPS), want);
    }
}

fn key(bytes: &[u8]) -> Key {
    match Key::of(bytes) {
        Some(key) => key,
        None => Key::empty(),
    }
}

fn value(bytes: &[u8]) -> Value {
    match Value::of(bytes) {
        Some(value) => value,
        None => Value::empty(),
    }
}

/// One call of each kind, with the least and the greatest key and value, and numbers that no map serves.
#[rattlefmt::skip]
fn calls() -> [Call; 12] {
    let cell = CellRef { shard: 7, id: 18_446_744_073_709_551_615 };
    [
        Call::Enter { shard: 0 },
        Call::Leave { shard: 4_294_967_295 },
        Call::Lookup { shard: 1, key: key(&[1, 2, 3, 4]) },
        Call::Lookup { shard: 2, key: key(&[9; 32]) },
        Call::Lookup { shard: 3, key: Key::empty() },
        Call::Load { cell, offset: 70_000, size: 3 },
        Call::Store { cell, offset: 1, size: 300, value: 2 },
        Call::Atomic { cell, offset: 1, size: 2, op: 999, value: 4, expected: 5 },
        Call::Update { shard: 4, key: key(&[5]), value: value(&[7; 256]), flags: 1 },
        Call::Update { shard: 5, key: key(&[6; 32]), value: Value::empty(), flags: 2 },
        Call::Delete { shard: 6, key: key(&[8, 8]) },
        Call::Reclaim { shard: 7 },
    ]
}

/// An entry of one of these calls, whose reply and caller are others at each place.
fn entry_at(calls: &[Call; 12], place: usize) -> Entry {
    let number = place as u64;
    let who = match number % 3 {
        0 => Caller::Worker {
            number: (number % 8) as u8,
        },
        1 => Caller::Controller,
        _ => Caller::Reclaimer,
    };
    let reply = match number % 4 {
        0 => Reply::Word { value: number },
        1 => Reply::Null,
        2 => Reply::Answer { code: -2 },
        _ => Reply::Freed { count: number },
    };
    Entry {
        who,
        call: calls[place % 12],
        reply,
    }
}

/// This many entries.
fn list_of<R: Abort>(rt: &R, alloc: Global, calls: &[Call; 12], count: usize) -> EntryList {
    let mut list = EntryList::new(alloc);
    for place in 0..count {
        list.push(&entry_at(calls, place)).expect(rt, "room");
    }
    list
}

/// The place of the first entry that is not what was put there.
fn first_other(list: &EntryList, calls: &[Call; 12]) -> Option<usize> {
    for place in 0..list.len() {
        if list.entry(place) != entry_at(calls, place) {
            return Some(place);
        }
    }
    None
}

#[test]
fn entries_read_back(rt: HostRuntime) {
    let calls = calls();
    let list = list_of(&rt, rt.alloc(), &calls, 1000);
    same(&rt, "how many entries", &list.len(), &1000);
    same(
        &rt,
        "the first other one",
        &first_other(&list, &calls),
        &None,
    );
}
