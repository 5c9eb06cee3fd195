//! Calls of one shard, by the words of a table.

mod by_threads;

use ebpf_decode::{Image, Insn, MapDef, MapKind, Version};
use semantics::{Call, CellRef, Key, Options, Reply, Value};
use shards::{Naming, Opened, Pass, Shards};
use std::alloc::Global;
use std::process::Abort;
use std::sync::Wait;

/// The shards of one map with keys of 4 bytes and values of 8.
fn opened<R: Abort>(rt: &R, alloc: Global, kind: MapKind, max_entries: u32) -> Opened {
    let definition = MapDef {
        kind,
        key_size: 4,
        value_size: 8,
        max_entries,
    };
    let mut maps = Vec::new(alloc);
    maps.push(definition).expect(rt, "a map");
    let mut code = Vec::new(alloc);
    code.push(Insn::Exit).expect(rt, "code");
    let image = Image::of(Version::V1, maps, code).expect(rt, "an image");
    let options = Options {
        workers: 2,
        shards: 1,
        journal: 1_048_576,
    };
    Opened::open(alloc, &image, options).expect(rt, "shards")
}

/// A call of the shard.
#[derive(Clone, Copy)]
enum Asked {
    Enter,
    Leave,
    Look { key: u32 },
    Load { id: u64 },
    Update { key: u32, value: u64, flags: u64 },
    Delete { key: u32 },
    Reclaim,
}

fn key_of(key: u32) -> Key {
    Key::of(&key.to_le_bytes()).unwrap_or(Key::empty())
}

fn value_of(value: u64) -> Value {
    Value::of(&value.to_le_bytes()).unwrap_or(Value::empty())
}

impl Asked {
    fn call(self) -> Call {
        match self {
            Asked::Enter => Call::Enter { shard: 0 },
            Asked::Leave => Call::Leave { shard: 0 },
            Asked::Look { key } => Call::Lookup {
                shard: 0,
                key: key_of(key),
            },
            Asked::Load { id } => Call::Load {
                cell: CellRef { shard: 0, id },
                offset: 0,
                size: 8,
            },
            Asked::Update { key, value, flags } => Call::Update {
                shard: 0,
                key: key_of(key),
                value: value_of(value),
                flags,
            },
            Asked::Delete { key } => Call::Delete {
                shard: 0,
                key: key_of(key),
            },
            Asked::Reclaim => Call::Reclaim { shard: 0 },
        }
    }
}

/// What the call replies; None where its caller may not make it, or the journal is full.
fn attempt<B: Naming, R: Abort + Wait>(
    rt: &R,
    shards: &Shards<B>,
    pass: &mut Pass<B>,
    asked: Asked,
) -> Option<Reply> {
    let call = asked.call();
    assert!(rt; (call.shard() as usize) < shards.count());
    if shards.may_call(rt, pass, &call) {
        shards.call(rt, pass, &call).ok()
    } else {
        None
    }
}
