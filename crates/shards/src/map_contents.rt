//! What a map holds, as a list: the entries of all its shards.

ghost use Rattle.std.specs.Prelude.{◌≡◌, ◌+◌, ◌*◌, ◌<◌, ◌≤◌, Some, length, slice_get, IfOk};
ghost use Rattle.semantics.specs.ShardPlan.{AreOptions};
ghost use Rattle.plain_maps.specs.Listed.{ListsAll};
ghost use Rattle.shards.specs.MapContents.{HasParts, HavePlans, value_in_map, AreContentsOfMap};

use crate::plain_shards::PlainShards;
use ebpf_decode::MapDef;
use semantics::Options;
use shard_core::listing::in_order;
use shard_core::{Key, Shard, Value};
use std::alloc::{AllocError, Global};

impl PlainShards {
    /// All that the map at a place holds now: each key that is there, in one of the map's shards, with the bytes of its value, in the order
    /// of the keys. It is the one-thread map's, after the calls that were served: also where no rows of them are kept. Changes nothing.
    /// Fails only for lack of memory.
    pub fn contents(
        &self,
        alloc: Global,
        maps: &[MapDef],
        options: &Options,
        map: u32,
    ) -> Result<Vec<(Key, Value)>, AllocError>
        requires options { AreOptions maps.now options.now }
        requires shards { HavePlans maps.now options.now self.now }
        requires map { map < length maps.now }
        ensures { IfOk result (λ entries. AreContentsOfMap maps.now options.now self.now map entries.items) }
    {
        contents_of(alloc, &self.shards, maps, options, map)
    }
}

/// The same of a list of shards.
pub fn contents_of(
    alloc: Global,
    shards: &[Shard],
    maps: &[MapDef],
    options: &Options,
    map: u32,
) -> Result<Vec<(Key, Value)>, AllocError>
    requires options { AreOptions maps.now options.now }
    requires shards { HavePlans maps.now options.now shards.now }
    requires map { map < length maps.now }
    ensures { IfOk result (λ entries. AreContentsOfMap maps.now options.now shards.now map entries.items) }
{
    let definition = definition_of(maps, map);
    let entries = gathered(
        alloc,
        shards,
        &definition,
        map as usize,
        options.shards as usize,
    )?;
    let sorted = in_order(definition.kind, entries)?;
    Ok(sorted)
}

/// The definition of the map at a place.
fn definition_of(maps: &[MapDef], map: u32) -> MapDef
    requires { map < length maps.now }
    ensures { slice_get maps.now map ≡ Some result }
{
    maps[map as usize]
}

/// The entries of a map's shards, one shard after the other.
fn gathered(
    alloc: Global,
    shards: &[Shard],
    definition: &MapDef,
    map: usize,
    parts: usize,
) -> Result<Vec<(Key, Value)>, AllocError>
    requires some { 0 < parts }
    requires within { map * parts + parts ≤ length shards.now }
    requires parts { HasParts definition.now map parts shards.now }
    ensures { IfOk result (λ entries. ListsAll (value_in_map definition.now parts shards.now map) entries.items) }
{
    let mut entries = Vec::new(alloc);
    'parts: for part in 0..parts {
        let more = shards[map * parts + part].contents(alloc)?;
        entries.extend_from_slice(&more)?;
    }
    Ok(entries)
}
