//! What the maps hold before the frames of a row come.

ghost use Rattle.std.specs.Prelude.{◌≡◌, ◌<◌, All, IfSome, length, slice_get};
ghost use Rattle.semantics.specs.ShardPlan.{AreOptions};
ghost use Rattle.shard_port.specs.PortView.{ServesMaps};
ghost use Rattle.shard_port.specs.PlainPorts.{IsSamePort};
ghost use Rattle.bench_parts.specs.FrameOptions.{bench_options};

use super::rows::{FRAMES, FrameRow, Put, SIZE, frame_bytes, tunnel_put};
use anyhow::{Error, bail};
use ebpf_decode::{Image, MapDef};
use machine::MapPort;
use semantics::{Key, Options, Value};
use shard_port::PlainPort;
use shards::PlainShards;
use wire::flow_of;

/// The worker that puts the records.
const PUTTER: u8 = 1;

/// Two workers, one shard for each map, room for as many calls as the frames make.
pub(crate) fn options() -> Options
    ensures { result ≡ bench_options }
{
    Options {
        workers: 2,
        shards: 1,
        journal: 16384,
    }
}

/// The first bytes as a key of this size.
fn key_of(bytes: &[u8], size: u32) -> Option<Key>
    ensures size { IfSome result (λ key. length key ≡ size) }
    ensures bytes { IfSome result (λ key. All (λ byte. byte < 256) key) }
{
    let bytes = bytes.get(..size as usize)?;
    Key::of(bytes)
}

/// The first bytes as a value of this size.
fn value_of(bytes: &[u8], size: u32) -> Option<Value>
    ensures size { IfSome result (λ value. length value ≡ size) }
    ensures bytes { IfSome result (λ value. All (λ byte. byte < 256) value) }
{
    let bytes = bytes.get(..size as usize)?;
    Value::of(bytes)
}

/// The map at a place.
fn definition_at(maps: &[MapDef], map: u32) -> Option<MapDef>
    ensures { result ≡ slice_get maps.now map }
{
    maps.get(map as usize).copied()
}

/// Sets the value of a key. Fails where there is no such map, the bytes are too few for it, the map refuses, or its journal is full.
fn put_one(port: &mut PlainPort, maps: &[MapDef], put: &Put) -> Result<(), Error>
    requires { port.old.image.now.maps ≡ maps.now }
    ensures { IsSamePort port.old port.new }
{
    let map = put.map.place();
    let Some(definition) = definition_at(maps, map) else {
        bail!("there is no map {map}");
    };
    let Some(key) = key_of(&put.key, definition.key_size) else {
        bail!("map {map} has longer keys");
    };
    let Some(value) = value_of(&put.value, definition.value_size) else {
        bail!("map {map} has longer values");
    };
    match port.update(map, &key, &value, 0)? {
        0 => Ok(()),
        answer => bail!("map {map} answers {answer}"),
    }
}

/// The slots of the lookup table.
fn put_slots(port: &mut PlainPort, maps: &[MapDef]) -> Result<(), Error>
    requires { port.old.image.now.maps ≡ maps.now }
    ensures { IsSamePort port.old port.new }
{
    'slots: for slot in 0..SIZE {
        put_one(port, maps, &FrameRow::slot_put(slot))?;
    }
    Ok(())
}

/// The service and the notes of the frames' flows.
fn put_flows(port: &mut PlainPort, maps: &[MapDef], row: &FrameRow) -> Result<(), Error>
    requires { port.old.image.now.maps ≡ maps.now }
    ensures { IsSamePort port.old port.new }
{
    'frames: for number in 0..FRAMES {
        let Some(flow) = flow_of(&frame_bytes(row, number)) else {
            continue;
        };
        if let Some(put) = row.vip_put(&flow) {
            put_one(port, maps, &put)?;
        }
        if let Some(put) = row.noted_put(&flow) {
            put_one(port, maps, &put)?;
        }
    }
    Ok(())
}

/// What the maps hold before the frames of the row come.
fn put_all(port: &mut PlainPort, maps: &[MapDef], row: &FrameRow) -> Result<(), Error>
    requires { port.old.image.now.maps ≡ maps.now }
    ensures { IsSamePort port.old port.new }
{
    put_one(port, maps, &tunnel_put())?;
    put_one(port, maps, &row.backend_put(0))?;
    put_one(port, maps, &row.backend_put(1))?;
    put_slots(port, maps)?;
    put_flows(port, maps, row)
}

/// The same, in a session of its own.
pub(crate) fn put_session(
    image: &Image,
    shards: &mut PlainShards,
    row: &FrameRow,
) -> Result<(), Error>
    requires options { AreOptions image.now.maps bench_options }
    requires shards { ServesMaps image.now.maps bench_options shards.old }
    ensures { ServesMaps image.now.maps bench_options shards.new }
{
    let mut port = PlainPort::over(image, options(), shards, PUTTER);
    let put = put_all(&mut port, image.maps(), row);
    port.finish();
    put
}
