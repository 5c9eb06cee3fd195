//! Sessions over the six maps: one worker puts what they are to hold, another runs the program. So every journal says whose its entries
//! are.

ghost use Rattle.std.specs.Prelude.{◌≡◌, ◌<◌, All, IfSome, length, slice_get};
ghost use Rattle.semantics.specs.ShardPlan.{AreOptions};
ghost use Rattle.shard_port.specs.PortView.{ServesMaps};
ghost use Rattle.shard_port.specs.PlainPorts.{IsSamePort};
ghost use Rattle.replay_tests.specs.SessionOptions.{session_options};

use super::worlds::{Keys, World};
use ebpf_decode::{Image, MapDef};
use machine::{Exit, MapPort, Moment, Stop, run};
use semantics::{JournalFull, Key, Options, Value};
use shard_port::PlainPort;
use shard_port::laws::stays_one_port;
use shards::PlainShards;
use verifier::Verified;
use wire::Frame;

/// Who runs the program, and who puts the records.
pub(super) const RUNNER: u8 = 0;

pub(super) const PUTTER: u8 = 1;

const MOMENT: Moment = Moment {
    now_ns: 0,
    worker: RUNNER,
};

/// Two workers, one shard for each map, room for a thousand calls.
pub(super) fn options() -> Options
    ensures { result ≡ session_options }
{
    Options {
        workers: 2,
        shards: 1,
        journal: 1024,
    }
}

/// The map at a place.
fn definition_at(maps: &[MapDef], map: u32) -> Option<MapDef>
    ensures { result ≡ slice_get maps.now map }
{
    maps.get(map as usize).copied()
}

/// A key of this size.
fn key_of(bytes: &[u8], size: u32) -> Option<Key>
    ensures size { IfSome result (λ key. length key ≡ size) }
    ensures bytes { IfSome result (λ key. All (λ byte. byte < 256) key) }
{
    if bytes.len() == size as usize {
        Key::of(bytes)
    } else {
        None
    }
}

/// A value of this size.
fn value_of(bytes: &[u8], size: u32) -> Option<Value>
    ensures size { IfSome result (λ value. length value ≡ size) }
    ensures bytes { IfSome result (λ value. All (λ byte. byte < 256) value) }
{
    if bytes.len() == size as usize {
        Value::of(bytes)
    } else {
        None
    }
}

/// Sets the value of a key, if both have the map's sizes.
fn put_one(
    port: &mut PlainPort,
    maps: &[MapDef],
    map: u32,
    key: &[u8],
    value: &[u8],
) -> Result<bool, JournalFull>
    requires { port.old.image.now.maps ≡ maps.now }
    ensures { IsSamePort port.old port.new }
{
    let Some(definition) = definition_at(maps, map) else {
        return Ok(false);
    };
    let Some(key) = key_of(key, definition.key_size) else {
        return Ok(false);
    };
    let Some(value) = value_of(value, definition.value_size) else {
        return Ok(false);
    };
    Ok(port.update(map, &key, &value, 0)? == 0)
}

/// Puts all that the maps hold when a frame with these keys comes.
fn put_world(
    port: &mut PlainPort,
    maps: &[MapDef],
    world: &World,
    keys: &Keys,
) -> Result<bool, JournalFull>
    requires { port.old.image.now.maps ≡ maps.now }
    ensures { IsSamePort port.old port.new }
{
    'places: for place in 0..17 {
        if let Some(put) = world.put(keys, place)
            && !put_one(port, maps, put.map(), put.key(), put.value())?
        {
            return Ok(false);
        }
    }
    Ok(true)
}

/// What one map holds under one key.
pub(super) type Record = (u32, &'static [u8], &'static [u8]);

/// Puts these records.
fn put_records(
    port: &mut PlainPort,
    maps: &[MapDef],
    records: &[Record],
) -> Result<bool, JournalFull>
    requires { port.old.image.now.maps ≡ maps.now }
    ensures { IsSamePort port.old port.new }
{
    'records: for (map, key, value) in records {
        if !put_one(port, maps, *map, key, value)? {
            return Ok(false);
        }
    }
    Ok(true)
}

/// Puts these records in a session of its own.
pub(super) fn records_session(
    image: &Image,
    shards: &mut PlainShards,
    records: &[Record],
) -> Result<bool, JournalFull>
    requires options { AreOptions image.now.maps session_options }
    requires shards { ServesMaps image.now.maps session_options shards.old }
    ensures { ServesMaps image.now.maps session_options shards.new }
{
    let mut port = PlainPort::over(image, options(), shards, PUTTER);
    let is_put = put_records(&mut port, image.maps(), records);
    port.finish();
    is_put
}

/// Puts what the maps hold when a frame with these keys comes, in a session of its own.
pub(super) fn put_session(
    image: &Image,
    shards: &mut PlainShards,
    world: &World,
    keys: &Keys,
) -> Result<bool, JournalFull>
    requires options { AreOptions image.now.maps session_options }
    requires shards { ServesMaps image.now.maps session_options shards.old }
    ensures { ServesMaps image.now.maps session_options shards.new }
{
    let mut port = PlainPort::over(image, options(), shards, PUTTER);
    let is_put = put_world(&mut port, image.maps(), world, keys);
    port.finish();
    is_put
}

/// `run` at the port of a single caller, which is the same port after it.
fn run_at(verified: &Verified, frame: &mut Frame, port: &mut PlainPort) -> Result<Exit, Stop>
    requires maps { port.old.image.now.maps ≡ verified.now.maps }
    requires headroom { frame.old.headroom ≡ 256 }
    ensures { IsSamePort port.old port.new }
{
    stays_one_port();
    run(verified, frame, &MOMENT, port)
}

/// One run.
pub(super) fn run_session(
    verified: &Verified,
    shards: &mut PlainShards,
    frame: &mut Frame,
) -> Result<Exit, Stop>
    requires options { AreOptions verified.now.maps session_options }
    requires shards { ServesMaps verified.now.maps session_options shards.old }
    requires headroom { frame.old.headroom ≡ 256 }
    ensures { ServesMaps verified.now.maps session_options shards.new }
{
    let mut port = PlainPort::over(verified.image(), options(), shards, RUNNER);
    let ended = run_at(verified, frame, &mut port);
    port.finish();
    ended
}
