//! Rows that call a port.

mod passes;

ghost use Rattle.std.specs.Prelude.{◌≡◌, ◌<◌, ◌≤◌, IfOk, OnOk, All, length};
ghost use Rattle.semantics.specs.ShardPlan.{AreOptions};
ghost use Rattle.map_port.specs.Served.{IsReadable};
ghost use Rattle.shard_port.specs.PortView.{ServesMaps};
ghost use Rattle.shard_tests.specs.ExampleMaps.{array_of, hash_map_of, example_maps};

use crate::asserting::{holds, same};
use ebpf_decode::{Image, Insn, MapDef, MapKind, Version};
use isa::AtomicOp;
use map_port::MapPort;
use semantics::{Call, Caller, CellRef, Entry, JournalFull, Key, Options, Reply, Value};
use shard_port::laws::opened_serve;
use shard_port::plain::PlainPort;
use shards::PlainShards;
use std::alloc::Global;
use std::process::Abort;
use std::test::Fail;

/// A call in one row of a table: map, index, and what else it takes.
#[derive(Clone, Copy)]
enum PortCall {
    Look(u32, u32),
    /// The first eight bytes of the index's cell.
    Load(u32, u32),
    Store(u32, u32, u64),
    Add(u32, u32, u64),
    /// Number, expected.
    Swap(u32, u32, u64, u64),
    /// Byte, flags.
    Put(u32, u32, u8, u64),
    Remove(u32, u32),
}

/// What it returns: a handle, a number, or an answer.
#[derive(Clone, Copy, Debug, PartialEq, Eq)]
enum Got {
    Handle(u64),
    Number(u64),
    Nothing,
    Answer(i32),
}

type Row = (&'static str, PortCall, Got);

/// An image of two arrays and a hash map.
fn example_image<R: Abort>(rt: &R, alloc: Global) -> Result<Image, Fail>
    ensures maps { IfOk result (λ image. image.maps ≡ example_maps) }
{
    let mut maps = Vec::new(alloc);
    maps.push(array_of(1))?;
    maps.push(array_of(3))?;
    maps.push(hash_of(2))?;
    let mut code = Vec::new(alloc);
    code.push(Insn::Exit).expect(rt, "code");
    Ok(Image::of(Version::V1, maps, code)?)
}

fn array_of(max_entries: u32) -> MapDef
    ensures { result ≡ array_of max_entries }
{
    MapDef {
        kind: MapKind::Array,
        key_size: 4,
        value_size: 8,
        max_entries,
    }
}

fn hash_of(max_entries: u32) -> MapDef
    ensures { result ≡ hash_map_of max_entries }
{
    MapDef {
        kind: MapKind::Hash,
        key_size: 4,
        value_size: 8,
        max_entries,
    }
}

fn key_of(index: u32) -> Key
    ensures size { length result ≡ 4 }
    ensures bytes { All (λ byte. byte < 256) result }
{
    let mut key = Key::empty();
    let bytes = index.to_le_bytes();
    key.append(&bytes);
    key
}

fn value_of(byte: u8) -> Value
    ensures size { length result ≡ 8 }
    ensures bytes { All (λ byte. byte < 256) result }
{
    let mut value = Value::empty();
    let bytes = [byte; 8];
    value.append(&bytes);
    value
}

/// Looks an index up.
fn look<P: MapPort>(port: &mut P, map: u32, index: u32) -> Result<u64, JournalFull>
    requires maps { (P.serves port.old).maps ≡ example_maps }
    requires map { map < 3 }
    ensures same { OnOk result (P.serves port.new ≡ P.serves port.old) }
    ensures held { IfOk result
        (λ handle. 0 < handle → IsReadable (P.serves port.new) (P.has_handed_out port.new) (P.cell_of port.new handle) 0 8) }
{
    port.lookup(map, &key_of(index))
}

fn load<P: MapPort>(port: &mut P, map: u32, index: u32) -> Result<Got, JournalFull>
    requires maps { (P.serves port.old).maps ≡ example_maps }
    requires map { map < 3 }
    ensures { OnOk result (P.serves port.new ≡ P.serves port.old) }
{
    let handle = look(port, map, index)?;
    if handle == 0 {
        return Ok(Got::Nothing);
    }
    let number = port.load(handle, 0, 8)?;
    Ok(Got::Number(number))
}

fn store<P: MapPort>(port: &mut P, map: u32, index: u32, value: u64) -> Result<Got, JournalFull>
    requires maps { (P.serves port.old).maps ≡ example_maps }
    requires map { map < 3 }
    ensures { OnOk result (P.serves port.new ≡ P.serves port.old) }
{
    let handle = look(port, map, index)?;
    if handle != 0 {
        port.store(handle, 0, 8, value)?;
    }
    Ok(Got::Nothing)
}

fn add<P: MapPort>(port: &mut P, map: u32, index: u32, value: u64) -> Result<Got, JournalFull>
    requires maps { (P.serves port.old).maps ≡ example_maps }
    requires map { map < 3 }
    ensures { OnOk result (P.serves port.new ≡ P.serves port.old) }
{
    let handle = look(port, map, index)?;
    if handle == 0 {
        return Ok(Got::Nothing);
    }
    let number = port.atomic(handle, 0, 8, AtomicOp::FetchAdd, value, 0)?;
    Ok(Got::Number(number))
}

fn swap<P: MapPort>(
    port: &mut P,
    map: u32,
    index: u32,
    value: u64,
    expected: u64,
) -> Result<Got, JournalFull>
    requires maps { (P.serves port.old).maps ≡ example_maps }
    requires map { map < 3 }
    ensures { OnOk result (P.serves port.new ≡ P.serves port.old) }
{
    let handle = look(port, map, index)?;
    if handle == 0 {
        return Ok(Got::Nothing);
    }
    let number = port.atomic(handle, 0, 8, AtomicOp::CompareExchange, value, expected)?;
    Ok(Got::Number(number))
}

fn put<P: MapPort>(
    port: &mut P,
    map: u32,
    index: u32,
    byte: u8,
    flags: u64,
) -> Result<Got, JournalFull>
    requires maps { (P.serves port.old).maps ≡ example_maps }
    requires map { map < 3 }
    ensures { OnOk result (P.serves port.new ≡ P.serves port.old) }
{
    let answer = port.update(map, &key_of(index), &value_of(byte), flags)?;
    Ok(Got::Answer(answer))
}

fn remove<P: MapPort>(port: &mut P, map: u32, index: u32) -> Result<Got, JournalFull>
    requires maps { (P.serves port.old).maps ≡ example_maps }
    requires map { map < 3 }
    ensures { OnOk result (P.serves port.new ≡ P.serves port.old) }
{
    let answer = port.delete(map, &key_of(index))?;
    Ok(Got::Answer(answer))
}

/// Makes the call of a row.
fn answer<P: MapPort>(port: &mut P, ask: PortCall) -> Result<Got, JournalFull>
    requires { (P.serves port.old).maps ≡ example_maps }
    ensures { OnOk result (P.serves port.new ≡ P.serves port.old) }
{
    match ask {
        PortCall::Look(map, index) => match look(port, map.min(2), index) {
            Ok(handle) => Ok(Got::Handle(handle)),
            Err(full) => Err(full),
        },
        PortCall::Load(map, index) => load(port, map.min(2), index),
        PortCall::Store(map, index, value) => store(port, map.min(2), index, value),
        PortCall::Add(map, index, value) => add(port, map.min(2), index, value),
        PortCall::Swap(map, index, value, expected) => {
            swap(port, map.min(2), index, value, expected)
        }
        PortCall::Put(map, index, byte, flags) => put(port, map.min(2), index, byte, flags),
        PortCall::Remove(map, index) => remove(port, map.min(2), index),
    }
}

/// Makes the calls of the rows in turn, up to the first that is refused.
fn answers<P: MapPort>(rt: &impl Abort, port: &mut P, rows: &[Row]) -> Option<JournalFull>
    requires { (P.serves port.old).maps ≡ example_maps }
{
    for (name, ask, want) in rows {
        match answer(port, *ask) {
            Ok(got) => same(rt, name, &got, want),
            Err(full) => return Some(full),
        }
    }
    None
}

/// One run of worker 1: the calls of the rows, and what its port leaves.
fn run(
    rt: &impl Abort,
    image: &Image,
    options: Options,
    shards: &mut PlainShards,
    rows: &[Row],
) -> Option<JournalFull>
    requires maps { image.now.maps ≡ example_maps }
    requires options { AreOptions image.now.maps options }
    requires shards { ServesMaps image.now.maps options shards.old }
    requires worker { 1 < options.workers }
{
    let mut port = PlainPort::over(image, options, shards, 1);
    let refused = answers(rt, &mut port, rows);
    port.finish();
    refused
}

fn options_of(journal: u32) -> Options
    ensures { result.workers ≡ 2 }
{
    Options {
        workers: 2,
        shards: 1,
        journal,
    }
}

/// A call that a shard's journal has.
#[derive(Clone, Copy)]
enum Made {
    Enter,
    Leave,
    /// An index.
    Look(u32),
    /// The first eight bytes of a cell.
    Load(u64),
}

/// How many entries that are the same, their call, and its reply.
type Entered = (u32, Made, Reply);

/// A name, a shard, and the entries that its journal is to have.
type Says = (&'static str, u32, &'static [Entered]);

fn call_of(shard: u32, made: Made) -> Call {
    match made {
        Made::Enter => Call::Enter { shard },
        Made::Leave => Call::Leave { shard },
        Made::Look(index) => Call::Lookup {
            shard,
            key: key_of(index),
        },
        Made::Load(id) => Call::Load {
            cell: CellRef { shard, id },
            offset: 0,
            size: 8,
        },
    }
}

/// An entry of worker 1.
fn entry_of(shard: u32, made: Made, reply: Reply) -> Entry {
    Entry {
        who: Caller::Worker { number: 1 },
        call: call_of(shard, made),
        reply,
    }
}

/// An entry of a shard's journal; None past its end.
fn entry_at(shards: &mut PlainShards, number: u32, place: usize) -> Option<Entry> {
    if number as usize >= shards.count() {
        return None;
    }
    let journal = shards.shard(number).journal();
    if place < journal.len() && journal.keeps_rows() {
        Some(journal.entry(place))
    } else {
        None
    }
}

/// Compares all entries of a shard's journal, each as what was asked and what was replied.
fn says(rt: &impl Abort, shards: &mut PlainShards, name: &str, number: u32, want: &[Entered]) {
    holds(rt, name, (number as usize) < shards.count());
    let mut place: usize = 0;
    for (times, made, reply) in want {
        for _ in 0..*times {
            let wanted = entry_of(number, *made, *reply);
            same(rt, name, &entry_at(shards, number, place), &Some(wanted));
            place = place.saturating_add(1);
        }
    }
    same(rt, name, &entry_at(shards, number, place), &None);
}

/// One run of worker 1 on new shards: compares what it is refused, and the entries that it leaves.
fn session(
    rt: &impl Abort,
    alloc: Global,
    journal: u32,
    rows: &[Row],
    refused: Option<JournalFull>,
    entries: &[Says],
) -> Result<(), Fail> {
    let image = example_image(rt, alloc)?;
    let options = options_of(journal);
    let mut shards = PlainShards::open(alloc, &image, options)?;
    opened_serve();
    let found = run(rt, &image, options, &mut shards, rows);
    same(rt, "what is refused", &found, &refused);
    for (name, number, want) in entries {
        says(rt, &mut shards, name, *number, want);
    }
    Ok(())
}

#[rattlefmt::skip]
const ONE_SHARD: [Row; 3] = [
    ("index 0 has the first handle", PortCall::Look(0, 0), Got::Handle(1)),
    ("it holds zeros",               PortCall::Load(0, 0), Got::Number(0)),
    ("index 1 is none of one",       PortCall::Look(0, 1), Got::Handle(0)),
];

#[rattlefmt::skip]
const ONE_SHARD_ENTERED: [Entered; 6] = [
    (1, Made::Enter,   Reply::Entered),
    (1, Made::Look(0), Reply::Cell { cell: CellRef { shard: 0, id: 0 } }),
    (1, Made::Look(0), Reply::Cell { cell: CellRef { shard: 0, id: 0 } }),
    (1, Made::Load(0), Reply::Word { value: 0 }),
    (1, Made::Look(1), Reply::Null),
    (1, Made::Leave,   Reply::Left),
];

const ONE_SHARD_SAYS: [Says; 2] = [
    ("the first shard", 0, &ONE_SHARD_ENTERED),
    ("the second shard", 1, &[]),
];

/// A run that calls one of two shards enters it once, before its first call, and leaves it at the end.
#[test]
fn one_session_in_one_shard(rt: HostRuntime) -> Result<(), Fail> {
    session(&rt, rt.alloc(), 64, &ONE_SHARD, None, &ONE_SHARD_SAYS)
}

#[rattlefmt::skip]
const TWO_SHARDS: [Row; 4] = [
    ("the last index of the second map",   PortCall::Look(1, 2), Got::Handle(0x1_0000_0003)),
    ("the first map's, in between",        PortCall::Look(0, 0), Got::Handle(1)),
    ("the second map's once more",         PortCall::Look(1, 0), Got::Handle(0x1_0000_0001)),
    ("index 3 is none of three",           PortCall::Look(1, 3), Got::Handle(0)),
];

#[rattlefmt::skip]
const FIRST_ENTERED: [Entered; 3] = [
    (1, Made::Enter,   Reply::Entered),
    (1, Made::Look(0), Reply::Cell { cell: CellRef { shard: 0, id: 0 } }),
    (1, Made::Leave,   Reply::Left),
];

#[rattlefmt::skip]
const SECOND_ENTERED: [Entered; 5] = [
    (1, Made::Enter,   Reply::Entered),
    (1, Made::Look(2), Reply::Cell { cell: CellRef { shard: 1, id: 2 } }),
    (1, Made::Look(0), Reply::Cell { cell: CellRef { shard: 1, id: 0 } }),
    (1, Made::Look(3), Reply::Null),
    (1, Made::Leave,   Reply::Left),
];

const TWO_SHARDS_SAY: [Says; 2] = [
    ("the first shard", 0, &FIRST_ENTERED),
    ("the second shard", 1, &SECOND_ENTERED),
];

#[test]
fn one_session_in_each_shard(rt: HostRuntime) -> Result<(), Fail> {
    session(&rt, rt.alloc(), 64, &TWO_SHARDS, None, &TWO_SHARDS_SAY)
}

const FIFTEEN_LOOKUPS: [Row; 15] = [(
    "a lookup",
    PortCall::Look(1, 0),
    Got::Handle(0x1_0000_0001),
); 15];

#[rattlefmt::skip]
const SIXTEEN_ENTERED: [Entered; 3] = [
    (1,  Made::Enter,   Reply::Entered),
    (14, Made::Look(0), Reply::Cell { cell: CellRef { shard: 1, id: 0 } }),
    (1,  Made::Leave,   Reply::Left),
];

const SIXTEEN_SAY: [Says; 1] = [("the second shard", 1, &SIXTEEN_ENTERED)];

const SECOND_IS_FULL: JournalFull = JournalFull { shard: 1 };

/// With one run inside, the sixteenth entry is its Leave's: the fifteenth call is refused with the shard's number.
#[test]
fn last_entry_is_the_leave(rt: HostRuntime) -> Result<(), Fail> {
    same(&rt, "the fault's number", &SECOND_IS_FULL.number(), &50);
    session(
        &rt,
        rt.alloc(),
        16,
        &FIFTEEN_LOOKUPS,
        Some(SECOND_IS_FULL),
        &SIXTEEN_SAY,
    )
}

#[rattlefmt::skip]
static ANSWERS: [Row; 16] = [
    ("a store",                             PortCall::Store(1, 1, 0x0102),      Got::Nothing),
    ("is read back",                        PortCall::Load(1, 1),               Got::Number(0x0102)),
    ("the cell beside it stays",            PortCall::Load(1, 2),               Got::Number(0)),
    ("the other map's stays",               PortCall::Load(0, 0),               Got::Number(0)),
    ("an addition gives the number before", PortCall::Add(1, 1, 0xfe),          Got::Number(0x0102)),
    ("and adds",                            PortCall::Load(1, 1),               Got::Number(0x0200)),
    ("a comparison that fails",             PortCall::Swap(1, 1, 7, 1),         Got::Number(0x0200)),
    ("changes nothing",                     PortCall::Load(1, 1),               Got::Number(0x0200)),
    ("a comparison that holds",             PortCall::Swap(1, 1, 7, 0x0200),    Got::Number(0x0200)),
    ("exchanges",                           PortCall::Load(1, 1),               Got::Number(7)),
    ("an update",                           PortCall::Put(1, 1, 3, 0),          Got::Answer(0)),
    ("sets all bytes",                      PortCall::Load(1, 1),               Got::Number(0x0303_0303_0303_0303)),
    ("an index is there under NOEXIST",     PortCall::Put(1, 1, 9, 1),          Got::Answer(-17)),
    ("an index out of range",               PortCall::Put(1, 3, 9, 0),          Got::Answer(-7)),
    ("unknown flags",                       PortCall::Put(1, 1, 9, 3),          Got::Answer(-22)),
    ("an array deletes nothing",            PortCall::Remove(1, 1),             Got::Answer(-22)),
];

#[test]
fn answers_of_an_array(rt: HostRuntime) -> Result<(), Fail> {
    session(&rt, rt.alloc(), 64, &ANSWERS, None, &[])
}

#[rattlefmt::skip]
static KEYS: [Row; 16] = [
    ("a key that nobody put",          PortCall::Look(2, 7),        Got::Handle(0)),
    ("none to replace",                PortCall::Put(2, 7, 1, 2),   Got::Answer(-2)),
    ("none to delete",                 PortCall::Remove(2, 7),      Got::Answer(-2)),
    ("is put",                         PortCall::Put(2, 7, 1, 0),   Got::Answer(0)),
    ("the map's first cell",           PortCall::Look(2, 7),        Got::Handle(0x2_0000_0001)),
    ("has the value",                  PortCall::Load(2, 7),        Got::Number(0x0101_0101_0101_0101)),
    ("the key is there under NOEXIST", PortCall::Put(2, 7, 9, 1),   Got::Answer(-17)),
    ("a second key",                   PortCall::Put(2, 8, 2, 1),   Got::Answer(0)),
    ("no room for a third",            PortCall::Put(2, 9, 3, 0),   Got::Answer(-7)),
    ("a number is added",              PortCall::Add(2, 8, 1),      Got::Number(0x0202_0202_0202_0202)),
    ("to that key's value alone",      PortCall::Load(2, 7),        Got::Number(0x0101_0101_0101_0101)),
    ("the first key is deleted",       PortCall::Remove(2, 7),      Got::Answer(0)),
    ("and is gone",                    PortCall::Look(2, 7),        Got::Handle(0)),
    ("the third fits now",             PortCall::Put(2, 9, 3, 0),   Got::Answer(0)),
    ("in a cell of its own",           PortCall::Look(2, 9),        Got::Handle(0x2_0000_0003)),
    ("a key of a hash map is none of the array's", PortCall::Look(1, 7), Got::Handle(0)),
];

#[test]
fn answers_of_a_hash_map(rt: HostRuntime) -> Result<(), Fail> {
    session(&rt, rt.alloc(), 64, &KEYS, None, &[])
}

/// One run of worker 1 that looks one index of the first map up.
fn look_once(
    image: &Image,
    options: Options,
    shards: &mut PlainShards,
    index: u32,
) -> Result<u64, JournalFull>
    requires maps { image.now.maps ≡ example_maps }
    requires options { AreOptions image.now.maps options }
    requires shards { ServesMaps image.now.maps options shards.old }
    requires worker { 1 < options.workers }
    ensures { ServesMaps image.now.maps options shards.new }
{
    let mut port = PlainPort::over(image, options, shards, 1);
    let result = port.lookup(0, &key_of(index));
    port.finish();
    result
}

#[rattlefmt::skip]
const TWO_SESSIONS: [Entered; 6] = [
    (1, Made::Enter,   Reply::Entered),
    (1, Made::Look(0), Reply::Cell { cell: CellRef { shard: 0, id: 0 } }),
    (1, Made::Leave,   Reply::Left),
    (1, Made::Enter,   Reply::Entered),
    (1, Made::Look(1), Reply::Null),
    (1, Made::Leave,   Reply::Left),
];

/// A second run has a session of its own.
#[test]
fn one_session_for_each_run(rt: HostRuntime) -> Result<(), Fail> {
    let image = example_image(&rt, rt.alloc())?;
    let options = options_of(64);
    let mut shards = PlainShards::open(rt.alloc(), &image, options)?;
    opened_serve();
    same(
        &rt,
        "index 0",
        &look_once(&image, options, &mut shards, 0),
        &Ok(1),
    );
    same(
        &rt,
        "index 1",
        &look_once(&image, options, &mut shards, 1),
        &Ok(0),
    );
    says(&rt, &mut shards, "the first shard", 0, &TWO_SESSIONS);
    Ok(())
}
