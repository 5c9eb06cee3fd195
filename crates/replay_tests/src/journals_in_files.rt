//! Files written by hand: whole ones, each line's neighbours, and devices that fail.

use crate::asserting::{holds, holds_at, prints, same, same_at, same_bytes};
use ebpf_decode::{Image, Insn, MapDef, MapKind, Version};
use journals::{FileFault, Journals, ShardJournal, read_journals, write_journals};
use semantics::{Call, Caller, CellRef, Entry, Key, Reply, Value};
use std::alloc::Global;
use std::process::Abort;
use std::test::Fail;
use test_support::files::COUNTED_TO_THREE;
use test_support::slow_devices::{SlowSink, SlowSource};
use wire::{MemorySink, MemorySource, Sink, Source};

/// A worker writes half of a key's value, reads it, and deletes the key; its cell is freed.
const DELETED: &str = "XLBJ 1 1 1 16
0 w0 enter ok
0 w0 update 07000000 0200000000000000 0 answer 0
0 w0 lookup 07000000 cell 0
0 w0 store 0 4 4 9 ok
0 w0 load 0 4 4 word 9
0 w0 delete 07000000 answer 0
0 w0 leave ok
0 r reclaim freed 1
";

/// An image of hash maps with keys of 4 bytes and values of 8, each with room for this many keys.
fn image(rt: &impl Abort, alloc: Global, rooms: &[u32]) -> Image {
    let mut maps = Vec::new(alloc);
    for room in rooms {
        let map = MapDef {
            kind: MapKind::Hash,
            key_size: 4,
            value_size: 8,
            max_entries: *room,
        };
        maps.push(map).expect(rt, "room");
    }
    let mut code = Vec::new(alloc);
    code.push(Insn::Exit).expect(rt, "room");
    Image::of(Version::V1, maps, code).expect(rt, "an image")
}

/// What is read of a file; of one of more than 1000 bytes nothing is read.
fn read(
    rt: &impl Abort,
    alloc: Global,
    rooms: &[u32],
    bytes: &[u8],
) -> Result<Journals, FileFault> {
    let image = image(rt, alloc, rooms);
    let bytes = if bytes.len() <= 1000 { bytes } else { &[] };
    read_journals(alloc, &mut MemorySource::new(bytes), &image)
}

/// What is wrong with a file, if anything is.
fn fault_of(rt: &impl Abort, alloc: Global, rooms: &[u32], bytes: &[u8]) -> Option<FileFault> {
    read(rt, alloc, rooms, bytes).err()
}

fn key(bytes: &[u8]) -> Key {
    match Key::of(bytes) {
        Some(key) => key,
        None => Key::empty(),
    }
}

fn value(bytes: &[u8]) -> Value {
    match Value::of(bytes) {
        Some(value) => value,
        None => Value::empty(),
    }
}

/// What a line says.
type Line = (Caller, Call, Reply);

const WORKER: Caller = Caller::Worker { number: 0 };

/// The first cell of the first shard.
const CELL: CellRef = CellRef { shard: 0, id: 0 };

/// Key 7 gets the value 2.
fn update() -> Line {
    let call = Call::Update {
        shard: 0,
        key: key(&[7, 0, 0, 0]),
        value: value(&[2, 0, 0, 0, 0, 0, 0, 0]),
        flags: 0,
    };
    (WORKER, call, Reply::Answer { code: 0 })
}

/// Key 7 has the first cell.
fn lookup() -> Line {
    let call = Call::Lookup {
        shard: 0,
        key: key(&[7, 0, 0, 0]),
    };
    (WORKER, call, Reply::Cell { cell: CELL })
}

fn load(offset: u64, size: u64, value: u64) -> Line {
    let call = Call::Load {
        cell: CELL,
        offset,
        size,
    };
    (WORKER, call, Reply::Word { value })
}

/// What the file of the addition says, line by line.
fn added() -> [Line; 7] {
    let addition = Call::Atomic {
        cell: CELL,
        offset: 0,
        size: 8,
        op: 1,
        value: 1,
        expected: 0,
    };
    [
        (WORKER, Call::Enter { shard: 0 }, Reply::Entered),
        update(),
        lookup(),
        (WORKER, addition, Reply::Word { value: 2 }),
        load(0, 8, 3),
        (WORKER, Call::Leave { shard: 0 }, Reply::Left),
        (
            Caller::Reclaimer,
            Call::Reclaim { shard: 0 },
            Reply::Freed { count: 0 },
        ),
    ]
}

/// What the file of the deletion says, line by line.
fn deleted() -> [Line; 8] {
    let store = Call::Store {
        cell: CELL,
        offset: 4,
        size: 4,
        value: 9,
    };
    let delete = Call::Delete {
        shard: 0,
        key: key(&[7, 0, 0, 0]),
    };
    [
        (WORKER, Call::Enter { shard: 0 }, Reply::Entered),
        update(),
        lookup(),
        (WORKER, store, Reply::Done),
        load(4, 4, 9),
        (WORKER, delete, Reply::Answer { code: 0 }),
        (WORKER, Call::Leave { shard: 0 }, Reply::Left),
        (
            Caller::Reclaimer,
            Call::Reclaim { shard: 0 },
            Reply::Freed { count: 1 },
        ),
    ]
}

/// Compares a journal with what its file says, line by line.
fn are_lines(rt: &impl Abort, journal: &ShardJournal<'_>, wanted: &[Line]) {
    same(rt, "entries", &journal.len(), &wanted.len());
    for (place, (who, call, reply)) in wanted.iter().enumerate() {
        let entry = Entry {
            who: *who,
            call: *call,
            reply: *reply,
        };
        let is_there = place < journal.len() && journal.entry(place) == entry;
        holds_at(rt, "entry", place as u64, is_there);
    }
}

/// Compares the file that is written of journals.
fn makes_the_file(rt: &impl Abort, alloc: Global, journals: &Journals, text: &str) {
    let mut sink = MemorySink::new(alloc);
    holds(rt, "rows", journals.keeps_rows());
    write_journals(alloc, &mut sink, journals).expect(rt, "a file");
    same_bytes(rt, "what is written", sink.bytes(), text.as_bytes());
}

/// Holds what is read of a file against what it says, and what is written then against the file.
fn compare(rt: &impl Abort, alloc: Global, text: &str, wanted: &[Line]) {
    let journals = read(rt, alloc, &[1], text.as_bytes()).expect(rt, "journals");
    holds(rt, "one journal", journals.count() == 1);
    same(rt, "workers", &journals.options().workers, &1);
    same(rt, "size of journals", &journals.options().journal, &16);
    holds(rt, "rows", journals.keeps_rows());
    are_lines(rt, &journals.journal(0), wanted);
    makes_the_file(rt, alloc, &journals, text);
}

#[test]
fn file_of_an_addition(rt: HostRuntime) {
    compare(&rt, rt.alloc(), COUNTED_TO_THREE, &added());
}

#[test]
fn file_of_a_deletion(rt: HostRuntime) {
    compare(&rt, rt.alloc(), DELETED, &deleted());
}

/// What a row shows, for how many keys each map has room, a file, and the first bad line if there is one.
type FileRow = (&'static str, &'static [u32], &'static str, Option<usize>);

/// Headers, the forms of lines, and shards.
#[rattlefmt::skip]
const FILES: [FileRow; 30] = [
    ("nothing",                    &[1], "",                                   Some(1)),
    ("a header",                   &[1], "XLBJ 1 1 1 16\n",                    None),
    ("no map",                     &[],  "XLBJ 1 8 8 1048576\n",               None),
    ("an entry without a map",     &[],  "XLBJ 1 1 1 16\n0 r reclaim freed 0\n", Some(2)),
    ("a header without a feed",    &[1], "XLBJ 1 1 1 16",                      Some(1)),
    ("version 2",                  &[1], "XLBJ 2 1 1 16\n",                    Some(1)),
    ("nine workers",               &[1], "XLBJ 1 9 1 16\n",                    Some(1)),
    ("three shards",               &[3], "XLBJ 1 1 3 16\n",                    Some(1)),
    ("two shards of one key",      &[1], "XLBJ 1 1 2 16\n",                    Some(1)),
    ("a journal of 15",            &[1], "XLBJ 1 1 1 15\n",                    Some(1)),
    ("a leading zero",             &[1], "XLBJ 1 01 1 16\n",                   Some(1)),
    ("a header with a space",      &[1], "XLBJ 1 1 1 16 \n",                   Some(1)),
    ("an entry",                   &[1], "XLBJ 1 1 1 16\n0 w0 enter ok\n",     None),
    ("worker 7 of one worker",     &[1], "XLBJ 1 1 1 16\n0 w7 enter ok\n",     None),
    ("no feed at the end",         &[1], "XLBJ 1 1 1 16\n0 w0 enter ok",       Some(2)),
    ("a space at the end",         &[1], "XLBJ 1 1 1 16\n0 w0 enter ok \n",    Some(2)),
    ("two spaces",                 &[1], "XLBJ 1 1 1 16\n0  w0 enter ok\n",    Some(2)),
    ("a carriage return",          &[1], "XLBJ 1 1 1 16\n0 w0 enter ok\r\n",   Some(2)),
    ("an empty line",              &[1], "XLBJ 1 1 1 16\n\n",                  Some(2)),
    ("worker 8",                   &[1], "XLBJ 1 1 1 16\n0 w8 enter ok\n",     Some(2)),
    ("worker 00",                  &[1], "XLBJ 1 1 1 16\n0 w00 enter ok\n",    Some(2)),
    ("nobody",                     &[1], "XLBJ 1 1 1 16\n0 x enter ok\n",      Some(2)),
    ("no reply",                   &[1], "XLBJ 1 1 1 16\n0 w0 enter\n",        Some(2)),
    ("another reply",              &[1], "XLBJ 1 1 1 16\n0 w0 enter null\n",   Some(2)),
    ("no such shard",              &[1], "XLBJ 1 1 1 16\n1 w0 enter ok\n",     Some(2)),
    ("the second map's shard",     &[1, 1], "XLBJ 1 1 1 16\n1 w0 enter ok\n",  None),
    ("the fourth shard",           &[2, 2], "XLBJ 1 1 2 16\n3 w0 enter ok\n",  None),
    ("the fifth shard",            &[2, 2], "XLBJ 1 1 2 16\n4 w0 enter ok\n",  Some(2)),
    ("shards in order",            &[2], "XLBJ 1 2 2 16\n0 w1 enter ok\n1 w1 enter ok\n1 w1 leave ok\n", None),
    ("shards out of order",        &[2], "XLBJ 1 2 2 16\n0 w1 enter ok\n1 w1 enter ok\n0 w1 leave ok\n", Some(4)),
];

/// Keys, values, numbers and replies.
#[rattlefmt::skip]
const WORDS: [FileRow; 27] = [
    ("a key",                      &[1], "XLBJ 1 1 1 16\n0 c delete 07000000 answer -2\n", None),
    ("a key of three bytes",       &[1], "XLBJ 1 1 1 16\n0 c delete 070000 answer 0\n",    Some(2)),
    ("a key of seven digits",      &[1], "XLBJ 1 1 1 16\n0 c delete 0700000 answer 0\n",   Some(2)),
    ("a key in upper case",        &[1], "XLBJ 1 1 1 16\n0 c delete 0700000A answer 0\n",  Some(2)),
    ("a key of no digits",         &[1], "XLBJ 1 1 1 16\n0 c delete 0700000g answer 0\n",  Some(2)),
    ("minus zero",                 &[1], "XLBJ 1 1 1 16\n0 c delete 07000000 answer -0\n", Some(2)),
    ("a plus",                     &[1], "XLBJ 1 1 1 16\n0 c delete 07000000 answer +1\n", Some(2)),
    ("the least answer",           &[1], "XLBJ 1 1 1 16\n0 c delete 07000000 answer -2147483648\n", None),
    ("one below it",               &[1], "XLBJ 1 1 1 16\n0 c delete 07000000 answer -2147483649\n", Some(2)),
    ("a value of four bytes",      &[1], "XLBJ 1 1 1 16\n0 c update 07000000 02000000 0 answer 0\n", Some(2)),
    ("an update without flags",    &[1], "XLBJ 1 1 1 16\n0 c update 07000000 0200000000000000 answer 0\n", Some(2)),
    ("unknown flags",              &[1], "XLBJ 1 1 1 16\n0 c update 07000000 0200000000000000 9 answer -22\n", None),
    ("a key that is absent",       &[1], "XLBJ 1 1 1 16\n0 w0 lookup 07000000 null\n",     None),
    ("a cell without a name",      &[1], "XLBJ 1 1 1 16\n0 w0 lookup 07000000 cell\n",     Some(2)),
    ("an answer to a lookup",      &[1], "XLBJ 1 1 1 16\n0 w0 lookup 07000000 answer 0\n", Some(2)),
    ("a load of three bytes",      &[1], "XLBJ 1 1 1 16\n0 w0 load 0 0 3 word 5\n",        None),
    ("the greatest word",          &[1], "XLBJ 1 1 1 16\n0 w0 load 0 0 8 word 18446744073709551615\n", None),
    ("one above it",               &[1], "XLBJ 1 1 1 16\n0 w0 load 0 0 8 word 18446744073709551616\n", Some(2)),
    ("a word with a zero",         &[1], "XLBJ 1 1 1 16\n0 w0 load 0 0 8 word 05\n",       Some(2)),
    ("a load without a size",      &[1], "XLBJ 1 1 1 16\n0 w0 load 0 0 word 5\n",          Some(2)),
    ("a store",                    &[1], "XLBJ 1 1 1 16\n0 w0 store 0 0 8 1 ok\n",         None),
    ("a store with a word",        &[1], "XLBJ 1 1 1 16\n0 w0 store 0 0 8 1 word 1\n",     Some(2)),
    ("an unknown operation",       &[1], "XLBJ 1 1 1 16\n0 w0 atomic 0 0 8 99 1 0 word 2\n", None),
    ("an atomic of five numbers",  &[1], "XLBJ 1 1 1 16\n0 w0 atomic 0 0 8 1 1 word 2\n",  Some(2)),
    ("an unknown verb",            &[1], "XLBJ 1 1 1 16\n0 w0 peek ok\n",                  Some(2)),
    ("freed cells",                &[1], "XLBJ 1 1 1 16\n0 r reclaim freed 3\n",           None),
    ("fewer than none",            &[1], "XLBJ 1 1 1 16\n0 r reclaim freed -1\n",          Some(2)),
];

/// Calls with other words, and other replies, than they have.
#[rattlefmt::skip]
const CALLS: [FileRow; 15] = [
    ("a leave",                     &[1], "XLBJ 1 1 1 16\n0 w0 leave ok\n", None),
    ("a leave with a number",       &[1], "XLBJ 1 1 1 16\n0 w0 leave 0 ok\n", Some(2)),
    ("a cell",                      &[1], "XLBJ 1 1 1 16\n0 w0 lookup 07000000 cell 0\n", None),
    ("the greatest cell",           &[1], "XLBJ 1 1 1 16\n0 w0 lookup 07000000 cell 18446744073709551615\n", None),
    ("a cell above it",             &[1], "XLBJ 1 1 1 16\n0 w0 lookup 07000000 cell 18446744073709551616\n", Some(2)),
    ("a lookup of two keys",        &[1], "XLBJ 1 1 1 16\n0 w0 lookup 07000000 07000000 null\n", Some(2)),
    ("a store of three numbers",    &[1], "XLBJ 1 1 1 16\n0 w0 store 0 0 8 ok\n", Some(2)),
    ("an addition",                 &[1], "XLBJ 1 1 1 16\n0 w0 atomic 0 0 8 1 1 0 word 2\n", None),
    ("an addition that is done",    &[1], "XLBJ 1 1 1 16\n0 w0 atomic 0 0 8 1 1 0 ok\n", Some(2)),
    ("an update that is done",      &[1], "XLBJ 1 1 1 16\n0 c update 07000000 0200000000000000 0 ok\n", Some(2)),
    ("a delete with flags",         &[1], "XLBJ 1 1 1 16\n0 c delete 07000000 0 answer 0\n", Some(2)),
    ("a reclaim that is done",      &[1], "XLBJ 1 1 1 16\n0 r reclaim ok\n", Some(2)),
    ("a verb in upper case",        &[1], "XLBJ 1 1 1 16\n0 w0 ENTER ok\n", Some(2)),
    ("a tab",                       &[1], "XLBJ 1 1 1 16\n0 w0\tenter ok\n", Some(2)),
    ("the third line",             &[1], "XLBJ 1 1 1 16\n0 w0 enter ok\n0 w0 leave\n",     Some(3)),
];

/// The fault of a first bad line, if there is one.
fn at_line(bad: Option<usize>) -> Option<FileFault> {
    match bad {
        Some(line) => Some(FileFault::BadJournalFile { line }),
        None => None,
    }
}

/// Holds the fault of each file against its first bad line.
fn have_bad_lines(rt: &impl Abort, alloc: Global, rows: &[FileRow]) {
    for (name, rooms, text, bad) in rows {
        let got = fault_of(rt, alloc, rooms, text.as_bytes());
        same(rt, name, &got, &at_line(*bad));
    }
}

#[test]
fn files_and_their_bad_lines(rt: HostRuntime) {
    have_bad_lines(&rt, rt.alloc(), &FILES);
    have_bad_lines(&rt, rt.alloc(), &WORDS);
    have_bad_lines(&rt, rt.alloc(), &CALLS);
}

#[rattlefmt::skip]
const NO_TEXTS: [(&str, &[u8], usize); 3] = [
    ("in the first line", &[0xff, 10],                                 1),
    ("in the third line", b"XLBJ 1 1 1 16\n0 w0 enter ok\n\xff\n", 3),
    ("after a bad line",  b"XLBJ 1 1 1 16\nbad\n\xff\n",           3),
];

#[test]
fn bytes_that_are_no_text(rt: HostRuntime) {
    for (name, bytes, line) in &NO_TEXTS {
        let got = fault_of(&rt, rt.alloc(), &[1], *bytes);
        same(&rt, *name, &got, &at_line(Some(*line)));
    }
}

/// A file of one entry.
const ENTERED: &[u8] = b"XLBJ 1 1 1 16\n0 w0 enter ok\n";

/// How many journals come from a source of this file that fails at one of its calls, and how many calls have failed.
fn read_slowly(alloc: Global, image: &Image, fails_at: u64) -> (Result<usize, FileFault>, u64) {
    let mut source = SlowSource::new(ENTERED, fails_at);
    let count = match read_journals(alloc, &mut source, image) {
        Ok(journals) => Ok(journals.count()),
        Err(fault) => Err(fault),
    };
    (count, source.failures())
}

#[test]
fn failing_source(rt: HostRuntime) {
    let image = image(&rt, rt.alloc(), &[1]);
    for fails_at in 1..31 {
        let want = if fails_at <= 29 {
            (Err(FileFault::Device), 1)
        } else {
            (Ok(1), 0)
        };
        let got = read_slowly(rt.alloc(), &image, fails_at);
        same_at(&rt, "byte by byte, failing at call", fails_at, &got, &want);
    }
}

/// Writes journals to a sink that takes this many bytes one by one and then fails, and compares what it has then.
fn write_slowly(rt: &impl Abort, alloc: Global, journals: &Journals, taken: u8) {
    let mut sink = SlowSink::new(alloc, u64::from(taken) + 1);
    holds(rt, "rows", journals.keeps_rows());
    let got = write_journals(alloc, &mut sink, journals);
    let (want, front, failures) = if taken < 28 {
        (Err(FileFault::Device), &ENTERED[..taken as usize], 1)
    } else {
        (Ok(()), ENTERED, 0)
    };
    same_at(rt, "failing after byte", u64::from(taken), &got, &want);
    same_bytes(rt, "a front of the file", sink.bytes(), front);
    same_at(
        rt,
        "failures after byte",
        u64::from(taken),
        &sink.failures(),
        &failures,
    );
}

#[test]
fn failing_sink(rt: HostRuntime) {
    let journals = read(&rt, rt.alloc(), &[1], ENTERED).expect(&rt, "journals");
    for taken in 0..30 {
        write_slowly(&rt, rt.alloc(), &journals, taken);
    }
}

#[rattlefmt::skip]
const FAULTS: [(FileFault, u8, &str); 3] = [
    (FileFault::Device,                     7,  "fault 7 Device"),
    (FileFault::Memory,                     52, "fault 52 Memory"),
    (FileFault::BadJournalFile { line: 3 }, 55, "fault 55 BadJournalFile line 3"),
];

/// Compares the number and the text of each fault.
fn compare_texts(
    rt: &impl Abort,
    alloc: Global,
    rows: &[(FileFault, u8, &str)],
) -> Result<(), Fail> {
    for (fault, number, text) in rows {
        same(rt, text, &fault.number(), number);
        prints(rt, alloc, fault, text)?;
    }
    Ok(())
}

#[test]
fn file_fault_texts(rt: HostRuntime) -> Result<(), Fail> {
    compare_texts(&rt, rt.alloc(), &FAULTS)
}
