//! Programs that look keys up, and what they leave in the journals.

ghost use Rattle.std.specs.Prelude.{◌<◌};

use super::programs::{EXIT, MOMENT, OPTIONS, Program, SMALL, accepted, look_up};
use crate::asserting::{holds_of, same_bytes_of, same_fact};
use ebpf_decode::{Insn, MapDef, Version, decode};
use guarantees::opened_shards_are_ready;
use guarantees::running::worker_run;
use isa::Register::{R0, R1, R3, R6, R10};
use isa::{Size, SourceOperand, Test};
use machine::{Exit, Stop};
use semantics::{Call, Caller, CellRef, Entry, Key, Options, Reply, Verdict};
use shards::PlainShards;
use std::alloc::Global;
use std::process::Abort;
use std::test::Fail;
use test_support::programs::{ARRAY, ONE_ENTRY};
use test_support::{add, jump, load, mov, number, put};
use verifier::{Verified, verify};
use wire::Frame;

pub(super) fn exit(verdict: Verdict, steps: u64) -> Exit {
    Exit { verdict, steps }
}

/// A run of worker 2, what it comes to, and the entries that it leaves in the journal of one shard, each as what was asked and what was
/// replied.
#[derive(Clone, Copy)]
pub(super) struct Run<'a> {
    pub(super) name: &'a str,
    pub(super) options: Options,
    pub(super) frame: &'a [u8],
    pub(super) end: Result<Exit, Stop>,
    pub(super) shard: u32,
    pub(super) entries: &'a [(Call, Reply)],
}

/// Compares the journal.
fn says(rt: &impl Abort, shards: &mut PlainShards, run: &Run<'_>) {
    holds_of(
        rt,
        run.name,
        "its shard",
        (run.shard as usize) < shards.count(),
    );
    let journal = shards.shard(run.shard).journal();
    same_fact(
        rt,
        run.name,
        "the number of entries",
        &journal.len(),
        &run.entries.len(),
    );
    holds_of(rt, run.name, "rows", journal.keeps_rows());
    for (place, (call, reply)) in run.entries.iter().enumerate() {
        if place < journal.len() {
            let wanted = Entry {
                who: Caller::Worker { number: 2 },
                call: *call,
                reply: *reply,
            };
            same_fact(rt, run.name, "an entry", &journal.entry(place), &wanted);
        }
    }
}

pub(super) fn enter(shard: u32) -> (Call, Reply) {
    (Call::Enter { shard }, Reply::Entered)
}

pub(super) fn leave(shard: u32) -> (Call, Reply) {
    (Call::Leave { shard }, Reply::Left)
}

/// A lookup of an array's index.
pub(super) fn lookup(shard: u32, index: u8, reply: Reply) -> (Call, Reply) {
    let mut key = Key::empty();
    let bytes = [index, 0, 0, 0];
    key.append(&bytes);
    (Call::Lookup { shard, key }, reply)
}

pub(super) fn found(shard: u32, id: u64) -> Reply {
    Reply::Cell {
        cell: CellRef { shard, id },
    }
}

/// A load from an array's first cell, whose bytes are zeros.
fn zeros(shard: u32, offset: u64, size: u64) -> (Call, Reply) {
    let cell = CellRef { shard, id: 0 };
    let call = Call::Load { cell, offset, size };
    (call, Reply::Word { value: 0 })
}

/// What index 0 of the array leaves in the journal, where this many of its bytes are read.
fn found_and_read(offset: u64, size: u64) -> [(Call, Reply); 4] {
    [
        enter(0),
        lookup(0, 0, found(0, 0)),
        zeros(0, offset, size),
        leave(0),
    ]
}

/// What an index that the array doesn't have leaves there.
fn not_found(index: u8) -> [(Call, Reply); 3] {
    [enter(0), lookup(0, index, Reply::Null), leave(0)]
}

/// Runs an accepted program over shards of its own, and compares. The frame is left as it was.
fn leaves(rt: &impl Abort, alloc: Global, verified: &Verified, run: &Run<'_>) -> Result<(), Fail>
    requires worker { MOMENT.worker < run.now.options.workers }
{
    let mut shards = PlainShards::open(alloc, verified.image(), run.options)?;
    opened_shards_are_ready();
    let mut frame = Frame::of(alloc, run.frame)?;
    let end = worker_run(verified, run.options, &mut shards, &MOMENT, &mut frame);
    same_fact(rt, run.name, "the end", &end, &run.end);
    same_bytes_of(rt, run.name, "the frame", frame.bytes(), run.frame);
    says(rt, &mut shards, run);
    Ok(())
}

/// The same of a program that is accepted.
pub(super) fn program_leaves(
    rt: &impl Abort,
    alloc: Global,
    program: &Program<'_>,
    run: &Run<'_>,
) -> Result<(), Fail>
    requires worker { MOMENT.worker < run.now.options.workers }
{
    let verified = accepted(rt, alloc, program);
    leaves(rt, alloc, &verified, run)
}

/// A run that looks a key up in the array, and then does this, ends so and leaves these entries.
fn looks(
    rt: &impl Abort,
    alloc: Global,
    name: &str,
    key: i32,
    tail: &[Insn],
    end: Exit,
    entries: &[(Call, Reply)],
) -> Result<(), Fail> {
    let program = Program {
        version: Version::V1,
        maps: &ARRAY,
        head: &look_up(key),
        tail,
    };
    let run = Run {
        name,
        options: OPTIONS,
        frame: &[0; 14],
        end: Ok(end),
        shard: 0,
        entries,
    };
    program_leaves(rt, alloc, &program, &run)
}

#[test]
fn a_value_past_its_null_test(rt: HostRuntime) -> Result<(), Fail> {
    let tail = [
        jump!(Test::Eq, R0, SourceOperand::Imm(0), 1),
        load!(Size::U64, R3, R0, 0),
        number!(R0, 2),
        EXIT,
    ];
    let end = exit(Verdict::Pass, 9);
    looks(
        &rt,
        rt.alloc(),
        "index 0",
        0,
        &tail,
        end,
        &found_and_read(0, 8),
    )?;
    let end = exit(Verdict::Pass, 8);
    looks(
        &rt,
        rt.alloc(),
        "index 1 of one",
        1,
        &tail,
        end,
        &not_found(1),
    )
}

/// How much is added to the pointer, and the load's offset from there.
const PARTS: [(&str, i32, i16); 3] = [("far", 0, 4), ("near", 4, 0), ("back", 6, -2)];

/// A part of a value is loaded.
fn loads_a_part(
    rt: &impl Abort,
    alloc: Global,
    name: &str,
    further: i32,
    offset: i16,
) -> Result<(), Fail> {
    let tail = [
        jump!(Test::Eq, R0, SourceOperand::Imm(0), 2),
        add!(R0, further),
        load!(Size::U16, R3, R0, offset),
        number!(R0, 2),
        EXIT,
    ];
    let end = exit(Verdict::Pass, 10);
    looks(rt, alloc, name, 0, &tail, end, &found_and_read(4, 2))
}

#[test]
fn a_part_of_a_value(rt: HostRuntime) -> Result<(), Fail> {
    for (name, further, offset) in &PARTS {
        loads_a_part(&rt, rt.alloc(), *name, *further, *offset)?;
    }
    Ok(())
}

/// What a lookup found is spilled, tested when it is back, and then read; of null 3 is made.
#[test]
fn a_spilled_value_and_a_spilled_null(rt: HostRuntime) -> Result<(), Fail> {
    let tail = [
        put!(Size::U64, R10, -16, R0),
        load!(Size::U64, R6, R10, -16),
        jump!(Test::Eq, R6, SourceOperand::Imm(0), 3),
        load!(Size::U64, R0, R6, 0),
        add!(R0, 1),
        EXIT,
        add!(R6, 3),
        mov!(R0, R6),
        EXIT,
    ];
    let end = exit(Verdict::Drop, 11);
    looks(
        &rt,
        rt.alloc(),
        "a value",
        0,
        &tail,
        end,
        &found_and_read(0, 8),
    )?;
    let end = exit(Verdict::Tx, 11);
    looks(&rt, rt.alloc(), "null", 5, &tail, end, &not_found(5))
}

/// A value that was tested is spilled, and read when it is back.
#[test]
fn a_spilled_tested_value(rt: HostRuntime) -> Result<(), Fail> {
    let tail = [
        jump!(Test::Eq, R0, SourceOperand::Imm(0), 4),
        put!(Size::U64, R10, -16, R0),
        load!(Size::U64, R6, R10, -16),
        load!(Size::U64, R0, R6, 0),
        add!(R0, 3),
        EXIT,
    ];
    let end = exit(Verdict::Tx, 11);
    looks(
        &rt,
        rt.alloc(),
        "3 more than zero",
        0,
        &tail,
        end,
        &found_and_read(0, 8),
    )
}

/// Two arrays, of one entry and of three.
#[rattlefmt::skip]
const TWO: [MapDef; 2] = [ONE_ENTRY, MapDef { max_entries: 3, ..ONE_ENTRY }];

/// The map of R1 is the one that is asked, and no other shard is entered.
#[test]
fn the_second_of_two_maps(rt: HostRuntime) -> Result<(), Fail> {
    let mut head = look_up(2);
    head[3] = Insn::Ldmap { dst: R1, map: 1 };
    let program = Program {
        version: Version::V1,
        maps: &TWO,
        head: &head,
        tail: &[number!(R0, 2), EXIT],
    };
    let second = Run {
        name: "the second",
        options: OPTIONS,
        frame: &[0; 14],
        end: Ok(exit(Verdict::Pass, 7)),
        shard: 1,
        entries: &[enter(1), lookup(1, 2, found(1, 2)), leave(1)],
    };
    program_leaves(&rt, rt.alloc(), &program, &second)?;
    let first = Run {
        name: "the first",
        shard: 0,
        entries: &[],
        ..second
    };
    program_leaves(&rt, rt.alloc(), &program, &first)
}

/// The bytes of an image: one array, and a program that looks index 0 up and adds its number to byte 13.
const FIRST_IMAGE: [u8; 168] = [
    0x58, 0x4c, 0x42, 0x50, 0x01, 0x01, 0x00, 0x00, //
    0x02, 0x00, 0x00, 0x00, 0x04, 0x00, 0x00, 0x00, //
    0x08, 0x00, 0x00, 0x00, 0x01, 0x00, 0x00, 0x00, //
    0x61, 0x12, 0x00, 0x00, 0x00, 0x00, 0x00, 0x00, //
    0x61, 0x13, 0x04, 0x00, 0x00, 0x00, 0x00, 0x00, //
    0xbf, 0x24, 0x00, 0x00, 0x00, 0x00, 0x00, 0x00, //
    0x07, 0x04, 0x00, 0x00, 0x0e, 0x00, 0x00, 0x00, //
    0xb7, 0x00, 0x00, 0x00, 0x02, 0x00, 0x00, 0x00, //
    0x2d, 0x34, 0x0b, 0x00, 0x00, 0x00, 0x00, 0x00, //
    0x71, 0x26, 0x0d, 0x00, 0x00, 0x00, 0x00, 0x00, //
    0x62, 0x0a, 0xfc, 0xff, 0x00, 0x00, 0x00, 0x00, //
    0xbf, 0xa2, 0x00, 0x00, 0x00, 0x00, 0x00, 0x00, //
    0x07, 0x02, 0x00, 0x00, 0xfc, 0xff, 0xff, 0xff, //
    0x18, 0x11, 0x00, 0x00, 0x00, 0x00, 0x00, 0x00, //
    0x00, 0x00, 0x00, 0x00, 0x00, 0x00, 0x00, 0x00, //
    0x85, 0x00, 0x00, 0x00, 0x01, 0x00, 0x00, 0x00, //
    0x15, 0x00, 0x03, 0x00, 0x00, 0x00, 0x00, 0x00, //
    0x79, 0x07, 0x00, 0x00, 0x00, 0x00, 0x00, 0x00, //
    0x0f, 0x76, 0x00, 0x00, 0x00, 0x00, 0x00, 0x00, //
    0xbf, 0x60, 0x00, 0x00, 0x00, 0x00, 0x00, 0x00, //
    0x95, 0x00, 0x00, 0x00, 0x00, 0x00, 0x00, 0x00, //
];

#[rattlefmt::skip]
const FIRST_ROWS: [(&str, u8, Verdict); 3] = [
    ("03 sends",  3, Verdict::Tx),
    ("01 drops",  1, Verdict::Drop),
    ("00 aborts", 0, Verdict::Aborted),
];

/// Runs the image on a frame that ends with this byte, and compares.
fn ends_by_its_last_byte(
    rt: &impl Abort,
    alloc: Global,
    name: &str,
    last: u8,
    verdict: Verdict,
) -> Result<(), Fail> {
    let verified = verify(alloc, decode(alloc, &FIRST_IMAGE)?)?;
    let mut frame = [0; 14];
    frame[13] = last;
    let run = Run {
        name,
        options: OPTIONS,
        frame: &frame,
        end: Ok(exit(verdict, 17)),
        shard: 0,
        entries: &found_and_read(0, 8),
    };
    leaves(rt, alloc, &verified, &run)
}

#[test]
fn the_first_image(rt: HostRuntime) -> Result<(), Fail> {
    for (name, last, verdict) in &FIRST_ROWS {
        ends_by_its_last_byte(&rt, rt.alloc(), *name, *last, *verdict)?;
    }
    Ok(())
}

/// This many lookups of index 0.
fn lookups(alloc: Global, count: u32) -> Result<Vec<Insn>, Fail> {
    let mut code = Vec::new(alloc);
    for _ in 0..count {
        code.extend_from_slice(&look_up(0))?;
    }
    Ok(code)
}

/// Behind an Enter and fourteen lookups the fifteenth is refused; the Leave is entry 16.
#[test]
fn a_full_journal(rt: HostRuntime) -> Result<(), Fail> {
    let mut entries = [lookup(0, 0, found(0, 0)); 16];
    entries[0] = enter(0);
    entries[15] = leave(0);
    let full = Stop::JournalFull { shard: 0 };
    same_fact(&rt, "a full journal", "the number", &full.number(), &60);
    let head = lookups(rt.alloc(), 15)?;
    let program = Program {
        version: Version::V1,
        maps: &ARRAY,
        head: &head,
        tail: &[number!(R0, 3), EXIT],
    };
    let run = Run {
        name: "sixteen entries",
        options: SMALL,
        frame: &[0; 14],
        end: Err(full),
        shard: 0,
        entries: &entries,
    };
    program_leaves(&rt, rt.alloc(), &program, &run)
}
