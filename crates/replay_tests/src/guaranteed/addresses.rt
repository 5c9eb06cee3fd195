//! Programs of version 2 that name addresses of values themselves, and what they leave in the journals.

use super::programs::{EXIT, OPTIONS, Program};
use super::worker_runs::{Run, enter, exit, found, leave, lookup, program_leaves};
use ebpf_decode::{Insn, MapDef, Version};
use isa::Register::{R0, R1, R2, R3, R4, R5, R6};
use isa::{AluOp, AtomicOp, Register, Size, SourceOperand, Test, Width};
use semantics::{Call, CellRef, Options, Reply, Verdict};
use std::alloc::Global;
use std::process::Abort;
use std::test::Fail;
use test_support::programs::ONE_ENTRY;
use test_support::{add, alu, jump, load, mov, number, store};

/// The first byte of the first value of a map.
fn first_value(dst: Register, map: i32) -> Insn {
    Insn::Ldval {
        dst,
        map,
        offset: 0,
    }
}

/// A call on the first cell of a shard.
fn loaded(shard: u32, offset: u64, size: u64, value: u64) -> (Call, Reply) {
    let cell = CellRef { shard, id: 0 };
    let call = Call::Load { cell, offset, size };
    (call, Reply::Word { value })
}

fn stored(shard: u32, offset: u64, size: u64, value: u64) -> (Call, Reply) {
    let cell = CellRef { shard, id: 0 };
    let call = Call::Store {
        cell,
        offset,
        size,
        value,
    };
    (call, Reply::Done)
}

/// Adds 3 to the first value of a map, and reads it.
fn counted(map: i32) -> [Insn; 5] {
    let add = Insn::AtomicUpdate {
        width: Width::Bits64,
        op: AtomicOp::AtomicAdd,
        dst: R1,
        src: R2,
        offset: 0,
    };
    [
        first_value(R1, map),
        number!(R2, 3),
        add,
        load!(Size::U64, R0, R1, 0),
        EXIT,
    ]
}

fn entries_of_count(shard: u32) -> [(Call, Reply); 5] {
    let added = Call::Atomic {
        cell: CellRef { shard, id: 0 },
        offset: 0,
        size: 8,
        op: 0,
        value: 3,
        expected: 0,
    };
    [
        enter(shard),
        lookup(shard, 0, found(shard, 0)),
        (added, Reply::Word { value: 0 }),
        loaded(shard, 0, 8, 3),
        leave(shard),
    ]
}

#[rattlefmt::skip]
const COUNTS: [(&str, i32, u32, u32); 3] = [
    ("the only shard",             0, 1, 0),
    ("the second map",             1, 1, 1),
    ("its first part of four",     1, 4, 4),
];

/// Two arrays, of four entries and of eight.
#[rattlefmt::skip]
const TWO: [MapDef; 2] = [MapDef { max_entries: 4, ..ONE_ENTRY }, MapDef { max_entries: 8, ..ONE_ENTRY }];

/// A count that one shard returns, in a map of this many shards.
fn counts(
    rt: &impl Abort,
    alloc: Global,
    name: &str,
    map: i32,
    shards: u32,
    shard: u32,
) -> Result<(), Fail> {
    let program = Program {
        version: Version::V2,
        maps: &TWO,
        head: &counted(map),
        tail: &[],
    };
    let run = Run {
        name,
        options: Options { shards, ..OPTIONS },
        frame: &[0; 14],
        end: Ok(exit(Verdict::Tx, 5)),
        shard,
        entries: &entries_of_count(shard),
    };
    program_leaves(rt, alloc, &program, &run)
}

/// The first part of the map is asked for its element 0.
#[test]
fn a_count_at_an_address(rt: HostRuntime) -> Result<(), Fail> {
    for (name, map, shards, shard) in &COUNTS {
        counts(&rt, rt.alloc(), *name, *map, *shards, *shard)?;
    }
    Ok(())
}

/// The address of an array's value of 256 bytes, and past the test of 14 bytes, byte 13 in R5.
fn measured(skip: i16) -> [Insn; 8] {
    [
        first_value(R6, 0),
        load!(Size::U32, R2, R1, 0),
        load!(Size::U32, R3, R1, 4),
        mov!(R4, R2),
        add!(R4, 14),
        number!(R0, 2),
        jump!(Test::Gt, R4, SourceOperand::Reg(R3), skip),
        load!(Size::U8, R5, R2, 13),
    ]
}

/// An array of one value of 256 bytes.
const WIDE: [MapDef; 1] = [MapDef {
    value_size: 256,
    ..ONE_ENTRY
}];

/// A program that writes 3 at a place of the value ends after this many steps, and leaves what was written, of this size.
fn writes(
    rt: &impl Abort,
    alloc: Global,
    name: &str,
    head: &[Insn],
    tail: &[Insn],
    steps: u64,
    place: u64,
    size: u64,
) -> Result<(), Fail> {
    let program = Program {
        version: Version::V2,
        maps: &WIDE,
        head,
        tail,
    };
    let mut frame = [0; 14];
    frame[13] = 0xff;
    let run = Run {
        name,
        options: OPTIONS,
        frame: &frame,
        end: Ok(exit(Verdict::Tx, steps)),
        shard: 0,
        entries: &[
            enter(0),
            lookup(0, 0, found(0, 0)),
            stored(0, place, size, 3),
            loaded(0, place, 1, 3),
            leave(0),
        ],
    };
    program_leaves(rt, alloc, &program, &run)
}

/// Byte 13 says where in the value a number is written, of one byte, or of two at an even place.
#[test]
fn a_place_in_a_value_that_the_packet_tells(rt: HostRuntime) -> Result<(), Fail> {
    let further = alu!(AluOp::Add, R6, SourceOperand::Reg(R5));
    let read = load!(Size::U8, R0, R6, 0);
    let byte = [further, store!(Size::U8, R6, 0, 3), read, EXIT];
    writes(&rt, rt.alloc(), "one byte", &measured(4), &byte, 12, 255, 1)?;
    let even = alu!(AluOp::And, R5, SourceOperand::Imm(254));
    let short = [even, further, store!(Size::U16, R6, 0, 3), read, EXIT];
    writes(
        &rt,
        rt.alloc(),
        "two bytes",
        &measured(5),
        &short,
        13,
        254,
        2,
    )
}
