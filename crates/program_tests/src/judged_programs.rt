//! Programs that are accepted, and programs with their first reject, worked out by hand.

use crate::asserting::{prints, same, same_fact};
use crate::programs::image_of;
use ebpf_decode::{Insn, MapDef, MapKind, Version};
use isa::{AluOp, AtomicOp, Register, Size, SourceOperand, Test, Width};
use std::alloc::Global;
use std::process::Abort;
use verifier::*;

const MAPS: [MapDef; 1] = [MapDef {
    kind: MapKind::Array,
    key_size: 4,
    value_size: 8,
    max_entries: 1,
}];

const EXIT: Insn = Insn::Exit;

const PASS: Insn = Insn::Alu {
    width: Width::Bits64,
    op: AluOp::Mov,
    dst: Register::R0,
    source: SourceOperand::Imm(2),
};

const OVER_R10: Insn = Insn::Alu {
    width: Width::Bits64,
    op: AluOp::Mov,
    dst: Register::R10,
    source: SourceOperand::Imm(1),
};

const JA_1: Insn = Insn::Ja { distance: 1 };

const JA_BACK: Insn = Insn::Ja { distance: -1 };

const NUMBER: Insn = Insn::Lddw {
    dst: Register::R0,
    value: 2,
};

const CALL_99: Insn = Insn::CallHelper { helper: 99 };

const TIME: Insn = Insn::CallHelper { helper: 5 };

const WORKER: Insn = Insn::CallHelper { helper: 8 };

// The packet in R2, its end in R3, and a place past it in R4 that is tested against the end.
const START: Insn = Insn::Ldx {
    size: Size::U32,
    dst: Register::R2,
    src: Register::R1,
    offset: 0,
};

const END: Insn = Insn::Ldx {
    size: Size::U32,
    dst: Register::R3,
    src: Register::R1,
    offset: 4,
};

const PLACE: Insn = Insn::Alu {
    width: Width::Bits64,
    op: AluOp::Mov,
    dst: Register::R4,
    source: SourceOperand::Reg(Register::R2),
};

const ADD_14: Insn = Insn::Alu {
    width: Width::Bits64,
    op: AluOp::Add,
    dst: Register::R4,
    source: SourceOperand::Imm(14),
};

const JGT_1: Insn = Insn::JumpIf {
    width: Width::Bits64,
    test: Test::Gt,
    dst: Register::R4,
    source: SourceOperand::Reg(Register::R3),
    distance: 1,
};

const BYTE_0: Insn = Insn::Ldx {
    size: Size::U8,
    dst: Register::R0,
    src: Register::R2,
    offset: 0,
};

const BYTE_13: Insn = Insn::Ldx {
    size: Size::U8,
    dst: Register::R0,
    src: Register::R2,
    offset: 13,
};

// A lookup in map 0.
const KEY: Insn = Insn::St {
    size: Size::U32,
    dst: Register::R10,
    offset: -4,
    immediate: 0,
};

const KEY_AT: Insn = Insn::Alu {
    width: Width::Bits64,
    op: AluOp::Mov,
    dst: Register::R2,
    source: SourceOperand::Reg(Register::R10),
};

const KEY_DOWN: Insn = Insn::Alu {
    width: Width::Bits64,
    op: AluOp::Add,
    dst: Register::R2,
    source: SourceOperand::Imm(-4),
};

const MAP: Insn = Insn::Ldmap {
    dst: Register::R1,
    map: 0,
};

const LOOKUP: Insn = Insn::CallHelper { helper: 1 };

const JEQ_NULL: Insn = Insn::JumpIf {
    width: Width::Bits64,
    test: Test::Eq,
    dst: Register::R0,
    source: SourceOperand::Imm(0),
    distance: 1,
};

const VALUE: Insn = Insn::Ldx {
    size: Size::U64,
    dst: Register::R3,
    src: Register::R0,
    offset: 0,
};

const SPILL: Insn = Insn::Stx {
    size: Size::U64,
    dst: Register::R10,
    src: Register::R1,
    offset: -8,
};

const FILL: Insn = Insn::Ldx {
    size: Size::U64,
    dst: Register::R2,
    src: Register::R10,
    offset: -8,
};

const FIELD_12: Insn = Insn::Ldx {
    size: Size::U32,
    dst: Register::R0,
    src: Register::R2,
    offset: 12,
};

const QUEUE: Insn = Insn::Ldx {
    size: Size::U32,
    dst: Register::R0,
    src: Register::R1,
    offset: 16,
};

// Helpers that change a map or move the packet's start, and what they take.
const CHANGED_VALUE: Insn = Insn::St {
    size: Size::U64,
    dst: Register::R10,
    offset: -16,
    immediate: 2,
};

const VALUE_AT: Insn = Insn::Alu {
    width: Width::Bits64,
    op: AluOp::Mov,
    dst: Register::R3,
    source: SourceOperand::Reg(Register::R10),
};

const VALUE_DOWN: Insn = Insn::Alu {
    width: Width::Bits64,
    op: AluOp::Add,
    dst: Register::R3,
    source: SourceOperand::Imm(-16),
};

const FLAGS: Insn = Insn::Alu {
    width: Width::Bits64,
    op: AluOp::Mov,
    dst: Register::R4,
    source: SourceOperand::Imm(0),
};

const UPDATE: Insn = Insn::CallHelper { helper: 2 };

const DELETE: Insn = Insn::CallHelper { helper: 3 };

const ONE: Insn = Insn::Alu {
    width: Width::Bits64,
    op: AluOp::Mov,
    dst: Register::R1,
    source: SourceOperand::Imm(1),
};

const JEQ_NULL_3: Insn = Insn::JumpIf {
    width: Width::Bits64,
    test: Test::Eq,
    dst: Register::R0,
    source: SourceOperand::Imm(0),
    distance: 3,
};

const FETCH_ADD: Insn = Insn::AtomicUpdate {
    width: Width::Bits64,
    op: AtomicOp::FetchAdd,
    dst: Register::R0,
    src: Register::R1,
    offset: 0,
};

const STORE_VALUE: Insn = Insn::St {
    size: Size::U64,
    dst: Register::R0,
    offset: 0,
    immediate: 5,
};

const STORE_PAST: Insn = Insn::St {
    size: Size::U64,
    dst: Register::R0,
    offset: 8,
    immediate: 5,
};

const COUNT: Insn = Insn::Ldx {
    size: Size::U64,
    dst: Register::R0,
    src: Register::R0,
    offset: 0,
};

const BACK_20: Insn = Insn::Alu {
    width: Width::Bits64,
    op: AluOp::Mov,
    dst: Register::R2,
    source: SourceOperand::Imm(-20),
};

const MOVE_HEAD: Insn = Insn::CallHelper { helper: 44 };

#[rattlefmt::skip]
static ACCEPTED: [(&str, &[Insn], bool); 8] = [
    ("a number of 64 bits",                       &[NUMBER, EXIT], true),
    ("the time",                                  &[TIME, EXIT], true),
    ("the worker's number is no reader's",        &[WORKER, EXIT], false),
    ("nor is that of the receive queue",          &[QUEUE, EXIT], false),
    ("an update and an atomic count",
        &[KEY, CHANGED_VALUE, KEY_AT, KEY_DOWN, VALUE_AT, VALUE_DOWN, FLAGS, MAP, UPDATE,
          KEY_AT, KEY_DOWN, MAP, LOOKUP, JEQ_NULL_3, ONE, FETCH_ADD, COUNT, EXIT], false),
    ("a store to a value",                        &[KEY, KEY_AT, KEY_DOWN, MAP, LOOKUP, JEQ_NULL, STORE_VALUE, PASS, EXIT], false),
    ("a deletion",                                &[KEY, KEY_AT, KEY_DOWN, MAP, DELETE, EXIT], false),
    ("a moved head only reads",                   &[BACK_20, MOVE_HEAD, PASS, EXIT], true),
];

#[rattlefmt::skip]
static REFUSED: [(&str, &[Insn], Reject); 8] = [
    ("a key of unset bytes",                &[KEY_AT, KEY_DOWN, MAP, LOOKUP, EXIT], Reject::StackUnset { slot: 4 }),
    ("a key past the stack",                &[KEY_AT, MAP, LOOKUP, EXIT], Reject::StackBounds { slot: 3 }),
    ("no such helper, before what is unset", &[CALL_99, EXIT], Reject::UnknownHelper { slot: 0 }),
    ("the last instruction is no exit",     &[PASS], Reject::FallsOff { slot: 0 }),
    ("structure goes before kinds",         &[BYTE_0, JA_BACK, EXIT], Reject::JumpBackward { slot: 1 }),
    ("the first of two broken rules",       &[OVER_R10, CALL_99, EXIT], Reject::ReadOnlyFp { slot: 0 }),
    ("a store past a value",
        &[KEY, KEY_AT, KEY_DOWN, MAP, LOOKUP, JEQ_NULL, STORE_PAST, PASS, EXIT], Reject::ValueBounds { slot: 7 }),
    ("an update of unset bytes",
        &[KEY, KEY_AT, KEY_DOWN, VALUE_AT, VALUE_DOWN, FLAGS, MAP, UPDATE, PASS, EXIT], Reject::StackUnset { slot: 8 }),
];

/// The verifier accepts a program over these maps and says whether it only reads, or answers its first reject.
pub(crate) fn is_judged(
    rt: &impl Abort,
    alloc: Global,
    name: &str,
    version: Version,
    maps: &[MapDef],
    code: &[Insn],
    wanted: Result<bool, Reject>,
) {
    let image = image_of(rt, alloc, version, maps, code);
    match verify(alloc, image) {
        Ok(verified) => {
            same(rt, name, &Ok(verified.is_reader()), &wanted);
            let length = verified.image().code().len();
            same_fact(rt, name, "its length", &length, &code.len());
        }
        Err(reject) => same(rt, name, &Err(reject), &wanted),
    }
}

#[test]
fn accepted(rt: HostRuntime) {
    for &(name, code, reads) in &ACCEPTED {
        is_judged(&rt, rt.alloc(), name, Version::V1, &MAPS, code, Ok(reads));
    }
}

#[test]
fn refused(rt: HostRuntime) {
    for &(name, code, wanted) in &REFUSED {
        is_judged(&rt, rt.alloc(), name, Version::V1, &MAPS, code, Err(wanted));
    }
}

#[rattlefmt::skip]
const COUNTED: [Insn; 18] = [
    KEY, CHANGED_VALUE, KEY_AT, KEY_DOWN, VALUE_AT, VALUE_DOWN, FLAGS, MAP, UPDATE,
    KEY_AT, KEY_DOWN, MAP, LOOKUP, JEQ_NULL_3, ONE, FETCH_ADD, COUNT, EXIT,
];

/// What an update and an atomic count are judged by the kind of their map and the size of its keys.
#[rattlefmt::skip]
static KINDS: [(&str, MapKind, u32, Result<bool, Reject>); 5] = [
    ("an array",             MapKind::Array,   4, Ok(false)),
    ("a hash map",           MapKind::Hash,    4, Ok(false)),
    ("an LRU map",           MapKind::LruHash, 4, Ok(false)),
    ("a key of 5 bytes",     MapKind::Hash,    5, Err(Reject::StackBounds { slot: 9 })),
    ("a key of 1 byte",      MapKind::LruHash, 1, Ok(false)),
];

/// Maps of every kind are accepted; keys have the map's size.
#[test]
fn maps_of_every_kind(rt: HostRuntime) {
    for &(name, kind, key_size, wanted) in &KINDS {
        let maps = [MapDef {
            kind,
            key_size,
            value_size: 8,
            max_entries: 8,
        }];
        is_judged(&rt, rt.alloc(), name, Version::V1, &maps, &COUNTED, wanted);
    }
}

/// What a flat instruction is, of those in the rows below.
fn sort(op: &Op) -> &'static str {
    match op {
        Op::StoreStack64R { .. } => "to the stack",
        Op::LoadStack64 { .. } => "from the stack",
        Op::LoadPacket { .. } => "from the packet",
        Op::LoadContext { .. } => "from the context",
        Op::LoadValue { .. } => "from a value",
        Op::Exit => "exit",
        Op::Hole => "hole",
        _ => "another",
    }
}

/// The program is accepted, and the instruction at this slot becomes one of this sort.
fn resolves_to(
    rt: &impl Abort,
    alloc: Global,
    name: &str,
    code: &[Insn],
    slot: usize,
    wanted: &str,
) {
    let image = image_of(rt, alloc, Version::V1, &MAPS, code);
    match verify(alloc, image) {
        Ok(verified) => {
            let found = verified.op(slot).map_or("none", sort);
            same(rt, name, &Ok(found), &Ok::<&str, Reject>(wanted));
        }
        Err(reject) => same(rt, name, &Err(reject), &Ok::<&str, Reject>(wanted)),
    }
}

#[rattlefmt::skip]
static RESOLVED: [(&str, &[Insn], usize, &str); 8] = [
    ("a spill goes to the stack",            &[SPILL, FILL, FIELD_12, EXIT], 0, "to the stack"),
    ("a fill comes from there",              &[SPILL, FILL, FIELD_12, EXIT], 1, "from the stack"),
    ("a field of the filled context",        &[SPILL, FILL, FIELD_12, EXIT], 2, "from the context"),
    ("an exit touches nothing",              &[SPILL, FILL, FIELD_12, EXIT], 3, "exit"),
    ("nothing past the end",                 &[SPILL, FILL, FIELD_12, EXIT], 4, "none"),
    ("nothing inside a wide instruction",    &[NUMBER, EXIT], 1, "hole"),
    ("a byte of the packet",                 &[START, END, PLACE, ADD_14, PASS, JGT_1, BYTE_13, EXIT], 6, "from the packet"),
    ("a value of a map, behind a wide one",  &[KEY, KEY_AT, KEY_DOWN, MAP, LOOKUP, JEQ_NULL, VALUE, PASS, EXIT], 7, "from a value"),
];

#[test]
fn resolved_instructions(rt: HostRuntime) {
    for &(name, code, slot, wanted) in &RESOLVED {
        resolves_to(&rt, rt.alloc(), name, code, slot, wanted);
    }
}

#[rattlefmt::skip]
static TEXTS: [(Reject, &str); 20] = [
    (Reject::JumpBackward { slot: 1 },               "fault 30 JumpBackward slot 1"),
    (Reject::JumpOutside { slot: 5 },                "fault 31 JumpOutside slot 5"),
    (Reject::JumpIntoWide { slot: 0 },               "fault 32 JumpIntoWide slot 0"),
    (Reject::FallsOff { slot: 4095 },                "fault 33 FallsOff slot 4095"),
    (Reject::Unreachable { slot: 2 },                "fault 34 Unreachable slot 2"),
    (Reject::UnsetRegister { slot: 0, register: 0 }, "fault 35 UnsetRegister slot 0 register 0"),
    (Reject::WrongKind { slot: 3, register: 10 },    "fault 36 WrongKind slot 3 register 10"),
    (Reject::PacketBounds { slot: 6 },               "fault 37 PacketBounds slot 6"),
    (Reject::StackBounds { slot: 7 },                "fault 38 StackBounds slot 7"),
    (Reject::StackUnset { slot: 8 },                 "fault 39 StackUnset slot 8"),
    (Reject::ValueBounds { slot: 9 },                "fault 40 ValueBounds slot 9"),
    (Reject::Misaligned { slot: 10 },                "fault 41 Misaligned slot 10"),
    (Reject::ContextAccess { slot: 11 },             "fault 42 ContextAccess slot 11"),
    (Reject::ReadOnlyFp { slot: 12 },                "fault 43 ReadOnlyFp slot 12"),
    (Reject::UnknownHelper { slot: 13 },             "fault 44 UnknownHelper slot 13"),
    (Reject::BadArgument { slot: 14, register: 2 },  "fault 45 BadArgument slot 14 register 2"),
    (Reject::PointerLeak { slot: 15 },               "fault 46 PointerLeak slot 15"),
    (Reject::UnknownMap { slot: 16 },                "fault 47 UnknownMap slot 16"),
    (Reject::Memory,                                 "fault 48 Memory"),
    (Reject::NotArrayMap { slot: 17 },               "fault 49 NotArrayMap slot 17"),
];

#[test]
fn printed_rejects(rt: HostRuntime) {
    for &(reject, wanted) in &TEXTS {
        prints(&rt, rt.alloc(), &reject, wanted);
    }
}
