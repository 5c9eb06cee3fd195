//! Programs of version 2, worked out by hand: addresses in values, and offsets that are an interval.

use crate::judged_programs::is_judged;
use ebpf_decode::{Insn, MapDef, MapKind, Version};
use isa::Register::{R0, R1, R2, R3, R4, R5, R6, R10};
use isa::{AluOp, Size, SourceOperand, Test};
use test_support::{address, alu, jump, load, store};
use verifier::*;

const EXIT: Insn = Insn::Exit;

const NUMBER: Insn = alu!(AluOp::Mov, R5, SourceOperand::Imm(3));

const FIRST: Insn = load!(Size::U64, R0, R6, 0);

const SECOND: Insn = load!(Size::U32, R0, R6, 4);

const MIDDLE: Insn = load!(Size::U32, R0, R6, 0);

const FRAME_POINTER: Insn = Insn::Ldval {
    dst: R10,
    map: 1,
    offset: 0,
};

#[rattlefmt::skip]
static ADDRESSES: [(&str, MapKind, &[Insn], Result<bool, Reject>); 4] = [
    ("a load alone only reads",                MapKind::Array,   &[address!(0, 0), FIRST, EXIT],                    Ok(true)),
    ("an address in the middle",               MapKind::Array,   &[address!(0, 4), MIDDLE, EXIT],                   Ok(true)),
    ("past the middle, at a distance",         MapKind::Array,   &[address!(0, 0), SECOND, EXIT],                   Ok(true)),
    ("R10 before the map",                     MapKind::LruHash, &[FRAME_POINTER, FIRST, EXIT],       Err(Reject::ReadOnlyFp { slot: 0 })),
];

/// A map with one value.
fn map_of(kind: MapKind, value_size: u32) -> MapDef {
    MapDef {
        kind,
        key_size: 4,
        value_size,
        max_entries: 1,
    }
}

#[test]
fn addresses_in_values(rt: HostRuntime) {
    for &(name, kind, code, wanted) in &ADDRESSES {
        let maps = [map_of(kind, 8)];
        is_judged(&rt, rt.alloc(), name, Version::V2, &maps, code, wanted);
    }
}

// A byte of the packet is added to the address of a value, where the packet has it; else a jump goes to the exit.
const START: Insn = load!(Size::U32, R2, R1, 0);

const END: Insn = load!(Size::U32, R3, R1, 4);

const PLACE: Insn = alu!(AluOp::Mov, R4, SourceOperand::Reg(R2));

const ADD_14: Insn = alu!(AluOp::Add, R4, SourceOperand::Imm(14));

const PASS: Insn = alu!(AluOp::Mov, R0, SourceOperand::Imm(2));

const JGT_4: Insn = jump!(Test::Gt, R4, SourceOperand::Reg(R3), 4);

const JGT_5: Insn = jump!(Test::Gt, R4, SourceOperand::Reg(R3), 5);

const BYTE: Insn = load!(Size::U8, R5, R2, 13);

const ADD_BYTE: Insn = alu!(AluOp::Add, R6, SourceOperand::Reg(R5));

const STORE_1: Insn = store!(Size::U8, R6, 0, 3);

const READ: Insn = load!(Size::U8, R0, R6, 0);

const AND_1: Insn = alu!(AluOp::And, R5, SourceOperand::Imm(1));

const AND_248: Insn = alu!(AluOp::And, R5, SourceOperand::Imm(248));

const SUB_BYTE: Insn = alu!(AluOp::Sub, R6, SourceOperand::Reg(R5));

// A byte of the packet is added to an address in a value of 248 bytes: if it may lead past the end, the addition itself is refused.
#[rattlefmt::skip]
static ADDITIONS: [(&str, &[Insn], Result<bool, Reject>); 5] = [
    ("past the end", &[address!(0, 0), START, END, PLACE, ADD_14, PASS, JGT_4, BYTE, ADD_BYTE, STORE_1, READ, EXIT],
        Err(Reject::ValueBounds { slot: 9 })),
    ("to the end, where no byte is stored",
        &[address!(0, 0), START, END, PLACE, ADD_14, PASS, JGT_5, BYTE, AND_248, ADD_BYTE, STORE_1, READ, EXIT],
        Err(Reject::ValueBounds { slot: 11 })),
    ("from 1, past the end", &[address!(0, 1), START, END, PLACE, ADD_14, PASS, JGT_5, BYTE, AND_248, ADD_BYTE, STORE_1, READ, EXIT],
        Err(Reject::ValueBounds { slot: 10 })),
    ("to the last two bytes", &[address!(0, 246), START, END, PLACE, ADD_14, PASS, JGT_5, BYTE, AND_1, ADD_BYTE, STORE_1, READ, EXIT],
        Ok(false)),
    ("a byte is not taken from an address",
        &[address!(0, 248), START, END, PLACE, ADD_14, PASS, JGT_5, BYTE, AND_248, SUB_BYTE, STORE_1, READ, EXIT],
        Err(Reject::WrongKind { slot: 10, register: 5 })),
];

#[test]
fn additions_to_addresses(rt: HostRuntime) {
    let maps = [map_of(MapKind::Array, 248)];
    for &(name, code, wanted) in &ADDITIONS {
        is_judged(&rt, rt.alloc(), name, Version::V2, &maps, code, wanted);
    }
}
