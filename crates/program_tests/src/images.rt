//! Images and their bytes: every kind of slot and of map both ways, and every fault of bytes.

use crate::asserting::{prints, same, same_at, same_fact};
use crate::programs::image_of;
use ebpf_decode::*;
use isa::{
    AluOp, AtomicOp, ByteOrder, Extension, Register, ShortExtension, Size, SourceOperand,
    SwapWidth, Test, Width,
};
use std::alloc::Global;
use std::process::Abort;
use test_support::programs::{ARRAY, FIRST_RUN_IMAGE, ONE_ENTRY};

const HEAD: [u8; 8] = [0x58, 0x4c, 0x42, 0x50, 1, 0, 0, 0];

/// The fault's number, or 0 for an image.
fn number_of(alloc: Global, bytes: &[u8]) -> u8 {
    match decode(alloc, bytes) {
        Ok(_) => 0,
        Err(fault) => fault.number(),
    }
}

/// The bytes of an image: its head, and two parts behind it.
fn bytes_of(rt: &impl Abort, alloc: Global, head: &[u8], first: &[u8], second: &[u8]) -> Vec<u8> {
    let mut bytes = Vec::new(alloc);
    bytes.extend_from_slice(head).expect(rt, "room");
    bytes.extend_from_slice(first).expect(rt, "room");
    bytes.extend_from_slice(second).expect(rt, "room");
    bytes
}

/// Such bytes have the fault of this number, or are an image where it is 0.
fn has_fault(
    rt: &impl Abort,
    alloc: Global,
    name: &str,
    head: &[u8],
    first: &[u8],
    second: &[u8],
    want: u8,
) {
    let bytes = bytes_of(rt, alloc, head, first, second);
    same(rt, name, &number_of(alloc, &bytes), &want);
}

/// An image is encoded so.
fn is_encoded(rt: &impl Abort, alloc: Global, name: &str, image: &Image, want: &[u8]) {
    let bytes = encode(alloc, image).expect(rt, "memory");
    same_fact(rt, name, "encoded", &bytes.as_slice(), &want);
}

/// Bytes are decoded to this program, in this many slots and without maps, which is encoded to the same bytes.
fn is_decoded(
    rt: &impl Abort,
    alloc: Global,
    name: &str,
    bytes: &[u8],
    version: Version,
    code: &[Insn],
    slots: usize,
) {
    let image = decode(alloc, bytes).expect(rt, "an image");
    same_fact(rt, name, "decoded", &image.code(), &code);
    same_fact(rt, name, "the version", &image.version(), &version);
    same_fact(rt, name, "slots", &image.slots(), &slots);
    is_encoded(rt, alloc, name, &image, bytes);
}

/// A program without maps is encoded so, and these bytes are decoded to it again.
fn goes_both_ways(
    rt: &impl Abort,
    alloc: Global,
    name: &str,
    version: Version,
    code: &[Insn],
    slots: usize,
    bytes: &[u8],
) {
    let image = image_of(rt, alloc, version, &[], code);
    is_encoded(rt, alloc, name, &image, bytes);
    is_decoded(rt, alloc, name, bytes, version, image.code(), slots);
}

// By the high and the low four bits of an opcode in a slot of zeros (byte swaps: of width 16): 0 where there is an instruction.
#[rattlefmt::skip]
static OPCODES: [[u8; 16]; 16] = [
    [15, 15, 15, 15,  0,  0,  0,  0, 15, 15, 15, 15,  0, 15, 15,  0],
    [15, 15, 15, 15,  0,  0,  0,  0, 19, 15, 15, 15,  0,  0,  0,  0],
    [16, 15, 15, 15,  0,  0,  0,  0, 16, 15, 15, 15,  0,  0,  0,  0],
    [16, 15, 15, 15,  0,  0,  0,  0, 15, 15, 15, 15,  0,  0,  0,  0],
    [16, 15, 15, 15,  0,  0,  0,  0, 16, 15, 15, 15,  0,  0,  0,  0],
    [16, 15, 15, 15,  0,  0,  0,  0, 15, 15, 15, 15,  0,  0,  0,  0],
    [15,  0,  0,  0,  0,  0,  0,  0, 15,  0,  0,  0,  0,  0,  0,  0],
    [15,  0,  0,  0,  0,  0,  0,  0, 15,  0,  0,  0,  0,  0,  0,  0],
    [15,  0, 15, 15,  0,  0, 15,  0, 15,  0, 15, 15, 15, 15, 15, 15],
    [15,  0, 15, 15,  0,  0, 15,  0, 15, 15, 15, 15,  0, 15, 15,  0],
    [15, 15, 15, 15,  0,  0,  0,  0, 15, 15, 15, 15,  0,  0,  0,  0],
    [15, 15, 15, 15,  0,  0,  0,  0, 15, 15, 15, 15,  0,  0,  0,  0],
    [15, 15, 15,  0,  0,  0,  0,  0, 15, 15, 15, 15,  0,  0,  0,  0],
    [15, 15, 15, 15,  0,  0,  0,  0, 15, 15, 15,  0,  0,  0,  0, 15],
    [15, 15, 15, 15, 15, 15, 15, 15, 15, 15, 15, 15, 15, 15, 15, 15],
    [15, 15, 15, 15, 15, 15, 15, 15, 15, 15, 15, 15, 15, 15, 15, 15],
];

/// An image of one slot, of zeros except this opcode, has the fault of this number.
fn has_opcode_fault(rt: &impl Abort, alloc: Global, opcode: u8, want: u8) {
    let swaps = opcode == 0xd4 || opcode == 0xdc || opcode == 0xd7;
    let width = if swaps { 16 } else { 0 };
    let bytes = bytes_of(rt, alloc, &HEAD, &[opcode, 0, 0, 0, width, 0, 0, 0], &[]);
    let found = number_of(alloc, &bytes);
    same_at(rt, "opcode", u64::from(opcode), &found, &want);
}

#[test]
fn opcodes(rt: HostRuntime) {
    let mut opcode = 0u8;
    for row in &OPCODES {
        for &want in row {
            has_opcode_fault(&rt, rt.alloc(), opcode, want);
            opcode = opcode.wrapping_add(1);
        }
    }
}

#[rattlefmt::skip]
static SLOTS: [(&str, [u8; 8], u8); 37] = [
    ("mod with offset -1 is unknown",           [0x97, 0x00, 0xff, 0xff, 0x01, 0x00, 0x00, 0x00], 15),
    ("mov X with offset 5 is unknown",          [0xbf, 0x00, 0x05, 0x00, 0x00, 0x00, 0x00, 0x00], 15),
    ("movsx32 to 32 bits is unknown",           [0xbc, 0x00, 0x20, 0x00, 0x00, 0x00, 0x00, 0x00], 15),
    ("movsx32 to 64 bits",                      [0xbf, 0x00, 0x20, 0x00, 0x00, 0x00, 0x00, 0x00], 0),
    ("mov K with an offset",                    [0xb7, 0x00, 0x08, 0x00, 0x00, 0x00, 0x00, 0x00], 18),
    ("add with an offset",                      [0x07, 0x00, 0x01, 0x00, 0x00, 0x00, 0x00, 0x00], 18),
    ("K form with a source",                    [0x07, 0x10, 0x00, 0x00, 0x00, 0x00, 0x00, 0x00], 18),
    ("K form's source is no register",          [0x07, 0xf0, 0x00, 0x00, 0x00, 0x00, 0x00, 0x00], 18),
    ("X form's source is a register",           [0x0f, 0xb0, 0x00, 0x00, 0x00, 0x00, 0x00, 0x00], 17),
    ("neg with a source",                       [0x87, 0x10, 0x00, 0x00, 0x00, 0x00, 0x00, 0x00], 18),
    ("neg with an immediate",                   [0x87, 0x00, 0x00, 0x00, 0x01, 0x00, 0x00, 0x00], 18),
    ("swap of 8 bits is unknown",               [0xd4, 0x00, 0x00, 0x00, 0x08, 0x00, 0x00, 0x00], 15),
    ("swap with an offset",                     [0xdc, 0x00, 0x01, 0x00, 0x10, 0x00, 0x00, 0x00], 18),
    ("swap with a source",                      [0xd7, 0x10, 0x00, 0x00, 0x40, 0x00, 0x00, 0x00], 18),
    ("ja with a destination",                   [0x05, 0x01, 0x00, 0x00, 0x00, 0x00, 0x00, 0x00], 18),
    ("ja with an immediate",                    [0x05, 0x00, 0x00, 0x00, 0x01, 0x00, 0x00, 0x00], 18),
    ("ja32 with an offset",                     [0x06, 0x00, 0x01, 0x00, 0x00, 0x00, 0x00, 0x00], 18),
    ("conditional X with an immediate",         [0x1d, 0x00, 0x00, 0x00, 0x01, 0x00, 0x00, 0x00], 18),
    ("conditional on register 12",              [0x15, 0x0c, 0x00, 0x00, 0x00, 0x00, 0x00, 0x00], 17),
    ("program-local call",                      [0x85, 0x10, 0x00, 0x00, 0x00, 0x00, 0x00, 0x00], 16),
    ("kernel function",                         [0x85, 0x20, 0x00, 0x00, 0x00, 0x00, 0x00, 0x00], 16),
    ("call with source 3 is unknown",           [0x85, 0x30, 0x00, 0x00, 0x00, 0x00, 0x00, 0x00], 15),
    ("call with a destination",                 [0x85, 0x01, 0x00, 0x00, 0x00, 0x00, 0x00, 0x00], 18),
    ("exit with an immediate",                  [0x95, 0x00, 0x00, 0x00, 0x01, 0x00, 0x00, 0x00], 18),
    ("load with an immediate",                  [0x61, 0x00, 0x00, 0x00, 0x01, 0x00, 0x00, 0x00], 18),
    ("store of an immediate with a source",     [0x62, 0x10, 0x00, 0x00, 0x00, 0x00, 0x00, 0x00], 18),
    ("store of a register with an immediate",   [0x63, 0x00, 0x00, 0x00, 0x01, 0x00, 0x00, 0x00], 18),
    ("atomic nand is unknown",                  [0xc3, 0x00, 0x00, 0x00, 0x52, 0x00, 0x00, 0x00], 15),
    ("atomic exchange",                         [0xdb, 0x21, 0x08, 0x00, 0xe1, 0x00, 0x00, 0x00], 0),
    ("atomic on register 15",                   [0xdb, 0xf1, 0x08, 0x00, 0xe1, 0x00, 0x00, 0x00], 17),
    ("wide source 2",                           [0x18, 0x20, 0x00, 0x00, 0x00, 0x00, 0x00, 0x00], 16),
    ("wide source 6",                           [0x18, 0x60, 0x00, 0x00, 0x00, 0x00, 0x00, 0x00], 16),
    ("wide source 7 is unknown",                [0x18, 0x70, 0x00, 0x00, 0x00, 0x00, 0x00, 0x00], 15),
    ("wide on register 11, cut too",            [0x18, 0x0b, 0x00, 0x00, 0x00, 0x00, 0x00, 0x00], 17),
    ("wide with an offset, cut too",            [0x18, 0x00, 0x01, 0x00, 0x00, 0x00, 0x00, 0x00], 18),
    ("unknown before bad register",             [0x37, 0x0b, 0x02, 0x00, 0x00, 0x00, 0x00, 0x00], 15),
    ("bad register before unused field",        [0xbf, 0x0b, 0x00, 0x00, 0x05, 0x00, 0x00, 0x00], 17),
];

#[test]
fn faults_of_one_slot(rt: HostRuntime) {
    for &(name, slot, want) in &SLOTS {
        has_fault(&rt, rt.alloc(), name, &HEAD, &slot, &[], want);
    }
}

#[rattlefmt::skip]
static WIDE: [(&str, [u8; 8], [u8; 8], u8); 6] = [
    ("number of 64 bits",                           [0x18, 0x01, 0x00, 0x00, 0x02, 0x00, 0x00, 0x00],
        [0x00, 0x00, 0x00, 0x00, 0x01, 0x00, 0x00, 0x00], 0),
    ("map",                                         [0x18, 0x11, 0x00, 0x00, 0x00, 0x00, 0x00, 0x00],
        [0x00, 0x00, 0x00, 0x00, 0x00, 0x00, 0x00, 0x00], 0),
    ("second slot of a number with an opcode",      [0x18, 0x01, 0x00, 0x00, 0x02, 0x00, 0x00, 0x00],
        [0x95, 0x00, 0x00, 0x00, 0x00, 0x00, 0x00, 0x00], 18),
    ("second slot of a number with registers",      [0x18, 0x01, 0x00, 0x00, 0x02, 0x00, 0x00, 0x00],
        [0x00, 0x10, 0x00, 0x00, 0x00, 0x00, 0x00, 0x00], 18),
    ("second slot of a number with an offset",      [0x18, 0x01, 0x00, 0x00, 0x02, 0x00, 0x00, 0x00],
        [0x00, 0x00, 0x01, 0x00, 0x00, 0x00, 0x00, 0x00], 18),
    ("second slot of a map with an immediate",      [0x18, 0x11, 0x00, 0x00, 0x00, 0x00, 0x00, 0x00],
        [0x00, 0x00, 0x00, 0x00, 0x01, 0x00, 0x00, 0x00], 18),
];

#[test]
fn wide_instructions(rt: HostRuntime) {
    for &(name, first, second, want) in &WIDE {
        has_fault(&rt, rt.alloc(), name, &HEAD, &first, &second, want);
    }
}

#[rattlefmt::skip]
static INSTRUCTIONS: [(&str, Insn, [u8; 8]); 19] = [
    ("add K, negative",
        Insn::Alu { width: Width::Bits64, op: AluOp::Add, dst: Register::R1, source: SourceOperand::Imm(-5) },
        [0x07, 0x01, 0x00, 0x00, 0xfb, 0xff, 0xff, 0xff]),
    ("sdiv X",
        Insn::Alu { width: Width::Bits32, op: AluOp::Sdiv, dst: Register::R3, source: SourceOperand::Reg(Register::R4) },
        [0x3c, 0x43, 0x01, 0x00, 0x00, 0x00, 0x00, 0x00]),
    ("mov X",
        Insn::Alu { width: Width::Bits64, op: AluOp::Mov, dst: Register::R2, source: SourceOperand::Reg(Register::R10) },
        [0xbf, 0xa2, 0x00, 0x00, 0x00, 0x00, 0x00, 0x00]),
    ("neg",
        Insn::Neg { width: Width::Bits32, dst: Register::R9 },
        [0x84, 0x09, 0x00, 0x00, 0x00, 0x00, 0x00, 0x00]),
    ("movsx16",
        Insn::Movsx { extension: Extension::I16, dst: Register::R1, src: Register::R2 },
        [0xbf, 0x21, 0x10, 0x00, 0x00, 0x00, 0x00, 0x00]),
    ("movsx8 to 32 bits",
        Insn::Movsx32 { extension: ShortExtension::Short8, dst: Register::R1, src: Register::R2 },
        [0xbc, 0x21, 0x08, 0x00, 0x00, 0x00, 0x00, 0x00]),
    ("be32",
        Insn::End { order: ByteOrder::ToBig, swap_width: SwapWidth::Swap32, dst: Register::R1 },
        [0xdc, 0x01, 0x00, 0x00, 0x20, 0x00, 0x00, 0x00]),
    ("swap64",
        Insn::End { order: ByteOrder::Swapped, swap_width: SwapWidth::Swap64, dst: Register::R1 },
        [0xd7, 0x01, 0x00, 0x00, 0x40, 0x00, 0x00, 0x00]),
    ("ja, backward",
        Insn::Ja { distance: -2 },
        [0x05, 0x00, 0xfe, 0xff, 0x00, 0x00, 0x00, 0x00]),
    ("ja32",
        Insn::Ja32 { distance: 70000 },
        [0x06, 0x00, 0x00, 0x00, 0x70, 0x11, 0x01, 0x00]),
    ("jeq K",
        Insn::JumpIf { width: Width::Bits64, test: Test::Eq, dst: Register::R0, source: SourceOperand::Imm(0), distance: 3 },
        [0x15, 0x00, 0x03, 0x00, 0x00, 0x00, 0x00, 0x00]),
    ("jslt X, low halves",
        Insn::JumpIf { width: Width::Bits32, test: Test::Slt, dst: Register::R5, source: SourceOperand::Reg(Register::R6), distance: 1 },
        [0xce, 0x65, 0x01, 0x00, 0x00, 0x00, 0x00, 0x00]),
    ("ldxw",
        Insn::Ldx { size: Size::U32, dst: Register::R2, src: Register::R1, offset: 4 },
        [0x61, 0x12, 0x04, 0x00, 0x00, 0x00, 0x00, 0x00]),
    ("ldxsb",
        Insn::Ldxs { extension: Extension::I8, dst: Register::R1, src: Register::R2, offset: -1 },
        [0x91, 0x21, 0xff, 0xff, 0x00, 0x00, 0x00, 0x00]),
    ("stw",
        Insn::St { size: Size::U32, dst: Register::R10, offset: -4, immediate: 7 },
        [0x62, 0x0a, 0xfc, 0xff, 0x07, 0x00, 0x00, 0x00]),
    ("stxdw",
        Insn::Stx { size: Size::U64, dst: Register::R10, src: Register::R1, offset: -8 },
        [0x7b, 0x1a, 0xf8, 0xff, 0x00, 0x00, 0x00, 0x00]),
    ("compare and exchange",
        Insn::AtomicUpdate { width: Width::Bits64, op: AtomicOp::CompareExchange, dst: Register::R1, src: Register::R2, offset: 8 },
        [0xdb, 0x21, 0x08, 0x00, 0xf1, 0x00, 0x00, 0x00]),
    ("call",
        Insn::CallHelper { helper: 44 },
        [0x85, 0x00, 0x00, 0x00, 0x2c, 0x00, 0x00, 0x00]),
    ("exit",
        Insn::Exit,
        [0x95, 0x00, 0x00, 0x00, 0x00, 0x00, 0x00, 0x00]),
];

/// An image of this slot alone is decoded to the instruction, and encoded again.
fn is_slot_of(rt: &impl Abort, alloc: Global, name: &str, insn: Insn, slot: &[u8]) {
    let bytes = bytes_of(rt, alloc, &HEAD, slot, &[]);
    is_decoded(rt, alloc, name, &bytes, Version::V1, &[insn], 1);
}

#[test]
fn instructions_and_their_slots(rt: HostRuntime) {
    for &(name, insn, slot) in &INSTRUCTIONS {
        is_slot_of(&rt, rt.alloc(), name, insn, &slot);
    }
}

const WIDE_CODE: [Insn; 2] = [
    Insn::Lddw {
        dst: Register::R1,
        value: 0x8877_6655_4433_2211,
    },
    Insn::Ldmap {
        dst: Register::R2,
        map: -1,
    },
];

#[rattlefmt::skip]
static WIDE_BYTES: [u8; 40] = [
    0x58, 0x4c, 0x42, 0x50, 1, 0, 0, 0,
    0x18, 0x01, 0, 0, 0x11, 0x22, 0x33, 0x44, 0, 0, 0, 0, 0x55, 0x66, 0x77, 0x88,
    0x18, 0x12, 0, 0, 0xff, 0xff, 0xff, 0xff, 0, 0, 0, 0, 0, 0, 0, 0,
];

#[test]
fn wide_instructions_and_their_slots(rt: HostRuntime) {
    goes_both_ways(
        &rt,
        rt.alloc(),
        "a number and a map",
        Version::V1,
        &WIDE_CODE,
        4,
        &WIDE_BYTES,
    );
}

// Heads of images with one map, and without a program.
const ONE_MAP: [u8; 8] = [0x58, 0x4c, 0x42, 0x50, 1, 1, 0, 0];

const ONE_WIDER_MAP: [u8; 8] = [0x58, 0x4c, 0x42, 0x50, 2, 1, 0, 0];

#[rattlefmt::skip]
static MAPS: [(&str, [u8; 16], u8); 16] = [
    ("array",                         [0x02, 0x00, 0x00, 0x00, 0x04, 0x00, 0x00, 0x00, 0x08, 0x00, 0x00, 0x00, 0x01, 0x00, 0x00, 0x00], 12),
    ("largest array",                 [0x02, 0x00, 0x00, 0x00, 0x04, 0x00, 0x00, 0x00, 0x40, 0x00, 0x00, 0x00, 0x00, 0x00, 0x02, 0x00], 12),
    ("hash",                          [0x01, 0x00, 0x00, 0x00, 0x04, 0x00, 0x00, 0x00, 0x08, 0x00, 0x00, 0x00, 0x01, 0x00, 0x00, 0x00], 12),
    ("LRU hash",                      [0x09, 0x00, 0x00, 0x00, 0x04, 0x00, 0x00, 0x00, 0x08, 0x00, 0x00, 0x00, 0x01, 0x00, 0x00, 0x00], 12),
    ("largest hash",                  [0x01, 0x00, 0x00, 0x00, 0x20, 0x00, 0x00, 0x00, 0x40, 0x00, 0x00, 0x00, 0x00, 0x00, 0x02, 0x00], 12),
    ("LRU hash with a key of a byte", [0x09, 0x00, 0x00, 0x00, 0x01, 0x00, 0x00, 0x00, 0x08, 0x00, 0x00, 0x00, 0x01, 0x00, 0x00, 0x00], 12),
    ("hash without a key",            [0x01, 0x00, 0x00, 0x00, 0x00, 0x00, 0x00, 0x00, 0x08, 0x00, 0x00, 0x00, 0x01, 0x00, 0x00, 0x00], 11),
    ("hash with a key of 33 bytes",   [0x01, 0x00, 0x00, 0x00, 0x21, 0x00, 0x00, 0x00, 0x08, 0x00, 0x00, 0x00, 0x01, 0x00, 0x00, 0x00], 11),
    ("type 3 is none",                [0x03, 0x00, 0x00, 0x00, 0x04, 0x00, 0x00, 0x00, 0x08, 0x00, 0x00, 0x00, 0x01, 0x00, 0x00, 0x00], 11),
    ("type 258 is none",              [0x02, 0x01, 0x00, 0x00, 0x04, 0x00, 0x00, 0x00, 0x08, 0x00, 0x00, 0x00, 0x01, 0x00, 0x00, 0x00], 11),
    ("array with a key of 8 bytes",   [0x02, 0x00, 0x00, 0x00, 0x08, 0x00, 0x00, 0x00, 0x08, 0x00, 0x00, 0x00, 0x01, 0x00, 0x00, 0x00], 11),
    ("value of 12 bytes",             [0x02, 0x00, 0x00, 0x00, 0x04, 0x00, 0x00, 0x00, 0x0c, 0x00, 0x00, 0x00, 0x01, 0x00, 0x00, 0x00], 11),
    ("value of 0 bytes",              [0x02, 0x00, 0x00, 0x00, 0x04, 0x00, 0x00, 0x00, 0x00, 0x00, 0x00, 0x00, 0x01, 0x00, 0x00, 0x00], 11),
    ("value of 72 bytes",             [0x02, 0x00, 0x00, 0x00, 0x04, 0x00, 0x00, 0x00, 0x48, 0x00, 0x00, 0x00, 0x01, 0x00, 0x00, 0x00], 11),
    ("no entries",                    [0x02, 0x00, 0x00, 0x00, 0x04, 0x00, 0x00, 0x00, 0x08, 0x00, 0x00, 0x00, 0x00, 0x00, 0x00, 0x00], 11),
    ("131073 entries",                [0x02, 0x00, 0x00, 0x00, 0x04, 0x00, 0x00, 0x00, 0x08, 0x00, 0x00, 0x00, 0x01, 0x00, 0x02, 0x00], 11),
];

// In version 2.
#[rattlefmt::skip]
static WIDER_MAPS: [(&str, [u8; 16], u8); 7] = [
    ("array in version 2",
        [0x02, 0x00, 0x00, 0x00, 0x04, 0x00, 0x00, 0x00, 0x08, 0x00, 0x00, 0x00, 0x01, 0x00, 0x00, 0x00], 12),
    ("value of 72 bytes in version 2",
        [0x02, 0x00, 0x00, 0x00, 0x04, 0x00, 0x00, 0x00, 0x48, 0x00, 0x00, 0x00, 0x01, 0x00, 0x00, 0x00], 12),
    ("value of 256 bytes in version 2",
        [0x02, 0x00, 0x00, 0x00, 0x04, 0x00, 0x00, 0x00, 0x00, 0x01, 0x00, 0x00, 0x01, 0x00, 0x00, 0x00], 12),
    ("hash of 256 bytes in version 2",
        [0x01, 0x00, 0x00, 0x00, 0x20, 0x00, 0x00, 0x00, 0x00, 0x01, 0x00, 0x00, 0x01, 0x00, 0x00, 0x00], 12),
    ("value of 264 bytes in version 2",
        [0x02, 0x00, 0x00, 0x00, 0x04, 0x00, 0x00, 0x00, 0x08, 0x01, 0x00, 0x00, 0x01, 0x00, 0x00, 0x00], 11),
    ("value of 68 bytes in version 2",
        [0x02, 0x00, 0x00, 0x00, 0x04, 0x00, 0x00, 0x00, 0x44, 0x00, 0x00, 0x00, 0x01, 0x00, 0x00, 0x00], 11),
    ("type 3 is none in version 2",
        [0x03, 0x00, 0x00, 0x00, 0x04, 0x00, 0x00, 0x00, 0x08, 0x00, 0x00, 0x00, 0x01, 0x00, 0x00, 0x00], 11),
];

#[test]
fn maps(rt: HostRuntime) {
    for &(name, map, want) in &MAPS {
        has_fault(&rt, rt.alloc(), name, &ONE_MAP, &map, &[], want);
    }
    for &(name, map, want) in &WIDER_MAPS {
        has_fault(&rt, rt.alloc(), name, &ONE_WIDER_MAP, &map, &[], want);
    }
}

// What is bpf(2)'s name of a type, its number, and the kind of map that it is.
#[rattlefmt::skip]
static KINDS: [(&str, u8, MapKind); 3] = [
    ("BPF_MAP_TYPE_HASH",     1, MapKind::Hash),
    ("BPF_MAP_TYPE_ARRAY",    2, MapKind::Array),
    ("BPF_MAP_TYPE_LRU_HASH", 9, MapKind::LruHash),
];

/// An image of one map of this type and an exit is decoded to a map of this kind, and encoded again.
fn has_kind(rt: &impl Abort, alloc: Global, name: &str, number: u8, kind: MapKind) {
    let map = [number, 0, 0, 0, 4, 0, 0, 0, 8, 0, 0, 0, 1, 0, 0, 0];
    let bytes = bytes_of(rt, alloc, &ONE_MAP, &map, &[0x95, 0, 0, 0, 0, 0, 0, 0]);
    let image = decode(alloc, &bytes).expect(rt, "an image");
    let want = [MapDef { kind, ..ONE_ENTRY }];
    same_fact(rt, name, "the map", &image.maps(), &want.as_slice());
    is_encoded(rt, alloc, name, &image, &bytes);
}

#[test]
fn kinds_of_maps(rt: HostRuntime) {
    for &(name, number, kind) in &KINDS {
        has_kind(&rt, rt.alloc(), name, number, kind);
    }
}

// A wide slot and the slot after it, in an image of this version.
#[rattlefmt::skip]
static ADDRESSES: [(&str, u8, [u8; 8], [u8; 8], u8); 11] = [
    ("an address in version 2",            2, [0x18, 0x21, 0, 0, 0, 0, 0, 0],    [0, 0, 0, 0, 8, 0, 0, 0],             0),
    ("the largest offset",                 2, [0x18, 0x21, 0, 0, 0, 0, 0, 0],    [0, 0, 0, 0, 0xff, 0xff, 0xff, 0xff], 0),
    ("a map below 0",                      2, [0x18, 0x21, 0, 0, 255, 255, 255, 255], [0, 0, 0, 0, 0, 0, 0, 0],        0),
    ("source 3 in version 2",              2, [0x18, 0x31, 0, 0, 0, 0, 0, 0],    [0, 0, 0, 0, 0, 0, 0, 0],             16),
    ("source 7 in version 2",              2, [0x18, 0x71, 0, 0, 0, 0, 0, 0],    [0, 0, 0, 0, 0, 0, 0, 0],             15),
    ("in register 11",                     2, [0x18, 0x2b, 0, 0, 0, 0, 0, 0],    [0, 0, 0, 0, 0, 0, 0, 0],             17),
    ("an offset field",                    2, [0x18, 0x21, 1, 0, 0, 0, 0, 0],    [0, 0, 0, 0, 0, 0, 0, 0],             18),
    ("a second opcode",                    2, [0x18, 0x21, 0, 0, 0, 0, 0, 0],    [0x95, 0, 0, 0, 0, 0, 0, 0],          18),
    ("a second offset field",              2, [0x18, 0x21, 0, 0, 0, 0, 0, 0],    [0, 0, 0, 1, 0, 0, 0, 0],             18),
    ("a map in version 2",                 2, [0x18, 0x11, 0, 0, 0, 0, 0, 0],    [0, 0, 0, 0, 0, 0, 0, 0],             0),
    ("a map with an offset in version 2",  2, [0x18, 0x11, 0, 0, 0, 0, 0, 0],    [0, 0, 0, 0, 8, 0, 0, 0],             18),
];

#[rattlefmt::skip]
static ADDRESS_BYTES: [u8; 24] = [
    0x58, 0x4c, 0x42, 0x50, 2, 0, 0, 0,
    0x18, 0x21, 0, 0, 0, 0, 0, 0, 0, 0, 0, 0, 8, 0, 0, 0,
];

#[test]
fn addresses_in_values(rt: HostRuntime) {
    for &(name, version, first, second, want) in &ADDRESSES {
        let head = [0x58, 0x4c, 0x42, 0x50, version, 0, 0, 0];
        has_fault(&rt, rt.alloc(), name, &head, &first, &second, want);
    }
    goes_both_ways(
        &rt,
        rt.alloc(),
        "the address of a value",
        Version::V2,
        &[ADDRESS],
        2,
        &ADDRESS_BYTES,
    );
}

#[rattlefmt::skip]
static HEADS: [(&str, [u8; 8], u8); 9] = [
    ("another magic",        [0x59, 0x4c, 0x42, 0x50, 1, 0, 0, 0],    10),
    ("another second byte",  [0x58, 0x4d, 0x42, 0x50, 1, 0, 0, 0],    10),
    ("version 0",            [0x58, 0x4c, 0x42, 0x50, 0, 0, 0, 0],    10),
    ("version 2",            [0x58, 0x4c, 0x42, 0x50, 2, 0, 0, 0],    12),
    ("version 3",            [0x58, 0x4c, 0x42, 0x50, 3, 0, 0, 0],    10),
    ("a cut list of maps",   [0x58, 0x4c, 0x42, 0x50, 1, 1, 0, 0],    10),
    ("seventeen maps",       [0x58, 0x4c, 0x42, 0x50, 1, 17, 0, 0],   10),
    ("a seventh byte of 1",  [0x58, 0x4c, 0x42, 0x50, 1, 0, 1, 0],    10),
    ("an eighth byte of 1",  [0x58, 0x4c, 0x42, 0x50, 1, 0, 0, 1],    10),
];

#[test]
fn heads(rt: HostRuntime) {
    for &(name, head, want) in &HEADS {
        same(&rt, name, &number_of(rt.alloc(), &head), &want);
    }
}

#[test]
fn first_run(rt: HostRuntime) {
    let image = decode(rt.alloc(), &FIRST_RUN_IMAGE).expect(&rt, "an image");
    same(&rt, "instructions", &image.code().len(), &17);
    same(&rt, "maps", &image.maps(), &ARRAY.as_slice());
    is_encoded(&rt, rt.alloc(), "the first run", &image, &FIRST_RUN_IMAGE);
}

/// The fault of an image of these parts, or 0.
fn part_fault(
    rt: &impl Abort,
    alloc: Global,
    version: Version,
    maps: u32,
    map: MapDef,
    code: u32,
    insn: Insn,
) -> u8 {
    let mut all_maps = Vec::new(alloc);
    for _ in 0..maps {
        all_maps.push(map).expect(rt, "room");
    }
    let mut all_code = Vec::new(alloc);
    for _ in 0..code {
        all_code.push(insn).expect(rt, "room");
    }
    match Image::of(version, all_maps, all_code) {
        Ok(_) => 0,
        Err(fault) => fault.number(),
    }
}

const HASH: MapDef = MapDef {
    kind: MapKind::Hash,
    key_size: 4,
    value_size: 8,
    max_entries: 1,
};

const WIDE_VALUE: MapDef = MapDef {
    kind: MapKind::Array,
    key_size: 4,
    value_size: 72,
    max_entries: 1,
};

const WIDE_MOVE: Insn = Insn::Lddw {
    dst: Register::R0,
    value: 0,
};

const ADDRESS: Insn = Insn::Ldval {
    dst: Register::R1,
    map: 0,
    offset: 8,
};

#[rattlefmt::skip]
static PARTS: [(&str, Version, u32, MapDef, u32, Insn, u8); 12] = [
    ("sixteen maps",                     Version::V1, 16, ONE_ENTRY,  1,    Insn::Exit, 0),
    ("seventeen maps",                   Version::V1, 17, ONE_ENTRY,  1,    Insn::Exit, 10),
    ("a hash",                           Version::V1, 1,  HASH,       1,    Insn::Exit, 0),
    ("a value of 72 bytes in version 1", Version::V1, 1,  WIDE_VALUE, 1,    Insn::Exit, 11),
    ("a value of 72 bytes in version 2", Version::V2, 1,  WIDE_VALUE, 1,    Insn::Exit, 0),
    ("maps before instructions",         Version::V1, 17, WIDE_VALUE, 0,    Insn::Exit, 10),
    ("no instruction",                   Version::V1, 0,  ONE_ENTRY,  0,    Insn::Exit, 12),
    ("4096 instructions",                Version::V1, 0,  ONE_ENTRY,  4096, Insn::Exit, 0),
    ("4097 instructions",                Version::V1, 0,  ONE_ENTRY,  4097, Insn::Exit, 14),
    ("2049 wide instructions",           Version::V1, 0,  ONE_ENTRY,  2049, WIDE_MOVE,  14),
    ("an address in version 1",          Version::V1, 0,  ONE_ENTRY,  2,    ADDRESS,    16),
    ("an address in version 2",          Version::V2, 0,  ONE_ENTRY,  2,    ADDRESS,    0),
];

#[test]
fn images_of_parts(rt: HostRuntime) {
    for &(name, version, maps, map, code, insn, want) in &PARTS {
        let number = part_fault(&rt, rt.alloc(), version, maps, map, code, insn);
        same(&rt, name, &number, &want);
    }
}

#[rattlefmt::skip]
static TEXTS: [(DecodeFault, &str); 11] = [
    (DecodeFault::BadHead,                   "fault 10 BadHead"),
    (DecodeFault::BadMap { map: 0 },         "fault 11 BadMap map 0"),
    (DecodeFault::Empty,                     "fault 12 Empty"),
    (DecodeFault::NotWhole,                  "fault 13 NotWhole"),
    (DecodeFault::TooLong,                   "fault 14 TooLong"),
    (DecodeFault::UnknownOpcode { slot: 0 }, "fault 15 UnknownOpcode slot 0"),
    (DecodeFault::NotInProfile { slot: 1 },  "fault 16 NotInProfile slot 1"),
    (DecodeFault::BadRegister { slot: 2 },   "fault 17 BadRegister slot 2"),
    (DecodeFault::FieldNotZero { slot: 3 },  "fault 18 FieldNotZero slot 3"),
    (DecodeFault::WideCut { slot: 4095 },    "fault 19 WideCut slot 4095"),
    (DecodeFault::Memory,                    "fault 20 Memory"),
];

#[test]
fn texts(rt: HostRuntime) {
    for &(fault, want) in &TEXTS {
        prints(&rt, rt.alloc(), &fault, want);
    }
}

#[test]
fn laws() {
    one_encoding();
}
