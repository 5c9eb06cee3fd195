//! Loads and stores of each size, on the packet and on the stack.

use super::listing::{EXIT, checked};
use super::programs::{MOMENT, accepted, ran};
use crate::asserting::{same, same_fact};
use ebpf_decode::Insn;
use isa::Register::{R0, R1, R2, R5, R10};
use isa::{Extension, Register, Size};
use machine::Exit;
use semantics::Verdict;
use std::alloc::Global;
use std::process::Abort;
use test_support::{lddw, load, number, put, store};

const NUMBER: u64 = 0x1122334455667788;

/// There are this many bytes, and the first of them are these.
fn begins_with(rt: &impl Abort, name: &str, bytes: &[u8], length: usize, want: &[u8]) {
    same_fact(rt, name, "the length", &bytes.len(), &length);
    let begins = bytes.get(..want.len());
    same_fact(rt, name, "the first bytes", &begins, &Some(want));
}

/// A run passes after this many instructions, and the frame, as long as before, begins with these bytes.
fn passes(
    rt: &impl Abort,
    alloc: Global,
    head: &[Insn],
    tail: &[Insn],
    bytes: &[u8],
    steps: u64,
    want: &[u8],
    name: &str,
) {
    let verified = accepted(rt, alloc, &[], head, tail);
    let ran = ran(rt, alloc, &verified, &MOMENT, bytes).expect(rt, "a frame");
    let exit = Exit {
        verdict: Verdict::Pass,
        steps,
    };
    same(rt, name, &ran.exit, &exit);
    begins_with(rt, name, ran.frame.bytes(), bytes.len(), want);
}

#[rattlefmt::skip]
static STORES: [(&str, Size, i16, [u8; 16]); 5] = [
    ("a byte",
        Size::U8,  0, [0x88, 0xaa, 0xaa, 0xaa, 0xaa, 0xaa, 0xaa, 0xaa, 0xaa, 0xaa, 0xaa, 0xaa, 0xaa, 0xaa, 0xaa, 0xaa]),
    ("two bytes",
        Size::U16, 3, [0xaa, 0xaa, 0xaa, 0x88, 0x77, 0xaa, 0xaa, 0xaa, 0xaa, 0xaa, 0xaa, 0xaa, 0xaa, 0xaa, 0xaa, 0xaa]),
    ("four bytes",
        Size::U32, 5, [0xaa, 0xaa, 0xaa, 0xaa, 0xaa, 0x88, 0x77, 0x66, 0x55, 0xaa, 0xaa, 0xaa, 0xaa, 0xaa, 0xaa, 0xaa]),
    ("eight bytes",
        Size::U64, 1, [0xaa, 0x88, 0x77, 0x66, 0x55, 0x44, 0x33, 0x22, 0x11, 0xaa, 0xaa, 0xaa, 0xaa, 0xaa, 0xaa, 0xaa]),
    ("the last eight bytes",
        Size::U64, 8, [0xaa, 0xaa, 0xaa, 0xaa, 0xaa, 0xaa, 0xaa, 0xaa, 0x88, 0x77, 0x66, 0x55, 0x44, 0x33, 0x22, 0x11]),
];

/// The low bytes of a register, the lowest first; the bytes beside them stay.
#[test]
fn stores_of_a_register(rt: HostRuntime) {
    for &(name, size, offset, want) in &STORES {
        let tail = [lddw!(R5, NUMBER), put!(size, R2, offset, R5), EXIT];
        let head = checked!(16, 3);
        passes(&rt, rt.alloc(), &head, &tail, &[0xaa; 16], 9, &want, name);
    }
}

#[rattlefmt::skip]
static IMMEDIATES: [(&str, Size, i32, u64); 6] = [
    ("a byte of -2",             Size::U8,  -2,         0xaaaa_aaaa_aaaa_aafe),
    ("two bytes of -2",          Size::U16, -2,         0xaaaa_aaaa_aaaa_fffe),
    ("four bytes of -2",         Size::U32, -2,         0xaaaa_aaaa_ffff_fffe),
    ("eight bytes of -2",        Size::U64, -2,         0xffff_ffff_ffff_fffe),
    ("a byte of what is longer", Size::U8,  0x01020304, 0xaaaa_aaaa_aaaa_aa04),
    ("eight bytes, zero-filled", Size::U64, 0x01020304, 0x0000_0000_0102_0304),
];

#[test]
fn stores_of_an_immediate(rt: HostRuntime) {
    for &(name, size, immediate, want) in &IMMEDIATES {
        let tail = [store!(size, R2, 0, immediate), EXIT];
        let head = checked!(16, 1);
        let bytes = want.to_le_bytes();
        passes(&rt, rt.alloc(), &head, &tail, &[0xaa; 16], 8, &bytes, name);
    }
}

const BYTES: [u8; 16] = [
    0, 0, 0, 0, 0, 0, 0, 0, 0x80, 0x81, 0x7f, 0xf3, 0x00, 0x00, 0x00, 0x80,
];

#[rattlefmt::skip]
static LOADS: [(&str, Insn, u64); 11] = [
    ("a byte",                      Insn::Ldx { size: Size::U8, dst: Register::R5, src: Register::R2, offset: 8 },             0x80),
    ("two bytes",                   Insn::Ldx { size: Size::U16, dst: Register::R5, src: Register::R2, offset: 8 },            0x8180),
    ("four bytes",                  Insn::Ldx { size: Size::U32, dst: Register::R5, src: Register::R2, offset: 8 },            0xf37f8180),
    ("eight bytes",
        Insn::Ldx { size: Size::U64, dst: Register::R5, src: Register::R2, offset: 8 },            0x80000000f37f8180),
    ("a negative byte",
        Insn::Ldxs { extension: Extension::I8, dst: Register::R5, src: Register::R2, offset: 8 },  0xffffffffffffff80),
    ("a byte that is not negative", Insn::Ldxs { extension: Extension::I8, dst: Register::R5, src: Register::R2, offset: 10 }, 0x7f),
    ("two negative bytes",
        Insn::Ldxs { extension: Extension::I16, dst: Register::R5, src: Register::R2, offset: 8 }, 0xffffffffffff8180),
    ("two that are not negative",   Insn::Ldxs { extension: Extension::I16, dst: Register::R5, src: Register::R2, offset: 9 }, 0x7f81),
    ("four negative bytes",
        Insn::Ldxs { extension: Extension::I32, dst: Register::R5, src: Register::R2, offset: 8 }, 0xfffffffff37f8180),
    ("four that are not negative",  Insn::Ldxs { extension: Extension::I32, dst: Register::R5, src: Register::R2, offset: 9 }, 0xf37f81),
    ("the least of four bytes",
        Insn::Ldxs { extension: Extension::I32, dst: Register::R5, src: Register::R2, offset: 12 }, 0xffffffff80000000),
];

#[test]
fn loads_from_the_packet(rt: HostRuntime) {
    for &(name, insn, want) in &LOADS {
        let tail = [insn, put!(Size::U64, R2, 0, R5), EXIT];
        let head = checked!(16, 2);
        let bytes = want.to_le_bytes();
        passes(&rt, rt.alloc(), &head, &tail, &BYTES, 9, &bytes, name);
    }
}

#[rattlefmt::skip]
static STACK_LOADS: [(&str, i16, Insn, u64); 9] = [
    ("a byte",              -8,   Insn::Ldx { size: Size::U8, dst: Register::R5, src: Register::R10, offset: -8 },             0x80),
    ("the byte above it",   -8,   Insn::Ldx { size: Size::U8, dst: Register::R5, src: Register::R10, offset: -7 },             0x81),
    ("two bytes",           -8,   Insn::Ldx { size: Size::U16, dst: Register::R5, src: Register::R10, offset: -6 },            0xf37f),
    ("four bytes",          -8,   Insn::Ldx { size: Size::U32, dst: Register::R5, src: Register::R10, offset: -4 },            0x80000000),
    ("eight bytes",
        -8,   Insn::Ldx { size: Size::U64, dst: Register::R5, src: Register::R10, offset: -8 },            0x80000000f37f8180),
    ("a negative byte",
        -8,   Insn::Ldxs { extension: Extension::I8, dst: Register::R5, src: Register::R10, offset: -8 },  0xffffffffffffff80),
    ("two negative bytes",
        -8,   Insn::Ldxs { extension: Extension::I16, dst: Register::R5, src: Register::R10, offset: -6 }, 0xfffffffffffff37f),
    ("four negative bytes",
        -8,   Insn::Ldxs { extension: Extension::I32, dst: Register::R5, src: Register::R10, offset: -4 }, 0xffffffff80000000),
    ("the lowest word",
        -512, Insn::Ldx { size: Size::U64, dst: Register::R5, src: Register::R10, offset: -512 },          0x80000000f37f8180),
];

#[test]
fn loads_from_the_stack(rt: HostRuntime) {
    for &(name, place, insn, want) in &STACK_LOADS {
        let tail = [
            lddw!(R5, 0x80000000f37f8180),
            put!(Size::U64, R10, place, R5),
            insn,
            put!(Size::U64, R2, 0, R5),
            EXIT,
        ];
        let head = checked!(14, 5);
        let bytes = want.to_le_bytes();
        passes(&rt, rt.alloc(), &head, &tail, &[0; 14], 11, &bytes, name);
    }
}

/// A word of the stack is what its halves are.
#[test]
fn a_word_of_two_halves(rt: HostRuntime) {
    let tail = [
        store!(Size::U32, R10, -16, 1),
        store!(Size::U32, R10, -12, -2),
        load!(Size::U64, R5, R10, -16),
        put!(Size::U64, R2, 0, R5),
        EXIT,
    ];
    let head = checked!(14, 4);
    let bytes = 0xfffffffe00000001u64.to_le_bytes();
    passes(
        &rt,
        rt.alloc(),
        &head,
        &tail,
        &[0; 14],
        11,
        &bytes,
        "two halves",
    );
}

/// A number over a spilled pointer is a number again.
#[test]
fn a_number_over_a_spilled_pointer(rt: HostRuntime) {
    let head = [
        number!(R0, 0),
        put!(Size::U64, R10, -8, R1),
        store!(Size::U64, R10, -8, 2),
        load!(Size::U64, R0, R10, -8),
    ];
    passes(
        &rt,
        rt.alloc(),
        &head,
        &[EXIT],
        &[0; 14],
        5,
        &[],
        "2 passes",
    );
}
