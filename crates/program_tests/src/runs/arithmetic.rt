//! Each row of the arithmetic, as an instruction of a program that stores what it returns on the packet.

use super::listing::{EXIT, checked};
use super::programs::{MOMENT, accepted, has_number, ran};
use crate::asserting::same;
use ebpf_decode::Insn;
use isa::Register::{R0, R2, R5, R6};
use isa::{
    AluOp, ByteOrder, Extension, ShortExtension, Size, SourceOperand, SwapWidth, Test, Width,
};
use machine::Exit;
use semantics::Verdict;
use std::alloc::Global;
use std::process::Abort;
use test_support::{lddw, number, put};

const LEAST64: u64 = 0x8000000000000000;

const LEAST32: u64 = 0x80000000;

const MINUS_ONE: u64 = 0xffffffffffffffff;

const NUMBER: u64 = 0x1122334455667788;

/// One number in R5 and one in R6, an instruction, and then R5 on the packet.
fn gives(rt: &impl Abort, alloc: Global, insn: Insn, a: u64, b: u64, want: u64, name: &str) {
    let tail = [
        lddw!(R5, a),
        lddw!(R6, b),
        insn,
        put!(Size::U64, R2, 0, R5),
        EXIT,
    ];
    let verified = accepted(rt, alloc, &[], &checked!(14, 6), &tail);
    let ran = ran(rt, alloc, &verified, &MOMENT, &[0; 14]).expect(rt, "a frame");
    let exit = Exit {
        verdict: Verdict::Pass,
        steps: 11,
    };
    same(rt, name, &ran.exit, &exit);
    has_number(rt, &ran.frame, want, name);
}

#[rattlefmt::skip]
static WIDE_ROWS: [(&str, AluOp, u64, u64, u64); 34] = [
    ("add wraps",                          AluOp::Add,  MINUS_ONE,          2,                  1),
    ("sub wraps",                          AluOp::Sub,  0,                  1,                  MINUS_ONE),
    ("mul wraps",                          AluOp::Mul,  0x100000001,        0x100000000,        0x100000000),
    ("div by zero is zero",                AluOp::Div,  7,                  0,                  0),
    ("div is unsigned",                    AluOp::Div,  MINUS_ONE,          2,                  0x7fffffffffffffff),
    ("div by -1 read as 2^64 - 1",         AluOp::Div,  0x1ffffffff,        MINUS_ONE,          0),
    ("sdiv goes toward zero",              AluOp::Sdiv, 0xfffffffffffffff3, 3,                  0xfffffffffffffffc),
    ("sdiv by a negative",                 AluOp::Sdiv, 13,                 0xfffffffffffffffd, 0xfffffffffffffffc),
    ("sdiv of two negatives",              AluOp::Sdiv, 0xfffffffffffffff3, 0xfffffffffffffffd, 4),
    ("sdiv of the least by -1 is itself",  AluOp::Sdiv, LEAST64,            MINUS_ONE,          LEAST64),
    ("sdiv by zero is zero",               AluOp::Sdiv, LEAST64,            0,                  0),
    ("or",                                 AluOp::Or,   0xf0f0,             0x00ff,             0xf0ff),
    ("and",                                AluOp::And,  0xf0f0,             0x00ff,             0x00f0),
    ("xor",                                AluOp::Xor,  0xf0f0,             0x00ff,             0xf00f),
    ("lsh by 63",                          AluOp::Lsh,  3,                  63,                 LEAST64),
    ("lsh by 64 changes nothing",          AluOp::Lsh,  0x1234,             64,                 0x1234),
    ("lsh by 65 shifts by one",            AluOp::Lsh,  0x1234,             65,                 0x2468),
    ("rsh brings in zeros",                AluOp::Rsh,  LEAST64,            63,                 1),
    ("rsh by 64 changes nothing",          AluOp::Rsh,  0x1234,             64,                 0x1234),
    ("rsh masks a large count",            AluOp::Rsh,  0x10,               MINUS_ONE,          0),
    ("mod",                                AluOp::Mod,  17,                 5,                  2),
    ("mod by zero keeps the whole number", AluOp::Mod,  0xffffffff00000007, 0,                  0xffffffff00000007),
    ("mod is unsigned",                    AluOp::Mod,  MINUS_ONE,          10,                 5),
    ("smod has the sign of the dividend",  AluOp::Smod, 0xfffffffffffffff3, 3,                  MINUS_ONE),
    ("smod by a negative",                 AluOp::Smod, 13,                 0xfffffffffffffffd, 1),
    ("smod of the least by -1 is zero",    AluOp::Smod, LEAST64,            MINUS_ONE,          0),
    ("smod by zero keeps the number",      AluOp::Smod, 0xfffffffffffffff3, 0,                  0xfffffffffffffff3),
    ("mov",                                AluOp::Mov,  5,                  MINUS_ONE,          MINUS_ONE),
    ("arsh copies the sign",               AluOp::Arsh, LEAST64,            4,                  0xf800000000000000),
    ("arsh of a positive",                 AluOp::Arsh, 0x7fffffffffffffff, 62,                 1),
    ("arsh of -1 stays",                   AluOp::Arsh, MINUS_ONE,          63,                 MINUS_ONE),
    ("arsh rounds down",                   AluOp::Arsh, 0xfffffffffffffffd, 1,                  0xfffffffffffffffe),
    ("arsh by 64 changes nothing",         AluOp::Arsh, LEAST64,            64,                 LEAST64),
    ("add of two halves",                  AluOp::Add,  LEAST64,            LEAST64,            0),
];

#[test]
fn arithmetic_on_64_bits(rt: HostRuntime) {
    for &(name, op, a, b, want) in &WIDE_ROWS {
        let insn = Insn::Alu {
            width: Width::Bits64,
            op,
            dst: R5,
            source: SourceOperand::Reg(R6),
        };
        gives(&rt, rt.alloc(), insn, a, b, want, name);
    }
}

#[rattlefmt::skip]
static HALF_ROWS: [(&str, AluOp, u64, u64, u64); 24] = [
    ("add wraps at 32 bits",                 AluOp::Add,  0xffffffff,         1,                  0),
    ("add reads low halves",                 AluOp::Add,  0xaaaaaaaa00000001, 0xbbbbbbbb00000002, 3),
    ("sub wraps at 32 bits",                 AluOp::Sub,  0,                  1,                  0xffffffff),
    ("mul wraps at 32 bits",                 AluOp::Mul,  0x10001,            0x10000,            0x10000),
    ("div by zero is zero",                  AluOp::Div,  7,                  0xffffffff00000000, 0),
    ("div by -1 read as 2^32 - 1",           AluOp::Div,  0x1ffffffff,        MINUS_ONE,          1),
    ("sdiv goes toward zero",                AluOp::Sdiv, 0xfffffff3,         3,                  0xfffffffc),
    ("sdiv of the least by -1 is itself",    AluOp::Sdiv, LEAST32,            MINUS_ONE,          LEAST32),
    ("or is zero-extended",                  AluOp::Or,   MINUS_ONE,          0,                  0xffffffff),
    ("and",                                  AluOp::And,  0xf0f0f0f0f0f0f0f0, MINUS_ONE,          0xf0f0f0f0),
    ("xor is zero-extended",                 AluOp::Xor,  0xffffffff00000000, 0x00000000ffffffff, 0xffffffff),
    ("lsh of 1 by 33 is 2",                  AluOp::Lsh,  1,                  33,                 2),
    ("lsh by 32 changes nothing",            AluOp::Lsh,  0x1234,             32,                 0x1234),
    ("lsh drops what leaves the half",       AluOp::Lsh,  0x80000001,         1,                  2),
    ("rsh brings no bit from above",         AluOp::Rsh,  0xffffffff00000000, 1,                  0),
    ("rsh masks its count with 31",          AluOp::Rsh,  0x80000000,         63,                 1),
    ("mod by zero keeps the low half alone", AluOp::Mod,  0xffffffff00000007, 0,                  0x0000000000000007),
    ("mod",                                  AluOp::Mod,  0x100000011,        5,                  2),
    ("smod has the sign of the dividend",    AluOp::Smod, 0xfffffff3,         3,                  0xffffffff),
    ("smod of the least by -1 is zero",      AluOp::Smod, LEAST32,            MINUS_ONE,          0),
    ("smod by zero keeps the low half",      AluOp::Smod, 0x1fffffff3,        0,                  0xfffffff3),
    ("mov is zero-extended",                 AluOp::Mov,  5,                  MINUS_ONE,          0xffffffff),
    ("arsh copies bit 31",                   AluOp::Arsh, LEAST32,            1,                  0xc0000000),
    ("arsh doesn't read bit 63",             AluOp::Arsh, 0xffffffff40000000, 1,                  0x20000000),
];

#[test]
fn arithmetic_on_32_bits(rt: HostRuntime) {
    for &(name, op, a, b, want) in &HALF_ROWS {
        let insn = Insn::Alu {
            width: Width::Bits32,
            op,
            dst: R5,
            source: SourceOperand::Reg(R6),
        };
        gives(&rt, rt.alloc(), insn, a, b, want, name);
    }
}

#[rattlefmt::skip]
static IMMEDIATES: [(&str, Width, AluOp, u64, i32, u64); 7] = [
    ("-1 on 64 bits",                   Width::Bits64, AluOp::Mov,  0,        -1, MINUS_ONE),
    ("-1 on 32 bits",                   Width::Bits32, AluOp::Mov,  0,        -1, 0xffffffff),
    ("the sign counts on 64 bits",      Width::Bits64, AluOp::Add,  NUMBER,   -1, 0x1122334455667787),
    ("div by -1 read as 2^64 - 1",      Width::Bits64, AluOp::Div,  7,        -1, 0),
    ("33 bits by -1 on 64 bits",        Width::Bits64, AluOp::Div,  0x1ffffffff, -1, 0),
    ("33 bits by -1 on 32 bits",        Width::Bits32, AluOp::Div,  0x1ffffffff, -1, 1),
    ("and by a negative",               Width::Bits64, AluOp::And,  NUMBER,  -16, 0x1122334455667780),
];

#[test]
fn immediates(rt: HostRuntime) {
    for &(name, width, op, a, immediate, want) in &IMMEDIATES {
        let insn = Insn::Alu {
            width,
            op,
            dst: R5,
            source: SourceOperand::Imm(immediate),
        };
        gives(&rt, rt.alloc(), insn, a, 0, want, name);
    }
}

#[rattlefmt::skip]
static NEGATIONS: [(&str, u64, u64, u64); 5] = [
    ("zero",                     0,                  0,                  0),
    ("one",                      1,                  MINUS_ONE,          0xffffffff),
    ("the least of 64 bits",     LEAST64,            LEAST64,            0),
    ("the least of 32 bits",     LEAST32,            0xffffffff80000000, LEAST32),
    ("a high half is left out",  0xffffffff00000001, 0x00000000ffffffff, 0xffffffff),
];

#[test]
fn negation(rt: HostRuntime) {
    for &(name, a, want, want_half) in &NEGATIONS {
        let wide = Insn::Neg {
            width: Width::Bits64,
            dst: R5,
        };
        gives(&rt, rt.alloc(), wide, a, 0, want, name);
        let half = Insn::Neg {
            width: Width::Bits32,
            dst: R5,
        };
        gives(&rt, rt.alloc(), half, a, 0, want_half, name);
    }
}

#[rattlefmt::skip]
static EXTENSIONS: [(&str, Extension, u64, u64); 7] = [
    ("80 read as 8 bits is negative",     Extension::I8,  0x80,               0xffffffffffffff80),
    ("7f read as 8 bits is not",          Extension::I8,  0xff7f,             0x7f),
    ("8000 read as 16 bits is negative",  Extension::I16, 0x8000,             0xffffffffffff8000),
    ("7fff read as 16 bits is not",       Extension::I16, 0xffff7fff,         0x7fff),
    ("80000000 as 32 bits is negative",   Extension::I32, 0x80000000,         0xffffffff80000000),
    ("7fffffff as 32 bits is not",        Extension::I32, 0xffffffff7fffffff, 0x7fffffff),
    ("only the low bits count",           Extension::I8,  0x123456789abcdef0, 0xfffffffffffffff0),
];

#[rattlefmt::skip]
static SHORT_EXTENSIONS: [(&str, ShortExtension, u64, u64); 4] = [
    ("80 is extended to 32 bits alone",    ShortExtension::Short8,  0x80,       0xffffff80),
    ("7f stays",                           ShortExtension::Short8,  0xff7f,     0x7f),
    ("8000 is extended to 32 bits alone",  ShortExtension::Short16, 0x8000,     0xffff8000),
    ("7fff stays",                         ShortExtension::Short16, 0xffff7fff, 0x7fff),
];

#[test]
fn sign_extension(rt: HostRuntime) {
    for &(name, extension, b, want) in &EXTENSIONS {
        let insn = Insn::Movsx {
            extension,
            dst: R5,
            src: R6,
        };
        gives(&rt, rt.alloc(), insn, NUMBER, b, want, name);
    }
    for &(name, extension, b, want) in &SHORT_EXTENSIONS {
        let insn = Insn::Movsx32 {
            extension,
            dst: R5,
            src: R6,
        };
        gives(&rt, rt.alloc(), insn, NUMBER, b, want, name);
    }
}

#[rattlefmt::skip]
static SWAPS: [(&str, ByteOrder, SwapWidth, u64); 9] = [
    ("swap16",             ByteOrder::Swapped,  SwapWidth::Swap16, 0x8877),
    ("swap32",             ByteOrder::Swapped,  SwapWidth::Swap32, 0x88776655),
    ("swap64",             ByteOrder::Swapped,  SwapWidth::Swap64, 0x8877665544332211),
    ("be16",               ByteOrder::ToBig,    SwapWidth::Swap16, 0x8877),
    ("be32",               ByteOrder::ToBig,    SwapWidth::Swap32, 0x88776655),
    ("be64",               ByteOrder::ToBig,    SwapWidth::Swap64, 0x8877665544332211),
    ("le16 cuts",          ByteOrder::ToLittle, SwapWidth::Swap16, 0x7788),
    ("le32 cuts",          ByteOrder::ToLittle, SwapWidth::Swap32, 0x55667788),
    ("le64 does nothing",  ByteOrder::ToLittle, SwapWidth::Swap64, NUMBER),
];

#[test]
fn byte_swaps(rt: HostRuntime) {
    for &(name, order, swap_width, want) in &SWAPS {
        let insn = Insn::End {
            order,
            swap_width,
            dst: R5,
        };
        gives(&rt, rt.alloc(), insn, NUMBER, 0, want, name);
    }
}

#[rattlefmt::skip]
static TESTS: [(&str, Test, u64, u64, bool, bool); 23] = [
    ("eq of equals",                       Test::Eq,  5,                  5,           true,  true),
    ("eq looks at low halves on 32 bits",  Test::Eq,  0x100000005,        5,           false, true),
    ("ne of equals",                       Test::Ne,  5,                  5,           false, false),
    ("ne looks at low halves on 32 bits",  Test::Ne,  0x100000005,        5,           true,  false),
    ("gt of equals",                       Test::Gt,  5,                  5,           false, false),
    ("gt is unsigned",                     Test::Gt,  MINUS_ONE,          1,           true,  true),
    ("ge of equals",                       Test::Ge,  5,                  5,           true,  true),
    ("ge of a smaller",                    Test::Ge,  4,                  5,           false, false),
    ("lt is unsigned",                     Test::Lt,  MINUS_ONE,          1,           false, false),
    ("lt of equals",                       Test::Lt,  5,                  5,           false, false),
    ("le of equals",                       Test::Le,  5,                  5,           true,  true),
    ("le looks at low halves on 32 bits",  Test::Le,  0x100000000,        5,           false, true),
    ("set shares a bit",                   Test::Set, 6,                  3,           true,  true),
    ("set shares none",                    Test::Set, 4,                  3,           false, false),
    ("set shares a high bit alone",        Test::Set, 0x100000000,        MINUS_ONE,   true,  false),
    ("sgt of -1 and 1",                    Test::Sgt, MINUS_ONE,          1,           false, false),
    ("sgt of 1 and -1",                    Test::Sgt, 1,                  MINUS_ONE,   true,  true),
    ("sge of equal negatives",             Test::Sge, MINUS_ONE,          MINUS_ONE,   true,  true),
    ("slt: the half is negative",          Test::Slt, 0x1ffffffff,        0,           false, true),
    ("slt of equals",                      Test::Slt, LEAST64,            LEAST64,     false, false),
    ("slt of the least and 0",             Test::Slt, LEAST64,            0,           true,  false),
    ("sle of equals",                      Test::Sle, LEAST64,            LEAST64,     true,  true),
    ("sle of -1 and 0",                    Test::Sle, MINUS_ONE,          0,           true,  true),
];

/// A test of R5 against R6 jumps to the exit with 2 in R0, or goes on with 1: a step more.
fn branches(
    rt: &impl Abort,
    alloc: Global,
    width: Width,
    test: Test,
    a: u64,
    b: u64,
    taken: bool,
    name: &str,
) {
    let jump = Insn::JumpIf {
        width,
        test,
        dst: R5,
        source: SourceOperand::Reg(R6),
        distance: 1,
    };
    let head = [lddw!(R5, a), lddw!(R6, b), number!(R0, 2), jump];
    let verified = accepted(rt, alloc, &[], &head, &[number!(R0, 1), EXIT]);
    let ran = ran(rt, alloc, &verified, &MOMENT, &[0; 14]).expect(rt, "a frame");
    let verdict = if taken { Verdict::Pass } else { Verdict::Drop };
    let steps = if taken { 5 } else { 6 };
    same(rt, name, &ran.exit, &Exit { verdict, steps });
}

#[test]
fn tests_of_jumps(rt: HostRuntime) {
    for &(name, test, a, b, taken, taken_half) in &TESTS {
        branches(&rt, rt.alloc(), Width::Bits64, test, a, b, taken, name);
        branches(&rt, rt.alloc(), Width::Bits32, test, a, b, taken_half, name);
    }
}
