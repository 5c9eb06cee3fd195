//! Worked rows of the tables, each named by what it shows.

use crate::asserting::{same, same_fact};
use isa::{
    AluOp, AtomicOp, ByteOrder, Extension, ShortExtension, SwapWidth, Test, Width, alu32, alu64,
    atomic, movsx32, movsx64, neg32, neg64, sign_extend_immediate, swap, test32, test64,
};

const LEAST64: u64 = 0x8000000000000000;

const LEAST32: u64 = 0x80000000;

const MINUS_ONE: u64 = 0xffffffffffffffff;

const NUMBER: u64 = 0x1122334455667788;

#[rattlefmt::skip]
static WIDE_ROWS: [(&str, AluOp, u64, u64, u64); 27] = [
    ("add wraps",                          AluOp::Add,  MINUS_ONE,          2,                  1),
    ("sub wraps",                          AluOp::Sub,  0,                  1,                  MINUS_ONE),
    ("mul wraps",                          AluOp::Mul,  0x100000001,        0x100000000,        0x100000000),
    ("div is unsigned",                    AluOp::Div,  MINUS_ONE,          2,                  0x7fffffffffffffff),
    ("sdiv by a negative",                 AluOp::Sdiv, 13,                 0xfffffffffffffffd, 0xfffffffffffffffc),
    ("sdiv of two negatives",              AluOp::Sdiv, 0xfffffffffffffff3, 0xfffffffffffffffd, 4),
    ("sdiv by zero is zero",               AluOp::Sdiv, LEAST64,            0,                  0),
    ("or",                                 AluOp::Or,   0xf0f0,             0x00ff,             0xf0ff),
    ("and",                                AluOp::And,  0xf0f0,             0x00ff,             0x00f0),
    ("xor",                                AluOp::Xor,  0xf0f0,             0x00ff,             0xf00f),
    ("lsh by 63",                          AluOp::Lsh,  3,                  63,                 LEAST64),
    ("lsh by 64 changes nothing",          AluOp::Lsh,  0x1234,             64,                 0x1234),
    ("lsh by 65 shifts by one",            AluOp::Lsh,  0x1234,             65,                 0x2468),
    ("rsh brings in zeros",                AluOp::Rsh,  LEAST64,            63,                 1),
    ("rsh by 64 changes nothing",          AluOp::Rsh,  0x1234,             64,                 0x1234),
    ("rsh masks a large count",            AluOp::Rsh,  0x10,               MINUS_ONE,          0),
    ("mod",                                AluOp::Mod,  17,                 5,                  2),
    ("mod is unsigned",                    AluOp::Mod,  MINUS_ONE,          10,                 5),
    ("smod by a negative",                 AluOp::Smod, 13,                 0xfffffffffffffffd, 1),
    ("smod by zero keeps the number",      AluOp::Smod, 0xfffffffffffffff3, 0,                  0xfffffffffffffff3),
    ("mov",                                AluOp::Mov,  5,                  MINUS_ONE,          MINUS_ONE),
    ("arsh copies the sign",               AluOp::Arsh, LEAST64,            4,                  0xf800000000000000),
    ("arsh of a positive",                 AluOp::Arsh, 0x7fffffffffffffff, 62,                 1),
    ("arsh of -1 stays",                   AluOp::Arsh, MINUS_ONE,          63,                 MINUS_ONE),
    ("arsh rounds down",                   AluOp::Arsh, 0xfffffffffffffffd, 1,                  0xfffffffffffffffe),
    ("arsh by 64 changes nothing",         AluOp::Arsh, LEAST64,            64,                 LEAST64),
    ("add of two halves",                  AluOp::Add,  LEAST64,            LEAST64,            0),
];

#[test]
fn arithmetic_on_64_bits(rt: HostRuntime) {
    for &(name, operation, a, b, wanted) in &WIDE_ROWS {
        same(&rt, name, &alu64(operation, a, b), &wanted);
    }
}

#[rattlefmt::skip]
static HALF_ROWS: [(&str, AluOp, u64, u64, u64); 19] = [
    ("add wraps at 32 bits",                 AluOp::Add,  0xffffffff,         1,                  0),
    ("add reads low halves",                 AluOp::Add,  0xaaaaaaaa00000001, 0xbbbbbbbb00000002, 3),
    ("sub wraps at 32 bits",                 AluOp::Sub,  0,                  1,                  0xffffffff),
    ("mul wraps at 32 bits",                 AluOp::Mul,  0x10001,            0x10000,            0x10000),
    ("div by zero is zero",                  AluOp::Div,  7,                  0xffffffff00000000, 0),
    ("sdiv goes toward zero",                AluOp::Sdiv, 0xfffffff3,         3,                  0xfffffffc),
    ("or is zero-extended",                  AluOp::Or,   MINUS_ONE,          0,                  0xffffffff),
    ("and",                                  AluOp::And,  0xf0f0f0f0f0f0f0f0, MINUS_ONE,          0xf0f0f0f0),
    ("xor is zero-extended",                 AluOp::Xor,  0xffffffff00000000, 0x00000000ffffffff, 0xffffffff),
    ("lsh by 32 changes nothing",            AluOp::Lsh,  0x1234,             32,                 0x1234),
    ("lsh drops what leaves the half",       AluOp::Lsh,  0x80000001,         1,                  2),
    ("rsh brings no bit from above",         AluOp::Rsh,  0xffffffff00000000, 1,                  0),
    ("rsh masks its count with 31",          AluOp::Rsh,  0x80000000,         63,                 1),
    ("mod",                                  AluOp::Mod,  0x100000011,        5,                  2),
    ("smod has the sign of the dividend",    AluOp::Smod, 0xfffffff3,         3,                  0xffffffff),
    ("smod of the least by -1 is zero",      AluOp::Smod, LEAST32,            MINUS_ONE,          0),
    ("smod by zero keeps the low half",      AluOp::Smod, 0x1fffffff3,        0,                  0xfffffff3),
    ("mov is zero-extended",                 AluOp::Mov,  5,                  MINUS_ONE,          0xffffffff),
    ("arsh doesn't read bit 63",             AluOp::Arsh, 0xffffffff40000000, 1,                  0x20000000),
];

#[test]
fn arithmetic_on_32_bits(rt: HostRuntime) {
    for &(name, operation, a, b, wanted) in &HALF_ROWS {
        same(&rt, name, &alu32(operation, a, b), &wanted);
    }
}

#[rattlefmt::skip]
static NEGATIONS: [(&str, u64, u64, u64); 5] = [
    ("zero",                     0,                  0,                  0),
    ("one",                      1,                  MINUS_ONE,          0xffffffff),
    ("the least of 64 bits",     LEAST64,            LEAST64,            0),
    ("the least of 32 bits",     LEAST32,            0xffffffff80000000, LEAST32),
    ("a high half is left out",  0xffffffff00000001, 0x00000000ffffffff, 0xffffffff),
];

#[test]
fn negation(rt: HostRuntime) {
    for &(name, a, wanted, wanted_half) in &NEGATIONS {
        same(&rt, name, &neg64(a), &wanted);
        same_fact(&rt, name, "on 32 bits", &neg32(a), &wanted_half);
    }
}

#[rattlefmt::skip]
static EXTENSIONS: [(&str, Extension, u64, u64); 6] = [
    ("7f read as 8 bits is not",          Extension::I8,  0xff7f,             0x7f),
    ("8000 read as 16 bits is negative",  Extension::I16, 0x8000,             0xffffffffffff8000),
    ("7fff read as 16 bits is not",       Extension::I16, 0xffff7fff,         0x7fff),
    ("80000000 as 32 bits is negative",   Extension::I32, 0x80000000,         0xffffffff80000000),
    ("7fffffff as 32 bits is not",        Extension::I32, 0xffffffff7fffffff, 0x7fffffff),
    ("only the low bits count",           Extension::I8,  0x123456789abcdef0, 0xfffffffffffffff0),
];

#[rattlefmt::skip]
static SHORT_EXTENSIONS: [(&str, ShortExtension, u64, u64); 3] = [
    ("7f stays",                           ShortExtension::Short8,  0xff7f,     0x7f),
    ("8000 is extended to 32 bits alone",  ShortExtension::Short16, 0x8000,     0xffff8000),
    ("7fff stays",                         ShortExtension::Short16, 0xffff7fff, 0x7fff),
];

#[rattlefmt::skip]
static IMMEDIATES: [(&str, i32, u64); 4] = [
    ("a positive immediate stays",  5,           5),
    ("-1",                          -1,          MINUS_ONE),
    ("the least",                   -2147483648, 0xffffffff80000000),
    ("the greatest",                2147483647,  0x7fffffff),
];

#[test]
fn sign_extension(rt: HostRuntime) {
    for &(name, extension, b, wanted) in &EXTENSIONS {
        same(&rt, name, &movsx64(extension, b), &wanted);
    }
    for &(name, extension, b, wanted) in &SHORT_EXTENSIONS {
        same(&rt, name, &movsx32(extension, b), &wanted);
    }
    for &(name, immediate, wanted) in &IMMEDIATES {
        same(&rt, name, &sign_extend_immediate(immediate), &wanted);
    }
}

#[rattlefmt::skip]
static SWAPS: [(&str, ByteOrder, SwapWidth, u64); 6] = [
    ("swap32",             ByteOrder::Swapped,  SwapWidth::Swap32, 0x88776655),
    ("swap64",             ByteOrder::Swapped,  SwapWidth::Swap64, 0x8877665544332211),
    ("be16",               ByteOrder::ToBig,    SwapWidth::Swap16, 0x8877),
    ("be64",               ByteOrder::ToBig,    SwapWidth::Swap64, 0x8877665544332211),
    ("le32 cuts",          ByteOrder::ToLittle, SwapWidth::Swap32, 0x55667788),
    ("le64 does nothing",  ByteOrder::ToLittle, SwapWidth::Swap64, NUMBER),
];

#[test]
fn byte_swaps(rt: HostRuntime) {
    for &(name, order, width, wanted) in &SWAPS {
        same(&rt, name, &swap(order, width, NUMBER), &wanted);
    }
}

#[rattlefmt::skip]
static TESTS: [(&str, Test, u64, u64, bool, bool); 22] = [
    ("eq of equals",                       Test::Eq,  5,                  5,           true,  true),
    ("eq looks at low halves on 32 bits",  Test::Eq,  0x100000005,        5,           false, true),
    ("ne of equals",                       Test::Ne,  5,                  5,           false, false),
    ("ne looks at low halves on 32 bits",  Test::Ne,  0x100000005,        5,           true,  false),
    ("gt of equals",                       Test::Gt,  5,                  5,           false, false),
    ("gt is unsigned",                     Test::Gt,  MINUS_ONE,          1,           true,  true),
    ("ge of equals",                       Test::Ge,  5,                  5,           true,  true),
    ("ge of a smaller",                    Test::Ge,  4,                  5,           false, false),
    ("lt is unsigned",                     Test::Lt,  MINUS_ONE,          1,           false, false),
    ("lt of equals",                       Test::Lt,  5,                  5,           false, false),
    ("le of equals",                       Test::Le,  5,                  5,           true,  true),
    ("le looks at low halves on 32 bits",  Test::Le,  0x100000000,        5,           false, true),
    ("set shares a bit",                   Test::Set, 6,                  3,           true,  true),
    ("set shares none",                    Test::Set, 4,                  3,           false, false),
    ("set shares a high bit alone",        Test::Set, 0x100000000,        MINUS_ONE,   true,  false),
    ("sgt of -1 and 1",                    Test::Sgt, MINUS_ONE,          1,           false, false),
    ("sgt of 1 and -1",                    Test::Sgt, 1,                  MINUS_ONE,   true,  true),
    ("sge of equal negatives",             Test::Sge, MINUS_ONE,          MINUS_ONE,   true,  true),
    ("slt of equals",                      Test::Slt, LEAST64,            LEAST64,     false, false),
    ("slt of the least and 0",             Test::Slt, LEAST64,            0,           true,  false),
    ("sle of equals",                      Test::Sle, LEAST64,            LEAST64,     true,  true),
    ("sle of -1 and 0",                    Test::Sle, MINUS_ONE,          0,           true,  true),
];

#[test]
fn tests_of_jumps(rt: HostRuntime) {
    for &(name, test, a, b, wanted, wanted_half) in &TESTS {
        same(&rt, name, &test64(test, a, b), &wanted);
        same_fact(&rt, name, "on 32 bits", &test32(test, a, b), &wanted_half);
    }
}

#[rattlefmt::skip]
static ATOMICS: [(&str, AtomicOp, Width, u64, u64, u64, u64); 15] = [
    ("add wraps at 64 bits",            AtomicOp::AtomicAdd,       Width::Bits64, MINUS_ONE,  2,           0,           1),
    ("add wraps at 32 bits",            AtomicOp::AtomicAdd,       Width::Bits32, 0xffffffff, 2,           0,           1),
    ("or",                              AtomicOp::AtomicOr,        Width::Bits64, 0xf0,       0x0f,        0,           0xff),
    ("and",                             AtomicOp::AtomicAnd,       Width::Bits64, 0xf0,       0x3c,        0,           0x30),
    ("xor",                             AtomicOp::AtomicXor,       Width::Bits64, 0xf0,       0x3c,        0,           0xcc),
    ("fetch and add",                   AtomicOp::FetchAdd,        Width::Bits64, 40,         2,           0,           42),
    ("fetch and or",                    AtomicOp::FetchOr,         Width::Bits32, 0xf0,       0x0f,        0,           0xff),
    ("fetch and and",                   AtomicOp::FetchAnd,        Width::Bits32, 0xf0,       0x3c,        0,           0x30),
    ("fetch and xor",                   AtomicOp::FetchXor,        Width::Bits32, 0xf0,       0x3c,        0,           0xcc),
    ("exchange stores the source",      AtomicOp::Exchange,        Width::Bits64, 7,          MINUS_ONE,   0,           MINUS_ONE),
    ("exchange of a word cuts it",      AtomicOp::Exchange,        Width::Bits32, 7,          MINUS_ONE,   0,           0xffffffff),
    ("compare and exchange, equal",     AtomicOp::CompareExchange, Width::Bits64, 7,          9,           7,           9),
    ("compare and exchange, not equal", AtomicOp::CompareExchange, Width::Bits64, 7,          9,           8,           7),
    ("a word compares low halves",      AtomicOp::CompareExchange, Width::Bits32, 7,          9,           0x100000007, 9),
    ("a double compares all bits",      AtomicOp::CompareExchange, Width::Bits64, 7,          9,           0x100000007, 7),
];

#[test]
fn atomic_operations(rt: HostRuntime) {
    for &(name, operation, width, old, operand, expected, wanted) in &ATOMICS {
        let stored = atomic(operation, width, old, operand, expected);
        same(&rt, name, &stored, &wanted);
    }
}
