//! Worked rows: intervals of operations and cuts, each named by what it shows.

use crate::asserting::{same, same_fact};
use abstract_scalar::{Interval, movsx32, movsx64, neg, refine, swap, transfer};
use isa::{AluOp, ByteOrder, Extension, ShortExtension, Size, SwapWidth, Test, Width};
use std::process::Abort;

const TOP64: u64 = 0xffffffffffffffff;

const TOP32: u64 = 0xffffffff;

const HALF64: u64 = 0x8000000000000000;

const HALF32: u64 = 0x80000000;

const PAST32: u64 = 0x100000000;

/// What a row shows, an operation, and the ends of its two intervals and of the one that it returns.
type OperationRow = (&'static str, AluOp, u64, u64, u64, u64, u64, u64);

/// What a row shows, a test, the ends of an interval, the number that it is tested against, and the ends of what is left of it where the
/// test holds, and where it does not.
type CutRow = (&'static str, Test, u64, u64, u64, u64, u64, u64, u64);

fn interval(low: u64, high: u64) -> Interval {
    Interval { low, high }
}

/// Each operation on its intervals returns the wanted one.
fn transfer_so(rt: &impl Abort, width: Width, rows: &[OperationRow]) {
    for (name, operation, low, high, other_low, other_high, wanted_low, wanted_high) in rows {
        let other = interval(*other_low, *other_high);
        let found = transfer(width, *operation, interval(*low, *high), other);
        same(rt, name, &found, &interval(*wanted_low, *wanted_high));
    }
}

/// Each test against a number cuts an interval to the wanted ones: one where it holds, one where it does not.
fn cut_so(rt: &impl Abort, width: Width, rows: &[CutRow]) {
    for (name, test, low, high, c, taken_low, taken_high, else_low, else_high) in rows {
        let taken = refine(width, *test, interval(*low, *high), *c, true);
        let wanted = interval(*taken_low, *taken_high);
        same_fact(rt, name, "taken", &taken, &wanted);
        let not_taken = refine(width, *test, interval(*low, *high), *c, false);
        let wanted = interval(*else_low, *else_high);
        same_fact(rt, name, "not taken", &not_taken, &wanted);
    }
}

#[rattlefmt::skip]
static SUMS: [OperationRow; 17] = [
    ("mov gives the source",                        AluOp::Mov,  5, 5,           1, 9,            1, 9),
    ("add of two single numbers is exact and wraps", AluOp::Add, TOP64, TOP64,   2, 2,            1, 1),
    ("add of ends",                                 AluOp::Add,  1, 7,           10, 20,          11, 27),
    ("add up to the top",                           AluOp::Add,  0, TOP64 - 1,   1, 1,            1, TOP64),
    ("add past the top is everything",              AluOp::Add,  0, TOP64,       1, 1,            0, TOP64),
    ("add where both ends pass the top",            AluOp::Add,  TOP64, TOP64,   1, 2,            0, TOP64),
    ("add of halves passes the top",                AluOp::Add,  0, HALF64,      0, HALF64,       0, TOP64),
    ("add past 2^32",                               AluOp::Add,  0, TOP32,       1, 1,            1, PAST32),
    ("sub of single numbers wraps",                 AluOp::Sub,  0, 0,           1, 1,            TOP64, TOP64),
    ("sub of opposite ends",                        AluOp::Sub,  10, 20,         3, 7,            3, 17),
    ("sub that may reach zero",                     AluOp::Sub,  7, 20,          3, 7,            0, 17),
    ("sub that may be negative is everything",      AluOp::Sub,  6, 20,          3, 7,            0, TOP64),
    ("mul of ends",                                 AluOp::Mul,  2, 3,           10, 20,          20, 60),
    ("mul up to the top",                           AluOp::Mul,  0, TOP32,       0, PAST32 + 1,   0, TOP64),
    ("mul past the top is everything",              AluOp::Mul,  1, PAST32,      1, PAST32,       0, TOP64),
    ("mul by zero",                                 AluOp::Mul,  3, TOP64,       0, 0,            0, 0),
    ("mov of everything",                           AluOp::Mov,  0, TOP64,       0, TOP64,        0, TOP64),
];

#[test]
fn sums_and_products(rt: HostRuntime) {
    transfer_so(&rt, Width::Bits64, &SUMS);
}

#[rattlefmt::skip]
static QUOTIENTS: [OperationRow; 14] = [
    ("div by a single number",                      AluOp::Div,  7, 100,         3, 3,            2, 33),
    ("div by zero keeps no lower end",              AluOp::Div,  7, 100,         0, 0,            0, 100),
    ("div by an interval",                          AluOp::Div,  7, 100,         3, 4,            0, 100),
    ("div of single numbers by zero is zero",       AluOp::Div,  7, 7,           0, 0,            0, 0),
    ("sdiv knows nothing",                          AluOp::Sdiv, 1, 2,           1, 1,            0, TOP64),
    ("sdiv of single numbers is exact",             AluOp::Sdiv, TOP64 - 12, TOP64 - 12, 3, 3,    TOP64 - 3, TOP64 - 3),
    ("mod of less than the divisor",                AluOp::Mod,  2, 6,           7, 7,            2, 6),
    ("mod of as much as the divisor",               AluOp::Mod,  2, 7,           7, 7,            0, 6),
    ("mod by one",                                  AluOp::Mod,  2, 7,           1, 1,            0, 0),
    ("mod by zero",                                 AluOp::Mod,  2, 7,           0, 0,            0, 7),
    ("mod by an interval",                          AluOp::Mod,  2, 7,           3, 4,            0, 7),
    ("mod of single numbers by zero keeps them",    AluOp::Mod,  7, 7,           0, 0,            7, 7),
    ("smod knows nothing",                          AluOp::Smod, 1, 2,           5, 5,            0, TOP64),
    ("smod of single numbers is exact",             AluOp::Smod, TOP64 - 12, TOP64 - 12, 3, 3,    TOP64, TOP64),
];

#[test]
fn quotients(rt: HostRuntime) {
    transfer_so(&rt, Width::Bits64, &QUOTIENTS);
}

#[rattlefmt::skip]
static BITS: [OperationRow; 10] = [
    ("or takes the digits of the larger",           AluOp::Or,   1, 5,           0, 8,            0, 15),
    ("or of zeros",                                 AluOp::Or,   0, 0,           0, 1,            0, 1),
    ("or up to 2^31",                               AluOp::Or,   0, HALF32,      0, 1,            0, TOP32),
    ("or up to 2^32",                               AluOp::Or,   0, PAST32,      0, 1,            0, 0x1ffffffff),
    ("or up to 2^63",                               AluOp::Or,   0, HALF64,      0, 1,            0, TOP64),
    ("or below 2^63",                               AluOp::Or,   0, HALF64 - 1,  0, 1,            0, HALF64 - 1),
    ("xor takes the digits of the larger",          AluOp::Xor,  4, 5,           4, 4,            0, 7),
    ("xor of single numbers is exact",              AluOp::Xor,  5, 5,           4, 4,            1, 1),
    ("and is at most the smaller",                  AluOp::And,  4, TOP64,       3, 255,          0, 255),
    ("and of single numbers is exact",              AluOp::And,  6, 6,           3, 3,            2, 2),
];

#[test]
fn bits(rt: HostRuntime) {
    transfer_so(&rt, Width::Bits64, &BITS);
}

#[rattlefmt::skip]
static SHIFTS: [OperationRow; 11] = [
    ("lsh by a single count",                       AluOp::Lsh,  1, 3,           4, 4,            16, 48),
    ("lsh masks its count",                         AluOp::Lsh,  1, 3,           64, 64,          1, 3),
    ("lsh up to 2^63",                              AluOp::Lsh,  0, 1,           63, 63,          0, HALF64),
    ("lsh past the top is everything",              AluOp::Lsh,  0, 2,           63, 63,          0, TOP64),
    ("lsh by an interval is everything",            AluOp::Lsh,  1, 1,           0, 1,            0, TOP64),
    ("rsh by a single count",                       AluOp::Rsh,  16, 50,         4, 4,            1, 3),
    ("rsh masks its count",                         AluOp::Rsh,  16, 50,         68, 68,          1, 3),
    ("rsh by 63",                                   AluOp::Rsh,  0, TOP64,       63, 63,          0, 1),
    ("rsh by an interval",                          AluOp::Rsh,  16, 50,         0, 4,            0, 50),
    ("arsh knows nothing",                          AluOp::Arsh, 1, 2,           1, 1,            0, TOP64),
    ("arsh of single numbers is exact",             AluOp::Arsh, HALF64, HALF64, 63, 63,          TOP64, TOP64),
];

#[test]
fn shifts(rt: HostRuntime) {
    transfer_so(&rt, Width::Bits64, &SHIFTS);
}

#[rattlefmt::skip]
static LOW_HALVES: [OperationRow; 13] = [
    ("mov keeps an interval of the low half",       AluOp::Mov,  0, TOP64,       1, TOP32,        1, TOP32),
    ("mov of more is every number of 32 bits",      AluOp::Mov,  0, TOP64,       1, PAST32,       0, TOP32),
    ("mov cuts a single number",                    AluOp::Mov,  0, TOP64,       PAST32 + 5, PAST32 + 5, 5, 5),
    ("add of single numbers reads low halves",      AluOp::Add,  PAST32, PAST32, TOP32, TOP32,    TOP32, TOP32),
    ("add of single numbers wraps",                 AluOp::Add,  1, 1,           TOP32, TOP32,    0, 0),
    ("add up to the top",                           AluOp::Add,  0, TOP32 - 1,   1, 1,            1, TOP32),
    ("add past the top is every number",            AluOp::Add,  0, TOP32,       1, 1,            0, TOP32),
    ("add of an interval above the half",           AluOp::Add,  PAST32, PAST32 + 1, 0, 0,        0, TOP32),
    ("add of a cut single number",                  AluOp::Add,  1, 2,           PAST32 + 5, PAST32 + 5, 6, 7),
    ("sub that may be negative",                    AluOp::Sub,  0, 2,           1, 1,            0, TOP32),
    ("sub of single numbers wraps",                 AluOp::Sub,  0, 0,           1, 1,            TOP32, TOP32),
    ("mul past the top",                            AluOp::Mul,  0, 0x10000,     0, 0x10000,      0, TOP32),
    ("mul up to the top",                           AluOp::Mul,  0, 0xffff,      0, 0x10001,      0, TOP32),
];

#[test]
fn low_halves(rt: HostRuntime) {
    transfer_so(&rt, Width::Bits32, &LOW_HALVES);
}

#[rattlefmt::skip]
static OTHER_LOW_HALVES: [OperationRow; 14] = [
    ("div by a cut single number",                  AluOp::Div,  8, 16,          PAST32 + 2, PAST32 + 2, 4, 8),
    ("div by a single number whose half is zero",   AluOp::Div,  8, 16,          PAST32, PAST32,  0, 16),
    ("mod of single numbers by zero cuts",          AluOp::Mod,  PAST32 + 7, PAST32 + 7, 0, 0,    7, 7),
    ("mod by a single number",                      AluOp::Mod,  0, TOP64,       10, 10,          0, 9),
    ("or of everything",                            AluOp::Or,   0, TOP64,       0, 0,            0, TOP32),
    ("or up to 2^31",                               AluOp::Or,   0, HALF32,      0, 1,            0, TOP32),
    ("and with a mask",                             AluOp::And,  0, TOP64,       255, 255,        0, 255),
    ("lsh masks its count with 31",                 AluOp::Lsh,  1, 3,           33, 33,          2, 6),
    ("lsh past the half",                           AluOp::Lsh,  0, 2,           31, 31,          0, TOP32),
    ("rsh of more than the half",                   AluOp::Rsh,  0, TOP64,       31, 31,          0, 1),
    ("rsh masks its count with 31",                 AluOp::Rsh,  16, 50,         36, 36,          1, 3),
    ("sdiv knows nothing",                          AluOp::Sdiv, 1, 2,           1, 1,            0, TOP32),
    ("arsh of single numbers is exact",             AluOp::Arsh, HALF32, HALF32, 1, 1,            0xc0000000, 0xc0000000),
    ("xor knows the digits",                        AluOp::Xor,  0, 1,           HALF32 - 1, HALF32 - 1, 0, HALF32 - 1),
];

#[test]
fn low_halves_of_other_operations(rt: HostRuntime) {
    transfer_so(&rt, Width::Bits32, &OTHER_LOW_HALVES);
}

#[rattlefmt::skip]
static NEGATIONS: [(&str, Width, u64, u64, u64, u64); 6] = [
    ("a single number is exact",         Width::Bits64, 1, 1,                   TOP64, TOP64),
    ("an interval gives everything",     Width::Bits64, 1, 2,                   0, TOP64),
    ("zero",                             Width::Bits64, 0, 0,                   0, 0),
    ("2^63",                             Width::Bits64, HALF64, HALF64,         HALF64, HALF64),
    ("32 bits read the low half",        Width::Bits32, PAST32 + 1, PAST32 + 1, TOP32, TOP32),
    ("an interval, on 32 bits",          Width::Bits32, 1, 2,                   0, TOP32),
];

#[test]
fn negation(rt: HostRuntime) {
    for &(name, width, low, high, wanted_low, wanted_high) in &NEGATIONS {
        let found = neg(width, interval(low, high));
        same(&rt, name, &found, &interval(wanted_low, wanted_high));
    }
}

#[rattlefmt::skip]
static EXTENSIONS: [(&str, Extension, u64, u64, u64, u64); 4] = [
    ("a negative byte",               Extension::I8,  0x80, 0x80,             0xffffffffffffff80, 0xffffffffffffff80),
    ("a positive half",               Extension::I32, 0x17fffffff, 0x17fffffff, 0x7fffffff, 0x7fffffff),
    ("2^31 read as 32 bits",          Extension::I32, HALF32, HALF32,         0xffffffff80000000, 0xffffffff80000000),
    ("an interval gives everything",  Extension::I16, 1, 2,                   0, TOP64),
];

#[rattlefmt::skip]
static SHORT_EXTENSIONS: [(&str, ShortExtension, u64, u64, u64, u64); 3] = [
    ("a negative byte, to 32 bits",   ShortExtension::Short8,  0x80, 0x80,     0xffffff80, 0xffffff80),
    ("a negative pair, to 32 bits",   ShortExtension::Short16, 0x8000, 0x8000, 0xffff8000, 0xffff8000),
    ("an interval",                   ShortExtension::Short16, 1, 2,           0, TOP32),
];

#[test]
fn sign_extension(rt: HostRuntime) {
    for &(name, extension, low, high, wanted_low, wanted_high) in &EXTENSIONS {
        let found = movsx64(extension, interval(low, high));
        same(&rt, name, &found, &interval(wanted_low, wanted_high));
    }
    for &(name, extension, low, high, wanted_low, wanted_high) in &SHORT_EXTENSIONS {
        let found = movsx32(extension, interval(low, high));
        same(&rt, name, &found, &interval(wanted_low, wanted_high));
    }
}

#[rattlefmt::skip]
static SWAPS: [(&str, ByteOrder, SwapWidth, u64, u64, u64, u64); 6] = [
    ("swap16 of a single number",           ByteOrder::Swapped,  SwapWidth::Swap16, 0x1122, 0x1122,         0x2211, 0x2211),
    ("be64 of one", ByteOrder::ToBig, SwapWidth::Swap64, 1, 1, 0x0100000000000000, 0x0100000000000000),
    ("le32 cuts a single number",           ByteOrder::ToLittle, SwapWidth::Swap32, PAST32 + 7, PAST32 + 7, 7, 7),
    ("be16 of an interval",                 ByteOrder::ToBig,    SwapWidth::Swap16, 1, 2,                   0, 0xffff),
    ("be32 of an interval",                 ByteOrder::ToBig,    SwapWidth::Swap32, 1, 2,                   0, TOP32),
    ("le64 of an interval is everything",   ByteOrder::ToLittle, SwapWidth::Swap64, 1, 2,                   0, TOP64),
];

#[test]
fn byte_swaps(rt: HostRuntime) {
    for &(name, order, width, low, high, wanted_low, wanted_high) in &SWAPS {
        let found = swap(order, width, interval(low, high));
        same(&rt, name, &found, &interval(wanted_low, wanted_high));
    }
}

#[rattlefmt::skip]
static LOADS: [(&str, Size, u64, u64); 4] = [
    ("a byte",       Size::U8,  0, 0xff),
    ("two bytes",    Size::U16, 0, 0xffff),
    ("four bytes",   Size::U32, 0, TOP32),
    ("eight bytes",  Size::U64, 0, TOP64),
];

#[test]
fn loads(rt: HostRuntime) {
    for &(name, size, low, high) in &LOADS {
        same(&rt, name, &Interval::loaded(size), &interval(low, high));
    }
}

#[rattlefmt::skip]
static HULLS: [(&str, u64, u64, u64, u64, u64, u64); 4] = [
    ("the gap is filled",      3, 5,     9, 9,           3, 9),
    ("the larger stays",       0, TOP64, 1, 1,           0, TOP64),
    ("either end may be new",  4, 9,     2, 3,           2, 9),
    ("both edges",             0, 0,     TOP64, TOP64,   0, TOP64),
];

#[test]
fn hulls(rt: HostRuntime) {
    for &(name, low, high, other_low, other_high, wanted_low, wanted_high) in &HULLS {
        let found = interval(low, high).hull(interval(other_low, other_high));
        same(&rt, name, &found, &interval(wanted_low, wanted_high));
    }
}

#[rattlefmt::skip]
static MEMBERSHIP: [(&str, u64, u64, u64, bool, bool); 6] = [
    ("below",            3, 5,           2,      false, false),
    ("the lower end",    3, 5,           3,      true,  false),
    ("the upper end",    3, 5,           5,      true,  false),
    ("above",            3, 5,           6,      false, false),
    ("a single number",  HALF64, HALF64, HALF64, true,  true),
    ("no number",        5, 3,           4,      false, false),
];

#[test]
fn membership(rt: HostRuntime) {
    for &(name, low, high, n, is_in, is_single) in &MEMBERSHIP {
        same(&rt, name, &interval(low, high).contains(n), &is_in);
        let found = interval(low, high).is_constant();
        same_fact(&rt, name, "a single number", &found, &is_single);
    }
}

#[rattlefmt::skip]
static LOWER_CUTS: [CutRow; 19] = [
    ("eq",                                  Test::Eq,  0, 9,     5,      5, 5,            0, 9),
    ("eq of a number outside",              Test::Eq,  0, 9,     10,     0, 9,            0, 9),
    ("eq of the top",                       Test::Eq,  0, TOP64, TOP64,  TOP64, TOP64,    0, TOP64),
    ("ne",                                  Test::Ne,  0, 9,     5,      0, 9,            5, 5),
    ("ne of an end doesn't move the end",   Test::Ne,  0, 9,     9,      0, 9,            9, 9),
    ("gt",                                  Test::Gt,  0, 9,     5,      6, 9,            0, 5),
    ("gt of the upper end",                 Test::Gt,  0, 9,     9,      0, 9,            0, 9),
    ("gt of zero",                          Test::Gt,  0, 9,     0,      1, 9,            0, 0),
    ("gt of the top",                       Test::Gt,  0, TOP64, TOP64,  0, TOP64,        0, TOP64),
    ("gt of all but the top",               Test::Gt,  0, TOP64, TOP64 - 1, TOP64, TOP64, 0, TOP64 - 1),
    ("gt of less than the lower end",       Test::Gt,  4, 9,     2,      4, 9,            4, 9),
    ("ge",                                  Test::Ge,  0, 9,     5,      5, 9,            0, 4),
    ("ge of zero",                          Test::Ge,  0, 9,     0,      0, 9,            0, 9),
    ("ge of the lower end",                 Test::Ge,  4, 9,     4,      4, 9,            4, 9),
    ("ge of the upper end",                 Test::Ge,  4, 9,     9,      9, 9,            4, 8),
    ("ge of 2^63",                          Test::Ge,  0, TOP64, HALF64, HALF64, TOP64,   0, HALF64 - 1),
    ("ge of 2^32",                          Test::Ge,  0, TOP64, PAST32, PAST32, TOP64,   0, TOP32),
    ("ge of the top",                       Test::Ge,  0, TOP64, TOP64,  TOP64, TOP64,    0, TOP64 - 1),
    ("eq of the lower end",                 Test::Eq,  4, 9,     4,      4, 4,            4, 9),
];

#[test]
fn cuts_by_equality_and_lower_bounds(rt: HostRuntime) {
    cut_so(&rt, Width::Bits64, &LOWER_CUTS);
}

#[rattlefmt::skip]
static UPPER_CUTS: [CutRow; 15] = [
    ("lt",                                  Test::Lt,  0, 9,     5,      0, 4,            5, 9),
    ("lt of zero",                          Test::Lt,  0, 9,     0,      0, 9,            0, 9),
    ("lt of more than the upper end",       Test::Lt,  0, 9,     20,     0, 9,            0, 9),
    ("lt of 2^31",                          Test::Lt,  0, TOP64, HALF32, 0, HALF32 - 1,   HALF32, TOP64),
    ("le",                                  Test::Le,  0, 9,     5,      0, 5,            6, 9),
    ("le of the top",                       Test::Le,  0, TOP64, TOP64,  0, TOP64,        0, TOP64),
    ("le of less than the lower end",       Test::Le,  4, 9,     3,      4, 9,            4, 9),
    ("le of zero",                          Test::Le,  0, 9,     0,      0, 0,            1, 9),
    ("le of 2^32 - 1",                      Test::Le,  0, TOP64, TOP32,  0, TOP32,        PAST32, TOP64),
    ("set cuts nothing",                    Test::Set, 0, 9,     1,      0, 9,            0, 9),
    ("sgt cuts nothing",                    Test::Sgt, 0, 9,     5,      0, 9,            0, 9),
    ("sge cuts nothing",                    Test::Sge, 0, 9,     5,      0, 9,            0, 9),
    ("slt cuts nothing",                    Test::Slt, 0, 9,     5,      0, 9,            0, 9),
    ("sle cuts nothing",                    Test::Sle, 0, 9,     5,      0, 9,            0, 9),
    ("a single number stays",               Test::Lt,  7, 7,     5,      7, 7,            7, 7),
];

#[test]
fn cuts_by_upper_bounds(rt: HostRuntime) {
    cut_so(&rt, Width::Bits64, &UPPER_CUTS);
}

#[rattlefmt::skip]
static SHORT_CUTS: [CutRow; 7] = [
    ("lt",                                    Test::Lt, 0, TOP32,  5,          0, 4,          5, TOP32),
    ("the number counts with its low half",   Test::Lt, 0, TOP32,  PAST32 + 5, 0, 4,          5, TOP32),
    ("-1 is the top of the half",             Test::Ge, 0, TOP32,  TOP64,      TOP32, TOP32,  0, TOP32 - 1),
    ("an interval above the half stays",      Test::Lt, 0, PAST32, 5,          0, PAST32,     0, PAST32),
    ("eq of an interval above the half",      Test::Eq, 0, TOP64,  5,          0, TOP64,      0, TOP64),
    ("gt of the top of the half",             Test::Gt, 0, TOP32,  TOP32,      0, TOP32,      0, TOP32),
    ("slt cuts nothing",                      Test::Slt, 0, TOP32, 5,          0, TOP32,      0, TOP32),
];

#[test]
fn cuts_of_32_bits(rt: HostRuntime) {
    cut_so(&rt, Width::Bits32, &SHORT_CUTS);
}
