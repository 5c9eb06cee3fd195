//! Rows of stores and atomic operations on values of maps, and of the helpers that change a map or move the packet's start.

use crate::rows::scalar;
use crate::straight_code::{
    ADD_14, ANY, END, FORGOTTEN, JEQ, JGT, KEY, KEY_AT, KEY_DOWN, LOOKUP, MAP, PLACE, START, VALUE,
    knows,
};
use abstract_state::{BrokenRule, Kind};
use ebpf_decode::Insn;
use isa::Register::{R0, R1, R2, R3, R4, R6, R7, R10};
use isa::{AtomicOp, Register, Size, SourceOperand, Test, Width};
use test_support::{add, atomic, jump, load, mov, number, put, store};

const UPDATE: Insn = Insn::CallHelper { helper: 2 };

const DELETE: Insn = Insn::CallHelper { helper: 3 };

const MOVE_HEAD: Insn = Insn::CallHelper { helper: 44 };

// A value of 2 at -16, with R3 at it.
const NEW_VALUE: Insn = store!(Size::U64, R10, -16, 2);

const VALUE_AT: Insn = mov!(R3, R10);

const VALUE_DOWN: Insn = add!(R3, -16);

const FLAGS: Insn = number!(R4, 0);

const ONE: Insn = number!(R6, 1);

const ZERO: Insn = number!(R0, 0);

const SAVE: Insn = mov!(R7, R0);

const CONTEXT: Insn = mov!(R7, R1);

const BACK_20: Insn = number!(R2, -20);

#[rattlefmt::skip]
static KNOWN: [(&str, &[Insn], Register, Kind); 8] = [
    ("a store leaves the pointer", &[KEY, KEY_AT, KEY_DOWN, MAP, LOOKUP, JEQ, store!(Size::U64, R0, 0, 1)], R0, VALUE),
    ("so does a byte at its end", &[KEY, KEY_AT, KEY_DOWN, MAP, LOOKUP, JEQ, store!(Size::U8, R0, 7, 1)], R0, VALUE),
    ("an atomic add leaves its source",
        &[KEY, KEY_AT, KEY_DOWN, MAP, LOOKUP, JEQ, ONE, atomic!(Width::Bits64, AtomicOp::AtomicAdd, R0, 0, R6)], R6, scalar!(1, 1)),
    ("a fetch gives any number",
        &[KEY, KEY_AT, KEY_DOWN, MAP, LOOKUP, JEQ, ONE, atomic!(Width::Bits64, AtomicOp::FetchAdd, R0, 0, R6)], R6, ANY),
    ("of its width", &[KEY, KEY_AT, KEY_DOWN, MAP, LOOKUP, JEQ, ONE, atomic!(Width::Bits32, AtomicOp::Exchange, R0, 4, R6)],
        R6, scalar!(0, 0xffff_ffff)),
    ("a compare-and-exchange gives it to R0",
        &[KEY, KEY_AT, KEY_DOWN, MAP, LOOKUP, JEQ, ONE, SAVE, ZERO, atomic!(Width::Bits64, AtomicOp::CompareExchange, R7, 0, R6)], R0, ANY),
    ("and leaves its source",
        &[KEY, KEY_AT, KEY_DOWN, MAP, LOOKUP, JEQ, ONE, SAVE, ZERO, atomic!(Width::Bits64, AtomicOp::CompareExchange, R7, 0, R6)],
        R6, scalar!(1, 1)),
    ("a value outlives an update",
        &[KEY, KEY_AT, KEY_DOWN, MAP, LOOKUP, JEQ, mov!(R6, R0), NEW_VALUE, KEY_AT, KEY_DOWN, VALUE_AT, VALUE_DOWN, FLAGS, MAP, UPDATE],
        R6, VALUE),
];

#[test]
fn what_is_known_of_values(rt: HostRuntime) {
    for &(name, code, register, wanted) in &KNOWN {
        knows(&rt, name, code, false, register, Ok(wanted));
    }
}

#[rattlefmt::skip]
static BROKEN: [(&str, &[Insn], BrokenRule); 15] = [
    ("a store past a value", &[KEY, KEY_AT, KEY_DOWN, MAP, LOOKUP, JEQ, store!(Size::U64, R0, 8, 1)], BrokenRule::ValueBounds),
    ("before it", &[KEY, KEY_AT, KEY_DOWN, MAP, LOOKUP, JEQ, store!(Size::U8, R0, -1, 1)], BrokenRule::ValueBounds),
    ("across its words", &[KEY, KEY_AT, KEY_DOWN, MAP, LOOKUP, JEQ, store!(Size::U32, R0, 2, 1)], BrokenRule::Misaligned),
    ("of a pointer", &[KEY, KEY_AT, KEY_DOWN, MAP, LOOKUP, JEQ, put!(Size::U64, R0, 0, R10)], BrokenRule::PointerLeak),
    ("the place comes before the pointer",
        &[KEY, KEY_AT, KEY_DOWN, MAP, LOOKUP, JEQ, put!(Size::U64, R0, 8, R10)], BrokenRule::ValueBounds),
    ("where it may be null", &[KEY, KEY_AT, KEY_DOWN, MAP, LOOKUP, store!(Size::U64, R0, 0, 1)], BrokenRule::WrongKind(R0)),
    ("an atomic operation where it may be null",
        &[KEY, KEY_AT, KEY_DOWN, MAP, LOOKUP, ONE, atomic!(Width::Bits64, AtomicOp::AtomicAdd, R0, 0, R6)], BrokenRule::WrongKind(R0)),
    ("past the value",
        &[KEY, KEY_AT, KEY_DOWN, MAP, LOOKUP, JEQ, ONE, atomic!(Width::Bits64, AtomicOp::AtomicAdd, R0, 4, R6)], BrokenRule::ValueBounds),
    ("at no multiple of its size", &[KEY, KEY_AT, KEY_DOWN, MAP, LOOKUP, JEQ, ONE, atomic!(Width::Bits32, AtomicOp::AtomicAdd, R0, 2, R6)],
        BrokenRule::Misaligned),
    ("of a pointer",
        &[KEY, KEY_AT, KEY_DOWN, MAP, LOOKUP, JEQ, atomic!(Width::Bits64, AtomicOp::AtomicAdd, R0, 0, R10)], BrokenRule::PointerLeak),
    ("of an unset register",
        &[KEY, KEY_AT, KEY_DOWN, MAP, LOOKUP, JEQ, atomic!(Width::Bits64, AtomicOp::AtomicAdd, R0, 0, R7)], BrokenRule::UnsetRegister(R7)),
    ("a fetch into R10, before its kind",
        &[KEY, KEY_AT, KEY_DOWN, MAP, LOOKUP, JEQ, atomic!(Width::Bits64, AtomicOp::FetchAdd, R0, 0, R10)], BrokenRule::ReadOnlyFp),
    ("a compare-and-exchange with a pointer in R0",
        &[KEY, KEY_AT, KEY_DOWN, MAP, LOOKUP, JEQ, ONE, atomic!(Width::Bits64, AtomicOp::CompareExchange, R0, 0, R6)],
        BrokenRule::WrongKind(R0)),
    ("an atomic operation on the packet", &[load!(Size::U32, R2, R1, 0), ONE, atomic!(Width::Bits64, AtomicOp::AtomicAdd, R2, 0, R6)],
        BrokenRule::WrongKind(R2)),
    ("on the context", &[ONE, atomic!(Width::Bits64, AtomicOp::AtomicAdd, R1, 0, R6)], BrokenRule::WrongKind(R1)),
];

#[test]
fn rules_of_values(rt: HostRuntime) {
    for &(name, code, wanted) in &BROKEN {
        knows(&rt, name, code, false, R0, Err(wanted));
    }
}

#[rattlefmt::skip]
static BROKEN_BY_CALLS: [(&str, &[Insn], BrokenRule); 13] = [
    ("an update with a value of unset bytes", &[KEY, KEY_AT, KEY_DOWN, VALUE_AT, VALUE_DOWN, FLAGS, MAP, UPDATE], BrokenRule::StackUnset),
    ("with a value past the stack", &[KEY, NEW_VALUE, KEY_AT, KEY_DOWN, VALUE_AT, FLAGS, MAP, UPDATE], BrokenRule::StackBounds),
    ("both lie inside before either is read", &[NEW_VALUE, KEY_AT, KEY_DOWN, VALUE_AT, FLAGS, MAP, UPDATE], BrokenRule::StackBounds),
    ("with a key of unset bytes", &[NEW_VALUE, KEY_AT, KEY_DOWN, VALUE_AT, VALUE_DOWN, FLAGS, MAP, UPDATE], BrokenRule::StackUnset),
    ("with a number for the value", &[KEY, NEW_VALUE, KEY_AT, KEY_DOWN, number!(R3, 0), FLAGS, MAP, UPDATE], BrokenRule::BadArgument(R3)),
    ("with a pointer for the flags",
        &[KEY, NEW_VALUE, KEY_AT, KEY_DOWN, VALUE_AT, VALUE_DOWN, mov!(R4, R10), MAP, UPDATE], BrokenRule::BadArgument(R4)),
    ("without flags", &[KEY, NEW_VALUE, KEY_AT, KEY_DOWN, VALUE_AT, VALUE_DOWN, MAP, UPDATE], BrokenRule::UnsetRegister(R4)),
    ("without a map", &[KEY, NEW_VALUE, KEY_AT, KEY_DOWN, VALUE_AT, VALUE_DOWN, FLAGS, UPDATE], BrokenRule::BadArgument(R1)),
    ("a deletion without a map", &[KEY, KEY_AT, KEY_DOWN, DELETE], BrokenRule::BadArgument(R1)),
    ("a deletion with a key of unset bytes", &[KEY_AT, KEY_DOWN, MAP, DELETE], BrokenRule::StackUnset),
    ("a moved head without the context", &[BACK_20, MAP, MOVE_HEAD], BrokenRule::BadArgument(R1)),
    ("by a pointer", &[mov!(R2, R10), MOVE_HEAD], BrokenRule::BadArgument(R2)),
    ("by nothing", &[MOVE_HEAD], BrokenRule::UnsetRegister(R2)),
];

#[test]
fn rules_of_calls(rt: HostRuntime) {
    for &(name, code, wanted) in &BROKEN_BY_CALLS {
        knows(&rt, name, code, false, R0, Err(wanted));
    }
}

#[rattlefmt::skip]
static LEFT: [(&str, &[Insn], Register, Result<Kind, BrokenRule>); 10] = [
    ("an update answers any number", &[KEY, NEW_VALUE, KEY_AT, KEY_DOWN, VALUE_AT, VALUE_DOWN, FLAGS, MAP, UPDATE], R0, Ok(ANY)),
    ("and leaves its arguments unset", &[KEY, NEW_VALUE, KEY_AT, KEY_DOWN, VALUE_AT, VALUE_DOWN, FLAGS, MAP, UPDATE], R4, Ok(Kind::Unset)),
    ("a deletion answers any number, and does not read R3", &[KEY, KEY_AT, KEY_DOWN, MAP, DELETE], R0, Ok(ANY)),
    ("a moved head answers any number", &[BACK_20, MOVE_HEAD], R0, Ok(ANY)),
    ("a packet pointer of before is unset", &[load!(Size::U32, R6, R1, 0), BACK_20, MOVE_HEAD, load!(Size::U8, R0, R6, 0)], R0,
        Err(BrokenRule::UnsetRegister(R6))),
    ("the end of before is unset",
        &[load!(Size::U32, R6, R1, 4), CONTEXT, BACK_20, MOVE_HEAD, load!(Size::U32, R4, R7, 0),
            jump!(Test::Gt, R4, SourceOperand::Reg(R6))], R0,
        Err(BrokenRule::UnsetRegister(R6))),
    ("a spilled one reads as unset bytes",
        &[load!(Size::U32, R6, R1, 0), put!(Size::U64, R10, -8, R6), BACK_20, MOVE_HEAD, load!(Size::U64, R4, R10, -8)], R0,
        Err(BrokenRule::StackUnset)),
    ("what was tested before is forgotten",
        &[START, END, PLACE, ADD_14, JGT, CONTEXT, BACK_20, MOVE_HEAD, load!(Size::U32, R2, R7, 0)], R2, Ok(FORGOTTEN)),
    ("so a byte wants a new test",
        &[START, END, PLACE, ADD_14, JGT, CONTEXT, BACK_20, MOVE_HEAD, load!(Size::U32, R2, R7, 0), load!(Size::U8, R0, R2, 0)], R0,
        Err(BrokenRule::PacketBounds)),
    ("the context stays", &[CONTEXT, BACK_20, MOVE_HEAD], R7, Ok(Kind::Ctx)),
];

#[test]
fn what_calls_leave(rt: HostRuntime) {
    for &(name, code, register, wanted) in &LEFT {
        knows(&rt, name, code, false, register, wanted);
    }
}
