//! Rows of what a verifier may conclude from straight code, and of what it refuses. A conditional jump goes on where it isn't taken,
//! unless the row says otherwise.

use crate::asserting::same;
use crate::rows::scalar;
use abstract_state::{BrokenRule, Kind, Offsets, Site, State, Way};
use ebpf_decode::{Insn, MapDef, MapKind, Version};
use isa::Register::{R0, R1, R2, R3, R4, R5, R6, R10};
use isa::{AluOp, AtomicOp, Extension, Register, Size, SourceOperand, Test, Width};
use std::process::Abort;
use test_support::{add, alu, jump, lddw, load, mov, number, put, store};

static MAPS: [MapDef; 1] = [MapDef {
    kind: MapKind::Array,
    key_size: 4,
    value_size: 8,
    max_entries: 1,
}];

/// A slot of an image with one map.
fn site(slot: u16) -> Site<'static> {
    Site { maps: &MAPS, slot }
}

// The packet in R2, its end in R3, and the place 14 bytes into it in R4.
pub(crate) const START: Insn = load!(Size::U32, R2, R1, 0);

pub(crate) const END: Insn = load!(Size::U32, R3, R1, 4);

pub(crate) const PLACE: Insn = mov!(R4, R2);

pub(crate) const ADD_14: Insn = add!(R4, 14);

pub(crate) const JGT: Insn = jump!(Test::Gt, R4, SourceOperand::Reg(R3));

// A lookup in map 0 of the key 7, and its null test.
pub(crate) const KEY: Insn = store!(Size::U32, R10, -4, 7);

pub(crate) const KEY_AT: Insn = mov!(R2, R10);

pub(crate) const KEY_DOWN: Insn = add!(R2, -4);

pub(crate) const MAP: Insn = Insn::Ldmap { dst: R1, map: 0 };

pub(crate) const LOOKUP: Insn = Insn::CallHelper { helper: 1 };

pub(crate) const JEQ: Insn = jump!(Test::Eq, R0, SourceOperand::Imm(0));

/// The kind of a register after some instructions, or the first rule that one of them breaks.
fn known_after(code: &[Insn], taken: bool, register: Register) -> Result<Kind, BrokenRule> {
    let mut state = State::opening(Version::V1);
    let mut slot: u16 = 0;
    for insn in code {
        match state.step(site(slot), *insn)? {
            Way::Ends => return Ok(state.kind(register)),
            Way::Falls => {}
            Way::Jumps => {}
            Way::Splits => state.follow(*insn, taken),
        }
        slot = slot.wrapping_add(1);
    }
    Ok(state.kind(register))
}

/// What is known of a register after a row's instructions, or which rule is broken, is as wanted.
pub(crate) fn knows(
    rt: &impl Abort,
    name: &str,
    code: &[Insn],
    taken: bool,
    register: Register,
    wanted: Result<Kind, BrokenRule>,
) {
    same(rt, name, &known_after(code, taken, register), &wanted);
}

pub(crate) const ANY: Kind = scalar!(0, u64::MAX);

/// The packet's start, where a test covered 14 bytes.
const COVERED: Kind = Kind::Packet {
    id: 0,
    off: 0,
    range: 14,
};

/// The same of 15.
const ONE_MORE: Kind = Kind::Packet {
    id: 0,
    off: 0,
    range: 15,
};

/// The packet's start, with nothing known about the bytes behind it.
pub(crate) const FORGOTTEN: Kind = Kind::Packet {
    id: 0,
    off: 0,
    range: 0,
};

pub(crate) const VALUE: Kind = Kind::Value {
    map: 0,
    id: 4,
    off: Offsets { low: 0, high: 0 },
};

const NEAR: Kind = Kind::Packet {
    id: 3,
    off: 2,
    range: 10,
};

const FAR: Kind = Kind::Packet {
    id: 3,
    off: 2,
    range: 20,
};

/// An address in the value of another lookup.
const OTHER: Kind = Kind::Value {
    map: 0,
    id: 5,
    off: Offsets { low: 0, high: 8 },
};

#[rattlefmt::skip]
static KNOWN: [(&str, &[Insn], Register, Kind); 13] = [
    ("a run begins with the context", &[], R1, Kind::Ctx),
    ("and the frame pointer", &[], R10, Kind::Stack(512)),
    ("a 64-bit move copies a pointer", &[mov!(R2, R1)], R2, Kind::Ctx),
    ("an immediate is sign-extended", &[number!(R0, -1)], R0, scalar!(u64::MAX, u64::MAX)),
    ("context word 0 is the packet", &[load!(Size::U32, R2, R1, 0)], R2, Kind::Packet { id: 0, off: 0, range: 0 }),
    ("context word 4 is its end", &[load!(Size::U32, R3, R1, 4)], R3, Kind::PacketEnd),
    ("the receive queue is below 8", &[load!(Size::U32, R0, R1, 16)], R0, scalar!(0, 7)),
    ("a stack pointer moves down", &[mov!(R2, R10), add!(R2, -512)], R2, Kind::Stack(0)),
    ("a spilled context comes back", &[put!(Size::U64, R10, -8, R1), load!(Size::U64, R4, R10, -8)], R4, Kind::Ctx),
    ("a spilled number keeps its value", &[store!(Size::U64, R10, -8, 5), load!(Size::U64, R4, R10, -8)], R4, scalar!(5, 5)),
    ("a part of it is any number of its size", &[store!(Size::U64, R10, -8, 5), load!(Size::U16, R4, R10, -6)], R4, scalar!(0, 65535)),
    ("a sign-extending load is any number",
        &[store!(Size::U64, R10, -8, 5), Insn::Ldxs { extension: Extension::I8, dst: R5, src: R10, offset: -1 }], R5, ANY),
    ("helper 8 answers below 8", &[Insn::CallHelper { helper: 8 }], R0, scalar!(0, 7)),
];

#[test]
fn registers_after_straight_code(rt: HostRuntime) {
    for &(name, code, register, wanted) in &KNOWN {
        knows(&rt, name, code, false, register, Ok(wanted));
    }
}

#[rattlefmt::skip]
static EDGES: [(&str, &[Insn], bool, Register, Kind); 12] = [
    ("at most the end: these bytes", &[START, END, PLACE, ADD_14, JGT], false, R2, COVERED),
    ("past the end: nothing", &[START, END, PLACE, ADD_14, JGT], true, R2, FORGOTTEN),
    ("before the end: one more", &[START, END, PLACE, ADD_14, jump!(Test::Ge, R4, SourceOperand::Reg(R3))], false, R2, ONE_MORE),
    ("taken below the end: one more", &[START, END, PLACE, ADD_14, jump!(Test::Lt, R4, SourceOperand::Reg(R3))], true, R2, ONE_MORE),
    ("the end above a place: one more", &[START, END, PLACE, ADD_14, jump!(Test::Gt, R3, SourceOperand::Reg(R4))], true, R2, ONE_MORE),
    ("the end not below a place: these bytes",
        &[START, END, PLACE, ADD_14, jump!(Test::Lt, R3, SourceOperand::Reg(R4))], false, R2, COVERED),
    ("a spilled copy is known too",
        &[START, END, PLACE, ADD_14, put!(Size::U64, R10, -8, R2), JGT, load!(Size::U64, R6, R10, -8)], false, R6, COVERED),
    ("null where equal", &[KEY, KEY_AT, KEY_DOWN, MAP, LOOKUP, JEQ], true, R0, scalar!(0, 0)),
    ("a value where not equal", &[KEY, KEY_AT, KEY_DOWN, MAP, LOOKUP, JEQ], false, R0, VALUE),
    ("a value where jne is taken", &[KEY, KEY_AT, KEY_DOWN, MAP, LOOKUP, jump!(Test::Ne, R0, SourceOperand::Imm(0))], true, R0, VALUE),
    ("all copies are known", &[KEY, KEY_AT, KEY_DOWN, MAP, LOOKUP, mov!(R6, R0), JEQ], false, R6, VALUE),
    ("a number is cut", &[KEY, load!(Size::U32, R4, R10, -4), jump!(Test::Gt, R4, SourceOperand::Imm(9))], false, R4, scalar!(0, 9)),
];

#[test]
fn edges_of_tests(rt: HostRuntime) {
    for &(name, code, taken, register, wanted) in &EDGES {
        knows(&rt, name, code, taken, register, Ok(wanted));
    }
}

#[rattlefmt::skip]
static BROKEN: [(&str, &[Insn], BrokenRule); 27] = [
    ("exit without a verdict", &[Insn::Exit], BrokenRule::UnsetRegister(R0)),
    ("a pointer as the verdict", &[mov!(R0, R1), Insn::Exit], BrokenRule::PointerLeak),
    ("R10 is read-only, before anything else", &[mov!(R10, R5)], BrokenRule::ReadOnlyFp),
    ("a packet byte that no test covers", &[START, END, load!(Size::U8, R5, R2, 0)], BrokenRule::PacketBounds),
    ("the last byte that a test covers is read, the next isn't",
        &[START, END, PLACE, ADD_14, JGT, load!(Size::U8, R5, R2, 13), load!(Size::U8, R5, R2, 14)], BrokenRule::PacketBounds),
    ("before the packet", &[START, END, PLACE, ADD_14, JGT, load!(Size::U8, R5, R2, -1)], BrokenRule::PacketBounds),
    ("an unaligned stack store", &[store!(Size::U32, R10, -6, 0)], BrokenRule::Misaligned),
    ("above the stack", &[store!(Size::U32, R10, 0, 0)], BrokenRule::StackBounds),
    ("below the stack", &[store!(Size::U64, R10, -520, 0)], BrokenRule::StackBounds),
    ("an unset byte", &[load!(Size::U8, R0, R10, -1)], BrokenRule::StackUnset),
    ("a part of a spilled pointer", &[put!(Size::U64, R10, -8, R1), load!(Size::U32, R2, R10, -8)], BrokenRule::PointerLeak),
    ("a narrow store of a pointer", &[put!(Size::U32, R10, -8, R1)], BrokenRule::PointerLeak),
    ("a narrow store over a spilled pointer", &[put!(Size::U64, R10, -8, R1), store!(Size::U32, R10, -8, 0), load!(Size::U64, R2, R10, -8)],
        BrokenRule::StackUnset),
    ("no such context field", &[load!(Size::U32, R0, R1, 8)], BrokenRule::ContextAccess),
    ("a context field of another size", &[load!(Size::U64, R0, R1, 0)], BrokenRule::ContextAccess),
    ("a value that may be null", &[KEY, KEY_AT, KEY_DOWN, MAP, LOOKUP, load!(Size::U64, R5, R0, 0)], BrokenRule::WrongKind(R0)),
    ("past a value", &[KEY, KEY_AT, KEY_DOWN, MAP, LOOKUP, JEQ, load!(Size::U64, R5, R0, 8)], BrokenRule::ValueBounds),
    ("across words of a value", &[KEY, KEY_AT, KEY_DOWN, MAP, LOOKUP, JEQ, load!(Size::U32, R5, R0, 2)], BrokenRule::Misaligned),
    ("atomic operations on the stack",
        &[number!(R1, 1), Insn::AtomicUpdate { width: Width::Bits64, op: AtomicOp::AtomicAdd, dst: R10, src: R1, offset: -8 }],
        BrokenRule::WrongKind(R10)),
    ("a key of unset bytes", &[KEY_AT, KEY_DOWN, MAP, LOOKUP], BrokenRule::StackUnset),
    ("a key past the stack", &[KEY_AT, MAP, LOOKUP], BrokenRule::StackBounds),
    ("a lookup without a map", &[KEY, KEY_AT, KEY_DOWN, LOOKUP], BrokenRule::BadArgument(R1)),
    ("no helper 99, before unset registers", &[Insn::CallHelper { helper: 99 }], BrokenRule::UnknownHelper),
    ("no map 1", &[Insn::Ldmap { dst: R1, map: 1 }], BrokenRule::UnknownMap),
    ("two pointers added", &[alu!(AluOp::Add, R1, SourceOperand::Reg(R10))], BrokenRule::WrongKind(R1)),
    ("a stack pointer past the frame pointer", &[mov!(R2, R10), add!(R2, 1)], BrokenRule::StackBounds),
    ("the least number taken from a stack pointer",
        &[mov!(R2, R10), lddw!(R3, 0x8000_0000_0000_0000), alu!(AluOp::Sub, R2, SourceOperand::Reg(R3))], BrokenRule::StackBounds),
];

#[test]
fn first_broken_rules(rt: HostRuntime) {
    for &(name, code, wanted) in &BROKEN {
        knows(&rt, name, code, false, R0, Err(wanted));
    }
}

// Arithmetic and tests that are refused for the kinds of their operands, and the register that is named: the source if another kind of
// source would do, else the destination.
#[rattlefmt::skip]
static WRONG_KINDS: [(&str, &[Insn], Register); 20] = [
    ("an unknown number added to a stack pointer",
        &[load!(Size::U32, R3, R1, 16), mov!(R2, R10), alu!(AluOp::Add, R2, SourceOperand::Reg(R3))], R3),
    ("taken from a packet pointer", &[load!(Size::U32, R3, R1, 16), START, alu!(AluOp::Sub, R2, SourceOperand::Reg(R3))], R3),
    ("added to an address in a value, in version 1",
        &[mov!(R6, R1), KEY, KEY_AT, KEY_DOWN, MAP, LOOKUP, JEQ, load!(Size::U32, R3, R6, 16),
            alu!(AluOp::Add, R0, SourceOperand::Reg(R3))], R3),
    ("two stack pointers added", &[mov!(R2, R10), alu!(AluOp::Add, R2, SourceOperand::Reg(R10))], R10),
    ("two packet pointers subtracted", &[START, mov!(R3, R2), alu!(AluOp::Sub, R2, SourceOperand::Reg(R3))], R3),
    ("a pointer added to a number", &[number!(R0, 2), alu!(AluOp::Add, R0, SourceOperand::Reg(R1))], R1),
    ("the low half of a pointer", &[Insn::Alu { width: Width::Bits32, op: AluOp::Mov, dst: R2, source: SourceOperand::Reg(R1) }], R1),
    ("the low byte of a pointer", &[Insn::Movsx { extension: Extension::I8, dst: R2, src: R1 }], R1),
    ("the context moved", &[add!(R1, 4)], R1),
    ("the packet's end moved", &[END, add!(R3, -1)], R3),
    ("a pointer multiplied", &[mov!(R2, R10), alu!(AluOp::Mul, R2, SourceOperand::Imm(2))], R2),
    ("a stack pointer moved on 32 bits",
        &[mov!(R2, R10), Insn::Alu { width: Width::Bits32, op: AluOp::Add, dst: R2, source: SourceOperand::Imm(-4) }], R2),
    ("a pointer negated", &[Insn::Neg { width: Width::Bits64, dst: R1 }], R1),
    ("a number compared with a pointer", &[number!(R0, 2), jump!(Test::Eq, R0, SourceOperand::Reg(R1))], R1),
    ("a packet pointer compared with a number", &[START, number!(R5, 1), jump!(Test::Gt, R2, SourceOperand::Reg(R5))], R5),
    ("the packet's end compared with a number", &[END, number!(R5, 1), jump!(Test::Le, R3, SourceOperand::Reg(R5))], R5),
    ("a packet pointer compared with an immediate", &[START, jump!(Test::Gt, R2, SourceOperand::Imm(1))], R2),
    ("a packet pointer compared for equality", &[START, END, jump!(Test::Eq, R2, SourceOperand::Reg(R3))], R2),
    ("a packet pointer compared on 32 bits",
        &[START, END, Insn::JumpIf { width: Width::Bits32, test: Test::Gt, dst: R2, source: SourceOperand::Reg(R3), distance: 0 }], R2),
    ("a null test against a register",
        &[KEY, KEY_AT, KEY_DOWN, MAP, LOOKUP, number!(R6, 0), jump!(Test::Eq, R0, SourceOperand::Reg(R6))], R0),
];

#[test]
fn registers_of_a_wrong_kind(rt: HostRuntime) {
    for &(name, code, register) in &WRONG_KINDS {
        let wanted = Err(BrokenRule::WrongKind(register));
        knows(&rt, name, code, false, R0, wanted);
    }
}

#[rattlefmt::skip]
static JOINS: [(&str, Kind, Kind, Kind); 8] = [
    ("two numbers give the hull", scalar!(3, 5), scalar!(9, 9), scalar!(3, 9)),
    ("a number and a pointer give nothing", scalar!(0, 0), Kind::Ctx, Kind::Unset),
    ("equal kinds stay", Kind::Stack(504), Kind::Stack(504), Kind::Stack(504)),
    ("places of the stack differ", Kind::Stack(504), Kind::Stack(496), Kind::Unset),
    ("of two ranges the smaller", FAR, NEAR, NEAR),
    ("packet pointers of two bases", NEAR, Kind::Packet { id: 4, off: 2, range: 10 }, Kind::Unset),
    ("a value is no value or null",
        Kind::Value { map: 0, id: 4, off: Offsets { low: 0, high: 0 } }, Kind::ValueOrNull { map: 0, id: 4 }, Kind::Unset),
    ("two lookups", Kind::ValueOrNull { map: 0, id: 4 }, Kind::ValueOrNull { map: 0, id: 5 }, Kind::Unset),
];

#[test]
fn joins(rt: HostRuntime) {
    for &(name, first, second, wanted) in &JOINS {
        same(&rt, name, &first.join(Version::V1, second), &wanted);
    }
}

#[rattlefmt::skip]
static JOINED_OFFSETS: [(&str, Version, Kind, Kind, Kind); 6] = [
    ("version 1: one offset stays", Version::V1, Kind::Value { map: 0, id: 4, off: Offsets { low: 8, high: 8 } },
        Kind::Value { map: 0, id: 4, off: Offsets { low: 8, high: 8 } }, Kind::Value { map: 0, id: 4, off: Offsets { low: 8, high: 8 } }),
    ("version 1: two offsets disagree", Version::V1, Kind::Value { map: 0, id: 4, off: Offsets { low: 0, high: 0 } },
        Kind::Value { map: 0, id: 4, off: Offsets { low: 8, high: 8 } }, Kind::Unset),
    ("version 2: the higher second", Version::V2, Kind::Value { map: 0, id: 4, off: Offsets { low: 0, high: 0 } },
        Kind::Value { map: 0, id: 4, off: Offsets { low: 8, high: 8 } }, Kind::Value { map: 0, id: 4, off: Offsets { low: 0, high: 8 } }),
    ("version 2: the lower second", Version::V2, Kind::Value { map: 0, id: 4, off: Offsets { low: 8, high: 16 } },
        Kind::Value { map: 0, id: 4, off: Offsets { low: 4, high: 9 } }, Kind::Value { map: 0, id: 4, off: Offsets { low: 4, high: 16 } }),
    ("version 2: one inside the other", Version::V2, Kind::Value { map: 0, id: 4, off: Offsets { low: 0, high: 16 } },
        Kind::Value { map: 0, id: 4, off: Offsets { low: 4, high: 9 } }, Kind::Value { map: 0, id: 4, off: Offsets { low: 0, high: 16 } }),
    ("version 2: of two lookups", Version::V2, Kind::Value { map: 0, id: 4, off: Offsets { low: 0, high: 8 } }, OTHER, Kind::Unset),
];

/// In version 2 two addresses in one value give the interval of both; in version 1 they disagree.
#[test]
fn joined_offsets(rt: HostRuntime) {
    for &(name, version, first, second, wanted) in &JOINED_OFFSETS {
        same(&rt, name, &first.join(version, second), &wanted);
    }
}

/// An instruction at a slot makes a state go on so, or breaks this rule.
fn goes(
    rt: &impl Abort,
    name: &str,
    state: &mut State,
    slot: u16,
    insn: Insn,
    wanted: Result<Way, BrokenRule>,
) {
    same(rt, name, &state.step(site(slot), insn), &wanted);
}

#[test]
fn joined_states(rt: HostRuntime) {
    let falls = Ok(Way::Falls);
    let mut spilled = State::opening(Version::V1);
    let mut numbered = State::opening(Version::V1);
    let context = put!(Size::U64, R10, -8, R1);
    goes(&rt, "a context is spilled", &mut spilled, 0, context, falls);
    let five = store!(Size::U64, R10, -8, 5);
    goes(&rt, "a number is stored", &mut numbered, 0, five, falls);
    let read = load!(Size::U64, R4, R10, -8);
    let mut both = spilled.join(&spilled);
    let name = "a word spilled on both paths can be read";
    goes(&rt, name, &mut both, 1, read, falls);
    let mut other = spilled.join(&numbered);
    let name = "a pointer on one path and a number on the other can't";
    goes(&rt, name, &mut other, 1, read, Err(BrokenRule::StackUnset));
    let name = "registers are joined too";
    same(&rt, name, &other.kind(R10), &Kind::Stack(512));
}

/// The kind of R10 after eight is taken from it.
fn moved_down() -> Result<Kind, BrokenRule> {
    let opening = State::opening(Version::V1);
    let down = opening.after_alu(
        site(0),
        Width::Bits64,
        AluOp::Add,
        R10,
        SourceOperand::Imm(-8),
    )?;
    Ok(down.kind(R10))
}

#[test]
fn states_by_value(rt: HostRuntime) {
    same(
        &rt,
        "eight bytes down",
        &moved_down(),
        &Ok(Kind::Stack(504)),
    );
    let mut queue = State::opening(Version::V1);
    let read = load!(Size::U32, R0, R1, 16);
    let name = "the receive queue is read";
    goes(&rt, name, &mut queue, 0, read, Ok(Way::Falls));
    let high = queue.refine(Width::Bits64, Test::Gt, R0, SourceOperand::Imm(3), true);
    same(&rt, "above 3", &high.kind(R0), &scalar!(4, 7));
}
