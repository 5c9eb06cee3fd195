//! What a run asks of a map by each instruction, and what it makes of the reply, worked out by hand.

use super::listing::{EXIT, checked};
use super::programs::{MOMENT, accepted, accepted_in};
use super::scripted::{Asked, Replies, ScriptedPort};
use crate::asserting::{same, same_fact};
use ebpf_decode::{Insn, MapDef, MapKind, Version};
use isa::Register::{R0, R1, R2, R3, R4, R5, R6, R10};
use isa::{AluOp, AtomicOp, Size, SourceOperand, Test, Width};
use machine::{Exit, Stop, run};
use semantics::{Key, Value, Verdict};
use std::alloc::Global;
use std::process::Abort;
use test_support::{add, call, jump, lddw, load, mov, number, put, store};
use verifier::Verified;
use wire::{Frame, FrameFault};

/// One hash map of keys of four bytes and values of 16.
const HASH: [MapDef; 1] = [MapDef {
    kind: MapKind::Hash,
    key_size: 4,
    value_size: 16,
    max_entries: 8,
}];

pub(super) const REPLIES: Replies = Replies {
    number: 3,
    answer: 2,
    before_refusal: 100,
};

/// A run of a program over the hash map, with these replies, ends so, was last asked this, and leaves this frame.
fn asks(
    rt: &impl Abort,
    alloc: Global,
    replies: Replies,
    head: &[Insn],
    tail: &[Insn],
    want: Result<Exit, Stop>,
    asked: Asked,
    bytes: &[u8],
    name: &str,
) {
    let verified = accepted(rt, alloc, &HASH, head, tail);
    asks_by(rt, alloc, &verified, replies, want, asked, bytes, name).expect(rt, "a frame");
}

/// The same of a program of version 2 over arrays, which leaves the frame as it was.
pub(super) fn asks_of_arrays(
    rt: &impl Abort,
    alloc: Global,
    arrays: &[MapDef],
    replies: Replies,
    head: &[Insn],
    tail: &[Insn],
    want: Result<Exit, Stop>,
    asked: Asked,
    name: &str,
) {
    let verified = accepted_in(rt, alloc, Version::V2, arrays, head, tail);
    let bytes = [0xaa; 20];
    asks_by(rt, alloc, &verified, replies, want, asked, &bytes, name).expect(rt, "a frame");
}

/// The same of an accepted program.
fn asks_by(
    rt: &impl Abort,
    alloc: Global,
    verified: &Verified,
    replies: Replies,
    want: Result<Exit, Stop>,
    asked: Asked,
    bytes: &[u8],
    name: &str,
) -> Result<(), FrameFault> {
    let mut port = ScriptedPort::over(verified.image(), replies);
    let mut frame = Frame::of(alloc, &[0xaa; 20])?;
    let ended = run(verified, &mut frame, &MOMENT, &mut port);
    same(rt, name, &ended, &want);
    same_fact(rt, name, "what was asked", &port.asked(), &asked);
    same_fact(rt, name, "the frame", &frame.bytes(), &bytes);
    Ok(())
}

/// The value of key 7 in R6, where it is found.
const FOUND: [Insn; 8] = [
    store!(Size::U32, R10, -4, 7),
    mov!(R2, R10),
    add!(R2, -4),
    Insn::Ldmap { dst: R1, map: 0 },
    call!(1),
    jump!(Test::Ne, R0, SourceOperand::Imm(0), 1),
    EXIT,
    mov!(R6, R0),
];

pub(super) fn ended(verdict: Verdict, steps: u64) -> Result<Exit, Stop> {
    Ok(Exit { verdict, steps })
}

const NUMBER: u64 = 0x1122_3344_5566_7788;

#[rattlefmt::skip]
static STORES: [(&str, Size, i16, u64, u64); 4] = [
    ("a byte",      Size::U8,   3, 1, 0x88),
    ("two bytes",   Size::U16,  6, 2, 0x7788),
    ("four bytes",  Size::U32, 12, 4, 0x5566_7788),
    ("eight bytes", Size::U64,  8, 8, NUMBER),
];

/// A store asks for the low bytes of the register.
#[test]
fn stores_of_a_register(rt: HostRuntime) {
    for &(name, size, offset, bytes, value) in &STORES {
        let tail = [
            lddw!(R5, NUMBER),
            put!(size, R6, offset, R5),
            number!(R0, 3),
            EXIT,
        ];
        let asked = Asked::Store {
            handle: 1,
            offset: u64::from(offset.unsigned_abs()),
            size: bytes,
            value,
        };
        asks(
            &rt,
            rt.alloc(),
            REPLIES,
            &FOUND,
            &tail,
            ended(Verdict::Tx, 11),
            asked,
            &[0xaa; 20],
            name,
        );
    }
}

#[rattlefmt::skip]
static PUTS: [(&str, Size, i32, u64, u64); 4] = [
    ("a byte of -1",      Size::U8,  -1, 1, 0xff),
    ("two bytes of -2",   Size::U16, -2, 2, 0xfffe),
    ("four bytes of -2",  Size::U32, -2, 4, 0xffff_fffe),
    ("eight bytes of -2", Size::U64, -2, 8, 0xffff_ffff_ffff_fffe),
];

/// An immediate is sign-extended first.
#[test]
fn stores_of_an_immediate(rt: HostRuntime) {
    for &(name, size, immediate, bytes, value) in &PUTS {
        let tail = [store!(size, R6, 8, immediate), number!(R0, 3), EXIT];
        let asked = Asked::Store {
            handle: 1,
            offset: 8,
            size: bytes,
            value,
        };
        asks(
            &rt,
            rt.alloc(),
            REPLIES,
            &FOUND,
            &tail,
            ended(Verdict::Tx, 10),
            asked,
            &[0xaa; 20],
            name,
        );
    }
}

#[rattlefmt::skip]
static ATOMICS: [(&str, AtomicOp, u64, Verdict); 10] = [
    ("add",                  AtomicOp::AtomicAdd,       0, Verdict::Pass),
    ("or",                   AtomicOp::AtomicOr,        0, Verdict::Pass),
    ("and",                  AtomicOp::AtomicAnd,       0, Verdict::Pass),
    ("xor",                  AtomicOp::AtomicXor,       0, Verdict::Pass),
    ("fetch and add",        AtomicOp::FetchAdd,        0, Verdict::Tx),
    ("fetch and or",         AtomicOp::FetchOr,         0, Verdict::Tx),
    ("fetch and and",        AtomicOp::FetchAnd,        0, Verdict::Tx),
    ("fetch and xor",        AtomicOp::FetchXor,        0, Verdict::Tx),
    ("exchange",             AtomicOp::Exchange,        0, Verdict::Tx),
    ("compare and exchange", AtomicOp::CompareExchange, 9, Verdict::Pass),
];

/// An operation on the number 3, by a source of 2 and with 9 in R0, asks so, and leaves this verdict in its source.
fn asks_atomic(
    rt: &impl Abort,
    alloc: Global,
    width: Width,
    bytes: u64,
    op: AtomicOp,
    expected: u64,
    verdict: Verdict,
    name: &str,
) {
    let atomic = Insn::AtomicUpdate {
        width,
        op,
        dst: R6,
        src: R5,
        offset: 8,
    };
    let tail = [number!(R0, 9), number!(R5, 2), atomic, mov!(R0, R5), EXIT];
    let asked = Asked::Atomic {
        handle: 1,
        offset: 8,
        size: bytes,
        op,
        value: 2,
        expected,
    };
    let want = ended(verdict, 12);
    asks(
        rt,
        alloc,
        REPLIES,
        &FOUND,
        &tail,
        want,
        asked,
        &[0xaa; 20],
        name,
    );
}

/// The operations that fetch put the number before, 3, in place of the source's 2; compare-and-exchange compares with R0, here 9, and
/// leaves its source.
#[test]
fn atomic_operations(rt: HostRuntime) {
    for &(name, op, expected, verdict) in &ATOMICS {
        asks_atomic(
            &rt,
            rt.alloc(),
            Width::Bits32,
            4,
            op,
            expected,
            verdict,
            name,
        );
        asks_atomic(
            &rt,
            rt.alloc(),
            Width::Bits64,
            8,
            op,
            expected,
            verdict,
            name,
        );
    }
}

/// Of 32 bits, an operation has the low half of each number.
#[test]
fn short_atomic_operations(rt: HostRuntime) {
    let op = AtomicOp::CompareExchange;
    let atomic = Insn::AtomicUpdate {
        width: Width::Bits32,
        op,
        dst: R6,
        src: R5,
        offset: 0,
    };
    let tail = [
        lddw!(R5, NUMBER),
        lddw!(R0, 0x9988_7766_5544_3322),
        atomic,
        EXIT,
    ];
    let asked = Asked::Atomic {
        handle: 1,
        offset: 0,
        size: 4,
        op,
        value: 0x5566_7788,
        expected: 0x5544_3322,
    };
    asks(
        &rt,
        rt.alloc(),
        REPLIES,
        &FOUND,
        &tail,
        ended(Verdict::Tx, 11),
        asked,
        &[0xaa; 20],
        "R0 has the old number",
    );
}

/// A pointer to a value that was spilled is the same when it comes back.
#[test]
fn a_spilled_value(rt: HostRuntime) {
    let tail = [
        add!(R6, 8),
        put!(Size::U64, R10, -16, R6),
        Insn::Ldx {
            size: Size::U64,
            dst: R4,
            src: R10,
            offset: -16,
        },
        store!(Size::U32, R4, 4, 5),
        number!(R0, 1),
        EXIT,
    ];
    let asked = Asked::Store {
        handle: 1,
        offset: 12,
        size: 4,
        value: 5,
    };
    asks(
        &rt,
        rt.alloc(),
        REPLIES,
        &FOUND,
        &tail,
        ended(Verdict::Drop, 13),
        asked,
        &[0xaa; 20],
        "12 bytes in",
    );
}

#[rattlefmt::skip]
static DELETIONS_BY_SPILLED: [(&str, [Insn; 8]); 2] = [
    ("a spilled map", [
        Insn::Ldmap { dst: R1, map: 0 },
        Insn::Stx { size: Size::U64, dst: R10, src: R1, offset: -32 },
        Insn::St { size: Size::U32, dst: R10, offset: -4, immediate: 7 },
        Insn::Alu { width: Width::Bits64, op: AluOp::Mov, dst: R2, source: SourceOperand::Reg(R10) },
        Insn::Alu { width: Width::Bits64, op: AluOp::Add, dst: R2, source: SourceOperand::Imm(-4) },
        Insn::Alu { width: Width::Bits64, op: AluOp::Mov, dst: R1, source: SourceOperand::Imm(0) },
        Insn::Ldx { size: Size::U64, dst: R1, src: R10, offset: -32 },
        Insn::CallHelper { helper: 3 },
    ]),
    ("a spilled place of the stack", [
        Insn::St { size: Size::U32, dst: R10, offset: -4, immediate: 7 },
        Insn::Alu { width: Width::Bits64, op: AluOp::Mov, dst: R2, source: SourceOperand::Reg(R10) },
        Insn::Alu { width: Width::Bits64, op: AluOp::Add, dst: R2, source: SourceOperand::Imm(-4) },
        Insn::Stx { size: Size::U64, dst: R10, src: R2, offset: -16 },
        Insn::Alu { width: Width::Bits64, op: AluOp::Mov, dst: R2, source: SourceOperand::Imm(0) },
        Insn::Ldx { size: Size::U64, dst: R2, src: R10, offset: -16 },
        Insn::Ldmap { dst: R1, map: 0 },
        Insn::CallHelper { helper: 3 },
    ]),
];

/// A map and a place of the stack are what they were when they come back.
#[test]
fn spilled_arguments(rt: HostRuntime) {
    for &(name, head) in &DELETIONS_BY_SPILLED {
        let asked = Asked::Delete {
            map: 0,
            key: key(&[7, 0, 0, 0]),
        };
        asks(
            &rt,
            rt.alloc(),
            REPLIES,
            &head,
            &[EXIT],
            ended(Verdict::Pass, 9),
            asked,
            &[0xaa; 20],
            name,
        );
    }
}

/// So is the packet's end: 20 bytes are there, and the last of them is written.
#[test]
fn a_spilled_packet_end(rt: HostRuntime) {
    let head = [
        load!(Size::U32, R2, R1, 0),
        load!(Size::U32, R3, R1, 4),
        put!(Size::U64, R10, -8, R3),
        number!(R3, 0),
        load!(Size::U64, R3, R10, -8),
        mov!(R4, R2),
        add!(R4, 20),
        number!(R0, 2),
        jump!(Test::Gt, R4, SourceOperand::Reg(R3), 2),
    ];
    let tail = [store!(Size::U8, R2, 19, 9), number!(R0, 3), EXIT];
    let mut bytes = [0xaa; 20];
    bytes[19] = 9;
    asks(
        &rt,
        rt.alloc(),
        REPLIES,
        &head,
        &tail,
        ended(Verdict::Tx, 12),
        Asked::Nothing,
        &bytes,
        "the last byte",
    );
}

fn key(bytes: &[u8]) -> Key {
    match Key::of(bytes) {
        Some(key) => key,
        None => Key::empty(),
    }
}

fn value(bytes: &[u8]) -> Value {
    match Value::of(bytes) {
        Some(value) => value,
        None => Value::empty(),
    }
}

/// The key at -4 and the value at -24 of the stack, map 0 in R1 and the flags in R4: the arguments of updates and deletions.
const ARGUMENTS: [Insn; 9] = [
    store!(Size::U32, R10, -4, 0x0403_0201),
    store!(Size::U64, R10, -24, 5),
    store!(Size::U64, R10, -16, -1),
    mov!(R2, R10),
    add!(R2, -4),
    mov!(R3, R10),
    add!(R3, -24),
    number!(R4, 1),
    Insn::Ldmap { dst: R1, map: 0 },
];

#[rattlefmt::skip]
static ANSWERS: [(&str, i32, Verdict); 3] = [
    ("2",                        2,  Verdict::Pass),
    ("3",                        3,  Verdict::Tx),
    ("-17, of 64 bits",        -17,  Verdict::Aborted),
];

#[test]
fn updates(rt: HostRuntime) {
    let value = value(&[
        5, 0, 0, 0, 0, 0, 0, 0, 255, 255, 255, 255, 255, 255, 255, 255,
    ]);
    for &(name, answer, verdict) in &ANSWERS {
        let replies = Replies { answer, ..REPLIES };
        let asked = Asked::Update {
            map: 0,
            key: key(&[1, 2, 3, 4]),
            value,
            flags: 1,
        };
        asks(
            &rt,
            rt.alloc(),
            replies,
            &ARGUMENTS,
            &[call!(2), EXIT],
            ended(verdict, 11),
            asked,
            &[0xaa; 20],
            name,
        );
    }
}

#[test]
fn deletions(rt: HostRuntime) {
    for &(name, answer, verdict) in &ANSWERS {
        let replies = Replies { answer, ..REPLIES };
        let asked = Asked::Delete {
            map: 0,
            key: key(&[1, 2, 3, 4]),
        };
        asks(
            &rt,
            rt.alloc(),
            replies,
            &ARGUMENTS,
            &[call!(3), EXIT],
            ended(verdict, 11),
            asked,
            &[0xaa; 20],
            name,
        );
    }
}

/// The packet's start moves 4 forward, so that 16 bytes are left, and the first of them is written.
#[test]
fn a_moved_start(rt: HostRuntime) {
    let head = [mov!(R6, R1), number!(R2, 4), call!(44), mov!(R1, R6)];
    let tail = [
        load!(Size::U32, R2, R1, 0),
        load!(Size::U32, R3, R1, 4),
        mov!(R4, R2),
        add!(R4, 16),
        number!(R0, 2),
        jump!(Test::Gt, R4, SourceOperand::Reg(R3), 1),
        store!(Size::U8, R2, 0, 7),
        number!(R0, 3),
        EXIT,
    ];
    let mut bytes = [0xaa; 16];
    bytes[0] = 7;
    asks(
        &rt,
        rt.alloc(),
        REPLIES,
        &head,
        &tail,
        ended(Verdict::Tx, 13),
        Asked::Nothing,
        &bytes,
        "16 bytes",
    );
}

#[rattlefmt::skip]
static STAYS: [(&str, i32); 2] = [
    ("13 bytes would be left",  7),
    ("more than the headroom", -257),
];

/// Where it cannot move, R0 is -22, and the packet as it was.
#[test]
fn a_start_that_stays(rt: HostRuntime) {
    for &(name, distance) in &STAYS {
        let tail = [add!(R0, 25), EXIT];
        let head = [number!(R2, distance), call!(44)];
        asks(
            &rt,
            rt.alloc(),
            REPLIES,
            &head,
            &tail,
            ended(Verdict::Tx, 4),
            Asked::Nothing,
            &[0xaa; 20],
            name,
        );
    }
}

/// The second call is refused: the packet is as the run had made it by then.
#[test]
fn a_refusal_in_the_middle(rt: HostRuntime) {
    let head = checked!(20, 1);
    let tail = [
        Insn::Ja { distance: 1 },
        EXIT,
        store!(Size::U8, R2, 0, 1),
        store!(Size::U32, R10, -4, 7),
        mov!(R2, R10),
        add!(R2, -4),
        Insn::Ldmap { dst: R1, map: 0 },
        call!(1),
        jump!(Test::Ne, R0, SourceOperand::Imm(0), 1),
        EXIT,
        mov!(R6, R0),
        store!(Size::U64, R6, 0, 6),
        number!(R0, 3),
        EXIT,
    ];
    let replies = Replies {
        before_refusal: 1,
        ..REPLIES
    };
    let asked = Asked::Store {
        handle: 1,
        offset: 0,
        size: 8,
        value: 6,
    };
    let mut bytes = [0xaa; 20];
    bytes[0] = 1;
    let want = Err(Stop::JournalFull { shard: 0 });
    asks(
        &rt,
        rt.alloc(),
        replies,
        &head,
        &tail,
        want,
        asked,
        &bytes,
        "the store is refused",
    );
}
