//! Programs and their first faults, worked out by hand.

use crate::asserting::{prints, same, same_at, same_fact};
use crate::programs::{image_of, repeated};
use ebpf_decode::{Insn, Version, decode};
use image_shape::{
    ShapeFault, check_shape, edges_go_up, falls_through, one_answer, runs_follow_edges,
};
use isa::{AluOp, Register, SourceOperand, Test, Width};
use std::alloc::Global;
use std::process::Abort;
use test_support::programs::FIRST_RUN_IMAGE;

const MOV: Insn = Insn::Alu {
    width: Width::Bits64,
    op: AluOp::Mov,
    dst: Register::R0,
    source: SourceOperand::Imm(2),
};

const LDDW: Insn = Insn::Lddw {
    dst: Register::R0,
    value: 2,
};

const LDMAP: Insn = Insn::Ldmap {
    dst: Register::R1,
    map: 0,
};

const CALL: Insn = Insn::CallHelper { helper: 5 };

const EXIT: Insn = Insn::Exit;

const JA_BACK: Insn = Insn::Ja { distance: -1 };

const JA: Insn = Insn::Ja { distance: 0 };

const JA_1: Insn = Insn::Ja { distance: 1 };

const JA_2: Insn = Insn::Ja { distance: 2 };

const JA32_BACK: Insn = Insn::Ja32 {
    distance: -2147483648,
};

const JA32_1: Insn = Insn::Ja32 { distance: 1 };

const JA32_FAR: Insn = Insn::Ja32 {
    distance: 2147483647,
};

const JEQ_BACK: Insn = Insn::JumpIf {
    width: Width::Bits64,
    test: Test::Eq,
    dst: Register::R0,
    source: SourceOperand::Imm(0),
    distance: -1,
};

const JEQ: Insn = Insn::JumpIf {
    width: Width::Bits64,
    test: Test::Eq,
    dst: Register::R0,
    source: SourceOperand::Imm(0),
    distance: 0,
};

const JEQ_1: Insn = Insn::JumpIf {
    width: Width::Bits32,
    test: Test::Eq,
    dst: Register::R0,
    source: SourceOperand::Imm(0),
    distance: 1,
};

const JEQ_2: Insn = Insn::JumpIf {
    width: Width::Bits64,
    test: Test::Eq,
    dst: Register::R0,
    source: SourceOperand::Reg(Register::R1),
    distance: 2,
};

#[rattlefmt::skip]
static ACCEPTED: [(&str, &[Insn]); 10] = [
    ("exit alone",                                    &[EXIT]),
    ("moves and exit",                                &[MOV, MOV, EXIT]),
    ("a jump to the next slot",                       &[JA, EXIT]),
    ("a jump over a wide instruction",                &[JEQ_2, LDDW, EXIT]),
    ("a conditional jump over an exit",               &[JEQ_1, EXIT, EXIT]),
    ("both edges to one slot",                        &[JEQ, EXIT]),
    ("a far jump over an exit that another reaches",  &[JEQ_1, JA32_1, EXIT, EXIT]),
    ("reached by two jumps",                          &[JEQ_1, JA, EXIT]),
    ("an unconditional jump may stand before the end", &[JEQ_1, JA, MOV, EXIT]),
    ("wide instructions",                             &[LDDW, LDMAP, LDDW, EXIT]),
];

#[rattlefmt::skip]
static REFUSED: [(&str, &[Insn], ShapeFault); 22] = [
    ("a jump to itself",                              &[MOV, JA_BACK, EXIT],          ShapeFault::JumpBackward { slot: 1 }),
    ("slots of wide instructions count",              &[LDDW, JA_BACK, EXIT],         ShapeFault::JumpBackward { slot: 2 }),
    ("the lowest distance",                           &[JA32_BACK, EXIT],             ShapeFault::JumpBackward { slot: 0 }),
    ("a conditional jump last, backward",             &[MOV, JEQ_BACK],               ShapeFault::JumpBackward { slot: 1 }),
    ("a jump to the slot after the last",             &[MOV, JA],                     ShapeFault::JumpOutside { slot: 1 }),
    ("a jump past the last slot",                     &[JA_2, MOV, EXIT],             ShapeFault::JumpOutside { slot: 0 }),
    ("the largest distance",                          &[MOV, JA32_FAR, EXIT],         ShapeFault::JumpOutside { slot: 1 }),
    ("a conditional jump past the last slot",         &[JEQ_1, EXIT],                 ShapeFault::JumpOutside { slot: 0 }),
    ("a conditional jump last",                       &[MOV, JEQ],                    ShapeFault::JumpOutside { slot: 1 }),
    ("into a number of 64 bits",                      &[JA_1, LDDW, EXIT],            ShapeFault::JumpIntoWide { slot: 0 }),
    ("into a map's reference",                        &[JEQ_1, LDMAP, EXIT],          ShapeFault::JumpIntoWide { slot: 0 }),
    ("a move last",                                   &[MOV],                         ShapeFault::FallsOff { slot: 0 }),
    ("a call last",                                   &[MOV, CALL],                   ShapeFault::FallsOff { slot: 1 }),
    ("a wide instruction last",                       &[EXIT, LDDW],                  ShapeFault::FallsOff { slot: 1 }),
    ("the lowest slot goes before the lowest number", &[JA_2, JA_BACK, EXIT],         ShapeFault::JumpOutside { slot: 0 }),
    ("edges go before paths",                         &[JA_1, MOV, MOV],              ShapeFault::FallsOff { slot: 2 }),
    ("no path to what an unreachable one does",       &[JA_1, JA_BACK, EXIT],         ShapeFault::JumpBackward { slot: 1 }),
    ("jumped over",                                   &[MOV, JA_1, MOV, EXIT],        ShapeFault::Unreachable { slot: 2 }),
    ("after an exit",                                 &[EXIT, MOV, EXIT],             ShapeFault::Unreachable { slot: 1 }),
    ("jumped over by the larger distance",            &[JA32_1, EXIT, EXIT],          ShapeFault::Unreachable { slot: 1 }),
    ("behind an unreachable jump",                    &[EXIT, JA, EXIT],              ShapeFault::Unreachable { slot: 1 }),
    ("a wide one that is jumped over",                &[JA_2, LDDW, EXIT],            ShapeFault::Unreachable { slot: 1 }),
];

/// A program without maps has this first fault of structure, or none.
fn has_shape(
    rt: &impl Abort,
    alloc: Global,
    name: &str,
    code: &[Insn],
    want: Result<(), ShapeFault>,
) {
    let image = image_of(rt, alloc, Version::V1, &[], code);
    same(rt, name, &check_shape(&image), &want);
}

#[test]
fn accepted(rt: HostRuntime) {
    for &(name, code) in &ACCEPTED {
        has_shape(&rt, rt.alloc(), name, code, Ok(()));
    }
}

#[test]
fn refused(rt: HostRuntime) {
    for &(name, code, want) in &REFUSED {
        has_shape(&rt, rt.alloc(), name, code, Err(want));
    }
}
/// What the first this many slots of FIRST_RUN_IMAGE are refused with: its jump at slot 5 goes to slot 17.
fn want_at(slots: u32) -> Result<(), ShapeFault> {
    if slots < 6 {
        Err(ShapeFault::FallsOff {
            slot: slots.saturating_sub(1),
        })
    } else if slots < 18 {
        Err(ShapeFault::JumpOutside { slot: 5 })
    } else {
        Ok(())
    }
}

/// The bytes of a beginning of FIRST_RUN_IMAGE have the structure that is wanted of this many slots.
fn begins_so(rt: &impl Abort, alloc: Global, bytes: &[u8], slots: u32) {
    let image = decode(alloc, bytes).expect(rt, "an image");
    let found = check_shape(&image);
    same_at(rt, "slots up to", u64::from(slots), &found, &want_at(slots));
}

// Eleven slots end within a wide instruction, and are no image.
#[test]
fn beginnings(rt: HostRuntime) {
    for slots in 1u32..19 {
        if slots != 11 {
            let bytes = &FIRST_RUN_IMAGE[..24 + 8 * slots as usize];
            begins_so(&rt, rt.alloc(), bytes, slots);
        }
    }
}

#[test]
fn longest_program(rt: HostRuntime) {
    let code = repeated(&rt, rt.alloc(), MOV, 4095);
    has_shape(&rt, rt.alloc(), "4096 slots", &code, Ok(()));
}

#[rattlefmt::skip]
static TEXTS: [(ShapeFault, u8, &str); 5] = [
    (ShapeFault::JumpBackward { slot: 1 },   30, "fault 30 JumpBackward slot 1"),
    (ShapeFault::JumpOutside { slot: 5 },    31, "fault 31 JumpOutside slot 5"),
    (ShapeFault::JumpIntoWide { slot: 0 },   32, "fault 32 JumpIntoWide slot 0"),
    (ShapeFault::FallsOff { slot: 4095 },    33, "fault 33 FallsOff slot 4095"),
    (ShapeFault::Unreachable { slot: 2 },    34, "fault 34 Unreachable slot 2"),
];

#[test]
fn texts(rt: HostRuntime) {
    for &(fault, number, want) in &TEXTS {
        same(&rt, want, &fault.number(), &number);
        prints(&rt, rt.alloc(), &fault, want);
    }
}

#[rattlefmt::skip]
static EDGES: [(&str, Insn, Option<i32>, bool); 6] = [
    ("a move goes on",                    MOV,       None,              true),
    ("a wide instruction goes on",        LDDW,      None,              true),
    ("exit ends",                         EXIT,      None,              false),
    ("a jump goes away",                  JA_1,      Some(1),           false),
    ("a far jump goes away",              JA32_BACK, Some(-2147483648), false),
    ("a conditional jump may go on",      JEQ_BACK,  Some(-1),          true),
];

#[test]
fn edges_of_an_instruction(rt: HostRuntime) {
    for &(name, insn, distance, falls) in &EDGES {
        same_fact(&rt, name, "its distance", &insn.jump_distance(), &distance);
        same_fact(&rt, name, "goes on", &falls_through(insn), &falls);
    }
}

#[test]
fn laws() {
    edges_go_up();
    one_answer();
    runs_follow_edges();
}
