//! Programs on frames, worked out by hand.

ghost use Rattle.std.specs.Prelude.{◌<◌};

mod addresses;
mod arithmetic;
mod asking;
mod listing;
mod memory;
mod nothing;
mod programs;
mod scripted;

use crate::asserting::{prints, same, same_fact};
use ebpf_decode::Insn;
use isa::Register::{R0, R1, R2, R5, R10};
use isa::{Register, Size, SourceOperand, Test};
use listing::{EXIT, checked};
use machine::{Exit, Moment, Stop};
use programs::{MOMENT, accepted, ran};
use semantics::Verdict;
use std::alloc::Global;
use std::process::Abort;
use test_support::{call, jump, load, number, put};

fn exit(verdict: Verdict, steps: u64) -> Exit {
    Exit { verdict, steps }
}

/// A run of the program ends so, and leaves the frame as it was.
fn ends(
    rt: &impl Abort,
    alloc: Global,
    moment: &Moment,
    head: &[Insn],
    tail: &[Insn],
    bytes: &[u8],
    want: Exit,
    name: &str,
)
    requires { moment.now.worker < 8 }
{
    let verified = accepted(rt, alloc, &[], head, tail);
    let ran = ran(rt, alloc, &verified, moment, bytes).expect(rt, "a frame");
    same(rt, name, &ran.exit, &want);
    same_fact(rt, name, "the frame", &ran.frame.bytes(), &bytes);
}

#[rattlefmt::skip]
static HEADS: [(&str, &[Insn], Exit); 3] = [
    ("a number above 32 bits", &[Insn::Lddw { dst: Register::R0, value: 0x1_0000_0001 }], Exit { verdict: Verdict::Drop, steps: 2 }),
    ("so is the receive queue", &[Insn::Ldx { size: Size::U32, dst: Register::R0, src: Register::R1, offset: 16 }],
        Exit { verdict: Verdict::Pass, steps: 2 }),
    ("the frame came from interface 1", &[Insn::Ldx { size: Size::U32, dst: Register::R0, src: Register::R1, offset: 12 }],
        Exit { verdict: Verdict::Drop, steps: 2 }),
];

/// The low 32 bits of R0 are the verdict, and a wide instruction is one step.
#[test]
fn one_instruction_and_an_exit(rt: HostRuntime) {
    for &(name, head, want) in &HEADS {
        ends(
            &rt,
            rt.alloc(),
            &MOMENT,
            head,
            &[EXIT],
            &[0; 14],
            want,
            name,
        );
    }
}

#[rattlefmt::skip]
static LAST_BYTES: [(&str, u8, Verdict); 4] = [
    ("2 passes",     2,    Verdict::Pass),
    ("3 sends",      3,    Verdict::Tx),
    ("0 aborts",     0,    Verdict::Aborted),
    ("and all else", 0xff, Verdict::Aborted),
];

/// Byte 13 is the verdict, where the packet has 14 bytes.
#[test]
fn a_byte_that_a_test_covers(rt: HostRuntime) {
    let head = checked!(14, 1);
    let tail = [load!(Size::U8, R0, R2, 13), EXIT];
    for &(name, last, verdict) in &LAST_BYTES {
        let want = exit(verdict, 8);
        let bytes = [0, 0, 0, 0, 0, 0, 0, 0, 0, 0, 0, 0, 0, last, 0];
        ends(
            &rt,
            rt.alloc(),
            &MOMENT,
            &head,
            &tail,
            &bytes[..14],
            want,
            name,
        );
        ends(&rt, rt.alloc(), &MOMENT, &head, &tail, &bytes, want, name);
    }
}

#[rattlefmt::skip]
static MOMENTS: [(&str, i32, Verdict); 2] = [
    ("the worker's number is 3",                8, Verdict::Tx),
    ("the low 32 bits of the time are 1",       5, Verdict::Drop),
];

/// Each run has its own time and the number of its worker.
#[test]
fn each_run_has_its_moment(rt: HostRuntime) {
    let moment = Moment {
        now_ns: 0xffff_ffff_0000_0001,
        worker: 3,
    };
    for &(name, helper, verdict) in &MOMENTS {
        let head = [call!(helper)];
        let want = exit(verdict, 2);
        ends(
            &rt,
            rt.alloc(),
            &moment,
            &head,
            &[EXIT],
            &[0; 14],
            want,
            name,
        );
    }
}

#[test]
fn a_spilled_packet_pointer(rt: HostRuntime) {
    let tail = [
        put!(Size::U64, R10, -8, R2),
        load!(Size::U64, R5, R10, -8),
        load!(Size::U8, R0, R5, 13),
        EXIT,
    ];
    let mut bytes = [0; 14];
    bytes[13] = 3;
    let want = exit(Verdict::Tx, 10);
    ends(
        &rt,
        rt.alloc(),
        &MOMENT,
        &checked!(14, 3),
        &tail,
        &bytes,
        want,
        "byte 13",
    );
}

#[rattlefmt::skip]
static JUMPS: [(&str, i32, Insn, Exit); 4] = [
    ("ja goes past what it skips",   1, Insn::Ja { distance: 1 },   Exit { verdict: Verdict::Drop, steps: 5 }),
    ("so does the jump of 32 bits",  1, Insn::Ja32 { distance: 1 }, Exit { verdict: Verdict::Drop, steps: 5 }),
    ("a jump comes behind it",       2, Insn::Ja { distance: 1 },   Exit { verdict: Verdict::Tx, steps: 4 }),
    ("whichever it is",              2, Insn::Ja32 { distance: 1 }, Exit { verdict: Verdict::Tx, steps: 4 }),
];

#[test]
fn jumps_over_slots(rt: HostRuntime) {
    for &(name, number, jump, want) in &JUMPS {
        let head = [
            number!(R0, number),
            jump!(Test::Eq, R0, SourceOperand::Imm(2), 2),
        ];
        let tail = [number!(R0, 1), jump, number!(R0, 3), EXIT];
        ends(&rt, rt.alloc(), &MOMENT, &head, &tail, &[0; 14], want, name);
    }
}

#[test]
fn stops_are_printed(rt: HostRuntime) {
    let stop = Stop::JournalFull { shard: 7 };
    same(&rt, "its number", &stop.number(), &60);
    prints(&rt, rt.alloc(), &stop, "fault 60 JournalFull shard 7");
}
