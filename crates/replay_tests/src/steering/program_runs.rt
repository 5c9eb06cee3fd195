//! Runs of the shipped program on one frame, over maps that hold what the rows say.

ghost use Rattle.std.specs.Prelude.{◌≡◌};

use super::sessions::{Record, options, records_session, run_session};
use crate::asserting::{holds_of, same_bytes_of, same_fact};
use crate::datagrams::with_byte;
use crate::steered_frames::SENT;
use semantics::Verdict;
use shard_port::laws::opened_serve;
use shards::PlainShards;
use std::alloc::Global;
use std::process::Abort;
use std::test::Fail;
use steer::shipped;
use verifier::{Verified, verify};
use wire::Frame;

#[rattlefmt::skip]
const SLOTS: [Record; 7] = [
    (2, &[0, 0, 0, 0], &[1, 0, 0, 0, 0, 0, 0, 0]),
    (2, &[1, 0, 0, 0], &[1, 0, 0, 0, 0, 0, 0, 0]),
    (2, &[2, 0, 0, 0], &[1, 0, 0, 0, 0, 0, 0, 0]),
    (2, &[3, 0, 0, 0], &[1, 0, 0, 0, 0, 0, 0, 0]),
    (2, &[4, 0, 0, 0], &[1, 0, 0, 0, 0, 0, 0, 0]),
    (2, &[5, 0, 0, 0], &[1, 0, 0, 0, 0, 0, 0, 0]),
    (2, &[6, 0, 0, 0], &[1, 0, 0, 0, 0, 0, 0, 0]),
];

const VIP: Record = (
    0,
    &[203, 0, 113, 1, 0, 80, 17, 0],
    &[0, 0, 0, 0, 0, 0, 0, 0],
);

const NOTRACK: Record = (
    0,
    &[203, 0, 113, 1, 0, 80, 17, 0],
    &[1, 0, 0, 0, 0, 0, 0, 0],
);

const UP: Record = (3, &[0, 0, 0, 0], &[192, 0, 2, 1, 1, 0, 0, 0]);

const DOWN: Record = (3, &[0, 0, 0, 0], &[192, 0, 2, 1, 0, 0, 0, 0]);

#[rattlefmt::skip]
const GATEWAY: Record = (4, &[0, 0, 0, 0], &[10, 0, 0, 9, 2, 0, 0, 0, 0, 10, 2, 0, 0, 0, 0, 11, 1, 0, 0, 0, 0, 0, 0, 0]);

#[rattlefmt::skip]
const NOTED: Record = (1, &[198, 51, 100, 7, 203, 0, 113, 1, 0x9c, 0x40, 0, 0x50, 17, 0, 0, 0], &[1, 0, 0, 0, 0, 0, 0, 0]);

#[rattlefmt::skip]
const SECOND: Record = (3, &[1, 0, 0, 0], &[192, 0, 2, 1, 1, 0, 0, 0]);

/// What a row shows, what the maps hold beside the slots, which byte of the frame is another one, and the verdict.
type Row = (&'static str, &'static [Record], usize, u8, Verdict);

#[rattlefmt::skip]
const ROWS: [Row; 16] = [
    ("a new flow",                     &[VIP, UP, GATEWAY],                  0, 2,    Verdict::Tx),
    ("without tracking",               &[NOTRACK, UP, GATEWAY],              0, 2,    Verdict::Tx),
    ("the noted backend is up",        &[VIP, DOWN, SECOND, NOTED, GATEWAY], 0, 2,    Verdict::Tx),
    ("it is not looked at",            &[NOTRACK, DOWN, SECOND, NOTED, GATEWAY], 0, 2, Verdict::Drop),
    ("the noted backend is not up",    &[VIP, UP, NOTED, GATEWAY],           0, 2,    Verdict::Tx),
    ("no backend is up",               &[VIP, DOWN, GATEWAY],                0, 2,    Verdict::Drop),
    ("no tunnel",                      &[VIP, UP],                           0, 2,    Verdict::Drop),
    ("no service",                     &[UP, GATEWAY],                       0, 2,    Verdict::Pass),
    ("another port",                   &[VIP, UP, GATEWAY],                  37, 81,  Verdict::Pass),
    ("another protocol",               &[VIP, UP, GATEWAY],                  23, 6,   Verdict::Pass),
    ("a time to live of 0",            &[VIP, UP, GATEWAY],                  22, 0,   Verdict::Drop),
    ("no time to live, no service",    &[UP, GATEWAY],                       22, 0,   Verdict::Pass),
    ("a packet that is cut",           &[VIP, UP, GATEWAY],                  17, 29,  Verdict::Pass),
    ("options",                        &[VIP, UP, GATEWAY],                  14, 0x46, Verdict::Pass),
    ("a fragment",                     &[VIP, UP, GATEWAY],                  20, 0x20, Verdict::Pass),
    ("another type",                   &[VIP, UP, GATEWAY],                  13, 0x06, Verdict::Pass),
];

/// The shipped program for seven slots, accepted.
pub(super) fn program(alloc: Global) -> Result<Verified, Fail> {
    Ok(verify(alloc, shipped(alloc, 7)?)?)
}

/// Puts the slots and the records into new maps, and runs the program on the frame.
fn steered(
    rt: &impl Abort,
    alloc: Global,
    verified: &Verified,
    row: &Row,
    frame: &mut Frame,
) -> Result<Verdict, Fail>
    requires { frame.old.headroom ≡ 256 }
{
    let (name, records, ..) = row;
    let mut shards = PlainShards::open(alloc, verified.image(), options())?;
    opened_serve();
    let slots = records_session(verified.image(), &mut shards, &SLOTS);
    let others = records_session(verified.image(), &mut shards, records);
    holds_of(
        rt,
        name,
        "the records",
        slots == Ok(true) && others == Ok(true),
    );
    let exit = run_session(verified, &mut shards, frame).expect(rt, "an end");
    Ok(exit.verdict)
}

/// Runs the program on the row's frame, and compares.
fn steers(rt: &impl Abort, alloc: Global, verified: &Verified, row: &Row) -> Result<(), Fail> {
    let (name, _, at, byte, verdict) = row;
    let bytes = with_byte(rt, *at, *byte);
    let mut frame = Frame::of(alloc, &bytes)?;
    let found = steered(rt, alloc, verified, row, &mut frame)?;
    same_fact(rt, name, "the verdict", &found, verdict);
    if *verdict == Verdict::Tx {
        same_bytes_of(rt, name, "the sent frame", frame.bytes(), &SENT);
    } else {
        same_bytes_of(rt, name, "the frame", frame.bytes(), &bytes);
    }
    Ok(())
}

#[test]
fn frames_are_steered(rt: HostRuntime) -> Result<(), Fail> {
    let verified = program(rt.alloc())?;
    for row in &ROWS {
        steers(&rt, rt.alloc(), &verified, row)?;
    }
    Ok(())
}
