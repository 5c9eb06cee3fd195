//! How many calls on the maps a frame costs, Enter and Leave among them.

ghost use Rattle.std.specs.Prelude.{◌≡◌, ◌<◌, length};

use super::asked::AllAsked;
use super::program_runs::program;
use super::sessions::{options, put_session, run_session};
use super::worlds::{Keys, World};
use crate::asserting::{holds, holds_of, same_fact};
use crate::datagrams::with_byte;
use semantics::Verdict;
use shard_core::Shard;
use shard_port::laws::opened_serve;
use shards::PlainShards;
use std::alloc::Global;
use std::process::Abort;
use std::test::Fail;
use verifier::Verified;
use wire::Frame;

const TRACKED: Option<[u8; 8]> = Some([0; 8]);

const NOTRACK: Option<[u8; 8]> = Some([1, 0, 0, 0, 0, 0, 0, 0]);

/// The number of the second backend, and a number without a record.
const SECOND: Option<[u8; 8]> = Some([1, 0, 0, 0, 0, 0, 0, 0]);

const ABSENT: Option<[u8; 8]> = Some([0, 1, 0, 0, 0, 0, 0, 0]);

/// The first two backends. The first owns every slot.
const BOTH_UP: [[u8; 8]; 2] = [[192, 0, 2, 1, 1, 0, 0, 0], [192, 0, 2, 2, 1, 0, 0, 0]];

const FIRST_UP: [[u8; 8]; 2] = [[192, 0, 2, 1, 1, 0, 0, 0], [192, 0, 2, 2, 0, 0, 0, 0]];

const NONE_UP: [[u8; 8]; 2] = [[192, 0, 2, 1, 0, 0, 0, 0], [192, 0, 2, 2, 0, 0, 0, 0]];

#[rattlefmt::skip]
const TUNNEL: [u8; 24] = [10, 0, 0, 9, 2, 0, 0, 0, 0, 10, 2, 0, 0, 0, 0, 11, 1, 0, 0, 0, 0, 0, 0, 0];

/// What a row shows, which byte of the frame is another one, the service, what was noted, the first two backends, the verdict, and the
/// number of calls.
type Row = (
    &'static str,
    usize,
    u8,
    Option<[u8; 8]>,
    Option<[u8; 8]>,
    [[u8; 8]; 2],
    Verdict,
    u64,
);

// The sums: the service's calls, the tunnel's, the flows', the ring's, the backends', the count's. Every map that is asked at all costs an
// Enter and a Leave; a record that is there, a Lookup and a Load, but three Loads the tunnel's; a note, an Update; the count, a Lookup and
// an Atomic.
#[rattlefmt::skip]
static ROWS: [Row; 12] = [
    ("no flow",                                      14, 0x46, TRACKED, None,   BOTH_UP,  Verdict::Pass, 4),
    ("no service",                                   0,  2,    None,    None,   BOTH_UP,  Verdict::Pass, 3 + 4),
    ("a time to live of 0",                          22, 0,    TRACKED, None,   BOTH_UP,  Verdict::Drop, 4 + 4),
    ("the noted backend is up",                      0,  2,    TRACKED, SECOND, BOTH_UP,  Verdict::Tx,   22),
    ("without tracking",                             0,  2,    NOTRACK, None,   BOTH_UP,  Verdict::Tx,   22),
    ("without tracking, in spite of a note",         0,  2,    NOTRACK, SECOND, BOTH_UP,  Verdict::Tx,   22),
    ("a new flow",                                   0,  2,    TRACKED, None,   BOTH_UP,  Verdict::Tx,   26),
    ("the noted backend is not up",                  0,  2,    TRACKED, SECOND, FIRST_UP, Verdict::Tx,   29),
    ("the noted backend has no record",              0,  2,    TRACKED, ABSENT, FIRST_UP, Verdict::Tx,   28),
    ("without tracking, no backend is up",           0,  2,    NOTRACK, None,   NONE_UP,  Verdict::Drop, 22),
    ("a new flow, no backend is up",                 0,  2,    TRACKED, None,   NONE_UP,  Verdict::Drop, 25),
    ("a noted backend, and no backend is up",        0,  2,    TRACKED, SECOND, NONE_UP,  Verdict::Drop, 28),
];

fn world_of(vip: Option<[u8; 8]>, noted: Option<[u8; 8]>, backends: [[u8; 8]; 2]) -> World {
    let [first, second] = backends;
    World {
        vip,
        noted,
        slots: [[1, 0, 0, 0, 0, 0, 0, 0]; 7],
        backends: [first, second, [0; 8], [0; 8]],
        tunnel: TUNNEL,
    }
}

/// The run of the program on a frame over maps that hold this: its verdict, and the shards.
fn visited(
    rt: &impl Abort,
    alloc: Global,
    verified: &Verified,
    world: &World,
    frame: &mut Frame,
) -> Result<(Verdict, Vec<Shard>), Fail>
    requires { frame.old.headroom ≡ 256 }
{
    let mut shards = PlainShards::open(alloc, verified.image(), options())?;
    opened_serve();
    let keys = Keys::of(frame.bytes());
    let is_put = put_session(verified.image(), &mut shards, world, &keys);
    holds_of(rt, "a world", "the records", is_put == Ok(true));
    let exit = run_session(verified, &mut shards, frame).expect(rt, "an end");
    Ok((exit.verdict, shards.into_list()))
}

/// Runs the program on the row's frame, and compares.
fn costs(rt: &impl Abort, alloc: Global, verified: &Verified, row: &Row) -> Result<(), Fail> {
    let (name, at, byte, vip, noted, backends, verdict, calls) = row;
    let mut frame = Frame::of(alloc, &with_byte(rt, *at, *byte))?;
    let world = world_of(*vip, *noted, *backends);
    let (found, shards) = visited(rt, alloc, verified, &world, &mut frame)?;
    same_fact(rt, name, "the verdict", &found, verdict);
    holds(rt, name, shards.len() == 6);
    let asked = AllAsked::next(&shards, &mut [0; 6]);
    same_fact(rt, name, "the number of calls", &asked.calls(), calls);
    Ok(())
}

#[test]
fn each_frame_costs_few_calls(rt: HostRuntime) -> Result<(), Fail> {
    let verified = program(rt.alloc())?;
    for row in &ROWS {
        costs(&rt, rt.alloc(), &verified, row)?;
    }
    Ok(())
}
