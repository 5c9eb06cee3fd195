//! The shipped program on one worker and one thread, without a lock: a row a line, a name, tenths of a nanosecond for a frame, the same
//! for making the frame alone, and how many of the frames were sent.

mod putting;
mod rows;

ghost use Rattle.std.specs.Prelude.{◌≡◌};
ghost use Rattle.semantics.specs.ShardPlan.{AreOptions};
ghost use Rattle.shard_port.specs.PortView.{ServesMaps};
ghost use Rattle.shard_port.specs.PlainPorts.{IsSamePort};
ghost use Rattle.bench_parts.specs.FrameOptions.{bench_options};

use anyhow::Error;
use machine::{Exit, Moment, Stop, run};
use putting::{options, put_session};
use rows::{FRAMES, FrameRow, ROWS, SIZE, frame_bytes};
use semantics::Verdict;
use shard_port::PlainPort;
use shard_port::laws::{opened_serve, stays_one_port};
use shards::PlainShards;
use std::alloc::Global;
use std::time::Instant;
use steer::shipped;
use verifier::{Verified, verify};
use wire::Frame;

/// When the frames come, and on which worker.
const MOMENT: Moment = Moment {
    now_ns: 0,
    worker: 0,
};

/// How often a row is measured; the least time is printed.
const TIMES: usize = 50;

/// `run` at the port of a single caller, which is the same port after it.
fn run_at(verified: &Verified, frame: &mut Frame, port: &mut PlainPort) -> Result<Exit, Stop>
    requires maps { port.old.image.now.maps ≡ verified.now.maps }
    requires headroom { frame.old.headroom ≡ 256 }
    ensures { IsSamePort port.old port.new }
{
    stays_one_port();
    run(verified, frame, &MOMENT, port)
}

/// One run.
fn run_session(
    verified: &Verified,
    shards: &mut PlainShards,
    frame: &mut Frame,
) -> Result<Exit, Stop>
    requires options { AreOptions verified.now.maps bench_options }
    requires shards { ServesMaps verified.now.maps bench_options shards.old }
    requires headroom { frame.old.headroom ≡ 256 }
    ensures { ServesMaps verified.now.maps bench_options shards.new }
{
    let mut port = PlainPort::over(verified.image(), options(), shards, 0);
    let ended = run_at(verified, frame, &mut port);
    port.finish();
    ended
}

/// Makes the frames and runs the program on each. Gives how many were sent.
fn run_all(
    alloc: Global,
    verified: &Verified,
    shards: &mut PlainShards,
    row: &FrameRow,
) -> Result<u32, Error>
    requires options { AreOptions verified.now.maps bench_options }
    requires shards { ServesMaps verified.now.maps bench_options shards.old }
{
    let mut sent = 0u32;
    'frames: for number in 0..FRAMES {
        let mut frame = Frame::of(alloc, &frame_bytes(row, number))?;
        let exit = run_session(verified, shards, &mut frame)?;
        if exit.verdict == Verdict::Tx {
            sent = sent.saturating_add(1);
        }
    }
    Ok(sent)
}

/// Makes the frames alone.
fn make_all(alloc: Global, row: &FrameRow) -> Result<usize, Error> {
    let mut sum = 0usize;
    'frames: for number in 0..FRAMES {
        let frame = Frame::of(alloc, &frame_bytes(row, number))?;
        sum = sum.wrapping_add(frame.bytes().len());
    }
    Ok(sum)
}

/// What a frame's run takes, in tenths of a nanosecond, and how many frames were sent.
fn timed(rt: &HostRuntime, verified: &Verified, row: &FrameRow) -> Result<(u128, u32), Error> {
    let alloc = rt.alloc();
    let mut shards = PlainShards::open(alloc, verified.image(), options())?;
    opened_serve();
    put_session(verified.image(), &mut shards, row)?;
    let start = Instant::now(rt)?;
    let sent = run_all(alloc, verified, &mut shards, row)?;
    let time = start.elapsed(rt)?.as_nanos();
    Ok((time * 10 / u128::from(FRAMES), sent))
}

/// What making a frame takes, in tenths of a nanosecond.
fn made(rt: &HostRuntime, row: &FrameRow) -> Result<u128, Error> {
    let start = Instant::now(rt)?;
    let sum = make_all(rt.alloc(), row)?;
    let time = start.elapsed(rt)?.as_nanos();
    Ok(if sum == 0 {
        u128::MAX
    } else {
        time * 10 / u128::from(FRAMES)
    })
}

/// Prints the least of some times, and the least for the frames alone.
fn measure(rt: &HostRuntime, verified: &Verified, row: &FrameRow) -> Result<(), Error> {
    let mut least = u128::MAX;
    let mut frame = u128::MAX;
    let mut last = 0;
    'times: for _ in 0..TIMES {
        let (time, sent) = timed(rt, verified, row)?;
        least = least.min(time);
        frame = frame.min(made(rt, row)?);
        last = sent;
    }
    println!(rt; "{} {least} {frame} {last}", row.name)?;
    Ok(())
}

/// Prints all rows.
pub(crate) fn measure_all(rt: &HostRuntime) -> Result<(), Error> {
    let alloc = rt.alloc();
    let verified = verify(alloc, shipped(alloc, SIZE)?)?;
    for row in ROWS {
        measure(rt, &verified, &row)?;
    }
    Ok(())
}
