//! Runs of an accepted image, each over shards of its own.

ghost use Rattle.std.specs.Prelude.{◌≡◌, ◌≤◌, IfOk, length};
ghost use Rattle.shard_port.specs.Sessions.{OpenedServe};

use machine::{Exit, Moment, run};
use semantics::Options;
use shard_port::PlainPort;
use shard_port::laws::opened_serve;
use shards::PlainShards;
use std::alloc::Global;
use verifier::Verified;
use wire::{Frame, fnv1a64};

/// When the runs happen, on the only worker.
const MOMENT: Moment = Moment {
    now_ns: 0,
    worker: 0,
};

/// What a run came to.
#[derive(Clone, Copy, Debug)]
pub struct HashedRun {
    pub exit: Exit,
    /// The hash of the frame that it left.
    pub hash: u64,
}

/// One worker, and a journal with room for this many entries.
fn options(journal: u32) -> Options
    ensures { result.workers ≡ 1 }
{
    Options {
        workers: 1,
        shards: 1,
        journal,
    }
}

/// A frame of these bytes, or the number of the fault.
fn frame_of(alloc: Global, bytes: &[u8]) -> Result<Frame, u8>
    ensures frame { IfOk result (λ frame. frame ≡ record { bytes = bytes.now; headroom = 256 }) }
    ensures least { IfOk result (λ _. 14 ≤ length bytes.now) }
    ensures greatest { IfOk result (λ _. length bytes.now ≤ 2048) }
{
    match Frame::of(alloc, bytes) {
        Ok(frame) => Ok(frame),
        Err(fault) => Err(fault.number()),
    }
}

/// Opens shards and runs the program on a frame of these bytes, or returns the number of the fault.
pub fn run_once(
    alloc: Global,
    verified: &Verified,
    bytes: &[u8],
    journal: u32,
) -> Result<HashedRun, u8> {
    opened_serve();
    let options = options(journal);
    let mut shards = match PlainShards::open(alloc, verified.image(), options) {
        Ok(shards) => shards,
        Err(fault) => return Err(fault.number()),
    };
    let mut frame = frame_of(alloc, bytes)?;
    let _ = frame.bytes();
    let mut port = PlainPort::over(verified.image(), options, &mut shards, 0);
    let ended = run(verified, &mut frame, &MOMENT, &mut port);
    port.finish();
    match ended {
        Ok(exit) => Ok(HashedRun {
            exit,
            hash: fnv1a64(frame.bytes()),
        }),
        Err(stop) => Err(stop.number()),
    }
}

/// All of this but the run, so that its time can be taken off.
pub fn prepare_once(
    alloc: Global,
    verified: &Verified,
    bytes: &[u8],
    journal: u32,
) -> Result<u64, u8> {
    let shards = match PlainShards::open(alloc, verified.image(), options(journal)) {
        Ok(shards) => shards,
        Err(fault) => return Err(fault.number()),
    };
    let frame = frame_of(alloc, bytes)?;
    Ok(fnv1a64(frame.bytes()))
}
