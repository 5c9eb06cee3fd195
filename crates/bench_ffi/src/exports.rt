//! What C calls. A result is 0, or the number of the fault that stopped the call.

use crate::accept::{decode_image, verify_image};
use crate::running::{prepare_once, run_once};
use std::alloc::Global;

/// What the runs of a call came to.
#[repr(C)]
#[derive(Drop)]
pub struct LastRun {
    /// The last run's verdict: 1 drop, 2 pass, 3 send, 0 else.
    pub verdict: u64,
    /// How many instructions the last run did.
    pub steps: u64,
    /// The hash of the frame that the last run left (FNV-1a of 64 bits).
    pub hash: u64,
}

/// Reads an image this many times.
#[unsafe(no_mangle)]
pub extern "C" fn bench_ffi_decode(alloc: Global, image: &[u8], count: u32) -> u8 {
    for _ in 0..count {
        match decode_image(alloc, image) {
            Ok(_) => {}
            Err(refusal) => return refusal.number(),
        }
    }
    0
}

/// Reads and verifies an image this many times.
#[unsafe(no_mangle)]
pub extern "C" fn bench_ffi_verify(alloc: Global, image: &[u8], count: u32) -> u8 {
    for _ in 0..count {
        match verify_image(alloc, image) {
            Ok(_) => {}
            Err(refusal) => return refusal.number(),
        }
    }
    0
}

/// Reads and verifies an image, and runs it this many times: each time on a frame of these bytes, over shards of its own, whose
/// journals have room for this many entries.
#[unsafe(no_mangle)]
pub extern "C" fn bench_ffi_run(
    alloc: Global,
    image: &[u8],
    frame: &[u8],
    runs: u32,
    journal: u32,
    outcome: &mut LastRun,
) -> u8 {
    let verified = match verify_image(alloc, image) {
        Ok(verified) => verified,
        Err(refusal) => return refusal.number(),
    };
    for _ in 0..runs {
        match run_once(alloc, &verified, frame, journal) {
            Ok(ran) => {
                outcome.verdict = ran.exit.verdict.number();
                outcome.steps = ran.exit.steps;
                outcome.hash = ran.hash;
            }
            Err(fault) => return fault,
        }
    }
    0
}

/// All of this but the runs.
#[unsafe(no_mangle)]
pub extern "C" fn bench_ffi_prepare(
    alloc: Global,
    image: &[u8],
    frame: &[u8],
    runs: u32,
    journal: u32,
    outcome: &mut LastRun,
) -> u8 {
    let verified = match verify_image(alloc, image) {
        Ok(verified) => verified,
        Err(refusal) => return refusal.number(),
    };
    for _ in 0..runs {
        match prepare_once(alloc, &verified, frame, journal) {
            Ok(hash) => outcome.hash = hash,
            Err(fault) => return fault,
        }
    }
    0
}
