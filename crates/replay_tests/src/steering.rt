//! What no clause says: that the program is made where there is memory, that it is accepted, and that it steers frames.

mod asked;
mod beside;
mod calls;
mod cases;
mod endings;
mod frames;
mod lines;
mod numbers;
mod program_runs;
mod sessions;
mod worlds;
mod wrong;

use crate::asserting::{holds_of, same_fact};
use conntrack::SteerFault;
use std::alloc::Global;
use std::process::Abort;
use std::test::Fail;
use steer::shipped;
use verifier::verify;

const SIZES: [(&str, u32); 4] = [("7", 7), ("251", 251), ("4093", 4093), ("65537", 65537)];

/// The program for this many slots has six maps, and is accepted, as no reader.
fn is_accepted(rt: &impl Abort, alloc: Global, name: &str, size: u32) -> Result<(), Fail> {
    let image = shipped(alloc, size)?;
    same_fact(rt, name, "the number of maps", &image.maps().len(), &6);
    let verified = verify(alloc, image)?;
    holds_of(rt, name, "no reader", !verified.is_reader());
    Ok(())
}

#[test]
fn each_size_is_accepted(rt: HostRuntime) -> Result<(), Fail> {
    for (name, size) in &SIZES {
        is_accepted(&rt, rt.alloc(), *name, *size)?;
    }
    Ok(())
}

const OTHER_SIZES: [(&str, u32); 5] = [
    ("0", 0),
    ("8", 8),
    ("252", 252),
    ("65536", 65536),
    ("2^32 - 1", 4294967295),
];

fn is_refused(alloc: Global, size: u32) -> bool {
    match shipped(alloc, size) {
        Ok(_) => false,
        Err(fault) => fault == SteerFault::BadSize,
    }
}

#[test]
fn other_sizes_are_refused(rt: HostRuntime) -> Result<(), Fail> {
    for (name, size) in &OTHER_SIZES {
        holds_of(&rt, *name, "the refusal", is_refused(rt.alloc(), *size));
    }
    Ok(())
}
