//! The shipped program beside the rule in plain Rust, on generated frames and records; and programs that are wrong in one place, which have
//! to differ from it.

ghost use Rattle.std.specs.Prelude.{◌≡◌, ◌<◌, length};
ghost use Rattle.semantics.specs.ShardPlan.{AreOptions};
ghost use Rattle.shard_port.specs.PortView.{ServesMaps};
ghost use Rattle.replay_tests.specs.SessionOptions.{session_options};

use super::asked::AllAsked;
use super::cases::{Case, Difference};
use super::numbers::Numbers;
use super::program_runs::program;
use super::sessions::options;
use super::wrong::{WRONG, Wrong, wrong_program};
use crate::asserting::{holds, holds_of, same_fact};
use shard_core::Shard;
use shard_port::laws::opened_serve;
use shards::PlainShards;
use std::alloc::Global;
use std::process::Abort;
use std::test::Fail;
use verifier::Verified;

/// A difference, and the number of its case.
type Found = Option<(Difference, u64)>;

/// How many cases come over the same shards, each with a service of its own.
const TOGETHER: u64 = 60;

/// The first case whose verdict or frame differs, and the shards.
fn steered(
    rt: &impl Abort,
    alloc: Global,
    verified: &Verified,
    seed: u64,
) -> Result<(Found, Vec<Shard>), Fail> {
    let mut numbers = Numbers::from(seed);
    let mut shards = PlainShards::open(alloc, verified.image(), options())?;
    opened_serve();
    let mut found = None;
    'cases: for number in 0..TOGETHER {
        let case = Case::of(&mut numbers);
        let difference = case.steering_difference(rt, alloc, verified, &mut shards)?;
        if let (Some(difference), None) = (difference, found) {
            found = Some((difference, number));
        }
    }
    Ok((found, shards.into_list()))
}

/// The first of the same cases whose calls differ. Counts how many cases came to each ending.
fn asked(
    rt: &impl Abort,
    alloc: Global,
    shards: &[Shard],
    seed: u64,
    met: &mut [u32; 28],
) -> Result<Found, Fail> {
    holds(rt, "six shards", shards.len() == 6);
    let mut numbers = Numbers::from(seed);
    let mut places = [0; 6];
    let mut found = None;
    'cases: for number in 0..TOGETHER {
        let case = Case::of(&mut numbers);
        let asked = AllAsked::next(shards, &mut places);
        let difference = case.calls_difference(alloc, &asked)?;
        if let (Some(difference), None) = (difference, found) {
            found = Some((difference, number));
        }
        let place = case.ending().place();
        met[place] = met[place].saturating_add(1);
    }
    Ok(found)
}

/// The first difference of the cases of a round: of a verdict or a frame, or else of the calls.
fn round_difference(
    rt: &impl Abort,
    alloc: Global,
    verified: &Verified,
    round: u32,
    met: &mut [u32; 28],
) -> Result<Found, Fail> {
    let seed = 20_261_123 + u64::from(round);
    let (found, shards) = steered(rt, alloc, verified, seed)?;
    if found.is_some() {
        return Ok(found);
    }
    asked(rt, alloc, &shards, seed, met)
}

/// How many rounds there are.
const ROUNDS: u32 = 50;

/// How many cases come to each ending, at least.
const LEAST: u32 = 12;

/// A round has no difference.
fn is_steered(
    rt: &impl Abort,
    alloc: Global,
    verified: &Verified,
    round: u32,
    met: &mut [u32; 28],
) -> Result<(), Fail> {
    let found = round_difference(rt, alloc, verified, round, met)?;
    same_fact(
        rt,
        "a round",
        "the number, and the difference",
        &(round, found),
        &(round, None),
    );
    Ok(())
}

/// This many cases came to the ending of this number.
fn is_met(rt: &impl Abort, place: usize, times: u32) {
    assert!(rt; times >= LEAST, "ending {place} came {times} times");
}

#[test]
fn generated_frames_are_steered_by_the_rule(rt: HostRuntime) -> Result<(), Fail> {
    let verified = program(rt.alloc())?;
    let mut met = [0; 28];
    'rounds: for round in 0..ROUNDS {
        is_steered(&rt, rt.alloc(), &verified, round, &mut met)?;
    }
    for (place, times) in met.iter().enumerate() {
        is_met(&rt, place, *times);
    }
    Ok(())
}

/// Whether the first difference of some round is this one.
fn differs_so(
    rt: &impl Abort,
    alloc: Global,
    verified: &Verified,
    want: Difference,
) -> Result<bool, Fail> {
    let mut met = [0; 28];
    'rounds: for round in 0..ROUNDS {
        let found = round_difference(rt, alloc, verified, round, &mut met)?;
        if let Some((difference, _)) = found
            && difference == want
        {
            return Ok(true);
        }
    }
    Ok(false)
}

/// The program with another line differs from the rule, as it should.
fn is_wrong(rt: &impl Abort, alloc: Global, wrong: &Wrong) -> Result<(), Fail> {
    let (name, _block, _old, _new, want) = wrong;
    let verified = wrong_program(rt, alloc, wrong);
    let differs = differs_so(rt, alloc, &verified, *want)?;
    holds_of(rt, name, "the difference", differs);
    Ok(())
}

#[test]
fn wrong_programs_differ_from_the_rule(rt: HostRuntime) -> Result<(), Fail> {
    for wrong in &WRONG {
        is_wrong(&rt, rt.alloc(), wrong)?;
    }
    Ok(())
}
