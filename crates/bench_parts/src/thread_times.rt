//! Calls on shards that threads share: a row a line, a name and tenths of a nanosecond.

mod core_calls;
mod shared_calls;

ghost use Rattle.std.specs.Prelude.{◌≡◌, ◌<◌, IfOk};
ghost use Rattle.shards.specs.NewShards.{IsNamed};
ghost use Rattle.bench_parts.specs.Measured.{IsPassReady};

use anyhow::Error;
use core_calls::timed_core;
use ebpf_decode::{Image, Insn, Version};
use semantics::JournalFull;
use shards::{Naming, Opened, Shards};
use shared_calls::{CallTask, LOOKUPS, MAP, OPTIONS, THREADS, task_of, work};
use std::alloc::Global;
use std::marker::Brand;
use std::sync::Wait;
use std::thread::{Threads, join};
use std::time::{Clock, Instant};

/// How often the shards are opened and measured; the least time is printed.
const TIMES: usize = 20;

/// An image of as many arrays as there are threads.
fn image(alloc: Global) -> Result<Image, Error> {
    let mut maps = Vec::new(alloc);
    'maps: for _ in 0..THREADS {
        maps.push(MAP)?;
    }
    let mut code = Vec::new(alloc);
    code.push(Insn::Exit)?;
    Ok(Image::of(Version::V1, maps, code)?)
}

/// The work of two threads.
fn two<B: Naming + Send + Sync, R: Threads + Wait + Sync>(
    rt: &R,
    shards: &Shards<B>,
    first: CallTask<B>,
    second: CallTask<B>,
) -> Result<u64, JournalFull>
    requires first { IsPassReady B.count B.plan first.pass first.shard }
    requires second { IsPassReady B.count B.plan second.pass second.shard }
{
    let (one, other) = join(
        rt,
        move ||
            requires { IsPassReady B.count B.plan first.pass first.shard }
        { work(rt, shards, first) },
        move ||
            requires { IsPassReady B.count B.plan second.pass second.shard }
        { work(rt, shards, second) },
    );
    Ok(one?.wrapping_add(other?))
}

/// The work of four threads.
fn four<B: Naming + Send + Sync, R: Threads + Wait + Sync>(
    rt: &R,
    shards: &Shards<B>,
    first: CallTask<B>,
    second: CallTask<B>,
    third: CallTask<B>,
    fourth: CallTask<B>,
) -> Result<u64, JournalFull>
    requires first { IsPassReady B.count B.plan first.pass first.shard }
    requires second { IsPassReady B.count B.plan second.pass second.shard }
    requires third { IsPassReady B.count B.plan third.pass third.shard }
    requires fourth { IsPassReady B.count B.plan fourth.pass fourth.shard }
{
    let (one, other) = join(
        rt,
        move ||
            requires first { IsPassReady B.count B.plan first.pass first.shard }
            requires second { IsPassReady B.count B.plan second.pass second.shard }
        { two(rt, shards, first, second) },
        move ||
            requires third { IsPassReady B.count B.plan third.pass third.shard }
            requires fourth { IsPassReady B.count B.plan fourth.pass fourth.shard }
        { two(rt, shards, third, fourth) },
    );
    Ok(one?.wrapping_add(other?))
}

/// The shard of a thread: its own, or the first.
fn shard_of(number: u8, are_apart: bool) -> u32 {
    if are_apart { u32::from(number) } else { 0 }
}

/// The time of four threads' work, each on a shard of its own or all on one.
fn timed_four<B: Naming + Send + Sync, R: Clock + Threads + Wait + Sync>(
    rt: &R,
    alloc: Global,
    opened: Opened,
    are_apart: bool,
) -> Result<u128, Error>
    requires { IsNamed B.count B.table B.plan B.order opened }
{
    let (shards, mut dealer) = opened.share::<B>(alloc)?;
    let first = task_of(alloc, &shards, &mut dealer, 0, shard_of(0, are_apart))?;
    let second = task_of(alloc, &shards, &mut dealer, 1, shard_of(1, are_apart))?;
    let third = task_of(alloc, &shards, &mut dealer, 2, shard_of(2, are_apart))?;
    let fourth = task_of(alloc, &shards, &mut dealer, 3, shard_of(3, are_apart))?;
    let start = Instant::now(rt)?;
    let _sum = four(rt, &shards, first, second, third, fourth)?;
    Ok(start.elapsed(rt)?.as_nanos())
}

/// The time of one thread's work.
fn timed_one<B: Naming, R: Clock + Wait>(
    rt: &R,
    alloc: Global,
    opened: Opened,
) -> Result<u128, Error>
    requires { IsNamed B.count B.table B.plan B.order opened }
{
    let (shards, mut dealer) = opened.share::<B>(alloc)?;
    let task = task_of(alloc, &shards, &mut dealer, 0, 0)?;
    let start = Instant::now(rt)?;
    let _sum = work(rt, &shards, task)?;
    Ok(start.elapsed(rt)?.as_nanos())
}

/// The times of one turn: on a shard of a single caller, one thread's on shared shards, and four threads' on a shard each and on one.
#[derive(Clone, Copy)]
struct Times {
    core: u128,
    one: u128,
    apart: u128,
    together: u128,
}

impl Times {
    /// The lesser of each two.
    fn lesser(self, other: Times) -> Times {
        Times {
            core: self.core.min(other.core),
            one: self.one.min(other.one),
            apart: self.apart.min(other.apart),
            together: self.together.min(other.together),
        }
    }
}

/// One turn.
fn turn<R: Clock + Threads + Wait + Sync>(
    rt: &R,
    alloc: Global,
    image: &Image,
) -> Result<Times, Error> {
    let core = timed_core(rt, alloc)?;
    let one = timed_one::<Brand, R>(rt, alloc, Opened::open(alloc, image, OPTIONS)?)?;
    let apart = timed_four::<Brand, R>(rt, alloc, Opened::open(alloc, image, OPTIONS)?, true)?;
    let together = timed_four::<Brand, R>(rt, alloc, Opened::open(alloc, image, OPTIONS)?, false)?;
    Ok(Times {
        core,
        one,
        apart,
        together,
    })
}

/// Tenths of a nanosecond for each lookup of a thread.
fn tenths(nanoseconds: u128) -> u128 {
    nanoseconds / u128::from(LOOKUPS / 10)
}

/// Prints the least times of some turns.
pub(crate) fn measure_all<R: Clock + Print + Threads + Wait + Sync>(
    rt: &R,
    alloc: Global,
) -> Result<(), Error> {
    let image = image(alloc)?;
    let mut least = turn(rt, alloc, &image)?;
    'turns: for _ in 1..TIMES {
        least = least.lesser(turn(rt, alloc, &image)?);
    }
    println!(rt; "core {}", tenths(least.core))?;
    println!(rt; "one {}", tenths(least.one))?;
    println!(rt; "apart {}", tenths(least.apart))?;
    println!(rt; "together {}", tenths(least.together))?;
    Ok(())
}
