//! What a job costs from one thread to another through a receive queue: nanoseconds a job.

ghost use Rattle.std.specs.Prelude.{◌≡◌, ◌/◌, ◌<◌, ◌≤◌};
ghost use Rattle.rx_queues.specs.Passes.{HasQueue, workers_of, record_count_of, IsPutPassOf, IsTakePassOf};

use anyhow::Error;
use rx_queues::{Caller, Job, PutPass, Queues, TakePass};
use std::alloc::Global;
use std::sync::Wait;
use std::thread::{self, Threads};
use std::time::{Clock, Instant};

/// How many jobs go through the queue.
const JOBS: u64 = 2_000_000;

/// The time of one job.
fn per_job(nanoseconds: u128) -> u128
    ensures { result ≡ nanoseconds / JOBS }
{
    nanoseconds / u128::from(JOBS)
}

/// Puts all jobs for worker 0, and the end.
fn put_all<R: Wait>(rt: &R, queues: &Queues, mut pass: PutPass)
    requires queue { (0 < workers_of queues.now) × (JOBS ≤ record_count_of queues.now) }
    requires pass { IsPutPassOf queues.now pass }
{
    let who = Caller::Worker { number: 0 };
    'puts: for number in 0..JOBS {
        queues.put_waiting(rt, who, Job::Frame(number as usize), &mut pass);
    }
    queues.put_waiting(rt, who, Job::End, &mut pass);
}

/// Takes jobs up to the end.
fn take_all<R: Wait>(rt: &R, queues: &Queues, mut pass: TakePass)
    requires { IsTakePassOf queues.now pass }
{
    'takes: for _ in rt.forever() {
        if queues.take_waiting(rt, &mut pass) == Job::End {
            return;
        }
    }
    unreachable!()
}

/// Sends all jobs from one thread to another.
fn pass_all<R: Threads + Wait + Sync>(rt: &R, queues: &Queues, put: PutPass, take: TakePass)
    requires queue { (0 < workers_of queues.now) × (JOBS ≤ record_count_of queues.now) }
    requires put { IsPutPassOf queues.now put }
    requires take { IsTakePassOf queues.now take }
{
    thread::join(
        rt,
        move ||
            requires queue { (0 < workers_of queues.now) × (JOBS ≤ record_count_of queues.now) }
            requires put { IsPutPassOf queues.now put }
        { put_all(rt, queues, put) },
        move ||
            requires { IsTakePassOf queues.now take }
        { take_all(rt, queues, take) },
    );
}

/// Prints the nanoseconds of one job.
pub(crate) fn measure_all<R: Clock + Print + Threads + Wait + Sync>(
    rt: &R,
    alloc: Global,
) -> Result<(), Error> {
    let Ok((queues, put, mut takes)) = Queues::open(alloc, 1, JOBS as usize, 0) else {
        return Ok(());
    };
    if takes.is_empty() {
        return Ok(());
    }
    let take = takes.remove(0);
    let start = Instant::now(rt)?;
    pass_all(rt, &queues, put, take);
    let time = start.elapsed(rt)?.as_nanos();
    println!(rt; "{}", per_job(time))?;
    Ok(())
}
