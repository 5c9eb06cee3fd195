//! The queue of a worker.

ghost use Rattle.std.specs.Prelude.{◌≡◌, ◌≤◌, IfOk};
ghost use Rattle.rx_queues.specs.Passes.{workers_of, record_count_of, IsPutPassOf, IsTakePassOf};

use crate::asserting::same;
use rx_queues::{Caller, Job, OpenFault, PutPass, Queues, TakePass};
use std::alloc::Global;
use std::sync::Wait;

const WORKER: Caller = Caller::Worker { number: 0 };

/// The queues of one worker for 100 frames, and the rights to put and to take from the worker's.
fn opened(alloc: Global) -> Result<(Queues, PutPass, TakePass), OpenFault>
    ensures jobs { IfOk result (λ opened. (workers_of opened.0 ≡ 1) × (record_count_of opened.0 ≡ 100)) }
    ensures put { IfOk result (λ opened. IsPutPassOf opened.0 opened.1) }
    ensures take { IfOk result (λ opened. IsTakePassOf opened.0 opened.2) }
{
    let (queues, put, mut takes) = Queues::open(alloc, 1, 100, 100)?;
    let take = takes.remove(0);
    Ok((queues, put, take))
}

/// Puts the frames of these numbers, up to the first that comes back. Says how many were put.
fn put_frames<R: Wait>(rt: &R, queues: &Queues, pass: &mut PutPass, count: usize) -> usize
    requires queue { workers_of queues.now ≡ 1 }
    requires count { count ≤ record_count_of queues.now }
    requires pass { IsPutPassOf queues.now pass.old }
    ensures { IsPutPassOf queues.now pass.new }
{
    'puts: for number in 0..count {
        if queues.put(rt, WORKER, Job::Frame(number), pass).is_err() {
            return number;
        }
    }
    count
}

/// Takes jobs up to the first that is not the frame of the next number. Says how many were taken before.
fn take_frames<R: Wait>(
    rt: &R,
    queues: &Queues,
    pass: &mut TakePass,
    first: usize,
    count: usize,
) -> usize
    requires { IsTakePassOf queues.now pass.old }
    ensures { IsTakePassOf queues.now pass.new }
{
    'takes: for number in 0..count {
        let next = Job::Frame(first.wrapping_add(number));
        if queues.take(rt, pass) != Some(next) {
            return number;
        }
    }
    count
}

#[test]
fn a_queue_has_room_for_64_jobs(rt: HostRuntime) {
    let (queues, mut put, mut take) = opened(rt.alloc()).expect(&rt, "queues");
    let count = put_frames(&rt, &queues, &mut put, 100);
    same(&rt, "jobs that were put", &count, &64);
    let count = take_frames(&rt, &queues, &mut take, 0, 1);
    same(&rt, "the first one", &count, &1);
    let answer = queues.put(&rt, WORKER, Job::Frame(64), &mut put);
    same(&rt, "in the place that is free", &answer, &Ok(()));
    let count = take_frames(&rt, &queues, &mut take, 1, 100);
    same(&rt, "the others, in order", &count, &64);
}
