//! All workers.

ghost use Rattle.std.specs.Prelude.{◌≡◌, ◌<◌, ◌≤◌, ◌++◌, ◌∷◌, [], length, IfOk, IfSome, IsSome, vec_capacity};
ghost use Rattle.rx_queues.specs.declared.job.Job.TheVariants.{End};
ghost use Rattle.rx_queues.specs.Passes.{IsPutPassOf, TakeAtTheirPlaces, workers_of, record_count_of, jobs_put};
ghost use Rattle.actors.specs.Accounts.{lists_of};
ghost use Rattle.semantics.specs.Each.{Each};
ghost use Rattle.replay.specs.Crews.{IsReadyAt, IsLane, AreHandled, IsPart};
ghost use Rattle.actors.specs.Puts.{AreAllPut, ArePutWithEnd, put_at, frame_jobs};
ghost use Rattle.actors.specs.RunsInOrder.{IsRunAt, HasHandled};
ghost use Rattle.actors.specs.Shares.{frames_of, share};

use actors::dispatch::end_all;
use actors::worker::{Lane, WorkerEnded, start};
use actors::{Ran, Runner};
use rx_queues::{PutPass, Queues, TakePass};
use std::alloc::{AllocError, Global};
use std::sync::Wait;
use std::thread::{Scope, Threads};
use wire::Capture;

/// What a worker did, with its state.
#[derive(Drop)]
pub struct Handled<S> {
    pub runs: Vec<Ran>,
    pub state: S,
}

/// Starts each worker, on the first rights to take and with its state, and puts its side behind `lanes`, which are none and have room for
/// all. Where one can't be started, those that were are given back.
pub(crate) fn start_all<
    's,
    E,
    S: Drop + Send + 's,
    W: Runner<S> + Sync + 's,
    R: Threads + Wait + Sync,
>(
    scope: &Scope<'s, E>,
    rt: &'s R,
    alloc: Global,
    queues: &'s Queues,
    capture: &'s Capture,
    runner: &'s W,
    mut lanes: Vec<Lane<'s, S, W>>,
    mut takes: Vec<TakePass>,
    mut states: Vec<S>,
) -> Result<Vec<Lane<'s, S, W>>, Vec<Lane<'s, S, W>>>
    requires few { length states.items ≤ 8 }
    requires room { (lanes.items ≡ []) × (length states.items ≤ vec_capacity lanes) }
    requires takes { (length states.items ≤ length takes.items) × TakeAtTheirPlaces queues.now takes.items }
    requires jobs { (workers_of queues.now ≡ length states.items) × (record_count_of queues.now ≡ length capture.now.records.items) }
    requires states { Each (IsReadyAt (W.is_new runner.now) (W.is_idle runner.now)) 0 states.items }
    ensures count { IfOk result (λ lanes. length lanes.items ≡ length states.items) }
    ensures lanes { IfOk result (λ lanes. Each (IsLane queues.now capture.now runner.now) 0 lanes.items) }
{
    let count = states.len();
    'workers: for worker in 0..count {
        let take = takes.remove(0);
        let state = states.remove(0);
        match start(
            scope,
            rt,
            alloc,
            queues,
            capture,
            runner,
            worker as u8,
            take,
            state,
        ) {
            Some(lane) => lanes.push_reserved(lane),
            None => return Err(lanes),
        }
    }
    Ok(lanes)
}

/// Ends the workers that were started, and joins them.
pub(crate) fn abandon<S: Drop, W: Runner<S>, R: Threads + Wait>(
    rt: &R,
    queues: &Queues,
    put: &mut PutPass,
    lanes: Vec<Lane<S, W>>,
    workers: usize,
)
    requires workers { (workers_of queues.now ≡ workers) × (workers ≤ 8) }
    requires put { IsPutPassOf queues.now put.old }
    ensures put { IsPutPassOf queues.now put.new }
    ensures ended { ArePutWithEnd workers (jobs_put put.old) (jobs_put put.new) }
{
    end_all(rt, queues, put, workers);
    'lanes: for lane in lanes {
        lane.join(rt);
    }
}

/// What a worker that has ended did, compared with what was put into its queue. None where it was refused memory.
fn settled<S: Drop, W: Runner<S>, R: Threads + Wait>(
    rt: &R,
    queues: &Queues,
    capture: &Capture,
    runner: &W,
    put: &mut PutPass,
    lane: Lane<S, W>,
    worker: usize,
    workers: usize,
) -> Option<Handled<S>>
    requires lane { IsLane queues.now capture.now runner.now worker lane }
    requires put { IsPutPassOf queues.now put.old }
    requires jobs { put_at (jobs_put put.old) worker ≡
        frame_jobs (share (frames_of capture.now.records.items) workers worker (length capture.now.records.items)) ++ End ∷ [] }
    ensures put { IsPutPassOf queues.now put.new × (jobs_put put.new ≡ jobs_put put.old) }
    ensures handled { IfSome result (λ it. HasHandled (W.is_new runner.now worker) (IsRunAt (W.runs runner.now worker)
        capture.now.records.items)
        (share (frames_of capture.now.records.items) workers worker (length capture.now.records.items)) it.runs.items it.state) }
{
    let _ = capture;
    let _ = runner;
    let _ = workers;
    let _ = worker;
    let WorkerEnded {
        take,
        state,
        runs,
        is_refused,
    } = lane.join(rt);
    queues.settle(put, take);
    if is_refused {
        return None;
    }
    Some(Handled { runs, state })
}

/// One more, where all were.
fn added<T: Drop>(all: Option<Vec<T>>, one: Option<T>) -> Option<Vec<T>>
    ensures { IfSome result (λ now. IfSome all (λ before. IfSome one (λ it. now.items ≡ before.items ++ it ∷ [])) × IsSome all × IsSome
        one) }
{
    let mut all = all?;
    all.push(one?).ok()?;
    Some(all)
}

/// Joins all workers, and holds what each did against what was put for it. None where one was refused memory.
pub(crate) fn finish_all<S: Drop, W: Runner<S>, R: Threads + Wait>(
    rt: &R,
    alloc: Global,
    queues: &Queues,
    capture: &Capture,
    runner: &W,
    put: &mut PutPass,
    mut lanes: Vec<Lane<S, W>>,
) -> Option<Vec<Handled<S>>>
    requires lanes { Each (IsLane queues.now capture.now runner.now) 0 lanes.items }
    requires put { IsPutPassOf queues.now put.old }
    requires jobs { AreAllPut (frames_of capture.now.records.items) (length lanes.items) (length capture.now.records.items) (jobs_put
        put.old) }
    ensures put { IsPutPassOf queues.now put.new × (jobs_put put.new ≡ jobs_put put.old) }
    ensures count { IfSome result (λ all. length all.items ≡ length lanes.entry.items) }
    ensures handled { IfSome result (λ all. AreHandled (W.is_new runner.now) (W.runs runner.now) capture.now.records.items
        (length lanes.entry.items) all.items) }
{
    let count = lanes.len();
    let mut all = Some(Vec::new(alloc));
    'workers: for worker in 0..count {
        let lane = lanes.remove(0);
        let handled = settled(rt, queues, capture, runner, put, lane, worker, count);
        all = added(all, handled);
    }
    all
}

/// What each worker made and its state, apart.
pub(crate) fn parted<S: Drop>(
    alloc: Global,
    mut handled: Vec<Handled<S>>,
) -> Result<(Vec<Vec<Ran>>, Vec<S>), AllocError>
    ensures count { IfOk result (λ parts. (length parts.0.items ≡ length handled.items) × (length parts.1.items ≡ length handled.items)) }
    ensures parts { IfOk result (λ parts. Each (IsPart (lists_of parts.0.items) parts.1.items) 0 handled.items) }
{
    let count = handled.len();
    let mut runs = Vec::with_capacity(alloc, count)?;
    let mut states = Vec::with_capacity(alloc, count)?;
    'workers: for _worker in 0..count {
        let Handled { runs: list, state } = handled.remove(0);
        runs.push_reserved(list);
        states.push_reserved(state);
    }
    Ok((runs, states))
}
