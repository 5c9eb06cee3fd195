//! What a worker does: its runs over the shards that all workers share, and the thread on which it makes them.

ghost use Rattle.std.specs.Prelude.{◌≡◌, ◌<◌, ◌≤◌, ◌∷◌, ◌++◌, [], length, true, Some, IsTrue, IfOk, IfSome, MatchOption};
ghost use Rattle.machine.specs.Running.{program_of};
ghost use Rattle.rx_queues.specs.declared.job.Job.TheVariants.{Frame as Record, End};
ghost use Rattle.rx_queues.specs.Passes.{IsTakePassOf, place_taken_from, jobs_taken, workers_of, record_count_of};
ghost use Rattle.actors.specs.Actors.{HasEndLast};
ghost use Rattle.actors.specs.RunsInOrder.{IsRunAt, IsOneMore, HasDoneItsJobs};
ghost use Rattle.actors.specs.RunsOverShards.{IsIdle, IsSentOf, IsTold, IsRunOf, steps_in, time_of};

use crate::runner::{FrameFate, Ran, RunEnd, Runner};
use machine::{Exit, Moment};
use runs::run_frame;
use rx_queues::{Job, Queues, TakePass};
use semantics::Verdict;
use shard_port::Gate;
use shards::{Naming, Pass, Shards};
use std::alloc::{AllocError, Global};
use std::sync::Wait;
use std::thread::{Promise, PromisedHandle, Scope, Threads};
use verifier::Verified;
use wire::{Capture, Frame, Sent};

/// What a worker keeps from run to run.
#[derive(Drop)]
pub struct Working<B: Naming> {
    pub pass: Pass<B>,
    /// How many replies its runs have had.
    pub replies: u64,
    /// The buffer of its runs, one after the other.
    pub frame: Frame,
}

/// Runs an accepted program over shared shards of its maps, by the workers' passes; each reply goes through a gate.
#[derive(Drop)]
pub struct ShardRunner<'a, B: Naming, R: Wait, G: Gate> {
    pub rt: &'a R,
    pub gate: &'a G,
    pub verified: &'a Verified,
    pub shards: &'a Shards<B>,
    pub ghost maps: { shards.now.maps ≡ verified.now.maps },
    pub ghost few: { shards.now.options.workers ≤ 8 },
}

/// A record's time, and the worker's number.
pub fn moment_of(sent: &Sent, worker: u8) -> Moment
    ensures time { result.now_ns ≡ time_of sent.now }
    ensures worker { result.worker ≡ worker }
{
    let micros = u64::from(sent.seconds) * 1_000_000 + u64::from(sent.micros);
    Moment {
        now_ns: micros * 1000,
        worker,
    }
}

/// The frame as it is sent.
fn sent_of(alloc: Global, captured: &Sent, frame: &Frame) -> Result<Sent, AllocError>
    ensures { IfOk result (IsSentOf captured.now frame.now.bytes) }
{
    let bytes = Vec::from_slice(alloc, frame.bytes())?;
    Ok(Sent {
        seconds: captured.seconds,
        micros: captured.micros,
        bytes,
    })
}

/// How the run of a record ended, by its exit: what becomes of the frame by the verdict, and after how many steps.
pub fn end_of(
    alloc: Global,
    captured: &Sent,
    exit: Exit,
    frame: &Frame,
) -> Result<RunEnd, AllocError>
    ensures told { IfOk result (IsTold captured.now exit.verdict frame.now) }
    ensures counted { IfOk result (λ end. steps_in end ≡ Some exit.steps) }
{
    let fate = match exit.verdict {
        Verdict::Aborted => FrameFate::Aborted,
        Verdict::Drop => FrameFate::Dropped,
        Verdict::Pass => FrameFate::Passed,
        Verdict::Tx => FrameFate::Sent {
            sent: sent_of(alloc, captured, frame)?,
        },
    };
    Ok(RunEnd::Exited {
        steps: exit.steps,
        frame: fate,
    })
}

impl<'a, B: Naming, R: Wait, G: Gate> Runner<Working<B>> for ShardRunner<'a, B, R, G> {
    ghost use Rattle.machine.specs.Running.{program_of};
    ghost use Rattle.actors.specs.RunsOverShards.{IsNewPass, IsIdle, IsRunOf};

    ghost is_new = { λ runner worker working. IsNewPass worker working.pass };

    ghost is_idle = { λ runner worker working. IsIdle B.count worker runner.shards.now.options working.pass };

    ghost runs = { λ runner worker sent before end after. IsRunOf B.count B.plan
        (program_of runner.verified.now runner.shards.now.options.shards) worker sent before.pass end after.pass };

    fn run(
        &self,
        alloc: Global,
        worker: u8,
        sent: &Sent,
        state: &mut Working<B>,
    ) -> Option<RunEnd> {
        if state.frame.refill(&sent.bytes).is_err() {
            return None;
        }
        let moment = moment_of(sent, worker);
        match run_frame(
            self.rt,
            self.verified,
            &mut state.frame,
            &moment,
            self.shards,
            &mut state.pass,
            self.gate,
            &mut state.replies,
        ) {
            Ok(exit) => end_of(alloc, sent, exit, &state.frame).ok(),
            Err(_) => Some(RunEnd::Stopped),
        }
    }
}

/// What a worker hands back: its right to take, its state, the runs that it made in order, and whether it was refused memory. Then it took
/// the jobs that came after without running them.
#[derive(Drop)]
pub struct WorkerEnded<S> {
    pub take: TakePass,
    pub state: S,
    pub runs: Vec<Ran>,
    pub is_refused: bool,
}

/// Runs a record, and notes what became of it. False where memory was refused.
fn ran<S: Drop, W: Runner<S>>(
    alloc: Global,
    capture: &Capture,
    runner: &W,
    worker: u8,
    number: usize,
    state: &mut S,
    runs: &mut Vec<Ran>,
) -> bool
    requires number { number < length capture.now.records.items }
    requires state { W.is_idle runner.now worker state.old }
    ensures state { W.is_idle runner.now worker state.new }
    ensures ran { IsTrue result → IsOneMore (IsRunAt (W.runs runner.now worker) capture.now.records.items) number state.old runs.old.items
        state.new runs.new.items }
{
    if runs.reserve(1).is_err() {
        return false;
    }
    let sent = &capture.records[number];
    match runner.run(alloc, worker, sent, state) {
        Some(end) => {
            runs.push_reserved(Ran { number, end });
            true
        }
        None => false,
    }
}

/// The number of the next record; none at the end. Waits while the queue is empty.
fn next_record<R: Wait>(rt: &R, queues: &Queues, take: &mut TakePass) -> Option<usize>
    requires take { IsTakePassOf queues.now take.old }
    requires of_worker { place_taken_from take.old < workers_of queues.now }
    ensures take { IsTakePassOf queues.now take.new × (place_taken_from take.new ≡ place_taken_from take.old) }
    ensures taken { MatchOption result (jobs_taken take.new ≡ jobs_taken take.old ++ End ∷ [])
        (λ number. (number < record_count_of queues.now) × (jobs_taken take.new ≡ jobs_taken take.old ++ Record number ∷ [])) }
{
    match queues.take_waiting(rt, take) {
        Job::Frame(number) => Some(number),
        Job::End => None,
        Job::Command(_) => unreachable!(),
        Job::Note => unreachable!(),
    }
}

/// Runs the jobs of a worker to the end. Where it is refused memory, it takes the later jobs without running them.
#[tactic(auto, using(crate::proofs::shared::RunLemmas::none_run, crate::proofs::shared::RunLemmas::one_run, crate::proofs::shared::RunLemmas::all_run))]
fn work<S: Drop, W: Runner<S>, R: Wait>(
    rt: &R,
    alloc: Global,
    queues: &Queues,
    capture: &Capture,
    runner: &W,
    worker: u8,
    mut take: TakePass,
    mut state: S,
) -> WorkerEnded<S>
    requires take { IsTakePassOf queues.now take × (place_taken_from take ≡ worker) × (jobs_taken take ≡ []) }
    requires jobs { (worker < workers_of queues.now) × (record_count_of queues.now ≡ length capture.now.records.items) }
    requires state { W.is_new runner.now worker state × W.is_idle runner.now worker state }
    ensures take { IsTakePassOf queues.now result.take × (place_taken_from result.take ≡ worker) }
    ensures ended { HasEndLast (jobs_taken result.take) }
    ensures worked { HasDoneItsJobs (W.is_new runner.now worker) (W.runs runner.now worker) capture.now.records.items result }
{
    let mut runs = Vec::new(alloc);
    let mut is_refused = false;
    'jobs: for _ in rt.forever() {
        match next_record(rt, queues, &mut take) {
            Some(number) => {
                if !is_refused {
                    is_refused = !ran(
                        alloc, capture, runner, worker, number, &mut state, &mut runs,
                    );
                }
            }
            None => break,
        }
    }
    WorkerEnded {
        take,
        state,
        runs,
        is_refused,
    }
}

/// What a worker's thread is to do.
#[derive(Drop)]
pub struct Task<'a, W> {
    pub queues: &'a Queues,
    pub capture: &'a Capture,
    pub runner: &'a W,
    pub worker: u8,
}

impl<'a, S, W: Runner<S>> Promise<WorkerEnded<S>> for Task<'a, W> {
    ghost use Rattle.std.specs.Prelude.{◌≡◌};
    ghost use Rattle.rx_queues.specs.Passes.{IsTakePassOf, place_taken_from, jobs_taken};
    ghost use Rattle.actors.specs.RunsInOrder.{HasDoneItsJobs};

    ghost kept_by = { λ task ended. IsTakePassOf task.queues.now ended.take × (place_taken_from ended.take ≡ task.worker)
        × HasDoneItsJobs (W.is_new task.runner.now task.worker) (W.runs task.runner.now task.worker) task.capture.now.records.items ended };
}

/// The dispatcher's side of a worker that was started.
#[derive(Drop)]
pub struct Lane<'a, S: Drop + 'a, W: Runner<S> + 'a> {
    pub queues: &'a Queues,
    pub capture: &'a Capture,
    pub runner: &'a W,
    pub worker: u8,
    thread: PromisedHandle<WorkerEnded<S>, Task<'a, W>>,
    ghost queues_are: { thread.promise.queues.now ≡ queues.now },
    ghost capture_is: { thread.promise.capture.now ≡ capture.now },
    ghost runner_is: { thread.promise.runner.now ≡ runner.now },
    ghost worker_is: { thread.promise.worker ≡ worker },
}

/// Starts a worker. None where no thread can be made.
pub fn start<'s, E, S: Drop + Send + 's, W: Runner<S> + Sync + 's, R: Wait + Sync>(
    scope: &Scope<'s, E>,
    rt: &'s R,
    alloc: Global,
    queues: &'s Queues,
    capture: &'s Capture,
    runner: &'s W,
    worker: u8,
    take: TakePass,
    state: S,
) -> Option<Lane<'s, S, W>>
    requires take { IsTakePassOf queues.now take × (place_taken_from take ≡ worker) × (jobs_taken take ≡ []) }
    requires jobs { (worker < workers_of queues.now) × (record_count_of queues.now ≡ length capture.now.records.items) }
    requires state { W.is_new runner.now worker state × W.is_idle runner.now worker state }
    ensures { IfSome result (λ lane. (lane.queues.now ≡ queues.now) × (lane.capture.now ≡ capture.now) × (lane.runner.now ≡ runner.now) ×
        (lane.worker ≡ worker)) }
{
    let thread = scope
        .spawn_with(
            Task {
                queues,
                capture,
                runner,
                worker,
            },
            move || -> WorkerEnded<S>
                requires take { IsTakePassOf queues.now take × (place_taken_from take ≡ worker) × (jobs_taken take ≡ []) }
                requires jobs { (worker < workers_of queues.now) × (record_count_of queues.now ≡ length capture.now.records.items) }
                requires state { W.is_new runner.now worker state × W.is_idle runner.now worker state }
                ensures take { IsTakePassOf queues.entry.now result.take × (place_taken_from result.take ≡ worker) }
                ensures worked { HasDoneItsJobs (W.is_new runner.entry.now worker) (W.runs runner.entry.now worker)
                    capture.entry.now.records.items result }
            { work(rt, alloc, queues, capture, runner, worker, take, state) },
        )
        .ok()?;
    Some(Lane {
        queues,
        capture,
        runner,
        worker,
        thread,
    })
}

impl<'a, S: Drop, W: Runner<S>> Lane<'a, S, W> {
    /// Waits for the worker's end.
    pub fn join<R: Threads + Wait>(self, rt: &R) -> WorkerEnded<S>
        ensures take { IsTakePassOf self.entry.queues.now result.take × (place_taken_from result.take ≡ self.entry.worker) }
        ensures worked { HasDoneItsJobs (W.is_new self.entry.runner.now self.entry.worker) (W.runs self.entry.runner.now self.entry.worker)
            self.entry.capture.now.records.items result }
    {
        let Lane { thread, .. } = self;
        thread.join(rt)
    }
}
