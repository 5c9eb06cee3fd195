//! What the dispatcher hands to whom: each record to the worker of its flow, and between the records commands to the controller and
//! notes to the reclaimer.

ghost use Rattle.std.specs.Prelude.{◌≡◌, ◌<◌, ◌≤◌, ◌+◌, ◌∷◌, [], length, ◌%◌, ◌==◌, slice_index, if◌then◌else◌};
ghost use Rattle.rx_queues.specs.Passes.{IsPutPassOf, HasQueue, queue_of, with_job_at, workers_of, record_count_of, command_count_of, jobs_put};
ghost use Rattle.actors.specs.Shares.{frames_of, frame_at, is_short, worker_of_frame};
ghost use Rattle.actors.specs.Actors.{AreDispatched, ArePutAt, AreHandedOver, AreDue, AreBothEnded};
ghost use Rattle.actors.specs.Puts.{ArePutWithEnd, with_record};
ghost use Rattle.rx_queues.specs.declared.job.Job.TheVariants.{Note};

use rx_queues::{Caller, Job, PutPass, Queues, spread};
use std::sync::Wait;
use wire::{Capture, MIN_FRAME, Sent, flow_of};

/// After how many records of the capture the reclaimer makes a round: behind the 64th, the 128th and so on.
pub const ROUND_EVERY: usize = 64;

/// The worker that handles a frame: the one of its flow, and worker 0 where it has none. A single worker handles all, so no flow is looked
/// for then.
#[tactic(auto, using(crate::proofs::shared::PutLemmas::worker_below))]
pub fn worker_of(frame: &[u8], workers: usize) -> usize
    requires { 0 < workers }
    ensures worker { result ≡ worker_of_frame frame.now workers }
    ensures below { result < workers }
{
    if workers == 1 {
        return 0;
    }
    match flow_of(frame) {
        Some(key) => spread(Some(&key), workers),
        None => spread(None, workers),
    }
}

/// Whether a record is too short to be run.
pub fn is_short(sent: &Sent) -> bool
    ensures { result ≡ is_short sent.now.bytes.items }
{
    sent.bytes.len() < MIN_FRAME
}

/// Hands one record to its worker, if it is long enough. Waits while the worker's queue is full.
fn hand<R: Wait>(
    rt: &R,
    queues: &Queues,
    put: &mut PutPass,
    capture: &Capture,
    workers: usize,
    number: usize,
)
    requires number { number < length capture.now.records.items }
    requires fits { number < record_count_of queues.now }
    requires workers { (workers_of queues.now ≡ workers) × (0 < workers) × (workers ≤ 8) }
    requires pass { IsPutPassOf queues.now put.old }
    ensures pass { IsPutPassOf queues.now put.new }
    ensures put { jobs_put put.new ≡ with_record (frame_at (frames_of capture.now.records.items) number) workers number (jobs_put put.old) }
{
    let sent = &capture.records[number];
    if !is_short(sent) {
        let worker = worker_of(&sent.bytes, workers);
        queues.put_waiting(
            rt,
            Caller::Worker {
                number: worker as u8,
            },
            Job::Frame(number),
            put,
        );
    }
}

/// Up to which command those from `next` on are due, once `number` records were dispatched.
pub fn due(starts: &[u32], next: usize, number: usize) -> usize
    requires { next ≤ length starts.now }
    ensures { AreDue starts.now next number result }
{
    'commands: for place in next..starts.len() {
        if starts[place] as usize > number {
            return place;
        }
    }
    starts.len()
}

/// Hands the commands from `next` on to the controller, up to `end`.
fn hand_commands<R: Wait>(rt: &R, queues: &Queues, put: &mut PutPass, next: usize, end: usize)
    requires up { next ≤ end }
    requires fit { end ≤ command_count_of queues.now }
    requires pass { IsPutPassOf queues.now put.old }
    ensures pass { IsPutPassOf queues.now put.new }
    ensures put { AreHandedOver (workers_of queues.now) next end (jobs_put put.old) (jobs_put put.new) }
{
    'commands: for number in next..end {
        queues.put_waiting(rt, Caller::Controller, Job::Command(number), put);
    }
}

/// Asks the reclaimer for a round. Waits while its queue is full.
fn ask_round<R: Wait>(rt: &R, queues: &Queues, put: &mut PutPass)
    requires pass { IsPutPassOf queues.now put.old }
    ensures pass { IsPutPassOf queues.now put.new }
    ensures put { ArePutAt (workers_of queues.now + 1) (Note ∷ []) (jobs_put put.old) (jobs_put put.new) }
{
    queues.put_waiting(rt, Caller::Reclaimer, Job::Note, put);
}

/// Asks the reclaimer for a round where one is due, by the number of records that were dispatched.
fn ask_due_round<R: Wait>(rt: &R, queues: &Queues, put: &mut PutPass, number: usize)
    requires pass { IsPutPassOf queues.now put.old }
    ensures pass { IsPutPassOf queues.now put.new }
    ensures put { ArePutAt (workers_of queues.now + 1) (if number % 64 == 0 then Note ∷ [] else []) (jobs_put put.old) (jobs_put put.new) }
{
    if number % ROUND_EVERY == 0 {
        ask_round(rt, queues, put);
    }
}

/// What is dispatched, in which order: the records of a capture, each to the worker of its flow, and the commands from `first` on, each
/// to the controller once as many records as `starts` says were dispatched. What is handed over comes through three methods. Each takes
/// and leaves what was dispatched so far (`AreDispatched`), in which no command is early and none is late.
#[derive(Drop)]
pub struct Dispatch<'a> {
    pub queues: &'a Queues,
    pub capture: &'a Capture,
    pub starts: &'a [u32],
    pub first: usize,
    pub workers: usize,
    pub ghost few: { (workers_of queues.now ≡ workers) × (0 < workers) × (workers ≤ 8) },
    pub ghost for_all: { (record_count_of queues.now ≡ length capture.now.records.items) × (command_count_of queues.now ≡ length starts.now) },
}

impl<'a> Dispatch<'a> {
    /// Hands over the commands from `next` on that are due once `number` records were dispatched, and returns which one is next.
    fn hand_due<R: Wait>(&self, rt: &R, put: &mut PutPass, next: usize, number: usize) -> usize
        requires next { next ≤ length self.now.starts.now }
        requires pass { IsPutPassOf self.now.queues.now put.old }
        requires dispatched { AreDispatched (frames_of self.now.capture.now.records.items) self.now.starts.now self.now.workers number
            self.now.first next (jobs_put put.old) }
        ensures pass { IsPutPassOf self.now.queues.now put.new }
        ensures due { AreDue self.now.starts.now next number result }
        ensures dispatched { AreDispatched (frames_of self.now.capture.now.records.items) self.now.starts.now self.now.workers number
            self.now.first result (jobs_put put.new) }
    {
        let end = due(self.starts, next, number);
        hand_commands(rt, self.queues, put, next, end);
        end
    }

    /// Hands over the record of this number, where no command is due before it, and a note to the reclaimer after every 64 records.
    fn hand_record<R: Wait>(&self, rt: &R, put: &mut PutPass, next: usize, number: usize)
        requires number { number < length self.now.capture.now.records.items }
        requires none_due { next < length self.now.starts.now → number < slice_index self.now.starts.now next }
        requires pass { IsPutPassOf self.now.queues.now put.old }
        requires dispatched { AreDispatched (frames_of self.now.capture.now.records.items) self.now.starts.now self.now.workers number
            self.now.first next (jobs_put put.old) }
        ensures pass { IsPutPassOf self.now.queues.now put.new }
        ensures dispatched { AreDispatched (frames_of self.now.capture.now.records.items) self.now.starts.now self.now.workers (number + 1)
            self.now.first next (jobs_put put.new) }
    {
        let _ = next;
        hand(rt, self.queues, put, self.capture, self.workers, number);
        ask_due_round(rt, self.queues, put, number + 1);
    }

    /// Hands over the commands from `next` on once all records were dispatched.
    fn hand_left<R: Wait>(&self, rt: &R, put: &mut PutPass, next: usize)
        requires next { next ≤ length self.now.starts.now }
        requires pass { IsPutPassOf self.now.queues.now put.old }
        requires dispatched { AreDispatched (frames_of self.now.capture.now.records.items) self.now.starts.now self.now.workers
            (length self.now.capture.now.records.items) self.now.first next (jobs_put put.old) }
        ensures pass { IsPutPassOf self.now.queues.now put.new }
        ensures dispatched { AreDispatched (frames_of self.now.capture.now.records.items) self.now.starts.now self.now.workers
            (length self.now.capture.now.records.items) self.now.first (length self.now.starts.now) (jobs_put put.new) }
    {
        hand_commands(rt, self.queues, put, next, self.starts.len());
    }

    /// Hands everything over, in this order.
    pub fn hand_all<R: Wait>(&self, rt: &R, put: &mut PutPass)
        requires first { self.now.first ≤ length self.now.starts.now }
        requires pass { IsPutPassOf self.now.queues.now put.old }
        requires nothing { AreDispatched (frames_of self.now.capture.now.records.items) self.now.starts.now self.now.workers 0
            self.now.first self.now.first (jobs_put put.old) }
        ensures pass { IsPutPassOf self.now.queues.now put.new }
        ensures put { AreDispatched (frames_of self.now.capture.now.records.items) self.now.starts.now self.now.workers
            (length self.now.capture.now.records.items) self.now.first (length self.now.starts.now) (jobs_put put.new) }
    {
        let mut next = self.first;
        'records: for number in 0..self.capture.records.len() {
            next = self.hand_due(rt, put, next, number);
            self.hand_record(rt, put, next, number);
        }
        self.hand_left(rt, put, next);
    }
}

/// Hands each worker the end.
pub fn end_all<R: Wait>(rt: &R, queues: &Queues, put: &mut PutPass, workers: usize)
    requires workers { (workers_of queues.now ≡ workers) × (workers ≤ 8) }
    requires pass { IsPutPassOf queues.now put.old }
    ensures pass { IsPutPassOf queues.now put.new }
    ensures put { ArePutWithEnd workers (jobs_put put.old) (jobs_put put.new) }
{
    'workers: for worker in 0..workers {
        queues.put_waiting(
            rt,
            Caller::Worker {
                number: worker as u8,
            },
            Job::End,
            put,
        );
    }
}

/// Hands the controller and the reclaimer the end.
pub fn end_both<R: Wait>(rt: &R, queues: &Queues, put: &mut PutPass)
    requires pass { IsPutPassOf queues.now put.old }
    ensures pass { IsPutPassOf queues.now put.new }
    ensures put { AreBothEnded (workers_of queues.now) (jobs_put put.old) (jobs_put put.new) }
{
    queues.put_waiting(rt, Caller::Controller, Job::End, put);
    queues.put_waiting(rt, Caller::Reclaimer, Job::End, put);
}
