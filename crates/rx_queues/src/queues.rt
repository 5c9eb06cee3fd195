//! The queues: the worker of a flow, and what is done with them. A thread that waits for a queue asks again for a moment, and then sleeps.

ghost use Rattle.std.specs.Prelude.{◌≡◌, ◌<◌, ◌≤◌, ◌+◌, ◌∷◌, ◌++◌, ◌↔◌, [], ℕ, length, map, replicate};
ghost use Rattle.std.specs.Prelude.{IfOk, IfErr, IfSome, OnErr, IsErrOf, OnOk, true};
ghost use Rattle.std.specs.Prelude.{MatchOption, option_map, slice_index_or};
ghost use Rattle.crossbeam_queue.specs.Passes.{view, IsPassOf, IsSamePass, ruled_capacity};
ghost use Rattle.rx_queues.specs.Fifo.{Fits, IsTakenInOrder, known, no_purpose, putter, taker};
ghost use Rattle.rx_queues.specs.Passes.{queue_of, HasQueue, workers_of, record_count_of, command_count_of, FitsAt, jobs_put, jobs_taken};
ghost use Rattle.rx_queues.specs.Passes.{jobs_put_for, with_job_at, IsPutPassOf};
ghost use Rattle.rx_queues.specs.Passes.{IsTakePassOf, place_taken_from, AreTakePasses, IsPutPassFor, IsTakePassFor, WasFull};
ghost use Rattle.rx_queues.specs.Spread.{worker_of_flow};
ghost use Rattle.map_rules.specs.declared.open_fault.OpenFault.TheVariants.{BadOptions};

use crate::job::Job;
use crate::passes::{PutPass, Queues, TakePass};
use crate::rule::{Opens, Purpose, Purposed, PutsJob, Queue, QueuePass, Roles, TakesJob};
use map_rules::OpenFault;
use semantics::{Caller, MOST_WORKERS};
use std::alloc::{AllocError, Global};
use std::marker::Brand;
use std::sync::Wait;
use std::sync::atomic::{AtomicUsize, Ordering};
use std::thread::Parker;
use std::time::Duration;
use std::{hint, thread};
use wire::{FlowKey, fnv1a64};

/// How many jobs a queue holds at most.
const CAPACITY: usize = 64;

/// How often a thread that waits asks again, with longer pauses from question to question. A job mostly goes in or out in this time where the
/// other side is at work. Each question reads words that the other side writes, so there are few of them.
const QUESTIONS: u32 = 6;

/// How often a worker then yields the processor before it sleeps: the dispatcher may be waking up.
const WORKERS_YIELDS: u32 = 100;

/// How often the controller and the reclaimer do, which have little to do.
const OTHERS_YIELDS: u32 = 4;

/// The longest sleep of a thread that takes jobs. The system adds what its timers are late, mostly 50 µs.
const LONGEST_NAP_MICROS: u64 = 64;

/// The longest sleep of the dispatcher, if nobody rings.
const LONGEST_SLEEP_MICROS: u64 = 1000;

/// After how many jobs a thread that takes them looks whether the dispatcher waits for room.
const RING_EVERY: u8 = 16;

/// No queue.
const NOWHERE: usize = usize::MAX;

/// The worker that handles the frames of a flow: the 64-bit FNV-1a hash of its key, modulo the number of workers. Frames
/// without a flow go to worker 0. So one flow's frames go through one queue, and are handled in the order of the capture.
pub fn spread(key: Option<&FlowKey>, workers: usize) -> usize
    requires { 0 < workers }
    ensures { result ≡ worker_of_flow (option_map (λ flow. flow.now) key.entry) workers }
{
    match key {
        Some(key) => (fnv1a64(&key.bytes()) % workers as u64) as usize,
        None => 0,
    }
}

impl Queues {
    /// Opens a queue of 64 jobs for each of 1 to 8 workers, for the controller and for the reclaimer, with the right to put into all
    /// and the rights to take, in this order. A worker's is for the frames of N records, the controller's for N commands and the
    /// reclaimer's for notes; each is for the end. Takes all memory that they will ever need. Refused with 51 where the number of
    /// workers is another, with 52 without memory; then nothing is left.
    pub fn open(
        alloc: Global,
        workers: usize,
        records: usize,
        commands: usize,
    ) -> Result<(Queues, PutPass, Vec<TakePass>), OpenFault>
        ensures workers { IfOk result (λ opened. workers_of opened.0 ≡ workers) }
        ensures jobs { IfOk result (λ opened. (record_count_of opened.0 ≡ records) × (command_count_of opened.0 ≡ commands)) }
        ensures put { IfOk result (λ opened. IsPutPassOf opened.0 opened.1 × (jobs_put opened.1 ≡ replicate (workers + 2) [])) }
        ensures take { IfOk result (λ opened. AreTakePasses opened.0 opened.2.items) }
        ensures bad_options { IsErrOf result BadOptions ↔ ¬ ((1 ≤ workers) × (workers ≤ 8)) }
    {
        if workers < 1 || workers > MOST_WORKERS as usize {
            return Err(OpenFault::BadOptions);
        }
        let mut queues = Vec::new(alloc);
        let mut puts = Vec::new(alloc);
        let mut takes = Vec::new(alloc);
        'queues: for queue in 0..workers + 2 {
            let purpose = Purpose {
                place: queue,
                workers,
                records,
                commands,
            };
            let (line, put, take) = opened(alloc, purpose)?;
            queues.push(line)?;
            puts.push(put)?;
            takes.push(TakePass {
                queue,
                pass: take,
                questions: 0,
            })?;
        }
        let bell = Bell::new();
        Ok((
            Queues {
                queues,
                workers,
                records,
                commands,
                bell,
            },
            PutPass { passes: puts },
            takes,
        ))
    }

    // The place of the caller's queue.
    fn place(&self, who: Caller) -> usize
        requires { HasQueue (workers_of self.now) who }
        ensures place { result ≡ queue_of (workers_of self.now) who }
        ensures within { result < length self.now.queues.items }
    {
        match who {
            Caller::Worker { number } => number as usize,
            Caller::Controller => self.workers,
            Caller::Reclaimer => self.workers + 1,
        }
    }

    /// Puts a job that fits into the caller's queue. The job comes back only where the queue held 64 at one moment of the call (tested; clause `full`
    /// says only that 64 jobs beyond some that were taken had been put); then nothing was put. Takes no memory, and waits for no job to be taken.
    pub fn put<R: Wait>(&self, rt: &R, who: Caller, job: Job, pass: &mut PutPass) -> Result<(), Job>
        requires queue { HasQueue (workers_of self.now) who }
        requires fits { FitsAt self.now (queue_of (workers_of self.now) who) job }
        requires pass { IsPutPassOf self.now pass.old }
        ensures pass { IsPutPassOf self.now pass.new }
        ensures put { OnOk result (jobs_put pass.new ≡ with_job_at (queue_of (workers_of self.now) who) job (jobs_put pass.old)) }
        ensures back { IfErr result (λ back. (back ≡ job) × (jobs_put pass.new ≡ jobs_put pass.old)) }
        ensures full { OnErr result (WasFull (jobs_put_for self.now who pass.old)) }
    {
        let place = self.place(who);
        let queue = &self.queues[place];
        let mine = &mut pass.passes[place];
        push(rt, queue, mine, job)
    }

    /// Takes the oldest job from the pass's queue, which is one that fits it. None only where the queue was empty at one moment of the call
    /// (tested; no clause says so). Takes no memory, and waits for no job to be put.
    pub fn take<R: Wait>(&self, rt: &R, pass: &mut TakePass) -> Option<Job>
        requires { IsTakePassOf self.now pass.old }
        ensures pass { IsTakePassOf self.now pass.new × (place_taken_from pass.new ≡ place_taken_from pass.old) }
        ensures taken { MatchOption result (jobs_taken pass.new ≡ jobs_taken pass.old)
            (λ job. jobs_taken pass.new ≡ jobs_taken pass.old ++ job ∷ []) }
        ensures fits { IfSome result (FitsAt self.now (place_taken_from pass.old)) }
    {
        pass.questions = pass.questions.wrapping_add(1);
        self.bell.ring(pass.queue, pass.questions);
        let queue = &self.queues[pass.queue];
        pop(rt, queue, &mut pass.pass)
    }
}

impl Queues {
    /// Puts a job that fits into the caller's queue, and waits while it is full: asking again for a moment, then asleep. Takes no memory. It may
    /// not return: where nobody takes from the queue, it stays full.
    pub fn put_waiting<R: Wait>(&self, rt: &R, who: Caller, job: Job, pass: &mut PutPass)
        requires queue { HasQueue (workers_of self.now) who }
        requires fits { FitsAt self.now (queue_of (workers_of self.now) who) job }
        requires pass { IsPutPassOf self.now pass.old }
        ensures pass { IsPutPassOf self.now pass.new }
        ensures put { jobs_put pass.new ≡ with_job_at (queue_of (workers_of self.now) who) job (jobs_put pass.old) }
    {
        let place = self.place(who);
        let mut asked = 0;
        'tries: for _ in rt.forever() {
            match self.put(rt, who, job, pass) {
                Ok(()) => return,
                Err(_) if asked < QUESTIONS => {
                    pause(asked);
                    asked += 1;
                }
                Err(_) => self.bell.sleep(rt, place),
            }
        }
        unreachable!()
    }

    /// Takes the oldest job from the pass's queue, which is one that fits it, and waits while it is empty: asking again for a moment, then
    /// asleep. Takes no memory. It may not return: where nobody puts into the queue, it stays empty.
    pub fn take_waiting<R: Wait>(&self, rt: &R, pass: &mut TakePass) -> Job
        requires { IsTakePassOf self.now pass.old }
        ensures pass { IsTakePassOf self.now pass.new × (place_taken_from pass.new ≡ place_taken_from pass.old) }
        ensures taken { jobs_taken pass.new ≡ jobs_taken pass.old ++ result ∷ [] }
        ensures fits { FitsAt self.now (place_taken_from pass.old) result }
    {
        let mut patience = Patience::new(pass.queue < self.workers);
        'tries: for _ in rt.forever() {
            match self.take(rt, pass) {
                Some(job) => return job,
                None => patience.wait(rt),
            }
        }
        unreachable!()
    }

    /// Ends a right to take: what was taken through it, in order, is a beginning of what was put into its queue, whichever threads
    /// put and took. Takes no memory.
    pub fn settle(&self, put: &mut PutPass, take: TakePass)
        requires put { IsPutPassOf self.now put.old }
        requires take { IsTakePassOf self.now take }
        ensures pass { IsPutPassOf self.now put.new × (jobs_put put.new ≡ jobs_put put.old) }
        ensures in_order { IsTakenInOrder (jobs_taken take) (slice_index_or (jobs_put put.old) (place_taken_from take) []) }
    {
        let TakePass {
            queue: place,
            pass,
            ..
        } = take;
        let queue = &self.queues[place];
        let mine = &mut put.passes[place];
        join(queue, mine, pass);
    }
}

// The two rights to one queue together show that what was taken is a beginning of what was put.
fn join(queue: &Queue, put: &mut QueuePass, take: QueuePass)
    requires put { IsPutPassFor (view put.old).purpose queue.now put.old }
    requires take { IsTakePassFor (view take).purpose queue.now take }
    ensures pass { IsPutPassFor (view put.old).purpose queue.now put.new × ((view put.new).put ≡ (view put.old).put) }
    ensures in_order { IsTakenInOrder (view take).taken (view put.old).put }
{
    queue.absorb::<Roles>(put, take);
    queue.learn_as::<PutsJob>(put);
}

// One queue for this purpose, with the right to put and the right to take.
fn opened(alloc: Global, purpose: Purpose) -> Result<(Queue, QueuePass, QueuePass), AllocError>
    ensures put { IfOk result (λ opened. IsPutPassFor purpose opened.0 opened.1 × ((view opened.1).put ≡ [])) }
    ensures take { IfOk result (λ opened. IsTakePassFor purpose opened.0 opened.2 × ((view opened.2).taken ≡ [])) }
{
    let (queue, mut put) = Queue::ruled(alloc, CAPACITY)?;
    let take = apart::<Brand>(&queue, &mut put, purpose);
    Ok((queue, put, take))
}

// The right to take, apart from the right to put, of a queue that from now on is for this purpose.
fn apart<D: Purposed>(queue: &Queue, both: &mut QueuePass, purpose: Purpose) -> QueuePass
    requires purpose { purpose ≡ D.purpose }
    requires both { IsPassOf queue.now both.old × (view both.old ≡ known no_purpose true true [] []) }
    ensures put { IsPassOf queue.now both.new × (view both.new ≡ putter purpose []) }
    ensures take { IsPassOf queue.now result × (view result ≡ taker purpose []) }
{
    let _ = purpose;
    queue.another::<Opens<D>>(both)
}

// A job that fits into one queue.
fn push<R: Wait>(rt: &R, queue: &Queue, pass: &mut QueuePass, job: Job) -> Result<(), Job>
    requires pass { IsPutPassFor (view pass.old).purpose queue.now pass.old }
    requires fits { Fits (view pass.old).purpose job }
    ensures pass { IsPutPassFor (view pass.old).purpose queue.now pass.new }
    ensures put { OnOk result ((view pass.new).put ≡ (view pass.old).put ++ job ∷ []) }
    ensures back { IfErr result (λ back. (back ≡ job) × ((view pass.new).put ≡ (view pass.old).put)) }
    ensures full { OnErr result (WasFull (view pass.old).put) }
{
    queue.push_as::<PutsJob, R>(rt, pass, job)
}

// The oldest job of one queue, which fits it.
fn pop<R: Wait>(rt: &R, queue: &Queue, pass: &mut QueuePass) -> Option<Job>
    requires { IsTakePassFor (view pass.old).purpose queue.now pass.old }
    ensures pass { IsTakePassFor (view pass.old).purpose queue.now pass.new }
    ensures taken { MatchOption result ((view pass.new).taken ≡ (view pass.old).taken)
        (λ job. (view pass.new).taken ≡ (view pass.old).taken ++ job ∷ []) }
    ensures fits { IfSome result (Fits (view pass.old).purpose) }
{
    queue.pop_as::<TakesJob, R>(rt, pass)
}

/// Pauses before the next question, once `asked` were asked in vain: twice as long from question to question.
fn pause(asked: u32) {
    'pauses: for _ in 0..1u32 << asked.min(QUESTIONS) {
        hint::spin_loop();
    }
}

/// How a thread that takes from an empty queue waits: how often it asked before it yields, what is left before it sleeps, and how long it
/// sleeps next.
#[derive(Drop)]
struct Patience {
    asked: u32,
    yields: u32,
    micros: u64,
    /// Nobody wakes it, so that a sleep lasts until its time is over.
    alarm: Parker,
}

impl Patience {
    fn new(is_workers: bool) -> Patience {
        Patience {
            asked: 0,
            yields: if is_workers {
                WORKERS_YIELDS
            } else {
                OTHERS_YIELDS
            },
            micros: 1,
            alarm: Parker::new(),
        }
    }

    /// Waits a little, the longer the more often it did.
    fn wait<R: Wait>(&mut self, rt: &R) {
        if self.asked < QUESTIONS {
            pause(self.asked);
            self.asked += 1;
        } else if self.yields > 0 {
            self.yields -= 1;
            thread::yield_now();
        } else {
            self.alarm
                .park_timeout(rt, Duration::from_micros(self.micros));
            self.micros = (2 * self.micros.min(LONGEST_NAP_MICROS)).min(LONGEST_NAP_MICROS);
        }
    }
}

/// Where the dispatcher sleeps while a queue is full. The thread that takes from that queue rings once there is room for some jobs.
#[derive(Drop)]
pub(crate) struct Bell {
    /// The place of the queue that is full, or none.
    awaited: AtomicUsize,
    sleeper: Parker,
}

impl Bell {
    fn new() -> Bell {
        Bell {
            awaited: AtomicUsize::new(NOWHERE),
            sleeper: Parker::new(),
        }
    }

    /// Sleeps until the bell rings for the queue at a place, or a while where nobody rings.
    fn sleep<R: Wait>(&self, rt: &R, place: usize) {
        self.awaited.store(place, Ordering::SeqCst);
        self.sleeper
            .park_timeout(rt, Duration::from_micros(LONGEST_SLEEP_MICROS));
        self.awaited.store(NOWHERE, Ordering::SeqCst);
    }

    /// Wakes the dispatcher where it waits for room in the queue at a place. Done only after every 16th question for a job: so a sleep is worth its price.
    fn ring(&self, place: usize, questions: u8) {
        if questions % RING_EVERY == 0 && self.awaited.load(Ordering::SeqCst) == place {
            self.sleeper.unpark();
        }
    }
}
