//! The rule of one queue: what was put is what was taken, then what the queue holds. One pass has the right to put and knows
//! all that was put; one has the right to take and knows all that was taken. Both know what the queue is for, and it holds no other jobs.

use crate::job::Job;
use crossbeam_queue::protocol::{Join, Lesson, Outcome, Protocol, Split};
use crossbeam_queue::{Pass, RuledArrayQueue};
use std::collections::LinkedList;
use std::marker::{Brand, PhantomData};

/// What a queue is for: its place, among queues for N workers, records and commands.
#[derive(Clone, Copy, Debug)]
pub struct Purpose {
    pub place: usize,
    pub workers: usize,
    pub records: usize,
    pub commands: usize,
}

/// What a queue is for, what a pass may do, what was put through it and what was taken. No value of it is made: it is what contracts see of a pass.
pub struct JobsKnown {
    pub purpose: Purpose,
    pub puts: bool,
    pub takes: bool,
    pub put: LinkedList<Job>,
    pub taken: LinkedList<Job>,
}

/// Jobs leave in the order in which they came, and all that come fit the queue.
pub struct InOrder;

impl Protocol<Job, JobsKnown> for InOrder {
    ghost use Rattle.std.specs.Prelude.{true, []};
    ghost use Rattle.rx_queues.specs.Fifo.{known, no_purpose, IsInOrder};

    ghost holds = { IsInOrder };

    ghost first = { known no_purpose true true [] [] };
}

/// A purpose that is picked where a queue is opened.
pub trait Purposed {
    ghost use Rattle.rx_queues.specs.declared.rule.Purpose.{Purpose};

    ghost purpose: { Purpose };
}

impl Purposed for Brand {
    ghost use Rattle.rx_queues.specs.Fifo.{no_purpose};

    ghost purpose = { no_purpose };
}

/// The two rights to a queue apart, while nothing was put. From then on the queue is for what `D` says.
pub struct Opens<D: Purposed> {
    of: PhantomData<D>,
}

impl<D: Purposed> Split<JobsKnown> for Opens<D> {
    ghost use Rattle.std.specs.Prelude.{[]};
    ghost use Rattle.rx_queues.specs.Fifo.{putter, taker};

    ghost left = { λ both. putter D.purpose [] };

    ghost right = { λ both. taker D.purpose [] };
}

/// The two rights to a queue together again.
pub struct Roles;

impl Join<JobsKnown> for Roles {
    ghost use Rattle.std.specs.Prelude.{true, false, []};
    ghost use Rattle.rx_queues.specs.Fifo.{known, no_purpose};

    ghost both = { λ putter taker. known putter.purpose true true putter.put taker.taken };

    ghost spent = { known no_purpose false false [] [] };
}

/// A put puts the job at the end of what was put.
pub struct PutsJob;

impl Outcome<Job, JobsKnown> for PutsJob {
    ghost use Rattle.std.specs.Prelude.{◌≡◌, []};
    ghost use Rattle.rx_queues.specs.Fifo.{with_put};

    ghost then = { λ before job after. after ≡ with_put before job };
}

impl Lesson<Job, JobsKnown> for PutsJob {
    ghost use Rattle.rx_queues.specs.Fifo.{MayHold};

    ghost fact = { MayHold };
}

/// A take puts the job, which fits the queue, at the end of what was taken.
pub struct TakesJob;

impl Outcome<Job, JobsKnown> for TakesJob {
    ghost use Rattle.std.specs.Prelude.{◌≡◌};
    ghost use Rattle.rx_queues.specs.Fifo.{with_taken, Fits};

    ghost then = { λ before job after. (after ≡ with_taken before job) × Fits before.purpose job };
}

impl Lesson<Job, JobsKnown> for TakesJob {
    ghost use Rattle.rx_queues.specs.Fifo.{MayHold};

    ghost fact = { MayHold };
}

pub type Queue = RuledArrayQueue<Job, JobsKnown, InOrder>;

pub type QueuePass = Pass<Job, JobsKnown>;
