//! The queues, and the rights to put and to take.

ghost use Rattle.std.specs.Prelude.{◌≡◌, ◌+◌, length};

use crate::queues::Bell;
use crate::rule::{Queue, QueuePass};

/// A queue for each worker, one for the controller and one for the reclaimer. Threads share it by reference.
#[derive(Drop)]
pub struct Queues {
    pub(crate) queues: Vec<Queue>,
    pub(crate) workers: usize,
    /// How many records there are, whose frames may go to workers.
    pub(crate) records: usize,
    /// How many commands there are, which may go to the controller.
    pub(crate) commands: usize,
    pub(crate) bell: Bell,
    ghost sized: { length queues.items ≡ workers + 2 },
}

/// The right to put into every queue of some [`Queues`](crate::Queues). Contracts see what was put through it, queue by queue
/// (`jobs_put`).
#[derive(Drop)]
pub struct PutPass {
    pub(crate) passes: Vec<QueuePass>,
}

/// The right to take from one queue. Contracts see which one, and what was taken through it (`jobs_taken`).
#[derive(Drop)]
pub struct TakePass {
    pub(crate) queue: usize,
    pub(crate) pass: QueuePass,
    /// How often it asked for a job, modulo 256.
    pub(crate) questions: u8,
}
