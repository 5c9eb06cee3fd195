//! What runs a program for the workers, and what became of a frame.

ghost use Rattle.std.specs.Prelude.{IfSome};

use std::alloc::Global;
use wire::Sent;

/// Runs a program on frames, on whichever thread. A worker has a state of its own, which each of its runs changes.
pub trait Runner<S> {
    ghost use Rattle.std.specs.Prelude.{ℕ};
    ghost use Rattle.wire.specs.declared.records.Sent.{Sent as Record};
    ghost use Rattle.actors.specs.declared.runner.RunEnd.{RunEnd as End};

    /// What is known of a worker's state before its first run.
    ghost is_new: { Self → ℕ → S → Type 0 };

    /// What is known of it between two runs.
    ghost is_idle: { Self → ℕ → S → Type 0 };

    /// What a run is: the worker, the record, its state before, what became of the frame, and its state after.
    ghost runs: { Self → ℕ → Record → S → End → S → Type 0 };

    /// Runs the program on a record's frame, for a worker. None where memory was refused, or the record has no Ethernet header.
    fn run(&self, alloc: Global, worker: u8, sent: &Sent, state: &mut S) -> Option<RunEnd>
        requires { is_idle self.now worker state.old }
        ensures idle { is_idle self.now worker state.new }
        ensures run { IfSome result (λ end. runs self.now worker sent.now state.old end state.new) };
}

/// How a run ended.
#[derive(Debug, Drop)]
pub enum RunEnd {
    /// A journal was full for the run's next call: the calls before it remain, and the frame is not sent.
    Stopped,
    /// The program came to its end, after `steps` instructions, a wide one counted once.
    Exited { steps: u64, frame: FrameFate },
}

/// What becomes of the frame of a run that came to its end.
#[derive(Debug, Drop)]
pub enum FrameFate {
    /// The program answered a number other than 1, 2 and 3, which are DROP, PASS and TX.
    Aborted,
    /// It goes nowhere.
    Dropped,
    /// It goes on to the host.
    Passed,
    /// It is sent so, with the moment at which it was captured.
    Sent { sent: Sent },
}

/// A run that a worker made.
#[derive(Debug, Drop)]
pub struct Ran {
    /// The record of the capture, counted from 0.
    pub number: usize,
    pub end: RunEnd,
}
