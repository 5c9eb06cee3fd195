//! What a replay returns.

use crate::account::Counts;
use control::ControlFault;
use journals::Journals;
use map_updates::MapUpdate;
use semantics::Verdict;
use wire::Sent;

/// What became of a capture's records.
#[derive(Drop)]
pub struct Outcome {
    pub counts: Counts,
    /// The updates that the controller made before the first record, in their order.
    pub updates: Vec<MapUpdate>,
    /// The commands that were refused, in the script's order, each with its fault.
    pub refused: Vec<Applied>,
    /// The frames that were sent, in the capture's order, each with the moment of its record.
    pub sent: Vec<Sent>,
    /// What became of each record, in the capture's order.
    pub ends: Vec<ToldEnd>,
    /// Of each shard, all that was called.
    pub journals: Journals,
}

/// What became of the records of a piece of a capture.
#[derive(Drop)]
pub struct PieceOutcome {
    /// The frames that were sent, in the capture's order, each with the moment of its record.
    pub sent: Vec<Sent>,
    /// What became of each record, in the capture's order.
    pub ends: Vec<ToldEnd>,
}

/// What became of a record of the capture.
#[derive(Clone, Copy, Debug, PartialEq, Eq)]
pub enum ToldEnd {
    /// It has fewer than 14 bytes, and was not run.
    Short,
    /// The worker of its flow began a run, which a full journal stopped.
    Stopped {
        worker: u8,
    },
    /// The worker of its flow ran it to the program's end, in `steps` steps.
    Exited {
        worker: u8,
        verdict: Verdict,
        steps: u64,
    },
}

/// What came of a command of the script.
#[derive(Clone, Copy, Debug, PartialEq, Eq)]
pub struct Applied {
    /// Which command of the script it is, counted from 0.
    pub command: usize,
    /// Why it was refused, if it was.
    pub fault: Option<ControlFault>,
}
