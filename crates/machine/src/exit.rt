//! How a run ends.

ghost use Rattle.std.specs.Prelude.{◌≡◌, true};
ghost use Rattle.faults.specs.Explanations.{is_fault};
ghost use Rattle.machine.specs.StopText.{stop_number, stop_fields};

use faults::Fields;
use semantics::Verdict;
use thiserror::Error;

/// The end of a run.
#[derive(Clone, Copy, Debug, PartialEq, Eq)]
pub struct Exit {
    /// What becomes of the frame: the low 32 bits of R0.
    pub verdict: Verdict,
    /// How many instructions were done, a wide one counted once.
    pub steps: u64,
}

/// Why a run stopped before its end. docs/FAULTS.md says when each comes, in which order, and what it leaves.
#[derive(Clone, Copy, Debug, PartialEq, Eq, Error)]
pub enum Stop {
    /// 60: the port refused the run's next call, of this shard.
    #[error("fault 60 JournalFull shard {shard}")]
    JournalFull { shard: u32 },
}

impl Stop {
    /// The number that the fault's text prints.
    pub fn number(self) -> u8
        ensures number { result ≡ stop_number self }
        ensures known { is_fault result ≡ true }
    {
        match self {
            Stop::JournalFull { .. } => 60,
        }
    }

    /// The numbers of the fields that the fault's text prints.
    pub fn fields(self) -> Fields
        ensures { result ≡ stop_fields self }
    {
        match self {
            Stop::JournalFull { shard } => Fields::One(u64::from(shard)),
        }
    }
}
