//! Why a replay was given up.

use faults::Fields;
use std::alloc::AllocError;
use thiserror::Error;

/// Why a replay was given up. docs/FAULTS.md says when each comes, in which order, and what it leaves.
#[derive(Clone, Copy, Debug, PartialEq, Eq, Error)]
pub enum ReplayFault {
    /// 51: no shards are opened with these options, or there are commands and the maps are not those of steering.
    #[error("fault 51 BadOptions")]
    BadOptions,
    /// 52: memory was refused.
    #[error("fault 52 Memory")]
    Memory,
    /// 56: a thread could not be started.
    #[error("fault 56 NoThread")]
    NoThread,
    /// 93: the map of the update at this place of the list, counted from 0, refused it with this answer.
    #[error("fault 93 Refused answer {answer}")]
    Refused { place: usize, answer: i32 },
    /// 94: the journal was full for the update at this place.
    #[error("fault 94 JournalFull")]
    Full { place: usize },
}

impl ReplayFault {
    ghost use Rattle.std.specs.Prelude.{◌≡◌, true};
    ghost use Rattle.faults.specs.Explanations.{is_fault};
    ghost use Rattle.actors.specs.FaultNumber.{replay_fault_number, replay_fault_fields};

    /// The number that the fault's text prints.
    pub fn number(self) -> u8
        ensures number { result ≡ replay_fault_number self }
        ensures known { is_fault result ≡ true }
    {
        match self {
            ReplayFault::BadOptions => 51,
            ReplayFault::Memory => 52,
            ReplayFault::NoThread => 56,
            ReplayFault::Refused { .. } => 93,
            ReplayFault::Full { .. } => 94,
        }
    }

    /// The numbers of the fields that the fault's text prints.
    pub fn fields(self) -> Fields
        ensures { result ≡ replay_fault_fields self }
    {
        match self {
            ReplayFault::Refused { answer, .. } => Fields::Signed(answer),
            _ => Fields::Empty,
        }
    }
}

impl From<AllocError> for ReplayFault {
    ghost use Rattle.std.specs.Prelude.{◌≡◌};
    ghost use Rattle.actors.specs.declared.fault.ReplayFault.TheVariants.{Memory};

    ghost from_gives = { λ _ fault. fault ≡ Memory };

    fn from(_error: AllocError) -> ReplayFault {
        ReplayFault::Memory
    }
}
