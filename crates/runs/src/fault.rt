//! Why no run was made.

use faults::Fields;
use shards::OpenFault;
use std::alloc::AllocError;
use thiserror::Error;

/// Why no run was made. docs/FAULTS.md says when each comes, in which order, and what it leaves.
#[derive(Clone, Copy, Debug, PartialEq, Eq, Error)]
pub enum RunFault {
    /// 51 or 52: no shards were opened.
    #[error(transparent)]
    Open(OpenFault),
    /// 93: the map of the update at this place of the list, counted from 0, refused it with this answer.
    #[error("fault 93 Refused answer {answer}")]
    Refused { place: usize, answer: i32 },
    /// 94: the journal was full for the update at this place.
    #[error("fault 94 JournalFull")]
    Full { place: usize },
}

impl RunFault {
    ghost use Rattle.std.specs.Prelude.{◌≡◌, true};
    ghost use Rattle.faults.specs.Explanations.{is_fault};
    ghost use Rattle.runs.specs.FaultNumber.{run_fault_number, run_fault_fields};

    /// The number that the fault's text prints.
    pub fn number(self) -> u8
        ensures number { result ≡ run_fault_number self }
        ensures known { is_fault result ≡ true }
    {
        match self {
            RunFault::Open(fault) => fault.number(),
            RunFault::Refused { .. } => 93,
            RunFault::Full { .. } => 94,
        }
    }

    /// The numbers of the fields that the fault's text prints.
    pub fn fields(self) -> Fields
        ensures { result ≡ run_fault_fields self }
    {
        match self {
            RunFault::Open(_) => Fields::Empty,
            RunFault::Refused { answer, .. } => Fields::Signed(answer),
            RunFault::Full { .. } => Fields::Empty,
        }
    }
}

impl From<OpenFault> for RunFault {
    ghost use Rattle.std.specs.Prelude.{◌≡◌};
    ghost use Rattle.runs.specs.declared.fault.RunFault.TheVariants.{Open};

    ghost from_gives = { λ fault told. told ≡ Open fault };

    fn from(fault: OpenFault) -> RunFault {
        RunFault::Open(fault)
    }
}

impl From<AllocError> for RunFault {
    ghost use Rattle.std.specs.Prelude.{◌≡◌};
    ghost use Rattle.map_rules.specs.declared.open_fault.OpenFault.TheVariants.{Memory};
    ghost use Rattle.runs.specs.declared.fault.RunFault.TheVariants.{Open};

    ghost from_gives = { λ _ fault. fault ≡ Open Memory };

    fn from(_error: AllocError) -> RunFault {
        RunFault::Open(OpenFault::Memory)
    }
}
