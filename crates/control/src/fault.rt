//! Why a script was not read, or a command not carried out.

use faults::Fields;
use std::alloc::{AllocError, AllocFailed};
use thiserror::Error;

/// Why a script was not read, a controller not opened, or a command not carried out.
/// docs/FAULTS.md says when each comes, in which order, and what it leaves.
#[derive(Clone, Copy, Debug, PartialEq, Eq, Error)]
pub enum ControlFault {
    /// 73: the lookup table has none of the sizes 7, 251, 4093 and 65537.
    #[error("fault 73 BadSize")]
    BadSize,
    /// 90: this line of the script, counted from 1, is no command's.
    #[error("fault 90 BadLine line {line}")]
    BadLine { line: usize },
    /// 91: there is no such backend.
    #[error("fault 91 UnknownBackend")]
    UnknownBackend,
    /// 92: the number or the address of a backend that comes up is up already.
    #[error("fault 92 BackendTwice")]
    BackendTwice,
    /// 93: the map of services refused a service, with this answer.
    #[error("fault 93 Refused answer {answer}")]
    Refused { answer: i32 },
    /// 94: a journal was full.
    #[error("fault 94 JournalFull")]
    JournalFull,
    /// 95: memory was refused.
    #[error("fault 95 Memory")]
    Memory,
}

impl ControlFault {
    ghost use Rattle.std.specs.Prelude.{◌≡◌, true};
    ghost use Rattle.faults.specs.Explanations.{is_fault};
    ghost use Rattle.control.specs.FaultNumber.{control_fault_number, control_fault_fields};

    /// The number that the fault's text prints.
    pub fn number(self) -> u8
        ensures number { result ≡ control_fault_number self }
        ensures known { is_fault result ≡ true }
    {
        match self {
            ControlFault::BadSize => 73,
            ControlFault::BadLine { .. } => 90,
            ControlFault::UnknownBackend => 91,
            ControlFault::BackendTwice => 92,
            ControlFault::Refused { .. } => 93,
            ControlFault::JournalFull => 94,
            ControlFault::Memory => 95,
        }
    }

    /// The numbers of the fields that the fault's text prints.
    pub fn fields(self) -> Fields
        ensures { result ≡ control_fault_fields self }
    {
        match self {
            ControlFault::BadLine { line } => Fields::One(line as u64),
            ControlFault::Refused { answer } => Fields::Signed(answer),
            _ => Fields::Empty,
        }
    }
}

impl From<AllocError> for ControlFault {
    ghost use Rattle.std.specs.Prelude.{◌≡◌};
    ghost use Rattle.control.specs.declared.fault.ControlFault.TheVariants.{Memory};

    ghost from_gives = { λ _ fault. fault ≡ Memory };

    fn from(_error: AllocError) -> ControlFault {
        ControlFault::Memory
    }
}

impl<T: Drop> From<AllocFailed<T>> for ControlFault {
    ghost use Rattle.std.specs.Prelude.{◌≡◌};
    ghost use Rattle.control.specs.declared.fault.ControlFault.TheVariants.{Memory};

    ghost from_gives = { λ _ fault. fault ≡ Memory };

    fn from(_error: AllocFailed<T>) -> ControlFault {
        ControlFault::Memory
    }
}
