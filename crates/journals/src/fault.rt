//! Why a file of journals was not read or not written.

use faults::Fields;
use std::alloc::{AllocError, AllocFailed};
use thiserror::Error;

/// Why journals were not read or not written. docs/FAULTS.md says when each comes, in which order, and what it leaves.
#[derive(Clone, Copy, Debug, PartialEq, Eq, Error)]
pub enum FileFault {
    /// 7: a call of the device failed.
    #[error("fault 7 Device")]
    Device,
    /// 52: memory was refused.
    #[error("fault 52 Memory")]
    Memory,
    /// 55: this line of the file, counted from 1, cannot be there.
    #[error("fault 55 BadJournalFile line {line}")]
    BadJournalFile { line: usize },
}

impl FileFault {
    ghost use Rattle.std.specs.Prelude.{◌≡◌, true};
    ghost use Rattle.faults.specs.Explanations.{is_fault};
    ghost use Rattle.journals.specs.FaultNumber.{file_fault_number, file_fault_fields};

    /// The number that the fault's text prints.
    pub fn number(self) -> u8
        ensures number { result ≡ file_fault_number self }
        ensures known { is_fault result ≡ true }
    {
        match self {
            FileFault::Device => 7,
            FileFault::Memory => 52,
            FileFault::BadJournalFile { .. } => 55,
        }
    }

    /// The numbers of the fields that the fault's text prints.
    pub fn fields(self) -> Fields
        ensures { result ≡ file_fault_fields self }
    {
        match self {
            FileFault::BadJournalFile { line } => Fields::One(line as u64),
            FileFault::Device => Fields::Empty,
            FileFault::Memory => Fields::Empty,
        }
    }
}

impl From<AllocError> for FileFault {
    ghost use Rattle.std.specs.Prelude.{◌≡◌};
    ghost use Rattle.journals.specs.declared.fault.FileFault.TheVariants.{Memory};

    ghost from_gives = { λ _ fault. fault ≡ Memory };

    fn from(_error: AllocError) -> FileFault {
        FileFault::Memory
    }
}

impl<T: Drop> From<AllocFailed<T>> for FileFault {
    ghost use Rattle.std.specs.Prelude.{◌≡◌};
    ghost use Rattle.journals.specs.declared.fault.FileFault.TheVariants.{Memory};

    ghost from_gives = { λ _ fault. fault ≡ Memory };

    fn from(_error: AllocFailed<T>) -> FileFault {
        FileFault::Memory
    }
}
