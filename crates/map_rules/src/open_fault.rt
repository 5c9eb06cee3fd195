//! Why no shards were opened.

use std::alloc::{AllocError, AllocFailed};
use thiserror::Error;

/// Why no shards were opened. docs/FAULTS.md says when each comes, in which order, and what it leaves.
#[derive(Clone, Copy, Debug, PartialEq, Eq, Error)]
pub enum OpenFault {
    /// 51: no shards of these maps are opened with these options.
    #[error("fault 51 BadOptions")]
    BadOptions,
    /// 52: memory was refused.
    #[error("fault 52 Memory")]
    Memory,
}

impl OpenFault {
    ghost use Rattle.std.specs.Prelude.{◌≡◌, true};
    ghost use Rattle.faults.specs.Explanations.{is_fault};
    ghost use Rattle.map_rules.specs.OpenFaultNumber.{open_fault_number};

    /// The number that the fault's text prints.
    pub fn number(self) -> u8
        ensures number { result ≡ open_fault_number self }
        ensures known { is_fault result ≡ true }
    {
        match self {
            OpenFault::BadOptions => 51,
            OpenFault::Memory => 52,
        }
    }
}

impl From<AllocError> for OpenFault {
    ghost use Rattle.std.specs.Prelude.{◌≡◌};
    ghost use Rattle.map_rules.specs.declared.open_fault.OpenFault.TheVariants.{Memory};

    ghost from_gives = { λ _ fault. fault ≡ Memory };

    fn from(_error: AllocError) -> OpenFault {
        OpenFault::Memory
    }
}

impl<T: Drop> From<AllocFailed<T>> for OpenFault {
    ghost use Rattle.std.specs.Prelude.{◌≡◌};
    ghost use Rattle.map_rules.specs.declared.open_fault.OpenFault.TheVariants.{Memory};

    ghost from_gives = { λ _ fault. fault ≡ Memory };

    fn from(_error: AllocFailed<T>) -> OpenFault {
        OpenFault::Memory
    }
}
