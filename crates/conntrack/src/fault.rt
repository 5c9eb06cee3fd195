//! Why no steering maps were made.

use std::alloc::{AllocError, AllocFailed};
use thiserror::Error;

/// Why no steering maps were made. docs/FAULTS.md says when each comes, in which order, and what it leaves.
#[derive(Clone, Copy, Debug, PartialEq, Eq, Error)]
pub enum SteerFault {
    /// 73: the lookup table has none of the sizes 7, 251, 4093 and 65537, or the flow table none of 4096, 8192, 16384, 32768, 65536
    /// and 131072.
    #[error("fault 73 BadSize")]
    BadSize,
    /// 74: memory was refused.
    #[error("fault 74 Memory")]
    Memory,
}

impl SteerFault {
    ghost use Rattle.std.specs.Prelude.{◌≡◌, true};
    ghost use Rattle.faults.specs.Explanations.{is_fault};
    ghost use Rattle.conntrack.specs.FaultNumber.{steer_fault_number};

    /// The number that the fault's text prints.
    pub fn number(self) -> u8
        ensures number { result ≡ steer_fault_number self }
        ensures known { is_fault result ≡ true }
    {
        match self {
            SteerFault::BadSize => 73,
            SteerFault::Memory => 74,
        }
    }
}

impl From<AllocError> for SteerFault {
    ghost use Rattle.std.specs.Prelude.{◌≡◌};
    ghost use Rattle.conntrack.specs.declared.fault.SteerFault.TheVariants.{Memory};

    ghost from_gives = { λ _ fault. fault ≡ Memory };

    fn from(_error: AllocError) -> SteerFault {
        SteerFault::Memory
    }
}

impl<T: Drop> From<AllocFailed<T>> for SteerFault {
    ghost use Rattle.std.specs.Prelude.{◌≡◌};
    ghost use Rattle.conntrack.specs.declared.fault.SteerFault.TheVariants.{Memory};

    ghost from_gives = { λ _ fault. fault ≡ Memory };

    fn from(_error: AllocFailed<T>) -> SteerFault {
        SteerFault::Memory
    }
}
