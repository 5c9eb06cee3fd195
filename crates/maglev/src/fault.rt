//! Why no ring is made.

use std::alloc::{AllocError, AllocFailed};
use thiserror::Error;

/// Why no ring was made. docs/FAULTS.md says when each comes, in which order, and what it leaves.
#[derive(Clone, Copy, Debug, PartialEq, Eq, Error)]
pub enum RingFault {
    /// 70: the list has no backend.
    #[error("fault 70 NoBackend")]
    NoBackend,
    /// 71: two backends have one number, or one address.
    #[error("fault 71 Twice")]
    Twice,
    /// 72: more than 256 backends, or more than slots.
    #[error("fault 72 TooMany")]
    TooMany,
    /// 73: no table has this number of slots.
    #[error("fault 73 BadSize")]
    BadSize,
    /// 74: memory was refused.
    #[error("fault 74 Memory")]
    Memory,
}

impl RingFault {
    ghost use Rattle.std.specs.Prelude.{◌≡◌, true};
    ghost use Rattle.faults.specs.Explanations.{is_fault};
    ghost use Rattle.maglev.specs.FaultNumber.{ring_fault_number};

    /// The number that the fault's text prints.
    pub fn number(self) -> u8
        ensures number { result ≡ ring_fault_number self }
        ensures known { is_fault result ≡ true }
    {
        match self {
            RingFault::NoBackend => 70,
            RingFault::Twice => 71,
            RingFault::TooMany => 72,
            RingFault::BadSize => 73,
            RingFault::Memory => 74,
        }
    }
}

impl From<AllocError> for RingFault {
    ghost use Rattle.std.specs.Prelude.{◌≡◌};
    ghost use Rattle.maglev.specs.declared.fault.RingFault.TheVariants.{Memory};

    ghost from_gives = { λ _ fault. fault ≡ Memory };

    fn from(_error: AllocError) -> RingFault {
        RingFault::Memory
    }
}

impl<T: Drop> From<AllocFailed<T>> for RingFault {
    ghost use Rattle.std.specs.Prelude.{◌≡◌};
    ghost use Rattle.maglev.specs.declared.fault.RingFault.TheVariants.{Memory};

    ghost from_gives = { λ _ fault. fault ≡ Memory };

    fn from(_error: AllocFailed<T>) -> RingFault {
        RingFault::Memory
    }
}
