//! Why a caller got no pass.

use std::alloc::AllocError;
use thiserror::Error;

/// Why a caller got no pass. docs/FAULTS.md says when each comes, in which order, and what it leaves.
#[derive(Clone, Copy, Debug, PartialEq, Eq, Error)]
pub enum PassFault {
    /// 51: there is no such worker.
    #[error("fault 51 BadOptions")]
    BadOptions,
    /// 52: memory was refused.
    #[error("fault 52 Memory")]
    Memory,
    /// 54: the caller has its pass already.
    #[error("fault 54 PassTaken")]
    PassTaken,
}

impl PassFault {
    ghost use Rattle.std.specs.Prelude.{◌≡◌, true};
    ghost use Rattle.faults.specs.Explanations.{is_fault};
    ghost use Rattle.shards.specs.PassFaultNumber.{pass_fault_number};

    /// The number that the fault's text prints.
    pub fn number(self) -> u8
        ensures number { result ≡ pass_fault_number self }
        ensures known { is_fault result ≡ true }
    {
        match self {
            PassFault::BadOptions => 51,
            PassFault::Memory => 52,
            PassFault::PassTaken => 54,
        }
    }
}

impl From<AllocError> for PassFault {
    ghost use Rattle.std.specs.Prelude.{◌≡◌};
    ghost use Rattle.shards.specs.declared.pass_fault.PassFault.TheVariants.{Memory};

    ghost from_gives = { λ _ fault. fault ≡ Memory };

    fn from(_error: AllocError) -> PassFault {
        PassFault::Memory
    }
}
