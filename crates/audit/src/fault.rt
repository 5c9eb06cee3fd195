//! Why journals were refused.

use faults::Fields;
use std::alloc::AllocError;
use thiserror::Error;

/// Why journals were refused. docs/FAULTS.md says when each comes, in which order, and what it leaves.
#[derive(Clone, Copy, Debug, PartialEq, Eq, Error)]
pub enum AuditFault {
    /// 52: memory was refused.
    #[error("fault 52 Memory")]
    Memory,
    /// 53: the one-thread map cannot give the entry at this place, counted from 0, of this shard's journal.
    #[error("fault 53 Illegal shard {shard} place {place}")]
    Illegal { shard: usize, place: usize },
}

impl AuditFault {
    ghost use Rattle.std.specs.Prelude.{◌≡◌, true};
    ghost use Rattle.faults.specs.Explanations.{is_fault};
    ghost use Rattle.audit.specs.FaultNumber.{audit_fault_number, audit_fault_fields};

    /// The number that the fault's text prints.
    pub fn number(self) -> u8
        ensures number { result ≡ audit_fault_number self }
        ensures known { is_fault result ≡ true }
    {
        match self {
            AuditFault::Memory => 52,
            AuditFault::Illegal { .. } => 53,
        }
    }

    /// The numbers of the fields that the fault's text prints.
    pub fn fields(self) -> Fields
        ensures { result ≡ audit_fault_fields self }
    {
        match self {
            AuditFault::Illegal { shard, place } => Fields::Two(shard as u64, place as u64),
            AuditFault::Memory => Fields::Empty,
        }
    }
}

impl From<AllocError> for AuditFault {
    ghost use Rattle.std.specs.Prelude.{◌≡◌};
    ghost use Rattle.audit.specs.declared.fault.AuditFault.TheVariants.{Memory};

    ghost from_gives = { λ _ fault. fault ≡ Memory };

    fn from(_error: AllocError) -> AuditFault {
        AuditFault::Memory
    }
}
