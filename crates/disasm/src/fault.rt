//! Why a text spells no image.

ghost use Rattle.std.specs.Prelude.{◌≡◌, true};

use ebpf_decode::DecodeFault;
use faults::Fields;
use std::alloc::AllocError;
use thiserror::Error;

/// Why a text spells no image. docs/FAULTS.md says when each comes, in which order, and what it leaves.
#[derive(Clone, Copy, Debug, Error, PartialEq, Eq)]
pub enum AsmFault {
    /// 21: this line, counted from 1, is misspelled.
    #[error("fault 21 BadLine line {line}")]
    BadLine { line: usize },
    /// 22: every line is spelled right, but no image has these maps and instructions.
    #[error("fault 22 Image decode {}", .0.number())]
    Image(DecodeFault),
    /// 23: memory was refused.
    #[error("fault 23 Memory")]
    Memory,
}

impl AsmFault {
    ghost use Rattle.faults.specs.Explanations.{is_fault};
    ghost use Rattle.disasm.specs.FaultNumber.{text_fault_number, text_fault_fields};

    /// The number that the fault's text prints.
    pub fn number(self) -> u8
        ensures number { result ≡ text_fault_number self }
        ensures known { is_fault result ≡ true }
    {
        match self {
            AsmFault::BadLine { .. } => 21,
            AsmFault::Image(_) => 22,
            AsmFault::Memory => 23,
        }
    }

    /// The numbers of the fields that the fault's text prints.
    pub fn fields(self) -> Fields
        ensures { result ≡ text_fault_fields self }
    {
        match self {
            AsmFault::BadLine { line } => Fields::One(line as u64),
            AsmFault::Image(fault) => Fields::One(u64::from(fault.number())),
            AsmFault::Memory => Fields::Empty,
        }
    }
}

impl From<AllocError> for AsmFault {
    ghost use Rattle.disasm.specs.declared.fault.AsmFault.TheVariants.{Memory};

    ghost from_gives = { λ _ e. e ≡ Memory };

    fn from(_e: AllocError) -> AsmFault {
        AsmFault::Memory
    }
}
