//! Why a source means no text, or its text spells no image.

ghost use Rattle.std.specs.Prelude.{◌≡◌, true};

use disasm::AsmFault;
use ebpf_decode::DecodeFault;
use faults::Fields;
use std::alloc::AllocError;
use thiserror::Error;

/// What is wrong with a line.
#[derive(Clone, Copy, Debug, PartialEq, Eq)]
pub enum Problem {
    /// The label is on an earlier line too.
    LabelTwice,
    /// What is before the colon is no name.
    NoLabelName,
    /// No line has the label to which the jump goes.
    UnknownLabel,
    /// No helper has the name that is called.
    UnknownHelper,
    /// An operand with an `x` is no number in hexadecimal of 64 bits, or that of `lddw` no number of 64 bits.
    NoNumber,
    /// Without comment, label and names it is not a line of the text form.
    NoSpelling,
}

/// Why no image comes of a source. docs/FAULTS.md says when each comes, in which order, and what it leaves.
#[derive(Clone, Copy, Debug, Error, PartialEq, Eq)]
pub enum SourceFault {
    /// 21: this line of the source, counted from 1, is bad.
    #[error("fault 21 BadLine line {line}")]
    BadLine { line: usize, problem: Problem },
    /// 22: every line is right, but no image has these maps and instructions.
    #[error("fault 22 Image decode {}", .0.number())]
    Image(DecodeFault),
    /// 23: memory was refused.
    #[error("fault 23 Memory")]
    Memory,
}

impl SourceFault {
    ghost use Rattle.faults.specs.Explanations.{is_fault};
    ghost use Rattle.source_form.specs.FaultNumber.{source_fault_number, source_fault_fields};

    /// The number that the fault's text prints.
    pub fn number(self) -> u8
        ensures number { result ≡ source_fault_number self }
        ensures known { is_fault result ≡ true }
    {
        match self {
            SourceFault::BadLine { .. } => 21,
            SourceFault::Image(_) => 22,
            SourceFault::Memory => 23,
        }
    }

    /// The numbers of the fields that the fault's text prints.
    pub fn fields(self) -> Fields
        ensures { result ≡ source_fault_fields self }
    {
        match self {
            SourceFault::BadLine { line, .. } => Fields::One(line as u64),
            SourceFault::Image(fault) => Fields::One(u64::from(fault.number())),
            SourceFault::Memory => Fields::Empty,
        }
    }
}

/// Why a line has no text.
#[derive(Clone, Copy, Debug, PartialEq, Eq)]
pub(crate) enum LineFault {
    /// The line is bad.
    Bad(Problem),
    /// Memory was refused.
    Memory,
}

impl From<AllocError> for LineFault {
    ghost use Rattle.source_form.specs.declared.fault.LineFault.TheVariants.{Memory};

    ghost from_gives = { λ _ fault. fault ≡ Memory };

    fn from(_error: AllocError) -> LineFault {
        LineFault::Memory
    }
}

impl From<AllocError> for SourceFault {
    ghost use Rattle.source_form.specs.declared.fault.SourceFault.TheVariants.{Memory};

    ghost from_gives = { λ _ fault. fault ≡ Memory };

    fn from(_error: AllocError) -> SourceFault {
        SourceFault::Memory
    }
}
