//! Why a capture file was refused.

ghost use Rattle.std.specs.Prelude.{◌≡◌, true};

use faults::Fields;
use thiserror::Error;

/// Why a capture was not read or not written. docs/FAULTS.md says when each comes, in which order, and what it leaves.
#[derive(Clone, Copy, Debug, PartialEq, Eq, Error)]
pub enum CaptureFault {
    /// 1: the first four bytes are not the magic number `a1b2c3d4`, low byte first.
    #[error("fault 1 BadMagic")]
    BadMagic,
    /// 2: the version is not 2.4.
    #[error("fault 2 BadVersion")]
    BadVersion,
    /// 3: the link type is not 1 (Ethernet).
    #[error("fault 3 BadLink")]
    BadLink,
    /// 4: the file ends in its header (record 0), or in the header of this record, counted from 1.
    #[error("fault 4 CutHead record {record}")]
    CutHead { record: u64 },
    /// 5: the file ends in the kept bytes of this record.
    #[error("fault 5 CutFrame record {record}")]
    CutFrame { record: u64 },
    /// 6: this record keeps more than 2048 bytes.
    #[error("fault 6 FrameTooLong record {record}")]
    FrameTooLong { record: u64 },
    /// 7: a call of the device failed.
    #[error("fault 7 Device")]
    Device,
    /// 8: memory was refused.
    #[error("fault 8 Memory")]
    Memory,
}

impl CaptureFault {
    ghost use Rattle.faults.specs.Explanations.{is_fault};
    ghost use Rattle.wire.specs.FaultNumber.{capture_fault_number, capture_fault_fields};

    /// The number that the fault's text prints.
    pub fn number(self) -> u8
        ensures number { result ≡ capture_fault_number self }
        ensures known { is_fault result ≡ true }
    {
        match self {
            CaptureFault::BadMagic => 1,
            CaptureFault::BadVersion => 2,
            CaptureFault::BadLink => 3,
            CaptureFault::CutHead { .. } => 4,
            CaptureFault::CutFrame { .. } => 5,
            CaptureFault::FrameTooLong { .. } => 6,
            CaptureFault::Device => 7,
            CaptureFault::Memory => 8,
        }
    }

    /// The numbers of the fields that the fault's text prints.
    pub fn fields(self) -> Fields
        ensures { result ≡ capture_fault_fields self }
    {
        match self {
            CaptureFault::CutHead { record: number } => Fields::One(number),
            CaptureFault::CutFrame { record: number } => Fields::One(number),
            CaptureFault::FrameTooLong { record: number } => Fields::One(number),
            _ => Fields::Empty,
        }
    }
}
