//! Why a program's structure is refused.

ghost use Rattle.std.specs.Prelude.{◌≡◌, true};
ghost use Rattle.faults.specs.Explanations.{is_fault};
ghost use Rattle.image_shape.specs.Structure.{shape_fault_number, shape_fault_fields};

use faults::Fields;
use thiserror::Error;

/// Why a program's structure is refused, with the slot of the instruction. docs/FAULTS.md says when each is answered, and in which order.
#[derive(Clone, Copy, Debug, Error, PartialEq, Eq)]
pub enum ShapeFault {
    /// 30: a jump goes back.
    #[error("fault 30 JumpBackward slot {slot}")]
    JumpBackward { slot: u32 },
    /// 31: a jump leaves the program.
    #[error("fault 31 JumpOutside slot {slot}")]
    JumpOutside { slot: u32 },
    /// 32: a jump goes into a wide instruction.
    #[error("fault 32 JumpIntoWide slot {slot}")]
    JumpIntoWide { slot: u32 },
    /// 33: a run could go on past the last slot.
    #[error("fault 33 FallsOff slot {slot}")]
    FallsOff { slot: u32 },
    /// 34: no path leads to the instruction.
    #[error("fault 34 Unreachable slot {slot}")]
    Unreachable { slot: u32 },
}

impl ShapeFault {
    /// The number that the fault is printed with.
    pub fn number(self) -> u8
        ensures number { result ≡ shape_fault_number self }
        ensures known { is_fault result ≡ true }
    {
        match self {
            ShapeFault::JumpBackward { .. } => 30,
            ShapeFault::JumpOutside { .. } => 31,
            ShapeFault::JumpIntoWide { .. } => 32,
            ShapeFault::FallsOff { .. } => 33,
            ShapeFault::Unreachable { .. } => 34,
        }
    }

    /// The numbers of the fields that the fault's text prints.
    pub fn fields(self) -> Fields
        ensures { result ≡ shape_fault_fields self }
    {
        match self {
            ShapeFault::JumpBackward { slot } => Fields::One(u64::from(slot)),
            ShapeFault::JumpOutside { slot } => Fields::One(u64::from(slot)),
            ShapeFault::JumpIntoWide { slot } => Fields::One(u64::from(slot)),
            ShapeFault::FallsOff { slot } => Fields::One(u64::from(slot)),
            ShapeFault::Unreachable { slot } => Fields::One(u64::from(slot)),
        }
    }
}
