//! Why bytes are no image.

ghost use Rattle.std.specs.Prelude.{◌≡◌, true};
ghost use Rattle.ebpf_decode.specs.declared.fault.DecodeFault.TheVariants.{Memory};
ghost use Rattle.ebpf_decode.specs.InstructionReading.{decode_fault_at};
ghost use Rattle.faults.specs.Explanations.{is_fault};
ghost use Rattle.ebpf_decode.specs.ImageFormat.{fault_number, fault_fields};

use faults::Fields;
use std::alloc::{AllocError, AllocFailed};
use thiserror::Error;

/// What is wrong with a slot. docs/FAULTS.md says when each comes, in which order, and what it leaves.
#[derive(Clone, Copy, Debug, PartialEq, Eq)]
pub enum SlotFault {
    /// 15: no instruction has this opcode with these selecting fields.
    UnknownOpcode,
    /// 16: an instruction of RFC 9669 that images may not have.
    NotInProfile,
    /// 17: a register above R10.
    BadRegister,
    /// 18: a field that the instruction does not use is not zero.
    FieldNotZero,
    /// 19: the second slot of a wide instruction is missing.
    WideCut,
}

/// Why bytes are no image; 15 to 19 are those of `SlotFault`, with the slot. docs/FAULTS.md says when each comes, in which order, and what it leaves.
#[derive(Clone, Copy, Debug, Error, PartialEq, Eq)]
pub enum DecodeFault {
    /// 10: no head of an image, or a cut list of maps.
    #[error("fault 10 BadHead")]
    BadHead,
    /// 11: this map, counted from 0, is one that images may not have.
    #[error("fault 11 BadMap map {map}")]
    BadMap { map: u32 },
    /// 12: no bytes come after the maps.
    #[error("fault 12 Empty")]
    Empty,
    /// 13: the bytes after the maps are no multiple of eight.
    #[error("fault 13 NotWhole")]
    NotWhole,
    /// 14: more than 4096 slots.
    #[error("fault 14 TooLong")]
    TooLong,
    /// 15: `SlotFault::UnknownOpcode` at this slot.
    #[error("fault 15 UnknownOpcode slot {slot}")]
    UnknownOpcode { slot: u32 },
    /// 16: `SlotFault::NotInProfile` at this slot.
    #[error("fault 16 NotInProfile slot {slot}")]
    NotInProfile { slot: u32 },
    /// 17: `SlotFault::BadRegister` at this slot.
    #[error("fault 17 BadRegister slot {slot}")]
    BadRegister { slot: u32 },
    /// 18: `SlotFault::FieldNotZero` at this slot.
    #[error("fault 18 FieldNotZero slot {slot}")]
    FieldNotZero { slot: u32 },
    /// 19: `SlotFault::WideCut` at this slot.
    #[error("fault 19 WideCut slot {slot}")]
    WideCut { slot: u32 },
    /// 20: memory was refused.
    #[error("fault 20 Memory")]
    Memory,
}

impl SlotFault {
    /// The fault of the slot at this place.
    pub(crate) fn at(self, slot: u32) -> DecodeFault
        ensures { result ≡ decode_fault_at slot self }
    {
        match self {
            SlotFault::UnknownOpcode => DecodeFault::UnknownOpcode { slot },
            SlotFault::NotInProfile => DecodeFault::NotInProfile { slot },
            SlotFault::BadRegister => DecodeFault::BadRegister { slot },
            SlotFault::FieldNotZero => DecodeFault::FieldNotZero { slot },
            SlotFault::WideCut => DecodeFault::WideCut { slot },
        }
    }
}

impl DecodeFault {
    /// The number that the fault is printed with.
    pub fn number(self) -> u8
        ensures number { result ≡ fault_number self }
        ensures known { is_fault result ≡ true }
    {
        match self {
            DecodeFault::BadHead => 10,
            DecodeFault::BadMap { .. } => 11,
            DecodeFault::Empty => 12,
            DecodeFault::NotWhole => 13,
            DecodeFault::TooLong => 14,
            DecodeFault::UnknownOpcode { .. } => 15,
            DecodeFault::NotInProfile { .. } => 16,
            DecodeFault::BadRegister { .. } => 17,
            DecodeFault::FieldNotZero { .. } => 18,
            DecodeFault::WideCut { .. } => 19,
            DecodeFault::Memory => 20,
        }
    }

    /// The numbers of the fields that the fault's text prints.
    pub fn fields(self) -> Fields
        ensures { result ≡ fault_fields self }
    {
        match self {
            DecodeFault::BadMap { map } => Fields::One(u64::from(map)),
            DecodeFault::UnknownOpcode { slot } => Fields::One(u64::from(slot)),
            DecodeFault::NotInProfile { slot } => Fields::One(u64::from(slot)),
            DecodeFault::BadRegister { slot } => Fields::One(u64::from(slot)),
            DecodeFault::FieldNotZero { slot } => Fields::One(u64::from(slot)),
            DecodeFault::WideCut { slot } => Fields::One(u64::from(slot)),
            _ => Fields::Empty,
        }
    }
}

impl From<AllocError> for DecodeFault {
    ghost from_gives = { λ _ e. e ≡ Memory };

    fn from(_e: AllocError) -> DecodeFault {
        DecodeFault::Memory
    }
}

impl<T: Drop> From<AllocFailed<T>> for DecodeFault {
    ghost from_gives = { λ _ e. e ≡ Memory };

    fn from(_e: AllocFailed<T>) -> DecodeFault {
        DecodeFault::Memory
    }
}
