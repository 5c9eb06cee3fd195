//! Why a program is rejected.

ghost use Rattle.std.specs.Prelude.{◌≡◌, true};
ghost use Rattle.faults.specs.Explanations.{is_fault};
ghost use Rattle.verifier.specs.Rejects.{reject_of_shape, reject_of_rule, reject_slot, reject_number, reject_fields};

use abstract_state::BrokenRule;
use faults::Fields;
use image_shape::ShapeFault;
use thiserror::Error;

/// The first rule that a program breaks, with the slot of the instruction and, where the rule is about one, the register's number.
/// docs/FAULTS.md says when each is answered, and in which order.
#[derive(Clone, Copy, Debug, Error, PartialEq, Eq)]
pub enum Reject {
    /// 30: a jump goes back.
    #[error("fault 30 JumpBackward slot {slot}")]
    JumpBackward { slot: u32 },
    /// 31: a jump leaves the program.
    #[error("fault 31 JumpOutside slot {slot}")]
    JumpOutside { slot: u32 },
    /// 32: a jump goes into a wide instruction.
    #[error("fault 32 JumpIntoWide slot {slot}")]
    JumpIntoWide { slot: u32 },
    /// 33: a run could go on past the last slot.
    #[error("fault 33 FallsOff slot {slot}")]
    FallsOff { slot: u32 },
    /// 34: no path leads to the instruction.
    #[error("fault 34 Unreachable slot {slot}")]
    Unreachable { slot: u32 },
    /// 35: an unset register is read.
    #[error("fault 35 UnsetRegister slot {slot} register {register}")]
    UnsetRegister { slot: u32, register: u32 },
    /// 36: a register's kind is none that the instruction takes.
    #[error("fault 36 WrongKind slot {slot} register {register}")]
    WrongKind { slot: u32, register: u32 },
    /// 37: outside what is known to lie in the packet.
    #[error("fault 37 PacketBounds slot {slot}")]
    PacketBounds { slot: u32 },
    /// 38: outside the stack.
    #[error("fault 38 StackBounds slot {slot}")]
    StackBounds { slot: u32 },
    /// 39: a byte of the stack that was not written.
    #[error("fault 39 StackUnset slot {slot}")]
    StackUnset { slot: u32 },
    /// 40: outside a map's value.
    #[error("fault 40 ValueBounds slot {slot}")]
    ValueBounds { slot: u32 },
    /// 41: no multiple of the access's size.
    #[error("fault 41 Misaligned slot {slot}")]
    Misaligned { slot: u32 },
    /// 42: no field of the context.
    #[error("fault 42 ContextAccess slot {slot}")]
    ContextAccess { slot: u32 },
    /// 43: R10 would be written.
    #[error("fault 43 ReadOnlyFp slot {slot}")]
    ReadOnlyFp { slot: u32 },
    /// 44: no helper of this number.
    #[error("fault 44 UnknownHelper slot {slot}")]
    UnknownHelper { slot: u32 },
    /// 45: an argument of a call is of the wrong kind.
    #[error("fault 45 BadArgument slot {slot} register {register}")]
    BadArgument { slot: u32, register: u32 },
    /// 46: a pointer would become readable as a number.
    #[error("fault 46 PointerLeak slot {slot}")]
    PointerLeak { slot: u32 },
    /// 47: no map at this place of the image's list.
    #[error("fault 47 UnknownMap slot {slot}")]
    UnknownMap { slot: u32 },
    /// 49: the map in whose value an address is loaded is no array.
    #[error("fault 49 NotArrayMap slot {slot}")]
    NotArrayMap { slot: u32 },
    /// 48: memory was refused.
    #[error("fault 48 Memory")]
    Memory,
}

impl Reject {
    /// The reject of a fault of structure.
    pub(crate) fn of_shape(fault: ShapeFault) -> Reject
        ensures { result ≡ reject_of_shape fault }
    {
        match fault {
            ShapeFault::JumpBackward { slot } => Reject::JumpBackward { slot },
            ShapeFault::JumpOutside { slot } => Reject::JumpOutside { slot },
            ShapeFault::JumpIntoWide { slot } => Reject::JumpIntoWide { slot },
            ShapeFault::FallsOff { slot } => Reject::FallsOff { slot },
            ShapeFault::Unreachable { slot } => Reject::Unreachable { slot },
        }
    }

    /// The reject of a broken rule of kinds.
    pub(crate) fn of_rule(slot: u32, why: BrokenRule) -> Reject
        ensures { result ≡ reject_of_rule slot why }
    {
        match why {
            BrokenRule::UnsetRegister(register) => Reject::UnsetRegister {
                slot,
                register: u32::from(register.number()),
            },
            BrokenRule::WrongKind(register) => Reject::WrongKind {
                slot,
                register: u32::from(register.number()),
            },
            BrokenRule::PacketBounds => Reject::PacketBounds { slot },
            BrokenRule::StackBounds => Reject::StackBounds { slot },
            BrokenRule::StackUnset => Reject::StackUnset { slot },
            BrokenRule::ValueBounds => Reject::ValueBounds { slot },
            BrokenRule::Misaligned => Reject::Misaligned { slot },
            BrokenRule::ContextAccess => Reject::ContextAccess { slot },
            BrokenRule::ReadOnlyFp => Reject::ReadOnlyFp { slot },
            BrokenRule::UnknownHelper => Reject::UnknownHelper { slot },
            BrokenRule::BadArgument(register) => Reject::BadArgument {
                slot,
                register: u32::from(register.number()),
            },
            BrokenRule::PointerLeak => Reject::PointerLeak { slot },
            BrokenRule::UnknownMap => Reject::UnknownMap { slot },
            BrokenRule::NotArrayMap => Reject::NotArrayMap { slot },
        }
    }

    /// The slot of the instruction that breaks the rule: none where memory was refused.
    pub fn slot(self) -> Option<u32>
        ensures { result ≡ reject_slot self }
    {
        match self {
            Reject::JumpBackward { slot }
            | Reject::JumpOutside { slot }
            | Reject::JumpIntoWide { slot }
            | Reject::FallsOff { slot }
            | Reject::Unreachable { slot }
            | Reject::UnsetRegister { slot, .. }
            | Reject::WrongKind { slot, .. }
            | Reject::PacketBounds { slot }
            | Reject::StackBounds { slot }
            | Reject::StackUnset { slot }
            | Reject::ValueBounds { slot }
            | Reject::Misaligned { slot }
            | Reject::ContextAccess { slot }
            | Reject::ReadOnlyFp { slot }
            | Reject::UnknownHelper { slot }
            | Reject::BadArgument { slot, .. }
            | Reject::PointerLeak { slot }
            | Reject::UnknownMap { slot }
            | Reject::NotArrayMap { slot } => Some(slot),
            Reject::Memory => None,
        }
    }

    /// The number that it is printed with.
    pub fn number(self) -> u8
        ensures number { result ≡ reject_number self }
        ensures known { is_fault result ≡ true }
    {
        match self {
            Reject::JumpBackward { .. } => 30,
            Reject::JumpOutside { .. } => 31,
            Reject::JumpIntoWide { .. } => 32,
            Reject::FallsOff { .. } => 33,
            Reject::Unreachable { .. } => 34,
            Reject::UnsetRegister { .. } => 35,
            Reject::WrongKind { .. } => 36,
            Reject::PacketBounds { .. } => 37,
            Reject::StackBounds { .. } => 38,
            Reject::StackUnset { .. } => 39,
            Reject::ValueBounds { .. } => 40,
            Reject::Misaligned { .. } => 41,
            Reject::ContextAccess { .. } => 42,
            Reject::ReadOnlyFp { .. } => 43,
            Reject::UnknownHelper { .. } => 44,
            Reject::BadArgument { .. } => 45,
            Reject::PointerLeak { .. } => 46,
            Reject::UnknownMap { .. } => 47,
            Reject::NotArrayMap { .. } => 49,
            Reject::Memory => 48,
        }
    }

    /// The numbers of the fields that the fault's text prints.
    pub fn fields(self) -> Fields
        ensures { result ≡ reject_fields self }
    {
        match self {
            Reject::JumpBackward { slot } => Fields::One(u64::from(slot)),
            Reject::JumpOutside { slot } => Fields::One(u64::from(slot)),
            Reject::JumpIntoWide { slot } => Fields::One(u64::from(slot)),
            Reject::FallsOff { slot } => Fields::One(u64::from(slot)),
            Reject::Unreachable { slot } => Fields::One(u64::from(slot)),
            Reject::UnsetRegister { slot, register } => Fields::Two(
                u64::from(slot),
                u64::from(register),
            ),
            Reject::WrongKind { slot, register } => Fields::Two(
                u64::from(slot),
                u64::from(register),
            ),
            Reject::PacketBounds { slot } => Fields::One(u64::from(slot)),
            Reject::StackBounds { slot } => Fields::One(u64::from(slot)),
            Reject::StackUnset { slot } => Fields::One(u64::from(slot)),
            Reject::ValueBounds { slot } => Fields::One(u64::from(slot)),
            Reject::Misaligned { slot } => Fields::One(u64::from(slot)),
            Reject::ContextAccess { slot } => Fields::One(u64::from(slot)),
            Reject::ReadOnlyFp { slot } => Fields::One(u64::from(slot)),
            Reject::UnknownHelper { slot } => Fields::One(u64::from(slot)),
            Reject::BadArgument { slot, register } => Fields::Two(
                u64::from(slot),
                u64::from(register),
            ),
            Reject::PointerLeak { slot } => Fields::One(u64::from(slot)),
            Reject::UnknownMap { slot } => Fields::One(u64::from(slot)),
            Reject::NotArrayMap { slot } => Fields::One(u64::from(slot)),
            Reject::Memory => Fields::Empty,
        }
    }
}
