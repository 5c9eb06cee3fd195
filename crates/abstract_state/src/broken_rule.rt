//! Why an instruction may not run in a state.

use isa::Register;

/// The first rule that an instruction breaks; the verifier adds the slot. A register is named where the rule is about one.
#[derive(Clone, Copy, Debug, PartialEq, Eq)]
pub enum BrokenRule {
    /// 35: an instruction reads a register that is unset.
    UnsetRegister(Register),
    /// 36: the register's kind is not one that the instruction takes.
    WrongKind(Register),
    /// 37: outside what is known to lie in the packet.
    PacketBounds,
    /// 38: outside the 512 bytes of the stack.
    StackBounds,
    /// 39: a byte of the stack that was not written.
    StackUnset,
    /// 40: outside a map's value.
    ValueBounds,
    /// 41: the address is not a multiple of the access's size.
    Misaligned,
    /// 42: the context has no such field of this size, or it is written.
    ContextAccess,
    /// 43: R10 would be written.
    ReadOnlyFp,
    /// 44: no helper of this number.
    UnknownHelper,
    /// 45: an argument of a call is of the wrong kind.
    BadArgument(Register),
    /// 46: a pointer would become readable as a number.
    PointerLeak,
    /// 47: no map at this place of the image's list.
    UnknownMap,
    /// 49: `ldval` names a map that is not an array.
    NotArrayMap,
}
