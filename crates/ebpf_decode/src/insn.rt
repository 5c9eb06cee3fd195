//! An instruction with its fields, for the whole of RFC 9669's table that images may use.

ghost use Rattle.std.specs.Prelude.{◌≡◌, ◌≤◌};
ghost use Rattle.ebpf_decode.specs.InstructionEncoding.{FieldsFit, slot_count};
ghost use Rattle.ebpf_decode.specs.Jumps.{jump_distance, jump_target};
ghost use Rattle.ebpf_decode.specs.Versions.{is_in_version};

use crate::version::Version;
use isa::{
    AluOp, AtomicOp, ByteOrder, Extension, Register, ShortExtension, Size, SourceOperand,
    SwapWidth, Test, Width,
};

/// An instruction (RFC 9669, sections 3 to 5). A wide instruction is one, though it takes two slots; distances count slots
/// from the slot after the jump.
#[derive(Clone, Copy, Debug, PartialEq, Eq)]
pub enum Insn {
    /// `dst = dst op source` (classes ALU and ALU64).
    Alu {
        width: Width,
        op: AluOp,
        dst: Register,
        source: SourceOperand,
    },
    /// `dst = -dst`.
    Neg {
        width: Width,
        dst: Register,
    },
    /// `dst` is the low part of `src`, sign-extended to 64 bits.
    Movsx {
        extension: Extension,
        dst: Register,
        src: Register,
    },
    /// `dst` is the low part of `src`, sign-extended to 32 bits and then zero-extended.
    Movsx32 {
        extension: ShortExtension,
        dst: Register,
        src: Register,
    },
    /// The low bytes of `dst` in an order, zero-extended.
    End {
        order: ByteOrder,
        swap_width: SwapWidth,
        dst: Register,
    },
    /// Jumps by the offset.
    Ja {
        distance: i16,
    },
    /// Jumps by the immediate.
    Ja32 {
        distance: i32,
    },
    /// Jumps where the test of `dst` against the source holds.
    JumpIf {
        width: Width,
        test: Test,
        dst: Register,
        source: SourceOperand,
        distance: i16,
    },
    /// `dst` is the value at `[src + offset]`, zero-extended.
    Ldx {
        size: Size,
        dst: Register,
        src: Register,
        offset: i16,
    },
    /// `dst` is the value at `[src + offset]`, sign-extended.
    Ldxs {
        extension: Extension,
        dst: Register,
        src: Register,
        offset: i16,
    },
    /// The value at `[dst + offset]` becomes the immediate, sign-extended and then cut.
    St {
        size: Size,
        dst: Register,
        offset: i16,
        immediate: i32,
    },
    /// The value at `[dst + offset]` becomes the low part of `src`.
    Stx {
        size: Size,
        dst: Register,
        src: Register,
        offset: i16,
    },
    /// The value at `[dst + offset]` is changed in one step.
    AtomicUpdate {
        width: Width,
        op: AtomicOp,
        dst: Register,
        src: Register,
        offset: i16,
    },
    /// `dst` is a number of 64 bits (wide, source 0).
    Lddw {
        dst: Register,
        value: u64,
    },
    /// `dst` is the map at a place of the image's list (wide, source 1).
    Ldmap {
        dst: Register,
        map: i32,
    },
    /// `dst` is the address of the byte at an offset of a map's value, the first value of the map at a place of the image's list
    /// (wide, source 2). Version 2 alone has it.
    Ldval {
        dst: Register,
        map: i32,
        offset: u32,
    },
    /// Calls the helper of this number.
    CallHelper {
        helper: i32,
    },
    /// Ends the run.
    Exit,
}

impl Insn {
    /// How many slots the instruction takes: a wide one two, any other one.
    #[tactic(auto, unfolding(crate::specs::InstructionEncoding::slot_count))]
    pub fn slot_count(self) -> u32
        ensures count { result ≡ slot_count self }
        ensures few { result ≤ 2 }
    {
        match self {
            Insn::Lddw { .. } | Insn::Ldmap { .. } | Insn::Ldval { .. } => 2,
            _ => 1,
        }
    }

    /// Whether images of this version may have the instruction.
    #[tactic(auto, unfolding(crate::specs::Versions::is_in_version))]
    pub fn is_in_version(self, version: Version) -> bool
        ensures { result ≡ is_in_version version self }
    {
        match self {
            Insn::Ldval { .. } => version.has_value_addresses(),
            _ => true,
        }
    }

    /// How far the instruction may jump, in slots from the slot after it; none of an instruction that is no jump.
    #[tactic(auto, unfolding(crate::specs::Jumps::jump_distance))]
    pub fn jump_distance(self) -> Option<i32>
        ensures { result ≡ jump_distance self }
    {
        match self {
            Insn::Ja { distance } => Some(i32::from(distance)),
            Insn::Ja32 { distance } => Some(distance),
            Insn::JumpIf { distance, .. } => Some(i32::from(distance)),
            _ => None,
        }
    }

    /// Where the instruction in this slot jumps: the slot after it, plus the distance; none of an instruction that is no jump.
    /// It may be below 0, or past the last slot.
    pub fn target(self, slot: u32) -> Option<i64>
        ensures { result ≡ jump_target slot self }
    {
        match self.jump_distance() {
            Some(distance) => Some(i64::from(slot) + 1 + i64::from(distance)),
            None => None,
        }
    }

    /// The fact that the numbers of an instruction are in their types' ranges.
    #[tactic(auto, unfolding(crate::specs::InstructionEncoding::FieldsFit))]
    pub fn fields_fit(self)
        ensures { FieldsFit self }
    {}
}
