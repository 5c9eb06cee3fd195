//! One slot read as an instruction, by its class.

ghost use Rattle.std.specs.Prelude.{◌≡◌};
ghost use Rattle.ebpf_decode.specs.InstructionReading.{class_of, source_bit_of, operation_of_slot, size_of, mode_of, source_at, exactly, whole};
ghost use Rattle.ebpf_decode.specs.InstructionReading.{begun, reading_in};

use crate::fault::SlotFault;
use crate::insn::Insn;
use crate::slot::CodeSlot;
use crate::version::Version;
use crate::wide::{SlotReading, WideHead};
use crate::{codes, encoding};
use isa::{Class, Mode, SourceOperand, Width};

/// An instruction that ends with its first slot.
pub(crate) fn whole(read: Result<Insn, SlotFault>) -> Result<SlotReading, SlotFault>
    ensures { result ≡ whole read }
{
    match read {
        Ok(insn) => Ok(SlotReading::Whole(insn)),
        Err(fault) => Err(fault),
    }
}

/// An instruction that waits for its second slot.
fn begun(read: Result<WideHead, SlotFault>) -> Result<SlotReading, SlotFault>
    ensures { result ≡ begun read }
{
    match read {
        Ok(head) => Ok(SlotReading::Head(head)),
        Err(fault) => Err(fault),
    }
}

impl CodeSlot {
    /// What a slot returns that ends no wide instruction, or its first fault.
    #[tactic(auto, unfolding(crate::specs::InstructionReading::reading_in))]
    pub(crate) fn reading(self, version: Version) -> Result<SlotReading, SlotFault>
        ensures { result ≡ reading_in version (class_of self) self }
    {
        match self.class() {
            Class::Ld => begun(self.head(version)),
            Class::Ldx => whole(self.load()),
            Class::St => whole(self.store_immediate()),
            Class::Stx => whole(self.store()),
            Class::Alu => whole(self.arithmetic(Width::Bits32)),
            Class::Alu64 => whole(self.arithmetic(Width::Bits64)),
            Class::Jmp => whole(self.jump(Width::Bits64)),
            Class::Jmp32 => whole(self.jump(Width::Bits32)),
        }
    }

    /// The class: the low three bits of the opcode.
    pub(crate) fn class(self) -> Class
        ensures { result ≡ class_of self }
    {
        Class::of_opcode(self.opcode)
    }

    /// The operation of arithmetic or a jump: the high four bits of the opcode.
    pub(crate) fn code(self) -> u8
        ensures { result ≡ operation_of_slot self }
    {
        self.opcode / 16
    }

    /// The size of a load or a store.
    pub(crate) fn size(self) -> u8
        ensures { result ≡ size_of self }
    {
        self.opcode / 8 % 4
    }

    /// The mode of a load or a store: the high three bits of the opcode.
    pub(crate) fn mode(self) -> Option<Mode>
        ensures { result ≡ mode_of self }
    {
        Mode::of_opcode(self.opcode)
    }

    /// The second operand of arithmetic or a conditional jump, or fault 17.
    #[tactic(auto, unfolding(crate::specs::InstructionReading::source_at))]
    pub(crate) fn source(self) -> Result<SourceOperand, SlotFault>
        ensures { result ≡ source_at self }
    {
        if self.opcode / 8 % 2 == 0 {
            return Ok(SourceOperand::Imm(self.immediate));
        }
        let src = codes::register_at(self.src)?;
        Ok(SourceOperand::Reg(src))
    }

    /// The instruction, where this slot is its encoding, and else fault 18: then the slot differs from it in a field that the
    /// instruction does not use.
    #[tactic(auto, unfolding(crate::specs::InstructionReading::exactly))]
    pub(crate) fn exactly(self, insn: Insn) -> Result<Insn, SlotFault>
        ensures { result ≡ exactly self insn }
    {
        if self.is_same(encoding::slot_of(insn)) {
            Ok(insn)
        } else {
            Err(SlotFault::FieldNotZero)
        }
    }
}
