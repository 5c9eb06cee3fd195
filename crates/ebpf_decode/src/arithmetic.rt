//! Arithmetic, byte swaps and moves as they are in a slot (classes ALU and ALU64; RFC 9669, sections 4.1 and 4.2).

ghost use Rattle.std.specs.Prelude.{◌≡◌};
ghost use Rattle.ebpf_decode.specs.InstructionReading.{binary_at, neg_at, movsx_at, byte_swap_at, arithmetic_at};

use crate::fault::SlotFault;
use crate::insn::Insn;
use crate::slot::CodeSlot;
use crate::{codes, encoding};
use isa::Width;

impl CodeSlot {
    /// The arithmetic instruction of a slot of class ALU or ALU64, or its first fault.
    #[tactic(auto, unfolding(crate::specs::InstructionReading::arithmetic_at))]
    pub(crate) fn arithmetic(self, width: Width) -> Result<Insn, SlotFault>
        ensures { result ≡ arithmetic_at width self }
    {
        if self.opcode == encoding::neg_opcode(width) {
            return self.neg(width);
        }
        if self.code() == codes::END {
            return self.byte_swap();
        }
        if self.opcode == encoding::movsx_opcode(width) && self.offset != 0 {
            return self.movsx(width);
        }
        self.binary(width)
    }

    #[tactic(auto, unfolding(crate::specs::InstructionReading::binary_at))]
    fn binary(self, width: Width) -> Result<Insn, SlotFault>
        ensures { result ≡ binary_at width self }
    {
        let op = codes::alu_op_at(self.code(), self.offset)?;
        let dst = codes::register_at(self.dst)?;
        let source = self.source()?;
        self.exactly(Insn::Alu {
            width,
            op,
            dst,
            source,
        })
    }

    #[tactic(auto, unfolding(crate::specs::InstructionReading::neg_at))]
    fn neg(self, width: Width) -> Result<Insn, SlotFault>
        ensures { result ≡ neg_at width self }
    {
        let dst = codes::register_at(self.dst)?;
        self.exactly(Insn::Neg { width, dst })
    }

    #[tactic(auto, unfolding(crate::specs::InstructionReading::movsx_at))]
    fn movsx(self, width: Width) -> Result<Insn, SlotFault>
        ensures { result ≡ movsx_at width self }
    {
        match width {
            Width::Bits64 => self.movsx_to_64(),
            Width::Bits32 => self.movsx_to_32(),
        }
    }

    #[tactic(auto, unfolding(crate::specs::InstructionReading::movsx_at))]
    fn movsx_to_64(self) -> Result<Insn, SlotFault>
        ensures { result ≡ movsx_at Width.Bits64 self }
    {
        let extension = codes::extension_at(self.offset)?;
        let dst = codes::register_at(self.dst)?;
        let src = codes::register_at(self.src)?;
        self.exactly(Insn::Movsx {
            extension,
            dst,
            src,
        })
    }

    #[tactic(auto, unfolding(crate::specs::InstructionReading::movsx_at))]
    fn movsx_to_32(self) -> Result<Insn, SlotFault>
        ensures { result ≡ movsx_at Width.Bits32 self }
    {
        let extension = codes::short_extension_at(self.offset)?;
        let dst = codes::register_at(self.dst)?;
        let src = codes::register_at(self.src)?;
        self.exactly(Insn::Movsx32 {
            extension,
            dst,
            src,
        })
    }

    #[tactic(auto, unfolding(crate::specs::InstructionReading::byte_swap_at))]
    fn byte_swap(self) -> Result<Insn, SlotFault>
        ensures { result ≡ byte_swap_at self }
    {
        let order = codes::order_at(self.opcode)?;
        let swap_width = codes::swap_width_at(self.immediate)?;
        let dst = codes::register_at(self.dst)?;
        self.exactly(Insn::End {
            order,
            swap_width,
            dst,
        })
    }
}
