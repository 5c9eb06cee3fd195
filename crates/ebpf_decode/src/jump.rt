//! Jumps, calls and exits as they are in a slot (classes JMP and JMP32; RFC 9669, section 4.3).

ghost use Rattle.std.specs.Prelude.{◌≡◌};
ghost use Rattle.ebpf_decode.specs.InstructionReading.{conditional_at, call_at, jump_at};

use crate::fault::SlotFault;
use crate::insn::Insn;
use crate::slot::CodeSlot;
use crate::{codes, encoding};
use isa::Width;

impl CodeSlot {
    /// The jump, call or exit of a slot of class JMP or JMP32, or its first fault.
    #[tactic(auto, unfolding(crate::specs::InstructionReading::jump_at))]
    pub(crate) fn jump(self, width: Width) -> Result<Insn, SlotFault>
        ensures { result ≡ jump_at width self }
    {
        if self.opcode == encoding::ja_opcode() {
            return self.exactly(Insn::Ja {
                distance: self.offset,
            });
        }
        if self.opcode == encoding::ja32_opcode() {
            return self.exactly(Insn::Ja32 {
                distance: self.immediate,
            });
        }
        if self.opcode == encoding::call_opcode() {
            return self.call();
        }
        if self.opcode == encoding::exit_opcode() {
            return self.exactly(Insn::Exit);
        }
        self.conditional(width)
    }

    #[tactic(auto, unfolding(crate::specs::InstructionReading::conditional_at))]
    fn conditional(self, width: Width) -> Result<Insn, SlotFault>
        ensures { result ≡ conditional_at width self }
    {
        let test = codes::test_at(self.code())?;
        let dst = codes::register_at(self.dst)?;
        let source = self.source()?;
        self.exactly(Insn::JumpIf {
            width,
            test,
            dst,
            source,
            distance: self.offset,
        })
    }

    /// Source 0 calls a helper. Program-local calls (1) and kernel functions (2) are not in the profile.
    #[tactic(auto, unfolding(crate::specs::InstructionReading::call_at))]
    fn call(self) -> Result<Insn, SlotFault>
        ensures { result ≡ call_at self }
    {
        match self.src {
            0 => self.exactly(Insn::CallHelper {
                helper: self.immediate,
            }),
            1 | 2 => Err(SlotFault::NotInProfile),
            _ => Err(SlotFault::UnknownOpcode),
        }
    }
}
