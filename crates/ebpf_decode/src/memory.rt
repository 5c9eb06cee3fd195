//! Loads, stores and atomic operations as they are in a slot (classes LDX, ST and STX; RFC 9669, section 5).

ghost use Rattle.std.specs.Prelude.{◌≡◌};
ghost use Rattle.ebpf_decode.specs.InstructionReading.{ldx_at, ldxs_at, st_at, stx_at, atomic_at, mode_of, load_at, store_immediate_at};
ghost use Rattle.ebpf_decode.specs.InstructionReading.{store_at};

use crate::codes;
use crate::fault::SlotFault;
use crate::insn::Insn;
use crate::slot::CodeSlot;
use isa::Mode;

impl CodeSlot {
    /// The load of a slot of class LDX, or its first fault.
    #[tactic(auto, unfolding(crate::specs::InstructionReading::load_at))]
    pub(crate) fn load(self) -> Result<Insn, SlotFault>
        ensures { result ≡ load_at (mode_of self) self }
    {
        match self.mode() {
            Some(Mode::Mem) => self.ldx(),
            Some(Mode::MemSx) => self.ldxs(),
            _ => Err(SlotFault::UnknownOpcode),
        }
    }

    /// The store of a slot of class ST, or its first fault.
    #[tactic(auto, unfolding(crate::specs::InstructionReading::store_immediate_at))]
    pub(crate) fn store_immediate(self) -> Result<Insn, SlotFault>
        ensures { result ≡ store_immediate_at (mode_of self) self }
    {
        match self.mode() {
            Some(Mode::Mem) => self.st(),
            _ => Err(SlotFault::UnknownOpcode),
        }
    }

    /// The store or atomic operation of a slot of class STX, or its first fault.
    #[tactic(auto, unfolding(crate::specs::InstructionReading::store_at))]
    pub(crate) fn store(self) -> Result<Insn, SlotFault>
        ensures { result ≡ store_at (mode_of self) self }
    {
        match self.mode() {
            Some(Mode::Mem) => self.stx(),
            Some(Mode::Atomic) => self.atomic(),
            _ => Err(SlotFault::UnknownOpcode),
        }
    }

    #[tactic(auto, unfolding(crate::specs::InstructionReading::ldx_at))]
    fn ldx(self) -> Result<Insn, SlotFault>
        ensures { result ≡ ldx_at self }
    {
        let size = codes::size_at(self.size())?;
        let dst = codes::register_at(self.dst)?;
        let src = codes::register_at(self.src)?;
        self.exactly(Insn::Ldx {
            size,
            dst,
            src,
            offset: self.offset,
        })
    }

    #[tactic(auto, unfolding(crate::specs::InstructionReading::ldxs_at))]
    fn ldxs(self) -> Result<Insn, SlotFault>
        ensures { result ≡ ldxs_at self }
    {
        let extension = codes::extension_size_at(self.size())?;
        let dst = codes::register_at(self.dst)?;
        let src = codes::register_at(self.src)?;
        self.exactly(Insn::Ldxs {
            extension,
            dst,
            src,
            offset: self.offset,
        })
    }

    #[tactic(auto, unfolding(crate::specs::InstructionReading::st_at))]
    fn st(self) -> Result<Insn, SlotFault>
        ensures { result ≡ st_at self }
    {
        let size = codes::size_at(self.size())?;
        let dst = codes::register_at(self.dst)?;
        self.exactly(Insn::St {
            size,
            dst,
            offset: self.offset,
            immediate: self.immediate,
        })
    }

    #[tactic(auto, unfolding(crate::specs::InstructionReading::stx_at))]
    fn stx(self) -> Result<Insn, SlotFault>
        ensures { result ≡ stx_at self }
    {
        let size = codes::size_at(self.size())?;
        let dst = codes::register_at(self.dst)?;
        let src = codes::register_at(self.src)?;
        self.exactly(Insn::Stx {
            size,
            dst,
            src,
            offset: self.offset,
        })
    }

    #[tactic(auto, unfolding(crate::specs::InstructionReading::atomic_at))]
    fn atomic(self) -> Result<Insn, SlotFault>
        ensures { result ≡ atomic_at self }
    {
        let width = codes::width_at(self.size())?;
        let op = codes::atomic_op_at(self.immediate)?;
        let dst = codes::register_at(self.dst)?;
        let src = codes::register_at(self.src)?;
        self.exactly(Insn::AtomicUpdate {
            width,
            op,
            dst,
            src,
            offset: self.offset,
        })
    }
}
