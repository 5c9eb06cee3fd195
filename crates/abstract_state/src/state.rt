//! What is known of a run at a slot.

ghost use Rattle.std.specs.Prelude.{◌≡◌};
ghost use Rattle.abstract_state.specs.States.{kind_of, with_kind, opening_state};

use crate::kind::{Kind, StackWord};
use crate::places::STACK_SIZE;
use ebpf_decode::Version;
use isa::Register;

/// What is known of a run's registers and stack before the instruction at a slot, whichever way led there.
#[derive(Clone, Copy)]
pub struct State {
    /// The version of the program's image, whose rules hold.
    pub version: Version,
    /// R0 first.
    pub registers: [Kind; 11],
    /// The 512 bytes of the stack as words, the lowest first.
    pub stack: [StackWord; 64],
    /// How many bytes from the packet's start are known to lie in the packet.
    pub start_range: u32,
}

impl State {
    /// What is known where a run begins: R1 is the context, R10 the frame pointer, and nothing else is written.
    pub fn opening(version: Version) -> State
        ensures { result ≡ opening_state version }
    {
        let unset = Kind::Unset;
        State {
            version,
            registers: [
                unset,
                Kind::Ctx,
                unset,
                unset,
                unset,
                unset,
                unset,
                unset,
                unset,
                unset,
                Kind::Stack(STACK_SIZE),
            ],
            stack: [StackWord::Bytes([false; 8]); 64],
            start_range: 0,
        }
    }

    /// What is known of a register.
    pub fn kind(&self, register: Register) -> Kind
        ensures { result ≡ kind_of self.now register }
    {
        self.registers[register.number() as usize]
    }

    /// Writes what is known of a register.
    pub(crate) fn set(&mut self, register: Register, kind: Kind)
        ensures { self.new ≡ with_kind self.old register kind }
    {
        self.registers[register.number() as usize] = kind;
    }
}
