//! Where the instructions of a program begin, and the faults of their edges.

ghost use Rattle.std.specs.Prelude.{◌≡◌, ℕ, ◌≤◌, ◌<◌, false, length, slice_index_or, Some};
ghost use Rattle.ebpf_decode.specs.InstructionEncoding.{total_slots};
ghost use Rattle.image_shape.specs.Structure.{jump_fault, fall_fault, instruction_fault};
ghost use Rattle.image_shape.specs.Layouts.{IsLayout};

use crate::edges::falls_through;
use crate::fault::ShapeFault;
use ebpf_decode::Insn;
use ebpf_decode::image::MAX_SLOTS;

/// Where the instructions of a program begin, and how many slots it has.
#[derive(Drop)]
pub(crate) struct Layout {
    begins: [bool; MAX_SLOTS],
    total: usize,
}

impl Layout {
    /// The layout of a program of at most 4096 slots.
    pub(crate) fn of(code: &[Insn]) -> Layout
        requires { total_slots code.now ≤ 4096 }
        ensures { IsLayout code.now result.begins result.total }
    {
        let mut begins = [false; MAX_SLOTS];
        let mut slot = 0;
        for insn in code {
            begins[slot] = true;
            slot += insn.slot_count() as usize;
        }
        Layout {
            begins,
            total: slot,
        }
    }

    /// The fault of a jump from a slot to this target.
    fn jump_fault(&self, slot: usize, target: i64) -> Option<ShapeFault>
        requires small { self.now.total ≤ 4096 }
        requires within { slot < self.now.total }
        ensures { result ≡ jump_fault (λ k. slice_index_or self.now.begins k false) self.now.total slot (Some target) }
    {
        if target <= slot as i64 {
            Some(ShapeFault::JumpBackward { slot: slot as u32 })
        } else if self.total as i64 <= target {
            Some(ShapeFault::JumpOutside { slot: slot as u32 })
        } else if self.begins[target as usize] {
            None
        } else {
            Some(ShapeFault::JumpIntoWide { slot: slot as u32 })
        }
    }

    /// The fault of going on at the slot after the instruction.
    fn fall_fault(&self, slot: usize, insn: Insn) -> Option<ShapeFault>
        requires small { self.now.total ≤ 4096 }
        requires within { slot < self.now.total }
        ensures { result ≡ fall_fault self.now.total slot insn }
    {
        if falls_through(insn) && self.total <= slot + insn.slot_count() as usize {
            Some(ShapeFault::FallsOff { slot: slot as u32 })
        } else {
            None
        }
    }

    /// The lowest fault of the instruction at this slot.
    pub(crate) fn instruction_fault(&self, slot: usize, insn: Insn) -> Option<ShapeFault>
        requires small { self.now.total ≤ 4096 }
        requires within { slot < self.now.total }
        ensures { result ≡ instruction_fault (λ k. slice_index_or self.now.begins k false) self.now.total slot insn }
    {
        let jump = match insn.target(slot as u32) {
            Some(target) => self.jump_fault(slot, target),
            None => None,
        };
        match jump {
            Some(fault) => Some(fault),
            None => self.fall_fault(slot, insn),
        }
    }
}
