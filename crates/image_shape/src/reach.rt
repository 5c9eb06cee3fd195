//! Which instructions can be reached.

ghost use Rattle.std.specs.Prelude.{◌≡◌, ℕ, ◌≤◌, ◌<◌, IfOk, IfErr};
ghost use Rattle.ebpf_decode.specs.InstructionEncoding.{total_slots};
ghost use Rattle.image_shape.specs.Edges.{IsFall, IsJump, IsEdge};
ghost use Rattle.image_shape.specs.Structure.{HasShape, HasSoundEdges, IsFirstFault};
ghost use Rattle.image_shape.specs.Layouts.{HasNoNegativeTarget, IsMarked};

use crate::edges::falls_through;
use crate::fault::ShapeFault;
use ebpf_decode::Insn;
use ebpf_decode::image::MAX_SLOTS;

/// Tests that a path of edges leads from slot 0 to each instruction. All edges go up, so one sweep by rising slot finds it out.
pub(crate) fn check_reach(code: &[Insn]) -> Result<(), ShapeFault>
    requires few { total_slots code.now ≤ 4096 }
    requires edges { HasSoundEdges code.now }
    ensures shape { IfOk result (λ _. HasShape code.now) }
    ensures fault { IfErr result (IsFirstFault code.now) }
{
    let mut reached = [false; MAX_SLOTS];
    reached[0] = true;
    let mut slot = 0;
    for insn in code {
        if !reached[slot] {
            return Err(ShapeFault::Unreachable { slot: slot as u32 });
        }
        mark_edges(&mut reached, slot, *insn);
        slot += insn.slot_count() as usize;
    }
    Ok(())
}

/// Marks the slots at which a run may go on after the instruction.
fn mark_edges(reached: &mut [bool; MAX_SLOTS], slot: usize, insn: Insn)
    requires within { slot < 4096 }
    requires targets { (target : ℕ) → IsEdge slot insn target → target < 4096 }
    requires not_negative { HasNoNegativeTarget slot insn }
    ensures { IsMarked (IsEdge slot insn) reached.old reached.new }
{
    mark_next(reached, slot, insn);
    mark_target(reached, slot, insn);
}

/// Marks the slot after the instruction, where a run may go on there.
fn mark_next(reached: &mut [bool; MAX_SLOTS], slot: usize, insn: Insn)
    requires within { slot < 4096 }
    requires targets { (target : ℕ) → IsFall slot insn target → target < 4096 }
    ensures { IsMarked (IsFall slot insn) reached.old reached.new }
{
    if falls_through(insn) {
        reached[slot + insn.slot_count() as usize] = true;
    }
}

/// Marks the target of a jump.
fn mark_target(reached: &mut [bool; MAX_SLOTS], slot: usize, insn: Insn)
    requires within { slot < 4096 }
    requires targets { (target : ℕ) → IsJump slot insn target → target < 4096 }
    requires not_negative { HasNoNegativeTarget slot insn }
    ensures { IsMarked (IsJump slot insn) reached.old reached.new }
{
    if let Some(target) = insn.target(slot as u32) {
        reached[target as usize] = true;
    }
}
