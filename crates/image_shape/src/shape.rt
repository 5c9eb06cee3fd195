//! The tests of a program's structure.

ghost use Rattle.std.specs.Prelude.{◌≤◌, IfOk, IfErr, IsOk};
ghost use Rattle.ebpf_decode.specs.InstructionEncoding.{total_slots};
ghost use Rattle.image_shape.specs.Structure.{HasShape, HasSoundEdges, IsFirstFault};

use crate::fault::ShapeFault;
use crate::layout::Layout;
use crate::reach::check_reach;
use ebpf_decode::{Image, Insn};

/// Tests that a program has structure: each jump goes forward to an instruction, no instruction but exit and unconditional
/// jumps is at the end, and a path of edges leads from slot 0 to each instruction, where both edges of a conditional jump
/// count (RFC 9669, section 4.3).
///
/// Refused with the first of 30 to 33 by rising slot, an instruction's lowest number first, and, where there is none of these,
/// with 34 for the first instruction to which no path leads. It takes no memory, and time linear in the program.
pub fn check_shape(image: &Image) -> Result<(), ShapeFault>
    ensures shape { IfOk result (λ _. HasShape image.now.code) }
    ensures exact { HasShape image.now.code → IsOk result }
    ensures fault { IfErr result (IsFirstFault image.now.code) }
{
    let code = image.code();
    check_edges(code)?;
    check_reach(code)
}

/// Tests the edges of all instructions, by rising slot.
fn check_edges(code: &[Insn]) -> Result<(), ShapeFault>
    requires { total_slots code.now ≤ 4096 }
    ensures edges { IfOk result (λ _. HasSoundEdges code.now) }
    ensures fault { IfErr result (IsFirstFault code.now) }
{
    let layout = Layout::of(code);
    let mut slot = 0;
    for insn in code {
        match layout.instruction_fault(slot, *insn) {
            Some(fault) => return Err(fault),
            None => slot += insn.slot_count() as usize,
        }
    }
    Ok(())
}
