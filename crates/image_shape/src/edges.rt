//! Where a run may go on after an instruction.

ghost use Rattle.std.specs.Prelude.{◌≡◌};
ghost use Rattle.image_shape.specs.Edges.{falls_through};

use ebpf_decode::Insn;

/// Whether a run may go on at the slot after the instruction: so it is of all but exit and unconditional jumps.
#[tactic(auto, unfolding(crate::specs::Edges::falls_through))]
pub fn falls_through(insn: Insn) -> bool
    ensures { result ≡ falls_through insn }
{
    match insn {
        Insn::Ja { .. } | Insn::Ja32 { .. } | Insn::Exit => false,
        _ => true,
    }
}
