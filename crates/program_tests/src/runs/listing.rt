//! Parts of programs, by the words of a listing.

use ebpf_decode::Insn;

pub(super) const EXIT: Insn = Insn::Exit;

/// With 2 in R0, a jump by the distance where the packet has fewer bytes than the size; else it begins at R2 and has them.
macro_rules! checked {
    ($size:expr, $distance:expr) => {
        [
            test_support::load!(isa::Size::U32, isa::Register::R2, isa::Register::R1, 0),
            test_support::load!(isa::Size::U32, isa::Register::R3, isa::Register::R1, 4),
            test_support::mov!(isa::Register::R4, isa::Register::R2),
            test_support::add!(isa::Register::R4, $size),
            test_support::number!(isa::Register::R0, 2),
            test_support::jump!(
                isa::Test::Gt,
                isa::Register::R4,
                isa::SourceOperand::Reg(isa::Register::R3),
                $distance
            ),
        ]
    };
}

pub(super) use checked;
