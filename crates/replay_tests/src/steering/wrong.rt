//! Programs that differ from the shipped one in one line. All of them are accepted.

use super::cases::Difference;
use super::lines::Line::{Do, Jump, JumpIf};
use super::lines::{
    Block, ETHERNET_HEADER, FIRST_WORD, FLOW_DESTINATION, IPV4, LEAST_PACKET, LEFT_OUT, LOW_HALF,
    Line, MORE_FRAGMENTS, MOST_TUNNELLED, NOBODY, NOTRACK, OFFSET_BITS, PLAIN_HEADER, READY, SLOTS,
    UDP, UP,
};
use conntrack::maps;
use ebpf_decode::Insn::{Alu, AtomicUpdate, Ldx, St};
use ebpf_decode::{Image, Insn, Version};
use isa::AluOp::{Add, Mov, Mul, Or, Rsh, Sub, Xor};
use isa::AtomicOp::AtomicAdd;
use isa::Register::{R0, R1, R2, R3, R4, R8, R9, R10};
use isa::Size::{U32, U64};
use isa::SourceOperand::{Imm, Reg};
use isa::Test::{Eq, Gt, Lt, Ne, Set};
use isa::Width::{Bits32, Bits64};
use std::alloc::{AllocError, Global};
use std::process::Abort;
use steer::shipped;
use verifier::{Verified, verify};

/// What is wrong, the block, the line of it that another one represents, that line, and in what its runs differ from the rule.
pub(super) type Wrong = (&'static str, Block, Line, Line, Difference);

#[rattlefmt::skip]
pub(super) static WRONG: [Wrong; 29] = [
    ("any type has a flow", Block::Flow,
        JumpIf { width: Bits64, test: Ne, dst: R3, source: Imm(IPV4), to: Block::Pass },
        LEFT_OUT, Difference::Verdict),
    ("options have a flow", Block::Flow,
        JumpIf { width: Bits64, test: Ne, dst: R3, source: Imm(PLAIN_HEADER), to: Block::Pass },
        LEFT_OUT, Difference::Verdict),
    ("a packet of 27 bytes has a flow", Block::Flow,
        JumpIf { width: Bits64, test: Lt, dst: R9, source: Imm(LEAST_PACKET), to: Block::Pass },
        JumpIf { width: Bits64, test: Lt, dst: R9, source: Imm(LEAST_PACKET - 1), to: Block::Pass }, Difference::Verdict),
    ("a packet that is cut has a flow", Block::Flow,
        JumpIf { width: Bits64, test: Gt, dst: R2, source: Reg(R8), to: Block::Pass },
        LEFT_OUT, Difference::Verdict),
    ("a packet that fills the frame has none", Block::Flow,
        Do(Alu { width: Bits64, op: Add, dst: R2, source: Imm(ETHERNET_HEADER) }),
        Do(Alu { width: Bits64, op: Add, dst: R2, source: Imm(ETHERNET_HEADER + 1) }), Difference::Verdict),
    ("first fragments have a flow", Block::Flow,
        JumpIf { width: Bits64, test: Set, dst: R3, source: Imm(OFFSET_BITS + MORE_FRAGMENTS), to: Block::Pass },
        JumpIf { width: Bits64, test: Set, dst: R3, source: Imm(OFFSET_BITS), to: Block::Pass }, Difference::Verdict),
    ("any protocol has a flow", Block::Flow,
        JumpIf { width: Bits64, test: Ne, dst: R4, source: Imm(UDP), to: Block::Pass },
        LEFT_OUT, Difference::Verdict),
    ("UDP has no flow", Block::Flow,
        JumpIf { width: Bits64, test: Ne, dst: R4, source: Imm(UDP), to: Block::Pass },
        Jump { to: Block::Pass }, Difference::Verdict),
    ("services without their protocol", Block::Key,
        Do(Alu { width: Bits64, op: Or, dst: R3, source: Reg(R4) }),
        LEFT_OUT, Difference::Verdict),
    ("a time to live of 0 is none", Block::Guards,
        JumpIf { width: Bits64, test: Eq, dst: R3, source: Imm(0), to: Block::Drop },
        LEFT_OUT, Difference::Verdict),
    ("1481 bytes are sent", Block::Guards,
        JumpIf { width: Bits64, test: Gt, dst: R9, source: Imm(MOST_TUNNELLED), to: Block::Drop },
        JumpIf { width: Bits64, test: Gt, dst: R9, source: Imm(MOST_TUNNELLED + 1), to: Block::Drop }, Difference::Verdict),
    ("1480 bytes are dropped", Block::Guards,
        JumpIf { width: Bits64, test: Gt, dst: R9, source: Imm(MOST_TUNNELLED), to: Block::Drop },
        JumpIf { width: Bits64, test: Gt, dst: R9, source: Imm(MOST_TUNNELLED - 1), to: Block::Drop }, Difference::Verdict),
    ("no tunnel is needed", Block::Guards,
        JumpIf { width: Bits32, test: Ne, dst: R3, source: Imm(READY), to: Block::Drop },
        LEFT_OUT, Difference::Verdict),
    ("any state of the tunnel is ready", Block::Guards,
        JumpIf { width: Bits32, test: Ne, dst: R3, source: Imm(READY), to: Block::Drop },
        JumpIf { width: Bits32, test: Eq, dst: R3, source: Imm(0), to: Block::Drop }, Difference::Verdict),
    ("tracks in spite of the flag", Block::Tracking,
        JumpIf { width: Bits64, test: Set, dst: R8, source: Imm(NOTRACK), to: Block::Hash },
        LEFT_OUT, Difference::Verdict),
    ("the noted backend need not be up", Block::Tracking,
        JumpIf { width: Bits64, test: Eq, dst: R3, source: Imm(UP), to: Block::Tunnel },
        Jump { to: Block::Tunnel }, Difference::Verdict),
    ("the noted backend is not looked at", Block::Tracking,
        JumpIf { width: Bits64, test: Eq, dst: R3, source: Imm(UP), to: Block::Tunnel },
        LEFT_OUT, Difference::Verdict),
    ("the hash of fifteen bytes", Block::Hash,
        Do(Alu { width: Bits64, op: Mul, dst: R0, source: Reg(R4) }),
        LEFT_OUT, Difference::Verdict),
    ("the owner is not one less", Block::Ring,
        Do(Alu { width: Bits64, op: Sub, dst: R3, source: Imm(1) }),
        LEFT_OUT, Difference::Verdict),
    ("a slot of nobody is looked up", Block::Ring,
        JumpIf { width: Bits64, test: Eq, dst: R3, source: Imm(NOBODY), to: Block::Drop },
        LEFT_OUT, Difference::Calls),
    ("the owner need not be up", Block::Ring,
        JumpIf { width: Bits64, test: Ne, dst: R3, source: Imm(UP), to: Block::Drop },
        LEFT_OUT, Difference::Verdict),
    ("notes in spite of the flag", Block::Ring,
        JumpIf { width: Bits64, test: Set, dst: R8, source: Imm(NOTRACK), to: Block::Tunnel },
        LEFT_OUT, Difference::Note),
    ("notes nothing where no flag is set", Block::Ring,
        JumpIf { width: Bits64, test: Set, dst: R8, source: Imm(NOTRACK), to: Block::Tunnel },
        JumpIf { width: Bits64, test: Eq, dst: R8, source: Imm(0), to: Block::Tunnel }, Difference::Note),
    ("the tunnel leads to the service", Block::Tunnel,
        Do(Alu { width: Bits32, op: Mov, dst: R9, source: Reg(R9) }),
        Do(Ldx { size: U32, dst: R9, src: R10, offset: FLOW_DESTINATION }), Difference::Frame),
    ("the checksum is the sum", Block::Checksum,
        Do(Alu { width: Bits64, op: Xor, dst: R4, source: Imm(LOW_HALF) }),
        LEFT_OUT, Difference::Frame),
    ("the backend's state goes unread", Block::Ring,
        Do(Alu { width: Bits64, op: Rsh, dst: R3, source: Imm(32) }),
        LEFT_OUT, Difference::Verdict),
    ("no count of what passes", Block::Pass,
        Jump { to: Block::Count },
        Jump { to: Block::End }, Difference::Count),
    ("counts by a store", Block::Count,
        Do(AtomicUpdate { width: Bits64, op: AtomicAdd, dst: R0, src: R1, offset: FIRST_WORD }),
        Do(St { size: U64, dst: R0, offset: FIRST_WORD, immediate: 1 }), Difference::Count),
    ("counts by two", Block::Count,
        Do(Alu { width: Bits64, op: Mov, dst: R1, source: Imm(1) }),
        Do(Alu { width: Bits64, op: Mov, dst: R1, source: Imm(2) }), Difference::Count),
];

/// The code with another line in the place of the block's last one that is `old`.
fn changed(alloc: Global, code: &[Insn], wrong: &Wrong) -> Result<Vec<Insn>, AllocError> {
    let (_name, block, old, new, _want) = wrong;
    let mut changed = Vec::from_slice(alloc, code)?;
    if let Some((place, next)) = block.last_place(code, old)
        && let Some(insn) = changed.get_mut(place)
    {
        *insn = new.laid_out(code, next);
    }
    Ok(changed)
}

/// The shipped program for seven slots, with another line in the place of the one that the row names.
pub(super) fn wrong_program(rt: &impl Abort, alloc: Global, wrong: &Wrong) -> Verified {
    let image = shipped(alloc, SLOTS).expect(rt, "the shipped image");
    let code = changed(alloc, image.code(), wrong).expect(rt, "code");
    let maps = maps(alloc, SLOTS).expect(rt, "maps");
    let image = Image::of(Version::V1, maps, code).expect(rt, "an image");
    verify(alloc, image).expect(rt, "an accepted program")
}
