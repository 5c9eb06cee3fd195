//! How the program's blocks are laid out: where each starts, and what a jump to one is as an instruction.

ghost use Rattle.std.specs.Prelude.{◌≡◌, ◌≤◌, ◌-◌, ◌++◌, length, pos, OnOk};
ghost use Rattle.steer.specs.Layout.{line_slots, insn_of, laid_out};
ghost use Rattle.steer.specs.ShippedProgram.{block_start};

use ebpf_decode::Insn;
use isa::{Register, SourceOperand, Test, Width};
use std::alloc::AllocError;

/// A block of the program. The blocks follow one another in this order.
#[derive(Clone, Copy)]
pub(crate) enum Block {
    Flow,
    Key,
    Vip,
    Guards,
    Tracking,
    Hash,
    Ring,
    Tunnel,
    Checksum,
    Pass,
    Drop,
    Count,
    End,
}

impl Block {
    /// The slot at which the block starts: after all slots of the blocks before it.
    #[tactic(auto, unfolding(ebpf_decode::specs::InstructionEncoding::slot_count))]
    pub(crate) fn start(self) -> u32
        ensures start { result ≡ block_start self }
        ensures most { result ≤ 217 }
    {
        match self {
            Block::Flow => 0,
            Block::Key => 23,
            Block::Vip => 34,
            Block::Guards => 41,
            Block::Tracking => 57,
            Block::Hash => 76,
            Block::Ring => 122,
            Block::Tunnel => 153,
            Block::Checksum => 185,
            Block::Pass => 205,
            Block::Drop => 207,
            Block::Count => 208,
            Block::End => 217,
        }
    }
}

/// A line of a block.
#[derive(Clone, Copy)]
pub(crate) enum Line {
    /// This instruction, which is no jump.
    Do(Insn),
    /// On to the start of a later block.
    Jump {
        to: Block,
    },
    /// The same, if the test holds.
    JumpIf {
        width: Width,
        test: Test,
        dst: Register,
        source: SourceOperand,
        to: Block,
    },
}

impl Line {
    /// How many slots it takes.
    fn slots(self) -> u32
        ensures slots { result ≡ line_slots self }
        ensures few { result ≤ 2 }
    {
        match self {
            Line::Do(insn) => insn.slot_count(),
            Line::Jump { .. } => 1,
            Line::JumpIf { .. } => 1,
        }
    }

    /// Its instruction, where the next one is at this slot.
    fn laid_out(self, next: u32) -> Insn
        ensures { result ≡ insn_of block_start next self }
    {
        match self {
            Line::Do(insn) => insn,
            Line::Jump { to } => Insn::Ja {
                distance: distance(next, to),
            },
            Line::JumpIf {
                width,
                test,
                dst,
                source,
                to,
            } => Insn::JumpIf {
                width,
                test,
                dst,
                source,
                distance: distance(next, to),
            },
        }
    }
}

/// How far the block's start is from a slot, 0 where it is not after it.
fn distance(next: u32, to: Block) -> i16
    ensures { result ≡ pos (block_start to - next) }
{
    let start = to.start();
    if next < start {
        (start - next) as i16
    } else {
        0
    }
}

/// Puts the block's lines behind the code.
pub(crate) fn put(code: &mut Vec<Insn>, block: Block, lines: &[Line]) -> Result<(), AllocError>
    requires { length lines.now ≤ 64 }
    ensures { OnOk result (code.new.items ≡ code.old.items ++ laid_out block_start (block_start block) lines.now) }
{
    let mut slot = block.start();
    'lines: for line in lines {
        slot += line.slots();
        code.push(line.laid_out(slot))?;
    }
    Ok(())
}
