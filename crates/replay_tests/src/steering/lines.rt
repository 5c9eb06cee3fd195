//! Lines of the shipped program, by its blocks: a jump leads to a block, and where blocks start is looked up in the program's code.

use conntrack::SteeringMap;
use ebpf_decode::Insn;
use ebpf_decode::Insn::{Alu, Ja, Lddw, Ldmap, Ldx, Stx};
use isa::AluOp::{Add, Mod, Mov};
use isa::Register::{R0, R1, R2, R3, R4, R6, R7, R8, R9, R10};
use isa::Size::{U8, U32, U64};
use isa::SourceOperand::{Imm, Reg};
use isa::Width::Bits64;
use isa::{Register, SourceOperand, Test, Width};

// Where the frame's fields begin.
/// The type of service.
const TYPE_OF_SERVICE: i16 = 15;
/// The time to live.
const TIME_TO_LIVE: i16 = 22;
/// The source address.
const SOURCE: i16 = 26;

// Where values are on the stack, from its upper end.
/// The flow's destination address, in the flow's key.
pub(super) const FLOW_DESTINATION: i16 = -12;
/// An index of four bytes.
const INDEX: i16 = -28;

// Values.
/// The verdict that drops the frame.
const DROPS: i32 = 1;
/// The verdict that lets the frame pass.
const PASSES: i32 = 2;
/// How many slots the lookup table has.
pub(super) const SLOTS: u32 = 7;
/// The type of IPv4, 08 00, as a number of the frame's own byte order.
pub(super) const IPV4: i32 = 8;
/// Version 4, and a header of five words: no options.
pub(super) const PLAIN_HEADER: i32 = 0x45;
/// The fewest bytes of a packet with an IPv4 and a UDP header.
pub(super) const LEAST_PACKET: i32 = 28;
/// The bytes of an Ethernet header.
pub(super) const ETHERNET_HEADER: i32 = 14;
/// The bits of a fragment's offset, as a number of the frame's own byte order.
pub(super) const OFFSET_BITS: i32 = 0xff1f;
/// The bit of a fragment behind which more come.
pub(super) const MORE_FRAGMENTS: i32 = 0x20;
/// The protocol UDP.
pub(super) const UDP: i32 = 17;
/// The most bytes of a packet that goes through the tunnel.
pub(super) const MOST_TUNNELLED: i32 = 1480;
/// The lower sixteen bits.
pub(super) const LOW_HALF: i32 = 0xffff;
/// The service's flag for no tracking.
pub(super) const NOTRACK: i32 = 1;
/// The tunnel is set up.
pub(super) const READY: i32 = 1;
/// The backend is up.
pub(super) const UP: i32 = 1;
/// A slot has no owner.
pub(super) const NOBODY: i32 = 0;
/// Where a record's first word begins.
pub(super) const FIRST_WORD: i16 = 0;

/// A block of the program. The blocks follow one another in this order.
#[derive(Clone, Copy)]
pub(super) enum Block {
    Flow,
    Key,
    Vip,
    Guards,
    Tracking,
    Hash,
    Ring,
    Tunnel,
    Checksum,
    Pass,
    Drop,
    Count,
    End,
}

/// A line of a block.
#[derive(Clone, Copy)]
pub(super) enum Line {
    /// This instruction, which leads to no block.
    Do(Insn),
    /// On to the start of a later block.
    Jump {
        to: Block,
    },
    /// The same, if the test holds.
    JumpIf {
        width: Width,
        test: Test,
        dst: Register,
        source: SourceOperand,
        to: Block,
    },
}

/// What replaces a line that is left out: it goes on with the next one.
pub(super) const LEFT_OUT: Line = Line::Do(Ja { distance: 0 });

impl Block {
    /// The block's first line. No line of a block before it is like this one.
    #[rattlefmt::skip]
    fn first(self) -> Line {
        match self {
            Block::Flow => Line::Do(Alu { width: Bits64, op: Mov, dst: R6, source: Reg(R1) }),
            Block::Key => Line::Do(Ldx { size: U64, dst: R2, src: R7, offset: SOURCE }),
            Block::Vip => Line::Do(Ldmap { dst: R1, map: SteeringMap::Vips.place() as i32 }),
            Block::Guards => Line::Do(Ldx { size: U8, dst: R3, src: R7, offset: TIME_TO_LIVE }),
            Block::Tracking => Line::JumpIf { width: Bits64, test: Test::Set, dst: R8, source: Imm(NOTRACK), to: Block::Hash },
            Block::Hash => Line::Do(Lddw { dst: R0, value: 0xcbf29ce484222325 }),
            Block::Ring => Line::Do(Alu { width: Bits64, op: Mod, dst: R0, source: Imm(SLOTS as i32) }),
            Block::Tunnel => Line::Do(Ldx { size: U8, dst: R8, src: R7, offset: TYPE_OF_SERVICE }),
            Block::Checksum => Line::Do(Alu { width: Bits64, op: Add, dst: R4, source: Reg(R9) }),
            Block::Pass => Line::Do(Alu { width: Bits64, op: Mov, dst: R6, source: Imm(PASSES) }),
            Block::Drop => Line::Do(Alu { width: Bits64, op: Mov, dst: R6, source: Imm(DROPS) }),
            Block::Count => Line::Do(Stx { size: U32, dst: R10, src: R6, offset: INDEX }),
            Block::End => Line::Do(Alu { width: Bits64, op: Mov, dst: R0, source: Reg(R6) }),
        }
    }

    /// The slot at which the block starts in the code.
    fn start(self, code: &[Insn]) -> u32 {
        let first = self.first();
        let mut slot: u32 = 0;
        'insns: for insn in code {
            if first.is_like(insn) {
                return slot;
            }
            slot = slot.saturating_add(insn.slot_count());
        }
        slot
    }

    /// The slot behind the block's last line in the code.
    fn end(self, code: &[Insn]) -> u32 {
        match self {
            Block::Flow => Block::Key.start(code),
            Block::Key => Block::Vip.start(code),
            Block::Vip => Block::Guards.start(code),
            Block::Guards => Block::Tracking.start(code),
            Block::Tracking => Block::Hash.start(code),
            Block::Hash => Block::Ring.start(code),
            Block::Ring => Block::Tunnel.start(code),
            Block::Tunnel => Block::Checksum.start(code),
            Block::Checksum => Block::Pass.start(code),
            Block::Pass => Block::Drop.start(code),
            Block::Drop => Block::Count.start(code),
            Block::Count => Block::End.start(code),
            Block::End => u32::MAX,
        }
    }

    /// The place of the block's last line in the code that is this one, and the slot behind it.
    pub(super) fn last_place(self, code: &[Insn], line: &Line) -> Option<(usize, u32)> {
        let (start, end) = (self.start(code), self.end(code));
        let mut last = None;
        let mut next: u32 = 0;
        'insns: for (place, insn) in code.iter().enumerate() {
            next = next.saturating_add(insn.slot_count());
            if start < next && next <= end && line.laid_out(code, next) == *insn {
                last = Some((place, next));
            }
        }
        last
    }
}

impl Line {
    /// Whether the line can be this instruction: of a jump with a test the block to which it leads does not matter.
    fn is_like(&self, insn: &Insn) -> bool {
        match (*self, *insn) {
            (Line::Do(own), insn) => own == insn,
            (
                Line::JumpIf {
                    width,
                    test,
                    dst,
                    source,
                    ..
                },
                Insn::JumpIf {
                    width: its_width,
                    test: its_test,
                    dst: its_dst,
                    source: its_source,
                    ..
                },
            ) => width == its_width && test == its_test && dst == its_dst && source == its_source,
            _ => false,
        }
    }

    /// The line's instruction in the code, where the next one is at this slot.
    pub(super) fn laid_out(&self, code: &[Insn], next: u32) -> Insn {
        match *self {
            Line::Do(insn) => insn,
            Line::Jump { to } => Ja {
                distance: distance(code, next, to),
            },
            Line::JumpIf {
                width,
                test,
                dst,
                source,
                to,
            } => Insn::JumpIf {
                width,
                test,
                dst,
                source,
                distance: distance(code, next, to),
            },
        }
    }
}

/// How far the block's start is from a slot, 0 where it is not after it.
fn distance(code: &[Insn], next: u32, to: Block) -> i16 {
    let slots = to.start(code).saturating_sub(next);
    i16::try_from(slots).unwrap_or(0)
}
