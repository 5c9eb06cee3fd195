//! The program, block by block. A jump leads from its block to the start of a later one (crate::layout lays the blocks out).
//!
//! What is where from one block to the next: R6 the context, later the verdict; R7 the packet's start; R8 the service's flags; R9 the
//! packet's length, later the chosen backend's record. On the stack, below its upper end: the flow's key (16 bytes at -16), the service's
//! key (8 at -24), an index (4 at -28), the tunnel's record (the first 16 bytes at -48), the chosen backend's number (8 at -56).

ghost use Rattle.std.specs.Prelude.{◌≡◌, ◌≤◌, ◌++◌, OnOk};
ghost use Rattle.steer.specs.ShippedProgram.{helper_call, of_map, decided, hash_block, hash_byte, flow_lines, key_lines, vip_lines};
ghost use Rattle.steer.specs.ShippedProgram.{guards_lines};
ghost use Rattle.steer.specs.ShippedProgram.{tracking_lines, ring_lines, tunnel_lines, checksum_lines, pass_lines, drop_lines};
ghost use Rattle.steer.specs.ShippedProgram.{count_lines, end_lines};

use crate::layout::Block;
use crate::layout::Line;
use crate::layout::Line::Do;
use crate::layout::Line::Jump;
use crate::layout::Line::JumpIf;
use crate::names::DESTINATION;
use crate::names::DESTINATION_MAC;
use crate::names::DESTINATION_MAC_REST;
use crate::names::ETHER_TYPE;
use crate::names::ETHERNET_HEADER;
use crate::names::FIRST_WORD;
use crate::names::FIXED_WORDS;
use crate::names::FLOW_KEY;
use crate::names::FLOW_PORTS;
use crate::names::FLOW_PROTOCOL;
use crate::names::FRAGMENT;
use crate::names::FRAGMENT_BITS;
use crate::names::HEADER_CHECKSUM;
use crate::names::HEADERS;
use crate::names::INDEX;
use crate::names::IPV4;
use crate::names::LEAST_PACKET;
use crate::names::LOW_HALF;
use crate::names::MOST_PACKET;
use crate::names::MOST_TUNNELLED;
use crate::names::NEW_HEADERS;
use crate::names::NOTHING;
use crate::names::NOTRACK;
use crate::names::NUMBER;
use crate::names::OUTER_HEADER;
use crate::names::OWNER;
use crate::names::PACKET_END;
use crate::names::PACKET_START;
use crate::names::PLAIN_HEADER;
use crate::names::PORTS;
use crate::names::PROTOCOL;
use crate::names::READY;
use crate::names::SERVICE_KEY;
use crate::names::SERVICE_PORT;
use crate::names::SOURCE;
use crate::names::SOURCE_MAC;
use crate::names::SOURCE_MAC_REST;
use crate::names::TCP;
use crate::names::TIME_TO_LIVE;
use crate::names::TOTAL_LENGTH;
use crate::names::TUNNEL;
use crate::names::TUNNEL_DESTINATION_MAC;
use crate::names::TUNNEL_DESTINATION_MAC_REST;
use crate::names::TUNNEL_MACS;
use crate::names::TUNNEL_MACS_WORD;
use crate::names::TUNNEL_READY_WORD;
use crate::names::TUNNEL_SOURCE_MAC;
use crate::names::TUNNEL_SOURCE_WORD;
use crate::names::TYPE_OF_SERVICE;
use crate::names::UDP;
use crate::names::UNFRAGMENTED_TTL_64_IPIP;
use crate::names::UP;
use crate::names::VERSION;
use conntrack::SteeringMap;
use conntrack::SteeringMap::Backends;
use conntrack::SteeringMap::Ctl;
use conntrack::SteeringMap::Flows;
use conntrack::SteeringMap::Ring;
use conntrack::SteeringMap::Stats;
use conntrack::SteeringMap::Vips;
use ebpf_decode::Insn;
use ebpf_decode::Insn::Alu;
use ebpf_decode::Insn::AtomicUpdate;
use ebpf_decode::Insn::CallHelper;
use ebpf_decode::Insn::End;
use ebpf_decode::Insn::Exit;
use ebpf_decode::Insn::Lddw;
use ebpf_decode::Insn::Ldmap;
use ebpf_decode::Insn::Ldx;
use ebpf_decode::Insn::St;
use ebpf_decode::Insn::Stx;
use isa::AluOp::Add;
use isa::AluOp::And;
use isa::AluOp::Lsh;
use isa::AluOp::Mod;
use isa::AluOp::Mov;
use isa::AluOp::Mul;
use isa::AluOp::Or;
use isa::AluOp::Rsh;
use isa::AluOp::Sub;
use isa::AluOp::Xor;
use isa::AtomicOp::AtomicAdd;
use isa::ByteOrder::ToBig;
use isa::Register::R0;
use isa::Register::R1;
use isa::Register::R2;
use isa::Register::R3;
use isa::Register::R4;
use isa::Register::R6;
use isa::Register::R7;
use isa::Register::R8;
use isa::Register::R9;
use isa::Register::R10;
use isa::Size::U8;
use isa::Size::U16;
use isa::Size::U32;
use isa::Size::U64;
use isa::SourceOperand::Imm;
use isa::SourceOperand::Reg;
use isa::SwapWidth::Swap16;
use isa::Test::Eq;
use isa::Test::Gt;
use isa::Test::Lt;
use isa::Test::Ne;
use isa::Test::Set;
use isa::Width::Bits32;
use isa::Width::Bits64;
use semantics::Helper;
use semantics::Helper::MapLookupElem;
use semantics::Helper::MapUpdateElem;
use semantics::Helper::XdpAdjustHead;
use semantics::Verdict;
use std::alloc::AllocError;

/// The call of a helper.
fn call(helper: Helper) -> Insn
    ensures { result ≡ helper_call helper }
{
    CallHelper {
        helper: helper.number(),
    }
}

/// R1 is the map.
fn map(map: SteeringMap) -> Insn
    ensures { result ≡ of_map map }
{
    Ldmap {
        dst: R1,
        map: map.place() as i32,
    }
}

/// R6 is the number of the verdict.
fn decides(verdict: Verdict) -> Insn
    ensures { result ≡ decided verdict }
{
    let number = match verdict {
        Verdict::Aborted => 0,
        Verdict::Drop => 1,
        Verdict::Pass => 2,
        Verdict::Tx => 3,
    };
    Alu {
        width: Bits64,
        op: Mov,
        dst: R6,
        source: Imm(number),
    }
}

/// Has the frame a flow? An unfragmented IPv4 datagram without options, of TCP or UDP, whole in the frame. Else it passes.
#[rattlefmt::skip]
pub(crate) fn flow_lines() -> [Line; 23]
    ensures { result ≡ flow_lines }
{
    [
        Do(Alu { width: Bits64, op: Mov, dst: R6, source: Reg(R1) }),
        Do(Ldx { size: U32, dst: R7, src: R6, offset: PACKET_START }),
        Do(Ldx { size: U32, dst: R8, src: R6, offset: PACKET_END }),
        Do(Alu { width: Bits64, op: Mov, dst: R2, source: Reg(R7) }),
        Do(Alu { width: Bits64, op: Add, dst: R2, source: Imm(HEADERS) }),
        JumpIf { width: Bits64, test: Gt, dst: R2, source: Reg(R8), to: Block::Pass },
        Do(Ldx { size: U16, dst: R3, src: R7, offset: ETHER_TYPE }),
        JumpIf { width: Bits64, test: Ne, dst: R3, source: Imm(IPV4), to: Block::Pass }, // type not 08 00
        Do(Ldx { size: U8, dst: R3, src: R7, offset: VERSION }),
        JumpIf { width: Bits64, test: Ne, dst: R3, source: Imm(PLAIN_HEADER), to: Block::Pass }, // version not 4, or options
        Do(Ldx { size: U16, dst: R9, src: R7, offset: TOTAL_LENGTH }),
        Do(End { order: ToBig, swap_width: Swap16, dst: R9 }),
        JumpIf { width: Bits64, test: Lt, dst: R9, source: Imm(LEAST_PACKET), to: Block::Pass }, // too short for its headers
        JumpIf { width: Bits64, test: Gt, dst: R9, source: Imm(MOST_PACKET), to: Block::Pass }, // longer than any frame
        Do(Alu { width: Bits64, op: Mov, dst: R2, source: Reg(R7) }),
        Do(Alu { width: Bits64, op: Add, dst: R2, source: Imm(ETHERNET_HEADER) }),
        Do(Alu { width: Bits64, op: Add, dst: R2, source: Reg(R9) }),
        JumpIf { width: Bits64, test: Gt, dst: R2, source: Reg(R8), to: Block::Pass }, // not whole
        Do(Ldx { size: U16, dst: R3, src: R7, offset: FRAGMENT }),
        JumpIf { width: Bits64, test: Set, dst: R3, source: Imm(FRAGMENT_BITS), to: Block::Pass }, // a fragment
        Do(Ldx { size: U8, dst: R4, src: R7, offset: PROTOCOL }),
        JumpIf { width: Bits64, test: Eq, dst: R4, source: Imm(TCP), to: Block::Key },
        JumpIf { width: Bits64, test: Ne, dst: R4, source: Imm(UDP), to: Block::Pass }, // neither TCP nor UDP
    ]
}

/// The flow's key goes to the stack at -16, its service's at -24.
#[rattlefmt::skip]
pub(crate) fn key_lines() -> [Line; 11]
    ensures { result ≡ key_lines }
{
    [
        Do(Ldx { size: U64, dst: R2, src: R7, offset: SOURCE }),
        Do(Stx { size: U64, dst: R10, src: R2, offset: FLOW_KEY }),
        Do(Ldx { size: U32, dst: R3, src: R7, offset: PORTS }),
        Do(Stx { size: U32, dst: R10, src: R3, offset: FLOW_PORTS }),
        Do(Stx { size: U32, dst: R10, src: R4, offset: FLOW_PROTOCOL }),
        Do(Alu { width: Bits64, op: Rsh, dst: R2, source: Imm(32) }),
        Do(Stx { size: U32, dst: R10, src: R2, offset: SERVICE_KEY }),
        Do(Alu { width: Bits64, op: Rsh, dst: R3, source: Imm(16) }),
        Do(Alu { width: Bits64, op: Lsh, dst: R4, source: Imm(16) }),
        Do(Alu { width: Bits64, op: Or, dst: R3, source: Reg(R4) }),
        Do(Stx { size: U32, dst: R10, src: R3, offset: SERVICE_PORT }),
    ]
}

/// Does the flow ask a service? Else it passes. R8 has the service's flags.
#[rattlefmt::skip]
pub(crate) fn vip_lines() -> [Line; 6]
    ensures { result ≡ vip_lines }
{
    [
        Do(map(Vips)),
        Do(Alu { width: Bits64, op: Mov, dst: R2, source: Reg(R10) }),
        Do(Alu { width: Bits64, op: Add, dst: R2, source: Imm(SERVICE_KEY as i32) }),
        Do(call(MapLookupElem)),
        JumpIf { width: Bits64, test: Eq, dst: R0, source: Imm(NOTHING), to: Block::Pass },
        Do(Ldx { size: U64, dst: R8, src: R0, offset: FIRST_WORD }),
    ]
}

/// Can the packet be tunnelled, and is the tunnel set up? Else it is dropped. The tunnel's record goes to the stack at -48.
#[rattlefmt::skip]
pub(crate) fn guards_lines() -> [Line; 15]
    ensures { result ≡ guards_lines }
{
    [
        Do(Ldx { size: U8, dst: R3, src: R7, offset: TIME_TO_LIVE }),
        JumpIf { width: Bits64, test: Eq, dst: R3, source: Imm(0), to: Block::Drop },
        JumpIf { width: Bits64, test: Gt, dst: R9, source: Imm(MOST_TUNNELLED), to: Block::Drop },
        Do(St { size: U32, dst: R10, offset: INDEX, immediate: 0 }),
        Do(map(Ctl)),
        Do(Alu { width: Bits64, op: Mov, dst: R2, source: Reg(R10) }),
        Do(Alu { width: Bits64, op: Add, dst: R2, source: Imm(INDEX as i32) }),
        Do(call(MapLookupElem)),
        JumpIf { width: Bits64, test: Eq, dst: R0, source: Imm(NOTHING), to: Block::Drop },
        Do(Ldx { size: U64, dst: R3, src: R0, offset: TUNNEL_READY_WORD }),
        JumpIf { width: Bits32, test: Ne, dst: R3, source: Imm(READY), to: Block::Drop },
        Do(Ldx { size: U64, dst: R3, src: R0, offset: TUNNEL_SOURCE_WORD }),
        Do(Stx { size: U64, dst: R10, src: R3, offset: TUNNEL }),
        Do(Ldx { size: U64, dst: R3, src: R0, offset: TUNNEL_MACS_WORD }),
        Do(Stx { size: U64, dst: R10, src: R3, offset: TUNNEL_MACS }),
    ]
}

/// The backend that was noted for the flow, if it is up. R9 has its record.
#[rattlefmt::skip]
pub(crate) fn tracking_lines() -> [Line; 17]
    ensures { result ≡ tracking_lines }
{
    [
        JumpIf { width: Bits64, test: Set, dst: R8, source: Imm(NOTRACK), to: Block::Hash },
        Do(map(Flows)),
        Do(Alu { width: Bits64, op: Mov, dst: R2, source: Reg(R10) }),
        Do(Alu { width: Bits64, op: Add, dst: R2, source: Imm(FLOW_KEY as i32) }),
        Do(call(MapLookupElem)),
        JumpIf { width: Bits64, test: Eq, dst: R0, source: Imm(NOTHING), to: Block::Hash },
        Do(Ldx { size: U64, dst: R3, src: R0, offset: FIRST_WORD }),
        Do(Stx { size: U32, dst: R10, src: R3, offset: INDEX }),
        Do(map(Backends)),
        Do(Alu { width: Bits64, op: Mov, dst: R2, source: Reg(R10) }),
        Do(Alu { width: Bits64, op: Add, dst: R2, source: Imm(INDEX as i32) }),
        Do(call(MapLookupElem)),
        JumpIf { width: Bits64, test: Eq, dst: R0, source: Imm(NOTHING), to: Block::Hash },
        Do(Ldx { size: U64, dst: R9, src: R0, offset: FIRST_WORD }),
        Do(Alu { width: Bits64, op: Mov, dst: R3, source: Reg(R9) }),
        Do(Alu { width: Bits64, op: Rsh, dst: R3, source: Imm(32) }),
        JumpIf { width: Bits64, test: Eq, dst: R3, source: Imm(UP), to: Block::Tunnel },
    ]
}

/// R0 is the basis of FNV-1a, and R4 its prime.
#[rattlefmt::skip]
const HASH_START: [Insn; 2] = [
    Lddw { dst: R0, value: 0xcbf29ce484222325 },
    Lddw { dst: R4, value: 0x00000100000001b3 },
];

/// The offsets on the stack of the bytes of the flow's key that may be other than zero.
const KEY_OFFSETS: [i16; 13] = [-16, -15, -14, -13, -12, -11, -10, -9, -8, -7, -6, -5, -4];

/// The byte at an offset goes into the hash.
#[rattlefmt::skip]
fn hash_byte(offset: i16) -> [Insn; 3]
    ensures { result ≡ hash_byte offset }
{
    [
        Ldx { size: U8, dst: R3, src: R10, offset },
        Alu { width: Bits64, op: Xor, dst: R0, source: Reg(R3) },
        Alu { width: Bits64, op: Mul, dst: R0, source: Reg(R4) },
    ]
}

/// A byte that is zero goes into the hash.
#[rattlefmt::skip]
const HASH_ZERO: [Insn; 1] = [
    Alu { width: Bits64, op: Mul, dst: R0, source: Reg(R4) },
];

/// R0 is the flow's hash: FNV-1a of the sixteen bytes of its key, the last three of them zero.
pub(crate) fn put_hash(code: &mut Vec<Insn>) -> Result<(), AllocError>
    ensures { OnOk result (code.new.items ≡ code.old.items ++ hash_block) }
{
    code.extend_from_slice(&HASH_START)?;
    'bytes: for offset in &KEY_OFFSETS {
        code.extend_from_slice(&hash_byte(*offset))?;
    }
    code.extend_from_slice(&HASH_ZERO)?;
    code.extend_from_slice(&HASH_ZERO)?;
    code.extend_from_slice(&HASH_ZERO)
}

/// The owner of the flow's slot, if it is up, else the frame is dropped. It is noted for the flow, unless the service is without
/// tracking.
#[rattlefmt::skip]
pub(crate) fn ring_lines(size: u32) -> [Line; 28]
    requires { size ≤ 65537 }
    ensures { result ≡ ring_lines size }
{
    [
        Do(Alu { width: Bits64, op: Mod, dst: R0, source: Imm(size as i32) }),
        Do(Stx { size: U32, dst: R10, src: R0, offset: INDEX }),
        Do(map(Ring)),
        Do(Alu { width: Bits64, op: Mov, dst: R2, source: Reg(R10) }),
        Do(Alu { width: Bits64, op: Add, dst: R2, source: Imm(INDEX as i32) }),
        Do(call(MapLookupElem)),
        JumpIf { width: Bits64, test: Eq, dst: R0, source: Imm(NOTHING), to: Block::Drop },
        Do(Ldx { size: U32, dst: R3, src: R0, offset: OWNER }),
        JumpIf { width: Bits64, test: Eq, dst: R3, source: Imm(NOTHING), to: Block::Drop },
        Do(Alu { width: Bits64, op: Sub, dst: R3, source: Imm(1) }),
        Do(Stx { size: U64, dst: R10, src: R3, offset: NUMBER }),
        Do(map(Backends)),
        Do(Alu { width: Bits64, op: Mov, dst: R2, source: Reg(R10) }),
        Do(Alu { width: Bits64, op: Add, dst: R2, source: Imm(NUMBER as i32) }),
        Do(call(MapLookupElem)),
        JumpIf { width: Bits64, test: Eq, dst: R0, source: Imm(NOTHING), to: Block::Drop },
        Do(Ldx { size: U64, dst: R9, src: R0, offset: FIRST_WORD }),
        Do(Alu { width: Bits64, op: Mov, dst: R3, source: Reg(R9) }),
        Do(Alu { width: Bits64, op: Rsh, dst: R3, source: Imm(32) }),
        JumpIf { width: Bits64, test: Ne, dst: R3, source: Imm(UP), to: Block::Drop },
        JumpIf { width: Bits64, test: Set, dst: R8, source: Imm(NOTRACK), to: Block::Tunnel },
        Do(map(Flows)),
        Do(Alu { width: Bits64, op: Mov, dst: R2, source: Reg(R10) }),
        Do(Alu { width: Bits64, op: Add, dst: R2, source: Imm(FLOW_KEY as i32) }),
        Do(Alu { width: Bits64, op: Mov, dst: R3, source: Reg(R10) }),
        Do(Alu { width: Bits64, op: Add, dst: R3, source: Imm(NUMBER as i32) }),
        Do(Alu { width: Bits64, op: Mov, dst: R4, source: Imm(0) }),
        Do(call(MapUpdateElem)),
    ]
}

/// The frame gets 20 bytes more at its start, and its new headers, all but the checksum. R4 has the tunnel's source, R9 the backend's
/// address, R7 the packet's length and R8 its first two bytes, as they are in the frame.
#[rattlefmt::skip]
pub(crate) fn tunnel_lines() -> [Line; 32]
    ensures { result ≡ tunnel_lines }
{
    [
        Do(Ldx { size: U8, dst: R8, src: R7, offset: TYPE_OF_SERVICE }),
        Do(Ldx { size: U16, dst: R7, src: R7, offset: TOTAL_LENGTH }),
        Do(Alu { width: Bits64, op: Mov, dst: R1, source: Reg(R6) }),
        Do(Alu { width: Bits64, op: Mov, dst: R2, source: Imm(-OUTER_HEADER) }),
        Do(call(XdpAdjustHead)),
        JumpIf { width: Bits64, test: Ne, dst: R0, source: Imm(0), to: Block::Drop },
        Do(Ldx { size: U32, dst: R1, src: R6, offset: PACKET_START }),
        Do(Ldx { size: U32, dst: R2, src: R6, offset: PACKET_END }),
        Do(Alu { width: Bits64, op: Mov, dst: R3, source: Reg(R1) }),
        Do(Alu { width: Bits64, op: Add, dst: R3, source: Imm(NEW_HEADERS) }),
        JumpIf { width: Bits64, test: Gt, dst: R3, source: Reg(R2), to: Block::Drop },
        Do(Ldx { size: U16, dst: R3, src: R10, offset: TUNNEL_DESTINATION_MAC }),
        Do(Stx { size: U16, dst: R1, src: R3, offset: DESTINATION_MAC }),
        Do(Ldx { size: U32, dst: R3, src: R10, offset: TUNNEL_DESTINATION_MAC_REST }),
        Do(Stx { size: U32, dst: R1, src: R3, offset: DESTINATION_MAC_REST }),
        Do(Ldx { size: U32, dst: R3, src: R10, offset: TUNNEL_SOURCE_MAC }),
        Do(Stx { size: U32, dst: R1, src: R3, offset: SOURCE_MAC }),
        Do(Ldx { size: U16, dst: R3, src: R10, offset: TUNNEL_MACS }),
        Do(Stx { size: U16, dst: R1, src: R3, offset: SOURCE_MAC_REST }),
        Do(St { size: U16, dst: R1, offset: ETHER_TYPE, immediate: IPV4 }),
        Do(Alu { width: Bits64, op: Lsh, dst: R8, source: Imm(8) }),
        Do(Alu { width: Bits64, op: Or, dst: R8, source: Imm(PLAIN_HEADER) }),
        Do(Stx { size: U16, dst: R1, src: R8, offset: VERSION }),
        Do(End { order: ToBig, swap_width: Swap16, dst: R7 }),
        Do(Alu { width: Bits64, op: Add, dst: R7, source: Imm(OUTER_HEADER) }),
        Do(End { order: ToBig, swap_width: Swap16, dst: R7 }),
        Do(Stx { size: U32, dst: R1, src: R7, offset: TOTAL_LENGTH }),
        Do(St { size: U32, dst: R1, offset: FRAGMENT, immediate: UNFRAGMENTED_TTL_64_IPIP }),
        Do(Ldx { size: U32, dst: R4, src: R10, offset: TUNNEL }),
        Do(Stx { size: U32, dst: R1, src: R4, offset: SOURCE }),
        Do(Alu { width: Bits32, op: Mov, dst: R9, source: Reg(R9) }),
        Do(Stx { size: U32, dst: R1, src: R9, offset: DESTINATION }),
    ]
}

/// The outer header's checksum: the ones' complement sum of its words in the frame's own byte order. The frame is sent.
#[rattlefmt::skip]
pub(crate) fn checksum_lines() -> [Line; 20]
    ensures { result ≡ checksum_lines }
{
    [
        Do(Alu { width: Bits64, op: Add, dst: R4, source: Reg(R9) }),
        Do(Alu { width: Bits64, op: Add, dst: R4, source: Reg(R8) }),
        Do(Alu { width: Bits64, op: Add, dst: R4, source: Reg(R7) }),
        Do(Alu { width: Bits64, op: Add, dst: R4, source: Imm(FIXED_WORDS) }),
        Do(Alu { width: Bits64, op: Mov, dst: R3, source: Reg(R4) }),
        Do(Alu { width: Bits64, op: Rsh, dst: R3, source: Imm(16) }),
        Do(Alu { width: Bits64, op: And, dst: R4, source: Imm(LOW_HALF) }),
        Do(Alu { width: Bits64, op: Add, dst: R4, source: Reg(R3) }),
        Do(Alu { width: Bits64, op: Mov, dst: R3, source: Reg(R4) }),
        Do(Alu { width: Bits64, op: Rsh, dst: R3, source: Imm(16) }),
        Do(Alu { width: Bits64, op: And, dst: R4, source: Imm(LOW_HALF) }),
        Do(Alu { width: Bits64, op: Add, dst: R4, source: Reg(R3) }),
        Do(Alu { width: Bits64, op: Mov, dst: R3, source: Reg(R4) }),
        Do(Alu { width: Bits64, op: Rsh, dst: R3, source: Imm(16) }),
        Do(Alu { width: Bits64, op: And, dst: R4, source: Imm(LOW_HALF) }),
        Do(Alu { width: Bits64, op: Add, dst: R4, source: Reg(R3) }),
        Do(Alu { width: Bits64, op: Xor, dst: R4, source: Imm(LOW_HALF) }),
        Do(Stx { size: U16, dst: R1, src: R4, offset: HEADER_CHECKSUM }),
        Do(decides(Verdict::Tx)),
        Jump { to: Block::Count },
    ]
}

/// The frame passes.
#[rattlefmt::skip]
pub(crate) fn pass_lines() -> [Line; 2]
    ensures { result ≡ pass_lines }
{
    [
        Do(decides(Verdict::Pass)),
        Jump { to: Block::Count },
    ]
}

/// The frame is dropped.
#[rattlefmt::skip]
pub(crate) fn drop_lines() -> [Line; 1]
    ensures { result ≡ drop_lines }
{
    [
        Do(decides(Verdict::Drop)),
    ]
}

/// The count of the verdict is raised.
#[rattlefmt::skip]
pub(crate) fn count_lines() -> [Line; 8]
    ensures { result ≡ count_lines }
{
    [
        Do(Stx { size: U32, dst: R10, src: R6, offset: INDEX }),
        Do(map(Stats)),
        Do(Alu { width: Bits64, op: Mov, dst: R2, source: Reg(R10) }),
        Do(Alu { width: Bits64, op: Add, dst: R2, source: Imm(INDEX as i32) }),
        Do(call(MapLookupElem)),
        JumpIf { width: Bits64, test: Eq, dst: R0, source: Imm(NOTHING), to: Block::End },
        Do(Alu { width: Bits64, op: Mov, dst: R1, source: Imm(1) }),
        Do(AtomicUpdate { width: Bits64, op: AtomicAdd, dst: R0, src: R1, offset: FIRST_WORD }),
    ]
}

/// The verdict.
#[rattlefmt::skip]
pub(crate) fn end_lines() -> [Line; 2]
    ensures { result ≡ end_lines }
{
    [
        Do(Alu { width: Bits64, op: Mov, dst: R0, source: Reg(R6) }),
        Do(Exit),
    ]
}
