//! The one encoding of each instruction (RFC 9669, sections 3 to 5).

ghost use Rattle.std.specs.Prelude.{◌≡◌, ◌<◌, ◌^◌, ◌/◌, ◌%◌, pos};
ghost use Rattle.std.specs.Int.{w32, cast_signed};
ghost use Rattle.isa.specs.InstructionCodes.{register_number};
ghost use Rattle.ebpf_decode.specs.InstructionReading.{head_slot};
ghost use Rattle.ebpf_decode.specs.InstructionEncoding.{slot, slot_of, more_slots_of, option_list, neg_opcode, movsx_opcode, wide_opcode};
ghost use Rattle.ebpf_decode.specs.InstructionEncoding.{ja_opcode, ja32_opcode, call_opcode, exit_opcode, source_bit, source_register};
ghost use Rattle.ebpf_decode.specs.InstructionEncoding.{source_immediate};

use crate::codes;
use crate::insn::Insn;
use crate::slot::CodeSlot;
use crate::wide::WideHead;
use isa::{
    AluOp, AtomicOp, ByteOrder, Class, Extension, Mode, Register, Size, SourceOperand, SwapWidth,
    Test, Width,
};

/// The opcode of a negation.
pub fn neg_opcode(width: Width) -> u8
    ensures { result ≡ neg_opcode width }
{
    codes::operation_opcode(codes::NEG, 0, width.alu_class())
}

/// The opcode of a move between registers, and so of the sign-extending ones.
pub fn movsx_opcode(width: Width) -> u8
    ensures { result ≡ movsx_opcode width }
{
    codes::operation_opcode(AluOp::Mov.code(), 1, width.alu_class())
}

/// The opcode of a wide instruction.
pub fn wide_opcode() -> u8
    ensures { result ≡ wide_opcode }
{
    codes::memory_opcode(Mode::Imm, Size::U64, Class::Ld)
}

/// The opcode of a jump by the offset.
pub fn ja_opcode() -> u8
    ensures { result ≡ ja_opcode }
{
    codes::operation_opcode(codes::JA, 0, Class::Jmp)
}

/// The opcode of a jump by the immediate.
pub fn ja32_opcode() -> u8
    ensures { result ≡ ja32_opcode }
{
    codes::operation_opcode(codes::JA, 0, Class::Jmp32)
}

/// The opcode of a call.
pub fn call_opcode() -> u8
    ensures { result ≡ call_opcode }
{
    codes::operation_opcode(codes::CALL, 0, Class::Jmp)
}

/// The opcode of an exit.
pub fn exit_opcode() -> u8
    ensures { result ≡ exit_opcode }
{
    codes::operation_opcode(codes::EXIT, 0, Class::Jmp)
}

fn source_bit(source: SourceOperand) -> u8
    ensures bit { result ≡ source_bit source }
    ensures below { result < 2 }
{
    match source {
        SourceOperand::Imm(_) => 0,
        SourceOperand::Reg(_) => 1,
    }
}

fn source_register(source: SourceOperand) -> u8
    ensures { result ≡ source_register source }
{
    match source {
        SourceOperand::Imm(_) => 0,
        SourceOperand::Reg(register) => register.number(),
    }
}

fn source_immediate(source: SourceOperand) -> i32
    ensures { result ≡ source_immediate source }
{
    match source {
        SourceOperand::Imm(value) => value,
        SourceOperand::Reg(_) => 0,
    }
}

#[tactic(auto, unfolding(crate::specs::InstructionEncoding::slot_of))]
fn binary_slot(width: Width, op: AluOp, dst: Register, source: SourceOperand) -> CodeSlot
    ensures { result ≡ slot_of (Insn.Alu width op dst source) }
{
    CodeSlot {
        opcode: codes::operation_opcode(op.code(), source_bit(source), width.alu_class()),
        dst: dst.number(),
        src: source_register(source),
        offset: i16::from(op.offset()),
        immediate: source_immediate(source),
    }
}

#[tactic(auto, unfolding(crate::specs::InstructionEncoding::slot_of))]
fn neg_slot(width: Width, dst: Register) -> CodeSlot
    ensures { result ≡ slot_of (Insn.Neg width dst) }
{
    CodeSlot {
        opcode: neg_opcode(width),
        dst: dst.number(),
        src: 0,
        offset: 0,
        immediate: 0,
    }
}

fn movsx_slot(width: Width, bits: i16, dst: Register, src: Register) -> CodeSlot
    ensures { result ≡ slot (movsx_opcode width) (register_number dst) (register_number src) bits (pos 0) }
{
    CodeSlot {
        opcode: movsx_opcode(width),
        dst: dst.number(),
        src: src.number(),
        offset: bits,
        immediate: 0,
    }
}

#[tactic(auto, unfolding(crate::specs::InstructionEncoding::slot_of))]
fn end_slot(order: ByteOrder, swap_width: SwapWidth, dst: Register) -> CodeSlot
    ensures { result ≡ slot_of (Insn.End order swap_width dst) }
{
    CodeSlot {
        opcode: codes::order_opcode(order),
        dst: dst.number(),
        src: 0,
        offset: 0,
        immediate: i32::from(swap_width.bits()),
    }
}

/// A jump or a call that has no registers.
fn bare_slot(opcode: u8, offset: i16, immediate: i32) -> CodeSlot
    ensures { result ≡ slot opcode 0 0 offset immediate }
{
    CodeSlot {
        opcode,
        dst: 0,
        src: 0,
        offset,
        immediate,
    }
}

#[tactic(auto, unfolding(crate::specs::InstructionEncoding::slot_of))]
fn conditional_slot(
    width: Width,
    test: Test,
    dst: Register,
    source: SourceOperand,
    distance: i16,
) -> CodeSlot
    ensures { result ≡ slot_of (Insn.JumpIf width test dst source distance) }
{
    CodeSlot {
        opcode: codes::operation_opcode(test.code(), source_bit(source), width.jump_class()),
        dst: dst.number(),
        src: source_register(source),
        offset: distance,
        immediate: source_immediate(source),
    }
}

/// A load or a store of a register, which has no immediate.
fn memory_slot(opcode: u8, dst: Register, src: Register, offset: i16, immediate: i32) -> CodeSlot
    ensures { result ≡ slot opcode (register_number dst) (register_number src) offset immediate }
{
    CodeSlot {
        opcode,
        dst: dst.number(),
        src: src.number(),
        offset,
        immediate,
    }
}

#[tactic(auto, unfolding(crate::specs::InstructionEncoding::slot_of))]
fn st_slot(size: Size, dst: Register, offset: i16, immediate: i32) -> CodeSlot
    ensures { result ≡ slot_of (Insn.St size dst offset immediate) }
{
    CodeSlot {
        opcode: codes::memory_opcode(Mode::Mem, size, Class::St),
        dst: dst.number(),
        src: 0,
        offset,
        immediate,
    }
}

#[tactic(auto, unfolding(crate::specs::InstructionEncoding::slot_of))]
fn ldx_slot(size: Size, dst: Register, src: Register, offset: i16) -> CodeSlot
    ensures { result ≡ slot_of (Insn.Ldx size dst src offset) }
{
    let opcode = codes::memory_opcode(Mode::Mem, size, Class::Ldx);
    memory_slot(opcode, dst, src, offset, 0)
}

#[tactic(auto, unfolding(crate::specs::InstructionEncoding::slot_of))]
fn ldxs_slot(extension: Extension, dst: Register, src: Register, offset: i16) -> CodeSlot
    ensures { result ≡ slot_of (Insn.Ldxs extension dst src offset) }
{
    let opcode = codes::memory_opcode(Mode::MemSx, extension.size(), Class::Ldx);
    memory_slot(opcode, dst, src, offset, 0)
}

#[tactic(auto, unfolding(crate::specs::InstructionEncoding::slot_of))]
fn stx_slot(size: Size, dst: Register, src: Register, offset: i16) -> CodeSlot
    ensures { result ≡ slot_of (Insn.Stx size dst src offset) }
{
    let opcode = codes::memory_opcode(Mode::Mem, size, Class::Stx);
    memory_slot(opcode, dst, src, offset, 0)
}

#[tactic(auto, unfolding(crate::specs::InstructionEncoding::slot_of))]
fn atomic_slot(width: Width, op: AtomicOp, dst: Register, src: Register, offset: i16) -> CodeSlot
    ensures { result ≡ slot_of (Insn.AtomicUpdate width op dst src offset) }
{
    let opcode = codes::memory_opcode(Mode::Atomic, width.size(), Class::Stx);
    memory_slot(opcode, dst, src, offset, i32::from(op.code()))
}

/// The first slot of a wide instruction.
#[tactic(auto, unfolding(crate::specs::InstructionReading::head_slot))]
pub fn head_slot(head: WideHead) -> CodeSlot
    ensures { result ≡ head_slot head }
{
    match head {
        WideHead::Number { dst, low } => CodeSlot {
            opcode: wide_opcode(),
            dst: dst.number(),
            src: 0,
            offset: 0,
            immediate: low,
        },
        WideHead::Map { dst, map } => CodeSlot {
            opcode: wide_opcode(),
            dst: dst.number(),
            src: 1,
            offset: 0,
            immediate: map,
        },
        WideHead::Value { dst, map } => CodeSlot {
            opcode: wide_opcode(),
            dst: dst.number(),
            src: 2,
            offset: 0,
            immediate: map,
        },
    }
}

/// The low half of a number, as the immediate of a slot.
fn low_half(value: u64) -> i32
    ensures { result ≡ cast_signed w32 (value % 2 ^ 32) }
{
    ((value % 0x1_0000_0000) as u32).cast_signed()
}

/// The high half of a number, as the immediate of a slot.
fn high_half(value: u64) -> i32
    ensures { result ≡ cast_signed w32 (value / 2 ^ 32) }
{
    ((value / 0x1_0000_0000) as u32).cast_signed()
}

/// The first slot of an instruction, with zero in each field that it does not use.
#[rattlefmt::skip]
#[tactic(auto, unfolding(crate::specs::InstructionEncoding::slot_of, crate::specs::InstructionReading::head_slot))]
pub fn slot_of(insn: Insn) -> CodeSlot
    ensures { result ≡ slot_of insn }
{
    match insn {
        Insn::Alu { width, op, dst, source } => binary_slot(width, op, dst, source),
        Insn::Neg { width, dst } => neg_slot(width, dst),
        Insn::Movsx { extension, dst, src } => movsx_slot(Width::Bits64, i16::from(extension.bits()), dst, src),
        Insn::Movsx32 { extension, dst, src } => movsx_slot(Width::Bits32, i16::from(extension.bits()), dst, src),
        Insn::End { order, swap_width, dst } => end_slot(order, swap_width, dst),
        Insn::Ja { distance } => bare_slot(ja_opcode(), distance, 0),
        Insn::Ja32 { distance } => bare_slot(ja32_opcode(), 0, distance),
        Insn::JumpIf { width, test, dst, source, distance } => conditional_slot(width, test, dst, source, distance),
        Insn::Ldx { size, dst, src, offset } => ldx_slot(size, dst, src, offset),
        Insn::Ldxs { extension, dst, src, offset } => ldxs_slot(extension, dst, src, offset),
        Insn::St { size, dst, offset, immediate } => st_slot(size, dst, offset, immediate),
        Insn::Stx { size, dst, src, offset } => stx_slot(size, dst, src, offset),
        Insn::AtomicUpdate { width, op, dst, src, offset } => atomic_slot(width, op, dst, src, offset),
        Insn::Lddw { dst, value } => head_slot(WideHead::Number { dst, low: low_half(value) }),
        Insn::Ldmap { dst, map } => head_slot(WideHead::Map { dst, map }),
        Insn::Ldval { dst, map, .. } => head_slot(WideHead::Value { dst, map }),
        Insn::CallHelper { helper } => bare_slot(call_opcode(), 0, helper),
        Insn::Exit => bare_slot(exit_opcode(), 0, 0),
    }
}

/// The second slot of a wide instruction: zeros, except the upper half of a number, or an offset in a value.
#[tactic(auto, unfolding(crate::specs::InstructionEncoding::more_slots_of))]
pub fn second_slot_of(insn: Insn) -> Option<CodeSlot>
    ensures { more_slots_of insn ≡ option_list result }
{
    match insn {
        Insn::Lddw { dst: _, value } => Some(bare_slot(0, 0, high_half(value))),
        Insn::Ldmap { .. } => Some(bare_slot(0, 0, 0)),
        Insn::Ldval { offset, .. } => Some(bare_slot(0, 0, offset.cast_signed())),
        _ => None,
    }
}
