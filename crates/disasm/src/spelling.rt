//! The spelling of an instruction: its first word and its operands.

ghost use Rattle.std.specs.Prelude.{◌≡◌, ◌++◌, string_bytes, OnOk, IfOk};
ghost use Rattle.disasm.specs.AssemblyText.{source_operand, head_of, operands_of, line_of, IsAssemblyLine};

use crate::head::Head;
use crate::operand::{Operand, Operands};
use ebpf_decode::Insn;
use isa::SourceOperand;
use std::alloc::{AllocError, Global};

/// The first word of the instruction's line.
#[tactic(auto, unfolding(crate::specs::AssemblyText::head_of))]
fn head_of(insn: Insn) -> Head
    ensures { result ≡ head_of insn }
{
    match insn {
        Insn::Alu { width, op, .. } => Head::Alu(width, op),
        Insn::Neg { width, .. } => Head::Neg(width),
        Insn::Movsx { extension, .. } => Head::Movsx(extension),
        Insn::Movsx32 { extension, .. } => Head::Movsx32(extension),
        Insn::End {
            order,
            swap_width,
            ..
        } => Head::End(order, swap_width),
        Insn::Ja { .. } => Head::Ja,
        Insn::Ja32 { .. } => Head::Ja32,
        Insn::JumpIf { width, test, .. } => Head::JumpIf(width, test),
        Insn::Ldx { size, .. } => Head::Ldx(size),
        Insn::Ldxs { extension, .. } => Head::Ldxs(extension),
        Insn::St { size, .. } => Head::St(size),
        Insn::Stx { size, .. } => Head::Stx(size),
        Insn::AtomicUpdate { width, op, .. } => Head::Atomic(width, op),
        Insn::Lddw { .. } => Head::Lddw,
        Insn::Ldmap { .. } => Head::Ldmap,
        Insn::Ldval { .. } => Head::Ldval,
        Insn::CallHelper { .. } => Head::Call,
        Insn::Exit => Head::Exit,
    }
}

fn source_operand(source: SourceOperand) -> Operand
    ensures { result ≡ source_operand source }
{
    match source {
        SourceOperand::Imm(value) => Operand::Number(i64::from(value)),
        SourceOperand::Reg(register) => Operand::Register(register),
    }
}

/// What is after the first word.
#[rattlefmt::skip]
#[tactic(auto, unfolding(crate::specs::AssemblyText::operands_of))]
fn operands_of(insn: Insn) -> Operands
    ensures { result ≡ operands_of insn }
{
    match insn {
        Insn::Alu { dst, source, .. } => Operands::Two(Operand::Register(dst), source_operand(source)),
        Insn::Neg { dst, .. } => Operands::One(Operand::Register(dst)),
        Insn::Movsx { dst, src, .. } => Operands::Two(Operand::Register(dst), Operand::Register(src)),
        Insn::Movsx32 { dst, src, .. } => Operands::Two(Operand::Register(dst), Operand::Register(src)),
        Insn::End { dst, .. } => Operands::One(Operand::Register(dst)),
        Insn::Ja { distance } => Operands::One(Operand::Distance(i32::from(distance))),
        Insn::Ja32 { distance } => Operands::One(Operand::Distance(distance)),
        Insn::JumpIf { dst, source, distance, .. } => {
            Operands::Three(Operand::Register(dst), source_operand(source), Operand::Distance(i32::from(distance)))
        }
        Insn::Ldx { dst, src, offset, .. } => Operands::Two(Operand::Register(dst), Operand::Place(src, offset)),
        Insn::Ldxs { dst, src, offset, .. } => Operands::Two(Operand::Register(dst), Operand::Place(src, offset)),
        Insn::St { dst, offset, immediate, .. } => Operands::Two(Operand::Place(dst, offset), Operand::Number(i64::from(immediate))),
        Insn::Stx { dst, src, offset, .. } => Operands::Two(Operand::Place(dst, offset), Operand::Register(src)),
        Insn::AtomicUpdate { dst, src, offset, .. } => Operands::Two(Operand::Place(dst, offset), Operand::Register(src)),
        Insn::Lddw { dst, value } => Operands::Two(Operand::Register(dst), Operand::Wide(value)),
        Insn::Ldmap { dst, map } => Operands::Two(Operand::Register(dst), Operand::Number(i64::from(map))),
        Insn::Ldval { dst, map, offset } => {
            Operands::Three(Operand::Register(dst), Operand::Number(i64::from(map)), Operand::Number(i64::from(offset)))
        }
        Insn::CallHelper { helper } => Operands::One(Operand::Number(i64::from(helper))),
        Insn::Exit => Operands::Zero,
    }
}

/// Writes the instruction's line, without a line feed.
#[tactic(auto, unfolding(crate::specs::AssemblyText::line_of))]
pub(crate) fn put_line(alloc: Global, out: &mut String, insn: Insn) -> Result<(), AllocError>
    ensures { OnOk result (string_bytes out.new ≡ string_bytes out.old ++ line_of insn) }
{
    head_of(insn).put(out)?;
    operands_of(insn).put(alloc, out)
}

/// The instruction's line in the text form, without a line feed. It fails only where memory is refused.
pub fn line(alloc: Global, insn: Insn) -> Result<String, AllocError>
    ensures { IfOk result (λ line. IsAssemblyLine insn (string_bytes line)) }
{
    insn.fields_fit();
    let mut out = String::new(alloc);
    put_line(alloc, &mut out, insn)?;
    Ok(out)
}
