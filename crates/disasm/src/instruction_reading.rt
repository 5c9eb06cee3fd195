//! The instruction of a line.

ghost use Rattle.std.specs.Prelude.{◌≡◌, IfOk};
ghost use Rattle.ebpf_decode.specs.declared.insn.Insn.{Insn as Instruction};
ghost use Rattle.disasm.specs.AssemblyText.{IsAssemblyLine};
ghost use Rattle.std.specs.Option.{MatchOption};
ghost use Rattle.disasm.specs.LineReading.{insn_made};
ghost use Rattle.disasm.specs.TextReading.{TellsInstruction, BeginsWithNoInstruction, IsFirstInstruction};

use crate::head::Head;
use crate::operand::Operand;
use crate::reading::{count, operands_of, short, word};
use crate::spelling::line;
use ebpf_decode::Insn;
use std::alloc::{AllocError, Global};
use text_lines::cut;

/// The instruction of this first word and these operands.
#[rattlefmt::skip]
#[tactic(auto, unfolding(crate::specs::LineReading::insn_made))]
fn insn_of(head: Head, x: Operand, y: Operand, z: Operand) -> Insn
    ensures { result ≡ insn_made head x y z }
{
    match head {
        Head::Alu(width, op) => Insn::Alu { width, op, dst: x.register(), source: y.source() },
        Head::Neg(width) => Insn::Neg { width, dst: x.register() },
        Head::Movsx(extension) => Insn::Movsx { extension, dst: x.register(), src: y.register() },
        Head::Movsx32(extension) => Insn::Movsx32 { extension, dst: x.register(), src: y.register() },
        Head::End(order, swap_width) => Insn::End { order, swap_width, dst: x.register() },
        Head::Ja => Insn::Ja { distance: short(x.number()) },
        Head::Ja32 => Insn::Ja32 { distance: word(x.number()) },
        Head::JumpIf(width, test) => Insn::JumpIf {
            width, test, dst: x.register(), source: y.source(), distance: short(z.number()),
        },
        Head::Ldx(size) => Insn::Ldx { size, dst: x.register(), src: y.register(), offset: y.offset() },
        Head::Ldxs(extension) => Insn::Ldxs { extension, dst: x.register(), src: y.register(), offset: y.offset() },
        Head::St(size) => Insn::St { size, dst: x.register(), offset: x.offset(), immediate: word(y.number()) },
        Head::Stx(size) => Insn::Stx { size, dst: x.register(), src: y.register(), offset: x.offset() },
        Head::Atomic(width, op) => Insn::AtomicUpdate { width, op, dst: x.register(), src: y.register(), offset: x.offset() },
        Head::Lddw => Insn::Lddw { dst: x.register(), value: y.wide() },
        Head::Ldmap => Insn::Ldmap { dst: x.register(), map: word(y.number()) },
        Head::Ldval => Insn::Ldval { dst: x.register(), map: word(y.number()), offset: count(z.number()) },
        Head::Call => Insn::CallHelper { helper: word(x.number()) },
        Head::Exit => Insn::Exit,
    }
}

/// The instruction of the line, if it is spelled exactly so.
fn instruction_read(line: &str) -> Insn
    ensures { (insn : Instruction) → IsAssemblyLine insn line.now → result ≡ insn }
{
    let (name, list) = cut(line, ' ');
    let (x, y, z) = operands_of(list);
    insn_of(Head::named(name), x, y, z)
}

/// The instruction whose line this is, if it is one's: what was read is printed again and compared.
fn instruction_of(alloc: Global, text: &str) -> Result<Option<Insn>, AllocError>
    ensures { IfOk result (λ found. TellsInstruction text.now found) }
{
    let insn = instruction_read(text);
    let again = line(alloc, insn)?;
    if again.as_str() == text {
        Ok(Some(insn))
    } else {
        Ok(None)
    }
}

/// The instruction of the first line and what comes after it, if that line is an instruction's.
pub(crate) fn first_instruction(
    alloc: Global,
    text: &str,
) -> Result<Option<(Insn, &str)>, AllocError>
    ensures { IfOk result (λ found. MatchOption found (BeginsWithNoInstruction text.now) (λ x. IsFirstInstruction text.now x.0 x.1.now)) }
{
    match text.split_once('\n') {
        None => Ok(None),
        Some((line, rest)) => match instruction_of(alloc, line)? {
            None => Ok(None),
            Some(insn) => Ok(Some((insn, rest))),
        },
    }
}
