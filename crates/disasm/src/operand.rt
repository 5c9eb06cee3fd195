//! What comes after the first word of an instruction's line.

ghost use Rattle.std.specs.Prelude.{◌≡◌, ◌++◌, ◌<◌, ◌^◌, ℕ, string_bytes, IfOk, OnOk};
ghost use Rattle.disasm.specs.AssemblyText.{register_text, with_sign, hex_digits, operand_text, operands_text};

use isa::Register;
use std::alloc::{AllocError, Global};
use text_lines::hex_digit;

/// An operand as it is written.
#[derive(Clone, Copy, Debug, PartialEq, Eq)]
pub enum Operand {
    /// `r0` to `r10`.
    Register(Register),
    /// A number, with a minus where it is negative.
    Number(i64),
    /// A number of slots, always with its sign.
    Distance(i32),
    /// A place in memory, `[r1+0]`: a register and an offset with its sign.
    Place(Register, i16),
    /// `0x` and sixteen lower-case digits.
    Wide(u64),
}

/// The operands of one instruction.
#[derive(Clone, Copy, Debug, PartialEq, Eq)]
pub enum Operands {
    Zero,
    One(Operand),
    Two(Operand, Operand),
    Three(Operand, Operand, Operand),
}

pub(crate) fn register_text(of: Register) -> &'static str
    ensures { result.now ≡ register_text of }
{
    match of {
        Register::R0 => "r0",
        Register::R1 => "r1",
        Register::R2 => "r2",
        Register::R3 => "r3",
        Register::R4 => "r4",
        Register::R5 => "r5",
        Register::R6 => "r6",
        Register::R7 => "r7",
        Register::R8 => "r8",
        Register::R9 => "r9",
        Register::R10 => "r10",
    }
}

/// Writes a number, with a plus where it is not negative.
fn put_signed(alloc: Global, out: &mut String, value: i32) -> Result<(), AllocError>
    ensures { OnOk result (string_bytes out.new ≡ string_bytes out.old ++ with_sign value) }
{
    if value >= 0 {
        out.push_str("+")?;
    }
    out.push_str(&format!(in alloc; "{value}")?)?;
    Ok(())
}

/// Writes the last this many hexadecimal digits.
#[tactic(auto, unfolding(crate::specs::AssemblyText::hex_digits))]
fn put_hex(out: &mut String, count: u32, value: u64) -> Result<(), AllocError>
    ensures { OnOk result (string_bytes out.new ≡ string_bytes out.old ++ hex_digits count value) }
{
    if count == 0 {
        return Ok(());
    }
    put_hex(out, count - 1, value / 16)?;
    out.push(hex_digit((value % 16) as u8) as char)?;
    Ok(())
}

impl Operand {
    /// Writes the operand.
    #[tactic(auto, unfolding(crate::specs::AssemblyText::operand_text))]
    pub(crate) fn put(self, alloc: Global, out: &mut String) -> Result<(), AllocError>
        ensures { OnOk result (string_bytes out.new ≡ string_bytes out.old ++ operand_text self) }
    {
        match self {
            Operand::Register(register) => out.push_str(register_text(register)),
            Operand::Number(value) => out.push_str(&format!(in alloc; "{value}")?),
            Operand::Distance(value) => put_signed(alloc, out, value),
            Operand::Place(register, offset) => put_place(alloc, out, register, offset),
            Operand::Wide(value) => {
                out.push_str("0x")?;
                put_hex(out, 16, value)
            }
        }
    }
}

#[tactic(auto, unfolding(crate::specs::AssemblyText::operand_text))]
fn put_place(
    alloc: Global,
    out: &mut String,
    register: Register,
    offset: i16,
) -> Result<(), AllocError>
    ensures { OnOk result (string_bytes out.new ≡ string_bytes out.old ++ operand_text (Operand.Place register offset)) }
{
    out.push_str("[")?;
    out.push_str(register_text(register))?;
    put_signed(alloc, out, i32::from(offset))?;
    out.push_str("]")?;
    Ok(())
}

impl Operands {
    /// Writes the operands.
    #[tactic(auto, unfolding(crate::specs::AssemblyText::operands_text, crate::specs::AssemblyText::list_text))]
    pub(crate) fn put(self, alloc: Global, out: &mut String) -> Result<(), AllocError>
        ensures { OnOk result (string_bytes out.new ≡ string_bytes out.old ++ operands_text self) }
    {
        match self {
            Operands::Zero => Ok(()),
            Operands::One(a) => put_after(alloc, out, " ", a),
            Operands::Two(a, b) => {
                put_after(alloc, out, " ", a)?;
                put_after(alloc, out, ", ", b)
            }
            Operands::Three(a, b, c) => {
                put_after(alloc, out, " ", a)?;
                put_after(alloc, out, ", ", b)?;
                put_after(alloc, out, ", ", c)
            }
        }
    }
}

fn put_after(
    alloc: Global,
    out: &mut String,
    mark: &str,
    operand: Operand,
) -> Result<(), AllocError>
    ensures { OnOk result (string_bytes out.new ≡ string_bytes out.old ++ mark.now ++ operand_text operand) }
{
    out.push_str(mark)?;
    operand.put(alloc, out)
}

/// The text of an operand. It can fail only for lack of memory.
pub fn operand_text(alloc: Global, operand: Operand) -> Result<String, AllocError>
    ensures { IfOk result (λ text. string_bytes text ≡ operand_text operand) }
{
    let mut out = String::new(alloc);
    operand.put(alloc, &mut out)?;
    Ok(out)
}
