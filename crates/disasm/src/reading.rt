//! Lines read leniently: what is misspelled is read as anything. The caller prints the result again and compares.

ghost use Rattle.std.specs.Prelude.{◌≡◌, ◌≢◌, ◌++◌, ◌<◌, ◌^◌, ℕ, ℤ, List, length, reverse, slice_index, FitsSigned, codes};
ghost use Rattle.std.specs.Int.{w16, w32, w64};
ghost use Rattle.std.specs.Fmt.{decimal, signed_decimal};
ghost use Rattle.std.specs.List.{find, starts_with};
ghost use Rattle.std.specs.Str.{bytes_eq};
ghost use Rattle.isa.specs.declared.operation.Register.{Register as RegisterName};
ghost use Rattle.disasm.specs.declared.operand.Operands.{Operands as OperandList};
ghost use Rattle.disasm.specs.AssemblyText.{register_text, with_sign, hex_digits, operand_text, list_text};
ghost use Rattle.disasm.specs.LineReading.{OperandFits, OperandsFit, as_read, AreOperandsRead, begins_with_register, register_in, operand_number};
ghost use Rattle.disasm.specs.LineReading.{short_in, word_or_zero, count_or_zero, operand_offset, wide_in, operand_source, insn_made};

use crate::operand::{Operand, register_text};
use isa::operation::REGISTERS;
use isa::{Register, SourceOperand};
use text_lines::{after, cut};

fn register_of(text: &str) -> Register
    ensures { (r : RegisterName) → text.now ≡ register_text r → result ≡ r }
{
    first_register(&REGISTERS, text).unwrap_or(Register::R0)
}

fn first_register(all: &[Register], text: &str) -> Option<Register>
    ensures { result ≡ find (λ r. bytes_eq (register_text r) text.now) all.now }
{
    all.iter()
        .copied()
        .find(|register| register_text(*register) == text)
}

/// The register with whose name the text begins.
fn leading_register(text: &str) -> Register
    ensures { (r : RegisterName) (z : ℤ) (rest : List ℕ) → text.now ≡ register_text r ++ (with_sign z ++ rest) → result ≡ r }
{
    last_leading(&REGISTERS, text).unwrap_or(Register::R0)
}

/// The last register with whose name the text begins: `r1` is a beginning of `r10`, which comes later.
fn last_leading(all: &[Register], text: &str) -> Option<Register>
    ensures { result ≡ find (λ r. begins_with_register text.now r) (reverse all.now) }
{
    all.iter()
        .rev()
        .copied()
        .find(|register| begins_with_register(text, *register))
}

fn begins_with_register(text: &str, register: Register) -> bool
    ensures { result ≡ begins_with_register text.now register }
{
    text.starts_with(register_text(register))
}

/// A number, with or without a plus.
fn number_of(text: &str) -> i64
    ensures plain { (z : ℤ) → FitsSigned w64 z → text.now ≡ signed_decimal z → result ≡ z }
    ensures signed { (z : ℤ) → FitsSigned w64 z → text.now ≡ with_sign z → result ≡ z }
{
    match text.parse::<i64>() {
        Ok(value) => value,
        Err(_) => 0,
    }
}

/// A number of 32 bits, or 0 where it doesn't fit.
pub(crate) fn word(value: i64) -> i32
    ensures { result ≡ word_or_zero value }
{
    if value < -0x8000_0000 {
        return 0;
    }
    if value > 0x7fff_ffff {
        return 0;
    }
    value as i32
}

/// An unsigned number of 32 bits, or 0 where it doesn't fit.
pub(crate) fn count(value: i64) -> u32
    ensures { result ≡ count_or_zero value }
{
    if value < 0 {
        return 0;
    }
    if value > 0xffff_ffff {
        return 0;
    }
    value as u32
}

/// A number of 16 bits, or 0 where it doesn't fit.
pub(crate) fn short(value: i64) -> i16
    ensures { result ≡ short_in value }
{
    if value < -32768 {
        return 0;
    }
    if value > 32767 {
        return 0;
    }
    value as i16
}

fn hex_of(digits: &str) -> u64
    ensures { (n : ℕ) → n < 2 ^ 64 → digits.now ≡ hex_digits 16 n → result ≡ n }
{
    match u64::from_str_radix(digits, 16) {
        Ok(value) => value,
        Err(_) => 0,
    }
}

/// What is after the opening bracket.
fn place_of(inside: &str) -> Operand
    ensures { (r : RegisterName) (z : ℤ) → FitsSigned w16 z →
        inside.now ≡ register_text r ++ (with_sign z ++ codes "]") → result ≡ Operand.Place r z }
{
    let register = leading_register(inside);
    let (offset, _) = cut(after(inside, register_text(register)), ']');
    Operand::Place(register, short(number_of(offset)))
}

fn operand_of(text: &str) -> Operand
    ensures { (o : Operand) → OperandFits o → text.now ≡ operand_text o → result ≡ as_read o }
{
    if let Some((_, digits)) = text.split_once('x') {
        return Operand::Wide(hex_of(digits));
    }
    if let Some(inside) = text.strip_prefix('[') {
        return place_of(inside);
    }
    if text.starts_with('r') {
        return Operand::Register(register_of(text));
    }
    Operand::Number(number_of(text))
}

/// Up to three operands.
pub(crate) fn operands_of(list: &str) -> (Operand, Operand, Operand)
    ensures { (os : OperandList) → OperandsFit os → list.now ≡ list_text os → AreOperandsRead os result.0 result.1 result.2 }
{
    let (a, more) = cut(list, ',');
    let (b, c) = cut(more, ',');
    (
        operand_of(a),
        operand_of(after(b, " ")),
        operand_of(after(c, " ")),
    )
}

impl Operand {
    pub(crate) fn register(self) -> Register
        ensures { result ≡ register_in self }
    {
        match self {
            Operand::Register(register) => register,
            Operand::Place(register, _) => register,
            _ => Register::R0,
        }
    }

    pub(crate) fn number(self) -> i64
        ensures { result ≡ operand_number self }
    {
        match self {
            Operand::Number(value) => value,
            _ => 0,
        }
    }

    pub(crate) fn offset(self) -> i16
        ensures { result ≡ operand_offset self }
    {
        match self {
            Operand::Place(_, offset) => offset,
            _ => 0,
        }
    }

    pub(crate) fn wide(self) -> u64
        ensures { result ≡ wide_in self }
    {
        match self {
            Operand::Wide(value) => value,
            _ => 0,
        }
    }

    pub(crate) fn source(self) -> SourceOperand
        ensures { result ≡ operand_source self }
    {
        match self {
            Operand::Register(register) => SourceOperand::Reg(register),
            _ => SourceOperand::Imm(word(self.number())),
        }
    }
}
