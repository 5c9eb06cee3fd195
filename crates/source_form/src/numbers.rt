//! Numbers of a source, as the exact text writes them.

ghost use Rattle.std.specs.Prelude.{◌≡◌, ◌++◌, Ok, IfOk, IfErr, string_bytes};
ghost use Rattle.std.specs.Fmt.{decimal};
ghost use Rattle.text_lines.specs.Lines.{finishes};
ghost use Rattle.source_form.specs.SourceText.{number_in, is_sign, digits_of, bracket_of, signed_meaning, hex_meaning};
ghost use Rattle.source_form.specs.SourceText.{number_meaning, plain_value, is_upper_word, immediate_meaning, wide_value, wide_told};
ghost use Rattle.source_form.specs.Told.{IsToldBy};

use crate::fault::{LineFault, Problem};
use crate::words::without_end;
use disasm::{Operand, operand_text};
use std::alloc::{AllocError, Global};
use text_lines::finishes;

/// The number that digits in base 16 write.
fn hex_in(digits: &str) -> Option<u64>
    ensures { result ≡ number_in 16 digits.now }
{
    if digits.starts_with("+") {
        return None;
    }
    match u64::from_str_radix(digits, 16) {
        Ok(value) => Some(value),
        Err(_) => None,
    }
}

/// The number that digits in base 10 write.
fn decimal_in(digits: &str) -> Option<u64>
    ensures { result ≡ number_in 10 digits.now }
{
    if digits.starts_with("+") {
        return None;
    }
    match digits.parse::<u64>() {
        Ok(value) => Some(value),
        Err(_) => None,
    }
}

/// Whether nothing is in front of a number, or a sign is.
fn is_sign(front: &str) -> bool
    ensures { result ≡ is_sign front.now }
{
    front.is_empty() || finishes(front, "+") || finishes(front, "-")
}

/// The digits, and the bracket that closes a place in memory.
fn digits_and_bracket(back: &str) -> (&str, &str)
    ensures digits { result.0.now ≡ digits_of back.now }
    ensures bracket { result.1.now ≡ bracket_of back.now }
{
    match without_end(back, "]") {
        Some(digits) => (digits, "]"),
        None => (back, ""),
    }
}

/// The text before and after a number in decimal.
fn number_between(alloc: Global, front: &str, value: u64, end: &str) -> Result<String, AllocError>
    ensures { IfOk result (λ text. string_bytes text ≡ front.now ++ (decimal value ++ end.now)) }
{
    let mut out = String::from_str(alloc, front)?;
    out.push_str(&format!(in alloc; "{value}")?)?;
    out.push_str(end)?;
    Ok(out)
}

/// What is before a number, the number of its digits in base 16 in decimal, and what comes after it.
fn signed_text(alloc: Global, sign: &str, digits: &str, end: &str) -> Result<String, LineFault>
    ensures ok { IfOk result (λ text. signed_meaning sign.now digits.now end.now ≡ Ok (string_bytes text)) }
    ensures err { IfErr result (λ fault. IsToldBy (signed_meaning sign.now digits.now end.now) fault) }
{
    if !is_sign(sign) {
        return Err(LineFault::Bad(Problem::NoNumber));
    }
    match hex_in(digits) {
        Some(value) => Ok(number_between(alloc, sign, value, end)?),
        None => Err(LineFault::Bad(Problem::NoNumber)),
    }
}

/// An operand that is cut at its `x`.
fn hex_text(alloc: Global, front: &str, back: &str) -> Result<String, LineFault>
    ensures ok { IfOk result (λ text. hex_meaning front.now back.now ≡ Ok (string_bytes text)) }
    ensures err { IfErr result (λ fault. IsToldBy (hex_meaning front.now back.now) fault) }
{
    let (digits, bracket) = digits_and_bracket(back);
    match without_end(front, "0") {
        Some(sign) => signed_text(alloc, sign, digits, bracket),
        None => Err(LineFault::Bad(Problem::NoNumber)),
    }
}

/// An operand with its numbers in decimal.
pub(crate) fn number_text(alloc: Global, operand: &str) -> Result<String, LineFault>
    ensures ok { IfOk result (λ text. number_meaning operand.now ≡ Ok (string_bytes text)) }
    ensures err { IfErr result (λ fault. IsToldBy (number_meaning operand.now) fault) }
{
    match operand.split_once('x') {
        Some((front, back)) => hex_text(alloc, front, back),
        None => Ok(String::from_str(alloc, operand)?),
    }
}

/// A number that is written without a sign: in hexadecimal, or in decimal with no zero in front.
fn plain_value(operand: &str) -> Option<u64>
    ensures { result ≡ plain_value operand.now }
{
    if let Some(digits) = operand.strip_prefix("0x") {
        return hex_in(digits);
    }
    if operand.starts_with("0") {
        None
    } else {
        decimal_in(operand)
    }
}

/// How many numbers of 32 bits there are.
const WORDS: u64 = 0x1_0000_0000;

/// Whether the number has 32 bits, and is too large for a signed number of 32 bits.
fn is_upper_word(value: u64) -> bool
    ensures { result ≡ is_upper_word value }
{
    WORDS / 2 <= value && value < WORDS
}

/// An operand where a signed number of 32 bits may be: one that is too large for that, and has 32 bits, is the negative number of the same
/// bits.
pub(crate) fn immediate_text(alloc: Global, operand: &str) -> Result<String, LineFault>
    ensures ok { IfOk result (λ text. immediate_meaning operand.now ≡ Ok (string_bytes text)) }
    ensures err { IfErr result (λ fault. IsToldBy (immediate_meaning operand.now) fault) }
{
    match plain_value(operand) {
        Some(value) if is_upper_word(value) => Ok(format!(in alloc; "-{}", WORDS - value)?),
        _ => number_text(alloc, operand),
    }
}

fn wide_value(operand: &str) -> Option<u64>
    ensures { result ≡ wide_value operand.now }
{
    match operand.strip_prefix("0x") {
        Some(digits) => hex_in(digits),
        None => decimal_in(operand),
    }
}

/// A number of 64 bits as `lddw` has it.
#[tactic(auto, unfolding(disasm::specs::AssemblyText::operand_text))]
pub(crate) fn wide_text(alloc: Global, operand: &str) -> Result<String, LineFault>
    ensures ok { IfOk result (λ text. wide_told (wide_value operand.now) ≡ Ok (string_bytes text)) }
    ensures err { IfErr result (λ fault. IsToldBy (wide_told (wide_value operand.now)) fault) }
{
    match wide_value(operand) {
        Some(value) => Ok(operand_text(alloc, Operand::Wide(value))?),
        None => Err(LineFault::Bad(Problem::NoNumber)),
    }
}
