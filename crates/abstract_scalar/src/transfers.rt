//! The interval of what an operation returns.
ghost use Rattle.std.specs.Prelude.{◌≡◌, ℕ};
ghost use Rattle.isa.specs.Alu.{alu_value, neg_value, sign_extended, extension_bits, short_extension_bits};
ghost use Rattle.isa.specs.Swap.{swap_result};
ghost use Rattle.abstract_scalar.specs.Intervals.{Covers};
ghost use Rattle.abstract_scalar.specs.Transfer.{operand_interval, transfer_of, neg_of, movsx64_of, movsx32_of, swap_of};

use crate::interval::Interval;
use crate::rows::{result_of, row};
use isa::{AluOp, ByteOrder, Extension, ShortExtension, Size, SwapWidth, Width};

/// The interval of what the operation leaves in the destination, from those of the destination (`first`) and the source
/// (`second`). Two single numbers give the exact result.
pub fn transfer(width: Width, operation: AluOp, first: Interval, second: Interval) -> Interval
    ensures value { result ≡ transfer_of width operation first second }
    ensures sound { (a b : ℕ) → Covers first a → Covers second b → Covers result (alu_value width operation a b) }
{
    if first.is_constant() && second.is_constant() {
        Interval::constant(result_of(width, operation, first.low, second.low))
    } else {
        row(
            width,
            operation,
            operand(width, first),
            operand(width, second),
        )
    }
}

/// An operand as the class reads it. On 32 bits a single number is cut to its low half, and an interval that reaches above
/// the low half becomes the whole half.
fn operand(width: Width, interval: Interval) -> Interval
    ensures { result ≡ operand_interval width interval }
{
    match width {
        Width::Bits64 => interval,
        Width::Bits32 => {
            if interval.is_constant() {
                Interval::constant(interval.low % 0x1_0000_0000)
            } else if interval.high <= Size::U32.most() {
                interval
            } else {
                Interval::full(Width::Bits32)
            }
        }
    }
}

/// The interval of 0 less the operand: exact for a single number, else every number of the width.
pub fn neg(width: Width, interval: Interval) -> Interval
    ensures value { result ≡ neg_of width interval }
    ensures sound { (a : ℕ) → Covers interval a → Covers result (neg_value width a) }
{
    if !interval.is_constant() {
        return Interval::full(width);
    }
    match width {
        Width::Bits32 => Interval::constant(isa::neg32(interval.low)),
        Width::Bits64 => Interval::constant(isa::neg64(interval.low)),
    }
}

/// The interval of a sign extension to 64 bits: exact for a single number, else every number.
pub fn movsx64(extension: Extension, interval: Interval) -> Interval
    ensures value { result ≡ movsx64_of extension interval }
    ensures sound { (b : ℕ) → Covers interval b → Covers result (sign_extended (extension_bits extension) 64 b) }
{
    if interval.is_constant() {
        Interval::constant(isa::movsx64(extension, interval.low))
    } else {
        Interval::full(Width::Bits64)
    }
}

/// The interval of a sign extension to 32 bits: exact for a single number, else every number of 32 bits.
pub fn movsx32(extension: ShortExtension, interval: Interval) -> Interval
    ensures value { result ≡ movsx32_of extension interval }
    ensures sound { (b : ℕ) → Covers interval b → Covers result (sign_extended (short_extension_bits extension) 32 b) }
{
    if interval.is_constant() {
        Interval::constant(isa::movsx32(extension, interval.low))
    } else {
        Interval::full(Width::Bits32)
    }
}

/// The interval of a byte swap: exact for a single number, else every number of the swap's width. The operand is not cut to
/// a class's width before.
pub fn swap(order: ByteOrder, width: SwapWidth, interval: Interval) -> Interval
    ensures value { result ≡ swap_of order width interval }
    ensures sound { (a : ℕ) → Covers interval a → Covers result (swap_result order width a) }
{
    if interval.is_constant() {
        return Interval::constant(isa::swap(order, width, interval.low));
    }
    match width {
        SwapWidth::Swap16 => Interval::loaded(Size::U16),
        SwapWidth::Swap32 => Interval::loaded(Size::U32),
        SwapWidth::Swap64 => Interval::loaded(Size::U64),
    }
}
