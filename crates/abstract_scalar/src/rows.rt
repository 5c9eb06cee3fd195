//! The rows of the table of intervals.
ghost use Rattle.std.specs.Prelude.{◌≡◌, ◌+◌, ◌*◌};
ghost use Rattle.isa.specs.Words.{width_bits};
ghost use Rattle.isa.specs.Alu.{alu_value};
ghost use Rattle.abstract_scalar.specs.Transfer.{within, as_long_as, interval_row};

use crate::interval::Interval;
use isa::{AluOp, Width};

/// The exact result of two numbers.
pub fn result_of(width: Width, operation: AluOp, a: u64, b: u64) -> u64
    ensures { result ≡ alu_value width operation a b }
{
    match width {
        Width::Bits32 => isa::alu32(operation, a, b),
        Width::Bits64 => isa::alu64(operation, a, b),
    }
}

/// The operation's row, for operands as the class reads them that are not both single numbers.
pub fn row(width: Width, operation: AluOp, i: Interval, j: Interval) -> Interval
    ensures { result ≡ interval_row (width_bits width) operation i j }
{
    match operation {
        AluOp::Add => sum(width, i, j),
        AluOp::Sub => difference(width, i, j),
        AluOp::Mul => product(width, i, j),
        AluOp::Div => quotient(i, j),
        AluOp::Sdiv => Interval::full(width),
        AluOp::Or => as_long_as(i.high.max(j.high)),
        AluOp::And => Interval::up_to(i.high.min(j.high)),
        AluOp::Lsh => left_shift(width, i, j),
        AluOp::Rsh => right_shift(width, i, j),
        AluOp::Mod => remainder(i, j),
        AluOp::Smod => Interval::full(width),
        AluOp::Xor => as_long_as(i.high.max(j.high)),
        AluOp::Mov => j,
        AluOp::Arsh => Interval::full(width),
    }
}

/// Ends that fit the width, and else every number of it.
fn fitting(width: Width, low: u64, high: u64) -> Interval
    ensures { result ≡ within (width_bits width) low high }
{
    let full = Interval::full(width);
    if low <= full.high && high <= full.high {
        Interval { low, high }
    } else {
        full
    }
}

/// Sums of the ends.
fn sum(width: Width, i: Interval, j: Interval) -> Interval
    ensures { result ≡ within (width_bits width) (i.low + j.low) (i.high + j.high) }
{
    let Some(low) = i.low.checked_add(j.low) else {
        return Interval::full(width)
    };
    let Some(high) = i.high.checked_add(j.high) else {
        return Interval::full(width)
    };
    fitting(width, low, high)
}

/// Differences of opposite ends, where none is negative.
fn difference(width: Width, i: Interval, j: Interval) -> Interval
    ensures { result ≡ interval_row (width_bits width) AluOp.Sub i j }
{
    if j.high <= i.low {
        Interval {
            low: i.low - j.high,
            high: i.high.saturating_sub(j.low),
        }
    } else {
        Interval::full(width)
    }
}

/// Products of the ends.
fn product(width: Width, i: Interval, j: Interval) -> Interval
    ensures { result ≡ within (width_bits width) (i.low * j.low) (i.high * j.high) }
{
    let Some(low) = i.low.checked_mul(j.low) else {
        return Interval::full(width)
    };
    let Some(high) = i.high.checked_mul(j.high) else {
        return Interval::full(width)
    };
    fitting(width, low, high)
}

/// Quotients of the ends by a single divisor.
fn quotient(i: Interval, j: Interval) -> Interval
    ensures { result ≡ interval_row 64 AluOp.Div i j }
{
    if j.is_constant() && j.low > 0 {
        Interval {
            low: i.low / j.low,
            high: i.high / j.low,
        }
    } else {
        Interval::up_to(i.high)
    }
}

/// What a single divisor leaves.
fn remainder(i: Interval, j: Interval) -> Interval
    ensures { result ≡ interval_row 64 AluOp.Mod i j }
{
    if j.is_constant() && j.low > 0 {
        if i.high < j.low {
            i
        } else {
            Interval::up_to(j.low - 1)
        }
    } else {
        Interval::up_to(i.high)
    }
}

/// The numbers with no more binary digits than `n`.
fn as_long_as(n: u64) -> Interval
    ensures { result ≡ as_long_as n }
{
    let digits = 64 - n.leading_zeros();
    Interval::up_to(((1u128 << digits) - 1) as u64)
}

/// Both ends shifted by a single count, where they stay within the width.
fn left_shift(width: Width, i: Interval, j: Interval) -> Interval
    ensures { result ≡ interval_row (width_bits width) AluOp.Lsh i j }
{
    if !j.is_constant() {
        return Interval::full(width);
    }
    let power = Interval::constant(1u64 << (j.low % u64::from(width.bits())));
    product(width, i, power)
}

/// Both ends shifted by a single count.
fn right_shift(width: Width, i: Interval, j: Interval) -> Interval
    ensures { result ≡ interval_row (width_bits width) AluOp.Rsh i j }
{
    if !j.is_constant() {
        return Interval::up_to(i.high);
    }
    let count = j.low % u64::from(width.bits());
    Interval {
        low: i.low >> count,
        high: i.high >> count,
    }
}
