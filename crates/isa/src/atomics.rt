//! Atomic operations on a value in memory (RFC 9669, section 5.3).
ghost use Rattle.std.specs.Prelude.{◌≡◌};
ghost use Rattle.isa.specs.Atomic.{atomic_value, atomic_result};

use crate::halves::low_word;
use crate::operation::{AtomicOp, Width};

/// What memory holds afterwards, where it held `old`, the source is `operand` and R0 is `expected` (RFC 9669, section
/// 5.3). With `Bits32` only the low halves count. The old value, which some operations hand to a register, is the
/// caller's. `expected` matters to `CompareExchange` alone.
pub fn atomic(operation: AtomicOp, width: Width, old: u64, operand: u64, expected: u64) -> u64
    ensures { result ≡ atomic_value width operation old operand expected }
{
    match width {
        Width::Bits32 => u64::from(atomic_word(
            operation,
            low_word(old),
            low_word(operand),
            low_word(expected),
        )),
        Width::Bits64 => atomic_double(operation, old, operand, expected),
    }
}

/// The table's row on numbers of 32 bits.
fn atomic_word(operation: AtomicOp, old: u32, operand: u32, expected: u32) -> u32
    ensures { result ≡ atomic_result 32 operation old operand expected }
{
    match operation {
        AtomicOp::AtomicAdd => old.wrapping_add(operand),
        AtomicOp::AtomicOr => old | operand,
        AtomicOp::AtomicAnd => old & operand,
        AtomicOp::AtomicXor => old ^ operand,
        AtomicOp::FetchAdd => old.wrapping_add(operand),
        AtomicOp::FetchOr => old | operand,
        AtomicOp::FetchAnd => old & operand,
        AtomicOp::FetchXor => old ^ operand,
        AtomicOp::Exchange => operand,
        AtomicOp::CompareExchange => { if old == expected { operand } else { old } }
    }
}

/// The table's row on numbers of 64 bits. Nearly all programs only add.
fn atomic_double(operation: AtomicOp, old: u64, operand: u64, expected: u64) -> u64
    ensures { result ≡ atomic_result 64 operation old operand expected }
{
    match operation {
        AtomicOp::AtomicAdd => old.wrapping_add(operand),
        AtomicOp::FetchAdd => old.wrapping_add(operand),
        other => any_double(other, old, operand, expected),
    }
}

/// The same for any operation. It stays out of its callers: inlined there, the operations would be one jump through a table, which takes longer than
/// the operation.
#[inline(never)]
fn any_double(operation: AtomicOp, old: u64, operand: u64, expected: u64) -> u64
    ensures { result ≡ atomic_result 64 operation old operand expected }
{
    match operation {
        AtomicOp::AtomicAdd => old.wrapping_add(operand),
        AtomicOp::AtomicOr => old | operand,
        AtomicOp::AtomicAnd => old & operand,
        AtomicOp::AtomicXor => old ^ operand,
        AtomicOp::FetchAdd => old.wrapping_add(operand),
        AtomicOp::FetchOr => old | operand,
        AtomicOp::FetchAnd => old & operand,
        AtomicOp::FetchXor => old ^ operand,
        AtomicOp::Exchange => operand,
        AtomicOp::CompareExchange => { if old == expected { operand } else { old } }
    }
}
