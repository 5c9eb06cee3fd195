//! Byte swaps (RFC 9669, section 4.2).
ghost use Rattle.std.specs.Prelude.{◌≡◌};
ghost use Rattle.isa.specs.Swap.{swap_result, opposite_bytes, swap_bits};

use crate::halves::{low_short, low_word};
use crate::operation::{ByteOrder, SwapWidth};

/// The low 16, 32 or 64 bits of `a` in the order asked for, zero-extended (END in the classes ALU and ALU64; RFC 9669,
/// section 4.2). The host counts as little-endian, so `ToLittle` only cuts.
pub fn swap(order: ByteOrder, width: SwapWidth, a: u64) -> u64
    ensures { result ≡ swap_result order width a }
{
    match order {
        ByteOrder::ToLittle => cut(width, a),
        ByteOrder::ToBig => reversed(width, a),
        ByteOrder::Swapped => reversed(width, a),
    }
}

/// The low bits.
fn cut(width: SwapWidth, a: u64) -> u64
    ensures { result ≡ swap_result ByteOrder.ToLittle width a }
{
    match width {
        SwapWidth::Swap16 => u64::from(low_short(a)),
        SwapWidth::Swap32 => u64::from(low_word(a)),
        SwapWidth::Swap64 => a,
    }
}

/// The low bytes in the opposite order.
fn reversed(width: SwapWidth, a: u64) -> u64
    ensures { result ≡ swap_result ByteOrder.Swapped width a }
{
    match width {
        SwapWidth::Swap16 => u64::from(low_short(a).swap_bytes()),
        SwapWidth::Swap32 => u64::from(low_word(a).swap_bytes()),
        SwapWidth::Swap64 => a.swap_bytes(),
    }
}
