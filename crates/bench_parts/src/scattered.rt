//! An order of keys that memory does not follow.

/// 2^16 divided by the golden ratio.
const STEP: u32 = 40503;

/// The key that comes at this number, below a count of keys that is a power of two.
#[inline(always)]
pub(crate) fn scattered(number: u32, count: u32) -> u32 {
    number.wrapping_mul(STEP) & count.wrapping_sub(1)
}
