//! The tests of conditional jumps (RFC 9669, section 4.3).
ghost use Rattle.std.specs.Prelude.{◌≡◌};
ghost use Rattle.isa.specs.Words.{low_half};
ghost use Rattle.isa.specs.Test.{test_holds};

use crate::halves::low_word;
use crate::operation::Test;

/// Whether the jump is taken, from the destination `a` and the source `b`, both of 64 bits (class JMP; RFC 9669,
/// section 4.3).
pub fn test64(test: Test, a: u64, b: u64) -> bool
    ensures { result ≡ test_holds 64 test a b }
{
    match test {
        Test::Eq => a == b,
        Test::Gt => a > b,
        Test::Ge => a >= b,
        Test::Set => a & b != 0,
        Test::Ne => a != b,
        Test::Sgt => a.cast_signed() > b.cast_signed(),
        Test::Sge => a.cast_signed() >= b.cast_signed(),
        Test::Lt => a < b,
        Test::Le => a <= b,
        Test::Slt => a.cast_signed() < b.cast_signed(),
        Test::Sle => a.cast_signed() <= b.cast_signed(),
    }
}

/// Whether the jump is taken where it compares the low halves of `a` and `b` (class JMP32; RFC 9669, section 4.3).
pub fn test32(test: Test, a: u64, b: u64) -> bool
    ensures { result ≡ test_holds 32 test (low_half a) (low_half b) }
{
    word_test(test, low_word(a), low_word(b))
}

/// The table's row on numbers of 32 bits.
fn word_test(test: Test, low_a: u32, low_b: u32) -> bool
    ensures { result ≡ test_holds 32 test low_a low_b }
{
    match test {
        Test::Eq => low_a == low_b,
        Test::Gt => low_a > low_b,
        Test::Ge => low_a >= low_b,
        Test::Set => low_a & low_b != 0,
        Test::Ne => low_a != low_b,
        Test::Sgt => low_a.cast_signed() > low_b.cast_signed(),
        Test::Sge => low_a.cast_signed() >= low_b.cast_signed(),
        Test::Lt => low_a < low_b,
        Test::Le => low_a <= low_b,
        Test::Slt => low_a.cast_signed() < low_b.cast_signed(),
        Test::Sle => low_a.cast_signed() <= low_b.cast_signed(),
    }
}
