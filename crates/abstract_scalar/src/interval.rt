//! Unsigned intervals.
ghost use Rattle.std.specs.Prelude.{◌≡◌, ℕ};

use isa::{Size, Width};

/// The numbers from `low` to `high`. Where `low` is above `high` it represents no number; from intervals that represent some
/// numbers the functions of this crate make only such.
#[derive(Clone, Copy, Debug, PartialEq, Eq)]
pub struct Interval {
    pub low: u64,
    pub high: u64,
}

impl Interval {
    ghost use Rattle.isa.specs.Words.{width_bits};
    ghost use Rattle.isa.specs.InstructionCodes.{size_bits};
    ghost use Rattle.abstract_scalar.specs.Intervals.{interval_of, constant_of, full_of, hull_of, is_single, covers, Covers};

    /// One number.
    pub fn constant(n: u64) -> Interval
        ensures { result ≡ constant_of n }
    {
        Interval { low: n, high: n }
    }

    /// The numbers up to this one.
    pub fn up_to(high: u64) -> Interval
        ensures { result ≡ interval_of 0 high }
    {
        Interval { low: 0, high }
    }

    /// Every number of the width.
    pub fn full(width: Width) -> Interval
        ensures { result ≡ full_of (width_bits width) }
    {
        Interval::loaded(width.size())
    }

    /// Every number that a zero-extending load of the size returns.
    pub fn loaded(size: Size) -> Interval
        ensures { result ≡ full_of (size_bits size) }
    {
        Interval::up_to(size.most())
    }

    /// The least interval with all numbers of both.
    pub fn hull(self, other: Interval) -> Interval
        ensures value { result ≡ hull_of self other }
        ensures covers_self { (n : ℕ) → Covers self n → Covers result n }
        ensures covers_other { (n : ℕ) → Covers other n → Covers result n }
    {
        Interval {
            low: self.low.min(other.low),
            high: self.high.max(other.high),
        }
    }

    /// Whether it is a single number.
    pub fn is_constant(self) -> bool
        ensures { result ≡ is_single self }
    {
        self.low == self.high
    }

    /// Whether the number is one of its numbers.
    pub fn contains(self, n: u64) -> bool
        ensures { result ≡ covers self n }
    {
        self.low <= n && n <= self.high
    }
}
