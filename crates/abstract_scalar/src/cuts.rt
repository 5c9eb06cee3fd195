//! What the outcome of a comparison says of a number.
ghost use Rattle.std.specs.Prelude.{◌≡◌, ◌+◌, ℕ};
ghost use Rattle.isa.specs.Test.{test_taken};
ghost use Rattle.abstract_scalar.specs.Intervals.{Covers};
ghost use Rattle.abstract_scalar.specs.Cuts.{kept_between, kept_from, cut_of, refine_of};

use crate::interval::Interval;
use isa::{Size, Test, Width};

/// The numbers of the interval for which the test against the number `c` is taken, or for which it isn't. The unsigned orders
/// cut on both edges, equality on the edge where the numbers are equal; the other tests cut nothing. A comparison of low halves
/// cuts only an interval below 2^32, by the low half of `c`. Where nothing would be left, the interval stays as it was.
pub fn refine(width: Width, test: Test, interval: Interval, c: u64, taken: bool) -> Interval
    ensures value { result ≡ refine_of width test interval c taken }
    ensures sound { (n : ℕ) → Covers interval n → test_taken width test n c ≡ taken → Covers result n }
{
    match width {
        Width::Bits64 => cut(test, taken, interval, c),
        Width::Bits32 => {
            if interval.high <= Size::U32.most() {
                cut(test, taken, interval, c % 0x1_0000_0000)
            } else {
                interval
            }
        }
    }
}

/// The cut of a comparison of whole numbers.
fn cut(test: Test, taken: bool, interval: Interval, c: u64) -> Interval
    ensures { result ≡ cut_of test taken interval c }
{
    match (test, taken) {
        (Test::Eq, true) => exactly(interval, c),
        (Test::Gt, true) => above(interval, c),
        (Test::Gt, false) => at_most(interval, c),
        (Test::Ge, true) => at_least(interval, c),
        (Test::Ge, false) => below(interval, c),
        (Test::Ne, false) => exactly(interval, c),
        (Test::Lt, true) => below(interval, c),
        (Test::Lt, false) => at_least(interval, c),
        (Test::Le, true) => at_most(interval, c),
        (Test::Le, false) => above(interval, c),
        _ => interval,
    }
}

/// The single number `c`.
fn exactly(interval: Interval, c: u64) -> Interval
    ensures { result ≡ kept_between interval c (c + 1) }
{
    if interval.contains(c) {
        Interval::constant(c)
    } else {
        interval
    }
}

/// The numbers from `c` on.
fn at_least(interval: Interval, c: u64) -> Interval
    ensures { result ≡ kept_from interval c }
{
    let low = interval.low.max(c);
    if low <= interval.high {
        Interval {
            low,
            high: interval.high,
        }
    } else {
        interval
    }
}

/// The numbers above `c`.
fn above(interval: Interval, c: u64) -> Interval
    ensures { result ≡ kept_from interval (c + 1) }
{
    if c == u64::MAX {
        interval
    } else {
        at_least(interval, c + 1)
    }
}

/// The numbers up to `c`.
fn at_most(interval: Interval, c: u64) -> Interval
    ensures { result ≡ kept_between interval 0 (c + 1) }
{
    let high = interval.high.min(c);
    if interval.low <= high {
        Interval {
            low: interval.low,
            high,
        }
    } else {
        interval
    }
}

/// The numbers below `c`.
fn below(interval: Interval, c: u64) -> Interval
    ensures { result ≡ kept_between interval 0 c }
{
    if c == 0 {
        interval
    } else {
        at_most(interval, c - 1)
    }
}
