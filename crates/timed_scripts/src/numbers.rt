//! Decimal numbers, and seconds with up to six digits behind the point.

ghost use Rattle.std.specs.Prelude.{◌≡◌, ◌<◌, ◌≤◌, ◌≤ℤ◌, ◌<ℤ◌, pos, Some, None, IfSome};
ghost use Rattle.std.specs.Char.{is_ascii_digit};
ghost use Rattle.timed_scripts.specs.Moments.{number_after, written_number, millionths, fraction_of, with_fraction, seconds_of};

use crate::cutting::cut_at;

fn is_digit(letter: u8) -> bool
    ensures { result ≡ is_ascii_digit letter }
{
    48 <= letter && letter <= 57
}

/// The number below 10^12 that these digits write.
fn digits(text: &[u8]) -> Option<u64>
    ensures value { result ≡ number_after 0 text.now }
    ensures small { IfSome result (λ value. value < 1_000_000_000_000) }
{
    let mut value: u64 = 0;
    let mut rest = text;
    'digits: while let Some((digit, later)) = rest.split_first() {
        if !is_digit(*digit) {
            return None;
        }
        if 100_000_000_000 <= value {
            return None;
        }
        value = value * 10 + u64::from(*digit - 48);
        rest = later;
    }
    Some(value)
}

/// The number below 10^12 that one digit or more write.
fn number_of(text: &[u8]) -> Option<u64>
    ensures value { result ≡ written_number text.now }
    ensures small { IfSome result (λ value. value < 1_000_000_000_000) }
{
    if text.is_empty() { None } else { digits(text) }
}

/// So many parts as millionths, where the parts have so many digits behind the point.
fn millionths(digits: usize, value: u64) -> Option<u64>
    requires { value < 1_000_000_000_000 }
    ensures value { result ≡ millionths digits value }
    ensures small { IfSome result (λ micros. micros < 100_000_000_000_000_000) }
{
    match digits {
        1 => Some(value * 100_000),
        2 => Some(value * 10_000),
        3 => Some(value * 1_000),
        4 => Some(value * 100),
        5 => Some(value * 10),
        6 => Some(value),
        _ => None,
    }
}

fn fraction_of(text: &[u8]) -> Option<u64>
    ensures value { result ≡ fraction_of text.now }
    ensures small { IfSome result (λ micros. micros < 100_000_000_000_000_000) }
{
    match number_of(text) {
        Some(value) => millionths(text.len(), value),
        None => None,
    }
}

/// Whole seconds and millionths in nanoseconds.
fn with_fraction(whole: u64, micros: Option<u64>) -> Option<i128>
    requires whole { whole < 1_000_000_000_000 }
    requires micros { IfSome micros (λ micros. micros < 100_000_000_000_000_000) }
    ensures value { result ≡ with_fraction whole micros }
    ensures small { IfSome result (λ nanos. (pos 0 ≤ℤ nanos) × (nanos <ℤ pos 10_000_000_000_000_000_000_000)) }
{
    match micros {
        Some(micros) => Some(whole as i128 * 1_000_000_000 + micros as i128 * 1_000),
        None => None,
    }
}

/// The seconds that a text says, in nanoseconds.
pub(crate) fn seconds_of(text: &str) -> Option<i128>
    ensures value { result ≡ seconds_of text.now }
    ensures small { IfSome result (λ nanos. (pos 0 ≤ℤ nanos) × (nanos <ℤ pos 10_000_000_000_000_000_000_000)) }
{
    match cut_at(text, '.') {
        None => match number_of(text.as_bytes()) {
            Some(whole) => with_fraction(whole, Some(0)),
            None => None,
        },
        Some((whole, fraction)) => match number_of(whole.as_bytes()) {
            Some(whole) => with_fraction(whole, fraction_of(fraction.as_bytes())),
            None => None,
        },
    }
}
