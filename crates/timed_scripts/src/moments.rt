//! Moments: how they are spelled, those of records, and how many records come before one.

ghost use Rattle.std.specs.Prelude.{◌≡◌, ◌≤◌, length};
ghost use Rattle.jiff_fmt.specs.Temporal.{timestamp_view};
ghost use Rattle.timed_scripts.specs.Moments.{record_moment, first_moment, later_than, since, moment_read, first_known};
ghost use Rattle.timed_scripts.specs.Moments.{fixed_moment, moment_said, records_before, seconds_of};
ghost use Rattle.timed_scripts.specs.Cutting.{cut_at};

use crate::cutting::cut_at;
use crate::numbers::seconds_of;
use jiff_core::{Error, Timestamp};
use jiff_fmt::temporal::parse_timestamp;
use wire::Sent;

/// The moment of a record, in nanoseconds since the start of 1970.
fn record_moment(sent: &Sent) -> u64
    ensures { result ≡ record_moment sent.now }
{
    (u64::from(sent.seconds) * 1_000_000 + u64::from(sent.micros)) * 1_000
}

/// The moment of the first record.
pub(crate) fn first_moment(records: &[Sent]) -> Option<u64>
    ensures { result ≡ first_moment records.now }
{
    match records.first() {
        Some(sent) => Some(record_moment(sent)),
        None => None,
    }
}

/// So many seconds later.
fn later_than(first: u64, seconds: &str) -> Option<i128>
    ensures { result ≡ later_than first (seconds_of seconds.now) }
{
    match seconds_of(seconds) {
        Some(later) => Some(first as i128 + later),
        None => None,
    }
}

/// The moment that is so many seconds behind the first record: `180s` or `0.5s`.
fn since(first: Option<u64>, text: &str) -> Option<i128>
    ensures { result ≡ since first (cut_at 115 text.now) }
{
    match (first, cut_at(text, 's')) {
        (Some(first), Some((seconds, rest))) => {
            if rest.is_empty() {
                later_than(first, seconds)
            } else {
                None
            }
        }
        _ => None,
    }
}

fn told(read: Result<Timestamp, Error>) -> Option<i128>
    ensures { result ≡ moment_read (timestamp_view read) }
{
    match read {
        Ok(timestamp) => Some(timestamp.nanosecond),
        Err(_error) => None,
    }
}

/// The moment of seconds since the start of 1970, or of a date and a time.
fn fixed_moment(word: &str) -> Option<i128>
    ensures { result ≡ fixed_moment word.now }
{
    match seconds_of(word) {
        Some(seconds) => Some(seconds),
        None => told(parse_timestamp(word.as_bytes())),
    }
}

/// The moment that a word says, in nanoseconds since the start of 1970; `+180s` is counted from the first record.
pub(crate) fn moment_of(first: Option<u64>, word: &str) -> Option<i128>
    ensures { result ≡ moment_said first word.now }
{
    match word.strip_prefix('+') {
        Some(later) => since(first, later),
        None => fixed_moment(word),
    }
}

/// How many records come before the first one that is not earlier.
pub(crate) fn records_before(moment: i128, records: &[Sent]) -> usize
    ensures before { result ≡ records_before moment records.now }
    ensures most { result ≤ length records.now }
{
    let mut before = 0;
    let mut rest = records;
    'records: while let Some((sent, later)) = rest.split_first() {
        if moment <= record_moment(sent) as i128 {
            return before;
        }
        before += 1;
        rest = later;
    }
    before
}
