//! Moments in seconds, and as dates and times of RFC 3339 in UTC.

ghost use Rattle.std.specs.Prelude.{◌≡◌, ◌<◌, ◌≤◌, ◌^◌, IfOk, string_bytes};
ghost use Rattle.page.specs.Stamps.{clock_of, clock_pieces, date_in, date_of, date_pieces, day_of_place, days_before_year, march_day};
ghost use Rattle.page.specs.Stamps.{month_number, month_of_place, place_in_year, stamp_of, stamp_pieces, stamp_text, two_digits, year_number};
ghost use Rattle.page.specs.Stamps.{moment_pieces, moment_text, year_of_day};

use crate::charts::{seconds_text, six_digits};
use std::alloc::{AllocError, Global};

/// The year of a day among those of 400 years.
fn year_of_day(day: u64) -> u64
    requires { day < 146097 }
    ensures year { result ≡ year_of_day day }
    ensures small { result ≤ 400 }
{
    (day.saturating_sub(day / 1460) + day / 36524).saturating_sub(day / 146096) / 365
}

/// The days of 400 years that come before a year.
fn days_before_year(year: u64) -> u64
    requires { year ≤ 400 }
    ensures { result ≡ days_before_year year }
{
    (365 * year + year / 4).saturating_sub(year / 100)
}

/// The place of a day in its year, from 1 March.
fn place_in_year(day: u64) -> u64
    requires { day < 146097 }
    ensures place { result ≡ place_in_year day }
    ensures small { result < 146097 }
{
    day.saturating_sub(days_before_year(year_of_day(day)))
}

/// The month of a place, from 0 for March.
fn month_of_place(place: u64) -> u64
    requires { place < 146097 }
    ensures month { result ≡ month_of_place place }
    ensures small { result < 5000 }
{
    (5 * place + 2) / 153
}

/// The day in its month of a place.
fn day_of_place(place: u64) -> u64
    requires { place < 146097 }
    ensures { result ≡ day_of_place place }
{
    place.saturating_sub((153 * month_of_place(place) + 2) / 5) + 1
}

/// The number of a month that is counted from March.
fn month_number(month: u64) -> u64
    ensures { result ≡ month_number month }
{
    if month < 10 { month + 3 } else { month - 9 }
}

/// The year of a month in a year from March on.
fn year_number(year: u64, month: u64) -> u64
    requires { year < 2 ^ 60 }
    ensures { result ≡ year_number year month }
{
    if month < 10 { year } else { year + 1 }
}

fn two_digits(alloc: Global, number: u64) -> Result<String, AllocError>
    ensures { IfOk result (λ text. string_bytes text ≡ two_digits number) }
{
    let tens = number / 10 % 10;
    let ones = number % 10;
    format!(in alloc; "{tens}{ones}")
}

fn date_pieces(
    alloc: Global,
    century: &str,
    year: &str,
    month: &str,
    day: &str,
) -> Result<String, AllocError>
    ensures { IfOk result (λ text. string_bytes text ≡ date_pieces century.now year.now month.now day.now) }
{
    format!(in alloc; "{century}{year}-{month}-{day}")
}

fn date_of(alloc: Global, year: u64, month: u64, day: u64) -> Result<String, AllocError>
    ensures { IfOk result (λ text. string_bytes text ≡ date_of year month day) }
{
    let century = two_digits(alloc, year / 100)?;
    let year = two_digits(alloc, year)?;
    let month = two_digits(alloc, month)?;
    let day = two_digits(alloc, day)?;
    date_pieces(
        alloc,
        century.as_str(),
        year.as_str(),
        month.as_str(),
        day.as_str(),
    )
}

/// The date of a day of 400 years, of which so many came before.
fn date_in(alloc: Global, era: u64, day: u64) -> Result<String, AllocError>
    requires era { era < 2 ^ 40 }
    requires day { day < 146097 }
    ensures { IfOk result (λ text. string_bytes text ≡ date_in era day) }
{
    let place = place_in_year(day);
    let month = month_of_place(place);
    let year = year_number(era * 400 + year_of_day(day), month);
    date_of(alloc, year, month_number(month), day_of_place(place))
}

fn clock_pieces(
    alloc: Global,
    hours: &str,
    minutes: &str,
    seconds: &str,
) -> Result<String, AllocError>
    ensures { IfOk result (λ text. string_bytes text ≡ clock_pieces hours.now minutes.now seconds.now) }
{
    format!(in alloc; "{hours}:{minutes}:{seconds}")
}

/// The time of a second of a day.
fn clock_of(alloc: Global, second: u64) -> Result<String, AllocError>
    ensures { IfOk result (λ text. string_bytes text ≡ clock_of second) }
{
    let hours = two_digits(alloc, second / 3600)?;
    let minutes = two_digits(alloc, second / 60 % 60)?;
    let seconds = two_digits(alloc, second % 60)?;
    clock_pieces(alloc, hours.as_str(), minutes.as_str(), seconds.as_str())
}

fn stamp_pieces(alloc: Global, date: &str, clock: &str, micros: &str) -> Result<String, AllocError>
    ensures { IfOk result (λ text. string_bytes text ≡ stamp_pieces date.now clock.now micros.now) }
{
    format!(in alloc; "{date}T{clock}.{micros}Z")
}

fn stamp_of(alloc: Global, seconds: u64, micros: u64) -> Result<String, AllocError>
    requires { seconds < 253402300800 }
    ensures { IfOk result (λ text. string_bytes text ≡ stamp_of seconds micros) }
{
    let day = march_day(seconds / 86400);
    let date = date_in(alloc, day / 146097, day % 146097)?;
    let clock = clock_of(alloc, seconds % 86400)?;
    let digits = six_digits(alloc, micros)?;
    stamp_pieces(alloc, date.as_str(), clock.as_str(), digits.as_str())
}

/// A day counted from 1 March of year 0.
fn march_day(days: u64) -> u64
    requires { days < 2 ^ 40 }
    ensures day { result ≡ march_day days }
    ensures small { result < 2 ^ 50 }
{
    days + 719468
}

/// A date and a time, which a year with four digits has.
fn stamp_text(alloc: Global, micros: u64) -> Result<String, AllocError>
    ensures { IfOk result (λ text. string_bytes text ≡ stamp_text micros) }
{
    let seconds = micros / 1_000_000;
    if 253_402_300_800 <= seconds {
        return String::from_str(alloc, "later");
    }
    stamp_of(alloc, seconds, micros)
}

fn moment_pieces(alloc: Global, seconds: &str, stamp: &str) -> Result<String, AllocError>
    ensures { IfOk result (λ text. string_bytes text ≡ moment_pieces seconds.now stamp.now) }
{
    format!(in alloc; "{seconds} s, {stamp}")
}

/// A moment in microseconds since the start of 1970.
#[tactic(auto, unfolding(crate::specs::Stamps::moment_text))]
pub(crate) fn moment_text(alloc: Global, micros: u64) -> Result<String, AllocError>
    ensures { IfOk result (λ text. string_bytes text ≡ moment_text micros) }
{
    let seconds = seconds_text(alloc, micros)?;
    let stamp = stamp_text(alloc, micros)?;
    moment_pieces(alloc, seconds.as_str(), stamp.as_str())
}
