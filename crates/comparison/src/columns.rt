//! The columns of a report, and what they may say.

ghost use Rattle.std.specs.Prelude.{◌≡◌, ◌==◌, count_by, not};
ghost use Rattle.comparison.specs.Columns.{after_point, before_point, column_name, is_address_letter, is_field, is_known_address};
ghost use Rattle.comparison.specs.Columns.{is_known_number, is_known_word, is_moment, is_number, is_short, is_verdict, is_word_letter};

/// The column of a record's number, counted from 0; the others follow.
pub const NUMBER: usize = 0;

pub const MOMENT: usize = 1;

pub const WORKER: usize = 2;

pub const VERDICT: usize = 3;

pub const STEPS: usize = 4;

pub const CASE: usize = 5;

pub const BACKEND: usize = 6;

pub const ADDRESS: usize = 7;

pub const SOURCE: usize = 8;

pub const SOURCE_PORT: usize = 9;

pub const DESTINATION: usize = 10;

pub const DESTINATION_PORT: usize = 11;

pub const PROTOCOL: usize = 12;

pub const CHOICE: usize = 13;

/// So many columns a report has.
pub const COLUMNS: usize = 14;

/// Whether a text has so many bytes at most, and one at least.
fn is_short(most: usize, text: &str) -> bool
    ensures { result ≡ is_short most text.now }
{
    text.len() != 0 && text.len() <= most
}

/// Whether a text is a decimal number.
fn is_number(text: &str) -> bool
    ensures { result ≡ is_number text.now }
{
    is_short(20, text)
        && text
            .as_bytes()
            .iter()
            .filter(|byte| !byte.is_ascii_digit())
            .count()
            == 0
}

/// Whether it is a number or nothing.
fn is_known_number(text: &str) -> bool
    ensures { result ≡ is_known_number text.now }
{
    text.len() == 0 || is_number(text)
}

/// What is before the first point, or all.
fn before_point(text: &str) -> &str
    ensures { result.now ≡ before_point text.now }
{
    match text.split_once('.') {
        Some((front, _)) => front,
        None => text,
    }
}

/// What comes after the first point.
fn after_point(text: &str) -> &str
    ensures { result.now ≡ after_point text.now }
{
    match text.split_once('.') {
        Some((_, back)) => back,
        None => "",
    }
}

/// Whether a text is seconds of 12 digits at most, a point, and six digits.
fn is_moment(text: &str) -> bool
    ensures { result ≡ is_moment text.now }
{
    let seconds = before_point(text);
    let micros = after_point(text);
    seconds.len() <= 12 && (is_number(seconds) && (micros.len() == 6 && is_number(micros)))
}

/// Whether a text is a word of capital letters.
fn is_verdict(text: &str) -> bool
    ensures { result ≡ is_verdict text.now }
{
    is_short(32, text)
        && text
            .as_bytes()
            .iter()
            .filter(|byte| !byte.is_ascii_uppercase())
            .count()
            == 0
}

/// Whether a byte may be in a word.
fn is_word_letter(byte: u8) -> bool
    ensures { result ≡ is_word_letter byte }
{
    byte.is_ascii_lowercase() || byte.is_ascii_digit() || byte == b'-'
}

/// Whether a text is a word of small letters, digits and dashes, or nothing.
fn is_known_word(text: &str) -> bool
    ensures { result ≡ is_known_word text.now }
{
    text.len() == 0
        || is_short(32, text)
            && text
                .as_bytes()
                .iter()
                .filter(|byte| !is_word_letter(**byte))
                .count()
                == 0
}

/// Whether a byte may be in an address.
fn is_address_letter(byte: u8) -> bool
    ensures { result ≡ is_address_letter byte }
{
    byte.is_ascii_digit() || byte == b'.'
}

/// How many bytes of a text are in no address.
fn other_letters(text: &str) -> usize
    ensures { result ≡ count_by (λ b. not (is_address_letter b)) text.now }
{
    text.as_bytes()
        .iter()
        .filter(|byte| !is_address_letter(**byte))
        .count()
}

/// How many points a text has.
fn points(text: &str) -> usize
    ensures { result ≡ count_by (λ b. b == 46) text.now }
{
    text.as_bytes().iter().filter(|byte| **byte == b'.').count()
}

/// Whether a text is an address, or nothing.
fn is_known_address(text: &str) -> bool
    ensures { result ≡ is_known_address text.now }
{
    text.len() == 0 || is_short(15, text) && (other_letters(text) == 0 && points(text) == 3)
}

/// Whether the field in this column, counted from 0, is what the column says.
pub(crate) fn is_field(column: usize, text: &str) -> bool
    ensures { result ≡ is_field column text.now }
{
    match column {
        NUMBER => is_number(text),
        MOMENT => is_moment(text),
        VERDICT => is_verdict(text),
        CASE | PROTOCOL | CHOICE => is_known_word(text),
        ADDRESS | SOURCE | DESTINATION => is_known_address(text),
        _ => is_known_number(text),
    }
}

/// The name of a column.
pub(crate) fn column_name(column: usize) -> &'static str
    ensures { result.now ≡ column_name column }
{
    match column {
        NUMBER => "number",
        MOMENT => "moment",
        WORKER => "worker",
        VERDICT => "verdict",
        STEPS => "steps",
        CASE => "case",
        BACKEND => "backend",
        ADDRESS => "address",
        SOURCE => "source",
        SOURCE_PORT => "source_port",
        DESTINATION => "destination",
        DESTINATION_PORT => "destination_port",
        PROTOCOL => "protocol",
        _ => "choice",
    }
}
