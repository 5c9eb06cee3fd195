//! Texts that other people wrote, for a terminal.

ghost use Rattle.std.specs.Prelude.{◌≡◌, ◌++◌, ◌<◌, IfOk, OnOk, string_bytes};
ghost use Rattle.xlb_commands.specs.Printable.{hex_digit, hex_number, in_one_line, is_shown, shown};

use std::alloc::{AllocError, Global};

fn hex_digit(value: u8) -> u8
    requires small { value < 16 }
    ensures digit { result ≡ hex_digit value }
{
    if value < 10 {
        b'0' + value
    } else {
        b'a' + (value - 10)
    }
}

/// Whether a terminal shows the letter and does nothing else: it is no control character, and turns no direction of writing.
fn is_shown(letter: char) -> bool
    ensures { result ≡ is_shown letter }
{
    let number = u32::from(letter);
    let is_control = number < 0x20 || number >= 0x7f && number <= 0x9f;
    let turns = number == 0x61c
        || number >= 0x200e && number <= 0x200f
        || number >= 0x2028 && number <= 0x202e
        || number >= 0x2066 && number <= 0x2069;
    !is_control && !turns
}

/// Appends the last hexadecimal digits of a number, at most so many, without zeros in front.
fn put_hex(out: &mut String, most: u8, number: u32) -> Result<(), AllocError>
    ensures { OnOk result (string_bytes out.new ≡ string_bytes out.old ++ hex_number most number) }
{
    if most == 0 {
        return Ok(());
    }
    if number >= 16 {
        put_hex(out, most - 1, number / 16)?;
    }
    out.push(char::from(hex_digit((number % 16) as u8)))
}

/// Appends the letter, or its number as an escape.
fn put_shown(out: &mut String, letter: char) -> Result<(), AllocError>
    ensures { OnOk result (string_bytes out.new ≡ string_bytes out.old ++ shown letter) }
{
    if is_shown(letter) {
        return out.push(letter);
    }
    out.push_str("\\u{")?;
    put_hex(out, 6, u32::from(letter))?;
    out.push_str("}")
}

/// The text with an escape in place of each letter that a terminal would not show, a line feed among them. It can fail only for lack of
/// memory.
pub(crate) fn in_one_line(alloc: Global, text: &str) -> Result<String, AllocError>
    ensures { IfOk result (λ out. string_bytes out ≡ in_one_line text.now) }
{
    let mut out = String::new(alloc);
    for letter in text.chars() {
        put_shown(&mut out, letter)?;
    }
    Ok(out)
}

/// How many letters are shown of the beginning of a long line, which has what somebody wrote.
const FRONT: usize = 200;

/// How many letters are shown of its end, which says what is wrong there.
const BACK: usize = 300;

/// Whether the letter at this place of a line of so many letters is shown.
fn is_kept(place: usize, count: usize) -> bool {
    count <= FRONT + BACK || place < FRONT || place >= count.saturating_sub(BACK)
}

/// Appends a line, or the beginning and the end of a long one.
fn put_line(out: &mut String, line: &str) -> Result<(), AllocError> {
    let count = line.chars().count();
    for (place, letter) in line.chars().enumerate() {
        if is_kept(place, count) {
            put_shown(out, letter)?;
        } else if place == FRONT {
            out.push_str("...")?;
        }
    }
    Ok(())
}

/// Lines, with an escape in place of each other letter that a terminal would not show; of a line of more than 500 letters the first 200 and
/// the last 300. It can fail only for lack of memory.
pub(crate) fn in_lines(alloc: Global, text: &str) -> Result<String, AllocError> {
    let mut out = String::new(alloc);
    for (place, line) in text.split('\n').enumerate() {
        if place > 0 {
            out.push('\n')?;
        }
        put_line(&mut out, line)?;
    }
    Ok(out)
}
