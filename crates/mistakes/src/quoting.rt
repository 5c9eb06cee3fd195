//! A piece of a file, shown in a line.

use std::alloc::{AllocError, Global};
use text_lines::hex_digit;

/// How many bytes of a piece are shown.
const MOST: usize = 40;

/// The byte as a letter, or as an escape where it is none that every terminal shows.
fn put_byte(out: &mut String, byte: u8) -> Result<(), AllocError> {
    if byte == b'\t' {
        return out.push_str("\\t");
    }
    if byte == b'\r' {
        return out.push_str("\\r");
    }
    if byte >= b' ' && byte < 127 {
        return out.push(char::from(byte));
    }
    out.push_str("\\x")?;
    put_pair(out, byte)
}

/// The byte as two hexadecimal digits.
pub(crate) fn put_pair(out: &mut String, byte: u8) -> Result<(), AllocError> {
    out.push(char::from(hex_digit(byte / 16)))?;
    out.push(char::from(hex_digit(byte % 16)))
}

/// The piece between quotes: at most 40 bytes of it.
pub(crate) fn quoted(alloc: Global, piece: &[u8]) -> Result<String, AllocError> {
    let mut out = String::from_str(alloc, "\"")?;
    for byte in piece.iter().take(MOST) {
        put_byte(&mut out, *byte)?;
    }
    if piece.len() > MOST {
        out.push_str("...")?;
    }
    out.push_str("\"")?;
    Ok(out)
}

/// The first bytes as hexadecimal digits with spaces between them, at most 8.
pub(crate) fn first_bytes(alloc: Global, bytes: &[u8]) -> Result<String, AllocError> {
    let mut out = String::new(alloc);
    for byte in bytes.iter().take(8) {
        if !out.is_empty() {
            out.push_str(" ")?;
        }
        put_pair(&mut out, *byte)?;
    }
    Ok(out)
}
