//! Numbers as bytes, the lowest first, and parts of lists of bytes.

ghost use Rattle.std.specs.Prelude.{◌≡◌, ◌+◌, ◌≤◌, ◌<◌, ◌^◌, length, take, drop};
ghost use Rattle.semantics.specs.LittleEndian.{number_of_bytes, bytes_of_number};

use crate::bytes::{Bytes, back, front};

/// The number of at most eight bytes.
pub fn number_of_bytes(bytes: &[u8]) -> u64
    requires { length bytes.now ≤ 8 }
    ensures number { result ≡ number_of_bytes bytes.now }
    ensures below { result < 256 ^ length bytes.now }
{
    // A case for each size would make the callers too large to be inlined, which costs more than it gains.
    match bytes {
        [a, b, c, d, e, f, g, h] => u64::from_le_bytes([*a, *b, *c, *d, *e, *f, *g, *h]),
        _ => number_by_byte(bytes),
    }
}

/// The same as `number_of_bytes`, by a turn for each byte.
fn number_by_byte(bytes: &[u8]) -> u64
    requires { length bytes.now ≤ 8 }
    ensures number { result ≡ number_of_bytes bytes.now }
    ensures below { result < 256 ^ length bytes.now }
{
    let mut number = 0;
    let mut from = bytes.len();
    'higher: while from > 0 {
        from -= 1;
        number = number * 256 + u64::from(bytes[from]);
    }
    number
}

/// At most `size` bytes from an offset on: fewer where the list ends before.
pub fn part_at(bytes: &[u8], offset: usize, size: usize) -> &[u8]
    ensures part { result.now ≡ take size (drop offset bytes.now) }
    ensures at_most { length result.now ≤ size }
{
    front(back(bytes, offset), size)
}

/// The lowest `size` bytes of a number, which are at most eight.
pub fn bytes_of_number(size: u64, number: u64) -> Bytes<8>
    requires { size ≤ 8 }
    ensures bytes { result ≡ bytes_of_number size number }
    ensures count { length result ≡ size }
{
    match size {
        1 => holding(&[(number % 0x100) as u8]),
        2 => holding(&((number % 0x1_0000) as u16).to_le_bytes()),
        4 => holding(&((number % 0x1_0000_0000) as u32).to_le_bytes()),
        8 => holding(&number.to_le_bytes()),
        _ => bytes_by_byte(size, number),
    }
}

fn holding(items: &[u8]) -> Bytes<8>
    requires { length items.now ≤ 8 }
    ensures { result ≡ items.now }
{
    let mut bytes = Bytes::empty();
    bytes.append(items);
    bytes
}

/// The same as `bytes_of_number`, by a turn for each byte. No store has such a size, so it stays out of its callers.
#[inline(never)]
fn bytes_by_byte(size: u64, number: u64) -> Bytes<8>
    requires { size ≤ 8 }
    ensures bytes { result ≡ bytes_of_number size number }
    ensures count { length result ≡ size }
{
    let mut bytes = Bytes::empty();
    let mut rest = number;
    let mut left = size;
    'higher: while left > 0 {
        bytes.append(&[(rest % 256) as u8]);
        rest /= 256;
        left -= 1;
    }
    bytes
}
