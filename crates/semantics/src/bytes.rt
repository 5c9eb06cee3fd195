//! Keys and values of maps: a few bytes in place, so that a call that holds them takes no memory.

ghost use Rattle.std.specs.Prelude.{◌≡◌, ◌+◌, ◌≤◌, length, take, drop};
ghost use Rattle.wire.specs.FrameView.{overwritten_at};

use std::marker::Model;

/// A map's key: at most 32 bytes.
pub type Key = Bytes<32>;

/// A map's value: at most 256 bytes.
pub type Value = Bytes<256>;

/// At most `N` bytes. Contracts see the list of them.
#[derive(Clone, Copy, Debug, PartialEq, Eq)]
pub struct Bytes<const N: usize> {
    /// The bytes, and then zeros.
    bytes: [u8; N],
    len: usize,
}

impl<const N: usize> Model for Bytes<N> {
    ghost use Rattle.std.specs.Prelude.{ℕ, List, take};
    ghost use Rattle.semantics.specs.Padding.{IsPadded, padded, padded-take, byte_count};

    ghost Value = { List ℕ };

    ghost view = { λ b. take b.len b.bytes };

    ghost invariant = { λ b. IsPadded N b.len b.bytes };

    ghost inverse = { λ xs. record { bytes = padded N xs; len = byte_count xs } };

    ghost inverse_ok = { λ b kept. padded-take N b.len b.bytes kept (λ bytes len. record { bytes = bytes; len = len }) };
}

impl<const N: usize> Bytes<N> {
    ghost use Rattle.std.specs.Prelude.{◌↔◌, ◌++◌, [], bytes_eq, IsSome, IfSome};

    /// No bytes.
    pub fn empty() -> Self
        ensures { result ≡ [] }
    {
        Bytes {
            bytes: [0; N],
            len: 0,
        }
    }

    /// These bytes, unless there are more than `N`.
    pub fn of(items: &[u8]) -> Option<Self>
        ensures bytes { IfSome result (λ bytes. bytes ≡ items.now) }
        ensures fits { IsSome result ↔ (length items.now ≤ N) }
    {
        if items.len() <= N {
            let mut bytes = Self::empty();
            bytes.append(items);
            Some(bytes)
        } else {
            None
        }
    }

    /// The bytes.
    pub fn as_slice(&self) -> &[u8]
        ensures bytes { result.now ≡ self.now }
        ensures at_most { length self.now ≤ N }
    {
        &self.bytes[..self.len]
    }

    /// Whether these are the same bytes.
    pub fn is_same(&self, other: &Self) -> bool
        ensures { result ≡ bytes_eq self.now other.now }
    {
        self.as_slice() == other.as_slice()
    }

    /// Puts these bytes behind the others.
    pub fn append(&mut self, items: &[u8])
        requires { length self.old + length items.now ≤ N }
        ensures { self.new ≡ self.old ++ items.now }
    {
        let len = self.len;
        let all = &mut self.bytes[..];
        write(all, len, items);
        self.len = len + items.len();
    }

    /// The bytes with these items in place of those from an index on.
    pub fn overwritten(&self, at: usize, items: &[u8]) -> Self
        requires { at + length items.now ≤ N }
        ensures { result ≡ overwritten_at at items.now self.now }
    {
        let old = self.as_slice();
        let mut result = Self::empty();
        result.append(front(old, at));
        result.append(items);
        result.append(back(old, at + items.len()));
        result
    }
}

/// Writes the items over those from an index on. Most keys have four, eight or sixteen bytes, for which a store or two serve in place of a
/// call that copies.
fn write(bytes: &mut [u8], at: usize, items: &[u8])
    requires { at + length items.now ≤ length bytes.old }
    ensures { bytes.new ≡ overwritten_at at items.now bytes.old }
{
    match items.len() {
        4 => bytes[at..at + 4].copy_from_slice(&items[..4]),
        8 => bytes[at..at + 8].copy_from_slice(&items[..8]),
        16 => bytes[at..at + 16].copy_from_slice(&items[..16]),
        _ => bytes[at..at + items.len()].copy_from_slice(items),
    }
}

/// The first `count` bytes, or all where there are fewer.
pub(crate) fn front(bytes: &[u8], count: usize) -> &[u8]
    ensures { result.now ≡ take count bytes.now }
{
    if count < bytes.len() {
        &bytes[..count]
    } else {
        bytes
    }
}

/// What comes after the first `count` bytes.
pub(crate) fn back(bytes: &[u8], count: usize) -> &[u8]
    ensures { result.now ≡ drop count bytes.now }
{
    if count < bytes.len() {
        &bytes[count..]
    } else {
        &[]
    }
}
