//! Words of the stack.

ghost use Rattle.std.specs.Prelude.{◌≡◌, ◌&&◌, ◌≤◌, ◌+◌};
ghost use Rattle.isa.specs.InstructionCodes.{size_bytes};
ghost use Rattle.abstract_state.specs.Join.{zip_with, spilled, bytes_of_kind, bytes_of_word, join_bytes, join_spilled, join_word};
ghost use Rattle.abstract_state.specs.Words.{with_set, word_stored};

use crate::kind::{Kind, StackWord};
use ebpf_decode::Version;
use isa::Size;

/// Whether a byte is set on both paths.
fn is_both(first: bool, second: bool) -> bool
    ensures { result ≡ (first && second) }
{
    if first { second } else { false }
}

/// The bytes that are set on both paths.
fn set_on_both(first: [bool; 8], second: [bool; 8]) -> [bool; 8]
    ensures { result ≡ zip_with (λ a b. a && b) first second }
{
    let mut both = first;
    'bytes: for i in 0..8 {
        both[i] = is_both(both[i], second[i]);
    }
    both
}

/// The bytes with this many of them set from a place on.
fn with_set(set: [bool; 8], from: usize, count: usize) -> [bool; 8]
    requires { from + count ≤ 8 }
    ensures { result ≡ with_set set from count }
{
    let mut more = set;
    more[from..from + count].fill(true);
    more
}

impl StackWord {
    /// A spilled register, unless nothing is known of it.
    pub(crate) fn of_kind(kind: Kind) -> StackWord
        ensures { result ≡ spilled kind }
    {
        match kind {
            Kind::Unset => StackWord::Bytes([false; 8]),
            _ => StackWord::Spilled(kind),
        }
    }

    /// The bytes that can be read as bytes: all of a spilled number, none of a spilled pointer.
    pub fn bytes(self) -> [bool; 8]
        ensures { result ≡ bytes_of_word self }
    {
        match self {
            StackWord::Spilled(kind) => bytes_of_kind(kind),
            StackWord::Bytes(set) => set,
        }
    }

    /// What both words know: of two spilled registers what both kinds know; else the bytes that are set in both.
    pub fn join(self, version: Version, other: StackWord) -> StackWord
        ensures { result ≡ join_word version self other }
    {
        match self {
            StackWord::Spilled(kind) => join_spilled(version, kind, other),
            StackWord::Bytes(set) => StackWord::Bytes(set_on_both(set, other.bytes())),
        }
    }

    /// The word after a store of the size, from a place in it on.
    pub(crate) fn stored(self, size: Size, from: usize, kind: Kind) -> StackWord
        requires { from + size_bytes size ≤ 8 }
        ensures { result ≡ word_stored size from kind self }
    {
        match size {
            Size::U64 => StackWord::Spilled(kind),
            _ => StackWord::Bytes(with_set(self.bytes(), from, size.bytes() as usize)),
        }
    }
}

/// The bytes of a spilled register that can be read as bytes.
fn bytes_of_kind(kind: Kind) -> [bool; 8]
    ensures { result ≡ bytes_of_kind kind }
{
    match kind {
        Kind::Scalar(_) => [true; 8],
        _ => [false; 8],
    }
}

/// What a spilled register and another word both know.
fn join_spilled(version: Version, kind: Kind, other: StackWord) -> StackWord
    ensures { result ≡ join_spilled version kind other }
{
    match other {
        StackWord::Spilled(same) => StackWord::of_kind(kind.join(version, same)),
        StackWord::Bytes(set) => StackWord::Bytes(set_on_both(bytes_of_kind(kind), set)),
    }
}
