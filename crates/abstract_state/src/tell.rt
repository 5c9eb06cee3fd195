//! What a fact about an id changes.

ghost use Rattle.std.specs.Prelude.{◌≡◌};
ghost use Rattle.abstract_state.specs.Facts.{told_null, told_range, told_moved, told_kind, told_word, told_start};

use crate::fact::Fact;
use crate::kind::{Kind, Offsets, StackWord};
use abstract_scalar::Interval;

/// What the lookup of an id returned is 0, or isn't.
fn told_null(id: u16, is_null: bool, kind: Kind) -> Kind
    ensures { result ≡ told_null id is_null kind }
{
    match kind {
        Kind::ValueOrNull { map, id: found } => {
            if id != found {
                kind
            } else if is_null {
                Kind::Scalar(Interval::constant(0))
            } else {
                Kind::Value {
                    map,
                    id: found,
                    off: Offsets::at(0),
                }
            }
        }
        _ => kind,
    }
}

/// This many bytes from the base of an id lie in the packet.
fn told_range(id: u16, range: u32, kind: Kind) -> Kind
    ensures { result ≡ told_range id range kind }
{
    match kind {
        Kind::Packet {
            id: base,
            off,
            range: known,
        } => {
            if id == base {
                Kind::Packet {
                    id: base,
                    off,
                    range: known.max(range),
                }
            } else {
                kind
            }
        }
        _ => kind,
    }
}

/// The packet's start was moved.
fn told_moved(kind: Kind) -> Kind
    ensures { result ≡ told_moved kind }
{
    match kind {
        Kind::Packet { .. } => Kind::Unset,
        Kind::PacketEnd => Kind::Unset,
        _ => kind,
    }
}

impl Fact {
    /// What is known of a register besides.
    pub(crate) fn of_kind(self, kind: Kind) -> Kind
        ensures { result ≡ told_kind self kind }
    {
        match self {
            Fact::Nothing => kind,
            Fact::Null { id, is_null } => told_null(id, is_null, kind),
            Fact::Range { id, range } => told_range(id, range, kind),
            Fact::HeadMoved => told_moved(kind),
        }
    }

    /// What is known of a word of the stack besides.
    pub(crate) fn of_word(self, word: StackWord) -> StackWord
        ensures { result ≡ told_word self word }
    {
        match word {
            StackWord::Spilled(kind) => StackWord::of_kind(self.of_kind(kind)),
            StackWord::Bytes(_) => word,
        }
    }

    /// How many bytes from the packet's start are then known to lie in the packet: it is the base of id 0.
    pub(crate) fn of_start(self, known: u32) -> u32
        ensures { result ≡ told_start self known }
    {
        match self {
            Fact::Range { id, range } => { if id == 0 { known.max(range) } else { known } }
            Fact::HeadMoved => 0,
            _ => known,
        }
    }
}
