//! What is known of a register, and of a word of the stack.

ghost use Rattle.std.specs.Prelude.{◌≡◌};
ghost use Rattle.abstract_state.specs.Places.{at_offset};
ghost use Rattle.abstract_state.specs.Join.{hull_of_offsets, may_join};

use abstract_scalar::Interval;
use ebpf_decode::Version;

/// The offsets at which an address may lie in a map's value, from the lowest to the highest: in an image of version 1 a single one.
#[derive(Clone, Copy, Debug, PartialEq, Eq)]
pub struct Offsets {
    pub low: u32,
    pub high: u32,
}

impl Offsets {
    /// A single offset.
    pub fn at(off: u32) -> Offsets
        ensures { result ≡ at_offset off }
    {
        Offsets {
            low: off,
            high: off,
        }
    }

    /// The offsets from the lowest to the highest of either.
    pub(crate) fn hull(self, other: Offsets) -> Offsets
        ensures { result ≡ hull_of_offsets self other }
    {
        Offsets {
            low: self.low.min(other.low),
            high: self.high.max(other.high),
        }
    }

    /// Whether two addresses of one value may be joined: in version 1 only at the same offset.
    pub(crate) fn may_join(self, other: Offsets, version: Version) -> bool
        ensures { result ≡ may_join version self other }
    {
        match version {
            Version::V1 => self.low == other.low && self.high == other.high,
            Version::V2 => true,
        }
    }
}

/// What is known of what a register holds (its register type, or kind).
#[derive(Clone, Copy, Debug, PartialEq, Eq)]
pub enum Kind {
    /// Nothing was written, or the paths that lead here disagree: it may not be read.
    Unset,
    /// A number of the interval.
    Scalar(Interval),
    /// The context that a run is given.
    Ctx,
    /// A place of the stack, counted from its lowest byte: 512 is the frame pointer's.
    Stack(u16),
    /// The place `off` bytes past the base of an id; `range` bytes from the base are known to lie in the packet. Id 0 is the
    /// packet's start; every other id is the slot of the addition that made it.
    Packet { id: u16, off: u16, range: u32 },
    /// The packet's end.
    PacketEnd,
    /// A map, by its place in the image's list.
    Map(u32),
    /// What the lookup in slot `id` returned: a value of the map, or 0.
    ValueOrNull { map: u32, id: u16 },
    /// A byte of the value that the lookup in slot `id` found, at one of the offsets.
    Value { map: u32, id: u16, off: Offsets },
}

/// What is known of eight bytes of the stack.
#[derive(Clone, Copy, Debug, PartialEq, Eq)]
pub enum StackWord {
    /// A register of this kind was spilled there.
    Spilled(Kind),
    /// Whether each byte was written, the lowest first.
    Bytes([bool; 8]),
}
