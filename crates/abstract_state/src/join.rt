//! What two kinds both know.

ghost use Rattle.std.specs.Prelude.{◌≡◌};
ghost use Rattle.abstract_state.specs.Join.{join_scalar, join_ctx, join_stack, join_packet, join_end, join_map, join_nullable, join_value};
ghost use Rattle.abstract_state.specs.Join.{join_kind};

use crate::kind::{Kind, Offsets};
use abstract_scalar::Interval;
use ebpf_decode::Version;

impl Kind {
    /// What both kinds know: of two numbers the hull of their intervals, in version 2 also of two addresses in one value, of equal
    /// kinds the kind, a packet pointer's with the smaller range, and of any other pair nothing.
    pub fn join(self, version: Version, other: Kind) -> Kind
        ensures { result ≡ join_kind version self other }
    {
        match self {
            Kind::Unset => Kind::Unset,
            Kind::Scalar(i) => join_scalar(i, other),
            Kind::Ctx => join_ctx(other),
            Kind::Stack(place) => join_stack(place, other),
            Kind::Packet { id, off, range } => join_packet(id, off, range, other),
            Kind::PacketEnd => join_end(other),
            Kind::Map(map) => join_map(map, other),
            Kind::ValueOrNull { map, id } => join_nullable(map, id, other),
            Kind::Value { map, id, off } => join_value(version, map, id, off, other),
        }
    }
}

fn join_scalar(i: Interval, other: Kind) -> Kind
    ensures { result ≡ join_scalar i other }
{
    match other {
        Kind::Scalar(j) => Kind::Scalar(i.hull(j)),
        _ => Kind::Unset,
    }
}

fn join_ctx(other: Kind) -> Kind
    ensures { result ≡ join_ctx other }
{
    match other {
        Kind::Ctx => Kind::Ctx,
        _ => Kind::Unset,
    }
}

fn join_stack(place: u16, other: Kind) -> Kind
    ensures { result ≡ join_stack place other }
{
    match other {
        Kind::Stack(same) => {
            if place == same {
                Kind::Stack(place)
            } else {
                Kind::Unset
            }
        }
        _ => Kind::Unset,
    }
}

fn join_packet(id: u16, off: u16, range: u32, other: Kind) -> Kind
    ensures { result ≡ join_packet id off range other }
{
    match other {
        Kind::Packet {
            id: same,
            off: place,
            range: known,
        } => {
            if id == same && off == place {
                Kind::Packet {
                    id,
                    off,
                    range: range.min(known),
                }
            } else {
                Kind::Unset
            }
        }
        _ => Kind::Unset,
    }
}

fn join_end(other: Kind) -> Kind
    ensures { result ≡ join_end other }
{
    match other {
        Kind::PacketEnd => Kind::PacketEnd,
        _ => Kind::Unset,
    }
}

fn join_map(map: u32, other: Kind) -> Kind
    ensures { result ≡ join_map map other }
{
    match other {
        Kind::Map(same) => {
            if map == same {
                Kind::Map(map)
            } else {
                Kind::Unset
            }
        }
        _ => Kind::Unset,
    }
}

fn join_nullable(map: u32, id: u16, other: Kind) -> Kind
    ensures { result ≡ join_nullable map id other }
{
    match other {
        Kind::ValueOrNull {
            map: same,
            id: found,
        } => {
            if map == same && id == found {
                Kind::ValueOrNull { map, id }
            } else {
                Kind::Unset
            }
        }
        _ => Kind::Unset,
    }
}

fn join_value(version: Version, map: u32, id: u16, off: Offsets, other: Kind) -> Kind
    ensures { result ≡ join_value version map id off other }
{
    match other {
        Kind::Value {
            map: same,
            id: found,
            off: place,
        } => {
            if map == same && id == found && off.may_join(place, version) {
                Kind::Value {
                    map,
                    id,
                    off: off.hull(place),
                }
            } else {
                Kind::Unset
            }
        }
        _ => Kind::Unset,
    }
}
