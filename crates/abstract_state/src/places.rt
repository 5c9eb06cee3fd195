//! Where an access may go.

ghost use Rattle.std.specs.Prelude.{◌≡◌, ◌≤◌, slice_get};
ghost use Rattle.abstract_state.specs.States.{value_size_of, key_size_of};
ghost use Rattle.abstract_state.specs.Places.{place_within, range_within, aligned, stack_access, packet_access, offsets_within};
ghost use Rattle.abstract_state.specs.Places.{value_range, value_access, atomic_access};

use crate::broken_rule::BrokenRule;
use crate::kind::Offsets;
use ebpf_decode::MapDef;

/// How many bytes the stack has. A place of the stack counts from the lowest, so the frame pointer's is this one.
pub const STACK_SIZE: u16 = 512;

/// A place from 0 to a limit.
pub(crate) fn place_within(place: i128, limit: u32, why: BrokenRule) -> Result<u32, BrokenRule>
    ensures { result ≡ place_within place limit why }
{
    if 0 <= place && place <= i128::from(limit) {
        Ok(place as u32)
    } else {
        Err(why)
    }
}

/// Where this many bytes begin that end at a limit or before.
pub(crate) fn range_within(
    place: i64,
    count: u32,
    limit: u32,
    why: BrokenRule,
) -> Result<u32, BrokenRule>
    ensures { result ≡ range_within place count limit why }
{
    if 0 <= place && i128::from(place) + i128::from(count) <= i128::from(limit) {
        Ok(place as u32)
    } else {
        Err(why)
    }
}

/// A place at a multiple of the size.
fn aligned(place: u32, count: u32) -> Result<u32, BrokenRule>
    requires { 1 ≤ count }
    ensures { result ≡ aligned place count }
{
    if place % count == 0 {
        Ok(place)
    } else {
        Err(BrokenRule::Misaligned)
    }
}

/// Where an access of the stack begins.
pub(crate) fn stack_access(place: u16, offset: i16, count: u32) -> Result<u32, BrokenRule>
    requires { 1 ≤ count }
    ensures { result ≡ stack_access place offset count }
{
    let from = range_within(
        i64::from(place) + i64::from(offset),
        count,
        u32::from(STACK_SIZE),
        BrokenRule::StackBounds,
    )?;
    aligned(from, count)
}

/// Where an access of the packet begins, counted from its id's base.
pub(crate) fn packet_access(
    off: u16,
    range: u32,
    offset: i16,
    count: u32,
) -> Result<u32, BrokenRule>
    ensures { result ≡ packet_access off range offset count }
{
    range_within(
        i64::from(off) + i64::from(offset),
        count,
        range,
        BrokenRule::PacketBounds,
    )
}

/// Both ends of what was moved, from 0 to the value's size.
pub(crate) fn offsets_within(
    maps: &[MapDef],
    map: u32,
    low: i128,
    high: i128,
) -> Result<Offsets, BrokenRule>
    ensures { result ≡ offsets_within maps.now map low high }
{
    let size = value_size(maps, map);
    let low = place_within(low, size, BrokenRule::ValueBounds)?;
    let high = place_within(high, size, BrokenRule::ValueBounds)?;
    Ok(Offsets { low, high })
}

/// From the lowest offset and from the highest this many bytes lie in the map's value: where the first begin.
fn value_range(
    maps: &[MapDef],
    map: u32,
    off: Offsets,
    offset: i16,
    count: u32,
) -> Result<u32, BrokenRule>
    ensures { result ≡ value_range maps.now map off offset count }
{
    let size = value_size(maps, map);
    let from = range_within(
        i64::from(off.low) + i64::from(offset),
        count,
        size,
        BrokenRule::ValueBounds,
    )?;
    range_within(
        i64::from(off.high) + i64::from(offset),
        count,
        size,
        BrokenRule::ValueBounds,
    )?;
    Ok(from)
}

/// Where a load from a map's value or a store to it begins: at a single offset, at a multiple of its size.
pub(crate) fn value_access(
    maps: &[MapDef],
    map: u32,
    off: Offsets,
    offset: i16,
    count: u32,
) -> Result<u32, BrokenRule>
    requires { 1 ≤ count }
    ensures { result ≡ value_access maps.now map off offset count }
{
    let from = value_range(maps, map, off, offset, count)?;
    if off.low == off.high {
        aligned(from, count)
    } else {
        Ok(from)
    }
}

/// Where an atomic operation on a map's value begins: at a single offset, and a multiple of its size.
pub(crate) fn atomic_access(
    maps: &[MapDef],
    map: u32,
    off: Offsets,
    offset: i16,
    count: u32,
) -> Result<u32, BrokenRule>
    requires { 1 ≤ count }
    ensures { result ≡ atomic_access maps.now map off offset count }
{
    let from = value_range(maps, map, off, offset, count)?;
    if off.low == off.high {
        aligned(from, count)
    } else {
        Err(BrokenRule::Misaligned)
    }
}

/// How many bytes the values of a map have.
pub(crate) fn value_size(maps: &[MapDef], map: u32) -> u32
    ensures { result ≡ value_size_of (slice_get maps.now map) }
{
    match maps.get(map as usize) {
        Some(definition) => definition.value_size,
        None => 0,
    }
}

/// How many bytes the keys of a map have.
pub(crate) fn key_size(maps: &[MapDef], map: u32) -> u32
    ensures { result ≡ key_size_of (slice_get maps.now map) }
{
    match maps.get(map as usize) {
        Some(definition) => definition.key_size,
        None => 0,
    }
}
