//! Which maps take an update.

ghost use Rattle.std.specs.Prelude.{◌≡◌, IfNone, IfOk, IfSome, string_bytes};
ghost use Rattle.map_updates.specs.Misfits.{length_text, misfit_in, misfit_of, AreFitting, IsFirstMisfit};

use crate::update::MapUpdate;
use ebpf_decode::MapDef;
use std::alloc::{AllocError, Global};

/// Why an image's maps do not take an update.
#[derive(Clone, Copy, Debug, PartialEq, Eq)]
pub enum Misfit {
    /// There is no map at this place.
    NoMap { map: u32 },
    /// Keys of the map have another length, in bytes.
    KeyLength { map: u32, wanted: u32, given: usize },
    /// Its values have another length, in bytes.
    ValueLength { map: u32, wanted: u32, given: usize },
}

impl Misfit {
    ghost use Rattle.std.specs.Prelude.{◌≡◌, IfOk, string_bytes};
    ghost use Rattle.map_updates.specs.Misfits.{misfit_text};

    /// What is wrong, in words. It can fail only for lack of memory.
    pub fn text(self, alloc: Global) -> Result<String, AllocError>
        ensures { IfOk result (λ text. string_bytes text ≡ misfit_text self) }
    {
        match self {
            Misfit::NoMap { map } => format!(in alloc; "the image has no map {map}"),
            Misfit::KeyLength { map, wanted, given } => length_text(
                alloc, "key", map, wanted, given,
            ),
            Misfit::ValueLength { map, wanted, given } => length_text(
                alloc, "value", map, wanted, given,
            ),
        }
    }
}

/// What is printed of a key or a value that has another length than the map's, in bytes.
fn length_text(
    alloc: Global,
    part: &str,
    map: u32,
    wanted: u32,
    given: usize,
) -> Result<String, AllocError>
    ensures { IfOk result (λ text. string_bytes text ≡ length_text part.now map wanted given) }
{
    format!(in alloc; "a {part} of map {map} has {wanted} bytes, not {given}")
}

/// What is wrong with an update of one of these maps; none where its map is there, and key and value have that map's lengths. The key's
/// length is looked at before the value's.
pub fn misfit_of(maps: &[MapDef], update: &MapUpdate) -> Option<Misfit>
    ensures { result ≡ misfit_of maps.now update.now }
{
    match maps.get(update.map as usize) {
        Some(definition) => misfit_in(definition, update),
        None => Some(Misfit::NoMap { map: update.map }),
    }
}

/// The place of the first update, from 0, that these maps do not take, and why; none where they take all.
pub fn first_misfit(maps: &[MapDef], updates: &[MapUpdate]) -> Option<(usize, Misfit)>
    ensures none { IfNone result (AreFitting maps.now updates.now) }
    ensures some { IfSome result (λ found. IsFirstMisfit maps.now updates.now found.0 found.1) }
{
    'updates: for place in 0..updates.len() {
        if let Some(misfit) = misfit_of(maps, &updates[place]) {
            return Some((place, misfit));
        }
    }
    None
}

/// What is wrong with an update of this map.
fn misfit_in(definition: &MapDef, update: &MapUpdate) -> Option<Misfit>
    ensures { result ≡ misfit_in definition.now update.now }
{
    let key = update.key.as_slice().len();
    if key != definition.key_size as usize {
        return Some(Misfit::KeyLength {
            map: update.map,
            wanted: definition.key_size,
            given: key,
        });
    }
    let value = update.value.as_slice().len();
    if value != definition.value_size as usize {
        return Some(Misfit::ValueLength {
            map: update.map,
            wanted: definition.value_size,
            given: value,
        });
    }
    None
}
