//! The six maps of steering.

ghost use Rattle.std.specs.Prelude.{◌≡◌, ℕ, ◌≤◌, ◌↔◌, IfOk, IfSome, IsErrOf, IsNone, IsTrue, slice_get};
ghost use Rattle.maglev.specs.RingSize.{IsRingSize};
ghost use Rattle.conntrack.specs.SteeringMaps.{map_place, ring_entries, steering_maps, sized_maps};
ghost use Rattle.conntrack.specs.SteeringMaps.{IsNoteCount, AreSteeringMaps};
ghost use Rattle.conntrack.specs.declared.fault.SteerFault.TheVariants.{BadSize};

use crate::fault::SteerFault;
use ebpf_decode::{MapDef, MapKind};
use maglev::{MOST_BACKENDS, RING_SIZES, is_ring_size};
use std::alloc::Global;

/// How many services the map of services takes.
pub const MOST_SERVICES: u32 = 64;

/// How many backends the map of backends has: their numbers are below it.
pub const BACKENDS: u32 = MOST_BACKENDS;

/// How many notes the flow table has where nothing is said of it.
pub const NOTES: u32 = 4096;

/// How many notes a flow table may have.
pub const NOTE_COUNTS: [u32; 6] = [4096, 8192, 16384, 32768, 65536, 131072];

/// A map of steering.
#[derive(Clone, Copy, Debug, PartialEq, Eq)]
pub enum SteeringMap {
    /// The services: what clients send to.
    Vips,
    /// The backend that was noted for each flow.
    Flows,
    /// The lookup table: the backend of each slot.
    Ring,
    /// The backends, by their numbers.
    Backends,
    /// The tunnel, at index 0.
    Ctl,
    /// How many frames got each verdict, by its number.
    Stats,
}

impl SteeringMap {
    /// The map's place in the image's list.
    pub fn place(self) -> u32
        ensures { result ≡ map_place self }
    {
        match self {
            SteeringMap::Vips => 0,
            SteeringMap::Flows => 1,
            SteeringMap::Ring => 2,
            SteeringMap::Backends => 3,
            SteeringMap::Ctl => 4,
            SteeringMap::Stats => 5,
        }
    }
}

fn defined(kind: MapKind, key_size: u32, value_size: u32, max_entries: u32) -> MapDef
    ensures { result ≡ record { kind = kind; key_size = key_size; value_size = value_size; max_entries = max_entries } }
{
    MapDef {
        kind,
        key_size,
        value_size,
        max_entries,
    }
}

/// Whether a flow table may have so many notes.
pub fn is_note_count(notes: u32) -> bool
    ensures { IsTrue result ↔ IsNoteCount notes }
{
    NOTE_COUNTS.contains(&notes)
}

/// The maps for a flow table of so many notes and a lookup table of this size.
fn defined_maps(notes: u32, size: u32) -> [MapDef; 6]
    requires { size ≤ 65537 }
    ensures { result ≡ sized_maps notes size }
{
    let ring = (size + 7) / 8 * 8;
    [
        defined(MapKind::Hash, 8, 8, MOST_SERVICES),
        defined(MapKind::LruHash, 16, 8, notes),
        defined(MapKind::Array, 4, 8, ring),
        defined(MapKind::Array, 4, 8, BACKENDS),
        defined(MapKind::Array, 4, 24, 8),
        defined(MapKind::Array, 4, 8, 8),
    ]
}

// Whether it is the same map.
fn is_same(one: &MapDef, other: &MapDef) -> bool
    ensures { IsTrue result ↔ (one.now ≡ other.now) }
{
    one.kind == other.kind
        && one.key_size == other.key_size
        && one.value_size == other.value_size
        && one.max_entries == other.max_entries
}

// Whether these are the maps for a flow table of so many notes and a lookup table of this size.
fn are_for(maps: &[MapDef], notes: u32, size: u32) -> bool
    requires { size ≤ 65537 }
    ensures { IsTrue result ↔ (maps.now ≡ sized_maps notes size) }
{
    let wanted = defined_maps(notes, size);
    if maps.len() != wanted.len() {
        return false;
    }
    'places: for place in 0..wanted.len() {
        if !is_same(&maps[place], &wanted[place]) {
            return false;
        }
    }
    true
}

/// The definitions of the six maps, for a lookup table of `size` slots and a flow table of 4096 notes. Refused with 73 exactly where the
/// size is none of Maglev's here (7, 251, 4093, 65537), and with 74 without memory.
pub fn maps(alloc: Global, size: u32) -> Result<Vec<MapDef>, SteerFault>
    ensures maps { IfOk result (λ maps. maps.items ≡ steering_maps size) }
    ensures bad_size { IsErrOf result BadSize ↔ ¬ IsRingSize size }
{
    maps_with(alloc, NOTES, size)
}

/// The same with a flow table of `notes` notes. Refused with 73 exactly where the size is none of Maglev's here, or the notes are not
/// 4096, 8192, 16384, 32768, 65536 or 131072; and with 74 without memory.
pub fn maps_with(alloc: Global, notes: u32, size: u32) -> Result<Vec<MapDef>, SteerFault>
    ensures maps { IfOk result (λ maps. maps.items ≡ sized_maps notes size) }
    ensures bad_size { IsErrOf result BadSize ↔ ¬ (IsNoteCount notes × IsRingSize size) }
{
    if !is_note_count(notes) || !is_ring_size(size) {
        return Err(SteerFault::BadSize);
    }
    let mut maps = Vec::new(alloc);
    maps.extend_from_slice(&defined_maps(notes, size))?;
    Ok(maps)
}

// How many notes the flow table of these maps has, if one may have so many.
fn notes_of(maps: &[MapDef]) -> Option<u32>
    ensures notes { IfSome result
        (λ notes. IsNoteCount notes × IfSome (slice_get maps.now 1) (λ definition. definition.max_entries ≡ notes)) }
    ensures none { IsNone result → (notes size : ℕ) → IsNoteCount notes → ¬ (maps.now ≡ sized_maps notes size) }
{
    match maps.get(1) {
        Some(flows) if is_note_count(flows.max_entries) => Some(flows.max_entries),
        _ => None,
    }
}

/// The size of the lookup table for which these are the six maps, whatever number of notes their flow table may have. None where they
/// are the six maps for no size.
pub fn table_size(maps: &[MapDef]) -> Option<u32>
    ensures size { IfSome result (λ size. IsRingSize size × AreSteeringMaps size maps.now) }
    ensures none { IsNone result → (size : ℕ) → IsRingSize size → ¬ AreSteeringMaps size maps.now }
{
    let notes = notes_of(maps)?;
    'sizes: for size in RING_SIZES {
        if are_for(maps, notes, size) {
            return Some(size);
        }
    }
    None
}
