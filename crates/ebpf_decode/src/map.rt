//! The definition of a map.

ghost use Rattle.std.specs.Prelude.{◌≡◌, ◌≤◌, length};
ghost use Rattle.ebpf_decode.specs.MapForm.{map_type, map_kind_at, is_key_size, is_value_size, is_entry_count, is_allowed_map, allowed};
ghost use Rattle.ebpf_decode.specs.MapForm.{map_in_bytes};

use crate::version::Version;

/// How a map finds its values (bpf(2); the numbers are Linux's: HASH 1, ARRAY 2, LRU_HASH 9).
#[derive(Clone, Copy, Debug, PartialEq, Eq)]
pub enum MapKind {
    Hash,
    Array,
    LruHash,
}

/// A map's definition, as the image format and bpf(2) have it.
#[derive(Clone, Copy, Debug, PartialEq, Eq)]
pub struct MapDef {
    /// How the map finds its values.
    pub kind: MapKind,
    /// How many bytes a key has.
    pub key_size: u32,
    /// How many bytes a value has.
    pub value_size: u32,
    /// How many keys the map may have.
    pub max_entries: u32,
}

impl MapKind {
    /// Linux's number of the map type.
    pub fn map_type(self) -> u32
        ensures { result ≡ map_type self }
    {
        match self {
            MapKind::Hash => 1,
            MapKind::Array => 2,
            MapKind::LruHash => 9,
        }
    }

    /// The kind of this number, if it is one of the three.
    fn of_type(number: u32) -> Option<MapKind>
        ensures { result ≡ map_kind_at number }
    {
        if number == MapKind::Hash.map_type() {
            Some(MapKind::Hash)
        } else if number == MapKind::Array.map_type() {
            Some(MapKind::Array)
        } else if number == MapKind::LruHash.map_type() {
            Some(MapKind::LruHash)
        } else {
            None
        }
    }

    /// Whether a key of a map of this kind may have this many bytes.
    fn is_key_size(self, size: u32) -> bool
        ensures { result ≡ is_key_size self size }
    {
        match self {
            MapKind::Array => size == 4,
            MapKind::Hash | MapKind::LruHash => 1 <= size && size <= 32,
        }
    }
}

impl MapDef {
    /// Whether an image of this version may have the map: a key has 1 to 32 bytes (of an array: 4), a value 8, 16, .. 64 (in
    /// version 2: to 256), and it has 1 to 131072 entries.
    pub fn is_allowed(self, version: Version) -> bool
        ensures { result ≡ is_allowed_map version self }
    {
        self.kind.is_key_size(self.key_size)
            && is_value_size(version, self.value_size)
            && is_entry_count(self.max_entries)
    }

    /// The map at the front of the bytes, if it is one that an image of this version may have.
    #[tactic(auto, unfolding(crate::specs::MapForm::map_in_bytes))]
    pub(crate) fn of(version: Version, bytes: &[u8]) -> Option<MapDef>
        requires { 16 ≤ length bytes.now }
        ensures { result ≡ map_in_bytes version bytes.now }
    {
        let number = u32::from_le_bytes([bytes[0], bytes[1], bytes[2], bytes[3]]);
        let key_size = u32::from_le_bytes([bytes[4], bytes[5], bytes[6], bytes[7]]);
        let value_size = u32::from_le_bytes([bytes[8], bytes[9], bytes[10], bytes[11]]);
        let max_entries = u32::from_le_bytes([bytes[12], bytes[13], bytes[14], bytes[15]]);
        match MapKind::of_type(number) {
            None => None,
            Some(kind) => {
                let map = MapDef {
                    kind,
                    key_size,
                    value_size,
                    max_entries,
                };
                allowed(version, map)
            }
        }
    }
}

fn allowed(version: Version, map: MapDef) -> Option<MapDef>
    ensures { result ≡ allowed version map }
{
    if map.is_allowed(version) {
        Some(map)
    } else {
        None
    }
}

fn is_value_size(version: Version, size: u32) -> bool
    ensures { result ≡ is_value_size version size }
{
    size % 8 == 0 && 8 <= size && size <= version.most_value_bytes()
}

fn is_entry_count(count: u32) -> bool
    ensures { result ≡ is_entry_count count }
{
    1 <= count && count <= 131_072
}
