//! What a shard holds, as a list: each key that is there with the bytes of its value, in the order of the keys.

ghost use Rattle.std.specs.Prelude.{◌≡◌, ◌<◌, ◌≤◌, ℕ, List, Option, IsTrue, IfOk, All, length, map, reverse};
ghost use Rattle.std.specs.Ordering.{nat_cmp};
ghost use Rattle.std.specs.Cmp.Lexicographic.{slice_cmp};
ghost use Rattle.map_cells.specs.CellTable.{is_kept_id, bytes_of_id};
ghost use Rattle.plain_maps.specs.Listed.{ListsAll, read_entry};
ghost use Rattle.shard_core.specs.Listing.{key_order, AreContents, AreContentsOfShard};

use crate::shard::Shard;
use ebpf_decode::MapKind;
use map_cells::Cells;
use semantics::{Key, Value};
use std::alloc::{AllocError, Global};
use std::cmp::Ordering;

impl Shard {
    /// All that the shard holds now. It is the one-thread shard's, after the calls that were served: also where no rows of them are kept.
    /// Retired cells are not among it. Changes nothing. Fails only for lack of memory.
    pub fn contents(&self, alloc: Global) -> Result<Vec<(Key, Value)>, AllocError>
        ensures { IfOk result (λ entries. AreContentsOfShard self.now entries.items) }
    {
        let keys = self.keys.entries(alloc, self.plan.part)?;
        let entries = with_values(alloc, &self.cells, &keys)?;
        in_order(self.plan.definition.kind, entries)
    }
}

/// Each key with the bytes of its cell.
fn with_values(
    alloc: Global,
    cells: &Cells,
    keys: &[(Key, u64)],
) -> Result<Vec<(Key, Value)>, AllocError>
    requires kept { All (λ entry. IsTrue (is_kept_id cells.now entry.1)) keys.now }
    requires size { cells.now.value_size ≤ 256 }
    ensures { IfOk result (λ entries. entries.items ≡ map (read_entry (bytes_of_id cells.now)) keys.now) }
{
    let mut entries = Vec::new(alloc);
    'keys: for entry in keys {
        entries.push((entry.0, value_in(cells, entry.1)))?;
    }
    Ok(entries)
}

/// A copy of the bytes of a kept cell.
fn value_in(cells: &Cells, id: u64) -> Value
    requires kept { IsTrue (is_kept_id cells.now id) }
    requires size { cells.now.value_size ≤ 256 }
    ensures { result ≡ bytes_of_id cells.now id }
{
    let Some(value) = Value::of(cells.bytes(id)) else {
        unreachable!()
    };
    value
}

/// The entries of a map of this kind in the order of their keys. Fails only for lack of memory.
pub fn in_order(kind: MapKind, entries: Vec<(Key, Value)>) -> Result<Vec<(Key, Value)>, AllocError>
    ensures { (value : List ℕ → Option (List ℕ)) → ListsAll value entries.items →
        IfOk result (λ sorted. AreContents kind value sorted.items) }
{
    let mut sorted = entries;
    sorted.sort_by(|one, other| compared(kind, &one.0, &other.0))?;
    Ok(sorted)
}

/// The order of two keys.
fn compared(kind: MapKind, one: &Key, other: &Key) -> Ordering
    ensures { result ≡ key_order kind one.now other.now }
{
    match kind {
        MapKind::Array => bytewise(&reversed(one), &reversed(other)),
        MapKind::Hash => bytewise(one, other),
        MapKind::LruHash => bytewise(one, other),
    }
}

/// The order of two keys, byte by byte.
fn bytewise(one: &Key, other: &Key) -> Ordering
    ensures { result ≡ slice_cmp nat_cmp one.now other.now }
{
    one.as_slice().cmp(&other.as_slice())
}

/// The bytes from the last one on.
fn reversed(key: &Key) -> Key
    ensures { result ≡ reverse key.now }
{
    let bytes = key.as_slice();
    let mut turned = Key::empty();
    let mut left = bytes.len();
    'bytes: while left > 0 {
        left -= 1;
        turned.append(&[bytes[left]]);
    }
    turned
}
