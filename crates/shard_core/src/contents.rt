//! Cells and keys of a shard, which change together.

ghost use Rattle.std.specs.Prelude.{◌≡◌, ◌≢◌, pos, ◌+◌, ◌≤◌, ◌<◌, ◌^◌, ℕ, IsTrue, IfOk, Some, None, List, length};
ghost use Rattle.semantics.specs.PlanLimits.{IsPlan};
ghost use Rattle.map_cells.specs.CellTable.{is_kept_id, with_retired};
ghost use Rattle.shard_core.specs.KeyTables.{cell_in, victim_cell, without_victim_in, IsAskedSize, IsKeyed, HasRoomForKey, MayGrow, IsRemoved};
ghost use Rattle.shard_core.specs.Sections.{with_next_epoch, with_epoch_after};
ghost use Rattle.shard_core.specs.Contents.{opened_table, filled_table, with_evicted, CanCreate, CanRetire, IsPut};

use crate::keys::KeyTable;
use crate::readers::Readers;
use ebpf_decode::MapKind;
use map_cells::Cells;
use map_rules::opening::zeros;
use semantics::ShardPlan;
use std::alloc::{AllocError, Global};

/// The cells of a shard in which nothing has happened. Each key may have two, so that a retired one may wait for its readers; an array
/// has one of zeros for each of its indices.
pub(crate) fn open_cells(alloc: Global, plan: &ShardPlan) -> Result<Cells, AllocError>
    requires { IsPlan plan.now }
    ensures { IfOk result (λ cells. cells ≡ opened_table plan.now.definition.kind plan.now) }
{
    let size = plan.definition.value_size;
    let capacity = plan.capacity();
    match plan.definition.kind {
        MapKind::Array => array_cells(alloc, capacity, plan.reserve, zeros(size).as_slice()),
        MapKind::Hash => Cells::new(alloc, size as usize, 2 * capacity, plan.reserve as usize),
        MapKind::LruHash => Cells::new(alloc, size as usize, 2 * capacity, plan.reserve as usize),
    }
}

/// This many cells of one value, and no room for more.
fn array_cells(alloc: Global, count: u32, reserve: u32, value: &[u8]) -> Result<Cells, AllocError>
    requires size { length value.now ≤ 256 }
    requires count { count ≤ 131072 }
    ensures { IfOk result (λ cells. cells ≡ filled_table value.now count (count + reserve) count) }
{
    let ids = count as usize + reserve as usize;
    let mut cells = Cells::new(alloc, value.len(), count, ids)?;
    for _ in 0..count {
        cells.take(value);
    }
    Ok(cells)
}

/// Writes the value of a key where its Update is answered 0: into the cell that the key has, or into a new one. In a full LRU shard another
/// key goes first, whose cell waits for its readers from now on.
pub(crate) fn put_value(
    code: i32,
    cells: &mut Cells,
    keys: &mut KeyTable,
    readers: &mut Readers,
    key: &[u8],
    value: &[u8],
)
    requires size { IsAskedSize keys.old (length key.now) }
    requires value { length value.now ≡ cells.old.value_size }
    requires kept { (cell : ℕ) → cell_in keys.old key.now ≡ Some cell → IsTrue (is_kept_id cells.old cell) }
    requires room { code ≡ pos 0 → cell_in keys.old key.now ≡ None → CanCreate cells.old keys.old readers.old.present }
    requires stamps { readers.old.present < 2 ^ 62 }
    ensures done { code ≡ pos 0 →
        IsPut (cell_in keys.old key.now) key.now value.now cells.old keys.old readers.old cells.new keys.new readers.new }
    ensures refused { code ≢ pos 0 → (cells.new ≡ cells.old) × (keys.new ≡ keys.old) × (readers.new ≡ readers.old) }
{
    if code == 0 {
        write_value(cells, keys, readers, key, value);
    }
}

/// Writes the value of a key into the cell that the key has, or into a new one. In a full LRU shard another key goes first, whose cell
/// waits for its readers from now on.
fn write_value(
    cells: &mut Cells,
    keys: &mut KeyTable,
    readers: &mut Readers,
    key: &[u8],
    value: &[u8],
)
    requires size { IsAskedSize keys.old (length key.now) }
    requires value { length value.now ≡ cells.old.value_size }
    requires kept { (cell : ℕ) → cell_in keys.old key.now ≡ Some cell → IsTrue (is_kept_id cells.old cell) }
    requires room { cell_in keys.old key.now ≡ None → CanCreate cells.old keys.old readers.old.present }
    requires stamps { readers.old.present < 2 ^ 62 }
    ensures { IsPut (cell_in keys.old key.now) key.now value.now cells.old keys.old readers.old cells.new keys.new readers.new }
{
    match keys.touch(key) {
        Some(cell) => cells.write(cell, value),
        None => {
            make_room(cells, keys, readers);
            let id = cells.take(value);
            keys.insert(key, id);
        }
    }
}

/// Makes room for one more key: in a full LRU shard the key goes that was used longest ago, and its cell waits for its readers from now
/// on.
fn make_room(cells: &mut Cells, keys: &mut KeyTable, readers: &mut Readers)
    requires room { MayGrow keys.old }
    requires victim { (cell : ℕ) → victim_cell keys.old ≡ Some cell → CanRetire cells.old cell readers.old.present }
    requires stamps { readers.old.present < 2 ^ 62 }
    ensures cells { cells.new ≡ with_evicted (victim_cell keys.old) readers.old.present cells.old }
    ensures keys { keys.new ≡ without_victim_in keys.old }
    ensures readers { readers.new ≡ with_epoch_after (victim_cell keys.old) readers.old }
    ensures shape { (cells.new.value_size ≡ cells.old.value_size) × (cells.new.free ≡ cells.old.free) × (cells.new.ids ≡ cells.old.ids) }
    ensures count { length cells.new.cells ≡ length cells.old.cells }
    ensures room { HasRoomForKey keys.new }
    ensures size { (size : ℕ) → IsAskedSize keys.old size → IsAskedSize keys.new size }
    ensures absent { (q : List ℕ) → cell_in keys.old q ≡ None → cell_in keys.new q ≡ None }
{
    if let Some(cell) = keys.evict_if_full() {
        cells.retire(cell, readers.stamp());
    }
}

/// Takes out a key where its Delete is answered 0: its cell waits for its readers from now on.
pub(crate) fn retire_key(
    code: i32,
    cells: &mut Cells,
    keys: &mut KeyTable,
    readers: &mut Readers,
    key: &[u8],
)
    requires size { IsAskedSize keys.old (length key.now) }
    requires keyed { code ≡ pos 0 → IsKeyed keys.old }
    requires retired { (cell : ℕ) → code ≡ pos 0 → cell_in keys.old key.now ≡ Some cell → CanRetire cells.old cell readers.old.present }
    requires stamps { readers.old.present < 2 ^ 62 }
    ensures cells { (cell : ℕ) → code ≡ pos 0 → cell_in keys.old key.now ≡ Some cell →
        cells.new ≡ with_retired cells.old cell readers.old.present }
    ensures keys { code ≡ pos 0 → IsRemoved key.now keys.old keys.new }
    ensures readers { code ≡ pos 0 → readers.new ≡ with_epoch_after (cell_in keys.old key.now) readers.old }
    ensures refused { code ≢ pos 0 → (cells.new ≡ cells.old) × (keys.new ≡ keys.old) × (readers.new ≡ readers.old) }
{
    if code != 0 {
        return;
    }
    match keys.remove(key) {
        Some(cell) => cells.retire(cell, readers.stamp()),
        None => {}
    }
}
