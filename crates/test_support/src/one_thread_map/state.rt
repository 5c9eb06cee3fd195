//! The state of a map's shard on one thread: its present keys, its cells, and its retired cells. Slow and plain.

ghost use Rattle.std.specs.Prelude.{◌≡◌, ◌<◌, ◌≤◌, ◌==◌, ◌+◌, ◌*◌, ◌++◌, ◌∷◌, [], Bool, not, Option, ℕ, List, IsTrue, IfOk, OnErr};
ghost use Rattle.std.specs.Prelude.{vec_len, vec_capacity, length, reverse, filter, find, option_map, slice_index_or, slice_set};
ghost use Rattle.std.specs.Prelude.{bytes_eq, replicate};
ghost use Rattle.std.specs.List.{list_all};
ghost use Rattle.semantics.specs.PlanLimits.{IsWithinLimits, IsIndexSize};
ghost use Rattle.semantics.specs.Reclamation.{is_reclaimable};
ghost use Rattle.semantics.specs.LeastRecentlyUsed.{last_use, is_least_recently_used, least_recently_used};
ghost use Rattle.semantics.specs.SequentialShard.{opening_cells, cell_of_index, cell_of_present};

use super::history::{is_reclaimable, last_use};
use ebpf_decode::MapKind;
use map_rules::opening::zeros;
use semantics::{Entry, Key, PresentKey, RetiredCell, ShardPlan, Value};
use std::alloc::{AllocError, Global};

/// The lists that make up a shard's state.
#[derive(Drop)]
pub struct ShardState {
    /// The keys that are there, the newest first; of an array none.
    pub present: Vec<PresentKey>,
    /// The bytes of each cell that was ever created, by its id.
    pub cells: Vec<Value>,
    /// The cells that were retired and are not freed, the newest first.
    pub retired: Vec<RetiredCell>,
}

/// The cell of an array's index.
pub fn cell_of_index(plan: &ShardPlan, index: u64) -> Option<u64>
    requires { IsWithinLimits plan.now }
    ensures { result ≡ cell_of_index plan.now index }
{
    if index < u64::from(plan.definition.max_entries) {
        Some(index / u64::from(plan.parts))
    } else {
        None
    }
}

/// The present key of these bytes.
pub fn present_key(present: &[PresentKey], key: &Key) -> Option<PresentKey>
    ensures { result ≡ find (λ (one : PresentKey). bytes_eq one.key key.now) present.now }
{
    present.iter().copied().find(|one| one.key.is_same(key))
}

/// The cell of a present key.
pub fn cell_of_present(present: &[PresentKey], key: &Key) -> Option<u64>
    ensures { result ≡ cell_of_present present.now key.now }
{
    present_key(present, key).map(|found| found.cell)
}

/// Whether no present key was last used earlier than this one.
fn is_least_recently_used(journal: &[Entry], present: &[PresentKey], candidate: &PresentKey) -> bool
    ensures { result ≡ is_least_recently_used (reverse journal.now) present.now candidate.now }
{
    let used = last_use(&candidate.key, journal);
    present
        .iter()
        .all(|other| used <= last_use(&other.key, journal))
}

/// The present key whose last use is earliest.
pub fn least_recently_used(journal: &[Entry], present: &[PresentKey]) -> Option<PresentKey>
    ensures { result ≡ least_recently_used (reverse journal.now) present.now }
{
    present.iter().copied().find(|candidate| is_least_recently_used(journal, present, candidate))
}

/// Takes a key's cell out of the present ones.
pub fn remove_present(present: &mut Vec<PresentKey>, cell: u64)
    ensures others { present.new.items ≡ filter (λ (one : PresentKey). not (one.cell == cell)) present.old.items }
    ensures len { vec_len present.new ≤ vec_len present.old }
    ensures capacity { vec_capacity present.new ≡ vec_capacity present.old }
{
    present.retain(|one| !(one.cell == cell));
}

/// How many retired cells may be freed.
pub fn reclaimable_count(journal: &[Entry], retired: &[RetiredCell]) -> usize
    ensures { result ≡ length (filter (is_reclaimable (reverse journal.now)) retired.now) }
{
    retired
        .iter()
        .filter(|one| is_reclaimable(journal, one))
        .count()
}

/// Frees the retired cells that may be freed.
pub fn remove_reclaimable(journal: &[Entry], retired: &mut Vec<RetiredCell>)
    ensures { retired.new.items ≡ filter (λ one. not (is_reclaimable (reverse journal.now) one)) retired.old.items }
{
    retired.retain(|one| !is_reclaimable(journal, one));
}

/// Puts a present key before the others, for which there is room.
pub fn put_present(present: &mut Vec<PresentKey>, one: PresentKey)
    requires { vec_len present.old < vec_capacity present.old }
    ensures { present.new.items ≡ one ∷ present.old.items }
{
    if present.insert(0, one).is_err() {
        unreachable!()
    }
}

/// Puts a retired cell before the others, for which there is room.
pub fn put_retired(retired: &mut Vec<RetiredCell>, one: RetiredCell)
    requires { vec_len retired.old < vec_capacity retired.old }
    ensures { retired.new.items ≡ one ∷ retired.old.items }
{
    if retired.insert(0, one).is_err() {
        unreachable!()
    }
}

/// Puts a value behind the others, for which there is room.
pub fn put_cell(cells: &mut Vec<Value>, value: Value)
    requires { vec_len cells.old < vec_capacity cells.old }
    ensures { cells.new.items ≡ cells.old.items ++ value ∷ [] }
{
    if cells.push(value).is_err() {
        unreachable!()
    }
}

/// The bytes of a cell: none where there is no such cell.
pub fn cell_bytes(cells: &[Value], cell: u64) -> Value
    ensures { result ≡ slice_index_or cells.now cell [] }
{
    if cell < cells.len() as u64 {
        cells[cell as usize]
    } else {
        Value::empty()
    }
}

/// Writes the bytes of a cell, if there is such a cell.
pub fn set_cell(cells: &mut Vec<Value>, cell: u64, value: Value)
    ensures { cells.new.items ≡ slice_set cells.old.items cell value }
{
    if cell < cells.len() as u64 {
        cells[cell as usize] = value;
    }
}

/// The cells with which a shard is opened: an array has one of zeros for each of its indices.
pub fn opening_cells(alloc: Global, plan: &ShardPlan) -> Result<Vec<Value>, AllocError>
    requires { IsWithinLimits plan.now }
    ensures { IfOk result (λ cells. cells.items ≡ opening_cells plan.now.definition.kind plan.now) }
{
    match plan.definition.kind {
        MapKind::Array => copies(
            alloc,
            u64::from(plan.capacity()),
            zeros(plan.definition.value_size),
        ),
        MapKind::Hash => Ok(Vec::new(alloc)),
        MapKind::LruHash => Ok(Vec::new(alloc)),
    }
}

/// This many copies of a value. Fails only for lack of memory.
pub fn copies(alloc: Global, count: u64, value: Value) -> Result<Vec<Value>, AllocError>
    ensures { IfOk result (λ cells. cells.items ≡ replicate count value) }
{
    let mut cells = Vec::new(alloc);
    for _ in 0..count {
        cells.push(value)?;
    }
    Ok(cells)
}
