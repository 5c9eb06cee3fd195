//! Counts of rows by slot of time and class, and by class alone.

ghost use Rattle.std.specs.Prelude.{◌≡◌, ◌+◌, ◌^◌, ◌<◌, IfOk, length, slice_index, slice_set};
ghost use Rattle.page.specs.Tallies.{cell_of_class, cells_until, counts_by_cell, earliest, latest, slot_counts, slot_length, time_slot};
ghost use Rattle.page.specs.Tallies.{time_slots};

use std::alloc::{AllocError, Global};

/// The least moment; of none 0.
pub(crate) fn earliest(moments: &[u64]) -> u64
    ensures { result ≡ earliest moments.now }
{
    let mut least = key_at(moments, 0);
    'moments: for moment in moments {
        least = least.min(*moment);
    }
    least
}

/// The greatest moment; of none 0.
pub(crate) fn latest(moments: &[u64]) -> u64
    ensures { result ≡ latest moments.now }
{
    let mut most = 0;
    'moments: for moment in moments {
        most = most.max(*moment);
    }
    most
}

/// How many microseconds a slot is long.
pub(crate) fn slot_length(first: u64, last: u64) -> u64
    ensures { result ≡ slot_length first last }
{
    last.saturating_sub(first) / 60 + 1
}

/// The slot of a moment.
pub(crate) fn slot_of(first: u64, long: u64, moment: u64) -> usize
    requires { 0 < long }
    ensures { result ≡ time_slot first long moment }
{
    (moment.saturating_sub(first) / long).min(59) as usize
}

/// The slots of moments.
pub(crate) fn slots_of(
    alloc: Global,
    first: u64,
    long: u64,
    moments: &[u64],
) -> Result<Vec<usize>, AllocError>
    requires { 0 < long }
    ensures { IfOk result (λ slots. slots.items ≡ time_slots first long moments.now) }
{
    moments
        .iter()
        .map(|moment| slot_of(first, long, *moment))
        .collect(alloc)
}

/// The cell of a slot and a class, among so many classes.
fn cell_of(count: usize, slot: usize, class: usize) -> usize
    requires { count < 2 ^ 32 }
    ensures { result ≡ cell_of_class count slot class }
{
    if class < count {
        slot.min(59) * count + class
    } else {
        60 * count
    }
}

/// The key at a place, or 0.
pub(crate) fn key_at(keys: &[u64], place: usize) -> u64
    ensures { result ≡ slice_index keys.now place }
{
    match keys.get(place) {
        Some(key) => *key,
        None => 0,
    }
}

/// The number at a place, or 0.
pub(crate) fn at(numbers: &[usize], place: usize) -> usize
    ensures { result ≡ slice_index numbers.now place }
{
    match numbers.get(place) {
        Some(number) => *number,
        None => 0,
    }
}

/// The cells of rows, by their slots and their classes.
fn cells_of(
    alloc: Global,
    count: usize,
    slots: &[usize],
    classes: &[usize],
) -> Result<Vec<usize>, AllocError>
    requires { count < 2 ^ 32 }
    ensures { IfOk result (λ cells. cells.items ≡ cells_until count slots.now classes.now (length slots.now)) }
{
    let mut cells = Vec::new(alloc);
    'rows: for place in 0..slots.len() {
        cells.push(cell_of(count, at(slots, place), at(classes, place)))?;
    }
    Ok(cells)
}

/// Counts one row more in a cell, if there is that cell.
fn add(counts: &mut Vec<usize>, cell: usize)
    requires { slice_index counts.old.items cell + 1 < 2 ^ 64 }
    ensures { counts.new.items ≡ slice_set counts.old.items cell (slice_index counts.old.items cell + 1) }
{
    if cell < counts.len() {
        counts[cell] += 1;
    }
}

/// How many rows are in each of so many cells.
pub(crate) fn counts_of(
    alloc: Global,
    cells: &[usize],
    size: usize,
) -> Result<Vec<usize>, AllocError>
    ensures { IfOk result (λ counts. counts.items ≡ counts_by_cell cells.now size) }
{
    let mut counts = vec![in alloc; 0; size]?;
    'cells: for cell in cells {
        add(&mut counts, *cell);
    }
    Ok(counts)
}

/// How many rows of each class are in each slot.
pub(crate) fn slot_counts(
    alloc: Global,
    count: usize,
    slots: &[usize],
    classes: &[usize],
) -> Result<Vec<usize>, AllocError>
    requires { count < 2 ^ 32 }
    ensures { IfOk result (λ counts. counts.items ≡ slot_counts count slots.now classes.now) }
{
    let cells = cells_of(alloc, count, slots, classes)?;
    counts_of(alloc, &cells, 60 * count)
}
