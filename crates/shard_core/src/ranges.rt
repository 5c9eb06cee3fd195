//! Numbers in some bytes of a kept cell, the lowest byte first.

ghost use Rattle.std.specs.Prelude.{◌≡◌, ◌⊎◌, ◌+◌, ◌≤◌, ◌<◌, ◌^◌, IsTrue};
ghost use Rattle.map_cells.specs.CellTable.{is_kept_id, cell_number_at, with_number, with_change};

use isa::AtomicOp;
use journal::{AtomicChange, CellRange};
use map_cells::Cells;

/// The number that these bytes make.
pub(crate) fn number_in(cells: &Cells, range: &CellRange) -> u64
    requires kept { IsTrue (is_kept_id cells.now range.now.cell) }
    requires within { range.now.offset + range.now.size ≤ cells.now.value_size }
    requires narrow { range.now.size ≤ 8 }
    ensures { result ≡ cell_number_at cells.now range.now.cell range.now.offset range.now.size }
{
    cells.load(range.cell, range.offset as usize, range.size as usize)
}

/// Writes a number into these bytes.
pub(crate) fn put_number(cells: &mut Cells, range: &CellRange, value: u64)
    requires kept { IsTrue (is_kept_id cells.old range.now.cell) }
    requires within { range.now.offset + range.now.size ≤ cells.old.value_size }
    requires narrow { range.now.size ≤ 8 }
    ensures { cells.new ≡ with_number cells.old range.now.cell range.now.offset range.now.size value }
{
    let offset = range.offset as usize;
    let size = range.size as usize;
    cells.store(range.cell, offset, size, value);
}

/// Changes the number in these bytes, which are four or eight, by an atomic operation, and returns what it was.
pub(crate) fn change_number(
    cells: &mut Cells,
    range: &CellRange,
    op: AtomicOp,
    change: &AtomicChange,
) -> u64
    requires kept { IsTrue (is_kept_id cells.old range.now.cell) }
    requires within { range.now.offset + range.now.size ≤ cells.old.value_size }
    requires size { (range.now.size ≡ 4) ⊎ (range.now.size ≡ 8) }
    requires operand { change.now.value < 256 ^ range.now.size }
    requires expected { change.now.expected < 256 ^ range.now.size }
    ensures old { result ≡ cell_number_at cells.old range.now.cell range.now.offset range.now.size }
    ensures table { cells.new ≡ with_change cells.old range.now.cell range.now.offset range.now.size op change.now.value
        change.now.expected }
{
    let offset = range.offset as usize;
    let size = range.size as usize;
    cells.atomic(range.cell, offset, size, op, change.value, change.expected)
}
