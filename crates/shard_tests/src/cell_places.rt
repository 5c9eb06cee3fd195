//! What the cells hold over a few calls, small and large.

use crate::asserting::{holds, same};
use isa::AtomicOp;
use map_cells::Cells;
use std::alloc::{AllocError, Global};
use std::process::Abort;

#[test]
fn a_retired_cell_keeps_its_bytes_until_it_is_freed(rt: HostRuntime) -> Result<(), AllocError> {
    let mut cells = Cells::new(rt.alloc(), 8, 2, 3)?;
    let first = cells.take(&[1, 2, 3, 4, 5, 6, 7, 8]);
    let second = cells.take(&[9, 0, 0, 0, 0, 0, 0, 0]);
    same(&rt, "ids of two cells", &[first, second], &[0, 1]);
    same(&rt, "bytes 2 and 3", &cells.load(first, 2, 2), &0x0403);
    cells.retire(first, 0);
    cells.store(first, 0, 4, 0xdead_beef);
    same(&rt, "it is held", &cells.free(0), &0);
    same(
        &rt,
        "it takes bytes",
        &cells.load(first, 0, 8),
        &0x0807_0605_dead_beef,
    );
    same(&rt, "it is held no more", &cells.free(1), &1);
    let third = cells.take(&[7; 8]);
    same(&rt, "a third cell", &third, &2);
    let added = cells.atomic(second, 0, 8, AtomicOp::FetchAdd, 33, 0);
    same(&rt, "the number before an addition", &added, &9);
    same(&rt, "and after it", &cells.load(second, 0, 1), &42);
    cells.write(second, &[3; 8]);
    same(
        &rt,
        "bytes that were written",
        &cells.load(second, 4, 4),
        &0x0303_0303,
    );
    holds(
        &rt,
        "the third cell's bytes",
        cells.bytes(third) == [7; 8].as_slice(),
    );
    Ok(())
}

/// A cell that a run holds keeps its bytes, and its place is free again when the run is gone.
pub(crate) fn held_cell(rt: &impl Abort, alloc: Global) -> Result<(), AllocError> {
    let mut cells = Cells::new(alloc, 8, 2, 3)?;
    same(rt, "the first cell", &cells.take(&[1; 8]), &0);
    cells.retire(0, 0);
    // A run is inside that entered before: the floor is 0.
    same(rt, "the first cell is held", &cells.free(0), &0);
    same(rt, "the second cell", &cells.take(&[2; 8]), &1);
    same(rt, "the first cell is still held", &cells.free(0), &0);
    same(rt, "one cell waits", &cells.waiting(), &1);
    same(
        rt,
        "the first cell's bytes",
        &cells.load(0, 0, 8),
        &0x0101_0101_0101_0101,
    );
    same(rt, "the first cell is freed", &cells.free(1), &1);
    same(
        rt,
        "the second cell's bytes",
        &cells.load(1, 0, 8),
        &0x0202_0202_0202_0202,
    );
    same(rt, "the third cell", &cells.take(&[3; 8]), &2);
    Ok(())
}

/// Two cells that wait for their readers leave no place for a third until both are freed.
pub(crate) fn two_retired_cells(rt: &impl Abort, alloc: Global) -> Result<(), AllocError> {
    let mut cells = Cells::new(alloc, 8, 2, 3)?;
    same(rt, "the first cell", &cells.take(&[1; 8]), &0);
    cells.retire(0, 0);
    same(rt, "the second cell", &cells.take(&[2; 8]), &1);
    cells.retire(1, 1);
    same(rt, "both wait", &cells.waiting(), &2);
    same(rt, "both are freed", &cells.free(2), &2);
    same(rt, "the third cell", &cells.take(&[3; 8]), &2);
    Ok(())
}

#[test]
fn many_large_cells(rt: HostRuntime) -> Result<(), AllocError> {
    let mut cells = Cells::new(rt.alloc(), 256, 262_144, 1_310_720)?;
    same(&rt, "none waits", &cells.waiting(), &0);
    same(&rt, "the first cell", &cells.take(&[7; 256]), &0);
    same(
        &rt,
        "its last bytes",
        &cells.load(0, 248, 8),
        &0x0707_0707_0707_0707,
    );
    Ok(())
}
