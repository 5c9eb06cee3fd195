//! By which words a port names cells: a cell's handle is `shard * 2^32 + id + 1`, its shard's number above its id.

ghost use Rattle.std.specs.Prelude.{◌≡◌, ◌<◌, IsTrue};
ghost use Rattle.journal.specs.Entries.{found_reply};
ghost use Rattle.map_port.specs.Served.{handle_limit};
ghost use Rattle.shard_port.specs.PortView.{cell_of_handle, handle_of, has_small_cell};

use semantics::CellRef;

/// The cell that a handle represents.
pub fn cell_of_handle(handle: u64) -> CellRef
    ensures { result ≡ cell_of_handle handle }
{
    let place = handle.saturating_sub(1);
    CellRef {
        shard: (place / 0x1_0000_0000) as u32,
        id: place % 0x1_0000_0000,
    }
}

/// The handle of the cell that a lookup found in the shard, or 0.
pub fn handle_of_found(shard: u32, found: Option<u64>) -> u64
    requires { IsTrue (has_small_cell (found_reply shard found)) }
    ensures handle { result ≡ handle_of (found_reply shard found) }
    ensures limit { result < handle_limit }
{
    match found {
        Some(id) => u64::from(shard) * 0x1_0000_0000 + id + 1,
        None => 0,
    }
}
