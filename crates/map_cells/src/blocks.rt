//! Parts of one size in one block of memory.

ghost use Rattle.std.specs.Prelude.{◌≡◌, ◌≢◌, ℕ, ◌<◌, ◌≤◌, ◌+◌, ◌*◌, length};
ghost use Rattle.wire.specs.FrameView.{overwritten_at};
ghost use Rattle.map_cells.specs.Blocks.{block_of};

/// The part of a number.
pub fn block_at(bytes: &[u8], size: usize, number: usize) -> &[u8]
    requires { number * size + size ≤ length bytes.now }
    ensures { result.now ≡ block_of size bytes.now number }
{
    let start = number * size;
    &bytes[start..start + size]
}

/// Writes a piece of the part of a number.
pub fn write_at(bytes: &mut Vec<u8>, size: usize, number: usize, offset: usize, piece: &[u8])
    requires within { number * size + size ≤ length bytes.old.items }
    requires piece { offset + length piece.now ≤ size }
    ensures here { block_of size bytes.new.items number ≡ overwritten_at offset piece.now (block_of size bytes.old.items number) }
    ensures elsewhere { (other : ℕ) → other ≢ number → block_of size bytes.new.items other ≡ block_of size bytes.old.items other }
    ensures len { length bytes.new.items ≡ length bytes.old.items }
{
    write(bytes, number * size + offset, piece);
}

/// Writes a piece from an index on. Most pieces are eight bytes, for which one store serves in place of a call that copies.
fn write(bytes: &mut Vec<u8>, start: usize, piece: &[u8])
    requires { start + length piece.now ≤ length bytes.old.items }
    ensures items { bytes.new.items ≡ overwritten_at start piece.now bytes.old.items }
    ensures len { length bytes.new.items ≡ length bytes.old.items }
{
    if piece.len() == 8 {
        bytes[start..start + 8].copy_from_slice(&piece[..8]);
    } else {
        bytes[start..start + piece.len()].copy_from_slice(piece);
    }
}
