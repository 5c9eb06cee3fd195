//! The table of cells.

ghost use Rattle.std.specs.Prelude.{◌≡◌, ◌≢◌, ◌<◌, ◌≤◌, ◌+◌, ◌*◌, ◌^◌, ◌⊎◌, ℕ, IsTrue, IfOk, IfSome, Some, None};
ghost use Rattle.std.specs.Prelude.{true, false, List, [], ◌∷◌, ◌++◌, length, filter, vec_len, vec_capacity, slice_index_or};
ghost use Rattle.isa.specs.Atomic.{atomic_result};
ghost use Rattle.wire.specs.FrameView.{overwritten_at};
ghost use Rattle.semantics.specs.LittleEndian.{bytes_of_number};
ghost use Rattle.map_cells.specs.Blocks.{block_of};
ghost use Rattle.map_cells.specs.CellTable.{CellTable, empty_table, is_kept_id, bytes_of_id, cell_number_at, with_new_cell, with_bytes, with_number};
ghost use Rattle.map_cells.specs.CellTable.{with_change, with_retired};
ghost use Rattle.map_cells.specs.CellTable.{is_below, freed_below, oldest_stamp, without_oldest, IsLowestStamp, IsNotRetired};
ghost use Rattle.map_cells.specs.CellTable.{IsLatestStamp};

use crate::blocks::{block_at, write_at};
use crate::id_places::IdPlaces;
use crate::retired::Retired;
use isa::{AtomicOp, Width, atomic};
use semantics::little_endian::{bytes_of_number, number_of_bytes};
use std::alloc::{AllocError, Global};
use std::collections::VecDeque;
use std::marker::Model;

/// The cells of one shard. Contracts see a `CellTable`.
#[derive(Drop)]
pub struct Cells {
    /// How many bytes a cell has.
    size: usize,
    places: u32,
    ids: usize,
    /// The cells by place, one behind the other.
    bytes: Vec<u8>,
    /// The place of each id that was given and is not freed.
    place_of: IdPlaces,
    /// The places that no cell has.
    free: Vec<u32>,
    retired: VecDeque<Retired>,
}

impl Model for Cells {
    ghost use Rattle.std.specs.Prelude.{vec_capacity};
    ghost use Rattle.std.specs.VecDeque.{deque_capacity};
    ghost use Rattle.map_cells.specs.CellTable.{CellTable};
    ghost use Rattle.map_cells.specs.Places.{IsTableOfCells, cell_table};

    ghost Value = { CellTable };

    ghost view = { λ t. cell_table t.size t.places t.ids t.bytes.items t.place_of.places t.free.items t.retired.items };

    ghost invariant = { λ t. IsTableOfCells t.size t.places t.ids t.bytes.items t.place_of.places t.free.items t.retired.items
        t.place_of.room (vec_capacity t.free) (deque_capacity t.retired) };
}

impl Cells {
    /// A table with no cell, and room for `places` cells of `value_size` bytes at a time and for `ids` ids in all. Fails only for
    /// lack of memory; no other call takes any.
    pub fn new(
        alloc: Global,
        value_size: usize,
        places: u32,
        ids: usize,
    ) -> Result<Self, AllocError>
        requires size { value_size ≤ 256 }
        requires places { places < 4294967295 }
        ensures { IfOk result (λ cells. cells ≡ empty_table value_size places ids) }
    {
        let free = all_places(alloc, places)?;
        Ok(Cells {
            size: value_size,
            places,
            ids,
            bytes: vec![in alloc; 0; places as usize * value_size]?,
            place_of: IdPlaces::new(alloc, places)?,
            free,
            retired: VecDeque::with_capacity(alloc, places as usize)?,
        })
    }

    /// Makes a cell of these bytes at a free place, and returns its id: the number of cells that were made before.
    pub fn take(&mut self, bytes: &[u8]) -> u64
        requires size { length bytes.now ≡ self.old.value_size }
        requires free { 0 < self.old.free }
        requires ids { length self.old.cells < self.old.ids }
        ensures id { result ≡ length self.old.cells }
        ensures table { self.new ≡ with_new_cell self.old bytes.now }
    {
        let id = self.place_of.len();
        let place = taken_place(&mut self.free);
        write_at(&mut self.bytes, self.size, place as usize, 0, bytes);
        self.place_of.push(place);
        id as u64
    }

    /// Has a kept cell wait until no run is left that entered before the stamp.
    pub fn retire(&mut self, id: u64, stamp: u64)
        requires kept { IsTrue (is_kept_id self.old id) }
        requires once { IsNotRetired self.old id }
        requires room { length self.old.retired < self.old.places }
        requires latest { IsLatestStamp self.old stamp }
        ensures { self.new ≡ with_retired self.old id stamp }
    {
        let placed = self.retired.push_back(Retired { id, stamp });
        prove!(placed.is_ok());
    }

    /// The bytes of a kept cell.
    pub fn bytes(&self, id: u64) -> &[u8]
        requires { IsTrue (is_kept_id self.now id) }
        ensures bytes { result.now ≡ bytes_of_id self.now id }
        ensures size { length result.now ≡ self.now.value_size }
    {
        let place = self.place_of.place(id);
        block_at(&self.bytes, self.size, place)
    }

    /// Writes all bytes of a kept cell.
    pub fn write(&mut self, id: u64, bytes: &[u8])
        requires kept { IsTrue (is_kept_id self.old id) }
        requires size { length bytes.now ≡ self.old.value_size }
        ensures { self.new ≡ with_bytes self.old id bytes.now }
    {
        let place = self.place_of.place(id);
        write_at(&mut self.bytes, self.size, place, 0, bytes);
    }

    /// The number that `size` bytes of a kept cell make, the lowest byte first.
    pub fn load(&self, id: u64, offset: usize, size: usize) -> u64
        requires kept { IsTrue (is_kept_id self.now id) }
        requires within { offset + size ≤ self.now.value_size }
        requires size { size ≤ 8 }
        ensures number { result ≡ cell_number_at self.now id offset size }
        ensures below { result < 256 ^ size }
    {
        let bytes = self.bytes(id);
        number_of_bytes(&bytes[offset..offset + size])
    }

    /// Writes a number into `size` bytes of a kept cell, the lowest byte first.
    pub fn store(&mut self, id: u64, offset: usize, size: usize, value: u64)
        requires kept { IsTrue (is_kept_id self.old id) }
        requires within { offset + size ≤ self.old.value_size }
        requires size { size ≤ 8 }
        ensures { self.new ≡ with_number self.old id offset size value }
    {
        let place = self.place_of.place(id);
        put_number(&mut self.bytes, self.size, place, offset, size, value);
    }

    /// Changes a number in a kept cell by an atomic operation, and returns what it was. `size` is 4 or 8.
    pub fn atomic(
        &mut self,
        id: u64,
        offset: usize,
        size: usize,
        operation: AtomicOp,
        operand: u64,
        expected: u64,
    ) -> u64
        requires kept { IsTrue (is_kept_id self.old id) }
        requires within { offset + size ≤ self.old.value_size }
        requires size { (size ≡ 4) ⊎ (size ≡ 8) }
        requires operand { operand < 256 ^ size }
        requires expected { expected < 256 ^ size }
        ensures old { result ≡ cell_number_at self.old id offset size }
        ensures table { self.new ≡ with_change self.old id offset size operation operand expected }
    {
        let old = self.load(id, offset, size);
        let new = changed(size, operation, old, operand, expected);
        self.store(id, offset, size, new);
        old
    }

    /// Frees the retired cells whose stamps are below the floor, and says how many they were. Their places are used again, their
    /// ids are not.
    pub fn free(&mut self, floor: u64) -> u64
        ensures count { result ≡ length (filter (is_below floor) self.old.retired) }
        ensures table { self.new ≡ freed_below floor self.old }
    {
        let _most = self.waiting();
        let mut count = 0;
        while let Some(stamp) = self.oldest() {
            if may_be_held(stamp, floor) {
                break;
            }
            self.free_oldest();
            count += 1;
        }
        count
    }

    /// How many retired cells wait for their readers.
    pub fn waiting(&self) -> usize
        ensures { result ≡ length self.now.retired }
    {
        self.retired.len()
    }

    /// The stamp of the oldest retirement.
    fn oldest(&self) -> Option<u64>
        ensures stamp { result ≡ oldest_stamp self.now.retired }
        ensures lowest { IfSome result (λ stamp. IsLowestStamp self.now.retired stamp) }
    {
        match self.retired.front() {
            Some(one) => Some(one.stamp),
            None => None,
        }
    }

    /// Frees the cell that was retired first.
    fn free_oldest(&mut self)
        requires { 0 < length self.old.retired }
        ensures { self.new ≡ without_oldest self.old }
    {
        let Some(one) = self.retired.pop_front() else {
            unreachable!()
        };
        let place = self.place_of.take(one.id);
        give_place(&mut self.free, place);
    }
}

/// Writes a number of `count` bytes into the part of a number, from an offset on. Nearly all numbers have eight bytes.
fn put_number(
    bytes: &mut Vec<u8>,
    size: usize,
    place: usize,
    offset: usize,
    count: usize,
    value: u64,
)
    requires count { count ≤ 8 }
    requires within { place * size + size ≤ length bytes.old.items }
    requires piece { offset + count ≤ size }
    ensures here { block_of size bytes.new.items place ≡
        overwritten_at offset (bytes_of_number count value) (block_of size bytes.old.items place) }
    ensures elsewhere { (other : ℕ) → other ≢ place → block_of size bytes.new.items other ≡ block_of size bytes.old.items other }
    ensures len { length bytes.new.items ≡ length bytes.old.items }
{
    if count == 8 {
        write_at(bytes, size, place, offset, &value.to_le_bytes());
    } else {
        put_short_number(bytes, size, place, offset, count, value);
    }
}

/// The same for any count. It stays out of its callers: inlined there, the counts would be one jump through a table, which takes longer
/// than the write.
#[inline(never)]
fn put_short_number(
    bytes: &mut Vec<u8>,
    size: usize,
    place: usize,
    offset: usize,
    count: usize,
    value: u64,
)
    requires count { count ≤ 8 }
    requires within { place * size + size ≤ length bytes.old.items }
    requires piece { offset + count ≤ size }
    ensures here { block_of size bytes.new.items place ≡
        overwritten_at offset (bytes_of_number count value) (block_of size bytes.old.items place) }
    ensures elsewhere { (other : ℕ) → other ≢ place → block_of size bytes.new.items other ≡ block_of size bytes.old.items other }
    ensures len { length bytes.new.items ≡ length bytes.old.items }
{
    let number = bytes_of_number(count as u64, value);
    write_at(bytes, size, place, offset, number.as_slice());
}

/// What an atomic operation makes of a number of 4 or 8 bytes.
fn changed(size: usize, operation: AtomicOp, old: u64, operand: u64, expected: u64) -> u64
    requires size { (size ≡ 4) ⊎ (size ≡ 8) }
    requires old { old < 256 ^ size }
    requires operand { operand < 256 ^ size }
    requires expected { expected < 256 ^ size }
    ensures { result ≡ atomic_result (8 * size) operation old operand expected }
{
    if size == 4 {
        atomic(operation, Width::Bits32, old, operand, expected)
    } else {
        atomic(operation, Width::Bits64, old, operand, expected)
    }
}

/// Whether a run may be inside that entered before the retirement with this stamp.
fn may_be_held(stamp: u64, floor: u64) -> bool
    ensures held { result ≡ true → floor ≤ stamp }
    ensures free { result ≡ false → stamp < floor }
{
    stamp >= floor
}

/// Takes one of the free places.
fn taken_place(free: &mut Vec<u32>) -> u32
    requires { 0 < length free.old.items }
    ensures items { free.old.items ≡ free.new.items ++ result ∷ [] }
    ensures room { vec_capacity free.new ≡ vec_capacity free.old }
{
    let Some(place) = free.pop() else {
        unreachable!()
    };
    place
}

/// Puts a place among the free ones, which have room for it.
fn give_place(free: &mut Vec<u32>, freed: u32)
    requires { length free.old.items < vec_capacity free.old }
    ensures items { free.new.items ≡ free.old.items ++ freed ∷ [] }
    ensures room { vec_capacity free.new ≡ vec_capacity free.old }
{
    free.push_reserved(freed);
}

/// The numbers below `places`.
fn all_places(alloc: Global, places: u32) -> Result<Vec<u32>, AllocError>
    ensures count { IfOk result (λ free. length free.items ≡ places) }
    ensures each { IfOk result (λ free. (k : ℕ) → k < places → slice_index_or free.items k 0 ≡ k) }
    ensures room { IfOk result (λ free. places ≤ vec_capacity free) }
{
    let mut free = Vec::with_capacity(alloc, places as usize)?;
    for place in 0..places {
        free.push_reserved(place);
    }
    Ok(free)
}
