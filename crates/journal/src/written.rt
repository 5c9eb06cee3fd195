//! Entries as rows.

ghost use Rattle.std.specs.Prelude.{◌≡◌, ◌+◌, ◌*◌, ◌<◌, ◌≤◌, ◌∷◌, ◌++◌, [], IfOk, length, vec_len, vec_capacity, slice_get, Some};
ghost use Rattle.journal.specs.Journaled.{opened_journal, journal_with_entry};
ghost use Rattle.journal.specs.Entries.{enter_entry, leave_entry, lookup_entry, load_entry, store_entry, atomic_entry, update_entry};
ghost use Rattle.journal.specs.Entries.{delete_entry, reclaim_entry};
ghost use Rattle.journal.specs.Rows.{IsBare, entry_of_row};
ghost use Rattle.journal.specs.Ranges.{IsShortRange};
ghost use Rattle.semantics.specs.ShardPlan.{KeepsRows};

use crate::append::{AtomicChange, CellRange};
use crate::row::{Row, Shape};
use semantics::{Caller, Entry};
use std::alloc::{AllocError, Global};
use std::marker::Model;

/// The entries of a shard as rows, which can be read. Contracts see the list of them, the oldest first, and what the journal was opened with.
#[derive(Drop)]
pub(crate) struct Written {
    shape: Shape,
    /// How many entries there is room for.
    reserve: u32,
    rows: Vec<Row>,
    /// The keys and values of the rows, one after another.
    bytes: Vec<u8>,
    /// The numbers of the rows, one after another.
    words: Vec<u64>,
}

impl Model for Written {
    ghost use Rattle.std.specs.Prelude.{vec_capacity};
    ghost use Rattle.journal.specs.Journaled.{Journaled};
    ghost use Rattle.journal.specs.Rows.{journaled, IsKept};

    ghost Value = { Journaled };

    ghost view = { λ j. journaled j.shape.shard j.reserve j.shape.key_size j.shape.value_size j.rows.items j.bytes.items j.words.items };

    ghost invariant = { λ j. IsKept j.reserve j.shape.key_size j.shape.value_size j.rows.items (vec_capacity j.rows)
        j.bytes.items (vec_capacity j.bytes) j.words.items (vec_capacity j.words) };
}

impl Written {
    /// None yet, with room for `reserve` entries, at most 1,048,576, with keys and values of these sizes in bytes. Fails only for lack of memory.
    pub(crate) fn open(
        alloc: Global,
        shard: u32,
        reserve: u32,
        key_size: u32,
        value_size: u32,
    ) -> Result<Self, AllocError>
        requires reserve { KeepsRows reserve }
        requires key { key_size ≤ 32 }
        requires value { value_size ≤ 256 }
        ensures { IfOk result (λ journal. journal ≡ opened_journal shard reserve key_size value_size) }
    {
        let room = reserve as usize * (key_size as usize + value_size as usize);
        let rows = Vec::with_capacity(alloc, reserve as usize)?;
        let bytes = Vec::with_capacity(alloc, room)?;
        let words = Vec::with_capacity(alloc, reserve as usize * 4)?;
        let shape = Shape {
            shard,
            key_size,
            value_size,
        };
        Ok(Written {
            shape,
            reserve,
            rows,
            bytes,
            words,
        })
    }

    /// How many entries there are.
    pub(crate) fn len(&self) -> usize
        ensures { result ≡ length self.now.entries }
    {
        self.rows.len()
    }

    /// The entry at a place, counted from 0.
    pub(crate) fn entry(&self, place: usize) -> Entry
        requires { place < length self.now.entries }
        ensures { slice_get self.now.entries place ≡ Some result }
    {
        let row = &self.rows[place];
        row.entry(&self.shape, self.bytes.as_slice(), self.words.as_slice())
    }

    // A row without key and number behind the others.
    fn put(&mut self, row: Row)
        requires room { length self.old.entries < self.old.reserve }
        requires bare { IsBare row }
        ensures { self.new ≡ journal_with_entry self.old (entry_of_row self.old.shard self.old.key_size self.old.value_size [] [] row) }
    {
        put_row(&mut self.rows, row);
    }

    /// An Enter.
    pub(crate) fn append_enter(&mut self, who: Caller)
        requires { length self.old.entries < self.old.reserve }
        ensures { self.new ≡ journal_with_entry self.old (enter_entry self.old.shard who) }
    {
        self.put(Row::Entered { who });
    }

    /// A Leave.
    pub(crate) fn append_leave(&mut self, who: Caller)
        requires { length self.old.entries < self.old.reserve }
        ensures { self.new ≡ journal_with_entry self.old (leave_entry self.old.shard who) }
    {
        self.put(Row::Left { who });
    }

    /// A Lookup that found this cell, or nothing.
    pub(crate) fn append_lookup(&mut self, who: Caller, key: &[u8], found: Option<u64>)
        requires room { length self.old.entries < self.old.reserve }
        requires key { length key.now ≡ self.old.key_size }
        ensures { self.new ≡ journal_with_entry self.old (lookup_entry self.old.shard who key.now found) }
    {
        let at = self.bytes.len() as u32;
        put_bytes(&mut self.bytes, key);
        match found {
            Some(cell) => {
                let start = self.words.len() as u32;
                put_word(&mut self.words, cell);
                put_row(&mut self.rows, Row::Found { who, at, start });
            }
            None => put_row(&mut self.rows, Row::Missed { who, at }),
        }
    }

    /// A Load, with what it read.
    pub(crate) fn append_load(&mut self, who: Caller, range: &CellRange, value: u64)
        requires room { length self.old.entries < self.old.reserve }
        requires range { IsShortRange range.now }
        ensures { self.new ≡ journal_with_entry self.old (load_entry self.old.shard who range.now value) }
    {
        let start = self.words.len() as u32;
        put_two_words(&mut self.words, range.cell, value);
        let row = Row::Loaded {
            who,
            size: range.size as u8,
            offset: range.offset as u16,
            start,
        };
        put_row(&mut self.rows, row);
    }

    /// A Store of a number.
    pub(crate) fn append_store(&mut self, who: Caller, range: &CellRange, value: u64)
        requires room { length self.old.entries < self.old.reserve }
        requires range { IsShortRange range.now }
        ensures { self.new ≡ journal_with_entry self.old (store_entry self.old.shard who range.now value) }
    {
        let start = self.words.len() as u32;
        put_two_words(&mut self.words, range.cell, value);
        let row = Row::Stored {
            who,
            size: range.size as u8,
            offset: range.offset as u16,
            start,
        };
        put_row(&mut self.rows, row);
    }

    /// An Atomic, with what was there before.
    pub(crate) fn append_atomic(
        &mut self,
        who: Caller,
        range: &CellRange,
        change: &AtomicChange,
        old: u64,
    )
        requires room { length self.old.entries < self.old.reserve }
        requires range { IsShortRange range.now }
        requires op { change.now.op < 256 }
        ensures { self.new ≡ journal_with_entry self.old (atomic_entry self.old.shard who range.now change.now old) }
    {
        let start = self.words.len() as u32;
        put_four_words(
            &mut self.words,
            range.cell,
            change.value,
            change.expected,
            old,
        );
        let row = Row::Changed {
            who,
            size: range.size as u8,
            op: change.op as u8,
            offset: range.offset as u16,
            start,
        };
        put_row(&mut self.rows, row);
    }

    /// An Update, with its answer.
    pub(crate) fn append_update(
        &mut self,
        who: Caller,
        key: &[u8],
        value: &[u8],
        flags: u64,
        code: i32,
    )
        requires room { length self.old.entries < self.old.reserve }
        requires key { length key.now ≡ self.old.key_size }
        requires value { length value.now ≡ self.old.value_size }
        ensures { self.new ≡ journal_with_entry self.old (update_entry self.old.shard who key.now value.now flags code) }
    {
        let at = self.bytes.len() as u64;
        put_bytes(&mut self.bytes, key);
        put_bytes(&mut self.bytes, value);
        let start = self.words.len() as u32;
        put_two_words(&mut self.words, at, flags);
        put_row(&mut self.rows, Row::Updated { who, code, start });
    }

    /// A Delete, with its answer.
    pub(crate) fn append_delete(&mut self, who: Caller, key: &[u8], code: i32)
        requires room { length self.old.entries < self.old.reserve }
        requires key { length key.now ≡ self.old.key_size }
        ensures { self.new ≡ journal_with_entry self.old (delete_entry self.old.shard who key.now code) }
    {
        let at = self.bytes.len() as u32;
        put_bytes(&mut self.bytes, key);
        put_row(&mut self.rows, Row::Deleted { who, code, at });
    }

    /// A Reclaim, with how many cells it freed.
    pub(crate) fn append_reclaim(&mut self, who: Caller, count: u64)
        requires { length self.old.entries < self.old.reserve }
        ensures { self.new ≡ journal_with_entry self.old (reclaim_entry self.old.shard who count) }
    {
        let start = self.words.len() as u32;
        put_word(&mut self.words, count);
        put_row(&mut self.rows, Row::Reclaimed { who, start });
    }
}

// Puts a row behind the others, for which there is room.
fn put_row(rows: &mut Vec<Row>, row: Row)
    requires { vec_len rows.old < vec_capacity rows.old }
    ensures items { rows.new.items ≡ rows.old.items ++ row ∷ [] }
    ensures room { vec_capacity rows.old ≤ vec_capacity rows.new }
{
    rows.push_reserved(row);
}

/// Puts bytes behind the others, for which there is room. Most keys have four, eight or sixteen bytes and most values eight, for which a
/// store or two serve in place of a call that copies.
pub fn put_bytes(bytes: &mut Vec<u8>, more: &[u8])
    requires { vec_len bytes.old + length more.now ≤ vec_capacity bytes.old }
    ensures items { bytes.new.items ≡ bytes.old.items ++ more.now }
    ensures room { vec_capacity bytes.old ≤ vec_capacity bytes.new }
{
    let put = match more.len() {
        4 => bytes.extend_from_slice(&more[..4]),
        8 => bytes.extend_from_slice(&more[..8]),
        16 => bytes.extend_from_slice(&more[..16]),
        _ => bytes.extend_from_slice(more),
    };
    if put.is_err() {
        unreachable!()
    }
}

/// Puts a number behind the others, for which there is room.
pub(crate) fn put_word(words: &mut Vec<u64>, first: u64)
    requires { vec_len words.old < vec_capacity words.old }
    ensures items { words.new.items ≡ words.old.items ++ first ∷ [] }
    ensures room { vec_capacity words.old ≤ vec_capacity words.new }
{
    words.push_reserved(first);
}

/// Puts two numbers behind the others. They are written one by one: written together they would be copied by one wide load right after two
/// narrow stores, for which an older processor waits.
pub(crate) fn put_two_words(words: &mut Vec<u64>, first: u64, second: u64)
    requires { vec_len words.old + 2 ≤ vec_capacity words.old }
    ensures items { words.new.items ≡ words.old.items ++ first ∷ second ∷ [] }
    ensures room { vec_capacity words.old ≤ vec_capacity words.new }
{
    put_word(words, first);
    put_word(words, second);
}

/// Puts four numbers behind the others, in the same way.
pub(crate) fn put_four_words(words: &mut Vec<u64>, first: u64, second: u64, third: u64, fourth: u64)
    requires { vec_len words.old + 4 ≤ vec_capacity words.old }
    ensures items { words.new.items ≡ words.old.items ++ first ∷ second ∷ third ∷ fourth ∷ [] }
    ensures room { vec_capacity words.old ≤ vec_capacity words.new }
{
    put_two_words(words, first, second);
    put_two_words(words, third, fourth);
}
