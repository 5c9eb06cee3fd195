//! The journal.

ghost use Rattle.std.specs.Prelude.{◌≡◌, ◌<◌, ◌≤◌, true, IfOk, length, slice_get, Some};
ghost use Rattle.semantics.specs.ShardPlan.{KeepsRows, keeps_rows};
ghost use Rattle.journal.specs.Journaled.{opened_journal, journal_with_entry};
ghost use Rattle.journal.specs.Entries.{enter_entry, leave_entry, lookup_entry, load_entry, store_entry, atomic_entry, update_entry};
ghost use Rattle.journal.specs.Entries.{delete_entry, reclaim_entry};
ghost use Rattle.journal.specs.Ranges.{IsShortRange};

use crate::append::{AtomicChange, CellRange};
use crate::counted::Counted;
use crate::written::Written;
use semantics::{Caller, Entry, MOST_ENTRIES};
use std::alloc::{AllocError, Global};
use std::marker::Model;

/// The most entries of a journal that keeps its rows: so places among their bytes and words fit into 32 bits.
pub const MOST_ROWS: u32 = MOST_ENTRIES;

/// How a journal has its entries.
#[derive(Drop)]
pub(crate) enum Kept {
    /// As rows.
    Rows { written: Written },
    /// Not at all: they are counted.
    Count { counted: Counted },
}

/// The entries of a shard, the oldest first. Contracts see the list of them, and what the journal was opened with. A journal with room for at most
/// 1,048,576 entries keeps them as rows, and they can be read; a larger one counts them, and the list of them is known to proofs alone.
#[derive(Drop)]
pub struct Journal {
    kept: Kept,
}

impl Model for Journal {
    ghost use Rattle.journal.specs.Journaled.{Journaled};
    ghost use Rattle.journal.specs.Kept.{kept_journal, IsKeptBySize};

    ghost Value = { Journaled };

    ghost view = { λ j. kept_journal j.kept };

    ghost invariant = { λ j. IsKeptBySize j.kept };
}

impl Journal {
    /// An empty journal of a shard, with room for `reserve` entries, with keys and values of these sizes in bytes. Takes memory for the rows of all of them
    /// where there are at most 1,048,576, and else next to none. Fails only for lack of memory.
    pub fn open(
        alloc: Global,
        shard: u32,
        reserve: u32,
        key_size: u32,
        value_size: u32,
    ) -> Result<Self, AllocError>
        requires key { key_size ≤ 32 }
        requires value { value_size ≤ 256 }
        ensures { IfOk result (λ journal. journal ≡ opened_journal shard reserve key_size value_size) }
    {
        let kept = if reserve <= MOST_ROWS {
            Kept::Rows {
                written: Written::open(alloc, shard, reserve, key_size, value_size)?,
            }
        } else {
            Kept::Count {
                counted: Counted::open(alloc, shard, reserve, key_size, value_size)?,
            }
        };
        Ok(Journal { kept })
    }

    /// How many entries there are.
    pub fn len(&self) -> usize
        ensures { result ≡ length self.now.entries }
    {
        match &self.kept {
            Kept::Rows { written } => written.len(),
            Kept::Count { counted } => counted.len(),
        }
    }

    /// Whether the entries can be read: where there is room for at most 1,048,576.
    pub fn keeps_rows(&self) -> bool
        ensures test { result ≡ keeps_rows self.now.reserve }
        ensures rows { result ≡ true → KeepsRows self.now.reserve }
        ensures kept { KeepsRows self.now.reserve → result ≡ true }
    {
        match &self.kept {
            Kept::Rows { .. } => true,
            Kept::Count { .. } => false,
        }
    }

    /// The entry at a place, counted from 0.
    pub fn entry(&self, place: usize) -> Entry
        requires rows { KeepsRows self.now.reserve }
        requires place { place < length self.now.entries }
        ensures { slice_get self.now.entries place ≡ Some result }
    {
        match &self.kept {
            Kept::Rows { written } => written.entry(place),
            Kept::Count { .. } => unreachable!(),
        }
    }

    /// An Enter.
    pub fn append_enter(&mut self, who: Caller)
        requires { length self.old.entries < self.old.reserve }
        ensures { self.new ≡ journal_with_entry self.old (enter_entry self.old.shard who) }
    {
        match &mut self.kept {
            Kept::Rows { written } => written.append_enter(who),
            Kept::Count { counted } => counted.append_enter(who),
        }
    }

    /// A Leave.
    pub fn append_leave(&mut self, who: Caller)
        requires { length self.old.entries < self.old.reserve }
        ensures { self.new ≡ journal_with_entry self.old (leave_entry self.old.shard who) }
    {
        match &mut self.kept {
            Kept::Rows { written } => written.append_leave(who),
            Kept::Count { counted } => counted.append_leave(who),
        }
    }

    /// A Lookup that found this cell, or nothing.
    pub fn append_lookup(&mut self, who: Caller, key: &[u8], found: Option<u64>)
        requires room { length self.old.entries < self.old.reserve }
        requires key { length key.now ≡ self.old.key_size }
        ensures { self.new ≡ journal_with_entry self.old (lookup_entry self.old.shard who key.now found) }
    {
        match &mut self.kept {
            Kept::Rows { written } => written.append_lookup(who, key, found),
            Kept::Count { counted } => counted.append_lookup(who, key, found),
        }
    }

    /// A Load, with what it read.
    pub fn append_load(&mut self, who: Caller, range: &CellRange, value: u64)
        requires room { length self.old.entries < self.old.reserve }
        requires range { IsShortRange range.now }
        ensures { self.new ≡ journal_with_entry self.old (load_entry self.old.shard who range.now value) }
    {
        match &mut self.kept {
            Kept::Rows { written } => written.append_load(who, range, value),
            Kept::Count { counted } => counted.append_load(who, range, value),
        }
    }

    /// A Store of a number.
    pub fn append_store(&mut self, who: Caller, range: &CellRange, value: u64)
        requires room { length self.old.entries < self.old.reserve }
        requires range { IsShortRange range.now }
        ensures { self.new ≡ journal_with_entry self.old (store_entry self.old.shard who range.now value) }
    {
        match &mut self.kept {
            Kept::Rows { written } => written.append_store(who, range, value),
            Kept::Count { counted } => counted.append_store(who, range, value),
        }
    }

    /// An Atomic, with what was there before.
    pub fn append_atomic(&mut self, who: Caller, range: &CellRange, change: &AtomicChange, old: u64)
        requires room { length self.old.entries < self.old.reserve }
        requires range { IsShortRange range.now }
        requires op { change.now.op < 256 }
        ensures { self.new ≡ journal_with_entry self.old (atomic_entry self.old.shard who range.now change.now old) }
    {
        match &mut self.kept {
            Kept::Rows { written } => written.append_atomic(who, range, change, old),
            Kept::Count { counted } => counted.append_atomic(who, range, change, old),
        }
    }

    /// An Update, with its answer.
    pub fn append_update(&mut self, who: Caller, key: &[u8], value: &[u8], flags: u64, code: i32)
        requires room { length self.old.entries < self.old.reserve }
        requires key { length key.now ≡ self.old.key_size }
        requires value { length value.now ≡ self.old.value_size }
        ensures { self.new ≡ journal_with_entry self.old (update_entry self.old.shard who key.now value.now flags code) }
    {
        match &mut self.kept {
            Kept::Rows { written } => written.append_update(who, key, value, flags, code),
            Kept::Count { counted } => counted.append_update(who, key, value, flags, code),
        }
    }

    /// A Delete, with its answer.
    pub fn append_delete(&mut self, who: Caller, key: &[u8], code: i32)
        requires room { length self.old.entries < self.old.reserve }
        requires key { length key.now ≡ self.old.key_size }
        ensures { self.new ≡ journal_with_entry self.old (delete_entry self.old.shard who key.now code) }
    {
        match &mut self.kept {
            Kept::Rows { written } => written.append_delete(who, key, code),
            Kept::Count { counted } => counted.append_delete(who, key, code),
        }
    }

    /// A Reclaim, with how many cells it freed.
    pub fn append_reclaim(&mut self, who: Caller, count: u64)
        requires { length self.old.entries < self.old.reserve }
        ensures { self.new ≡ journal_with_entry self.old (reclaim_entry self.old.shard who count) }
    {
        match &mut self.kept {
            Kept::Rows { written } => written.append_reclaim(who, count),
            Kept::Count { counted } => counted.append_reclaim(who, count),
        }
    }
}
