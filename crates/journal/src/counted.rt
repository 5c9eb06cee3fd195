//! Entries that are counted and not kept.

ghost use Rattle.std.specs.Prelude.{◌≡◌, ◌<◌, IfOk, length};
ghost use Rattle.journal.specs.Journaled.{opened_journal, journal_with_entry};
ghost use Rattle.journal.specs.Entries.{enter_entry, leave_entry, lookup_entry, load_entry, store_entry, atomic_entry, update_entry};
ghost use Rattle.journal.specs.Entries.{delete_entry, reclaim_entry};

use crate::append::{AtomicChange, CellRange};
use crate::log::{Log, LogItem};
use crate::row::Shape;
use semantics::Caller;
use std::alloc::{AllocError, Global};
use std::marker::{Brand, Model};

/// The entries of a shard, counted and not stored. Contracts see the list of them, the oldest first, and what the journal was opened with;
/// code knows their number.
#[derive(Drop)]
pub(crate) struct Counted {
    shape: Shape,
    /// How many entries there is room for.
    reserve: u32,
    count: usize,
    entries: Log,
}

impl Model for Counted {
    ghost use Rattle.std.specs.Prelude.{◌≡◌, length};
    ghost use Rattle.journal.specs.Journaled.{Journaled};

    ghost Value = { Journaled };

    ghost view = { λ j. record {
      shard = j.shape.shard;
      reserve = j.reserve;
      key_size = j.shape.key_size;
      value_size = j.shape.value_size;
      entries = j.entries;
    } };

    ghost invariant = { λ j. j.count ≡ length j.entries };
}

impl Counted {
    /// None yet, with room for `reserve` entries. Fails only for lack of memory.
    pub(crate) fn open(
        alloc: Global,
        shard: u32,
        reserve: u32,
        key_size: u32,
        value_size: u32,
    ) -> Result<Self, AllocError>
        ensures { IfOk result (λ journal. journal ≡ opened_journal shard reserve key_size value_size) }
    {
        let entries = Log::open(alloc)?;
        let shape = Shape {
            shard,
            key_size,
            value_size,
        };
        Ok(Counted {
            shape,
            reserve,
            count: 0,
            entries,
        })
    }

    /// How many entries there are.
    pub(crate) fn len(&self) -> usize
        ensures { result ≡ length self.now.entries }
    {
        self.count
    }

    /// One entry more, which the proof picks by what is known of it.
    fn count<D: LogItem, A: Drop>(&mut self, about: A)
        requires { length self.old.entries < self.old.reserve }
        ensures { self.new ≡ journal_with_entry self.old D.item }
    {
        let _ = about;
        self.count += 1;
        self.entries.add::<D>();
    }

    /// An Enter.
    pub(crate) fn append_enter(&mut self, who: Caller)
        requires { length self.old.entries < self.old.reserve }
        ensures { self.new ≡ journal_with_entry self.old (enter_entry self.old.shard who) }
    {
        self.count::<Brand, Caller>(who);
    }

    /// A Leave.
    pub(crate) fn append_leave(&mut self, who: Caller)
        requires { length self.old.entries < self.old.reserve }
        ensures { self.new ≡ journal_with_entry self.old (leave_entry self.old.shard who) }
    {
        self.count::<Brand, Caller>(who);
    }

    /// A Lookup that found this cell, or nothing.
    pub(crate) fn append_lookup(&mut self, who: Caller, key: &[u8], found: Option<u64>)
        requires { length self.old.entries < self.old.reserve }
        ensures { self.new ≡ journal_with_entry self.old (lookup_entry self.old.shard who key.now found) }
    {
        self.count::<Brand, (Caller, &[u8], Option<u64>)>((who, key, found));
    }

    /// A Load, with what it read.
    pub(crate) fn append_load(&mut self, who: Caller, range: &CellRange, value: u64)
        requires { length self.old.entries < self.old.reserve }
        ensures { self.new ≡ journal_with_entry self.old (load_entry self.old.shard who range.now value) }
    {
        self.count::<Brand, (Caller, &CellRange, u64)>((who, range, value));
    }

    /// A Store of a number.
    pub(crate) fn append_store(&mut self, who: Caller, range: &CellRange, value: u64)
        requires { length self.old.entries < self.old.reserve }
        ensures { self.new ≡ journal_with_entry self.old (store_entry self.old.shard who range.now value) }
    {
        self.count::<Brand, (Caller, &CellRange, u64)>((who, range, value));
    }

    /// An Atomic, with what was there before.
    pub(crate) fn append_atomic(
        &mut self,
        who: Caller,
        range: &CellRange,
        change: &AtomicChange,
        old: u64,
    )
        requires { length self.old.entries < self.old.reserve }
        ensures { self.new ≡ journal_with_entry self.old (atomic_entry self.old.shard who range.now change.now old) }
    {
        self.count::<Brand, (Caller, &CellRange, &AtomicChange, u64)>((who, range, change, old));
    }

    /// An Update, with its answer.
    pub(crate) fn append_update(
        &mut self,
        who: Caller,
        key: &[u8],
        value: &[u8],
        flags: u64,
        code: i32,
    )
        requires { length self.old.entries < self.old.reserve }
        ensures { self.new ≡ journal_with_entry self.old (update_entry self.old.shard who key.now value.now flags code) }
    {
        self.count::<Brand, (Caller, &[u8], &[u8], u64, i32)>((who, key, value, flags, code));
    }

    /// A Delete, with its answer.
    pub(crate) fn append_delete(&mut self, who: Caller, key: &[u8], code: i32)
        requires { length self.old.entries < self.old.reserve }
        ensures { self.new ≡ journal_with_entry self.old (delete_entry self.old.shard who key.now code) }
    {
        self.count::<Brand, (Caller, &[u8], i32)>((who, key, code));
    }

    /// A Reclaim, with how many cells it freed.
    pub(crate) fn append_reclaim(&mut self, who: Caller, count: u64)
        requires { length self.old.entries < self.old.reserve }
        ensures { self.new ≡ journal_with_entry self.old (reclaim_entry self.old.shard who count) }
    {
        self.count::<Brand, (Caller, u64)>((who, count));
    }
}
