//! A list of entries that no memory has: what a journal without rows consists of, for the proof alone.

ghost use Rattle.std.specs.Prelude.{◌≡◌, ◌∷◌, ◌++◌, [], IfOk};

use atomic_table::{Play, Seat, Table, TableRule};
use semantics::Entry;
use std::alloc::{AllocError, Global};
use std::collections::LinkedList;
use std::marker::{Brand, Model, PhantomData};

/// The word of the table, which is read and never written.
const WORD: [u64; 1] = [0];

/// An entry that is picked where a step adds it to the list.
pub(crate) trait LogItem {
    ghost use Rattle.semantics.specs.declared.call.Entry.{Entry};

    ghost item: { Entry };
}

impl LogItem for Brand {
    ghost use Rattle.semantics.specs.declared.call.Caller.TheVariants.{Controller};
    ghost use Rattle.journal.specs.Entries.{enter_entry};

    ghost item = { enter_entry 0 Controller };
}

/// Nothing but what its one seat knows: the entries.
struct LogRule;

impl TableRule<u8, LinkedList<Entry>, u8> for LogRule {
    ghost use Rattle.std.specs.Prelude.{[]};

    ghost holds = { λ _ _. Unit {0} };

    ghost first = { λ _. [] };
}

/// A step that adds an entry.
struct AddsItem<D: LogItem> {
    of: PhantomData<D>,
}

impl<D: LogItem> Play<u8, LinkedList<Entry>> for AddsItem<D> {
    ghost use Rattle.std.specs.Prelude.{◌≡◌, ◌∷◌, ◌++◌, []};

    ghost then = { λ s v found w. w ≡ (v.0 ++ D.item ∷ [], v.1) };
}

/// Entries, the oldest first, in no memory: contracts see the list. It has one word of memory, which each step loads.
#[derive(Drop)]
pub(crate) struct Log {
    table: Table<u8, LinkedList<Entry>, u8, LogRule, Global>,
    seat: Seat<u8, LinkedList<Entry>>,
}

impl Model for Log {
    ghost use Rattle.std.specs.Prelude.{◌≡◌, ◌<◌, List};
    ghost use Rattle.semantics.specs.declared.call.Entry.{Entry};

    ghost Value = { List Entry };

    ghost view = { λ log. log.seat.me.0 };

    ghost invariant = { λ log. (log.seat.table_id ≡ log.table.shared.table_id) × (0 < log.table.shared.table_id.words) };
}

impl Log {
    /// No entries. Fails only for lack of memory.
    pub(crate) fn open(alloc: Global) -> Result<Self, AllocError>
        ensures { IfOk result (λ log. log ≡ []) }
    {
        let (table, seat) = Table::of_words(alloc, &WORD, &0)?;
        Ok(Log { table, seat })
    }

    /// Adds the entry that the proof picks.
    pub(crate) fn add<D: LogItem>(&mut self)
        ensures { self.new ≡ self.old ++ D.item ∷ [] }
    {
        let table = &self.table;
        table.shared.load::<AddsItem<D>>(&mut self.seat, 0);
    }
}
