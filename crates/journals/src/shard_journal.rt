//! The journal of one shard, as it is read.

ghost use Rattle.std.specs.Prelude.{◌≡◌, ◌<◌, Some, length, slice_get};
ghost use Rattle.journals.specs.KeptEntries.{kept_entries, KeepsItsRows};

use crate::entry_list::EntryList;
use journal::Journal;
use semantics::Entry;
use std::marker::Model;

/// Where a journal's entries are.
#[derive(Drop)]
pub(crate) enum ShardEntries<'a> {
    /// As the shard wrote them.
    Written { journal: &'a Journal },
    /// In a list, that may have entries of calls that no map serves.
    Listed { entries: &'a EntryList },
}

/// The journal of one shard, whose entries can be read: as the shard wrote it, or a list of entries from elsewhere. Contracts see the list
/// of entries, the oldest first.
#[derive(Drop)]
pub struct ShardJournal<'a> {
    kept: ShardEntries<'a>,
}

impl<'a> Model for ShardJournal<'a> {
    ghost use Rattle.std.specs.Prelude.{List};
    ghost use Rattle.semantics.specs.declared.call.Entry.{Entry};
    ghost use Rattle.journals.specs.KeptEntries.{kept_entries, KeepsItsRows};

    ghost Value = { List Entry };

    ghost view = { λ journal. kept_entries journal.kept };

    ghost invariant = { λ journal. KeepsItsRows journal.kept };
}

impl<'a> ShardJournal<'a> {
    /// The journal that is kept so.
    pub(crate) fn of(kept: ShardEntries<'a>) -> Self
        requires { KeepsItsRows kept }
        ensures { result ≡ kept_entries kept.entry }
    {
        ShardJournal { kept }
    }

    /// How many entries there are.
    pub fn len(&self) -> usize
        ensures { result ≡ length self.now }
    {
        match &self.kept {
            ShardEntries::Written { journal } => journal.len(),
            ShardEntries::Listed { entries } => entries.len(),
        }
    }

    /// The entry at a place, counted from 0.
    pub fn entry(&self, place: usize) -> Entry
        requires { place < length self.now }
        ensures { slice_get self.now place ≡ Some result }
    {
        match &self.kept {
            ShardEntries::Written { journal } => journal.entry(place),
            ShardEntries::Listed { entries } => entries.entry(place),
        }
    }
}
