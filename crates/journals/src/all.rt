//! The journals of all shards.

ghost use Rattle.std.specs.Prelude.{◌≡◌, ◌<◌, ◌*◌, true, length};
ghost use Rattle.semantics.specs.ShardPlan.{AreOptions, KeepsRows};
ghost use Rattle.journals.specs.KeptEntries.{written_entries, ArePlanned};
ghost use Rattle.journals.specs.JournalsView.{AreImageMaps, AreJournals, entries_at};
ghost use Rattle.journals.specs.KeptIn.{AreKeptIn};

use crate::entry_list::EntryList;
use crate::shard_journal::{ShardEntries, ShardJournal};
use ebpf_decode::MapDef;
use journal::MOST_ROWS;
use semantics::Options;
use shard_core::Shard;
use std::marker::Model;

/// How the journals of all shards are kept.
#[derive(Drop)]
pub(crate) enum AllKept {
    /// As the shards wrote them, which nobody calls any more.
    Written { shards: Vec<Shard> },
    /// As lists, that may have entries of calls that no map serves.
    Listed { lists: Vec<EntryList> },
}

/// What keeps the journals of all shards, by the numbers of the shards.
#[derive(Clone, Copy)]
pub enum Kept<'a> {
    /// The shards that wrote them, which nobody calls any more: they have what the maps hold after the calls.
    Shards { shards: &'a [Shard] },
    /// Lists of entries from elsewhere.
    Lists { lists: &'a [EntryList] },
}

/// The journals of all shards of an image's maps, by the shards' numbers: map after map. The maps are ones that an image may have, the
/// options are ones that shards of these maps are opened with, and there is one journal for each shard. Where the options are those of
/// shards that keep no rows, the entries are known to proofs alone, and no call returns them.
#[derive(Drop)]
pub struct Journals {
    maps: Vec<MapDef>,
    options: Options,
    kept: AllKept,
}

impl Model for Journals {
    ghost use Rattle.std.specs.Prelude.{length};
    ghost use Rattle.journals.specs.KeptEntries.{all_kept, AreKeptFor};
    ghost use Rattle.journals.specs.JournalsView.{JournalsView, AreJournals};

    ghost Value = { JournalsView };

    ghost view = { λ journals. record { maps = journals.maps.items; options = journals.options; shards = all_kept journals.kept } };

    ghost invariant = { λ journals. AreJournals journals.maps.items journals.options (length (all_kept journals.kept))
        × AreKeptFor journals.maps.items journals.options journals.kept };
}

impl Journals {
    /// The journals of the shards of these maps, opened with these options, as the shards wrote them.
    pub fn written(maps: Vec<MapDef>, options: Options, shards: Vec<Shard>) -> Self
        requires are { AreJournals maps.items options (length shards.items) }
        requires planned { ArePlanned maps.items options shards.items }
        ensures { result ≡ record { maps = maps.items; options = options; shards = written_entries shards.items } }
    {
        Journals {
            maps,
            options,
            kept: AllKept::Written { shards },
        }
    }

    /// The journals of the shards of these maps, opened with these options, as lists of entries.
    pub fn listed(maps: Vec<MapDef>, options: Options, lists: Vec<EntryList>) -> Self
        requires { AreJournals maps.items options (length lists.items) }
        ensures { result ≡ record { maps = maps.items; options = options; shards = lists.items } }
    {
        Journals {
            maps,
            options,
            kept: AllKept::Listed { lists },
        }
    }

    /// The maps, by their places.
    pub fn maps(&self) -> &[MapDef]
        ensures maps { result.now ≡ self.now.maps }
        ensures of_an_image { AreImageMaps self.now.maps }
    {
        &self.maps
    }

    /// What the shards were opened with.
    pub fn options(&self) -> Options
        ensures options { result ≡ self.now.options }
        ensures fit { AreOptions self.now.maps self.now.options }
    {
        self.options
    }

    /// How many shards there are.
    pub fn count(&self) -> usize
        ensures count { result ≡ length self.now.shards }
        ensures one_each { result ≡ length self.now.maps * self.now.options.shards }
    {
        match &self.kept {
            AllKept::Written { shards } => shards.len(),
            AllKept::Listed { lists } => lists.len(),
        }
    }

    /// Whether the entries can be read: whether the shards kept the rows of their journals.
    pub fn keeps_rows(&self) -> bool
        ensures rows { result ≡ true → KeepsRows self.now.options.journal }
        ensures kept { KeepsRows self.now.options.journal → result ≡ true }
    {
        self.options.journal <= MOST_ROWS
    }

    /// How many entries the journal of the shard of this number has, whether they can be read or not.
    pub fn len(&self, number: usize) -> usize
        requires { number < length self.now.shards }
        ensures { result ≡ length (entries_at self.now number) }
    {
        match &self.kept {
            AllKept::Written { shards } => shards[number].journal().len(),
            AllKept::Listed { lists } => lists[number].len(),
        }
    }

    /// The journal of the shard of this number, for reading.
    pub fn journal(&self, number: usize) -> ShardJournal<'_>
        requires rows { KeepsRows self.now.options.journal }
        requires number { number < length self.now.shards }
        ensures { result ≡ entries_at self.now number }
    {
        match &self.kept {
            AllKept::Written { shards } => ShardJournal::of(ShardEntries::Written {
                journal: shards[number].journal(),
            }),
            AllKept::Listed { lists } => ShardJournal::of(ShardEntries::Listed {
                entries: &lists[number],
            }),
        }
    }

    /// What keeps them: the shards that wrote them, whether these keep rows or not, or lists.
    pub fn kept(&self) -> Kept<'_>
        ensures { AreKeptIn self.now result }
    {
        match &self.kept {
            AllKept::Written { shards } => Kept::Shards {
                shards: shards.as_slice(),
            },
            AllKept::Listed { lists } => Kept::Lists {
                lists: lists.as_slice(),
            },
        }
    }
}
