//! The calls of lists of entries, made again.

ghost use Rattle.std.specs.Prelude.{◌≡◌, ◌<◌, [], Some, IfOk, length, reverse, slice_get};
ghost use Rattle.shard_core.specs.JournaledShard.{JournaledShard as One, shard_with_entry};
ghost use Rattle.semantics.specs.History.{IsLegalJournal, IsLegalStep};
ghost use Rattle.journals.specs.LegalJournals.{AreLegal};
ghost use Rattle.shards.specs.Opening.{AreOpened};
ghost use Rattle.map_contents.specs.Remade.{AreShardsOf, IsMadeAgain};

use journals::{EntryList, Journals};
use semantics::Entry;
use shard_core::Shard;
use shards::plain_opening::open_each;
use std::alloc::{AllocError, Global};

/// Makes the call of an entry again, on a shard whose next step it is. The reply is that of the entry.
fn make_entry(shard: &mut Shard, entry: &Entry)
    requires { IsLegalStep shard.old.plan (reverse shard.old.journal) entry.now }
    ensures { shard.new ≡ shard_with_entry shard.old entry.now }
{
    match shard.apply(entry.who, &entry.call) {
        Ok(_reply) => {}
        Err(_full) => unreachable!(),
    }
}

/// Makes the calls of a legal journal on a shard in which nothing has happened.
fn apply_all(shard: &mut Shard, entries: &EntryList)
    requires unused { shard.old.journal ≡ [] }
    requires legal { IsLegalJournal shard.old.plan entries.now }
    ensures { shard.new ≡ record { plan = shard.old.plan; journal = entries.now } }
{
    'places: for place in 0..entries.len() {
        let entry = entries.entry(place);
        make_entry(shard, &entry);
    }
}

/// The same on the shard of a number.
fn make_again(shards: &mut [Shard], number: usize, entries: &EntryList)
    requires number { number < length shards.old }
    requires may { (shard : One) → slice_get shards.old number ≡ Some shard →
        (shard.journal ≡ []) × IsLegalJournal shard.plan entries.now }
    ensures { IsMadeAgain shards.old number entries.now shards.new }
{
    apply_all(&mut shards[number], entries);
}

/// Makes the calls of all journals, which are these lists, each shard's on that shard.
fn make_all(shards: &mut [Shard], journals: &Journals, lists: &[EntryList])
    requires opened { AreOpened journals.now.maps journals.now.options shards.old }
    requires lists { lists.now ≡ journals.now.shards }
    requires count { length shards.old ≡ length lists.now }
    requires legal { AreLegal journals.now }
    ensures { AreShardsOf journals.now shards.new }
{
    let _ = journals;
    'shards: for number in 0..lists.len() {
        make_again(shards, number, &lists[number]);
    }
}

/// The shards of legal journals' maps after their calls, where the journals are these lists. Fails only for lack of memory.
pub(crate) fn remade(
    alloc: Global,
    journals: &Journals,
    lists: &[EntryList],
) -> Result<Vec<Shard>, AllocError>
    requires lists { lists.now ≡ journals.now.shards }
    requires legal { AreLegal journals.now }
    ensures { IfOk result (λ shards. AreShardsOf journals.now shards.items) }
{
    let maps = journals.maps();
    let options = journals.options();
    let _count = journals.count();
    let mut shards = open_each(alloc, maps, &options)?;
    make_all(&mut shards, journals, lists);
    Ok(shards)
}
