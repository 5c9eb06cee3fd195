//! The numbers with which the values of a map begin.

ghost use Rattle.std.specs.Prelude.{◌≡◌, ◌<◌, IfOk, length};
ghost use Rattle.journals.specs.LegalJournals.{AreLegal};
ghost use Rattle.map_contents.specs.Fronts.{AreFronts};
ghost use Rattle.map_contents.specs.Remade.{AreShardsOf};

use crate::making::remade;
use crate::told::{entries_of, words_of};
use journals::{Journals, Kept};
use shard_core::Shard;
use std::alloc::{AllocError, Global};

/// Those of the map at this place, of these shards.
fn fronts_of(
    alloc: Global,
    shards: &[Shard],
    journals: &Journals,
    map: u32,
) -> Result<Vec<u32>, AllocError>
    requires of_journals { AreShardsOf journals.now shards.now }
    requires map { map < length journals.now.maps }
    ensures { IfOk result (λ fronts. AreFronts journals.now map fronts.items) }
{
    let entries = entries_of(alloc, shards, journals, map)?;
    let fronts = words_of(alloc, &entries)?;
    Ok(fronts)
}

/// The number in the first four bytes of each value of the map at this place, the lowest byte first, in the order of the keys, as they are after
/// the calls of legal journals. Where shards keep the journals, these are looked at, also ones without rows; the calls of lists are made again,
/// which takes the memory of all shards. Fails only for lack of memory.
pub fn front_numbers(alloc: Global, journals: &Journals, map: u32) -> Result<Vec<u32>, AllocError>
    requires legal { AreLegal journals.now }
    requires map { map < length journals.now.maps }
    ensures { IfOk result (λ fronts. AreFronts journals.now map fronts.items) }
{
    let _count = journals.count();
    match journals.kept() {
        Kept::Shards { shards } => fronts_of(alloc, shards, journals, map),
        Kept::Lists { lists } => {
            let shards = remade(alloc, journals, lists)?;
            fronts_of(alloc, &shards, journals, map)
        }
    }
}
