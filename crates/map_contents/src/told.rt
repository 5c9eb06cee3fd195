//! What the maps of steering tell of the meaning of entries.

ghost use Rattle.std.specs.Prelude.{◌≡◌, ◌<◌, IfOk, length, map};
ghost use Rattle.shards.specs.MapContents.{AreContentsOfMap};
ghost use Rattle.map_meanings.specs.Meanings.{backend_address, slot_word};
ghost use Rattle.map_contents.specs.Remade.{AreShardsOf};
ghost use Rattle.map_contents.specs.Told.{AreTables, IsTold};

use conntrack::table_size;
use journals::Journals;
use map_meanings::{Tables, backend_address, slot_word};
use shard_core::{Key, Shard, Value};
use shards::map_contents::contents_of;
use std::alloc::{AllocError, Global};
use wire::Ipv4Address;

/// All that the map at a place of the journals' maps holds.
pub(crate) fn entries_of(
    alloc: Global,
    shards: &[Shard],
    journals: &Journals,
    map: u32,
) -> Result<Vec<(Key, Value)>, AllocError>
    requires of_journals { AreShardsOf journals.now shards.now }
    requires map { map < length journals.now.maps }
    ensures { IfOk result (λ entries. AreContentsOfMap journals.now.maps journals.now.options shards.now map entries.items) }
{
    let options = journals.options();
    let maps = journals.maps();
    let entries = contents_of(alloc, shards, maps, &options, map)?;
    Ok(entries)
}

/// The numbers with which the values of entries begin: of the lookup table its words.
pub(crate) fn words_of(alloc: Global, slots: &[(Key, Value)]) -> Result<Vec<u32>, AllocError>
    ensures { IfOk result (λ words. words.items ≡ map (λ entry. slot_word entry.1) slots.now) }
{
    slots
        .iter()
        .map(|entry| slot_word(entry.1.as_slice()))
        .collect(alloc)
}

/// The addresses of the backends, by their entries.
fn addresses_of(alloc: Global, backends: &[(Key, Value)]) -> Result<Vec<Ipv4Address>, AllocError>
    ensures { IfOk result (λ addresses. addresses.items ≡ map (λ entry. backend_address entry.1) backends.now) }
{
    backends
        .iter()
        .map(|entry| backend_address(entry.1.as_slice()))
        .collect(alloc)
}

/// What entries refer to, where there are the maps for it.
fn tables_of(alloc: Global, shards: &[Shard], journals: &Journals) -> Result<Tables, AllocError>
    requires of_journals { AreShardsOf journals.now shards.now }
    requires maps { 3 < length journals.now.maps }
    ensures { IfOk result (λ tables. AreTables journals.now shards.now tables) }
{
    let slots = entries_of(alloc, shards, journals, 2)?;
    let words = words_of(alloc, &slots)?;
    let backends = entries_of(alloc, shards, journals, 3)?;
    let addresses = addresses_of(alloc, &backends)?;
    Ok(Tables { words, addresses })
}

/// What entries refer to, where the maps are those of steering.
pub(crate) fn told_of(
    alloc: Global,
    shards: &[Shard],
    journals: &Journals,
) -> Result<Option<Tables>, AllocError>
    requires { AreShardsOf journals.now shards.now }
    ensures { IfOk result (λ told. IsTold journals.now shards.now told) }
{
    let Some(size) = table_size(journals.maps()) else {
        return Ok(None);
    };
    let _ = size;
    let tables = tables_of(alloc, shards, journals)?;
    Ok(Some(tables))
}
