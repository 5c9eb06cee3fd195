//! A line for each key that is there.

ghost use Rattle.std.specs.Prelude.{◌≡◌, ◌++◌, IfOk, OnOk, length, string_bytes};
ghost use Rattle.journals.specs.LegalJournals.{AreLegal};
ghost use Rattle.map_contents.specs.ContentsText.{AreLinesTo, IsContentsText, entry_line, entry_text, map_lines, rest_of};
ghost use Rattle.map_contents.specs.Remade.{AreShardsOf};

use crate::making::remade;
use crate::told::{entries_of, told_of};
use journals::{Journals, Kept};
use map_meanings::{ContentsForm, Tables};
use shard_core::{Key, Shard, Value};
use std::alloc::{AllocError, Global};

/// The line of a key and its value, which are hexadecimal, and what stands behind them.
fn entry_text(
    alloc: Global,
    form: ContentsForm,
    map: u32,
    key: &str,
    value: &str,
    rest: &str,
) -> Result<String, AllocError>
    ensures { IfOk result (λ line. string_bytes line ≡ entry_text form map key.now value.now rest.now) }
{
    match form {
        ContentsForm::Words => format!(in alloc; "{map} {key} {value}{rest}\n"),
        ContentsForm::Json => {
            format!(in alloc; "{{\"map\":{map},\"key\":\"{key}\",\"value\":\"{value}\"{rest}}}\n")
        }
    }
}

/// What the entry means, where the maps are those of steering.
fn rest_of(
    alloc: Global,
    form: ContentsForm,
    told: &Option<Tables>,
    map: u32,
    entry: &(Key, Value),
) -> Result<String, AllocError>
    ensures { IfOk result (λ rest. string_bytes rest ≡ rest_of form told.now map entry.now) }
{
    let key = entry.0.as_slice();
    let value = entry.1.as_slice();
    match told {
        Some(tables) => tables.entry_meaning(alloc, form, map, key, value),
        None => Ok(String::new(alloc)),
    }
}

/// Appends the line of an entry of a map.
fn put_entry(
    alloc: Global,
    form: ContentsForm,
    told: &Option<Tables>,
    text: &mut String,
    map: u32,
    entry: &(Key, Value),
) -> Result<(), AllocError>
    ensures { OnOk result (string_bytes text.new ≡ string_bytes text.old ++ entry_line form told.now map entry.now) }
{
    let key = hex::encode(alloc, entry.0.as_slice())?;
    let value = hex::encode(alloc, entry.1.as_slice())?;
    let rest = rest_of(alloc, form, told, map, entry)?;
    let line = entry_text(
        alloc,
        form,
        map,
        key.as_str(),
        value.as_str(),
        rest.as_str(),
    )?;
    text.push_str(line.as_str())
}

/// Appends the lines of the entries of a map.
fn put_map(
    alloc: Global,
    form: ContentsForm,
    told: &Option<Tables>,
    text: &mut String,
    map: u32,
    entries: &[(Key, Value)],
) -> Result<(), AllocError>
    ensures { OnOk result (string_bytes text.new ≡ string_bytes text.old ++ map_lines form told.now map entries.now) }
{
    'entries: for entry in entries {
        put_entry(alloc, form, told, text, map, entry)?;
    }
    Ok(())
}

/// The lines of all maps, of these shards, which tell this of the meaning of entries.
fn put_maps(
    alloc: Global,
    form: ContentsForm,
    told: &Option<Tables>,
    shards: &[Shard],
    journals: &Journals,
) -> Result<String, AllocError>
    requires { AreShardsOf journals.now shards.now }
    ensures { IfOk result (λ text. AreLinesTo form told.now journals.now shards.now (length journals.now.maps) (string_bytes text)) }
{
    let maps = journals.maps();
    let mut text = String::new(alloc);
    'maps: for map in 0..maps.len() {
        let entries = entries_of(alloc, shards, journals, map as u32)?;
        put_map(alloc, form, told, &mut text, map as u32, &entries)?;
    }
    Ok(text)
}

/// The lines of all maps, of these shards.
fn text_of(
    alloc: Global,
    form: ContentsForm,
    shards: &[Shard],
    journals: &Journals,
) -> Result<String, AllocError>
    requires { AreShardsOf journals.now shards.now }
    ensures { IfOk result (λ text. IsContentsText form journals.now (string_bytes text)) }
{
    let told = told_of(alloc, shards, journals)?;
    let text = put_maps(alloc, form, &told, shards, journals)?;
    Ok(text)
}

/// A line for each key that is in a map after the calls of legal journals: the place of the map, the key and its value, in hexadecimal, and
/// of the maps of steering what the entry means. The maps come in their order, and each map's keys in theirs. Where shards keep the journals,
/// these are looked at, also ones without rows; the calls of lists are made again, which takes the memory of all shards. Fails only for lack
/// of memory.
pub fn contents_text(
    alloc: Global,
    form: ContentsForm,
    journals: &Journals,
) -> Result<String, AllocError>
    requires { AreLegal journals.now }
    ensures { IfOk result (λ text. IsContentsText form journals.now (string_bytes text)) }
{
    let _count = journals.count();
    match journals.kept() {
        Kept::Shards { shards } => text_of(alloc, form, shards, journals),
        Kept::Lists { lists } => {
            let shards = remade(alloc, journals, lists)?;
            text_of(alloc, form, &shards, journals)
        }
    }
}
