//! How many records are changed in which way.

ghost use Rattle.std.specs.Prelude.{◌≡◌, ◌+◌, ◌^◌, ◌<◌, IfOk, OnOk, map};
ghost use Rattle.comparison.specs.Kinds.{AreKindsOf, HasNoZero, HasOneMore, IsByCount, IsTableOf, count_of};

use crate::changes::change_at;
use std::alloc::{AllocError, Global};
use std::collections::BTreeMap;

/// Of each change, how many records have it.
type Counts = BTreeMap<String, u64>;

/// How many records have this change.
fn count_of(counts: &Counts, change: &str) -> u64
    ensures { result ≡ count_of counts.now change.now }
{
    counts.get(change).copied().unwrap_or(0)
}

/// Counts one record more.
fn add(counts: &mut Counts, alloc: Global, change: &str) -> Result<(), AllocError>
    requires no_zero { HasNoZero counts.old }
    requires room { count_of counts.old change.now + 1 < 2 ^ 64 }
    ensures { OnOk result (HasOneMore counts.old counts.new change.now) }
{
    let next = count_of(counts, change) + 1;
    let key = String::from_str(alloc, change)?;
    counts.insert(key, next)?;
    Ok(())
}

/// The changes of the records at these places, each once, with how many they are.
fn table_of(
    alloc: Global,
    first: &[&str],
    second: &[&str],
    places: &[usize],
) -> Result<Counts, AllocError>
    ensures { IfOk result
        (λ table. IsTableOf (map (λ row. row.now) first.now) (map (λ row. row.now) second.now) places.now table) }
{
    let mut counts = BTreeMap::new(alloc);
    'places: for place in places {
        let change = change_at(alloc, first, second, *place)?;
        add(&mut counts, alloc, change.as_str())?;
    }
    Ok(counts)
}

/// The changes of a table.
fn entries_of(alloc: Global, table: Counts) -> Result<Vec<(String, u64)>, AllocError>
    ensures { IfOk result (λ entries. entries.items ≡ table.entries) }
{
    table.into_iter().collect(alloc)
}

/// The changes of a table, the most frequent first.
fn by_count(alloc: Global, table: Counts) -> Result<Vec<(String, u64)>, AllocError>
    ensures { IfOk result (λ kinds. IsByCount table kinds.items) }
{
    let _ordered = table.len();
    let mut kinds = entries_of(alloc, table)?;
    kinds.sort_by_key(|kind| u64::MAX - kind.1)?;
    Ok(kinds)
}

/// The kinds of changes of the records at these places, the most frequent first.
pub(crate) fn kinds_of(
    alloc: Global,
    first: &[&str],
    second: &[&str],
    places: &[usize],
) -> Result<Vec<(String, u64)>, AllocError>
    ensures { IfOk result
        (λ kinds. AreKindsOf (map (λ row. row.now) first.now) (map (λ row. row.now) second.now) places.now kinds.items) }
{
    let table = table_of(alloc, first, second, places)?;
    by_count(alloc, table)
}
