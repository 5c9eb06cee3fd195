//! Which records were treated differently.

ghost use Rattle.std.specs.Prelude.{◌≡◌, ◌++◌, IfOk, OnOk, length, map, string_bytes};
ghost use Rattle.comparison.specs.Changes.{IsSharedCount, change_at, change_text, changed_until, is_changed, is_changed_at, is_same_case};
ghost use Rattle.comparison.specs.Changes.{is_same_record, spaced, treatment};

use crate::columns;
use crate::rows::{field, fields_between, fields_from, first_field, later_fields, row_at};
use std::alloc::{AllocError, Global};

/// Whether two rows are of one record.
fn is_same_record(first: &str, second: &str) -> bool
    ensures { result ≡ is_same_record first.now second.now }
{
    field(first, columns::NUMBER) == field(second, columns::NUMBER)
        && (field(first, columns::MOMENT) == field(second, columns::MOMENT)
            && fields_between(first, columns::SOURCE, columns::PROTOCOL)
                == fields_between(second, columns::SOURCE, columns::PROTOCOL))
}

/// How many rows from the first on are of the same records.
pub(crate) fn shared_count(first: &[&str], second: &[&str]) -> usize
    ensures { IsSharedCount (map (λ row. row.now) first.now) (map (λ row. row.now) second.now) result }
{
    let mut count = 0;
    'rows: while count < first.len()
        && count < second.len()
        && is_same_record(row_at(first, count), row_at(second, count))
    {
        count += 1;
    }
    count
}

/// Whether two records are of one case, or the case of one of them is not known.
fn is_same_case(first: &str, second: &str) -> bool
    ensures { result ≡ is_same_case first.now second.now }
{
    first.is_empty() || second.is_empty() || first == second
}

/// Whether a record is treated differently: with another verdict, by another case, or sent to another backend or address. In how many steps
/// that was, and how its backend was chosen, may differ.
fn is_changed(first: &str, second: &str) -> bool
    ensures { result ≡ is_changed first.now second.now }
{
    let (first_verdict, second_verdict) = (
        fields_from(first, columns::VERDICT),
        fields_from(second, columns::VERDICT),
    );
    let (first_case, second_case) = (
        fields_from(first_verdict, columns::CASE - columns::VERDICT),
        fields_from(second_verdict, columns::CASE - columns::VERDICT),
    );
    let (first_backend, second_backend) = (later_fields(first_case), later_fields(second_case));
    let (first_address, second_address) = (
        later_fields(first_backend),
        later_fields(second_backend),
    );
    !(first_field(first_verdict) == first_field(second_verdict)
        && is_same_case(first_field(first_case), first_field(second_case))
        && (first_field(first_backend) == first_field(second_backend)
            && first_field(first_address) == first_field(second_address)))
}

/// Whether the record at this place is treated differently.
fn is_changed_at(first: &[&str], second: &[&str], place: usize) -> bool
    ensures { result ≡ is_changed_at (map (λ row. row.now) first.now) (map (λ row. row.now) second.now) place }
{
    is_changed(row_at(first, place), row_at(second, place))
}

/// The places, counted from 0, of the records that are treated differently.
pub(crate) fn changed_places(
    alloc: Global,
    first: &[&str],
    second: &[&str],
) -> Result<Vec<usize>, AllocError>
    ensures { IfOk result (λ places. places.items ≡
        changed_until (map (λ row. row.now) first.now) (map (λ row. row.now) second.now) (length first.now)) }
{
    let mut places = Vec::new(alloc);
    'rows: for place in 0..first.len() {
        if is_changed_at(first, second, place) {
            places.push(place)?;
        }
    }
    Ok(places)
}

/// Appends a field behind a blank, if it is not empty.
fn put_spaced(text: &mut String, word: &str) -> Result<(), AllocError>
    ensures { OnOk result (string_bytes text.new ≡ string_bytes text.old ++ spaced word.now) }
{
    if word.is_empty() {
        return Ok(());
    }
    text.push_str(" ")?;
    text.push_str(word)
}

/// How a record is treated: its verdict, case, backend and address.
fn treatment(alloc: Global, row: &str) -> Result<String, AllocError>
    ensures { IfOk result (λ text. string_bytes text ≡ treatment row.now) }
{
    let mut text = String::from_str(alloc, field(row, columns::VERDICT))?;
    put_spaced(&mut text, field(row, columns::CASE))?;
    put_spaced(&mut text, field(row, columns::BACKEND))?;
    put_spaced(&mut text, field(row, columns::ADDRESS))?;
    Ok(text)
}

/// From which treatment to which.
fn change_text(alloc: Global, first: &str, second: &str) -> Result<String, AllocError>
    ensures { IfOk result (λ text. string_bytes text ≡ change_text first.now second.now) }
{
    let before = treatment(alloc, first)?;
    let after = treatment(alloc, second)?;
    let (before, after) = (before.as_str(), after.as_str());
    format!(in alloc; "from {before} to {after}")
}

/// How the treatment of the record at this place differs.
pub(crate) fn change_at(
    alloc: Global,
    first: &[&str],
    second: &[&str],
    place: usize,
) -> Result<String, AllocError>
    ensures { IfOk result
        (λ text. string_bytes text ≡ change_at (map (λ row. row.now) first.now) (map (λ row. row.now) second.now) place) }
{
    change_text(alloc, row_at(first, place), row_at(second, place))
}
