//! The text of a comparison, for people.

ghost use Rattle.std.specs.Prelude.{◌≡◌, ◌-◌, ◌++◌, IfOk, OnOk, length, map, string_bytes, take};
ghost use Rattle.comparison.specs.ComparisonText.{comparison_text, flow_phrase, flow_pieces, kind_line, kinds_text, more_line, record_pieces};
ghost use Rattle.comparison.specs.ComparisonText.{record_text, records_text, summary_line};

use crate::changes::change_at;
use crate::columns;
use crate::rows::{field, row_at};
use std::alloc::{AllocError, Global};

/// So many kinds of changes are printed.
const KINDS: usize = 20;

/// So many records are printed.
const RECORDS: usize = 10;

/// The line of these numbers.
fn summary_line(alloc: Global, records: usize, changed: usize) -> Result<String, AllocError>
    ensures { IfOk result (λ text. string_bytes text ≡ summary_line records changed) }
{
    format!(in alloc; "{records} records in both, {changed} treated differently\n")
}

/// A kind of change, with how many records there are of it.
fn kind_line(alloc: Global, change: &str, count: u64) -> Result<String, AllocError>
    ensures { IfOk result (λ text. string_bytes text ≡ kind_line change.now count) }
{
    format!(in alloc; "{count} {change}\n")
}

/// Appends the lines of kinds.
fn put_kinds(alloc: Global, text: &mut String, kinds: &[(String, u64)]) -> Result<(), AllocError>
    ensures { OnOk result (string_bytes text.new ≡ string_bytes text.old ++ kinds_text kinds.now) }
{
    'kinds: for kind in kinds {
        let line = kind_line(alloc, kind.0.as_str(), kind.1)?;
        text.push_str(line.as_str())?;
    }
    Ok(())
}

/// The line of kinds that are not printed.
fn more_line(alloc: Global, count: usize) -> Result<String, AllocError>
    ensures { IfOk result (λ text. string_bytes text ≡ more_line count) }
{
    if count == 0 {
        return Ok(String::new(alloc));
    }
    format!(in alloc; "and {count} kinds more\n")
}

/// A flow's protocol, source and destination.
pub fn flow_pieces(
    alloc: Global,
    protocol: &str,
    source: &str,
    source_port: &str,
    destination: &str,
    destination_port: &str,
) -> Result<String, AllocError>
    ensures { IfOk result
        (λ text. string_bytes text ≡ flow_pieces protocol.now source.now source_port.now destination.now destination_port.now) }
{
    format!(in alloc; "{protocol} {source}:{source_port} to {destination}:{destination_port}")
}

/// The flow of a record.
pub fn flow_phrase(alloc: Global, row: &str) -> Result<String, AllocError>
    ensures { IfOk result (λ text. string_bytes text ≡ flow_phrase row.now) }
{
    if field(row, columns::SOURCE).len() == 0 {
        return String::from_str(alloc, "no flow");
    }
    flow_pieces(
        alloc,
        field(row, columns::PROTOCOL),
        field(row, columns::SOURCE),
        field(row, columns::SOURCE_PORT),
        field(row, columns::DESTINATION),
        field(row, columns::DESTINATION_PORT),
    )
}

/// A record that is treated differently.
fn record_pieces(
    alloc: Global,
    number: &str,
    moment: &str,
    flow: &str,
    change: &str,
) -> Result<String, AllocError>
    ensures { IfOk result (λ text. string_bytes text ≡ record_pieces number.now moment.now flow.now change.now) }
{
    format!(in alloc; "record {number} at {moment}, {flow}: {change}\n")
}

/// The line of the record at this place.
fn record_text(
    alloc: Global,
    first: &[&str],
    second: &[&str],
    place: usize,
) -> Result<String, AllocError>
    ensures { IfOk result
        (λ text. string_bytes text ≡ record_text (map (λ row. row.now) first.now) (map (λ row. row.now) second.now) place) }
{
    let row = row_at(first, place);
    let flow = flow_phrase(alloc, row)?;
    let change = change_at(alloc, first, second, place)?;
    record_pieces(
        alloc,
        field(row, columns::NUMBER),
        field(row, columns::MOMENT),
        flow.as_str(),
        change.as_str(),
    )
}

/// Appends the lines of the records at these places.
fn put_records(
    alloc: Global,
    text: &mut String,
    first: &[&str],
    second: &[&str],
    places: &[usize],
) -> Result<(), AllocError>
    ensures { OnOk result (string_bytes text.new ≡ string_bytes text.old
        ++ records_text (map (λ row. row.now) first.now) (map (λ row. row.now) second.now) places.now) }
{
    'places: for place in places {
        let line = record_text(alloc, first, second, *place)?;
        text.push_str(line.as_str())?;
    }
    Ok(())
}

/// How many records both have, and how many are treated differently.
fn summary(alloc: Global, first: &[&str], places: &[usize]) -> Result<String, AllocError>
    ensures { IfOk result (λ text. string_bytes text ≡ summary_line (length (map (λ row. row.now) first.now)) (length places.now)) }
{
    summary_line(alloc, first.len(), places.len())
}

/// The most frequent kinds.
fn first_kinds(kinds: &[(String, u64)]) -> &[(String, u64)]
    ensures { result.now ≡ take 20 kinds.now }
{
    if kinds.len() <= KINDS {
        kinds
    } else {
        &kinds[..KINDS]
    }
}

/// The first places.
fn first_places(places: &[usize]) -> &[usize]
    ensures { result.now ≡ take 10 places.now }
{
    if places.len() <= RECORDS {
        places
    } else {
        &places[..RECORDS]
    }
}

/// How many kinds are not printed.
fn more(alloc: Global, kinds: &[(String, u64)]) -> Result<String, AllocError>
    ensures { IfOk result (λ text. string_bytes text ≡ more_line (length kinds.now - 20)) }
{
    more_line(alloc, kinds.len().saturating_sub(KINDS))
}

/// The numbers, the most frequent kinds of changes, and the first records that are treated differently.
pub(crate) fn comparison_text(
    alloc: Global,
    first: &[&str],
    second: &[&str],
    places: &[usize],
    kinds: &[(String, u64)],
) -> Result<String, AllocError>
    ensures { IfOk result (λ text. string_bytes text ≡
        comparison_text (map (λ row. row.now) first.now) (map (λ row. row.now) second.now) places.now kinds.now) }
{
    let mut text = summary(alloc, first, places)?;
    put_kinds(alloc, &mut text, first_kinds(kinds))?;
    let more = more(alloc, kinds)?;
    text.push_str(more.as_str())?;
    put_records(alloc, &mut text, first, second, first_places(places))?;
    Ok(text)
}
