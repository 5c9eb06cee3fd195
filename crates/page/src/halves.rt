//! Frames of backends before and behind the first command that is not one of the start.

ghost use Rattle.std.specs.Prelude.{◌≡◌, ◌+◌, IfOk, drop, string_bytes};
ghost use Rattle.page.specs.Halves.{counts_with_none, half_label, half_row, half_rows, half_text, halves_at, halves_table, halves_text};

use crate::labels::backend_label;
use crate::named::{LISTED, classes_of, first_keys};
use crate::tallies::{at, counts_of, key_at};
use control::Command;
use std::alloc::{AllocError, Global};

/// So many rows there may be: 32 listed backends, all others, and none.
const ROWS: usize = 34;

/// How many keys are of each listed backend, of all others, and of none.
fn counts_with_none(alloc: Global, listed: &[u64], keys: &[u64]) -> Result<Vec<usize>, AllocError>
    ensures { IfOk result (λ counts. counts.items ≡ counts_with_none listed.now keys.now) }
{
    let classes = classes_of(alloc, listed, LISTED, keys)?;
    counts_of(alloc, &classes, ROWS)
}

/// The keys behind these.
fn later_keys(keys: &[u64], count: usize) -> &[u64]
    ensures { result.now ≡ drop count keys.now }
{
    &keys[count.min(keys.len())..]
}

/// A backend, all others, or none.
#[tactic(auto, unfolding(crate::specs::Halves::half_label))]
fn half_label(
    alloc: Global,
    commands: &[Command],
    listed: &[u64],
    place: usize,
) -> Result<String, AllocError>
    ensures { IfOk result (λ text. string_bytes text ≡ half_label commands.now listed.now place) }
{
    if place == 33 {
        String::from_str(alloc, "none")
    } else if place == 32 {
        String::from_str(alloc, "others")
    } else {
        backend_label(alloc, commands, key_at(listed, place))
    }
}

#[tactic(auto, unfolding(crate::specs::Halves::half_text))]
fn half_text(alloc: Global, label: &str, before: usize, behind: usize) -> Result<String, AllocError>
    ensures { IfOk result (λ text. string_bytes text ≡ half_text label.now before behind) }
{
    format!(in alloc; "<tr><th>{label}</th><td>{before}</td><td>{behind}</td></tr>\n")
}

/// The row of a backend that has a frame.
fn half_row(
    alloc: Global,
    commands: &[Command],
    listed: &[u64],
    before: &[usize],
    behind: &[usize],
    place: usize,
) -> Result<String, AllocError>
    ensures { IfOk result (λ text. string_bytes text ≡ half_row commands.now listed.now before.now behind.now place) }
{
    if at(before, place) == 0 && at(behind, place) == 0 {
        return Ok(String::new(alloc));
    }
    let label = half_label(alloc, commands, listed, place)?;
    half_text(alloc, label.as_str(), at(before, place), at(behind, place))
}

/// The rows of backends.
fn half_rows(
    alloc: Global,
    commands: &[Command],
    listed: &[u64],
    before: &[usize],
    behind: &[usize],
    count: usize,
) -> Result<String, AllocError>
    ensures { IfOk result (λ text. string_bytes text ≡ half_rows commands.now listed.now before.now behind.now count) }
{
    let mut text = String::new(alloc);
    'rows: for place in 0..count {
        let row = half_row(alloc, commands, listed, before, behind, place)?;
        text.push_str(row.as_str())?;
    }
    Ok(text)
}

/// The table of these rows, of a command before this record.
#[tactic(auto, unfolding(crate::specs::Halves::halves_table))]
fn halves_table(alloc: Global, number: u64, rows: &str) -> Result<String, AllocError>
    ensures { IfOk result (λ text. string_bytes text ≡ halves_table number rows.now) }
{
    format!(in alloc;
        "<h2>Frames by backend, before and behind the first command</h2>\n<p>The first command behind record 1 comes before record \
         {number}.</p>\n<table class=\"figures\">\n<tr><th>backend</th><th>before</th><th>behind</th></tr>\n{rows}</table>\n"
    )
}

/// The table of these keys, where the first so many are before the command.
#[tactic(auto, unfolding(crate::specs::Halves::halves_at))]
fn halves_at(
    alloc: Global,
    commands: &[Command],
    listed: &[u64],
    keys: &[u64],
    count: u32,
) -> Result<String, AllocError>
    ensures { IfOk result (λ text. string_bytes text ≡ halves_at commands.now listed.now keys.now count) }
{
    let before = counts_with_none(alloc, listed, first_keys(keys, count as usize))?;
    let behind = counts_with_none(alloc, listed, later_keys(keys, count as usize))?;
    let rows = half_rows(alloc, commands, listed, &before, &behind, ROWS)?;
    halves_table(alloc, u64::from(count) + 1, rows.as_str())
}

/// The table, if there is such a command.
pub(crate) fn halves_text(
    alloc: Global,
    commands: &[Command],
    listed: &[u64],
    keys: &[u64],
    count: Option<u32>,
) -> Result<String, AllocError>
    ensures { IfOk result (λ text. string_bytes text ≡ halves_text commands.now listed.now keys.now count) }
{
    match count {
        None => Ok(String::new(alloc)),
        Some(count) => halves_at(alloc, commands, listed, keys, count),
    }
}
