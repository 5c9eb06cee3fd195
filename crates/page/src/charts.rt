//! The charts of a page.

ghost use Rattle.std.specs.Prelude.{◌≡◌, ◌^◌, ◌<◌, ◌≤◌, IfOk, slice_index, string_bytes};
ghost use Rattle.page.specs.Charts.{all_rows, backend_chart, backend_legend, backend_opening, backend_row, backend_rows};
ghost use Rattle.page.specs.Charts.{backends_over_time, classes_over_time, name_legend, one_if_any, others_legend, others_row};
ghost use Rattle.page.specs.Charts.{backends_text, body_text, fate_chart, fate_legend, fate_opening, fate_word, fates_named, fates_over_time};
ghost use Rattle.page.specs.Charts.{most_of};
ghost use Rattle.page.specs.Charts.{patterns_text, rows_chart, seconds_text, six_last_digits};
ghost use Rattle.page.specs.Tallies.{counts_by_cell};

use crate::labels::backend_label;
use crate::named::{classes_of, pattern_of};
use crate::svg::{axis_text, groups_of, highest_of, legend_text, row_text, scaled};
use crate::tallies::{at, counts_of, key_at, slot_counts};
use control::Command;
use std::alloc::{AllocError, Global};

/// The last six digits of a number.
#[tactic(auto, unfolding(crate::specs::Charts::six_last_digits))]
pub(crate) fn six_digits(alloc: Global, number: u64) -> Result<String, AllocError>
    ensures { IfOk result (λ text. string_bytes text ≡ six_last_digits number) }
{
    let first = number / 100_000 % 10;
    let second = number / 10_000 % 10;
    let third = number / 1000 % 10;
    let fourth = number / 100 % 10;
    let fifth = number / 10 % 10;
    let last = number % 10;
    format!(in alloc; "{first}{second}{third}{fourth}{fifth}{last}")
}

/// Microseconds as seconds.
#[tactic(auto, unfolding(crate::specs::Charts::seconds_text))]
pub(crate) fn seconds_text(alloc: Global, micros: u64) -> Result<String, AllocError>
    ensures { IfOk result (λ text. string_bytes text ≡ seconds_text micros) }
{
    let seconds = micros / 1_000_000;
    let digits = six_digits(alloc, micros)?;
    format!(in alloc; "{seconds}.{digits}")
}

/// What became of a frame.
pub(crate) fn fate_word(fate: usize) -> &'static str
    ensures { result.now ≡ fate_word fate }
{
    match fate {
        0 => "sent",
        1 => "passed",
        2 => "dropped",
        3 => "aborted",
        4 => "stopped",
        5 => "short",
        _ => "other",
    }
}

/// The legend of so many backends with a name.
fn name_legend(
    alloc: Global,
    commands: &[Command],
    named: &[u64],
    count: usize,
) -> Result<String, AllocError>
    requires { count < 2 ^ 15 }
    ensures { IfOk result (λ text. string_bytes text ≡ name_legend commands.now named.now count) }
{
    let mut text = String::new(alloc);
    'names: for place in 0..count {
        let label = backend_label(alloc, commands, key_at(named, place))?;
        let entry = legend_text(alloc, place, label.as_str())?;
        text.push_str(entry.as_str())?;
    }
    Ok(text)
}

/// The legend of all backends without a name, which have so many frames.
fn others_legend(alloc: Global, count: usize) -> Result<String, AllocError>
    ensures { IfOk result (λ text. string_bytes text ≡ others_legend count) }
{
    if count == 0 {
        return Ok(String::new(alloc));
    }
    legend_text(alloc, 8, "others")
}

/// The legend of backends.
fn backend_legend(
    alloc: Global,
    commands: &[Command],
    named: &[u64],
    others: usize,
) -> Result<String, AllocError>
    ensures { IfOk result (λ text. string_bytes text ≡ backend_legend commands.now named.now others) }
{
    let mut text = name_legend(alloc, commands, named, named.len().min(8))?;
    let legend = others_legend(alloc, others)?;
    text.push_str(legend.as_str())?;
    Ok(text)
}

/// The legend of so many fates.
fn fate_legend(alloc: Global, count: usize) -> Result<String, AllocError>
    requires { count < 2 ^ 15 }
    ensures { IfOk result (λ text. string_bytes text ≡ fate_legend count) }
{
    let mut text = String::new(alloc);
    'fates: for fate in 0..count {
        let entry = legend_text(alloc, fate, fate_word(fate))?;
        text.push_str(entry.as_str())?;
    }
    Ok(text)
}

/// How many of the fates are named.
pub(crate) fn fates_named(totals: &[usize]) -> usize
    ensures named { result ≡ fates_named totals.now }
    ensures few { result ≤ 7 }
{
    if at(totals, 6) == 0 { 6 } else { 7 }
}

/// What fills the patterns of the classes.
#[tactic(auto, unfolding(crate::specs::Charts::patterns_text))]
fn patterns_text() -> &'static str
    ensures { result.now ≡ patterns_text }
{
    "<defs>\n<pattern id=\"f0\" width=\"6\" height=\"6\" patternUnits=\"userSpaceOnUse\"><rect width=\"6\" height=\"6\" fill=\"#1f5fa8\"/></pattern>\n\
     <pattern id=\"f1\" width=\"6\" height=\"6\" patternUnits=\"userSpaceOnUse\"><rect width=\"6\" height=\"6\" fill=\"#f0b429\"/>\
     <path d=\"M0 6L6 0\" stroke=\"#000\"/></pattern>\n\
     <pattern id=\"f2\" width=\"6\" height=\"6\" patternUnits=\"userSpaceOnUse\"><rect width=\"6\" height=\"6\" fill=\"#e4e4e4\"/>\
     <circle cx=\"3\" cy=\"3\" r=\"1.4\"/></pattern>\n\
     <pattern id=\"f3\" width=\"6\" height=\"6\" patternUnits=\"userSpaceOnUse\"><rect width=\"6\" height=\"6\" fill=\"#c0392b\"/>\
     <path d=\"M0 3H6\" stroke=\"#fff\"/></pattern>\n\
     <pattern id=\"f4\" width=\"6\" height=\"6\" patternUnits=\"userSpaceOnUse\"><rect width=\"6\" height=\"6\" fill=\"#7fc8a9\"/>\
     <path d=\"M3 0V6\" stroke=\"#000\"/></pattern>\n\
     <pattern id=\"f5\" width=\"6\" height=\"6\" patternUnits=\"userSpaceOnUse\"><rect width=\"6\" height=\"6\" fill=\"#ddd\"/>\
     <path d=\"M0 0L6 6M0 6L6 0\" stroke=\"#000\" stroke-width=\".7\"/></pattern>\n\
     <pattern id=\"f6\" width=\"6\" height=\"6\" patternUnits=\"userSpaceOnUse\"><rect width=\"6\" height=\"6\" fill=\"#111\"/></pattern>\n\
     <pattern id=\"f7\" width=\"6\" height=\"6\" patternUnits=\"userSpaceOnUse\"><rect width=\"6\" height=\"6\" fill=\"#d9a5d8\"/>\
     <path d=\"M0 0L6 6\" stroke=\"#000\"/></pattern>\n\
     <pattern id=\"f8\" width=\"6\" height=\"6\" patternUnits=\"userSpaceOnUse\"><rect width=\"6\" height=\"6\" fill=\"#f4f4f4\"/>\
     <path d=\"M0 3H6M3 0V6\" stroke=\"#000\" stroke-width=\".6\"/></pattern>\n</defs>\n"
}

/// The bars of the counts of slots, and their scale.
#[tactic(auto, unfolding(crate::specs::Charts::body_text))]
fn body_text(
    alloc: Global,
    counts: &[usize],
    classes: usize,
    first: &str,
    last: &str,
) -> Result<String, AllocError>
    requires { classes < 2 ^ 15 }
    ensures { IfOk result (λ text. string_bytes text ≡ body_text counts.now classes first.now last.now) }
{
    let highest = highest_of(counts, classes, 60);
    let mut text = groups_of(alloc, counts, classes, highest)?;
    let axis = axis_text(alloc, highest, first, last)?;
    text.push_str(axis.as_str())?;
    Ok(text)
}

/// What the chart of frames over time by backend begins with.
#[tactic(auto, unfolding(crate::specs::Charts::backend_opening))]
fn backend_opening() -> &'static str
    ensures { result.now ≡ backend_opening }
{
    "<h2>Frames over time, by backend</h2>\n<svg role=\"img\" viewBox=\"0 0 400 206\">\n<title>Frames over time, by backend</title>\n\
     <desc>Stacked bars: how many frames each backend got in each of at most sixty equal slots of time. Numbered lines are commands.</desc>\n"
}

/// Frames over time by backend, with the marks of commands.
#[tactic(auto, unfolding(crate::specs::Charts::backend_chart))]
fn backend_chart(
    alloc: Global,
    defs: &str,
    body: &str,
    marks: &str,
    legend: &str,
) -> Result<String, AllocError>
    ensures { IfOk result (λ text. string_bytes text ≡ backend_chart defs.now body.now marks.now legend.now) }
{
    let opening = backend_opening();
    format!(in alloc; "{opening}{defs}{body}{marks}{legend}</svg>\n")
}

/// What the chart of frames over time by what became of them begins with.
#[tactic(auto, unfolding(crate::specs::Charts::fate_opening))]
fn fate_opening() -> &'static str
    ensures { result.now ≡ fate_opening }
{
    "<h2>Frames over time, by what became of them</h2>\n<svg role=\"img\" viewBox=\"0 0 400 206\">\n\
     <title>Frames over time, by what became of them</title>\n\
     <desc>Stacked bars: how many frames were sent, passed, dropped, aborted, stopped or short in each of at most sixty equal slots of \
     time. Numbered lines are commands.</desc>\n"
}

/// Frames over time by what became of them, with the marks of commands.
#[tactic(auto, unfolding(crate::specs::Charts::fate_chart))]
fn fate_chart(alloc: Global, body: &str, marks: &str, legend: &str) -> Result<String, AllocError>
    ensures { IfOk result (λ text. string_bytes text ≡ fate_chart body.now marks.now legend.now) }
{
    let opening = fate_opening();
    format!(in alloc; "{opening}{body}{marks}{legend}</svg>\n")
}

/// How many of these classes are of backends without a name.
fn others_of(alloc: Global, classes: &[usize]) -> Result<usize, AllocError>
    ensures { IfOk result (λ others. others ≡ slice_index (counts_by_cell classes.now 9) 8) }
{
    let totals = counts_of(alloc, classes, 9)?;
    Ok(at(&totals, 8))
}

/// Frames over time by backend, of rows with these slots and keys, between two moments, where these backends have a name.
pub(crate) fn backends_over_time(
    alloc: Global,
    commands: &[Command],
    named: &[u64],
    keys: &[u64],
    slots: &[usize],
    first: &str,
    last: &str,
    marks: &str,
) -> Result<String, AllocError>
    ensures { IfOk result (λ text. string_bytes text ≡ backends_over_time commands.now named.now keys.now slots.now first.now last.now marks.now) }
{
    let classes = classes_of(alloc, named, 8, keys)?;
    classes_over_time(alloc, commands, named, &classes, slots, first, last, marks)
}

/// The same of rows with these classes.
#[tactic(auto, unfolding(crate::specs::Charts::classes_over_time))]
fn classes_over_time(
    alloc: Global,
    commands: &[Command],
    named: &[u64],
    classes: &[usize],
    slots: &[usize],
    first: &str,
    last: &str,
    marks: &str,
) -> Result<String, AllocError>
    ensures { IfOk result (λ text. string_bytes text ≡ classes_over_time commands.now named.now classes.now slots.now first.now last.now marks.now) }
{
    let others = others_of(alloc, classes)?;
    let counts = slot_counts(alloc, 9, slots, classes)?;
    let body = body_text(alloc, &counts, 9, first, last)?;
    let legend = backend_legend(alloc, commands, named, others)?;
    backend_chart(
        alloc,
        patterns_text(),
        body.as_str(),
        marks,
        legend.as_str(),
    )
}

/// Frames over time by what became of them, of rows with these slots and fates, between two moments.
#[tactic(auto, unfolding(crate::specs::Charts::fates_over_time))]
pub(crate) fn fates_over_time(
    alloc: Global,
    totals: &[usize],
    fates: &[usize],
    slots: &[usize],
    first: &str,
    last: &str,
    marks: &str,
) -> Result<String, AllocError>
    ensures { IfOk result (λ text. string_bytes text ≡ fates_over_time totals.now fates.now slots.now first.now last.now marks.now) }
{
    let counts = slot_counts(alloc, 7, slots, fates)?;
    let body = body_text(alloc, &counts, 7, first, last)?;
    let legend = fate_legend(alloc, fates_named(totals))?;
    fate_chart(alloc, body.as_str(), marks, legend.as_str())
}

/// The bar of a backend.
#[tactic(auto, unfolding(crate::specs::Charts::backend_row))]
fn backend_row(
    alloc: Global,
    commands: &[Command],
    named: &[u64],
    listed: &[u64],
    totals: &[usize],
    highest: u128,
    place: usize,
) -> Result<String, AllocError>
    requires place { place < 2 ^ 15 }
    requires some { 1 ≤ highest }
    requires highest { highest ≤ 2 ^ 80 }
    ensures { IfOk result (λ text. string_bytes text ≡ backend_row commands.now named.now listed.now totals.now highest place) }
{
    let count = at(totals, place);
    let key = key_at(listed, place);
    let label = backend_label(alloc, commands, key)?;
    let width = scaled(240, highest, count as u128);
    let pattern = pattern_of(named, key);
    row_text(alloc, place, pattern, label.as_str(), width, count)
}

/// The bars of so many backends.
fn backend_rows(
    alloc: Global,
    commands: &[Command],
    named: &[u64],
    listed: &[u64],
    totals: &[usize],
    highest: u128,
    count: usize,
) -> Result<String, AllocError>
    requires count { count < 2 ^ 15 }
    requires some { 1 ≤ highest }
    requires highest { highest ≤ 2 ^ 80 }
    ensures { IfOk result (λ text. string_bytes text ≡ backend_rows commands.now named.now listed.now totals.now highest count) }
{
    let mut text = String::new(alloc);
    'backends: for place in 0..count {
        let row = backend_row(alloc, commands, named, listed, totals, highest, place)?;
        text.push_str(row.as_str())?;
    }
    Ok(text)
}

/// The bar of all other backends, at this place, if one of them has a frame.
fn others_row(
    alloc: Global,
    highest: u128,
    place: usize,
    count: usize,
) -> Result<String, AllocError>
    requires place { place < 2 ^ 15 }
    requires some { 1 ≤ highest }
    requires highest { highest ≤ 2 ^ 80 }
    ensures { IfOk result (λ text. string_bytes text ≡ others_row highest place count) }
{
    if count == 0 {
        return Ok(String::new(alloc));
    }
    let width = scaled(240, highest, count as u128);
    row_text(alloc, place, 8, "others", width, count)
}

/// The bars of so many listed backends, and of all others.
fn all_rows(
    alloc: Global,
    commands: &[Command],
    named: &[u64],
    listed: &[u64],
    totals: &[usize],
    highest: u128,
    count: usize,
) -> Result<String, AllocError>
    requires count { count < 2 ^ 15 }
    requires some { 1 ≤ highest }
    requires highest { highest ≤ 2 ^ 80 }
    ensures { IfOk result (λ text. string_bytes text ≡ all_rows commands.now named.now listed.now totals.now highest count) }
{
    let mut text = backend_rows(alloc, commands, named, listed, totals, highest, count)?;
    let others = others_row(alloc, highest, count, at(totals, 32))?;
    text.push_str(others.as_str())?;
    Ok(text)
}

/// One bar for all of these, if there are any.
fn one_if_any(count: usize) -> usize
    ensures one { result ≡ one_if_any count }
    ensures few { result ≤ 1 }
{
    if count == 0 { 0 } else { 1 }
}

/// The most frames that a backend got, and 1 where none got any.
fn most_of(totals: &[usize]) -> usize
    ensures most { result ≡ most_of totals.now }
    ensures some { 1 ≤ result }
{
    let mut most = 1;
    'totals: for total in totals {
        most = most.max(*total);
    }
    most
}

/// The chart of these bars.
#[tactic(auto, unfolding(crate::specs::Charts::rows_chart))]
fn rows_chart(alloc: Global, height: usize, rows: &str) -> Result<String, AllocError>
    ensures { IfOk result (λ text. string_bytes text ≡ rows_chart height rows.now) }
{
    format!(in alloc;
        "<h2>Frames by backend</h2>\n<svg role=\"img\" viewBox=\"0 0 400 {height}\">\n<title>Frames by backend</title>\n\
         <desc>Bars: how many frames each backend got.</desc>\n{rows}</svg>\n"
    )
}

/// Frames by backend.
#[tactic(auto, unfolding(crate::specs::Charts::backends_text))]
pub(crate) fn backends_text(
    alloc: Global,
    commands: &[Command],
    named: &[u64],
    listed: &[u64],
    totals: &[usize],
) -> Result<String, AllocError>
    ensures { IfOk result (λ text. string_bytes text ≡ backends_text commands.now named.now listed.now totals.now) }
{
    let count = listed.len().min(32);
    let most = most_of(totals) as u128;
    let rows = all_rows(alloc, commands, named, listed, totals, most, count)?;
    let height = 4 + 14 * (count + one_if_any(at(totals, 32)));
    rows_chart(alloc, height, rows.as_str())
}
