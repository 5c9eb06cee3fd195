//! The shares of a lookup table at the start of a script and at its end.

ghost use Rattle.std.specs.Prelude.{◌≡◌, ◌<◌, ◌^◌, IfOk, string_bytes};
ghost use Rattle.page.specs.Shares.{AreSharesTold, share_bars, share_numbers, share_row, share_rows, shares_table, shares_text};

use crate::commands::first_ones;
use crate::labels::backend_label;
use crate::svg::scaled;
use control::Command;
use std::alloc::{AllocError, Global};
use traffic::{share_of, words_after};

/// How many slots the table has: those of a replay for which no other number is given.
const SLOTS: u32 = 251;

/// So many backends may be up.
const BACKENDS: u32 = 256;

/// A backend's label, and its slots at the start and at the end.
#[tactic(auto, unfolding(crate::specs::Shares::share_numbers))]
fn share_numbers(
    alloc: Global,
    label: &str,
    start: usize,
    last: usize,
) -> Result<String, AllocError>
    ensures { IfOk result (λ text. string_bytes text ≡ share_numbers label.now start last) }
{
    format!(in alloc; "<tr><td>{label}</td><td>{start}</td><td>{last}</td><td>")
}

/// Two bars of these widths.
#[tactic(auto, unfolding(crate::specs::Shares::share_bars))]
fn share_bars(alloc: Global, start: u128, last: u128) -> Result<String, AllocError>
    ensures { IfOk result (λ text. string_bytes text ≡ share_bars start last) }
{
    format!(in alloc;
        "<svg style=\"width:126px\" viewBox=\"0 0 126 20\"><rect class=\"key\" x=\"2\" y=\"2\" width=\"{start}\" height=\"7\" fill=\"url(#f2)\"/>\
         <rect class=\"key\" x=\"2\" y=\"11\" width=\"{last}\" height=\"7\" fill=\"url(#f0)\"/></svg></td></tr>\n"
    )
}

/// The row of the backend with this key, if it owns a slot at the start or at the end.
fn share_row(
    alloc: Global,
    commands: &[Command],
    key: u64,
    start: usize,
    last: usize,
) -> Result<String, AllocError>
    ensures { IfOk result (λ text. string_bytes text ≡ share_row commands.now key start last) }
{
    if start == 0 && last == 0 {
        return Ok(String::new(alloc));
    }
    let label = backend_label(alloc, commands, key)?;
    let mut text = share_numbers(alloc, label.as_str(), start, last)?;
    let bars = share_bars(
        alloc,
        scaled(122, 251, start as u128),
        scaled(122, 251, last as u128),
    )?;
    text.push_str(bars.as_str())?;
    Ok(text)
}

/// The rows of the backends below this number, where these are the words of the table.
#[tactic(auto, unfolding(crate::specs::Shares::share_rows))]
fn share_rows(
    alloc: Global,
    commands: &[Command],
    start: &[u32],
    last: &[u32],
    count: u32,
) -> Result<String, AllocError>
    requires { count < 2 ^ 31 }
    ensures { IfOk result (λ text. string_bytes text ≡ share_rows commands.now start.now last.now count) }
{
    let mut text = String::new(alloc);
    'backends: for backend in 0..count {
        let row = share_row(
            alloc,
            commands,
            u64::from(backend) + 1,
            share_of(backend + 1, start),
            share_of(backend + 1, last),
        )?;
        text.push_str(row.as_str())?;
    }
    Ok(text)
}

/// The table of these rows.
#[tactic(auto, unfolding(crate::specs::Shares::shares_table))]
fn shares_table(alloc: Global, rows: &str) -> Result<String, AllocError>
    ensures { IfOk result (λ text. string_bytes text ≡ shares_table rows.now) }
{
    format!(in alloc;
        "<h2>Shares of a lookup table of 251 slots</h2>\n<p>How many of 251 slots each backend owns: with the commands before record 1 (dots), and \
         with all commands. A command that is refused changes nothing. 251 is the size of a replay without <code>--ring</code>; a report does \
         not say if its replay had another, whose shares <code>xlb table SCRIPT --ring N</code> prints.</p>\n<div class=\"wide\"><table>\n\
         <tr><th>backend</th><th>at the start</th><th>at the end</th><th></th></tr>\n{rows}</table></div>\n"
    )
}

/// The shares of tables with these words.
fn shares_text(
    alloc: Global,
    commands: &[Command],
    start: &[u32],
    last: &[u32],
) -> Result<String, AllocError>
    ensures { IfOk result (λ text. string_bytes text ≡ shares_text commands.now start.now last.now) }
{
    let rows = share_rows(alloc, commands, start, last, BACKENDS)?;
    shares_table(alloc, rows.as_str())
}

/// The shares of the lookup table behind the commands before the first record, and behind all commands.
pub(crate) fn shares_told(alloc: Global, commands: &[Command]) -> Result<String, AllocError>
    ensures { IfOk result (λ text. AreSharesTold commands.now (string_bytes text)) }
{
    let firsts = first_ones(alloc, commands)?;
    let start = words_after(alloc, &firsts, SLOTS)?;
    let last = words_after(alloc, commands, SLOTS)?;
    let text = shares_text(alloc, commands, &start, &last)?;
    Ok(text)
}
