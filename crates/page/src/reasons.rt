//! Moved frames by reason, as bars.

ghost use Rattle.std.specs.Prelude.{◌≡◌, ◌^◌, ◌<◌, ◌≤◌, IfOk, map, string_bytes};
ghost use Rattle.flows.specs.FlowRecords.{moved_of};
ghost use Rattle.page.specs.Reasons.{longest, reason_bar, reason_bars, reasons_chart, reasons_text};

use crate::svg::{row_text, scaled};
use flows::{Move, Reason, how_many};
use std::alloc::{AllocError, Global};

/// So many reasons there are.
const REASONS: usize = 5;

/// The bar of a reason, where the longest is of this many frames.
#[tactic(auto, unfolding(crate::specs::Reasons::reason_bar))]
fn reason_bar(
    alloc: Global,
    highest: u128,
    count: usize,
    place: usize,
) -> Result<String, AllocError>
    requires place { place < 2 ^ 15 }
    requires some { 1 ≤ highest }
    requires highest { highest ≤ 2 ^ 80 }
    ensures { IfOk result (λ text. string_bytes text ≡ reason_bar highest count place) }
{
    let word = Reason::at(place).word();
    let width = scaled(240, highest, count as u128);
    row_text(alloc, place, place, word, width, count)
}

/// The bars of so many reasons.
fn reason_bars(
    alloc: Global,
    moves: &[Move],
    highest: u128,
    count: usize,
) -> Result<String, AllocError>
    requires count { count < 2 ^ 15 }
    requires some { 1 ≤ highest }
    requires highest { highest ≤ 2 ^ 80 }
    ensures { IfOk result (λ text. string_bytes text ≡ reason_bars (map moved_of moves.now) highest count) }
{
    let mut text = String::new(alloc);
    'reasons: for place in 0..count {
        let bar = reason_bar(alloc, highest, how_many(moves, place), place)?;
        text.push_str(bar.as_str())?;
    }
    Ok(text)
}

/// The chart of these bars.
#[tactic(auto, unfolding(crate::specs::Reasons::reasons_chart))]
fn reasons_chart(alloc: Global, bars: &str) -> Result<String, AllocError>
    ensures { IfOk result (λ text. string_bytes text ≡ reasons_chart bars.now) }
{
    format!(in alloc;
        "<h2>Moved frames, by reason</h2>\n<svg role=\"img\" viewBox=\"0 0 400 74\">\n<title>Moved frames, by reason</title>\n\
         <desc>Bars: how many frames went to another address than the sent frame of their flow before, for each reason.</desc>\n{bars}</svg>\n"
    )
}

/// Of how many frames a bar over the whole width is.
fn longest(moves: &[Move]) -> u128
    ensures longest { result ≡ longest (map moved_of moves.now) }
    ensures some { 1 ≤ result }
    ensures small { result ≤ 2 ^ 80 }
{
    moves.len().max(1) as u128
}

/// Moved frames by reason.
#[tactic(auto, unfolding(crate::specs::Reasons::reasons_text))]
pub(crate) fn reasons_text(alloc: Global, moves: &[Move]) -> Result<String, AllocError>
    ensures { IfOk result (λ text. string_bytes text ≡ reasons_text (map moved_of moves.now)) }
{
    let bars = reason_bars(alloc, moves, longest(moves), REASONS)?;
    reasons_chart(alloc, bars.as_str())
}
