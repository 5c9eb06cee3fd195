//! The share of each backend in the lookup table at the end of a replay, for people.

ghost use Rattle.std.specs.Prelude.{◌≡◌, ◌++◌, ◌<◌, ℕ, List, IfOk, OnOk, length, string_bytes};
ghost use Rattle.conntrack.specs.declared.steering_maps.SteeringMap.TheVariants as maps;
ghost use Rattle.semantics.specs.ShardPlan.{KeepsRows};
ghost use Rattle.journals.specs.LegalJournals.{AreLegal};
ghost use Rattle.steered_replays.specs.LastWords.{last_words};
ghost use Rattle.traffic.specs.LastShares.{last_shares};
ghost use Rattle.xlb_commands.specs.LastTable.{AreHeldShares, AreShareLines};

use conntrack::{BACKENDS, SteeringMap, table_size};
use journals::Journals;
use map_contents::front_numbers;
use std::alloc::{AllocError, Global};
use steered_replays::last_words;
use traffic::last_shares;

/// The lines of a lookup table of this size, by the updates in the journals.
fn lines_of_rows(alloc: Global, journals: &Journals, size: u32) -> Result<String, AllocError>
    requires { KeepsRows journals.now.options.journal }
    ensures { IfOk result (λ lines. string_bytes lines ≡
        last_shares (last_words journals.now maps.Ring size) (last_words journals.now maps.Backends 256)) }
{
    let words = last_words(alloc, journals, SteeringMap::Ring, size)?;
    let records = last_words(alloc, journals, SteeringMap::Backends, BACKENDS)?;
    last_shares(alloc, &words, &records)
}

/// The lines of a lookup table of this size, by what the maps hold.
fn lines_of_maps(alloc: Global, journals: &Journals, size: u32) -> Result<String, AllocError>
    requires legal { AreLegal journals.now }
    requires maps { 3 < length journals.now.maps }
    ensures { IfOk result (λ lines. AreHeldShares journals.now size (string_bytes lines)) }
{
    let mut words = front_numbers(alloc, journals, SteeringMap::Ring.place())?;
    words.truncate(size as usize);
    let records = front_numbers(alloc, journals, SteeringMap::Backends.place())?;
    let lines = last_shares(alloc, &words, &records)?;
    Ok(lines)
}

/// The line of each backend that has slots of the lookup table at the end, if the maps are those of steering.
fn lines_at_end(alloc: Global, journals: &Journals) -> Result<String, AllocError>
    requires { AreLegal journals.now }
    ensures { IfOk result (λ lines. AreShareLines journals.now (string_bytes lines)) }
{
    let Some(size) = table_size(journals.maps()) else {
        return Ok(String::new(alloc));
    };
    if !journals.keeps_rows() {
        let lines = lines_of_maps(alloc, journals, size)?;
        return Ok(lines);
    }
    let lines = lines_of_rows(alloc, journals, size)?;
    Ok(lines)
}

/// Appends these lines.
pub(crate) fn put_shares(
    alloc: Global,
    text: &mut String,
    journals: &Journals,
) -> Result<(), AllocError>
    requires { AreLegal journals.now }
    ensures { OnOk result ((lines : List ℕ) × AreShareLines journals.now lines
        × (string_bytes text.new ≡ string_bytes text.old ++ lines)) }
{
    let lines = lines_at_end(alloc, journals)?;
    text.push_str(lines.as_str())
}
