//! The share of each backend in a lookup table at the end of a replay, for people.

ghost use Rattle.std.specs.Prelude.{◌≡◌, ◌++◌, IfOk, OnOk, length, string_bytes};
ghost use Rattle.maglev.specs.Population.{share_of};
ghost use Rattle.traffic.specs.LastShares.{last_shares, low_address, share_line, share_text, shares_below};
ghost use Rattle.traffic.specs.Shares.{share_at};

use crate::printing::dotted;
use crate::shares::{share_of, word_at};
use conntrack::BACKENDS;
use std::alloc::{AllocError, Global};

/// The address whose bytes a number has, the first one lowest.
fn low_address(alloc: Global, number: u32) -> Result<String, AllocError>
    ensures { IfOk result (λ text. string_bytes text ≡ low_address number) }
{
    dotted(
        alloc,
        number % 256,
        number / 256 % 256,
        number / 65536 % 256,
        number / 16777216 % 256,
    )
}

/// The line of a backend, from its words.
fn share_text(
    alloc: Global,
    share: usize,
    size: usize,
    number: u32,
    address: &str,
) -> Result<String, AllocError>
    ensures { IfOk result (λ line. string_bytes line ≡ share_text share size number address.now) }
{
    format!(in alloc;
        "{share} of {size} slots of the lookup table for backend {number}, {address}, at the end\n"
    )
}

/// Appends the line of a backend, if it owns a slot.
fn put_share(
    alloc: Global,
    lines: &mut String,
    share: usize,
    size: usize,
    number: u32,
    address: u32,
) -> Result<(), AllocError>
    ensures { OnOk result (string_bytes lines.new ≡ string_bytes lines.old ++ share_line share size number address) }
{
    if share == 0 {
        return Ok(());
    }
    let text = low_address(alloc, address)?;
    lines.push_str(&share_text(alloc, share, size, number, text.as_str())?)
}

/// Appends the lines of the backends below this number that own a slot, by rising number.
#[tactic(auto, unfolding(crate::specs::LastShares::shares_below))]
fn put_shares(
    alloc: Global,
    lines: &mut String,
    words: &[u32],
    records: &[u32],
    most: u32,
) -> Result<(), AllocError>
    ensures { OnOk result (string_bytes lines.new ≡ string_bytes lines.old ++ shares_below words.now records.now most) }
{
    'numbers: for number in 0..most {
        let share = share_of(number + 1, words);
        let address = word_at(records, number);
        put_share(alloc, lines, share, words.len(), number, address)?;
    }
    Ok(())
}

/// The line of each backend that owns slots of a lookup table, by rising number: these are the table's words, and the numbers with which
/// the backends' records begin. It fails only for lack of memory.
pub fn last_shares(alloc: Global, words: &[u32], records: &[u32]) -> Result<String, AllocError>
    ensures { IfOk result (λ lines. string_bytes lines ≡ last_shares words.now records.now) }
{
    let mut lines = String::new(alloc);
    put_shares(alloc, &mut lines, words, records, BACKENDS)?;
    Ok(lines)
}
