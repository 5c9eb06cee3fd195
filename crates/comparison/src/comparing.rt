//! Two reports compared.

ghost use Rattle.std.specs.Prelude.{◌≡◌, ◌<◌, ◌≤◌, ◌⊎◌, IfErr, IfOk, false, length, map, string_bytes, true};
ghost use Rattle.comparison.specs.Comparing.{AreAlike, AreCompared, AreOthers, AreRowsCompared, IsFileUnread, IsUnlike};
ghost use Rattle.comparison.specs.Rows.{IsReport};

use crate::changes::{changed_places, shared_count};
use crate::fault::{Unlike, Which};
use crate::kinds::kinds_of;
use crate::printing::comparison_text;
use crate::rows::rows_in;
use std::alloc::{AllocError, Global};

/// Two reports compared.
#[derive(Drop)]
pub struct Comparison {
    /// What is said of it, for people.
    pub text: String,
    /// Whether a record is treated differently.
    pub differs: bool,
}

/// Compares rows.
fn compared(alloc: Global, first: &[&str], second: &[&str]) -> Result<Comparison, AllocError>
    ensures { IfOk result (λ comparison. AreRowsCompared (map (λ row. row.now) first.now) (map (λ row. row.now) second.now)
        (string_bytes comparison.text) comparison.differs) }
{
    let changed = changed_places(alloc, first, second)?;
    let kinds = kinds_of(alloc, first, second, &changed)?;
    let text = comparison_text(alloc, first, second, &changed, &kinds)?;
    let differs = !changed.is_empty();
    Ok(Comparison { text, differs })
}

/// Whether so many shared records are all of both.
fn are_all(shared: usize, first: &[&str], second: &[&str]) -> bool
    requires first { shared ≤ length (map (λ row. row.now) first.now) }
    requires second { shared ≤ length (map (λ row. row.now) second.now) }
    ensures all { result ≡ true → (shared ≡ length (map (λ row. row.now) first.now))
        × (shared ≡ length (map (λ row. row.now) second.now)) }
    ensures some { result ≡ false → (shared < length (map (λ row. row.now) first.now))
        ⊎ (shared < length (map (λ row. row.now) second.now)) }
{
    shared == first.len() && shared == second.len()
}

/// Compares the rows of two reports, if they are of the same records.
fn alike(alloc: Global, first: &[&str], second: &[&str]) -> Result<Comparison, Unlike>
    ensures compared { IfOk result (λ comparison. AreAlike (map (λ row. row.now) first.now) (map (λ row. row.now) second.now)
        (string_bytes comparison.text) comparison.differs) }
    ensures refused { IfErr result
        (λ unlike. AreOthers (map (λ row. row.now) first.now) (map (λ row. row.now) second.now) unlike) }
{
    let shared = shared_count(first, second);
    if !are_all(shared, first, second) {
        return Err(Unlike::OtherRecords { number: shared + 1 });
    }
    let comparison = compared(alloc, first, second)?;
    Ok(comparison)
}

/// The rows of one of two files.
fn rows_of_file(alloc: Global, bytes: &[u8], which: Which) -> Result<Vec<&str>, Unlike>
    ensures rows { IfOk result (λ rows. IsReport bytes.now (map (λ row. row.now) rows.items)) }
    ensures refused { IfErr result (λ unlike. IsFileUnread which bytes.now unlike) }
{
    match rows_in(alloc, bytes) {
        Ok(rows) => Ok(rows),
        Err(none) => Err(none.of(which)),
    }
}

/// Compares two reports of CSV, record by record: their verdicts, cases, backends and addresses. The text says how many records both have
/// and how many are treated differently; from which treatment to which, the most frequent first, twenty at most; and the first ten records.
///
/// Refused where one of the files is no report, where the reports are not of the same records, by their numbers, moments and flows, and where
/// memory is refused.
pub fn compare(alloc: Global, first: &[u8], second: &[u8]) -> Result<Comparison, Unlike>
    ensures compared { IfOk result
        (λ comparison. AreCompared first.now second.now (string_bytes comparison.text) comparison.differs) }
    ensures refused { IfErr result (λ unlike. IsUnlike first.now second.now unlike) }
{
    let first_rows = rows_of_file(alloc, first, Which::First)?;
    let second_rows = rows_of_file(alloc, second, Which::Second)?;
    alike(alloc, &first_rows, &second_rows)
}
