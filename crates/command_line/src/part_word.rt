//! The words of a part of a capture, and of the loss of one.

ghost use Rattle.std.specs.Prelude.{◌≡◌, ◌<◌, ◌≤◌, ◌^◌, ◌⊎◌, ℕ, None, MatchOption};
ghost use Rattle.command_line.specs.Reading.{HasLoss, IsLossWord, IsNoLossWord, IsNoPartWord, IsPartWord, Writes};

use fleet::{Loss, Part};

/// The number below 2^32 that a text writes.
fn number_said(text: &str) -> Option<u32>
    ensures { MatchOption result ((number : ℕ) → number < 2 ^ 32 → ¬ Writes text.now number) (Writes text.now) }
{
    match text.parse::<u32>() {
        Ok(number) => Some(number),
        Err(_) => None,
    }
}

/// The part of this number of so many, if there is one.
fn part_within(number: u32, of: u32) -> Option<Part>
    ensures { MatchOption result (of ≤ number) (λ part. (part.number ≡ number) × (part.of ≡ of) × (number < of) × (of < 2 ^ 32)
        × (part.lost ≡ None)) }
{
    if number < of {
        Some(Part {
            number,
            of,
            lost: None,
        })
    } else {
        None
    }
}

/// The part whose number and whose count two texts write.
fn part_of_numbers(before: &str, after: &str) -> Option<Part>
    ensures { MatchOption result
        ((number of : ℕ) → number < of → of < 2 ^ 32 → Writes before.now number → ¬ Writes after.now of)
        (λ part. Writes before.now part.number × Writes after.now part.of × (part.number < part.of) × (part.of < 2 ^ 32)
        × (part.lost ≡ None)) }
{
    match number_said(before) {
        Some(number) => match number_said(after) {
            Some(of) => part_within(number, of),
            None => None,
        },
        None => None,
    }
}

/// The part that a word says: K/N, two numbers with a slash between them, where K counts from 0 and is below N.
pub(crate) fn part_said(word: &str) -> Option<Part>
    ensures { MatchOption result (IsNoPartWord word.now) (λ part. IsPartWord word.now part.number part.of × (part.lost ≡ None)) }
{
    match word.split_once('/') {
        Some((before, after)) => part_of_numbers(before, after),
        None => None,
    }
}

/// The loss of one of so many parts, of two numbers, if there is one.
fn loss_within(part: u32, from: u32, of: u32) -> Option<Loss>
    ensures { MatchOption result (of ≤ part ⊎ of ≤ 1) (λ loss. (loss.part ≡ part) × (loss.from ≡ from) × (part < of) × (1 < of)
        × (from < 2 ^ 32)) }
{
    if part < of && 1 < of {
        Some(Loss { part, from })
    } else {
        None
    }
}

/// The loss of one of so many parts whose part and whose number of records two texts write.
fn loss_of_numbers(before: &str, after: &str, of: u32) -> Option<Loss>
    ensures { MatchOption result
        ((part from : ℕ) → part < of → 1 < of → from < 2 ^ 32 → Writes before.now part → ¬ Writes after.now from)
        (λ loss. Writes before.now loss.part × Writes after.now loss.from × (loss.part < of) × (1 < of) × (loss.from < 2 ^ 32)) }
{
    match number_said(before) {
        Some(part) => match number_said(after) {
            Some(from) => loss_within(part, from, of),
            None => None,
        },
        None => None,
    }
}

/// The loss that a word says, of one of so many parts: J@RECORD, two numbers with an at sign between them, where J counts from 0 and is
/// below the number of parts, which is at least two.
fn loss_said(word: &str, of: u32) -> Option<Loss>
    ensures { MatchOption result (IsNoLossWord word.now of) (IsLossWord word.now of) }
{
    match word.split_once('@') {
        Some((before, after)) => loss_of_numbers(before, after, of),
        None => None,
    }
}

/// The same part, with the loss that a word says.
pub(crate) fn part_losing(part: Part, word: &str) -> Option<Part>
    ensures { MatchOption result (IsNoLossWord word.now part.of)
        (λ losing. (losing.number ≡ part.number) × (losing.of ≡ part.of) × HasLoss word.now losing) }
{
    match loss_said(word, part.of) {
        Some(loss) => Some(Part {
            number: part.number,
            of: part.of,
            lost: Some(loss),
        }),
        None => None,
    }
}
