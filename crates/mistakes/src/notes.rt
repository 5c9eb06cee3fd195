//! Lines for people, put together.

ghost use Rattle.std.specs.Prelude.{◌+◌, ℕ, string_bytes, IfOk, OnOk};
ghost use Rattle.mistakes.specs.Notes.{IsSaid, AreFewNotes};

use std::alloc::{AllocError, Global};
use text_lines::cut;

/// The most bytes of a line between its two spaces and its line feed. No line of this crate comes near it.
const MOST: usize = 400;

/// What comes before the first line feed; nothing, where that is too long for a line.
fn one_line(words: &str) -> &str
    ensures { IsSaid result.now }
{
    let (line, _) = cut(words, '\n');
    if line.len() <= MOST { line } else { "" }
}

/// One line more.
fn put(notes: &mut String, words: &str) -> Result<(), AllocError>
    ensures { (most : ℕ) → AreFewNotes most (string_bytes notes.old) → OnOk result (AreFewNotes (most + 1) (string_bytes notes.new)) }
{
    notes.push_str("  ")?;
    notes.push_str(one_line(words))?;
    notes.push_str("\n")?;
    Ok(())
}

/// One line more, if there is anything to say.
fn put_said(notes: &mut String, words: &str) -> Result<(), AllocError>
    ensures { (most : ℕ) → AreFewNotes most (string_bytes notes.old) → OnOk result (AreFewNotes (most + 1) (string_bytes notes.new)) }
{
    if words.is_empty() {
        return Ok(());
    }
    put(notes, words)
}

/// A line of each of these texts that says anything. It can fail only for lack of memory.
pub(crate) fn notes_of(
    alloc: Global,
    first: &str,
    second: &str,
    third: &str,
) -> Result<String, AllocError>
    ensures { IfOk result (λ text. AreFewNotes 3 (string_bytes text)) }
{
    let mut notes = String::new(alloc);
    put_said(&mut notes, first)?;
    put_said(&mut notes, second)?;
    put_said(&mut notes, third)?;
    Ok(notes)
}
