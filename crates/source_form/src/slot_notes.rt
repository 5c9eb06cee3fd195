//! The line of a source on which the instruction of a slot is, and the label above it.

ghost use Rattle.std.specs.Prelude.{◌≡◌, [], ℕ, List, IfOk, map, string_bytes};
ghost use Rattle.source_form.specs.SlotLines.{line_of_slot, label_or, label_above, label_text, slot_note};

use crate::labels::slots_of;
use crate::lines::statements_of;
use crate::words::label_of;
use std::alloc::{AllocError, Global};

/// The line, counted from 1, of the instruction that takes a slot; where none does, the last line.
pub(crate) fn line_of_slot(statements: &[&str], slot: u128) -> usize
    ensures { result ≡ line_of_slot 0 slot (map (λ line. line.now) statements.now) }
{
    let mut left = slot;
    let mut place = 0;
    'lines: while place < statements.len() {
        let slots = slots_of(statements[place]);
        if left < slots {
            return place + 1;
        }
        left -= slots;
        place += 1;
    }
    place
}

/// The label of the line, or the one above it.
fn label_or<'a>(last: &'a str, statement: &'a str) -> &'a str
    ensures { result.now ≡ label_or last.now statement.now }
{
    match label_of(statement) {
        Some(label) => label,
        None => last,
    }
}

/// The last label up to the line of the instruction that takes a slot; none where nothing is above.
fn label_above<'a>(statements: &[&'a str], slot: u128) -> &'a str
    ensures { result.now ≡ label_above [] slot (map (λ line. line.now) statements.now) }
{
    let mut left = slot;
    let mut last = "";
    let mut place = 0;
    'lines: while place < statements.len() {
        let slots = slots_of(statements[place]);
        last = label_or(last, statements[place]);
        if left < slots {
            return last;
        }
        left -= slots;
        place += 1;
    }
    last
}

fn label_text(alloc: Global, label: &str) -> Result<String, AllocError>
    ensures { IfOk result (λ text. string_bytes text ≡ label_text label.now) }
{
    if label.is_empty() {
        return Ok(String::new(alloc));
    }
    let mut out = String::from_str(alloc, ", after label \"")?;
    out.push_str(label)?;
    out.push_str("\"")?;
    Ok(out)
}

/// The line for people below the fault of a slot: two spaces, the line of the source on which the slot's instruction is, and the label
/// above it, with a line feed. It can fail only for lack of memory.
pub fn slot_note(alloc: Global, source: &str, slot: u32) -> Result<String, AllocError>
    ensures { IfOk result (λ text. string_bytes text ≡ slot_note source.now slot) }
{
    let statements = statements_of(alloc, source)?;
    let line = line_of_slot(&statements, u128::from(slot));
    let label = label_text(alloc, label_above(&statements, u128::from(slot)))?;
    let mut out = String::from_str(alloc, "  line ")?;
    out.push_str(&format!(in alloc; "{line}")?)?;
    out.push_str(&label)?;
    out.push_str("\n")?;
    Ok(out)
}
