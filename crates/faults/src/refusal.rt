//! The text of a refusal: the fault's line, and lines below it for people.

ghost use Rattle.std.specs.Prelude.{◌≡◌, ◌==◌, ◌++◌, ◌∷◌, [], true, IfOk, OnOk};
ghost use Rattle.faults.specs.Refusals.{IsRefusalText, last_line_end, front_of, indented, is_line_start, next_place, note_lines, one_line};
ghost use Rattle.faults.specs.Refusals.{place_after};
ghost use Rattle.faults.specs.declared.refusal.Place.TheVariants.{LineStart, Within};

use std::alloc::{AllocError, Global};

/// Where the next byte of lines is that each begin with two blanks.
#[derive(Clone, Copy, Debug, PartialEq, Eq)]
enum Place {
    /// At the front of a line.
    LineStart,
    /// Behind one blank there.
    Blank,
    /// Behind two.
    Within,
    /// In a line that does not begin with two blanks, or below one.
    Wrong,
}

impl Place {
    /// Where the byte after this one is.
    fn next(self, byte: u8) -> Place
        ensures { result ≡ next_place self byte }
    {
        match self {
            Place::LineStart => {
                if byte == b' ' {
                    Place::Blank
                } else {
                    Place::Wrong
                }
            }
            Place::Blank => {
                if byte == b' ' {
                    Place::Within
                } else {
                    Place::Wrong
                }
            }
            Place::Within => {
                if byte == b'\n' {
                    Place::LineStart
                } else {
                    Place::Within
                }
            }
            Place::Wrong => Place::Wrong,
        }
    }
}

/// Whether each line begins with two blanks, and the last one ends.
fn are_indented(notes: &[u8]) -> bool
    ensures { result ≡ is_line_start (place_after LineStart notes.now) }
{
    let mut place = Place::LineStart;
    'notes: for byte in notes {
        place = place.next(*byte);
    }
    place == Place::LineStart
}

/// A text without its line feeds, and then one.
fn line_of(alloc: Global, text: &[u8]) -> Result<Vec<u8>, AllocError>
    ensures { IfOk result (λ line. line.items ≡ one_line text.now ++ 10 ∷ []) }
{
    let mut line = Vec::new(alloc);
    'text: for byte in text {
        if *byte != b'\n' {
            line.push(*byte)?;
        }
    }
    line.push(b'\n')?;
    Ok(line)
}

/// Puts two blanks at the front of a line.
fn begin(lines: &mut Vec<u8>, is_start: bool) -> Result<(), AllocError>
    ensures { OnOk result (lines.new.items ≡ lines.old.items ++ front_of is_start) }
{
    if is_start {
        lines.extend_from_slice(b"  ")
    } else {
        Ok(())
    }
}

/// Ends the last line.
fn end(lines: &mut Vec<u8>, is_start: bool) -> Result<(), AllocError>
    ensures { OnOk result (lines.new.items ≡ lines.old.items ++ last_line_end is_start) }
{
    if is_start {
        Ok(())
    } else {
        lines.extend_from_slice(b"\n")
    }
}

/// The notes with two blanks before each line, and the last one ended.
fn indented(alloc: Global, notes: &[u8]) -> Result<Vec<u8>, AllocError>
    ensures { IfOk result (λ lines. lines.items ≡ indented true notes.now) }
{
    let mut lines = Vec::new(alloc);
    let mut is_start = true;
    'notes: for byte in notes {
        begin(&mut lines, is_start)?;
        lines.push(*byte)?;
        is_start = *byte == b'\n';
    }
    end(&mut lines, is_start)?;
    Ok(lines)
}

/// Puts the lines that notes become behind a text.
fn put_notes(alloc: Global, text: &mut Vec<u8>, notes: &[u8]) -> Result<(), AllocError>
    ensures { OnOk result (text.new.items ≡ text.old.items ++ note_lines notes.now) }
{
    if are_indented(notes) {
        text.extend_from_slice(notes)
    } else {
        text.extend_from_slice(&indented(alloc, notes)?)
    }
}

/// The text that is printed of a refusal: the fault's line, and below it the notes in their order, with two blanks at the beginning of each of their
/// lines. Notes that have them already stay as they are.
pub fn refusal_text(alloc: Global, fault: &str, notes: &str) -> Result<Vec<u8>, AllocError>
    ensures form { IfOk result (λ text. IsRefusalText fault.now notes.now text.items) }
    ensures alone { notes.now ≡ [] → IfOk result (λ text. text.items ≡ one_line fault.now ++ 10 ∷ []) }
{
    let mut text = line_of(alloc, fault.as_bytes())?;
    put_notes(alloc, &mut text, notes.as_bytes())?;
    Ok(text)
}
