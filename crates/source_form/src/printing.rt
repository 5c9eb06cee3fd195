//! A source of an image: labels before the instructions that jumps go to, and each slot's number in a comment.

ghost use Rattle.std.specs.Prelude.{IfOk, string_bytes};
ghost use Rattle.source_form.specs.SourceImage.{IsSource};

use crate::fault::SourceFault;
use crate::meaning::exact_text;
use disasm::{line, text};
use ebpf_decode::{Image, Insn};
use std::alloc::{AllocError, Global};

/// Where the comment of a line begins.
const COMMENT_COLUMN: usize = 32;

/// The slot in which each instruction begins.
fn first_slots(alloc: Global, code: &[Insn]) -> Result<Vec<i64>, AllocError> {
    let mut slots = Vec::new(alloc);
    let mut slot: u32 = 0;
    for insn in code {
        slots.push(i64::from(slot))?;
        slot = slot.saturating_add(insn.slot_count());
    }
    Ok(slots)
}

/// The slots of instructions that jumps go to.
fn labelled_slots(alloc: Global, code: &[Insn]) -> Result<Vec<i64>, AllocError> {
    let starts = first_slots(alloc, code)?;
    let mut slots = Vec::new(alloc);
    let mut slot: u32 = 0;
    for insn in code {
        if let Some(target) = insn.target(slot) {
            if starts.contains(&target) {
                slots.push(target)?;
            }
        }
        slot = slot.saturating_add(insn.slot_count());
    }
    Ok(slots)
}

/// Writes a line with a comment behind it.
fn put_line(
    alloc: Global,
    out: &mut String,
    line: &str,
    what: &str,
    number: u32,
) -> Result<(), AllocError> {
    out.push_str(line)?;
    for _ in line.len()..COMMENT_COLUMN {
        out.push_str(" ")?;
    }
    out.push_str(&format!(in alloc; " # {what} {number}\n")?)
}

/// The line of an instruction, with the label in place of the distance.
fn labelled_line(alloc: Global, insn: Insn, target: i64) -> Result<String, AllocError> {
    let exact = line(alloc, insn)?;
    match exact.rsplit_once(' ') {
        Some((front, _)) => format!(in alloc; "    {front} L{target}"),
        None => format!(in alloc; "    {exact}"),
    }
}

/// The line of an instruction in a slot.
fn instruction_line(
    alloc: Global,
    insn: Insn,
    slot: u32,
    labelled: &[i64],
) -> Result<String, AllocError> {
    if let Some(target) = insn.target(slot) {
        if labelled.contains(&target) {
            return labelled_line(alloc, insn, target);
        }
    }
    let exact = line(alloc, insn)?;
    format!(in alloc; "    {exact}")
}

/// Writes the instructions.
fn put_code(alloc: Global, out: &mut String, code: &[Insn]) -> Result<(), AllocError> {
    let labelled = labelled_slots(alloc, code)?;
    let mut slot: u32 = 0;
    for insn in code {
        if labelled.contains(&i64::from(slot)) {
            out.push_str(&format!(in alloc; "L{slot}:\n")?)?;
        }
        let line = instruction_line(alloc, *insn, slot, &labelled)?;
        put_line(alloc, out, &line, "slot", slot)?;
        slot = slot.saturating_add(insn.slot_count());
    }
    Ok(())
}

/// Writes the first line and those of the maps: this many lines of the exact text.
fn put_headings(
    alloc: Global,
    out: &mut String,
    exact: &str,
    maps: usize,
) -> Result<(), AllocError> {
    let mut number: u32 = 0;
    for line in exact.lines().take(maps.saturating_add(1)) {
        if number == 0 {
            out.push_str(line)?;
            out.push_str("\n")?;
        } else {
            put_line(alloc, out, line, "map", number - 1)?;
        }
        number = number.saturating_add(1);
    }
    Ok(())
}

/// The lines of an image's source.
fn printed(alloc: Global, image: &Image, exact: &str) -> Result<String, AllocError> {
    let mut out = String::new(alloc);
    put_headings(alloc, &mut out, exact, image.maps().len())?;
    put_code(alloc, &mut out, image.code())?;
    Ok(out)
}

/// A source of an image. It is read again before it is answered; if it did not mean the image's text, that text would be answered in its
/// place. It can fail only for lack of memory.
pub fn source(alloc: Global, image: &Image) -> Result<String, AllocError>
    ensures { IfOk result (λ source. IsSource (string_bytes source) image.now) }
{
    let exact = text(alloc, image)?;
    let printed = printed(alloc, image, &exact)?;
    match exact_text(alloc, &printed) {
        Ok(again) => {
            if again.as_str() == exact.as_str() {
                Ok(printed)
            } else {
                Ok(exact)
            }
        }
        Err(SourceFault::Memory) => Err(AllocError),
        Err(_) => Ok(exact),
    }
}
