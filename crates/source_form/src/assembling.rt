//! The image of a source.

ghost use Rattle.std.specs.Prelude.{◌≡◌, IfOk, IfErr, map};
ghost use Rattle.ebpf_decode.specs.ImageContents.{Contents};
ghost use Rattle.disasm.specs.AssemblyText.{IsAssemblyText};
ghost use Rattle.source_form.specs.declared.fault.SourceFault.TheVariants.{Memory};
ghost use Rattle.source_form.specs.SourceText.{line_of_text};
ghost use Rattle.source_form.specs.SourceImage.{IsSource, IsTextFault, ExplainsSource};

use crate::fault::{Problem, SourceFault};
use crate::lines::statements_of;
use crate::meaning::text_of_lines;
use crate::words::has_text;
use disasm::{AsmFault, assemble};
use ebpf_decode::Image;
use std::alloc::Global;

/// The line of the source, counted from 1, that means the line of the exact text of this number, which counts from 1 too.
fn line_of_text(statements: &[&str], number: usize) -> usize
    ensures { result ≡ line_of_text 0 number (map (λ line. line.now) statements.now) }
{
    let mut left = number;
    let mut place = 0;
    'lines: while place < statements.len() {
        if !has_text(statements[place]) {
            place += 1;
            continue 'lines;
        }
        if left <= 1 {
            return place + 1;
        }
        left -= 1;
        place += 1;
    }
    1
}

/// The image of the exact text that the lines of a source mean.
fn image_of(alloc: Global, statements: &[&str], text: &str) -> Result<Image, SourceFault>
    ensures found { IfOk result (λ image. IsAssemblyText text.now image) }
    ensures refused { IfErr result (λ fault. IsTextFault (map (λ line. line.now) statements.now) text.now fault) }
    ensures only { (image : Contents) → IsAssemblyText text.now image → IfOk result (λ made. made ≡ image) }
    ensures accepts { (image : Contents) → IsAssemblyText text.now image → IfErr result (λ fault. fault ≡ Memory) }
{
    match assemble(alloc, text) {
        Ok(image) => Ok(image),
        Err(AsmFault::BadLine { line }) => Err(SourceFault::BadLine {
            line: line_of_text(statements, line),
            problem: Problem::NoSpelling,
        }),
        Err(AsmFault::Image(fault)) => Err(SourceFault::Image(fault)),
        Err(AsmFault::Memory) => Err(SourceFault::Memory),
    }
}

/// The image of a source: that of the exact text that it means. Else 21 with a line of the source, counted from 1, and what is wrong
/// with it: the first without a meaning, or where all have one, the first whose meaning is misspelled; 22 with the fault of the image
/// so spelled; or 23 where memory is refused.
pub fn assemble_source(alloc: Global, source: &str) -> Result<Image, SourceFault>
    ensures found { IfOk result (λ image. IsSource source.now image) }
    ensures refused { IfErr result (λ fault. ExplainsSource source.now fault) }
    ensures only { (image : Contents) → IsSource source.now image → IfOk result (λ made. made ≡ image) }
    ensures accepts { (image : Contents) → IsSource source.now image → IfErr result (λ fault. fault ≡ Memory) }
{
    let statements = statements_of(alloc, source)?;
    match text_of_lines(alloc, &statements) {
        Ok(text) => image_of(alloc, &statements, &text),
        Err(fault) => Err(fault),
    }
}
