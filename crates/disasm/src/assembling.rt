//! The image of a text.

ghost use Rattle.std.specs.Prelude.{◌≡◌, ◌≢◌, ◌+◌, ◌++◌, ℕ, List, length, IfOk, IfErr, IfSome, IfNone, Err};
ghost use Rattle.ebpf_decode.specs.ImageContents.{Contents};
ghost use Rattle.ebpf_decode.specs.declared.version.Version.{Version as VersionName};
ghost use Rattle.disasm.specs.AssemblyText.{version_text, IsAssemblyText};
ghost use Rattle.disasm.specs.TextReading.{IsCodeRead, AreMapsRead, ExplainsText};
ghost use Rattle.disasm.specs.declared.fault.AsmFault.TheVariants.{BadLine, Memory};

use crate::fault::AsmFault;
use crate::instruction_reading::first_instruction;
use crate::map_line::first_map;
use ebpf_decode::{Image, Insn, MapDef, Version};
use std::alloc::{AllocError, Global};

/// The maps of as many first lines as are maps', and what comes after them.
fn maps_of(alloc: Global, text: &str) -> Result<(Vec<MapDef>, &str), AllocError>
    ensures { IfOk result (λ read. AreMapsRead text.now read.0.items read.1.now) }
{
    let mut maps = Vec::new(alloc);
    let mut rest = text;
    while let Some((map, after)) = first_map(alloc, rest)? {
        maps.push(map)?;
        rest = after;
    }
    Ok((maps, rest))
}

/// The instructions of as many first lines as are instructions', and what comes after them.
fn code_of(alloc: Global, text: &str) -> Result<(Vec<Insn>, &str), AllocError>
    ensures { IfOk result (λ read. IsCodeRead text.now read.0.items read.1.now) }
{
    let mut code = Vec::new(alloc);
    let mut rest = text;
    while let Some((insn, after)) = first_instruction(alloc, rest)? {
        code.push(insn)?;
        rest = after;
    }
    Ok((code, rest))
}

/// The line after the first, those of the maps and those of the instructions.
fn bad_line_after(maps: &[MapDef], code: &[Insn]) -> AsmFault
    ensures { result ≡ BadLine (2 + length maps.now + length code.now) }
{
    AsmFault::BadLine {
        line: 2 + maps.len() + code.len(),
    }
}

/// The image of a text that goes on so after the first line.
fn image_of(alloc: Global, version: Version, text: &str, body: &str) -> Result<Image, AsmFault>
    requires { text.now ≡ version_text version ++ body.now }
    ensures found { IfOk result (λ image. IsAssemblyText text.now image) }
    ensures refused { IfErr result (ExplainsText text.now) }
    ensures only { (image : Contents) → IsAssemblyText text.now image → IfOk result (λ made. made ≡ image) }
    ensures accepts { (image : Contents) → IsAssemblyText text.now image → IfErr result (λ fault. fault ≡ Memory) }
{
    let (maps, program) = maps_of(alloc, body)?;
    let (code, rest) = code_of(alloc, program)?;
    if !rest.is_empty() {
        return Err(bad_line_after(&maps, &code));
    }
    match Image::of(version, maps, code) {
        Ok(image) => Ok(image),
        Err(fault) => Err(AsmFault::Image(fault)),
    }
}

/// The version of the first line, and what comes after it.
fn first_line(text: &str) -> Option<(Version, &str)>
    ensures found { IfSome result (λ read. text.now ≡ version_text read.0 ++ read.1.now) }
    ensures none { IfNone result ((version : VersionName) (body : List ℕ) → text.now ≢ version_text version ++ body) }
{
    if let Some(body) = text.strip_prefix("version 1\n") {
        return Some((Version::V1, body));
    }
    match text.strip_prefix("version 2\n") {
        Some(body) => Some((Version::V2, body)),
        None => None,
    }
}

/// The image of a text: the one that `text` prints so. Else 21 with the first line, counted from 1, that is no right
/// spelling (an empty text has a bad line 1; what comes after the last line feed is a bad line), or 22 with the fault of the
/// image so spelled (10 for more than 16 maps, 11, 12, 14, or 16 for an instruction that the version doesn't have), or 23 where
/// memory is refused.
pub fn assemble(alloc: Global, text: &str) -> Result<Image, AsmFault>
    ensures found { IfOk result (λ image. IsAssemblyText text.now image) }
    ensures refused { IfErr result (ExplainsText text.now) }
    // Another first line is answered before any memory is asked for.
    ensures version { ((version : VersionName) (body : List ℕ) → text.now ≢ version_text version ++ body) → result ≡ Err (BadLine 1) }
    ensures only { (image : Contents) → IsAssemblyText text.now image → IfOk result (λ made. made ≡ image) }
    ensures accepts { (image : Contents) → IsAssemblyText text.now image → IfErr result (λ fault. fault ≡ Memory) }
{
    match first_line(text) {
        Some((version, body)) => image_of(alloc, version, text, body),
        None => Err(AsmFault::BadLine { line: 1 }),
    }
}

/// The law of the two: `assemble` returns what `text` printed, unless memory is refused.
pub fn round_trip(alloc: Global, image: &Image) -> Result<Image, AsmFault>
    ensures same { IfOk result (λ made. made ≡ image.now) }
    ensures accepts { IfErr result (λ fault. fault ≡ Memory) }
{
    let printed = crate::text(alloc, image)?;
    assemble(alloc, &printed)
}
