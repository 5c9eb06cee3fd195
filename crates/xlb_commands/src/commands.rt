//! What each command does with its files.

ghost use Rattle.std.specs.Prelude.{◌≡◌, ◌+◌, ◌-◌, ◌%◌, ◌<◌, ◌≤◌, ◌^◌, ◌==◌};
ghost use Rattle.std.specs.Prelude.{ℕ, [], List, false, length, string_bytes};
ghost use Rattle.std.specs.Prelude.{IfErr, IfOk, IsUtf8, OnOk};
ghost use Rattle.semantics.specs.Safety.{IsSafeImage};
ghost use Rattle.semantics.specs.System.{IsInputFrame};
ghost use Rattle.disasm.specs.AssemblyText.{IsAssemblyText};
ghost use Rattle.ebpf_decode.specs.ImageFormat.{IsImageEncoding};
ghost use Rattle.source_form.specs.SourceImage.{IsSource};
ghost use Rattle.text_lines.specs.NoText.{IsNoText};
ghost use Rattle.folders.specs.Fronts.{HasFront, IsFrontOf};
ghost use Rattle.xlb_commands.specs.Files.{AreKept, AreOthersKept, IsImageFile, IsJudged};
ghost use Rattle.xlb_commands.specs.Results.{IsChecked, IsExplained, IsDisassembled, IsSourceShown, IsAudited, IsAssembled};
ghost use Rattle.xlb_commands.specs.Results.{SpellsImage};
ghost use Rattle.xlb_commands.specs.Refused.{HasFailed, IsUnserved, IsUnwritten, IsDecodeRefusal, IsImageRefusal, IsProgramRefusal};
ghost use Rattle.xlb_commands.specs.Refused.{IsFrameRefusal};
ghost use Rattle.xlb_commands.specs.Refused.{IsNoImage, IsNoSource, IsNotJudged, IsCheckRefusal, IsExplainRefusal, IsTextRefusal};
ghost use Rattle.xlb_commands.specs.Refused.{IsAuditRefusal};
ghost use Rattle.xlb_commands.specs.Refused.{IsSpellingRefusal, IsAsmRefusal, SpellsNone, kept_of_image, beyond_images};
ghost use Rattle.disasm.specs.declared.fault.AsmFault.TheVariants.{BadLine};

use crate::fault::{Fault, Refusal};
use crate::files::{bytes_of, front_of, unserved};
use crate::hints;
use crate::report::accepted;
use audit::{AuditFault, audit};
use disasm::{AsmFault, assemble, text};
use ebpf_decode::image::{MAX_LEN, SLOT_LEN};
use ebpf_decode::{DecodeFault, Image, decode, encode};
use folders::{Folder, Front};
use journals::{FileFault, Journals, journals_of};
use reasons::explain;
use semantics::facts::frame_may_come_in;
use source_form::{SourceFault, assemble_source, begins_as_source, source};
use std::alloc::{AllocError, Global};
use text_lines::text_or_line;
use verifier::{Reject, Verified, survey_of, verify};
use wire::{Frame, FrameFault, MAX_FRAME};

/// What is printed of legal journals.
const LEGAL: &str = "legal\n";

/// The most bytes that are kept of an image's file: two slots more than the longest image has.
const MOST_OF_IMAGE: usize = MAX_LEN + 2 * SLOT_LEN;

/// The most bytes that are kept of a frame's file: one more than the longest frame has.
const MOST_OF_FRAME: usize = MAX_FRAME + 1;

/// How many of the first bytes of a file that is longer than any image have as many beyond whole slots as all have.
fn shown_of_long(length: u64) -> usize
    ensures least { beyond_images ≤ result }
    ensures most { result ≤ kept_of_image }
    ensures whole { length % 8 ≡ result % 8 }
{
    let odd = (length % 8) as usize;
    if odd == 0 {
        MOST_OF_IMAGE
    } else {
        MOST_OF_IMAGE - SLOT_LEN + odd
    }
}

/// The first fault of a file that is longer than any image: what counts of it besides its front is whether its slots are whole.
fn fault_of_long(alloc: Global, front: &Front) -> DecodeFault
    requires { kept_of_image ≤ length front.now.bytes.items }
    ensures { (bytes : List ℕ) → IsFrontOf bytes kept_of_image front.now → IsDecodeRefusal bytes result }
{
    let shown = &front.bytes[..shown_of_long(front.length)];
    let Err(fault) = decode(alloc, shown) else {
        return DecodeFault::TooLong;
    };
    fault
}

/// The image of a file that has this front.
fn image_of_front(alloc: Global, front: &Front) -> Result<Image, Refusal>
    requires { (length front.now.bytes.items == front.now.length) ≡ false → kept_of_image ≤ length front.now.bytes.items }
    ensures found { IfOk result (λ image. (bytes : List ℕ) → IsFrontOf bytes kept_of_image front.now → IsImageEncoding bytes image) }
    ensures refused { IfErr result (λ refusal. (bytes : List ℕ) → IsFrontOf bytes kept_of_image front.now → IsNoImage bytes refusal.fault) }
{
    if !front.is_whole() {
        let fault = fault_of_long(alloc, front);
        return Err(refused_image(alloc, &front.bytes, fault));
    }
    match decode(alloc, &front.bytes) {
        Ok(image) => Ok(image),
        Err(fault) => Err(refused_image(alloc, &front.bytes, fault)),
    }
}

/// The image of a file.
pub(crate) fn image_of<D: Folder>(
    alloc: Global,
    folder: &mut D,
    name: &str,
) -> Result<Image, Refusal>
    requires { D.failure_count folder.old < 2 ^ 64 - 1 }
    ensures file { IfOk result (λ image. IsImageFile (D.holds folder.old) name.now image) }
    ensures kept { AreKept (D.holds folder.old) (D.holds folder.new) }
    ensures steady { OnOk result (D.failure_count folder.new ≡ D.failure_count folder.old) }
    ensures refused { IfErr result (λ refusal. IsImageRefusal (D.holds folder.old)
        (HasFailed (D.failure_count folder.old) (D.failure_count folder.new)) name.now refusal.fault) }
{
    let front = front_of(alloc, folder, name, MOST_OF_IMAGE)?;
    match image_of_front(alloc, &front) {
        Ok(image) => Ok(image),
        Err(refusal) => Err(refusal),
    }
}

/// Bytes that are no image.
fn refused_image(alloc: Global, bytes: &[u8], fault: DecodeFault) -> Refusal
    ensures { result.fault ≡ Fault.Decode fault }
{
    Refusal::hinted(Fault::Decode(fault), hints::of_image(alloc, bytes, fault))
}

/// The image of a file, if the verifier accepts it.
pub(crate) fn judged_of<D: Folder>(
    alloc: Global,
    folder: &mut D,
    name: &str,
) -> Result<Verified, Refusal>
    requires { D.failure_count folder.old < 2 ^ 64 - 1 }
    ensures file { IfOk result (λ verified. IsImageFile (D.holds folder.old) name.now
        (record { version = verified.version; maps = verified.maps; code = verified.code })) }
    ensures safe { IfOk result (λ verified. IsSafeImage verified.maps verified.code) }
    ensures kept { AreKept (D.holds folder.old) (D.holds folder.new) }
    ensures steady { OnOk result (D.failure_count folder.new ≡ D.failure_count folder.old) }
    ensures refused { IfErr result (λ refusal. IsProgramRefusal (D.holds folder.old)
        (HasFailed (D.failure_count folder.old) (D.failure_count folder.new)) name.now refusal.fault) }
{
    let image = image_of(alloc, folder, name)?;
    match verify(alloc, image) {
        Ok(verified) => Ok(verified),
        Err(reject) => Err(refused_program(alloc, reject)),
    }
}

/// A program that the verifier refuses, in a command that doesn't explain it.
fn refused_program(alloc: Global, reject: Reject) -> Refusal
    ensures { result.fault ≡ Fault.Program reject }
{
    Refusal::hinted(Fault::Program(reject), hints::of_refused(alloc, reject))
}

/// The frame of a file.
pub(crate) fn frame_of<D: Folder>(
    alloc: Global,
    folder: &mut D,
    name: &str,
) -> Result<Frame, Refusal>
    requires { D.failure_count folder.old < 2 ^ 64 - 1 }
    ensures read { IfOk result (λ frame. D.holds folder.old name.now frame.bytes) }
    ensures size { IfOk result (λ frame. IsInputFrame frame.bytes) }
    ensures headroom { IfOk result (λ frame. frame.headroom ≡ 256) }
    ensures kept { AreKept (D.holds folder.old) (D.holds folder.new) }
    ensures steady { OnOk result (D.failure_count folder.new ≡ D.failure_count folder.old) }
    ensures refused { IfErr result (λ refusal. IsFrameRefusal (D.holds folder.old)
        (HasFailed (D.failure_count folder.old) (D.failure_count folder.new)) name.now refusal.fault) }
{
    let front = front_of(alloc, folder, name, MOST_OF_FRAME)?;
    if !front.is_whole() {
        return Err(refused_frame(alloc, &front.bytes, FrameFault::FrameTooLong));
    }
    match Frame::of(alloc, &front.bytes) {
        Ok(frame) => {
            frame_may_come_in(&frame);
            Ok(frame)
        }
        Err(fault) => Err(refused_frame(alloc, &front.bytes, fault)),
    }
}

/// Bytes that are no frame.
fn refused_frame(alloc: Global, bytes: &[u8], fault: FrameFault) -> Refusal
    ensures { result.fault ≡ Fault.Frame fault }
{
    Refusal::hinted(Fault::Frame(fault), hints::of_frame(alloc, bytes, fault))
}

/// The text of a source whose file has this front.
fn source_bytes<D: Folder>(
    alloc: Global,
    folder: &mut D,
    name: &str,
    front: Front,
) -> Result<Vec<u8>, Refusal>
    requires count { D.failure_count folder.old < 2 ^ 64 - 1 }
    requires front { HasFront (D.holds folder.old name.now) kept_of_image front }
    ensures bytes { IfOk result (λ bytes. D.holds folder.old name.now bytes.items) }
    ensures kept { AreKept (D.holds folder.old) (D.holds folder.new) }
    ensures refused { IfErr result
        (λ refusal. IsUnserved (HasFailed (D.failure_count folder.old) (D.failure_count folder.new)) refusal.fault) }
{
    if front.is_whole() {
        return Ok(front.bytes);
    }
    bytes_of(alloc, folder, name)
}

/// The image of a file that has this front, and no text, since it is no source.
fn image_without_source(alloc: Global, front: &Front) -> Result<(Image, Vec<u8>), Refusal>
    requires { (length front.now.bytes.items == front.now.length) ≡ false → kept_of_image ≤ length front.now.bytes.items }
    ensures found { IfOk result (λ program. (bytes : List ℕ) → IsFrontOf bytes kept_of_image front.now → IsImageEncoding bytes program.0) }
    ensures refused { IfErr result (λ refusal. (bytes : List ℕ) → IsFrontOf bytes kept_of_image front.now → IsNoImage bytes refusal.fault) }
{
    match image_of_front(alloc, front) {
        Ok(image) => Ok((image, Vec::new(alloc))),
        Err(refusal) => Err(refusal),
    }
}

/// The image that is to be judged, and where the file is a source, its text.
fn program_of_file<D: Folder>(
    alloc: Global,
    folder: &mut D,
    name: &str,
) -> Result<(Image, Vec<u8>), Refusal>
    requires { D.failure_count folder.old < 2 ^ 64 - 1 }
    ensures file { IfOk result (λ program. IsJudged (D.holds folder.old) name.now program.0) }
    ensures kept { AreKept (D.holds folder.old) (D.holds folder.new) }
    ensures refused { IfErr result (λ refusal. IsNotJudged (D.holds folder.old)
        (HasFailed (D.failure_count folder.old) (D.failure_count folder.new)) name.now refusal.fault) }
{
    let front = front_of(alloc, folder, name, MOST_OF_IMAGE)?;
    if !begins_as_source(&front.bytes) {
        return image_without_source(alloc, &front);
    }
    let bytes = source_bytes(alloc, folder, name, front)?;
    match image_of_source(alloc, &bytes) {
        Ok(image) => Ok((image, bytes)),
        Err(refusal) => Err(refusal),
    }
}

/// A program that the verifier refuses, and where its file is a source, on which line.
fn rejected(alloc: Global, source: &[u8], reject: Reject) -> Refusal
    ensures { result.fault ≡ Fault.Program reject }
{
    Refusal::hinted(
        Fault::Program(reject),
        hints::of_reject(alloc, source, reject),
    )
}

/// The same with the explanation below.
fn rejected_for(alloc: Global, source: &[u8], reject: Reject, reasons: String) -> Refusal
    ensures { result.fault ≡ Fault.Program reject }
{
    Refusal::hinted(
        Fault::Program(reject),
        hints::of_explained(alloc, source, reject, reasons),
    )
}

/// Judges an image, or the image that a source means. Refused with 7 or 8 where the file is not read, with 10 to 20 where it is no
/// image, or with 21 to 23 where it is a source that means none, with 30 to 49 where the image may not run, and with 8 where memory is
/// refused for the line. No file changes.
pub fn check<D: Folder>(alloc: Global, folder: &mut D, image: &str) -> Result<String, Refusal>
    requires { D.failure_count folder.old < 2 ^ 64 - 1 }
    ensures done { IfOk result (λ text. IsChecked (D.holds folder.old) image.now (string_bytes text)) }
    ensures kept { AreKept (D.holds folder.old) (D.holds folder.new) }
    ensures refused { IfErr result (λ refusal. IsCheckRefusal (D.holds folder.old)
        (HasFailed (D.failure_count folder.old) (D.failure_count folder.new)) image.now refusal.fault) }
{
    let (image, source) = program_of_file(alloc, folder, image)?;
    match verify(alloc, image) {
        Ok(verified) => Ok(accepted(alloc, verified.image(), verified.is_reader())?),
        Err(reject) => Err(rejected(alloc, &source, reject)),
    }
}

/// Judges an image, or the image that a source means, and says why: of one that may not run in the notes of the refusal. Refused as by
/// `check`, but with 8 and not with 48 where memory is refused, also for what is said. No file changes.
pub fn check_explained<D: Folder>(
    alloc: Global,
    folder: &mut D,
    image: &str,
) -> Result<String, Refusal>
    requires { D.failure_count folder.old < 2 ^ 64 - 1 }
    ensures done { IfOk result (λ text. IsExplained (D.holds folder.old) image.now (string_bytes text)) }
    ensures kept { AreKept (D.holds folder.old) (D.holds folder.new) }
    ensures refused { IfErr result (λ refusal. IsExplainRefusal (D.holds folder.old)
        (HasFailed (D.failure_count folder.old) (D.failure_count folder.new)) image.now refusal.fault) }
{
    let (image, source) = program_of_file(alloc, folder, image)?;
    let survey = survey_of(alloc, &image)?;
    let reasons = explain(alloc, &image, &survey)?;
    match survey.verdict {
        Ok(is_reader) => {
            let mut text = accepted(alloc, &image, is_reader)?;
            text.push_str(reasons.as_str())?;
            Ok(text)
        }
        Err(reject) => Err(rejected_for(alloc, &source, reject, reasons)),
    }
}

/// The source form of an image. Refused with 7 or 8 where the file is not read, with 10 to 20 where it is no image, and with 8 where
/// memory is refused for the text. No file changes.
pub fn disassemble_source<D: Folder>(
    alloc: Global,
    folder: &mut D,
    image: &str,
) -> Result<String, Refusal>
    requires { D.failure_count folder.old < 2 ^ 64 - 1 }
    ensures done { IfOk result (λ text. IsSourceShown (D.holds folder.old) image.now (string_bytes text)) }
    ensures kept { AreKept (D.holds folder.old) (D.holds folder.new) }
    ensures refused { IfErr result (λ refusal. IsTextRefusal (D.holds folder.old)
        (HasFailed (D.failure_count folder.old) (D.failure_count folder.new)) image.now refusal.fault) }
{
    let image = image_of(alloc, folder, image)?;
    Ok(source(alloc, &image)?)
}

/// The text of an image. Refused as by `disassemble_source`.
pub fn disassemble<D: Folder>(alloc: Global, folder: &mut D, image: &str) -> Result<String, Refusal>
    requires { D.failure_count folder.old < 2 ^ 64 - 1 }
    ensures done { IfOk result (λ text. IsDisassembled (D.holds folder.old) image.now (string_bytes text)) }
    ensures kept { AreKept (D.holds folder.old) (D.holds folder.new) }
    ensures refused { IfErr result (λ refusal. IsTextRefusal (D.holds folder.old)
        (HasFailed (D.failure_count folder.old) (D.failure_count folder.new)) image.now refusal.fault) }
{
    let image = image_of(alloc, folder, image)?;
    Ok(text(alloc, &image)?)
}

/// Whether the journals of a file are legal for the maps of an image. Refused with 7 or 8 where a file is not read, with 10 to 20 where
/// the first is no image, with 52 or 55 where the second has no journals of its maps, with 52 or 53 where they are not legal, and with
/// 8 where memory is refused for the line. No file changes.
pub fn audit_file<D: Folder>(
    alloc: Global,
    folder: &mut D,
    image: &str,
    journals: &str,
) -> Result<String, Refusal>
    requires { D.failure_count folder.old < 2 ^ 64 - 1 }
    ensures done { IfOk result (λ text. IsAudited (D.holds folder.old) image.now journals.now (string_bytes text)) }
    ensures kept { AreKept (D.holds folder.old) (D.holds folder.new) }
    ensures refused { IfErr result (λ refusal. IsAuditRefusal (D.holds folder.old)
        (HasFailed (D.failure_count folder.old) (D.failure_count folder.new)) image.now journals.now refusal.fault) }
{
    let image = image_of(alloc, folder, image)?;
    let bytes = bytes_of(alloc, folder, journals)?;
    let journals = match journals_of(alloc, &image, &bytes) {
        Ok(journals) => journals,
        Err(fault) => return Err(refused_journals(alloc, &bytes, fault)),
    };
    match audit(alloc, &journals) {
        Ok(()) => Ok(String::from_str(alloc, LEGAL)?),
        Err(fault) => Err(illegal(alloc, &bytes, &journals, fault)),
    }
}

/// Bytes that are no journals of the image's maps.
fn refused_journals(alloc: Global, bytes: &[u8], fault: FileFault) -> Refusal
    ensures { result.fault ≡ Fault.Journals fault }
{
    Refusal::hinted(
        Fault::Journals(fault),
        hints::of_journals(alloc, bytes, fault),
    )
}

/// Journals that are not legal.
fn illegal(alloc: Global, bytes: &[u8], journals: &Journals, fault: AuditFault) -> Refusal
    ensures { result.fault ≡ Fault.Audit fault }
{
    Refusal::hinted(
        Fault::Audit(fault),
        hints::of_audit(alloc, bytes, journals, fault),
    )
}

/// The text of a file, if all of it is UTF-8; else 21 with the line of the first byte that is not.
fn utf8(bytes: &[u8]) -> Result<&str, AsmFault>
    ensures text { IfOk result (λ text. (text.now ≡ bytes.now) × IsUtf8 bytes.now) }
    ensures no_text { IfErr result (λ fault. (line : ℕ) × IsNoText bytes.now line × (fault ≡ BadLine line)) }
{
    match text_or_line(bytes) {
        Ok(text) => Ok(text),
        Err(line) => Err(AsmFault::BadLine { line }),
    }
}

/// The image of a text.
fn assembled(alloc: Global, bytes: &[u8]) -> Result<Image, AsmFault>
    ensures found { IfOk result (λ image. IsAssemblyText bytes.now image) }
    ensures refused { IfErr result (IsSpellingRefusal bytes.now) }
{
    let text = utf8(bytes)?;
    assemble(alloc, text)
}

/// Why a text was refused, and where to look.
fn refused_text(alloc: Global, bytes: &[u8], fault: AsmFault) -> Refusal
    ensures { result.fault ≡ Fault.Text fault }
{
    Refusal::hinted(Fault::Text(fault), noted_text(alloc, bytes, fault))
}

/// The note on a text that was refused.
fn noted_text(alloc: Global, bytes: &[u8], fault: AsmFault) -> Result<Option<String>, AllocError> {
    match (fault, str::from_utf8(bytes)) {
        (AsmFault::Image(why), Ok(text)) => {
            hints::of_source_fault(alloc, text, SourceFault::Image(why))
        }
        (AsmFault::BadLine { line }, _) => hints::of_text(alloc, bytes, line),
        _ => Ok(None),
    }
}

/// The image that the bytes of a source mean.
fn image_of_source(alloc: Global, bytes: &[u8]) -> Result<Image, Refusal>
    ensures found { IfOk result (λ image. IsSource bytes.now image) }
    ensures refused { IfErr result (λ refusal. IsNoSource bytes.now refusal.fault) }
{
    let source = match utf8(bytes) {
        Ok(source) => source,
        Err(fault) => return Err(refused_text(alloc, bytes, fault)),
    };
    match assemble_source(alloc, source) {
        Ok(image) => Ok(image),
        Err(fault) => Err(refused_source(alloc, source, fault)),
    }
}

/// Why a source was refused, and where to look.
fn refused_source(alloc: Global, source: &str, fault: SourceFault) -> Refusal
    ensures { result.fault ≡ Fault.Source fault }
{
    Refusal::hinted(
        Fault::Source(fault),
        hints::of_source_fault(alloc, source, fault),
    )
}

/// Writes an image to a file.
pub(crate) fn write_image<D: Folder>(
    alloc: Global,
    folder: &mut D,
    image: &Image,
    out: &str,
) -> Result<String, Refusal>
    requires { D.failure_count folder.old < 2 ^ 64 - 1 }
    ensures written { OnOk result (IsImageFile (D.holds folder.new) out.now image.now) }
    ensures silent { IfOk result (λ printed. string_bytes printed ≡ []) }
    ensures others { AreOthersKept (D.holds folder.old) (D.holds folder.new) out.now }
    ensures refused { IfErr result
        (λ refusal. IsUnwritten (HasFailed (D.failure_count folder.old) (D.failure_count folder.new)) refusal.fault) }
{
    let bytes = encode(alloc, image)?;
    match folder.write(alloc, out, &bytes) {
        Ok(()) => Ok(String::new(alloc)),
        Err(fault) => Err(unserved(alloc, folder, out, fault)),
    }
}

/// The image that the bytes of a text spell: exactly, or in the source form.
fn image_of_text(alloc: Global, bytes: &[u8], in_source_form: bool) -> Result<Image, Refusal>
    ensures found { IfOk result (λ image. SpellsImage in_source_form bytes.now image) }
    ensures refused { IfErr result (λ refusal. SpellsNone in_source_form bytes.now refusal.fault) }
{
    if in_source_form {
        return image_of_source(alloc, bytes);
    }
    match assembled(alloc, bytes) {
        Ok(image) => Ok(image),
        Err(fault) => Err(refused_text(alloc, bytes, fault)),
    }
}

/// Writes the image of a text, which is exact or in the source form. Refused with 7 or 8 where the text is not read, and with 21 to 23 where it
/// spells no image: then no file changes. Refused with 7 or 8 where the image is not written; then no other file changes.
pub fn assemble_file<D: Folder>(
    alloc: Global,
    folder: &mut D,
    text: &str,
    out: &str,
    in_source_form: bool,
) -> Result<String, Refusal>
    requires { D.failure_count folder.old < 2 ^ 64 - 1 }
    ensures done { OnOk result (IsAssembled (D.holds folder.old) (D.holds folder.new) in_source_form text.now out.now) }
    ensures silent { IfOk result (λ printed. string_bytes printed ≡ []) }
    ensures others { AreOthersKept (D.holds folder.old) (D.holds folder.new) out.now }
    ensures refused { IfErr result (λ refusal. IsAsmRefusal (D.holds folder.old) (D.holds folder.new)
        (HasFailed (D.failure_count folder.old) (D.failure_count folder.new)) in_source_form text.now refusal.fault) }
{
    let bytes = bytes_of(alloc, folder, text)?;
    match image_of_text(alloc, &bytes, in_source_form) {
        Ok(image) => write_image(alloc, folder, &image, out),
        Err(refusal) => Err(refusal),
    }
}
