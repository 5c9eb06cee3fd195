//! The files of an exact replay in pieces: the sent frames and the report are in the making while its records are run.

ghost use Rattle.std.specs.Prelude.{◌≡◌, ◌≢◌, ◌↔◌, ◌+◌, ◌-◌, ◌<◌, ◌^◌, ℕ, List, Some, true, IfErr, IfOk, OnOk, length};
ghost use Rattle.wire.specs.CaptureFormat.{capture_bytes, header_bytes, records_bytes};
ghost use Rattle.journals.specs.JournalsView.{JournalsView};
ghost use Rattle.journals.specs.JournalText.{journals_text};
ghost use Rattle.command_line.specs.Reading.{text_of};
ghost use Rattle.traffic.specs.RecordLines.{report_head};
ghost use Rattle.xlb_commands.specs.Files.{AreAllButKept, AreAllKeptBut, AreKept, AreOthersKept};
ghost use Rattle.xlb_commands.specs.InPieces.{AreAdded, AreApartInPieces, AreTold};
ghost use Rattle.xlb_commands.specs.RecordReports.{HasNamed, backends_in, form_of};
ghost use Rattle.xlb_commands.specs.Refused.{AreUnfiled, HasFailed, IsUnserved};
ghost use Rattle.xlb_commands.specs.Replays.{HasBytes};

use crate::fault::Refusal;
use crate::files::{unserved, write_journals_to, write_to};
use crate::record_report::{form_of, piece_lines};
use crate::replays::{Asked, bytes_of_frames};
use crate::sent_records::records_of_frames;
use actors::PieceOutcome;
use command_line::ReplayFiles;
use folders::{Folder, FolderFault};
use std::alloc::Global;
use traffic::Backends;
use wire::{MemorySink, Sent};

/// How many frames' records are in memory at a time.
const AT_A_TIME: usize = 1024;

/// Adds bytes to the file that is being made under this name.
fn add_bytes<D: Folder>(
    alloc: Global,
    folder: &mut D,
    name: &str,
    bytes: &[u8],
) -> Result<(), Refusal>
    requires { D.failure_count folder.old < 2 ^ 64 - 1 }
    ensures added { OnOk result (AreAdded (D.is_begun folder.old) (D.is_begun folder.new) name.now bytes.now) }
    ensures others { AreOthersKept (D.is_begun folder.old) (D.is_begun folder.new) name.now }
    ensures kept { AreKept (D.holds folder.old) (D.holds folder.new) }
    ensures left { (rest : List ℕ) → (D.is_left folder.old rest ↔ D.is_left folder.new rest) }
    ensures most { D.most_left folder.new ≡ D.most_left folder.old }
    ensures steady { OnOk result (D.failure_count folder.new ≡ D.failure_count folder.old) }
    ensures refused { IfErr result
        (λ refusal. IsUnserved (HasFailed (D.failure_count folder.old) (D.failure_count folder.new)) refusal.fault) }
{
    match folder.add(name, bytes) {
        Ok(()) => Ok(()),
        Err(fault) => Err(unserved(alloc, folder, name, fault)),
    }
}

/// Adds the records of frames to the capture that is being made under this name.
pub(crate) fn add_frames<D: Folder>(
    alloc: Global,
    folder: &mut D,
    name: &str,
    frames: &[Sent],
) -> Result<(), Refusal>
    requires { D.failure_count folder.old < 2 ^ 64 - 1 }
    ensures added { OnOk result (AreAdded (D.is_begun folder.old) (D.is_begun folder.new) name.now (records_bytes frames.now)) }
    ensures others { AreOthersKept (D.is_begun folder.old) (D.is_begun folder.new) name.now }
    ensures kept { AreKept (D.holds folder.old) (D.holds folder.new) }
    ensures left { (rest : List ℕ) → (D.is_left folder.old rest ↔ D.is_left folder.new rest) }
    ensures most { D.most_left folder.new ≡ D.most_left folder.old }
    ensures steady { OnOk result (D.failure_count folder.new ≡ D.failure_count folder.old) }
    ensures refused { IfErr result
        (λ refusal. IsUnserved (HasFailed (D.failure_count folder.old) (D.failure_count folder.new)) refusal.fault) }
{
    let Ok(records) = records_of_frames(alloc, frames) else {
        return Err(unserved(alloc, folder, name, FolderFault::Memory));
    };
    add_bytes(alloc, folder, name, &records)
}

/// Adds the header of a capture to the file that is being made under this name.
fn add_header<D: Folder>(alloc: Global, folder: &mut D, name: &str) -> Result<(), Refusal>
    requires { D.failure_count folder.old < 2 ^ 64 - 1 }
    ensures added { OnOk result (AreAdded (D.is_begun folder.old) (D.is_begun folder.new) name.now header_bytes) }
    ensures kept { AreKept (D.holds folder.old) (D.holds folder.new) }
    ensures steady { OnOk result (D.failure_count folder.new ≡ D.failure_count folder.old) }
    ensures refused { IfErr result
        (λ refusal. IsUnserved (HasFailed (D.failure_count folder.old) (D.failure_count folder.new)) refusal.fault) }
{
    let Ok(file) = bytes_of_frames(alloc, &[]) else {
        return Err(unserved(alloc, folder, name, FolderFault::Memory));
    };
    add_bytes(alloc, folder, name, file.bytes())
}

/// Begins to make a capture under this name, if it can be made in pieces.
fn begin_sent<D: Folder>(alloc: Global, folder: &mut D, name: &str) -> Result<bool, Refusal>
    requires { D.failure_count folder.old < 2 ^ 64 - 1 }
    ensures begun { IfOk result (λ may. may ≡ true → D.is_begun folder.new name.now header_bytes) }
    ensures kept { AreKept (D.holds folder.old) (D.holds folder.new) }
    ensures steady { OnOk result (D.failure_count folder.new ≡ D.failure_count folder.old) }
    ensures refused { IfErr result
        (λ refusal. IsUnserved (HasFailed (D.failure_count folder.old) (D.failure_count folder.new)) refusal.fault) }
{
    match folder.begin(alloc, name) {
        Ok(true) => match add_header(alloc, folder, name) {
            Ok(()) => Ok(true),
            Err(refusal) => {
                folder.give_up();
                Err(refusal)
            }
        },
        Ok(false) => Ok(false),
        Err(fault) => Err(unserved(alloc, folder, name, fault)),
    }
}

/// Adds the lines of records that come behind the first ones to the report that is being made, if one is asked for.
pub(crate) fn add_lines<D: Folder>(
    alloc: Global,
    folder: &mut D,
    asked: Asked<'_>,
    table: &Backends,
    first: usize,
    records: &[Sent],
    done: &PieceOutcome,
) -> Result<(), Refusal>
    requires failures { D.failure_count folder.old < 2 ^ 64 - 1 }
    requires named { HasNamed table.now (backends_in asked.script.now) }
    requires numbers { first + length records.now < 2 ^ 64 }
    ensures told { OnOk result (AreTold (D.is_begun folder.old) (D.is_begun folder.new) asked.entry.files.now asked.entry.script.now first
        records.now done.now.sent.items done.now.ends.items) }
    ensures others { AreAllKeptBut (D.is_begun folder.old) (D.is_begun folder.new) (text_of asked.entry.files.now.report) }
    ensures kept { AreKept (D.holds folder.old) (D.holds folder.new) }
    ensures left { (rest : List ℕ) → (D.is_left folder.old rest ↔ D.is_left folder.new rest) }
    ensures most { D.most_left folder.new ≡ D.most_left folder.old }
    ensures steady { OnOk result (D.failure_count folder.new ≡ D.failure_count folder.old) }
    ensures refused { IfErr result
        (λ refusal. IsUnserved (HasFailed (D.failure_count folder.old) (D.failure_count folder.new)) refusal.fault) }
{
    let files = asked.files;
    let Some(name) = files.report else {
        return Ok(());
    };
    let is_shipped = files.image.is_none();
    match piece_lines(
        alloc,
        name,
        is_shipped,
        asked.script,
        table,
        first,
        records,
        done,
    ) {
        Ok(lines) => add_bytes(alloc, folder, name, lines.as_bytes()),
        Err(_) => Err(unserved(alloc, folder, name, FolderFault::Memory)),
    }
}

/// Begins the report, if one is asked for. No: it cannot be made in pieces.
fn begin_report<D: Folder>(
    alloc: Global,
    folder: &mut D,
    report: Option<&str>,
) -> Result<bool, Refusal>
    requires { D.failure_count folder.old < 2 ^ 64 - 1 }
    ensures begun { IfOk result (λ may. may ≡ true → (name : List ℕ) → text_of report.entry ≡ Some name →
        D.is_begun folder.new name (report_head (form_of name))) }
    ensures others { AreAllKeptBut (D.is_begun folder.old) (D.is_begun folder.new) (text_of report.entry) }
    ensures kept { AreKept (D.holds folder.old) (D.holds folder.new) }
    ensures steady { OnOk result (D.failure_count folder.new ≡ D.failure_count folder.old) }
    ensures refused { IfErr result
        (λ refusal. IsUnserved (HasFailed (D.failure_count folder.old) (D.failure_count folder.new)) refusal.fault) }
{
    let Some(name) = report else {
        return Ok(true);
    };
    let Ok(form) = form_of(alloc, name) else {
        return Err(unserved(alloc, folder, name, FolderFault::Memory));
    };
    match folder.begin(alloc, name) {
        Ok(true) => add_bytes(alloc, folder, name, form.head().as_bytes())?,
        Ok(false) => return Ok(false),
        Err(fault) => return Err(unserved(alloc, folder, name, fault)),
    }
    Ok(true)
}

/// Begins the files of a replay: that of the sent frames, and the report where one is asked for. No: one of them cannot be made in pieces.
pub(crate) fn begin_files<D: Folder>(
    alloc: Global,
    folder: &mut D,
    files: &ReplayFiles<'_>,
) -> Result<bool, Refusal>
    requires failures { D.failure_count folder.old < 2 ^ 64 - 1 }
    requires apart { AreApartInPieces files.now }
    ensures sent { IfOk result (λ may. may ≡ true → D.is_begun folder.new files.now.sent.now header_bytes) }
    ensures report { IfOk result (λ may. may ≡ true → (name : List ℕ) → text_of files.now.report ≡ Some name →
        D.is_begun folder.new name (report_head (form_of name))) }
    ensures kept { AreKept (D.holds folder.old) (D.holds folder.new) }
    ensures steady { OnOk result (D.failure_count folder.new ≡ D.failure_count folder.old) }
    ensures refused { IfErr result
        (λ refusal. IsUnserved (HasFailed (D.failure_count folder.old) (D.failure_count folder.new)) refusal.fault) }
{
    if !begin_sent(alloc, folder, files.sent)? {
        return Ok(false);
    }
    match begin_report(alloc, folder, files.report) {
        Ok(may) => Ok(may),
        Err(refusal) => {
            folder.give_up();
            Err(refusal)
        }
    }
}

/// Gives the file that is being made under this name the name. Where it cannot have it, all that are in the making are removed.
fn finish_file<D: Folder>(alloc: Global, folder: &mut D, name: &str) -> Result<(), Refusal>
    requires failures { D.failure_count folder.old < 2 ^ 64 - 1 }
    ensures made { OnOk result ((bytes : List ℕ) → D.is_begun folder.old name.now bytes → D.holds folder.new name.now bytes) }
    ensures others { AreOthersKept (D.holds folder.old) (D.holds folder.new) name.now }
    ensures others_begun { OnOk result (AreOthersKept (D.is_begun folder.old) (D.is_begun folder.new) name.now) }
    ensures steady { OnOk result (D.failure_count folder.new ≡ D.failure_count folder.old) }
    ensures refused { IfErr result
        (λ refusal. IsUnserved (HasFailed (D.failure_count folder.old) (D.failure_count folder.new)) refusal.fault) }
{
    match folder.finish(name) {
        Ok(()) => Ok(()),
        Err(fault) => {
            let refusal = unserved(alloc, folder, name, fault);
            folder.give_up();
            Err(refusal)
        }
    }
}

/// Adds the records of frames to the capture that is being made under this name, so many at a time that their bytes take little memory. Where
/// they cannot be added, all that are in the making are removed.
fn add_all_frames<D: Folder>(
    alloc: Global,
    folder: &mut D,
    name: &str,
    frames: &[Sent],
) -> Result<(), Refusal>
    requires { D.failure_count folder.old < 2 ^ 64 - 1 }
    ensures added { OnOk result (AreAdded (D.is_begun folder.old) (D.is_begun folder.new) name.now (records_bytes frames.now)) }
    ensures kept { AreKept (D.holds folder.old) (D.holds folder.new) }
    ensures steady { OnOk result (D.failure_count folder.new ≡ D.failure_count folder.old) }
    ensures refused { IfErr result
        (λ refusal. IsUnserved (HasFailed (D.failure_count folder.old) (D.failure_count folder.new)) refusal.fault) }
{
    let mut rest = frames;
    'pieces: while !rest.is_empty() {
        let (first, later) = rest.split_at(rest.len().min(AT_A_TIME));
        if let Err(refusal) = add_frames(alloc, folder, name, first) {
            folder.give_up();
            return Err(refusal);
        }
        rest = later;
    }
    Ok(())
}

/// Writes the capture of these frames with all its bytes in memory.
fn write_whole<D: Folder>(
    alloc: Global,
    folder: &mut D,
    name: &str,
    frames: &[Sent],
) -> Result<(), Refusal>
    requires { D.failure_count folder.old < 2 ^ 64 - 1 }
    ensures written { OnOk result (D.holds folder.new name.now (capture_bytes frames.now)) }
    ensures others { AreOthersKept (D.holds folder.old) (D.holds folder.new) name.now }
    ensures steady { OnOk result (D.failure_count folder.new ≡ D.failure_count folder.old) }
    ensures refused { IfErr result
        (λ refusal. IsUnserved (HasFailed (D.failure_count folder.old) (D.failure_count folder.new)) refusal.fault) }
{
    let Ok(file) = bytes_of_frames(alloc, frames) else {
        return Err(unserved(alloc, folder, name, FolderFault::Memory));
    };
    write_to(alloc, folder, name, &file)
}

/// Writes the capture of these frames: in pieces, or whole where the folder makes no file of this name in pieces.
pub(crate) fn write_frames<D: Folder>(
    alloc: Global,
    folder: &mut D,
    name: &str,
    frames: &[Sent],
) -> Result<(), Refusal>
    requires { D.failure_count folder.old < 2 ^ 64 - 1 }
    ensures written { OnOk result (D.holds folder.new name.now (capture_bytes frames.now)) }
    ensures others { AreOthersKept (D.holds folder.old) (D.holds folder.new) name.now }
    ensures steady { OnOk result (D.failure_count folder.new ≡ D.failure_count folder.old) }
    ensures refused { IfErr result
        (λ refusal. IsUnserved (HasFailed (D.failure_count folder.old) (D.failure_count folder.new)) refusal.fault) }
{
    if !begin_sent(alloc, folder, name)? {
        return write_whole(alloc, folder, name, frames);
    }
    add_all_frames(alloc, folder, name, frames)?;
    finish_file(alloc, folder, name)
}

/// Gives the file of the sent frames its name, then writes the journals, and then gives the report its name, where files are named for these.
/// Where one of them fails, what is still in the making is removed.
pub(crate) fn write_pieces<D: Folder>(
    alloc: Global,
    folder: &mut D,
    files: &ReplayFiles<'_>,
    journals: &MemorySink,
) -> Result<(), Refusal>
    requires failures { D.failure_count folder.old < 2 ^ 64 - 1 }
    requires apart { AreApartInPieces files.now }
    ensures sent { OnOk result ((bytes : List ℕ) → D.is_begun folder.old files.now.sent.now bytes →
        text_of files.now.journals ≢ Some files.now.sent.now → D.holds folder.new files.now.sent.now bytes) }
    ensures journals { OnOk result (text_of files.now.report ≢ text_of files.now.journals →
        HasBytes (D.holds folder.new) (text_of files.now.journals) journals.now.bytes) }
    ensures report { OnOk result ((name bytes : List ℕ) → text_of files.now.report ≡ Some name → D.is_begun folder.old name bytes →
        D.holds folder.new name bytes) }
    ensures steady { OnOk result (D.failure_count folder.new ≡ D.failure_count folder.old) }
    ensures others { AreAllButKept (D.holds folder.old) (D.holds folder.new) files.now.sent.now (text_of files.now.journals)
        (text_of files.now.report) }
    ensures refused { IfErr result (λ refusal. (bytes : List ℕ) (view : JournalsView) →
        D.is_begun folder.old files.now.sent.now bytes → ((file : List ℕ) → text_of files.now.journals ≡ Some file →
        journals.now.bytes ≡ journals_text view) → AreUnfiled (D.holds folder.old) (D.holds folder.new)
        (HasFailed (D.failure_count folder.old) (D.failure_count folder.new)) files.now bytes view refusal.fault) }
{
    finish_file(alloc, folder, files.sent)?;
    if let Err(refusal) = write_journals_to(alloc, folder, files.journals, journals) {
        folder.give_up();
        return Err(refusal);
    }
    match files.report {
        Some(name) => finish_file(alloc, folder, name),
        None => Ok(()),
    }
}
