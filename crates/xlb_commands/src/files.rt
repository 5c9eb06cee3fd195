//! Files of commands, read and written.

ghost use Rattle.std.specs.Prelude.{◌≡◌, ◌-◌, ◌<◌, ◌^◌, List, ℕ, Some, IfErr, IfOk, OnOk};
ghost use Rattle.semantics.specs.ShardPlan.{KeepsRows};
ghost use Rattle.journals.specs.JournalText.{journals_text};
ghost use Rattle.journals.specs.FileJournals.{ReadBackWhereLegal};
ghost use Rattle.command_line.specs.Reading.{text_of};
ghost use Rattle.folders.specs.Fronts.{HasFront};
ghost use Rattle.xlb_commands.specs.Files.{AreAllKeptBut, AreKept, AreOthersKept};
ghost use Rattle.xlb_commands.specs.Refused.{HasFailed, IsUnserved, AreUnwritten, LacksRoom};
ghost use Rattle.xlb_commands.specs.Replays.{HasBytes};

use crate::fault::{Fault, Refusal};
use crate::printable::in_one_line;
use folders::{Folder, FolderFault, Front};
use journals::{FileFault, Journals, write_journals};
use std::alloc::{AllocError, Global};
use wire::MemorySink;

/// The folder's line on its last failure, with escapes for what a terminal would not show of the name.
fn complaint<D: Folder>(alloc: Global, folder: &D, name: &str) -> Result<String, AllocError> {
    let line = folder.complaint(alloc, name)?;
    in_one_line(alloc, line.as_str())
}

/// Why a file was not read or written, with the system's word for it.
pub(crate) fn unserved<D: Folder>(
    alloc: Global,
    folder: &D,
    name: &str,
    fault: FolderFault,
) -> Refusal
    ensures { result.fault ≡ Fault.Folder fault }
{
    match fault {
        FolderFault::Device => {
            Refusal::noted(Fault::Folder(fault), complaint(alloc, folder, name))
        }
        FolderFault::Memory => Refusal::from(Fault::Folder(fault)),
    }
}

/// The bytes of a file.
pub(crate) fn bytes_of<D: Folder>(
    alloc: Global,
    folder: &mut D,
    name: &str,
) -> Result<Vec<u8>, Refusal>
    requires { D.failure_count folder.old < 2 ^ 64 - 1 }
    ensures bytes { IfOk result (λ bytes. D.holds folder.old name.now bytes.items) }
    ensures kept { AreKept (D.holds folder.old) (D.holds folder.new) }
    ensures steady { OnOk result (D.failure_count folder.new ≡ D.failure_count folder.old) }
    ensures refused { IfErr result
        (λ refusal. IsUnserved (HasFailed (D.failure_count folder.old) (D.failure_count folder.new)) refusal.fault) }
{
    match folder.read(alloc, name) {
        Ok(bytes) => Ok(bytes),
        Err(fault) => Err(unserved(alloc, folder, name, fault)),
    }
}

/// The first bytes of a file.
pub(crate) fn front_of<D: Folder>(
    alloc: Global,
    folder: &mut D,
    name: &str,
    most: usize,
) -> Result<Front, Refusal>
    requires { D.failure_count folder.old < 2 ^ 64 - 1 }
    ensures front { IfOk result (HasFront (D.holds folder.old name.now) most) }
    ensures kept { AreKept (D.holds folder.old) (D.holds folder.new) }
    ensures steady { OnOk result (D.failure_count folder.new ≡ D.failure_count folder.old) }
    ensures refused { IfErr result
        (λ refusal. IsUnserved (HasFailed (D.failure_count folder.old) (D.failure_count folder.new)) refusal.fault) }
{
    match folder.read_front(alloc, name, most) {
        Ok(front) => Ok(front),
        Err(fault) => Err(unserved(alloc, folder, name, fault)),
    }
}

/// The bytes of the file of this name, of these journals; else 52, since writing to memory fails for lack of memory alone.
fn bytes_of_journals(alloc: Global, name: &str, journals: &Journals) -> Result<MemorySink, Refusal>
    requires { KeepsRows journals.now.options.journal }
    ensures bytes { IfOk result (λ sink. sink.bytes ≡ journals_text journals.now) }
    ensures reads_back { ReadBackWhereLegal journals.now }
    ensures refused { IfErr result (λ refusal. LacksRoom (Some name.now) refusal.fault) }
    ensures fault { IfErr result (λ refusal. refusal.fault ≡ Fault.Journals FileFault.Memory) }
{
    let mut sink = MemorySink::new(alloc);
    match write_journals(alloc, &mut sink, journals) {
        Ok(()) => Ok(sink),
        Err(_) => Err(Refusal::from(Fault::Journals(FileFault::Memory))),
    }
}

/// The bytes of the file of these journals, where one is named; else none.
pub(crate) fn journal_bytes(
    alloc: Global,
    name: Option<&str>,
    journals: &Journals,
) -> Result<MemorySink, Refusal>
    requires { (file : List ℕ) → text_of name ≡ Some file → KeepsRows journals.now.options.journal }
    ensures bytes { IfOk result (λ sink. (file : List ℕ) → text_of name.entry ≡ Some file → sink.bytes ≡ journals_text journals.now) }
    ensures reads_back { (file : List ℕ) → text_of name.entry ≡ Some file → ReadBackWhereLegal journals.now }
    ensures refused { IfErr result (λ refusal. LacksRoom (text_of name.entry) refusal.fault) }
    ensures fault { IfErr result (λ refusal. refusal.fault ≡ Fault.Journals FileFault.Memory) }
{
    match name {
        Some(name) => bytes_of_journals(alloc, name, journals),
        None => Ok(MemorySink::new(alloc)),
    }
}

/// Writes a file of these bytes.
fn write_bytes_to<D: Folder>(
    alloc: Global,
    folder: &mut D,
    name: &str,
    bytes: &[u8],
) -> Result<(), Refusal>
    requires { D.failure_count folder.old < 2 ^ 64 - 1 }
    ensures written { OnOk result (D.holds folder.new name.now bytes.now) }
    ensures others { AreOthersKept (D.holds folder.old) (D.holds folder.new) name.now }
    ensures begun { AreKept (D.is_begun folder.old) (D.is_begun folder.new) }
    ensures steady { OnOk result (D.failure_count folder.new ≡ D.failure_count folder.old) }
    ensures refused { IfErr result
        (λ refusal. IsUnserved (HasFailed (D.failure_count folder.old) (D.failure_count folder.new)) refusal.fault) }
{
    match folder.write(alloc, name, bytes) {
        Ok(()) => Ok(()),
        Err(fault) => Err(unserved(alloc, folder, name, fault)),
    }
}

/// Writes a file.
pub(crate) fn write_to<D: Folder>(
    alloc: Global,
    folder: &mut D,
    name: &str,
    file: &MemorySink,
) -> Result<(), Refusal>
    requires { D.failure_count folder.old < 2 ^ 64 - 1 }
    ensures written { OnOk result (D.holds folder.new name.now file.now.bytes) }
    ensures others { AreOthersKept (D.holds folder.old) (D.holds folder.new) name.now }
    ensures begun { AreKept (D.is_begun folder.old) (D.is_begun folder.new) }
    ensures steady { OnOk result (D.failure_count folder.new ≡ D.failure_count folder.old) }
    ensures refused { IfErr result
        (λ refusal. IsUnserved (HasFailed (D.failure_count folder.old) (D.failure_count folder.new)) refusal.fault) }
{
    write_bytes_to(alloc, folder, name, file.bytes())
}

/// Writes the file of the journals, where one is named.
pub(crate) fn write_journals_to<D: Folder>(
    alloc: Global,
    folder: &mut D,
    name: Option<&str>,
    file: &MemorySink,
) -> Result<(), Refusal>
    requires { D.failure_count folder.old < 2 ^ 64 - 1 }
    ensures written { OnOk result (HasBytes (D.holds folder.new) (text_of name.entry) file.now.bytes) }
    ensures others { AreAllKeptBut (D.holds folder.old) (D.holds folder.new) (text_of name.entry) }
    ensures begun { AreKept (D.is_begun folder.old) (D.is_begun folder.new) }
    ensures steady { OnOk result (D.failure_count folder.new ≡ D.failure_count folder.old) }
    ensures refused { IfErr result (λ refusal. AreUnwritten (text_of name.entry)
        (HasFailed (D.failure_count folder.old) (D.failure_count folder.new)) refusal.fault) }
{
    match name {
        Some(name) => write_to(alloc, folder, name, file),
        None => Ok(()),
    }
}

/// Writes the file of a text, where one is named.
pub(crate) fn write_text_to<D: Folder>(
    alloc: Global,
    folder: &mut D,
    name: Option<&str>,
    text: &str,
) -> Result<(), Refusal>
    requires { D.failure_count folder.old < 2 ^ 64 - 1 }
    ensures written { OnOk result (HasBytes (D.holds folder.new) (text_of name.entry) text.now) }
    ensures others { AreAllKeptBut (D.holds folder.old) (D.holds folder.new) (text_of name.entry) }
    ensures steady { OnOk result (D.failure_count folder.new ≡ D.failure_count folder.old) }
    ensures refused { IfErr result (λ refusal. AreUnwritten (text_of name.entry)
        (HasFailed (D.failure_count folder.old) (D.failure_count folder.new)) refusal.fault) }
{
    match name {
        Some(name) => write_bytes_to(alloc, folder, name, text.as_bytes()),
        None => Ok(()),
    }
}
