//! The next records of a capture that is read in pieces, and which of them are taken.

ghost use Rattle.std.specs.Prelude.{◌≡◌, ◌≢◌, ◌+◌, ◌++◌, ◌∷◌, ◌-◌, ◌<◌, ◌≤◌, ◌^◌, ◌⊎◌};
ghost use Rattle.std.specs.Prelude.{[], List, Option, IfErr, IfOk, IfSome, IfNone, OnOk, length};
ghost use Rattle.wire.specs.CaptureFormat.{BeginsWithRecord};
ghost use Rattle.wire.specs.declared.records.Sent.{Sent as Record};
ghost use Rattle.fleet.specs.declared.part.Part.{Part as OnePart};
ghost use Rattle.folders.specs.AlteredReading.{raw_of};
ghost use Rattle.folders.specs.PieceReading.{HasRoom, IsAtFront, ReadsOn, ReadsToEnd, behind_record, most_to_come};
ghost use Rattle.xlb_commands.specs.Files.{AreKept};
ghost use Rattle.xlb_commands.specs.Taking.{AreRecordsTaken, CanPass, GoesPast, IsAbreast};
ghost use Rattle.xlb_commands.specs.Refused.{HasFailed, IsUnserved};

use crate::fault::{Fault, Refusal};
use crate::files::unserved;
use crate::taking::{Taking, go_past};
use folders::{CaptureReader, Folder, FolderFault, RecordBuffer, RecordHead};
use std::alloc::Global;
use wire::CaptureFault;

/// The most records of a piece.
const PIECE: usize = 1024;

/// What came of a piece.
#[derive(Clone, Copy, Debug, PartialEq, Eq)]
pub(crate) enum PieceStep {
    More,
    Last,
    /// The rest of the file is no capture any more.
    Changed,
}

/// The refusal for a device that failed, or for lack of memory, while a capture was read; none where its bytes are wrong.
pub(crate) fn unserved_capture<D: Folder>(
    alloc: Global,
    folder: &D,
    name: &str,
    fault: CaptureFault,
) -> Option<Refusal>
    ensures some { IfSome result (λ refusal. (fault ≡ CaptureFault.Device) × (refusal.fault ≡ Fault.Folder FolderFault.Device)
        ⊎ (fault ≡ CaptureFault.Memory) × (refusal.fault ≡ Fault.Folder FolderFault.Memory)) }
    ensures none { IfNone result (fault ≢ CaptureFault.Device) }
{
    match fault {
        CaptureFault::Device => Some(unserved(alloc, folder, name, FolderFault::Device)),
        CaptureFault::Memory => Some(unserved(alloc, folder, name, FolderFault::Memory)),
        _ => None,
    }
}

/// Goes past the record at the front, and adds it to those of a buffer where it is taken.
#[inline(always)]
fn take_record<D: Folder>(
    alloc: Global,
    folder: &D,
    name: &str,
    reader: &mut CaptureReader,
    taking: &mut Taking,
    head: RecordHead,
    buffer: &mut RecordBuffer,
) -> Result<(), Refusal>
    requires front { IsAtFront reader.old.unread head }
    requires room { reader.old.count < 2 ^ 64 - 1 }
    requires can_pass { CanPass taking.old }
    ensures record { OnOk result ((sent : Record) × BeginsWithRecord reader.old.unread sent × (reader.new ≡ behind_record reader.old sent)
        × GoesPast taking.old taking.new (sent ∷ [])
        × (taken : List Record) × AreRecordsTaken taking.old (sent ∷ []) taken × (buffer.new ≡ buffer.old ++ taken)) }
    ensures count { OnOk result (reader.new.count ≡ reader.old.count + 1) }
    ensures fewer { OnOk result (length reader.new.unread + 16 ≤ length reader.old.unread) }
    ensures raw { OnOk result (length (raw_of reader.new.source) ≡ length (raw_of reader.old.source)) }
    ensures few { OnOk result (length buffer.new ≤ length buffer.old + 1) }
    ensures refused { IfErr result (λ refusal. refusal.fault ≡ Fault.Folder FolderFault.Memory) }
{
    if go_past(alloc, folder, name, taking, reader.frame(head))? {
        match reader.keep(alloc, head, buffer) {
            Ok(()) => Ok(()),
            Err(_) => Err(unserved(alloc, folder, name, FolderFault::Memory)),
        }
    } else {
        reader.pass(head);
        Ok(())
    }
}

/// Reads on in a capture until so many of its records were taken that they are a piece, or to its end. A buffer has the taken ones then, and
/// no others.
pub(crate) fn fill_piece<D: Folder>(
    alloc: Global,
    folder: &mut D,
    name: &str,
    reader: &mut CaptureReader,
    taking: &mut Taking,
    buffer: &mut RecordBuffer,
) -> Result<PieceStep, Refusal>
    requires failures { D.failure_count folder.old < 2 ^ 64 - 1 }
    requires room { HasRoom (D.most_left folder.old) reader.old }
    requires abreast { (part : Option OnePart) × IsAbreast part taking.old reader.old }
    ensures more { IfOk result (λ step. step ≡ PieceStep.More → (records : List Record)
        × ReadsOn D.holds (D.is_left folder.old) (D.is_left folder.new) reader.old reader.new records
        × GoesPast taking.old taking.new records × AreRecordsTaken taking.old records buffer.new) }
    ensures last { IfOk result (λ step. step ≡ PieceStep.Last → (records : List Record)
        × ReadsToEnd D.holds (D.is_left folder.old) reader.old records reader.new.cut
        × GoesPast taking.old taking.new records × AreRecordsTaken taking.old records buffer.new) }
    ensures room { IfOk result (λ step. step ≢ PieceStep.Changed → HasRoom (D.most_left folder.new) reader.new) }
    ensures fewer { IfOk result (λ step. step ≡ PieceStep.More →
        most_to_come (D.most_left folder.new) reader.new < most_to_come (D.most_left folder.old) reader.old) }
    ensures kept { AreKept (D.holds folder.old) (D.holds folder.new) }
    ensures made { AreKept (D.is_begun folder.old) (D.is_begun folder.new) }
    ensures steady { OnOk result (D.failure_count folder.new ≡ D.failure_count folder.old) }
    ensures refused { IfErr result
        (λ refusal. IsUnserved (HasFailed (D.failure_count folder.old) (D.failure_count folder.new)) refusal.fault) }
{
    buffer.clear();
    'records: while buffer.len() < PIECE {
        match reader.find(folder) {
            Ok(Some(head)) => {
                take_record(alloc, folder, name, reader, taking, head, buffer)?;
            }
            Ok(None) => return Ok(PieceStep::Last),
            Err(fault) => return match unserved_capture(alloc, folder, name, fault) {
                Some(refusal) => Err(refusal),
                None => Ok(PieceStep::Changed),
            },
        }
    }
    Ok(PieceStep::More)
}
