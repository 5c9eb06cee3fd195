//! A capture that is kept in memory, read record by record: the bytes of its file are not kept beside its records.

ghost use Rattle.std.specs.Prelude.{◌≡◌, ◌+◌, ◌-◌, ◌<◌, ◌≤◌, ◌^◌, ◌++◌, ◌∷◌, [], length, IfErr, IfOk, IfSome, OnOk};
ghost use Rattle.wire.specs.CaptureFormat.{BeginsWithRecord};
ghost use Rattle.wire.specs.declared.records.Sent.{Sent as Record};
ghost use Rattle.folders.specs.AlteredReading.{raw_of};
ghost use Rattle.folders.specs.PieceReading.{IsAtFront, behind_record};
ghost use Rattle.xlb_commands.specs.Files.{AreKept};
ghost use Rattle.xlb_commands.specs.Refused.{HasFailed, IsUnserved};
ghost use Rattle.xlb_commands.specs.Replays.{IsCaptureOf};

use crate::fault::{Fault, Refusal};
use crate::files::unserved;
use crate::in_pieces::{altered_by, open_reader};
use crate::next_records::unserved_capture;
use crate::notes::Altered;
use capture_readings::Reading;
use folders::{CaptureReader, Folder, FolderFault, RecordBuffer, RecordHead};
use std::alloc::Global;
use wire::Capture;

/// Goes past the record at the front, and adds it to those of a buffer.
fn keep_record<D: Folder>(
    alloc: Global,
    folder: &D,
    name: &str,
    reader: &mut CaptureReader,
    head: RecordHead,
    buffer: &mut RecordBuffer,
) -> Result<(), Refusal>
    requires front { IsAtFront reader.old.unread head }
    requires room { reader.old.count < 2 ^ 64 - 1 }
    ensures record { OnOk result ((sent : Record) × BeginsWithRecord reader.old.unread sent × (reader.new ≡ behind_record reader.old sent)
        × (buffer.new ≡ buffer.old ++ sent ∷ [])) }
    ensures count { OnOk result (reader.new.count ≡ reader.old.count + 1) }
    ensures fewer { OnOk result (length reader.new.unread + 16 ≤ length reader.old.unread) }
    ensures raw { OnOk result (length (raw_of reader.new.source) ≡ length (raw_of reader.old.source)) }
    ensures refused { IfErr result (λ refusal. refusal.fault ≡ Fault.Folder FolderFault.Memory) }
{
    match reader.keep(alloc, head, buffer) {
        Ok(()) => Ok(()),
        Err(_) => Err(unserved(alloc, folder, name, FolderFault::Memory)),
    }
}

/// The capture of a file, and in `altered` which of its records are not as their frames were. None where it cannot be read in pieces, or is no capture.
pub(crate) fn kept_capture<D: Folder>(
    alloc: Global,
    folder: &mut D,
    name: &str,
    reading: Reading,
    altered: &mut Altered,
) -> Result<Option<Capture>, Refusal>
    requires { D.failure_count folder.old < 2 ^ 64 - 1 }
    ensures capture { IfOk result (λ found. IfSome found
        (λ capture. IsCaptureOf (D.holds folder.old) reading name.now capture.records.items)) }
    ensures kept { AreKept (D.holds folder.old) (D.holds folder.new) }
    ensures steady { OnOk result (D.failure_count folder.new ≡ D.failure_count folder.old) }
    ensures refused { IfErr result
        (λ refusal. IsUnserved (HasFailed (D.failure_count folder.old) (D.failure_count folder.new)) refusal.fault) }
{
    let Some(mut reader) = open_reader(alloc, folder, name, reading)? else {
        return Ok(None);
    };
    let mut buffer = RecordBuffer::new(alloc);
    'records: loop {
        match reader.find(folder) {
            Ok(Some(head)) => {
                keep_record(alloc, folder, name, &mut reader, head, &mut buffer)?;
            }
            Ok(None) => {
                *altered = altered_by(&reader);
                return Ok(Some(buffer.into_capture()));
            }
            Err(fault) => return match unserved_capture(alloc, folder, name, fault) {
                Some(refusal) => Err(refusal),
                None => Ok(None),
            },
        }
    }
}
