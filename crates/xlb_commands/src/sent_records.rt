//! The records of sent frames, as a capture file has them, in memory that is taken once.

ghost use Rattle.std.specs.Prelude.{◌≡◌, ◌≤◌, ◌++◌, IfOk, OnOk, drop, length};
ghost use Rattle.byteorder.specs.Endian.{little_bytes};
ghost use Rattle.wire.specs.CaptureFormat.{record_bytes, records_bytes};

use byteorder::{ByteOrder, LittleEndian};
use std::alloc::{AllocError, Global};
use wire::{RECORD_HEAD_LEN, Sent};

/// Writes the four numbers of a record's head: its moment, and its length twice.
fn put_head(head: &mut [u8], seconds: u32, micros: u32, len: u32)
    requires { 16 ≤ length head.old }
    ensures { head.new ≡ (little_bytes 4 seconds ++ little_bytes 4 micros ++ little_bytes 4 len ++ little_bytes 4 len) ++ drop 16 head.old }
{
    LittleEndian::write_u32(head, seconds);
    LittleEndian::write_u32(&mut head[4..], micros);
    LittleEndian::write_u32(&mut head[8..], len);
    LittleEndian::write_u32(&mut head[12..], len);
}

/// Puts the record of a frame behind these bytes.
fn put_record(bytes: &mut Vec<u8>, sent: &Sent) -> Result<(), AllocError>
    ensures { OnOk result (bytes.new.items ≡ bytes.old.items ++ record_bytes sent.now) }
{
    let mut head = [0; RECORD_HEAD_LEN];
    put_head(
        &mut head,
        sent.seconds,
        sent.micros,
        sent.bytes.len() as u32,
    );
    bytes.extend_from_slice(&head)?;
    bytes.extend_from_slice(&sent.bytes)
}

/// How many bytes the records of frames have, if no more than there may be in memory.
fn room_of(frames: &[Sent]) -> usize {
    let mut room: usize = 0;
    'frames: for sent in frames {
        room = room.saturating_add(RECORD_HEAD_LEN + sent.bytes.len());
    }
    room
}

/// The bytes of the records of frames in a capture file, behind its header. Fails only for lack of memory.
pub(crate) fn records_of_frames(alloc: Global, frames: &[Sent]) -> Result<Vec<u8>, AllocError>
    ensures { IfOk result (λ bytes. bytes.items ≡ records_bytes frames.now) }
{
    let mut bytes = Vec::with_capacity(alloc, room_of(frames))?;
    'frames: for sent in frames {
        put_record(&mut bytes, sent)?;
    }
    Ok(bytes)
}
