//! Reading capture files.

ghost use Rattle.std.specs.Prelude.{◌≡◌, ℕ, ◌+◌, ◌-◌, ◌^◌, ◌<◌, ◌≤◌, ◌↔◌, ◌⊎◌, length, IfOk, IfErr, OnOk, IsErrOf};
ghost use Rattle.wire.specs.CaptureFormat.{le16_at, le32_at, BeginsWithHeader, BeginsWithRecord, IsCaptureFile, IsHeaderFault};
ghost use Rattle.wire.specs.CaptureFormat.{RefusesRecord, RefusesCapture};
ghost use Rattle.wire.specs.Device.{IfKnown};

use crate::capture_fault::CaptureFault;
use crate::device::Source;
use crate::frame_buffer::MAX_FRAME;
use crate::records::{Capture, Sent};
use crate::transfer::{ReadFault, read_all};
use byteorder::{ByteOrder, LittleEndian};
use std::alloc::Global;

/// The bytes of a capture file's header.
pub const CAPTURE_HEADER_LEN: usize = 24;

/// The bytes of the head of each record behind it.
pub const RECORD_HEAD_LEN: usize = 16;

/// The 16-bit number at an index, low byte first.
fn le16_at(bytes: &[u8], at: usize) -> u16
    requires { at + 2 ≤ length bytes.now }
    ensures { result ≡ le16_at at bytes.now }
{
    LittleEndian::read_u16(&bytes[at..])
}

/// The 32-bit number at an index, low byte first.
fn le32_at(bytes: &[u8], at: usize) -> u32
    requires { at + 4 ≤ length bytes.now }
    ensures { result ≡ le32_at at bytes.now }
{
    LittleEndian::read_u32(&bytes[at..])
}

/// Looks at the header at the front of a capture file. Of several things that are wrong with it the first counts, in this order: 4 where the bytes end in
/// it, 1 for its magic number, 2 for its version, 3 for its link type.
pub fn check_capture_header(bytes: &[u8]) -> Result<(), CaptureFault>
    ensures header { OnOk result (BeginsWithHeader bytes.now) }
    ensures fault { IfErr result (IsHeaderFault bytes.now) }
{
    if bytes.len() < CAPTURE_HEADER_LEN {
        return Err(CaptureFault::CutHead { record: 0 });
    }
    if le32_at(bytes, 0) != 0xa1b2c3d4 {
        return Err(CaptureFault::BadMagic);
    }
    if le16_at(bytes, 4) != 2 || le16_at(bytes, 6) != 4 {
        return Err(CaptureFault::BadVersion);
    }
    if le32_at(bytes, 20) != 1 {
        return Err(CaptureFault::BadLink);
    }
    Ok(())
}

/// Reads the record of this number, counted from 1, at the front of the rest of a capture file.
///
/// Refused with 4 where the bytes end in the record's head; with 6 where it keeps more than 2048 bytes; with 5 where they end in what it keeps; with 8 for
/// lack of memory.
pub fn record_of(alloc: Global, rest: &[u8], number: u64) -> Result<Sent, CaptureFault>
    requires { 0 < length rest.now }
    ensures sent { IfOk result (BeginsWithRecord rest.now) }
    ensures fault { IfErr result (RefusesRecord rest.now number) }
{
    if rest.len() < RECORD_HEAD_LEN {
        return Err(CaptureFault::CutHead { record: number });
    }
    let kept = le32_at(rest, 8) as usize;
    if kept > MAX_FRAME {
        return Err(CaptureFault::FrameTooLong { record: number });
    }
    if rest.len() < RECORD_HEAD_LEN + kept {
        return Err(CaptureFault::CutFrame { record: number });
    }
    let bytes = Vec::from_slice(alloc, &rest[RECORD_HEAD_LEN..RECORD_HEAD_LEN + kept]).map_err(
        |_| CaptureFault::Memory,
    )?;
    Ok(Sent {
        seconds: le32_at(rest, 0),
        micros: le32_at(rest, 4),
        bytes,
    })
}

/// Reads a whole file.
fn capture_of(alloc: Global, bytes: &[u8]) -> Result<Capture, CaptureFault>
    ensures file { IfOk result (λ capture. IsCaptureFile bytes.now capture.records.items) }
    ensures fault { IfErr result (RefusesCapture bytes.now) }
{
    check_capture_header(bytes)?;
    let mut records = Vec::new(alloc);
    let mut rest = &bytes[CAPTURE_HEADER_LEN..];
    'records: while !rest.is_empty() {
        match record_of(alloc, rest, records.len() as u64 + 1) {
            Ok(sent) => {
                let tail = &rest[RECORD_HEAD_LEN + sent.bytes.len()..];
                match records.push(sent) {
                    Ok(()) => rest = tail,
                    Err(_) => return Err(CaptureFault::Memory),
                }
            }
            Err(fault) => return Err(fault),
        }
    }
    Ok(Capture { records })
}

/// Reads a capture file (pcap 2.4, little-endian, microseconds, Ethernet) from a device.
///
/// The first fault is answered. After a fault nothing is kept. Fault 7 comes where the
/// device failed, once: the call stops there.
pub fn read_capture<S: Source>(alloc: Global, source: &mut S) -> Result<Capture, CaptureFault>
    requires { S.failure_count source.old < 2 ^ 64 - 1 }
    ensures file { IfOk result (λ capture. IfKnown (S.left source.old) (λ bytes. IsCaptureFile bytes capture.records.items)) }
    ensures fault { IfErr result (λ fault. fault ≡ CaptureFault.Device ⊎ IfKnown (S.left source.old) (λ bytes. RefusesCapture bytes fault)) }
    ensures device { IsErrOf result CaptureFault.Device ↔ (S.failure_count source.new ≡ S.failure_count source.old + 1) }
    ensures steady { IsErrOf result CaptureFault.Device ⊎ (S.failure_count source.new ≡ S.failure_count source.old) }
{
    match read_all(alloc, source) {
        Ok(bytes) => capture_of(alloc, &bytes),
        Err(ReadFault::Device) => Err(CaptureFault::Device),
        Err(ReadFault::Memory) => Err(CaptureFault::Memory),
    }
}
