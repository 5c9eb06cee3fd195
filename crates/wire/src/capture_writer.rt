//! Writing capture files.

ghost use Rattle.std.specs.Prelude.{◌≡◌, ◌+◌, ◌-◌, ◌^◌, ◌<◌, ◌≤◌, ◌++◌, length, drop, IfErr, OnOk, OnErr, All};
ghost use Rattle.std.specs.Io.KnownBytes.{append_known};
ghost use Rattle.byteorder.specs.Endian.{little_bytes};
ghost use Rattle.wire.specs.CaptureFormat.{header_bytes, record_bytes, capture_bytes, CaptureReadsBack};
ghost use Rattle.wire.specs.Device.{AppendsFront};

use crate::capture_fault::CaptureFault;
use crate::capture_reader::{CAPTURE_HEADER_LEN, RECORD_HEAD_LEN};
use crate::device::{Failed, Sink};
use crate::records::Sent;
use crate::transfer::write_all;
use byteorder::{ByteOrder, LittleEndian};

/// A file's header: magic number, version 2.4, zone 0, accuracy 0, snap length 65535, link type 1.
const HEADER: [u8; CAPTURE_HEADER_LEN] = [
    0xd4, 0xc3, 0xb2, 0xa1, 2, 0, 4, 0, 0, 0, 0, 0, 0, 0, 0, 0, 0xff, 0xff, 0, 0, 1, 0, 0, 0,
];

/// Writes the four numbers of a record's head: its moment, and its length twice.
fn put_head(head: &mut [u8], seconds: u32, micros: u32, len: u32)
    requires { 16 ≤ length head.old }
    ensures { head.new ≡ (little_bytes 4 seconds ++ little_bytes 4 micros ++ little_bytes 4 len ++ little_bytes 4 len) ++ drop 16 head.old }
{
    LittleEndian::write_u32(head, seconds);
    LittleEndian::write_u32(&mut head[4..], micros);
    LittleEndian::write_u32(&mut head[8..], len);
    LittleEndian::write_u32(&mut head[12..], len);
}

/// Writes one record.
fn write_record<K: Sink>(sink: &mut K, sent: &Sent) -> Result<(), Failed>
    requires { K.failure_count sink.old < 2 ^ 64 - 1 }
    ensures written { OnOk result (K.held sink.new ≡ append_known (K.held sink.old) (record_bytes sent.now)) }
    ensures steady { OnOk result (K.failure_count sink.new ≡ K.failure_count sink.old) }
    ensures front { OnErr result (AppendsFront (K.held sink.old) (K.held sink.new) (record_bytes sent.now)) }
    ensures counted { OnErr result (K.failure_count sink.new ≡ K.failure_count sink.old + 1) }
{
    let mut head = [0; RECORD_HEAD_LEN];
    put_head(
        &mut head,
        sent.seconds,
        sent.micros,
        sent.bytes.len() as u32,
    );
    write_all(sink, &head)?;
    write_all(sink, &sent.bytes)
}

/// Writes a capture file of these frames (pcap 2.4, little-endian, microseconds, Ethernet).
///
/// Only fault 7 comes, where the device failed, once: the call stops there, and a front
/// of the file was taken. It takes no memory.
pub fn write_capture<K: Sink>(sink: &mut K, records: &[Sent]) -> Result<(), CaptureFault>
    requires { K.failure_count sink.old < 2 ^ 64 - 1 }
    ensures written { OnOk result (K.held sink.new ≡ append_known (K.held sink.old) (capture_bytes records.now)) }
    ensures steady { OnOk result (K.failure_count sink.new ≡ K.failure_count sink.old) }
    ensures front { OnErr result (AppendsFront (K.held sink.old) (K.held sink.new) (capture_bytes records.now)) }
    ensures device { IfErr result (λ fault. fault ≡ CaptureFault.Device) }
    ensures counted { OnErr result (K.failure_count sink.new ≡ K.failure_count sink.old + 1) }
    ensures reads_back { CaptureReadsBack records.now }
{
    match write_all(sink, &HEADER) {
        Ok(()) => {}
        Err(Failed) => return Err(CaptureFault::Device),
    }
    'records: for sent in records {
        match write_record(sink, sent) {
            Ok(()) => {}
            Err(Failed) => return Err(CaptureFault::Device),
        }
    }
    Ok(())
}
