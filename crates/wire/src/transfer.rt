//! Whole reads and writes over devices that give and take a part at a time.

ghost use Rattle.std.specs.Prelude.{◌≡◌, ◌+◌, ◌-◌, ◌^◌, ◌<◌, IfOk, OnOk, OnErr, IsErrOf, ◌↔◌};
ghost use Rattle.std.specs.Io.KnownBytes.{append_known};
ghost use Rattle.wire.specs.Device.{KnownAre, AppendsFront};

use crate::device::{Failed, Sink, Source};
use std::alloc::Global;

/// Why a source was not read to its end.
#[derive(Clone, Copy, Debug, PartialEq, Eq)]
pub enum ReadFault {
    /// The source failed.
    Device,
    /// Memory was refused.
    Memory,
}

/// Reads a source to its end. It stops at the first failure.
pub fn read_all<S: Source>(alloc: Global, source: &mut S) -> Result<Vec<u8>, ReadFault>
    requires { S.failure_count source.old < 2 ^ 64 - 1 }
    ensures bytes { IfOk result (λ bytes. KnownAre (S.left source.old) bytes.items) }
    ensures device { IsErrOf result ReadFault.Device ↔ (S.failure_count source.new ≡ S.failure_count source.old + 1) }
    ensures no_device { IsErrOf result ReadFault.Memory → S.failure_count source.new ≡ S.failure_count source.old }
    ensures steady { OnOk result (S.failure_count source.new ≡ S.failure_count source.old) }
{
    let mut bytes = Vec::new(alloc);
    let mut buffer = [0; 4096];
    'reading: loop {
        match source.read(&mut buffer) {
            Ok(0) => return Ok(bytes),
            Ok(count) => {
                if bytes.extend_from_slice(&buffer[..count]).is_err() {
                    return Err(ReadFault::Memory);
                }
            }
            Err(Failed) => return Err(ReadFault::Device),
        }
    }
}

/// Writes all the bytes. It stops at the first failure, when a front of them was taken.
pub fn write_all<K: Sink>(sink: &mut K, bytes: &[u8]) -> Result<(), Failed>
    requires { K.failure_count sink.old < 2 ^ 64 - 1 }
    ensures written { OnOk result (K.held sink.new ≡ append_known (K.held sink.old) bytes.now) }
    ensures steady { OnOk result (K.failure_count sink.new ≡ K.failure_count sink.old) }
    ensures front { OnErr result (AppendsFront (K.held sink.old) (K.held sink.new) bytes.now) }
    ensures counted { OnErr result (K.failure_count sink.new ≡ K.failure_count sink.old + 1) }
{
    let mut at = 0;
    'writing: while at < bytes.len() {
        match sink.write(&bytes[at..]) {
            Ok(count) => at += count,
            Err(Failed) => return Err(Failed),
        }
    }
    Ok(())
}
