//! Devices in memory, whose bytes contracts know.

ghost use Rattle.std.specs.Prelude.{◌≡◌, ◌^◌, ◌≤◌, [], Some, length};
ghost use Rattle.wire.specs.Device.{SinkView};

use crate::device::{Failed, Sink, Source};
use std::alloc::Global;
use std::marker::Model;

/// A source of bytes that lie in memory. It never fails.
#[derive(Debug, Drop)]
pub struct MemorySource<'a> {
    rest: &'a [u8],
}

impl<'a> Model for MemorySource<'a> {
    ghost use Rattle.std.specs.Prelude.{ℕ, List, length, ◌≤◌, ◌^◌};

    ghost Value = { List ℕ };

    ghost view = { λ source. source.rest.now };

    ghost invariant = { λ source. length source.rest.now ≤ 2 ^ 40 };
}

impl<'a> MemorySource<'a> {
    /// A source of these bytes.
    pub fn new(bytes: &'a [u8]) -> MemorySource<'a>
        requires { length bytes.now ≤ 2 ^ 40 }
        ensures { result ≡ bytes.now }
    {
        MemorySource { rest: bytes }
    }
}

impl Source for MemorySource<'_> {
    ghost left = { λ source. Some source };

    ghost most_left = { λ source. length source };

    ghost failure_count = { λ _. 0 };

    fn read(&mut self, buffer: &mut [u8]) -> Result<usize, Failed> {
        let count = self.rest.len().min(buffer.len());
        let (given, rest) = self.rest.split_at(count);
        buffer[..count].copy_from_slice(given);
        self.rest = rest;
        Ok(count)
    }

    fn failures(&self) -> u64 {
        0
    }
}

/// A sink in memory. A call fails where memory is refused.
#[derive(Debug, Drop)]
pub struct MemorySink {
    bytes: Vec<u8>,
    failures: u64,
}

impl Model for MemorySink {
    ghost use Rattle.wire.specs.Device.{SinkView};

    ghost Value = { SinkView };

    ghost view = { λ sink. record { bytes = sink.bytes.items; failures = sink.failures } };
}

impl MemorySink {
    /// A sink that holds no bytes.
    pub fn new(alloc: Global) -> MemorySink
        ensures { result ≡ record { bytes = []; failures = 0 } }
    {
        MemorySink {
            bytes: Vec::new(alloc),
            failures: 0,
        }
    }

    /// The bytes that it was given.
    pub fn bytes(&self) -> &[u8]
        ensures { result.now ≡ self.now.bytes }
    {
        self.bytes.as_slice()
    }
}

impl Sink for MemorySink {
    ghost held = { λ sink. Some sink.bytes };

    ghost failure_count = { λ sink. sink.failures };

    fn write(&mut self, bytes: &[u8]) -> Result<usize, Failed> {
        match self.bytes.extend_from_slice(bytes) {
            Ok(()) => Ok(bytes.len()),
            Err(_) => {
                self.failures += 1;
                Err(Failed)
            }
        }
    }

    fn failures(&self) -> u64 {
        self.failures
    }
}
