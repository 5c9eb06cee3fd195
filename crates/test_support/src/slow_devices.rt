//! Devices that take or give one byte at a time, and fail at one of their calls.

ghost use Rattle.std.specs.Prelude.{◌≡◌, ◌≤◌, ◌^◌, length, None};

use std::alloc::Global;
use wire::{Failed, Sink, Source};

/// A source that returns one byte at a time, and fails at one of its calls.
#[derive(Drop)]
pub struct SlowSource<'a> {
    rest: &'a [u8],
    calls: u64,
    fails_at: u64,
    failures: u64,
    ghost bounded: { length rest.now ≤ 2 ^ 40 },
}

impl<'a> SlowSource<'a> {
    /// A source of these bytes.
    pub fn new(bytes: &'a [u8], fails_at: u64) -> Self
        requires { length bytes.now ≤ 2 ^ 40 }
        ensures { result.failures ≡ 0 }
    {
        SlowSource {
            rest: bytes,
            calls: 0,
            fails_at,
            failures: 0,
        }
    }
}

impl Source for SlowSource<'_> {
    ghost left = { λ _. None };

    ghost most_left = { λ source. length source.rest.now };

    ghost failure_count = { λ source. source.failures };

    fn read(&mut self, buffer: &mut [u8]) -> Result<usize, Failed> {
        self.calls = self.calls.wrapping_add(1);
        if self.calls == self.fails_at {
            self.failures += 1;
            return Err(Failed);
        }
        match self.rest {
            [first, rest @ ..] => {
                if buffer.is_empty() {
                    return Ok(0);
                }
                buffer[0] = *first;
                self.rest = rest;
                Ok(1)
            }
            [] => Ok(0),
        }
    }

    fn failures(&self) -> u64 {
        self.failures
    }
}

/// A sink that takes one byte at a time, and fails at one of its calls.
#[derive(Drop)]
pub struct SlowSink {
    bytes: Vec<u8>,
    calls: u64,
    fails_at: u64,
    failures: u64,
}

impl SlowSink {
    /// An empty sink.
    pub fn new(alloc: Global, fails_at: u64) -> Self
        ensures { result.failures ≡ 0 }
    {
        SlowSink {
            bytes: Vec::new(alloc),
            calls: 0,
            fails_at,
            failures: 0,
        }
    }

    /// What it has taken.
    pub fn bytes(&self) -> &[u8] {
        &self.bytes
    }
}

impl Sink for SlowSink {
    ghost held = { λ _. None };

    ghost failure_count = { λ sink. sink.failures };

    fn write(&mut self, bytes: &[u8]) -> Result<usize, Failed> {
        self.calls = self.calls.wrapping_add(1);
        match bytes {
            [first, ..] => {
                if self.calls == self.fails_at || self.bytes.push(*first).is_err() {
                    self.failures += 1;
                    return Err(Failed);
                }
                Ok(1)
            }
            [] => Ok(0),
        }
    }

    fn failures(&self) -> u64 {
        self.failures
    }
}
