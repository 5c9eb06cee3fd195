//! Files and the standard streams as devices, whose bytes contracts do not know.

ghost use Rattle.std.specs.Prelude.{◌≡◌, ◌+◌, ◌-◌, ◌^◌, ◌<◌, ◌≤◌, None, length, IfOk, OnOk, OnErr};
ghost use Rattle.std.specs.Io.KnownBytes.{ReadConsumes, WriteAppends};

use crate::device::{Failed, Sink, Source};
use std::io::{Read, Write};

/// The most bytes that a source or a file gives.
pub const MOST_GIVEN: u64 = 1 << 40;

/// The failures of a new device.
const NO_FAILURES: u64 = 0;

/// A source of what a reader returns: a file or the standard input.
///
/// A call fails where the reader does, and once it could give more than 2^40 bytes in all.
#[derive(Drop)]
pub struct StreamSource<R> {
    reader: R,
    given: u64,
    failures: u64,
    ghost bounded: { given ≤ 2 ^ 40 },
}

impl<R: Read> StreamSource<R> {
    /// A source over a reader that has given nothing, with no failures.
    pub fn new(reader: R) -> StreamSource<R>
        ensures reader { result.reader ≡ reader }
        ensures given { result.given ≡ 0 }
        ensures failures { result.failures ≡ 0 }
    {
        StreamSource {
            reader,
            given: 0,
            failures: NO_FAILURES,
        }
    }
}

impl<R: Read> Source for StreamSource<R> {
    ghost left = { λ _. None };

    ghost most_left = { λ source. 2 ^ 40 - source.given };

    ghost failure_count = { λ source. source.failures };

    fn read(&mut self, buffer: &mut [u8]) -> Result<usize, Failed>
        requires { self.old.failures < 2 ^ 64 - 1 }
        ensures within { IfOk result (λ count. count ≤ length buffer.new) }
        ensures given { IfOk result (λ count. self.new.given ≡ self.old.given + count) }
        ensures passed_on { ReadConsumes (R.remaining self.old.reader) (R.remaining self.new.reader) result buffer.new }
        ensures steady { OnOk result (self.new.failures ≡ self.old.failures) }
        ensures counted { OnErr result ((self.new.failures ≡ self.old.failures + 1) × (self.new.given ≡ self.old.given)) }
    {
        let most = MOST_GIVEN - self.given;
        if most >= buffer.len() as u64 {
            if let Ok(count) = self.reader.read(buffer) {
                self.given += count as u64;
                return Ok(count);
            }
        }
        self.failures += 1;
        Err(Failed)
    }

    fn failures(&self) -> u64 {
        self.failures
    }
}

/// A sink into a writer: a file, the standard output or the standard error.
///
/// A call fails where the writer does, and where it takes none of the bytes given.
#[derive(Drop)]
pub struct StreamSink<W> {
    writer: W,
    failures: u64,
}

impl<W: Write> StreamSink<W> {
    /// A sink over a writer, with no failures.
    pub fn new(writer: W) -> StreamSink<W>
        ensures writer { result.writer ≡ writer }
        ensures failures { result.failures ≡ 0 }
    {
        StreamSink {
            writer,
            failures: NO_FAILURES,
        }
    }
}

impl<W: Write> Sink for StreamSink<W> {
    ghost held = { λ _. None };

    ghost failure_count = { λ sink. sink.failures };

    fn write(&mut self, bytes: &[u8]) -> Result<usize, Failed>
        requires { self.old.failures < 2 ^ 64 - 1 }
        ensures within { IfOk result (λ count. count ≤ length bytes.now) }
        ensures progress { IfOk result (λ count. 0 < length bytes.now → 0 < count) }
        ensures passed_on { WriteAppends (W.contents self.old.writer) (W.contents self.new.writer) result bytes.now }
        ensures steady { OnOk result (self.new.failures ≡ self.old.failures) }
        ensures counted { OnErr result (self.new.failures ≡ self.old.failures + 1) }
    {
        if let Ok(count) = self.writer.write(bytes) {
            if count > 0 || bytes.is_empty() {
                return Ok(count);
            }
        }
        self.failures += 1;
        Err(Failed)
    }

    fn failures(&self) -> u64 {
        self.failures
    }
}
