//! Devices that give or take bytes, and may fail at any call.

ghost use Rattle.std.specs.Prelude.{◌≡◌, ℕ, ◌+◌, ◌-◌, ◌^◌, ◌<◌, ◌≤◌, List, Option, length, take, IfOk, OnOk, OnErr};
ghost use Rattle.std.specs.Io.KnownBytes.{append_known, prepend_known, IsAtEnd};

use thiserror::Error;

/// A call of a device failed.
#[derive(Clone, Copy, Debug, PartialEq, Eq, Error)]
#[error("the device failed")]
pub struct Failed;

/// A device that returns bytes: a file, a stream or memory. It returns at most 2^40 in all.
pub trait Source {
    /// The bytes that it has left, or `None` for a type whose bytes contracts do not know.
    ghost left: { Self → Option (List ℕ) };

    /// No more bytes than these are still to come.
    ghost most_left: { Self → ℕ };

    /// How many calls failed.
    ghost failure_count: { Self → ℕ };

    /// Fills a front of the buffer with the next bytes, and says how many: none at the end.
    ///
    /// After a failure the device has left what it had before.
    fn read(&mut self, buffer: &mut [u8]) -> Result<usize, Failed>
        requires { failure_count self.old < 2 ^ 64 - 1 }
        ensures within { IfOk result (λ count. count ≤ length buffer.new) }
        ensures front { IfOk result (λ count. left self.old ≡ prepend_known (take count buffer.new) (left self.new)) }
        ensures end { IfOk result (λ count. count ≡ 0 → 0 < length buffer.new → IsAtEnd (left self.new)) }
        ensures fewer { IfOk result (λ count. most_left self.new + count ≤ most_left self.old) }
        ensures bounded { most_left self.old ≤ 2 ^ 40 }
        ensures steady { OnOk result (failure_count self.new ≡ failure_count self.old) }
        ensures refused_unchanged { OnErr result (left self.new ≡ left self.old) }
        ensures counted { OnErr result (failure_count self.new ≡ failure_count self.old + 1) };

    /// How many calls of this device failed so far.
    fn failures(&self) -> u64
        ensures { result ≡ failure_count self.now };
}

/// A device that takes bytes: a file, a stream or memory.
pub trait Sink {
    /// The bytes that it holds, or `None` for a type whose bytes contracts do not know.
    ghost held: { Self → Option (List ℕ) };

    /// How many calls failed.
    ghost failure_count: { Self → ℕ };

    /// Takes a front of the bytes, at least one where some are given, and says how many.
    ///
    /// After a failure the device holds what it held before.
    fn write(&mut self, bytes: &[u8]) -> Result<usize, Failed>
        requires { failure_count self.old < 2 ^ 64 - 1 }
        ensures within { IfOk result (λ count. count ≤ length bytes.now) }
        ensures progress { IfOk result (λ count. 0 < length bytes.now → 0 < count) }
        ensures front { IfOk result (λ count. held self.new ≡ append_known (held self.old) (take count bytes.now)) }
        ensures steady { OnOk result (failure_count self.new ≡ failure_count self.old) }
        ensures refused_unchanged { OnErr result (held self.new ≡ held self.old) }
        ensures counted { OnErr result (failure_count self.new ≡ failure_count self.old + 1) };

    /// How many calls of this device failed so far.
    fn failures(&self) -> u64
        ensures { result ≡ failure_count self.now };
}
