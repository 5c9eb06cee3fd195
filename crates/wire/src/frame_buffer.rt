//! An Ethernet frame in a buffer with free bytes before it.

ghost use Rattle.std.specs.Prelude.{◌≡◌, ℕ, ◌+◌, ◌-◌, ◌<◌, ◌≤◌, ◌↔◌, List, ◌∷◌, [], length, All, IfOk, IsOk, OnOk, OnErr, IsErrOf, true};
ghost use Rattle.wire.specs.FrameView.{FrameView, with_byte_at, with_bytes_at, grown_front, shrunk_front};

use std::alloc::{AllocError, Global};
use std::marker::Model;
use thiserror::Error;

/// The free bytes before a new frame.
const HEADROOM: usize = 256;

/// The most bytes that a new frame may have.
pub const MAX_FRAME: usize = 2048;

/// The fewest bytes of a frame: an Ethernet header.
pub const MIN_FRAME: usize = 14;

/// Why a frame was refused. docs/FAULTS.md says when each comes, in which order, and what it leaves.
#[derive(Clone, Copy, Debug, PartialEq, Eq, Error)]
pub enum FrameFault {
    /// 6: more than 2048 bytes.
    #[error("fault 6 FrameTooLong")]
    FrameTooLong,
    /// 8: memory was refused.
    #[error("fault 8 Memory")]
    Memory,
    /// 9: fewer than 14 bytes.
    #[error("fault 9 ShortFrame")]
    ShortFrame,
}

impl FrameFault {
    ghost use Rattle.faults.specs.Explanations.{is_fault};
    ghost use Rattle.wire.specs.FaultNumber.{frame_fault_number};

    /// The number that the fault's text prints.
    pub fn number(self) -> u8
        ensures number { result ≡ frame_fault_number self }
        ensures known { is_fault result ≡ true }
    {
        match self {
            FrameFault::FrameTooLong => 6,
            FrameFault::Memory => 8,
            FrameFault::ShortFrame => 9,
        }
    }
}

/// An Ethernet frame, and the free bytes (headroom) before it.
#[derive(Debug, Drop)]
pub struct Frame {
    buffer: Vec<u8>,
    start: usize,
}

impl Model for Frame {
    ghost use Rattle.std.specs.Prelude.{◌≤◌, length, drop};
    ghost use Rattle.wire.specs.FrameView.{FrameView};

    ghost Value = { FrameView };

    ghost view = { λ frame. record { bytes = drop frame.start frame.buffer.items; headroom = frame.start } };

    ghost invariant = { λ frame. (frame.start ≤ length frame.buffer.items) × (length frame.buffer.items ≤ 2304) ×
        (270 ≤ length frame.buffer.items) };
}

/// The same bytes, with what their type says of each.
fn with_byte_range(bytes: &[u8]) -> &[u8]
    ensures same { result.now ≡ bytes.now }
    ensures byte_range { All (λ byte. byte < 256) bytes.now }
{
    bytes
}

impl Frame {
    /// A frame of these bytes, with a headroom of 256.
    ///
    /// Takes all the memory that the frame will ever use.
    pub fn of(alloc: Global, bytes: &[u8]) -> Result<Frame, FrameFault>
        ensures frame { IfOk result (λ frame. frame ≡ record { bytes = bytes.now; headroom = 256 }) }
        ensures size { IsOk result → (14 ≤ length bytes.now) × (length bytes.now ≤ 2048) }
        ensures too_long { IsErrOf result FrameFault.FrameTooLong ↔ (2048 < length bytes.now) }
        ensures short { IsErrOf result FrameFault.ShortFrame ↔ (length bytes.now < 14) }
    {
        if bytes.len() > MAX_FRAME {
            return Err(FrameFault::FrameTooLong);
        }
        if bytes.len() < MIN_FRAME {
            return Err(FrameFault::ShortFrame);
        }
        let mut buffer = Vec::with_capacity(alloc, HEADROOM + bytes.len()).map_err(
            |_| FrameFault::Memory,
        )?;
        buffer
            .extend_from_slice(&[0; HEADROOM])
            .map_err(|_| FrameFault::Memory)?;
        buffer
            .extend_from_slice(bytes)
            .map_err(|_| FrameFault::Memory)?;
        Ok(Frame {
            buffer,
            start: HEADROOM,
        })
    }

    /// Makes it a frame of these bytes, with a headroom of 256, in the memory that it has, and in more where they don't fit there.
    ///
    /// Refused as [`Frame::of`] refuses; then the frame is as it was.
    pub fn refill(&mut self, bytes: &[u8]) -> Result<(), FrameFault>
        ensures frame { OnOk result (self.new ≡ record { bytes = bytes.now; headroom = 256 }) }
        ensures unchanged { OnErr result (self.new ≡ self.old) }
        ensures size { IsOk result → (14 ≤ length bytes.now) × (length bytes.now ≤ 2048) }
        ensures too_long { IsErrOf result FrameFault.FrameTooLong ↔ (2048 < length bytes.now) }
        ensures short { IsErrOf result FrameFault.ShortFrame ↔ (length bytes.now < 14) }
    {
        if bytes.len() > MAX_FRAME {
            return Err(FrameFault::FrameTooLong);
        }
        if bytes.len() < MIN_FRAME {
            return Err(FrameFault::ShortFrame);
        }
        let more = (HEADROOM + bytes.len()).saturating_sub(self.buffer.len());
        if self.buffer.reserve(more).is_err() {
            return Err(FrameFault::Memory);
        }
        self.buffer.truncate(HEADROOM);
        if self.buffer.extend_from_slice(bytes).is_err() {
            unreachable!();
        }
        self.start = HEADROOM;
        Ok(())
    }

    /// The bytes of the frame.
    pub fn bytes(&self) -> &[u8]
        ensures bytes { result.now ≡ self.now.bytes }
        ensures fits { self.now.headroom + length self.now.bytes ≤ 2304 }
        ensures byte_range { All (λ byte. byte < 256) self.now.bytes }
    {
        with_byte_range(&self.buffer[self.start..])
    }

    /// How many bytes the frame has: with all its headroom free, 14 to 2048.
    pub fn len(&self) -> usize
        ensures length { result ≡ length self.now.bytes }
        ensures fits { self.now.headroom + length self.now.bytes ≤ 2304 }
        ensures least { 270 ≤ self.now.headroom + length self.now.bytes }
    {
        self.buffer.len() - self.start
    }

    /// How many free bytes lie before the frame.
    pub fn room(&self) -> usize
        ensures headroom { result ≡ self.now.headroom }
        ensures fits { self.now.headroom + length self.now.bytes ≤ 2304 }
    {
        self.start
    }

    /// Writes one byte at an index of the frame.
    pub fn set(&mut self, at: usize, byte: u8)
        requires { at < length self.old.bytes }
        ensures { self.new ≡ with_byte_at at byte self.old }
    {
        self.buffer[self.start + at] = byte;
    }

    /// Writes the bytes over those from an index on.
    pub fn write(&mut self, at: usize, bytes: &[u8])
        requires { at + length bytes.now ≤ length self.old.bytes }
        ensures { self.new ≡ with_bytes_at at bytes.now self.old }
    {
        let from = self.start + at;
        self.buffer[from..from + bytes.len()].copy_from_slice(bytes);
    }

    /// Opens bytes before the frame, each zero, out of its headroom.
    pub fn grow_front(&mut self, count: usize)
        requires { count ≤ self.old.headroom }
        ensures { self.new ≡ grown_front count self.old }
    {
        let start = self.start - count;
        self.buffer[start..self.start].fill(0);
        self.start = start;
    }

    /// Drops bytes from the front of the frame, which become headroom.
    pub fn shrink_front(&mut self, count: usize)
        requires { count ≤ length self.old.bytes }
        ensures { self.new ≡ shrunk_front count self.old }
    {
        self.start += count;
    }
}
