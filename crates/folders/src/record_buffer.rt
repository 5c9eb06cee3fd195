//! Records whose memory is used again.

ghost use Rattle.std.specs.Prelude.{◌≡◌, ◌≤◌, ◌++◌, ◌∷◌, ◌==◌, [], length, OnOk, OnErr};
ghost use Rattle.wire.specs.declared.records.Sent.{Sent as Record};

use std::alloc::{AllocError, Global};
use std::marker::Model;
use std::mem;
use wire::{Capture, Sent};

/// The records of a piece of a capture. Those of the next piece use their memory again.
#[derive(Drop)]
pub struct RecordBuffer {
    capture: Capture,
    /// Records of the piece before, which are filled again.
    spare: Vec<Sent>,
}

impl Model for RecordBuffer {
    ghost use Rattle.std.specs.Prelude.{List};
    ghost use Rattle.wire.specs.declared.records.Sent.{Sent};

    ghost Value = { List Sent };

    ghost view = { λ buffer. buffer.capture.records.items };
}

impl RecordBuffer {
    /// A buffer with no records.
    pub fn new(alloc: Global) -> RecordBuffer
        ensures { result ≡ [] }
    {
        RecordBuffer {
            capture: Capture {
                records: Vec::new(alloc),
            },
            spare: Vec::new(alloc),
        }
    }

    /// The records.
    pub fn capture(&self) -> &Capture
        ensures { result.now.records.items ≡ self.now }
    {
        &self.capture
    }

    /// The records, without the memory of others.
    pub fn into_capture(self) -> Capture
        ensures { result.records.items ≡ self }
    {
        let RecordBuffer { capture, .. } = self;
        capture
    }

    /// How many records there are.
    pub fn len(&self) -> usize
        ensures { result ≡ length self.now }
    {
        self.capture.records.len()
    }

    /// Whether there are none.
    pub fn is_empty(&self) -> bool
        ensures { result ≡ (length self.now == 0) }
    {
        self.capture.records.is_empty()
    }

    /// Removes all records. Their memory is kept.
    pub fn clear(&mut self)
        ensures { self.new ≡ [] }
    {
        self.spare.clear();
        mem::swap(&mut self.spare, &mut self.capture.records);
    }

    /// Adds a record of this moment that keeps these bytes. It fails only for lack of memory; then the records are as they were.
    pub(crate) fn push(
        &mut self,
        alloc: Global,
        seconds: u32,
        micros: u32,
        frame: &[u8],
    ) -> Result<(), AllocError>
        requires { length frame.now ≤ 2048 }
        ensures added { OnOk result ((sent : Record) × (self.new ≡ self.old ++ sent ∷ [])
            × (sent.seconds ≡ seconds) × (sent.micros ≡ micros) × (sent.bytes.items ≡ frame.now)) }
        ensures refused { OnErr result (self.new ≡ self.old) }
    {
        let mut bytes = match self.spare.pop() {
            Some(sent) => sent.bytes,
            None => Vec::new(alloc),
        };
        bytes.clear();
        bytes.extend_from_slice(frame)?;
        self.capture.records.push(Sent {
            seconds,
            micros,
            bytes,
        })?;
        Ok(())
    }
}
