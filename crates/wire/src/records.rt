//! Frames with the moments at which they were captured.

ghost use Rattle.std.specs.Prelude.{◌^◌, ◌<◌, ◌≤◌, length, All};

/// A frame and its moment. It has up to 2304 bytes.
#[derive(Debug, Drop)]
pub struct Sent {
    /// Seconds since the start of 1970.
    pub seconds: u32,
    /// Microseconds past the second.
    pub micros: u32,
    /// The bytes of the frame.
    pub bytes: Vec<u8>,
    pub ghost spellable: { (seconds < 2 ^ 32) × (micros < 2 ^ 32) × (length bytes.items ≤ 2304) },
}

/// The frames of a capture file. None has more than 2048 bytes.
#[derive(Debug, Drop)]
pub struct Capture {
    pub records: Vec<Sent>,
    pub ghost short: { All (λ sent. length sent.bytes.items ≤ 2048) records.items },
}
