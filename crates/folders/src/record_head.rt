//! What the head of a record says.

/// What the head of a record at the front of the unread bytes says.
#[derive(Clone, Copy, Debug, PartialEq, Eq)]
pub struct RecordHead {
    /// Seconds since the start of 1970.
    pub seconds: u32,
    /// Microseconds past the second.
    pub micros: u32,
    /// How many bytes of the frame the record keeps.
    pub kept: usize,
    /// Whether the frame had more.
    pub is_cut: bool,
}
