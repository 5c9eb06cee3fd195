//! How entries are written.

/// How the lines of entries are written.
#[derive(Clone, Copy, Debug, PartialEq, Eq)]
pub enum ContentsForm {
    /// Words with spaces between them.
    Words,
    /// A JSON object in a line of its own (RFC 8259).
    Json,
}
