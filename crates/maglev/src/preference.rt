//! The order in which a backend prefers the slots of a table.

/// A backend's number and the head of its preference list: it prefers the slots
/// `offset`, `offset + skip`, `offset + 2 * skip` and so on, modulo the table's size.
#[derive(Clone, Copy, Debug, PartialEq, Eq)]
pub struct Preference {
    /// The number by which a ring names the backend.
    pub number: u32,
    /// The slot that it prefers to all others.
    pub offset: u32,
    /// How far one preferred slot is from the one before.
    pub skip: u32,
}
