//! What a test or a call says of all copies of a pointer at once.

/// A fact about every register and spilled word whose kind has an id.
#[derive(Clone, Copy, Debug, PartialEq, Eq)]
pub enum Fact {
    /// Nothing new.
    Nothing,
    /// What the lookup of this id returned is 0, or isn't.
    Null { id: u16, is_null: bool },
    /// This many bytes from the base of this id lie in the packet.
    Range { id: u16, range: u32 },
    /// The packet's start was moved: no pointer to it may be used any more.
    HeadMoved,
}
