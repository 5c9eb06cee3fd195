//! What an entry on a cell speaks of.

/// Some bytes of a cell.
#[derive(Clone, Copy, Debug, PartialEq, Eq)]
pub struct CellRange {
    /// The cell's id.
    pub cell: u64,
    /// Where the bytes begin in the cell's value.
    pub offset: u64,
    /// How many they are.
    pub size: u64,
}

/// What an atomic operation does: its immediate (RFC 9669, section 5.3), its operand, and, for compare-and-exchange alone, the number that
/// the old value is compared with.
#[derive(Clone, Copy, Debug, PartialEq, Eq)]
pub struct AtomicChange {
    // `op` is between the other two: were they neighbours, both would be copied by one wide load right after two narrow stores, for which an older
    // processor waits.
    pub value: u64,
    pub op: u64,
    pub expected: u64,
}
