//! Cells that wait for their readers.

/// A cell whose key is gone, and the stamp of that retirement. It may be freed once every run inside entered after it.
#[derive(Clone, Copy, Debug, PartialEq, Eq)]
pub struct Retired {
    /// The cell's id.
    pub id: u64,
    /// The retirement's stamp.
    pub stamp: u64,
}
