//! The numbers that a fault is printed with.

/// The numbers of a fault's fields, in the order in which its row of the table names them.
#[derive(Clone, Copy, Debug, PartialEq, Eq)]
pub enum Fields {
    /// It has none.
    Empty,
    One(u64),
    Two(u64, u64),
    /// One that may be below 0.
    Signed(i32),
}
