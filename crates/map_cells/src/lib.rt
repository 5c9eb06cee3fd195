//! The cells that hold a map's values: found by ids that are never given again, in places that are used again.
#![tactic(auto)]

pub mod blocks;
pub mod id_places;
pub mod retired;
pub mod table;

pub use retired::Retired;
pub use table::Cells;
