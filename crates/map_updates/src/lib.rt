//! Values that a controller sets in maps: what three words say of one, and which maps take it.
#![tactic(auto)]

mod misfit;
mod reading;
mod update;

pub use misfit::{Misfit, first_misfit, misfit_of};
pub use reading::{Mistake, update_of};
pub use update::MapUpdate;
