//! The shipped program: the steering rule as an image over the six maps.
#![tactic(auto)]

mod blocks;
mod image;
pub mod laws;
mod layout;
mod names;

pub use image::{shipped, shipped_with};
