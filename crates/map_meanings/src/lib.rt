//! What the entries of the maps of steering mean: a service, the backend of a flow or of a slot, a backend's share, a verdict's count.
#![tactic(auto)]

mod form;
mod meanings;
mod pieces;
mod tables;
#[cfg(test)]
mod tests;

pub use form::ContentsForm;
pub use tables::{Tables, backend_address, slot_word};
