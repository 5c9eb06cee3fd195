//! What maps hold after legal journals: a line for each key that is there then.
#![tactic(auto)]

mod fronts;
mod lines;
mod making;
mod told;

pub use fronts::front_numbers;
pub use lines::contents_text;
