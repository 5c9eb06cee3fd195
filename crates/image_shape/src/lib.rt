//! The structure of an image's program: where its jumps go, and whether all of it can be reached.
#![tactic(auto)]

mod edges;
pub mod fault;
mod laws;
mod layout;
mod reach;
mod shape;

pub use edges::falls_through;
pub use fault::ShapeFault;
pub use laws::{edges_go_up, one_answer, runs_follow_edges};
pub use shape::check_shape;
