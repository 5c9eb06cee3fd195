//! The flows of a replay's report: which were sent to another backend than before, and why.
#![tactic(auto)]

mod fault;
mod flow;
mod flow_list;
mod moves;
mod printing;
mod reading;
mod reason;
mod settings;
mod summary;
mod telling;
#[cfg(test)]
mod tests;

pub use fault::NoFlows;
pub use moves::{Move, how_many};
pub use reading::whole_report;
pub use reason::Reason;
pub use settings::address_text;
pub use telling::{Flows, flows_in, moved_frames};
