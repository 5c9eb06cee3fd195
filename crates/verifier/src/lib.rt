//! The verifier: which images may run.
#![tactic(auto)]

mod advance;
mod keeping;
pub mod laws;
mod op;
mod pending;
mod reader;
mod reject;
pub mod resolved;
pub mod survey;
mod sweep;
mod verified;

pub use op::Op;
pub use reject::Reject;
pub use resolved::{Memory, Resolved};
pub use survey::{Survey, survey_of};
pub use verified::{Verified, verify};
