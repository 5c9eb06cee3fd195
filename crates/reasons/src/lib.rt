//! Why a program is refused, and what is known along one that is accepted: for people.
#![tactic(auto)]

mod advice;
mod annotated;
mod cause;
mod explaining;
mod instruction;
mod origin;
mod reader;
mod refused;
mod wording;

pub use cause::Cause;
pub use explaining::explain;
pub use reader::{Reason, reasons_are_those};
