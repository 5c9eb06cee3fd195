//! What a verifier knows of a run at a slot: kinds of registers and of the stack, what instructions make of them, and what is
//! known where paths meet.
#![tactic(auto)]

mod access;
mod arithmetic;
mod broken_rule;
mod calls;
mod fact;
mod flow;
mod join;
mod kind;
pub mod laws;
mod paths;
mod places;
mod refinement;
mod site;
mod stack;
mod state;
mod tell;
mod transfer;

pub use broken_rule::BrokenRule;
pub use fact::Fact;
pub use flow::{Flow, Way};
pub use kind::{Kind, Offsets, StackWord};
pub use places::STACK_SIZE;
pub use site::Site;
pub use state::State;
