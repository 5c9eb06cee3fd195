//! Whether journals are ones that the one-thread map can have: each entry is made again, and its reply compared.
#![tactic(auto)]

mod auditing;
mod fault;
mod held_cells;
mod plans;
mod standings;

pub use auditing::audit;
pub use fault::AuditFault;
