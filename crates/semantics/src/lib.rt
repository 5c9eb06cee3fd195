//! The written meaning of a run and of a map: what the verifier, the maps and the machine are held to.
#![tactic(auto)]

pub mod bytes;
pub mod call;
pub mod facts;
mod full;
pub mod laws;
pub mod linux;
pub mod little_endian;
pub mod options;
pub mod plan;
pub mod verdict;

pub use bytes::{Key, Value};
pub use call::{Call, Caller, CellRef, Entry, HeldChange, Reply, SectionChange};
pub use full::JournalFull;
pub use linux::{ContextField, Errno, Helper, UpdateFlags};
pub use options::{LEAST_ENTRIES, MOST_ENTRIES, MOST_WORKERS, Options, Recording};
pub use plan::{PresentKey, RetiredCell, ShardPlan};
pub use verdict::Verdict;
