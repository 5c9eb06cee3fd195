//! The text form as people write it: with comments, labels, hexadecimal numbers and helpers' names.
#![tactic(auto)]

mod assembling;
mod beginning;
mod explaining;
pub mod fault;
mod images;
mod labels;
mod lines;
mod meaning;
mod numbers;
mod operands;
mod printing;
mod slips;
mod slot_notes;
mod words;

pub use assembling::assemble_source;
pub use beginning::begins_as_source;
pub use explaining::explain;
pub use fault::{Problem, SourceFault};
pub use meaning::exact_text;
pub use printing::source;
pub use slot_notes::slot_note;
