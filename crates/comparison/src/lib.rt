//! Two reports of replays compared: which records were treated differently, and how.
#![tactic(auto)]

mod changes;
pub mod columns;
mod comparing;
mod fault;
mod kinds;
mod mistakes;
mod printing;
mod rows;

pub use comparing::{Comparison, compare};
pub use fault::{NoRows, Unlike, Which};
pub use mistakes::{json_text, no_report_text, wrong_field_text};
pub use printing::{flow_phrase, flow_pieces};
pub use rows::{field, fields_between, head_line, parts_at, row_at, rows_in};
