//! What each command of `xlb` does: images of eBPF programs checked, run on a frame, printed and assembled, captures replayed, journals
//! audited.
#![tactic(auto)]

mod backends_up;
mod captures;
mod clashes;
mod commands;
mod comparing;
mod end_maps;
mod fault;
mod fault_lines;
mod files;
mod hints;
mod in_pieces;
mod last_table;
pub mod laws;
mod left_out;
mod looking_back;
mod made_in_pieces;
mod next_records;
mod notes;
mod one_run;
mod parts;
mod present;
mod printable;
mod progress;
mod record_report;
mod records;
mod replays;
mod report;
mod sent_records;
mod serving;
mod shipping;
mod summing;
mod tables;
mod taking;
mod timed;

pub use fault::{Fault, Refusal};
pub use fault_lines::fault_line;
pub use progress::{NoProgress, Progress, TerminalProgress};
pub use serving::serve;
