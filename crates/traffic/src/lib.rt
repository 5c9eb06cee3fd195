//! What a capture holds and where a replay sent it, for people: frames by their kind, sent frames by their backend.
#![tactic(auto)]

mod applying;
mod backends;
mod choice;
mod counts;
mod flow_columns;
mod frame_tally;
mod kind;
pub mod laws;
mod moves;
mod not_sent;
mod printing;
mod record_line;
mod record_tally;
mod share_lines;
mod shares;
mod tables;
mod tunnels;
mod written_maps;

pub use applying::words_after;
pub use backends::Backends;
pub use choice::{Choice, choice_word};
pub use frame_tally::{FrameTally, summary};
pub use kind::FrameKind;
pub use moves::moved_places;
pub use not_sent::{NotSent, is_for};
pub use record_line::{LineVerdict, RecordLine, ReportForm, case_word};
pub use record_tally::{RecordTally, by_program, services};
pub use share_lines::last_shares;
pub use shares::{least_moves, moved_slots, share_of, shares_of};
pub use tables::{Refused, Tables, tables_of};
pub use tunnels::{Targets, target_of};
