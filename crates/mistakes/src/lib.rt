//! What is wrong with a file, or with options, that a command refused, in lines for people: where, what was expected, and what to write in
//! its place. And what is printed of a fault.
#![tactic(auto)]

mod captures;
mod frames;
mod histories;
mod images;
mod kinds;
mod map_lines;
mod namesakes;
mod notes;
mod openings;
mod quoting;
mod scripts;
mod spacing;
mod words;

pub use captures::about_capture;
pub use frames::{about_frame, about_text_as_frame};
pub use histories::{about_entry, about_journals};
pub use images::{about_image, about_map};
pub use map_lines::about_map_line;
pub use namesakes::explained;
pub use openings::{about_flows, about_options, about_ring, about_worker};
pub use scripts::about_script;
