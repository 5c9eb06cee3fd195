//! The program's command line: its commands with their words and help, and what a user's words say.
#![tactic(auto)]

mod commanded;
mod commands;
mod grammar;
mod help;
mod part_word;
mod words;

pub use commands::{
    DEFAULT_FLOWS, DEFAULT_RING, Reading, ReplayFiles, ReplaySettings, RunFiles, Settings,
};
pub use words::{WordsFault, settings};
