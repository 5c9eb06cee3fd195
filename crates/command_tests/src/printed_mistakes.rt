//! What is said of each mistake.

mod files;
mod replays;
mod scripts;
