//! What the tests of several crates use: the definitions of a map, run; instructions and programs; scripts and journals. The program runs
//! none of it.
#![tactic(auto)]

pub mod files;
mod instructions;
pub mod one_thread_map;
pub mod programs;
pub mod slow_devices;
