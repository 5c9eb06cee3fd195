//! Tests of the commands of `xlb` over files in memory, of such files, and of the texts that the commands print.
#![tactic(auto)]

#[cfg(test)]
mod asserting;
#[cfg(test)]
mod captures_in_pieces;
#[cfg(test)]
mod commands;
#[cfg(test)]
mod counted_traffic;
#[cfg(test)]
mod files_in_memory;
#[cfg(test)]
mod printed_mistakes;
