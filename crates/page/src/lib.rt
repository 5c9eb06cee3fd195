//! A page of HTML that shows what a report of a replay says: frames over time, frames by backend, and flows that moved.
#![tactic(auto)]

mod cases;
mod charts;
mod commands;
mod halves;
mod html;
mod labels;
mod named;
mod reading;
mod reasons;
mod shares;
mod stamps;
mod svg;
mod tables;
mod tallies;
#[cfg(test)]
mod tests;
mod whole;

pub use whole::whole_page;
