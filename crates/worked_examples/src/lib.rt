//! Worked examples: each test shows one thing that xlb does, through a public call, with values that were worked out by hand
//! (docs/EXAMPLES.md lists them in order).
#![tactic(auto)]

#[cfg(test)]
mod asserting;
#[cfg(test)]
mod captures;
#[cfg(test)]
mod commands;
#[cfg(test)]
mod frames;
#[cfg(test)]
mod images;
#[cfg(test)]
mod maps;
#[cfg(test)]
mod numbers;
#[cfg(test)]
mod passes;
#[cfg(test)]
mod programs;
#[cfg(test)]
mod replays;
#[cfg(test)]
mod steering;
#[cfg(test)]
mod turns;
