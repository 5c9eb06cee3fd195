//! Tests of the public calls of `wire`, `journals`, `runs`, `rx_queues`, `maglev`, `ipip`, `conntrack`, `control`, `steer`, `replay` and
//! `guarantees`.
#![tactic(auto)]

#[cfg(test)]
mod acting;
#[cfg(test)]
mod asserting;
#[cfg(test)]
mod captures;
#[cfg(test)]
mod commands;
#[cfg(test)]
mod crews;
#[cfg(test)]
mod datagrams;
#[cfg(test)]
mod frame_rows;
#[cfg(test)]
mod guaranteed;
#[cfg(test)]
mod journals_in_files;
#[cfg(test)]
mod lookup_tables;
#[cfg(test)]
mod receive_queues;
#[cfg(test)]
mod replays;
#[cfg(test)]
mod single_runs;
#[cfg(test)]
mod steered_frames;
#[cfg(test)]
mod steering;
#[cfg(test)]
mod tunnels;
