//! Programs that call maps, run over shards.

mod addresses;
mod programs;
mod replays;
mod worker_runs;
