//! Runs of accepted images over shards: of a worker's frame over shards that many share (`run_frame`), over those of a single caller
//! (`plain_run`), and of one frame over shards of its own, after updates of their maps (`run_alone`).
#![tactic(auto)]

mod alone;
pub mod closing;
mod fault;
pub mod plain_run;
mod shard_runs;
mod updates;
mod worker_run;

pub use alone::{SingleRun, run_alone};
pub use fault::RunFault;
pub use worker_run::run_frame;
