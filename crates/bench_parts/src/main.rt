//! Measures single parts of xlb for `bench/run`: `bench_parts PART` prints the rows of a part. Fails at a word that names none.
#![tactic(auto)]

mod audit_times;
mod command_times;
mod frame_times;
mod job_times;
mod key_times;
mod scattered;
mod shard_times;
mod thread_times;

use anyhow::{Error, bail};
use std::env;

fn main(rt: HostRuntime) -> Result<(), Error> {
    for word in env::args(&rt)?.skip(1) {
        match word.as_str() {
            "audit" => audit_times::measure_all(&rt)?,
            "control" => command_times::measure_all(&rt)?,
            "maps" => key_times::measure_all(&rt)?,
            "queues" => job_times::measure_all(&rt, rt.alloc())?,
            "shards" => shard_times::measure_all(&rt)?,
            "steer" => frame_times::measure_all(&rt)?,
            "threads" => thread_times::measure_all(&rt, rt.alloc())?,
            word => bail!("no part {word}"),
        }
    }
    Ok(())
}
