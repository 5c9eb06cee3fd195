//! Tests of the public calls of `test_support`, `map_cells`, `plain_maps`, `lru_maps`, `journal`, `shard_core`, `journals`,
//! `audit`, `shards` and `shard_port`.
#![tactic(auto)]

#[cfg(test)]
mod asserting;
#[cfg(test)]
mod audited_journals;
#[cfg(test)]
mod cell_places;
#[cfg(test)]
mod journal_rows;
#[cfg(test)]
mod keys_by_use;
#[cfg(test)]
mod lists_of_entries;
#[cfg(test)]
mod one_shard;
#[cfg(test)]
mod one_thread_rows;
#[cfg(test)]
mod plain_keys;
#[cfg(test)]
mod port_rows;
#[cfg(test)]
mod shards_of_images;
#[cfg(test)]
mod shared_passes;
