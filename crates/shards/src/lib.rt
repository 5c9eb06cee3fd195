//! The shards of an image's maps: those of a single caller (`PlainShards`), and those that many threads call, behind a lock each, with
//! passes, which know what their callers did and saw.
#![tactic(auto)]

mod asks;
mod closing;
mod dealer;
mod deeds;
mod first;
mod guarded_shard;
mod held;
mod item;
pub mod laws;
mod lock;
mod lock_key;
pub mod map_contents;
mod naming;
mod new_shard;
mod opening;
mod order;
mod order_rule;
mod pass;
mod pass_fault;
pub mod plain_opening;
pub mod plain_shards;
mod rule;
mod shard_pass;
mod shard_room;
mod sharing;
mod showing;
mod stopped;
mod waiting;

pub use asks::{
    Ask, Calls, Changes, Deletes, Enters, Leaves, Loads, Looks, Reclaims, Stores, Updates,
};
pub use dealer::Dealer;
pub use deeds::Deed;
pub use first::First;
pub use map_rules::OpenFault;
pub use naming::Naming;
pub use opening::Opened;
pub use pass::Pass;
pub use pass_fault::PassFault;
pub use plain_shards::{PlainShards, copied, maps_of};
pub use shard_core::{
    Call, Caller, CellRef, Entry, JournalFull, Key, Options, Reply, Shard, ShardPlan, Value,
};
pub use sharing::Shards;
pub use stopped::Stopped;
