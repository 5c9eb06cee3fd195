//! The journals of all shards of an image's maps, as closing the shards gives them and an audit reads them; and as files: the text of
//! a header and of a line for each entry, written to a device and read from one.
#![tactic(auto)]

mod all;
mod call_row;
mod entry_list;
mod facts;
mod fault;
mod files;
mod parsing;
mod printing;
mod reading;
mod shard_journal;
mod verb;

pub use all::{Journals, Kept};
pub use entry_list::EntryList;
pub use fault::FileFault;
pub use files::{journals_of, read_journals, write_journals};
pub use shard_journal::ShardJournal;
