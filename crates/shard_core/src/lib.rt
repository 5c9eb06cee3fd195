//! One shard of a map, with the journal of its calls: each call is one step and one entry. No lock, no handle.
//!
//! # Retirement and reclamation
//!
//! A worker that looked a key up holds the key's cell until its Leave, and reads and writes its bytes through a handle. Meanwhile the
//! controller may delete the key, or a new key may evict it. So a cell that loses its key is not freed at once: it is *retired*, and
//! stamped with the present *epoch*, which the retirement ends (`contents`, `map_cells`). Its bytes stay, and no new key gets it.
//!
//! For each worker inside, the shard keeps the epoch of the worker's Enter, and counts the workers of each epoch (`readers`, `epochs`). A
//! worker that entered after a retirement cannot have looked the cell up, because the key was gone by then. So a retired cell is free for
//! use where every worker inside entered later: where its stamp is below the *floor*, the oldest epoch that has a worker inside. A Reclaim
//! frees exactly these cells. With no worker inside the floor is the present epoch, which is above every stamp.
//!
//! Two things follow. A held cell is never freed: its holder's Enter is older than the retirement. And nothing is lost: when the workers
//! that were inside have left, the next Reclaim frees the cell. Each key of a hash or LRU map has two cells, so that one may wait for its
//! readers while the other is in use; where both wait, a new key is answered -12 until a Reclaim.
//!
//! The definitions (`semantics`) know no places that are used again: there a cell has an id, the number of its creation, and what may be
//! freed is read off the history. `specs/ShardFields` ties the fields to them, and `of_its_cell` says that a load by a held id returns the
//! bytes of that very cell.
#![tactic(auto)]

mod apply;
mod asked;
mod closing;
mod contents;
pub mod keys;
pub mod laws;
pub mod listing;
mod ranges;
pub mod readers;
pub mod shard;

pub use journal::{AtomicChange, CellRange, Journal};
pub use semantics::{
    Call, Caller, CellRef, Entry, JournalFull, Key, Options, Reply, ShardPlan, Value,
};
pub use shard::Shard;
