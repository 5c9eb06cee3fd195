//! The actors of a replay: what the dispatcher hands to whom, what a worker, the controller and the reclaimer do for a job, and what is
//! accounted for of all that they did.
//!
//! Each actor but the dispatcher takes its jobs from a queue of its own (`rx_queues`), in order, until the job `End`; the dispatcher alone
//! puts jobs into all queues.
//!
//! | Actor | Its jobs | What it does for one |
//! |---|---|---|
//! | a worker (`worker`) | the numbers of the records of its flows | one run of the program on that frame (`runner`) |
//! | the controller (`controller`) | the numbers of the script's commands | the command's updates of the shared maps (`updates`) |
//! | the reclaimer (`reclaimer`) | notes | a round: one Reclaim of each hash and LRU shard |
//!
//! The dispatcher (`dispatch`) goes over the records in the capture's order. Before each record it hands over the commands that are due,
//! then the record, and after every 64 records a note. No command is handed over before as many records as its number were, and none is
//! left whose number has gone by: the methods that hand over require this of what was put before (`AreInTime`), so an order that breaks it
//! is refused where it is written. Behind the last record come the commands that are left; the reclaimer's last round is made without a note,
//! when all threads have ended (`Reclaiming::last_round`).
//!
//! Who calls a shard, and who puts or takes a job, needs a pass. It can't be copied, and knows what was done through it. An actor promises,
//! before its thread starts, that it takes its jobs to the end, and that it did each, unless memory was refused. A worker's runs are a
//! chain: each begins with the state that the one before it left, which is its pass to the shards.
//!
//! `specs/Accounted` says what is accounted for of a whole replay: each entry of each journal belongs to a run, to an update before the
//! first record, to a command or to a round, and each of these has its entries; the counts and the frames that are sent come from the
//! runs, in the capture's order (`account`). The crate `guarantees` says what follows, and `replay` brings all actors together.
#![tactic(auto)]

pub mod account;
pub mod actor;
pub mod controller;
pub mod dispatch;
mod fault;
pub mod first_updates;
mod outcome;
pub mod reclaimer;
mod records;
mod runner;
mod updates;
pub mod worker;

pub use account::Counts;
pub use actor::{Actor, ActorEnded};
pub use controller::{Commanded, Commander};
pub use dispatch::ROUND_EVERY;
pub use fault::ReplayFault;
pub use outcome::{Applied, Outcome, PieceOutcome, ToldEnd};
pub use reclaimer::Reclaiming;
pub use records::all_are_captured;
pub use runner::{FrameFate, Ran, RunEnd, Runner};
pub use updates::SharedUpdates;
