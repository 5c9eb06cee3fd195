//! Replays of captures: workers on threads run an accepted program over shared maps, beside a controller and a reclaimer, and
//! everything is accounted for.
//!
//! # Threads
//!
//! A replay has one thread for each worker, one for the controller and one for the reclaimer; the crate `actors` says what each does for a
//! job. The thread that called [`replay`] is the dispatcher. The updates that a replay begins with, and then the commands of frame 0, are
//! applied before the threads start (`setting`). So a command acts no earlier than it is handed over, but while workers still have jobs of
//! their queues: some frames before it may be run after it. An exact replay ([`replay_in_turn`]) has no threads: on the calling thread it
//! makes each record's run, each command and each round in turn. Its capture may also come in pieces ([`PieceReplay`]).
//!
//! # Why all is accounted for
//!
//! The dispatcher owns the pass that puts into all queues; each thread owns the pass that takes from its queue, and a pass to the shards
//! that has its number. A thread gives both back when it ends. The passes to the shards are dealt before the threads start (`setting`) and
//! gathered after them (`closing`). What was put is known to the dispatcher's pass, and what was taken to the taker's; they are compared
//! when the thread has ended (`crew`, `actors::actor`): what was taken in order is a beginning of what was put, and both have one `End` and
//! it is the last. So both are the same list, and each record was run by the worker of its flow, once and in order; each command applied
//! once, in the script's order; each note answered by a round. Where memory was refused to a thread, the replay fails with 52.
//!
//! When all threads have ended the reclaimer's last round is made, behind all that the passes did so far, and then the shards are closed with
//! all passes (`closing`). Then each history is whole, and the own entries of each pass are all of its caller's in it. So what the actors
//! did is all that happened (`IsAccounted` of `actors`), and by the laws of `guarantees` it is one list of events of the system.
//!
//! Nothing here depends on how the threads are scheduled. That they end is not proved: each waits for its queue. Every way out of
//! `threads` puts an `End` into the queue of each thread that was started and joins it, also where another could not be started.
#![tactic(auto)]

mod closing;
mod crew;
mod in_pieces;
pub mod laws;
mod replaying;
mod setting;
mod single_thread;
mod threads;
mod turn_shards;

pub use actors::first_updates::{Unset, set_first};
pub use actors::{
    Actor, ActorEnded, Applied, Commanded, Commander, Counts, FrameFate, Outcome, PieceOutcome,
    ROUND_EVERY, Ran, Reclaiming, ReplayFault, RunEnd, Runner, SharedUpdates, ToldEnd,
};
pub use crew::Handled;
pub use in_pieces::PieceReplay;
pub use replaying::replay;
pub use shard_port::{Gate, NoGate};
pub use single_thread::replay_in_turn;
pub use threads::{Abandoned, AllEnded, Setting, run_all};
