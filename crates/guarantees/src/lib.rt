//! The guarantees of xlb that are composed of several calls. Each is a law: the contract of a function that does nothing, composed from
//! what the public calls of the crates below ensure. What a single call promises by itself is that call's contract; docs/GUARANTEES.md
//! says where.
//!
//! The headline comes first. Its record has two fields (`specs/Headline.antt`): the image is safe, and the replay is one list of events of the
//! system, in the words of the model alone (`Replay` and `Events` of crates/semantics/specs). The law `headline` says that every replay that
//! accounts for its records keeps it, by this account (`specs/HeadlineOf.antt`); the calls of the crate `replay` have both as clauses.
//! `scripts/statement NAME` prints what each rests on, in the order of reading:
//!
//! | Definition | Files | Definitions | Lines |
//! |---|---|---|---|
//! | `IsReplay` | 32 | 327 | 1,292 |
//! | `Headline` | 55 | 440 | 1,702 |
//! | `HeadlineOf` | 82 | 617 | 2,442 |
//!
//! The laws of `step_laws` show that the definitions are not empty, those of `place_laws` that a worker is inside and holds a cell by places
//! in the history alone. `one_caller` speaks of runs one after the other without locks, `readers` of programs that only read.
#![tactic(auto)]

mod lone_runs;
pub mod one_caller;
pub mod place_laws;
pub mod readers;
pub mod running;
pub mod sharing;
pub mod step_laws;

ghost use Rattle.semantics.specs.Safety.{IsSafeImage};
ghost use Rattle.guarantees.specs.HeadlineOf.{ReplaysKeepHeadline};
ghost use Rattle.guarantees.specs.TurnByTurn.{ReplaysInTurnsAreListed};
ghost use Rattle.guarantees.specs.Guarantees.{EntriesAreSteps, EntriesAreAnswered};
ghost use Rattle.guarantees.specs.SystemLaws.{RunsAreOfTheSystem, StoppedRunsAreOfTheSystem};
ghost use Rattle.guarantees.specs.Merging.{OneOrderIsOneList, OneWorkerIsOneList};
ghost use Rattle.guarantees.specs.InParts.{OrdersInPartsAreListsInParts};
ghost use Rattle.guarantees.specs.RunsAlone.{RunsAloneAreOfTheSystem, StoppedRunsAloneAreOfTheSystem};

pub use lone_runs::lone_run;
pub use one_caller::{
    opened_shards_are_ready, runs_are_their_meaning, runs_leave_others_alone,
    stopped_runs_are_beginnings,
};
pub use readers::{
    quiet_shards_are_as_opened, readers_only_read, readers_run_the_same, readers_send_as_at_opening,
};
use verifier::Verified;
use verifier::laws::accepted_is_safe;

/// **The headline**, of a verified image and of a replay that accounts for its records. The image is safe: whatever frames arrive and
/// however the shared steps of workers, controller and reclaimer interleave, no run traps, and each ends within as many instructions as the
/// image has slots. And the replay is one list of events of the system, which can all happen, one after the other, from the opening on.
/// Worker by worker it begins a run on each record of the worker's share, in the capture's order, at the record's moment, and nothing else.
/// Its controller makes first the updates and then the calls of the script's commands, in the script's order over all shards, and its
/// reclaimer its rounds; before all else come the updates and the calls of the commands of frame 0. Calls that met a full journal are among
/// these, and there are no others. What is handed back comes of this list: how
/// each run ends (its verdict and its number of instructions, or that a full journal stopped it), the numbers of the report, the frames that
/// are sent, the answers to the controller's calls, by which commands are refused, and the journals.
///
/// The list is that of what is accounted for (`same_events`): worker by worker its events are the steps of the runs, from idle to idle, each
/// run's calls, verdict, frame and number of instructions are the run trace on its replies, or, where a full journal stopped it, a beginning
/// of that; each reply is the one-thread map's at the entry's own place; and the entries are written in the one order of all deeds. It ends
/// with the reclaimer's last round, behind which nothing is written (`closes`).
pub fn headline(verified: &Verified)
    ensures { ReplaysKeepHeadline verified.now }
{
    accepted_images_are_safe(verified);
    runs_are_of_the_system();
    stopped_runs_are_of_the_system();
}

/// The headline of a replay that was made turn by turn: where what was done in each turn is known (the updates of a command, the deeds of the
/// run of a record, one round), there is such a list that comes in the same turns. Behind the updates come, turn after turn, the calls of
/// the command, the whole of the record's run, from its beginning to its last Leave, or a round, those that write nothing too; and between
/// two turns every worker is idle.
pub fn replays_in_turns_are_listed(verified: &Verified)
    ensures { ReplaysInTurnsAreListed verified.now }
{
    accepted_images_are_safe(verified);
    runs_are_of_the_system();
    stopped_runs_are_of_the_system();
}

/// The image of a `Verified` is safe: for all options with which its maps can be opened and after any list of events of all
/// actors, no run's next instruction traps, and each run that goes on has done fewer instructions than the image has slots.
pub fn accepted_images_are_safe(verified: &Verified)
    ensures { IsSafeImage verified.now.maps verified.now.code }
{
    accepted_is_safe();
    let _ = verified.image();
    verified.encodable();
}

/// A run over shards that other threads call meanwhile is a list of its worker's steps in the system of all workers, from idle to idle.
/// Where `run` ensures a trace that ends, on replies of their calls' form that are in the port's sessions: the worker begins its run on
/// the frame; each step leads from where the one before it left the worker; the last instruction ends the run with this verdict and
/// state; then the worker leaves every shard that it entered. What these steps write on each shard is what the worker's own entries there
/// have more, and what they do over all shards, in order, is what the pass has done more. The shards are left in rising order.
pub fn runs_are_of_the_system()
    ensures { RunsAreOfTheSystem }
{}

/// The same of a run that a full journal stopped: its worker's steps lead to the state in which the run waits for the reply to its next
/// call; the step in which it asks meets a full journal, for the call or for the Enter before it; then the worker leaves every shard that
/// it entered.
pub fn stopped_runs_are_of_the_system()
    ensures { StoppedRunsAreOfTheSystem }
{}

/// Each entry of a legal journal is a call that its caller could make there, and its reply is that of the one-thread map in the state
/// that the entries before it lead to.
pub fn entries_are_steps()
    ensures { EntriesAreSteps }
{}

/// Each entry of a legal journal has its answer: where the history of the shard is what comes before the entry, the journal has room for
/// the call, and the reply is the one-thread map's. So at the entries' own places the steps of `runs_are_of_the_system` can happen.
pub fn entries_are_answered()
    ensures { EntriesAreAnswered }
{}

/// One order of what all callers did makes one list of events. If a list of entries, and of looks at full journals, is shard by shard the
/// shard's legal journal and worker by worker what that worker did, each look met a full journal, and each worker's own steps lead from
/// idle to idle, then one list of events of the system can all happen from the opening on; it has each worker's own events in their order;
/// after it the histories are the journals, and every worker is idle. Whether a look by the controller or the reclaimer is an event is not
/// said here; in a replay's list it is one (`headline`).
pub fn one_order_is_one_list()
    ensures { OneOrderIsOneList }
{}

/// Where that order comes in parts, each of one caller, and a worker's from idle to idle, the list comes in the same parts: the events of the
/// parts, one part behind the other, can all happen from the opening on, those that write nothing too, and behind each part every worker
/// is idle. (The list of `one_order_is_one_list` leaves open where the events stand that write nothing.) After it the histories are the journals.
pub fn orders_in_parts_are_lists_in_parts()
    ensures { OrdersInPartsAreListsInParts }
{}

/// One worker behind what the controller set: these entries and then the worker's steps from idle to idle, one run after the other, are one
/// list of events of the system, where they are a legal journal of each shard and no call of the worker met a full journal (`NoneRefused`).
/// For one worker, what `one_order_is_one_list` asks for comes to that.
pub fn one_worker_is_one_list()
    ensures { OneWorkerIsOneList }
{
    one_order_is_one_list();
}

/// A run by `run_alone` that ended is one list of events of the system, where the worker is one of the options, and the frame and the updates
/// fit: the controller's updates first, each answered 0; then the worker's run, begun on the frame at its moment, which ends with this
/// verdict, frame and number of instructions; and nothing else. They can all happen, from the opening on, and lead to these journals and
/// idle workers. It is said with the definitions that say what a replay is, but no round of the reclaimer follows a run alone.
pub fn runs_alone_are_of_the_system()
    ensures { RunsAloneAreOfTheSystem }
{}

/// And so is one that a full journal stopped: its last step asks that shard, for the call or for the Enter before it, and then the worker
/// leaves the shards that it entered.
pub fn stopped_runs_alone_are_of_the_system()
    ensures { StoppedRunsAloneAreOfTheSystem }
{}
