//! Runs of workers one after the other, over shards without locks.

ghost use Rattle.guarantees.specs.Guarantees.{RunsAreTheirMeaning, StoppedRunsAreBeginnings, OpenedShardsAreReady, RunsLeaveOthersAlone};

use shard_port::laws::{
    finish_leaves, journals_after_a_refusal, journals_have_the_calls, leaves_others_alone,
    opened_are_outside, opened_serve, stays_one_port,
};

/// A worker's run: `PlainPort::over` makes its port over shards that it is not inside of, `run` ends, and `finish` leaves the shards.
/// Then verdict, frame and number of instructions are the trace of the program on some replies, which makes just the calls that
/// they answer, each of one of the shards and with a reply of its form; each shard's journal has these calls with these replies more, in
/// order, between one Enter and one Leave, and nothing where it was not asked; all journals are legal; and the worker is outside every
/// shard, so that the next run can begin.
pub fn runs_are_their_meaning()
    ensures { RunsAreTheirMeaning }
{
    journals_have_the_calls();
    stays_one_port();
    finish_leaves();
}

/// The same of a run that stopped because a shard's journal was full: its calls are those that the trace makes up to the refused one, and
/// they are in the journals. The refused call is in none; its shard's journal was full for it, or for the Enter before it, and may
/// have an Enter and a Leave with no call between. The frame is that of the state in which the run waits for the reply.
pub fn stopped_runs_are_beginnings()
    ensures { StoppedRunsAreBeginnings }
{
    journals_have_the_calls();
    journals_after_a_refusal();
    stays_one_port();
    finish_leaves();
}

/// Shards as `PlainShards::open` returns them serve their maps, their journals are legal, and nobody is inside: so what is said of runs
/// holds from the first one on.
pub fn opened_shards_are_ready()
    ensures { OpenedShardsAreReady }
{
    opened_serve();
    opened_are_outside();
}

/// A run leaves every other worker inside or outside each shard, as it was: so what is said of runs holds of several workers' runs, one
/// after the other over the same shards.
pub fn runs_leave_others_alone()
    ensures { RunsLeaveOthersAlone }
{
    runs_are_their_meaning();
    leaves_others_alone();
}
