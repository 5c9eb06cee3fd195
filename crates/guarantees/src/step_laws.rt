//! That steps and runs of the system say something: what can come next, what cannot, and that a run of the system is its program's trace.

ghost use Rattle.guarantees.specs.AloneRow.{AloneRow};
ghost use Rattle.guarantees.specs.Moves.{StepsAreMoves};
ghost use Rattle.guarantees.specs.ReplayRows.{ReplayRows};
ghost use Rattle.guarantees.specs.RunRows.{RunRows};
ghost use Rattle.guarantees.specs.SafeRow.{SafeRow};
ghost use Rattle.guarantees.specs.StepLaws.{StepsAreListed, MovesLeadToOne, RunsAreTraces, RunsHaveOneOutcome};

use crate::{runs_alone_are_of_the_system, stopped_runs_alone_are_of_the_system};
use verifier::laws::accepted_is_safe;

/// Each step is an event that can happen, and leads to what the step says, in every state of the system in which its worker is where the
/// step begins and the shard gives the step's reply.
pub fn steps_are_moves()
    ensures { StepsAreMoves }
{}

/// What can come next is listed. An idle worker begins a run. A run whose next instruction calls nothing does that instruction. One that
/// calls a shard which it has entered is served, with some reply, or refused; one that it has not entered it enters, or its Enter is
/// refused. A worker whose run is over leaves one of the shards that it entered. One move leads to one state.
pub fn steps_are_listed()
    ensures listed { StepsAreListed }
    ensures one { MovesLeadToOne }
{}

/// A run of the system is the trace of its program on its frame, at its time and with the worker's number that it was given, on replies of
/// the calls' form that are, session by session, among its worker's own entries: what `run_frame` ensures of a run's calls and replies.
pub fn runs_are_traces()
    ensures { RunsAreTraces }
{}

/// Two runs on one frame at one moment that wrote the same have one verdict and one last state. So with another verdict, another last frame
/// or another number of instructions it is no run of the system.
pub fn runs_have_one_outcome()
    ensures { RunsHaveOneOutcome }
{}

/// One run of the system, computed: its program's verdict is the sum of the frame's last byte and a number in a map. With another verdict
/// or another last state it is no run; with the same verdict it is none on a frame with another last byte, nor without its Load, nor
/// without all of its entries. And one run that a full journal stopped.
pub fn runs_are_computed()
    ensures { RunRows }
{}

/// The program of that run, computed: the image format encodes it, there are entry states that let it through, so that `verify` accepts it,
/// it only reads, and it is safe. So what the laws on accepted programs, on safe images and on readers ask for can be met.
pub fn a_safe_program_is_computed()
    ensures { SafeRow }
{
    accepted_is_safe();
}

/// Two runs alone, computed: one behind an update that sets the map's number, and one behind 14 updates, which enters the shard and meets a
/// full journal with its first call. Their journals are legal, and each is one list of events with its updates. So what
/// `runs_alone_are_of_the_system` and `stopped_runs_alone_are_of_the_system` ask for can be met.
pub fn runs_alone_are_computed()
    ensures { AloneRow }
{
    runs_alone_are_of_the_system();
    stopped_runs_alone_are_of_the_system();
}

/// Three replays as lists of events, computed: in one a command takes a key away while a run holds its cell, in the second a journal is full
/// for a run, an update and a round, in the third a command comes before the first record. And what is none: a list without the run, or with
/// the run twice; one whose run ends with another verdict, frame or number of instructions; a report with other numbers; a list in which the
/// update, or a command of frame 0, comes behind the beginning of a run; one without a call of the command, or with a call or a look at a
/// full journal that nobody asked. The third comes turn by turn; a list does not where a command comes within a run, or a round in front of
/// a run's last Leave.
pub fn replays_are_computed()
    ensures { ReplayRows }
{}
