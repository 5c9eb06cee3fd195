//! Laws of replays, as contracts of functions that do nothing.

ghost use Rattle.replay.specs.EventsInTurns.{EventsComeInTurns};
ghost use Rattle.replay.specs.LaterTurns.{TurnsComeInOrder};
ghost use Rattle.replay.specs.OtherJournals.{JournalsChangeNothing};
ghost use Rattle.replay.specs.SameReplays.{ExactReplaysAgree, PiecesAgree};
ghost use Rattle.replay.specs.TurnsAccounted.{TurnsAreAccounted};

use guarantees::replays_in_turns_are_listed;
use shard_port::laws::{own_entries_after_a_refusal, own_entries_are_sessions};
use verifier::Verified;

/// A replay on one thread is accounted for as one on threads is: there is one order of all deeds, and each caller has its part of it, so
/// that each entry of each journal belongs to a run, to a command or to a round. And this order goes through the states of the turns: behind
/// the deeds of the updates come, turn after turn, those of the turn's actor alone, which write what the turn wrote.
pub fn turns_are_accounted()
    ensures { TurnsAreAccounted }
{
    own_entries_are_sessions();
    own_entries_after_a_refusal();
}

/// An exact replay of an image that was verified is one list of events of the system that comes turn by turn: behind the events of the updates
/// come, turn after turn, those of the turn alone. A command's are its calls, a record's the whole run of its worker on its frame, from its
/// beginning to its last Leave, and a round's one for each shard with retired cells. Those that write nothing are there too: what begins a
/// run, its instructions, and calls that met a full journal. Between two turns every worker is idle.
pub fn events_come_in_turns(verified: &Verified)
    ensures { EventsComeInTurns verified.now }
{
    own_entries_are_sessions();
    own_entries_after_a_refusal();
    replays_in_turns_are_listed(verified);
}

/// In the one order of an exact replay nothing that a later turn writes comes before anything that an earlier one writes, on any shard: an
/// entry that lies behind the journal that its shard has at the end of a turn is written when every shard has the whole of its journal of
/// then. So an order in which an update of a command comes before an entry of a record in front of the command is of no exact replay.
pub fn turns_come_in_order()
    ensures { TurnsComeInOrder }
{}

/// An exact replay is a function of its input: any two of one program, with the same options, updates and script, and with the same frames at
/// the same moments, return the same counts, the same end of each record, the same sent frames, the same refused commands, each with its
/// fault, and the same journals. Only lack of memory is no matter of the input, so in neither is a command refused for it.
pub fn exact_replays_agree()
    ensures { ExactReplaysAgree }
{}

/// The same of exact replays of captures that come in pieces, wherever each is cut, by all that was handed out of each: so a replay in pieces
/// agrees with one of the whole capture, too, which is one piece.
pub fn pieces_agree()
    ensures { PiecesAgree }
{}

/// How large the journals are changes nothing of what an exact replay sends: where in neither of two a journal was full for a run or for a
/// command, they return the same counts, the same end of each record, the same sent frames and the same refused commands, with journals of
/// any two sizes, also where the rows of one are not kept. A journal that is full for a round alone makes no difference to that.
pub fn journals_change_nothing()
    ensures { JournalsChangeNothing }
{}
