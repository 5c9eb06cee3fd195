//! An exact replay of a capture that comes in pieces: between two pieces nothing is kept of the records that were run.

ghost use Rattle.std.specs.Prelude.{◌≡◌, ◌<◌, ◌+◌, ◌^◌, ◌++◌, ◌↔◌, [], List, length};
ghost use Rattle.std.specs.List.{AllByRecursion};
ghost use Rattle.std.specs.Prelude.{OnOk, IfOk, IfErr, IsErrOf, IsTrue};
ghost use Rattle.machine.specs.Running.{program_of};
ghost use Rattle.maglev.specs.RingSize.{IsRingSize};
ghost use Rattle.semantics.specs.Program.{Program};
ghost use Rattle.semantics.specs.ShardPlan.{AreOptions, KeepsRows, recorded};
ghost use Rattle.control.specs.declared.command.Command.{Command as Line};
ghost use Rattle.semantics.specs.declared.options.Options.{Options as Settings};
ghost use Rattle.map_updates.specs.Misfits.{AreFitting};
ghost use Rattle.map_updates.specs.declared.update.MapUpdate.{MapUpdate as Update};
ghost use Rattle.wire.specs.declared.records.Sent.{Sent as Record};
ghost use Rattle.actors.specs.Commands.{ServesScript};
ghost use Rattle.replay.specs.EventsInTurns.{IsListedInPieces};
ghost use Rattle.replay.specs.ExactReplays.{HasBegun};
ghost use Rattle.actors.specs.Parts.{AreBadOptions};
ghost use Rattle.replay.specs.Pieces.{ReplayGoesOn, IsUnderway, IsReplayedInPieces};
ghost use Rattle.actors.specs.UpdateFaults.{OfUpdate};
ghost use Rattle.replay.specs.TurnFaults.{IsWhyInTurn};
ghost use Rattle.actors.specs.Captured.{IsCaptured};
ghost use Rattle.actors.specs.declared.fault.ReplayFault.TheVariants.{BadOptions, NoThread};
ghost use Rattle.actors.specs.declared.outcome.ToldEnd.{ToldEnd as End};

use crate::laws::{events_come_in_turns, turns_are_accounted};
use crate::setting::{starts_of, table_for};
use crate::single_thread::{Turns, begun};
use crate::turn_shards::TurnShards;
use actors::{Outcome, PieceOutcome, ReplayFault};
use control::{Command, Script, commands_fit};
use map_updates::MapUpdate;
use semantics::{Options, Recording};
use shard_port::Gate;
use std::alloc::{AllocError, Global};
use verifier::Verified;
use wire::Capture;

/// A capture has fewer records than this, over all pieces.
const MOST_RECORDS: usize = 1 << 63;

/// An exact replay between two pieces of its capture. It keeps the shards, what came of the script's commands, and the counts. What was
/// sent and what became of each record is handed out with the piece, so that a longer capture needs no more memory, except for cells that
/// are created and rows that journals keep.
#[derive(Drop)]
pub struct PieceReplay {
    turns: Turns,
    /// The frame number of each command.
    starts: Vec<u32>,
    /// Which command is next.
    next: usize,
    /// How many records there were in the pieces so far.
    taken: usize,
}

/// A replay before its first record, over shards of the image's maps in which nothing has happened but these updates.
fn opened_over(
    alloc: Global,
    script: &[Command],
    size: u32,
    all: TurnShards,
) -> Result<PieceReplay, AllocError>
    requires size { IsRingSize size }
    requires script { ServesScript all.maps size script.now }
    requires fit { AreOptions all.maps all.options }
    ensures goes_on { IfOk result (ReplayGoesOn script.now) }
    ensures maps { IfOk result (λ replay. replay.turns.all.maps ≡ all.maps) }
    ensures none { IfOk result (λ replay. replay.taken ≡ 0) }
    ensures underway { IfOk result (λ replay. (program : Program) (options : Settings) (updates : List Update) → program.maps ≡ all.maps →
        options ≡ all.options → HasBegun program.maps options updates all →
        IsUnderway program script.now options updates [] [] [] replay) }
{
    let starts = starts_of(alloc, script)?;
    let turns = Turns::over(alloc, all, size)?;
    Ok(PieceReplay {
        turns,
        starts,
        next: 0,
        taken: 0,
    })
}

impl PieceReplay {
    /// Makes these updates, one after the other, as the controller, each whether or not its key is there. Then the first piece can come.
    ///
    /// Refused with 51 where no shards of the image's maps can be opened with the options, or where there are commands and the image's maps
    /// are not those of steering; with 52 for lack of memory; with 93 for the first update that a map refused, and with 94 for the first
    /// for which a journal was full. Then nothing is left.
    pub fn open(
        alloc: Global,
        verified: &Verified,
        updates: &[MapUpdate],
        script: &Script,
        options: Options,
        recording: Recording,
    ) -> Result<PieceReplay, ReplayFault>
        requires fit { AreFitting verified.now.maps updates.now }
        ensures goes_on { IfOk result (ReplayGoesOn script.now) }
        ensures maps { IfOk result (λ replay. replay.turns.all.maps ≡ verified.now.maps) }
        ensures none { IfOk result (λ replay. replay.taken ≡ 0) }
        ensures underway { IfOk result (IsUnderway (program_of verified.now options.shards) script.now (recorded recording options)
            updates.now [] [] []) }
        ensures refused { IfErr result (OfUpdate (IsWhyInTurn verified.now.maps (recorded recording options) updates.now)) }
        ensures served { OnOk result (KeepsRows options.journal) }
        ensures bad_options { IsErrOf result BadOptions ↔ AreBadOptions verified.now.maps options script.now }
        ensures no_thread { ¬ IsErrOf result NoThread }
    {
        let image = verified.image();
        let Some(size) = table_for(image.maps(), script.commands()) else {
            return Err(ReplayFault::BadOptions);
        };
        match begun(alloc, verified, updates, options, recording) {
            Ok(all) => {
                let _ = all.options();
                Ok(opened_over(alloc, script.commands(), size, all)?)
            }
            Err(fault) => Err(fault),
        }
    }

    /// How many records there were in the pieces so far.
    pub fn taken(&self) -> usize
        ensures { result ≡ self.now.taken }
    {
        self.taken
    }

    /// Whether the records of a piece can still be counted: a capture has fewer than 2^63 records.
    pub fn has_room(&self, piece: &Capture) -> bool
        ensures { IsTrue result ↔ (self.now.taken + length piece.now.records.items < 2 ^ 63) }
    {
        self.taken < MOST_RECORDS && piece.records.len() < MOST_RECORDS - self.taken
    }

    /// Takes the turns of the next records of the capture: before each record the commands that are due then, then the record, and after
    /// every 64 records of the capture a round, whichever pieces they are in. Returns what was sent and what became of the records, and
    /// keeps nothing of it. Where the pieces are cut makes no difference to the replay.
    ///
    /// The gate is called after each of the rounds, as for a reply of the reclaimer, with the number of such rounds in all pieces so far.
    ///
    /// Fails only for lack of memory. Then some turns of the piece may have been taken, and the replay cannot go on.
    pub fn go_on<G: Gate>(
        &mut self,
        alloc: Global,
        verified: &Verified,
        script: &Script,
        piece: &Capture,
        gate: &G,
    ) -> Result<PieceOutcome, AllocError>
        requires goes_on { ReplayGoesOn script.now self.old }
        requires maps { self.old.turns.all.maps ≡ verified.now.maps }
        requires room { self.old.taken + length piece.now.records.items < 2 ^ 63 }
        ensures underway { IfOk result
            (λ done. (options : Settings) (updates : List Update) (records sent : List Record) (ends : List End) →
            IsUnderway (program_of verified.now options.shards) script.now options updates records sent ends self.old →
            IsUnderway (program_of verified.now options.shards) script.now options updates (records ++ piece.now.records.items)
            (sent ++ done.sent.items) (ends ++ done.ends.items) self.new) }
        ensures goes_on { OnOk result (ReplayGoesOn script.now self.new) }
        ensures maps { OnOk result (self.new.turns.all.maps ≡ self.old.turns.all.maps) }
        ensures taken { OnOk result (self.new.taken ≡ self.old.taken + length piece.now.records.items) }
    {
        let commands = script.commands();
        let starts: &[u32] = &self.starts;
        let next = self.turns.piece_turns(
            alloc, verified, piece, commands, starts, self.next, self.taken, gate,
        )?;
        self.next = next;
        self.taken += piece.records.len();
        Ok(self.turns.hand_out(alloc))
    }

    /// Takes back what [`PieceReplay::go_on`] returned, once it is used: later pieces use its memory again, so that a frame that is sent
    /// takes none as long as no more are sent of a piece than of one before, and none is longer. The replay stays where it is.
    pub fn give_back(&mut self, done: PieceOutcome)
        ensures underway { (program : Program) (script : List Line) (options : Settings) (updates : List Update) (records sent : List Record)
            (ends : List End) → IsUnderway program script options updates records sent ends self.old →
            IsUnderway program script options updates records sent ends self.new }
        ensures goes_on { (script : List Line) → ReplayGoesOn script self.old → ReplayGoesOn script self.new }
        ensures maps { self.new.turns.all.maps ≡ self.old.turns.all.maps }
        ensures taken { self.new.taken ≡ self.old.taken }
    {
        self.turns.give_back(done);
    }

    /// Takes the turns behind the last record: the commands that are left, and one more round. The updates are those that it was opened
    /// with.
    ///
    /// The outcome has no sent frames and no ends, since these were handed out. With them it is the outcome of an exact replay of the whole
    /// capture, and is accounted for as what a replay on threads returns, also where no rows of journals are kept (`replayed`). By such an
    /// account the headline holds, and its list of events comes turn by turn (`one_list`).
    ///
    /// Fails only for lack of memory. Then nothing is left.
    pub fn finish(
        self,
        alloc: Global,
        verified: &Verified,
        updates: &[MapUpdate],
        script: &Script,
    ) -> Result<Outcome, AllocError>
        requires { ReplayGoesOn script.now self }
        ensures replayed { IfOk result (λ rest. (program : Program) (options : Settings) (records sent : List Record) (ends : List End) →
            IsUnderway program script.now options updates.now records sent ends self →
            IsReplayedInPieces program script.now options records sent ends rest) }
        ensures one_list { IfOk result (λ rest. (options : Settings) (records sent : List Record) (ends : List End) →
            AllByRecursion IsCaptured records →
            IsUnderway (program_of verified.now options.shards) script.now options updates.now records sent ends self →
            IsListedInPieces verified.now script.now options records sent ends rest) }
        ensures updates { IfOk result (λ rest. rest.updates.items ≡ updates.now) }
        ensures none_sent { IfOk result (λ rest. rest.sent.items ≡ []) }
        ensures no_ends { IfOk result (λ rest. rest.ends.items ≡ []) }
    {
        turns_are_accounted();
        events_come_in_turns(verified);
        commands_fit(script);
        let PieceReplay {
            mut turns,
            starts,
            next,
            taken,
        } = self;
        turns.last_turns(alloc, script.commands(), &starts, next, taken)?;
        let rest = turns.finish(alloc, updates)?;
        Ok(rest)
    }
}
