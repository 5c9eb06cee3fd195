//! A replay on one thread: commands, records and rounds, one after the other.

ghost use Rattle.std.specs.Prelude.{◌≡◌, ◌<◌, ◌≤◌, ◌+◌, ◌%◌, ◌==◌, ◌^◌, ◌↔◌, [], ℕ, List, length, slice_get, Some};
ghost use Rattle.std.specs.Prelude.{OnOk, IfOk, IfErr, IsErrOf, IsFalse};
ghost use Rattle.machine.specs.Running.{program_of};
ghost use Rattle.maglev.specs.RingSize.{IsRingSize};
ghost use Rattle.semantics.specs.History.{IsLegalJournal};
ghost use Rattle.semantics.specs.Program.{Program};
ghost use Rattle.semantics.specs.ShardPlan.{KeepsRows, are_served_options, recorded};
ghost use Rattle.wire.specs.declared.records.Sent.{Sent as Record};
ghost use Rattle.conntrack.specs.SteeringMaps.{AreSteeringMaps};
ghost use Rattle.control.specs.declared.command.Command.{Command as Line};
ghost use Rattle.control.specs.declared.fault.ControlFault.{ControlFault as Fault};
ghost use Rattle.control.specs.Controlling.{refusal_of, opened_controller};
ghost use Rattle.journals.specs.JournalsView.{entries_at};
ghost use Rattle.shards.specs.NewShards.{shard_at};
ghost use Rattle.actors.specs.declared.fault.ReplayFault.TheVariants.{BadOptions, NoThread};
ghost use Rattle.actors.specs.declared.outcome.ToldEnd.{ToldEnd as End};
ghost use Rattle.actors.specs.Accounts.{frames_in, no_counts, counted};
ghost use Rattle.actors.specs.Commands.{ServesScript};
ghost use Rattle.actors.specs.RunsOverShards.{IsSentOf, IsTold, steps_in};
ghost use Rattle.actors.specs.Shares.{worker_of_frame};
ghost use Rattle.replay.specs.EventsInTurns.{IsListedInTurns};
ghost use Rattle.replay.specs.ExactReplays.{HasBegun, starts_in};
ghost use Rattle.actors.specs.UpdateFaults.{OfUpdate};
ghost use Rattle.replay.specs.TurnFaults.{IsWhyInTurn};
ghost use Rattle.map_updates.specs.Misfits.{AreFitting};
ghost use Rattle.guarantees.specs.Headline.{Headline};
ghost use Rattle.replay.specs.InTurn.{TurnState as State, IsHandledInTurn, IsAppliedInTurn, IsSameSetting};
ghost use Rattle.replay.specs.InTurn.{IsRecordTurn, IsCommandTurn, IsRoundTurn, AreTurns};
ghost use Rattle.actors.specs.Parts.{AreBadOptions, refused_of};
ghost use Rattle.replay.specs.Pieces.{HasPiece, IsWholeOutcome};
ghost use Rattle.replay.specs.TurnStates.{state_in, with_earlier, with_none_kept, HasSameEnds};
ghost use Rattle.replay.specs.Turns.{commands_between, rounds_at, due_before, turns_to, all_turns};
ghost use Rattle.replay.specs.TurnsTaken.{CanTakeTurns, AreTaken};

use crate::closing::refused;
use crate::in_pieces::PieceReplay;
use crate::laws::events_come_in_turns;
use crate::replaying::fault_of;
use crate::setting::frame_of_runs;
use crate::turn_shards::TurnShards;
use actors::account::{Counts, record_end, send};
use actors::controller::command_at;
use actors::dispatch::{ROUND_EVERY, due, is_short, worker_of};
use actors::first_updates::{copied, set_all};
use actors::worker::{end_of, moment_of};
use actors::{
    Applied, FrameFate, Outcome, PieceOutcome, ReplayFault, RunEnd, ToldEnd, all_are_captured,
};
use control::{Command, ControlFault, Controller, Script, commands_fit};
use machine::Exit;
use map_updates::MapUpdate;
use runs::closing::journals_of;
use semantics::{Caller, Options, Recording, Verdict};
use shard_port::Gate;
use std::alloc::{AllocError, Global};
use std::mem;
use verifier::Verified;
use wire::{Capture, Frame, Sent};

/// A replay between two turns. What was sent and the ends are those that were not handed out yet.
#[derive(Drop)]
pub(crate) struct Turns {
    pub all: TurnShards,
    pub controller: Controller,
    pub noted: Vec<Applied>,
    pub counts: Counts,
    pub sent: Vec<Sent>,
    pub ends: Vec<ToldEnd>,
    /// The buffer of all runs, one after the other.
    pub frame: Frame,
    /// Frames that were given back: what is sent later is put into their memory.
    pub spare: Vec<Sent>,
}

/// Where a list is empty, later items come into the memory of an older one.
fn use_again<T: Drop>(list: &mut Vec<T>, mut older: Vec<T>)
    ensures { list.new.items ≡ list.old.items }
{
    if list.is_empty() {
        older.clear();
        *list = older;
    }
}

/// The frame as it is sent, in the memory of a spare one where there is one.
fn sent_in(
    alloc: Global,
    spare: &mut Vec<Sent>,
    captured: &Sent,
    frame: &Frame,
) -> Result<Sent, AllocError>
    ensures { IfOk result (IsSentOf captured.now frame.now.bytes) }
{
    let mut bytes = match spare.pop() {
        Some(sent) => sent.bytes,
        None => Vec::new(alloc),
    };
    bytes.clear();
    bytes.extend_from_slice(frame.bytes())?;
    Ok(Sent {
        seconds: captured.seconds,
        micros: captured.micros,
        bytes,
    })
}

/// How the run of a record ended, by its exit. A frame that is sent takes the memory of a spare one.
fn end_in(
    alloc: Global,
    spare: &mut Vec<Sent>,
    captured: &Sent,
    exit: Exit,
    frame: &Frame,
) -> Result<RunEnd, AllocError>
    ensures told { IfOk result (IsTold captured.now exit.verdict frame.now) }
    ensures counted { IfOk result (λ end. steps_in end ≡ Some exit.steps) }
{
    match exit.verdict {
        Verdict::Tx => Ok(RunEnd::Exited {
            steps: exit.steps,
            frame: FrameFate::Sent {
                sent: sent_in(alloc, spare, captured, frame)?,
            },
        }),
        _ => end_of(alloc, captured, exit, frame),
    }
}

/// What becomes of a record: none where it is too short, else how its run ended, which the worker of its flow makes in this buffer. Fails only
/// for lack of memory.
#[tactic(auto, using(crate::proofs::TurnLemmas::run_of_exit))]
fn handle(
    alloc: Global,
    verified: &Verified,
    all: &mut TurnShards,
    frame: &mut Frame,
    spare: &mut Vec<Sent>,
    worker: usize,
    sent: &Sent,
) -> Result<Option<RunEnd>, AllocError>
    requires maps { all.old.maps ≡ verified.now.maps }
    requires worker { worker ≡ worker_of_frame sent.now.bytes.items all.old.options.workers }
    requires among { worker < all.old.options.workers }
    ensures handled { IfOk result (λ end. IsHandledInTurn (program_of verified.now all.old.options.shards) all.old.options.workers sent.now
        all.old.shards end all.new.shards) }
    ensures maps { all.new.maps ≡ all.old.maps }
    ensures options { all.new.options ≡ all.old.options }
{
    if is_short(sent) {
        return Ok(None);
    }
    let _ = all.workers();
    if frame.refill(&sent.bytes).is_err() {
        return Err(AllocError);
    }
    let moment = moment_of(sent, worker as u8);
    match all.run(verified, &moment, frame) {
        Ok(exit) => match end_in(alloc, spare, sent, exit, frame) {
            Ok(end) => Ok(Some(end)),
            Err(refused) => Err(refused),
        },
        Err(_) => Ok(Some(RunEnd::Stopped)),
    }
}

/// Applies a command, and says for which fault it was refused, if for one.
fn apply_to(
    alloc: Global,
    controller: &mut Controller,
    command: &Command,
    all: &mut TurnShards,
) -> Option<ControlFault>
    requires serves { AreSteeringMaps controller.old.size all.old.maps }
    ensures did { IsAppliedInTurn result controller.old all.old command.now.action controller.new all.new }
    ensures first { (fault : Fault) → refusal_of controller.old command.now.action ≡ Some fault → result ≡ Some fault }
    ensures maps { all.new.maps ≡ all.old.maps }
    ensures options { all.new.options ≡ all.old.options }
    ensures size { controller.new.size ≡ controller.old.size }
{
    match controller.apply(alloc, command, all) {
        Ok(()) => None,
        Err(fault) => Some(fault),
    }
}

impl Turns {
    /// Before the first turn. Takes the memory of the frame of each run; fails only for lack of it.
    pub(crate) fn over(alloc: Global, all: TurnShards, size: u32) -> Result<Turns, AllocError>
        requires { IsRingSize size }
        ensures { IfOk result (λ turns. state_in turns ≡
            record { all = all; controller = opened_controller size; noted = []; counts = no_counts; sent = []; ends = [] }) }
    {
        let frame = frame_of_runs(alloc)?;
        let controller = match Controller::open(alloc, size) {
            Ok(controller) => controller,
            Err(_) => unreachable!(),
        };
        Ok(Turns {
            all,
            controller,
            noted: Vec::new(alloc),
            counts: Counts::none(),
            sent: Vec::new(alloc),
            ends: Vec::new(alloc),
            frame,
            spare: Vec::new(alloc),
        })
    }

    /// The turn of the record at a place of a piece, whichever number it has in the capture. Fails only for lack of memory; then the replay
    /// cannot go on.
    fn record(
        &mut self,
        alloc: Global,
        verified: &Verified,
        piece: &Capture,
        place: usize,
    ) -> Result<(), AllocError>
        requires place { place < length piece.now.records.items }
        requires maps { self.old.all.maps ≡ verified.now.maps }
        requires room { frames_in self.old.counts + 1 < 2 ^ 64 }
        ensures turn { OnOk result ((records : List Record) (number : ℕ) →
            slice_get records number ≡ slice_get piece.now.records.items place →
            IsRecordTurn (program_of verified.now self.old.all.options.shards) records self.old.all.options.workers number
            (state_in self.old) (state_in self.new)) }
        ensures same { OnOk result (IsSameSetting (state_in self.old) (state_in self.new)) }
        ensures one_more { OnOk result (frames_in self.new.counts ≡ frames_in self.old.counts + 1) }
    {
        let sent = &piece.records[place];
        let worker = worker_of(&sent.bytes, self.all.workers());
        let end = handle(
            alloc,
            verified,
            &mut self.all,
            &mut self.frame,
            &mut self.spare,
            worker,
            sent,
        )?;
        self.counts.count(&end);
        self.ends.push(record_end(worker as u8, &end))?;
        send(&mut self.sent, end)?;
        Ok(())
    }

    /// The turn of a command. Fails only for lack of memory; then nothing is changed.
    #[inline(never)]
    fn command(
        &mut self,
        alloc: Global,
        script: &[Command],
        number: usize,
    ) -> Result<(), AllocError>
        requires number { number < length script.now }
        requires serves { ServesScript self.old.all.maps self.old.controller.size script.now }
        ensures turn { OnOk result (IsCommandTurn script.now number (state_in self.old) (state_in self.new)) }
        ensures same { OnOk result (IsSameSetting (state_in self.old) (state_in self.new)) }
        ensures counted { OnOk result (frames_in self.new.counts ≡ frames_in self.old.counts) }
    {
        if self.noted.reserve(1).is_err() {
            return Err(AllocError);
        }
        let line = command_at(script, number);
        let fault = apply_to(alloc, &mut self.controller, line, &mut self.all);
        self.noted.push_reserved(Applied {
            command: number,
            fault,
        });
        Ok(())
    }

    /// The turn of a round.
    fn round(&mut self)
        ensures turn { IsRoundTurn (state_in self.old) (state_in self.new) }
        ensures same { IsSameSetting (state_in self.old) (state_in self.new) }
        ensures counted { frames_in self.new.counts ≡ frames_in self.old.counts }
    {
        self.all.round();
    }

    /// A round, if it is its time.
    fn round_at(&mut self, number: usize)
        ensures turns { (program : Program) (script : List Line) (records : List Record) (workers : ℕ) →
            AreTurns program script records workers (rounds_at number) (state_in self.old) (state_in self.new) }
        ensures same { IsSameSetting (state_in self.old) (state_in self.new) }
        ensures counted { frames_in self.new.counts ≡ frames_in self.old.counts }
    {
        if number % ROUND_EVERY == 0 {
            self.round();
        }
    }

    /// The turns of the commands from one number up to another. Before most records there are none.
    #[inline(always)]
    fn commands(
        &mut self,
        alloc: Global,
        script: &[Command],
        from: usize,
        end: usize,
    ) -> Result<(), AllocError>
        requires up { from ≤ end }
        requires within { end ≤ length script.now }
        requires serves { ServesScript self.old.all.maps self.old.controller.size script.now }
        ensures turns { OnOk result ((program : Program) (records : List Record) (workers : ℕ) →
            AreTurns program script.now records workers (commands_between from end) (state_in self.old) (state_in self.new)) }
        ensures same { OnOk result (IsSameSetting (state_in self.old) (state_in self.new)) }
        ensures ends { OnOk result (HasSameEnds (state_in self.old) (state_in self.new)) }
        ensures counted { OnOk result (frames_in self.new.counts ≡ frames_in self.old.counts) }
    {
        'commands: for number in from..end {
            self.command(alloc, script, number)?;
        }
        Ok(())
    }

    /// The turns behind the last record.
    pub(crate) fn last_turns(
        &mut self,
        alloc: Global,
        script: &[Command],
        starts: &[u32],
        next: usize,
        count: usize,
    ) -> Result<(), AllocError>
        requires starts { starts.now ≡ starts_in script.now }
        requires next { (next ≡ due_before starts.now count) × (next ≤ length starts.now) }
        requires serves { ServesScript self.old.all.maps self.old.controller.size script.now }
        ensures turns { OnOk result ((program : Program) (records sent : List Record) (ends : List End) (workers : ℕ) (first : State) →
            AreTurns program script.now records workers (turns_to starts.now count) first (with_earlier sent ends (state_in self.old)) →
            AreTurns program script.now records workers (all_turns starts.now count) first (with_earlier sent ends (state_in self.new))) }
        ensures same { OnOk result (IsSameSetting (state_in self.old) (state_in self.new)) }
        ensures ends { OnOk result (HasSameEnds (state_in self.old) (state_in self.new)) }
        ensures counted { OnOk result (frames_in self.new.counts ≡ frames_in self.old.counts) }
    {
        self.commands(alloc, script, next, starts.len())?;
        let _ = count;
        self.round();
        Ok(())
    }

    /// The turns of the records of a piece; its first has this number in the capture. Before each record come the commands that are due, and
    /// behind it a round, if it is its time. Returns which command is next.
    pub(crate) fn piece_turns<G: Gate>(
        &mut self,
        alloc: Global,
        verified: &Verified,
        piece: &Capture,
        script: &[Command],
        starts: &[u32],
        from: usize,
        taken: usize,
        gate: &G,
    ) -> Result<usize, AllocError>
        requires room { taken + length piece.now.records.items < 2 ^ 63 }
        requires ready { CanTakeTurns verified.now.maps script.now starts.now from taken (state_in self.old) }
        ensures { IfOk result (AreTaken (program_of verified.now self.old.all.options.shards) script.now starts.now
            (λ records. HasPiece records taken piece.now.records.items) taken (taken + length piece.now.records.items)
            (state_in self.old) (state_in self.new)) }
    {
        let mut next = from;
        'records: for place in 0..piece.records.len() {
            let number = taken + place;
            let end = due(starts, next, number);
            self.commands(alloc, script, next, end)?;
            self.record(alloc, verified, piece, place)?;
            self.round_at(number + 1);
            show(gate, number + 1);
            next = end;
        }
        Ok(next)
    }

    /// Hands out what was sent and what became of the records, and keeps nothing of it.
    pub(crate) fn hand_out(&mut self, alloc: Global) -> PieceOutcome
        ensures sent { result.sent.items ≡ self.old.sent.items }
        ensures ends { result.ends.items ≡ self.old.ends.items }
        ensures none_kept { state_in self.new ≡ with_none_kept (state_in self.old) }
    {
        PieceOutcome {
            sent: mem::replace(&mut self.sent, Vec::new(alloc)),
            ends: mem::replace(&mut self.ends, Vec::new(alloc)),
        }
    }

    /// Takes back what was handed out: later turns use its memory again. Where there is no memory to keep it in, it is let go.
    pub(crate) fn give_back(&mut self, done: PieceOutcome)
        ensures { state_in self.new ≡ state_in self.old }
    {
        let PieceOutcome { mut sent, ends } = done;
        let _ = self.spare.append(&mut sent);
        use_again(&mut self.sent, sent);
        use_again(&mut self.ends, ends);
    }

    /// What is returned after the last turn.
    pub(crate) fn finish(self, alloc: Global, updates: &[MapUpdate]) -> Result<Outcome, AllocError>
        ensures maps { IfOk result (λ outcome. outcome.journals.maps ≡ self.all.maps) }
        ensures options { IfOk result (λ outcome. outcome.journals.options ≡ self.all.options) }
        ensures updates { IfOk result (λ outcome. outcome.updates.items ≡ updates.now) }
        ensures counts { IfOk result (λ outcome. outcome.counts ≡ self.counts) }
        ensures sent { IfOk result (λ outcome. outcome.sent.items ≡ self.sent.items) }
        ensures ends { IfOk result (λ outcome. outcome.ends.items ≡ self.ends.items) }
        ensures refused { IfOk result (λ outcome. outcome.refused.items ≡ refused_of self.noted.items) }
        ensures count { IfOk result (λ outcome. length outcome.journals.shards ≡ length self.all.shards) }
        ensures journals { IfOk result (λ outcome. (number : ℕ) → number < length self.all.shards →
            entries_at outcome.journals number ≡ (shard_at self.all.shards number).journal) }
        ensures legal { IfOk result (λ outcome. (number : ℕ) → number < length self.all.shards →
            IsLegalJournal (shard_at self.all.shards number).plan (entries_at outcome.journals number)) }
    {
        let Turns {
            all,
            noted,
            counts,
            sent,
            ends,
            ..
        } = self;
        let (shards, maps, options) = all.into_parts();
        let made = copied(alloc, updates)?;
        let journals = journals_of(shards, maps, options);
        Ok(Outcome {
            counts,
            updates: made,
            refused: refused(noted),
            sent,
            ends,
            journals,
        })
    }
}

/// Calls the gate after a round, if there was one behind this many records.
fn show<G: Gate>(gate: &G, number: usize) {
    if number % ROUND_EVERY == 0 {
        gate.replied(Caller::Reclaimer, (number / ROUND_EVERY) as u64);
    }
}

/// The shards of an accepted image's maps, on which nothing was done but these updates. Refused with 51 where none are opened with these
/// options, with 52 for lack of memory, with 93 for the first update that a map refused, and with 94 for the first for which a journal was
/// full.
pub(crate) fn begun(
    alloc: Global,
    verified: &Verified,
    updates: &[MapUpdate],
    options: Options,
    recording: Recording,
) -> Result<TurnShards, ReplayFault>
    requires fit { AreFitting verified.now.maps updates.now }
    ensures begun { IfOk result (λ all. HasBegun verified.now.maps all.options updates.now all) }
    ensures maps { IfOk result (λ all. all.maps ≡ verified.now.maps) }
    ensures options { IfOk result (λ all. all.options ≡ recorded recording options) }
    ensures refused { IfErr result (OfUpdate (IsWhyInTurn verified.now.maps (recorded recording options) updates.now)) }
    ensures served { OnOk result (KeepsRows options.journal) }
    ensures bad_options { IsErrOf result BadOptions ↔ IsFalse (are_served_options verified.now.maps options) }
    ensures no_thread { ¬ IsErrOf result NoThread }
{
    match TurnShards::open(alloc, verified, options, recording) {
        Ok(mut all) => match set_all(&mut all, updates) {
            Ok(()) => Ok(all),
            Err(fault) => Err(fault),
        },
        Err(fault) => Err(fault_of(fault)),
    }
}

/// The outcome with what became of the records, which were handed out before.
fn with_records(rest: Outcome, done: PieceOutcome) -> Outcome
    ensures whole { IsWholeOutcome rest done.sent.items done.ends.items result }
{
    let PieceOutcome { sent, ends } = done;
    let Outcome {
        counts,
        updates,
        refused,
        journals,
        ..
    } = rest;
    Outcome {
        counts,
        updates,
        refused,
        sent,
        ends,
        journals,
    }
}

/// Runs the program of an accepted image on the frames of a capture, on the calling thread: one turn after the other, each over the maps as
/// the one before it left them. First come these updates, one after the other, as the controller, each whether or not its key is there.
/// Before each record come the commands that are due then, in the script's order; then the record is run, by the worker
/// of its flow, if it has 14 bytes; and after every 64 records the reclaimer makes a round. Behind the last record come the commands that
/// are left, and one more round. So a command finds what the runs of all frames before it left, and what it sets is found by every later
/// one. Two such replays of the same input give the same outcome, unless memory was refused to a command (`laws::exact_replays_agree`).
///
/// **The headline** holds of what it returns (`headline`). And what is returned is accounted for as what a replay on threads returns, also where
/// no rows of journals are kept (`one_list`): the one order of all deeds goes through the states of the turns, and the headline's list of events
/// is of this account and comes turn by turn, the events of a turn behind those of all earlier turns, those that write nothing too.
///
/// The gate is called after each round that follows a record, as for a reply of the reclaimer, with the number of such rounds: it shows how
/// far the replay is.
///
/// Refused with 51 where no shards of the image's maps can be opened with the options, or where there are commands and the image's maps
/// are not those of steering; with 52 for lack of memory; with 93 for the first update that a map refused, and with 94 for the first for
/// which a journal was full. Then nothing was run, and nothing is left.
pub fn replay_in_turn<G: Gate>(
    alloc: Global,
    verified: &Verified,
    capture: &Capture,
    updates: &[MapUpdate],
    script: &Script,
    options: Options,
    recording: Recording,
    gate: &G,
) -> Result<Outcome, ReplayFault>
    requires fit { AreFitting verified.now.maps updates.now }
    ensures headline { IfOk result (Headline verified.now script.now (recorded recording options) capture.now.records.items) }
    ensures one_list { IfOk result (IsListedInTurns verified.now script.now (recorded recording options) capture.now.records.items) }
    ensures updates { IfOk result (λ outcome. outcome.updates.items ≡ updates.now) }
    ensures refused { IfErr result (OfUpdate (IsWhyInTurn verified.now.maps (recorded recording options) updates.now)) }
    ensures served { OnOk result (KeepsRows options.journal) }
    ensures bad_options { IsErrOf result BadOptions ↔ AreBadOptions verified.now.maps options script.now }
    ensures no_thread { ¬ IsErrOf result NoThread }
{
    events_come_in_turns(verified);
    commands_fit(script);
    all_are_captured(capture);
    let mut replay = PieceReplay::open(alloc, verified, updates, script, options, recording)?;
    let done = replay.go_on(alloc, verified, script, capture, gate)?;
    let rest = replay.finish(alloc, verified, updates, script)?;
    Ok(with_records(rest, done))
}
