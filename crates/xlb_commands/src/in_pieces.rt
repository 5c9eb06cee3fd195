//! An exact replay whose capture is read, and whose sent frames and report are written, in pieces: its memory does not grow with the capture,
//! unless the journals keep their rows.
//!
//! The capture is read while its frames are run; before that it is read up to the script's last command in a part, whose numbers are found
//! so. Where it cannot be read in pieces, or one of the two files cannot be made in pieces, or the capture turns out to be none, or memory is
//! refused to a piece, nothing was written, and the replay is made with the whole capture in memory, which also says what is wrong with it.

ghost use Rattle.std.specs.Prelude.{◌≡◌, ◌≢◌, ◌↔◌, ◌⊎◌, ◌+◌, ◌-◌, ◌<◌, ◌^◌};
ghost use Rattle.std.specs.Prelude.{ℕ, [], true, false};
ghost use Rattle.std.specs.Prelude.{List, Some, None, IfErr, IfOk, IfSome, IfNone, OnOk, length};
ghost use Rattle.std.specs.List.{AllByRecursion};
ghost use Rattle.semantics.specs.Program.{Program};
ghost use Rattle.semantics.specs.ShardPlan.{KeepsRows, recorded};
ghost use Rattle.semantics.specs.declared.options.Options.{Options as ShardOptions};
ghost use Rattle.machine.specs.Running.{program_of};
ghost use Rattle.wire.specs.declared.records.Sent.{Sent as Record};
ghost use Rattle.folders.specs.PieceReading.{HasRoom, IsReadTo, ReadsOn, ReadsToEnd, most_to_come};
ghost use Rattle.actors.specs.Captured.{IsCaptured};
ghost use Rattle.map_updates.specs.Misfits.{AreFitting};
ghost use Rattle.actors.specs.Parts.{AreBadOptions};
ghost use Rattle.replay.specs.EventsInTurns.{IsListedInPieces};
ghost use Rattle.replay.specs.Pieces.{ReplayGoesOn, IsUnderway, IsReplayedInPieces};
ghost use Rattle.actors.specs.declared.outcome.Outcome.{Outcome as Made};
ghost use Rattle.actors.specs.declared.outcome.ToldEnd.{ToldEnd as End};
ghost use Rattle.command_line.specs.Reading.{text_of};
ghost use Rattle.xlb_commands.specs.Files.{AreKept};
ghost use Rattle.xlb_commands.specs.AskedReplays.{IsConsistent, IsAnswered, IsAnsweredBy, IsDenied, IsDeniedBy, IsMadeInTurn, LeavesOthers};
ghost use Rattle.xlb_commands.specs.InPieces.{CanGoOn, HasGone, HasNumbers, HaveRunOf, IsGoing, MayBeInPieces};
ghost use Rattle.xlb_commands.specs.InPieces.{IsReplayLeft, IsMadeOf};
ghost use Rattle.xlb_commands.specs.RecordReports.{HasNamed, backends_in};
ghost use Rattle.xlb_commands.specs.Parts.{command_frames, records_in, records_next};
ghost use Rattle.xlb_commands.specs.Taking.{GoesPast, HasPassed, IsAbreast, script_at};
ghost use Rattle.xlb_commands.specs.Refused.{HasFailed, IsGivenUp, IsUnserved, LacksRoom};
ghost use Rattle.xlb_commands.specs.Replays.{IsCaptureOf, IsMade};

use crate::end_maps::maps_lines;
use crate::fault::{Fault, Refusal};
use crate::files::journal_bytes;
use crate::left_out::is_left_out;
use crate::made_in_pieces::{add_frames, add_lines, begin_files, write_pieces};
use crate::next_records::{PieceStep, fill_piece, unserved_capture};
use crate::notes::{Altered, Notes, first_stopped};
use crate::progress::{Distance, Progress};
use crate::record_report::backends_in;
use crate::replays::{Asked, given_up, readers_send_alike, steered_where_shipped};
use crate::report::{Report, replayed};
use crate::summing::Summing;
use crate::taking::{Taking, before_all, go_past, has_numbers};
use actors::{PieceOutcome, all_are_captured};
use capture_readings::Reading;
use command_line::ReplayFiles;
use control::Script;
use folders::{CaptureReader, Folder, FolderFault, RecordBuffer};
use replay::{Outcome, PieceReplay, ReplayFault};
use shard_port::NoGate;
use std::alloc::Global;
use traffic::Backends;
use wire::{Capture, MemorySink};

/// The script of the whole capture, and the numbers that its commands have in the part that is replayed; none where all of it is.
#[derive(Clone, Copy)]
struct WholeScript<'a> {
    script: &'a Script,
    numbers: &'a [u32],
}

/// A replay between two pieces.
#[derive(Drop)]
struct Going {
    replay: PieceReplay,
    /// The first record, counted from 0, whose run was stopped.
    stopped: Option<usize>,
    /// What the summary counts.
    summing: Summing,
}

/// What a replay leaves besides the sent frames, in memory.
#[derive(Drop)]
struct LeftInPieces {
    journals: MemorySink,
    report: Report,
}

/// Which of the records that were read are not as their frames were.
pub(crate) fn altered_by(reader: &CaptureReader) -> Altered
    ensures { result.cut ≡ reader.now.cut }
{
    let done = reader.alterations();
    Altered {
        cut: reader.cut(),
        long: done.skipped,
        padded: done.padded,
        left_over: done.left_over,
        whole: reader.count().saturating_add(done.skipped),
    }
}

/// Opens a capture, if it can be read in pieces and has a header.
pub(crate) fn open_reader<D: Folder>(
    alloc: Global,
    folder: &mut D,
    name: &str,
    reading: Reading,
) -> Result<Option<CaptureReader>, Refusal>
    requires { D.failure_count folder.old < 2 ^ 64 - 1 }
    ensures opened { IfOk result (λ found. IfSome found (IsReadTo reading (D.holds folder.old name.now) (D.is_left folder.new) [])) }
    ensures room { IfOk result (λ found. IfSome found (HasRoom (D.most_left folder.new))) }
    ensures kept { AreKept (D.holds folder.old) (D.holds folder.new) }
    ensures made { AreKept (D.is_begun folder.old) (D.is_begun folder.new) }
    ensures steady { OnOk result (D.failure_count folder.new ≡ D.failure_count folder.old) }
    ensures refused { IfErr result
        (λ refusal. IsUnserved (HasFailed (D.failure_count folder.old) (D.failure_count folder.new)) refusal.fault) }
{
    match CaptureReader::open(alloc, folder, name, reading) {
        Ok(found) => Ok(found),
        Err(fault) => match unserved_capture(alloc, folder, name, fault) {
            Some(refusal) => Err(refusal),
            None => Ok(None),
        },
    }
}

/// Reads a capture until the script's commands have their numbers in the part, or to its end. None where it is not read in pieces, or is no
/// capture so far.
fn pass_records<D: Folder>(
    alloc: Global,
    folder: &mut D,
    asked: Asked<'_>,
    script: &Script,
    to_the_end: bool,
) -> Result<Option<Taking>, Refusal>
    requires { D.failure_count folder.old < 2 ^ 64 - 1 }
    ensures passed { IfOk result (λ found. IfSome found (λ taking. (records : List Record)
        × HasPassed asked.entry.part (command_frames script.now) records taking
        × (to_the_end ≡ true → IsCaptureOf (D.holds folder.old) asked.entry.reading asked.entry.files.now.capture.now records))) }
    ensures kept { AreKept (D.holds folder.old) (D.holds folder.new) }
    ensures made { AreKept (D.is_begun folder.old) (D.is_begun folder.new) }
    ensures steady { OnOk result (D.failure_count folder.new ≡ D.failure_count folder.old) }
    ensures refused { IfErr result
        (λ refusal. IsUnserved (HasFailed (D.failure_count folder.old) (D.failure_count folder.new)) refusal.fault) }
{
    let name = asked.files.capture;
    let Some(mut reader) = open_reader(alloc, folder, name, asked.reading)? else {
        return Ok(None);
    };
    let mut taking = before_all(alloc, folder, name, asked.part, script)?;
    'records: while to_the_end || !taking.knows_numbers() {
        match reader.find(folder) {
            Ok(Some(head)) => {
                let _taken = go_past(alloc, folder, name, &mut taking, reader.frame(head))?;
                reader.pass(head);
            }
            Ok(None) => return Ok(Some(taking)),
            Err(fault) => return match unserved_capture(alloc, folder, name, fault) {
                Some(refusal) => Err(refusal),
                None => Ok(None),
            },
        }
    }
    Ok(Some(taking))
}

/// Why there is no replay of a capture that was not read to its end: this refusal, if it is a capture, in which the commands have these
/// numbers; none otherwise.
fn refused_where_numbered<D: Folder>(
    alloc: Global,
    folder: &mut D,
    asked: Asked<'_>,
    whole: WholeScript<'_>,
    refusal: Refusal,
) -> Result<Option<Report>, Refusal>
    requires { D.failure_count folder.old < 2 ^ 64 - 1 }
    ensures none { IfOk result (λ found. found ≡ None) }
    ensures kept { AreKept (D.holds folder.old) (D.holds folder.new) }
    ensures steady { OnOk result (D.failure_count folder.new ≡ D.failure_count folder.old) }
    ensures refused { IfErr result (λ why.
        IsUnserved (HasFailed (D.failure_count folder.old) (D.failure_count folder.new)) why.fault
        ⊎ (why.fault ≡ refusal.fault)
        × HasNumbers (D.holds folder.old) asked.entry.reading asked.entry.files.now.capture.now asked.entry.part whole.entry.script.now
        whole.entry.numbers.now) }
{
    let Some(taking) = pass_records(alloc, folder, asked, whole.script, true)? else {
        return Ok(None);
    };
    if has_numbers(alloc, folder, asked.files.capture, taking, whole.numbers)? {
        return Err(refusal);
    }
    Ok(None)
}

impl Going {
    /// Notes the records of a piece that come behind `before` others: the first whose run was stopped, and what the summary counts.
    fn note(
        &mut self,
        alloc: Global,
        script: &Script,
        before: usize,
        piece: &Capture,
        done: &PieceOutcome,
    )
        ensures { self.new.replay ≡ self.old.replay }
    {
        self.summing
            .note(alloc, script, &piece.records, &done.sent, &done.ends);
        if self.stopped.is_some() {
            return;
        }
        if let Some(place) = first_stopped(&done.ends) {
            self.stopped = Some(before.saturating_add(place));
        }
    }
}

/// The replay before its first record.
fn opened(alloc: Global, asked: Asked<'_>) -> Result<Going, Refusal>
    requires fit { AreFitting asked.verified.now.maps asked.updates.now }
    ensures goes_on { IfOk result (λ going. ReplayGoesOn asked.entry.script.now going.replay) }
    ensures maps { IfOk result (λ going. going.replay.turns.all.maps ≡ asked.entry.verified.now.maps) }
    ensures underway { IfOk result (λ going. IsUnderway (program_of asked.entry.verified.now asked.entry.options.shards)
        asked.entry.script.now
        (recorded asked.entry.recording asked.entry.options) asked.entry.updates.now [] [] [] going.replay) }
    ensures served { OnOk result (KeepsRows asked.entry.options.journal) }
    ensures good { OnOk result (¬ AreBadOptions asked.entry.verified.now.maps asked.entry.options asked.entry.script.now) }
    ensures refused { IfErr result (λ refusal. (why : ReplayFault) × (refusal.fault ≡ Fault.Replay why)
        × IsGivenUp true asked.entry.verified.now.maps asked.entry.updates.now asked.entry.script.now asked.entry.options
        asked.entry.recording why) }
{
    match PieceReplay::open(
        alloc,
        asked.verified,
        asked.updates,
        asked.script,
        asked.options,
        asked.recording,
    ) {
        Ok(replay) => Ok(Going {
            replay,
            stopped: None,
            summing: Summing::new(alloc, asked.summary, asked.script),
        }),
        Err(fault) => Err(given_up(alloc, asked.options, asked.verified, fault)),
    }
}

/// Runs the records of a piece, and adds what is sent to the file that is being made. No: there are too many records, or memory is refused.
fn run_piece<D: Folder>(
    alloc: Global,
    folder: &mut D,
    asked: Asked<'_>,
    table: &Backends,
    going: &mut Going,
    piece: &Capture,
) -> Result<bool, Refusal>
    requires failures { D.failure_count folder.old < 2 ^ 64 - 1 }
    requires ready { CanGoOn asked table.now going.old.replay }
    ensures run { IfOk result (λ went. went ≡ true → HaveRunOf asked.entry piece.now.records.items going.old.replay going.new.replay
        (D.is_begun folder.old) (D.is_begun folder.new)) }
    ensures ready { IfOk result (λ went. went ≡ true → CanGoOn asked.entry table.now going.new.replay) }
    ensures kept { AreKept (D.holds folder.old) (D.holds folder.new) }
    ensures left { (rest : List ℕ) → (D.is_left folder.old rest ↔ D.is_left folder.new rest) }
    ensures most { D.most_left folder.new ≡ D.most_left folder.old }
    ensures steady { OnOk result (D.failure_count folder.new ≡ D.failure_count folder.old) }
    ensures refused { IfErr result
        (λ refusal. IsUnserved (HasFailed (D.failure_count folder.old) (D.failure_count folder.new)) refusal.fault) }
{
    if !going.replay.has_room(piece) {
        return Ok(false);
    }
    all_are_captured(piece);
    let before = going.replay.taken();
    match going
        .replay
        .go_on(alloc, asked.verified, asked.script, piece, &NoGate)
    {
        Ok(done) => {
            add_frames(alloc, folder, asked.files.sent, &done.sent)?;
            add_lines(alloc, folder, asked, table, before, &piece.records, &done)?;
            going.note(alloc, asked.script, before, piece, &done);
            going.replay.give_back(done);
            Ok(true)
        }
        Err(_) => Ok(false),
    }
}

/// Reads a piece, and runs those of its records that are taken. They are in a buffer, whose memory the next piece uses again.
fn take_piece<D: Folder>(
    alloc: Global,
    folder: &mut D,
    asked: Asked<'_>,
    reader: &mut CaptureReader,
    taking: &mut Taking,
    buffer: &mut RecordBuffer,
    table: &Backends,
    going: &mut Going,
) -> Result<PieceStep, Refusal>
    requires failures { D.failure_count folder.old < 2 ^ 64 - 1 }
    requires room { HasRoom (D.most_left folder.old) reader.old }
    requires abreast { IsAbreast asked.part taking.old reader.old }
    requires ready { CanGoOn asked table.now going.old.replay }
    ensures more { IfOk result (λ step. step ≡ PieceStep.More → (records : List Record)
        × ReadsOn D.holds (D.is_left folder.old) (D.is_left folder.new) reader.old reader.new records
        × GoesPast taking.old taking.new records
        × HaveRunOf asked.entry (records_next asked.entry.part reader.old.count records) going.old.replay going.new.replay
        (D.is_begun folder.old) (D.is_begun folder.new)) }
    ensures last { IfOk result (λ step. step ≡ PieceStep.Last → (records : List Record)
        × ReadsToEnd D.holds (D.is_left folder.old) reader.old records reader.new.cut
        × GoesPast taking.old taking.new records
        × HaveRunOf asked.entry (records_next asked.entry.part reader.old.count records) going.old.replay going.new.replay
        (D.is_begun folder.old) (D.is_begun folder.new)) }
    ensures room { IfOk result (λ step. step ≢ PieceStep.Changed → HasRoom (D.most_left folder.new) reader.new) }
    ensures fewer { IfOk result (λ step. step ≡ PieceStep.More →
        most_to_come (D.most_left folder.new) reader.new < most_to_come (D.most_left folder.old) reader.old) }
    ensures ready { IfOk result (λ step. step ≢ PieceStep.Changed → CanGoOn asked.entry table.now going.new.replay) }
    ensures kept { AreKept (D.holds folder.old) (D.holds folder.new) }
    ensures steady { OnOk result (D.failure_count folder.new ≡ D.failure_count folder.old) }
    ensures refused { IfErr result
        (λ refusal. IsUnserved (HasFailed (D.failure_count folder.old) (D.failure_count folder.new)) refusal.fault) }
{
    let step = fill_piece(alloc, folder, asked.files.capture, reader, taking, buffer)?;
    if step == PieceStep::Changed {
        return Ok(step);
    }
    if !run_piece(alloc, folder, asked, table, going, buffer.capture())? {
        return Ok(PieceStep::Changed);
    }
    Ok(step)
}

/// Reads the capture, and runs those of its records that are taken; says which of them are not as their frames were. None where it is no
/// capture, or one in which the commands have other numbers in the part, and where memory is refused to a piece.
fn go_through<D: Folder, P: Progress>(
    alloc: Global,
    folder: &mut D,
    asked: Asked<'_>,
    whole: WholeScript<'_>,
    table: &Backends,
    going: &mut Going,
    distance: Distance<'_, P>,
) -> Result<Option<Altered>, Refusal>
    requires failures { D.failure_count folder.old < 2 ^ 64 - 1 }
    requires ready { CanGoOn asked table.now going.old.replay }
    ensures gone { IfOk result (λ gone. IfSome gone (λ altered. HasGone (D.holds folder.old) asked.entry whole.entry.script.now whole.entry.numbers.now
        going.old.replay going.new.replay (D.is_begun folder.old) (D.is_begun folder.new))) }
    ensures goes_on { IfOk result (λ gone. IfSome gone (λ altered. ReplayGoesOn asked.entry.script.now going.new.replay)) }
    ensures kept { AreKept (D.holds folder.old) (D.holds folder.new) }
    ensures steady { OnOk result (D.failure_count folder.new ≡ D.failure_count folder.old) }
    ensures refused { IfErr result
        (λ refusal. IsUnserved (HasFailed (D.failure_count folder.old) (D.failure_count folder.new)) refusal.fault) }
{
    let Some(mut reader) = open_reader(alloc, folder, asked.files.capture, asked.reading)? else {
        return Ok(None);
    };
    let name = asked.files.capture;
    let mut taking = before_all(alloc, folder, name, asked.part, whole.script)?;
    let mut buffer = RecordBuffer::new(alloc);
    'pieces: loop {
        let before = reader.count();
        match take_piece(
            alloc,
            folder,
            asked,
            &mut reader,
            &mut taking,
            &mut buffer,
            table,
            going,
        ) {
            Ok(PieceStep::More) => distance.note(before, reader.count()),
            Ok(PieceStep::Last) => {
                if has_numbers(alloc, folder, name, taking, whole.numbers)? {
                    return Ok(Some(altered_by(&reader)));
                }
                return Ok(None);
            }
            Ok(PieceStep::Changed) => return Ok(None),
            Err(refusal) => return Err(refusal),
        }
    }
}

/// The outcome of a replay behind its last record; it has no sent frames and no ends.
fn ended(alloc: Global, asked: Asked<'_>, replay: PieceReplay) -> Result<Outcome, Refusal>
    requires { ReplayGoesOn asked.script.now replay }
    ensures replayed { IfOk result (λ rest. (program : Program) (options : ShardOptions) (records sent : List Record) (ends : List End) →
        IsUnderway program asked.entry.script.now options asked.entry.updates.now records sent ends replay →
        IsReplayedInPieces program asked.entry.script.now options records sent ends rest) }
    ensures one_list { IfOk result (λ rest. (options : ShardOptions) (records sent : List Record) (ends : List End) →
        AllByRecursion IsCaptured records →
        IsUnderway (program_of asked.entry.verified.now options.shards) asked.entry.script.now options asked.entry.updates.now records sent
        ends replay → IsListedInPieces asked.entry.verified.now asked.entry.script.now options records sent ends rest) }
    ensures updates { IfOk result (λ rest. rest.updates.items ≡ asked.entry.updates.now) }
    ensures refused { IfErr result (λ refusal. refusal.fault ≡ Fault.Replay ReplayFault.Memory) }
{
    match replay.finish(alloc, asked.verified, asked.updates, asked.script) {
        Ok(rest) => Ok(rest),
        Err(_) => Err(given_up(alloc, asked.options, asked.verified, ReplayFault::Memory)),
    }
}

/// What a replay leaves besides the sent frames, behind its last record.
fn left_in_pieces(
    alloc: Global,
    asked: Asked<'_>,
    altered: Altered,
    going: Going,
) -> Result<LeftInPieces, Refusal>
    requires goes_on { ReplayGoesOn asked.script.now going.replay }
    requires underway { IsGoing (program_of asked.verified.now asked.options.shards) asked.script.now
        (recorded asked.recording asked.options) asked.updates.now going.replay }
    requires served { KeepsRows asked.options.journal }
    requires consistent { IsConsistent asked }
    ensures left { IfOk result (λ left. (records sent : List Record) (ends : List End) →
        IsUnderway (program_of asked.entry.verified.now asked.entry.options.shards) asked.entry.script.now (recorded
        asked.entry.recording asked.entry.options)
        asked.entry.updates.now records sent ends going.replay → AllByRecursion IsCaptured records →
        IsMadeOf asked.entry.files.now asked.entry.verified.now asked.entry.script.now asked.entry.options asked.entry.recording asked.entry.ring
        asked.entry.updates.now records sent ends
        left.report left.journals.bytes) }
    ensures refused { IfErr result (λ refusal. (refusal.fault ≡ Fault.Replay ReplayFault.Memory)
        ⊎ ((records sent : List Record) (ends : List End) →
        IsUnderway (program_of asked.entry.verified.now asked.entry.options.shards) asked.entry.script.now
        (recorded asked.entry.recording asked.entry.options) asked.entry.updates.now records sent ends going.replay →
        (outcome : Made) × IsMade true (program_of asked.entry.verified.now asked.entry.options.shards) asked.entry.updates.now
        asked.entry.script.now (recorded asked.entry.recording asked.entry.options) records outcome)
        × LacksRoom (text_of asked.entry.files.now.journals) refusal.fault) }
{
    readers_send_alike(asked.verified);
    steered_where_shipped(asked);
    let frames = going.replay.taken();
    let stopped = going.stopped;
    let summing = going.summing;
    let outcome = ended(alloc, asked, going.replay)?;
    let journals = journal_bytes(alloc, asked.files.journals, &outcome.journals)?;
    let maps = maps_lines(alloc, asked.files.maps, &outcome.journals)?;
    let notes = Notes::of(asked, altered)
        .text_of_pieces(alloc, asked.script, &outcome, stopped, &summing)
        .ok();
    let left_out = is_left_out(altered, asked.script, frames);
    let report = replayed(
        alloc,
        frames,
        outcome.counts,
        &outcome.refused,
        left_out,
        notes,
        maps,
    )?;
    Ok(LeftInPieces { journals, report })
}

/// Runs all that is taken of the capture, and what it leaves. None where `go_through` has none.
fn left_by_pieces<D: Folder, P: Progress>(
    alloc: Global,
    folder: &mut D,
    asked: Asked<'_>,
    whole: WholeScript<'_>,
    table: &Backends,
    mut going: Going,
    distance: Distance<'_, P>,
) -> Result<Option<LeftInPieces>, Refusal>
    requires failures { D.failure_count folder.old < 2 ^ 64 - 1 }
    requires script { asked.script.now ≡ script_at asked.part whole.numbers.now whole.script.now }
    requires ready { CanGoOn asked table.now going.replay }
    requires underway { IsUnderway (program_of asked.verified.now asked.options.shards) asked.script.now
        (recorded asked.recording asked.options) asked.updates.now [] [] [] going.replay }
    requires served { KeepsRows asked.options.journal }
    requires consistent { IsConsistent asked }
    ensures left { IfOk result (λ found. IfSome found (λ left. IsReplayLeft (D.holds folder.old) (D.is_begun folder.old) (D.is_begun folder.new)
        asked.entry.files.now asked.entry.reading asked.entry.part whole.entry.script.now asked.entry.verified.now asked.entry.script.now
        asked.entry.options asked.entry.recording asked.entry.ring asked.entry.updates.now left.report left.journals.bytes)) }
    ensures kept { AreKept (D.holds folder.old) (D.holds folder.new) }
    ensures steady { OnOk result (D.failure_count folder.new ≡ D.failure_count folder.old) }
    ensures refused { IfErr result
        (λ refusal. IsUnserved (HasFailed (D.failure_count folder.old) (D.failure_count folder.new)) refusal.fault
        ⊎ HasNumbers (D.holds folder.old) asked.entry.reading asked.entry.files.now.capture.now asked.entry.part whole.entry.script.now
        whole.entry.numbers.now × (refusal.fault ≡ Fault.Replay ReplayFault.Memory)
        ⊎ IsMadeInTurn (D.holds folder.old) asked.entry whole.entry.script.now × LacksRoom (text_of asked.entry.files.now.journals) refusal.fault) }
{
    let Some(altered) = go_through(alloc, folder, asked, whole, table, &mut going, distance)? else {
        return Ok(None);
    };
    let left = left_in_pieces(alloc, asked, altered, going)?;
    Ok(Some(left))
}

/// The backends that the script names, of which a report tells.
fn named_backends(alloc: Global, script: &Script) -> Result<Backends, Refusal>
    ensures named { IfOk result (λ table. HasNamed table (backends_in script.now)) }
    ensures refused { IfErr result (λ refusal. refusal.fault ≡ Fault.Folder FolderFault.Memory) }
{
    match backends_in(alloc, script.commands()) {
        Ok(table) => Ok(table),
        Err(_) => Err(Refusal::from(Fault::Folder(FolderFault::Memory))),
    }
}

/// Makes the replay where the commands have these numbers. None where the folder does not read or make the files in pieces, where the file is
/// no capture or one in which they have others, and where memory is refused to a piece: then no file is changed.
fn replay_numbered<D: Folder, P: Progress + Sync>(
    alloc: Global,
    folder: &mut D,
    asked: Asked<'_>,
    whole: WholeScript<'_>,
    progress: &P,
) -> Result<Option<Report>, Refusal>
    requires failures { D.failure_count folder.old < 2 ^ 64 - 1 }
    requires in_pieces { MayBeInPieces asked }
    requires consistent { IsConsistent asked }
    requires script { asked.script.now ≡ script_at asked.part whole.numbers.now whole.script.now }
    ensures done { IfOk result (λ found. IfSome found
        (IsAnsweredBy (D.holds folder.old) (D.holds folder.new) asked.entry whole.entry.script.now)) }
    ensures none { IfOk result (λ found. IfNone found (AreKept (D.holds folder.old) (D.holds folder.new))) }
    ensures steady { OnOk result (D.failure_count folder.new ≡ D.failure_count folder.old) }
    ensures kept { LeavesOthers (D.holds folder.old) (D.holds folder.new) asked.entry }
    ensures refused { IfErr result (λ refusal. IsDeniedBy (D.holds folder.old) (D.holds folder.new)
        (HasFailed (D.failure_count folder.old) (D.failure_count folder.new)) asked.entry whole.entry.script.now refusal.fault) }
{
    let going = match opened(alloc, asked) {
        Ok(going) => going,
        Err(refusal) => return refused_where_numbered(alloc, folder, asked, whole, refusal),
    };
    let table = named_backends(alloc, asked.script)?;
    if !begin_files(alloc, folder, asked.files)? {
        folder.give_up();
        return Ok(None);
    }
    let distance = Distance { progress };
    match left_by_pieces(alloc, folder, asked, whole, &table, going, distance) {
        Ok(Some(left)) => {
            write_pieces(alloc, folder, asked.files, &left.journals)?;
            Ok(Some(left.report))
        }
        Ok(None) => {
            folder.give_up();
            Ok(None)
        }
        Err(refusal) => {
            folder.give_up();
            Err(refusal)
        }
    }
}

/// Makes the replay in pieces. None where the folder does not read or make the files so, or where the file is no capture: then no file is
/// changed.
pub(crate) fn replay_in_pieces<D: Folder, P: Progress + Sync>(
    alloc: Global,
    folder: &mut D,
    asked: Asked<'_>,
    progress: &P,
) -> Result<Option<Report>, Refusal>
    requires failures { D.failure_count folder.old < 2 ^ 64 - 1 }
    requires in_pieces { MayBeInPieces asked }
    requires consistent { IsConsistent asked }
    ensures done { IfOk result (λ found. IfSome found (IsAnswered (D.holds folder.old) (D.holds folder.new) asked.entry)) }
    ensures none { IfOk result (λ found. IfNone found (AreKept (D.holds folder.old) (D.holds folder.new))) }
    ensures steady { OnOk result (D.failure_count folder.new ≡ D.failure_count folder.old) }
    ensures kept { LeavesOthers (D.holds folder.old) (D.holds folder.new) asked.entry }
    ensures refused { IfErr result (λ refusal. IsDenied (D.holds folder.old) (D.holds folder.new)
        (HasFailed (D.failure_count folder.old) (D.failure_count folder.new)) asked.entry refusal.fault) }
{
    let Some(taking) = pass_records(alloc, folder, asked, asked.script, false)? else {
        return Ok(None);
    };
    let Ok(numbered) = taking.numbered(alloc, asked.script) else {
        return Ok(None);
    };
    match numbered {
        None => {
            let whole = WholeScript {
                script: asked.script,
                numbers: &[],
            };
            replay_numbered(alloc, folder, asked, whole, progress)
        }
        Some(of_part) => {
            let whole = WholeScript {
                script: asked.script,
                numbers: &of_part.numbers,
            };
            let asked_of_part = Asked {
                script: &of_part.script,
                ..asked
            };
            replay_numbered(alloc, folder, asked_of_part, whole, progress)
        }
    }
}
