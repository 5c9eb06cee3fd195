//! What `xlb replay` does with its files.

ghost use Rattle.std.specs.Prelude.{◌≡◌, ◌≢◌, ◌↔◌, ◌⊎◌, ◌+◌, ◌++◌, ◌-◌, ◌<◌, ◌^◌, ℕ, [], true, false};
ghost use Rattle.std.specs.Prelude.{List, Some, None, IfErr, IfOk, IsErrOf, IsTrue, OnOk, length, string_bytes};
ghost use Rattle.semantics.specs.Safety.{IsSafeImage};
ghost use Rattle.std.specs.List.{AllByRecursion};
ghost use Rattle.semantics.specs.ShardPlan.{AreOptions, KeepsRows};
ghost use Rattle.semantics.specs.declared.options.Options.{Options as ShardOptions};
ghost use Rattle.wire.specs.declared.records.Sent.{Sent as Record};
ghost use Rattle.actors.specs.declared.outcome.Outcome.{Outcome as Made};
ghost use Rattle.actors.specs.Captured.{IsCaptured};
ghost use Rattle.semantics.specs.declared.options.Recording.TheVariants.{Rows};
ghost use Rattle.verifier.specs.Dataflow.{Accepts};
ghost use Rattle.verifier.specs.Readers.{IsReader};
ghost use Rattle.actors.specs.Accounted.{IsAccounted};
ghost use Rattle.machine.specs.Running.{program_of as program_with};
ghost use Rattle.guarantees.specs.ReaderReplays.{SendsAsAtOpening};
ghost use Rattle.wire.specs.CaptureFormat.{IsCaptureFile, capture_bytes};
ghost use Rattle.control.specs.ScriptText.{IsScriptText};
ghost use Rattle.control.specs.ScriptReading.{ExplainsScript};
ghost use Rattle.control.specs.declared.command.Command.{Command};
ghost use Rattle.control.specs.declared.fault.ControlFault.{ControlFault};
ghost use Rattle.control.specs.declared.fault.ControlFault.TheVariants as scripts;
ghost use Rattle.actors.specs.declared.fault.ReplayFault.TheVariants.{BadOptions};
ghost use Rattle.actors.specs.Accounts.{frames_in};
ghost use Rattle.map_updates.specs.Misfits.{AreFitting};
ghost use Rattle.xlb_commands.specs.Results.{IsReplayAnswer};
ghost use Rattle.steered_replays.specs.SteeredRuns.{IsSteeredReplay};
ghost use Rattle.steered_replays.specs.StickyReplays.{FlowsStayInReplays};
ghost use Rattle.steered_replays.specs.TablesAtEnd.{AreServices, AreTablesAtEnd, MetNoFullJournal, carried_out, maps_at_end};
ghost use Rattle.steered_replays.specs.Totals.{AreTotals};
ghost use Rattle.journals.specs.JournalText.{journals_text};
ghost use Rattle.journals.specs.FileJournals.{ReadBackWhereLegal};
ghost use Rattle.journals.specs.LegalJournals.{AreLegal};
ghost use Rattle.command_line.specs.Reading.{text_of};
ghost use Rattle.xlb_commands.specs.AskedReplays.{IsConsistent, HasBadOptions, IsAnswered, IsDenied, IsOutcome, IsWhyNone, LeavesOthers};
ghost use Rattle.xlb_commands.specs.AskedReplays.{IsAnsweredOf, IsDeniedOf, LacksMaps, LeavesAllOthers};
ghost use Rattle.xlb_commands.specs.EndMaps.{AreMapsLines, lines_bytes};
ghost use Rattle.xlb_commands.specs.Files.{AreKept, AreAllButFourKept, AreAllButKept};
ghost use Rattle.xlb_commands.specs.InPieces.{MayBeInPieces};
ghost use Rattle.xlb_commands.specs.Refused.{HasFailed, LacksRoom, AreUnfiled, IsReplayProgramRefusal, IsScriptFileRefusal};
ghost use Rattle.xlb_commands.specs.Refused.{IsScriptRefusal};
ghost use Rattle.xlb_commands.specs.Refused.{IsNoCapture, IsNoCaptureIn, IsCaptureRefusal, IsReplayRefused};
ghost use Rattle.xlb_commands.specs.Replays.{LeavesNothingOut, capture_reading};
ghost use Rattle.capture_readings.specs.Readings.{alters};
ghost use Rattle.xlb_commands.specs.Replays.{IsProgramOf, IsScriptOf, IsScriptFile, IsCaptureIn, IsCaptureOf, HasBytes};
ghost use Rattle.xlb_commands.specs.Replays.{recording_of, counts_text, refusals_text, AreServedSizes, AreWritten};
ghost use Rattle.xlb_commands.specs.RecordReports.{form_of, report_text, runs_shipped};

use crate::captures::kept_capture;
use crate::commands::judged_of;
use crate::end_maps::{maps_lines, text_of_lines};
use crate::fault::{Fault, Refusal};
use crate::files::{bytes_of, journal_bytes, write_journals_to, write_text_to};
use crate::in_pieces::replay_in_pieces;
use crate::left_out::is_left_out;
use crate::made_in_pieces::write_frames;
use crate::notes::{Altered, Notes};
use crate::one_run::maps_of;
use crate::parts::script_of_part;
use crate::progress::{Progress, Rounds};
use crate::record_report::report_for;
use crate::report::{Report, replayed};
use crate::shipping::shipped_program;
use crate::{hints, records};
use actors::all_are_captured;
use capture_readings::{Reading, altered_capture};
use command_line::{ReplayFiles, ReplaySettings};
use control::{Script, parse_script};
use fleet::Part;
use folders::Folder;
use guarantees::readers::readers_send_as_at_opening;
use map_updates::{MapUpdate, Misfit, first_misfit};
use replay::{Outcome, ReplayFault, replay, replay_in_turn};
use semantics::{Options, Recording};
use shard_port::Gate;
use std::alloc::{AllocError, Global};
use std::sync::Wait;
use std::thread::Threads;
use steered_replays::laws::{flows_stay_in_replays, shipped_replays_are_steered};
use verifier::Verified;
use wire::{Capture, MOST_GIVEN, MemorySink, MemorySource, Sent, read_capture, write_capture};

/// The program of a replay: a file's, if the verifier accepts it, or the shipped one.
fn program_of<D: Folder>(
    alloc: Global,
    folder: &mut D,
    image: Option<&str>,
    flows: u32,
    ring: u32,
) -> Result<Verified, Refusal>
    requires { D.failure_count folder.old < 2 ^ 64 - 1 }
    ensures program { IfOk result (λ verified. IsProgramOf (D.holds folder.old) (text_of image.entry) flows ring
        (record { version = verified.version; maps = verified.maps; code = verified.code })) }
    ensures safe { IfOk result (λ verified. IsSafeImage verified.maps verified.code) }
    ensures size { OnOk result (text_of image.entry ≡ None → AreServedSizes flows ring) }
    ensures kept { AreKept (D.holds folder.old) (D.holds folder.new) }
    ensures steady { OnOk result (D.failure_count folder.new ≡ D.failure_count folder.old) }
    ensures refused { IfErr result (λ refusal. IsReplayProgramRefusal (D.holds folder.old)
        (HasFailed (D.failure_count folder.old) (D.failure_count folder.new)) (text_of image.entry) flows ring refusal.fault) }
{
    match image {
        Some(name) => judged_of(alloc, folder, name),
        None => shipped_program(alloc, flows, ring),
    }
}

/// The script of a text.
fn parsed(alloc: Global, bytes: &[u8]) -> Result<Script, Refusal>
    ensures script { IfOk result (λ script. IsScriptText bytes.now script) }
    ensures refused { IfErr result (λ refusal. (why : ControlFault) × ExplainsScript bytes.now why × (refusal.fault ≡ Fault.Script why)) }
    ensures accepts { (script : List Command) → IsScriptText bytes.now script →
        IfErr result (λ refusal. refusal.fault ≡ Fault.Script scripts.Memory) }
{
    match parse_script(alloc, bytes) {
        Ok(script) => Ok(script),
        Err(fault) => Err(Refusal::hinted(
            Fault::Script(fault),
            hints::of_script(alloc, bytes, fault),
        )),
    }
}

/// The script of a file.
pub(crate) fn script_file<D: Folder>(
    alloc: Global,
    folder: &mut D,
    name: &str,
) -> Result<Script, Refusal>
    requires { D.failure_count folder.old < 2 ^ 64 - 1 }
    ensures script { IfOk result (λ found. IsScriptFile (D.holds folder.old) name.now found) }
    ensures kept { AreKept (D.holds folder.old) (D.holds folder.new) }
    ensures steady { OnOk result (D.failure_count folder.new ≡ D.failure_count folder.old) }
    ensures refused { IfErr result (λ refusal. IsScriptFileRefusal (D.holds folder.old)
        (HasFailed (D.failure_count folder.old) (D.failure_count folder.new)) name.now refusal.fault) }
{
    let bytes = bytes_of(alloc, folder, name)?;
    parsed(alloc, &bytes)
}

/// The script of no commands.
fn no_commands(alloc: Global) -> Result<Script, Refusal>
    ensures script { IfOk result (IsScriptText []) }
    ensures refused { IfErr result (λ refusal. refusal.fault ≡ Fault.Script scripts.Memory) }
{
    parsed(alloc, b"")
}

/// The script of a replay: a file's, or that of no commands.
fn script_of<D: Folder>(
    alloc: Global,
    folder: &mut D,
    script: Option<&str>,
) -> Result<Script, Refusal>
    requires { D.failure_count folder.old < 2 ^ 64 - 1 }
    ensures script { IfOk result (λ found. IsScriptOf (D.holds folder.old) (text_of script.entry) found) }
    ensures kept { AreKept (D.holds folder.old) (D.holds folder.new) }
    ensures steady { OnOk result (D.failure_count folder.new ≡ D.failure_count folder.old) }
    ensures refused { IfErr result (λ refusal. IsScriptRefusal (D.holds folder.old)
        (HasFailed (D.failure_count folder.old) (D.failure_count folder.new)) (text_of script.entry) refusal.fault) }
{
    match script {
        Some(name) => script_file(alloc, folder, name),
        None => no_commands(alloc),
    }
}

/// The records of a capture's bytes.
fn records_of(alloc: Global, bytes: &[u8]) -> Result<Capture, Refusal>
    ensures records { IfOk result (λ capture. IsCaptureFile bytes.now capture.records.items) }
    ensures refused { IfErr result (λ refusal. IsNoCapture bytes.now refusal.fault) }
{
    if bytes.len() as u64 > MOST_GIVEN {
        return Err(Refusal::from(Fault::Memory));
    }
    match read_capture(alloc, &mut MemorySource::new(bytes)) {
        Ok(capture) => Ok(capture),
        Err(fault) => Err(Refusal::hinted(
            Fault::Capture(fault),
            records::of_capture(alloc, bytes, fault),
        )),
    }
}

/// A refusal of a capture that was altered, with the byte of the whole file; `skipped` records were left out.
fn in_whole_file(alloc: Global, bytes: &[u8], skipped: u64, refusal: Refusal) -> Refusal
    ensures { result.fault ≡ refusal.fault }
{
    match refusal.fault {
        Fault::Capture(fault) => Refusal::hinted(
            refusal.fault,
            records::of_capture(alloc, bytes, records::behind(fault, skipped)),
        ),
        _ => refusal,
    }
}

/// The records of the capture that is read of these bytes, and in `altered` what was altered.
fn altered_records_of(
    alloc: Global,
    bytes: &[u8],
    reading: Reading,
    altered: &mut Altered,
) -> Result<Capture, Refusal>
    requires { alters reading ≡ true }
    ensures records { IfOk result (λ capture. IsCaptureIn reading bytes.now capture.records.items) }
    ensures refused { IfErr result (λ refusal. IsNoCaptureIn reading bytes.now refusal.fault) }
{
    let read = altered_capture(alloc, bytes, reading)?;
    match records_of(alloc, &read.bytes) {
        Ok(capture) => {
            let records = capture.records.len();
            altered.cut = records::cut_records(&read.bytes, records);
            altered.long = read.skipped;
            altered.padded = read.padded;
            altered.left_over = read.left_over;
            altered.whole = (records as u64).saturating_add(read.skipped);
            Ok(capture)
        }
        Err(refusal) => Err(in_whole_file(alloc, bytes, read.skipped, refusal)),
    }
}

/// The records of a capture's bytes, as these are read, and in `altered` which of them are not as their frames were: those that were cut
/// when they were captured, were skipped, or got zeros, and the one within which the bytes end.
fn records_in(
    alloc: Global,
    bytes: &[u8],
    reading: Reading,
    altered: &mut Altered,
) -> Result<Capture, Refusal>
    ensures records { IfOk result (λ capture. IsCaptureIn reading bytes.now capture.records.items) }
    ensures refused { IfErr result (λ refusal. IsNoCaptureIn reading bytes.now refusal.fault) }
{
    let is_altered = reading.alters();
    if is_altered {
        return altered_records_of(alloc, bytes, reading, altered);
    }
    match records_of(alloc, bytes) {
        Ok(capture) => {
            altered.cut = records::cut_records(bytes, capture.records.len());
            Ok(capture)
        }
        Err(refusal) => Err(refusal),
    }
}

/// How the records of a capture are read for these options.
pub(crate) fn capture_reading(asked: command_line::Reading) -> Reading
    ensures { result ≡ capture_reading asked }
{
    Reading {
        skip_long: asked.skip_long,
        pad_cut: asked.pad_cut,
        allow_cut: asked.allow_cut,
    }
}

/// The capture of a file whose bytes are in memory while it is read.
fn capture_of_bytes<D: Folder>(
    alloc: Global,
    folder: &mut D,
    name: &str,
    reading: Reading,
    altered: &mut Altered,
) -> Result<Capture, Refusal>
    requires { D.failure_count folder.old < 2 ^ 64 - 1 }
    ensures capture { IfOk result (λ capture. IsCaptureOf (D.holds folder.old) reading name.now capture.records.items) }
    ensures kept { AreKept (D.holds folder.old) (D.holds folder.new) }
    ensures steady { OnOk result (D.failure_count folder.new ≡ D.failure_count folder.old) }
    ensures refused { IfErr result (λ refusal. IsCaptureRefusal (D.holds folder.old)
        (HasFailed (D.failure_count folder.old) (D.failure_count folder.new)) reading name.now refusal.fault) }
{
    let bytes = bytes_of(alloc, folder, name)?;
    let capture = records_in(alloc, &bytes, reading, altered)?;
    Ok(capture)
}

/// The capture of a file, and in `altered` which of its records are not as their frames were.
pub(crate) fn capture_of<D: Folder>(
    alloc: Global,
    folder: &mut D,
    name: &str,
    reading: Reading,
    altered: &mut Altered,
) -> Result<Capture, Refusal>
    requires { D.failure_count folder.old < 2 ^ 64 - 1 }
    ensures capture { IfOk result (λ capture. IsCaptureOf (D.holds folder.old) reading name.now capture.records.items) }
    ensures kept { AreKept (D.holds folder.old) (D.holds folder.new) }
    ensures steady { OnOk result (D.failure_count folder.new ≡ D.failure_count folder.old) }
    ensures refused { IfErr result (λ refusal. IsCaptureRefusal (D.holds folder.old)
        (HasFailed (D.failure_count folder.old) (D.failure_count folder.new)) reading name.now refusal.fault) }
{
    match kept_capture(alloc, folder, name, reading, altered)? {
        Some(capture) => Ok(capture),
        None => capture_of_bytes(alloc, folder, name, reading, altered),
    }
}

/// The bytes of a capture file of these frames.
pub(crate) fn bytes_of_frames(alloc: Global, frames: &[Sent]) -> Result<MemorySink, AllocError>
    ensures { IfOk result (λ sink. sink.bytes ≡ capture_bytes frames.now) }
{
    let mut sink = MemorySink::new(alloc);
    match write_capture(&mut sink, frames) {
        Ok(()) => Ok(sink),
        Err(_) => Err(AllocError),
    }
}

/// Whether rows of journals are kept: where they are not wanted, and no file is named for them, they are not.
pub(crate) fn recording_of(no_journals: bool, journals: Option<&str>) -> Recording
    ensures { result ≡ recording_of no_journals (text_of journals.entry) }
{
    match journals {
        Some(_name) => Recording::Rows,
        None => if no_journals {
            Recording::NoRows
        } else {
            Recording::Rows
        },
    }
}

/// `replay`, or `replay_in_turn`, in which each command takes effect between the frames before and after it.
fn replay_at<R: Threads + Wait + Sync, G: Gate + Sync>(
    rt: &R,
    alloc: Global,
    asked: Asked<'_>,
    capture: &Capture,
    gate: &G,
) -> Result<Outcome, ReplayFault>
    requires { AreFitting asked.verified.now.maps asked.updates.now }
    ensures made { IfOk result (IsOutcome asked.entry capture.now.records.items) }
    ensures given_up { IfErr result (IsWhyNone asked.entry) }
    ensures served { OnOk result (KeepsRows asked.entry.options.journal) }
    ensures bad_options { IsErrOf result BadOptions ↔ HasBadOptions asked.entry }
{
    let Asked {
        verified,
        updates,
        script,
        options,
        recording,
        ..
    } = asked;
    if asked.exact {
        replay_in_turn(
            alloc, verified, capture, updates, script, options, recording, gate,
        )
    } else {
        replay(
            rt, alloc, verified, capture, updates, script, options, recording, gate,
        )
    }
}

/// What a replay of a program sends that only reads.
pub(crate) fn readers_send_alike(verified: &Verified)
    ensures sends { IsReader verified.now.code verified.now.states → SendsAsAtOpening verified.now.maps verified.now.code }
    ensures accepted { Accepts verified.now.version verified.now.maps verified.now.code verified.now.states }
{
    let _ = verified.image();
    if verified.is_reader() {
        readers_send_as_at_opening(verified);
    }
}

/// What holds of every replay of the shipped program, where no image is named.
pub(crate) fn steered_where_shipped(asked: Asked<'_>)
    requires consistent { IsConsistent asked }
    ensures steered { text_of asked.entry.files.now.image ≡ None → (script : List Command) (options : ShardOptions) (records : List Record)
        (outcome : Made) → AreOptions asked.entry.verified.now.maps options → AllByRecursion IsCaptured records →
        (accounted : IsAccounted (program_with asked.entry.verified.now options.shards) script options records outcome) →
        IsSteeredReplay asked.entry.ring (program_with asked.entry.verified.now options.shards) script options records outcome accounted }
    ensures totals { text_of asked.entry.files.now.image ≡ None → (script : List Command) (options : ShardOptions) (records : List Record)
        (outcome : Made) → AreOptions asked.entry.verified.now.maps options → AllByRecursion IsCaptured records →
        IsAccounted (program_with asked.entry.verified.now options.shards) script options records outcome →
        outcome.updates.items ≡ [] → outcome.counts.stopped ≡ 0 → AreTotals outcome }
    ensures tables { text_of asked.entry.files.now.image ≡ None → (script : List Command) (options : ShardOptions) (records : List Record)
        (outcome : Made) → AreOptions asked.entry.verified.now.maps options → AllByRecursion IsCaptured records →
        IsAccounted (program_with asked.entry.verified.now options.shards) script options records outcome →
        outcome.updates.items ≡ [] → MetNoFullJournal outcome.refused.items →
        AreTablesAtEnd asked.entry.ring (carried_out outcome.refused.items 0 script) (maps_at_end outcome.journals) }
    ensures services { text_of asked.entry.files.now.image ≡ None → (script : List Command) (options : ShardOptions) (records : List Record)
        (outcome : Made) → AreOptions asked.entry.verified.now.maps options → AllByRecursion IsCaptured records →
        IsAccounted (program_with asked.entry.verified.now options.shards) script options records outcome →
        outcome.updates.items ≡ [] → MetNoFullJournal outcome.refused.items →
        AreServices (carried_out outcome.refused.items 0 script) (maps_at_end outcome.journals) }
    ensures stay { FlowsStayInReplays }
{
    flows_stay_in_replays();
    match asked.files.image {
        Some(_) => {}
        None => shipped_replays_are_steered(asked.verified, asked.flows, asked.ring),
    }
}

/// A replay that was given up.
pub(crate) fn given_up(
    alloc: Global,
    options: Options,
    verified: &Verified,
    fault: ReplayFault,
) -> Refusal
    ensures { result.fault ≡ Fault.Replay fault }
{
    let hint = hints::of_replay(alloc, options, verified.image().maps(), fault);
    Refusal::hinted(Fault::Replay(fault), hint)
}

/// What a replay leaves besides the sent frames, in memory: the bytes of its files, and its report.
#[derive(Drop)]
struct Leavings {
    journals: MemorySink,
    /// The line of each record.
    lines: String,
    report: Report,
}

/// What a replay of a capture leaves, with these notes. The bytes of the journals and the lines of the records are made where a file is
/// named for them.
fn left_of(
    alloc: Global,
    files: &ReplayFiles<'_>,
    script: &Script,
    capture: &Capture,
    outcome: &Outcome,
    altered: Altered,
    notes: Option<String>,
) -> Result<Leavings, Refusal>
    requires frames { length capture.now.records.items ≡ frames_in outcome.now.counts }
    requires ends { length outcome.now.ends.items ≡ length capture.now.records.items }
    requires rows { (file : List ℕ) → text_of files.now.journals ≡ Some file → KeepsRows outcome.now.journals.options.journal }
    requires legal { AreLegal outcome.now.journals }
    ensures journals { IfOk result (λ left. (file : List ℕ) → text_of files.now.journals ≡ Some file →
        left.journals.bytes ≡ journals_text outcome.now.journals) }
    ensures reads_back { IfOk result (λ left. (file : List ℕ) → text_of files.now.journals ≡ Some file →
        ReadBackWhereLegal outcome.now.journals) }
    ensures lines { IfOk result (λ left. (file : List ℕ) → text_of files.now.report ≡ Some file →
        string_bytes left.lines ≡ report_text (form_of file) (runs_shipped files.now) script.now capture.now.records.items
        outcome.now.ends.items
        outcome.now.sent.items) }
    ensures text { IfOk result
        (λ left. string_bytes left.report.text ≡ counts_text outcome.now.counts ++ refusals_text outcome.now.refused.items) }
    ensures whole { IfOk result (λ left. (outcome.now.refused.items ≡ []) ↔ (left.report.is_refused ≡ false)) }
    ensures all { IfOk result (λ left. left.report.leaves_out ≡ false →
        LeavesNothingOut script.now capture.now.records.items outcome.now) }
    ensures maps { IfOk result (λ left. AreMapsLines (text_of files.now.maps) outcome.now.journals (lines_bytes left.report.maps)) }
    ensures refused { IfErr result (λ refusal. LacksRoom (text_of files.now.journals) refusal.fault) }
{
    let journals = journal_bytes(alloc, files.journals, &outcome.journals)?;
    let lines = report_for(
        alloc,
        files.report,
        files.image.is_none(),
        script,
        capture,
        outcome,
    )?;
    let maps = maps_lines(alloc, files.maps, &outcome.journals)?;
    let frames = capture.records.len();
    let left_out = is_left_out(altered, script, frames);
    let report = replayed(
        alloc,
        frames,
        outcome.counts,
        &outcome.refused,
        left_out,
        notes,
        maps,
    )?;
    Ok(Leavings {
        journals,
        lines,
        report,
    })
}

/// Writes the files of a replay: the sent frames, after them the journals, and after them the report, where files are named for these.
fn write_files<D: Folder>(
    alloc: Global,
    folder: &mut D,
    files: &ReplayFiles<'_>,
    left: &Leavings,
    outcome: &Outcome,
) -> Result<(), Refusal>
    requires failures { D.failure_count folder.old < 2 ^ 64 - 1 }
    requires journals { (file : List ℕ) → text_of files.now.journals ≡ Some file →
        left.now.journals.bytes ≡ journals_text outcome.now.journals }
    ensures sent { OnOk result (text_of files.now.journals ≢ Some files.now.sent.now → text_of files.now.report ≢ Some files.now.sent.now →
        D.holds folder.new files.now.sent.now (capture_bytes outcome.now.sent.items)) }
    ensures journals { OnOk result (text_of files.now.report ≢ text_of files.now.journals →
        AreWritten (D.holds folder.new) (text_of files.now.journals) outcome.now.journals) }
    ensures report { OnOk result (HasBytes (D.holds folder.new) (text_of files.now.report) (string_bytes left.now.lines)) }
    ensures steady { OnOk result (D.failure_count folder.new ≡ D.failure_count folder.old) }
    ensures others { AreAllButKept (D.holds folder.old) (D.holds folder.new) files.now.sent.now (text_of files.now.journals)
        (text_of files.now.report) }
    ensures refused { IfErr result (λ refusal. AreUnfiled (D.holds folder.old) (D.holds folder.new)
        (HasFailed (D.failure_count folder.old) (D.failure_count folder.new)) files.now (capture_bytes outcome.now.sent.items)
        outcome.now.journals refusal.fault) }
{
    write_frames(alloc, folder, files.sent, &outcome.sent)?;
    write_journals_to(alloc, folder, files.journals, &left.journals)?;
    write_text_to(alloc, folder, files.report, left.lines.as_str())?;
    Ok(())
}

/// What a replay comes to.
#[derive(Drop)]
pub enum ReplayAnswer {
    /// It was made, and its files are written.
    Made(Report),
    /// The image's maps do not take the update at this place of the command line, from 0, and nothing was run.
    Mistaken { place: usize, misfit: Misfit },
}

/// What is replayed, and how.
#[derive(Clone, Copy)]
pub(crate) struct Asked<'a> {
    pub files: &'a ReplayFiles<'a>,
    pub verified: &'a Verified,
    pub script: &'a Script,
    pub updates: &'a [MapUpdate],
    pub options: Options,
    pub recording: Recording,
    /// The slots of the shipped program's lookup table.
    pub ring: u32,
    /// The notes of its flow table.
    pub flows: u32,
    /// Whether each command takes effect between the frames before and after it.
    pub exact: bool,
    /// Whether the summary of the traffic is printed.
    pub summary: bool,
    /// How the bytes of the capture are read.
    pub reading: Reading,
    /// The part of the capture that is replayed; the whole capture where it is missing.
    pub part: Option<Part>,
}

impl Asked<'_> {
    /// Whether the replay may be made in pieces: it is exact, and the sent frames and the report have two names.
    fn is_in_pieces(self) -> bool
        ensures { IsTrue result → MayBeInPieces self.entry }
    {
        self.exact && self.files.report != Some(self.files.sent)
    }
}

/// Makes the replay of these records, in memory.
fn replay_records<R: Threads + Wait + Sync, D: Folder, P: Progress + Sync>(
    rt: &R,
    alloc: Global,
    folder: &mut D,
    asked: Asked<'_>,
    capture: &Capture,
    altered: Altered,
    progress: &P,
) -> Result<Report, Refusal>
    requires failures { D.failure_count folder.old < 2 ^ 64 - 1 }
    requires consistent { IsConsistent asked }
    ensures done { IfOk result (IsAnsweredOf (D.holds folder.new) asked.entry capture.now.records.items) }
    ensures steady { OnOk result (D.failure_count folder.new ≡ D.failure_count folder.old) }
    ensures kept { LeavesOthers (D.holds folder.old) (D.holds folder.new) asked.entry }
    ensures refused { IfErr result (λ refusal. IsDeniedOf (D.holds folder.old) (D.holds folder.new)
        (HasFailed (D.failure_count folder.old) (D.failure_count folder.new)) asked.entry capture.now.records.items refusal.fault) }
{
    let files = asked.files;
    let frames = capture.records.len() as u64;
    let rounds = Rounds::of(
        progress,
        asked.verified,
        &asked.options,
        asked.exact,
        frames,
    );
    readers_send_alike(asked.verified);
    steered_where_shipped(asked);
    all_are_captured(capture);
    let outcome = match replay_at(rt, alloc, asked, capture, &rounds) {
        Ok(outcome) => outcome,
        Err(fault) => return Err(given_up(alloc, asked.options, asked.verified, fault)),
    };
    let _ = outcome.journals.options();
    let notes = Notes::of(asked, altered)
        .text(alloc, capture, asked.script, &outcome)
        .ok();
    let left = left_of(
        alloc,
        files,
        asked.script,
        capture,
        &outcome,
        altered,
        notes,
    )?;
    write_files(alloc, folder, files, &left, &outcome)?;
    Ok(left.report)
}

/// Makes the replay with the whole capture in memory, or of the part of it that is asked for.
fn replay_whole<R: Threads + Wait + Sync, D: Folder, P: Progress + Sync>(
    rt: &R,
    alloc: Global,
    folder: &mut D,
    asked: Asked<'_>,
    progress: &P,
) -> Result<Report, Refusal>
    requires failures { D.failure_count folder.old < 2 ^ 64 - 1 }
    requires consistent { IsConsistent asked }
    ensures done { IfOk result (IsAnswered (D.holds folder.old) (D.holds folder.new) asked.entry) }
    ensures steady { OnOk result (D.failure_count folder.new ≡ D.failure_count folder.old) }
    ensures kept { LeavesOthers (D.holds folder.old) (D.holds folder.new) asked.entry }
    ensures refused { IfErr result (λ refusal. IsDenied (D.holds folder.old) (D.holds folder.new)
        (HasFailed (D.failure_count folder.old) (D.failure_count folder.new)) asked.entry refusal.fault) }
{
    let mut altered = Altered::default();
    let capture = capture_of(
        alloc,
        folder,
        asked.files.capture,
        asked.reading,
        &mut altered,
    )?;
    match asked.part {
        None => replay_records(rt, alloc, folder, asked, &capture, altered, progress),
        Some(part) => {
            let script = script_of_part(alloc, part, &capture.records, asked.script)?;
            let taken = part.taken_from(capture);
            let asked_of_part = Asked {
                script: &script,
                ..asked
            };
            replay_records(rt, alloc, folder, asked_of_part, &taken, altered, progress)
        }
    }
}

/// Makes the replay, in pieces where that is possible, else with the whole capture in memory.
fn replay_once<R: Threads + Wait + Sync, D: Folder, P: Progress + Sync>(
    rt: &R,
    alloc: Global,
    folder: &mut D,
    asked: Asked<'_>,
    progress: &P,
) -> Result<Report, Refusal>
    requires failures { D.failure_count folder.old < 2 ^ 64 - 1 }
    requires consistent { IsConsistent asked }
    ensures done { IfOk result (IsAnswered (D.holds folder.old) (D.holds folder.new) asked.entry) }
    ensures steady { OnOk result (D.failure_count folder.new ≡ D.failure_count folder.old) }
    ensures kept { LeavesOthers (D.holds folder.old) (D.holds folder.new) asked.entry }
    ensures refused { IfErr result (λ refusal. IsDenied (D.holds folder.old) (D.holds folder.new)
        (HasFailed (D.failure_count folder.old) (D.failure_count folder.new)) asked.entry refusal.fault) }
{
    if !asked.is_in_pieces() {
        return replay_whole(rt, alloc, folder, asked, progress);
    }
    match replay_in_pieces(alloc, folder, asked, progress) {
        Ok(Some(report)) => Ok(report),
        Ok(None) => replay_whole(rt, alloc, folder, asked, progress),
        Err(refusal) => Err(refusal),
    }
}

/// Makes the replay, and last of all writes what the maps hold then, where a file is named for it.
fn replay_with_maps<R: Threads + Wait + Sync, D: Folder, P: Progress + Sync>(
    rt: &R,
    alloc: Global,
    folder: &mut D,
    asked: Asked<'_>,
    progress: &P,
) -> Result<Report, Refusal>
    requires failures { D.failure_count folder.old < 2 ^ 64 - 1 }
    requires consistent { IsConsistent asked }
    ensures done { IfOk result (IsAnswered (D.holds folder.old) (D.holds folder.new) asked.entry) }
    ensures maps { IfOk result (λ report. HasBytes (D.holds folder.new) (text_of asked.entry.files.now.maps) (lines_bytes report.maps)) }
    ensures kept { LeavesAllOthers (D.holds folder.old) (D.holds folder.new) asked.entry }
    ensures refused { IfErr result (λ refusal. IsDenied (D.holds folder.old) (D.holds folder.new)
        (HasFailed (D.failure_count folder.old) (D.failure_count folder.new)) asked.entry refusal.fault
        ⊎ LacksMaps (D.holds folder.old) (D.holds folder.new)
        (HasFailed (D.failure_count folder.old) (D.failure_count folder.new)) asked.entry refusal.fault) }
{
    let report = replay_once(rt, alloc, folder, asked, progress)?;
    write_text_to(alloc, folder, asked.files.maps, text_of_lines(&report.maps))?;
    Ok(report)
}

/// Runs the frames of a capture, and writes those that are sent, and the journals, a line for each record and what the maps hold at the end
/// where files are named for them. All input is read and checked before anything starts: the image, the script, the capture, then the
/// options. Before the first frame the controller makes the updates; ones that the image's maps do not take are a mistake of the command
/// line, and then neither script nor capture is read. No file is made where one is refused, nor where memory is refused for anything that
/// is written or printed.
pub fn replay_files<R: Threads + Wait + Sync, D: Folder, P: Progress + Sync>(
    rt: &R,
    alloc: Global,
    folder: &mut D,
    settings: &ReplaySettings<'_>,
    progress: &P,
) -> Result<ReplayAnswer, Refusal>
    requires failures { D.failure_count folder.old < 2 ^ 64 - 1 }
    ensures done { IfOk result (IsReplayAnswer (D.holds folder.old) (D.holds folder.new) settings.now) }
    ensures kept { AreAllButFourKept (D.holds folder.old) (D.holds folder.new) settings.now.files.sent.now
        (text_of settings.now.files.journals) (text_of settings.now.files.report) (text_of settings.now.files.maps) }
    ensures refused { IfErr result (λ refusal. IsReplayRefused (D.holds folder.old) (D.holds folder.new)
        (HasFailed (D.failure_count folder.old) (D.failure_count folder.new)) settings.now refusal.fault) }
{
    let files = &settings.files;
    let updates: &[MapUpdate] = &settings.updates;
    let verified = program_of(alloc, folder, files.image, settings.flows, settings.ring)?;
    if let Some((place, misfit)) = first_misfit(maps_of(&verified), updates) {
        return Ok(ReplayAnswer::Mistaken { place, misfit });
    }
    let script = script_of(alloc, folder, files.script)?;
    let asked = Asked {
        files,
        verified: &verified,
        script: &script,
        updates,
        options: settings.options,
        recording: recording_of(settings.no_journals, files.journals),
        ring: settings.ring,
        flows: settings.flows,
        exact: settings.exact,
        summary: settings.summary,
        reading: capture_reading(settings.reading),
        part: settings.part,
    };
    let report = replay_with_maps(rt, alloc, folder, asked, progress)?;
    Ok(ReplayAnswer::Made(report.of_strict(settings.strict)))
}
