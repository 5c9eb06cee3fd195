//! The program, except its command line.

ghost use Rattle.std.specs.Prelude.{◌≡◌, ◌+◌, ◌-◌, ◌<◌, ◌≤◌, ◌^◌, ℕ, List, true, false};
ghost use Rattle.std.specs.Prelude.{drop, length, IfErr, IfOk, string_bytes};
ghost use Rattle.std.specs.Io.KnownBytes.{append_known};
ghost use Rattle.faults.specs.Refusals.{IsRefusalText};
ghost use Rattle.xlb_commands.specs.Clashes.{AreApart, AreFree};
ghost use Rattle.xlb_commands.specs.FaultLines.{fault_line, mistake_text};
ghost use Rattle.xlb_commands.specs.Results.{AreNotesPrinted, IsAnswer, IsDone, IsNoted, KeepsFiles, stream};
ghost use Rattle.xlb_commands.specs.Refused.{HasFailed, IsMistaken, IsRefused, IsRefusedWith, PrintsClash, PrintsMistake};
ghost use Rattle.xlb_commands.specs.Refused.{PrintsPresent, PrintsRefusal};
ghost use Rattle.xlb_commands.specs.Refused.{printed_notes};

use crate::clashes::{Clash, clash_of};
use crate::commands::{
    assemble_file, audit_file, check, check_explained, disassemble, disassemble_source,
};
use crate::comparing::{ComparisonAnswer, compare_files};
use crate::fault::{Fault, Refusal};
use crate::fault_lines::fault_line;
use crate::looking_back::{ReportAnswer, flows_of_files, page_of_files};
use crate::one_run::{RunAnswer, run_once};
use crate::present::{in_the_way, present_text};
use crate::progress::Progress;
use crate::replays::{ReplayAnswer, capture_reading, replay_files};
use crate::report::Report;
use crate::shipping::write_shipped;
use crate::tables::table_file;
use crate::timed::timed_file;
use command_line::Settings;
use faults::refusal_text;
use folders::Folder;
use map_updates::Misfit;
use mistakes::explained;
use std::alloc::{AllocError, Global};
use std::sync::Wait;
use std::thread::Threads;
use wire::{Failed, Sink, write_all};

/// The status of a command that was done.
const DONE: u8 = 0;

/// The status of a command that was refused.
const REFUSED: u8 = 1;

/// The status of a mistake of the command line.
const MISTAKEN: u8 = 2;

/// What a command comes to that is not refused.
#[derive(Drop)]
enum CommandAnswer {
    /// It was done, or all except a part of it.
    Reported(Report),
    /// A mistake of the command line that shows only in the image: its maps do not take the update at this place, from 0.
    Mistaken { place: usize, misfit: Misfit },
    /// Files that cannot be compared, or one that is no report: the line that says why.
    Unlike(String),
}

impl CommandAnswer {
    /// A command that was done, with what it prints.
    fn reported(text: String) -> CommandAnswer
        ensures { (report : _) × (result ≡ CommandAnswer.Reported report) × (report.is_refused ≡ false) × (report.text ≡ text) }
    {
        CommandAnswer::Reported(Report::done(text))
    }

    /// The same with notes.
    fn noted(text: String, notes: Option<String>) -> CommandAnswer
        ensures { (report : _) × (result ≡ CommandAnswer.Reported report) × (report.is_refused ≡ false) × (report.text ≡ text) }
    {
        CommandAnswer::Reported(Report {
            text,
            is_refused: false,
            leaves_out: false,
            notes,
            maps: None,
        })
    }
}

/// Does what the settings say, and returns what is to be printed.
fn answer<R: Threads + Wait + Sync, D: Folder, P: Progress + Sync>(
    rt: &R,
    alloc: Global,
    settings: &Settings<'_>,
    folder: &mut D,
    progress: &P,
) -> Result<CommandAnswer, Refusal>
    requires { D.failure_count folder.old < 2 ^ 64 - 1 }
    ensures answered { IfOk result (IsAnswer (D.holds folder.old) (D.holds folder.new) settings.now) }
    ensures kept { KeepsFiles (D.holds folder.old) (D.holds folder.new) settings.now }
    ensures refused { IfErr result (λ refusal. IsRefusedWith (D.holds folder.old) (D.holds folder.new)
        (HasFailed (D.failure_count folder.old) (D.failure_count folder.new)) settings.now refusal.fault) }
{
    match settings {
        Settings::Check { image, explain } => {
            if *explain {
                Ok(CommandAnswer::reported(check_explained(alloc, folder, image)?))
            } else {
                Ok(CommandAnswer::reported(check(alloc, folder, image)?))
            }
        }
        Settings::Run {
            files,
            now,
            worker,
            updates,
        } => match run_once(alloc, folder, files, *now, *worker, updates)? {
            RunAnswer::Printed { text, notes } => Ok(CommandAnswer::noted(text, notes)),
            RunAnswer::Mistaken { place, misfit } => Ok(CommandAnswer::Mistaken { place, misfit }),
        },
        Settings::Disasm { image, source } => {
            if *source {
                Ok(CommandAnswer::reported(disassemble_source(alloc, folder, image)?))
            } else {
                Ok(CommandAnswer::reported(disassemble(alloc, folder, image)?))
            }
        }
        Settings::Audit { image, journals } => {
            Ok(CommandAnswer::reported(audit_file(alloc, folder, image, journals)?))
        }
        Settings::Explain { about } => Ok(CommandAnswer::reported(explained(alloc, about)?)),
        Settings::Asm { text, out, source } => {
            Ok(CommandAnswer::reported(assemble_file(alloc, folder, text, out, *source)?))
        }
        Settings::Shipped { out, ring, flows } => {
            Ok(CommandAnswer::reported(write_shipped(alloc, folder, *flows, *ring, out)?))
        }
        Settings::Table { script, ring } => {
            Ok(CommandAnswer::Reported(table_file(alloc, folder, script, *ring)?))
        }
        Settings::Script {
            capture,
            timed,
            reading,
        } => {
            let reading = capture_reading(*reading);
            Ok(CommandAnswer::Reported(timed_file(alloc, folder, capture, timed, reading)?))
        }
        Settings::Compare { first, second } => {
            match compare_files(alloc, folder, first, second)? {
                ComparisonAnswer::Compared { text, differs } => {
                    Ok(CommandAnswer::Reported(Report::compared(text, differs)))
                }
                ComparisonAnswer::Unlike(text) => Ok(CommandAnswer::Unlike(text)),
            }
        }
        Settings::Flows { report, script } => {
            match flows_of_files(alloc, folder, report, script)? {
                ReportAnswer::Shown { text, notes } => Ok(CommandAnswer::noted(text, notes)),
                ReportAnswer::NoReport(text) => Ok(CommandAnswer::Unlike(text)),
            }
        }
        Settings::Page { report, script } => {
            match page_of_files(alloc, folder, report, script)? {
                ReportAnswer::Shown { text, notes } => Ok(CommandAnswer::noted(text, notes)),
                ReportAnswer::NoReport(text) => Ok(CommandAnswer::Unlike(text)),
            }
        }
        Settings::Replay(asked) => match replay_files(rt, alloc, folder, asked, progress)? {
            ReplayAnswer::Made(report) => Ok(CommandAnswer::Reported(report)),
            ReplayAnswer::Mistaken { place, misfit } => Ok(CommandAnswer::Mistaken {
                place,
                misfit,
            }),
        },
    }
}

/// Which update the image's maps do not take, counted from 1, and why.
fn mistake_text(alloc: Global, place: usize, misfit: Misfit) -> Result<String, AllocError>
    ensures { IfOk result (λ text. string_bytes text ≡ mistake_text place misfit) }
{
    let number = place as u128 + 1;
    let why = misfit.text(alloc)?;
    format!(in alloc; "error: update {number}: {why}\n")
}

/// Prints which update the image's maps do not take, and why. Where memory is refused, 8 is printed in its place.
fn mistake<E: Sink>(alloc: Global, place: usize, misfit: Misfit, err: &mut E) -> u8
    requires { E.failure_count err.old < 2 ^ 64 - 1 }
    ensures status { result ≡ 2 }
    ensures printed { E.failure_count err.new ≡ E.failure_count err.old → PrintsMistake place misfit (E.held err.old) (E.held err.new) }
{
    match mistake_text(alloc, place, misfit) {
        Ok(text) => print(err, text.as_bytes()),
        Err(_no_memory) => print(err, b"fault 8 Memory\n"),
    }
    MISTAKEN
}

/// Prints which file would be written over another one. Where memory is refused, 8 is printed in its place.
fn refuse_clash<E: Sink>(alloc: Global, clash: &Clash<'_>, err: &mut E) -> u8
    requires { E.failure_count err.old < 2 ^ 64 - 1 }
    ensures status { result ≡ 2 }
    ensures printed { E.failure_count err.new ≡ E.failure_count err.old →
        PrintsClash clash.now.written.now clash.now.other.now (E.held err.old) (E.held err.new) }
{
    match clash.text(alloc) {
        Ok(text) => print(err, text.as_bytes()),
        Err(_no_memory) => print(err, b"fault 8 Memory\n"),
    }
    MISTAKEN
}

/// Prints which file that is to be written is there already. Where memory is refused, 8 is printed in its place.
fn refuse_present<E: Sink>(alloc: Global, name: &str, err: &mut E) -> u8
    requires { E.failure_count err.old < 2 ^ 64 - 1 }
    ensures status { result ≡ 2 }
    ensures printed { E.failure_count err.new ≡ E.failure_count err.old → PrintsPresent name.now (E.held err.old) (E.held err.new) }
{
    match present_text(alloc, name) {
        Ok(text) => print(err, text.as_bytes()),
        Err(_no_memory) => print(err, b"fault 8 Memory\n"),
    }
    MISTAKEN
}

/// Prints why files cannot be compared, or one is no report.
fn refuse_unlike<E: Sink>(text: &str, err: &mut E) -> u8
    requires { E.failure_count err.old < 2 ^ 64 - 1 }
    ensures status { result ≡ 2 }
    ensures printed { E.failure_count err.new ≡ E.failure_count err.old → E.held err.new ≡ append_known (E.held err.old) text.now }
{
    print(err, text.as_bytes());
    MISTAKEN
}

/// Prints a text without its first byte.
fn print_below<E: Sink>(err: &mut E, text: &[u8])
    requires err { E.failure_count err.old < 2 ^ 64 - 1 }
    requires text { 1 ≤ length text.now }
    ensures { E.failure_count err.new ≡ E.failure_count err.old → E.held err.new ≡ append_known (E.held err.old) (drop 1 text.now) }
{
    print(err, &text[1..]);
}

/// Prints the notes of a report as lines that each begin with two blanks: those below an empty line. Without memory for them nothing is
/// printed.
fn print_notes<E: Sink>(alloc: Global, report: &Report, err: &mut E)
    requires { E.failure_count err.old < 2 ^ 64 - 1 }
    ensures { AreNotesPrinted (stream (E.held err.old) (E.failure_count err.old)) (stream (E.held err.new) (E.failure_count err.new)) }
{
    let notes = match &report.notes {
        Some(notes) => notes.as_str(),
        None => "",
    };
    match refusal_text(alloc, "", notes) {
        Ok(text) => print_below(err, &text),
        Err(_no_memory) => print(err, b""),
    }
}

/// Prints the notes for people on a run or a replay that was made, on tables, on a timed script, or on flows. Nothing is printed of another
/// command.
fn note<E: Sink>(alloc: Global, settings: &Settings<'_>, report: &Report, err: &mut E)
    requires { E.failure_count err.old < 2 ^ 64 - 1 }
    ensures { IsNoted settings.now (stream (E.held err.old) (E.failure_count err.old)) (stream (E.held err.new) (E.failure_count err.new)) }
{
    match settings {
        Settings::Replay(_) => print_notes(alloc, report, err),
        Settings::Table { .. } => print_notes(alloc, report, err),
        Settings::Script { .. } => print_notes(alloc, report, err),
        Settings::Run { .. } => print_notes(alloc, report, err),
        Settings::Flows { .. } => print_notes(alloc, report, err),
        Settings::Check { .. }
        | Settings::Disasm { .. }
        | Settings::Audit { .. }
        | Settings::Explain { .. }
        | Settings::Asm { .. }
        | Settings::Compare { .. }
        | Settings::Page { .. }
        | Settings::Shipped { .. } => {}
    }
}

/// The text that is printed of a refusal: the fault's line, and notes below it.
fn message(alloc: Global, refusal: &Refusal) -> Result<Vec<u8>, AllocError>
    ensures { IfOk result (λ text. IsRefusalText (fault_line refusal.now.fault) (printed_notes refusal.now.notes) text.items) }
{
    let line = fault_line(alloc, refusal.fault)?;
    match &refusal.notes {
        Some(notes) => refusal_text(alloc, line.as_str(), notes.as_str()),
        None => refusal_text(alloc, line.as_str(), ""),
    }
}

/// Prints a text, as far as the stream takes it.
fn print<E: Sink>(err: &mut E, text: &[u8])
    requires { E.failure_count err.old < 2 ^ 64 - 1 }
    ensures { E.failure_count err.new ≡ E.failure_count err.old → E.held err.new ≡ append_known (E.held err.old) text.now }
{
    let _ = write_all(err, text);
}

/// Prints a refusal. Where memory is refused, 8 is printed in its place.
fn refuse<E: Sink>(alloc: Global, refusal: &Refusal, err: &mut E) -> u8
    requires { E.failure_count err.old < 2 ^ 64 - 1 }
    ensures status { result ≡ 1 }
    ensures printed { E.failure_count err.new ≡ E.failure_count err.old →
        PrintsRefusal refusal.now.fault (printed_notes refusal.now.notes) (E.held err.old) (E.held err.new) }
{
    match message(alloc, refusal) {
        Ok(text) => print(err, &text),
        Err(_) => print(err, b"fault 8 Memory\n"),
    }
    REFUSED
}

/// The status of a command that was done: 1 where a part of it was refused.
fn status_of(is_refused: bool) -> u8
    ensures done { result ≡ 0 → is_refused ≡ false }
    ensures part { result ≡ 1 → is_refused ≡ true }
    ensures only { result < 2 }
{
    if is_refused { REFUSED } else { DONE }
}

/// Does what the settings say, over the files of a folder: prints what the command prints and returns 0; or prints the line of the first
/// fault of what the command reads on `err`, with notes for people below it, and returns 1. The fault is 7 where what the command prints
/// could not be printed; the line is that of fault 8 where there was no memory for it. Where commands of a replay's script were refused,
/// the report is printed and names them, and the status is 1. Where the image's maps do not take an update of a run or a replay, or a file
/// that is to be written is another one of the command's, or is there already where nothing may be written over, or files cannot be
/// compared or one is no report, that is printed on `err`, and the status is 2, as of other mistakes in the command's words. After the
/// report of a run, of a replay, of tables, or of flows, lines for people may follow on `err`.
pub fn serve<R: Threads + Wait + Sync, D: Folder, P: Progress + Sync, O: Sink, E: Sink>(
    rt: &R,
    alloc: Global,
    settings: &Settings<'_>,
    folder: &mut D,
    progress: &P,
    out: &mut O,
    err: &mut E,
) -> u8
    requires folder { D.failure_count folder.old < 2 ^ 64 - 1 }
    requires out { O.failure_count out.old < 2 ^ 64 - 1 }
    requires err { E.failure_count err.old < 2 ^ 64 - 1 }
    ensures status { result < 3 }
    ensures done { result ≡ 0 → (text : List ℕ) × IsDone (D.holds folder.old) (D.holds folder.new) settings.now text
        × (O.held out.new ≡ append_known (O.held out.old) text) }
    ensures noted { result ≡ 0 → IsNoted settings.now (stream (E.held err.old) (E.failure_count err.old))
        (stream (E.held err.new) (E.failure_count err.new)) }
    ensures apart { result < 2 → AreApart settings.now }
    ensures free { result < 2 → AreFree (D.has folder.old) settings.now }
    ensures kept { KeepsFiles (D.holds folder.old) (D.holds folder.new) settings.now }
    ensures refused { result ≡ 1 → IsRefused (D.holds folder.old) (D.holds folder.new)
        (HasFailed (D.failure_count folder.old) (D.failure_count folder.new)) settings.now
        (stream (O.held out.old) (O.failure_count out.old)) (stream (O.held out.new) (O.failure_count out.new))
        (stream (E.held err.old) (E.failure_count err.old)) (stream (E.held err.new) (E.failure_count err.new)) }
    ensures mistaken { result ≡ 2 → IsMistaken (D.holds folder.old) (D.holds folder.new) (D.are_one folder.old) (D.has folder.old) settings.now
        (stream (O.held out.old) (O.failure_count out.old)) (stream (O.held out.new) (O.failure_count out.new))
        (stream (E.held err.old) (E.failure_count err.old)) (stream (E.held err.new) (E.failure_count err.new)) }
{
    if let Some(clash) = clash_of(folder, settings) {
        return refuse_clash(alloc, &clash, err);
    }
    if let Some(name) = in_the_way(folder, settings) {
        return refuse_present(alloc, name, err);
    }
    match answer(rt, alloc, settings, folder, progress) {
        Ok(CommandAnswer::Mistaken { place, misfit }) => mistake(alloc, place, misfit, err),
        Ok(CommandAnswer::Unlike(text)) => refuse_unlike(text.as_str(), err),
        Ok(CommandAnswer::Reported(report)) => match write_all(out, report.text.as_bytes()) {
            Ok(()) => {
                note(alloc, settings, &report, err);
                status_of(report.is_refused)
            }
            Err(Failed) => refuse(alloc, &Refusal::from(Fault::Output), err),
        },
        Err(refusal) => refuse(alloc, &refusal, err),
    }
}
