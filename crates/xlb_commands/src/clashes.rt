//! Files that a command would write over others that it has.

ghost use Rattle.std.specs.Prelude.{◌≡◌, ◌≢◌, ◌⊎◌, ℕ, List, Some, None, IfOk, IfSome, string_bytes};
ghost use Rattle.command_line.specs.Reading.{text_of};
ghost use Rattle.xlb_commands.specs.Clashes.{AreApart, AreThese, IsBeforeReport, IsOver, IsOverInReplay, IsOverInRun, IsReplayInput};
ghost use Rattle.xlb_commands.specs.Clashes.{IsRunInput, IsWrittenBefore, clash_text};

use crate::printable::in_one_line;
use command_line::{ReplayFiles, RunFiles, Settings};
use folders::Folder;
use std::alloc::{AllocError, Global};

/// Two names of one file.
#[derive(Clone, Copy, Debug, PartialEq, Eq)]
pub(crate) struct Clash<'a> {
    /// What is to be written.
    pub written: &'a str,
    /// What is read, or written before.
    pub other: &'a str,
}

impl Clash<'_> {
    /// The line that is printed of it. It can fail only for lack of memory.
    pub(crate) fn text(&self, alloc: Global) -> Result<String, AllocError>
        ensures { IfOk result (λ text. string_bytes text ≡ clash_text self.now.written.now self.now.other.now) }
    {
        let written = in_one_line(alloc, self.written)?;
        let other = in_one_line(alloc, self.other)?;
        let (written, other) = (written.as_str(), other.as_str());
        format!(in alloc; "error: {written} would be written over {other}: they are one file\n")
    }
}

/// Whether a file that is written, if there is one, is another one, if there is that.
fn over<'a, D: Folder>(
    folder: &D,
    written: Option<&'a str>,
    other: Option<&'a str>,
) -> Option<Clash<'a>>
    ensures found { IfSome result (λ clash. (text_of written.entry ≡ Some clash.written.now) × (text_of other.entry ≡ Some clash.other.now)
        × D.are_one folder.now clash.written.now clash.other.now) }
    ensures none { result ≡ None → (name second : List ℕ) → text_of written.entry ≡ Some name → text_of other.entry ≡ Some second →
        name ≢ second }
{
    let (Some(written), Some(other)) = (written, other) else {
        return None;
    };
    if folder.is_same(written, other) {
        Some(Clash { written, other })
    } else {
        None
    }
}

/// Whether one of two files that are written, if there are both, is the other. Each has a name of its own until it is finished, which may be
/// the other's: so both orders are asked for.
fn over_output<'a, D: Folder>(
    folder: &D,
    written: Option<&'a str>,
    other: Option<&'a str>,
) -> Option<Clash<'a>>
    ensures found { IfSome result (λ clash. AreThese (text_of written.entry) (text_of other.entry) clash.written.now clash.other.now) }
    ensures one { IfSome result (λ clash. D.are_one folder.now clash.written.now clash.other.now) }
    ensures none { result ≡ None → (name second : List ℕ) → text_of written.entry ≡ Some name → text_of other.entry ≡ Some second →
        name ≢ second }
{
    if let Some(clash) = over(folder, written, other) {
        return Some(clash);
    }
    over(folder, other, written)
}

/// Whether a file that is written, if there is one, is one that a replay reads.
fn over_inputs<'a, D: Folder>(
    folder: &D,
    written: Option<&'a str>,
    files: &ReplayFiles<'a>,
) -> Option<Clash<'a>>
    ensures found { IfSome result (λ clash. (text_of written.entry ≡ Some clash.written.now) × IsReplayInput files.now clash.other.now
        × D.are_one folder.now clash.written.now clash.other.now) }
    ensures none { result ≡ None → (name second : List ℕ) → text_of written.entry ≡ Some name → IsReplayInput files.now second →
        name ≢ second }
{
    if let Some(clash) = over(folder, written, Some(files.capture)) {
        return Some(clash);
    }
    if let Some(clash) = over(folder, written, files.image) {
        return Some(clash);
    }
    over(folder, written, files.script)
}

/// Whether the sent frames of a replay, or its journals, are written over what it reads, or over each other.
fn frames_or_journals_over<'a, D: Folder>(folder: &D, files: &ReplayFiles<'a>) -> Option<Clash<'a>>
    ensures found { IfSome result (λ clash. IsOverInReplay files.now clash.written.now clash.other.now) }
    ensures one { IfSome result (λ clash. D.are_one folder.now clash.written.now clash.other.now) }
    ensures sent { result ≡ None → (second : List ℕ) → IsReplayInput files.now second → files.now.sent.now ≢ second }
    ensures journals { result ≡ None → (name second : List ℕ) → text_of files.now.journals ≡ Some name
        → IsReplayInput files.now second ⊎ (second ≡ files.now.sent.now) → name ≢ second }
{
    if let Some(clash) = over_inputs(folder, Some(files.sent), files) {
        return Some(clash);
    }
    if let Some(clash) = over_inputs(folder, files.journals, files) {
        return Some(clash);
    }
    over_output(folder, files.journals, Some(files.sent))
}

/// Whether a file that is written after the sent frames and the journals of a replay, if there is one, and one of these are one, or it is
/// one that the replay reads.
fn over_before_report<'a, D: Folder>(
    folder: &D,
    written: Option<&'a str>,
    files: &ReplayFiles<'a>,
) -> Option<Clash<'a>>
    ensures found { IfSome result (λ clash. ((text_of written.entry ≡ Some clash.written.now) × IsBeforeReport files.now clash.other.now)
        ⊎ ((text_of written.entry ≡ Some clash.other.now) × IsWrittenBefore files.now clash.written.now)) }
    ensures one { IfSome result (λ clash. D.are_one folder.now clash.written.now clash.other.now) }
    ensures none { result ≡ None → (name second : List ℕ) → text_of written.entry ≡ Some name → IsBeforeReport files.now second →
        name ≢ second }
{
    if let Some(clash) = over_inputs(folder, written, files) {
        return Some(clash);
    }
    if let Some(clash) = over_output(folder, written, Some(files.sent)) {
        return Some(clash);
    }
    over_output(folder, written, files.journals)
}

/// Whether what the maps hold after a replay is written over what it reads or writes, or that over this.
fn maps_over<'a, D: Folder>(folder: &D, files: &ReplayFiles<'a>) -> Option<Clash<'a>>
    ensures found { IfSome result (λ clash. IsOverInReplay files.now clash.written.now clash.other.now) }
    ensures one { IfSome result (λ clash. D.are_one folder.now clash.written.now clash.other.now) }
    ensures none { result ≡ None → (name second : List ℕ) → text_of files.now.maps ≡ Some name
        → IsBeforeReport files.now second ⊎ (text_of files.now.report ≡ Some second) → name ≢ second }
{
    if let Some(clash) = over_before_report(folder, files.maps, files) {
        return Some(clash);
    }
    over_output(folder, files.maps, files.report)
}

/// Whether the report of a replay, or what its maps hold, is written over what it reads or writes, or that over these.
fn report_or_maps_over<'a, D: Folder>(folder: &D, files: &ReplayFiles<'a>) -> Option<Clash<'a>>
    ensures found { IfSome result (λ clash. IsOverInReplay files.now clash.written.now clash.other.now) }
    ensures one { IfSome result (λ clash. D.are_one folder.now clash.written.now clash.other.now) }
    ensures report { result ≡ None → (name second : List ℕ) → text_of files.now.report ≡ Some name → IsBeforeReport files.now second →
        name ≢ second }
    ensures maps { result ≡ None → (name second : List ℕ) → text_of files.now.maps ≡ Some name
        → IsBeforeReport files.now second ⊎ (text_of files.now.report ≡ Some second) → name ≢ second }
{
    if let Some(clash) = over_before_report(folder, files.report, files) {
        return Some(clash);
    }
    maps_over(folder, files)
}

/// The same of all that a replay writes.
fn over_in_replay<'a, D: Folder>(folder: &D, files: &ReplayFiles<'a>) -> Option<Clash<'a>>
    ensures found { IfSome result (λ clash. IsOverInReplay files.now clash.written.now clash.other.now) }
    ensures one { IfSome result (λ clash. D.are_one folder.now clash.written.now clash.other.now) }
    ensures none { result ≡ None → (written other : List ℕ) → IsOverInReplay files.now written other → written ≢ other }
{
    if let Some(clash) = frames_or_journals_over(folder, files) {
        return Some(clash);
    }
    report_or_maps_over(folder, files)
}

/// Whether a file that is written, if there is one, is one that a run reads.
fn over_run_inputs<'a, D: Folder>(
    folder: &D,
    written: Option<&'a str>,
    files: &RunFiles<'a>,
) -> Option<Clash<'a>>
    ensures found { IfSome result (λ clash. (text_of written.entry ≡ Some clash.written.now) × IsRunInput files.now clash.other.now) }
    ensures one { IfSome result (λ clash. D.are_one folder.now clash.written.now clash.other.now) }
    ensures none { result ≡ None → (name second : List ℕ) → text_of written.entry ≡ Some name → IsRunInput files.now second →
        name ≢ second }
{
    if let Some(clash) = over(folder, written, Some(files.image)) {
        return Some(clash);
    }
    over(folder, written, Some(files.frame))
}

/// The same of what a run writes: the journals, and what the maps hold.
fn over_in_run<'a, D: Folder>(folder: &D, files: &RunFiles<'a>) -> Option<Clash<'a>>
    ensures found { IfSome result (λ clash. IsOverInRun files.now clash.written.now clash.other.now) }
    ensures one { IfSome result (λ clash. D.are_one folder.now clash.written.now clash.other.now) }
    ensures none { result ≡ None → (written other : List ℕ) → IsOverInRun files.now written other → written ≢ other }
{
    if let Some(clash) = over_run_inputs(folder, files.journals, files) {
        return Some(clash);
    }
    if let Some(clash) = over_run_inputs(folder, files.maps, files) {
        return Some(clash);
    }
    over_output(folder, files.maps, files.journals)
}

/// The first file that a command would write over another one that it has.
pub(crate) fn clash_of<'a, D: Folder>(folder: &D, settings: &Settings<'a>) -> Option<Clash<'a>>
    ensures found { IfSome result (λ clash. IsOver settings.now clash.written.now clash.other.now) }
    ensures one { IfSome result (λ clash. D.are_one folder.now clash.written.now clash.other.now) }
    ensures none { result ≡ None → AreApart settings.now }
{
    match settings {
        Settings::Asm { text, out, .. } => over(folder, Some(*out), Some(*text)),
        Settings::Run { files, .. } => over_in_run(folder, files),
        Settings::Replay(asked) => over_in_replay(folder, &asked.files),
        _ => None,
    }
}
