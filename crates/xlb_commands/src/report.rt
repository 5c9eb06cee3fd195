//! What commands print when they are done.

ghost use Rattle.std.specs.Prelude.{◌≡◌, ◌↔◌, ◌⊎◌, ◌≤◌, ◌++◌, [], true, false, IfOk, OnOk, Bool, IsTrue, string_bytes};
ghost use Rattle.ebpf_decode.specs.InstructionEncoding.{total_slots};
ghost use Rattle.actors.specs.Accounts.{frames_in};
ghost use Rattle.xlb_commands.specs.Replays.{counts_text, frames_lines, refusal_line, refusal_text_of, refusals_text, verdicts_lines};
ghost use Rattle.xlb_commands.specs.Results.{accepted_line, accepted_text, yes_or_no, verdict_name, run_lines, run_text};

use ebpf_decode::{Image, Insn};
use machine::Exit;
use replay::{Applied, Counts};
use semantics::Verdict;
use std::alloc::{AllocError, Global};
use wire::Frame;

/// What a command prints when it is done, and whether a part of it was refused.
#[derive(Drop)]
pub struct Report {
    pub text: String,
    pub is_refused: bool,
    /// Whether a replay left something out: a run that was stopped, a record that it did not have as it was on the wire, a command behind
    /// the last record.
    pub leaves_out: bool,
    /// Lines for people, which go to the error stream.
    pub notes: Option<String>,
    /// The lines of what the maps hold at the end of a replay, where a file is named for them.
    pub maps: Option<String>,
}

impl Report {
    /// The text of a command that was done whole.
    pub fn done(text: String) -> Report
        ensures { (result.text ≡ text) × (result.is_refused ≡ false) }
    {
        Report {
            text,
            is_refused: false,
            leaves_out: false,
            notes: None,
            maps: None,
        }
    }

    /// The text of a comparison, which counts as refused in part where a record is treated differently.
    pub fn compared(text: String, differs: bool) -> Report
        ensures { (result.text ≡ text) × (result.is_refused ≡ differs) }
    {
        Report {
            text,
            is_refused: differs,
            leaves_out: false,
            notes: None,
            maps: None,
        }
    }

    /// The report of a replay that counts as refused in part, if it is strict, where something was left out.
    pub fn of_strict(self, strict: bool) -> Report
        ensures text { result.text ≡ self.text }
        ensures done { result.is_refused ≡ false → (self.is_refused ≡ false) × (strict ≡ true → self.leaves_out ≡ false) }
        ensures part { result.is_refused ≡ true → (self.is_refused ≡ true) ⊎ (strict ≡ true) }
    {
        Report {
            is_refused: self.is_refused || strict && self.leaves_out,
            ..self
        }
    }
}

/// How many slots a program takes.
fn slots_of(code: &[Insn]) -> u32
    requires { total_slots code.now ≤ 4096 }
    ensures { result ≡ total_slots code.now }
{
    let mut slots = 0;
    for insn in code {
        slots += insn.slot_count();
    }
    slots
}

fn yes_or_no(holds: bool) -> &'static str
    ensures { result.now ≡ yes_or_no holds }
{
    if holds { "yes" } else { "no" }
}

/// The line of an accepted image.
fn accepted_line(alloc: Global, slots: u32, maps: usize, reader: &str) -> Result<String, AllocError>
    ensures { IfOk result (λ line. string_bytes line ≡ accepted_text slots maps reader.now) }
{
    format!(in alloc; "accepted slots {slots} maps {maps} reader {reader}\n")
}

/// An accepted image: its slots and maps, and whether it only reads.
pub fn accepted(alloc: Global, image: &Image, is_reader: bool) -> Result<String, AllocError>
    ensures { IfOk result (λ line. string_bytes line ≡ accepted_line image.now is_reader) }
{
    let slots = slots_of(image.code());
    let maps = image.maps().len();
    let reader = yes_or_no(is_reader);
    accepted_line(alloc, slots, maps, reader)
}

/// A verdict's name, as it is printed.
fn verdict_name(verdict: Verdict) -> &'static str
    ensures { result.now ≡ verdict_name verdict }
{
    match verdict {
        Verdict::Aborted => "aborted",
        Verdict::Drop => "drop",
        Verdict::Pass => "pass",
        Verdict::Tx => "tx",
    }
}

/// What a run came to: its verdict, how many instructions it ran, and the frame that it left.
pub fn outcome(alloc: Global, exit: Exit, frame: &Frame) -> Result<String, AllocError>
    ensures { IfOk result (λ text. string_bytes text ≡ run_text exit.verdict exit.steps frame.now.bytes) }
{
    let bytes = hex::encode(alloc, frame.bytes())?;
    run_lines(
        alloc,
        verdict_name(exit.verdict),
        exit.steps,
        bytes.as_str(),
    )
}

/// The lines of a run.
fn run_lines(alloc: Global, verdict: &str, steps: u64, frame: &str) -> Result<String, AllocError>
    ensures { IfOk result (λ text. string_bytes text ≡ run_lines verdict.now steps frame.now) }
{
    format!(in alloc; "verdict {verdict}\ninstructions {steps}\nframe {frame}\n")
}

/// The lines of frames that have no verdict.
fn frames_lines(
    alloc: Global,
    frames: usize,
    short: u64,
    stopped: u64,
) -> Result<String, AllocError>
    ensures { IfOk result (λ text. string_bytes text ≡ frames_lines frames short stopped) }
{
    format!(in alloc; "frames {frames}\nshort {short}\nstopped {stopped}\n")
}

/// The lines of those that have one.
fn verdicts_lines(
    alloc: Global,
    aborted: u64,
    drop: u64,
    pass: u64,
    tx: u64,
) -> Result<String, AllocError>
    ensures { IfOk result (λ text. string_bytes text ≡ verdicts_lines aborted drop pass tx) }
{
    format!(in alloc; "aborted {aborted}\ndrop {drop}\npass {pass}\ntx {tx}\n")
}

/// The lines of the counts, which are of `frames` frames in all.
fn counts_text(alloc: Global, frames: usize, counts: Counts) -> Result<String, AllocError>
    requires { frames ≡ frames_in counts }
    ensures { IfOk result (λ text. string_bytes text ≡ counts_text counts) }
{
    let mut text = frames_lines(alloc, frames, counts.short, counts.stopped)?;
    let verdicts = verdicts_lines(alloc, counts.aborted, counts.drop, counts.pass, counts.tx)?;
    text.push_str(verdicts.as_str())?;
    Ok(text)
}

/// The line of a command that was refused, counted from 1.
fn refusal_line(alloc: Global, command: u128, fault: u8) -> Result<String, AllocError>
    ensures { IfOk result (λ line. string_bytes line ≡ refusal_line command fault) }
{
    format!(in alloc; "command {command} refused {fault}\n")
}

/// Appends the line of a command, if it was refused.
fn put_refusal(alloc: Global, text: &mut String, one: &Applied) -> Result<(), AllocError>
    ensures { OnOk result (string_bytes text.new ≡ string_bytes text.old ++ refusal_text_of one.now.command one.now.fault) }
{
    match one.fault {
        Some(fault) => {
            text.push_str(&refusal_line(alloc, one.command as u128 + 1, fault.number())?)
        }
        None => Ok(()),
    }
}

/// Appends the lines of the commands that were refused.
fn put_refusals(alloc: Global, text: &mut String, refused: &[Applied]) -> Result<(), AllocError>
    ensures { OnOk result (string_bytes text.new ≡ string_bytes text.old ++ refusals_text refused.now) }
{
    'refused: for one in refused {
        put_refusal(alloc, text, one)?;
    }
    Ok(())
}

/// What a replay came to: its counts, of `frames` frames in all, and the commands that were refused; with these notes, and these lines of its
/// maps. `left_out`: besides runs that were stopped something was left out.
pub fn replayed(
    alloc: Global,
    frames: usize,
    counts: Counts,
    refused: &[Applied],
    left_out: bool,
    notes: Option<String>,
    maps: Option<String>,
) -> Result<Report, AllocError>
    requires { frames ≡ frames_in counts }
    ensures text { IfOk result (λ report. string_bytes report.text ≡ counts_text counts ++ refusals_text refused.now) }
    ensures refused { IfOk result (λ report. (refused.now ≡ []) ↔ (report.is_refused ≡ false)) }
    ensures all { IfOk result (λ report. report.leaves_out ≡ false → (counts.stopped ≡ 0) × (left_out ≡ false)) }
    ensures maps { IfOk result (λ report. report.maps ≡ maps) }
{
    let mut text = counts_text(alloc, frames, counts)?;
    put_refusals(alloc, &mut text, refused)?;
    Ok(Report {
        text,
        is_refused: !refused.is_empty(),
        leaves_out: counts.stopped > 0 || left_out,
        notes,
        maps,
    })
}
