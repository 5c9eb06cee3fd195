//! The report of a replay: a line for each record.

ghost use Rattle.std.specs.Prelude.{◌≡◌, ◌+◌, ◌++◌, ◌-◌, ◌<◌, ◌^◌};
ghost use Rattle.std.specs.Prelude.{ℕ, List, [], Some, IfOk, IfErr, OnOk, length, slice_get, string_bytes};
ghost use Rattle.std.specs.Char.{to_ascii_lowercase};
ghost use Rattle.command_line.specs.Reading.{text_of};
ghost use Rattle.traffic.specs.Holders.{holder_in, only_number};
ghost use Rattle.text_lines.specs.Lines.{finishes};
ghost use Rattle.xlb_commands.specs.BackendsUp.{number_at, up_before};
ghost use Rattle.xlb_commands.specs.RecordReports.{sent_address, backend_at, backends_in, case_in, choice_in, first_of, form_by, form_of, is_tx, line_text};
ghost use Rattle.xlb_commands.specs.RecordReports.{end_of, lines_until, named_in, report_text, steps_of_end, verdict_in, word_of_verdict, worker_in};
ghost use Rattle.xlb_commands.specs.RecordReports.{HasNamed};
ghost use Rattle.xlb_commands.specs.declared.fault.Fault.TheVariants.{Memory};

use crate::backends_up::{UpBackend, address_number, carried_out, number_at};
use crate::fault::Refusal;
use actors::PieceOutcome;
use control::{Action, Command, Script};
use replay::{Outcome, ToldEnd};
use semantics::Verdict;
use std::alloc::{AllocError, Global};
use text_lines::finishes;
use traffic::{
    Backends, FrameKind, LineVerdict, RecordLine, ReportForm, case_word, choice_word, target_of,
};
use wire::{Capture, Sent};

/// The form by a name in lower case.
fn form_by(name: &str) -> ReportForm
    ensures { result ≡ form_by name.now }
{
    if finishes(name, ".json") || finishes(name, ".jsonl") {
        ReportForm::Json
    } else {
        ReportForm::Csv
    }
}

/// The form of a report in a file of this name: JSON if the name ends in `.json` or `.jsonl`, in either case, otherwise CSV.
pub(crate) fn form_of(alloc: Global, name: &str) -> Result<ReportForm, AllocError>
    ensures { IfOk result (λ form. form ≡ form_of name.now) }
{
    let lower = name.to_ascii_lowercase(alloc)?;
    Ok(form_by(lower.as_str()))
}

/// The worker that ran a record.
fn worker_in(end: ToldEnd) -> Option<u64>
    ensures { result ≡ worker_in end }
{
    match end {
        ToldEnd::Short => None,
        ToldEnd::Stopped { worker } => Some(u64::from(worker)),
        ToldEnd::Exited { worker, .. } => Some(u64::from(worker)),
    }
}

/// A verdict's word.
fn word_of_verdict(verdict: Verdict) -> LineVerdict
    ensures { result ≡ word_of_verdict verdict }
{
    match verdict {
        Verdict::Aborted => LineVerdict::Aborted,
        Verdict::Drop => LineVerdict::Drop,
        Verdict::Pass => LineVerdict::Pass,
        Verdict::Tx => LineVerdict::Tx,
    }
}

/// What became of a record, in a word.
pub(crate) fn verdict_in(end: ToldEnd) -> LineVerdict
    ensures { result ≡ verdict_in end }
{
    match end {
        ToldEnd::Short => LineVerdict::Short,
        ToldEnd::Stopped { .. } => LineVerdict::Stopped,
        ToldEnd::Exited { verdict, .. } => word_of_verdict(verdict),
    }
}

/// In how many steps the run of a record ended.
pub(crate) fn steps_in(end: ToldEnd) -> Option<u64>
    ensures { result ≡ steps_of_end end }
{
    match end {
        ToldEnd::Exited { steps, .. } => Some(steps),
        ToldEnd::Short | ToldEnd::Stopped { .. } => None,
    }
}

/// Whether a frame was sent.
pub(crate) fn is_tx(verdict: LineVerdict) -> bool
    ensures { result ≡ is_tx verdict }
{
    match verdict {
        LineVerdict::Tx => true,
        _ => false,
    }
}

/// The case of the steering rule, if the program is the shipped one, which follows it.
fn case_in(is_shipped: bool, frame: &[u8], end: ToldEnd) -> &'static str
    ensures { result.now ≡ case_in is_shipped frame.now end }
{
    if is_shipped {
        case_word(FrameKind::of(frame), verdict_in(end))
    } else {
        ""
    }
}

/// How the backend was chosen, if the program is the shipped one.
fn choice_in(is_shipped: bool, end: ToldEnd) -> &'static str
    ensures { result.now ≡ choice_in is_shipped end }
{
    if !is_shipped {
        return "";
    }
    choice_word(verdict_in(end), steps_in(end))
}

/// The address to which the frame of a record was sent, which is at this place among the sent ones.
fn address_in(end: ToldEnd, sent: &[Sent], place: usize) -> Option<u32>
    ensures { result ≡ sent_address end (slice_get sent.now place) }
{
    if is_tx(verdict_in(end)) && place < sent.len() {
        target_of(&sent[place].bytes)
    } else {
        None
    }
}

/// Notes the backend that a command names, if it names one with its address.
fn name_in(table: &mut Backends, command: &Command) -> Result<(), AllocError>
    ensures { OnOk result ((older : List (ℕ × ℕ)) → HasNamed table.old older → HasNamed table.new (named_in older command.now)) }
{
    match command.action {
        Action::Up { backend, address } => { table.name(backend, address_number(address)) }
        _ => Ok(()),
    }
}

/// The backends that a script names.
pub(crate) fn backends_in(alloc: Global, script: &[Command]) -> Result<Backends, AllocError>
    ensures { IfOk result (λ table. HasNamed table (backends_in script.now)) }
{
    let mut table = Backends::none(alloc);
    'commands: for command in script {
        name_in(&mut table, command)?;
    }
    Ok(table)
}

/// The number of the backend with this address: the only one with which the script names it, or the one that is up there.
fn number_of(table: &Backends, up: &[UpBackend], address: u32) -> Option<u32>
    ensures { result ≡ first_of (only_number (holder_in table.now address)) (number_at up.now address) }
{
    match table.number_of(address) {
        Some(number) => Some(number),
        None => number_at(up, address),
    }
}

/// The number of the backend with this address, for the record of this number, when these backends are up.
fn backend_at(
    table: &Backends,
    script: &Script,
    number: usize,
    up: &[UpBackend],
    address: Option<u32>,
) -> Option<u64>
    requires named { HasNamed table.now (backends_in script.now) }
    requires up { up.now ≡ up_before number [] script.now }
    ensures { result ≡ backend_at script.now number address }
{
    let found = match address {
        Some(address) => number_of(table, up, address),
        None => None,
    };
    match found {
        Some(backend) => Some(u64::from(backend)),
        None => None,
    }
}

/// What all lines of a report have in common.
#[derive(Clone, Copy)]
struct Lines<'a> {
    form: ReportForm,
    /// Whether the program is the shipped one.
    is_shipped: bool,
    script: &'a Script,
    /// The backends that the script names.
    table: &'a Backends,
    /// The frames that were sent.
    sent: &'a [Sent],
}

impl Lines<'_> {
    /// The line of a record, counted from 0, whose frame is at this place among those that were sent, if it was. These backends are up when
    /// its turn comes.
    fn line(
        &self,
        alloc: Global,
        number: usize,
        captured: &Sent,
        end: ToldEnd,
        place: usize,
        up: &[UpBackend],
    ) -> Result<String, AllocError>
        requires named { HasNamed self.now.table.now (backends_in self.now.script.now) }
        requires up { up.now ≡ up_before number [] self.now.script.now }
        requires number { number < 2 ^ 64 - 1 }
        ensures { IfOk result
            (λ text. string_bytes text ≡ line_text self.now.form self.now.is_shipped self.now.script.now number
            captured.now end (slice_get self.now.sent.now place)) }
    {
        let address = address_in(end, self.sent, place);
        let line = RecordLine {
            number: number + 1,
            micros: u64::from(captured.seconds) * 1_000_000 + u64::from(captured.micros),
            worker: worker_in(end),
            verdict: verdict_in(end),
            steps: steps_in(end),
            case_of: case_in(self.is_shipped, &captured.bytes, end),
            backend: backend_at(self.table, self.script, number, up, address),
            address,
            choice: choice_in(self.is_shipped, end),
        };
        self.form.line(alloc, &line, &captured.bytes)
    }

    /// Appends the lines of records behind the first ones, which ended so.
    fn put_all(
        &self,
        alloc: Global,
        text: &mut String,
        first: usize,
        records: &[Sent],
        ends: &[ToldEnd],
    ) -> Result<(), AllocError>
        requires named { HasNamed self.now.table.now (backends_in self.now.script.now) }
        requires numbers { first + length records.now < 2 ^ 64 }
        ensures { OnOk result (string_bytes text.new ≡ string_bytes text.old ++ lines_until self.now.form self.now.is_shipped
            self.now.script.now first records.now ends.now self.now.sent.now (length records.now)) }
    {
        let mut up = Vec::new(alloc);
        let mut later = self.script.commands();
        let mut place = 0;
        'records: for number in 0..records.len() {
            later = carried_out(alloc, &mut up, later, first + number)?;
            let end = end_at(ends, number);
            let line = self.line(alloc, first + number, &records[number], end, place, &up)?;
            text.push_str(line.as_str())?;
            if is_tx(verdict_in(end)) {
                place += 1;
            }
        }
        Ok(())
    }
}

/// What became of the record of this number.
fn end_at(ends: &[ToldEnd], number: usize) -> ToldEnd
    ensures { result ≡ end_of ends.now number }
{
    match ends.get(number) {
        Some(end) => *end,
        None => ToldEnd::Short,
    }
}

/// The lines of the records of a piece, which come behind the first ones, for the report of this name.
pub(crate) fn piece_lines(
    alloc: Global,
    name: &str,
    is_shipped: bool,
    script: &Script,
    table: &Backends,
    first: usize,
    records: &[Sent],
    done: &PieceOutcome,
) -> Result<String, AllocError>
    requires named { HasNamed table.now (backends_in script.now) }
    requires numbers { first + length records.now < 2 ^ 64 }
    ensures { IfOk result (λ text. string_bytes text ≡ lines_until (form_of name.now) is_shipped script.now first records.now
        done.now.ends.items done.now.sent.items (length records.now)) }
{
    let lines = Lines {
        form: form_of(alloc, name)?,
        is_shipped,
        script,
        table,
        sent: &done.sent,
    };
    let mut text = String::new(alloc);
    lines.put_all(alloc, &mut text, first, records, &done.ends)?;
    Ok(text)
}

/// The report of a replay in this form.
fn report_text(
    alloc: Global,
    form: ReportForm,
    is_shipped: bool,
    script: &Script,
    capture: &Capture,
    outcome: &Outcome,
) -> Result<String, AllocError>
    requires { length outcome.now.ends.items ≡ length capture.now.records.items }
    ensures { IfOk result
        (λ text. string_bytes text ≡ report_text form is_shipped script.now capture.now.records.items outcome.now.ends.items
        outcome.now.sent.items) }
{
    let table = backends_in(alloc, script.commands())?;
    let lines = Lines {
        form,
        is_shipped,
        script,
        table: &table,
        sent: &outcome.sent,
    };
    let mut text = String::from_str(alloc, form.head())?;
    lines.put_all(alloc, &mut text, 0, &capture.records, &outcome.ends)?;
    Ok(text)
}

/// The report of a replay for the file of this name, if one is named; otherwise none.
pub(crate) fn report_for(
    alloc: Global,
    name: Option<&str>,
    is_shipped: bool,
    script: &Script,
    capture: &Capture,
    outcome: &Outcome,
) -> Result<String, Refusal>
    requires { length outcome.now.ends.items ≡ length capture.now.records.items }
    ensures text { IfOk result (λ text. (file : List ℕ) → text_of name.entry ≡ Some file →
        string_bytes text ≡ report_text (form_of file) is_shipped
        script.now capture.now.records.items outcome.now.ends.items outcome.now.sent.items) }
    ensures refused { IfErr result (λ refusal. refusal.fault ≡ Memory) }
{
    match name {
        Some(name) => {
            let form = form_of(alloc, name)?;
            Ok(report_text(alloc, form, is_shipped, script, capture, outcome)?)
        }
        None => Ok(String::new(alloc)),
    }
}
