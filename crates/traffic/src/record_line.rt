//! The line of a record in a report, as CSV (RFC 4180) or as JSON (RFC 8259).

ghost use Rattle.std.specs.Prelude.{◌≡◌, IfOk, decimal, string_bytes};
ghost use Rattle.traffic.specs.RecordLines.{case_word, csv_front, csv_run, front_text, json_front, json_run, report_head, run_text};
ghost use Rattle.traffic.specs.RecordLines.{csv_end, end_text, json_end, kind_word, missing, moment_text};
ghost use Rattle.traffic.specs.RecordLines.{number_text, quoted, record_line, six_digits, target_text, verdict_word, report_word};

use crate::flow_columns::flow_text;
use crate::kind::FrameKind;
use crate::printing::address_text;
use comparison::head_line;
use std::alloc::{AllocError, Global};

/// How a report is written.
#[derive(Clone, Copy, Debug, PartialEq, Eq)]
pub enum ReportForm {
    /// A head with the fields' names, and a line with commas for each record. What is not known is empty.
    Csv,
    /// An object in a line of its own for each record. What is not known is null.
    Json,
}

/// What became of a record, in a word.
#[derive(Clone, Copy, Debug, PartialEq, Eq)]
pub enum LineVerdict {
    /// It has fewer than 14 bytes, and was not run.
    Short,
    /// A full journal stopped its run.
    Stopped,
    Aborted,
    Drop,
    Pass,
    Tx,
}

/// What a report says of a record beside its flow. What is not known is none, or an empty word.
#[derive(Clone, Copy, Debug, PartialEq, Eq)]
pub struct RecordLine {
    /// Which record of the capture it is, counted from 1.
    pub number: usize,
    /// Its moment, in microseconds.
    pub micros: u64,
    pub worker: Option<u64>,
    pub verdict: LineVerdict,
    pub steps: Option<u64>,
    /// By which case of the steering rule.
    pub case_of: &'static str,
    /// The backend's number, and the address to which the frame is sent.
    pub backend: Option<u64>,
    pub address: Option<u32>,
    /// How the backend was chosen.
    pub choice: &'static str,
}

/// The last six digits of a number.
fn six_digits(alloc: Global, number: u64) -> Result<String, AllocError>
    ensures { IfOk result (λ text. string_bytes text ≡ six_digits number) }
{
    let first = number / 100_000 % 10;
    let second = number / 10_000 % 10;
    let third = number / 1000 % 10;
    let fourth = number / 100 % 10;
    let fifth = number / 10 % 10;
    let last = number % 10;
    format!(in alloc; "{first}{second}{third}{fourth}{fifth}{last}")
}

/// Microseconds as seconds.
fn moment_text(alloc: Global, micros: u64) -> Result<String, AllocError>
    ensures { IfOk result (λ text. string_bytes text ≡ moment_text micros) }
{
    let seconds = micros / 1_000_000;
    let digits = six_digits(alloc, micros)?;
    format!(in alloc; "{seconds}.{digits}")
}

/// What is written for what is not known.
pub(crate) fn missing(form: ReportForm) -> &'static str
    ensures { result.now ≡ missing form }
{
    match form {
        ReportForm::Csv => "",
        ReportForm::Json => "null",
    }
}

/// A number, if it is known.
pub(crate) fn number_text(
    alloc: Global,
    form: ReportForm,
    number: Option<u64>,
) -> Result<String, AllocError>
    ensures { IfOk result (λ text. string_bytes text ≡ number_text form number) }
{
    match number {
        None => String::from_str(alloc, missing(form)),
        Some(number) => format!(in alloc; "{number}"),
    }
}

/// A word between quotation marks.
fn quoted(alloc: Global, word: &str) -> Result<String, AllocError>
    ensures { IfOk result (λ text. string_bytes text ≡ quoted word.now) }
{
    format!(in alloc; "\"{word}\"")
}

/// A word, if it is known.
pub(crate) fn word_text(alloc: Global, form: ReportForm, word: &str) -> Result<String, AllocError>
    ensures { IfOk result (λ text. string_bytes text ≡ report_word form word.now) }
{
    if word.is_empty() {
        return String::from_str(alloc, missing(form));
    }
    match form {
        ReportForm::Csv => String::from_str(alloc, word),
        ReportForm::Json => quoted(alloc, word),
    }
}

/// An address, if it is known.
pub(crate) fn target_text(
    alloc: Global,
    form: ReportForm,
    address: Option<u32>,
) -> Result<String, AllocError>
    ensures { IfOk result (λ text. string_bytes text ≡ target_text form address) }
{
    match address {
        None => String::from_str(alloc, missing(form)),
        Some(address) => word_text(alloc, form, address_text(alloc, address)?.as_str()),
    }
}

/// A verdict's word.
fn verdict_word(verdict: LineVerdict) -> &'static str
    ensures { result.now ≡ verdict_word verdict }
{
    match verdict {
        LineVerdict::Short => "SHORT",
        LineVerdict::Stopped => "STOPPED",
        LineVerdict::Aborted => "ABORTED",
        LineVerdict::Drop => "DROP",
        LineVerdict::Pass => "PASS",
        LineVerdict::Tx => "TX",
    }
}

/// The case of a frame that has no flow, or that is dropped.
fn kind_word(kind: FrameKind) -> &'static str
    ensures { result.now ≡ kind_word kind }
{
    match kind {
        FrameKind::Short => "short",
        FrameKind::Ipv6 => "ipv6",
        FrameKind::Arp => "arp",
        FrameKind::Vlan => "vlan",
        FrameKind::OtherType => "other-type",
        FrameKind::Malformed => "malformed",
        FrameKind::Options => "options",
        FrameKind::Fragment => "fragment",
        FrameKind::Icmp => "icmp",
        FrameKind::OtherProtocol => "other-protocol",
        FrameKind::Expired => "expired",
        FrameKind::Large => "large",
        FrameKind::Flow => "no-backend",
    }
}

/// The case of the steering rule by which a frame of this kind has this verdict: a frame without a flow passes, by its kind, and so does
/// one whose flow is for no service; a datagram for a service that cannot go through the tunnel is dropped, by its kind; any other is sent,
/// or dropped where no tunnel is set up, or where neither the backend that is noted for its flow nor the one that its slot of the ring
/// names is up. Empty for a run that came to no verdict.
pub fn case_word(kind: FrameKind, verdict: LineVerdict) -> &'static str
    ensures { result.now ≡ case_word kind verdict }
{
    match verdict {
        LineVerdict::Drop => kind_word(kind),
        LineVerdict::Tx => "sent",
        LineVerdict::Pass => match kind {
            FrameKind::Expired | FrameKind::Large | FrameKind::Flow => "no-service",
            _ => kind_word(kind),
        },
        LineVerdict::Short => "short",
        LineVerdict::Stopped | LineVerdict::Aborted => "",
    }
}

/// The front of a line of CSV.
fn csv_front(
    alloc: Global,
    number: usize,
    moment: &str,
    worker: &str,
    verdict: &str,
) -> Result<String, AllocError>
    ensures { IfOk result (λ text. string_bytes text ≡ csv_front (decimal number) moment.now worker.now verdict.now) }
{
    format!(in alloc; "{number},{moment},{worker},{verdict}")
}

/// The front of a line of JSON.
fn json_front(
    alloc: Global,
    number: usize,
    moment: &str,
    worker: &str,
    verdict: &str,
) -> Result<String, AllocError>
    ensures { IfOk result (λ text. string_bytes text ≡ json_front (decimal number) moment.now worker.now verdict.now) }
{
    format!(in alloc;
        "{{\"number\":{number},\"moment\":{moment},\"worker\":{worker},\"verdict\":{verdict}"
    )
}

/// What a line of CSV says of the run.
fn csv_run(
    alloc: Global,
    steps: &str,
    case: &str,
    backend: &str,
    address: &str,
) -> Result<String, AllocError>
    ensures { IfOk result (λ text. string_bytes text ≡ csv_run steps.now case.now backend.now address.now) }
{
    format!(in alloc; ",{steps},{case},{backend},{address}")
}

/// What a line of JSON says of the run.
fn json_run(
    alloc: Global,
    steps: &str,
    case: &str,
    backend: &str,
    address: &str,
) -> Result<String, AllocError>
    ensures { IfOk result (λ text. string_bytes text ≡ json_run steps.now case.now backend.now address.now) }
{
    format!(in alloc;
        ",\"steps\":{steps},\"case\":{case},\"backend\":{backend},\"address\":{address}"
    )
}

/// The end of a line of CSV.
fn csv_end(alloc: Global, choice: &str) -> Result<String, AllocError>
    ensures { IfOk result (λ text. string_bytes text ≡ csv_end choice.now) }
{
    format!(in alloc; ",{choice}\n")
}

/// The end of a line of JSON.
fn json_end(alloc: Global, choice: &str) -> Result<String, AllocError>
    ensures { IfOk result (λ text. string_bytes text ≡ json_end choice.now) }
{
    format!(in alloc; ",\"choice\":{choice}}}\n")
}

impl ReportForm {
    /// What comes before the first line.
    pub fn head(self) -> &'static str
        ensures { result.now ≡ report_head self }
    {
        match self {
            ReportForm::Csv => head_line(),
            ReportForm::Json => "",
        }
    }

    /// Which record it is, when it came, who ran it, and what came of it.
    fn front(self, alloc: Global, line: &RecordLine) -> Result<String, AllocError>
        ensures { IfOk result
            (λ text. string_bytes text ≡ front_text self line.now.number line.now.micros line.now.worker line.now.verdict) }
    {
        let moment = moment_text(alloc, line.micros)?;
        let moment = word_text(alloc, self, moment.as_str())?;
        let worker = number_text(alloc, self, line.worker)?;
        let verdict = word_text(alloc, self, verdict_word(line.verdict))?;
        match self {
            ReportForm::Csv => csv_front(
                alloc,
                line.number,
                moment.as_str(),
                worker.as_str(),
                verdict.as_str(),
            ),
            ReportForm::Json => json_front(
                alloc,
                line.number,
                moment.as_str(),
                worker.as_str(),
                verdict.as_str(),
            ),
        }
    }

    /// In how many steps, by which case, and where it was sent.
    fn of_run(self, alloc: Global, line: &RecordLine) -> Result<String, AllocError>
        ensures { IfOk result
            (λ text. string_bytes text ≡ run_text self line.now.steps line.now.case_of.now line.now.backend line.now.address) }
    {
        let steps = number_text(alloc, self, line.steps)?;
        let case = word_text(alloc, self, line.case_of)?;
        let backend = number_text(alloc, self, line.backend)?;
        let address = target_text(alloc, self, line.address)?;
        match self {
            ReportForm::Csv => csv_run(
                alloc,
                steps.as_str(),
                case.as_str(),
                backend.as_str(),
                address.as_str(),
            ),
            ReportForm::Json => json_run(
                alloc,
                steps.as_str(),
                case.as_str(),
                backend.as_str(),
                address.as_str(),
            ),
        }
    }

    /// How its backend was chosen, and the line's end.
    fn end(self, alloc: Global, choice: &str) -> Result<String, AllocError>
        ensures { IfOk result (λ text. string_bytes text ≡ end_text self choice.now) }
    {
        let choice = word_text(alloc, self, choice)?;
        match self {
            ReportForm::Csv => csv_end(alloc, choice.as_str()),
            ReportForm::Json => json_end(alloc, choice.as_str()),
        }
    }

    /// The line of a record with this frame.
    pub fn line(self, alloc: Global, line: &RecordLine, frame: &[u8]) -> Result<String, AllocError>
        ensures { IfOk result (λ text. string_bytes text ≡ record_line self line.now frame.now) }
    {
        let mut text = self.front(alloc, line)?;
        let of_run = self.of_run(alloc, line)?;
        text.push_str(of_run.as_str())?;
        let flow = flow_text(alloc, self, frame)?;
        text.push_str(flow.as_str())?;
        let end = self.end(alloc, line.choice)?;
        text.push_str(end.as_str())?;
        Ok(text)
    }
}
