//! What the summary of a replay counts of its records, which come in pieces: for which service they are, and what became of them.

ghost use Rattle.std.specs.Prelude.{◌≡◌, ◌++◌, [], IfOk, OnOk, List, length, string_bytes};
ghost use Rattle.wire.specs.declared.records.Sent.{Sent as Frame};
ghost use Rattle.traffic.specs.declared.record_line.LineVerdict.{LineVerdict as LineEnd};
ghost use Rattle.traffic.specs.NotSent.{by_program_text, ends, reasons, service_named, services_text};
ghost use Rattle.traffic.specs.Tallies.{IsRecordTally, count_named, end_counts, reason_counts, service_counts};

use crate::counts::add_counts;
use crate::not_sent::{ENDS, REASONS, count_ended, count_for, put_ends, put_reasons, put_services};
use crate::record_line::LineVerdict;
use control::{Action, Command, Script};
use std::alloc::{AllocError, Global};
use wire::Sent;

/// How many captured frames are for which service of a script, how many were not sent for which reason, and how many ended how. It does not
/// grow with the number of frames.
#[derive(Drop)]
pub struct RecordTally {
    /// Of each command, how many frames are for the service that it names; 0 where it names none.
    services: Vec<u64>,
    reasons: Vec<u64>,
    ends: Vec<u64>,
}

/// How many of the frames are for the service that a command names.
fn count_named(command: &Command, frames: &[Sent]) -> u64
    ensures { result ≡ count_named frames.now (service_named command.now.action) }
{
    match command.action {
        Action::Vip { service, .. } => count_for(&service, frames) as u64,
        _ => 0,
    }
}

/// How many of the frames are for the service of each command.
fn services_in(alloc: Global, script: &[Command], frames: &[Sent]) -> Result<Vec<u64>, AllocError>
    ensures { IfOk result (λ counts. counts.items ≡ service_counts frames.now script.now) }
{
    script
        .iter()
        .map(|command| count_named(command, frames))
        .collect(alloc)
}

/// How many of the records were not sent for each reason.
fn reasons_in(
    alloc: Global,
    frames: &[Sent],
    verdicts: &[LineVerdict],
) -> Result<Vec<u64>, AllocError>
    ensures { IfOk result (λ counts. counts.items ≡ reason_counts frames.now verdicts.now reasons) }
{
    REASONS
        .iter()
        .map(|reason| reason.count(frames, verdicts))
        .collect(alloc)
}

/// How many of the records ended in each way that has a line.
fn ends_in(alloc: Global, verdicts: &[LineVerdict]) -> Result<Vec<u64>, AllocError>
    ensures { IfOk result (λ counts. counts.items ≡ end_counts verdicts.now ends) }
{
    ENDS.iter()
        .map(|end| count_ended(*end, verdicts) as u64)
        .collect(alloc)
}

impl RecordTally {
    /// Before the first record of a replay with this script. It fails only for lack of memory.
    pub fn new(alloc: Global, script: &Script) -> Result<RecordTally, AllocError>
        ensures { IfOk result (IsRecordTally script.now [] []) }
    {
        let services = services_in(alloc, script.commands(), &[])?;
        let reasons = reasons_in(alloc, &[], &[])?;
        let ends = ends_in(alloc, &[])?;
        Ok(RecordTally {
            services,
            reasons,
            ends,
        })
    }

    /// Counts the next captured frames, with the verdicts of their records; the earlier ones had as many verdicts as frames. It fails for lack
    /// of memory, and where a count would reach 2^64; then the counts are none of anything.
    pub fn note(
        &mut self,
        alloc: Global,
        script: &Script,
        frames: &[Sent],
        verdicts: &[LineVerdict],
    ) -> Result<(), AllocError>
        ensures { OnOk result ((past : List Frame) (past_verdicts : List LineEnd) → length past_verdicts ≡ length past →
            IsRecordTally script.now past past_verdicts self.old →
            IsRecordTally script.now (past ++ frames.now) (past_verdicts ++ verdicts.now) self.new) }
    {
        let services = services_in(alloc, script.commands(), frames)?;
        add_counts(&mut self.services, &services)?;
        let reasons = reasons_in(alloc, frames, verdicts)?;
        add_counts(&mut self.reasons, &reasons)?;
        let ends = ends_in(alloc, verdicts)?;
        add_counts(&mut self.ends, &ends)?;
        Ok(())
    }

    /// How many of the captured frames are for each service of the script, in its order, and how many frames of flows were not sent for which
    /// reason, by the verdicts of their records: a line for each service and each reason that has a frame. It fails only for lack of memory.
    pub fn services(&self, alloc: Global, script: &Script) -> Result<String, AllocError>
        ensures { IfOk result (λ text. (frames : List Frame) (verdicts : List LineEnd) → IsRecordTally script.now frames verdicts self.now →
            string_bytes text ≡ services_text frames script.now verdicts) }
    {
        let mut text = String::new(alloc);
        put_services(alloc, &mut text, script.commands(), &self.services)?;
        put_reasons(alloc, &mut text, &REASONS, &self.reasons)?;
        Ok(text)
    }

    /// The same of another program than the shipped one, whose reasons nobody knows: how many of the captured frames are for each service of
    /// the script, in its order, and how many frames the program passed, dropped, aborted and sent: a line for each that there is. It fails
    /// only for lack of memory.
    pub fn by_program(&self, alloc: Global, script: &Script) -> Result<String, AllocError>
        ensures { IfOk result (λ text. (frames : List Frame) (verdicts : List LineEnd) → IsRecordTally script.now frames verdicts self.now →
            string_bytes text ≡ by_program_text frames script.now verdicts) }
    {
        let mut text = String::new(alloc);
        put_services(alloc, &mut text, script.commands(), &self.services)?;
        put_ends(alloc, &mut text, &ENDS, &self.ends)?;
        Ok(text)
    }
}

/// The tally of these records alone.
fn tally_of(
    alloc: Global,
    frames: &[Sent],
    script: &Script,
    verdicts: &[LineVerdict],
) -> Result<RecordTally, AllocError>
    ensures { IfOk result (IsRecordTally script.now frames.now verdicts.now) }
{
    let mut tally = RecordTally::new(alloc, script)?;
    tally.note(alloc, script, frames, verdicts)?;
    Ok(tally)
}

/// What `RecordTally::services` says of these records alone. It fails only for lack of memory.
pub fn services(
    alloc: Global,
    frames: &[Sent],
    script: &Script,
    verdicts: &[LineVerdict],
) -> Result<String, AllocError>
    ensures { IfOk result (λ text. string_bytes text ≡ services_text frames.now script.now verdicts.now) }
{
    let tally = tally_of(alloc, frames, script, verdicts)?;
    tally.services(alloc, script)
}

/// What `RecordTally::by_program` says of these records alone. It fails only for lack of memory.
pub fn by_program(
    alloc: Global,
    frames: &[Sent],
    script: &Script,
    verdicts: &[LineVerdict],
) -> Result<String, AllocError>
    ensures { IfOk result (λ text. string_bytes text ≡ by_program_text frames.now script.now verdicts.now) }
{
    let tally = tally_of(alloc, frames, script, verdicts)?;
    tally.by_program(alloc, script)
}
