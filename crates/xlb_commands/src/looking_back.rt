//! The report of a replay beside its script: what became of each flow, and a page.

ghost use Rattle.std.specs.Prelude.{◌≡◌, ◌-◌, ◌<◌, ◌^◌, IfErr, IfOk};
ghost use Rattle.xlb_commands.specs.Files.{AreKept};
ghost use Rattle.xlb_commands.specs.LookingBack.{AreFlowsAnswered, AreFlowsOfFiles, IsPageAnswered, IsPageOfFiles};
ghost use Rattle.xlb_commands.specs.Refused.{HasFailed, IsReportRefusal};
ghost use Rattle.xlb_commands.specs.declared.fault.Fault.TheVariants.{Memory};

use crate::fault::{Fault, Refusal};
use crate::files::bytes_of;
use crate::printable::in_one_line;
use crate::replays::script_file;
use control::Script;
use flows::{NoFlows, flows_in};
use folders::Folder;
use page::whole_page;
use std::alloc::Global;

/// What a command over a report comes to.
#[derive(Drop)]
pub(crate) enum ReportAnswer {
    /// What is printed, with lines for people.
    Shown { text: String, notes: Option<String> },
    /// The file is no such report: the line that says why.
    NoReport(String),
}

/// The flows of a report that was read. Refused with 8 where memory is.
fn flows_told(
    alloc: Global,
    name: &str,
    report: &[u8],
    script: &Script,
) -> Result<ReportAnswer, Refusal>
    ensures answered { IfOk result (AreFlowsAnswered name.now report.now script.now) }
    ensures refused { IfErr result (λ refusal. refusal.fault ≡ Memory) }
{
    match flows_in(alloc, report, script) {
        Ok(told) => Ok(ReportAnswer::Shown {
            text: told.table,
            notes: Some(told.summary),
        }),
        Err(NoFlows::Memory) => Err(Refusal::from(Fault::Memory)),
        Err(none) => {
            let name = in_one_line(alloc, name)?;
            Ok(ReportAnswer::NoReport(none.text(alloc, name.as_str())?))
        }
    }
}

/// The page of a report that was read. Refused with 8 where memory is.
fn page_shown(
    alloc: Global,
    name: &str,
    report: &[u8],
    script: &Script,
) -> Result<ReportAnswer, Refusal>
    ensures answered { IfOk result (IsPageAnswered name.now report.now script.now) }
    ensures refused { IfErr result (λ refusal. refusal.fault ≡ Memory) }
{
    match whole_page(alloc, report, script) {
        Ok(text) => Ok(ReportAnswer::Shown { text, notes: None }),
        Err(NoFlows::Memory) => Err(Refusal::from(Fault::Memory)),
        Err(none) => {
            let name = in_one_line(alloc, name)?;
            Ok(ReportAnswer::NoReport(none.text(alloc, name.as_str())?))
        }
    }
}

/// The flows of the report of a file, beside the script of another. Refused with 7 or 8 where a file is not read, 90 or 95 where the second
/// is no script, and 8 where memory is refused; a script that is none is refused before a report that is none. No file changes.
pub(crate) fn flows_of_files<D: Folder>(
    alloc: Global,
    folder: &mut D,
    report: &str,
    script: &str,
) -> Result<ReportAnswer, Refusal>
    requires { D.failure_count folder.old < 2 ^ 64 - 1 }
    ensures answered { IfOk result (AreFlowsOfFiles (D.holds folder.old) report.now script.now) }
    ensures kept { AreKept (D.holds folder.old) (D.holds folder.new) }
    ensures refused { IfErr result (λ refusal. IsReportRefusal (D.holds folder.old)
        (HasFailed (D.failure_count folder.old) (D.failure_count folder.new)) report.now script.now refusal.fault) }
{
    let bytes = bytes_of(alloc, folder, report)?;
    let commands = script_file(alloc, folder, script)?;
    flows_told(alloc, report, &bytes, &commands)
}

/// A page of the report of a file, beside the script of another. Refused as its flows are. No file changes.
pub(crate) fn page_of_files<D: Folder>(
    alloc: Global,
    folder: &mut D,
    report: &str,
    script: &str,
) -> Result<ReportAnswer, Refusal>
    requires { D.failure_count folder.old < 2 ^ 64 - 1 }
    ensures answered { IfOk result (IsPageOfFiles (D.holds folder.old) report.now script.now) }
    ensures kept { AreKept (D.holds folder.old) (D.holds folder.new) }
    ensures refused { IfErr result (λ refusal. IsReportRefusal (D.holds folder.old)
        (HasFailed (D.failure_count folder.old) (D.failure_count folder.new)) report.now script.now refusal.fault) }
{
    let bytes = bytes_of(alloc, folder, report)?;
    let commands = script_file(alloc, folder, script)?;
    page_shown(alloc, report, &bytes, &commands)
}
