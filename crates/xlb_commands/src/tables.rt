//! The lookup table after each command of a script.

ghost use Rattle.std.specs.Prelude.{◌≡◌, ◌-◌, ◌<◌, ◌^◌, IfErr, IfOk, OnOk, false, string_bytes};
ghost use Rattle.control.specs.declared.fault.ControlFault.TheVariants as scripts;
ghost use Rattle.maglev.specs.RingSize.{IsRingSize};
ghost use Rattle.xlb_commands.specs.Files.{AreKept};
ghost use Rattle.xlb_commands.specs.Refused.{HasFailed, IsTableRefusal};
ghost use Rattle.xlb_commands.specs.Tables.{AreShownTables, IsTableShown};

use crate::fault::{Fault, Refusal};
use crate::hints;
use crate::notes::about_refused;
use crate::replays::script_file;
use crate::report::Report;
use control::{ControlFault, Script};
use folders::Folder;
use maglev::is_ring_size;
use std::alloc::{AllocError, Global};
use traffic::tables_of;

/// Refused with 73 where no lookup table has this size.
fn sized(alloc: Global, ring: u32) -> Result<(), Refusal>
    ensures size { OnOk result (IsRingSize ring) }
    ensures refused { IfErr result (λ refusal. (¬ IsRingSize ring) × (refusal.fault ≡ Fault.Script scripts.BadSize)) }
{
    if is_ring_size(ring) {
        Ok(())
    } else {
        Err(Refusal::hinted(
            Fault::Script(ControlFault::BadSize),
            hints::of_ring(alloc, ring),
        ))
    }
}

/// The tables of a script, with a note on each command that was refused.
fn shown(alloc: Global, script: &Script, ring: u32) -> Result<Report, AllocError>
    requires { IsRingSize ring }
    ensures { IfOk result (λ report. AreShownTables ring script.now (string_bytes report.text) report.is_refused) }
{
    let tables = tables_of(alloc, script, ring)?;
    let notes = about_refused(alloc, script, &tables.refused).ok();
    let is_refused = tables.is_refused();
    Ok(Report {
        text: tables.text,
        is_refused,
        leaves_out: false,
        notes,
        maps: None,
    })
}

/// Prints the lookup table of `ring` slots after each command of a script's file. Refused with 73 where no table has the size, then 7 or 8
/// where the file is not read, 90 or 95 where it is no script; and 8 where memory is refused for the lines. No file changes.
pub fn table_file<D: Folder>(
    alloc: Global,
    folder: &mut D,
    name: &str,
    ring: u32,
) -> Result<Report, Refusal>
    requires { D.failure_count folder.old < 2 ^ 64 - 1 }
    ensures done { IfOk result (λ report. IsTableShown (D.holds folder.old) name.now ring (string_bytes report.text) report.is_refused) }
    ensures kept { AreKept (D.holds folder.old) (D.holds folder.new) }
    ensures refused { IfErr result (λ refusal. IsTableRefusal (D.holds folder.old)
        (HasFailed (D.failure_count folder.old) (D.failure_count folder.new)) name.now ring refusal.fault) }
{
    sized(alloc, ring)?;
    let script = script_file(alloc, folder, name)?;
    let report = shown(alloc, &script, ring)?;
    Ok(report)
}
