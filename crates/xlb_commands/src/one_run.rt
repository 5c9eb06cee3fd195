//! The command that runs an image on one frame.

ghost use Rattle.std.specs.Prelude.{◌≡◌, ◌↔◌, ◌-◌, ◌<◌, ◌≤◌, ◌^◌, IfErr, IfOk, IsErrOf};
ghost use Rattle.verifier.specs.Dataflow.{Accepts};
ghost use Rattle.semantics.specs.Events.{Exited};
ghost use Rattle.machine.specs.Running.{program_of};
ghost use Rattle.runs.specs.SingleRuns.{HasRunAlone, HasStoppedAlone};
ghost use Rattle.guarantees.specs.RunsAlone.{IsAloneInSystem, ending_at};
ghost use Rattle.guarantees.specs.SystemRuns.{setting_of};
ghost use Rattle.map_updates.specs.Misfits.{AreFitting};
ghost use Rattle.command_line.specs.Reading.{text_of};
ghost use Rattle.xlb_commands.specs.Files.{AreAllKeptButTwo};
ghost use Rattle.xlb_commands.specs.Results.{IsRunAnswer, run_options, start_of_run};
ghost use Rattle.xlb_commands.specs.Refused.{HasFailed, IsRunFault, IsRunRefusal};

use crate::commands::{frame_of, judged_of};
use crate::end_maps::{maps_lines, text_of_lines};
use crate::fault::{Fault, Refusal};
use crate::files::{journal_bytes, write_journals_to, write_text_to};
use crate::hints;
use crate::report::outcome;
use command_line::RunFiles;
use control::ControlFault;
use ebpf_decode::MapDef;
use folders::Folder;
use guarantees::lone_run;
use machine::Moment;
use map_updates::{MapUpdate, Misfit, first_misfit};
use runs::{RunFault, SingleRun};
use semantics::{MOST_WORKERS, Options};
use shards::OpenFault;
use std::alloc::Global;
use verifier::Verified;
use wire::Frame;

/// How the maps of a run are opened.
const OPTIONS: Options = Options {
    workers: MOST_WORKERS,
    shards: 1,
    journal: 65_536,
};

/// When and where a run happens, if there is such a worker.
fn moment_of(now: u64, worker: u32) -> Result<Moment, Fault>
    ensures below { IfOk result (λ moment. moment.worker < 8) }
    ensures given { IfOk result (λ moment. (moment.now_ns ≡ now) × (moment.worker ≡ worker)) }
    ensures above { IsErrOf result (Fault.Options OpenFault.BadOptions) ↔ (8 ≤ worker) }
    ensures only { IfErr result (λ fault. (fault ≡ Fault.Options OpenFault.BadOptions) × (8 ≤ worker)) }
{
    if worker >= MOST_WORKERS {
        return Err(Fault::Options(OpenFault::BadOptions));
    }
    Ok(Moment {
        now_ns: now,
        worker: worker as u8,
    })
}

/// The same, with a note where there is no such worker.
fn moment_for(alloc: Global, now: u64, worker: u32) -> Result<Moment, Refusal>
    ensures below { IfOk result (λ moment. moment.worker < 8) }
    ensures given { IfOk result (λ moment. (moment.now_ns ≡ now) × (moment.worker ≡ worker)) }
    ensures only { IfErr result (λ refusal. (refusal.fault ≡ Fault.Options OpenFault.BadOptions) × (8 ≤ worker)) }
{
    match moment_of(now, worker) {
        Ok(moment) => Ok(moment),
        Err(fault) => Err(Refusal::hinted(fault, hints::of_worker(alloc, worker))),
    }
}

/// What a run comes to.
#[derive(Drop)]
pub enum RunAnswer {
    /// What is printed of it, and the notes for people on it.
    Printed { text: String, notes: Option<String> },
    /// The image's maps do not take the update at this place of the command line, from 0, and nothing was run.
    Mistaken { place: usize, misfit: Misfit },
}

/// Runs an image on one frame, with maps in which nothing has happened but these updates, and writes the journals, and then what the maps
/// hold, where files are named for them. Updates that the image's maps do not take are a mistake of the command line: then no frame is read.
///
/// Refused, in this order: with 7 or 8 where the image is not read, 10 to 20 where it is none, 30 to 49 where it may not run; with 7 or
/// 8 where the frame is not read, 6, 8 or 9 where it is none; with 51 where there is no such worker; with 51 or 52 where the maps are
/// not opened, 93 for the first update that a map refuses, 94 for the first for which a journal is full; with 60 where a full journal
/// stops the run; with 52 or 8 where memory is refused for the journals' bytes or the lines. Until then no file changes. Last, with 7
/// or 8 where the journals are not written, or what the maps hold.
pub fn run_once<D: Folder>(
    alloc: Global,
    folder: &mut D,
    files: &RunFiles<'_>,
    now: u64,
    worker: u32,
    updates: &[MapUpdate],
) -> Result<RunAnswer, Refusal>
    requires { D.failure_count folder.old < 2 ^ 64 - 1 }
    ensures done { IfOk result (IsRunAnswer (D.holds folder.old) (D.holds folder.new) files.now now worker updates.now) }
    ensures kept { AreAllKeptButTwo (D.holds folder.old) (D.holds folder.new) (text_of files.now.journals) (text_of files.now.maps) }
    ensures refused { IfErr result (λ refusal. IsRunRefusal (D.holds folder.old) (D.holds folder.new)
        (HasFailed (D.failure_count folder.old) (D.failure_count folder.new)) files.now now worker updates.now refusal.fault) }
{
    let verified = judged_of(alloc, folder, files.image)?;
    if let Some((place, misfit)) = first_misfit(maps_of(&verified), updates) {
        return Ok(RunAnswer::Mistaken { place, misfit });
    }
    let mut frame = frame_of(alloc, folder, files.frame)?;
    let notes = hints::of_text_as_frame(alloc, frame.bytes());
    let moment = moment_for(alloc, now, worker)?;
    let SingleRun { ended, journals } = run_over(alloc, &verified, &mut frame, &moment, updates)?;
    let exit = match ended {
        Ok(exit) => exit,
        Err(stop) => return Err(Refusal::from(Fault::Run(stop))),
    };
    let file = journal_bytes(alloc, files.journals, &journals)?;
    let maps = maps_lines(alloc, files.maps, &journals)?;
    let text = outcome(alloc, exit, &frame)?;
    write_journals_to(alloc, folder, files.journals, &file)?;
    write_text_to(alloc, folder, files.maps, text_of_lines(&maps))?;
    Ok(RunAnswer::Printed { text, notes })
}

/// The maps of an accepted image.
pub(crate) fn maps_of(verified: &Verified) -> &[MapDef]
    ensures same { result.now ≡ verified.now.maps }
    ensures accepted { Accepts verified.now.version verified.now.maps verified.now.code verified.now.states }
{
    verified.image().maps()
}

/// The run of an image over shards of its own.
fn run_over(
    alloc: Global,
    verified: &Verified,
    frame: &mut Frame,
    moment: &Moment,
    updates: &[MapUpdate],
) -> Result<SingleRun, Refusal>
    requires headroom { frame.old.headroom ≡ 256 }
    requires worker { moment.now.worker < 8 }
    requires fit { AreFitting verified.now.maps updates.now }
    ensures exit { IfOk result (λ single. IfOk single.ended (λ exit. HasRunAlone (program_of verified.now 1)
        (start_of_run frame.old.bytes moment.now.worker moment.now.now_ns) run_options moment.now.worker updates.now exit.verdict
        exit.steps frame.new
        single.journals)) }
    ensures of_system { IfOk result (λ single. IfOk single.ended (λ exit. IsAloneInSystem (setting_of verified.now run_options)
        moment.now.worker moment.now.now_ns frame.old.bytes updates.now (Exited exit.verdict frame.new.bytes exit.steps)
        single.journals)) }
    ensures stop { IfOk result (λ single. IfErr single.ended (λ stop. HasStoppedAlone (program_of verified.now 1)
        (start_of_run frame.old.bytes moment.now.worker moment.now.now_ns) run_options moment.now.worker updates.now frame.new stop
        single.journals)) }
    ensures stopped_in_system { IfOk result (λ single. IfErr single.ended (λ stop. IsAloneInSystem (setting_of verified.now run_options)
        moment.now.worker moment.now.now_ns frame.old.bytes updates.now (ending_at stop) single.journals)) }
    ensures refused { IfErr result (λ refusal. IsRunFault verified.now.maps updates.now refusal.fault) }
{
    match lone_run(alloc, verified, frame, moment, OPTIONS, updates) {
        Ok(single) => Ok(single),
        Err(RunFault::Open(fault)) => Err(Refusal::from(Fault::Options(fault))),
        Err(RunFault::Refused { place, answer }) => Err(Refusal::noted(
            Fault::Script(ControlFault::Refused { answer }),
            hints::update_note(alloc, place),
        )),
        Err(RunFault::Full { place }) => Err(Refusal::noted(
            Fault::Script(ControlFault::JournalFull),
            hints::update_note(alloc, place),
        )),
    }
}
