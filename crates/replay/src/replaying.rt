//! A whole replay.

ghost use Rattle.std.specs.Prelude.{◌≡◌, ◌<◌, ◌≤◌, ◌+◌, ◌↔◌};
ghost use Rattle.std.specs.Prelude.{true, false, [], length, map, replicate, slice_set, IfOk, OnOk, IfErr, IsErrOf};
ghost use Rattle.machine.specs.Running.{program_of};
ghost use Rattle.semantics.specs.ShardPlan.{KeepsRows, recorded};
ghost use Rattle.rx_queues.specs.Passes.{IsPutPassOf, AreTakePasses, jobs_put, workers_of, record_count_of, command_count_of};
ghost use Rattle.maglev.specs.RingSize.{IsRingSize};
ghost use Rattle.actors.specs.Commands.{HasSet, ServesScript};
ghost use Rattle.control.specs.declared.command.Command.{Command as Line};
ghost use Rattle.semantics.specs.declared.call.Caller.TheVariants.{Controller as TheController, Reclaimer};
ghost use Rattle.shards.specs.NewShards.{IsNamed};
ghost use Rattle.actors.specs.Accounted.{IsAccounted};
ghost use Rattle.actors.specs.Parts.{AreBadOptions, IsScriptRunBehind, round_count};
ghost use Rattle.actors.specs.Rounds.{AreReclaimed};
ghost use Rattle.actors.specs.RunsOverShards.{IsNewAt, IsRunBy};
ghost use Rattle.replay.specs.Crews.{AreHandled};
ghost use Rattle.replay.specs.Settings.{AreFreshPasses};
ghost use Rattle.actors.specs.UpdateFaults.{OfUpdate, IsOfNoUpdate};
ghost use Rattle.replay.specs.TurnFaults.{IsWhyInTurn};
ghost use Rattle.map_updates.specs.Misfits.{AreFitting};
ghost use Rattle.guarantees.specs.Headline.{Headline};
ghost use Rattle.guarantees.specs.HeadlineOf.{HeadlineOf};
ghost use Rattle.actors.specs.declared.fault.ReplayFault.TheVariants.{BadOptions};

use crate::closing::closed;
use crate::setting::{
    given_up, new_controller, new_pass, new_reclaimer, new_workers, run_threads, starts_of,
    table_for,
};
use crate::threads::{AllEnded, Setting};
use actors::controller::Commanded;
use actors::first_updates::set_first;
use actors::worker::{ShardRunner, Working};
use actors::{Outcome, ReplayFault, all_are_captured};
use control::{Script, commands_fit};
use guarantees::headline;
use map_updates::MapUpdate;
use rx_queues::{PutPass, Queues, TakePass};
use semantics::{Caller, Options, Recording};
use shard_port::Gate;
use shards::{Dealer, First, Naming, OpenFault, Opened, Pass, Shards};
use std::alloc::Global;
use std::marker::Brand;
use std::sync::Wait;
use std::thread::Threads;
use verifier::Verified;
use wire::Capture;

/// Why no shards were opened, as a replay has it.
pub(crate) fn fault_of(fault: OpenFault) -> ReplayFault
    ensures options { (result ≡ BadOptions) ↔ (fault ≡ OpenFault.BadOptions) }
    ensures memory { (result ≡ ReplayFault.Memory) ↔ (fault ≡ OpenFault.Memory) }
    ensures no_update { IsOfNoUpdate result }
{
    match fault {
        OpenFault::BadOptions => ReplayFault::BadOptions,
        OpenFault::Memory => ReplayFault::Memory,
    }
}

/// Queues for as many records and commands as there are, with the right to put into each and those to take.
fn queues_for(
    alloc: Global,
    workers: usize,
    capture: &Capture,
    starts: &[u32],
) -> Result<(Queues, PutPass, Vec<TakePass>), ReplayFault>
    requires workers { (0 < workers) × (workers ≤ 8) }
    ensures workers { IfOk result (λ opened. workers_of opened.0 ≡ workers) }
    ensures jobs { IfOk result (λ opened. (record_count_of opened.0 ≡ length capture.now.records.items) × (command_count_of opened.0 ≡
        length starts.now)) }
    ensures put { IfOk result (λ opened. IsPutPassOf opened.0 opened.1 × (jobs_put opened.1 ≡ replicate (workers + 2) [])) }
    ensures take { IfOk result (λ opened. AreTakePasses opened.0 opened.2.items) }
    ensures served { ¬ IsErrOf result BadOptions }
    ensures no_update { IfErr result IsOfNoUpdate }
{
    match Queues::open(alloc, workers, capture.records.len(), starts.len()) {
        Ok(opened) => Ok(opened),
        Err(fault) => Err(fault_of(fault)),
    }
}

/// The replay over shards that were opened for the image's maps.
fn replay_over<'x, B: Naming + Send + Sync, R: Threads + Wait + Sync, G: Gate + Sync>(
    rt: &'x R,
    alloc: Global,
    verified: &'x Verified,
    capture: &'x Capture,
    updates: &'x [MapUpdate],
    script: &'x Script,
    size: u32,
    opened: Opened,
    options: Options,
    gate: &'x G,
) -> Result<Outcome, ReplayFault>
    requires named { IsNamed B.count B.table B.plan B.order opened }
    requires maps { opened.maps ≡ verified.now.maps }
    requires options { opened.options ≡ options }
    requires workers { (0 < options.workers) × (options.workers ≤ 8) }
    requires size { IsRingSize size }
    requires script { ServesScript verified.now.maps size script.now }
    requires fit { AreFitting verified.now.maps updates.now }
    ensures accounted { IfOk result (IsAccounted (program_of verified.now options.shards) script.now options capture.now.records.items) }
    ensures updates { IfOk result (λ outcome. outcome.updates.items ≡ updates.now) }
    ensures refused { IfErr result (OfUpdate (IsWhyInTurn verified.now.maps options updates.now)) }
    ensures served { ¬ IsErrOf result BadOptions }
{
    let workers = options.workers as usize;
    let (shards, mut dealer) = opened.share::<B>(alloc)?;
    let list = starts_of(alloc, script.commands())?;
    let starts: &[u32] = &list;
    let (queues, put, takes) = queues_for(alloc, workers, capture, starts)?;
    let pass = new_pass(alloc, &mut dealer, Caller::Controller)?;
    let pass = match set_first(rt, &shards, pass, gate, updates) {
        Ok(pass) => pass,
        Err(unset) => return Err(given_up(rt, alloc, shards, dealer, unset, updates)),
    };
    let (before_last, ended) = run_threads::<B, R, G>(
        rt,
        alloc,
        verified,
        capture,
        updates,
        script,
        size,
        gate,
        &shards,
        &mut dealer,
        pass,
        starts,
        &queues,
        put,
        takes,
    )?;
    Ok(closed(
        rt,
        alloc,
        verified,
        capture,
        updates,
        script,
        size,
        shards,
        before_last,
        ended,
    )?)
}

/// The replay, and what is accounted for.
fn accounted_replay<R: Threads + Wait + Sync, G: Gate + Sync>(
    rt: &R,
    alloc: Global,
    verified: &Verified,
    capture: &Capture,
    updates: &[MapUpdate],
    script: &Script,
    options: Options,
    recording: Recording,
    gate: &G,
) -> Result<Outcome, ReplayFault>
    requires fit { AreFitting verified.now.maps updates.now }
    ensures accounted { IfOk result (IsAccounted (program_of verified.now options.shards) script.now (recorded recording options)
        capture.now.records.items) }
    ensures updates { IfOk result (λ outcome. outcome.updates.items ≡ updates.now) }
    ensures refused { IfErr result (OfUpdate (IsWhyInTurn verified.now.maps (recorded recording options) updates.now)) }
    ensures served { OnOk result (KeepsRows options.journal) }
    ensures bad_options { IsErrOf result BadOptions ↔ AreBadOptions verified.now.maps options script.now }
{
    let image = verified.image();
    let Some(size) = table_for(image.maps(), script.commands()) else {
        return Err(ReplayFault::BadOptions);
    };
    match Opened::open_with(alloc, image, options, recording) {
        Ok(opened) => replay_over::<Brand, R, G>(
            rt,
            alloc,
            verified,
            capture,
            updates,
            script,
            size,
            opened,
            options.recorded(recording),
            gate,
        ),
        Err(fault) => Err(fault_of(fault)),
    }
}

/// Runs the program of an accepted image on the frames of a capture, by as many workers on threads as the options say, over shared maps
/// in which nothing has happened. Before the first record a controller makes these updates, one after the other, each whether or not its
/// key is there. On a thread of its own it applies the commands of a script: those at frame 0 before the first record, behind the updates,
/// and each other one when as many records as its frame number were dispatched, no later than after the last; and a reclaimer frees what no
/// run can hold, in a round after every 64 records and one behind all that the others do.
///
/// **The headline** holds of what it returns (`headline`): the image is safe, and the replay is one list of events of the system, in the words
/// of the model alone; this list is that of what is accounted for (`one_list`).
///
/// Each record is counted once: as short where it has fewer than 14 bytes, and else by its run, which the worker of its flow makes, in
/// the capture's order. Verdict and frame of a run are the program's own on the replies that are among its worker's entries; these
/// are, run after run, Enter, its calls with their replies, and Leave, on each shard that it called; and every journal is legal. A run
/// is stopped only where the journal of the shard of its next call is full for good. The controller's entries are the first updates, each
/// answered 0, and those of the script's commands, and the reclaimer's are those of its rounds. What is sent is in the capture's order.
///
/// What all callers did on all shards is one order: shard by shard it is the journal, and of each caller it has what the caller did, looks
/// at full journals among it: of a worker its runs, of the controller the first updates and the commands' in the script's order, of the
/// reclaimer a round after the other, each from the lowest shard up. It begins with the updates and the commands of frame 0, so every run
/// finds what they set; and it ends with the reclaimer's last round, behind which nobody does anything.
///
/// Each reply to a run, to the controller and to the reclaimer goes through the gate: the actor that has it calls the gate, and holds no
/// lock then.
///
/// Where no rows of journals are kept, a journal has room for 4,000,000,000 entries, and all of this holds of journals that proofs alone
/// know.
///
/// Refused with 51 where no shards of the image's maps can be opened with the options, or where there are commands and the image's maps
/// are not those of steering; with 52 for lack of memory; with 93 for the first update that a map refused, and with 94 for the first for
/// which a journal was full, before any thread is started: exactly as the one-thread map refuses it behind the updates before it, where
/// nothing else was done; with 56 where a thread could not be started. Then nothing is left, and every
/// thread that was started has ended.
pub fn replay<R: Threads + Wait + Sync, G: Gate + Sync>(
    rt: &R,
    alloc: Global,
    verified: &Verified,
    capture: &Capture,
    updates: &[MapUpdate],
    script: &Script,
    options: Options,
    recording: Recording,
    gate: &G,
) -> Result<Outcome, ReplayFault>
    requires fit { AreFitting verified.now.maps updates.now }
    ensures accounted { IfOk result (IsAccounted (program_of verified.now options.shards) script.now (recorded recording options)
        capture.now.records.items) }
    ensures headline { IfOk result (Headline verified.now script.now (recorded recording options) capture.now.records.items) }
    ensures one_list { IfOk result (λ outcome. (accounted : IsAccounted (program_of verified.now options.shards) script.now
        (recorded recording options) capture.now.records.items outcome) →
        HeadlineOf verified.now script.now (recorded recording options) capture.now.records.items outcome accounted) }
    ensures updates { IfOk result (λ outcome. outcome.updates.items ≡ updates.now) }
    ensures refused { IfErr result (OfUpdate (IsWhyInTurn verified.now.maps (recorded recording options) updates.now)) }
    ensures served { OnOk result (KeepsRows options.journal) }
    ensures bad_options { IsErrOf result BadOptions ↔ AreBadOptions verified.now.maps options script.now }
{
    headline(verified);
    commands_fit(script);
    all_are_captured(capture);
    let outcome = accounted_replay(
        rt, alloc, verified, capture, updates, script, options, recording, gate,
    )?;
    let _ = outcome.journals.options();
    Ok(outcome)
}
