//! What a replay begins with: the table and the numbers of its script, the passes, the controller and the reclaimer, and all of it
//! together.

ghost use Rattle.std.specs.Prelude.{◌≡◌, ◌<◌, ◌≤◌, ◌+◌, true, false, [], length, map, IfErr, IfOk, OnOk, IsErrOf, IfSome, IsNone};
ghost use Rattle.std.specs.Prelude.{slice_set, replicate};
ghost use Rattle.machine.specs.Running.{program_of};
ghost use Rattle.maglev.specs.RingSize.{IsRingSize};
ghost use Rattle.control.specs.declared.command.Command.{Command as Line};
ghost use Rattle.semantics.specs.declared.call.Caller.TheVariants.{Controller as TheController};
ghost use Rattle.shards.specs.LockRule.{caller_place};
ghost use Rattle.shards.specs.Passes.{PassView};
ghost use Rattle.semantics.specs.Each.{Each};
ghost use Rattle.actors.specs.Actors.{AreDue, IsUnused, numbers_from};
ghost use Rattle.actors.specs.Commands.{HasSet, ServesScript, StaysOf};
ghost use Rattle.actors.specs.Parts.{HasNoTable, IsStarted, HasBegunWith, numbers_of};
ghost use Rattle.replay.specs.ThreadsEnded.{CanStartThreads, HaveEnded};
ghost use Rattle.actors.specs.RunsOverShards.{IsNewAt};
ghost use Rattle.actors.specs.UpdateFaults.{IsOfNoUpdate, IsWhyByPass};
ghost use Rattle.replay.specs.TurnFaults.{IsWhyInTurn};
ghost use Rattle.actors.specs.declared.fault.ReplayFault.TheVariants.{BadOptions};

use crate::closing::last_round;
use crate::threads::{AllEnded, Setting, run_all};
use actors::ReplayFault;
use actors::controller::{Commanded, Commander};
use actors::dispatch::due;
use actors::first_updates::Unset;
use actors::reclaimer::Reclaiming;
use actors::worker::{ShardRunner, Working};
use conntrack::table_size;
use control::{Command, Script};
use ebpf_decode::MapDef;
use map_updates::MapUpdate;
use rx_queues::{PutPass, Queues, TakePass};
use semantics::Caller;
use shard_port::Gate;
use shards::{Dealer, First, Naming, Pass, Shards};
use std::alloc::{AllocError, Global};
use std::sync::Wait;
use std::thread::Threads;
use verifier::Verified;
use wire::{Capture, Frame, MAX_FRAME};

/// The smallest lookup table: that of a replay without commands, which has none.
const SMALLEST: u32 = 7;

/// The size of the lookup table that the maps are for; without commands any will do. None where there are commands and the maps are for
/// no table.
pub(crate) fn table_for(maps: &[MapDef], script: &[Command]) -> Option<u32>
    ensures size { IfSome result (λ size. IsRingSize size × ServesScript maps.now size script.now) }
    ensures none { IsNone result → HasNoTable maps.now script.now }
{
    if script.is_empty() {
        return Some(SMALLEST);
    }
    table_size(maps)
}

/// The frame number of each command.
pub(crate) fn starts_of(alloc: Global, script: &[Command]) -> Result<Vec<u32>, AllocError>
    ensures { IfOk result (λ starts. starts.items ≡ map (λ (line : Line). line.frame) script.now) }
{
    script.iter().map(|line| line.frame).collect(alloc)
}

/// Applies the commands of frame 0, which come before the first record, and returns how many they are.
fn apply_first<B: Naming, W: Wait, G: Gate>(
    alloc: Global,
    commander: &mut Commander<'_, B, W, G>,
    starts: &[u32],
) -> Result<usize, AllocError>
    requires nothing { commander.old.noted ≡ [] }
    requires each { length starts.now ≡ length commander.old.script }
    ensures first { IfOk result (λ first. (numbers_of commander.new.noted ≡ numbers_from 0 first) × (first ≤ length commander.new.script)) }
    ensures due { IfOk result (λ first. AreDue starts.now 0 0 first) }
    ensures same { StaysOf commander.old commander.new }
{
    let first = due(starts, 0, 0);
    'commands: for number in 0..first {
        commander.apply(alloc, number)?;
    }
    Ok(first)
}

/// A frame that is filled again for each run. It has all the memory that the runs need.
pub(crate) fn frame_of_runs(alloc: Global) -> Result<Frame, AllocError> {
    match Frame::of(alloc, &[0; MAX_FRAME]) {
        Ok(frame) => Ok(frame),
        Err(_) => Err(AllocError),
    }
}

/// What each worker begins with: its pass, no reply yet, and a frame.
pub(crate) fn new_workers<B: Naming>(
    alloc: Global,
    dealer: &mut Dealer<B>,
    workers: usize,
) -> Result<Vec<Working<B>>, AllocError>
    requires { workers ≤ 8 }
    ensures count { IfOk result (λ all. length all.items ≡ workers) }
    ensures passes { IfOk result (λ all. Each IsNewAt 0 all.items) }
{
    let mut all = Vec::with_capacity(alloc, workers)?;
    'workers: for worker in 0..workers {
        let caller = Caller::Worker {
            number: worker as u8,
        };
        let frame = frame_of_runs(alloc)?;
        match dealer.pass(alloc, caller) {
            Ok(pass) => all.push_reserved(Working {
                pass,
                replies: 0,
                frame,
            }),
            Err(_) => return Err(AllocError),
        }
    }
    Ok(all)
}

/// The pass of the controller or of the reclaimer.
pub(crate) fn new_pass<B: Naming>(
    alloc: Global,
    dealer: &mut Dealer<B>,
    who: Caller,
) -> Result<Pass<B>, AllocError>
    ensures who { IfOk result (λ pass. pass.who ≡ who) }
    ensures unused { IfOk result (λ pass. IsUnused pass) }
    ensures dealt { OnOk result (dealer.new ≡ slice_set dealer.old (caller_place who) true) }
{
    match dealer.pass(alloc, who) {
        Ok(pass) => Ok(pass),
        Err(_) => Err(AllocError),
    }
}

/// The controller, whose pass has made the updates, and which has applied the commands before the first frame; how many these are; and what
/// it did so far, as the beginning of what all callers will have done.
pub(crate) fn new_controller<'x, B: Naming, R: Wait, G: Gate>(
    alloc: Global,
    rt: &'x R,
    shards: &'x Shards<B>,
    dealer: &mut Dealer<B>,
    gate: &'x G,
    updates: &'x [MapUpdate],
    pass: Pass<B>,
    script: &'x Script,
    starts: &[u32],
    size: u32,
) -> Result<(Commander<'x, B, R, G>, usize, First<B>), AllocError>
    requires who { pass.who ≡ TheController }
    requires set { HasSet shards.now.maps shards.now.options updates.now pass }
    requires alone { dealer.old ≡ slice_set (replicate (shards.now.options.workers + 2) false) 0 true }
    requires size { IsRingSize size }
    requires script { ServesScript shards.now.maps size script.now }
    requires starts { starts.now ≡ map (λ (line : Line). line.frame) script.now }
    ensures due { IfOk result (λ made. AreDue starts.now 0 0 made.1) }
    ensures started { IfOk result (λ made. IsStarted shards.now.maps shards.now.options updates.now script.now size made.0 made.1) }
    ensures first { IfOk result (λ made. HasBegunWith B.plan shards.now.maps shards.now.options updates.now script.now made.0 made.2) }
{
    let commands = script.commands();
    let mut commander = Commander::over(alloc, rt, shards, pass, gate, updates, commands, size);
    let count = apply_first(alloc, &mut commander, starts)?;
    commander.has_account();
    let first = commander.first(dealer);
    Ok((commander, count, first))
}

/// Ends the calls of shards on which an update was refused, and returns why it was: as the only caller's, it is the one-thread map's answer.
pub(crate) fn given_up<B: Naming, R: Wait>(
    rt: &R,
    alloc: Global,
    shards: Shards<B>,
    mut dealer: Dealer<B>,
    unset: Unset<B>,
    updates: &[MapUpdate],
) -> ReplayFault
    requires who { unset.pass.who ≡ TheController }
    requires alone { dealer ≡ slice_set (replicate (shards.options.workers + 2) false) 0 true }
    requires why { (before : PassView) × IsUnused before × (before.who ≡ TheController) ×
        IsWhyByPass B.plan shards.maps shards.options before unset.pass updates.now unset.fault }
    ensures fault { result ≡ unset.fault }
    ensures refused { IsWhyInTurn shards.maps shards.options updates.now result }
{
    let _ = updates;
    let Unset { fault, mut pass } = unset;
    shards.planned();
    let first = dealer.first(&shards, &mut pass);
    shards.close_behind(rt, Vec::new(alloc), first);
    fault
}

/// The reclaimer.
pub(crate) fn new_reclaimer<'x, B: Naming, R: Wait, G: Gate>(
    alloc: Global,
    rt: &'x R,
    shards: &'x Shards<B>,
    dealer: &mut Dealer<B>,
    gate: &'x G,
) -> Result<Reclaiming<'x, B, R, G>, AllocError>
    ensures { IfOk result (λ reclaiming. IsUnused reclaiming) }
{
    let pass = new_pass(alloc, dealer, Caller::Reclaimer)?;
    Ok(Reclaiming::over(rt, shards, pass, gate))
}

/// Runs all threads, from their start to their end, behind the updates, which the controller's pass has made, and then makes the reclaimer's
/// last round; and what was done before that round, as the beginning of what all callers did. It begins with what the controller did before
/// any thread was started: the updates and the commands of frame 0.
pub(crate) fn run_threads<'x, B: Naming + Send + Sync, R: Threads + Wait + Sync, G: Gate + Sync>(
    rt: &'x R,
    alloc: Global,
    verified: &'x Verified,
    capture: &'x Capture,
    updates: &'x [MapUpdate],
    script: &'x Script,
    size: u32,
    gate: &'x G,
    shards: &'x Shards<B>,
    dealer: &mut Dealer<B>,
    pass: Pass<B>,
    starts: &'x [u32],
    queues: &'x Queues,
    put: PutPass,
    takes: Vec<TakePass>,
) -> Result<(First<B>, AllEnded<Working<B>, Commanded<B>, Pass<B>>), ReplayFault>
    requires maps { shards.now.maps ≡ verified.now.maps }
    requires ready { CanStartThreads shards.now.maps shards.now.options updates.now script.now size starts.now dealer.old pass queues.now put
        takes.items capture.now.records.items }
    ensures ended { IfOk result (λ it. HaveEnded B.plan B.count (program_of verified.now shards.now.options.shards) shards.now.maps
        shards.now.options updates.now script.now size capture.now.records.items it.0 it.1.workers.items it.1.controller.noted.items
        it.1.controller.pass it.1.reclaimer) }
    ensures served { ¬ IsErrOf result BadOptions }
    ensures no_update { IfErr result IsOfNoUpdate }
{
    let (controller, count, first) = new_controller(
        alloc, rt, shards, dealer, gate, updates, pass, script, starts, size,
    )?;
    let states = new_workers(alloc, dealer, shards.options().workers as usize)?;
    let reclaimer = new_reclaimer(alloc, rt, shards, dealer, gate)?;
    let runner = ShardRunner {
        rt,
        gate,
        verified,
        shards,
    };
    let setting = Setting {
        rt,
        alloc,
        queues,
        capture,
        starts,
        first: count,
        runner: &runner,
    };
    match run_all(setting, controller, reclaimer, put, takes, states) {
        Ok(all) => Ok(last_round(shards, first, all)),
        Err(abandoned) => Err(abandoned.fault),
    }
}
