//! The end of a replay: the shards closed, and everything accounted for.

ghost use Rattle.std.specs.Prelude.{◌≡◌, ◌<◌, ◌≤◌, ◌+◌, ◌∷◌, ◌++◌, [], ℕ, List, length, map, IfOk};
ghost use Rattle.semantics.specs.declared.call.Caller.TheVariants.{Reclaimer};
ghost use Rattle.machine.specs.Running.{program_of};
ghost use Rattle.maglev.specs.RingSize.{IsRingSize};
ghost use Rattle.actors.specs.Commands.{ServesScript};
ghost use Rattle.actors.specs.Rounds.{AreReclaimed};
ghost use Rattle.replay.specs.Crews.{AreHandled};
ghost use Rattle.replay.specs.LastRound.{IsWorkerDoneIn, IsRoundLast};
ghost use Rattle.semantics.specs.Each.{Each};
ghost use Rattle.shards.specs.Deeds.{AreFirst};
ghost use Rattle.shards.specs.declared.deeds.Deed.{Deed};
ghost use Rattle.actors.specs.Accounted.{IsAccounted};
ghost use Rattle.actors.specs.Parts.{IsScriptRunBehind, round_count, refused_of};
ghost use Rattle.actors.specs.RunsOverShards.{IsNewAt, IsRunBy, pass_in};

use crate::crew::{Handled, parted};
use crate::threads::AllEnded;
use actors::account::{Counts, account};
use actors::controller::Commanded;
use actors::first_updates::copied;
use actors::reclaimer::Reclaiming;
use actors::worker::Working;
use actors::{Applied, Outcome, ToldEnd};
use control::Script;
use journals::Journals;
use map_updates::MapUpdate;
use shard_port::Gate;
use shards::{First, Naming, Pass, Shards};
use std::alloc::{AllocError, Global};
use std::sync::Wait;
use verifier::Verified;
use wire::{Capture, Sent};

/// The commands that were refused.
pub(crate) fn refused(mut noted: Vec<Applied>) -> Vec<Applied>
    ensures { result.items ≡ refused_of noted.items }
{
    noted.retain(|one| one.fault.is_some());
    noted
}

/// The workers' passes.
fn passes_of<B: Naming>(
    alloc: Global,
    mut working: Vec<Working<B>>,
) -> Result<Vec<Pass<B>>, AllocError>
    ensures passes { IfOk result (λ passes. passes.items ≡ map pass_in working.items) }
{
    let count = working.len();
    let mut passes = Vec::with_capacity(alloc, count)?;
    'workers: for _worker in 0..count {
        let Working { pass, .. } = working.remove(0);
        passes.push_reserved(pass);
    }
    Ok(passes)
}

/// The workers' passes, then the controller's and the reclaimer's.
pub(crate) fn all_passes<B: Naming>(
    alloc: Global,
    working: Vec<Working<B>>,
    controller: Pass<B>,
    reclaimer: Pass<B>,
) -> Result<Vec<Pass<B>>, AllocError>
    ensures { IfOk result (λ passes. passes.items ≡ map pass_in working.items ++ controller ∷ reclaimer ∷ []) }
{
    let mut passes = passes_of(alloc, working)?;
    passes.push(controller)?;
    passes.push(reclaimer)?;
    Ok(passes)
}

/// What a replay returns: of the commands those that were refused.
fn outcome_of(
    counts: Counts,
    updates: Vec<MapUpdate>,
    noted: Vec<Applied>,
    sent: Vec<Sent>,
    ends: Vec<ToldEnd>,
    journals: Journals,
) -> Outcome
    ensures counts { result.counts ≡ counts }
    ensures updates { result.updates ≡ updates }
    ensures refused { result.refused.items ≡ refused_of noted.items }
    ensures sent { result.sent ≡ sent }
    ensures ends { result.ends ≡ ends }
    ensures journals { result.journals ≡ journals }
{
    Outcome {
        counts,
        updates,
        refused: refused(noted),
        sent,
        ends,
        journals,
    }
}

/// Of each worker, all that it did is in a longer beginning of the one order of all deeds than what was known to come first.
fn workers_so_far<B: Naming>(
    shards: &Shards<B>,
    workers: &mut Vec<Handled<Working<B>>>,
    first: First<B>,
) -> First<B>
    ensures later { AreFirst first result }
    ensures done { Each (IsWorkerDoneIn result) 0 workers.old.items }
    ensures same { workers.new.items ≡ workers.old.items }
{
    let mut all = first;
    'workers: for place in 0..workers.len() {
        all = shards.so_far(&mut workers[place].state.pass, all);
    }
    all
}

/// The reclaimer's last round, when all threads have ended: behind all that was done so far. The one order of all deeds begins with that, and
/// this begins with what was known to come first.
pub(crate) fn last_round<'x, B: Naming, R: Wait, G: Gate>(
    shards: &Shards<B>,
    first: First<B>,
    ended: AllEnded<Working<B>, Commanded<B>, Reclaiming<'x, B, R, G>>,
) -> (First<B>, AllEnded<Working<B>, Commanded<B>, Pass<B>>)
    ensures later { AreFirst first result.0 }
    ensures workers { result.1.workers.items ≡ ended.entry.workers.items }
    ensures controller { result.1.controller ≡ ended.entry.controller }
    ensures closed { IsRoundLast B.plan B.count result.0 result.1.workers.items result.1.controller.pass result.1.reclaimer }
    ensures rounds { (rounds : ℕ) → AreReclaimed B.plan B.count rounds ended.entry.reclaimer →
        AreReclaimed B.plan B.count (rounds + 1) result.1.reclaimer }
    ensures who { result.1.reclaimer.who ≡ Reclaimer }
{
    let AllEnded {
        mut workers,
        mut controller,
        reclaimer,
    } = ended;
    let worked = workers_so_far(shards, &mut workers, first);
    let all = shards.so_far(&mut controller.pass, worked);
    let (before_last, pass) = reclaimer.last_round(all);
    (
        before_last,
        AllEnded {
            workers,
            controller,
            reclaimer: pass,
        },
    )
}

/// Closes the shards, and counts what the workers did.
pub(crate) fn closed<B: Naming, R: Wait>(
    rt: &R,
    alloc: Global,
    verified: &Verified,
    capture: &Capture,
    updates: &[MapUpdate],
    script: &Script,
    size: u32,
    shards: Shards<B>,
    before_last: First<B>,
    ended: AllEnded<Working<B>, Commanded<B>, Pass<B>>,
) -> Result<Outcome, AllocError>
    requires maps { shards.maps ≡ verified.now.maps }
    requires some { (0 < shards.options.workers) × (shards.options.workers ≤ 8) }
    requires count { length ended.workers.items ≡ shards.options.workers }
    requires handled { AreHandled IsNewAt (IsRunBy B.count B.plan (program_of verified.now shards.options.shards)) capture.now.records.items
        shards.options.workers ended.workers.items }
    requires size { IsRingSize size }
    requires serves { ServesScript shards.maps size script.now }
    requires script { (first : List Deed) × AreFirst first before_last × IsScriptRunBehind B.plan shards.maps shards.options updates.now script.now
        size ended.controller.noted.items ended.controller.pass first }
    requires closed { IsRoundLast B.plan B.count before_last ended.workers.items ended.controller.pass ended.reclaimer }
    requires rounds { AreReclaimed B.plan B.count (round_count (length capture.now.records.items)) ended.reclaimer ×
        (ended.reclaimer.who ≡ Reclaimer) }
    ensures accounted { IfOk result (IsAccounted (program_of verified.now shards.options.shards) script.now shards.options
        capture.now.records.items) }
    ensures updates { IfOk result (λ outcome. outcome.updates.items ≡ updates.now) }
{
    let _ = verified;
    let _ = script;
    let _ = size;
    shards.planned();
    let AllEnded {
        workers,
        controller,
        reclaimer,
    } = ended;
    let (runs, working) = parted(alloc, workers)?;
    let (counts, sent, ends) = account(alloc, capture, runs)?;
    let Commanded { pass, noted } = controller;
    let passes = all_passes(alloc, working, pass, reclaimer)?;
    let made = copied(alloc, updates)?;
    let journals = shards.close_behind(rt, passes, before_last);
    Ok(outcome_of(counts, made, noted, sent, ends, journals))
}
