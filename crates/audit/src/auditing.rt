//! Journals made again, entry by entry.

ghost use Rattle.std.specs.Prelude.{◌≡◌, ◌↔◌, ◌<◌, ◌*◌, true, false, IfOk, IfErr, OnOk, length, reverse};
ghost use Rattle.std.specs.Option.{MatchOption};
ghost use Rattle.semantics.specs.ShardPlan.{KeepsRows};
ghost use Rattle.semantics.specs.PlanLimits.{IsPlan};
ghost use Rattle.semantics.specs.History.{IsLegalStep, IsLegalJournal};
ghost use Rattle.shard_core.specs.JournaledShard.{shard_with_entry};
ghost use Rattle.audit.specs.declared.fault.AuditFault.TheVariants.{Memory};
ghost use Rattle.journals.specs.LegalJournals.{AreLegal};
ghost use Rattle.audit.specs.Audited.{IsFirstIllegal, ExplainsJournals};
ghost use Rattle.audit.specs.HeldCells.{AreHeld};

use crate::fault::AuditFault;
use crate::held_cells::HeldCells;
use crate::plans::plan_at;
use crate::standings::may_call;
use journals::{Journals, ShardJournal};
use semantics::{Entry, ShardPlan};
use shard_core::Shard;
use std::alloc::{AllocError, Global};

/// Makes the entry's call on the shard, if its caller may make it and the journal has room for it, and says whether the reply is the
/// entry's.
fn is_made_again(shard: &mut Shard, held: &HeldCells, entry: &Entry) -> bool
    requires { AreHeld held.now (reverse shard.old.journal) }
    ensures legal { IsLegalJournal shard.old.plan shard.old.journal }
    ensures made { result ≡ true → shard.new ≡ shard_with_entry shard.old entry.now }
    ensures illegal { result ≡ false → ¬ IsLegalStep shard.old.plan (reverse shard.old.journal) entry.now }
{
    let _ = shard.journal();
    if !may_call(shard, held, &entry.who, &entry.call) {
        return false;
    }
    match shard.apply(entry.who, &entry.call) {
        Ok(reply) => reply == entry.reply,
        Err(_) => false,
    }
}

/// The place of the first entry with which the journal is not legal.
fn first_illegal(
    alloc: Global,
    plan: ShardPlan,
    journal: &ShardJournal<'_>,
) -> Result<Option<usize>, AllocError>
    requires { IsPlan plan }
    ensures { IfOk result (λ found. MatchOption found (IsLegalJournal plan journal.now) (λ place. IsFirstIllegal plan journal.now place)) }
{
    let mut shard = Shard::open(alloc, plan)?;
    let mut held = HeldCells::new(alloc)?;
    'places: for place in 0..journal.len() {
        let entry = journal.entry(place);
        if !is_made_again(&mut shard, &held, &entry) {
            return Ok(Some(place));
        }
        held.note(&entry, place as u64 + 1)?;
    }
    let _ = shard.journal();
    Ok(None)
}

/// Whether each journal, whose rows are kept, is legal: whether each entry is one step of the one-thread map, by a caller that may make the
/// call, with the reply that the map returns, and none came past a full journal.
///
/// Refused with 53 and the first shard and the least place, counted from 0, such that the beginning of this shard's journal that ends with
/// this entry is not legal; with 52 where memory is. It takes the memory of one shard at a time.
pub fn audit(alloc: Global, journals: &Journals) -> Result<(), AuditFault>
    requires { KeepsRows journals.now.options.journal }
    ensures legal { OnOk result (AreLegal journals.now) }
    ensures refused { IfErr result (λ fault. ExplainsJournals journals.now fault) }
    ensures accepts { AreLegal journals.now → IfErr result (λ fault. fault ≡ Memory) }
{
    let options = journals.options();
    let maps = journals.maps();
    'shards: for number in 0..journals.count() {
        let plan = plan_at(maps, &options, number);
        match first_illegal(alloc, plan, &journals.journal(number))? {
            Some(place) => return Err(AuditFault::Illegal {
                shard: number,
                place,
            }),
            None => {}
        }
    }
    Ok(())
}
