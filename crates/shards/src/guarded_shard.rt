//! A shard in the slot of its word, with its seat at the order of all deeds.

ghost use Rattle.std.specs.Prelude.{◌≡◌, ◌∷◌, ◌<◌, ◌^◌, [], true, false, reverse, length};
ghost use Rattle.semantics.specs.ShardPlan.{KeepsRows};
ghost use Rattle.semantics.specs.History.{Meets, meets, IsLegalJournal};
ghost use Rattle.semantics.specs.CallerLaws.{own_entries};
ghost use Rattle.shards.specs.declared.deeds.OrderPart.TheVariants.{OnShard, ByCaller};
ghost use Rattle.shards.specs.Deeds.{deed_by, entries_made};
ghost use Rattle.shards.specs.OrderRule.{IsPlaceOf, IsSeatFor, IsFresh, KnowsShard, deeds_at, account_deeds};
ghost use Rattle.shards.specs.GuardedShards.{HasCalled};
ghost use Rattle.shards.specs.GuardedView.{keyed};

use crate::asks::Ask;
use crate::order::note;
use crate::order_rule::{Order, OrderPlace, OrderSeat};
use semantics::{Call, Caller, JournalFull, laws};
use shard_core::{Shard, laws as shard_laws};
use std::marker::{Brand, Model};

/// The shard, and its seat at the order, which knows the shard's deeds: their entries are the journal. Contracts see the plan, the name of
/// the order, and the journal.
#[derive(Drop)]
pub struct GuardedShard {
    shard: Shard,
    place: OrderPlace,
}

impl Model for GuardedShard {
    ghost use Rattle.shards.specs.GuardedView.{GuardedView, keyed};
    ghost use Rattle.shards.specs.GuardedShards.{IsGuardedShard};

    ghost Value = { GuardedView };

    ghost view = { λ guarded. record { key = keyed guarded.shard.plan guarded.place.table_id; journal = guarded.shard.journal } };

    ghost invariant = { λ guarded. IsGuardedShard guarded.shard guarded.place };
}

impl GuardedShard {
    /// A shard in which nothing has happened.
    pub(crate) fn new(shard: Shard, place: OrderPlace) -> Self
        requires unused { shard.journal ≡ [] }
        requires fresh { IsFresh place.table_id (OnShard shard.plan.number) place }
        ensures { result ≡ (record { key = keyed shard.plan place.table_id; journal = [] }) }
    {
        GuardedShard { shard, place }
    }

    /// The shard and its seat.
    pub(crate) fn into_parts(self) -> (Shard, OrderPlace)
        ensures shard { (result.0.plan ≡ self.key.plan) × (result.0.journal ≡ self.journal) }
        ensures place { IsPlaceOf self.key.order (OnShard self.key.plan.number) result.1 }
        ensures written { entries_made (deeds_at result.1) ≡ reverse self.journal }
    {
        let GuardedShard { shard, place } = self;
        (shard, place)
    }

    /// How many entries the journal has.
    #[inline(always)]
    pub(crate) fn entries(&self) -> u64
        ensures count { result ≡ length self.now.journal }
        ensures few { result < 2 ^ 32 }
        ensures legal { IsLegalJournal self.now.key.plan self.now.journal }
    {
        entries(&self.shard)
    }

    /// Makes a call on the shard for a caller that may make it by its own entries, and adds what the caller did to the order.
    #[inline(always)]
    pub(crate) fn add<C: Ask>(
        &mut self,
        order: &Order,
        mine: &mut OrderSeat,
        who: Caller,
        ask: C,
    ) -> Result<C::Answer, JournalFull>
        requires met { Meets self.old.key.plan (own_entries who (reverse self.old.journal)) who (C.asks ask self.old.key.plan.number) }
        requires order { KnowsShard self.old.key order.now }
        requires mine { IsSeatFor self.old.key.order (ByCaller who) mine.old }
        ensures called { HasCalled who (C.asks ask self.old.key.plan.number) (C.replies self.old.key.plan.number) self.old self.new result }
        ensures mine { IsSeatFor self.old.key.order (ByCaller who) mine.new }
        ensures did { account_deeds mine.new.me.0 ≡
            deed_by who (C.asks ask self.old.key.plan.number) (C.replies self.old.key.plan.number) result ∷ account_deeds mine.old.me.0 }
    {
        laws::condition_is_own();
        let answer = ask.make(&mut self.shard, who);
        self.shard.few_held();
        note::<Brand, C>(
            order,
            &mut self.place,
            mine,
            &self.shard,
            who,
            &ask,
            answer.is_ok(),
        );
        answer
    }

    /// Whether a caller may make a call now, which is a matter of its own entries; no where no rows are kept.
    pub(crate) fn meets(&self, who: Caller, call: &Call) -> bool
        ensures may { result ≡ true → Meets self.now.key.plan (own_entries who (reverse self.now.journal)) who call.now }
        ensures exact { KeepsRows self.now.key.plan.reserve →
            result ≡ meets self.now.key.plan (own_entries who (reverse self.now.journal)) who call.now }
        ensures no_rows { ¬ KeepsRows self.now.key.plan.reserve → result ≡ false }
    {
        laws::condition_is_own();
        self.shard.meets(&who, call)
    }
}

/// How many entries a shard's journal has.
fn entries(shard: &Shard) -> u64
    ensures count { result ≡ length shard.now.journal }
    ensures few { result < 2 ^ 32 }
    ensures legal { IsLegalJournal shard.now.plan shard.now.journal }
{
    shard_laws::leave_has_room();
    let _plan = shard.plan();
    shard.journal().len() as u64
}
