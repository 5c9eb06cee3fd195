//! Who deals the passes.

ghost use Rattle.std.specs.Prelude.{◌≡◌, ◌≢◌, ◌≤◌, ◌<◌, ◌↔◌, ◌+◌, ℕ, true, false, List, [], length, vec_capacity, IfOk, IsErrOf, OnOk, OnErr};
ghost use Rattle.std.specs.Prelude.{slice_set, replicate};
ghost use Rattle.semantics.specs.declared.call.Caller.TheVariants.{Controller};
ghost use Rattle.shards.specs.CallerView.{nothing_seen};
ghost use Rattle.shards.specs.HeldCells.{held_at, most_held, room_of};
ghost use Rattle.shards.specs.LockRule.{caller_place};
ghost use Rattle.shards.specs.NewShards.{badges_at, is_dealt_at, IsNewSeat, IsPartOfSeat};
ghost use Rattle.shards.specs.Passes.{badge_at, shard_pass_at, view_at};
ghost use Rattle.shards.specs.declared.pass_fault.PassFault.TheVariants.{BadOptions, PassTaken};

use crate::first::First;
use crate::held::{HeldCells, none_held};
use crate::naming::Naming;
use crate::order::first_of;
use crate::order_rule::OrderPlace;
use crate::pass::Pass;
use crate::pass_fault::PassFault;
use crate::shard_pass::ShardPass;
use crate::sharing::Shards;
use crate::waiting::Waiting;
use atomic_table::Badge;
use semantics::Caller;
use std::alloc::Global;
use std::marker::{Model, PhantomData};
use std::mem;

/// The right to deal each caller its one pass: what is not dealt yet cannot be shared, so it is kept beside the shards. Contracts see which
/// passes were dealt: the controller's, the reclaimer's, then the workers' by their numbers.
#[derive(Drop)]
pub struct Dealer<B: Naming> {
    /// The seats of each shard.
    pub(crate) rows: Vec<Waiting>,
    pub(crate) dealt: Vec<bool>,
    /// The seats at the order.
    pub(crate) places: Vec<OrderPlace>,
    /// How many cells a worker can hold in each shard.
    pub(crate) rooms: Vec<usize>,
    pub(crate) names: PhantomData<B>,
}

impl<B: Naming> Model for Dealer<B> {
    ghost use Rattle.std.specs.Prelude.{List, Bool};
    ghost use Rattle.shards.specs.GuardedView.{keys};
    ghost use Rattle.shards.specs.NewShards.{IsDealer, AreAtOrder};

    ghost Value = { List Bool };

    ghost view = { λ dealer. dealer.dealt.items };

    ghost invariant = { λ dealer. IsDealer B.table (keys B.plan B.order) B.count dealer.rooms.items dealer.dealt.items dealer.rows.items
        × AreAtOrder B.order dealer.dealt.items dealer.places.items };
}

impl<B: Naming> Dealer<B> {
    /// The caller's pass, which has seen nothing. Takes the memory for the cells that a worker can hold. Refused with 51 where there is no
    /// such worker, with 54 where the pass was dealt before, and with 52 for lack of memory; then nothing is changed.
    pub fn pass(&mut self, alloc: Global, who: Caller) -> Result<Pass<B>, PassFault>
        ensures who { IfOk result (λ pass. pass.who ≡ who) }
        ensures nothing { IfOk result (λ pass. (number : ℕ) → view_at pass number ≡ nothing_seen) }
        ensures idle { IfOk result (λ pass. pass.deeds ≡ []) }
        ensures dealt { OnOk result (self.new ≡ slice_set self.old (caller_place who) true) }
        ensures bad_options { IsErrOf result BadOptions ↔ (length self.old ≤ caller_place who) }
        ensures taken { IsErrOf result PassTaken ↔ (caller_place who < length self.old) × (is_dealt_at self.old (caller_place who) ≡ true) }
        ensures refused_unchanged { OnErr result (self.new ≡ self.old) }
    {
        let place = caller_place(who);
        if place >= self.dealt.len() {
            return Err(PassFault::BadOptions);
        }
        if self.dealt[place] {
            return Err(PassFault::PassTaken);
        }
        let held = none_held(alloc, who, &self.rooms)?;
        let parts = Vec::with_capacity(alloc, self.rows.len())?;
        self.dealt[place] = true;
        let parts = column(&mut self.rows, place, held, parts);
        let seat = mem::replace(&mut self.places[place], Badge::blank()).into_seat();
        Ok(Pass {
            who,
            parts,
            seat,
            names: PhantomData,
        })
    }

    /// What the controller did so far, as the beginning of what all callers will have done: nobody else has a pass yet. Changes nothing.
    pub fn first(&mut self, shards: &Shards<B>, pass: &mut Pass<B>) -> First<B>
        requires who { pass.old.who ≡ Controller }
        requires alone { self.old ≡ slice_set (replicate (shards.now.options.workers + 2) false) 0 true }
        ensures first { result ≡ pass.old.deeds }
        ensures pass { pass.new ≡ pass.old }
        ensures unchanged { self.new ≡ self.old }
    {
        First {
            seat: first_of(
                &shards.order,
                &mut self.places,
                self.dealt.len(),
                &mut pass.seat,
            ),
            names: PhantomData,
        }
    }
}

/// The caller's place among all.
fn caller_place(who: Caller) -> usize
    ensures { result ≡ caller_place who }
{
    match who {
        Caller::Controller => 0,
        Caller::Reclaimer => 1,
        Caller::Worker { number } => number as usize + 2,
    }
}

/// Takes the seats of one caller out of all rows, for its parts of the shards.
fn column(
    rows: &mut Vec<Waiting>,
    place: usize,
    mut held: Vec<HeldCells>,
    mut parts: Vec<ShardPass>,
) -> Vec<ShardPass>
    requires empty { parts.items ≡ [] }
    requires room { length rows.old.items ≤ vec_capacity parts }
    requires held { length held.items ≡ length rows.old.items }
    requires none { (number : ℕ) → number < length rows.old.items → (held_at held.items number).ids ≡ [] }
    requires waiting { (number : ℕ) → number < length rows.old.items → place < length (badges_at rows.old.items number) }
    requires new { (number : ℕ) → number < length rows.old.items →
        IsNewSeat (badge_at (badges_at rows.old.items number) place) (held_at held.items number) }
    ensures count { (length result.items ≡ length rows.old.items) × (length rows.new.items ≡ length rows.old.items) }
    ensures parts { (number : ℕ) → number < length rows.old.items →
        IsPartOfSeat (badge_at (badges_at rows.old.items number) place) (shard_pass_at result.items number) }
    ensures others { (number other : ℕ) → other ≢ place →
        badge_at (badges_at rows.new.items number) other ≡ badge_at (badges_at rows.old.items number) other }
    ensures lengths { (number : ℕ) → length (badges_at rows.new.items number) ≡ length (badges_at rows.old.items number) }
{
    'rows: for number in 0..rows.len() {
        let seat = rows[number].take(place).into_seat();
        parts.push_reserved(ShardPass::new(seat, held.remove(0)));
    }
    parts
}
