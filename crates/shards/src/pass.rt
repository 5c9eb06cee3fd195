//! What a caller has for its calls.

ghost use Rattle.std.specs.Prelude.{◌≡◌, ◌<◌, true, false};
ghost use Rattle.semantics.specs.ShardPlan.{KeepsRows};
ghost use Rattle.semantics.specs.History.{Meets, meets, IsLegalHistory};
ghost use Rattle.shards.specs.CallerView.{BeginsWith, ViewHasLooked};
ghost use Rattle.semantics.specs.CallerLaws.{own_entries};
ghost use Rattle.shards.specs.declared.deeds.OrderPart.TheVariants.{ByCaller};
ghost use Rattle.shards.specs.GuardedView.{keyed};
ghost use Rattle.shards.specs.OrderRule.{IsSeatFor, account_deeds};
ghost use Rattle.shards.specs.Seats.{IsLockOf, IsVisitor, view_of};
ghost use Rattle.shards.specs.Passes.{KnowsItsOwn, view_at, own_at, seen_at, IsElsewhereSame, is_inside_of};
ghost use Rattle.shards.specs.HeldCells.{holds_own};

use crate::naming::Naming;
use crate::order_rule::OrderSeat;
use crate::rule::{Lock, LockSeat};
use crate::shard_pass::ShardPass;
use semantics::{Call, Caller, CellRef};
use std::marker::{Model, PhantomData};
use std::sync::Wait;

/// A caller's right to call the shards. Contracts see, for each shard, a beginning of its history that the caller has seen, and in it the
/// entries of the caller's own calls, which are all that this caller ever made there; and over all shards what the caller did, in its
/// order.
#[derive(Drop)]
pub struct Pass<B: Naming> {
    pub(crate) who: Caller,
    /// By the shards' numbers.
    pub(crate) parts: Vec<ShardPass>,
    /// At the order of all deeds.
    pub(crate) seat: OrderSeat,
    pub(crate) names: PhantomData<B>,
}

impl<B: Naming> Model for Pass<B> {
    ghost use Rattle.shards.specs.declared.deeds.OrderPart.TheVariants.{ByCaller};
    ghost use Rattle.shards.specs.GuardedView.{keys};
    ghost use Rattle.shards.specs.OrderRule.{IsSeatFor, account_deeds};
    ghost use Rattle.shards.specs.Passes.{PassView, pass_view, IsPass};

    ghost Value = { PassView };

    ghost view = { λ pass. pass_view pass.who pass.parts.items (account_deeds pass.seat.me.0) };

    ghost invariant = { λ pass. IsPass B.table (keys B.plan B.order) B.count pass.who pass.parts.items
        × IsSeatFor B.order (ByCaller pass.who) pass.seat };
}

impl<B: Naming> Pass<B> {
    /// On each shard the caller's own entries are all of its entries in what it has seen, and what it has seen is legal. The function does
    /// nothing: it brings this fact into a proof.
    pub fn knows(&self, shard: u32)
        requires { shard < B.count }
        ensures own { KnowsItsOwn shard self.now }
        ensures legal { IsLegalHistory (B.plan shard) (seen_at self.now shard) }
    {
        self.parts[shard as usize].knows();
    }

    /// Whether the caller is inside the shard: it is a worker with an Enter that no Leave of its own follows. Asks nobody, takes no memory
    /// and cannot fail.
    #[inline(always)]
    pub fn is_inside(&self, shard: u32) -> bool
        requires { shard < B.count }
        ensures { result ≡ is_inside_of self.now.who (own_at self.now shard) }
    {
        self.parts[shard as usize].is_inside(self.who)
    }

    /// Whether the caller holds the cell: it is a worker inside the cell's shard, and found the cell there by a Lookup of its own since its
    /// Enter. Asks nobody, takes no memory and cannot fail; it reads the list of what the worker found since then.
    pub fn holds(&self, cell: &CellRef) -> bool
        requires { cell.now.shard < B.count }
        ensures { result ≡ holds_own self.now.who (own_at self.now cell.now.shard) cell.now.id }
    {
        self.parts[cell.shard as usize].holds(self.who, cell.id)
    }

    /// Whether the caller may make the call on the shard of this number now.
    pub(crate) fn may_call(&mut self, rt: &impl Wait, lock: &Lock, number: u32, call: &Call) -> bool
        requires number { number < B.count }
        requires lock { IsLockOf (B.table number) (keyed (B.plan number) B.order) lock.now }
        ensures elsewhere { IsElsewhereSame number self.old self.new }
        ensures looked { ViewHasLooked (B.plan number) (view_at self.old number) (view_at self.new number) }
        ensures may { result ≡ true → Meets (B.plan number) (own_at self.new number) self.new.who call.now }
        ensures exact { KeepsRows (B.plan number).reserve → result ≡ meets (B.plan number) (own_at self.new number) self.new.who call.now }
        ensures no_rows { ¬ KeepsRows (B.plan number).reserve → result ≡ false }
        ensures did { self.new.deeds ≡ self.old.deeds }
    {
        self.parts[number as usize].may_call(rt, lock, self.who, call)
    }

    /// Sees the history of the shard of this number, which the visitor has.
    pub(crate) fn see(&mut self, lock: &Lock, number: u32, visitor_seat: &mut LockSeat)
        requires number { number < B.count }
        requires lock { IsLockOf (B.table number) (keyed (B.plan number) B.order) lock.now }
        requires visitor { IsVisitor (B.table number) (keyed (B.plan number) B.order) (view_of visitor_seat.old.me).seen visitor_seat.old }
        requires legal { IsLegalHistory (B.plan number) (view_of visitor_seat.old.me).seen }
        ensures visitor { (visitor_seat.new.table_id ≡ visitor_seat.old.table_id) × (visitor_seat.new.me ≡ visitor_seat.old.me) }
        ensures elsewhere { IsElsewhereSame number self.old self.new }
        ensures looked { ViewHasLooked (B.plan number) (view_at self.old number) (view_at self.new number) }
        ensures sight { seen_at self.new number ≡ (view_of visitor_seat.old.me).seen }
        ensures own { own_at self.old number ≡ own_entries self.old.who (view_of visitor_seat.old.me).seen }
        ensures begins { BeginsWith (view_of visitor_seat.old.me).seen (seen_at self.old number) }
        ensures did { self.new.deeds ≡ self.old.deeds }
    {
        self.parts[number as usize].see(lock, visitor_seat)
    }

    /// Its seat at the order.
    pub(crate) fn into_seat(self) -> OrderSeat
        ensures seat { IsSeatFor B.order (ByCaller self.who) result }
        ensures deeds { account_deeds result.me.0 ≡ self.deeds }
    {
        let Pass { seat, .. } = self;
        seat
    }
}
