//! The end of all calls.

ghost use Rattle.std.specs.Prelude.{◌≡◌, ◌≢◌, ◌<◌, ◌+◌, ℕ, length};
ghost use Rattle.semantics.specs.History.{IsLegalJournal};
ghost use Rattle.journals.specs.JournalsView.{entries_at};
ghost use Rattle.shards.specs.CallerView.{IsSettled};
ghost use Rattle.shards.specs.declared.deeds.Account.{Account};
ghost use Rattle.shards.specs.declared.deeds.OrderPart.TheVariants.{ByCaller};
ghost use Rattle.shards.specs.ClosedOrders.{HasGathered, IsOneOrder, IsOneOrderBehind, account_of};
ghost use Rattle.shards.specs.Deeds.{deeds_of, AreFirst};
ghost use Rattle.shards.specs.GuardedView.{keyed};
ghost use Rattle.shards.specs.OrderRule.{IsOneOfAccounts};
ghost use Rattle.shards.specs.Passes.{pass_at, view_at, AreSettled};
ghost use Rattle.shards.specs.Seats.{IsLockOf};

use crate::first::First;
use crate::lock::visit;
use crate::naming::Naming;
use crate::order::{all_so_far, end, gather, visitor};
use crate::order_rule::{Order, OrderSeat};
use crate::pass::Pass;
use crate::rule::Lock;
use crate::sharing::Shards;
use crate::showing::close;
use journals::Journals;
use shard_core::Shard;
use std::marker::PhantomData;
use std::sync::Wait;

impl<B: Naming> Shards<B> {
    /// All that was done so far, with which the one order of all deeds begins: what the pass's caller did is its part of it. It begins with
    /// what was known to come first. Changes nothing.
    pub fn so_far(&self, pass: &mut Pass<B>, earlier: First<B>) -> First<B>
        ensures later { AreFirst earlier result }
        ensures own { pass.old.deeds ≡ deeds_of (ByCaller pass.old.who) result }
        ensures pass { pass.new ≡ pass.old }
    {
        let who = pass.who;
        First {
            seat: all_so_far(&self.order, &mut pass.seat, who, earlier.into_seat()),
            names: PhantomData,
        }
    }

    /// Ends all calls, and returns the journals; each is legal. Of each pass that is handed in, what it saw is a beginning of the
    /// journal, and its own entries are all that the journal has of its caller. Takes no memory.
    pub fn close(self, rt: &impl Wait, passes: Vec<Pass<B>>) -> Journals
        ensures maps { result.maps ≡ self.maps }
        ensures options { result.options ≡ self.options }
        ensures count { length result.shards ≡ B.count }
        ensures legal { (number : ℕ) → number < B.count → IsLegalJournal (B.plan number) (entries_at result number) }
        ensures settled { (place : ℕ) → place < length passes.items → AreSettled B.count result (pass_at passes.items place) }
        ensures did { IsOneOrder B.plan B.count (self.options.workers + 2) result passes.items }
    {
        let first = First::nothing(&self.order);
        self.close_behind(rt, passes, first)
    }

    /// The same, where it is known what was done before all else: the one order of all deeds begins with it.
    pub fn close_behind(self, rt: &impl Wait, mut passes: Vec<Pass<B>>, first: First<B>) -> Journals
        ensures maps { result.maps ≡ self.maps }
        ensures options { result.options ≡ self.options }
        ensures count { length result.shards ≡ B.count }
        ensures legal { (number : ℕ) → number < B.count → IsLegalJournal (B.plan number) (entries_at result number) }
        ensures settled { (place : ℕ) → place < length passes.items → AreSettled B.count result (pass_at passes.items place) }
        ensures did { IsOneOrderBehind B.plan B.count (self.options.workers + 2) first result passes.items }
    {
        let Shards {
            mut locks,
            order,
            maps,
            options,
            room,
            ..
        } = self;
        let mut closed = room.into_inner().into_list();
        let count = locks.len();
        let mut seat = visitor(&order);
        'shards: for number in 0..count {
            let shard = settled(
                rt,
                locks.remove(0),
                number as u32,
                &order,
                &mut seat,
                &mut passes,
            );
            closed.push_reserved(shard);
        }
        gather_all(&order, &mut seat, passes);
        gather(&order, &mut seat, first.into_seat());
        end(order, seat);
        Journals::written(maps, options, closed)
    }
}

/// A shard that nobody calls any more, whose journal is compared with the passes.
fn settled<B: Naming>(
    rt: &impl Wait,
    lock: Lock,
    number: u32,
    order: &Order,
    seat: &mut OrderSeat,
    passes: &mut Vec<Pass<B>>,
) -> Shard
    requires number { number < B.count }
    requires lock { IsLockOf (B.table number) (keyed (B.plan number) B.order) lock }
    requires numbered { (B.plan number).number ≡ number }
    requires order { (order.now.shared.table_id ≡ B.order) × (0 < B.order.words) }
    requires seat { seat.old.table_id ≡ B.order }
    ensures legal { IsLegalJournal (B.plan number) result.journal }
    ensures plan { result.plan ≡ B.plan number }
    ensures settled { (place : ℕ) → place < length passes.old.items →
        IsSettled (pass_at passes.old.items place).who (view_at (pass_at passes.old.items place) number) result.journal }
    ensures count { length passes.new.items ≡ length passes.old.items }
    ensures callers { (place : ℕ) → (pass_at passes.new.items place).who ≡ (pass_at passes.old.items place).who }
    ensures deeds { (place : ℕ) → (pass_at passes.new.items place).deeds ≡ (pass_at passes.old.items place).deeds }
    ensures seat { seat.new.table_id ≡ B.order }
    ensures taken { HasGathered number result.journal seat.old.me seat.new.me }
    ensures others { (place other : ℕ) → other ≢ number →
        view_at (pass_at passes.new.items place) other ≡ view_at (pass_at passes.old.items place) other }
{
    let mut visitor_seat = visit(rt, &lock);
    'passes: for place in 0..passes.len() {
        passes[place].see(&lock, number, &mut visitor_seat);
    }
    let (shard, place) = close(lock, visitor_seat).into_parts();
    gather(order, seat, place.into_seat());
    shard
}

/// The seat takes in those of the passes.
fn gather_all<B: Naming>(order: &Order, seat: &mut OrderSeat, mut passes: Vec<Pass<B>>)
    requires order { (order.now.shared.table_id ≡ B.order) × (0 < B.order.words) }
    requires seat { seat.old.table_id ≡ B.order }
    ensures seat { seat.new.table_id ≡ B.order }
    ensures kept { (one : Account) → IsOneOfAccounts one seat.old.me.0 → IsOneOfAccounts one seat.new.me.0 }
    ensures all { (place : ℕ) → place < length passes.items → IsOneOfAccounts (account_of (pass_at passes.items place)) seat.new.me.0 }
{
    let count = passes.len();
    'passes: for _place in 0..count {
        gather(order, seat, passes.remove(0).into_seat());
    }
}
