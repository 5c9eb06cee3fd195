//! What a caller's pass has for one shard.

ghost use Rattle.std.specs.Prelude.{◌≡◌, ◌≤◌, ◌∷◌, ◌++◌, ℕ, [], true, false, IfOk, IfErr, OnErr};
ghost use Rattle.semantics.specs.CallerLaws.{own_entries};
ghost use Rattle.semantics.specs.ShardPlan.{KeepsRows};
ghost use Rattle.semantics.specs.History.{Meets, meets, IsLegalHistory, entry_of};
ghost use Rattle.semantics.specs.Reclamation.{held_change};
ghost use Rattle.semantics.specs.declared.call.Call.TheVariants.{Enter};
ghost use Rattle.journal.specs.Entries.{enter_entry};
ghost use Rattle.shards.specs.CallerView.{nothing_seen, BeginsWith, ViewHasLooked, ViewIsServed, ViewIsRefused};
ghost use Rattle.shards.specs.Deeds.{deed_by, deeds_by_both};
ghost use Rattle.shards.specs.OrderRule.{account_deeds};
ghost use Rattle.shards.specs.LockRule.{pass_of};
ghost use Rattle.shards.specs.Seats.{IsLockOf, IsVisitor, view_of};
ghost use Rattle.shards.specs.HeldCells.{HasRoomFor, held_when, holds_own, most_held, room_of};
ghost use Rattle.shards.specs.Passes.{is_inside_of, flag_after};
ghost use Rattle.shards.specs.ShardPasses.{IsCallerAt, IsSameShard, shard_pass_view};
ghost use Rattle.shards.specs.Asked.{AreServed, IsStoppedAt};

use crate::asks::{Ask, Enters};
use crate::held::HeldCells;
use crate::lock::{give, take, visitor};
use crate::order_rule::{Order, OrderSeat};
use crate::rule::{Lock, LockSeat};
use crate::showing::show;
use crate::stopped::Stopped;
use semantics::{Call, Caller, JournalFull, SectionChange};
use std::marker::Model;
use std::mem;
use std::sync::Wait;

/// A caller's right to call one shard. Contracts see which shard and which caller it is, what the caller has seen of the history, and its
/// own entries in it, whether it has the shard or not.
#[derive(Drop)]
pub struct ShardPass {
    seat: LockSeat,
    /// Of a worker, whether it is inside.
    inside: bool,
    /// Of a worker, the cells that it holds.
    held: HeldCells,
}

impl Model for ShardPass {
    ghost use Rattle.shards.specs.ShardPasses.{ShardPassView, shard_pass_view, IsShardPass};

    ghost Value = { ShardPassView };

    ghost view = { λ part. shard_pass_view part.seat };

    ghost invariant = { λ part. IsShardPass part.seat part.inside part.held };
}

impl ShardPass {
    /// The part of a caller that has made no call.
    pub(crate) fn new(seat: LockSeat, held: HeldCells) -> Self
        requires seat { seat.me ≡ (pass_of seat.me.0.key seat.me.0.who [] [], []) }
        requires none { held.ids ≡ [] }
        requires room { room_of seat.me.0.who (most_held seat.me.0.key.plan) ≤ held.room }
        ensures { result ≡ shard_pass_view seat }
    {
        ShardPass {
            seat,
            inside: false,
            held,
        }
    }

    /// Its own entries are all of its caller's in what it has seen, and what it has seen is legal. The function does nothing: it brings
    /// this fact into a proof.
    pub(crate) fn knows(&self)
        ensures own { self.now.view.own ≡ own_entries self.now.who self.now.view.seen }
        ensures legal { IsLegalHistory self.now.key.plan self.now.view.seen }
    {
        let _inside = self.inside;
    }

    /// Whether the caller is inside the shard.
    #[inline(always)]
    pub(crate) fn is_inside(&self, who: Caller) -> bool
        requires { self.now.who ≡ who }
        ensures { result ≡ is_inside_of who self.now.view.own }
    {
        who.worker().is_some() && self.inside
    }

    /// Whether the caller is inside the shard and holds the cell of this id.
    pub(crate) fn holds(&self, who: Caller, id: u64) -> bool
        requires { self.now.who ≡ who }
        ensures { result ≡ holds_own who self.now.view.own id }
    {
        who.worker().is_some() && (self.inside && self.held.has(id))
    }

    /// Enters, and makes a call that the caller may make then: takes the shard once, and gives it back with both entries at once.
    #[inline(always)]
    pub(crate) fn enter_then<C: Ask>(
        &mut self,
        rt: &impl Wait,
        lock: &Lock,
        order: &Order,
        mine: &mut OrderSeat,
        who: Caller,
        ask: C,
    ) -> Result<C::Answer, Stopped>
        requires ready { IsCallerAt false self.old who lock.now order.now mine.old }
        requires may_enter { Meets self.old.key.plan self.old.view.own who (Enter self.old.key.plan.number) }
        requires met { Meets self.old.key.plan (enter_entry self.old.key.plan.number who ∷ self.old.view.own) who
            (C.asks ask self.old.key.plan.number) }
        ensures same { IsSameShard self.old self.new }
        ensures ready { IsCallerAt false self.new who lock.now order.now mine.new }
        ensures own { self.new.view.own ≡ own_entries who self.new.view.seen }
        ensures served { IfOk result
            (λ answer. AreServed self.old.key.plan self.old.view self.new.view (enter_entry self.old.key.plan.number who)
            (entry_of who (C.asks ask self.old.key.plan.number) (C.replies self.old.key.plan.number answer))) }
        ensures refused { IfErr result (IsStoppedAt self.old.key.plan self.old.key.plan.number self.old.view self.new.view who
            (C.asks ask self.old.key.plan.number)) }
        ensures did { account_deeds mine.new.me.0 ≡ deeds_by_both self.old.key.plan.number who (C.asks ask self.old.key.plan.number)
            (C.replies self.old.key.plan.number) result ++ account_deeds mine.old.me.0 }
    {
        self.take(rt, lock);
        let answer = match self.ask(lock, order, mine, who, Enters) {
            Ok(()) => match self.ask(lock, order, mine, who, ask) {
                Ok(answer) => Ok(answer),
                Err(full) => Err(Stopped::AtCall { full }),
            },
            Err(full) => {
                let _ = ask;
                Err(Stopped::AtEnter { full })
            }
        };
        self.give(lock);
        answer
    }

    /// Whether the caller may make the call now; no where no rows are kept.
    pub(crate) fn may_call(&mut self, rt: &impl Wait, lock: &Lock, who: Caller, call: &Call) -> bool
        requires lock { IsLockOf self.old.table self.old.key lock.now }
        requires who { self.old.who ≡ who }
        requires alone { self.old.has_it ≡ false }
        ensures same { IsSameShard self.old self.new }
        ensures alone { self.new.has_it ≡ false }
        ensures looked { ViewHasLooked self.old.key.plan self.old.view self.new.view }
        ensures may { result ≡ true → Meets self.old.key.plan self.new.view.own who call.now }
        ensures exact { KeepsRows self.old.key.plan.reserve → result ≡ meets self.old.key.plan self.new.view.own who call.now }
        ensures no_rows { ¬ KeepsRows self.old.key.plan.reserve → result ≡ false }
    {
        self.take(rt, lock);
        let answer = self.meets(lock, who, call);
        self.give(lock);
        answer
    }

    /// Sees the history of the shard that the visitor has.
    pub(crate) fn see(&mut self, lock: &Lock, visitor_seat: &mut LockSeat)
        requires lock { IsLockOf self.old.table self.old.key lock.now }
        requires alone { self.old.has_it ≡ false }
        requires visitor { IsVisitor self.old.table self.old.key (view_of visitor_seat.old.me).seen visitor_seat.old }
        requires legal { IsLegalHistory self.old.key.plan (view_of visitor_seat.old.me).seen }
        ensures visitor { (visitor_seat.new.table_id ≡ visitor_seat.old.table_id) × (visitor_seat.new.me ≡ visitor_seat.old.me) }
        ensures same { IsSameShard self.old self.new }
        ensures alone { self.new.has_it ≡ false }
        ensures looked { ViewHasLooked self.old.key.plan self.old.view self.new.view }
        ensures sight { self.new.view.seen ≡ (view_of visitor_seat.old.me).seen }
        ensures own { self.old.view.own ≡ own_entries self.old.who (view_of visitor_seat.old.me).seen }
        ensures begins { BeginsWith (view_of visitor_seat.old.me).seen self.old.view.seen }
    {
        let seat = mem::replace(&mut self.seat, visitor(lock));
        self.seat = show(lock, visitor_seat, seat);
    }

    /// Takes the shard.
    #[inline(always)]
    pub(crate) fn take(&mut self, rt: &impl Wait, lock: &Lock)
        requires lock { IsLockOf self.old.table self.old.key lock.now }
        requires alone { self.old.has_it ≡ false }
        ensures same { IsSameShard self.old self.new }
        ensures taken { self.new.has_it ≡ true }
        ensures looked { ViewHasLooked self.old.key.plan self.old.view self.new.view }
    {
        take(rt, lock, &mut self.seat);
    }

    /// Gives the shard back.
    #[inline(always)]
    pub(crate) fn give(&mut self, lock: &Lock)
        requires lock { IsLockOf self.old.table self.old.key lock.now }
        requires taken { self.old.has_it ≡ true }
        ensures same { IsSameShard self.old self.new }
        ensures alone { self.new.has_it ≡ false }
        ensures view { self.new.view ≡ self.old.view }
        ensures own { self.new.view.own ≡ own_entries self.new.who self.new.view.seen }
    {
        give(lock, &mut self.seat);
    }

    /// Makes a call on the shard that it has.
    #[inline(always)]
    pub(crate) fn ask<C: Ask>(
        &mut self,
        lock: &Lock,
        order: &Order,
        mine: &mut OrderSeat,
        who: Caller,
        ask: C,
    ) -> Result<C::Answer, JournalFull>
        requires ready { IsCallerAt true self.old who lock.now order.now mine.old }
        requires met { Meets self.old.key.plan self.old.view.own who (C.asks ask self.old.key.plan.number) }
        ensures same { IsSameShard self.old self.new }
        ensures ready { IsCallerAt true self.new who lock.now order.now mine.new }
        ensures served { IfOk result (λ answer. ViewIsServed self.old.key.plan self.old.view self.new.view
            (entry_of who (C.asks ask self.old.key.plan.number) (C.replies self.old.key.plan.number answer))) }
        ensures next { IfOk result (λ answer. self.new.view.seen ≡ entry_of who (C.asks ask self.old.key.plan.number)
            (C.replies self.old.key.plan.number answer) ∷ self.old.view.seen) }
        ensures refused { OnErr result (ViewIsRefused self.old.key.plan self.old.view self.new.view (C.asks ask self.old.key.plan.number)) }
        ensures unchanged { OnErr result (self.new ≡ self.old) }
        ensures names_the_shard { IfErr result (λ fault. fault.shard ≡ self.old.key.plan.number) }
        ensures did { account_deeds mine.new.me.0 ≡
            deed_by who (C.asks ask self.old.key.plan.number) (C.replies self.old.key.plan.number) result ∷ account_deeds mine.old.me.0 }
    {
        let answer = self
            .seat
            .slot_mut(&lock.shared, 0)
            .add(order, mine, who, ask);
        change(&mut self.inside, ask.section(), &answer);
        keep(&mut self.held, &ask, &answer);
        answer
    }

    /// Whether the caller may make the call on the shard that it has.
    fn meets(&mut self, lock: &Lock, who: Caller, call: &Call) -> bool
        requires lock { IsLockOf self.old.table self.old.key lock.now }
        requires who { self.old.who ≡ who }
        requires taken { self.old.has_it ≡ true }
        ensures same { self.new ≡ self.old }
        ensures may { result ≡ true → Meets self.old.key.plan self.old.view.own who call.now }
        ensures exact { KeepsRows self.old.key.plan.reserve → result ≡ meets self.old.key.plan self.old.view.own who call.now }
        ensures no_rows { ¬ KeepsRows self.old.key.plan.reserve → result ≡ false }
    {
        self.seat.slot_mut(&lock.shared, 0).meets(who, call)
    }
}

/// Notes what a call that was served does to the caller's section.
#[inline(always)]
fn change<A>(inside: &mut bool, section: SectionChange, answer: &Result<A, JournalFull>)
    ensures { inside.new ≡ flag_after answer.now section inside.old }
{
    if answer.is_ok() {
        match section {
            SectionChange::Begins => *inside = true,
            SectionChange::Ends => *inside = false,
            SectionChange::Stays => {}
        }
    }
}

/// Notes what a call that was served makes of the cells that its worker holds.
#[inline(always)]
fn keep<C: Ask>(held: &mut HeldCells, ask: &C, answer: &Result<C::Answer, JournalFull>)
    requires { (number : ℕ) × IfOk answer.now (λ done. HasRoomFor (held_change (C.asks ask.now number) (C.replies number done)) held.old) }
    ensures { (number : ℕ) →
        held.new ≡ held_when answer.now (λ done. held_change (C.asks ask.now number) (C.replies number done)) held.old }
{
    if let Ok(done) = answer {
        held.note(ask.held(done));
    }
}
