//! The shards that many callers share: each with one word, which is the length of its journal and its lock.
//!
//! # One word a shard
//!
//! A shard is in the slot of an atomic table with one word that is used. The word is four times the number of the journal's entries, plus
//! the *phase* of the lock: 0 free, 1 taken, 2 taken while others may sleep, 3 closed for good. A caller that takes the lock takes the
//! shard out of its slot: from then on it is plain memory, which only that caller reads and writes. A caller that gives the shard back puts
//! the new length into the word in the same step.
//!
//! A call is three steps (`lock`):
//!
//! - *Take*: read the word; if the phase is 0, a compare-exchange makes it 1. Where it is not, or another was faster: look again, or
//!   *wait*.
//! - The call itself, on plain memory, without an atomic step.
//! - *Give*: one swap writes four times the new length. If the word found had phase 2, one sleeper is woken.
//!
//! A caller that finds the phase other than 0 looks a dozen times more, with longer and longer pauses, since a call has the shard for some
//! 50 ns; then it *waits*. To *wait* is to *mark* the word, a compare-exchange from phase 1 to phase 2, and then to sleep until the word
//! changes. A caller that waited takes the lock with phase 2 and not 1: others may still sleep, and its give wakes the next of them. So a
//! wake is never lost: each sleeper has seen phase 2, and each give that finds phase 2 wakes one.
//!
//! An Enter and the call behind it are made under one hold (`enter_then`), and one swap counts both: a give may bring any number of
//! entries, if one caller made them all.
//!
//! # Who knows what
//!
//! A *seat* is a right to make steps on the word, together with what its owner knows (`Known`). It has no bytes. A caller's seat is in its
//! pass: it knows all entries that the caller ever made in the shard, and a beginning of the history that the caller has seen. Between two
//! calls other callers append entries, so a pass knows a beginning and not all of it. The rule of the word (`rule`, `specs/LockRule`) says
//! what each step may change, and each step is proved to keep it (`proofs/Moves`):
//!
//! - `DealsSeat`: a seat for a caller that has none. Each caller gets one, once (`dealer`), so that its own entries are all in one place.
//! - `TakesShard`: the lock was free, so the shard was in its slot, and its journal was the whole history. The seat has the shard now, and
//!   learns that its own entries are all of its caller's in that history, and that what it saw is a beginning of it.
//! - `MarksSleepers`: the phase alone changes.
//! - `GivesShardBack`: the journal has grown by entries of this caller alone, since nobody else had the shard. They are the end of the
//!   history now, and the seat has seen all of it. The other callers' own entries are the same as before, and what they saw is still a
//!   beginning.
//!
//! That own entries are *all* of the caller's is what lets a caller know by itself, without a lock, whether it is inside and what it holds.
//!
//! # The one order
//!
//! All that callers do on all shards has one order: a list of *deeds* that no memory has. A deed is an entry, or a call that met a full
//! journal. Each shard and each caller has one *account*, which is all of its deeds in the order, and one seat has it (`order_rule`,
//! `specs/OrderRule`): that of a shard lies beside the shard in its slot, that of a caller is in its pass. So who has taken a shard has
//! both. It puts them together, makes one step, and parts them again (`order`):
//!
//! - `AddsDeed`: a deed is added to the order, and to each account of the seat. Nobody else has these accounts, so shard by shard the
//!   entries of the order are the journal, and caller by caller the deeds are what it did over all shards, each in the order in which they
//!   happened.
//! - `SeesFirst`: who has the accounts of all callers knows the whole order so far, and that the order begins with it from then on, whatever
//!   is added. As long as the controller alone has its pass, all other accounts lie in the dealer, which hands this knowledge out
//!   (`Dealer::first`); `close_behind` compares it with the whole order.
//!
//! # Visitors
//!
//! `hold`, `meet` and `close` make no call. They take the shard by a *visitor's* seat, which anyone gets (`MakesVisitor`), and which waits
//! like every other. A visitor that has the shard can show a caller its history (`showing`): the two seats become one
//! (`VisitorWithCaller`), a load shows that the caller's own entries are all of its entries in that history (`SeesHistory`), and they part
//! again. `close` shows each shard to each pass that was handed in, puts the shard back for good (`ClosesShard`, phase 3), and takes the
//! table apart: the shard is in its slot then, with the history that the passes were shown.

ghost use Rattle.std.specs.Prelude.{◌≡◌, ◌<◌, ◌∷◌, ◌++◌, true, false, IfOk, IfErr, OnErr};
ghost use Rattle.semantics.specs.declared.call.Call.TheVariants.{Enter};
ghost use Rattle.semantics.specs.History.{Meets, meets, shard_of_call};
ghost use Rattle.semantics.specs.ShardPlan.{AreOptions, KeepsRows};
ghost use Rattle.journals.specs.JournalsView.{AreImageMaps};
ghost use Rattle.shards.specs.CallerView.{ViewHasLooked};
ghost use Rattle.shards.specs.Deeds.{deed_by, deeds_by_both};
ghost use Rattle.shards.specs.GuardedView.{keyed};
ghost use Rattle.shards.specs.OrderRule.{KnowsShard};
ghost use Rattle.shards.specs.Seats.{IsLockOf};
ghost use Rattle.shards.specs.Passes.{KnowsItsOwn, view_at, own_at, seen_at, IsElsewhereSame};
ghost use Rattle.shards.specs.SharedMaps.{ArePlans};
ghost use Rattle.shards.specs.Asked.{PassMayAsk, PassMayAskInside, PassIsServed, PassIsRefused, PassEntersAndIsServed, PassIsStopped};

use crate::asks::{Ask, Calls};
use crate::lock::visit;
use crate::naming::Naming;
use crate::order_rule::Order;
use crate::pass::Pass;
use crate::rule::Lock;
use crate::shard_room::ShardRoom;
use crate::showing::leave;
use crate::stopped::Stopped;
use ebpf_decode::MapDef;
use semantics::{Call, JournalFull, Options, Reply};
use std::marker::{Model, PhantomData};
use std::sync::{Mutex, Wait};

/// The shards of an image's maps, map after map, behind a lock each. Threads share them by reference. Contracts see the maps and the
/// options that they were opened with.
#[derive(Drop)]
pub struct Shards<B: Naming> {
    pub(crate) locks: Vec<Lock>,
    pub(crate) order: Order,
    pub(crate) maps: Vec<MapDef>,
    pub(crate) options: Options,
    /// Room for the shards, which `close` hands out in their journals.
    pub(crate) room: Mutex<ShardRoom<B>>,
    pub(crate) names: PhantomData<B>,
}

impl<B: Naming> Model for Shards<B> {
    ghost use Rattle.std.specs.Prelude.{◌+◌};
    ghost use Rattle.shards.specs.OrderRule.{IsOrderOf};
    ghost use Rattle.shards.specs.SharedMaps.{SharedMaps, AreShared};

    ghost Value = { SharedMaps };

    ghost view = { λ shards. record { maps = shards.maps.items; options = shards.options } };

    ghost invariant = { λ shards. AreShared B.table B.plan B.order B.count shards.locks.items
        shards.maps.items shards.options
        × IsOrderOf B.order B.plan B.count (shards.options.workers + 2) shards.order };
}

impl<B: Naming> Shards<B> {
    /// How many shards there are.
    pub fn count(&self) -> usize
        ensures { result ≡ B.count }
    {
        self.locks.len()
    }

    /// The maps that the shards were opened for.
    pub fn maps(&self) -> &[MapDef]
        ensures { result.now ≡ self.now.maps }
    {
        &self.maps
    }

    /// The options that the shards were opened with.
    pub fn options(&self) -> Options
        ensures { result ≡ self.now.options }
    {
        self.options
    }

    /// The shards are those of the maps, as many and each with the plan that the options give it. The function does nothing: it brings this
    /// fact into a proof.
    pub fn planned(&self)
        ensures plans { ArePlans self.now.maps self.now.options B.count B.plan }
        ensures options { AreOptions self.now.maps self.now.options }
        ensures maps { AreImageMaps self.now.maps }
    {
        let _count = self.locks.len();
    }

    /// Makes a call of any kind that the pass's caller may make: one step of the one-thread shard and one entry of its journal, whatever
    /// other threads do. The pass has then seen the shard's history up to this entry. Waits for the shard's lock, and takes no memory.
    ///
    /// Refused where the journal has no room for the call (never for a Leave); then nothing was changed, and the pass has seen the history
    /// whose journal is full.
    #[inline(always)]
    pub fn ask<C: Ask>(
        &self,
        rt: &impl Wait,
        pass: &mut Pass<B>,
        shard: u32,
        ask: C,
    ) -> Result<C::Answer, JournalFull>
        requires shard { shard < B.count }
        requires met { PassMayAsk (B.plan shard) shard pass.old (C.asks ask shard) }
        ensures elsewhere { IsElsewhereSame shard pass.old pass.new }
        ensures own { KnowsItsOwn shard pass.new }
        ensures served { IfOk result
            (λ answer. PassIsServed (B.plan shard) shard pass.old pass.new (C.asks ask shard) (C.replies shard answer)) }
        ensures refused { OnErr result (PassIsRefused (B.plan shard) shard pass.old pass.new (C.asks ask shard)) }
        ensures names_the_shard { IfErr result (λ fault. fault.shard ≡ shard) }
        ensures did { pass.new.deeds ≡ deed_by pass.old.who (C.asks ask shard) (C.replies shard) result ∷ pass.old.deeds }
    {
        let lock = self.lock(shard);
        let order = self.order_at(shard);
        let who = pass.who;
        let part = &mut pass.parts[shard as usize];
        part.take(rt, lock);
        let answer = part.ask(lock, order, &mut pass.seat, who, ask);
        part.give(lock);
        answer
    }

    /// Enters the shard, and makes a call there at once: two steps and two entries, next to each other, under one hold of the lock. Takes
    /// no memory.
    ///
    /// Refused where the journal has no room for the Enter, and then nothing was changed; or none for the call, and then the Enter is
    /// served. Either way the pass has seen the history whose journal is full.
    #[inline(always)]
    pub fn enter_then<C: Ask>(
        &self,
        rt: &impl Wait,
        pass: &mut Pass<B>,
        shard: u32,
        ask: C,
    ) -> Result<C::Answer, Stopped>
        requires shard { shard < B.count }
        requires may_enter { PassMayAsk (B.plan shard) shard pass.old (Enter shard) }
        requires met { PassMayAskInside (B.plan shard) shard pass.old (C.asks ask shard) }
        ensures elsewhere { IsElsewhereSame shard pass.old pass.new }
        ensures own { KnowsItsOwn shard pass.new }
        ensures served { IfOk result
            (λ answer. PassEntersAndIsServed (B.plan shard) shard pass.old pass.new (C.asks ask shard) (C.replies shard answer)) }
        ensures refused { IfErr result (PassIsStopped (B.plan shard) shard pass.old pass.new (C.asks ask shard)) }
        ensures did { pass.new.deeds ≡ deeds_by_both shard pass.old.who (C.asks ask shard) (C.replies shard) result ++ pass.old.deeds }
    {
        pass.parts[shard as usize].enter_then(
            rt,
            self.lock(shard),
            self.order_at(shard),
            &mut pass.seat,
            pass.who,
            ask,
        )
    }

    /// Makes a call on the shard that it names, as `ask` does.
    pub fn call(
        &self,
        rt: &impl Wait,
        pass: &mut Pass<B>,
        call: &Call,
    ) -> Result<Reply, JournalFull>
        requires shard { shard_of_call call.now < B.count }
        requires met { PassMayAsk (B.plan (shard_of_call call.now)) (shard_of_call call.now) pass.old call.now }
        ensures elsewhere { IsElsewhereSame (shard_of_call call.now) pass.old pass.new }
        ensures own { KnowsItsOwn (shard_of_call call.now) pass.new }
        ensures served { IfOk result
            (λ reply. PassIsServed (B.plan (shard_of_call call.now)) (shard_of_call call.now) pass.old pass.new call.now reply) }
        ensures refused { OnErr result
            (PassIsRefused (B.plan (shard_of_call call.now)) (shard_of_call call.now) pass.old pass.new call.now) }
        ensures names_the_shard { IfErr result (λ fault. fault.shard ≡ shard_of_call call.now) }
        ensures did { pass.new.deeds ≡ deed_by pass.old.who call.now (λ reply. reply) result ∷ pass.old.deeds }
    {
        self.ask(rt, pass, call.shard(), Calls { call })
    }

    /// Whether the pass's caller may make the call now; the pass has then seen the shard's history. Waits for the shard's lock, takes no
    /// memory, and may read the whole journal: it is for callers that cannot know it by what they did. Where no rows are kept it cannot
    /// say, and returns false.
    pub fn may_call(&self, rt: &impl Wait, pass: &mut Pass<B>, call: &Call) -> bool
        requires shard { shard_of_call call.now < B.count }
        ensures elsewhere { IsElsewhereSame (shard_of_call call.now) pass.old pass.new }
        ensures looked { ViewHasLooked (B.plan (shard_of_call call.now)) (view_at pass.old (shard_of_call call.now))
            (view_at pass.new (shard_of_call call.now)) }
        ensures may { result ≡ true →
            Meets (B.plan (shard_of_call call.now)) (own_at pass.new (shard_of_call call.now)) pass.new.who call.now }
        ensures exact { KeepsRows (B.plan (shard_of_call call.now)).reserve →
            result ≡ meets (B.plan (shard_of_call call.now)) (own_at pass.new (shard_of_call call.now)) pass.new.who call.now }
        ensures no_rows { ¬ KeepsRows (B.plan (shard_of_call call.now)).reserve → result ≡ false }
        ensures did { pass.new.deeds ≡ pass.old.deeds }
    {
        pass.may_call(rt, self.lock(call.shard()), call.shard(), call)
    }

    /// Runs `f` under the lock of the shard of this number alone, hands on what it returns, and changes nothing. Waits for the lock, and
    /// takes no memory.
    pub fn hold<R, F: FnOnce() -> R>(&self, rt: &impl Wait, shard: u32, f: F) -> R
        requires shard { shard < B.count }
        requires callable { F.IsAlwaysCallable f }
        ensures { F.post f result }
    {
        let lock = self.lock(shard);
        let visitor_seat = visit(rt, lock);
        let result = f();
        leave(lock, visitor_seat);
        result
    }

    /// Lets two callers see the same history of a shard: afterwards each has seen all that both did there. Waits for the shard's lock,
    /// changes nothing, takes no memory.
    pub fn meet(&self, rt: &impl Wait, shard: u32, one: &mut Pass<B>, other: &mut Pass<B>)
        requires shard { shard < B.count }
        ensures elsewhere_one { IsElsewhereSame shard one.old one.new }
        ensures elsewhere_other { IsElsewhereSame shard other.old other.new }
        ensures looked_one { ViewHasLooked (B.plan shard) (view_at one.old shard) (view_at one.new shard) }
        ensures looked_other { ViewHasLooked (B.plan shard) (view_at other.old shard) (view_at other.new shard) }
        ensures same_sight { seen_at one.new shard ≡ seen_at other.new shard }
        ensures did_one { one.new.deeds ≡ one.old.deeds }
        ensures did_other { other.new.deeds ≡ other.old.deeds }
    {
        let lock = self.lock(shard);
        let mut visitor_seat = visit(rt, lock);
        one.see(lock, shard, &mut visitor_seat);
        other.see(lock, shard, &mut visitor_seat);
        leave(lock, visitor_seat);
    }

    /// The word of the shard of this number, with the shard.
    #[inline(always)]
    fn lock(&self, shard: u32) -> &Lock
        requires { shard < B.count }
        ensures lock { IsLockOf (B.table shard) (keyed (B.plan shard) B.order) result.now }
        ensures number { (B.plan shard).number ≡ shard }
    {
        &self.locks[shard as usize]
    }

    /// The order of all deeds, which knows the shard of this number.
    #[inline(always)]
    fn order_at(&self, shard: u32) -> &Order
        requires { shard < B.count }
        ensures { KnowsShard (keyed (B.plan shard) B.order) result.now }
    {
        &self.order
    }
}
