//! The steps on the order of all deeds. Each is a plain load of a word that is never written.

ghost use Rattle.std.specs.Prelude.{◌≡◌, ◌<◌, ◌∷◌, ◌≤◌, [], drop, length, IfOk, OnOk};
ghost use Rattle.shards.specs.declared.deeds.OrderPart.{OrderPart};
ghost use Rattle.shards.specs.declared.deeds.OrderPart.TheVariants.{OnShard, ByCaller, AtFirst};
ghost use Rattle.shards.specs.Deeds.{shard_of_deed, caller_of_deed, deeds_of, entries_made, AreFirst, IsMetBehind};
ghost use Rattle.shards.specs.OrderRule.{IsPlaceOf, IsSeatFor, IsEnd, HaveDistinctParts, ArePlaces, AreShardPlaces, AreCallerPlaces};
ghost use Rattle.shards.specs.OrderRule.{AreWaiting, HasAllOf, last_deeds};
ghost use Rattle.shards.specs.OrderRule.{deeds_at, account_deeds, plan_in, with_first};
ghost use Rattle.semantics.specs.declared.call.Caller.TheVariants.{Controller};

use crate::asks::Ask;
use crate::item::Item;
use crate::order_rule::{
    AddsDeed, BringsNothing, DealsAccount, MakesEmptySeat, Order, OrderKey, OrderPlace, OrderSeat,
    SeesFirst, SeesSoFar, TakesAccount,
};
use atomic_table::Badge;
use semantics::{Caller, ShardPlan};
use shard_core::Shard;
use std::alloc::{AllocError, Global};
use std::mem;

/// The words of the table, as many as fit into a cache line. The first is read, and none is ever written.
const LINE: [u64; 8] = [0; 8];

/// Adds a deed to the order: to the account of its shard, whose seat rests in a place, and to that of its caller. The shard, the caller,
/// the call and whether it was served are for the proof alone, which picks the deed by them.
#[inline(always)]
pub(crate) fn note<D: Item, C: Ask>(
    order: &Order,
    place: &mut OrderPlace,
    mine: &mut OrderSeat,
    shard: &Shard,
    who: Caller,
    ask: &C,
    served: bool,
)
    requires order { 0 < order.now.shared.table_id.words }
    requires place { IsPlaceOf order.now.shared.table_id (OnShard (shard_of_deed D.item)) place.old }
    requires mine { IsSeatFor order.now.shared.table_id (ByCaller (caller_of_deed D.item)) mine.old }
    requires within { shard_of_deed D.item < length order.now.shared.key.plans.items }
    requires met { IsMetBehind (plan_in order.now.shared.key.plans.items) D.item (entries_made (deeds_at place.old)) }
    ensures place { IsPlaceOf order.now.shared.table_id (OnShard (shard_of_deed D.item)) place.new }
    ensures mine { IsSeatFor order.now.shared.table_id (ByCaller (caller_of_deed D.item)) mine.new }
    ensures noted { deeds_at place.new ≡ D.item ∷ deeds_at place.old }
    ensures did { account_deeds mine.new.me.0 ≡ D.item ∷ account_deeds mine.old.me.0 }
{
    let seat = mem::replace(place, Badge::blank()).into_seat();
    order.shared.join_seat::<TakesAccount>(mine, seat);
    order.shared.load::<AddsDeed<D>>(mine, 0);
    *place = order.shared.split_seat::<DealsAccount>(mine).into_badge();
}

/// An order in which nothing was done, with a seat for each shard, and for each caller by its place. Fails only for lack of memory.
pub(crate) fn open_order(
    alloc: Global,
    plans: Vec<ShardPlan>,
    callers: usize,
) -> Result<(Order, Vec<OrderPlace>, Vec<OrderPlace>), AllocError>
    ensures words { IfOk result (λ new. (0 < new.0.shared.table_id.words) × (new.0.shared.table_id.slots ≡ 0)) }
    ensures plans { IfOk result (λ new. new.0.shared.key.plans.items ≡ plans.items) }
    ensures key { IfOk result (λ new. new.0.shared.key.callers ≡ callers) }
    ensures shards { IfOk result (λ new. (length new.1.items ≡ length plans.items) × AreShardPlaces new.0.shared.table_id new.1.items) }
    ensures callers { IfOk result (λ new. (length new.2.items ≡ callers) × AreCallerPlaces new.0.shared.table_id new.2.items) }
{
    let count = plans.len();
    let key = OrderKey { plans, callers };
    let (order, mut seat) = Order::of_words(alloc, &LINE, &key)?;
    let shards = dealt(alloc, &order, &mut seat, count)?;
    let places = dealt(alloc, &order, &mut seat, callers)?;
    Ok((order, shards, places))
}

/// A seat for each of the first accounts of a seat.
fn dealt(
    alloc: Global,
    order: &Order,
    seat: &mut OrderSeat,
    count: usize,
) -> Result<Vec<OrderPlace>, AllocError>
    requires order { 0 < order.now.shared.table_id.words }
    requires seat { (seat.old.table_id ≡ order.now.shared.table_id) × (seat.old.me.1 ≡ []) }
    requires count { count ≤ length seat.old.me.0 }
    requires apart { HaveDistinctParts seat.old.me.0 }
    ensures count { IfOk result (λ places. length places.items ≡ count) }
    ensures places { IfOk result (λ places. ArePlaces order.now.shared.table_id seat.old.me.0 places.items) }
    ensures table { seat.new.table_id ≡ order.now.shared.table_id }
    ensures left { OnOk result (seat.new.me ≡ (drop count seat.old.me.0, [])) }
{
    let mut places = Vec::with_capacity(alloc, count)?;
    'places: for _ in 0..count {
        let one = order.shared.split_seat::<DealsAccount>(seat);
        places.push_reserved(one.into_badge());
    }
    Ok(places)
}

/// A seat without an account.
pub(crate) fn visitor(order: &Order) -> OrderSeat
    requires { 0 < order.now.shared.table_id.words }
    ensures { (result.table_id ≡ order.now.shared.table_id) × (result.me ≡ ([], [])) }
{
    order.shared.load_new_seat::<MakesEmptySeat>(0).1
}

/// A seat takes in another with one account.
pub(crate) fn gather(order: &Order, seat: &mut OrderSeat, other: OrderSeat)
    requires order { 0 < order.now.shared.table_id.words }
    requires seat { seat.old.table_id ≡ order.now.shared.table_id }
    requires other { (part : OrderPart) × IsSeatFor order.now.shared.table_id part other }
    ensures table { seat.new.table_id ≡ order.now.shared.table_id }
    ensures both { seat.new.me ≡ (with_first seat.old.me.0 other.me.0, seat.old.me.1) }
{
    order.shared.join_seat::<TakesAccount>(seat, other);
}

/// The controller's seat takes in those of the other callers of `callers`, which wait in the places behind the first.
fn take_in(order: &Order, places: &mut Vec<OrderPlace>, callers: usize, seat: &mut OrderSeat)
    requires order { 0 < order.now.shared.table_id.words }
    requires some { 0 < callers }
    requires waiting { AreWaiting order.now.shared.table_id callers places.old.items }
    requires seat { IsSeatFor order.now.shared.table_id (ByCaller Controller) seat.old }
    ensures count { length places.new.items ≡ length places.old.items }
    ensures table { seat.new.table_id ≡ order.now.shared.table_id }
    ensures all { HasAllOf callers (account_deeds seat.old.me.0) seat.new.me }
{
    'places: for place in 1..callers {
        let waiting = mem::replace(&mut places[place], Badge::blank());
        gather(order, seat, waiting.into_seat());
    }
}

/// The other callers' seats wait in their places again.
fn deal_again(order: &Order, places: &mut Vec<OrderPlace>, callers: usize, seat: &mut OrderSeat)
    requires order { 0 < order.now.shared.table_id.words }
    requires callers { (0 < callers) × (callers ≤ length places.old.items) }
    requires table { seat.old.table_id ≡ order.now.shared.table_id }
    requires all { HasAllOf callers (last_deeds seat.old.me.0) seat.old.me }
    ensures count { length places.new.items ≡ length places.old.items }
    ensures waiting { AreWaiting order.now.shared.table_id callers places.new.items }
    ensures seat { IsSeatFor order.now.shared.table_id (ByCaller Controller) seat.new }
    ensures deeds { account_deeds seat.new.me.0 ≡ last_deeds seat.old.me.0 }
{
    'places: for done in 1..callers {
        let one = order.shared.split_seat::<DealsAccount>(seat);
        let _blank = mem::replace(&mut places[callers - done], one.into_badge());
    }
}

/// A seat that knows that the order begins with what the controller did so far, where the seats of all other callers wait in the places behind
/// the first, and nothing was done by them.
pub(crate) fn first_of(
    order: &Order,
    places: &mut Vec<OrderPlace>,
    callers: usize,
    mine: &mut OrderSeat,
) -> OrderSeat
    requires order { 0 < order.now.shared.table_id.words }
    requires callers { callers ≡ order.now.shared.key.callers }
    requires some { (0 < callers) × (callers ≤ length places.old.items) }
    requires waiting { AreWaiting order.now.shared.table_id callers places.old.items }
    requires mine { IsSeatFor order.now.shared.table_id (ByCaller Controller) mine.old }
    ensures waiting { AreWaiting order.now.shared.table_id callers places.new.items }
    ensures mine { IsSeatFor order.now.shared.table_id (ByCaller Controller) mine.new }
    ensures same { account_deeds mine.new.me.0 ≡ account_deeds mine.old.me.0 }
    ensures first { IsSeatFor order.now.shared.table_id AtFirst result }
    ensures deeds { account_deeds result.me.0 ≡ account_deeds mine.old.me.0 }
{
    take_in(order, places, callers, mine);
    order.shared.load::<SeesFirst>(mine, 0);
    let first = order.shared.split_seat::<DealsAccount>(mine);
    deal_again(order, places, callers, mine);
    first
}

/// A seat that knows that the order begins with nothing.
pub(crate) fn first_of_nothing(order: &Order) -> OrderSeat
    requires { 0 < order.now.shared.table_id.words }
    ensures first { IsSeatFor order.now.shared.table_id AtFirst result }
    ensures nothing { account_deeds result.me.0 ≡ [] }
{
    order.shared.load_new_seat::<BringsNothing>(0).1
}

/// A seat that knows that the order begins with all that was done so far, from one that knows an earlier beginning: the deeds of the seat of
/// this caller are their part of it. The caller is for the proof alone.
pub(crate) fn all_so_far(
    order: &Order,
    mine: &mut OrderSeat,
    who: Caller,
    earlier: OrderSeat,
) -> OrderSeat
    requires order { 0 < order.now.shared.table_id.words }
    requires mine { IsSeatFor order.now.shared.table_id (ByCaller who) mine.old }
    requires earlier { IsSeatFor order.now.shared.table_id AtFirst earlier }
    ensures mine { IsSeatFor order.now.shared.table_id (ByCaller who) mine.new }
    ensures same { account_deeds mine.new.me.0 ≡ account_deeds mine.old.me.0 }
    ensures first { IsSeatFor order.now.shared.table_id AtFirst result }
    ensures later { AreFirst (account_deeds earlier.me.0) (account_deeds result.me.0) }
    ensures own { account_deeds mine.old.me.0 ≡ deeds_of (ByCaller who) (account_deeds result.me.0) }
{
    let _ = who;
    order.shared.join_seat::<TakesAccount>(mine, earlier);
    order.shared.load::<SeesSoFar>(mine, 0);
    let all = order.shared.split_seat::<DealsAccount>(mine);
    let _earlier = order.shared.split_seat::<DealsAccount>(mine);
    all
}

/// Ends the order, in which the seat's accounts are.
pub(crate) fn end(order: Order, seat: OrderSeat)
    requires no_slot { order.shared.table_id.slots ≡ 0 }
    requires seat { seat.table_id ≡ order.shared.table_id }
    ensures { IsEnd order.shared.key.plans.items order.shared.key.callers seat.me.0 }
{
    let closed = order.close_with(seat);
    closed.free();
}
