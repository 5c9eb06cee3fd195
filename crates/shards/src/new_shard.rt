//! A shard that was opened, with its word and the seats that wait for its callers.

ghost use Rattle.std.specs.Prelude.{◌≡◌, ◌<◌, ◌≤◌, [], IfOk, length};
ghost use Rattle.shard_core.specs.JournaledShard.{opened_shard};
ghost use Rattle.shards.specs.HeldCells.{most_held};
ghost use Rattle.shards.specs.LockRule.{dealer_of};
ghost use Rattle.shards.specs.declared.deeds.OrderPart.TheVariants.{OnShard};
ghost use Rattle.shards.specs.GuardedView.{keyed};
ghost use Rattle.shards.specs.OrderRule.{IsFresh};
ghost use Rattle.shards.specs.NewShards.{AreNewSeats};
ghost use Rattle.shards.specs.Seats.{IsLock};

use crate::guarded_shard::GuardedShard;
use crate::held::most_held;
use crate::lock_key::LockKey;
use crate::order::visitor;
use crate::order_rule::{Order, OrderPlace};
use crate::rule::{DealsSeat, Known, Lock, LockSeat};
use atomic_table::Badge;
use shard_core::Shard;
use std::alloc::{AllocError, Global};
use std::marker::Model;

/// The words of a table: the one that is used, with two cache lines of nothing before it and behind it, so that nothing else is on its
/// lines.
const LINES: [u64; 32] = [0; 32];

/// A shard in which nothing has happened. Contracts see its plan, the name of its word, and how many seats wait.
#[derive(Drop)]
pub struct NewShard {
    pub(crate) lock: Lock,
    /// The controller's, the reclaimer's, then the workers'.
    pub(crate) seats: Vec<Badge<Known>>,
    /// How many cells a worker can hold in the shard.
    pub(crate) room: usize,
}

impl Model for NewShard {
    ghost use Rattle.std.specs.Prelude.{length};
    ghost use Rattle.shards.specs.NewShards.{NewShardView, IsNew};

    ghost Value = { NewShardView };

    ghost view = { λ new. record {
      plan = new.lock.shared.key.plan;
      order = new.lock.shared.key.order;
      table = new.lock.shared.table_id;
      places = length new.seats.items;
    } };

    ghost invariant = { λ new. IsNew new.lock.shared.key new.lock.shared.table_id new.seats.items new.room };
}

impl NewShard {
    /// The shard with seats for `callers` callers. Fails only for lack of memory.
    pub(crate) fn of(
        alloc: Global,
        order: &Order,
        shard: Shard,
        place: OrderPlace,
        callers: usize,
    ) -> Result<Self, AllocError>
        requires unused { shard ≡ opened_shard shard.plan }
        requires order { 0 < order.now.shared.table_id.words }
        requires fresh { IsFresh order.now.shared.table_id (OnShard shard.plan.number) place }
        ensures plan { IfOk result (λ new. new.plan ≡ shard.plan) }
        ensures order { IfOk result (λ new. new.order ≡ order.now.shared.table_id) }
        ensures places { IfOk result (λ new. new.places ≡ callers) }
    {
        let room = most_held(shard.plan());
        let (lock, mut dealer) = new_lock(alloc, order, shard, place)?;
        let seats = new_seats(alloc, &lock, &mut dealer, callers)?;
        Ok(NewShard { lock, seats, room })
    }
}

/// A word that says 0, with the shard in its slot, and the seat that deals the callers' seats.
fn new_lock(
    alloc: Global,
    order: &Order,
    shard: Shard,
    place: OrderPlace,
) -> Result<(Lock, LockSeat), AllocError>
    requires unused { shard ≡ opened_shard shard.plan }
    requires order { 0 < order.now.shared.table_id.words }
    requires fresh { IsFresh order.now.shared.table_id (OnShard shard.plan.number) place }
    ensures lock { IfOk result (λ new. IsLock new.0) }
    ensures key { IfOk result (λ new. new.0.shared.key ≡ keyed shard.plan order.now.shared.table_id) }
    ensures seat { IfOk result
        (λ new. (new.1.table_id ≡ new.0.shared.table_id) × (new.1.me ≡ (dealer_of (keyed shard.plan order.now.shared.table_id) 0, []))) }
{
    let key = LockKey::new(*shard.plan(), visitor(order).into_badge());
    let mut slots = Vec::with_capacity(alloc, 1)?;
    slots.push_reserved(GuardedShard::new(shard, place));
    match Lock::new(alloc, &LINES, slots, &key) {
        Ok(new) => Ok(new),
        Err(_) => Err(AllocError),
    }
}

/// A seat for each of `callers` callers, in the order of their places.
fn new_seats(
    alloc: Global,
    lock: &Lock,
    dealer: &mut LockSeat,
    callers: usize,
) -> Result<Vec<Badge<Known>>, AllocError>
    requires lock { IsLock lock.now }
    requires dealer { (dealer.old.table_id ≡ lock.now.shared.table_id) × (dealer.old.me ≡ (dealer_of lock.now.shared.key 0, [])) }
    ensures count { IfOk result (λ seats. length seats.items ≡ callers) }
    ensures seats { IfOk result (λ seats. AreNewSeats lock.now.shared.table_id lock.now.shared.key seats.items) }
{
    let mut seats = Vec::with_capacity(alloc, callers)?;
    'callers: for _ in 0..callers {
        let seat = lock.shared.split_seat::<DealsSeat>(dealer);
        seats.push_reserved(seat.into_badge());
    }
    Ok(seats)
}
