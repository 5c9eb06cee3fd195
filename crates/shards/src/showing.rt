//! What visitors do with a shard that they have: they show a caller its history, give it back, or close it.

ghost use Rattle.std.specs.Prelude.{◌≡◌, ◌<◌, ◌+◌, ◌*◌, ◌^◌, true, false, [], reverse};
ghost use Rattle.shards.specs.LockRule.{IsKnownIn, pass_of};
ghost use Rattle.shards.specs.Seats.{IsLock, IsSeatOf, IsVisitor, has_shard, view_of};

use crate::guarded_shard::GuardedShard;
use crate::lock::{WORD, count, give};
use crate::rule::{ClosesShard, Lock, LockSeat, SeesHistory, VisitorWithCaller};

/// Shows a caller the history of the shard that the visitor has, and returns the caller's seat.
pub(crate) fn show(lock: &Lock, visitor_seat: &mut LockSeat, seat: LockSeat) -> LockSeat
    requires lock { IsLock lock.now }
    requires visitor { IsVisitor lock.now.shared.table_id lock.now.shared.key (view_of visitor_seat.old.me).seen visitor_seat.old }
    requires seat { IsSeatOf lock.now.shared.table_id seat }
    requires alone { has_shard seat.me ≡ false }
    requires acts { seat.me.0.acts ≡ true }
    ensures visitor { (visitor_seat.new.table_id ≡ visitor_seat.old.table_id) × (visitor_seat.new.me ≡ visitor_seat.old.me) }
    ensures table { result.table_id ≡ lock.now.shared.table_id }
    ensures seat { result.me ≡ (pass_of lock.now.shared.key seat.me.0.who seat.me.0.own (view_of visitor_seat.old.me).seen, []) }
    ensures known { IsKnownIn (view_of visitor_seat.old.me).seen seat.me.0 }
{
    lock.shared
        .join_seat::<VisitorWithCaller>(visitor_seat, seat);
    lock.shared.load::<SeesHistory>(visitor_seat, WORD);
    lock.shared.split_seat::<VisitorWithCaller>(visitor_seat)
}

/// Gives the shard back.
pub(crate) fn leave(lock: &Lock, visitor_seat: LockSeat)
    requires lock { IsLock lock.now }
    requires visitor { IsVisitor lock.now.shared.table_id lock.now.shared.key (view_of visitor_seat.me).seen visitor_seat }
{
    let mut seat = visitor_seat;
    give(lock, &mut seat);
}

/// The shard with its seat at the order, which nobody can call any more.
pub(crate) fn close(lock: Lock, visitor_seat: LockSeat) -> GuardedShard
    requires lock { IsLock lock }
    requires visitor { IsVisitor lock.shared.table_id lock.shared.key (view_of visitor_seat.me).seen visitor_seat }
    ensures key { result.key ≡ lock.shared.key }
    ensures written { reverse result.journal ≡ (view_of visitor_seat.me).seen }
{
    let mut seat = visitor_seat;
    let entries = count(&lock, &mut seat);
    lock.shared
        .swap::<ClosesShard>(&mut seat, WORD, 4 * entries + 3);
    let mut closed = lock.close_with(seat);
    let guarded = closed.take(0);
    closed.free();
    guarded
}
