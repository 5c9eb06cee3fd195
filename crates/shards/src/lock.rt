//! The steps on a shard's word: take, mark, give; and visitors, who have the shard without a call.

ghost use Rattle.std.specs.Prelude.{◌≡◌, ◌≢◌, ◌<◌, ◌+◌, ◌*◌, ◌%◌, ◌==◌, ◌^◌, ℕ, true, false};
ghost use Rattle.std.specs.Prelude.{MatchBool, [], length};
ghost use Rattle.semantics.specs.History.{IsLegalHistory};
ghost use Rattle.shards.specs.LockRule.{HasTaken, given, visitor_of};
ghost use Rattle.shards.specs.Seats.{IsLock, IsSeatOf, IsVisitor, has_shard, view_of};

use crate::rule::{GivesShardBack, Lock, LockSeat, MakesVisitor, MarksSleepers, TakesShard};
use std::hint;
use std::sync::Wait;

/// How often a caller that finds the shard taken looks again before it sleeps, with longer pauses from look to look. Sleeping and being
/// woken cost each side microseconds, where a call has the shard for some 50 ns.
const LOOKS: u32 = 12;

/// Which of the table's words it is: what is before it and behind it keeps all else off its cache lines.
pub(crate) const WORD: usize = 16;

// ---- the lock

/// Takes the shard. Waits while another has it.
#[inline(always)]
pub(crate) fn take(rt: &impl Wait, lock: &Lock, seat: &mut LockSeat)
    requires lock { IsLock lock.now }
    requires seat { IsSeatOf lock.now.shared.table_id seat.old }
    requires alone { has_shard seat.old.me ≡ false }
    ensures seat { IsSeatOf lock.now.shared.table_id seat.new }
    ensures taken { HasTaken seat.old.me seat.new.me }
    ensures legal { IsLegalHistory seat.new.me.0.key.plan (view_of seat.new.me).seen }
{
    if !try_take(lock, seat, 1) {
        take_later(rt, lock, seat);
    }
}

/// Takes the shard, which another has: looks at its word for a while, and then sleeps. It stays out of its callers, which mostly find the
/// shard free.
#[inline(never)]
fn take_later(rt: &impl Wait, lock: &Lock, seat: &mut LockSeat)
    requires lock { IsLock lock.now }
    requires seat { IsSeatOf lock.now.shared.table_id seat.old }
    requires alone { has_shard seat.old.me ≡ false }
    ensures seat { IsSeatOf lock.now.shared.table_id seat.new }
    ensures taken { HasTaken seat.old.me seat.new.me }
    ensures legal { IsLegalHistory seat.new.me.0.key.plan (view_of seat.new.me).seen }
{
    let mut phase = 1;
    let mut looks = 0;
    'turns: for _ in rt.forever() {
        if try_take(lock, seat, phase) {
            return;
        }
        if looks < LOOKS {
            pause(looks);
            looks += 1;
        } else {
            wait(rt, lock, seat);
            phase = 2;
            looks = 0;
        }
    }
    unreachable!()
}

/// Pauses before the next look: twice as long from look to look, and 64 times as long at most. Meanwhile who has the shard may give it back
/// and take it again, with all of it in its own caches.
fn pause(looks: u32) {
    'pauses: for _ in 0..1u32 << looks.min(6) {
        hint::spin_loop();
    }
}

/// Takes the shard, if nobody has it.
#[inline(always)]
fn try_take(lock: &Lock, seat: &mut LockSeat, phase: u64) -> bool
    requires lock { IsLock lock.now }
    requires seat { IsSeatOf lock.now.shared.table_id seat.old }
    requires alone { has_shard seat.old.me ≡ false }
    requires phase { (0 < phase) × (phase < 3) }
    ensures seat { IsSeatOf lock.now.shared.table_id seat.new }
    ensures taken { MatchBool result (HasTaken seat.old.me seat.new.me) (seat.new.me ≡ seat.old.me) }
    ensures legal { result ≡ true → IsLegalHistory seat.new.me.0.key.plan (view_of seat.new.me).seen }
{
    let seen = lock.shared.peek(WORD);
    if !is_free(seen) {
        return false;
    }
    if take_from(lock, seat, seen, seen + phase) != seen {
        return false;
    }
    let _legal = count(lock, seat);
    true
}

/// Whether nobody has the shard, by its word.
#[inline(always)]
fn is_free(word: u64) -> bool
    ensures { MatchBool result ((quarter : ℕ) × (word ≡ 4 * quarter)) (word % 4 ≢ 0) }
{
    word % 4 == 0
}

/// Waits for a while, if another has the shard, after a note that somebody does.
fn wait(rt: &impl Wait, lock: &Lock, seat: &mut LockSeat)
    requires lock { IsLock lock.now }
    requires seat { IsSeatOf lock.now.shared.table_id seat.old }
    requires alone { has_shard seat.old.me ≡ false }
    ensures table { seat.new.table_id ≡ seat.old.table_id }
    ensures same { seat.new.me ≡ seat.old.me }
{
    let seen = lock.shared.peek(WORD);
    match seen % 4 {
        1 => {
            let _found = mark(lock, seat, seen);
        }
        2 => lock.shared.park(rt, WORD, (seen & 0xffff_ffff) as u32),
        _ => {}
    }
}

/// Gives the shard back, with all entries that it has more: one step, however many they are. Wakes one that may wait for it.
#[inline(always)]
pub(crate) fn give(lock: &Lock, seat: &mut LockSeat)
    requires lock { IsLock lock.now }
    requires seat { IsSeatOf lock.now.shared.table_id seat.old }
    requires taken { has_shard seat.old.me ≡ true }
    ensures seat { IsSeatOf lock.now.shared.table_id seat.new }
    ensures given { seat.new.me ≡ (given seat.old.me.0 seat.old.me.1, []) }
    ensures same { view_of seat.new.me ≡ view_of seat.old.me }
    ensures legal { IsLegalHistory seat.new.me.0.key.plan (view_of seat.new.me).seen }
{
    let entries = count(lock, seat);
    let found = give_to(lock, seat, entries);
    if found % 4 == 2 {
        lock.shared.wake_one(WORD);
    }
}

// ---- single steps

/// Takes the shard, where the word is still this one, by which nobody has it. Returns what the word was.
#[inline(always)]
fn take_from(lock: &Lock, seat: &mut LockSeat, free: u64, taken: u64) -> u64
    requires lock { IsLock lock.now }
    requires seat { IsSeatOf lock.now.shared.table_id seat.old }
    requires alone { has_shard seat.old.me ≡ false }
    requires free { (quarter : ℕ) × (free ≡ 4 * quarter) }
    requires taken { (phase : ℕ) × (taken ≡ free + phase) × (0 < phase) × (phase < 3) }
    ensures seat { IsSeatOf lock.now.shared.table_id seat.new }
    ensures taken { MatchBool (result == free) (HasTaken seat.old.me seat.new.me) (seat.new.me ≡ seat.old.me) }
{
    lock.shared
        .compare_exchange::<TakesShard>(seat, WORD, free, taken)
}

/// Notes that somebody may sleep, where the word is still this one, by which another has the shard.
fn mark(lock: &Lock, seat: &mut LockSeat, taken: u64) -> u64
    requires lock { IsLock lock.now }
    requires seat { IsSeatOf lock.now.shared.table_id seat.old }
    requires alone { has_shard seat.old.me ≡ false }
    requires taken { (quarter : ℕ) × (taken ≡ 4 * quarter + 1) }
    ensures table { seat.new.table_id ≡ seat.old.table_id }
    ensures same { seat.new.me ≡ seat.old.me }
{
    lock.shared
        .compare_exchange::<MarksSleepers>(seat, WORD, taken, taken + 1)
}

/// Gives the shard back, whose journal has `entries` entries. Returns what the word was.
#[inline(always)]
fn give_to(lock: &Lock, seat: &mut LockSeat, entries: u64) -> u64
    requires lock { IsLock lock.now }
    requires seat { IsSeatOf lock.now.shared.table_id seat.old }
    requires taken { has_shard seat.old.me ≡ true }
    requires entries { (entries ≡ length (view_of seat.old.me).seen) × (entries < 2 ^ 32) }
    ensures table { seat.new.table_id ≡ seat.old.table_id }
    ensures given { seat.new.me ≡ (given seat.old.me.0 seat.old.me.1, []) }
{
    lock.shared.swap::<GivesShardBack>(seat, WORD, 4 * entries)
}

// ---- with the shard

/// How many entries the journal has.
#[inline(always)]
pub(crate) fn count(lock: &Lock, seat: &mut LockSeat) -> u64
    requires lock { IsLock lock.now }
    requires seat { IsSeatOf lock.now.shared.table_id seat.old }
    requires taken { has_shard seat.old.me ≡ true }
    ensures same { seat.new ≡ seat.old }
    ensures count { result ≡ length (view_of seat.old.me).seen }
    ensures few { result < 2 ^ 32 }
    ensures legal { IsLegalHistory seat.old.me.0.key.plan (view_of seat.old.me).seen }
{
    seat.slot_mut(&lock.shared, 0).entries()
}

// ---- visitors, who make no call

/// A visitor that has the shard. Waits while another has it.
pub(crate) fn visit(rt: &impl Wait, lock: &Lock) -> LockSeat
    requires lock { IsLock lock.now }
    ensures visitor { IsVisitor lock.now.shared.table_id lock.now.shared.key (view_of result.me).seen result }
    ensures legal { IsLegalHistory lock.now.shared.key.plan (view_of result.me).seen }
{
    let mut seat = visitor(lock);
    take(rt, lock, &mut seat);
    seat
}

/// A seat that makes no call, and has no shard.
pub(crate) fn visitor(lock: &Lock) -> LockSeat
    requires lock { IsLock lock.now }
    ensures { (result.table_id ≡ lock.now.shared.table_id) × (result.me ≡ (visitor_of lock.now.shared.key, [])) }
{
    lock.shared.load_new_seat::<MakesVisitor>(WORD).1
}
