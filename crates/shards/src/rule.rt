//! The word that is the length of a shard's journal and the shard's lock, and the rule that ties it to what the seats know.

use crate::guarded_shard::GuardedShard;
use crate::lock_key::LockKey;
use atomic_table::{Join, Play, Seat, Split, Table, TableRule};
use semantics::{Caller, Entry};
use std::alloc::Global;
use std::collections::LinkedList;

/// What a seat knows. No value of it is made: it is what contracts see of a seat.
pub struct Known {
    /// The shard's plan, and the order of all deeds.
    pub key: LockKey,
    /// Whether it is a seat: one that another took in is none any more.
    pub seated: bool,
    /// Whether it deals the callers' seats, and how many it dealt.
    pub deals: bool,
    pub dealt: u64,
    /// Whether it is a caller's, and then the caller, all entries that the caller made, and a beginning of the history that it has seen.
    pub acts: bool,
    pub who: Caller,
    pub own: LinkedList<Entry>,
    pub seen: LinkedList<Entry>,
    /// Whether it has the shard, or closed it, and then the whole history as it was when it took it.
    pub holds: bool,
    pub ended: bool,
    pub all: LinkedList<Entry>,
}

/// The word is four times the history's length, and the phase of the lock.
pub struct LockRule;

impl TableRule<GuardedShard, Known, LockKey> for LockRule {
    ghost use Rattle.shards.specs.LockRule.{IsLockRuleKept, dealer_of};

    ghost holds = { λ key s. IsLockRuleKept key s };

    ghost first = { λ key. dealer_of key 0 };
}

/// A seat for one more caller.
pub struct DealsSeat;

impl Split<Known> for DealsSeat {
    ghost use Rattle.shards.specs.LockRule.{one_more, newcomer};

    ghost left = { one_more };

    ghost right = { newcomer };
}

/// A step that makes a visitor's seat.
pub struct MakesVisitor;

impl Play<GuardedShard, Known> for MakesVisitor {
    ghost use Rattle.shards.specs.LockRule.{MakesVisitor};

    ghost then = { MakesVisitor };
}

/// A step that takes the lock and the shard, where the word is as expected.
pub struct TakesShard;

impl Play<GuardedShard, Known> for TakesShard {
    ghost use Rattle.shards.specs.LockRule.{TakesShard};

    ghost then = { TakesShard };
}

/// A step that notes that others may sleep.
pub struct MarksSleepers;

impl Play<GuardedShard, Known> for MarksSleepers {
    ghost use Rattle.shards.specs.LockRule.{MarksSleepers};

    ghost then = { MarksSleepers };
}

/// A step that gives the shard back, with the entries that were made.
pub struct GivesShardBack;

impl Play<GuardedShard, Known> for GivesShardBack {
    ghost use Rattle.shards.specs.LockRule.{GivesShardBack};

    ghost then = { GivesShardBack };
}

/// A step that puts the shard back for good.
pub struct ClosesShard;

impl Play<GuardedShard, Known> for ClosesShard {
    ghost use Rattle.shards.specs.LockRule.{ClosesShard};

    ghost then = { ClosesShard };
}

/// A visitor's seat and a caller's, together and apart again.
pub struct VisitorWithCaller;

impl Join<Known> for VisitorWithCaller {
    ghost use Rattle.shards.specs.LockRule.{visitor_with_caller, nobody};

    ghost both = { visitor_with_caller };

    ghost spent = { nobody };
}

impl Split<Known> for VisitorWithCaller {
    ghost use Rattle.shards.specs.LockRule.{visitor_part, pass_part};

    ghost left = { visitor_part };

    ghost right = { pass_part };
}

/// A step that looks, while both are together.
pub struct SeesHistory;

impl Play<GuardedShard, Known> for SeesHistory {
    ghost use Rattle.shards.specs.LockRule.{SeesHistory};

    ghost then = { SeesHistory };
}

/// The word of a shard, with the shard and its seat at the order in its slot.
pub type Lock = Table<GuardedShard, Known, LockKey, LockRule, Global>;

/// A seat at a shard's word.
pub type LockSeat = Seat<GuardedShard, Known>;
