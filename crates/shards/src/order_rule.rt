//! The one order of what all callers do on all shards: a list that no memory has, and the rule that ties it to what the seats know.

use crate::deeds::Account;
use crate::item::Item;
use atomic_table::{Badge, Join, Play, Seat, Split, Table, TableRule};
use semantics::ShardPlan;
use std::alloc::Global;
use std::collections::LinkedList;
use std::marker::PhantomData;

/// The plans of all shards by their numbers, and how many callers there can be.
#[derive(Drop)]
pub struct OrderKey {
    pub plans: Vec<ShardPlan>,
    pub callers: usize,
}

/// Each part has one account, which one seat has: all deeds of this part in the order.
pub struct OrderRule;

impl TableRule<u8, LinkedList<Account>, OrderKey> for OrderRule {
    ghost use Rattle.std.specs.Prelude.{length};
    ghost use Rattle.shards.specs.OrderRule.{IsOrderRuleKept, first_accounts};

    ghost holds = { λ key s. IsOrderRuleKept key.plans.items key.callers s };

    ghost first = { λ key. first_accounts 0 (length key.plans.items) key.callers };
}

/// A seat with the first account alone.
pub struct DealsAccount;

impl Split<LinkedList<Account>> for DealsAccount {
    ghost use Rattle.shards.specs.OrderRule.{all_others, first_alone};

    ghost left = { all_others };

    ghost right = { first_alone };
}

/// A step that makes a seat without an account.
pub struct MakesEmptySeat;

impl Play<u8, LinkedList<Account>> for MakesEmptySeat {
    ghost use Rattle.shards.specs.OrderRule.{MakesEmptySeat};

    ghost then = { λ s v found w. MakesEmptySeat w };
}

/// A seat takes in the first account of another.
pub struct TakesAccount;

impl Join<LinkedList<Account>> for TakesAccount {
    ghost use Rattle.std.specs.Prelude.{[]};
    ghost use Rattle.shards.specs.OrderRule.{with_first};

    ghost both = { with_first };

    ghost spent = { [] };
}

/// A step that adds a deed to the order.
pub struct AddsDeed<D: Item> {
    of: PhantomData<D>,
}

impl<D: Item> Play<u8, LinkedList<Account>> for AddsDeed<D> {
    ghost use Rattle.shards.specs.OrderRule.{AddsDeed};

    ghost then = { λ s v found w. AddsDeed D.item v w };
}

/// A step by which who has the accounts of all callers learns what the order begins with.
pub struct SeesFirst;

impl Play<u8, LinkedList<Account>> for SeesFirst {
    ghost use Rattle.shards.specs.OrderRule.{SeesFirst};

    ghost then = { λ s v found w. SeesFirst v w };
}

/// A step by which a seat learns that the order begins with all that was done so far, of which its accounts are parts.
pub struct SeesSoFar;

impl Play<u8, LinkedList<Account>> for SeesSoFar {
    ghost use Rattle.shards.specs.OrderRule.{SeesSoFar};

    ghost then = { λ s v found w. SeesSoFar v w };
}

/// A step that makes a seat that knows a beginning without deeds.
pub struct BringsNothing;

impl Play<u8, LinkedList<Account>> for BringsNothing {
    ghost use Rattle.shards.specs.OrderRule.{BringsNothing};

    ghost then = { λ s v found w. BringsNothing w };
}

/// The order. Its word is never written.
pub type Order = Table<u8, LinkedList<Account>, OrderKey, OrderRule, Global>;

/// A seat at the order.
pub type OrderSeat = Seat<u8, LinkedList<Account>>;

/// A seat at the order that lies in a place, where its owner can keep it.
pub type OrderPlace = Badge<LinkedList<Account>>;
