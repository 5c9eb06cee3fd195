//! What the table of a shard's word is opened with.

ghost use Rattle.std.specs.Prelude.{◌≡◌};
ghost use Rattle.shards.specs.GuardedView.{keyed};

use crate::order_rule::{Order, OrderPlace};
use semantics::ShardPlan;
use std::marker::Model;

/// The shard's plan, and which order its deeds are added to: that of the seat. Contracts see the plan and the order's name.
#[derive(Drop)]
pub struct LockKey {
    plan: ShardPlan,
    seat: OrderPlace,
}

impl Model for LockKey {
    ghost use Rattle.shards.specs.GuardedView.{KeyedPlan, keyed};

    ghost Value = { KeyedPlan };

    ghost view = { λ key. keyed key.plan key.seat.table_id };
}

impl LockKey {
    pub(crate) fn new(plan: ShardPlan, seat: OrderPlace) -> Self
        ensures { result ≡ keyed plan seat.table_id }
    {
        LockKey { plan, seat }
    }
}
