//! What was done before all else.

ghost use Rattle.std.specs.Prelude.{◌≡◌, ◌<◌, []};
ghost use Rattle.shards.specs.declared.deeds.OrderPart.TheVariants.{AtFirst};
ghost use Rattle.shards.specs.OrderRule.{IsSeatFor, account_deeds};

use crate::naming::Naming;
use crate::order::first_of_nothing;
use crate::order_rule::{Order, OrderSeat};
use std::marker::{Model, PhantomData};

/// Deeds with which the one order of all deeds begins. It has no bytes. Contracts see the deeds, the newest first.
#[derive(Drop)]
pub struct First<B: Naming> {
    pub(crate) seat: OrderSeat,
    pub(crate) names: PhantomData<B>,
}

impl<B: Naming> Model for First<B> {
    ghost use Rattle.std.specs.Prelude.{List};
    ghost use Rattle.shards.specs.declared.deeds.Deed.{Deed};
    ghost use Rattle.shards.specs.declared.deeds.OrderPart.TheVariants.{AtFirst};
    ghost use Rattle.shards.specs.OrderRule.{IsSeatFor, account_deeds};

    ghost Value = { List Deed };

    ghost view = { λ first. account_deeds first.seat.me.0 };

    ghost invariant = { λ first. IsSeatFor B.order AtFirst first.seat };
}

impl<B: Naming> First<B> {
    /// No deeds: every order begins with them.
    pub(crate) fn nothing(order: &Order) -> Self
        requires order { (order.now.shared.table_id ≡ B.order) × (0 < B.order.words) }
        ensures { result ≡ [] }
    {
        First {
            seat: first_of_nothing(order),
            names: PhantomData,
        }
    }

    /// Its seat at the order.
    pub(crate) fn into_seat(self) -> OrderSeat
        ensures seat { IsSeatFor B.order AtFirst result }
        ensures deeds { account_deeds result.me.0 ≡ self }
    {
        let First { seat, .. } = self;
        seat
    }
}
