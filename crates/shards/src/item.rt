//! A deed, for a step that adds it.

use std::marker::Brand;

/// A deed that is picked where a step adds it to the order.
pub trait Item {
    ghost use Rattle.shards.specs.declared.deeds.Deed.{Deed};

    ghost item: { Deed };
}

impl Item for Brand {
    ghost use Rattle.semantics.specs.declared.call.Caller.TheVariants.{Controller};
    ghost use Rattle.semantics.specs.declared.call.Call.TheVariants.{Enter};
    ghost use Rattle.shards.specs.declared.deeds.Deed.TheVariants.{MetFull};

    ghost item = { MetFull Controller (Enter 0) };
}
