//! Names for the words of all shards, and the plans of the shards: what the types of shards, passes and ports agree on.

use std::marker::Brand;

/// How many shards there are, and which word and which plan the shard of a number has, and which order all deeds are in. A program picks
/// them once, where it makes its shards known to a function that is generic in them (`std::marker::Brand`).
pub trait Naming {
    ghost use Rattle.std.specs.Prelude.{ℕ};
    ghost use Rattle.atomic_table.specs.Seated.{TableId};
    ghost use Rattle.semantics.specs.declared.plan.ShardPlan.{ShardPlan};

    ghost count: { ℕ };

    ghost table: { ℕ → TableId };

    ghost plan: { ℕ → ShardPlan };

    ghost order: { TableId };
}

impl Naming for Brand {
    ghost use Rattle.shards.specs.LockRule.{no_table, no_plan};

    ghost count = { 0 };

    ghost table = { λ number. no_table };

    ghost plan = { λ number. no_plan };

    ghost order = { no_table };
}
