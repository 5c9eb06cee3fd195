//! Which calls a caller may make: what a shard knows of the caller, without reading its journal where a flag says so.

ghost use Rattle.std.specs.Prelude.{◌≡◌, ◌<◌, true, false, reverse};
ghost use Rattle.semantics.specs.Reclamation.{is_inside, holds};
ghost use Rattle.semantics.specs.ShardPlan.{KeepsRows};
ghost use Rattle.semantics.specs.History.{Meets, meets};

use crate::shard::Shard;
use map_rules::held::{Entries, holds};
use map_rules::sections::{Sections, meets};
use semantics::{Call, Caller, Entry, ShardPlan};
use std::marker::Model;

impl Shard {
    /// Whether the entries can be read: where the journal has room for at most 1,048,576.
    pub fn keeps_rows(&self) -> bool
        ensures rows { result ≡ true → KeepsRows self.now.plan.reserve }
        ensures kept { KeepsRows self.now.plan.reserve → result ≡ true }
    {
        self.journal().keeps_rows()
    }

    /// Whether the worker holds the cell of this id: since its last Enter, which no Leave follows, a Lookup of its own found
    /// it. Reads the journal from its newest entry back to the worker's Enter or Leave.
    pub fn holds(&self, worker: u8, cell: u64) -> bool
        requires rows { KeepsRows self.now.plan.reserve }
        requires worker { worker < 8 }
        ensures { result ≡ holds worker cell (reverse self.now.journal) }
    {
        Readable { shard: self }.holds(worker, cell)
    }

    /// Whether the caller may make this call now, which a shard that keeps no rows cannot say: it says no. Reads the journal only for a
    /// Load, a Store or an Atomic, back to the worker's Enter.
    pub fn meets(&self, who: &Caller, call: &Call) -> bool
        ensures may { result ≡ true → Meets self.now.plan (reverse self.now.journal) who.now call.now }
        ensures exact { KeepsRows self.now.plan.reserve → result ≡ meets self.now.plan (reverse self.now.journal) who.now call.now }
        ensures no_rows { ¬ KeepsRows self.now.plan.reserve → result ≡ false }
    {
        if !self.keeps_rows() {
            return false;
        }
        meets(&Readable { shard: self }, who, call)
    }
}

/// A shard whose entries can be read.
#[derive(Drop)]
struct Readable<'a> {
    shard: &'a Shard,
}

impl<'a> Model for Readable<'a> {
    ghost use Rattle.semantics.specs.ShardPlan.{KeepsRows};
    ghost use Rattle.shard_core.specs.JournaledShard.{JournaledShard};

    ghost Value = { JournaledShard };

    ghost view = { λ readable. readable.shard.now };

    ghost invariant = { λ readable. KeepsRows readable.shard.now.plan.reserve };
}

impl<'a> Entries for Readable<'a> {
    ghost entries = { λ shard. shard.journal };

    fn len(&self) -> usize {
        self.shard.journal().len()
    }

    fn entry(&self, place: usize) -> Entry {
        self.shard.journal().entry(place)
    }
}

impl<'a> Sections for Readable<'a> {
    ghost use Rattle.std.specs.Prelude.{reverse};

    ghost opened_with = { λ shard. shard.plan };

    ghost history = { λ shard. reverse shard.journal };

    fn plan(&self) -> &ShardPlan {
        self.shard.plan()
    }

    fn is_inside(&self, worker: u8) -> bool {
        self.shard.is_inside(worker)
    }

    fn holds(&self, worker: u8, cell: u64) -> bool {
        holds(worker, cell, self)
    }
}
