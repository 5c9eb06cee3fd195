//! Who may make a call, known without reading the journal back.

ghost use Rattle.std.specs.Prelude.{◌≡◌, reverse};
ghost use Rattle.semantics.specs.History.{meets};
ghost use Rattle.audit.specs.HeldCells.{AreHeld};

use crate::held_cells::HeldCells;
use map_rules::sections::{Sections, meets};
use semantics::{Call, Caller, ShardPlan};
use shard_core::Shard;
use std::marker::Model;

/// A shard, and which cells each worker holds after the entries of its journal.
#[derive(Drop)]
struct Noted<'a> {
    shard: &'a Shard,
    held: &'a HeldCells,
}

impl<'a> Model for Noted<'a> {
    ghost use Rattle.std.specs.Prelude.{reverse};
    ghost use Rattle.shard_core.specs.JournaledShard.{JournaledShard};
    ghost use Rattle.audit.specs.HeldCells.{AreHeld};

    ghost Value = { JournaledShard };

    ghost view = { λ noted. noted.shard.now };

    ghost invariant = { λ noted. AreHeld noted.held.now (reverse noted.shard.now.journal) };
}

impl<'a> Sections for Noted<'a> {
    ghost use Rattle.std.specs.Prelude.{reverse};

    ghost opened_with = { λ noted. noted.plan };

    ghost history = { λ noted. reverse noted.journal };

    fn plan(&self) -> &ShardPlan {
        self.shard.plan()
    }

    fn is_inside(&self, worker: u8) -> bool {
        self.shard.is_inside(worker)
    }

    fn holds(&self, worker: u8, cell: u64) -> bool {
        self.held.has(worker, cell)
    }
}

/// Whether the caller may make this call on this shard now.
pub(crate) fn may_call(shard: &Shard, held: &HeldCells, who: &Caller, call: &Call) -> bool
    requires { AreHeld held.now (reverse shard.now.journal) }
    ensures { result ≡ meets shard.now.plan (reverse shard.now.journal) who.now call.now }
{
    meets(&Noted { shard, held }, who, call)
}
