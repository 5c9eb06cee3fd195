//! The maps that a controller updates, as shards that other callers share; and a port whose replies go through a gate.

ghost use Rattle.std.specs.Prelude.{◌≡◌, ◌<◌, ◌+◌, true, false, slice_set, replicate};
ghost use Rattle.semantics.specs.declared.call.Caller.TheVariants.{Controller};
ghost use Rattle.actors.specs.SharedUpdates.{HasUpdateOf, shard_of_map_key};

use control::UpdatePort;
use map_rules::conditions::shard_of_map;
use semantics::facts::bytes_have_8_bits;
use semantics::{JournalFull, Key, UpdateFlags, Value};
use shard_port::{Gate, Tally};
use shards::{Dealer, First, Naming, Pass, Shards};
use std::marker::Model;
use std::sync::Wait;

/// The controller's port over shards that are shared with other callers: an update is one Update, with the flags ANY, of the shard that the
/// key has. Contracts see the maps, the options that the shards were opened with, and the controller's pass.
#[derive(Drop)]
pub struct SharedUpdates<'a, B: Naming, W: Wait> {
    rt: &'a W,
    shards: &'a Shards<B>,
    pass: Pass<B>,
}

impl<'a, B: Naming, W: Wait> Model for SharedUpdates<'a, B, W> {
    ghost use Rattle.actors.specs.SharedUpdates.{UpdatesView, IsControllersPort};

    ghost Value = { UpdatesView };

    ghost view = { λ port. record { maps = port.shards.now.maps; options = port.shards.now.options; pass = port.pass } };

    ghost invariant = { λ port. IsControllersPort B.count B.plan port.shards.now.maps port.shards.now.options port.pass };
}

impl<'a, B: Naming, W: Wait> SharedUpdates<'a, B, W> {
    /// The controller's port, with its pass.
    pub fn over(rt: &'a W, shards: &'a Shards<B>, pass: Pass<B>) -> SharedUpdates<'a, B, W>
        requires { pass.who ≡ Controller }
        ensures { result ≡ record { maps = shards.now.maps; options = shards.now.options; pass = pass } }
    {
        shards.planned();
        SharedUpdates { rt, shards, pass }
    }

    /// What the controller did so far, as the beginning of what all callers will have done: nobody else has a pass yet. Changes nothing.
    pub(crate) fn first(&mut self, dealer: &mut Dealer<B>) -> First<B>
        requires alone { dealer.old ≡ slice_set (replicate (self.old.options.workers + 2) false) 0 true }
        ensures first { result ≡ self.old.pass.deeds }
        ensures same { self.new ≡ self.old }
        ensures unchanged { dealer.new ≡ dealer.old }
    {
        dealer.first(self.shards, &mut self.pass)
    }

    /// Gives the pass back.
    pub fn finish(self) -> Pass<B>
        ensures { result ≡ self.entry.pass }
    {
        let SharedUpdates { pass, .. } = self;
        pass
    }

    /// The number of the shard of a map's key.
    fn shard_of(&self, map: u32, key: &Key) -> u32
        requires { HasUpdateOf self.now.maps map key.now }
        ensures { result ≡ shard_of_map_key self.now.maps self.now.options map key.now }
    {
        shard_of_map(self.shards.maps(), self.shards.options().shards, map, key)
    }
}

impl<'a, B: Naming, W: Wait> UpdatePort for SharedUpdates<'a, B, W> {
    ghost use Rattle.actors.specs.SharedUpdates.{IsUpdated, IsTurnedAway};
    ghost use Rattle.actors.specs.SharedLaws.{array_takes};

    ghost serves = { λ port. port.maps };

    ghost gives = { λ before update answer after. IsUpdated B.plan before update answer after };

    ghost refuses = { λ before update after. IsTurnedAway B.plan before update after };

    ghost keeps = { λ before after update answer updated. updated.maps };

    ghost stays = { λ before after update refused. refused.maps };

    ghost arrays_answer = { λ before after update answer stands updated. array_takes B.plan before update answer after stands updated };

    fn update(&mut self, map: u32, key: &Key, value: &Value) -> Result<i32, JournalFull> {
        bytes_have_8_bits(key.as_slice());
        bytes_have_8_bits(value.as_slice());
        let shard = self.shard_of(map, key);
        self.shards.update(
            self.rt,
            &mut self.pass,
            shard,
            key.as_slice(),
            value.as_slice(),
            UpdateFlags::Any.number(),
        )
    }
}

/// A port to the maps that a controller updates: each answer is counted, goes through the gate, and is the answer of the port within.
#[derive(Drop)]
pub struct GatedUpdates<'a, U: UpdatePort, G: Gate> {
    pub port: U,
    pub tally: Tally<'a, G>,
}

impl<'a, U: UpdatePort, G: Gate> UpdatePort for GatedUpdates<'a, U, G> {
    ghost use Rattle.shard_port.specs.ScheduleHook.{IsReplyCounted, IsRefusalUncounted};

    ghost serves = { λ gated. U.serves gated.port };

    ghost gives = { λ before update answer after. IsReplyCounted (U.gives before.port update answer after.port)
        before.tally.who after.tally.who before.tally.count after.tally.count };

    ghost refuses = { λ before update after. IsRefusalUncounted (U.refuses before.port update after.port)
        before.tally.who after.tally.who before.tally.count after.tally.count };

    ghost keeps = { λ before after update answer given. U.keeps before.port after.port update answer given.given_within };

    ghost stays = { λ before after update refused. U.stays before.port after.port update refused.refused_within };

    ghost arrays_answer = { λ before after update answer stands given. U.arrays_answer before.port after.port update answer stands
        given.given_within };

    fn update(&mut self, map: u32, key: &Key, value: &Value) -> Result<i32, JournalFull> {
        let answer = self.port.update(map, key, value)?;
        self.tally.replied();
        Ok(answer)
    }
}
