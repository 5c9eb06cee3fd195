//! The port of a worker's pass, over shards that many callers share.

ghost use Rattle.std.specs.Prelude.{◌≡◌, ◌<◌, ◌++◌, IsTrue, IfOk, IfErr, OnOk, OnErr};
ghost use Rattle.shard_port.specs.ScheduleHook.{next_count};
ghost use Rattle.shards.specs.Passes.{IsElsewhereSame, own_at};
ghost use Rattle.shard_port.specs.PassPorts.{is_worker_below, worker_number, left_deeds, MayAskOnceInside, IsAskedBy, IsTurnedAwayBy};
ghost use Rattle.shard_port.specs.PassPorts.{IsLeftBy, IsFinishedBy};

use crate::handles::{cell_of_handle, handle_of_found};
use crate::schedule_hook::{Gate, Tally};
use isa::AtomicOp;
use journal::{AtomicChange, CellRange};
use map_port::MapPort;
use map_rules::conditions::shard_of_map;
use semantics::{JournalFull, Key, Value};
use shards::{Ask, Changes, Deletes, Loads, Looks, Naming, Pass, Shards, Stopped, Stores, Updates};
use std::sync::Wait;

/// A worker's port over shared shards: one run. It enters a shard before its first call there, and has to be finished, which leaves the
/// shards that it entered. It waits for locks, and no call takes memory. A gate is called for each reply, while no lock is held: not of an
/// Enter, a Leave or a refused call.
///
/// A cell's handle is `shard * 2^32 + id + 1`: its shard's number above its id.
pub struct ShardPort<'a, B: Naming, W: Wait, G: Gate> {
    pass: &'a mut Pass<B>,
    shards: &'a Shards<B>,
    rt: &'a W,
    tally: Tally<'a, G>,
    ghost ready: { IsTrue (is_worker_below shards.now.options.workers pass.now.who) },
}

impl<'a, B: Naming, W: Wait, G: Gate> ShardPort<'a, B, W, G> {
    ghost use Rattle.semantics.specs.ServedCalls.{IsKeyOf};
    ghost use Rattle.map_port.specs.Served.{served_shard};
    ghost use Rattle.shard_port.specs.PassPorts.{served_of};

    /// The port of a worker's pass, over the shards of a program's maps. It enters none yet. Replies are counted on from the tally's.
    pub fn over(
        rt: &'a W,
        shards: &'a Shards<B>,
        pass: &'a mut Pass<B>,
        tally: Tally<'a, G>,
    ) -> ShardPort<'a, B, W, G>
        requires worker { IsTrue (is_worker_below shards.now.options.workers pass.old.who) }
        ensures same_pass { result.pass.ghost_name ≡ pass.entry.ghost_name }
        ensures pass { result.pass.now ≡ pass.old }
        ensures shards { result.shards.now ≡ shards.now }
        ensures actor { result.tally.who ≡ tally.entry.who }
        ensures told { result.tally.count ≡ tally.entry.count }
    {
        ShardPort {
            pass,
            shards,
            rt,
            tally,
        }
    }

    /// The shard of a map's key.
    #[inline(always)]
    fn shard_of(&self, map: u32, key: &Key) -> u32
        requires { IsKeyOf (served_of self.now.shards.now).maps map key.now }
        ensures { result ≡ served_shard (served_of self.now.shards.now) map key.now }
    {
        self.shards.planned();
        shard_of_map(self.shards.maps(), self.shards.options().shards, map, key)
    }

    /// Makes a run's call of a shard: entered before, if the worker is not inside. Refused where the shard's journal is full for the
    /// Enter or for the call.
    #[inline(always)]
    fn ask<C: Ask>(&mut self, shard: u32, ask: C) -> Result<C::Answer, JournalFull>
        requires shard { shard < B.count }
        requires met { MayAskOnceInside (B.plan shard) shard self.old.pass.now (C.asks ask shard) }
        ensures same_pass { self.new.pass.ghost_name ≡ self.old.pass.ghost_name }
        ensures same_shards { self.new.shards ≡ self.old.shards }
        ensures elsewhere { IsElsewhereSame shard self.old.pass.now self.new.pass.now }
        ensures answered { IfOk result (λ answer. IsAskedBy (B.plan shard) shard self.old.pass.now self.new.pass.now (C.asks ask shard)
            (C.replies shard answer)) }
        ensures turned_away { OnErr result (IsTurnedAwayBy (B.plan shard) shard self.old.pass.now self.new.pass.now (C.asks ask shard)) }
        ensures names_the_shard { IfErr result (λ fault. fault.shard ≡ shard) }
        ensures same_actor { self.new.tally.who ≡ self.old.tally.who }
        ensures told { OnOk result (self.new.tally.count ≡ next_count self.old.tally.count) }
        ensures untold { OnErr result (self.new.tally.count ≡ self.old.tally.count) }
    {
        self.shards.planned();
        if self.pass.is_inside(shard) {
            let asked = self.shards.ask(self.rt, self.pass, shard, ask);
            if asked.is_ok() {
                self.tally.replied();
            }
            return asked;
        }
        match self.shards.enter_then(self.rt, self.pass, shard, ask) {
            Ok(answer) => {
                self.tally.replied();
                Ok(answer)
            }
            Err(Stopped::AtEnter { full }) => Err(full),
            Err(Stopped::AtCall { full }) => Err(full),
        }
    }

    /// The worker leaves all shards that it is inside of, the lowest number first. A Leave is never refused. Returns how many replies the
    /// schedule hook was called for.
    pub fn finish(self) -> u64
        ensures left { IsFinishedBy B.plan B.count self.entry.pass.now self.exit.0.now }
        ensures told { result ≡ self.entry.tally.count }
    {
        let ShardPort {
            pass,
            shards,
            rt,
            tally,
        } = self;
        leave_all(rt, shards, pass);
        tally.count
    }
}

impl<'a, B: Naming, W: Wait, G: Gate> MapPort for ShardPort<'a, B, W, G> {
    ghost use Rattle.shard_port.specs.ScheduleHook.{IsReplyCounted, IsRefusalUncounted};
    ghost use Rattle.shard_port.specs.PortView.{cell_of_handle};
    ghost use Rattle.shard_port.specs.PassPorts.{served_of, port_of, has_found, PassGives, PassRefuses};
    ghost use Rattle.shard_port.specs.PassPortLaws.{pass_keeps, pass_hands_out};

    ghost serves = { λ port. served_of port.shards.now };

    ghost gives = { λ before call reply after. IsReplyCounted ((after.pass.ghost_name ≡ before.pass.ghost_name)
        × PassGives B.plan B.count (port_of before.shards.now before.pass.now) call reply (port_of after.shards.now after.pass.now))
        before.tally.who after.tally.who before.tally.count after.tally.count };

    ghost refuses = { λ before call after. IsRefusalUncounted ((after.pass.ghost_name ≡ before.pass.ghost_name)
        × PassRefuses B.plan B.count (port_of before.shards.now before.pass.now) call (port_of after.shards.now after.pass.now))
        before.tally.who after.tally.who before.tally.count after.tally.count };

    ghost has_handed_out = { λ port. has_found (port_of port.shards.now port.pass.now) };

    ghost cell_of = { λ port. cell_of_handle };

    ghost stays = { λ before after call refused. refused.refused_within.1.same_maps };

    ghost keeps = { λ before after call reply given. pass_keeps B.plan B.count _ _ call reply given.given_within.1 };

    ghost hands_out = { λ before after call reply given. pass_hands_out B.plan B.count _ _ call reply given.given_within.1 };

    ghost replies = { λ before after call reply given. given.given_within.1.formed };

    fn lookup(&mut self, map: u32, key: &Key) -> Result<u64, JournalFull> {
        self.shards.planned();
        let shard = self.shard_of(map, key);
        match self.ask(
            shard,
            Looks {
                key: key.as_slice(),
            },
        ) {
            Ok(found) => Ok(handle_of_found(shard, found)),
            Err(full) => Err(full),
        }
    }

    fn load(&mut self, handle: u64, offset: u64, size: u64) -> Result<u64, JournalFull> {
        self.shards.planned();
        let cell = cell_of_handle(handle);
        let range = CellRange {
            cell: cell.id,
            offset,
            size,
        };
        match self.ask(cell.shard, Loads { range: &range }) {
            Ok(number) => Ok(number),
            Err(full) => Err(full),
        }
    }

    fn store(
        &mut self,
        handle: u64,
        offset: u64,
        size: u64,
        value: u64,
    ) -> Result<(), JournalFull> {
        self.shards.planned();
        let cell = cell_of_handle(handle);
        let range = CellRange {
            cell: cell.id,
            offset,
            size,
        };
        let ask = Stores {
            range: &range,
            value,
        };
        match self.ask(cell.shard, ask) {
            Ok(()) => Ok(()),
            Err(full) => Err(full),
        }
    }

    fn atomic(
        &mut self,
        handle: u64,
        offset: u64,
        size: u64,
        op: AtomicOp,
        value: u64,
        expected: u64,
    ) -> Result<u64, JournalFull> {
        self.shards.planned();
        let cell = cell_of_handle(handle);
        let range = CellRange {
            cell: cell.id,
            offset,
            size,
        };
        let change = AtomicChange {
            op: u64::from(op.code()),
            value,
            expected,
        };
        let ask = Changes {
            range: &range,
            change: &change,
        };
        match self.ask(cell.shard, ask) {
            Ok(number) => Ok(number),
            Err(full) => Err(full),
        }
    }

    fn update(
        &mut self,
        map: u32,
        key: &Key,
        value: &Value,
        flags: u64,
    ) -> Result<i32, JournalFull> {
        self.shards.planned();
        let shard = self.shard_of(map, key);
        let ask = Updates {
            key: key.as_slice(),
            value: value.as_slice(),
            flags,
        };
        match self.ask(shard, ask) {
            Ok(code) => Ok(code),
            Err(full) => Err(full),
        }
    }

    fn delete(&mut self, map: u32, key: &Key) -> Result<i32, JournalFull> {
        self.shards.planned();
        let shard = self.shard_of(map, key);
        let ask = Deletes {
            key: key.as_slice(),
        };
        match self.ask(shard, ask) {
            Ok(code) => Ok(code),
            Err(full) => Err(full),
        }
    }
}

/// The worker leaves the shard, if it is inside.
fn leave<B: Naming>(rt: &impl Wait, shards: &Shards<B>, pass: &mut Pass<B>, shard: u32)
    requires shard { shard < B.count }
    requires worker { IsTrue (is_worker_below shards.now.options.workers pass.old.who) }
    ensures elsewhere { IsElsewhereSame shard pass.old pass.new }
    ensures left { IsLeftBy (B.plan shard) shard pass.old pass.new }
    ensures did { pass.new.deeds ≡ left_deeds (worker_number pass.old.who) shard (own_at pass.old shard) ++ pass.old.deeds }
{
    shards.planned();
    if pass.is_inside(shard) {
        shards.leave(rt, pass, shard);
    }
}

/// The worker leaves all shards that it is inside of, the lowest number first.
fn leave_all<B: Naming>(rt: &impl Wait, shards: &Shards<B>, pass: &mut Pass<B>)
    requires worker { IsTrue (is_worker_below shards.now.options.workers pass.old.who) }
    ensures { IsFinishedBy B.plan B.count pass.old pass.new }
{
    shards.planned();
    let count = shards.count() as u32;
    'shards: for number in 0..count {
        leave(rt, shards, pass, number);
    }
}
