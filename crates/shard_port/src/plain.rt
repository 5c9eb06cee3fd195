//! The port of a single caller: one worker, one run at a time, no lock.

ghost use Rattle.std.specs.Prelude.{Some, ◌≡◌, ◌<◌, ◌≤◌, ◌+◌, ◌*◌, ◌%◌, ◌^◌, ℕ, pos, IsTrue};
ghost use Rattle.std.specs.Prelude.{IfOk, IfErr, OnErr, length, slice_get, nat_lt};
ghost use Rattle.std.specs.Prelude.{IsFalse, OnOk};
ghost use Rattle.semantics.specs.ShardPlan.{AreOptions};
ghost use Rattle.semantics.specs.History.{shard_of_call, IsLegalJournal};
ghost use Rattle.shard_port.specs.Asking.{may_ask_at, all_left, IsAnsweredAmong, IsTurnedAwayAmong, entered, left, can_enter, may_ask};
ghost use Rattle.shard_port.specs.Asking.{EntersAndCalls, CannotEnterOrCall, IsWorkerOf};
ghost use Rattle.shard_port.specs.PortView.{ServesMaps, IsPortReady, IsRunCall, SetsBytes};
ghost use Rattle.std.specs.List.{AllByRecursion};

use crate::handles::{cell_of_handle, handle_of_found};
use ebpf_decode::Image;
use isa::AtomicOp;
use journal::{AtomicChange, CellRange};
use map_port::MapPort;
use map_rules::conditions::shard_of_map;
use semantics::{Caller, JournalFull, Key, Options, Value};
use shard_core::Shard;
use shards::{Ask, Changes, Deletes, Loads, Looks, PlainShards, Stores, Updates, maps_of};

/// A worker's port over the shards of an image's maps. It enters a shard before its first call there, and has to be finished,
/// which leaves the shards that it entered. No call takes memory.
///
/// A cell's handle is `shard * 2^32 + id + 1`: its shard's number above its id.
pub struct PlainPort<'a> {
    shards: &'a mut PlainShards,
    image: &'a Image,
    options: Options,
    /// Its number.
    worker: u8,
    ghost ready: { ∥ IsPortReady image.now.maps options worker shards.now ∥₁ },
}

impl<'a> PlainPort<'a> {
    ghost use Rattle.semantics.specs.ServedCalls.{IsKeyOf};
    ghost use Rattle.map_port.specs.Served.{served_shard};
    ghost use Rattle.shard_port.specs.PlainPorts.{maps_of};

    /// The worker's port over the shards of the image's maps, which were opened with these options. It enters none yet.
    pub fn over(
        image: &'a Image,
        options: Options,
        shards: &'a mut PlainShards,
        worker: u8,
    ) -> PlainPort<'a>
        requires options { AreOptions image.now.maps options }
        requires shards { ServesMaps image.now.maps options shards.old }
        requires worker { worker < options.workers }
        ensures same_shards { result.shards.ghost_name ≡ shards.entry.ghost_name }
        ensures shards { result.shards.now ≡ shards.old }
        ensures maps { result.image.now.maps ≡ image.now.maps }
        ensures options { result.options ≡ options }
        ensures worker { result.worker ≡ worker }
    {
        let _ = maps_of(image);
        PlainPort {
            shards,
            image,
            options,
            worker,
        }
    }

    /// The shard of a map's key.
    fn shard_of(&self, map: u32, key: &Key) -> u32
        requires { IsKeyOf (maps_of self.now).maps map key.now }
        ensures { result ≡ served_shard (maps_of self.now) map key.now }
    {
        shard_of_map(self.image.maps(), self.options.shards, map, key)
    }

    /// Makes a run's call of a shard: entered before, if the worker is not inside. Refused where the shard's journal is full for the
    /// Enter or for the call.
    #[inline(always)]
    fn ask<C: Ask>(&mut self, shard: u32, ask: C) -> Result<C::Answer, JournalFull>
        requires may { IsTrue (may_ask_at self.old.worker (slice_get self.old.shards.now shard) (C.asks ask shard)) }
        requires named { shard_of_call (C.asks ask shard) ≡ shard }
        requires sets_bytes { SetsBytes (C.asks ask shard) }
        ensures same_shards { self.new.shards.ghost_name ≡ self.old.shards.ghost_name }
        ensures same_image { self.new.image ≡ self.old.image }
        ensures same_options { self.new.options ≡ self.old.options }
        ensures same_worker { self.new.worker ≡ self.old.worker }
        ensures answered { IfOk result (λ answer. IsAnsweredAmong self.old.worker self.old.shards.now (C.asks ask shard)
            (C.replies shard answer) self.new.shards.now) }
        ensures turned_away { OnErr result (IsTurnedAwayAmong self.old.worker self.old.shards.now (C.asks ask shard) self.new.shards.now) }
        ensures names_the_shard { IfErr result (λ fault. fault.shard ≡ shard) }
    {
        ask_at(self.shards, self.worker, shard, ask)
    }

    /// The worker leaves all shards that it is inside of, the lowest number first. A Leave is never refused.
    pub fn finish(self)
        ensures left { self.exit.0.now ≡ all_left self.entry.worker self.entry.shards.now }
        ensures shards { ServesMaps self.entry.image.now.maps self.entry.options self.exit.0.now }
    {
        let PlainPort {
            shards,
            image,
            options,
            worker,
        } = self;
        leave_all(shards, worker);
    }
}

impl<'a> MapPort for PlainPort<'a> {
    ghost use Rattle.shard_port.specs.PortView.{cell_of_handle, is_handed_out};
    ghost use Rattle.shard_port.specs.PlainPorts.{maps_of, port_view, PortGives, PortRefuses};
    ghost use Rattle.shard_port.specs.PortLaws.{keeps_by, hands_out_by};

    ghost serves = { maps_of };

    ghost gives = { PortGives };

    ghost refuses = { PortRefuses };

    ghost has_handed_out = { λ port. is_handed_out (port_view port) };

    ghost cell_of = { λ port. cell_of_handle };

    ghost stays = { λ before after call refused. refused.refused.same_maps };

    ghost keeps = { λ before after call reply given. keeps_by (port_view before) (port_view after) call reply given.given };

    ghost hands_out = { λ before after call reply given. hands_out_by (port_view before) (port_view after) call reply given.given };

    ghost replies = { λ before after call reply given. given.given.formed };

    fn lookup(&mut self, map: u32, key: &Key) -> Result<u64, JournalFull> {
        let shard = self.shard_of(map, key);
        match self.ask(
            shard,
            Looks {
                key: key.as_slice(),
            },
        ) {
            Ok(found) => Ok(handle_of_found(shard, found)),
            Err(full) => Err(full),
        }
    }

    fn load(&mut self, handle: u64, offset: u64, size: u64) -> Result<u64, JournalFull> {
        let cell = cell_of_handle(handle);
        let range = CellRange {
            cell: cell.id,
            offset,
            size,
        };
        match self.ask(cell.shard, Loads { range: &range }) {
            Ok(number) => Ok(number),
            Err(full) => Err(full),
        }
    }

    fn store(
        &mut self,
        handle: u64,
        offset: u64,
        size: u64,
        value: u64,
    ) -> Result<(), JournalFull> {
        let cell = cell_of_handle(handle);
        let range = CellRange {
            cell: cell.id,
            offset,
            size,
        };
        let ask = Stores {
            range: &range,
            value,
        };
        match self.ask(cell.shard, ask) {
            Ok(()) => Ok(()),
            Err(full) => Err(full),
        }
    }

    fn atomic(
        &mut self,
        handle: u64,
        offset: u64,
        size: u64,
        op: AtomicOp,
        value: u64,
        expected: u64,
    ) -> Result<u64, JournalFull> {
        let cell = cell_of_handle(handle);
        let range = CellRange {
            cell: cell.id,
            offset,
            size,
        };
        let change = AtomicChange {
            op: u64::from(op.code()),
            value,
            expected,
        };
        let ask = Changes {
            range: &range,
            change: &change,
        };
        match self.ask(cell.shard, ask) {
            Ok(number) => Ok(number),
            Err(full) => Err(full),
        }
    }

    fn update(
        &mut self,
        map: u32,
        key: &Key,
        value: &Value,
        flags: u64,
    ) -> Result<i32, JournalFull> {
        let shard = self.shard_of(map, key);
        let ask = Updates {
            key: key.as_slice(),
            value: value.as_slice(),
            flags,
        };
        match self.ask(shard, ask) {
            Ok(code) => Ok(code),
            Err(full) => Err(full),
        }
    }

    fn delete(&mut self, map: u32, key: &Key) -> Result<i32, JournalFull> {
        let shard = self.shard_of(map, key);
        let ask = Deletes {
            key: key.as_slice(),
        };
        match self.ask(shard, ask) {
            Ok(code) => Ok(code),
            Err(full) => Err(full),
        }
    }
}

// What a worker asks of a shard: to enter, a call, to leave.

/// Enters the shard, if the worker is not inside. Refused where the journal is full for the Enter; then nothing is changed.
#[inline(always)]
fn enter(shard: &mut Shard, worker: u8) -> Result<(), JournalFull>
    requires { IsTrue (nat_lt worker shard.old.plan.workers) }
    ensures enters { OnOk result (IsTrue (can_enter worker shard.old)) }
    ensures entered { OnOk result (shard.new ≡ entered worker shard.old) }
    ensures legal { IsLegalJournal shard.old.plan shard.old.journal }
    ensures full { OnErr result (IsFalse (can_enter worker shard.old)) }
    ensures unchanged { OnErr result (shard.new ≡ shard.old) }
    ensures names_the_shard { IfErr result (λ fault. fault.shard ≡ shard.old.plan.number) }
{
    let _ = shard.plan();
    let _ = shard.journal();
    if shard.is_inside(worker) {
        return Ok(());
    }
    shard.enter(Caller::Worker { number: worker })
}

/// Makes the call for the worker, which enters first if it is not inside. Refused where the journal is full for the Enter or
/// for the call; it may have entered then.
#[inline(always)]
fn enter_and_ask<C: Ask>(shard: &mut Shard, worker: u8, ask: C) -> Result<C::Answer, JournalFull>
    requires { IsTrue (may_ask worker shard.old (C.asks ask shard.old.plan.number)) }
    ensures answered { IfOk result (λ answer. EntersAndCalls worker shard.old (C.asks ask shard.old.plan.number)
        (C.replies shard.old.plan.number answer) shard.new) }
    ensures turned_away { OnErr result (CannotEnterOrCall worker shard.old (C.asks ask shard.old.plan.number) shard.new) }
    ensures legal { IsLegalJournal shard.new.plan shard.new.journal }
    ensures names_the_shard { IfErr result (λ fault. fault.shard ≡ shard.old.plan.number) }
{
    match enter(shard, worker) {
        Ok(()) => ask.make(shard, Caller::Worker { number: worker }),
        Err(full) => Err(full),
    }
}

/// Makes the call for the worker at the shard of this number. Refused as at one shard, with the shard's number.
#[inline(always)]
fn ask_at<C: Ask>(
    shards: &mut PlainShards,
    worker: u8,
    number: u32,
    ask: C,
) -> Result<C::Answer, JournalFull>
    requires may { IsTrue (may_ask_at worker (slice_get shards.old number) (C.asks ask number)) }
    requires named { shard_of_call (C.asks ask number) ≡ number }
    ensures answered { IfOk result (λ answer. IsAnsweredAmong worker shards.old (C.asks ask number) (C.replies number answer) shards.new) }
    ensures turned_away { OnErr result (IsTurnedAwayAmong worker shards.old (C.asks ask number) shards.new) }
    ensures names_the_shard { IfErr result (λ fault. fault.shard ≡ number) }
{
    enter_and_ask(shards.shard(number), worker, ask)
}

/// Leaves the shard, if the worker is inside.
fn leave(shard: &mut Shard, worker: u8)
    requires { IsWorkerOf worker shard.old }
    ensures { shard.new ≡ left worker shard.old }
{
    let _ = shard.plan();
    if shard.is_inside(worker) {
        shard.leave(Caller::Worker { number: worker });
    }
}

/// Leaves all shards that the worker is inside of, the lowest number first.
fn leave_all(shards: &mut PlainShards, worker: u8)
    requires few { length shards.old ≤ 128 }
    requires worker { AllByRecursion (IsWorkerOf worker) shards.old }
    ensures { shards.new ≡ all_left worker shards.old }
{
    let count = shards.count() as u32;
    for number in 0..count {
        leave(shards.shard(number), worker);
    }
}
