//! The shards of an exact replay, which one thread calls: a run, an update of the controller, a round of the reclaimer, each after the
//! other.

ghost use Rattle.std.specs.Prelude.{◌≡◌, ◌<◌, ◌≤◌, ◌↔◌, IsTrue, IfOk, OnOk, OnErr, IfErr, IsErrOf, IsFalse, length, slice_get};
ghost use Rattle.map_rules.specs.declared.open_fault.OpenFault.TheVariants.{BadOptions};
ghost use Rattle.semantics.specs.MachineState.{initial_state};
ghost use Rattle.semantics.specs.ShardPlan.{AreOptions, KeepsRows, are_served_options, recorded};
ghost use Rattle.journals.specs.JournalsView.{AreJournals};
ghost use Rattle.journals.specs.KeptEntries.{ArePlanned};
ghost use Rattle.machine.specs.Running.{program_of};
ghost use Rattle.shards.specs.NewShards.{shard_at};
ghost use Rattle.shards.specs.Opening.{AreOpened};
ghost use Rattle.semantics.specs.Replay.{is_keyed};
ghost use Rattle.replay.specs.InTurn.{EndsInTurn, StopsInTurn, IsAskedInTurn, IsPartOfRound, IsRoundTo};
ghost use Rattle.replay.specs.InTurn.{IsUpdatedAt, IsFullAt, may_update_at};

use actors::reclaimer::is_keyed;
use control::UpdatePort;
use ebpf_decode::MapDef;
use machine::{Exit, Moment, Stop, run};
use map_rules::conditions::shard_of_map;
use semantics::facts::bytes_have_8_bits;
use semantics::{Caller, JournalFull, Key, Options, Recording, UpdateFlags, Value};
use shard_core::Shard;
use shard_port::PlainPort;
use shard_port::laws::{calls_keep_serving, opened_serve, stays_one_port};
use shards::{OpenFault, PlainShards, copied, maps_of};
use std::alloc::Global;
use std::marker::Model;
use verifier::Verified;
use wire::Frame;

/// Makes one update at the shard of a number, as the controller.
fn update_at(
    shards: &mut PlainShards,
    number: u32,
    key: &Key,
    value: &Value,
) -> Result<i32, JournalFull>
    requires { IsTrue (may_update_at (slice_get shards.old number) key.now value.now) }
    ensures made { IfOk result (λ answer. IsUpdatedAt shards.old number key.now value.now answer shards.new) }
    ensures full { OnErr result (IsFullAt shards.old number key.now value.now) }
    ensures unchanged { OnErr result (shards.new ≡ shards.old) }
{
    let one = shards.shard(number);
    one.update(
        Caller::Controller,
        key.as_slice(),
        value.as_slice(),
        UpdateFlags::Any.number(),
    )
}

/// One Reclaim. One that a full journal refuses is passed over.
fn reclaim(one: &mut Shard)
    ensures { IsAskedInTurn one.old one.new }
{
    match one.reclaim(Caller::Reclaimer) {
        Ok(_freed) => {}
        Err(_full) => {}
    }
}

/// A shard's part of a round: cells of an array are not retired.
fn part_of_round(shards: &mut PlainShards, number: u32)
    requires { number < length shards.old }
    ensures { IsPartOfRound (is_keyed (shard_at shards.old number).plan.definition.kind) number shards.old shards.new }
{
    let one = shards.shard(number);
    if is_keyed(one.plan().definition.kind) {
        reclaim(one);
    }
}

/// A round over all shards.
fn round_over(shards: &mut PlainShards)
    requires { length shards.old ≤ 128 }
    ensures { IsRoundTo (length shards.old) shards.old shards.new }
{
    'shards: for number in 0..shards.count() as u32 {
        part_of_round(shards, number);
    }
}

/// The shards of an image's maps, for one thread. Contracts see the maps, the options, and each shard with its journal.
#[derive(Drop)]
pub(crate) struct TurnShards {
    shards: PlainShards,
    maps: Vec<MapDef>,
    options: Options,
}

impl Model for TurnShards {
    ghost use Rattle.replay.specs.InTurn.{TurnMaps, ServesTurns};

    ghost Value = { TurnMaps };

    ghost view = { λ all. record { maps = all.maps.items; options = all.options; shards = all.shards } };

    ghost invariant = { λ all. ServesTurns all.maps.items all.options all.shards };
}

impl TurnShards {
    ghost use Rattle.actors.specs.SharedUpdates.{HasUpdateOf, shard_of_map_key};

    /// The shards of an accepted image's maps, in which nothing has happened. Refused with 51 where none are opened with these options, and
    /// with 52 for lack of memory.
    pub(crate) fn open(
        alloc: Global,
        verified: &Verified,
        options: Options,
        recording: Recording,
    ) -> Result<TurnShards, OpenFault>
        ensures opened { IfOk result (λ all. AreOpened verified.now.maps (recorded recording options) all.shards) }
        ensures maps { IfOk result (λ all. all.maps ≡ verified.now.maps) }
        ensures options { IfOk result (λ all. all.options ≡ recorded recording options) }
        ensures served { OnOk result (KeepsRows options.journal) }
        ensures bad_options { IsErrOf result BadOptions ↔ IsFalse (are_served_options verified.now.maps options) }
    {
        verified.encodable();
        opened_serve();
        let image = verified.image();
        let shards = PlainShards::open_with(alloc, image, options, recording)?;
        let maps = copied(alloc, maps_of(image))?;
        Ok(TurnShards {
            shards,
            maps,
            options: options.recorded(recording),
        })
    }

    /// Runs the program of an accepted image with these maps on a frame, as the moment's worker, which leaves the shards in the end.
    pub(crate) fn run(
        &mut self,
        verified: &Verified,
        moment: &Moment,
        frame: &mut Frame,
    ) -> Result<Exit, Stop>
        requires maps { self.old.maps ≡ verified.now.maps }
        requires worker { moment.now.worker < 8 }
        requires among { moment.now.worker < self.old.options.workers }
        requires headroom { frame.old.headroom ≡ 256 }
        ensures exit { IfOk result (λ exit. EndsInTurn (program_of verified.now self.old.options.shards)
            (initial_state frame.old moment.now.worker moment.now.now_ns) moment.now.worker
            self.old.shards self.new.shards exit.verdict exit.steps frame.new) }
        ensures stop { IfErr result (StopsInTurn (program_of verified.now self.old.options.shards)
            (initial_state frame.old moment.now.worker moment.now.now_ns) moment.now.worker self.old.shards self.new.shards frame.new) }
        ensures maps { self.new.maps ≡ self.old.maps }
        ensures options { self.new.options ≡ self.old.options }
    {
        stays_one_port();
        let mut port = PlainPort::over(
            verified.image(),
            self.options,
            &mut self.shards,
            moment.worker,
        );
        let ended = run(verified, frame, moment, &mut port);
        port.finish();
        ended
    }

    /// A round of the reclaimer.
    pub(crate) fn round(&mut self)
        ensures round { IsRoundTo (length self.old.shards) self.old.shards self.new.shards }
        ensures maps { self.new.maps ≡ self.old.maps }
        ensures options { self.new.options ≡ self.old.options }
    {
        calls_keep_serving();
        round_over(&mut self.shards);
    }

    /// How many workers there are.
    pub(crate) fn workers(&self) -> usize
        ensures workers { result ≡ self.now.options.workers }
        ensures some { 0 < self.now.options.workers }
        ensures few { self.now.options.workers ≤ 8 }
    {
        self.options.workers as usize
    }

    /// The options that they were opened with.
    pub(crate) fn options(&self) -> Options
        ensures options { result ≡ self.now.options }
        ensures fit { AreOptions self.now.maps self.now.options }
    {
        self.options
    }

    /// The number of the shard of a map's key.
    fn shard_of(&self, map: u32, key: &Key) -> u32
        requires { HasUpdateOf self.now.maps map key.now }
        ensures { result ≡ shard_of_map_key self.now.maps self.now.options map key.now }
    {
        shard_of_map(&self.maps, self.options.shards, map, key)
    }

    /// The shards, the maps and the options.
    pub(crate) fn into_parts(self) -> (PlainShards, Vec<MapDef>, Options)
        ensures shards { result.0 ≡ self.shards }
        ensures maps { result.1.items ≡ self.maps }
        ensures options { result.2 ≡ self.options }
        ensures are { AreJournals result.1.items result.2 (length result.0) }
        ensures planned { ArePlanned result.1.items result.2 result.0 }
    {
        let TurnShards {
            shards,
            maps,
            options,
        } = self;
        (shards, maps, options)
    }
}

/// The controller's port over them: an update is one Update, with the flags ANY, of the shard that the key has.
impl UpdatePort for TurnShards {
    ghost use Rattle.replay.specs.InTurn.{IsUpdatedInTurn, IsTurnedAwayInTurn};
    ghost use Rattle.replay.specs.TurnLaws.{array_takes_in_turn, refused_keeps};

    ghost serves = { λ all. all.maps };

    ghost gives = { IsUpdatedInTurn };

    ghost refuses = { IsTurnedAwayInTurn };

    ghost keeps = { λ before after update answer updated. updated.same_maps };

    ghost stays = { λ before after update refused. refused_keeps before update after refused };

    ghost arrays_answer = { λ before after update answer stands updated. array_takes_in_turn before update answer after stands updated };

    fn update(&mut self, map: u32, key: &Key, value: &Value) -> Result<i32, JournalFull> {
        calls_keep_serving();
        bytes_have_8_bits(key.as_slice());
        bytes_have_8_bits(value.as_slice());
        let number = self.shard_of(map, key);
        update_at(&mut self.shards, number, key, value)
    }
}
