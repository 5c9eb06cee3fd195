//! Shards as they were opened, before they have names and callers.

ghost use Rattle.std.specs.Prelude.{◌≡◌, ◌≤◌, ◌<◌, ◌+◌, ◌↔◌, false, IfOk, OnOk, IsErrOf, IsFalse, length, replicate};
ghost use Rattle.semantics.specs.declared.options.Options.{Options};
ghost use Rattle.semantics.specs.ShardPlan.{AreOptions, AreServedOptions, are_served_options, recorded};
ghost use Rattle.shards.specs.Opening.{AreOpened};
ghost use Rattle.map_rules.specs.declared.open_fault.OpenFault.TheVariants.{BadOptions};
ghost use Rattle.semantics.specs.Each.{Each};
ghost use Rattle.shards.specs.NewShards.{AreUnused, shard_at, IsNewShardOf, IsNamed, IsNamedAt, HasAllSeats};
ghost use Rattle.shards.specs.HeldCells.{IsRoomOf};
ghost use Rattle.shards.specs.GuardedView.{keys};
ghost use Rattle.shards.specs.OrderRule.{AreShardPlaces};
ghost use Rattle.shards.specs.SharedMaps.{AreLocks};

use crate::dealer::Dealer;
use crate::naming::Naming;
use crate::new_shard::NewShard;
use crate::order::open_order;
use crate::order_rule::{Order, OrderPlace};
use crate::plain_shards::{PlainShards, copied};
use crate::rule::Lock;
use crate::shard_room::ShardRoom;
use crate::sharing::Shards;
use crate::waiting::Waiting;
use ebpf_decode::{Image, MapDef};
use map_rules::OpenFault;
use semantics::{Options, Recording, ShardPlan};
use shard_core::Shard;
use std::alloc::{AllocError, Global};
use std::marker::{Model, PhantomData};
use std::sync::Mutex;

/// The shards of an image's maps, in which nothing has happened. Contracts see the maps, the options, and of each shard its plan and the
/// name of its word.
#[derive(Drop)]
pub struct Opened {
    pub(crate) shards: Vec<NewShard>,
    pub(crate) maps: Vec<MapDef>,
    pub(crate) options: Options,
    /// The order of all deeds, and the callers' seats at it by their places.
    pub(crate) order: Order,
    pub(crate) places: Vec<OrderPlace>,
}

impl Model for Opened {
    ghost use Rattle.semantics.specs.Each.{Each};
    ghost use Rattle.shards.specs.NewShards.{OpenedShards, IsOpening};
    ghost use Rattle.shards.specs.OpenedOrders.{IsOpenedOrder};

    ghost Value = { OpenedShards };

    ghost view = { λ opened. record {
      maps = opened.maps.items;
      options = opened.options;
      shards = opened.shards.items;
      order = opened.order.shared.table_id;
    } };

    ghost invariant = { λ opened. IsOpening opened.maps.items opened.options opened.order.shared.table_id opened.shards.items
        × IsOpenedOrder opened.options opened.shards.items opened.order opened.places.items };
}

impl Opened {
    /// Opens the shards of the image's maps, with journals whose rows are kept. Takes all memory that they will ever need, but what `share`
    /// and `pass` say. Refused with 51 where the options are none that are served, and with 52 for lack of memory; then nothing is left.
    pub fn open(alloc: Global, image: &Image, options: Options) -> Result<Self, OpenFault>
        ensures maps { IfOk result (λ opened. opened.maps ≡ image.now.maps) }
        ensures options { IfOk result (λ opened. opened.options ≡ options) }
        ensures bad_options { IsErrOf result BadOptions ↔ IsFalse (are_served_options image.now.maps options) }
    {
        Opened::open_with(alloc, image, options, Recording::Rows)
    }

    /// Opens the shards with journals whose rows are kept or not. Without rows the room of a journal does not depend on the options, which
    /// are refused all the same.
    pub fn open_with(
        alloc: Global,
        image: &Image,
        options: Options,
        recording: Recording,
    ) -> Result<Self, OpenFault>
        ensures maps { IfOk result (λ opened. opened.maps ≡ image.now.maps) }
        ensures options { IfOk result (λ opened. opened.options ≡ recorded recording options) }
        ensures served { OnOk result (AreServedOptions image.now.maps options) }
        ensures bad_options { IsErrOf result BadOptions ↔ IsFalse (are_served_options image.now.maps options) }
    {
        let shards = PlainShards::open_with(alloc, image, options, recording)?.into_list();
        let options = options.recorded(recording);
        let maps = copied(alloc, image.maps())?;
        let callers = options.workers as usize + 2;
        let plans = plans_of(alloc, &shards)?;
        let (order, seats, places) = open_order(alloc, plans, callers)?;
        let shards = new_shards(alloc, &order, shards, seats, callers)?;
        Ok(Opened {
            shards,
            maps,
            options,
            order,
            places,
        })
    }

    /// Lets callers share the shards, under names that the program picks for them, with the right to deal the passes. Takes memory for
    /// the lists alone, and fails only for lack of it; then nothing is left.
    pub fn share<B: Naming>(self, alloc: Global) -> Result<(Shards<B>, Dealer<B>), AllocError>
        requires named { IsNamed B.count B.table B.plan B.order self }
        ensures maps { IfOk result (λ shared. shared.0 ≡ (record { maps = self.maps; options = self.options })) }
        ensures dealer { IfOk result (λ shared. shared.1 ≡ replicate (self.options.workers + 2) false) }
    {
        let Opened {
            shards,
            maps,
            options,
            order,
            places,
        } = self;
        let dealt = vec![in alloc; false; options.workers as usize + 2]?;
        let room = ShardRoom::of(alloc, shards.len())?;
        let (locks, rows, rooms) = parted::<B>(alloc, shards)?;
        let shards = Shards {
            locks,
            order,
            maps,
            options,
            room: Mutex::new(room),
            names: PhantomData,
        };
        let dealer = Dealer {
            rows,
            dealt,
            places,
            rooms,
            names: PhantomData,
        };
        Ok((shards, dealer))
    }

    /// How many shards there are.
    pub fn count(&self) -> usize
        ensures { result ≡ length self.now.shards }
    {
        self.shards.len()
    }
}

/// The plans of shards. Fails only for lack of memory.
fn plans_of(alloc: Global, shards: &[Shard]) -> Result<Vec<ShardPlan>, AllocError>
    ensures count { IfOk result (λ plans. length plans.items ≡ length shards.now) }
    ensures plans { IfOk result (λ plans. Each (λ number plan. plan ≡ (shard_at shards.now number).plan) 0 plans.items) }
{
    let mut plans = Vec::with_capacity(alloc, shards.len())?;
    'plans: for number in 0..shards.len() {
        plans.push_reserved(*shards[number].plan());
    }
    Ok(plans)
}

/// Each shard with a word, with its seat at the order, and with seats for `callers` callers.
fn new_shards(
    alloc: Global,
    order: &Order,
    mut shards: Vec<Shard>,
    mut places: Vec<OrderPlace>,
    callers: usize,
) -> Result<Vec<NewShard>, AllocError>
    requires unused { AreUnused shards.items }
    requires numbers { Each (λ number shard. shard.plan.number ≡ number) 0 shards.items }
    requires order { 0 < order.now.shared.table_id.words }
    requires places { (length places.items ≡ length shards.items) × AreShardPlaces order.now.shared.table_id places.items }
    ensures count { IfOk result (λ all. length all.items ≡ length shards.items) }
    ensures made { IfOk result (λ all. Each (IsNewShardOf shards.items order.now.shared.table_id callers) 0 all.items) }
{
    let count = shards.len();
    let mut all = Vec::with_capacity(alloc, count)?;
    'shards: for _number in 0..count {
        let shard = shards.remove(0);
        let place = places.remove(0);
        all.push_reserved(NewShard::of(alloc, order, shard, place, callers)?);
    }
    Ok(all)
}

/// The words with their shards, the lists of the seats that wait, and how many cells a worker can hold in each shard.
fn parted<B: Naming>(
    alloc: Global,
    mut shards: Vec<NewShard>,
) -> Result<(Vec<Lock>, Vec<Waiting>, Vec<usize>), AllocError>
    requires { Each (IsNamedAt B.table B.plan B.order) 0 shards.items }
    ensures locks { IfOk result (λ all. (length all.0.items ≡ length shards.items) × AreLocks B.table (keys B.plan B.order) all.0.items) }
    ensures rows { IfOk result
        (λ all. (length all.1.items ≡ length shards.items) × Each (HasAllSeats B.table (keys B.plan B.order) shards.items) 0 all.1.items) }
    ensures rooms { IfOk result (λ all. (length all.2.items ≡ length shards.items) × Each (IsRoomOf B.plan) 0 all.2.items) }
{
    let count = shards.len();
    let mut locks = Vec::with_capacity(alloc, count)?;
    let mut rows = Vec::with_capacity(alloc, count)?;
    let mut rooms = Vec::with_capacity(alloc, count)?;
    'shards: for _number in 0..count {
        let NewShard { lock, seats, room } = shards.remove(0);
        locks.push_reserved(lock);
        rows.push_reserved(Waiting::new(seats));
        rooms.push_reserved(room);
    }
    Ok((locks, rows, rooms))
}
