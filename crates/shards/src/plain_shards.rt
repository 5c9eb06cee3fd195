//! The shards of all maps.

ghost use Rattle.std.specs.Prelude.{◌≡◌, ◌<◌, ◌≤◌, ◌↔◌, Some, IfOk, OnOk, IsErrOf, IsFalse, length, slice_get};
ghost use Rattle.std.specs.Borrow.{sem};
ghost use Rattle.std.specs.List.{AllByRecursion};
ghost use Rattle.semantics.specs.PlanLimits.{HasImageSizes};
ghost use Rattle.semantics.specs.ShardPlan.{AreOptions, AreServedOptions, are_served_options, recorded};
ghost use Rattle.shards.specs.Opening.{AreOpened};
ghost use Rattle.map_rules.specs.declared.open_fault.OpenFault.TheVariants.{BadOptions};

use crate::plain_opening::open_each;
use ebpf_decode::{Image, MapDef};
use map_rules::OpenFault;
use semantics::{Options, Recording};
use shard_core::Shard;
use std::alloc::{AllocError, Global};
use std::marker::Model;

/// The shards of an image's maps, by their numbers: map after map. Contracts see the list of them.
#[derive(Drop)]
pub struct PlainShards {
    pub(crate) shards: Vec<Shard>,
}

impl Model for PlainShards {
    ghost use Rattle.std.specs.Prelude.{List};
    ghost use Rattle.shard_core.specs.JournaledShard.{JournaledShard};

    ghost Value = { List JournaledShard };

    ghost view = { λ all. all.shards.items };
}

impl PlainShards {
    ghost use Rattle.shards.specs.Lending.{LendsShard};

    /// The shards of the image's maps, in which nothing has happened, with journals whose rows are kept. Takes all memory that they will
    /// ever need. Refused with 51 where the maps can't be opened with these options, and with 52 without memory.
    pub fn open(alloc: Global, image: &Image, options: Options) -> Result<Self, OpenFault>
        ensures opened { IfOk result (λ shards. AreOpened image.now.maps options shards) }
        ensures options { OnOk result (AreServedOptions image.now.maps options) }
        ensures bad_options { IsErrOf result BadOptions ↔ IsFalse (are_served_options image.now.maps options) }
    {
        PlainShards::open_with(alloc, image, options, Recording::Rows)
    }

    /// Opens the shards with journals whose rows are kept or not. Without rows the room of a journal does not depend on the options, which
    /// are refused all the same.
    pub fn open_with(
        alloc: Global,
        image: &Image,
        options: Options,
        recording: Recording,
    ) -> Result<Self, OpenFault>
        ensures opened { IfOk result (λ shards. AreOpened image.now.maps (recorded recording options) shards) }
        ensures options { OnOk result (AreServedOptions image.now.maps options) }
        ensures fit { OnOk result (AreOptions image.now.maps (recorded recording options)) }
        ensures bad_options { IsErrOf result BadOptions ↔ IsFalse (are_served_options image.now.maps options) }
    {
        let maps = maps_of(image);
        if !options.fit(maps) {
            return Err(OpenFault::BadOptions);
        }
        let shards = open_each(alloc, maps, &options.recorded(recording))?;
        Ok(PlainShards { shards })
    }

    /// How many shards there are.
    pub fn count(&self) -> usize
        ensures { result ≡ length self.now }
    {
        self.shards.len()
    }

    /// The shard of a number, to be called.
    pub fn shard(&mut self, number: u32) -> &mut Shard
        requires { number < length self.old }
        ensures value { slice_get self.old number ≡ Some result.now }
        ensures* writes_back { sem 𝓛 (LendsShard self.entry number result) }
    {
        &mut self.shards[number as usize]
    }

    /// The shards by their numbers, for a caller that shares them.
    pub fn into_list(self) -> Vec<Shard>
        ensures { result.items ≡ self }
    {
        let PlainShards { shards } = self;
        shards
    }
}

/// The maps of an image, whose sizes its format allows.
pub fn maps_of(image: &Image) -> &[MapDef]
    ensures maps { result.now ≡ image.now.maps }
    ensures few { length image.now.maps ≤ 16 }
    ensures sizes { AllByRecursion HasImageSizes image.now.maps }
{
    image.maps()
}

/// A copy of the list of maps, for who keeps the maps beside their shards. Fails only for lack of memory.
pub fn copied(alloc: Global, maps: &[MapDef]) -> Result<Vec<MapDef>, AllocError>
    ensures { IfOk result (λ copy. copy.items ≡ maps.now) }
{
    let mut copy = Vec::with_capacity(alloc, maps.len())?;
    copy.extend_from_slice(maps)?;
    Ok(copy)
}
