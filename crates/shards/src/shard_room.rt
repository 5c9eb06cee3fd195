//! Room for the shards that `close` hands out in their journals.

ghost use Rattle.std.specs.Prelude.{◌≡◌, ◌≤◌, [], vec_capacity};

use crate::naming::Naming;
use shard_core::Shard;
use std::alloc::{AllocError, Global};
use std::marker::PhantomData;

/// An empty list with room for each shard. It is taken when the shards are opened, so that `close` takes no memory.
///
/// `Shards` keeps it in a `Mutex`, which no thread ever locks: a shard may be sent to another thread and not shared, and `Shards` is
/// shared.
#[derive(Drop)]
pub(crate) struct ShardRoom<B: Naming> {
    shards: Vec<Shard>,
    names: PhantomData<B>,
    ghost empty: { shards.items ≡ [] },
    ghost room: { B.count ≤ vec_capacity shards },
}

impl<B: Naming> ShardRoom<B> {
    /// Room for `count` shards. Fails only for lack of memory.
    pub(crate) fn of(alloc: Global, count: usize) -> Result<Self, AllocError>
        requires { B.count ≡ count }
    {
        Ok(ShardRoom {
            shards: Vec::with_capacity(alloc, count)?,
            names: PhantomData,
        })
    }

    /// The list.
    pub(crate) fn into_list(self) -> Vec<Shard>
        ensures empty { result.items ≡ [] }
        ensures room { B.count ≤ vec_capacity result }
    {
        self.shards
    }
}
