//! Which entry number was used least recently.

ghost use Rattle.std.specs.Prelude.{◌≡◌, ℕ, ◌<◌, ◌≤◌, ◌-◌, length, Some, nat_eq, IfSome, IfOk, slice_get};
ghost use Rattle.std.specs.Prelude.{option_map};
ghost use Rattle.std.specs.Map.Iter.{deref_pair};
ghost use Rattle.lru.specs.LruCache.{lru_cache, promoted, demoted, last_entry};
ghost use Rattle.lru_maps.specs.Recency.{IsByLastUse, IsLeastRecent, used_at, used, released, countdown, order_of, StaysByUse, StandOnce};

use lru::LruCache;
use std::alloc::{AllocError, Global};
use std::num::NonZeroUsize;

/// The entry numbers of a shard, the one that was used last standing first, and those that have no key behind the others. All of them
/// are there from the start, and are only moved: so no call but `new` takes memory, and the last number is free until all are taken,
/// and then the one that was used longest ago.
#[derive(Drop)]
pub struct Recency {
    cache: LruCache<u32, ()>,
}

impl Recency {
    /// All numbers below `capacity`, the highest first. Fails only for lack of memory.
    pub fn new(alloc: Global, capacity: u32) -> Result<Self, AllocError>
        requires { 0 < capacity }
        ensures { IfOk result (λ recency. order_of recency.cache.entries ≡ countdown capacity) }
    {
        let Some(room) = NonZeroUsize::new(capacity as usize) else {
            unreachable!()
        };
        let mut cache = LruCache::new(alloc, room)?;
        for number in 0..capacity {
            match cache.put(number, ()) {
                Ok(_) => {}
                Err(_) => return Err(AllocError),
            }
        }
        Ok(Recency { cache })
    }

    /// A use of the number, after all uses so far: it is first.
    pub fn touch(&mut self, number: u32)
        ensures order { order_of self.new.cache.entries ≡ used number (order_of self.old.cache.entries) }
        ensures by_use { StaysByUse number self.old.cache.entries self.new.cache.entries }
    {
        let _valid = self.cache.len();
        put_first(&mut self.cache, number);
    }

    /// The number has no key any more: it is last.
    pub fn release(&mut self, number: u32)
        ensures order { order_of self.new.cache.entries ≡ released number (order_of self.old.cache.entries) }
        ensures by_use { (last : ℕ → ℕ) → IsByLastUse last self.old.cache.entries →
            IsByLastUse (used_at last number 0) self.new.cache.entries }
    {
        let _valid = self.cache.len();
        put_last(&mut self.cache, number);
    }

    /// Does nothing: each number is there once.
    pub fn numbers_differ(&self)
        ensures { StandOnce (order_of self.now.cache.entries) }
    {
        let _valid = self.cache.len();
    }

    /// The last number: one with no key, or where each has one that whose last use is earliest.
    pub fn oldest(&self) -> Option<u32>
        ensures last { result ≡ slice_get (order_of self.now.cache.entries) (length self.now.cache.entries - 1) }
        ensures least { (last : ℕ → ℕ) → IsByLastUse last self.now.cache.entries →
            IfSome result (IsLeastRecent last self.now.cache.entries) }
    {
        match last_of(&self.cache) {
            Some((number, _)) => Some(*number),
            None => None,
        }
    }
}

/// Puts a number before all others.
fn put_first(cache: &mut LruCache<u32, ()>, number: u32)
    ensures { cache.new ≡ lru_cache (promoted (nat_eq number) cache.old.entries) cache.old.cap }
{
    cache.promote(&number);
}

/// Puts a number behind all others.
fn put_last(cache: &mut LruCache<u32, ()>, number: u32)
    ensures { cache.new ≡ lru_cache (demoted (nat_eq number) cache.old.entries) cache.old.cap }
{
    cache.demote(&number);
}

/// The number behind all others.
fn last_of(cache: &LruCache<u32, ()>) -> Option<(&u32, &())>
    ensures { option_map deref_pair result ≡ last_entry cache.now.entries }
{
    cache.peek_lru()
}
