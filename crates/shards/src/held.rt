//! The cells that a worker holds in a shard.

ghost use Rattle.std.specs.Prelude.{◌≡◌, ◌≤◌, ◌<◌, ℕ, [], true, IfOk, length};
ghost use Rattle.semantics.specs.PlanLimits.{IsPlan};
ghost use Rattle.semantics.specs.declared.call.Caller.{Caller};
ghost use Rattle.shard_core.specs.FewHeld.{is_among};
ghost use Rattle.shards.specs.HeldCells.{HasRoomFor, held_after, held_at, most_held, room_at, room_of};

use semantics::{Caller, HeldChange, ShardPlan};
use std::alloc::{AllocError, Global};
use std::marker::Model;

/// The cells that a worker found since it entered a shard, each once, in the order in which it found them first.
#[derive(Drop)]
pub(crate) struct HeldCells {
    ids: Vec<u64>,
    /// By an id's low bits, where in the list the last cell with these bits was put: a cell that is found again is mostly there.
    hints: [usize; 256],
}

impl Model for HeldCells {
    ghost use Rattle.std.specs.Prelude.{vec_capacity};
    ghost use Rattle.shards.specs.HeldCells.{HeldIds};

    ghost Value = { HeldIds };

    ghost view = { λ held. record { room = vec_capacity held.ids; ids = held.ids.items } };
}

impl HeldCells {
    /// No cells, and room for `room` of them. Fails only for lack of memory.
    pub(crate) fn with_room(alloc: Global, room: usize) -> Result<Self, AllocError>
        ensures room { IfOk result (λ held. room ≤ held.room) }
        ensures none { IfOk result (λ held. held.ids ≡ []) }
    {
        let ids = Vec::with_capacity(alloc, room)?;
        Ok(HeldCells {
            ids,
            hints: [0; 256],
        })
    }

    /// Notes what a call that was served makes of them.
    #[inline(always)]
    pub(crate) fn note(&mut self, change: HeldChange)
        requires { HasRoomFor change self.old }
        ensures { self.new ≡ held_after change self.old }
    {
        match change {
            HeldChange::LetsGo => self.ids.clear(),
            HeldChange::Finds { id } => {
                if !self.has(id) {
                    self.hints[(id % 256) as usize] = self.ids.len();
                    self.ids.push_reserved(id);
                }
            }
            HeldChange::Stays => {}
        }
    }

    /// Whether this cell is among them.
    #[inline(always)]
    pub(crate) fn has(&self, id: u64) -> bool
        ensures { result ≡ is_among id self.now.ids }
    {
        if self.ids.is_empty() {
            return false;
        }
        self.is_hinted(id) || self.ids.contains(&id)
    }

    /// Whether this cell is where its hint says; if not, it may be elsewhere.
    #[inline(always)]
    fn is_hinted(&self, id: u64) -> bool
        ensures { result ≡ true → is_among id self.now.ids ≡ true }
    {
        let place = self.hints[(id % 256) as usize];
        if place >= self.ids.len() {
            return false;
        }
        self.ids[place] == id
    }
}

/// How many cells the caller can hold in a shard, if a worker can hold `room`.
pub(crate) fn room_of(who: Caller, room: usize) -> usize
    ensures { result ≡ room_of who room }
{
    if who.worker().is_some() { room } else { 0 }
}

/// How many cells a worker can hold in a shard of this plan: two for each entry of the capacity.
pub(crate) fn most_held(plan: &ShardPlan) -> usize
    requires { IsPlan plan.now }
    ensures { result ≡ most_held plan.now }
{
    2 * plan.capacity() as usize
}

/// No cells of each shard, and the caller's room for as many as a worker can hold there. Fails only for lack of memory.
pub(crate) fn none_held(
    alloc: Global,
    who: Caller,
    rooms: &[usize],
) -> Result<Vec<HeldCells>, AllocError>
    ensures count { IfOk result (λ held. length held.items ≡ length rooms.now) }
    ensures none { IfOk result (λ held. (number : ℕ) → number < length rooms.now → (held_at held.items number).ids ≡ []) }
    ensures room { IfOk result (λ held. (number : ℕ) → number < length rooms.now →
        room_of who (room_at rooms.now number) ≤ (held_at held.items number).room) }
{
    let mut held = Vec::with_capacity(alloc, rooms.len())?;
    'lists: for number in 0..rooms.len() {
        let room = room_of(who, rooms[number]);
        held.push_reserved(HeldCells::with_room(alloc, room)?);
    }
    Ok(held)
}
