//! What is known where a sweep is, and what jumps brought to later slots. A state takes two kilobytes: each that is pending
//! is in a box, which is given back when its slot is reached.

ghost use Rattle.std.specs.Prelude.{◌≡◌, ◌==◌, ◌<◌, ◌≤◌, ◌+◌, ℕ, length, Some, IfOk};
ghost use Rattle.abstract_state.specs.States.{opening_state};
ghost use Rattle.verifier.specs.Dataflow.{join_known, joined_where};
ghost use Rattle.verifier.specs.Pending.{known_entry, unboxed, pending_at, AreKeptAbove};

use abstract_state::State;
use ebpf_decode::Version;
use std::alloc::{AllocError, Global};

/// What is known on entry to the instruction at which a sweep is: nothing where no path leads there.
#[derive(Clone, Copy)]
pub(crate) struct KnownHere {
    pub(crate) is_reached: bool,
    pub(crate) state: State,
}

impl KnownHere {
    /// What is known where a run begins.
    pub(crate) fn opening(version: Version) -> KnownHere
        ensures { known_entry result ≡ Some (opening_state version) }
    {
        KnownHere {
            is_reached: true,
            state: State::opening(version),
        }
    }
}

/// What jumps brought to slots that a sweep has not come to.
#[derive(Drop)]
pub(crate) struct Pending {
    /// By slot, as far as jumps have led.
    states: Vec<Option<Box<State>>>,
}

impl Pending {
    /// Nothing was brought anywhere. It takes no memory.
    pub(crate) fn new(alloc: Global) -> Pending
        ensures { (slot : ℕ) → pending_at result slot ≡ None }
    {
        Pending {
            states: Vec::new(alloc),
        }
    }

    /// Makes places up to a slot.
    fn extend_to(&mut self, slot: usize) -> Result<(), AllocError>
        ensures same { IfOk result (λ _. (other : ℕ) → pending_at self.new other ≡ pending_at self.old other) }
        ensures reached { IfOk result (λ _. slot < length self.new.states.items) }
    {
        'places: while self.states.len() <= slot {
            self.states.push(None)?;
        }
        Ok(())
    }

    /// One more edge leads to a slot: what it brings is joined to what others brought.
    #[inline(never)]
    pub(crate) fn bring(
        &mut self,
        alloc: Global,
        slot: usize,
        state: &State,
    ) -> Result<(), AllocError>
        ensures { IfOk result (λ _. (other : ℕ) →
            pending_at self.new other ≡ joined_where (other == slot) state.now (pending_at self.old other)) }
    {
        self.extend_to(slot)?;
        match &mut self.states[slot] {
            Some(known) => known.join_with(state),
            None => self.states[slot] = Some(Box::new(alloc, *state)?),
        }
        Ok(())
    }

    /// Takes out what was brought to a slot.
    fn take(&mut self, slot: usize) -> Option<Box<State>>
        ensures others { AreKeptAbove slot self.old self.new }
        ensures taken { unboxed result ≡ pending_at self.old slot }
    {
        match self.states.get_mut(slot) {
            Some(place) => place.take(),
            None => None,
        }
    }

    /// A run falls into a slot: what is known there is joined to what jumps brought.
    #[inline(never)]
    pub(crate) fn fall(&mut self, slot: usize, entry: &mut KnownHere)
        ensures others { AreKeptAbove slot self.old self.new }
        ensures fallen { known_entry entry.new ≡ join_known (pending_at self.old slot) entry.old.state }
    {
        match self.take(slot) {
            Some(mut known) => {
                known.join_with(&entry.state);
                entry.state = *known;
            }
            None => {}
        }
        entry.is_reached = true;
    }

    /// No run falls into a slot: what is known there is what jumps brought.
    #[inline(never)]
    pub(crate) fn land(&mut self, slot: usize, entry: &mut KnownHere)
        ensures others { AreKeptAbove slot self.old self.new }
        ensures landed { known_entry entry.new ≡ pending_at self.old slot }
    {
        match self.take(slot) {
            Some(known) => {
                entry.state = *known;
                entry.is_reached = true;
            }
            None => entry.is_reached = false,
        }
    }
}
