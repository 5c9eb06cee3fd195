//! What is kept of a sweep.

ghost use Rattle.std.specs.Prelude.{◌≡◌, ◌++◌, ◌∷◌, [], IfOk};
ghost use Rattle.verifier.specs.Pending.{known_entry};

use crate::pending::KnownHere;
use abstract_state::State;
use std::alloc::{AllocError, Global};

/// Keeps what a sweep knows on entry to the instructions that it comes to.
pub(crate) trait Keeper {
    ghost use Rattle.std.specs.Prelude.{◌++◌, ◌∷◌, [], List, Option};
    ghost use Rattle.abstract_state.specs.declared.state.State.{State};
    ghost use Rattle.verifier.specs.Pending.{known_entry};

    /// Whether it keeps these, in order.
    ghost keeps: { Self → List (Option State) → Type 0 };

    /// Keeps what is known on entry to the next instruction.
    fn keep(&mut self, entry: &KnownHere)
        ensures { (before : List (Option State)) → keeps self.old before → keeps self.new (before ++ known_entry entry.now ∷ []) };
}

/// Keeps nothing.
#[derive(Drop)]
pub(crate) struct KeepsNothing;

impl Keeper for KeepsNothing {
    ghost keeps = { λ _ _. Unit {0} };

    fn keep(&mut self, _entry: &KnownHere) {}
}

/// Keeps all, unless memory is refused.
#[derive(Drop)]
pub(crate) struct KeepsAll {
    pub(crate) known: Vec<Option<State>>,
    pub(crate) is_refused: bool,
}

impl KeepsAll {
    /// Nothing so far.
    pub(crate) fn new(alloc: Global) -> KeepsAll
        ensures { result.known.items ≡ [] }
    {
        KeepsAll {
            known: Vec::new(alloc),
            is_refused: false,
        }
    }
}

impl Keeper for KeepsAll {
    ghost use Rattle.std.specs.Prelude.{◌≡◌, false};

    ghost keeps = { λ keeper known. keeper.is_refused ≡ false → keeper.known.items ≡ known };

    fn keep(&mut self, entry: &KnownHere) {
        if note(&mut self.known, entry).is_err() {
            self.is_refused = true;
        }
    }
}

impl KnownHere {
    /// What is known.
    fn known(&self) -> Option<State>
        ensures { result ≡ known_entry self.now }
    {
        if self.is_reached {
            Some(self.state)
        } else {
            None
        }
    }
}

/// Puts what is known on entry to an instruction behind the others.
fn note(known: &mut Vec<Option<State>>, entry: &KnownHere) -> Result<(), AllocError>
    ensures { IfOk result (λ _. known.new.items ≡ known.old.items ++ known_entry entry.now ∷ []) }
{
    known.extend_from_slice(&[entry.known()])
}
