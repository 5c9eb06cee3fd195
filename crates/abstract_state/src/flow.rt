//! Where an instruction leads, and what is known there.

use crate::state::State;

/// What is known after an instruction, on each of its edges.
#[derive(Clone, Copy)]
pub enum Flow {
    /// The run ends.
    Ends,
    /// It goes on at the next instruction.
    Falls(State),
    /// It goes on this many slots after the next one.
    Jumps(State),
    /// A conditional jump: what is known where it is taken, and where the run goes on at the next instruction.
    Splits { taken: State, fallen: State },
}

/// Where a run goes on after an instruction.
#[derive(Clone, Copy, Debug, PartialEq, Eq)]
pub enum Way {
    /// The run ends.
    Ends,
    /// At the next instruction.
    Falls,
    /// This many slots after the next one.
    Jumps,
    /// At either: a conditional jump.
    Splits,
}
