//! Runs inside, counted by the epoch in which they entered.

/// How many runs are inside that entered in one epoch. A part with no runs is unused.
#[derive(Clone, Copy, Debug, PartialEq, Eq)]
pub struct EpochRuns {
    /// The epoch in which they entered.
    pub epoch: u64,
    /// How many.
    pub runs: u64,
}
