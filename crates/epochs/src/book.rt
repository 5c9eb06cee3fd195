//! The book of epochs.

ghost use Rattle.std.specs.Prelude.{◌≡◌, ◌<◌, ◌≤◌, ◌+◌, ◌^◌, ◌==◌, ◌↔◌, ◌⊎◌, ℕ, [], length};
ghost use Rattle.epochs.specs.EpochCounts.{EpochCounts, runs_in, run_count, all_runs, AllEnteredAfter, one_at, part_at, runs_among};
ghost use Rattle.epochs.specs.EpochCounts.{IsFloor};

use crate::counts::EpochRuns;
use std::marker::Model;

/// The runs inside a shard, by the epoch in which each entered. Contracts see the present epoch and the counts.
#[derive(Drop)]
pub struct EpochBook {
    present: u64,
    parts: [EpochRuns; 8],
}

impl Model for EpochBook {
    ghost use Rattle.epochs.specs.EpochCounts.{EpochCounts, NoneAhead};

    ghost Value = { EpochCounts };

    ghost view = { λ book. record { present = book.present; parts = book.parts } };

    ghost invariant = { λ book. NoneAhead book.present book.parts };
}

impl EpochBook {
    /// A book with no run inside, in epoch 0. Takes no memory, and neither does any other call.
    pub fn new() -> Self
        ensures present { result.present ≡ 0 }
        ensures none { (epoch : ℕ) → runs_in result epoch ≡ 0 }
        ensures count { run_count result ≡ 0 }
    {
        let unused = EpochRuns { epoch: 0, runs: 0 };
        EpochBook {
            present: 0,
            parts: [unused; 8],
        }
    }

    /// Counts one more run, and returns its epoch: above every stamp so far.
    pub fn enter(&mut self) -> u64
        requires { run_count self.old < 8 }
        ensures epoch { result ≡ self.old.present }
        ensures present { self.new.present ≡ self.old.present }
        ensures runs { (epoch : ℕ) → runs_in self.new epoch ≡ runs_in self.old epoch + one_at result epoch }
        ensures count { run_count self.new ≡ run_count self.old + 1 }
    {
        let epoch = self.present;
        let at = part_for(&self.parts, epoch);
        let runs = self.parts[at].runs + 1;
        self.parts[at] = EpochRuns { epoch, runs };
        epoch
    }

    /// Counts one run less of this epoch.
    pub fn leave(&mut self, epoch: u64)
        requires { 0 < runs_in self.old epoch }
        ensures present { self.new.present ≡ self.old.present }
        ensures runs { (other : ℕ) → runs_in self.new other + one_at epoch other ≡ runs_in self.old other }
        ensures count { run_count self.new + 1 ≡ run_count self.old }
    {
        let at = part_of(&self.parts, epoch);
        let runs = self.parts[at].runs - 1;
        self.parts[at] = EpochRuns { epoch, runs };
    }

    /// The stamp of a retirement: every run inside entered before it, every later one will have entered after it. Each stamp is
    /// one above the last.
    pub fn stamp(&mut self) -> u64
        requires { self.old.present < 2 ^ 62 }
        ensures stamp { result ≡ self.old.present }
        ensures next { self.new ≡ record self.old { present = self.old.present + 1 } }
        ensures before { (epoch : ℕ) → 0 < runs_in self.new epoch → epoch ≤ result }
    {
        let stamp = self.present;
        self.present = stamp + 1;
        stamp
    }

    /// The oldest epoch in which a run inside entered, or the present one: a stamp that was given is below it exactly where every
    /// run inside entered after it.
    pub fn floor(&self) -> u64
        ensures exact { (stamp : ℕ) → stamp < self.now.present → (stamp < result ↔ AllEnteredAfter self.now stamp) }
        ensures at_most { result ≤ self.now.present }
    {
        lowest(&self.parts, self.present)
    }
}

/// The first part that is unused or counts this epoch.
fn part_for(parts: &[EpochRuns], epoch: u64) -> usize
    requires { all_runs parts.now < length parts.now }
    ensures within { result < length parts.now }
    ensures fits { ((part_at parts.now result).runs ≡ 0) ⊎ ((part_at parts.now result).epoch ≡ epoch) }
{
    for (at, part) in parts.iter().enumerate() {
        if part.runs == 0 || part.epoch == epoch {
            return at;
        }
    }
    unreachable!()
}

/// The first part that counts runs of this epoch.
fn part_of(parts: &[EpochRuns], epoch: u64) -> usize
    requires { 0 < runs_among epoch parts.now }
    ensures within { result < length parts.now }
    ensures some { 0 < (part_at parts.now result).runs }
    ensures epoch { (part_at parts.now result).epoch ≡ epoch }
{
    for (at, part) in parts.iter().enumerate() {
        if part.runs > 0 && part.epoch == epoch {
            return at;
        }
    }
    unreachable!()
}

/// The lowest epoch that has runs, and no more than the present one.
fn lowest(parts: &[EpochRuns], present: u64) -> u64
    ensures { IsFloor present parts.now (length parts.now) result }
{
    let mut floor = present;
    for part in parts {
        if part.runs > 0 && part.epoch < floor {
            floor = part.epoch;
        }
    }
    floor
}
