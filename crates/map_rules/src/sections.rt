//! Who may call a shard, as anything knows it that knows who is inside and who holds which cell.

ghost use Rattle.std.specs.Prelude.{◌≡◌, ◌<◌, List};
ghost use Rattle.semantics.specs.declared.call.Entry.{Entry};
ghost use Rattle.semantics.specs.declared.plan.ShardPlan.{ShardPlan};
ghost use Rattle.semantics.specs.PlanLimits.{IsPlan};
ghost use Rattle.semantics.specs.Reclamation.{is_inside, holds};
ghost use Rattle.semantics.specs.History.{meets};
ghost use Rattle.map_rules.specs.Standings.{IsStanding};

use crate::conditions::{Standing, meets_with, worker_of};
use semantics::{Call, Caller, ShardPlan};

/// What knows of a shard which workers are inside, and which cells they hold. How it knows is its own concern: it may read a journal, or keep
/// what the entries said.
pub trait Sections {
    /// The plan that the shard was opened with.
    ghost opened_with: { Self → ShardPlan };

    /// The shard's history, the newest entry first.
    ghost history: { Self → List Entry };

    /// The plan that the shard was opened with.
    fn plan(&self) -> &ShardPlan
        ensures plan { result.now ≡ opened_with self.now }
        ensures limits { IsPlan (opened_with self.now) };

    /// Whether the worker is inside: it has an Enter with no later Leave.
    fn is_inside(&self, worker: u8) -> bool
        requires { worker < 8 }
        ensures { result ≡ is_inside worker (history self.now) };

    /// Whether the worker holds the cell of this id: since its last Enter, which no Leave follows, a Lookup of its own found it.
    fn holds(&self, worker: u8, cell: u64) -> bool
        requires { worker < 8 }
        ensures { result ≡ holds worker cell (history self.now) };
}

/// What is known of a caller before its call.
fn standing<S: Sections>(sections: &S, who: &Caller, call: &Call) -> Standing
    ensures { IsStanding (S.opened_with sections.now) (S.history sections.now) who.now call.now result }
{
    match worker_of(sections.plan(), who) {
        Some(worker) => Standing {
            is_inside: sections.is_inside(worker),
            is_holder: match call.cell() {
                Some(cell) => sections.holds(worker, cell.id),
                None => false,
            },
        },
        None => Standing {
            is_inside: false,
            is_holder: false,
        },
    }
}

/// Whether the caller may make this call on the shard now.
pub fn meets<S: Sections>(sections: &S, who: &Caller, call: &Call) -> bool
    ensures { result ≡ meets (S.opened_with sections.now) (S.history sections.now) who.now call.now }
{
    meets_with(sections.plan(), standing(sections, who, call), who, call)
}
