//! What holds of the steering rule as a plan, as contracts of functions that do nothing.

ghost use Rattle.conntrack.specs.SteeringLaws.{PlanFollowsRule, AsksForTheService, FinishedRunsAreResults, FlowsStick};
ghost use Rattle.conntrack.specs.SteeringLaws.{UncountedRunsAreNoResults, StoringRunsAreNoResults};

/// The plan of reading chooses by the rule that `choose` follows, for every frame and all records; it looks the service up under the key
/// of the frame's flow.
pub fn reads_follow_the_rule()
    ensures rule { PlanFollowsRule }
    ensures service { AsksForTheService }
{}

/// A run of the plan that is over is a result of the rule: verdict, frame, one note at most, the count last, and no lookup of the flows
/// too many.
pub fn finished_runs_are_results()
    ensures { FinishedRunsAreResults }
{}

/// A flow stays with its backend: each of its runs that gets past the guards of a tracked service, finds the note, and finds the noted
/// backend up, sends the frame to that backend and leaves the note as it is.
pub fn flows_stick()
    ensures { FlowsStick }
{}

/// The definition of a result refuses wrong counts: a run that counts nothing where it drops, and one that counts by a Load and a Store.
pub fn wrong_counts_are_no_results()
    ensures uncounted { UncountedRunsAreNoResults }
    ensures storing { StoringRunsAreNoResults }
{}
