//! Laws of the definitions: each is the contract of a function that does nothing.

ghost use Rattle.block_runs.specs.PlanLaws.{StepsGoOn, CallsAreThePlans, ExitsEndThePlan, OutcomesGrow, EndedRunsNeedNoMore, PlansGoOn};

/// One instruction before a state from which a plan is done: it goes on to that state, makes the plan's call, or exits as the plan ends.
pub fn one_step_more()
    ensures goes_on { StepsGoOn }
    ensures calls { CallsAreThePlans }
    ensures exits { ExitsEndThePlan }
{}

/// More replies do not change what was done on the first of them: the calls are a beginning, and a run that is over stays as it is.
pub fn outcomes_grow()
    ensures beginning { OutcomesGrow }
    ensures ended { EndedRunsNeedNoMore }
    ensures in_two_parts { PlansGoOn }
{}
