//! Laws of the definitions: each is the contract of a function that does nothing.

ghost use Rattle.verifier.specs.Answers.{HasOneAnswer, FirstRejectIsOne, RuleBeforeJumpsIsTold, EachInstructionHasState, AcceptedIsSafe};

/// A program that some entry states let through can be rejected only for lack of memory: so `verify` returns `Ok` exactly for these, where
/// there is memory.
pub fn one_answer()
    ensures { HasOneAnswer }
{}

/// A refused program has one first reject, unless memory is refused.
pub fn first_reject_is_one()
    ensures { FirstRejectIsOne }
{}

/// A rule that is broken before the first jump is returned, whatever memory there is: no memory is asked for before.
pub fn rule_before_jumps_is_told()
    ensures { RuleBeforeJumpsIsTold }
{}

/// Each instruction of a program that some entry states let through has one of them: so the checks, and `is_reader`, pass none over.
pub fn each_instruction_has_state()
    ensures { EachInstructionHasState }
{}

/// A program that some entry states let through is safe: so a `Verified` represents a safe image.
pub fn accepted_is_safe()
    ensures { AcceptedIsSafe }
{}
