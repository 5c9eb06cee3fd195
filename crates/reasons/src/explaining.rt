//! What is printed of a program.

ghost use Rattle.std.specs.Prelude.{◌≡◌, ◌<◌, ◌+◌, Some, Err, length, string_bytes, IfOk};
ghost use Rattle.abstract_state.specs.Flow.{flow_of};
ghost use Rattle.verifier.specs.Surveys.{IsSurvey};
ghost use Rattle.reasons.specs.Explanations.{broken_in, IsCause, IsExplanation, IsRefusedAt};

use crate::annotated::program_text;
use crate::cause::Cause;
use crate::origin::origin_of;
use crate::refused::{broken_text, structure_text};
use abstract_state::{BrokenRule, Site, State};
use ebpf_decode::{Image, Insn, MapDef};
use std::alloc::{AllocError, Global};
use verifier::{Reject, Survey};

/// Of a program that the verifier refuses: the instruction that breaks a rule, what is known of the registers and the words of the stack
/// that it uses, the rule, and the usual remedy. Of one that it accepts: each instruction with what is known before it, and why the program
/// is no reader. Each line begins with two spaces. All is made from what a sweep of the program kept. It can fail only for lack of memory.
pub fn explain(alloc: Global, image: &Image, survey: &Survey) -> Result<String, AllocError>
    requires { IsSurvey image.now.version image.now.maps image.now.code survey.now }
    ensures { IfOk result (λ text. IsExplanation image.now.version image.now.maps image.now.code (string_bytes text)) }
{
    match survey.verdict {
        Ok(_) => program_text(alloc, image, survey),
        Err(reject) => {
            if survey.known.is_empty() {
                structure_text(alloc, image.code(), reject)
            } else {
                explain_last(alloc, image, survey, reject)
            }
        }
    }
}

/// Of a program that is refused for the last instruction that the sweep came to.
fn explain_last(
    alloc: Global,
    image: &Image,
    survey: &Survey,
    reject: Reject,
) -> Result<String, AllocError>
    requires survey { IsSurvey image.now.version image.now.maps image.now.code survey.now }
    requires refused { survey.now.verdict ≡ Err reject }
    requires some { 0 < length survey.now.known.items }
    ensures { IfOk result (λ text. IsExplanation image.now.version image.now.maps image.now.code (string_bytes text)) }
{
    let last = survey.known.len() - 1;
    explain_at(alloc, image, survey, reject, last)
}

/// The same, by the index of that instruction.
fn explain_at(
    alloc: Global,
    image: &Image,
    survey: &Survey,
    reject: Reject,
    last: usize,
) -> Result<String, AllocError>
    requires survey { IsSurvey image.now.version image.now.maps image.now.code survey.now }
    requires refused { survey.now.verdict ≡ Err reject }
    requires size { length survey.now.known.items ≡ last + 1 }
    requires inside { last < length image.now.code }
    ensures { IfOk result (λ text. IsExplanation image.now.version image.now.maps image.now.code (string_bytes text)) }
{
    let insn = image.code()[last];
    match (reject.slot(), &survey.known[last]) {
        (Some(slot), Some(state)) => explain_rule(alloc, image, survey, slot, insn, state),
        _ => unreachable!(),
    }
}

/// Of a program whose instruction at a slot breaks a rule in this state.
fn explain_rule(
    alloc: Global,
    image: &Image,
    survey: &Survey,
    slot: u32,
    insn: Insn,
    state: &State,
) -> Result<String, AllocError>
    requires survey { IsSurvey image.now.version image.now.maps image.now.code survey.now }
    requires refused { IsRefusedAt image.now.version image.now.maps image.now.code survey.now slot insn state.now }
    ensures { IfOk result (λ text. IsExplanation image.now.version image.now.maps image.now.code (string_bytes text)) }
{
    let maps = image.maps();
    match rule_at(maps, slot, insn, state) {
        Some(why) => {
            let cause = cause_in(image, survey, slot, insn, state, why);
            broken_text(alloc, maps, slot, insn, state, cause)
        }
        None => unreachable!(),
    }
}

/// The rule that an instruction breaks in a state, if it breaks one.
fn rule_at(maps: &[MapDef], slot: u32, insn: Insn, state: &State) -> Option<BrokenRule>
    requires { slot < 4096 }
    ensures { result ≡ broken_in (flow_of maps.now state.now slot insn) }
{
    let site = Site {
        maps,
        slot: slot as u16,
    };
    let mut after = *state;
    match after.step(site, insn) {
        Ok(_) => None,
        Err(why) => Some(why),
    }
}

/// Why an instruction breaks a rule.
fn cause_in(
    image: &Image,
    survey: &Survey,
    slot: u32,
    insn: Insn,
    state: &State,
    why: BrokenRule,
) -> Cause
    requires survey { IsSurvey image.now.version image.now.maps image.now.code survey.now }
    requires refused { IsRefusedAt image.now.version image.now.maps image.now.code survey.now slot insn state.now }
    requires breaks { flow_of image.now.maps state.now slot insn ≡ Err why }
    ensures { IsCause image.now.version image.now.maps image.now.code slot insn state.now why result }
{
    match why {
        BrokenRule::UnsetRegister(register) => origin_of(image, survey, slot, register),
        _ => Cause::of(image.maps(), state, insn, why),
    }
}
