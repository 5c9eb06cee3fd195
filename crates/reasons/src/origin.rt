//! Why a register is unset where it is read: nothing was written to it, an instruction left it so, or the paths that meet somewhere
//! disagree.

ghost use Rattle.std.specs.Prelude.{◌≡◌, ◌<◌, IfSome, IsTrue, None, length};
ghost use Rattle.ebpf_decode.specs.InstructionEncoding.{total_slots};
ghost use Rattle.abstract_state.specs.InPlace.{flow_by};
ghost use Rattle.verifier.specs.Dataflow.{is_at, is_target, is_next, joined_where, arriving, arriving_from};
ghost use Rattle.verifier.specs.Surveys.{slot_of_index, IsSurvey};
ghost use Rattle.reasons.specs.Origins.{brought_by, brought_from, is_unset, disagree, is_sought, is_call, cleared_by, along};
ghost use Rattle.reasons.specs.Origins.{IsArrival, Brings, NoneBrings, IsUnsetAt, LooksBack, IsOrigin, CoversBefore};

use crate::cause::Cause;
use abstract_state::{Kind, Site, State, Way};
use ebpf_decode::{Image, Insn, MapDef, Version};
use isa::Register;
use verifier::Survey;

/// What the edges of an instruction bring of a register to a slot.
#[derive(Clone, Copy)]
pub struct Arrival {
    /// The slot of the instruction.
    pub from: u32,
    pub insn: Insn,
    /// What is known of the register before the instruction.
    pub before: Kind,
    /// And where its edges arrive.
    pub after: Kind,
}

/// What a look back from a slot finds.
#[derive(Clone, Copy)]
pub enum Back {
    /// Why the register is unset there.
    Found(Cause),
    /// It was unset before the instruction at this slot too.
    Further(u32),
}

/// Whether a jump goes to a slot.
fn is_at(place: Option<i64>, target: u32) -> bool
    ensures { result ≡ is_at place target }
{
    match place {
        Some(place) => i64::from(target) == place,
        None => false,
    }
}

/// Whether the instruction jumps there.
fn is_target(slot: u32, insn: Insn, target: u32) -> bool
    ensures { result ≡ is_target slot insn target }
{
    is_at(insn.target(slot), target)
}

/// Whether the next instruction begins there.
fn is_next(slot: u32, insn: Insn, target: u32) -> bool
    ensures { result ≡ is_next slot insn target }
{
    u64::from(target) == u64::from(slot) + u64::from(insn.slot_count())
}

/// What is known where one more edge leads, or doesn't.
fn joined_where(leads: bool, state: State, known: Option<State>) -> Option<State>
    ensures { result ≡ joined_where leads state known }
{
    if !leads {
        return known;
    }
    match known {
        Some(known) => Some(known.join(&state)),
        None => Some(state),
    }
}

/// What the two edges of a conditional jump bring to a slot.
fn split_to(slot: u32, insn: Insn, state: &State, target: u32) -> Option<State>
    ensures { result ≡ arriving slot insn target (flow_by insn Way.Splits state.now) None }
{
    let mut taken = *state;
    taken.follow(insn, true);
    let mut fallen = *state;
    fallen.follow(insn, false);
    let arrived = joined_where(is_target(slot, insn, target), taken, None);
    joined_where(is_next(slot, insn, target), fallen, arrived)
}

/// What the edges of an instruction bring to a slot, from what is known before it.
fn brought_by(maps: &[MapDef], slot: u32, insn: Insn, state: &State, target: u32) -> Option<State>
    requires { slot < 4096 }
    ensures { result ≡ brought_by maps.now slot insn state.now target }
{
    let site = Site {
        maps,
        slot: slot as u16,
    };
    let mut after = *state;
    match after.step(site, insn) {
        Ok(Way::Falls) => {
            if is_next(slot, insn, target) {
                Some(after)
            } else {
                None
            }
        }
        Ok(Way::Jumps) => {
            if is_target(slot, insn, target) {
                Some(after)
            } else {
                None
            }
        }
        Ok(Way::Splits) => split_to(slot, insn, &after, target),
        Ok(Way::Ends) | Err(_) => None,
    }
}

/// Whether nothing is known.
fn is_unset(kind: Kind) -> bool
    ensures { result ≡ is_unset kind }
{
    matches!(kind, Kind::Unset)
}

/// Whether two kinds, at least one of them known, leave nothing known.
fn disagree(version: Version, one: Kind, other: Kind) -> bool
    ensures { result ≡ disagree version one other }
{
    match one {
        Kind::Unset => !is_unset(other),
        _ => is_unset(one.join(version, other)),
    }
}

/// Whether a kind disagrees with another, if one is given.
fn is_sought(version: Version, unlike: Option<Kind>, kind: Kind) -> bool
    ensures { result ≡ is_sought version unlike kind }
{
    match unlike {
        Some(other) => disagree(version, other, kind),
        None => true,
    }
}

/// Whether the instruction is a call.
fn is_call(insn: Insn) -> bool
    ensures { result ≡ is_call insn }
{
    matches!(insn, Insn::CallHelper { .. })
}

/// What an instruction brings of a register to a slot.
fn arrival_of(
    maps: &[MapDef],
    slot: u32,
    insn: Insn,
    known: &Option<State>,
    target: u32,
    register: Register,
) -> Option<Arrival>
    requires { slot < 4096 }
    ensures arrives { IfSome result (IsArrival maps.now slot insn known.now target register) }
    ensures none { result ≡ None → arriving_from maps.now slot (Some insn) known.now target None ≡ None }
{
    match known {
        Some(state) => match brought_by(maps, slot, insn, state, target) {
            Some(after) => Some(Arrival {
                from: slot,
                insn,
                before: state.kind(register),
                after: after.kind(register),
            }),
            None => None,
        },
        None => None,
    }
}

/// What the instruction of an index brings of a register to a slot.
fn arrival_at(
    image: &Image,
    survey: &Survey,
    index: usize,
    slot: u32,
    target: u32,
    register: Register,
) -> Option<Arrival>
    requires survey { IsSurvey image.now.version image.now.maps image.now.code survey.now }
    requires inside { index < length image.now.code }
    requires known { index < length survey.now.known.items }
    requires at { slot ≡ slot_of_index image.now.code index }
    ensures brings { IfSome result (Brings image.now.version image.now.maps image.now.code target register) }
    ensures from { IfSome result (λ arrival. arrival.from ≡ slot) }
    ensures none { result ≡ None → brought_from image.now.version image.now.maps image.now.code slot target ≡ None }
{
    let insn = image.code()[index];
    arrival_of(
        image.maps(),
        slot,
        insn,
        &survey.known[index],
        target,
        register,
    )
}

/// What the first instruction before a slot brings of a register there that brings what is sought.
fn find_arrival(
    image: &Image,
    survey: &Survey,
    target: u32,
    register: Register,
    unlike: Option<Kind>,
) -> Option<Arrival>
    requires survey { IsSurvey image.now.version image.now.maps image.now.code survey.now }
    requires covers { CoversBefore image.now.code survey.now target }
    ensures brings { IfSome result (Brings image.now.version image.now.maps image.now.code target register) }
    ensures sought { IfSome result (λ arrival. IsTrue (is_sought image.now.version unlike arrival.after)) }
    ensures before { IfSome result (λ arrival. arrival.from < target) }
    ensures none { result ≡ None → NoneBrings image.now.version image.now.maps image.now.code target register unlike }
{
    let version = image.version();
    let mut slot = 0;
    for (index, insn) in image.code().iter().enumerate() {
        if slot >= target {
            return None;
        }
        match arrival_at(image, survey, index, slot, target, register) {
            Some(arrival) => {
                if is_sought(version, unlike, arrival.after) {
                    return Some(arrival);
                }
            }
            None => {}
        }
        slot += insn.slot_count();
    }
    None
}

/// What to say of an instruction that leaves a register unset.
fn cleared_by(arrival: Arrival) -> Cause
    ensures { result ≡ cleared_by arrival }
{
    if is_call(arrival.insn) {
        Cause::ClearedByCall { slot: arrival.from }
    } else {
        Cause::LeftUnset { slot: arrival.from }
    }
}

/// What to say of an edge that brings the register unset.
fn along(arrival: Arrival) -> Back
    ensures { result ≡ along arrival }
{
    if is_unset(arrival.before) {
        Back::Further(arrival.from)
    } else {
        Back::Found(cleared_by(arrival))
    }
}

/// Two edges that disagree.
fn disagreement(at: u32, one: Arrival, other: Arrival) -> Cause
    ensures { result ≡ Cause.PathsDisagree at one.from one.after other.from other.after }
{
    Cause::PathsDisagree {
        slot: at,
        first: one.from,
        one: one.after,
        second: other.from,
        other: other.after,
    }
}

/// Looks at the edges that lead to a slot at which the register is unset.
fn look_back(image: &Image, survey: &Survey, at: u32, register: Register) -> Back
    requires survey { IsSurvey image.now.version image.now.maps image.now.code survey.now }
    requires covers { CoversBefore image.now.code survey.now at }
    requires unset { IsUnsetAt image.now.version image.now.maps image.now.code register at }
    requires past_start { 0 < at }
    requires inside { at < total_slots image.now.code }
    ensures { LooksBack image.now.version image.now.maps image.now.code register at result }
{
    let one = match find_arrival(image, survey, at, register, None) {
        Some(one) => one,
        None => unreachable!(),
    };
    match find_arrival(image, survey, at, register, Some(one.after)) {
        Some(other) => Back::Found(disagreement(at, one, other)),
        None => along(one),
    }
}

/// Why a register is unset at a slot.
pub(crate) fn origin_of(image: &Image, survey: &Survey, slot: u32, register: Register) -> Cause
    requires survey { IsSurvey image.now.version image.now.maps image.now.code survey.now }
    requires covers { CoversBefore image.now.code survey.now slot }
    requires unset { IsUnsetAt image.now.version image.now.maps image.now.code register slot }
    requires inside { slot < total_slots image.now.code }
    ensures { IsOrigin image.now.version image.now.maps image.now.code register slot result }
{
    let mut at = slot;
    'back: while at > 0 {
        match look_back(image, survey, at, register) {
            Back::Found(cause) => return cause,
            Back::Further(from) => at = from,
        }
    }
    Cause::NeverWritten
}
