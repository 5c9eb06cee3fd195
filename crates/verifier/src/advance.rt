//! From what is known at a slot to what is known at the next.

ghost use Rattle.std.specs.Prelude.{◌≡◌, ◌<◌, ◌+◌, ℕ, Some, IsOk, IsTrue, IfOk, IfErr};
ghost use Rattle.abstract_state.specs.declared.flow.Flow.{Flow};
ghost use Rattle.abstract_state.specs.declared.state.State.{State};
ghost use Rattle.abstract_state.specs.Flow.{flow_of};
ghost use Rattle.abstract_state.specs.InPlace.{flow_by};
ghost use Rattle.ebpf_decode.specs.InstructionEncoding.{slot_count};
ghost use Rattle.image_shape.specs.Layouts.{HasNoNegativeTarget};
ghost use Rattle.verifier.specs.Dataflow.{arriving, arriving_from, is_target, joined_where, jumps};
ghost use Rattle.verifier.specs.Pending.{known_entry, pending_at};
ghost use Rattle.verifier.specs.Stops.{IsStop};

use crate::pending::{KnownHere, Pending};
use crate::reject::Reject;
use abstract_state::{Site, State, Way};
use ebpf_decode::{Insn, MapDef};
use std::alloc::{AllocError, Global};

/// Brings what is known after an instruction to where it jumps.
fn jump(
    alloc: Global,
    slot: usize,
    insn: Insn,
    pending: &mut Pending,
    state: &State,
) -> Result<(), AllocError>
    requires within { slot < 4096 }
    requires not_negative { HasNoNegativeTarget slot insn }
    ensures { IfOk result (λ _. (other : ℕ) →
        pending_at pending.new other ≡ joined_where (is_target slot insn other) state.now (pending_at pending.old other)) }
{
    if let Some(target) = insn.target(slot as u32) {
        pending.bring(alloc, target as usize, state)?;
    }
    Ok(())
}

/// The two edges of a conditional jump: what is known where it is taken is brought there, what is known where it isn't falls on.
#[inline(never)]
fn split(
    alloc: Global,
    slot: usize,
    insn: Insn,
    pending: &mut Pending,
    entry: &mut KnownHere,
) -> Result<(), AllocError>
    requires within { slot < 4096 }
    requires not_negative { HasNoNegativeTarget slot insn }
    ensures later { IfOk result (λ _. (target : ℕ) → slot + slot_count insn < target →
        pending_at pending.new target ≡ arriving slot insn target (flow_by insn Way.Splits entry.old.state)
        (pending_at pending.old target)) }
    ensures next { IfOk result (λ _.
        known_entry entry.new ≡ arriving slot insn (slot + slot_count insn) (flow_by insn Way.Splits entry.old.state)
        (pending_at pending.old (slot + slot_count insn))) }
{
    let mut taken = entry.state;
    taken.follow(insn, true);
    jump(alloc, slot, insn, pending, &taken)?;
    entry.state.follow(insn, false);
    pending.fall(slot + insn.slot_count() as usize, entry);
    Ok(())
}

/// Brings what is known after an instruction along its edges: memory is asked for only where one leads past the next instruction.
fn lead_on(
    alloc: Global,
    slot: usize,
    insn: Insn,
    way: Way,
    pending: &mut Pending,
    entry: &mut KnownHere,
) -> Result<(), AllocError>
    requires within { slot < 4096 }
    requires not_negative { HasNoNegativeTarget slot insn }
    ensures later { IfOk result (λ _. (target : ℕ) → slot + slot_count insn < target →
        pending_at pending.new target ≡ arriving slot insn target (flow_by insn way entry.old.state) (pending_at pending.old target)) }
    ensures next { IfOk result (λ _.
        known_entry entry.new ≡ arriving slot insn (slot + slot_count insn) (flow_by insn way entry.old.state)
        (pending_at pending.old (slot + slot_count insn))) }
    ensures asked { IfErr result (λ _. IsTrue (jumps (flow_by insn way entry.old.state))) }
{
    let next = slot + insn.slot_count() as usize;
    match way {
        Way::Ends => pending.land(next, entry),
        Way::Falls => pending.fall(next, entry),
        Way::Jumps => {
            jump(alloc, slot, insn, pending, &entry.state)?;
            pending.land(next, entry);
        }
        Way::Splits => split(alloc, slot, insn, pending, entry)?,
    }
    Ok(())
}

/// Looks at the instruction at a slot: from what is known there to what is known at the next. Refused with the rule that the instruction
/// breaks, or with 48 where it jumps and memory is refused.
pub(crate) fn advance(
    alloc: Global,
    maps: &[MapDef],
    slot: usize,
    insn: Insn,
    pending: &mut Pending,
    entry: &mut KnownHere,
) -> Result<(), Reject>
    requires within { slot < 4096 }
    requires not_negative { HasNoNegativeTarget slot insn }
    ensures later { IfOk result (λ _. (target : ℕ) → slot + slot_count insn < target →
        pending_at pending.new target ≡ arriving_from maps.now slot (Some insn) (known_entry entry.old) target
        (pending_at pending.old target)) }
    ensures next { IfOk result (λ _.
        known_entry entry.new ≡ arriving_from maps.now slot (Some insn) (known_entry entry.old) (slot + slot_count insn)
        (pending_at pending.old (slot + slot_count insn))) }
    ensures passes { IfOk result (λ _. (state : State) → known_entry entry.old ≡ Some state → IsOk (flow_of maps.now state slot insn)) }
    ensures stopped { IfErr result (IsStop maps.now slot insn (known_entry entry.old)) }
{
    if !entry.is_reached {
        pending.land(slot + insn.slot_count() as usize, entry);
        return Ok(());
    }
    let site = Site {
        maps,
        slot: slot as u16,
    };
    let way = match entry.state.step(site, insn) {
        Ok(way) => way,
        Err(why) => return Err(Reject::of_rule(slot as u32, why)),
    };
    match lead_on(alloc, slot, insn, way, pending, entry) {
        Ok(()) => Ok(()),
        Err(_) => Err(Reject::Memory),
    }
}
