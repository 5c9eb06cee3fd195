//! Why a program is refused: the instruction, what is known of what it uses, the rule and the remedy.

ghost use Rattle.std.specs.Prelude.{◌≡◌, ◌++◌, string_bytes, IfOk, OnOk};
ghost use Rattle.semantics.specs.Program.{instruction_at};
ghost use Rattle.verifier.specs.Rejects.{reject_slot};
ghost use Rattle.reasons.specs.Advices.{IsAdvised};
ghost use Rattle.reasons.specs.Causes.{cause_of_structure};
ghost use Rattle.reasons.specs.Explanations.{begun_line, begun_at, broken_lines};

use crate::cause::Cause;
use crate::instruction::{put_slot_line, put_used};
use abstract_state::State;
use ebpf_decode::{Insn, MapDef};
use std::alloc::{AllocError, Global};
use verifier::Reject;

/// The instruction that begins at a slot.
fn instruction_at(code: &[Insn], slot: u32) -> Option<Insn>
    ensures { result ≡ instruction_at code.now slot }
{
    let wanted = u64::from(slot);
    let mut at = 0;
    for insn in code {
        if at == wanted {
            return Some(*insn);
        }
        let next = at + u64::from(insn.slot_count());
        if wanted < next {
            return None;
        }
        at = next;
    }
    None
}

/// The line of an instruction that may be none.
fn put_begun(
    alloc: Global,
    out: &mut String,
    slot: u32,
    insn: Option<Insn>,
) -> Result<(), AllocError>
    ensures { OnOk result (string_bytes out.new ≡ string_bytes out.old ++ begun_line slot insn) }
{
    match insn {
        Some(insn) => put_slot_line(alloc, out, slot, insn),
        None => Ok(()),
    }
}

/// The line of the instruction at a slot, if one is named and an instruction begins there.
fn put_begun_at(
    alloc: Global,
    out: &mut String,
    code: &[Insn],
    slot: Option<u32>,
) -> Result<(), AllocError>
    ensures { OnOk result (string_bytes out.new ≡ string_bytes out.old ++ begun_at code.now slot) }
{
    match slot {
        Some(slot) => put_begun(alloc, out, slot, instruction_at(code, slot)),
        None => Ok(()),
    }
}

/// What is printed of a program without structure.
pub(crate) fn structure_text(
    alloc: Global,
    code: &[Insn],
    reject: Reject,
) -> Result<String, AllocError>
    ensures { IfOk result
        (λ text. IsAdvised (begun_at code.now (reject_slot reject)) (cause_of_structure reject) (string_bytes text)) }
{
    let mut out = String::new(alloc);
    put_begun_at(alloc, &mut out, code, reject.slot())?;
    Cause::of_structure(reject).put(alloc, &mut out)?;
    Ok(out)
}

/// What is printed of an instruction that breaks a rule.
pub(crate) fn broken_text(
    alloc: Global,
    maps: &[MapDef],
    slot: u32,
    insn: Insn,
    state: &State,
    cause: Cause,
) -> Result<String, AllocError>
    ensures { IfOk result (λ text. IsAdvised (broken_lines maps.now slot insn state.now) cause (string_bytes text)) }
{
    let mut out = String::new(alloc);
    put_slot_line(alloc, &mut out, slot, insn)?;
    put_used(alloc, &mut out, maps, state, insn)?;
    cause.put(alloc, &mut out)?;
    Ok(out)
}
