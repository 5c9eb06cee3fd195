//! The operands of an instruction, as the exact text writes them.

ghost use Rattle.std.specs.Prelude.{◌≡◌, ◌≤◌, IfOk, IfErr, Ok, map, length, string_bytes, List, ℕ, []};
ghost use Rattle.std.specs.Str.{trim};
ghost use Rattle.std.specs.Fmt.{decimal};
ghost use Rattle.semantics.specs.Linux.{helper_number};
ghost use Rattle.source_form.specs.SourceText.{parts_at, helper_named, helper_told, helper_meaning, plain_name, last_meaning};
ghost use Rattle.source_form.specs.SourceText.{early_meaning};
ghost use Rattle.source_form.specs.SourceText.{operands_meaning, instruction_meaning};
ghost use Rattle.source_form.specs.Told.{IsToldBy};

use crate::fault::{LineFault, Problem};
use crate::labels::target_text;
use crate::numbers::{immediate_text, number_text, wide_text};
use crate::words::{Form, begins_number, form_of};
use semantics::Helper;
use std::alloc::{AllocError, Global};

/// The name without `bpf_` in front.
fn plain_name(name: &str) -> &str
    ensures { result.now ≡ plain_name name.now }
{
    match name.strip_prefix("bpf_") {
        Some(plain) => plain,
        None => name,
    }
}

/// The helper that has a name.
fn helper_named(name: &str) -> Option<Helper>
    ensures { result ≡ helper_named name.now }
{
    if name == "map_lookup_elem" {
        return Some(Helper::MapLookupElem);
    }
    if name == "map_update_elem" {
        return Some(Helper::MapUpdateElem);
    }
    if name == "map_delete_elem" {
        return Some(Helper::MapDeleteElem);
    }
    if name == "ktime_get_ns" {
        return Some(Helper::KtimeGetNs);
    }
    if name == "get_smp_processor_id" {
        return Some(Helper::GetSmpProcessorId);
    }
    if name == "xdp_adjust_head" {
        Some(Helper::XdpAdjustHead)
    } else {
        None
    }
}

/// A helper's number in decimal.
fn helper_decimal(alloc: Global, helper: Helper) -> Result<String, AllocError>
    ensures { IfOk result (λ text. string_bytes text ≡ decimal (helper_number helper)) }
{
    let number = helper.number();
    format!(in alloc; "{number}")
}

/// The number of the helper that is called.
fn helper_text(alloc: Global, operand: &str) -> Result<String, LineFault>
    ensures ok { IfOk result (λ text. helper_meaning operand.now ≡ Ok (string_bytes text)) }
    ensures err { IfErr result (λ fault. IsToldBy (helper_meaning operand.now) fault) }
{
    if begins_number(operand) {
        return number_text(alloc, operand);
    }
    match helper_named(plain_name(operand)) {
        Some(helper) => Ok(helper_decimal(alloc, helper)?),
        None => Err(LineFault::Bad(Problem::UnknownHelper)),
    }
}

/// The last operand of an instruction on a line.
fn last_text(
    alloc: Global,
    statements: &[&str],
    place: usize,
    form: Form,
    operand: &str,
) -> Result<String, LineFault>
    requires { place ≤ length statements.now }
    ensures ok { IfOk result
        (λ text. last_meaning (map (λ line. line.now) statements.now) place form operand.now ≡ Ok (string_bytes text)) }
    ensures err { IfErr result (λ fault. IsToldBy (last_meaning (map (λ line. line.now) statements.now) place form operand.now) fault) }
{
    match form {
        Form::Plain => immediate_text(alloc, operand),
        Form::Jump => target_text(alloc, statements, place, operand),
        Form::Call => helper_text(alloc, operand),
        Form::Wide => wide_text(alloc, operand),
        Form::MapRow => number_text(alloc, operand),
    }
}

/// An operand before the last one.
fn early_text(alloc: Global, form: Form, operand: &str) -> Result<String, LineFault>
    ensures ok { IfOk result (λ text. early_meaning form operand.now ≡ Ok (string_bytes text)) }
    ensures err { IfErr result (λ fault. IsToldBy (early_meaning form operand.now) fault) }
{
    match form {
        Form::Jump => immediate_text(alloc, operand),
        Form::Plain | Form::Call | Form::Wide | Form::MapRow => number_text(alloc, operand),
    }
}

/// The operands of a list, behind what is there so far.
fn operands_text(
    alloc: Global,
    statements: &[&str],
    place: usize,
    form: Form,
    so_far: String,
    list: &str,
) -> Result<String, LineFault>
    requires { place ≤ length statements.now }
    ensures ok { IfOk result (λ text. operands_meaning (map (λ line. line.now) statements.now) place form (string_bytes so_far)
        (map trim (parts_at 44 list.now)) ≡ Ok (string_bytes text)) }
    ensures err { IfErr result (λ fault. IsToldBy (operands_meaning (map (λ line. line.now) statements.now) place form (string_bytes so_far)
        (map trim (parts_at 44 list.now))) fault) }
{
    let mut out = so_far;
    let mut rest = list;
    'operands: while let Some((operand, more)) = rest.split_once(',') {
        match early_text(alloc, form, operand.trim()) {
            Ok(text) => out.push_str(&text)?,
            Err(fault) => return Err(fault),
        }
        out.push_str(", ")?;
        rest = more;
    }
    match last_text(alloc, statements, place, form, rest.trim()) {
        Ok(text) => out.push_str(&text)?,
        Err(fault) => return Err(fault),
    }
    Ok(out)
}

/// A first word and its operands.
pub(crate) fn instruction_text(
    alloc: Global,
    statements: &[&str],
    place: usize,
    word: &str,
    list: &str,
) -> Result<String, LineFault>
    requires { place ≤ length statements.now }
    ensures ok { IfOk result
        (λ text. instruction_meaning (map (λ line. line.now) statements.now) place word.now list.now ≡ Ok (string_bytes text)) }
    ensures err { IfErr result
        (λ fault. IsToldBy (instruction_meaning (map (λ line. line.now) statements.now) place word.now list.now) fault) }
{
    let mut out = String::from_str(alloc, word)?;
    if list.is_empty() {
        return Ok(out);
    }
    out.push_str(" ")?;
    operands_text(alloc, statements, place, form_of(word), out, list)
}
