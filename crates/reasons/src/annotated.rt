//! A program with what is known before each instruction.

ghost use Rattle.std.specs.Prelude.{◌≡◌, ◌++◌, ◌<◌, ◌≤◌, string_bytes, IsOk, OnOk, IfOk, length};
ghost use Rattle.verifier.specs.Dataflow.{states_of};
ghost use Rattle.verifier.specs.Surveys.{IsSurvey};
ghost use Rattle.reasons.specs.Annotations.{indexed_text, register_place, set_item, register_item, word_place, is_any, word_item_text};
ghost use Rattle.reasons.specs.Annotations.{word_item};
ghost use Rattle.reasons.specs.Annotations.{known_items, state_lines, known_lines, entry_text, program_text};

use crate::instruction::put_slot_line;
use crate::reader::{Reason, put_reason};
use crate::wording::{put_kind, put_word};
use abstract_state::{Kind, STACK_SIZE, StackWord, State};
use ebpf_decode::{Image, Insn};
use std::alloc::{AllocError, Global};
use verifier::Survey;

/// What is known of a register, if it is set.
fn put_register_item(
    alloc: Global,
    out: &mut String,
    number: usize,
    kind: Kind,
) -> Result<(), AllocError>
    ensures { OnOk result (string_bytes out.new ≡ string_bytes out.old ++ register_item number kind) }
{
    match kind {
        Kind::Unset => Ok(()),
        _ => put_set_item(alloc, out, number, kind),
    }
}

#[tactic(auto, unfolding(crate::specs::Annotations::register_place))]
fn put_register_place(alloc: Global, out: &mut String, number: usize) -> Result<(), AllocError>
    ensures { OnOk result (string_bytes out.new ≡ string_bytes out.old ++ register_place number) }
{
    out.push_str(&format!(in alloc; " r{number} ")?)
}

fn put_set_item(
    alloc: Global,
    out: &mut String,
    number: usize,
    kind: Kind,
) -> Result<(), AllocError>
    ensures { OnOk result (string_bytes out.new ≡ string_bytes out.old ++ set_item number kind) }
{
    put_register_place(alloc, out, number)?;
    put_kind(alloc, out, kind)?;
    out.push_str(";")
}

/// What is known of the registers that are set.
fn put_register_items(alloc: Global, out: &mut String, kinds: &[Kind]) -> Result<(), AllocError>
    ensures { OnOk result (string_bytes out.new ≡ string_bytes out.old ++ indexed_text register_item 0 kinds.now) }
{
    for (number, kind) in kinds.iter().enumerate() {
        put_register_item(alloc, out, number, *kind)?;
    }
    Ok(())
}

/// Whether any byte was written.
fn is_any(set: &[bool]) -> bool
    ensures { result ≡ is_any set.now }
{
    for is_written in set {
        if *is_written {
            return true;
        }
    }
    false
}

/// Where a word of the stack lies.
#[tactic(auto, unfolding(crate::specs::Annotations::word_place))]
fn put_word_place(alloc: Global, out: &mut String, below: usize) -> Result<(), AllocError>
    ensures { OnOk result (string_bytes out.new ≡ string_bytes out.old ++ word_place below) }
{
    out.push_str(&format!(in alloc; " r10-{below} ")?)
}

fn put_word_text(
    alloc: Global,
    out: &mut String,
    word: usize,
    known: StackWord,
) -> Result<(), AllocError>
    requires { word < 64 }
    ensures { OnOk result (string_bytes out.new ≡ string_bytes out.old ++ word_item_text word known) }
{
    put_word_place(alloc, out, usize::from(STACK_SIZE) - 8 * word)?;
    put_word(alloc, out, known)?;
    out.push_str(";")
}

/// What is known of a word of the stack, if anything is.
fn put_word_item(
    alloc: Global,
    out: &mut String,
    word: usize,
    known: StackWord,
) -> Result<(), AllocError>
    requires { word < 64 }
    ensures { OnOk result (string_bytes out.new ≡ string_bytes out.old ++ word_item word known) }
{
    match known {
        StackWord::Spilled(_) => put_word_text(alloc, out, word, known),
        StackWord::Bytes(set) => {
            if is_any(&set) {
                put_word_text(alloc, out, word, known)
            } else {
                Ok(())
            }
        }
    }
}

/// What is known of each word of the stack, except those with nothing known.
fn put_word_items(alloc: Global, out: &mut String, words: &[StackWord]) -> Result<(), AllocError>
    requires { length words.now ≤ 64 }
    ensures { OnOk result (string_bytes out.new ≡ string_bytes out.old ++ indexed_text word_item 0 words.now) }
{
    for (word, known) in words.iter().enumerate() {
        put_word_item(alloc, out, word, *known)?;
    }
    Ok(())
}

/// All that is known.
fn put_items(alloc: Global, out: &mut String, state: &State) -> Result<(), AllocError>
    ensures { OnOk result (string_bytes out.new ≡ string_bytes out.old ++ known_items state.now) }
{
    put_register_items(alloc, out, &state.registers)?;
    put_word_items(alloc, out, &state.stack)
}

/// What is known before an instruction, and why it is no reader's.
fn put_state(alloc: Global, out: &mut String, insn: Insn, state: &State) -> Result<(), AllocError>
    ensures { OnOk result (string_bytes out.new ≡ string_bytes out.old ++ state_lines insn state.now) }
{
    out.push_str("    known:")?;
    put_items(alloc, out, state)?;
    out.push_str("\n")?;
    put_reason(alloc, out, Reason::of(state, insn))
}

/// The same where something is known.
fn put_known(
    alloc: Global,
    out: &mut String,
    insn: Insn,
    known: &Option<State>,
) -> Result<(), AllocError>
    ensures { OnOk result (string_bytes out.new ≡ string_bytes out.old ++ known_lines insn known.now) }
{
    match known {
        Some(state) => put_state(alloc, out, insn, state),
        None => Ok(()),
    }
}

/// An instruction with what is known before it.
fn put_entry(
    alloc: Global,
    out: &mut String,
    slot: u32,
    insn: Insn,
    known: &Option<State>,
) -> Result<(), AllocError>
    ensures { OnOk result (string_bytes out.new ≡ string_bytes out.old ++ entry_text slot insn known.now) }
{
    put_slot_line(alloc, out, slot, insn)?;
    put_known(alloc, out, insn, known)
}

/// A program that breaks no rule, with what is known before each instruction.
pub(crate) fn program_text(
    alloc: Global,
    image: &Image,
    survey: &Survey,
) -> Result<String, AllocError>
    requires survey { IsSurvey image.now.version image.now.maps image.now.code survey.now }
    requires accepted { IsOk survey.now.verdict }
    ensures { IfOk result
        (λ text. string_bytes text ≡ program_text (states_of image.now.version image.now.maps image.now.code) image.now.code) }
{
    let code = image.code();
    let mut out = String::new(alloc);
    let mut slot = 0;
    for (index, insn) in code.iter().enumerate() {
        put_entry(alloc, &mut out, slot, *insn, &survey.known[index])?;
        slot += insn.slot_count();
    }
    Ok(out)
}
