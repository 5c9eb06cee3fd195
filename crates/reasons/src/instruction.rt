//! An instruction in words, with what is known of the registers and the words of the stack that it uses.

ghost use Rattle.std.specs.Prelude.{◌≡◌, ◌++◌, ◌<◌, ◌≤◌, ◌+◌, ◌^◌, string_bytes, OnOk, IfSome};
ghost use Rattle.std.specs.List.{flat_map};
ghost use Rattle.abstract_state.specs.States.{word_of};
ghost use Rattle.reasons.specs.Instructions.{slot_line, register_line, used_line, used_registers, called_registers, compared_register};
ghost use Rattle.reasons.specs.Instructions.{register_of_source};
ghost use Rattle.reasons.specs.Instructions.{word_head, word_line, place_word, stack_word, stack_word_text, words_text, stack_range_text};
ghost use Rattle.reasons.specs.Instructions.{called_map, sizes_read, argument_text, arguments_text, touched_text, used_text};

use crate::cause::{Access, access_of};
use crate::wording::{put_kind, put_word};
use abstract_state::{Kind, STACK_SIZE, StackWord, State};
use disasm::line;
use ebpf_decode::{Insn, MapDef};
use isa::{AluOp, AtomicOp, Register, SourceOperand};
use semantics::Helper;
use std::alloc::{AllocError, Global};

/// The registers that an instruction reads, at most four.
type Used = [Option<Register>; 4];

/// The line of an instruction, with its slot.
pub(crate) fn put_slot_line(
    alloc: Global,
    out: &mut String,
    slot: u32,
    insn: Insn,
) -> Result<(), AllocError>
    ensures { OnOk result (string_bytes out.new ≡ string_bytes out.old ++ slot_line slot insn) }
{
    let text = line(alloc, insn)?;
    out.push_str(&format!(in alloc; "  slot {slot}: ")?)?;
    out.push_str(&text)?;
    out.push_str("\n")
}

/// The line of a register.
fn put_register_line(
    alloc: Global,
    out: &mut String,
    state: &State,
    register: Register,
) -> Result<(), AllocError>
    ensures { OnOk result (string_bytes out.new ≡ string_bytes out.old ++ register_line state.now register) }
{
    let number = register.number();
    out.push_str(&format!(in alloc; "  r{number}: ")?)?;
    put_kind(alloc, out, state.kind(register))?;
    out.push_str("\n")
}

/// The same of a register that may be none.
fn put_used_line(
    alloc: Global,
    out: &mut String,
    state: &State,
    used: Option<Register>,
) -> Result<(), AllocError>
    ensures { OnOk result (string_bytes out.new ≡ string_bytes out.old ++ used_line state.now used) }
{
    match used {
        Some(register) => put_register_line(alloc, out, state, register),
        None => Ok(()),
    }
}

/// The register of a source.
fn source_register(source: SourceOperand) -> Option<Register>
    ensures { result ≡ register_of_source source }
{
    match source {
        SourceOperand::Imm(_) => None,
        SourceOperand::Reg(register) => Some(register),
    }
}

/// The registers that a helper reads.
fn called_registers(helper: Option<Helper>) -> Used
    ensures { result ≡ called_registers helper }
{
    let [r1, r2, r3, r4] = [Register::R1, Register::R2, Register::R3, Register::R4];
    match helper {
        Some(Helper::MapLookupElem | Helper::MapDeleteElem | Helper::XdpAdjustHead) => {
            [Some(r1), Some(r2), None, None]
        }
        Some(Helper::MapUpdateElem) => [Some(r1), Some(r2), Some(r3), Some(r4)],
        _ => [None; 4],
    }
}

/// The register with which an atomic operation compares what it finds, if it does.
fn compared_register(op: AtomicOp) -> Option<Register>
    ensures { result ≡ compared_register op }
{
    if op.compares() {
        Some(Register::R0)
    } else {
        None
    }
}

/// The registers that an instruction reads.
#[rattlefmt::skip]
fn used_registers(insn: Insn) -> Used
    ensures { result ≡ used_registers insn }
{
    match insn {
        Insn::Alu { op: AluOp::Mov, source, .. } => [source_register(source), None, None, None],
        Insn::Alu { dst, source, .. } | Insn::JumpIf { dst, source, .. } => [Some(dst), source_register(source), None, None],
        Insn::Neg { dst, .. } | Insn::End { dst, .. } | Insn::St { dst, .. } => [Some(dst), None, None, None],
        Insn::Movsx { src, .. } | Insn::Movsx32 { src, .. } | Insn::Ldx { src, .. } | Insn::Ldxs { src, .. } => {
            [Some(src), None, None, None]
        }
        Insn::Stx { dst, src, .. } => [Some(dst), Some(src), None, None],
        Insn::AtomicUpdate { op, dst, src, .. } => [Some(dst), Some(src), compared_register(op), None],
        Insn::CallHelper { helper } => called_registers(Helper::of(helper)),
        Insn::Exit => [Some(Register::R0), None, None, None],
        _ => [None; 4],
    }
}

/// The lines of the registers that an instruction reads.
fn put_registers(
    alloc: Global,
    out: &mut String,
    state: &State,
    used: &[Option<Register>],
) -> Result<(), AllocError>
    ensures { OnOk result (string_bytes out.new ≡ string_bytes out.old ++ flat_map (used_line state.now) used.now) }
{
    for one in used {
        put_used_line(alloc, out, state, *one)?;
    }
    Ok(())
}

/// The word of the stack that has this place.
fn place_word(at: i64) -> Option<usize>
    ensures value { result ≡ place_word at }
    ensures inside { IfSome result (λ word. word < 64) }
{
    if 0 <= at && at < i64::from(STACK_SIZE) {
        Some(at as usize / 8)
    } else {
        None
    }
}

/// The word of the stack that an instruction touches.
fn stack_word(access: Option<Access>) -> Option<usize>
    ensures value { result ≡ stack_word access }
    ensures inside { IfSome result (λ word. word < 64) }
{
    match access {
        Some(
            Access {
                base: Kind::Stack(place),
                offset,
                ..
            },
        ) => place_word(i64::from(place) + i64::from(offset)),
        _ => None,
    }
}

/// What is known of a word of the stack.
pub(crate) fn word_at(state: &State, word: usize) -> StackWord
    requires { word < 64 }
    ensures { result ≡ word_of state.now word }
{
    state.stack[word]
}

/// Where a word of the stack lies.
#[tactic(auto, unfolding(crate::specs::Instructions::word_head))]
fn put_word_head(alloc: Global, out: &mut String, below: usize) -> Result<(), AllocError>
    ensures { OnOk result (string_bytes out.new ≡ string_bytes out.old ++ word_head below) }
{
    out.push_str(&format!(in alloc; "  stack r10-{below}: ")?)
}

/// The line of a word of the stack.
fn put_word_line(
    alloc: Global,
    out: &mut String,
    state: &State,
    word: usize,
) -> Result<(), AllocError>
    requires { word < 64 }
    ensures { OnOk result (string_bytes out.new ≡ string_bytes out.old ++ word_line state.now word) }
{
    put_word_head(alloc, out, usize::from(STACK_SIZE) - 8 * word)?;
    put_word(alloc, out, word_at(state, word))?;
    out.push_str("\n")
}

/// The line of the word of the stack that an instruction touches, if it touches one.
fn put_stack_word(
    alloc: Global,
    out: &mut String,
    state: &State,
    access: Option<Access>,
) -> Result<(), AllocError>
    ensures { OnOk result (string_bytes out.new ≡ string_bytes out.old ++ stack_word_text state.now access) }
{
    match stack_word(access) {
        Some(word) => put_word_line(alloc, out, state, word),
        None => Ok(()),
    }
}

/// The lines of this many words of the stack, from one on.
#[tactic(auto, unfolding(crate::specs::Instructions::words_text))]
fn put_words(
    alloc: Global,
    out: &mut String,
    state: &State,
    first: usize,
    count: usize,
) -> Result<(), AllocError>
    requires { first + count ≤ 64 }
    ensures { OnOk result (string_bytes out.new ≡ string_bytes out.old ++ words_text state.now first count) }
{
    if count == 0 {
        return Ok(());
    }
    put_word_line(alloc, out, state, first)?;
    put_words(alloc, out, state, first + 1, count - 1)
}

/// The lines of the words that have this many bytes of the stack, where these lie inside it.
#[tactic(auto, unfolding(crate::specs::Instructions::stack_range_text))]
fn put_stack_range(
    alloc: Global,
    out: &mut String,
    state: &State,
    place: usize,
    size: usize,
) -> Result<(), AllocError>
    requires few { size < 2 ^ 32 }
    requires near { place < 2 ^ 16 }
    ensures { OnOk result (string_bytes out.new ≡ string_bytes out.old ++ stack_range_text state.now place size) }
{
    if size == 0 {
        return Ok(());
    }
    if place + size <= usize::from(STACK_SIZE) {
        put_words(
            alloc,
            out,
            state,
            place / 8,
            (place + size + 7) / 8 - place / 8,
        )
    } else {
        Ok(())
    }
}

/// The lines of the words to which an argument of a call points.
fn put_argument(
    alloc: Global,
    out: &mut String,
    state: &State,
    kind: Kind,
    size: u32,
) -> Result<(), AllocError>
    ensures { OnOk result (string_bytes out.new ≡ string_bytes out.old ++ argument_text state.now kind size) }
{
    match kind {
        Kind::Stack(place) => put_stack_range(alloc, out, state, place as usize, size as usize),
        _ => Ok(()),
    }
}

/// The definition of the map in R1.
fn called_map(maps: &[MapDef], kind: Kind) -> Option<MapDef>
    ensures { result ≡ called_map maps.now kind }
{
    match kind {
        Kind::Map(map) => match maps.get(map as usize) {
            Some(definition) => Some(*definition),
            None => None,
        },
        _ => None,
    }
}

/// How many bytes of the stack a helper reads for a key and for a value.
#[rattlefmt::skip]
fn sizes_read(helper: Option<Helper>, definition: Option<MapDef>) -> (u32, u32)
    ensures { result ≡ sizes_read helper definition }
{
    match (definition, helper) {
        (Some(definition), Some(Helper::MapLookupElem)) => (definition.key_size, 0),
        (Some(definition), Some(Helper::MapUpdateElem)) => (definition.key_size, definition.value_size),
        (Some(definition), Some(Helper::MapDeleteElem)) => (definition.key_size, 0),
        _ => (0, 0),
    }
}

/// The lines of the words that a call reads for its key and its value.
fn put_arguments(
    alloc: Global,
    out: &mut String,
    maps: &[MapDef],
    state: &State,
    helper: Option<Helper>,
) -> Result<(), AllocError>
    ensures { OnOk result (string_bytes out.new ≡ string_bytes out.old ++ arguments_text maps.now state.now helper) }
{
    let (key, value) = sizes_read(helper, called_map(maps, state.kind(Register::R1)));
    put_argument(alloc, out, state, state.kind(Register::R2), key)?;
    put_argument(alloc, out, state, state.kind(Register::R3), value)
}

/// The lines of the words of the stack that an instruction touches.
fn put_stack_words(
    alloc: Global,
    out: &mut String,
    maps: &[MapDef],
    state: &State,
    insn: Insn,
) -> Result<(), AllocError>
    ensures { OnOk result (string_bytes out.new ≡ string_bytes out.old ++ touched_text maps.now state.now insn) }
{
    match insn {
        Insn::CallHelper { helper } => put_arguments(alloc, out, maps, state, Helper::of(helper)),
        _ => put_stack_word(alloc, out, state, access_of(state, insn)),
    }
}

/// What is known of the registers that an instruction reads, and of the words of the stack that it touches.
pub(crate) fn put_used(
    alloc: Global,
    out: &mut String,
    maps: &[MapDef],
    state: &State,
    insn: Insn,
) -> Result<(), AllocError>
    ensures { OnOk result (string_bytes out.new ≡ string_bytes out.old ++ used_text maps.now state.now insn) }
{
    put_registers(alloc, out, state, &used_registers(insn))?;
    put_stack_words(alloc, out, maps, state, insn)
}
