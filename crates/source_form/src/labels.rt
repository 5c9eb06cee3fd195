//! Labels, and the distances to them.

ghost use Rattle.std.specs.Prelude.{◌≡◌, ◌≤◌, ◌<◌, ◌+◌, ◌*◌, ◌^◌, IfOk, IfErr, Ok, map, length, string_bytes, List, ℕ};
ghost use Rattle.disasm.specs.AssemblyText.{with_sign};
ghost use Rattle.source_form.specs.SourceText.{slots_of_word, slots_of, slot_of_line, distance, target_told, target_meaning};
ghost use Rattle.source_form.specs.SourceText.{is_label_of, label_place, is_name, label_told, label_meaning, front_meaning};
ghost use Rattle.source_form.specs.Told.{IsToldBy, label_answer};

use crate::fault::{LineFault, Problem};
use crate::numbers::number_text;
use crate::words::{
    begins_number, first_word, has_text, is_heading, is_name, label_of, names_map, words_of,
};
use std::alloc::{AllocError, Global};

fn slots_of_word(word: &str) -> u128
    ensures slots { result ≡ slots_of_word word.now }
    ensures few { result ≤ 2 }
{
    if is_heading(word) {
        return 0;
    }
    if word == "lddw" || names_map(word) {
        2
    } else {
        1
    }
}

/// The slots that a statement takes.
pub(crate) fn slots_of(statement: &str) -> u128
    ensures slots { result ≡ slots_of statement.now }
    ensures few { result ≤ 2 }
{
    if has_text(statement) {
        slots_of_word(first_word(words_of(statement)))
    } else {
        0
    }
}

/// The slot of the first instruction from a line on.
fn slot_at(statements: &[&str], place: usize) -> u128
    requires inside { place ≤ length statements.now }
    ensures small { result ≤ 2 * place }
    ensures slot { result ≡ slot_of_line (map (λ line. line.now) statements.now) place }
{
    let mut slot: u128 = 0;
    let mut line = 0;
    'lines: while line < place {
        slot += slots_of(statements[line]);
        line += 1;
    }
    slot
}

fn is_label_of(name: &str, statement: &str) -> bool
    ensures { result ≡ is_label_of name.now statement.now }
{
    match label_of(statement) {
        Some(label) => label == name,
        None => false,
    }
}

/// The first line that has the label of this name.
fn label_place(statements: &[&str], name: &str) -> Option<usize>
    ensures { result ≡ label_place (map (λ line. line.now) statements.now) name.now }
{
    statements.iter().position(|line| is_label_of(name, *line))
}

/// How far a jump in one slot goes to another.
fn distance_text(alloc: Global, target: u128, slot: u128) -> Result<String, AllocError>
    requires { slot < 2 ^ 127 }
    ensures { IfOk result (λ text. string_bytes text ≡ with_sign (distance target slot)) }
{
    if slot < target {
        format!(in alloc; "+{}", target - (slot + 1))
    } else {
        format!(in alloc; "-{}", slot - target + 1)
    }
}

/// The distance from the jump on one line to a label, or a distance as it is.
pub(crate) fn target_text(
    alloc: Global,
    statements: &[&str],
    place: usize,
    operand: &str,
) -> Result<String, LineFault>
    requires { place ≤ length statements.now }
    ensures ok { IfOk result (λ text. target_meaning (map (λ line. line.now) statements.now) place operand.now ≡ Ok (string_bytes text)) }
    ensures err { IfErr result (λ fault. IsToldBy (target_meaning (map (λ line. line.now) statements.now) place operand.now) fault) }
{
    if begins_number(operand) {
        return number_text(alloc, operand);
    }
    match label_place(statements, operand) {
        Some(target) => Ok(distance_text(
            alloc,
            slot_at(statements, target),
            slot_at(statements, place),
        )?),
        None => Err(LineFault::Bad(Problem::UnknownLabel)),
    }
}

/// Whether a label may be on a line: its name is one, and no earlier line has it.
fn label_problem(statements: &[&str], place: usize, name: &str) -> Option<Problem>
    ensures { (label_meaning (map (λ line. line.now) statements.now) place name.now) ≡ label_answer result }
{
    if !is_name(name) {
        return Some(Problem::NoLabelName);
    }
    match label_place(statements, name) {
        Some(first) => {
            if first == place {
                None
            } else {
                Some(Problem::LabelTwice)
            }
        }
        None => None,
    }
}

/// What is wrong with the label of the line at a place, if it has one.
pub(crate) fn front_problem(statements: &[&str], place: usize, statement: &str) -> Option<Problem>
    ensures { (front_meaning (map (λ line. line.now) statements.now) place statement.now) ≡ label_answer result }
{
    match label_of(statement) {
        Some(name) => label_problem(statements, place, name),
        None => None,
    }
}
