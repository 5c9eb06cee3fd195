//! What is wrong with a line, in words.

ghost use Rattle.std.specs.Prelude.{◌≤◌, length};

use crate::fault::{LineFault, Problem, SourceFault};
use crate::images::image_note;
use crate::lines::{parts_at, statements_of};
use crate::meaning::line_text;
use crate::numbers::number_text;
use crate::slips::{foreign_mark, slip_in};
use crate::words::{Form, after_first_word, first_word, form_of, is_heading, label_of, words_of};
use disasm::is_first_word;
use std::alloc::{AllocError, Global};

/// What an operand may be.
#[derive(Clone, Copy, Debug, PartialEq, Eq)]
enum OperandKind {
    Register,
    /// A number that is stored.
    Immediate,
    RegisterOrImmediate,
    /// A helper's number, or a map's.
    Number,
    /// The number of a byte in a map's value.
    Offset,
    Place,
    Target,
    /// Of `ja32`.
    FarTarget,
    Wide,
}

/// The kinds of operands behind the first word of an instruction.
#[rattlefmt::skip]
fn kinds_of(word: &str) -> &'static [OperandKind] {
    if word == "exit" { return &[]; }
    if word == "call" { return &[OperandKind::Number]; }
    if word == "ja" { return &[OperandKind::Target]; }
    if word == "ja32" { return &[OperandKind::FarTarget]; }
    if word.starts_with("j") { return &[OperandKind::Register, OperandKind::RegisterOrImmediate, OperandKind::Target]; }
    if word == "lddw" { return &[OperandKind::Register, OperandKind::Wide]; }
    if word == "ldmap" { return &[OperandKind::Register, OperandKind::Number]; }
    if word == "ldval" { return &[OperandKind::Register, OperandKind::Number, OperandKind::Offset]; }
    if word.starts_with("ldx") { return &[OperandKind::Register, OperandKind::Place]; }
    if word.starts_with("stx") { return &[OperandKind::Place, OperandKind::Register]; }
    if word.starts_with("st") { return &[OperandKind::Place, OperandKind::Immediate]; }
    if word.starts_with("movsx") { return &[OperandKind::Register, OperandKind::Register]; }
    if word.starts_with("neg") || word.starts_with("le") || word.starts_with("be") || word.starts_with("swap") { return &[OperandKind::Register]; }
    if word == "add" || word == "add32" || word == "and" || word == "and32" || word == "arsh" || word == "arsh32" {
        return &[OperandKind::Register, OperandKind::RegisterOrImmediate];
    }
    if word.starts_with("a") { return &[OperandKind::Place, OperandKind::Register]; }
    &[OperandKind::Register, OperandKind::RegisterOrImmediate]
}

#[rattlefmt::skip]
fn kind_text(kind: OperandKind) -> &'static str {
    match kind {
        OperandKind::Register => "a register, r0 to r10",
        OperandKind::Immediate => "a number from -2147483648 to 4294967295",
        OperandKind::RegisterOrImmediate => "a register, r0 to r10, or a number from -2147483648 to 4294967295",
        OperandKind::Number => "a number from -2147483648 to 2147483647",
        OperandKind::Offset => "a number from 0 to 4294967295",
        OperandKind::Place => "a place as [r1+0] or [r10-8]",
        OperandKind::Target => "a label, or a distance with its sign as +3, from -32768 to +32767",
        OperandKind::FarTarget => "a label, or a distance with its sign as +3, from -2147483648 to +2147483647",
        OperandKind::Wide => "a number of 64 bits",
    }
}

fn is_register(token: &str) -> bool {
    match token.strip_prefix("r") {
        Some("10") => true,
        Some(digit) => digit.len() == 1 && digit.parse::<u8>().is_ok(),
        None => false,
    }
}

/// Whether digits that are not needed are in front: a zero, or the sign of 0.
fn has_idle_zero(token: &str) -> bool {
    match token.strip_prefix("-") {
        Some(digits) => digits.starts_with("0"),
        None => token.starts_with("0") && token != "0",
    }
}

/// Whether it is a signed number of 32 bits without a plus.
fn is_number(token: &str) -> bool {
    !token.starts_with("+") && !has_idle_zero(token) && token.parse::<i32>().is_ok()
}

fn has_sign(token: &str) -> bool {
    token.starts_with("+") || token.starts_with("-")
}

/// Whether it is a register with an offset of 16 bits behind its sign.
fn is_based(register: &str, sign: &str, digits: &str) -> bool {
    is_register(register)
        && !digits.starts_with("+")
        && !digits.starts_with("-")
        && (digits.parse::<i16>().is_ok() || (sign == "-" && digits == "32768"))
}

fn is_place(token: &str) -> bool {
    let Some(opened) = token.strip_prefix("[") else {
        return false;
    };
    let Some(inner) = opened.strip_suffix("]") else {
        return false;
    };
    match (inner.split_once('+'), inner.split_once('-')) {
        (Some((register, digits)), _) => is_based(register, "+", digits),
        (None, Some((register, digits))) => is_based(register, "-", digits),
        (None, None) => false,
    }
}

/// Whether it is a place whose offset alone is too large.
fn is_far_place(token: &str) -> bool {
    let Some(opened) = token.strip_prefix("[") else {
        return false;
    };
    let Some(inner) = opened.strip_suffix("]") else {
        return false;
    };
    let cut = match inner.split_once('+') {
        Some(parts) => Some(parts),
        None => inner.split_once('-'),
    };
    match cut {
        Some((register, digits)) => {
            is_register(register)
                && !digits.is_empty()
                && digits.bytes().all(|byte| byte.is_ascii_digit())
        }
        None => false,
    }
}

/// Whether an operand of the exact text may be of this kind.
fn is_of_kind(kind: OperandKind, token: &str) -> bool {
    match kind {
        OperandKind::Register => is_register(token),
        OperandKind::Immediate | OperandKind::Number => is_number(token),
        OperandKind::RegisterOrImmediate => is_register(token) || is_number(token),
        OperandKind::Offset => !token.starts_with("+") && token.parse::<u32>().is_ok(),
        OperandKind::Place => is_place(token),
        OperandKind::Target => has_sign(token) && token.parse::<i16>().is_ok(),
        OperandKind::FarTarget => has_sign(token) && token.parse::<i32>().is_ok(),
        OperandKind::Wide => token.starts_with("0x"),
    }
}

/// The operands of a list.
fn operands_of(alloc: Global, list: &str) -> Result<Vec<&str>, AllocError> {
    if list.is_empty() {
        return Ok(Vec::new(alloc));
    }
    parts_at(alloc, list, ',')
}

fn last_operand(list: &str) -> &str {
    match list.rsplit_once(',') {
        Some((_, last)) => last.trim(),
        None => list,
    }
}

/// The first operand that is no number though it has an `x`.
fn no_number(alloc: Global, statement: &str) -> Result<&str, AllocError> {
    let list = after_first_word(statement);
    if form_of(first_word(statement)) == Form::Wide {
        return Ok(last_operand(list));
    }
    for operand in &operands_of(alloc, list)? {
        match number_text(alloc, operand.trim()) {
            Err(LineFault::Bad(_)) => return Ok(operand.trim()),
            Err(LineFault::Memory) => return Err(AllocError),
            Ok(_) => {}
        }
    }
    Ok(list)
}

/// What was expected in place of an operand of the exact text.
fn expected_text(
    alloc: Global,
    word: &str,
    kind: OperandKind,
    token: &str,
) -> Result<String, AllocError> {
    if kind == OperandKind::Place && is_far_place(token) {
        return String::from_str(alloc, "an offset from -32768 to +32767");
    }
    if kind == OperandKind::Immediate && is_register(token) {
        let size = word.strip_prefix("st").unwrap_or("");
        return format!(in alloc; "{}: stx{size} stores a register", kind_text(kind));
    }
    if kind == OperandKind::Register && is_number(token) && word.starts_with("stx") {
        let size = word.strip_prefix("stx").unwrap_or("");
        return format!(in alloc; "{}: st{size} stores a number", kind_text(kind));
    }
    if has_idle_zero(token) {
        return String::from_str(alloc, "a number without a zero in front");
    }
    let lower = token.to_ascii_lowercase(alloc)?;
    if is_of_kind(kind, lower.as_str()) {
        return format!(in alloc; "{lower}, in lower case");
    }
    String::from_str(alloc, kind_text(kind))
}

/// The first operand that is not of its kind.
fn wrong_operand(
    alloc: Global,
    word: &str,
    operands: &[&str],
    exact: &[&str],
) -> Result<String, AllocError> {
    let mut place = 0;
    for kind in kinds_of(word) {
        match (operands.get(place), exact.get(place)) {
            (Some(operand), Some(token)) => {
                if !is_of_kind(*kind, token.trim()) {
                    let expected = expected_text(alloc, word, *kind, token.trim())?;
                    return format!(in alloc; "\"{}\": expected {expected}", operand.trim());
                }
            }
            _ => return format!(in alloc;
                "\"{word}\": an operand is missing: {}",
                kind_text(*kind)
            ),
        }
        place += 1;
    }
    match operands.get(place) {
        Some(operand) => format!(in alloc; "\"{}\": no operand is expected here", operand.trim()),
        None => String::from_str(
            alloc,
            "not a line of the text form, or not in its place: first version 1 or version 2, then maps, then instructions",
        ),
    }
}

/// What is wrong with an instruction that is misspelled.
fn wrong_spelling(alloc: Global, statement: &str, exact: &str) -> Result<String, AllocError> {
    let word = first_word(statement);
    if word.is_empty() || is_heading(word) {
        return String::from_str(
            alloc,
            "expected version 1 or version 2 on the first line, then map KIND KEY-BYTES VALUE-BYTES ENTRIES (hash, array or lru) before the instructions",
        );
    }
    if !is_first_word(word) {
        return format!(in alloc; "\"{word}\": no such instruction");
    }
    let operands = operands_of(alloc, after_first_word(statement))?;
    let tokens = operands_of(alloc, after_first_word(exact))?;
    wrong_operand(alloc, word, &operands, &tokens)
}

/// What is wrong with the line, in words: a slip by its name, if it is one.
fn problem_text(
    alloc: Global,
    statements: &[&str],
    place: usize,
    statement: &str,
    problem: Problem,
) -> Result<String, AllocError>
    requires { place ≤ length statements.now }
{
    if let Some(mark) = foreign_mark(alloc, statement)? {
        return Ok(mark);
    }
    if problem == Problem::LabelTwice || problem == Problem::NoLabelName {
        return wrong_part(alloc, statements, place, statement, problem);
    }
    match slip_in(alloc, words_of(statement))? {
        Some(slip) => Ok(slip),
        None => wrong_part(alloc, statements, place, statement, problem),
    }
}

/// Which part of the line is wrong, in words.
fn wrong_part(
    alloc: Global,
    statements: &[&str],
    place: usize,
    statement: &str,
    problem: Problem,
) -> Result<String, AllocError>
    requires { place ≤ length statements.now }
{
    let label = label_of(statement).unwrap_or("");
    let words = words_of(statement);
    let word = first_word(words);
    let last = last_operand(after_first_word(words));
    match problem {
        Problem::NoNumber | Problem::NoSpelling if word.ends_with(":") => format!(in alloc;
            "\"{word}\": a line has one label at most"
        ),
        Problem::LabelTwice => format!(in alloc; "\"{label}:\": an earlier line has this label"),
        Problem::NoLabelName => format!(in alloc;
            "\"{label}:\": expected a label's name before the colon: letters, digits, _ and ., no digit first"
        ),
        Problem::UnknownLabel => format!(in alloc;
            "\"{last}\": no line has the label {last}: (a distance has its sign, as +3)"
        ),
        Problem::UnknownHelper => format!(in alloc;
            "\"{last}\": no such helper: expected a number, map_lookup_elem, map_update_elem, map_delete_elem, ktime_get_ns, get_smp_processor_id or \
                xdp_adjust_head"
        ),
        Problem::NoNumber => format!(in alloc;
            "\"{}\": no number: expected decimal digits, or 0x and hexadecimal digits, of 64 bits at most",
            no_number(alloc, words)?
        ),
        Problem::NoSpelling => match line_text(alloc, statements, place, statement) {
            Ok(exact) => wrong_spelling(alloc, words, exact.trim()),
            Err(_) => String::from_str(alloc, "not a line of the text form"),
        },
    }
}

/// What is wrong with the line of this number, counted from 1; empty where there is no such line.
fn line_note(
    alloc: Global,
    statements: &[&str],
    line: usize,
    problem: Problem,
) -> Result<String, AllocError> {
    let place = line.saturating_sub(1);
    if place < statements.len() {
        problem_text(alloc, statements, place, statements[place], problem)
    } else {
        Ok(String::new(alloc))
    }
}

/// The line for people below the fault's own: two spaces, the token of the source that is wrong and what was expected, or where every line
/// is right the first line that no image has, with a line feed; or nothing where there is no more to print. An exact text is a source too.
/// It can fail only for lack of memory.
pub fn explain(alloc: Global, source: &str, fault: SourceFault) -> Result<String, AllocError> {
    let statements = statements_of(alloc, source)?;
    let note = match fault {
        SourceFault::BadLine { line, problem } => line_note(alloc, &statements, line, problem)?,
        SourceFault::Image(why) => image_note(alloc, &statements, why)?,
        SourceFault::Memory => String::new(alloc),
    };
    if note.is_empty() {
        Ok(note)
    } else {
        format!(in alloc; "  {note}\n")
    }
}
