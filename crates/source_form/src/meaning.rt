//! The exact text that a source means.

ghost use Rattle.std.specs.Prelude.{◌≡◌, ◌≤◌, ◌<◌, ◌^◌, [], IfOk, IfErr, Ok, map, length, string_bytes, List, ℕ};
ghost use Rattle.source_form.specs.SourceText.{words_meaning, text_meaning, rest_meaning, line_meaning, meaning_from, source_meaning};
ghost use Rattle.source_form.specs.Told.{IsToldBy, IsToldOf, line_fault_at};

use crate::fault::{LineFault, SourceFault};
use crate::labels::front_problem;
use crate::lines::statements_of;
use crate::operands::instruction_text;
use crate::words::{after_first_word, first_word, is_heading, words_of};
use std::alloc::{AllocError, Global};

fn words_text(
    alloc: Global,
    statements: &[&str],
    place: usize,
    statement: &str,
) -> Result<String, LineFault>
    requires { place ≤ length statements.now }
    ensures ok { IfOk result (λ text. words_meaning (map (λ line. line.now) statements.now) place statement.now ≡ Ok (string_bytes text)) }
    ensures err { IfErr result (λ fault. IsToldBy (words_meaning (map (λ line. line.now) statements.now) place statement.now) fault) }
{
    let word = first_word(statement);
    if is_heading(word) {
        return Ok(String::from_str(alloc, statement)?);
    }
    instruction_text(alloc, statements, place, word, after_first_word(statement))
}

/// A line of the exact text, with its line feed.
fn text_of(
    alloc: Global,
    statements: &[&str],
    place: usize,
    statement: &str,
) -> Result<String, LineFault>
    requires { place ≤ length statements.now }
    ensures ok { IfOk result (λ text. text_meaning (map (λ line. line.now) statements.now) place statement.now ≡ Ok (string_bytes text)) }
    ensures err { IfErr result (λ fault. IsToldBy (text_meaning (map (λ line. line.now) statements.now) place statement.now) fault) }
{
    let mut out = words_text(alloc, statements, place, statement)?;
    out.push_str("\n")?;
    Ok(out)
}

/// What the words behind a label mean, if there are any.
fn rest_text(
    alloc: Global,
    statements: &[&str],
    place: usize,
    words: &str,
) -> Result<String, LineFault>
    requires { place ≤ length statements.now }
    ensures ok { IfOk result (λ text. rest_meaning (map (λ line. line.now) statements.now) place words.now ≡ Ok (string_bytes text)) }
    ensures err { IfErr result (λ fault. IsToldBy (rest_meaning (map (λ line. line.now) statements.now) place words.now) fault) }
{
    if words.is_empty() {
        Ok(String::new(alloc))
    } else {
        text_of(alloc, statements, place, words)
    }
}

/// What the statement of the line at a place means.
pub(crate) fn line_text(
    alloc: Global,
    statements: &[&str],
    place: usize,
    statement: &str,
) -> Result<String, LineFault>
    requires { place ≤ length statements.now }
    ensures ok { IfOk result (λ text. line_meaning (map (λ line. line.now) statements.now) place statement.now ≡ Ok (string_bytes text)) }
    ensures err { IfErr result (λ fault. IsToldBy (line_meaning (map (λ line. line.now) statements.now) place statement.now) fault) }
{
    match front_problem(statements, place, statement) {
        Some(problem) => Err(LineFault::Bad(problem)),
        None => rest_text(alloc, statements, place, words_of(statement)),
    }
}

/// The fault of a line, counted from 0.
fn fault_at(place: usize, fault: LineFault) -> SourceFault
    requires { place < 2 ^ 63 }
    ensures { result ≡ line_fault_at place fault }
{
    match fault {
        LineFault::Bad(problem) => SourceFault::BadLine {
            line: place + 1,
            problem,
        },
        LineFault::Memory => SourceFault::Memory,
    }
}

/// The text of all lines.
pub(crate) fn text_of_lines(alloc: Global, statements: &[&str]) -> Result<String, SourceFault>
    ensures ok { IfOk result (λ text. meaning_from (map (λ line. line.now) statements.now) 0 []
        (map (λ line. line.now) statements.now) ≡ Ok (string_bytes text)) }
    ensures err { IfErr result
        (λ fault. IsToldOf (meaning_from (map (λ line. line.now) statements.now) 0 [] (map (λ line. line.now) statements.now)) fault) }
{
    let mut out = String::new(alloc);
    let mut place = 0;
    'lines: while place < statements.len() {
        match line_text(alloc, statements, place, statements[place]) {
            Ok(text) => out.push_str(&text)?,
            Err(fault) => return Err(fault_at(place, fault)),
        }
        place += 1;
    }
    Ok(out)
}

/// The exact text that a source means. Else 21 with the first line, counted from 1, that has no meaning, and what is wrong with it; or 23
/// where memory is refused.
pub fn exact_text(alloc: Global, source: &str) -> Result<String, SourceFault>
    ensures means { IfOk result (λ text. source_meaning source.now ≡ Ok (string_bytes text)) }
    ensures refused { IfErr result (λ fault. IsToldOf (source_meaning source.now) fault) }
{
    let statements = statements_of(alloc, source)?;
    text_of_lines(alloc, &statements)
}
