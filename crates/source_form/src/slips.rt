//! Slips that are made often, each by its name.

use crate::lines::parts_at;
use crate::words::{after_first_word, first_word, is_heading};
use disasm::is_first_word;
use std::alloc::{AllocError, Global};

/// Whether a line may begin with the word.
fn is_known(word: &str) -> bool {
    is_first_word(word) || is_heading(word)
}

/// A mark that begins a comment elsewhere, and none here.
fn foreign_comment(statement: &str) -> Option<&'static str> {
    if statement.contains(";") {
        return Some(";");
    }
    if statement.contains("//") {
        return Some("//");
    }
    None
}

/// What is written in place of a word that other assemblers have.
#[rattlefmt::skip]
fn here_called(word: &str) -> Option<&'static str> {
    match word {
        "goto" | "jmp" => Some("ja LABEL jumps, and jeq r1, 5, LABEL jumps if r1 is 5"),
        "ret" | "return" => Some("exit ends the run, with its verdict in r0"),
        "if" => Some("jeq r1, 5, LABEL jumps if r1 is 5 (jne, jgt, jlt and others)"),
        "movzx" | "mv" => Some("mov r1, r2 copies a register, mov32 r1, r2 its low half"),
        _ => None,
    }
}

/// What is wrong with a first word that no line has, if it is a slip.
fn slip_of_word(alloc: Global, word: &str) -> Result<Option<String>, AllocError> {
    let lower = word.to_ascii_lowercase(alloc)?;
    if is_known(lower.as_str()) {
        return Ok(Some(format!(in alloc; "\"{word}\": in upper case: expected {lower}")?));
    }
    if let Some(remedy) = here_called(lower.as_str()) {
        return Ok(Some(format!(in alloc; "\"{word}\": no such instruction: {remedy}")?));
    }
    match lower.as_str().strip_suffix("64") {
        Some(stem) if is_first_word(stem) => Ok(Some(format!(in alloc;
            "\"{word}\": no such instruction: {stem} works on 64 bits"
        )?)),
        _ => Ok(None),
    }
}

/// Whether the operand has a blank where a comma belongs.
fn lacks_comma(operand: &str) -> bool {
    if operand.starts_with("[") {
        operand.contains("] ") || operand.contains("]\t")
    } else {
        operand.contains(" ") || operand.contains("\t")
    }
}

/// The first operand of a list that is two.
fn unseparated(alloc: Global, list: &str) -> Result<Option<&str>, AllocError> {
    for operand in &parts_at(alloc, list, ',')? {
        if lacks_comma(operand.trim()) {
            return Ok(Some(operand.trim()));
        }
    }
    Ok(None)
}

/// What is wrong with a line that is refused, if it has what no line has: a byte order mark, or a comment of another form.
pub(crate) fn foreign_mark(alloc: Global, statement: &str) -> Result<Option<String>, AllocError> {
    if statement.starts_with("\u{feff}") {
        return Ok(Some(String::from_str(
            alloc,
            "the file begins with a byte order mark, the bytes ef bb bf: tail -c +4 TEXT > NEW takes it away",
        )?));
    }
    match foreign_comment(statement) {
        Some(mark) => Ok(Some(format!(in alloc; "\"{mark}\": a comment begins with #")?)),
        None => Ok(None),
    }
}

/// What is wrong with the words of an instruction that is refused, if it is a slip that is made often.
pub(crate) fn slip_in(alloc: Global, words: &str) -> Result<Option<String>, AllocError> {
    let word = first_word(words);
    if word.is_empty() || is_heading(word) {
        return Ok(None);
    }
    if !is_known(word) {
        return slip_of_word(alloc, word);
    }
    match unseparated(alloc, after_first_word(words))? {
        Some(operand) => Ok(Some(format!(in alloc;
            "\"{operand}\": a comma is missing between two operands"
        )?)),
        None => Ok(None),
    }
}
