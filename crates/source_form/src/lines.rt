//! The lines of a source, and the operands of a list.

ghost use Rattle.std.specs.Prelude.{◌≡◌, ◌<◌, IfOk, map, List, ℕ};
ghost use Rattle.source_form.specs.SourceText.{parts_at, statements_of};

use crate::words::statement;
use std::alloc::{AllocError, Global};

/// The parts of a text that a mark separates.
pub(crate) fn parts_at(alloc: Global, text: &str, mark: char) -> Result<Vec<&str>, AllocError>
    requires { mark < 128 }
    ensures { IfOk result (λ parts. map (λ part. part.now) parts.items ≡ parts_at mark text.now) }
{
    text.split(mark).collect(alloc)
}

/// Each line as its statement.
pub(crate) fn statements_of(alloc: Global, source: &str) -> Result<Vec<&str>, AllocError>
    ensures { IfOk result (λ statements. map (λ line. line.now) statements.items ≡ statements_of source.now) }
{
    let lines = parts_at(alloc, source, '\n')?;
    let mut statements = Vec::new(alloc);
    for line in &lines {
        statements.push(statement(*line))?;
    }
    Ok(statements)
}
