//! Why the flows of a file are not told.

ghost use Rattle.std.specs.Prelude.{◌≡◌, IfOk, string_bytes};
ghost use Rattle.flows.specs.Mistakes.{left_out_text, refusal_text};

use comparison::{NoRows, json_text, no_report_text, wrong_field_text};
use std::alloc::{AllocError, Global};

/// Why the flows of a file are not told.
#[derive(Clone, Copy, Debug, PartialEq, Eq)]
pub enum NoFlows {
    /// The file has JSON lines, or anything else that begins with a brace.
    JsonLines,
    /// The file is no report of CSV; the first line that shows it, counted from 1.
    NoReport { line: usize },
    /// The file is no report of CSV: on this line, counted from 1, the field in this column, counted from 0, is not what the column says.
    WrongField { line: usize, column: usize },
    /// The row on this line, counted from 1, is not that of the record after the one before it; the first row is that of record 1.
    LeftOut { line: usize },
    /// Memory was refused.
    Memory,
}

impl From<AllocError> for NoFlows {
    ghost use Rattle.std.specs.Prelude.{◌≡◌};
    ghost use Rattle.flows.specs.declared.fault.NoFlows.TheVariants.{Memory};

    ghost from_gives = { λ _ refusal. refusal ≡ Memory };

    fn from(_error: AllocError) -> NoFlows {
        NoFlows::Memory
    }
}

impl From<NoRows> for NoFlows {
    ghost use Rattle.std.specs.Prelude.{◌≡◌};
    ghost use Rattle.flows.specs.Reports.{refusal_of};

    ghost from_gives = { λ none refusal. refusal ≡ refusal_of none };

    fn from(none: NoRows) -> NoFlows {
        match none {
            NoRows::JsonLines => NoFlows::JsonLines,
            NoRows::NoReport { line } => NoFlows::NoReport { line },
            NoRows::WrongField { line, column } => NoFlows::WrongField { line, column },
            NoRows::Memory => NoFlows::Memory,
        }
    }
}

fn left_out_text(alloc: Global, name: &str, line: usize) -> Result<String, AllocError>
    ensures { IfOk result (λ text. string_bytes text ≡ left_out_text name.now line) }
{
    format!(in alloc; "error: {name} is not of all records of a replay: line {line}\n")
}

impl NoFlows {
    /// The line that says why the flows of the file of this name are not told. It fails only for lack of memory.
    pub fn text(self, alloc: Global, name: &str) -> Result<String, AllocError>
        ensures { IfOk result (λ text. string_bytes text ≡ refusal_text self name.now) }
    {
        match self {
            NoFlows::JsonLines => json_text(alloc, name),
            NoFlows::NoReport { line } => no_report_text(alloc, name, line),
            NoFlows::WrongField { line, column } => wrong_field_text(alloc, name, line, column),
            NoFlows::LeftOut { line } => left_out_text(alloc, name, line),
            NoFlows::Memory => String::from_str(alloc, "fault 8 Memory\n"),
        }
    }
}
