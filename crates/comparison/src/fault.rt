//! Why a file is not read, and why two files cannot be compared.

use std::alloc::AllocError;

/// Why the rows of a file are not read.
#[derive(Clone, Copy, Debug, PartialEq, Eq)]
pub enum NoRows {
    /// The file has JSON lines, or anything else that begins with a brace.
    JsonLines,
    /// The file is no report of CSV; the first line that shows it, counted from 1.
    NoReport { line: usize },
    /// The file is no report of CSV: on this line, counted from 1, the field in this column, counted from 0, is not what the column says.
    WrongField { line: usize, column: usize },
    /// Memory was refused.
    Memory,
}

impl From<AllocError> for NoRows {
    ghost use Rattle.std.specs.Prelude.{◌≡◌};
    ghost use Rattle.comparison.specs.declared.fault.NoRows.TheVariants.{Memory};

    ghost from_gives = { λ _ none. none ≡ Memory };

    fn from(_error: AllocError) -> NoRows {
        NoRows::Memory
    }
}

/// One of the two files.
#[derive(Clone, Copy, Debug, PartialEq, Eq)]
pub enum Which {
    First,
    Second,
}

/// Why two files cannot be compared.
#[derive(Clone, Copy, Debug, PartialEq, Eq)]
pub enum Unlike {
    /// The file has JSON lines, or anything else that begins with a brace.
    JsonLines {
        which: Which,
    },
    /// The file is no report of CSV; the first line that shows it, counted from 1.
    NoReport {
        which: Which,
        line: usize,
    },
    /// The file is no report of CSV: on this line, counted from 1, the field in this column, counted from 0, is not what the column says.
    WrongField {
        which: Which,
        line: usize,
        column: usize,
    },
    /// The reports are of other records, which first shows at this one, counted from 1.
    OtherRecords {
        number: usize,
    },
    /// Memory was refused.
    Memory,
}

impl From<AllocError> for Unlike {
    ghost use Rattle.std.specs.Prelude.{◌≡◌};
    ghost use Rattle.comparison.specs.declared.fault.Unlike.TheVariants.{Memory};

    ghost from_gives = { λ _ unlike. unlike ≡ Memory };

    fn from(_error: AllocError) -> Unlike {
        Unlike::Memory
    }
}

impl NoRows {
    ghost use Rattle.std.specs.Prelude.{◌≡◌};
    ghost use Rattle.comparison.specs.Comparing.{unlike_of};

    /// Why two files are not compared, where this one of them is not read.
    pub(crate) fn of(self, which: Which) -> Unlike
        ensures { result ≡ unlike_of which self }
    {
        match self {
            NoRows::JsonLines => Unlike::JsonLines { which },
            NoRows::NoReport { line } => Unlike::NoReport { which, line },
            NoRows::WrongField { line, column } => Unlike::WrongField {
                which,
                line,
                column,
            },
            NoRows::Memory => Unlike::Memory,
        }
    }
}
