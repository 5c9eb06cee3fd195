//! The refusal of a full journal.

use faults::Fields;
use std::error::Error;
use std::fmt;

/// The number that the fault's text begins with.
const NUMBER: u8 = 50;

/// A call was refused because the shard's journal has no room for it. Nothing was changed.
#[derive(Clone, Copy, Debug, PartialEq, Eq)]
pub struct JournalFull {
    /// The shard's number.
    pub shard: u32,
}

impl JournalFull {
    ghost use Rattle.std.specs.Prelude.{◌≡◌, true};
    ghost use Rattle.faults.specs.Explanations.{is_fault};
    ghost use Rattle.semantics.specs.FaultText.{journal_full_fields, journal_full_number};

    /// The number that the fault's text prints.
    pub fn number(self) -> u8
        ensures number { result ≡ journal_full_number self }
        ensures known { is_fault result ≡ true }
    {
        NUMBER
    }

    /// The numbers of the fields that the fault's text prints.
    pub fn fields(self) -> Fields
        ensures { result ≡ journal_full_fields self }
    {
        Fields::One(u64::from(self.shard))
    }
}

impl fmt::Display for JournalFull {
    ghost use Rattle.std.specs.Prelude.{Some};
    ghost use Rattle.semantics.specs.FaultText.{journal_full_text};

    ghost output = { λ fault. Some (journal_full_text fault) };

    fn fmt<W: fmt::Write>(&self, f: &mut fmt::Formatter<W>) -> fmt::Result {
        let shard = self.shard;
        write!(f, "fault 50 JournalFull shard {shard}")
    }
}

impl Error for JournalFull {}
