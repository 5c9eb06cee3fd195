//! What is left of a shard that nobody calls any more.

ghost use Rattle.std.specs.Prelude.{◌≡◌};
ghost use Rattle.semantics.specs.History.{IsLegalJournal};

use crate::shard::Shard;
use journal::Journal;

impl Shard {
    /// The journal, which is moved and not copied. The cells and the keys are let go.
    pub fn into_journal(self) -> Journal
        ensures entries { result.entries ≡ self.journal }
        ensures reserve { result.reserve ≡ self.plan.reserve }
        ensures legal { IsLegalJournal self.plan self.journal }
    {
        let Shard { journal, .. } = self;
        journal
    }
}
