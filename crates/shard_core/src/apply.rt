//! A call as a value, made by the function of its kind.

ghost use Rattle.std.specs.Prelude.{◌≡◌, ◌↔◌, IsErr, IfOk, IfErr, OnErr, reverse};
ghost use Rattle.semantics.specs.History.{Meets, IsLegalJournal, IsJournalFull};
ghost use Rattle.shard_core.specs.JournaledShard.{sequential_reply, shard_with_entry};

use crate::shard::Shard;
use journal::{AtomicChange, CellRange};
use map_rules::answers::lookup_reply;
use semantics::{Call, Caller, CellRef, JournalFull, Reply};

impl Shard {
    /// Makes the call for a caller that may make it: one step of the one-thread shard, and one entry with its reply. Takes no
    /// memory. Refused where the journal is full for the call, which it never is for a Leave; then nothing is changed.
    #[inline(always)]
    pub fn apply(&mut self, who: Caller, call: &Call) -> Result<Reply, JournalFull>
        requires { Meets self.old.plan (reverse self.old.journal) who call.now }
        ensures replied { IfOk result (λ reply. reply ≡ sequential_reply self.old call.now) }
        ensures entered { IfOk result (λ reply. self.new ≡ shard_with_entry self.old (record { who = who; call = call.now; reply = reply })) }
        ensures legal { IsLegalJournal self.new.plan self.new.journal }
        ensures full { IsErr result ↔ IsJournalFull self.old.plan (reverse self.old.journal) call.now }
        ensures names_the_shard { IfErr result (λ fault. fault.shard ≡ self.old.plan.number) }
        ensures refused_unchanged { OnErr result (self.new ≡ self.old) }
    {
        match call {
            Call::Enter { .. } => match self.enter(who) {
                Ok(()) => Ok(Reply::Entered),
                Err(full) => Err(full),
            },
            Call::Leave { .. } => {
                self.leave(who);
                Ok(Reply::Left)
            }
            Call::Lookup { key, .. } => match self.lookup(who, key.as_slice()) {
                Ok(found) => Ok(lookup_reply(self.plan(), found)),
                Err(full) => Err(full),
            },
            Call::Load { cell, offset, size } => match self.load(
                who,
                &range_of(cell, *offset, *size),
            ) {
                Ok(value) => Ok(Reply::Word { value }),
                Err(full) => Err(full),
            },
            Call::Store {
                cell,
                offset,
                size,
                value,
            } => match self.store(who, &range_of(cell, *offset, *size), *value) {
                Ok(()) => Ok(Reply::Done),
                Err(full) => Err(full),
            },
            Call::Atomic {
                cell,
                offset,
                size,
                op,
                value,
                expected,
            } => match self.atomic(
                who,
                &range_of(cell, *offset, *size),
                &AtomicChange {
                    op: *op,
                    value: *value,
                    expected: *expected,
                },
            ) {
                Ok(value) => Ok(Reply::Word { value }),
                Err(full) => Err(full),
            },
            Call::Update {
                key,
                value,
                flags,
                ..
            } => match self.update(who, key.as_slice(), value.as_slice(), *flags) {
                Ok(code) => Ok(Reply::Answer { code }),
                Err(full) => Err(full),
            },
            Call::Delete { key, .. } => match self.delete(who, key.as_slice()) {
                Ok(code) => Ok(Reply::Answer { code }),
                Err(full) => Err(full),
            },
            Call::Reclaim { .. } => match self.reclaim(who) {
                Ok(count) => Ok(Reply::Freed { count }),
                Err(full) => Err(full),
            },
        }
    }
}

/// Some bytes of a cell of the shard.
fn range_of(cell: &CellRef, offset: u64, size: u64) -> CellRange
    ensures { result ≡ record { cell = cell.now.id; offset = offset; size = size } }
{
    CellRange {
        cell: cell.id,
        offset,
        size,
    }
}
