//! One shard of a map: a part of the map's keys, and the journal of all calls on it.
//!
//! It consists of its *plan* (which map, which part of it, and the limits), the *journal* of all calls that were served, the *cells*, each
//! with the bytes of one value, the *keys*, each with its cell, and the *readers*: for each worker inside the epoch of its Enter.
//!
//! Each call is one step and one entry. First it asks whether the journal has room for its entry beside one for the Leave of each worker
//! inside; if not, the call is refused, and nothing is changed. A Leave need not ask, since its Enter left it room. Then it changes cells
//! and keys as the one-thread shard of `semantics` would, and appends an entry with the caller, the call and the reply.
//!
//! A key that is deleted, or evicted for a new one, has its cell *retired*: no Lookup finds the cell any more, and no new key gets it, but
//! its bytes are kept, with a stamp. Who may still hold it is each worker that found it since its last Enter and has not left: it goes on
//! reading and writing these bytes. A Reclaim frees a retired cell exactly where every run inside began after the retirement, and so
//! cannot have found it. Epochs count that (`epochs::EpochBook`): each retirement ends an epoch, which is its stamp, and the stamp is below
//! the *floor*, the oldest epoch in which a worker inside entered, exactly where all of them entered after it. A freed cell serves a new
//! key, under a new id.
//!
//! No call takes memory: `open` takes all that the shard will ever need, which is the journal's room, the keys' tables, and one cell for
//! each index of an array or two for each key of the other maps. Where all cells have a key or wait, a new key is answered -12 until a
//! Reclaim.

ghost use Rattle.std.specs.Prelude.{◌≡◌, ◌+◌, ◌<◌, ◌↔◌, IsErr, IfOk, IfErr, OnErr, OnOk, reverse, length, nat_lt};
ghost use Rattle.semantics.specs.declared.call.Reply.TheVariants.{Entered, Left, Word, Done, Answer, Freed};
ghost use Rattle.semantics.specs.Reclamation.{is_inside, holds, inside_count};
ghost use Rattle.semantics.specs.PlanLimits.{IsPlan};
ghost use Rattle.semantics.specs.SequentialShard.{update_answer, delete_answer, number_in_cell, lookup_reply};
ghost use Rattle.semantics.specs.History.{journal_is_full, IsLegalJournal};
ghost use Rattle.shard_core.specs.FewHeld.{FewAreHeld};
ghost use Rattle.shard_core.specs.JournaledShard.{opened_shard, state_of, sequential_reply};
ghost use Rattle.shard_core.specs.Calls.{MayCallShard, IsFullFor, shard_with_call, enter_call, leave_call, shard_lookup_call, load_call, store_call};
ghost use Rattle.shard_core.specs.Calls.{shard_atomic_call, shard_update_call, shard_delete_call, reclaim_call};

use crate::contents::{open_cells, put_value, retire_key};
use crate::keys::KeyTable;
use crate::ranges::{change_number, number_in, put_number};
use crate::readers::Readers;
use isa::AtomicOp;
use journal::{AtomicChange, CellRange, Journal};
use map_cells::Cells;
use map_rules::answers::{Occupancy, delete_answer_of_kind, update_answer_of_kind};
use map_rules::conditions::{is_full_with, lacks_room};
use semantics::{Call, Caller, Errno, JournalFull, ShardPlan, UpdateFlags};
use std::alloc::{AllocError, Global};
use std::marker::Model;

/// A shard of a map, with the journal of its calls. Contracts see its plan and the list of its entries.
#[derive(Drop)]
pub struct Shard {
    pub(crate) plan: ShardPlan,
    pub(crate) journal: Journal,
    pub(crate) cells: Cells,
    pub(crate) keys: KeyTable,
    readers: Readers,
}

impl Model for Shard {
    ghost use Rattle.shard_core.specs.JournaledShard.{JournaledShard};
    ghost use Rattle.shard_core.specs.ShardFields.{IsShard};

    ghost Value = { JournaledShard };

    ghost view = { λ shard. record { plan = shard.plan; journal = shard.journal.entries } };

    ghost invariant = { λ shard. IsShard shard.plan shard.journal shard.cells shard.keys shard.readers };
}

impl Shard {
    /// A shard in which nothing has happened. Takes all memory that it will ever need, and fails only without memory.
    pub fn open(alloc: Global, plan: ShardPlan) -> Result<Self, AllocError>
        requires { IsPlan plan }
        ensures { IfOk result (λ shard. shard ≡ opened_shard plan) }
    {
        let definition = &plan.definition;
        let journal = Journal::open(
            alloc,
            plan.number,
            plan.reserve,
            definition.key_size,
            definition.value_size,
        )?;
        let cells = open_cells(alloc, &plan)?;
        let keys = KeyTable::open(alloc, &plan)?;
        Ok(Shard {
            plan,
            journal,
            cells,
            keys,
            readers: Readers::new(),
        })
    }

    /// What the shard was opened with.
    pub fn plan(&self) -> &ShardPlan
        ensures plan { result.now ≡ self.now.plan }
        ensures limits { IsPlan self.now.plan }
    {
        &self.plan
    }

    /// The entries of all calls that were served, the oldest first.
    pub fn journal(&self) -> &Journal
        ensures entries { result.now.entries ≡ self.now.journal }
        ensures reserve { result.now.reserve ≡ self.now.plan.reserve }
        ensures legal { IsLegalJournal self.now.plan self.now.journal }
    {
        &self.journal
    }

    /// A worker holds no more cells than the shard has: two for each entry of the capacity. The function does nothing: it brings this fact
    /// into a proof.
    pub fn few_held(&self)
        ensures { FewAreHeld self.now.plan (reverse self.now.journal) }
    {
        let _inside = self.readers.count();
    }

    /// Whether the worker is inside a read-side section: it has an Enter with no later Leave.
    pub fn is_inside(&self, worker: u8) -> bool
        requires { worker < 8 }
        ensures { result ≡ is_inside worker (reverse self.now.journal) }
    {
        self.readers.is_inside(worker)
    }

    /// Whether the journal has no room for a call that is no Leave: for its entry, one more for each run inside, and one more
    /// for the run that it lets in.
    fn lacks_room(&self, entering: u8) -> bool
        ensures { result ≡ nat_lt self.now.plan.reserve
            (length (reverse self.now.journal) + inside_count (reverse self.now.journal) + entering + 1) }
    {
        let inside = self.readers.count();
        lacks_room(&self.plan, self.journal.len(), inside, entering)
    }

    /// Whether the journal is full for this call: the entries, one more for each run inside, one for a run that would enter,
    /// and one for the call itself are more than it has room for. For a Leave it never is, since its Enter left it room.
    pub fn is_full(&self, call: &Call) -> bool
        ensures { result ≡ journal_is_full self.now.plan (reverse self.now.journal) call.now }
    {
        let inside = self.readers.count();
        is_full_with(&self.plan, self.journal.len(), inside, call)
    }

    /// The refusal of a full journal.
    fn full(&self) -> JournalFull
        ensures { result.shard ≡ self.now.plan.number }
    {
        JournalFull {
            shard: self.plan.number,
        }
    }

    /// A worker enters: from now on it finds no cell that was retired before. Refused where the journal is full for an Enter; then nothing
    /// is changed.
    pub fn enter(&mut self, who: Caller) -> Result<(), JournalFull>
        requires { MayCallShard self.old who (enter_call self.old) }
        ensures entered { OnOk result (self.new ≡ shard_with_call self.old who (enter_call self.old) Entered) }
        ensures legal { IsLegalJournal self.new.plan self.new.journal }
        ensures full { IsErr result ↔ IsFullFor self.old (enter_call self.old) }
        ensures names_the_shard { IfErr result (λ fault. fault.shard ≡ self.old.plan.number) }
        ensures refused_unchanged { OnErr result (self.new ≡ self.old) }
    {
        if self.lacks_room(1) {
            return Err(self.full());
        }
        let Some(worker) = who.worker() else {
            unreachable!()
        };
        self.readers.enter(worker);
        self.journal.append_enter(who);
        Ok(())
    }

    /// A worker leaves, and lets its cells go. Never refused.
    pub fn leave(&mut self, who: Caller)
        requires { MayCallShard self.old who (leave_call self.old) }
        ensures entered { self.new ≡ shard_with_call self.old who (leave_call self.old) Left }
        ensures legal { IsLegalJournal self.new.plan self.new.journal }
    {
        let Some(worker) = who.worker() else {
            unreachable!()
        };
        self.readers.leave(worker);
        self.journal.append_leave(who);
    }

    /// The cell of a key, which the worker then holds; none where the key is absent. Refused where the journal is full; then nothing is
    /// changed.
    #[inline(always)]
    pub fn lookup(&mut self, who: Caller, key: &[u8]) -> Result<Option<u64>, JournalFull>
        requires { MayCallShard self.old who (shard_lookup_call self.old key.now) }
        ensures replied { IfOk result
            (λ found. lookup_reply self.old.plan found ≡ sequential_reply self.old (shard_lookup_call self.old key.now)) }
        ensures entered { IfOk result
            (λ found. self.new ≡ shard_with_call self.old who (shard_lookup_call self.old key.now) (lookup_reply self.old.plan found)) }
        ensures legal { IsLegalJournal self.new.plan self.new.journal }
        ensures full { IsErr result ↔ IsFullFor self.old (shard_lookup_call self.old key.now) }
        ensures names_the_shard { IfErr result (λ fault. fault.shard ≡ self.old.plan.number) }
        ensures refused_unchanged { OnErr result (self.new ≡ self.old) }
    {
        if self.lacks_room(0) {
            return Err(self.full());
        }
        let found = self.keys.touch(key);
        self.journal.append_lookup(who, key, found);
        Ok(found)
    }

    /// The number that some bytes of a held cell make, the lowest first. Refused where the journal is full; then nothing is changed.
    #[inline(always)]
    pub fn load(&mut self, who: Caller, range: &CellRange) -> Result<u64, JournalFull>
        requires { MayCallShard self.old who (load_call self.old range.now) }
        ensures of_its_cell { IfOk result
            (λ value. value ≡ number_in_cell (state_of self.old) range.now.cell range.now.offset range.now.size) }
        ensures entered { IfOk result (λ value. self.new ≡ shard_with_call self.old who (load_call self.old range.now) (Word value)) }
        ensures legal { IsLegalJournal self.new.plan self.new.journal }
        ensures full { IsErr result ↔ IsFullFor self.old (load_call self.old range.now) }
        ensures names_the_shard { IfErr result (λ fault. fault.shard ≡ self.old.plan.number) }
        ensures refused_unchanged { OnErr result (self.new ≡ self.old) }
    {
        if self.lacks_room(0) {
            return Err(self.full());
        }
        let value = number_in(&self.cells, range);
        self.journal.append_load(who, range, value);
        Ok(value)
    }

    /// Writes a number into some bytes of a held cell, the lowest first. Refused where the journal is full; then nothing is changed.
    #[inline(always)]
    pub fn store(&mut self, who: Caller, range: &CellRange, value: u64) -> Result<(), JournalFull>
        requires { MayCallShard self.old who (store_call self.old range.now value) }
        ensures entered { OnOk result (self.new ≡ shard_with_call self.old who (store_call self.old range.now value) Done) }
        ensures legal { IsLegalJournal self.new.plan self.new.journal }
        ensures full { IsErr result ↔ IsFullFor self.old (store_call self.old range.now value) }
        ensures names_the_shard { IfErr result (λ fault. fault.shard ≡ self.old.plan.number) }
        ensures refused_unchanged { OnErr result (self.new ≡ self.old) }
    {
        if self.lacks_room(0) {
            return Err(self.full());
        }
        put_number(&mut self.cells, range, value);
        self.journal.append_store(who, range, value);
        Ok(())
    }

    /// Changes the number in some bytes of a held cell in one step, and returns what it was. Refused where the journal is full; then
    /// nothing is changed.
    #[inline(always)]
    pub fn atomic(
        &mut self,
        who: Caller,
        range: &CellRange,
        change: &AtomicChange,
    ) -> Result<u64, JournalFull>
        requires { MayCallShard self.old who (shard_atomic_call self.old range.now change.now) }
        ensures of_its_cell { IfOk result (λ old. old ≡ number_in_cell (state_of self.old) range.now.cell range.now.offset range.now.size) }
        ensures entered { IfOk result (λ old. self.new ≡ shard_with_call self.old who (shard_atomic_call self.old range.now change.now) (Word old)) }
        ensures legal { IsLegalJournal self.new.plan self.new.journal }
        ensures full { IsErr result ↔ IsFullFor self.old (shard_atomic_call self.old range.now change.now) }
        ensures names_the_shard { IfErr result (λ fault. fault.shard ≡ self.old.plan.number) }
        ensures refused_unchanged { OnErr result (self.new ≡ self.old) }
    {
        if self.lacks_room(0) {
            return Err(self.full());
        }
        let Some(op) = AtomicOp::of(change.op) else {
            unreachable!()
        };
        let old = change_number(&mut self.cells, range, op, change);
        self.journal.append_atomic(who, range, change, old);
        Ok(old)
    }

    /// What an Update of a key answers now.
    fn update_answer(&self, key: &[u8], flags: u64) -> i32
        requires { length key.now ≡ self.now.plan.definition.key_size }
        ensures { result ≡ update_answer self.now.plan (state_of self.now) key.now flags }
    {
        let counts = Occupancy {
            present: self.keys.len(),
            waiting: self.cells.waiting(),
        };
        match UpdateFlags::of(flags) {
            None => Errno::Invalid.code(),
            Some(flags) => update_answer_of_kind(&self.plan, counts, flags, self.keys.find(key)),
        }
    }

    /// What a Delete of a key answers now.
    fn delete_answer(&self, key: &[u8]) -> i32
        requires { length key.now ≡ self.now.plan.definition.key_size }
        ensures { result ≡ delete_answer self.now.plan (state_of self.now) key.now }
    {
        delete_answer_of_kind(self.plan.definition.kind, self.keys.find(key))
    }

    /// Sets the value of a key as bpf(2) has it, and returns its answer: 0, or Linux's error number, negated; then the value is not set.
    /// Refused where the journal is full; then nothing is changed.
    pub fn update(
        &mut self,
        who: Caller,
        key: &[u8],
        value: &[u8],
        flags: u64,
    ) -> Result<i32, JournalFull>
        requires { MayCallShard self.old who (shard_update_call self.old key.now value.now flags) }
        ensures answered { IfOk result (λ code. code ≡ update_answer self.old.plan (state_of self.old) key.now flags) }
        ensures entered { IfOk result
            (λ code. self.new ≡ shard_with_call self.old who (shard_update_call self.old key.now value.now flags) (Answer code)) }
        ensures legal { IsLegalJournal self.new.plan self.new.journal }
        ensures full { IsErr result ↔ IsFullFor self.old (shard_update_call self.old key.now value.now flags) }
        ensures names_the_shard { IfErr result (λ fault. fault.shard ≡ self.old.plan.number) }
        ensures refused_unchanged { OnErr result (self.new ≡ self.old) }
    {
        if self.lacks_room(0) {
            return Err(self.full());
        }
        let code = self.update_answer(key, flags);
        put_value(
            code,
            &mut self.cells,
            &mut self.keys,
            &mut self.readers,
            key,
            value,
        );
        self.journal.append_update(who, key, value, flags, code);
        Ok(code)
    }

    /// Takes a key out as bpf(2) has it, and returns its answer: 0, and then its cell waits for its readers; or Linux's error number,
    /// negated, and then no key goes. Refused where the journal is full; then nothing is changed.
    pub fn delete(&mut self, who: Caller, key: &[u8]) -> Result<i32, JournalFull>
        requires { MayCallShard self.old who (shard_delete_call self.old key.now) }
        ensures answered { IfOk result (λ code. code ≡ delete_answer self.old.plan (state_of self.old) key.now) }
        ensures entered { IfOk result (λ code. self.new ≡ shard_with_call self.old who (shard_delete_call self.old key.now) (Answer code)) }
        ensures legal { IsLegalJournal self.new.plan self.new.journal }
        ensures full { IsErr result ↔ IsFullFor self.old (shard_delete_call self.old key.now) }
        ensures names_the_shard { IfErr result (λ fault. fault.shard ≡ self.old.plan.number) }
        ensures refused_unchanged { OnErr result (self.new ≡ self.old) }
    {
        if self.lacks_room(0) {
            return Err(self.full());
        }
        let code = self.delete_answer(key);
        retire_key(
            code,
            &mut self.cells,
            &mut self.keys,
            &mut self.readers,
            key,
        );
        self.journal.append_delete(who, key, code);
        Ok(code)
    }

    /// Frees the retired cells that no run inside can hold, since each entered after they were retired, and says how many they were.
    /// Refused where the journal is full; then nothing is changed.
    pub fn reclaim(&mut self, who: Caller) -> Result<u64, JournalFull>
        requires { MayCallShard self.old who (reclaim_call self.old) }
        ensures replied { IfOk result (λ count. Freed count ≡ sequential_reply self.old (reclaim_call self.old)) }
        ensures entered { IfOk result (λ count. self.new ≡ shard_with_call self.old who (reclaim_call self.old) (Freed count)) }
        ensures legal { IsLegalJournal self.new.plan self.new.journal }
        ensures full { IsErr result ↔ IsFullFor self.old (reclaim_call self.old) }
        ensures names_the_shard { IfErr result (λ fault. fault.shard ≡ self.old.plan.number) }
        ensures refused_unchanged { OnErr result (self.new ≡ self.old) }
    {
        if self.lacks_room(0) {
            return Err(self.full());
        }
        let floor = self.readers.floor();
        let count = self.cells.free(floor);
        self.journal.append_reclaim(who, count);
        Ok(count)
    }
}
