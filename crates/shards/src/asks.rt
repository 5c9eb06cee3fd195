//! What a caller asks of a shard: a type for each kind of call, with what it is answered; and a call of each kind.

ghost use Rattle.std.specs.Prelude.{◌≡◌, ◌<◌, ◌∷◌, ◌↔◌, ℕ, IsErr, IfOk, IfErr, OnOk, OnErr};
ghost use Rattle.semantics.specs.declared.call.Call.{Call};
ghost use Rattle.semantics.specs.declared.call.Call.TheVariants.{Enter, Leave, Lookup, Update, Delete, Reclaim};
ghost use Rattle.semantics.specs.declared.call.Reply.{Reply};
ghost use Rattle.semantics.specs.declared.call.Reply.TheVariants.{Entered, Left, Word, Done, Answer, Freed};
ghost use Rattle.semantics.specs.Sections.{section_change};
ghost use Rattle.semantics.specs.History.{IsLegalJournal};
ghost use Rattle.shard_core.specs.Calls.{MayCallShard, IsFullFor, shard_with_call};
ghost use Rattle.semantics.specs.Reclamation.{held_change};
ghost use Rattle.journal.specs.Entries.{found_reply, leave_entry, load_on, store_on, atomic_on};
ghost use Rattle.shards.specs.declared.deeds.Deed.TheVariants.{Wrote};
ghost use Rattle.shards.specs.Asked.{PassMayAsk, PassIsServed, PassIsRefused};
ghost use Rattle.shards.specs.Deeds.{deed_by};
ghost use Rattle.shards.specs.Passes.{KnowsItsOwn, IsElsewhereSame};

use crate::naming::Naming;
use crate::pass::Pass;
use crate::sharing::Shards;
use journal::{AtomicChange, CellRange};
use semantics::{Call, Caller, HeldChange, JournalFull, Reply, SectionChange};
use shard_core::Shard;
use std::sync::Wait;

/// A call of one kind. It is one step of the shard and one entry of its journal.
pub trait Ask: Copy {
    /// What the shard answers, where the journal has room.
    type Answer;

    /// The call, on the shard of a number.
    ghost asks: { Self → ℕ → Call };

    /// The reply that an answer means, for the shard of a number.
    ghost replies: { ℕ → Self.Answer → Reply };

    /// What the call does to its worker's section of the shard.
    fn section(&self) -> SectionChange
        ensures { (number : ℕ) → result ≡ section_change (asks self.now number) };

    /// What the call, with this answer, makes of the cells that its worker holds.
    fn held(&self, answer: &Self::Answer) -> HeldChange
        ensures { (number : ℕ) → result ≡ held_change (asks self.now number) (replies number answer.now) };

    /// Makes the call for a caller that may make it. Refused where the journal is full; then nothing is changed.
    fn make(self, shard: &mut Shard, who: Caller) -> Result<Self::Answer, JournalFull>
        requires { MayCallShard shard.old who (asks self shard.old.plan.number) }
        ensures entered { IfOk result (λ answer. shard.new ≡ shard_with_call shard.old who (asks self shard.old.plan.number)
            (replies shard.old.plan.number answer)) }
        ensures legal { IsLegalJournal shard.new.plan shard.new.journal }
        ensures full { IsErr result ↔ IsFullFor shard.old (asks self shard.old.plan.number) }
        ensures names_the_shard { IfErr result (λ fault. fault.shard ≡ shard.old.plan.number) }
        ensures refused_unchanged { OnErr result (shard.new ≡ shard.old) };
}

/// An Enter.
#[derive(Clone, Copy)]
pub struct Enters;

impl Ask for Enters {
    ghost use Rattle.semantics.specs.declared.call.Call.TheVariants.{Enter};
    ghost use Rattle.semantics.specs.declared.call.Reply.TheVariants.{Entered};

    type Answer = ();

    ghost asks = { λ ask number. Enter number };

    ghost replies = { λ number answer. Entered };

    #[inline(always)]
    fn section(&self) -> SectionChange {
        SectionChange::Begins
    }

    #[inline(always)]
    fn held(&self, _answer: &()) -> HeldChange {
        HeldChange::LetsGo
    }

    #[inline(always)]
    fn make(self, shard: &mut Shard, who: Caller) -> Result<(), JournalFull> {
        shard.enter(who)
    }
}

/// A Leave, which is never refused.
#[derive(Clone, Copy)]
pub struct Leaves;

impl Ask for Leaves {
    ghost use Rattle.semantics.specs.declared.call.Call.TheVariants.{Leave};
    ghost use Rattle.semantics.specs.declared.call.Reply.TheVariants.{Left};

    type Answer = ();

    ghost asks = { λ ask number. Leave number };

    ghost replies = { λ number answer. Left };

    #[inline(always)]
    fn section(&self) -> SectionChange {
        SectionChange::Ends
    }

    #[inline(always)]
    fn held(&self, _answer: &()) -> HeldChange {
        HeldChange::LetsGo
    }

    #[inline(always)]
    fn make(self, shard: &mut Shard, who: Caller) -> Result<(), JournalFull> {
        shard.leave(who);
        Ok(())
    }
}

/// A Lookup, answered with the id of the key's cell.
#[derive(Clone, Copy)]
pub struct Looks<'a> {
    pub key: &'a [u8],
}

impl<'a> Ask for Looks<'a> {
    ghost use Rattle.semantics.specs.declared.call.Call.TheVariants.{Lookup};
    ghost use Rattle.journal.specs.Entries.{found_reply};

    type Answer = Option<u64>;

    ghost asks = { λ ask number. Lookup number ask.key.now };

    ghost replies = { found_reply };

    #[inline(always)]
    fn section(&self) -> SectionChange {
        SectionChange::Stays
    }

    #[inline(always)]
    fn held(&self, answer: &Option<u64>) -> HeldChange {
        match *answer {
            Some(id) => HeldChange::Finds { id },
            None => HeldChange::Stays,
        }
    }

    #[inline(always)]
    fn make(self, shard: &mut Shard, who: Caller) -> Result<Option<u64>, JournalFull> {
        shard.lookup(who, self.key)
    }
}

/// A Load of some bytes of a held cell.
#[derive(Clone, Copy)]
pub struct Loads<'a> {
    pub range: &'a CellRange,
}

impl<'a> Ask for Loads<'a> {
    ghost use Rattle.semantics.specs.declared.call.Reply.TheVariants.{Word};
    ghost use Rattle.journal.specs.Entries.{load_on};

    type Answer = u64;

    ghost asks = { λ ask number. load_on number ask.range.now };

    ghost replies = { λ number value. Word value };

    #[inline(always)]
    fn section(&self) -> SectionChange {
        SectionChange::Stays
    }

    #[inline(always)]
    fn held(&self, _answer: &u64) -> HeldChange {
        HeldChange::Stays
    }

    #[inline(always)]
    fn make(self, shard: &mut Shard, who: Caller) -> Result<u64, JournalFull> {
        shard.load(who, self.range)
    }
}

/// A Store of a number into some bytes of a held cell.
#[derive(Clone, Copy)]
pub struct Stores<'a> {
    pub range: &'a CellRange,
    pub value: u64,
}

impl<'a> Ask for Stores<'a> {
    ghost use Rattle.semantics.specs.declared.call.Reply.TheVariants.{Done};
    ghost use Rattle.journal.specs.Entries.{store_on};

    type Answer = ();

    ghost asks = { λ ask number. store_on number ask.range.now ask.value };

    ghost replies = { λ number answer. Done };

    #[inline(always)]
    fn section(&self) -> SectionChange {
        SectionChange::Stays
    }

    #[inline(always)]
    fn held(&self, _answer: &()) -> HeldChange {
        HeldChange::Stays
    }

    #[inline(always)]
    fn make(self, shard: &mut Shard, who: Caller) -> Result<(), JournalFull> {
        shard.store(who, self.range, self.value)
    }
}

/// An Atomic on some bytes of a held cell, answered with the number that was there.
#[derive(Clone, Copy)]
pub struct Changes<'a> {
    pub range: &'a CellRange,
    pub change: &'a AtomicChange,
}

impl<'a> Ask for Changes<'a> {
    ghost use Rattle.semantics.specs.declared.call.Reply.TheVariants.{Word};
    ghost use Rattle.journal.specs.Entries.{atomic_on};

    type Answer = u64;

    ghost asks = { λ ask number. atomic_on number ask.range.now ask.change.now };

    ghost replies = { λ number old. Word old };

    #[inline(always)]
    fn section(&self) -> SectionChange {
        SectionChange::Stays
    }

    #[inline(always)]
    fn held(&self, _answer: &u64) -> HeldChange {
        HeldChange::Stays
    }

    #[inline(always)]
    fn make(self, shard: &mut Shard, who: Caller) -> Result<u64, JournalFull> {
        shard.atomic(who, self.range, self.change)
    }
}

/// An Update of a key.
#[derive(Clone, Copy)]
pub struct Updates<'a> {
    pub key: &'a [u8],
    pub value: &'a [u8],
    pub flags: u64,
}

impl<'a> Ask for Updates<'a> {
    ghost use Rattle.semantics.specs.declared.call.Call.TheVariants.{Update};
    ghost use Rattle.semantics.specs.declared.call.Reply.TheVariants.{Answer};

    type Answer = i32;

    ghost asks = { λ ask number. Update number ask.key.now ask.value.now ask.flags };

    ghost replies = { λ number code. Answer code };

    #[inline(always)]
    fn section(&self) -> SectionChange {
        SectionChange::Stays
    }

    #[inline(always)]
    fn held(&self, _answer: &i32) -> HeldChange {
        HeldChange::Stays
    }

    #[inline(always)]
    fn make(self, shard: &mut Shard, who: Caller) -> Result<i32, JournalFull> {
        shard.update(who, self.key, self.value, self.flags)
    }
}

/// A Delete of a key.
#[derive(Clone, Copy)]
pub struct Deletes<'a> {
    pub key: &'a [u8],
}

impl<'a> Ask for Deletes<'a> {
    ghost use Rattle.semantics.specs.declared.call.Call.TheVariants.{Delete};
    ghost use Rattle.semantics.specs.declared.call.Reply.TheVariants.{Answer};

    type Answer = i32;

    ghost asks = { λ ask number. Delete number ask.key.now };

    ghost replies = { λ number code. Answer code };

    #[inline(always)]
    fn section(&self) -> SectionChange {
        SectionChange::Stays
    }

    #[inline(always)]
    fn held(&self, _answer: &i32) -> HeldChange {
        HeldChange::Stays
    }

    #[inline(always)]
    fn make(self, shard: &mut Shard, who: Caller) -> Result<i32, JournalFull> {
        shard.delete(who, self.key)
    }
}

/// A Reclaim, answered with how many cells it freed.
#[derive(Clone, Copy)]
pub struct Reclaims;

impl Ask for Reclaims {
    ghost use Rattle.semantics.specs.declared.call.Call.TheVariants.{Reclaim};
    ghost use Rattle.semantics.specs.declared.call.Reply.TheVariants.{Freed};

    type Answer = u64;

    ghost asks = { λ ask number. Reclaim number };

    ghost replies = { λ number count. Freed count };

    #[inline(always)]
    fn section(&self) -> SectionChange {
        SectionChange::Stays
    }

    #[inline(always)]
    fn held(&self, _answer: &u64) -> HeldChange {
        HeldChange::Stays
    }

    #[inline(always)]
    fn make(self, shard: &mut Shard, who: Caller) -> Result<u64, JournalFull> {
        shard.reclaim(who)
    }
}

/// A call as a value, on the shard that it names.
#[derive(Clone, Copy)]
pub struct Calls<'a> {
    pub call: &'a Call,
}

impl<'a> Ask for Calls<'a> {
    type Answer = Reply;

    ghost asks = { λ ask number. ask.call.now };

    ghost replies = { λ number reply. reply };

    #[inline(always)]
    fn section(&self) -> SectionChange {
        self.call.section_change()
    }

    #[inline(always)]
    fn held(&self, answer: &Reply) -> HeldChange {
        HeldChange::of(self.call, answer)
    }

    #[inline(always)]
    fn make(self, shard: &mut Shard, who: Caller) -> Result<Reply, JournalFull> {
        shard.apply(who, self.call)
    }
}

/// Each is the next entry of the shard's one history, whatever other threads do: `ask`, with its arguments and its answer by name.
impl<B: Naming> Shards<B> {
    /// A worker enters the shard.
    pub fn enter(&self, rt: &impl Wait, pass: &mut Pass<B>, shard: u32) -> Result<(), JournalFull>
        requires shard { shard < B.count }
        requires met { PassMayAsk (B.plan shard) shard pass.old (Enter shard) }
        ensures elsewhere { IsElsewhereSame shard pass.old pass.new }
        ensures own { KnowsItsOwn shard pass.new }
        ensures served { OnOk result (PassIsServed (B.plan shard) shard pass.old pass.new (Enter shard) Entered) }
        ensures refused { OnErr result (PassIsRefused (B.plan shard) shard pass.old pass.new (Enter shard)) }
        ensures names_the_shard { IfErr result (λ fault. fault.shard ≡ shard) }
        ensures did { pass.new.deeds ≡ deed_by pass.old.who (Enter shard) (λ (done : Unit {0}). Entered) result ∷ pass.old.deeds }
    {
        self.ask(rt, pass, shard, Enters)
    }

    /// A worker leaves the shard, and lets its cells go. Never refused.
    pub fn leave(&self, rt: &impl Wait, pass: &mut Pass<B>, shard: u32)
        requires shard { shard < B.count }
        requires met { PassMayAsk (B.plan shard) shard pass.old (Leave shard) }
        ensures elsewhere { IsElsewhereSame shard pass.old pass.new }
        ensures own { KnowsItsOwn shard pass.new }
        ensures served { PassIsServed (B.plan shard) shard pass.old pass.new (Leave shard) Left }
        ensures did { pass.new.deeds ≡ Wrote (leave_entry shard pass.old.who) ∷ pass.old.deeds }
    {
        if self.ask(rt, pass, shard, Leaves).is_err() {
            unreachable!()
        }
    }

    /// The id of a key's cell, which the worker then holds; none where the key is absent.
    pub fn lookup(
        &self,
        rt: &impl Wait,
        pass: &mut Pass<B>,
        shard: u32,
        key: &[u8],
    ) -> Result<Option<u64>, JournalFull>
        requires shard { shard < B.count }
        requires met { PassMayAsk (B.plan shard) shard pass.old (Lookup shard key.now) }
        ensures elsewhere { IsElsewhereSame shard pass.old pass.new }
        ensures own { KnowsItsOwn shard pass.new }
        ensures served { IfOk result
            (λ found. PassIsServed (B.plan shard) shard pass.old pass.new (Lookup shard key.now) (found_reply shard found)) }
        ensures refused { OnErr result (PassIsRefused (B.plan shard) shard pass.old pass.new (Lookup shard key.now)) }
        ensures names_the_shard { IfErr result (λ fault. fault.shard ≡ shard) }
        ensures did { pass.new.deeds ≡ deed_by pass.old.who (Lookup shard key.now) (found_reply shard) result ∷ pass.old.deeds }
    {
        self.ask(rt, pass, shard, Looks { key })
    }

    /// The number that some bytes of a held cell make, the lowest first.
    pub fn load(
        &self,
        rt: &impl Wait,
        pass: &mut Pass<B>,
        shard: u32,
        range: &CellRange,
    ) -> Result<u64, JournalFull>
        requires shard { shard < B.count }
        requires met { PassMayAsk (B.plan shard) shard pass.old (load_on shard range.now) }
        ensures elsewhere { IsElsewhereSame shard pass.old pass.new }
        ensures own { KnowsItsOwn shard pass.new }
        ensures served { IfOk result (λ value. PassIsServed (B.plan shard) shard pass.old pass.new (load_on shard range.now) (Word value)) }
        ensures refused { OnErr result (PassIsRefused (B.plan shard) shard pass.old pass.new (load_on shard range.now)) }
        ensures names_the_shard { IfErr result (λ fault. fault.shard ≡ shard) }
        ensures did { pass.new.deeds ≡ deed_by pass.old.who (load_on shard range.now) Word result ∷ pass.old.deeds }
    {
        self.ask(rt, pass, shard, Loads { range })
    }

    /// Writes a number into some bytes of a held cell, the lowest first.
    pub fn store(
        &self,
        rt: &impl Wait,
        pass: &mut Pass<B>,
        shard: u32,
        range: &CellRange,
        value: u64,
    ) -> Result<(), JournalFull>
        requires shard { shard < B.count }
        requires met { PassMayAsk (B.plan shard) shard pass.old (store_on shard range.now value) }
        ensures elsewhere { IsElsewhereSame shard pass.old pass.new }
        ensures own { KnowsItsOwn shard pass.new }
        ensures served { OnOk result (PassIsServed (B.plan shard) shard pass.old pass.new (store_on shard range.now value) Done) }
        ensures refused { OnErr result (PassIsRefused (B.plan shard) shard pass.old pass.new (store_on shard range.now value)) }
        ensures names_the_shard { IfErr result (λ fault. fault.shard ≡ shard) }
        ensures did { pass.new.deeds ≡
            deed_by pass.old.who (store_on shard range.now value) (λ (done : Unit {0}). Done) result ∷ pass.old.deeds }
    {
        self.ask(rt, pass, shard, Stores { range, value })
    }

    /// Changes the number in some bytes of a held cell in one step, and returns what it was.
    pub fn atomic(
        &self,
        rt: &impl Wait,
        pass: &mut Pass<B>,
        shard: u32,
        range: &CellRange,
        change: &AtomicChange,
    ) -> Result<u64, JournalFull>
        requires shard { shard < B.count }
        requires met { PassMayAsk (B.plan shard) shard pass.old (atomic_on shard range.now change.now) }
        ensures elsewhere { IsElsewhereSame shard pass.old pass.new }
        ensures own { KnowsItsOwn shard pass.new }
        ensures served { IfOk result
            (λ value. PassIsServed (B.plan shard) shard pass.old pass.new (atomic_on shard range.now change.now) (Word value)) }
        ensures refused { OnErr result (PassIsRefused (B.plan shard) shard pass.old pass.new (atomic_on shard range.now change.now)) }
        ensures names_the_shard { IfErr result (λ fault. fault.shard ≡ shard) }
        ensures did { pass.new.deeds ≡ deed_by pass.old.who (atomic_on shard range.now change.now) Word result ∷ pass.old.deeds }
    {
        self.ask(rt, pass, shard, Changes { range, change })
    }

    /// Sets the value of a key as bpf(2) has it, and returns its answer: 0, or Linux's error number, negated.
    pub fn update(
        &self,
        rt: &impl Wait,
        pass: &mut Pass<B>,
        shard: u32,
        key: &[u8],
        value: &[u8],
        flags: u64,
    ) -> Result<i32, JournalFull>
        requires shard { shard < B.count }
        requires met { PassMayAsk (B.plan shard) shard pass.old (Update shard key.now value.now flags) }
        ensures elsewhere { IsElsewhereSame shard pass.old pass.new }
        ensures own { KnowsItsOwn shard pass.new }
        ensures served { IfOk result
            (λ code. PassIsServed (B.plan shard) shard pass.old pass.new (Update shard key.now value.now flags) (Answer code)) }
        ensures refused { OnErr result (PassIsRefused (B.plan shard) shard pass.old pass.new (Update shard key.now value.now flags)) }
        ensures names_the_shard { IfErr result (λ fault. fault.shard ≡ shard) }
        ensures did { pass.new.deeds ≡ deed_by pass.old.who (Update shard key.now value.now flags) Answer result ∷ pass.old.deeds }
    {
        self.ask(rt, pass, shard, Updates { key, value, flags })
    }

    /// Takes a key out as bpf(2) has it, and returns its answer: 0, or Linux's error number, negated.
    pub fn delete(
        &self,
        rt: &impl Wait,
        pass: &mut Pass<B>,
        shard: u32,
        key: &[u8],
    ) -> Result<i32, JournalFull>
        requires shard { shard < B.count }
        requires met { PassMayAsk (B.plan shard) shard pass.old (Delete shard key.now) }
        ensures elsewhere { IsElsewhereSame shard pass.old pass.new }
        ensures own { KnowsItsOwn shard pass.new }
        ensures served { IfOk result (λ code. PassIsServed (B.plan shard) shard pass.old pass.new (Delete shard key.now) (Answer code)) }
        ensures refused { OnErr result (PassIsRefused (B.plan shard) shard pass.old pass.new (Delete shard key.now)) }
        ensures names_the_shard { IfErr result (λ fault. fault.shard ≡ shard) }
        ensures did { pass.new.deeds ≡ deed_by pass.old.who (Delete shard key.now) Answer result ∷ pass.old.deeds }
    {
        self.ask(rt, pass, shard, Deletes { key })
    }

    /// Frees the retired cells that no run inside can hold, and says how many they were.
    pub fn reclaim(
        &self,
        rt: &impl Wait,
        pass: &mut Pass<B>,
        shard: u32,
    ) -> Result<u64, JournalFull>
        requires shard { shard < B.count }
        requires met { PassMayAsk (B.plan shard) shard pass.old (Reclaim shard) }
        ensures elsewhere { IsElsewhereSame shard pass.old pass.new }
        ensures own { KnowsItsOwn shard pass.new }
        ensures served { IfOk result (λ count. PassIsServed (B.plan shard) shard pass.old pass.new (Reclaim shard) (Freed count)) }
        ensures refused { OnErr result (PassIsRefused (B.plan shard) shard pass.old pass.new (Reclaim shard)) }
        ensures names_the_shard { IfErr result (λ fault. fault.shard ≡ shard) }
        ensures did { pass.new.deeds ≡ deed_by pass.old.who (Reclaim shard) Freed result ∷ pass.old.deeds }
    {
        self.ask(rt, pass, shard, Reclaims)
    }
}
