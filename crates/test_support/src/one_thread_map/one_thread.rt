//! A map's shard on one thread: slow and plain, so that whatever a faster shard does can be compared with it.

ghost use Rattle.std.specs.Prelude.{◌≡◌, ◌<◌, [], ◌∷◌, List, IsFalse, IfOk, OnErr, reverse, vec_len, vec_capacity, ◌++◌};
ghost use Rattle.semantics.specs.PlanLimits.{IsWithinLimits, IsPlan};
ghost use Rattle.semantics.specs.SequentialShard.{reply_of, shard_after};
ghost use Rattle.semantics.specs.History.{meets, Meets, journal_is_full, IsLegalHistory, IsLegalStep};
ghost use Rattle.test_support.specs.OneThread.{one_thread_with_entry};

use super::answers::reply_of;
use super::changes::apply;
use super::history::{is_inside, journal_is_full, put_entry};
use super::state::{ShardState, opening_cells};
use map_rules::held::holds;
use map_rules::sections::{Sections, meets};
use semantics::{Call, Caller, Entry, Reply, ShardPlan};
use std::alloc::{AllocError, Global};
use std::marker::Model;

/// A shard that one thread calls, with the journal of its calls. Contracts see its plan and its history.
#[derive(Drop)]
pub struct OneThreadShard {
    plan: ShardPlan,
    /// The oldest entry first.
    entries: Vec<Entry>,
    state: ShardState,
}

impl Model for OneThreadShard {
    ghost use Rattle.std.specs.Prelude.{reverse};
    ghost use Rattle.test_support.specs.OneThread.{OneThread, IsOneThread, state_of_lists};

    ghost Value = { OneThread };

    ghost view = { λ shard. record { plan = shard.plan; history = reverse shard.entries.items } };

    ghost invariant = { λ shard. IsOneThread shard.plan shard.entries.items (state_of_lists shard.state) };
}

impl OneThreadShard {
    /// A shard in which nothing has happened. Fails only without memory.
    pub fn open(alloc: Global, plan: ShardPlan) -> Result<Self, AllocError>
        requires { IsPlan plan }
        ensures { IfOk result (λ shard. shard ≡ record { plan = plan; history = [] }) }
    {
        let cells = opening_cells(alloc, &plan)?;
        let state = ShardState {
            present: Vec::new(alloc),
            cells,
            retired: Vec::new(alloc),
        };
        Ok(OneThreadShard {
            plan,
            entries: Vec::new(alloc),
            state,
        })
    }

    /// What the shard was opened with.
    pub fn plan(&self) -> &ShardPlan
        ensures plan { result.now ≡ self.now.plan }
        ensures limits { IsPlan self.now.plan }
    {
        &self.plan
    }

    /// The entries of all calls, the oldest first.
    pub fn journal(&self) -> &[Entry]
        ensures entries { reverse result.now ≡ self.now.history }
        ensures legal { IsLegalHistory self.now.plan self.now.history }
    {
        self.entries.as_slice()
    }

    /// Whether the caller may make this call now.
    pub fn meets(&self, who: &Caller, call: &Call) -> bool
        ensures { result ≡ meets self.now.plan self.now.history who.now call.now }
    {
        meets(self, who, call)
    }

    /// Whether the journal is full for this call.
    pub fn is_full(&self, call: &Call) -> bool
        ensures { result ≡ journal_is_full self.now.plan self.now.history call.now }
    {
        journal_is_full(&self.plan, &self.entries, call)
    }

    /// What the call would reply now, for a caller that may make it.
    pub fn reply(&self, who: &Caller, call: &Call) -> Reply
        requires { Meets self.now.plan self.now.history who.now call.now }
        ensures { result ≡ reply_of self.now.plan self.now.history (shard_after self.now.plan self.now.history) call.now }
    {
        let _ = who;
        reply_of(&self.plan, &self.entries, &self.state, call)
    }

    /// Makes the call, and puts its entry into the journal. Without memory nothing happens.
    pub fn step(&mut self, who: Caller, call: &Call) -> Result<Reply, AllocError>
        requires met { Meets self.old.plan self.old.history who call.now }
        requires room { IsFalse (journal_is_full self.old.plan self.old.history call.now) }
        ensures replied { IfOk result
            (λ reply. reply ≡ reply_of self.old.plan self.old.history (shard_after self.old.plan self.old.history) call.now) }
        ensures entered { IfOk result (λ reply. self.new ≡ one_thread_with_entry self.old (record { who = who; call = call.now; reply = reply })) }
        ensures legal { IfOk result
            (λ reply. IsLegalStep self.old.plan self.old.history (record { who = who; call = call.now; reply = reply })) }
        ensures unchanged { OnErr result (self.new ≡ self.old) }
    {
        let reply = reply_of(&self.plan, &self.entries, &self.state, call);
        self.entries.try_reserve(1)?;
        apply(&self.plan, &self.entries, &mut self.state, call)?;
        put_entry(
            &mut self.entries,
            Entry {
                who,
                call: *call,
                reply,
            },
        );
        Ok(reply)
    }
}

impl Sections for OneThreadShard {
    ghost opened_with = { λ shard. shard.plan };

    ghost history = { λ shard. shard.history };

    fn plan(&self) -> &ShardPlan {
        &self.plan
    }

    fn is_inside(&self, worker: u8) -> bool {
        is_inside(worker, &self.entries)
    }

    fn holds(&self, worker: u8, cell: u64) -> bool {
        holds(worker, cell, &self.entries)
    }
}
