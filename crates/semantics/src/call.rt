//! The calls on a map shard, their callers and their replies.

ghost use Rattle.std.specs.Prelude.{◌≡◌};
ghost use Rattle.std.specs.Option.{option_map};
ghost use Rattle.semantics.specs.Sections.{section_change};
ghost use Rattle.semantics.specs.Cells.{cell_of_call, cell_of_reply, key_of_call, value_of_call, worker_of, word_in, answer_in};
ghost use Rattle.semantics.specs.LeastRecentlyUsed.{is_done, uses};
ghost use Rattle.semantics.specs.Reclamation.{found_change, held_change};
ghost use Rattle.semantics.specs.History.{shard_of_call, is_reclaimer};

use crate::bytes::{Key, Value};

/// Who makes a call.
#[derive(Clone, Copy, Debug, PartialEq, Eq)]
pub enum Caller {
    /// A worker, by its number from 0 to 7.
    Worker { number: u8 },
    /// The controller, which takes backends up and down.
    Controller,
    /// The reclaimer, which frees retired cells.
    Reclaimer,
}

impl Caller {
    /// The worker's number, if a worker calls.
    pub fn worker(&self) -> Option<u8>
        ensures { result ≡ worker_of self.now }
    {
        match self {
            Caller::Worker { number } => Some(*number),
            Caller::Controller => None,
            Caller::Reclaimer => None,
        }
    }

    /// Whether the reclaimer calls.
    pub fn is_reclaimer(&self) -> bool
        ensures { result ≡ is_reclaimer self.now }
    {
        match self {
            Caller::Worker { .. } => false,
            Caller::Controller => false,
            Caller::Reclaimer => true,
        }
    }
}

/// A cell of a shard, by the id that it got at its creation. An id is never given again.
#[derive(Clone, Copy, Debug, PartialEq, Eq)]
pub struct CellRef {
    /// The shard's number.
    pub shard: u32,
    /// How many cells the shard had created before this one.
    pub id: u64,
}

/// A call on one shard. Numbers are as a journal has them, so a call may be one that no map serves.
#[derive(Clone, Copy, Debug, PartialEq, Eq)]
pub enum Call {
    /// A worker begins a read-side section of the shard.
    Enter {
        shard: u32,
    },
    /// The worker ends it, and lets its cells go.
    Leave {
        shard: u32,
    },
    /// Asks for the cell of a key.
    Lookup {
        shard: u32,
        key: Key,
    },
    /// Reads some bytes of a cell, little-endian.
    Load {
        cell: CellRef,
        offset: u64,
        size: u64,
    },
    /// Writes some bytes of a cell, little-endian.
    Store {
        cell: CellRef,
        offset: u64,
        size: u64,
        value: u64,
    },
    /// Changes some bytes of a cell in one step, by the operation whose immediate is `op` (RFC 9669, section 5.3).
    Atomic {
        cell: CellRef,
        offset: u64,
        size: u64,
        op: u64,
        value: u64,
        expected: u64,
    },
    /// Sets the value of a key, as bpf(2) has it: `flags` is ANY 0, NOEXIST 1 or EXIST 2.
    Update {
        shard: u32,
        key: Key,
        value: Value,
        flags: u64,
    },
    /// Removes a key.
    Delete {
        shard: u32,
        key: Key,
    },
    /// Frees the retired cells that no reader can still hold.
    Reclaim {
        shard: u32,
    },
}

/// What a call does to its worker's read-side section of the shard.
#[derive(Clone, Copy, Debug, PartialEq, Eq)]
pub enum SectionChange {
    /// Enter.
    Begins,
    /// Leave.
    Ends,
    /// Every other call.
    Stays,
}

impl Call {
    /// The shard that the call names.
    pub fn shard(&self) -> u32
        ensures { result ≡ shard_of_call self.now }
    {
        match self {
            Call::Enter { shard } => *shard,
            Call::Leave { shard } => *shard,
            Call::Lookup { shard, .. } => *shard,
            Call::Load { cell, .. } => cell.shard,
            Call::Store { cell, .. } => cell.shard,
            Call::Atomic { cell, .. } => cell.shard,
            Call::Update { shard, .. } => *shard,
            Call::Delete { shard, .. } => *shard,
            Call::Reclaim { shard } => *shard,
        }
    }

    /// The cell whose bytes the call reads or writes.
    pub fn cell(&self) -> Option<CellRef>
        ensures { result ≡ cell_of_call self.now }
    {
        match self {
            Call::Enter { .. } => None,
            Call::Leave { .. } => None,
            Call::Lookup { .. } => None,
            Call::Load { cell, .. } => Some(*cell),
            Call::Store { cell, .. } => Some(*cell),
            Call::Atomic { cell, .. } => Some(*cell),
            Call::Update { .. } => None,
            Call::Delete { .. } => None,
            Call::Reclaim { .. } => None,
        }
    }

    /// The key that the call names.
    pub fn key(&self) -> Option<&Key>
        ensures { option_map (λ key. key.now) result ≡ key_of_call self.now }
    {
        match self {
            Call::Enter { .. } => None,
            Call::Leave { .. } => None,
            Call::Lookup { key, .. } => Some(key),
            Call::Load { .. } => None,
            Call::Store { .. } => None,
            Call::Atomic { .. } => None,
            Call::Update { key, .. } => Some(key),
            Call::Delete { key, .. } => Some(key),
            Call::Reclaim { .. } => None,
        }
    }

    /// The value that an Update sets for its key.
    pub fn value(&self) -> Option<&Value>
        ensures { option_map (λ value. value.now) result ≡ value_of_call self.now }
    {
        match self {
            Call::Enter { .. } => None,
            Call::Leave { .. } => None,
            Call::Lookup { .. } => None,
            Call::Load { .. } => None,
            Call::Store { .. } => None,
            Call::Atomic { .. } => None,
            Call::Update { value, .. } => Some(value),
            Call::Delete { .. } => None,
            Call::Reclaim { .. } => None,
        }
    }

    /// What the call does to its worker's section.
    pub fn section_change(&self) -> SectionChange
        ensures { result ≡ section_change self.now }
    {
        match self {
            Call::Enter { .. } => SectionChange::Begins,
            Call::Leave { .. } => SectionChange::Ends,
            Call::Lookup { .. } => SectionChange::Stays,
            Call::Load { .. } => SectionChange::Stays,
            Call::Store { .. } => SectionChange::Stays,
            Call::Atomic { .. } => SectionChange::Stays,
            Call::Update { .. } => SectionChange::Stays,
            Call::Delete { .. } => SectionChange::Stays,
            Call::Reclaim { .. } => SectionChange::Stays,
        }
    }
}

/// The reply to a call.
#[derive(Clone, Copy, Debug, PartialEq, Eq)]
pub enum Reply {
    /// To Enter.
    Entered,
    /// To Leave.
    Left,
    /// To a Lookup that found its key.
    Cell { cell: CellRef },
    /// To a Lookup of a key that is absent.
    Null,
    /// To Load, what it read; to Atomic, what was there before. Zero-extended.
    Word { value: u64 },
    /// To Store.
    Done,
    /// To Update and Delete: 0, or Linux's error number, negated.
    Answer { code: i32 },
    /// To Reclaim: how many cells it freed.
    Freed { count: u64 },
}

impl Reply {
    /// The cell that a Lookup found.
    pub fn cell(&self) -> Option<CellRef>
        ensures { result ≡ cell_of_reply self.now }
    {
        match self {
            Reply::Entered => None,
            Reply::Left => None,
            Reply::Cell { cell } => Some(*cell),
            Reply::Null => None,
            Reply::Word { .. } => None,
            Reply::Done => None,
            Reply::Answer { .. } => None,
            Reply::Freed { .. } => None,
        }
    }

    /// The number that a Load or an atomic operation returned, 0 in another reply.
    pub fn word(&self) -> u64
        ensures { result ≡ word_in self.now }
    {
        match self {
            Reply::Word { value } => *value,
            Reply::Entered => 0,
            Reply::Left => 0,
            Reply::Cell { .. } => 0,
            Reply::Null => 0,
            Reply::Done => 0,
            Reply::Answer { .. } => 0,
            Reply::Freed { .. } => 0,
        }
    }

    /// What an Update or a Delete answered, 0 in another reply.
    pub fn answer(&self) -> i32
        ensures { result ≡ answer_in self.now }
    {
        match self {
            Reply::Answer { code } => *code,
            Reply::Entered => 0,
            Reply::Left => 0,
            Reply::Cell { .. } => 0,
            Reply::Null => 0,
            Reply::Word { .. } => 0,
            Reply::Done => 0,
            Reply::Freed { .. } => 0,
        }
    }

    /// Whether an Update or a Delete did what it was asked: its answer is 0.
    pub fn is_done(&self) -> bool
        ensures { result ≡ is_done self.now }
    {
        match self {
            Reply::Answer { code } => *code == 0,
            Reply::Entered => false,
            Reply::Left => false,
            Reply::Cell { .. } => false,
            Reply::Null => false,
            Reply::Word { .. } => false,
            Reply::Done => false,
            Reply::Freed { .. } => false,
        }
    }
}

/// What a call that was served makes of the cells that its worker holds.
#[derive(Clone, Copy, Debug, PartialEq, Eq)]
pub enum HeldChange {
    /// Enter and Leave: the worker holds none.
    LetsGo,
    /// A Lookup that found its key: the worker holds this cell too.
    Finds { id: u64 },
    /// Every other call.
    Stays,
}

impl HeldChange {
    /// What a call that is replied to so makes of them.
    pub fn of(call: &Call, reply: &Reply) -> Self
        ensures { result ≡ held_change call.now reply.now }
    {
        match call {
            Call::Enter { .. } => HeldChange::LetsGo,
            Call::Leave { .. } => HeldChange::LetsGo,
            Call::Lookup { .. } => HeldChange::found(reply),
            Call::Load { .. } => HeldChange::Stays,
            Call::Store { .. } => HeldChange::Stays,
            Call::Atomic { .. } => HeldChange::Stays,
            Call::Update { .. } => HeldChange::Stays,
            Call::Delete { .. } => HeldChange::Stays,
            Call::Reclaim { .. } => HeldChange::Stays,
        }
    }

    /// What a Lookup that is answered so makes of them.
    pub fn found(reply: &Reply) -> Self
        ensures { result ≡ found_change reply.now }
    {
        match reply.cell() {
            Some(cell) => HeldChange::Finds { id: cell.id },
            None => HeldChange::Stays,
        }
    }
}

/// One step of a shard: who called, what was asked, what was replied.
#[derive(Clone, Copy, Debug, PartialEq, Eq)]
pub struct Entry {
    pub who: Caller,
    pub call: Call,
    pub reply: Reply,
}

impl Entry {
    /// Whether the entry is a use of the key: a Lookup that found it, or an Update that answered 0.
    pub fn uses(&self, key: &Key) -> bool
        ensures { result ≡ uses key.now self.now }
    {
        match &self.call {
            Call::Lookup { key: asked, .. } => asked.is_same(key) && self.reply.cell().is_some(),
            Call::Update { key: asked, .. } => asked.is_same(key) && self.reply.is_done(),
            Call::Enter { .. } => false,
            Call::Leave { .. } => false,
            Call::Load { .. } => false,
            Call::Store { .. } => false,
            Call::Atomic { .. } => false,
            Call::Delete { .. } => false,
            Call::Reclaim { .. } => false,
        }
    }
}
