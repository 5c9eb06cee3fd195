//! Which cells a worker holds, by the entries of a journal.
//!
//! A journal has its oldest entry first; the definitions speak of the history, which has its newest entry first.

ghost use Rattle.std.specs.Prelude.{◌≡◌, ◌==◌, ◌<◌, Bool, List, reverse, length, unwrap_or, Some, slice_get};
ghost use Rattle.semantics.specs.declared.call.Entry.{Entry};
ghost use Rattle.semantics.specs.Reclamation.{is_worker, held_change, held_where, held_by, holds};

use semantics::{Call, Caller, Entry, HeldChange, Reply};

/// Whether the caller is the worker of this number.
pub fn is_worker(worker: u8, who: &Caller) -> bool
    ensures { result ≡ is_worker worker who.now }
{
    who.worker() == Some(worker)
}

/// Where a worker's own entry decides whether it then holds the cell: the answer.
fn held_by(call: &Call, reply: &Reply, cell: u64) -> Option<bool>
    ensures { (before : Bool) → unwrap_or result before ≡ held_by call.now reply.now cell before }
{
    match HeldChange::of(call, reply) {
        HeldChange::LetsGo => Some(false),
        HeldChange::Finds { id } => if id == cell { Some(true) } else { None },
        HeldChange::Stays => None,
    }
}

/// Entries by their places, the oldest first.
pub trait Entries {
    /// The list of them.
    ghost entries: { Self → List Entry };

    /// How many there are.
    fn len(&self) -> usize
        ensures { result ≡ length (entries self.now) };

    /// The entry at a place, counted from 0.
    fn entry(&self, place: usize) -> Entry
        requires { place < length (entries self.now) }
        ensures { slice_get (entries self.now) place ≡ Some result };
}

impl Entries for Vec<Entry> {
    ghost entries = { λ list. list.items };

    fn len(&self) -> usize {
        self.len()
    }

    fn entry(&self, place: usize) -> Entry {
        self[place]
    }
}

/// Whether the worker holds the cell: since its last Enter, which no Leave follows, a Lookup of its own found it. Reads the entries from the
/// newest one back to the worker's Enter or Leave.
pub fn holds<J: Entries>(worker: u8, cell: u64, journal: &J) -> bool
    ensures { result ≡ holds worker cell (reverse (J.entries journal.now)) }
{
    let mut older = journal.len();
    'newer: while older > 0 {
        older -= 1;
        let entry = journal.entry(older);
        if is_worker(worker, &entry.who) {
            if let Some(answer) = held_by(&entry.call, &entry.reply, cell) {
                return answer;
            }
        }
    }
    false
}
