//! What a journal says by the places of its entries: who is inside, which retired cells may be freed, when a key was used.
//!
//! A journal has its oldest entry first; the definitions speak of the history, which has its newest entry first.

ghost use Rattle.std.specs.Prelude.{◌≡◌, ◌==◌, ◌+◌, ◌<◌, ◌^◌, ℕ, Bool, Option, List, reverse, length, unwrap_or, count_by};
ghost use Rattle.std.specs.Prelude.{vec_len, vec_capacity, ◌++◌, ◌∷◌, [], Some, slice_get};
ghost use Rattle.semantics.specs.declared.call.Entry.{Entry};
ghost use Rattle.std.specs.List.{list_all};
ghost use Rattle.semantics.specs.Reclamation.{entered_where, entered_by, entered_at, is_inside};
ghost use Rattle.semantics.specs.Reclamation.{worker_numbers, inside_count, began_after, is_reclaimable};
ghost use Rattle.semantics.specs.LeastRecentlyUsed.{last_use};
ghost use Rattle.semantics.specs.History.{journal_is_full};

use map_rules::conditions::is_full_with;
use map_rules::held::is_worker;
use semantics::{Call, Entry, Key, RetiredCell, SectionChange, ShardPlan};

/// The numbers that workers may have.
const WORKER_NUMBERS: [u8; 8] = [0, 1, 2, 3, 4, 5, 6, 7];

/// Where a worker's own call at a place begins or ends a section: where the section then began, if there is one.
fn entered_by(call: &Call, place: u64) -> Option<Option<u64>>
    ensures { (before : Option ℕ) → unwrap_or result before ≡ entered_by call.now place before }
{
    match call.section_change() {
        SectionChange::Begins => Some(Some(place)),
        SectionChange::Ends => Some(None),
        SectionChange::Stays => None,
    }
}

/// The place of the worker's Enter that no Leave of its own follows.
pub fn entered_at(worker: u8, journal: &[Entry]) -> Option<u64>
    ensures { result ≡ entered_at worker (reverse journal.now) }
{
    let mut older = journal.len();
    'newer: while older > 0 {
        older -= 1;
        let entry = &journal[older];
        if is_worker(worker, &entry.who) {
            if let Some(at) = entered_by(&entry.call, older as u64) {
                return at;
            }
        }
    }
    None
}

/// Whether the worker is inside a section: it has an Enter with no later Leave.
pub fn is_inside(worker: u8, journal: &[Entry]) -> bool
    ensures { result ≡ is_inside worker (reverse journal.now) }
{
    entered_at(worker, journal).is_some()
}

/// How many workers are inside.
pub fn inside_count(journal: &[Entry]) -> usize
    ensures { result ≡ inside_count (reverse journal.now) }
{
    count_inside(&WORKER_NUMBERS, journal)
}

fn count_inside(workers: &[u8], journal: &[Entry]) -> usize
    ensures { result ≡ count_by (λ worker. is_inside worker (reverse journal.now)) workers.now }
{
    workers
        .iter()
        .filter(|worker| is_inside(**worker, journal))
        .count()
}

/// Whether a section that began at this place, if there is one, began after another place.
fn began_after(since: u64, entered: Option<u64>) -> bool
    ensures { result ≡ began_after since entered }
{
    match entered {
        Some(at) => since < at,
        None => true,
    }
}

/// Whether the retired cell may be freed: every worker inside entered after the retirement.
pub fn is_reclaimable(journal: &[Entry], retired: &RetiredCell) -> bool
    ensures { result ≡ is_reclaimable (reverse journal.now) retired.now }
{
    all_began_after(&WORKER_NUMBERS, journal, retired.since)
}

fn all_began_after(workers: &[u8], journal: &[Entry], since: u64) -> bool
    ensures { result ≡ list_all (λ worker. began_after since (entered_at worker (reverse journal.now))) workers.now }
{
    workers
        .iter()
        .all(|worker| began_after(since, entered_at(*worker, journal)))
}

/// One more than the place of the key's last use; 0 where there is none.
pub fn last_use(key: &Key, journal: &[Entry]) -> u64
    ensures { result ≡ last_use key.now (reverse journal.now) }
{
    let mut older = journal.len();
    'newer: while older > 0 {
        let newest = older;
        older -= 1;
        if journal[older].uses(key) {
            return newest as u64;
        }
    }
    0
}

/// Puts an entry behind the others, for which there is room.
pub(crate) fn put_entry(journal: &mut Vec<Entry>, entry: Entry)
    requires { vec_len journal.old < vec_capacity journal.old }
    ensures { journal.new.items ≡ journal.old.items ++ entry ∷ [] }
{
    if journal.extend_from_slice(&[entry]).is_err() {
        unreachable!()
    }
}

/// Whether the journal is full for this call.
pub fn journal_is_full(plan: &ShardPlan, journal: &[Entry], call: &Call) -> bool
    ensures { result ≡ journal_is_full plan.now (reverse journal.now) call.now }
{
    is_full_with(plan, journal.len(), inside_count(journal), call)
}
