//! What a run asked of the maps, by their journals.

ghost use Rattle.std.specs.Prelude.{◌≡◌, length};

use super::sessions::{PUTTER, RUNNER};
use conntrack::SteeringMap;
use journal::Journal;
use semantics::{Call, Caller, CellRef, Entry, Key, Reply};
use shard_core::Shard;

/// What a run asked of one map.
#[derive(Clone, Copy, Debug, PartialEq, Eq)]
pub(super) struct Asked {
    /// How many calls it made, Enter and Leave among them.
    pub(super) calls: u64,
    /// The key that was looked up last, and the cell that was found there.
    pub(super) key: Option<Key>,
    pub(super) found: Option<CellRef>,
    /// How many of the calls change something, and the last of these.
    pub(super) changes: u64,
    pub(super) change: Option<Call>,
}

impl Asked {
    fn nothing() -> Asked {
        Asked {
            calls: 0,
            key: None,
            found: None,
            changes: 0,
            change: None,
        }
    }

    /// With a call more.
    fn add(&mut self, entry: &Entry) {
        self.calls = self.calls.saturating_add(1);
        match &entry.call {
            Call::Enter { .. } | Call::Leave { .. } | Call::Load { .. } => {}
            Call::Lookup { key, .. } => {
                self.key = Some(*key);
                self.found = found_in(&entry.reply);
            }
            call => {
                self.changes = self.changes.saturating_add(1);
                self.change = Some(*call);
            }
        }
    }

    /// What the journal says of the run whose records were put by the entries from a place on, and where the next run's begin.
    fn next(journal: &Journal, from: usize) -> (Asked, usize) {
        let mut asked = Asked::nothing();
        if !journal.keeps_rows() {
            return (asked, from);
        }
        'entries: for place in from..journal.len() {
            let entry = journal.entry(place);
            if entry.who == (Caller::Worker { number: RUNNER }) {
                asked.add(&entry);
            } else if place > from && is_putters_enter(&entry) {
                return (asked, place);
            }
        }
        (asked, journal.len())
    }
}

fn found_in(reply: &Reply) -> Option<CellRef> {
    match reply {
        Reply::Cell { cell } => Some(*cell),
        _ => None,
    }
}

fn is_putters_enter(entry: &Entry) -> bool {
    let is_enter = match entry.call {
        Call::Enter { .. } => true,
        _ => false,
    };
    is_enter && entry.who == (Caller::Worker { number: PUTTER })
}

/// What a run asked of each map.
#[derive(Clone, Copy, Debug)]
pub(super) struct AllAsked {
    asked: [Asked; 6],
}

impl AllAsked {
    /// What the next run asked; the places are those of its records in the journals, and of the run after it then.
    pub(super) fn next(shards: &[Shard], places: &mut [usize; 6]) -> AllAsked
        requires { length shards.now ≡ 6 }
    {
        let mut asked = [Asked::nothing(); 6];
        'shards: for number in 0..6 {
            let (one, place) = Asked::next(shards[number].journal(), places[number]);
            asked[number] = one;
            places[number] = place;
        }
        AllAsked { asked }
    }

    /// How many calls it made.
    pub(super) fn calls(&self) -> u64 {
        self.asked
            .iter()
            .fold(0, |sum: u64, asked| sum.saturating_add(asked.calls))
    }

    pub(super) fn of_map(&self, map: SteeringMap) -> Asked {
        self.asked[map.place() as usize % 6]
    }
}
