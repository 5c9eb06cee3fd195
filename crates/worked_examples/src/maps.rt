//! What callers of a shard are replied, one after the other and on threads of their own.

pub(crate) mod in_turn;
mod on_threads;

use crate::asserting::same;
use crate::steering::sessions::run_over_new_shards;
use ebpf_decode::MapKind;
use in_turn::{C, Call, FULL, R, Step, Told, W0, are_made};
use machine::Stop;
use on_threads::are_made_on_threads;
use semantics::{CellRef, Reply};
use std::alloc::Global;
use std::process::Abort;

/// Three keys.
const A: u32 = 10;

const B: u32 = 11;

const D: u32 = 12;

/// What an update or a deletion is answered that is made.
const DONE: Told = Ok(Reply::Answer { code: 0 });

const ENTERED: Told = Ok(Reply::Entered);

const LEFT: Told = Ok(Reply::Left);

const FIRST_CELL: Told = Ok(Reply::Cell {
    cell: CellRef { shard: 0, id: 0 },
});

#[rattlefmt::skip]
static ONE_KEY: [Step; 5] = [
    (1, C, Call::Update { key: A, value: 7, flags: 0 }, DONE),
    (1, C, Call::Update { key: A, value: 7, flags: 1 }, Ok(Reply::Answer { code: -17 })),
    (1, C, Call::Update { key: B, value: 7, flags: 0 }, Ok(Reply::Answer { code: -7 })),
    (1, C, Call::Delete { key: A },                     DONE),
    (1, C, Call::Delete { key: A },                     Ok(Reply::Answer { code: -2 })),
];

#[test]
fn a_hash_map_of_one_key(rt: HostRuntime) {
    are_made(&rt, rt.alloc(), MapKind::Hash, 1, &ONE_KEY);
}

#[rattlefmt::skip]
static CELLS_RUN_OUT: [Step; 7] = [
    (1, C, Call::Update { key: A, value: 7, flags: 0 }, DONE),
    (1, C, Call::Delete { key: A },                     DONE),
    (1, C, Call::Update { key: B, value: 7, flags: 0 }, DONE),
    (1, C, Call::Delete { key: B },                     DONE),
    (1, C, Call::Update { key: D, value: 7, flags: 0 }, Ok(Reply::Answer { code: -12 })),
    (1, R, Call::Reclaim,                               Ok(Reply::Freed { count: 2 })),
    (1, C, Call::Update { key: D, value: 7, flags: 0 }, DONE),
];

#[test]
fn a_new_key_needs_a_cell_that_is_not_retired(rt: HostRuntime) {
    are_made(&rt, rt.alloc(), MapKind::Hash, 1, &CELLS_RUN_OUT);
}

#[rattlefmt::skip]
static HELD: [Step; 9] = [
    (1, C,  Call::Update { key: A, value: 7, flags: 0 }, DONE),
    (1, W0, Call::Enter,                                 ENTERED),
    (1, W0, Call::Look { key: A },                       FIRST_CELL),
    (1, C,  Call::Delete { key: A },                     DONE),
    (1, R,  Call::Reclaim,                               Ok(Reply::Freed { count: 0 })),
    (1, C,  Call::Update { key: B, value: 9, flags: 0 }, DONE),
    (1, W0, Call::Load { id: 0 },                        Ok(Reply::Word { value: 7 })),
    (1, W0, Call::Leave,                                 LEFT),
    (1, R,  Call::Reclaim,                               Ok(Reply::Freed { count: 1 })),
];

#[test]
fn a_held_cell_outlives_its_key(rt: HostRuntime) {
    are_made(&rt, rt.alloc(), MapKind::Hash, 1, &HELD);
}

#[rattlefmt::skip]
static LAST_USE: [Step; 8] = [
    (1, C,  Call::Update { key: A, value: 7, flags: 0 }, DONE),
    (1, C,  Call::Update { key: B, value: 8, flags: 0 }, DONE),
    (1, W0, Call::Enter,                                 ENTERED),
    (1, W0, Call::Look { key: A },                       FIRST_CELL),
    (1, C,  Call::Update { key: D, value: 9, flags: 0 }, DONE),
    (1, W0, Call::Look { key: A },                       FIRST_CELL),
    (1, W0, Call::Look { key: D },                       Ok(Reply::Cell { cell: CellRef { shard: 0, id: 2 } })),
    (1, W0, Call::Look { key: B },                       Ok(Reply::Null)),
];

#[test]
fn the_key_used_longest_ago_goes(rt: HostRuntime) {
    are_made(&rt, rt.alloc(), MapKind::LruHash, 2, &LAST_USE);
}

#[rattlefmt::skip]
static LAST_PLACE: [Step; 4] = [
    (1,  W0, Call::Enter,           ENTERED),
    (14, W0, Call::Look { key: 2 }, Ok(Reply::Null)),
    (1,  W0, Call::Look { key: 2 }, FULL),
    (1,  W0, Call::Leave,           LEFT),
];

/// Makes this many lookups of element 0.
fn looks_up(rt: &impl Abort, alloc: Global, count: u32) -> String {
    let head = "version 1\nmap array 4 8 2\nstw [r10-4], 0\n";
    let mut text = String::from_str(alloc, head).expect(rt, "a head");
    for _ in 0..count {
        let lookup = "mov r2, r10\nadd r2, -4\nldmap r1, 0\ncall 1\n";
        text.push_str(lookup).expect(rt, "a lookup");
    }
    text.push_str("mov r0, 2\nexit\n").expect(rt, "an end");
    text
}

/// The journal has room for 16 entries: an Enter, 14 others, and the Leave that is always written.
#[test]
fn the_last_entry_of_a_full_journal_is_a_leave(rt: HostRuntime) {
    let alloc = rt.alloc();
    are_made(&rt, alloc, MapKind::Array, 2, &LAST_PLACE);
    let text = looks_up(&rt, alloc, 15);
    let (ended, entries) = run_over_new_shards(&rt, alloc, &text, 16);
    let stop = Stop::JournalFull { shard: 0 };
    same(&rt, "the 15th lookup stops the run", &ended, &Err(stop));
    same(&rt, "the entries", &entries, &16);
}

#[rattlefmt::skip]
static AFTER_14: [Step; 2] = [
    (14, C, Call::Update { key: 0, value: 7, flags: 0 }, DONE),
    (1, W0, Call::Enter,                                 ENTERED),
];

#[rattlefmt::skip]
static AFTER_15: [Step; 2] = [
    (15, C, Call::Update { key: 0, value: 7, flags: 0 }, DONE),
    (1, W0, Call::Enter,                                 FULL),
];

#[test]
fn an_enter_needs_room_for_its_leave(rt: HostRuntime) {
    are_made(&rt, rt.alloc(), MapKind::Array, 2, &AFTER_14);
    are_made(&rt, rt.alloc(), MapKind::Array, 2, &AFTER_15);
}

#[rattlefmt::skip]
static OF_AN_ARRAY: [Step; 5] = [
    (1, C, Call::Update { key: 2, value: 7, flags: 1 }, Ok(Reply::Answer { code: -7 })),
    (1, C, Call::Update { key: 0, value: 7, flags: 1 }, Ok(Reply::Answer { code: -17 })),
    (1, C, Call::Update { key: 0, value: 7, flags: 3 }, Ok(Reply::Answer { code: -22 })),
    (1, C, Call::Update { key: 0, value: 7, flags: 2 }, DONE),
    (1, C, Call::Delete { key: 0 },                     Ok(Reply::Answer { code: -22 })),
];

#[test]
fn an_array_has_all_its_elements_always(rt: HostRuntime) {
    are_made(&rt, rt.alloc(), MapKind::Array, 2, &OF_AN_ARRAY);
}

#[test]
fn a_held_cell_outlives_its_key_on_threads(rt: HostRuntime) {
    are_made_on_threads(&rt, rt.alloc(), MapKind::Hash, 1, &HELD);
}

#[test]
fn retired_cells_are_freed_on_threads(rt: HostRuntime) {
    are_made_on_threads(&rt, rt.alloc(), MapKind::Hash, 1, &CELLS_RUN_OUT);
}
