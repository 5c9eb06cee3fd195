//! What no clause says: that a journal opens with memory, and that entries come back, small and large.

ghost use Rattle.std.specs.Prelude.{◌≡◌, ◌+◌, ◌≤◌, length};
ghost use Rattle.journal.specs.Journaled.{HasSizes};

use crate::asserting::same;
use journal::{AtomicChange, Caller, CellRange, Entry, Journal};
use semantics::{Call, CellRef, Key, Reply, Value};
use std::alloc::{AllocError, Global};

const WORKER: Caller = Caller::Worker { number: 3 };

// A call of each kind on shard 5, whose keys have 4 bytes and whose values have 8, and the entry that it has to leave.
fn one_of_each(journal: &mut Journal)
    requires room { length journal.old.entries + 10 ≤ journal.old.reserve }
    requires sizes { HasSizes journal.old journal.old.reserve 4 8 }
    ensures len { length journal.new.entries ≡ length journal.old.entries + 10 }
    ensures sizes { HasSizes journal.new journal.old.reserve 4 8 }
{
    let range = CellRange {
        cell: 7,
        offset: 248,
        size: 8,
    };
    let change = AtomicChange {
        op: 0xf1,
        value: 11,
        expected: 12,
    };
    journal.append_enter(WORKER);
    journal.append_lookup(WORKER, &[1, 2, 3, 4], Some(7));
    journal.append_lookup(WORKER, &[9, 8, 7, 6], None);
    journal.append_load(WORKER, &range, u64::MAX);
    journal.append_store(WORKER, &range, 10);
    journal.append_atomic(WORKER, &range, &change, 13);
    journal.append_update(
        Caller::Controller,
        &[5, 6, 7, 8],
        &[1, 1, 2, 3, 5, 8, 13, 21],
        2,
        -7,
    );
    journal.append_delete(WORKER, &[0, 0, 0, 1], -2);
    journal.append_reclaim(Caller::Reclaimer, 14);
    journal.append_leave(WORKER);
}

fn key(bytes: [u8; 4]) -> Key {
    let mut key = Key::empty();
    key.append(&bytes);
    key
}

fn value(bytes: [u8; 8]) -> Value {
    let mut value = Value::empty();
    value.append(&bytes);
    value
}

// What `one_of_each` has to leave, written out.
fn wanted() -> [(Caller, Call, Reply); 10] {
    let shard = 5;
    let cell = CellRef { shard, id: 7 };
    let (offset, size) = (248, 8);
    let code = -7;
    [
        (WORKER, Call::Enter { shard }, Reply::Entered),
        (
            WORKER,
            Call::Lookup {
                shard,
                key: key([1, 2, 3, 4]),
            },
            Reply::Cell { cell },
        ),
        (
            WORKER,
            Call::Lookup {
                shard,
                key: key([9, 8, 7, 6]),
            },
            Reply::Null,
        ),
        (
            WORKER,
            Call::Load { cell, offset, size },
            Reply::Word { value: u64::MAX },
        ),
        (
            WORKER,
            Call::Store {
                cell,
                offset,
                size,
                value: 10,
            },
            Reply::Done,
        ),
        (
            WORKER,
            Call::Atomic {
                cell,
                offset,
                size,
                op: 0xf1,
                value: 11,
                expected: 12,
            },
            Reply::Word { value: 13 },
        ),
        (
            Caller::Controller,
            Call::Update {
                shard,
                key: key([5, 6, 7, 8]),
                value: value([1, 1, 2, 3, 5, 8, 13, 21]),
                flags: 2,
            },
            Reply::Answer { code },
        ),
        (
            WORKER,
            Call::Delete {
                shard,
                key: key([0, 0, 0, 1]),
            },
            Reply::Answer { code: -2 },
        ),
        (
            Caller::Reclaimer,
            Call::Reclaim { shard },
            Reply::Freed { count: 14 },
        ),
        (WORKER, Call::Leave { shard }, Reply::Left),
    ]
}

// Fills a journal ten entries at a time, and says how many of them are not what was put.
fn wrong_entries(alloc: Global, tens: usize) -> Result<usize, AllocError>
    requires { tens ≤ 100000 }
{
    let mut journal = Journal::open(alloc, 5, tens as u32 * 10, 4, 8)?;
    'tens: for _ in 0..tens {
        one_of_each(&mut journal);
    }
    let wanted = wanted();
    let mut wrong = 0;
    'places: for place in 0..journal.len() {
        let (who, call, reply) = wanted[place % 10];
        if journal.entry(place) != (Entry { who, call, reply }) && wrong < 1_000_000 {
            wrong += 1;
        }
    }
    Ok(wrong)
}

/// The room of a journal that keeps no rows.
const LARGE: u32 = 1_048_577;

/// Fills a journal that keeps no rows, and says how many entries it has.
fn counted(alloc: Global) -> Result<(bool, usize), AllocError> {
    let who = Caller::Worker { number: 0 };
    let mut journal = Journal::open(alloc, 5, LARGE, 4, 8)?;
    'entries: for _ in 0..LARGE {
        if journal.len() < LARGE as usize {
            journal.append_enter(who);
        }
    }
    Ok((journal.keeps_rows(), journal.len()))
}

#[test]
fn a_large_journal_counts_its_entries(rt: HostRuntime) -> Result<(), AllocError> {
    let (keeps_rows, entries) = counted(rt.alloc())?;
    same(&rt, "no rows are kept", &keeps_rows, &false);
    same(&rt, "1,048,577 entries", &entries, &1_048_577);
    Ok(())
}

#[test]
fn entries_come_back(rt: HostRuntime) -> Result<(), AllocError> {
    same(&rt, "no entry", &wrong_entries(rt.alloc(), 0)?, &0);
    same(&rt, "ten entries", &wrong_entries(rt.alloc(), 1)?, &0);
    same(&rt, "twenty entries", &wrong_entries(rt.alloc(), 2)?, &0);
    same(
        &rt,
        "a million entries",
        &wrong_entries(rt.alloc(), 100_000)?,
        &0,
    );
    Ok(())
}
