//! Replays whose journals keep no rows: no run is stopped, however small the options say that a journal is.

use super::{ANSWERS_THE_PORT, FORTY_FLOWS, NONE, captured, program, replayed, sent_file};
use crate::asserting::{holds_of, same_bytes_of, same_fact};
use control::parse_script;
use replay::{Counts, NoGate, Outcome, replay, replay_in_turn};
use semantics::{Options, Recording};
use std::alloc::Global;
use std::process::Abort;
use std::sync::Wait;
use std::thread::Threads;

/// A replay of the forty flows, with journals of 16 entries: each of the 200 frames makes four.
#[derive(Clone, Copy)]
struct Row {
    name: &'static str,
    exact: bool,
    workers: u32,
    recording: Recording,
    entries: usize,
    /// Whether the journal was full after the first four frames.
    is_filled: bool,
}

/// The first four frames, whose ports end in 0, 1, 2 and 3, fill the journal.
pub(super) const FULL: Counts = Counts {
    aborted: 1,
    drop: 1,
    pass: 1,
    tx: 1,
    stopped: 196,
    ..NONE
};

#[rattlefmt::skip]
const ROWS: [Row; 5] = [
    Row { name: "rows are kept",                   exact: false, workers: 1, recording: Recording::Rows,   entries: 16,  is_filled: true },
    Row { name: "rows are kept, in turn",          exact: true,  workers: 1, recording: Recording::Rows,   entries: 16,  is_filled: true },
    Row { name: "no rows are kept",                exact: false, workers: 1, recording: Recording::NoRows, entries: 800, is_filled: false },
    Row { name: "no rows are kept, four workers",  exact: false, workers: 4, recording: Recording::NoRows, entries: 800, is_filled: false },
    Row { name: "no rows are kept, in turn",       exact: true,  workers: 4, recording: Recording::NoRows, entries: 800, is_filled: false },
];

fn outcome_of<R: Threads + Abort + Wait + Sync>(rt: &R, alloc: Global, row: &Row) -> Outcome {
    let verified = program(rt, alloc, ANSWERS_THE_PORT);
    let capture = captured(rt, alloc, FORTY_FLOWS.frames);
    let script = parse_script(alloc, b"").expect(rt, "a script");
    let options = Options {
        workers: row.workers,
        shards: 1,
        journal: 16,
    };
    let recording = row.recording;
    let outcome = if row.exact {
        replay_in_turn(
            alloc,
            &verified,
            &capture,
            &[],
            &script,
            options,
            recording,
            &NoGate,
        )
    } else {
        replay(
            rt,
            alloc,
            &verified,
            &capture,
            &[],
            &script,
            options,
            recording,
            &NoGate,
        )
    };
    outcome.expect(rt, "an outcome")
}

/// Makes a row's replay, and compares what it counted and its journal.
fn compare_row<R: Threads + Abort + Wait + Sync>(rt: &R, alloc: Global, row: &Row) {
    let outcome = outcome_of(rt, alloc, row);
    let counts = if row.is_filled {
        FULL
    } else {
        FORTY_FLOWS.counts
    };
    same_fact(rt, row.name, "the counts", &outcome.counts, &counts);
    let journals = &outcome.journals;
    let keeps = journals.keeps_rows();
    holds_of(
        rt,
        row.name,
        "whether rows are kept",
        keeps == (row.recording == Recording::Rows),
    );
    let entries = if journals.count() > 0 {
        journals.len(0)
    } else {
        0
    };
    same_fact(
        rt,
        row.name,
        "the number of entries",
        &entries,
        &row.entries,
    );
}

#[test]
fn journals_without_rows_are_never_full(rt: HostRuntime) {
    for row in &ROWS {
        compare_row(&rt, rt.alloc(), row);
    }
}

/// Makes a row's replay, and compares what is sent.
fn sends_so<R: Threads + Abort + Wait + Sync>(rt: &R, alloc: Global, row: &Row, wanted: &[u8]) {
    let outcome = outcome_of(rt, alloc, row);
    let sent = sent_file(rt, alloc, &outcome);
    same_bytes_of(rt, row.name, "what is sent", sent.bytes(), wanted);
}

/// What is sent without rows is what is sent with them.
#[test]
fn the_same_is_sent_without_rows(rt: HostRuntime) {
    let outcome = replayed(&rt, rt.alloc(), &FORTY_FLOWS, &NoGate);
    let wanted = sent_file(&rt, rt.alloc(), &outcome);
    for row in &ROWS[2..] {
        sends_so(&rt, rt.alloc(), row, wanted.bytes());
    }
}
