//! Runs over maps of their own, with the journals that they leave.

ghost use Rattle.std.specs.Prelude.{◌≡◌, ◌≤◌, ◌<◌, length};

use crate::asserting::{holds_of, same_bytes_of, same_fact};
use crate::replays::program;
use journals::{Journals, write_journals};
use machine::{Exit, Moment, Stop};
use map_updates::{MapUpdate, misfit_of};
use runs::{RunFault, SingleRun, run_alone};
use semantics::{Key, Options, Value, Verdict};
use shards::OpenFault;
use std::alloc::Global;
use std::process::Abort;
use std::test::Fail;
use verifier::Verified;
use wire::{Frame, MemorySink};

/// Reads element 0 of the second of two maps, and passes the frame.
const READS_THE_SECOND: &str = "version 1
map hash 4 8 1
map array 4 8 1
stw [r10-4], 0
mov r2, r10
add r2, -4
ldmap r1, 1
call 1
jeq r0, 0, +1
ldxdw r3, [r0+0]
mov r0, 2
exit
";

/// Sets byte 0 of the frame to 9, looks an element up, and loads its value fourteen times.
const LOADS_OFTEN: &str = "version 1
map array 4 8 1
ldxw r2, [r1+0]
ldxw r3, [r1+4]
mov r4, r2
add r4, 14
mov r0, 1
jgt r4, r3, +23
stb [r2+0], 9
stw [r10-4], 0
mov r2, r10
add r2, -4
ldmap r1, 0
call 1
jeq r0, 0, +14
ldxdw r3, [r0+0]
ldxdw r3, [r0+0]
ldxdw r3, [r0+0]
ldxdw r3, [r0+0]
ldxdw r3, [r0+0]
ldxdw r3, [r0+0]
ldxdw r3, [r0+0]
ldxdw r3, [r0+0]
ldxdw r3, [r0+0]
ldxdw r3, [r0+0]
ldxdw r3, [r0+0]
ldxdw r3, [r0+0]
ldxdw r3, [r0+0]
ldxdw r3, [r0+0]
mov r0, 2
exit
";

/// A key is put into a map of 65,536 entries.
const A_LARGE_MAP: &str = "version 1
map lru 4 64 65536
stw [r10-4], 1
stdw [r10-72], 0
stdw [r10-64], 0
stdw [r10-56], 0
stdw [r10-48], 0
stdw [r10-40], 0
stdw [r10-32], 0
stdw [r10-24], 0
stdw [r10-16], 0
mov r2, r10
add r2, -4
mov r3, r10
add r3, -72
mov r4, 0
ldmap r1, 0
call 2
mov r0, 1
exit
";

/// Looks key 7 of a hash map up, and answers its value; 0 where it is absent.
const ANSWERS_KEY_7: &str = "version 1
map array 4 8 2
map hash 4 8 2
stw [r10-4], 7
mov r2, r10
add r2, -4
ldmap r1, 1
call 1
jeq r0, 0, +2
ldxdw r0, [r0+0]
exit
mov r0, 0
exit
";

const THE_SECOND: &str = "XLBJ 1 1 1 16
1 w0 enter ok
1 w0 lookup 00000000 cell 0
1 w0 load 0 0 8 word 0
1 w0 leave ok
";

/// Enter, a Lookup, thirteen Loads and the Leave, for which the last place is kept.
const FULL: &str = "XLBJ 1 1 1 16
0 w0 enter ok
0 w0 lookup 00000000 cell 0
0 w0 load 0 0 8 word 0
0 w0 load 0 0 8 word 0
0 w0 load 0 0 8 word 0
0 w0 load 0 0 8 word 0
0 w0 load 0 0 8 word 0
0 w0 load 0 0 8 word 0
0 w0 load 0 0 8 word 0
0 w0 load 0 0 8 word 0
0 w0 load 0 0 8 word 0
0 w0 load 0 0 8 word 0
0 w0 load 0 0 8 word 0
0 w0 load 0 0 8 word 0
0 w0 load 0 0 8 word 0
0 w0 leave ok
";

const SET_BEFORE: &str = "XLBJ 1 2 1 16
0 c update 01000000 ff00000000000000 0 answer 0
1 c update 09000000 0100000000000000 0 answer 0
1 c update 07000000 0100000000000000 0 answer 0
1 c update 07000000 0300000000000000 0 answer 0
1 w1 enter ok
1 w1 lookup 07000000 cell 1
1 w1 load 1 0 8 word 3
1 w1 leave ok
";

const NOT_SET: &str = "XLBJ 1 2 1 16
1 w1 enter ok
1 w1 lookup 07000000 null
1 w1 leave ok
";

/// What a map is set to before a run: the map, the first byte of the key and that of the value. All their other bytes are zeros.
type UpdateRow = (u32, u8, u8);

/// What becomes of a run: its end, or why there is none.
type End = Result<Result<Exit, Stop>, RunFault>;

/// A run on 14 zeros, what becomes of it, and what it leaves.
#[derive(Clone, Copy)]
struct Row {
    name: &'static str,
    program: &'static str,
    options: Options,
    worker: u8,
    updates: &'static [UpdateRow],
    end: End,
    /// The frame's first byte.
    first_byte: u8,
    /// The journals as a file, where the row says what that is.
    journals: Option<&'static str>,
}

/// One shard for each map, with room for 16 entries.
const SMALL: Options = Options {
    workers: 1,
    shards: 1,
    journal: 16,
};

const LARGE: Options = Options {
    workers: 8,
    shards: 8,
    journal: 1_048_576,
};

const PASSES: End = Ok(Ok(Exit {
    verdict: Verdict::Pass,
    steps: 8,
}));

const STOPS: End = Ok(Err(Stop::JournalFull { shard: 1 }));

const BAD_OPTIONS: End = Err(RunFault::Open(OpenFault::BadOptions));

/// A run of one worker that leaves the frame as it was.
const RUN: Row = Row {
    name: "",
    program: ANSWERS_KEY_7,
    options: SMALL,
    worker: 0,
    updates: &[],
    end: PASSES,
    first_byte: 0,
    journals: None,
};

#[rattlefmt::skip]
const RUNS: [Row; 5] = [
    Row {
        name: "the second of two maps", program: READS_THE_SECOND,
        end: Ok(Ok(Exit { verdict: Verdict::Pass, steps: 9 })), journals: Some(THE_SECOND), ..RUN
    },
    Row {
        name: "a full journal", program: LOADS_OFTEN,
        end: Ok(Err(Stop::JournalFull { shard: 0 })), first_byte: 9, journals: Some(FULL), ..RUN
    },
    Row {
        name: "a large map", program: A_LARGE_MAP, options: LARGE, worker: 7,
        end: Ok(Ok(Exit { verdict: Verdict::Drop, steps: 18 })), ..RUN
    },
    Row {
        name: "updates before the run", options: Options { workers: 2, ..SMALL }, worker: 1,
        updates: &[(1, 9, 1), (1, 7, 1), (0, 1, 255), (1, 7, 3)],
        end: Ok(Ok(Exit { verdict: Verdict::Tx, steps: 8 })), journals: Some(SET_BEFORE), ..RUN
    },
    Row {
        name: "no update before it", options: Options { workers: 2, ..SMALL }, worker: 1,
        end: Ok(Ok(Exit { verdict: Verdict::Aborted, steps: 8 })), journals: Some(NOT_SET), ..RUN
    },
];

/// Options that are refused, or the first update that a map has no place for.
#[rattlefmt::skip]
const REFUSED: [Row; 7] = [
    Row { name: "one element in two parts", program: READS_THE_SECOND, options: Options { shards: 2, ..SMALL }, end: BAD_OPTIONS, ..RUN },
    Row { name: "a journal of 15", program: READS_THE_SECOND, options: Options { journal: 15, ..SMALL }, end: BAD_OPTIONS, ..RUN },
    Row { name: "nine workers", program: READS_THE_SECOND, options: Options { workers: 9, ..SMALL }, end: BAD_OPTIONS, ..RUN },
    Row {
        name: "no worker 2 of two", program: READS_THE_SECOND, options: Options { workers: 2, ..SMALL }, worker: 2, end: BAD_OPTIONS, ..RUN
    },
    Row {
        name: "no index 2 of an array of two", updates: &[(0, 0, 0), (0, 2, 0), (0, 3, 0)],
        end: Err(RunFault::Refused { place: 1, answer: -7 }), ..RUN
    },
    Row {
        name: "a third key of a map of two", updates: &[(1, 1, 0), (1, 2, 0), (1, 3, 0)],
        end: Err(RunFault::Refused { place: 2, answer: -7 }), ..RUN
    },
    Row {
        name: "the first update", updates: &[(0, 9, 0), (1, 2, 0), (1, 2, 0)],
        end: Err(RunFault::Refused { place: 0, answer: -7 }), ..RUN
    },
];

const TWO: UpdateRow = (1, 7, 2);

/// Updates of key 7, and what becomes of a run after them with journals of 16 entries, where it needs four: after 12 it ends, after 13 its
/// Load has no room, after 15 its Enter, and the 17th update has none.
#[rattlefmt::skip]
const MANY: [Row; 5] = [
    Row { name: "12 updates", updates: &[TWO; 12], end: PASSES, ..RUN },
    Row { name: "13 updates", updates: &[TWO; 13], end: STOPS, ..RUN },
    Row { name: "15 updates", updates: &[TWO; 15], end: STOPS, ..RUN },
    Row { name: "16 updates", updates: &[TWO; 16], end: STOPS, ..RUN },
    Row { name: "17 updates", updates: &[TWO; 17], end: Err(RunFault::Full { place: 16 }), ..RUN },
];

fn update_of(update: UpdateRow) -> MapUpdate {
    let (map, key, value) = update;
    MapUpdate {
        map,
        key: Key::of(&[key, 0, 0, 0]).unwrap_or(Key::empty()),
        value: Value::of(&[value, 0, 0, 0, 0, 0, 0, 0]).unwrap_or(Value::empty()),
    }
}

fn updates_of<R: Abort>(rt: &R, alloc: Global, updates: &[UpdateRow]) -> Vec<MapUpdate> {
    let mut all = Vec::new(alloc);
    for update in updates {
        all.push(update_of(*update)).expect(rt, "room");
    }
    all
}

/// The run of a row after updates, which the image's maps have to take.
fn run_after<R: Abort>(
    rt: &R,
    alloc: Global,
    verified: &Verified,
    frame: &mut Frame,
    row: &Row,
    updates: &[MapUpdate],
) -> Result<SingleRun, RunFault>
    requires { frame.old.headroom ≡ 256 }
{
    let maps = verified.image().maps();
    assert!(rt;
        updates
            .iter()
            .all(|update| misfit_of(maps, update).is_none())
    );
    let moment = Moment {
        now_ns: 7,
        worker: row.worker,
    };
    run_alone(alloc, verified, frame, &moment, row.options, updates)
}

/// Compares the file of a run's journals.
fn leaves<R: Abort>(rt: &R, alloc: Global, row: &Row, journals: &Journals) {
    let Some(wanted) = row.journals else {
        return;
    };
    let mut file = MemorySink::new(alloc);
    holds_of(rt, row.name, "rows", journals.keeps_rows());
    write_journals(alloc, &mut file, journals).expect(rt, "a file");
    same_bytes_of(
        rt,
        row.name,
        "the journals",
        file.bytes(),
        wanted.as_bytes(),
    );
}

/// Compares what became of a run.
fn ends_so<R: Abort>(rt: &R, alloc: Global, row: &Row, run: Result<SingleRun, RunFault>) {
    match run {
        Ok(single) => {
            same_fact(rt, row.name, "the end", &Ok(single.ended), &row.end);
            leaves(rt, alloc, row, &single.journals);
        }
        Err(fault) => same_fact(rt, row.name, "the end", &Err(fault), &row.end),
    }
}

/// Runs an accepted program after its updates, and compares.
fn runs_so<R: Abort>(
    rt: &R,
    alloc: Global,
    row: &Row,
    verified: &Verified,
    updates: &[MapUpdate],
) -> Result<(), Fail> {
    let mut frame = Frame::of(alloc, &[0; 14])?;
    let run = run_after(rt, alloc, verified, &mut frame, row, updates);
    let first_byte = frame.bytes().first().copied();
    same_fact(
        rt,
        row.name,
        "the first byte",
        &first_byte,
        &Some(row.first_byte),
    );
    ends_so(rt, alloc, row, run);
    Ok(())
}

/// The same of a program's text.
fn comes_to<R: Abort>(rt: &R, alloc: Global, row: &Row) -> Result<(), Fail> {
    let verified = program(rt, alloc, row.program);
    let updates = updates_of(rt, alloc, row.updates);
    runs_so(rt, alloc, row, &verified, &updates)
}

fn all_come_to<R: Abort>(rt: &R, alloc: Global, rows: &[Row]) -> Result<(), Fail> {
    for row in rows {
        comes_to(rt, alloc, row)?;
    }
    Ok(())
}

#[test]
fn journals_have_the_run_alone(rt: HostRuntime) -> Result<(), Fail> {
    all_come_to(&rt, rt.alloc(), &RUNS)
}

#[test]
fn options_and_updates_are_refused(rt: HostRuntime) -> Result<(), Fail> {
    all_come_to(&rt, rt.alloc(), &REFUSED)
}

#[test]
fn many_updates_fill_a_journal(rt: HostRuntime) -> Result<(), Fail> {
    all_come_to(&rt, rt.alloc(), &MANY)
}

#[rattlefmt::skip]
const FAULTS: [(RunFault, u8, &str); 3] = [
    (RunFault::Open(OpenFault::Memory),              52, "fault 52 Memory"),
    (RunFault::Refused { place: 3, answer: -12 },    93, "fault 93 Refused answer -12"),
    (RunFault::Full { place: 3 },                    94, "fault 94 JournalFull"),
];

/// Compares a fault's number and its text.
fn compare_text<R: Abort>(
    rt: &R,
    alloc: Global,
    fault: RunFault,
    number: u8,
    text: &str,
) -> Result<(), Fail> {
    same_fact(rt, text, "the number", &fault.number(), &number);
    let printed = format!(in alloc; "{fault}")?;
    same_fact(rt, text, "the text", &printed.as_str(), &text);
    Ok(())
}

#[test]
fn fault_texts(rt: HostRuntime) -> Result<(), Fail> {
    for (fault, number, text) in &FAULTS {
        compare_text(&rt, rt.alloc(), *fault, *number, *text)?;
    }
    Ok(())
}
