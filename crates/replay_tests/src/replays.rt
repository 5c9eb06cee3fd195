//! Whole replays, each with threads.

mod exact;
mod in_pieces;
mod moments;
mod more_notes;
mod record_ends;
mod schedules;
mod shipped_program;
mod without_rows;

ghost use Rattle.std.specs.Prelude.{◌≡◌, ◌≤◌, ◌<◌, ◌^◌, length};

use crate::asserting::{holds_of, same_fact};
use control::parse_script;
use disasm::assemble;
use journals::write_journals;
use replay::{Counts, Gate, NoGate, Outcome, replay};
use semantics::{Options, Recording};
use std::alloc::{AllocError, Global};
use std::process::Abort;
use std::sync::Wait;
use std::thread::Threads;
use test_support::files::SERVICE;
use test_support::programs::COUNTS_TO_THREE;
use verifier::{Verified, verify};
use wire::{Capture, MemorySink, MemorySource, Sent, read_capture, write_capture};

/// Adds the value of element 0, which stays 0, to the low byte of a frame's source port, and answers the sum.
const ANSWERS_THE_PORT: &str = "version 1
map array 4 8 1
ldxw r2, [r1+0]
ldxw r3, [r1+4]
mov r4, r2
add r4, 36
mov r0, 2
jgt r4, r3, +11
ldxb r6, [r2+35]
stw [r10-4], 0
mov r2, r10
add r2, -4
ldmap r1, 0
call 1
jeq r0, 0, +3
ldxdw r7, [r0+0]
add r6, r7
mov r0, r6
exit
";

/// Sends each frame, beside the maps of steering for a table of 7 slots.
const SENDS_ALL: &str = "version 1
map hash 8 8 64
map lru 16 8 4096
map array 4 8 8
map array 4 8 256
map array 4 24 8
map array 4 8 8
mov r0, 3
exit
";

/// What is captured.
#[derive(Clone, Copy)]
enum Frames {
    /// One frame of this many zeros.
    Zeros(usize),
    /// This many rounds of a segment of each flow, whose ports begin with this one.
    Rounds { first: u16, flows: u16, rounds: u32 },
}

/// A replay, and what it counts.
#[derive(Clone, Copy)]
struct Row<'a> {
    name: &'a str,
    program: &'a str,
    script: &'a str,
    frames: Frames,
    workers: u32,
    journal: u32,
    counts: Counts,
}

const NONE: Counts = Counts {
    short: 0,
    stopped: 0,
    aborted: 0,
    drop: 0,
    pass: 0,
    tx: 0,
};

/// The accepted image of a text.
pub(crate) fn program<R: Abort>(rt: &R, alloc: Global, text: &str) -> Verified {
    let image = assemble(alloc, text).expect(rt, "an image");
    verify(alloc, image).expect(rt, "an accepted program")
}

/// A TCP segment without data from this port of 198.51.100.7 to port 80 of 203.0.113.1.
pub(crate) fn segment(source_port: u16) -> [u8; 54] {
    let [high, low] = source_port.to_be_bytes();
    [
        2, 0, 0, 0, 0, 1, 2, 0, 0, 0, 0, 2, 8, 0, 0x45, 0, 0, 40, 0, 1, 0, 0, 64, 6, 0, 0, 198, 51,
        100, 7, 203, 0, 113, 1, high, low, 0, 80, 0, 0, 0, 0, 0, 0, 0, 0, 0x50, 0, 0, 0, 0, 0, 0,
        0,
    ]
}

/// A record of these bytes, one microsecond after the one before it.
pub(crate) fn one_record(alloc: Global, number: u32, bytes: &[u8]) -> Result<Sent, AllocError> {
    let bytes = if bytes.len() <= 2048 { bytes } else { &[] };
    Ok(Sent {
        seconds: 7,
        micros: number,
        bytes: Vec::from_slice(alloc, bytes)?,
    })
}

/// These records as a file.
pub(crate) fn capture_file<R: Abort>(rt: &R, alloc: Global, records: &[Sent]) -> MemorySink {
    let mut file = MemorySink::new(alloc);
    write_capture(&mut file, records).expect(rt, "a file");
    file
}

/// The capture of these records.
pub(crate) fn capture<R: Abort>(rt: &R, alloc: Global, records: &[Sent]) -> Capture {
    let file = capture_file(rt, alloc, records);
    let bytes = file.bytes();
    let bytes = if bytes.len() <= 1_000_000 { bytes } else { &[] };
    read_capture(alloc, &mut MemorySource::new(bytes)).expect(rt, "a capture")
}

/// This many rounds of a segment of each flow, whose ports begin with this one.
fn rounds<R: Abort>(rt: &R, alloc: Global, first: u16, flows: u16, rounds: u32) -> Capture {
    let mut records = Vec::new(alloc);
    for round in 0..rounds {
        for flow in 0..flows {
            let bytes = segment(first.wrapping_add(flow));
            records
                .push(one_record(alloc, round, &bytes).expect(rt, "a record"))
                .expect(rt, "room");
        }
    }
    capture(rt, alloc, &records)
}

/// The capture of one frame of this many zeros.
fn zeros<R: Abort>(rt: &R, alloc: Global, count: usize) -> Capture {
    let record = one_record(alloc, 1, &[0; 14][..count.min(14)]).expect(rt, "a record");
    let mut records = Vec::new(alloc);
    records.push(record).expect(rt, "room");
    capture(rt, alloc, &records)
}

fn captured<R: Abort>(rt: &R, alloc: Global, frames: Frames) -> Capture {
    match frames {
        Frames::Zeros(count) => zeros(rt, alloc, count),
        Frames::Rounds {
            first,
            flows,
            rounds: count,
        } => rounds(rt, alloc, first, flows, count),
    }
}

/// The replay of an accepted program over one shard for each map, whose actors call this gate.
fn gated<R: Threads + Abort + Wait + Sync, G: Gate + Sync>(
    rt: &R,
    alloc: Global,
    verified: &Verified,
    capture: &Capture,
    script: &str,
    workers: u32,
    journal: u32,
    gate: &G,
) -> Outcome {
    let script = parse_script(alloc, script.as_bytes()).expect(rt, "a script");
    let options = Options {
        workers,
        shards: 1,
        journal,
    };
    let outcome = replay(
        rt,
        alloc,
        verified,
        capture,
        &[],
        &script,
        options,
        Recording::Rows,
        gate,
    );
    outcome.expect(rt, "an outcome")
}

/// The replay of a row's program on a capture.
fn replayed_on<R: Threads + Abort + Wait + Sync, G: Gate + Sync>(
    rt: &R,
    alloc: Global,
    row: &Row<'_>,
    capture: &Capture,
    gate: &G,
) -> Outcome {
    let verified = program(rt, alloc, row.program);
    gated(
        rt,
        alloc,
        &verified,
        capture,
        row.script,
        row.workers,
        row.journal,
        gate,
    )
}

/// Makes a row's replay, and compares what it counted.
fn replayed<R: Threads + Abort + Wait + Sync, G: Gate + Sync>(
    rt: &R,
    alloc: Global,
    row: &Row<'_>,
    gate: &G,
) -> Outcome {
    let capture = captured(rt, alloc, row.frames);
    let outcome = replayed_on(rt, alloc, row, &capture, gate);
    same_fact(rt, row.name, "the counts", &outcome.counts, &row.counts);
    outcome
}

/// SENT as a file.
fn sent_file<R: Abort>(rt: &R, alloc: Global, outcome: &Outcome) -> MemorySink {
    capture_file(rt, alloc, &outcome.sent)
}

/// The journals as a file.
fn journals_file<R: Abort>(rt: &R, alloc: Global, outcome: &Outcome) -> MemorySink {
    let mut file = MemorySink::new(alloc);
    if outcome.journals.keeps_rows() {
        write_journals(alloc, &mut file, &outcome.journals).expect(rt, "the journals");
    }
    file
}

/// Whether the text has this part, which has a letter at least.
fn has_part(text: &[u8], part: &str) -> bool {
    let part = part.as_bytes();
    !part.is_empty() && text.windows(part.len()).any(|window| window == part)
}

const ONE_FRAME: Row<'static> = Row {
    name: "one frame",
    program: COUNTS_TO_THREE,
    script: "",
    frames: Frames::Zeros(14),
    workers: 1,
    journal: 16,
    counts: Counts { tx: 1, ..NONE },
};

/// What forty flows of five frames each come to.
const FORTY_COUNTS: Counts = Counts {
    aborted: 185,
    drop: 5,
    pass: 5,
    tx: 5,
    ..NONE
};

/// Forty flows of five frames each.
const FORTY_FLOWS: Row<'static> = Row {
    name: "forty flows",
    program: ANSWERS_THE_PORT,
    script: "",
    frames: Frames::Rounds {
        first: 40192,
        flows: 40,
        rounds: 5,
    },
    workers: 1,
    journal: 65536,
    counts: FORTY_COUNTS,
};

/// Scripts, how many commands are refused, and the first entry of the list of backends, if it has one.
#[rattlefmt::skip]
const SCRIPTS: [(&str, &str, usize, Option<&str>); 4] = [
    ("a service and its backend",    SERVICE,                                 0, Some("3 c update 00000000 c000020101000000 0 answer 0\n")),
    ("no such backend",              "0 down 3\n",                            1, None),
    ("the backend is up",            "0 up 0 10.0.0.1\n0 up 0 10.0.0.1\n",    1, Some("3 c update 00000000 0a00000101000000 0 answer 0\n")),
    ("after the last frame",         "9 up 0 10.0.0.1\n",                     0, Some("3 c update 00000000 0a00000101000000 0 answer 0\n")),
];

/// Whether the journals have this entry, or, where there is none, none of the controller on the list of backends.
fn has_entry(journals: &[u8], entry: Option<&str>) -> bool {
    match entry {
        Some(entry) => has_part(journals, entry),
        None => !has_part(journals, "3 c "),
    }
}

/// Replays one frame, which is sent, by two workers with a script, and compares.
fn scripted<R: Threads + Abort + Wait + Sync>(
    rt: &R,
    alloc: Global,
    name: &str,
    script: &str,
    refused: usize,
    entry: Option<&str>,
) {
    let row = Row {
        name,
        program: SENDS_ALL,
        script,
        workers: 2,
        journal: 64,
        ..ONE_FRAME
    };
    let outcome = replayed(rt, alloc, &row, &NoGate);
    same_fact(
        rt,
        name,
        "the number of refused commands",
        &outcome.refused.len(),
        &refused,
    );
    let journals = journals_file(rt, alloc, &outcome);
    holds_of(
        rt,
        name,
        "the entry of the backends",
        has_entry(journals.bytes(), entry),
    );
}

#[test]
fn scripts_are_applied(rt: HostRuntime) {
    for (name, script, refused, entry) in &SCRIPTS {
        scripted(&rt, rt.alloc(), *name, *script, *refused, *entry);
    }
}
