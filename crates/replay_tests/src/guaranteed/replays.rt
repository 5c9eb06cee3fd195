//! Replays of a program that only reads.

ghost use Rattle.std.specs.Prelude.{◌≡◌, []};

use super::programs::{EXIT, Program, accepted, look_up};
use crate::asserting::{same_bytes_of, same_fact};
use crate::replays::{capture, capture_file, one_record, segment};
use control::parse_script;
use ebpf_decode::Version;
use isa::Register::R0;
use replay::{Outcome, replay};
use semantics::{Options, Recording};
use shard_port::NoGate;
use std::alloc::Global;
use std::process::Abort;
use std::sync::Wait;
use std::thread::Threads;
use test_support::number;
use test_support::programs::ARRAY;
use verifier::Verified;
use wire::{Capture, Sent};

/// This many records of 40 flows in turn.
fn records<R: Abort>(rt: &R, alloc: Global, count: u32) -> Vec<Sent> {
    let mut records = Vec::new(alloc);
    for number in 0..count {
        let bytes = segment(40000 + (number % 40) as u16);
        records
            .push(one_record(alloc, number, &bytes).expect(rt, "a record"))
            .expect(rt, "room");
    }
    records
}

/// A program that looks a key up, and sends each frame as it is.
fn sending<R: Abort>(rt: &R, alloc: Global) -> Verified {
    accepted(
        rt,
        alloc,
        &Program {
            version: Version::V1,
            maps: &ARRAY,
            head: &look_up(0),
            tail: &[number!(R0, 3), EXIT],
        },
    )
}

/// The program's replay by this many workers.
fn replayed<R: Threads + Abort + Wait + Sync>(
    rt: &R,
    alloc: Global,
    verified: &Verified,
    capture: &Capture,
    workers: u32,
) -> Outcome {
    let script = parse_script(alloc, b"").expect(rt, "a script");
    assert!(rt; verified.is_reader() && script.commands().is_empty());
    let options = Options {
        workers,
        shards: 1,
        journal: 4096,
    };
    let outcome = replay(
        rt,
        alloc,
        verified,
        capture,
        &[],
        &script,
        options,
        Recording::Rows,
        &NoGate,
    );
    outcome.expect(rt, "an outcome")
}

/// The program sends all of a capture of these records.
fn sends<R: Threads + Abort + Wait + Sync>(
    rt: &R,
    alloc: Global,
    name: &str,
    verified: &Verified,
    records: &[Sent],
    workers: u32,
) {
    let capture = capture(rt, alloc, records);
    let outcome = replayed(rt, alloc, verified, &capture, workers);
    same_fact(rt, name, "the stopped runs", &outcome.counts.stopped, &0);
    let sent = capture_file(rt, alloc, &outcome.sent);
    let file = capture_file(rt, alloc, records);
    same_bytes_of(rt, name, "what is sent", sent.bytes(), file.bytes());
}

/// The same of this many records.
fn sends_all<R: Threads + Abort + Wait + Sync>(
    rt: &R,
    alloc: Global,
    name: &str,
    count: u32,
    workers: u32,
) {
    let verified = sending(rt, alloc);
    let records = records(rt, alloc, count);
    sends(rt, alloc, name, &verified, &records, workers);
}

/// How many frames are replayed, and by how many workers.
const REPLAYS: [(&str, u32, u32); 5] = [
    ("no frame", 0, 1),
    ("one frame", 1, 1),
    ("1000 frames by one worker", 1000, 1),
    ("1000 frames by three workers", 1000, 3),
    ("1000 frames by eight workers", 1000, 8),
];

#[test]
fn what_is_sent_is_the_same_by_any_number_of_workers(rt: HostRuntime) {
    for (name, count, workers) in &REPLAYS {
        sends_all(&rt, rt.alloc(), *name, *count, *workers);
    }
}
