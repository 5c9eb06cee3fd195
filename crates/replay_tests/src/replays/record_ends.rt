//! What a replay reports of each record: its worker, the verdict and the steps.

use super::{COUNTS_TO_THREE, capture, gated, one_record, program, segment};
use crate::asserting::same_fact;
use replay::{NoGate, ToldEnd};
use semantics::Verdict;
use std::alloc::Global;
use std::process::Abort;
use std::sync::Wait;
use std::thread::Threads;
use test_support::programs::READS_BYTE_13;
use wire::Capture;

/// Frames whose byte 13 is 0, 1, 2, 3 and 4, and two records of 13 bytes.
pub(super) fn byte_13s<R: Abort>(rt: &R, alloc: Global) -> Capture {
    let mut records = Vec::new(alloc);
    for byte in [0, 1, 2, 3, 4] {
        let mut bytes = [0; 14];
        bytes[13] = byte;
        records
            .push(one_record(alloc, 1, &bytes).expect(rt, "a record"))
            .expect(rt, "room");
        if byte == 0 || byte == 4 {
            records
                .push(one_record(alloc, 1, &[0; 13]).expect(rt, "a record"))
                .expect(rt, "room");
        }
    }
    capture(rt, alloc, &records)
}

/// The capture of three frames of zeros.
fn three_frames<R: Abort>(rt: &R, alloc: Global) -> Capture {
    let mut records = Vec::new(alloc);
    for number in 0..3 {
        records
            .push(one_record(alloc, number, &[0; 14]).expect(rt, "a record"))
            .expect(rt, "room");
    }
    capture(rt, alloc, &records)
}

/// A segment of each of eight flows, whose hashes modulo 8 are 4, 3, 2, 1, 0, 7, 6 and 5.
fn eight_flows<R: Abort>(rt: &R, alloc: Global) -> Capture {
    let mut records = Vec::new(alloc);
    for port in 40000..40008 {
        records
            .push(one_record(alloc, 1, &segment(port)).expect(rt, "a record"))
            .expect(rt, "room");
    }
    capture(rt, alloc, &records)
}

/// Compares the reports on the records of a replay.
fn ends_are<R: Threads + Abort + Wait + Sync>(
    rt: &R,
    alloc: Global,
    name: &str,
    text: &str,
    capture: &Capture,
    workers: u32,
    wanted: &[ToldEnd],
) {
    let verified = program(rt, alloc, text);
    let outcome = gated(rt, alloc, &verified, capture, "", workers, 16, &NoGate);
    let ends: &[ToldEnd] = &outcome.ends;
    same_fact(rt, name, "the ends", &ends, &wanted);
}

/// A run in `steps` steps.
fn exited(worker: u8, verdict: Verdict, steps: u64) -> ToldEnd {
    ToldEnd::Exited {
        worker,
        verdict,
        steps,
    }
}

/// The program takes eight instructions for each frame that has a byte 13, which is its answer.
pub(super) fn ends_of_byte_13s() -> [ToldEnd; 7] {
    [
        exited(0, Verdict::Aborted, 8),
        ToldEnd::Short,
        exited(0, Verdict::Drop, 8),
        exited(0, Verdict::Pass, 8),
        exited(0, Verdict::Tx, 8),
        exited(0, Verdict::Aborted, 8),
        ToldEnd::Short,
    ]
}

#[test]
fn verdicts_and_steps_of_known_frames(rt: HostRuntime) {
    let capture = byte_13s(&rt, rt.alloc());
    let wanted = ends_of_byte_13s();
    ends_are(
        &rt,
        rt.alloc(),
        "byte 13",
        READS_BYTE_13,
        &capture,
        1,
        &wanted,
    );
}

/// A run takes eighteen instructions, two of them wide, and six entries of a journal that has room for sixteen: the third run is stopped.
#[test]
fn a_stopped_run_has_no_steps(rt: HostRuntime) {
    let capture = three_frames(&rt, rt.alloc());
    let wanted = [
        exited(0, Verdict::Tx, 18),
        exited(0, Verdict::Tx, 18),
        ToldEnd::Stopped { worker: 0 },
    ];
    ends_are(
        &rt,
        rt.alloc(),
        "a full journal",
        COUNTS_TO_THREE,
        &capture,
        1,
        &wanted,
    );
}

#[test]
fn each_record_has_the_worker_of_its_flow(rt: HostRuntime) {
    let capture = eight_flows(&rt, rt.alloc());
    let mut wanted = Vec::new(rt.alloc());
    for worker in [4, 3, 2, 1, 0, 7, 6, 5] {
        wanted
            .push(exited(worker, Verdict::Aborted, 8))
            .expect(&rt, "room");
    }
    ends_are(
        &rt,
        rt.alloc(),
        "eight flows",
        READS_BYTE_13,
        &capture,
        8,
        &wanted,
    );
}
