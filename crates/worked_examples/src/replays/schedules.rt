//! Replays whose schedule a gate fixes: it holds a worker at its first reply, for a limited number of turns.

use super::{has_lines, refuses_a_command};
use crate::asserting::{holds, same};
use crate::turns::{Signal, waits};
use control::parse_script;
use disasm::assemble;
use journals::write_journals;
use replay::{Applied, Counts, Gate, Outcome, replay};
use semantics::{Caller, Options, Recording};
use std::alloc::Global;
use std::process::Abort;
use std::sync::Wait;
use std::thread::Threads;
use steer::shipped;
use test_support::programs::READS_ONE;
use verifier::{Verified, verify};
use wire::{Capture, MemorySink, MemorySource, Sent, read_capture, write_capture};

/// A gate that holds each worker below a number, at its first reply, until this many workers have had one, but no longer than its limit of
/// turns.
#[derive(Drop)]
struct Meeting {
    held: u8,
    wanted: u64,
    limit: u32,
    /// Given at each reply of a worker.
    replies: Signal,
    /// Given by each worker that has had a reply.
    met: Signal,
    /// Given by each that was held up to the limit.
    late: Signal,
}

impl Gate for Meeting {
    fn replied(&self, who: Caller, nth: u64) {
        let Caller::Worker { number } = who else {
            return;
        };
        self.replies.give();
        if nth != 1 {
            return;
        }
        self.met.give();
        if number < self.held && !waits(&self.met, self.wanted, self.limit) {
            self.late.give();
        }
    }
}

/// A gate that holds the workers below this number until this many have met.
fn gate_of(held: u8, wanted: u64, limit: u32) -> Meeting {
    Meeting {
        held,
        wanted,
        limit,
        replies: Signal::new(),
        met: Signal::new(),
        late: Signal::new(),
    }
}

/// A TCP segment without data from this port of 198.51.100.7 to port 80 of 203.0.113.1.
fn segment(source_port: u16) -> [u8; 54] {
    let [high, low] = source_port.to_be_bytes();
    [
        2, 0, 0, 0, 0, 1, 2, 0, 0, 0, 0, 2, 8, 0, 0x45, 0, 0, 40, 0, 1, 0, 0, 64, 6, 0, 0, 198, 51,
        100, 7, 203, 0, 113, 1, high, low, 0, 80, 0, 0, 0, 0, 0, 0, 0, 0, 0x50, 0, 0, 0, 0, 0, 0,
        0,
    ]
}

/// A capture, as a file, of this many rounds of a segment of each flow, whose ports begin with this one.
pub(super) fn segments_file<R: Abort>(
    rt: &R,
    alloc: Global,
    first: u16,
    flows: u16,
    rounds: u32,
) -> MemorySink {
    let mut records = Vec::new(alloc);
    for round in 0..rounds {
        for flow in 0..flows {
            let bytes = segment(first.wrapping_add(flow));
            let bytes = Vec::from_slice(alloc, &bytes).expect(rt, "a frame");
            let sent = Sent {
                seconds: 7,
                micros: round,
                bytes,
            };
            records.push(sent).expect(rt, "room");
        }
    }
    let mut file = MemorySink::new(alloc);
    write_capture(&mut file, &records).expect(rt, "a file");
    file
}

/// The capture of such a file.
fn segments<R: Abort>(rt: &R, alloc: Global, first: u16, flows: u16, rounds: u32) -> Capture {
    let file = segments_file(rt, alloc, first, flows, rounds);
    let bytes = file.bytes();
    let bytes = if bytes.len() <= 1_000_000 { bytes } else { &[] };
    read_capture(alloc, &mut MemorySource::new(bytes)).expect(rt, "a capture")
}

/// The program that reads element 0 and passes each frame, accepted.
fn reads_one<R: Abort>(rt: &R, alloc: Global) -> Verified {
    let image = assemble(alloc, READS_ONE).expect(rt, "an image");
    verify(alloc, image).expect(rt, "an accepted program")
}

/// A replay of a program under a gate, with this script, and this many workers and places in a journal.
fn replayed<R: Threads + Abort + Wait + Sync>(
    rt: &R,
    alloc: Global,
    verified: &Verified,
    capture: &Capture,
    script: &str,
    workers: u32,
    journal: u32,
    gate: &Meeting,
) -> Outcome {
    let script = parse_script(alloc, script.as_bytes()).expect(rt, "a script");
    let options = Options {
        workers,
        shards: 1,
        journal,
    };
    let outcome = replay(
        rt,
        alloc,
        verified,
        capture,
        &[],
        &script,
        options,
        Recording::Rows,
        gate,
    );
    outcome.expect(rt, "an outcome")
}

/// What passes, and what is stopped.
fn counts(pass: u64, stopped: u64) -> Counts {
    Counts {
        short: 0,
        stopped,
        aborted: 0,
        drop: 0,
        pass,
        tx: 0,
    }
}

/// This many workers, each with a frame of a flow of its own, meet at their first replies: nobody is held up to the limit.
fn meet<R: Threads + Abort + Wait + Sync>(
    rt: &R,
    alloc: Global,
    first: u16,
    workers: u16,
    held: u8,
) {
    let capture = segments(rt, alloc, first, workers, 1);
    let gate = gate_of(held, u64::from(workers), 10_000_000);
    let verified = reads_one(rt, alloc);
    let count = u32::from(workers);
    let outcome = replayed(rt, alloc, &verified, &capture, "", count, 65536, &gate);
    let want = counts(u64::from(workers), 0);
    same(rt, "all pass", &outcome.counts, &want);
    same(rt, "who met", &gate.met.count(), &u64::from(workers));
    same(rt, "who was late", &gate.late.count(), &0);
}

/// Worker 0's first reply is held until worker 1 has one.
#[test]
fn two_workers_meet(rt: HostRuntime) {
    meet(&rt, rt.alloc(), 40000, 2, 1);
}

/// Each worker's first reply is held until all eight have one.
#[test]
fn eight_workers_meet(rt: HostRuntime) {
    meet(&rt, rt.alloc(), 40192, 8, 8);
}

/// One worker, this many frames of a flow, and this many places in the journal: how many pass and are stopped, and how the full journal ends.
/// Each that passes has two replies.
fn fills<R: Threads + Abort + Wait + Sync>(
    rt: &R,
    alloc: Global,
    journal: u32,
    frames: u32,
    want: Counts,
    last: &str,
) {
    let capture = segments(rt, alloc, 40000, 1, frames);
    let gate = gate_of(0, 1, 1_000_000);
    let verified = reads_one(rt, alloc);
    let outcome = replayed(rt, alloc, &verified, &capture, "", 1, journal, &gate);
    same(rt, "passed and stopped", &outcome.counts, &want);
    same(rt, "the replies", &gate.replies.count(), &8);
    let mut file = MemorySink::new(alloc);
    holds(rt, "rows", outcome.journals.keeps_rows());
    write_journals(alloc, &mut file, &outcome.journals).expect(rt, "a file");
    let lines = file.bytes().iter().filter(|byte| **byte == b'\n').count();
    same(
        rt,
        "a head and the entries",
        &(lines as u64),
        &(u64::from(journal) + 1),
    );
    holds(rt, "the end", file.bytes().ends_with(last.as_bytes()));
}

#[test]
fn runs_stop_where_the_journal_is_full(rt: HostRuntime) {
    let alloc = rt.alloc();
    let last = "0 w0 load 0 0 8 word 0\n0 w0 leave ok\n";
    fills(&rt, alloc, 16, 5, counts(4, 1), last);
    let last = "0 w0 leave ok\n0 w0 enter ok\n0 w0 leave ok\n";
    fills(&rt, alloc, 18, 6, counts(4, 2), last);
}

/// The worker's first reply is held up to the limit, while the dispatcher finds its queue of 64 jobs full.
#[test]
fn a_held_worker_runs_all_its_frames(rt: HostRuntime) {
    let capture = segments(&rt, rt.alloc(), 40000, 1, 100);
    let gate = gate_of(1, 2, 1_000_000);
    let verified = reads_one(&rt, rt.alloc());
    let outcome = replayed(&rt, rt.alloc(), &verified, &capture, "", 1, 65536, &gate);
    same(&rt, "all pass", &outcome.counts, &counts(100, 0));
    same(&rt, "who was late", &gate.late.count(), &1);
}

/// Three tables of seven slots are put, and the first three slots of a fourth one. A frame is taken between the commands.
const FOURTH_TABLE: &str =
    "0 up 0 192.0.2.1\n1 down 0\n1 up 0 192.0.2.1\n2 down 0\n3 vip 203.0.113.1 80 udp\n";

/// Commands 3 and 4, counted from 0, are refused with 94, and no other.
fn are_the_last_two(refused: &[Applied]) -> bool {
    refused
        .iter()
        .map(|one| (one.command, one.fault.map(|fault| fault.number())))
        .eq([(3, Some(94)), (4, Some(94))])
}

#[test]
fn a_down_meets_a_full_journal(rt: HostRuntime) {
    let alloc = rt.alloc();
    let image = shipped(alloc, 7).expect(&rt, "an image");
    let verified = verify(alloc, image).expect(&rt, "an accepted program");
    let capture = segments(&rt, alloc, 40000, 1, 3);
    let gate = gate_of(0, 1, 1_000_000);
    let script = FOURTH_TABLE;
    let outcome = replayed(&rt, alloc, &verified, &capture, script, 1, 24, &gate);
    same(&rt, "all pass", &outcome.counts, &counts(3, 0));
    holds(&rt, "the last two", are_the_last_two(&outcome.refused));
}

/// What is written of the third slot, by the second and by the fourth table.
const TWICE: &str =
    "2 c update 02000000 0000000000000000 0 answer 0\n2 c update 02000000 0000000000000000 0 answer 0\n";

/// And of the next one, by the second alone.
const ONCE: &str = "2 c update 03000000 0000000000000000 0 answer 0\n";

#[test]
fn updates_before_a_full_journal_stand(rt: HostRuntime) {
    let alloc = rt.alloc();
    let line = "xlb replay capture sent --script script --ring 7 --journal 24 --journals journals";
    let refused = "command 4 refused 94\ncommand 5 refused 94\n";
    let folder = refuses_a_command(&rt, alloc, line, FOURTH_TABLE, refused);
    let folder = has_lines(&rt, alloc, folder, "2 c update 02000000 00", TWICE);
    has_lines(&rt, alloc, folder, "2 c update 03000000 00", ONCE);
}
