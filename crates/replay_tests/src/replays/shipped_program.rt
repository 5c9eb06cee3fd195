//! The shipped program, replayed while a gate fixes between which frames the controller changes the backends.

use super::{NONE, capture, gated, journals_file, one_record, segment};
use crate::asserting::same_fact;
use replay::{Counts, Gate, Outcome};
use semantics::Caller;
use std::alloc::Global;
use std::hint::spin_loop;
use std::process::Abort;
use std::sync::Wait;
use std::sync::atomic::{AtomicU64, Ordering};
use std::thread::Threads;
use steer::shipped;
use verifier::{Verified, verify};
use wire::{Capture, Sent};

/// The actor whose reply of this number is held until worker 0, worker 1 and the controller have had this many.
type Hold = (Caller, u64, [u64; 3]);

const W0: Caller = Caller::Worker { number: 0 };

const W1: Caller = Caller::Worker { number: 1 };

const C: Caller = Caller::Controller;

/// A gate that holds actors as a list says, but no longer than its limit of turns.
#[derive(Drop)]
struct HoldingGate {
    holds: &'static [Hold],
    first: AtomicU64,
    second: AtomicU64,
    controller: AtomicU64,
    /// How many were held up to the limit.
    late: AtomicU64,
}

const LIMIT: u32 = 400_000_000;

impl HoldingGate {
    fn new(holds: &'static [Hold]) -> HoldingGate {
        HoldingGate {
            holds,
            first: AtomicU64::new(0),
            second: AtomicU64::new(0),
            controller: AtomicU64::new(0),
            late: AtomicU64::new(0),
        }
    }

    fn have_had(&self, wanted: [u64; 3]) -> bool {
        let [first, second, controller] = wanted;
        self.first.load(Ordering::SeqCst) >= first
            && self.second.load(Ordering::SeqCst) >= second
            && self.controller.load(Ordering::SeqCst) >= controller
    }

    fn hold(&self, wanted: [u64; 3]) {
        for _ in 0..LIMIT {
            if self.have_had(wanted) {
                return;
            }
            spin_loop();
        }
        self.late.fetch_add(1, Ordering::SeqCst);
    }
}

impl Gate for HoldingGate {
    fn replied(&self, who: Caller, nth: u64) {
        match who {
            Caller::Worker { number: 0 } => self.first.store(nth, Ordering::SeqCst),
            Caller::Worker { .. } => self.second.store(nth, Ordering::SeqCst),
            Caller::Controller => self.controller.store(nth, Ordering::SeqCst),
            Caller::Reclaimer => {}
        }
        for (held, reply, wanted) in self.holds {
            if *held == who && *reply == nth {
                self.hold(*wanted);
            }
        }
    }
}

/// What the controller does before the first frame beside the service, with ten replies in all.
pub(super) const AT_FIRST: &str =
    "0 gateway 10.0.0.9 02:00:00:00:00:0a 02:00:00:00:00:0b\n0 up 0 192.0.2.1\n";

/// What it does later. The service of another port, with one reply, is where the gate holds it until the frames before are done.
pub(super) const LATER: &str = "2 vip 203.0.113.1 81 tcp
2 up 1 192.0.2.2
5 vip 203.0.113.1 81 tcp
5 down 0
7 vip 203.0.113.1 81 tcp
7 up 0 192.0.2.1
10 vip 203.0.113.1 81 tcp
10 down 1
10 down 0
";

/// A replay for a lookup table of seven slots. By Maglev's population backend 1 takes slots 0, 3 and 6 from backend 0, and leaves it 1, 2,
/// 4 and 5. The flow of port 40001 has slot 1, 40002 3, 40003 3, 40004 0, 40005 1, 40007 0 and 40008 4; of two workers the second one has
/// the odd ports.
#[derive(Clone, Copy)]
struct Row {
    name: &'static str,
    service: &'static str,
    workers: u32,
    holds: &'static [Hold],
    /// The source port of each frame.
    frames: &'static [u16],
    /// Of each frame that is sent the port, and the last byte of the backend's address. They are the first frames.
    sent: &'static [(u16, u8)],
    /// How often a backend is noted for a flow.
    notes: usize,
}

pub(super) const TRACKED: &str = "0 vip 203.0.113.1 80 tcp\n";

pub(super) const UNTRACKED: &str = "0 vip 203.0.113.1 80 tcp notrack\n";

/// The frames of the first two rows, the ports of their flows.
pub(super) const FRAMES: &[u16] = &[
    40002, 40001, 40002, 40003, 40005, 40002, 40005, 40005, 40008, 40007, 40005,
];

/// Where they go with tracking.
#[rattlefmt::skip]
pub(super) const KEPT: &[(u16, u8)] = &[
    (40002, 1), (40001, 1), (40002, 1), (40003, 2), (40005, 1), (40002, 2), (40005, 2), (40005, 2), (40008, 1), (40007, 2),
];

/// And without.
#[rattlefmt::skip]
pub(super) const OWNED: &[(u16, u8)] = &[
    (40002, 1), (40001, 1), (40002, 2), (40003, 2), (40005, 1), (40002, 2), (40005, 2), (40005, 1), (40008, 1), (40007, 2),
];

/// The frames of the last row, and where they go.
pub(super) const FEW_FRAMES: &[u16] = &[40002, 40003, 40002, 40003, 40004, 40002, 40003];

#[rattlefmt::skip]
pub(super) const FEW_KEPT: &[(u16, u8)] = &[
    (40002, 1), (40003, 1), (40002, 1), (40003, 1), (40004, 2), (40002, 2), (40003, 2),
];

/// A new flow has 14 replies, a noted backend that is up 12, one that is not up 17, and a frame of a service without tracking 12. Backend 1
/// comes up with 4 replies, backend 0 goes down and comes up with 5 each.
#[rattlefmt::skip]
const ROWS: [Row; 3] = [
    Row {
        name: "a flow keeps its backend while that is up",
        service: TRACKED,
        workers: 1,
        holds: &[
            (C, 11, [28, 0, 0]), (W0, 29, [0, 0, 15]), (C, 16, [68, 0, 0]), (W0, 69, [0, 0, 21]),
            (C, 22, [102, 0, 0]), (W0, 103, [0, 0, 27]), (C, 28, [142, 0, 0]), (W0, 143, [0, 0, 40]),
        ],
        frames: FRAMES,
        sent: KEPT,
        notes: 8,
    },
    Row {
        name: "without tracking it has the owner of its slot",
        service: UNTRACKED,
        workers: 1,
        holds: &[
            (C, 11, [24, 0, 0]), (W0, 25, [0, 0, 15]), (C, 16, [60, 0, 0]), (W0, 61, [0, 0, 21]),
            (C, 22, [84, 0, 0]), (W0, 85, [0, 0, 27]), (C, 28, [120, 0, 0]), (W0, 121, [0, 0, 40]),
        ],
        frames: FRAMES,
        sent: OWNED,
        notes: 0,
    },
    Row {
        name: "flows of two workers",
        service: TRACKED,
        workers: 2,
        holds: &[
            (C, 11, [14, 14, 0]), (W0, 15, [0, 0, 15]), (W1, 15, [0, 0, 15]),
            (C, 16, [40, 26, 0]), (W0, 41, [0, 0, 21]), (W1, 27, [0, 0, 21]), (C, 22, [57, 43, 0]),
        ],
        frames: FEW_FRAMES,
        sent: FEW_KEPT,
        notes: 5,
    },
];

/// The Ethernet header of a sent frame, and its outer header: a packet of 60 bytes from 10.0.0.9 to 192.0.2.0, without the backend's part
/// of checksum and address.
#[rattlefmt::skip]
const HEAD: [u8; 34] = [
    2, 0, 0, 0, 0, 0x0b, 2, 0, 0, 0, 0, 0x0a, 8, 0,
    0x45, 0, 0, 60, 0, 0, 0x40, 0, 64, 4, 0x6e, 0xb5, 10, 0, 0, 9, 192, 0, 2, 0,
];

/// The segment of a port in a tunnel to a backend.
fn in_a_tunnel(port: u16, backend: u8) -> [u8; 74] {
    let mut frame = [0; 74];
    frame[..34].copy_from_slice(&HEAD);
    frame[25] = frame[25].wrapping_sub(backend);
    frame[33] = backend;
    frame[34..].copy_from_slice(&segment(port)[14..]);
    frame
}

/// The place of the first frame that is not in its tunnel, or at which one list ends before the other.
pub(super) fn first_wrong(sent: &[Sent], want: &[(u16, u8)]) -> Option<usize> {
    for (place, (one, (port, backend))) in sent.iter().zip(want).enumerate() {
        if one.bytes.as_slice() != in_a_tunnel(*port, *backend).as_slice() {
            return Some(place);
        }
    }
    if sent.len() == want.len() {
        None
    } else {
        Some(sent.len().min(want.len()))
    }
}

/// A segment of each of these ports.
pub(super) fn segments<R: Abort>(rt: &R, alloc: Global, ports: &[u16]) -> Capture {
    let mut records = Vec::new(alloc);
    for port in ports {
        records
            .push(one_record(alloc, 1, &segment(*port)).expect(rt, "a record"))
            .expect(rt, "room");
    }
    capture(rt, alloc, &records)
}

/// The shipped program for seven slots, accepted.
pub(super) fn shipped_for_7<R: Abort>(rt: &R, alloc: Global) -> Verified {
    let image = shipped(alloc, 7).expect(rt, "an image");
    verify(alloc, image).expect(rt, "an accepted program")
}

/// How often the journals have an update of a flow: the key of one begins with both addresses.
pub(super) fn notes_of(journals: &[u8]) -> usize {
    let part = b" update c6336407cb007101".as_slice();
    journals
        .windows(24)
        .filter(|window| *window == part)
        .count()
}

/// The replay of a row under a gate.
fn steered<R: Threads + Abort + Wait + Sync>(
    rt: &R,
    alloc: Global,
    row: &Row,
    verified: &Verified,
    gate: &HoldingGate,
) -> Outcome {
    let script = format!(in alloc; "{}{AT_FIRST}{LATER}", row.service).expect(rt, "a script");
    let capture = segments(rt, alloc, row.frames);
    gated(
        rt,
        alloc,
        verified,
        &capture,
        &script,
        row.workers,
        1024,
        gate,
    )
}

/// Compares what was sent, what was counted, and what the journals have. No command is refused.
fn compare<R: Abort>(rt: &R, alloc: Global, row: &Row, outcome: &Outcome) {
    same_fact(
        rt,
        row.name,
        "the refused commands",
        &outcome.refused.len(),
        &0,
    );
    same_fact(
        rt,
        row.name,
        "the first wrong frame",
        &first_wrong(&outcome.sent, row.sent),
        &None,
    );
    let counts = Counts {
        tx: row.sent.len() as u64,
        drop: row.frames.len().saturating_sub(row.sent.len()) as u64,
        ..NONE
    };
    same_fact(rt, row.name, "the counts", &outcome.counts, &counts);
    let journals = journals_file(rt, alloc, outcome);
    same_fact(
        rt,
        row.name,
        "the notes",
        &notes_of(journals.bytes()),
        &row.notes,
    );
}

/// Replays a row, and compares. Nobody is held up to the limit.
fn is_steered<R: Threads + Abort + Wait + Sync>(
    rt: &R,
    alloc: Global,
    row: &Row,
    verified: &Verified,
) {
    let gate = HoldingGate::new(row.holds);
    let outcome = steered(rt, alloc, row, verified, &gate);
    same_fact(
        rt,
        row.name,
        "who was late",
        &gate.late.load(Ordering::SeqCst),
        &0,
    );
    compare(rt, alloc, row, &outcome);
}

#[test]
fn backends_change_between_frames(rt: HostRuntime) {
    let verified = shipped_for_7(&rt, rt.alloc());
    for row in &ROWS {
        is_steered(&rt, rt.alloc(), row, &verified);
    }
}
