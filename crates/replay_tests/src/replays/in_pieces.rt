//! Exact replays whose capture comes in pieces: wherever it is cut, what comes of them is what comes of the whole capture.

ghost use Rattle.std.specs.Prelude.{◌≡◌, ◌<◌, OnOk};
ghost use Rattle.replay.specs.Pieces.{ReplayGoesOn};

use super::exact::{ChangeFrames, LONG_REFUSED, Rounds, are_refused, long_frames, long_script};
use super::record_ends::{byte_13s, ends_of_byte_13s};
use super::shipped_program::{first_wrong, segments, shipped_for_7};
use super::without_rows::FULL;
use super::{
    ANSWERS_THE_PORT, FORTY_COUNTS, FORTY_FLOWS, NONE, capture, capture_file, captured,
    journals_file, program,
};
use crate::asserting::{holds_of, same_bytes_of, same_fact};
use control::{Script, parse_script};
use replay::{
    Counts, NoGate, Outcome, PieceOutcome, PieceReplay, ReplayFault, ToldEnd, replay_in_turn,
};
use semantics::{Options, Recording};
use shard_port::Gate;
use std::alloc::{AllocError, Global};
use std::process::Abort;
use test_support::programs::READS_BYTE_13;
use verifier::Verified;
use wire::{CAPTURE_HEADER_LEN, Capture, Sent};

/// What is replayed, and how.
#[derive(Clone, Copy)]
struct ReplaySetting<'a> {
    name: &'a str,
    verified: &'a Verified,
    script: &'a Script,
    options: Options,
    recording: Recording,
}

/// Replays by two workers over shards of one part.
fn options_of(journal: u32) -> Options {
    Options {
        workers: 2,
        shards: 1,
        journal,
    }
}

/// The replay of a capture that is one piece.
fn whole<R: Abort>(
    rt: &R,
    alloc: Global,
    setting: ReplaySetting<'_>,
    capture: &Capture,
) -> Outcome {
    let outcome = replay_in_turn(
        alloc,
        setting.verified,
        capture,
        &[],
        setting.script,
        setting.options,
        setting.recording,
        &NoGate,
    );
    outcome.expect(rt, "an outcome")
}

/// What pieces handed out.
#[derive(Drop)]
struct HandedOut {
    /// The frames that were sent, as a file has their records.
    sent: Vec<u8>,
    ends: Vec<ToldEnd>,
}

impl HandedOut {
    fn nothing(alloc: Global) -> HandedOut {
        HandedOut {
            sent: Vec::new(alloc),
            ends: Vec::new(alloc),
        }
    }

    /// Adds what a piece handed out.
    fn add<R: Abort>(&mut self, rt: &R, alloc: Global, piece: &PieceOutcome) {
        let records = records_of(rt, alloc, &piece.sent);
        self.sent.extend_from_slice(&records).expect(rt, "records");
        self.ends.extend_from_slice(&piece.ends).expect(rt, "ends");
    }
}

/// The records of frames, as a file has them behind its header.
fn records_of<R: Abort>(rt: &R, alloc: Global, frames: &[Sent]) -> Vec<u8> {
    let file = capture_file(rt, alloc, frames);
    let records = file.bytes().get(CAPTURE_HEADER_LEN..).unwrap_or(b"");
    Vec::from_slice(alloc, records).expect(rt, "records")
}

/// Takes these records as the next piece. There is room for it, and each record so far has its end.
fn take_piece<R: Abort, G: Gate>(
    rt: &R,
    alloc: Global,
    setting: ReplaySetting<'_>,
    records: &[Sent],
    replay: &mut PieceReplay,
    given: &mut HandedOut,
    gate: &G,
) -> Result<(), AllocError>
    requires goes_on { ReplayGoesOn setting.script.now replay.old }
    requires maps { replay.old.turns.all.maps ≡ setting.verified.now.maps }
    ensures goes_on { OnOk result (ReplayGoesOn setting.entry.script.now replay.new) }
    ensures maps { OnOk result (replay.new.turns.all.maps ≡ setting.entry.verified.now.maps) }
{
    let piece = capture(rt, alloc, records);
    holds_of(rt, setting.name, "room", replay.has_room(&piece));
    let done = replay.go_on(alloc, setting.verified, setting.script, &piece, gate)?;
    given.add(rt, alloc, &done);
    replay.give_back(done);
    let taken = replay.taken();
    same_fact(rt, setting.name, "the ends", &given.ends.len(), &taken);
    Ok(())
}

/// Takes all records, in pieces of this many.
fn take_pieces<R: Abort, G: Gate>(
    rt: &R,
    alloc: Global,
    setting: ReplaySetting<'_>,
    records: &[Sent],
    size: usize,
    replay: &mut PieceReplay,
    given: &mut HandedOut,
    gate: &G,
) -> Result<(), AllocError>
    requires size { 0 < size }
    requires goes_on { ReplayGoesOn setting.script.now replay.old }
    requires maps { replay.old.turns.all.maps ≡ setting.verified.now.maps }
    ensures goes_on { OnOk result (ReplayGoesOn setting.entry.script.now replay.new) }
{
    'pieces: for piece in records.chunks(size) {
        take_piece(rt, alloc, setting, piece, replay, given, gate)?;
    }
    Ok(())
}

/// What a replay in pieces comes to: what it handed out, and the outcome behind it.
#[derive(Drop)]
struct Ended {
    given: HandedOut,
    rest: Outcome,
}

/// The replay of a capture in pieces of this many records.
fn in_pieces<R: Abort, G: Gate>(
    rt: &R,
    alloc: Global,
    setting: ReplaySetting<'_>,
    capture: &Capture,
    size: usize,
    gate: &G,
) -> Result<Ended, ReplayFault>
    requires { 0 < size }
{
    let mut replay = PieceReplay::open(
        alloc,
        setting.verified,
        &[],
        setting.script,
        setting.options,
        setting.recording,
    )?;
    let mut given = HandedOut::nothing(alloc);
    let records: &[Sent] = &capture.records;
    take_pieces(
        rt,
        alloc,
        setting,
        records,
        size,
        &mut replay,
        &mut given,
        gate,
    )?;
    same_fact(rt, setting.name, "taken", &replay.taken(), &records.len());
    let rest = replay.finish(alloc, setting.verified, &[], setting.script);
    let rest = rest.expect(rt, "an outcome");
    Ok(Ended { given, rest })
}

/// Compares what a replay in pieces comes to with the outcome of the whole capture.
fn compare<R: Abort>(rt: &R, alloc: Global, name: &str, ended: &Ended, wanted: &Outcome) {
    let Ended { given, rest } = ended;
    same_fact(rt, name, "the counts", &rest.counts, &wanted.counts);
    same_fact(
        rt,
        name,
        "the refused commands",
        &rest.refused.as_slice(),
        &wanted.refused.as_slice(),
    );
    same_fact(
        rt,
        name,
        "the ends",
        &given.ends.as_slice(),
        &wanted.ends.as_slice(),
    );
    let sent = records_of(rt, alloc, &wanted.sent);
    same_bytes_of(rt, name, "what is sent", &given.sent, &sent);
    let found = journals_file(rt, alloc, rest);
    let journals = journals_file(rt, alloc, wanted);
    same_bytes_of(rt, name, "the journals", found.bytes(), journals.bytes());
    holds_of(rt, name, "none sent at the end", rest.sent.is_empty());
    holds_of(rt, name, "no ends at the end", rest.ends.is_empty());
}

/// Of 300 frames: how many a piece has, and before which ones the backends change.
#[rattlefmt::skip]
const ROWS: [(&str, usize, ChangeFrames); 11] = [
    ("pieces of one record",                           1,   ChangeFrames { up: 137, down: 200 }),
    ("pieces of 63 records",                           63,  ChangeFrames { up: 137, down: 200 }),
    ("pieces of 64 records",                           64,  ChangeFrames { up: 137, down: 200 }),
    ("pieces of 65 records",                           65,  ChangeFrames { up: 137, down: 200 }),
    ("one piece",                                      300, ChangeFrames { up: 137, down: 200 }),
    ("commands between two pieces of 63",              63,  ChangeFrames { up: 63,  down: 126 }),
    ("commands between two pieces of 64 and a round",  64,  ChangeFrames { up: 64,  down: 128 }),
    ("commands between two pieces of 65",              65,  ChangeFrames { up: 65,  down: 130 }),
    ("before the last record of a piece",              64,  ChangeFrames { up: 63,  down: 127 }),
    ("behind the first record of a piece",             64,  ChangeFrames { up: 65,  down: 129 }),
    ("before the first record, and behind the last",   64,  ChangeFrames { up: 0,   down: 300 }),
];

/// Compares the whole replay of a row with what was worked out.
fn compare_whole<R: Abort>(rt: &R, name: &str, outcome: &Outcome, want: &[(u16, u8)]) {
    let wrong = first_wrong(&outcome.sent, want);
    same_fact(rt, name, "the first wrong frame", &wrong, &None);
    let counts = Counts { tx: 300, ..NONE };
    same_fact(rt, name, "the counts", &outcome.counts, &counts);
    let refused = are_refused(&outcome.refused, LONG_REFUSED);
    holds_of(rt, name, "the refused commands", refused);
}

/// Makes the replay of a row in pieces and whole, and compares both. The gate is called after each 64 records, with the numbers 1 to 4.
fn compare_row<R: Abort>(
    rt: &R,
    alloc: Global,
    verified: &Verified,
    row: &(&str, usize, ChangeFrames),
) {
    let (name, size, changes) = *row;
    let (ports, want) = long_frames(rt, alloc, changes);
    let text = long_script(rt, alloc, changes);
    let script = parse_script(alloc, text.as_bytes()).expect(rt, "a script");
    let setting = ReplaySetting {
        name,
        verified,
        script: &script,
        options: options_of(65536),
        recording: Recording::Rows,
    };
    let capture = segments(rt, alloc, &ports);
    let wanted = whole(rt, alloc, setting, &capture);
    compare_whole(rt, name, &wanted, &want);
    let rounds = Rounds::new();
    let ended = in_pieces(rt, alloc, setting, &capture, size.max(1), &rounds);
    let ended = ended.expect(rt, "pieces");
    compare(rt, alloc, name, &ended, &wanted);
    same_fact(rt, name, "the rounds", &rounds.digits(), &1234);
}

#[test]
fn pieces_are_replayed_as_the_whole(rt: HostRuntime) {
    let verified = shipped_for_7(&rt, rt.alloc());
    for row in &ROWS {
        compare_row(&rt, rt.alloc(), &verified, row);
    }
}

/// The sizes of the pieces that each row below is made in.
const SIZES: [usize; 5] = [1, 63, 64, 65, 200];

/// How many records a capture has, and with which numbers the gate is called for them, as decimal digits. The round behind the last record
/// is not one of them.
#[rattlefmt::skip]
const ROUNDS: [(&str, usize, u64); 7] = [
    ("no record",    0,   0),
    ("63 records",   63,  0),
    ("64 records",   64,  1),
    ("65 records",   65,  1),
    ("127 records",  127, 1),
    ("128 records",  128, 12),
    ("200 records",  200, 123),
];

/// Compares the numbers that a gate is called with in a replay of this many frames, whichever size the pieces have.
fn compare_rounds<R: Abort>(
    rt: &R,
    alloc: Global,
    setting: ReplaySetting<'_>,
    count: usize,
    digits: u64,
) {
    let ports = [40001; 200];
    let capture = segments(rt, alloc, ports.get(..count).unwrap_or(&ports));
    for size in SIZES {
        let rounds = Rounds::new();
        let ended = in_pieces(rt, alloc, setting, &capture, size.max(1), &rounds);
        let ended = ended.expect(rt, "pieces");
        same_fact(rt, setting.name, "taken", &ended.given.ends.len(), &count);
        same_fact(rt, setting.name, "the rounds", &rounds.digits(), &digits);
    }
}

#[test]
fn the_gate_counts_the_rounds_over_all_pieces(rt: HostRuntime) {
    let alloc = rt.alloc();
    let verified = program(&rt, alloc, ANSWERS_THE_PORT);
    let script = parse_script(alloc, b"").expect(&rt, "a script");
    for (name, count, digits) in &ROUNDS {
        let setting = ReplaySetting {
            name,
            verified: &verified,
            script: &script,
            options: options_of(65536),
            recording: Recording::Rows,
        };
        compare_rounds(&rt, alloc, setting, *count, *digits);
    }
}

/// A replay of the forty flows, and what it counts: the room for entries, and whether rows are kept.
#[rattlefmt::skip]
const FLOWS: [(&str, u32, Recording, Counts); 3] = [
    ("room for all",                65536, Recording::Rows,   FORTY_COUNTS),
    ("full within the first piece", 16,    Recording::Rows,   FULL),
    ("no rows are kept",            16,    Recording::NoRows, FORTY_COUNTS),
];

/// Compares a replay of the forty flows, whichever size the pieces have.
fn compare_flows<R: Abort>(rt: &R, alloc: Global, setting: ReplaySetting<'_>, counts: &Counts) {
    let capture = captured(rt, alloc, FORTY_FLOWS.frames);
    let wanted = whole(rt, alloc, setting, &capture);
    same_fact(rt, setting.name, "the counts", &wanted.counts, counts);
    for size in SIZES {
        let ended = in_pieces(rt, alloc, setting, &capture, size.max(1), &NoGate);
        let ended = ended.expect(rt, "pieces");
        compare(rt, alloc, setting.name, &ended, &wanted);
    }
}

#[test]
fn pieces_of_forty_flows(rt: HostRuntime) {
    let alloc = rt.alloc();
    let verified = program(&rt, alloc, ANSWERS_THE_PORT);
    let script = parse_script(alloc, b"").expect(&rt, "a script");
    for (name, journal, recording, counts) in &FLOWS {
        let setting = ReplaySetting {
            name,
            verified: &verified,
            script: &script,
            options: options_of(*journal),
            recording: *recording,
        };
        compare_flows(&rt, alloc, setting, counts);
    }
}

/// Compares the ends that are handed out with those that were worked out, of pieces of this many records.
fn compare_ends<R: Abort>(rt: &R, alloc: Global, setting: ReplaySetting<'_>, size: usize) {
    let capture = byte_13s(rt, alloc);
    let ended = in_pieces(rt, alloc, setting, &capture, size.max(1), &NoGate);
    let ended = ended.expect(rt, "pieces");
    let wanted = ends_of_byte_13s();
    same_fact(
        rt,
        setting.name,
        "the ends",
        &ended.given.ends.as_slice(),
        &wanted.as_slice(),
    );
    let counts = Counts {
        short: 2,
        aborted: 2,
        drop: 1,
        pass: 1,
        tx: 1,
        ..NONE
    };
    same_fact(rt, setting.name, "the counts", &ended.rest.counts, &counts);
}

#[test]
fn ends_are_handed_out_with_their_piece(rt: HostRuntime) {
    let alloc = rt.alloc();
    let verified = program(&rt, alloc, READS_BYTE_13);
    let script = parse_script(alloc, b"").expect(&rt, "a script");
    let setting = ReplaySetting {
        name: "byte 13",
        verified: &verified,
        script: &script,
        options: Options {
            workers: 1,
            ..options_of(16)
        },
        recording: Recording::Rows,
    };
    for size in [1, 2, 3, 7] {
        compare_ends(&rt, alloc, setting, size);
    }
}

/// How many records a piece has, and how many were taken behind it.
const TAKEN: [(usize, usize); 6] = [(0, 0), (1, 1), (63, 64), (0, 64), (65, 129), (0, 129)];

/// Takes pieces of these sizes, and compares how many records were taken behind each.
fn compare_taken<R: Abort>(
    rt: &R,
    alloc: Global,
    setting: ReplaySetting<'_>,
    records: &[Sent],
    replay: &mut PieceReplay,
    given: &mut HandedOut,
) -> Result<(), AllocError>
    requires goes_on { ReplayGoesOn setting.script.now replay.old }
    requires maps { replay.old.turns.all.maps ≡ setting.verified.now.maps }
{
    'pieces: for (count, taken) in TAKEN {
        let piece = records.get(..count).unwrap_or(&[]);
        take_piece(rt, alloc, setting, piece, replay, given, &NoGate)?;
        same_fact(rt, setting.name, "taken", &replay.taken(), &taken);
    }
    Ok(())
}

/// Opens a replay, and compares how many records were taken at first and behind each piece.
fn compare_taken_so_far<R: Abort>(
    rt: &R,
    alloc: Global,
    setting: ReplaySetting<'_>,
) -> Result<(), ReplayFault> {
    let mut replay = PieceReplay::open(
        alloc,
        setting.verified,
        &[],
        setting.script,
        setting.options,
        setting.recording,
    )?;
    same_fact(rt, setting.name, "taken at first", &replay.taken(), &0);
    let all = segments(rt, alloc, &[40001; 65]);
    let mut given = HandedOut::nothing(alloc);
    let records: &[Sent] = &all.records;
    let compared = compare_taken(rt, alloc, setting, records, &mut replay, &mut given);
    compared.expect(rt, "pieces");
    Ok(())
}

#[test]
fn records_are_counted_over_all_pieces(rt: HostRuntime) {
    let alloc = rt.alloc();
    let verified = program(&rt, alloc, ANSWERS_THE_PORT);
    let script = parse_script(alloc, b"").expect(&rt, "a script");
    let setting = ReplaySetting {
        name: "pieces with and without records",
        verified: &verified,
        script: &script,
        options: options_of(65536),
        recording: Recording::Rows,
    };
    compare_taken_so_far(&rt, alloc, setting).expect(&rt, "pieces");
}
