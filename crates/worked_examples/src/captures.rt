//! Captures: cut files, and devices that fail.

ghost use Rattle.std.specs.Prelude.{◌≤◌, ◌^◌, length};

use crate::asserting::{same, same_at, same_bytes};
use std::alloc::Global;
use std::process::Abort;
use test_support::slow_devices::{SlowSink, SlowSource};
use wire::{Capture, CaptureFault, MemorySource, Sent, Source, read_capture, write_capture};

/// A capture of one frame of 42 bytes, at second 1 and microsecond 2.
const CAPTURE: [u8; 82] = [
    0xd4, 0xc3, 0xb2, 0xa1, 0x02, 0x00, 0x04, 0x00, 0x00, 0x00, 0x00, 0x00, 0x00, 0x00, 0x00, 0x00,
    0xff, 0xff, 0x00, 0x00, 0x01, 0x00, 0x00, 0x00, 0x01, 0x00, 0x00, 0x00, 0x02, 0x00, 0x00, 0x00,
    0x2a, 0x00, 0x00, 0x00, 0x2a, 0x00, 0x00, 0x00, 0x02, 0x00, 0x00, 0x00, 0x00, 0x01, 0x02, 0x00,
    0x00, 0x00, 0x00, 0x02, 0x08, 0x00, 0x45, 0x00, 0x00, 0x1c, 0x00, 0x01, 0x00, 0x00, 0x40, 0x11,
    0x14, 0x94, 0xc6, 0x33, 0x64, 0x07, 0xcb, 0x00, 0x71, 0x01, 0x9c, 0x40, 0x00, 0x50, 0x00, 0x08,
    0x00, 0x00,
];

fn read(alloc: Global, bytes: &[u8]) -> Result<Capture, CaptureFault>
    requires { length bytes.now ≤ 2 ^ 40 }
{
    read_capture(alloc, &mut MemorySource::new(bytes))
}

/// How many records a file has, or what is wrong with it.
fn count_of(alloc: Global, bytes: &[u8]) -> Result<usize, CaptureFault>
    requires { length bytes.now ≤ 2 ^ 40 }
{
    match read(alloc, bytes) {
        Ok(capture) => Ok(capture.records.len()),
        Err(fault) => Err(fault),
    }
}

#[test]
fn a_cut_record_is_named(rt: HostRuntime) {
    let mut bytes = [0; 197];
    bytes[..82].copy_from_slice(&CAPTURE);
    bytes[82..140].copy_from_slice(&CAPTURE[24..]);
    bytes[140..].copy_from_slice(&CAPTURE[24..81]);
    let found = count_of(rt.alloc(), &bytes);
    let fault = CaptureFault::CutFrame { record: 3 };
    same(&rt, "within the third record", &found, &Err(fault));
    let found = count_of(rt.alloc(), &[]);
    let fault = CaptureFault::CutHead { record: 0 };
    same(&rt, "an empty file", &found, &Err(fault));
}

#[test]
fn a_header_alone_is_a_capture_of_no_frames(rt: HostRuntime) {
    let found = count_of(rt.alloc(), &CAPTURE[..24]);
    same(&rt, "a header alone", &found, &Ok(0));
}

#[test]
fn each_beginning_of_a_capture_is_refused(rt: HostRuntime) {
    for size in 0..CAPTURE.len() {
        let want = match size {
            0..=23 => Err(CaptureFault::CutHead { record: 0 }),
            24 => Ok(0),
            25..=39 => Err(CaptureFault::CutHead { record: 1 }),
            _ => Err(CaptureFault::CutFrame { record: 1 }),
        };
        let found = count_of(rt.alloc(), &CAPTURE[..size]);
        same_at(&rt, "bytes:", size as u64, &found, &want);
    }
}

/// How many records come from a source that fails at one of its calls, and how many calls have failed.
fn read_slowly(alloc: Global, fails_at: u64) -> (Result<usize, CaptureFault>, u64) {
    let mut source = SlowSource::new(&CAPTURE, fails_at);
    let count = match read_capture(alloc, &mut source) {
        Ok(capture) => Ok(capture.records.len()),
        Err(fault) => Err(fault),
    };
    (count, source.failures())
}

/// Each byte is a call, and one more finds the end.
#[test]
fn a_source_that_fails_is_7(rt: HostRuntime) {
    for fails_at in 1..84 {
        let found = read_slowly(rt.alloc(), fails_at);
        let want = (Err(CaptureFault::Device), 1);
        same_at(&rt, "failing at call", fails_at, &found, &want);
    }
    let found = read_slowly(rt.alloc(), 84);
    same(&rt, "at a call that is not made", &found, &(Ok(1), 0));
}

/// Writes records to a sink that takes this many bytes one by one and then fails, and compares what it has then.
fn write_slowly(rt: &impl Abort, alloc: Global, records: &[Sent], taken: u8) {
    let mut sink = SlowSink::new(alloc, u64::from(taken) + 1);
    let found = write_capture(&mut sink, records);
    let fault = Err(CaptureFault::Device);
    same_at(rt, "failing behind byte", u64::from(taken), &found, &fault);
    let front = crate::frames::part(&CAPTURE, 0, usize::from(taken));
    same_bytes(rt, "a beginning of the file", sink.bytes(), front);
}

#[test]
fn a_sink_that_fails_is_7_and_has_a_beginning(rt: HostRuntime) {
    let capture = read(rt.alloc(), &CAPTURE).expect(&rt, "a capture");
    for taken in 0..82 {
        write_slowly(&rt, rt.alloc(), &capture.records, taken);
    }
}
