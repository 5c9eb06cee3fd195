//! Rows of capture files: whole, cut at each byte, and over devices that fail.

ghost use Rattle.std.specs.Prelude.{◌≤◌, ◌^◌, length};

use crate::asserting::{holds, prints, same, same_bytes};
use std::alloc::Global;
use std::process::Abort;
use std::test::Fail;
use wire::{
    Capture, CaptureFault, MemorySink, MemorySource, Sent, Sink, Source, StreamSink, StreamSource,
    read_capture, write_capture,
};

/// A capture of one frame of 42 bytes, at second 1 and microsecond 2.
const CAPTURE: [u8; 82] = [
    0xd4, 0xc3, 0xb2, 0xa1, 0x02, 0x00, 0x04, 0x00, 0x00, 0x00, 0x00, 0x00, 0x00, 0x00, 0x00, 0x00,
    0xff, 0xff, 0x00, 0x00, 0x01, 0x00, 0x00, 0x00, 0x01, 0x00, 0x00, 0x00, 0x02, 0x00, 0x00, 0x00,
    0x2a, 0x00, 0x00, 0x00, 0x2a, 0x00, 0x00, 0x00, 0x02, 0x00, 0x00, 0x00, 0x00, 0x01, 0x02, 0x00,
    0x00, 0x00, 0x00, 0x02, 0x08, 0x00, 0x45, 0x00, 0x00, 0x1c, 0x00, 0x01, 0x00, 0x00, 0x40, 0x11,
    0x14, 0x94, 0xc6, 0x33, 0x64, 0x07, 0xcb, 0x00, 0x71, 0x01, 0x9c, 0x40, 0x00, 0x50, 0x00, 0x08,
    0x00, 0x00,
];

fn read(alloc: Global, bytes: &[u8]) -> Result<Capture, CaptureFault>
    requires { length bytes.now ≤ 2 ^ 40 }
{
    read_capture(alloc, &mut MemorySource::new(bytes))
}

/// What is wrong with a file, if anything is.
fn fault_of(alloc: Global, bytes: &[u8]) -> Option<CaptureFault>
    requires { length bytes.now ≤ 2 ^ 40 }
{
    read(alloc, bytes).err()
}

/// Compares a record with the one of the capture.
fn is_the_record(rt: &impl Abort, sent: &Sent) {
    same(rt, "seconds", &sent.seconds, &1);
    same(rt, "microseconds", &sent.micros, &2);
    same_bytes(rt, "the frame", &sent.bytes, &CAPTURE[40..]);
}

/// Compares the file of these records with the capture.
fn makes_the_capture(rt: &impl Abort, alloc: Global, records: &[Sent]) {
    let mut sink = MemorySink::new(alloc);
    write_capture(&mut sink, records).expect(rt, "a file");
    same_bytes(rt, "what is written", sink.bytes(), &CAPTURE);
}

#[test]
fn one_frame(rt: HostRuntime) {
    let capture = read(rt.alloc(), &CAPTURE).expect(&rt, "a capture");
    same(&rt, "one record", &capture.records.len(), &1);
    for sent in &capture.records {
        is_the_record(&rt, sent);
    }
    makes_the_capture(&rt, rt.alloc(), &capture.records);
}

/// One byte of the capture changed, and what then comes.
#[rattlefmt::skip]
const CHANGES: [(&str, usize, u8, Option<CaptureFault>); 13] = [
    ("another magic number",      0, 0xd5, Some(CaptureFault::BadMagic)),
    ("nanoseconds",               0, 0x4d, Some(CaptureFault::BadMagic)),
    ("major version 3",           4, 0x03, Some(CaptureFault::BadVersion)),
    ("minor version 3",           6, 0x03, Some(CaptureFault::BadVersion)),
    ("link type 101",            20, 0x65, Some(CaptureFault::BadLink)),
    ("link type by a high byte", 23, 0x01, Some(CaptureFault::BadLink)),
    ("any zone",                  8, 0x01, None),
    ("any accuracy",             12, 0x01, None),
    ("any snap length",          16, 0x01, None),
    ("any original length",      36, 0x01, None),
    ("one byte less is kept",    32, 0x29, Some(CaptureFault::CutHead { record: 2 })),
    ("one byte more is kept",    32, 0x2b, Some(CaptureFault::CutFrame { record: 1 })),
    ("2090 bytes are kept",      33, 0x08, Some(CaptureFault::FrameTooLong { record: 1 })),
];

/// The capture with one byte changed. Ends the test where it has no such byte.
fn with_byte(rt: &impl Abort, at: usize, byte: u8) -> [u8; 82] {
    let mut bytes = CAPTURE;
    holds(rt, "the capture has this byte", at < bytes.len());
    bytes[at] = byte;
    bytes
}

#[test]
fn changed_bytes(rt: HostRuntime) {
    for (name, at, byte, want) in &CHANGES {
        let got = fault_of(rt.alloc(), &with_byte(&rt, *at, *byte));
        same(&rt, *name, &got, want);
    }
}

/// Writes records to a stream, and answers how many calls have failed.
fn write_stream(alloc: Global, records: &[Sent]) -> Result<u64, CaptureFault> {
    let mut sink = StreamSink::new(Vec::new(alloc));
    write_capture(&mut sink, records)?;
    Ok(sink.failures())
}

#[test]
fn streams(rt: HostRuntime) {
    let mut source = StreamSource::new(CAPTURE.as_slice());
    let capture = read_capture(rt.alloc(), &mut source).expect(&rt, "a capture");
    same(&rt, "one record", &capture.records.len(), &1);
    same(&rt, "failures of the source", &source.failures(), &0);
    let failures = write_stream(rt.alloc(), &capture.records);
    same(&rt, "failures of the sink", &failures, &Ok(0));
}

#[rattlefmt::skip]
const FAULTS: [(CaptureFault, u8, &str); 8] = [
    (CaptureFault::BadMagic,                  1, "fault 1 BadMagic"),
    (CaptureFault::BadVersion,                2, "fault 2 BadVersion"),
    (CaptureFault::BadLink,                   3, "fault 3 BadLink"),
    (CaptureFault::CutHead { record: 0 },     4, "fault 4 CutHead record 0"),
    (CaptureFault::CutFrame { record: 3 },    5, "fault 5 CutFrame record 3"),
    (CaptureFault::FrameTooLong { record: 1 }, 6, "fault 6 FrameTooLong record 1"),
    (CaptureFault::Device,                    7, "fault 7 Device"),
    (CaptureFault::Memory,                    8, "fault 8 Memory"),
];

/// Compares the number and the text of each fault.
fn compare_texts(
    rt: &impl Abort,
    alloc: Global,
    rows: &[(CaptureFault, u8, &str)],
) -> Result<(), Fail> {
    for (fault, number, text) in rows {
        same(rt, text, &fault.number(), number);
        prints(rt, alloc, fault, text)?;
    }
    Ok(())
}

#[test]
fn capture_fault_texts(rt: HostRuntime) -> Result<(), Fail> {
    compare_texts(&rt, rt.alloc(), &FAULTS)
}

/// How many bytes a stream returns in all, and how many of its calls fail.
fn drained(bytes: &[u8]) -> (u64, u64) {
    let mut source = StreamSource::new(bytes);
    let mut buffer = [0; 4096];
    let mut count: u64 = 0;
    'reading: for _ in 0..1_000 {
        match source.read(&mut buffer) {
            Ok(0) | Err(_) => return (count, source.failures()),
            Ok(taken) => count = count.wrapping_add(taken as u64),
        }
    }
    (count, source.failures())
}

#[test]
fn a_stream_of_two_million_bytes(rt: HostRuntime) -> Result<(), Fail> {
    let bytes = vec![in rt.alloc(); 7u8; 2_000_000]?;
    same(
        &rt,
        "bytes, and failures",
        &drained(&bytes),
        &(2_000_000, 0),
    );
    Ok(())
}
