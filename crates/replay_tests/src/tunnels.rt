//! Rows worked out by hand from RFC 791 and RFC 2003.

ghost use Rattle.std.specs.Prelude.{◌≤◌, IsOk, length};

use crate::asserting::{holds, prints, same, same_bytes, same_fact};
use crate::datagrams::{part, with_byte};
use ipip::{IpipFault, Tunnel, encapsulate};
use std::alloc::{AllocError, Global};
use std::process::Abort;
use std::test::Fail;
use wire::{Frame, FrameFault, Ipv4Address, MacAddress};

/// The tunnel from 10.0.0.9 to 192.0.2.1.
const TUNNEL: Tunnel = Tunnel {
    source: Ipv4Address([10, 0, 0, 9]),
    target: Ipv4Address([192, 0, 2, 1]),
    source_mac: MacAddress([0x02, 0, 0, 0, 0, 0x09]),
    destination_mac: MacAddress([0x02, 0, 0, 0, 0, 0x0a]),
};

/// Encapsulates, and answers the number of the refusal, or 0.
fn outcome(frame: &mut Frame) -> u8 {
    match encapsulate(frame, TUNNEL) {
        Ok(()) => 0,
        Err(fault) => fault.number(),
    }
}

/// One byte of the datagram's frame changed, and the number of the refusal, or 0.
#[rattlefmt::skip]
const CHANGES: [(&str, usize, u8, u8); 12] = [
    ("another protocol",               23, 0x06, 0),
    ("a fragment",                     20, 0x20, 0),
    ("a type of service",              15, 0xb8, 0),
    ("a total below the frame's",      17, 0x14, 0),
    ("time to live 1",                 22, 0x01, 0),
    ("not IPv4 (high byte)",           12, 0x86, 83),
    ("not IPv4 (low byte)",            13, 0x06, 83),
    ("options",                        14, 0x46, 83),
    ("version 6",                      14, 0x65, 83),
    ("a total of 19",                  17, 0x13, 83),
    ("a total past the frame",         17, 0x1d, 83),
    ("a total past the frame (high)",  16, 0x01, 83),
];

/// Encapsulates a frame of these bytes, and compares the number of the refusal, or 0. A frame that is refused stays as it is.
fn is_answered(
    rt: &impl Abort,
    alloc: Global,
    name: &str,
    bytes: &[u8],
    want: u8,
) -> Result<Frame, FrameFault>
    ensures { IsOk result → 14 ≤ length bytes.now }
{
    let mut frame = Frame::of(alloc, bytes)?;
    same(rt, name, &outcome(&mut frame), &want);
    if want != 0 {
        same_bytes(rt, name, frame.bytes(), bytes);
        same_fact(rt, name, "room", &frame.room(), &256);
    }
    Ok(frame)
}

/// The same of the datagram with each byte changed.
fn are_answered(
    rt: &impl Abort,
    alloc: Global,
    rows: &[(&str, usize, u8, u8)],
) -> Result<(), Fail> {
    for (name, at, byte, want) in rows {
        is_answered(rt, alloc, name, &with_byte(rt, *at, *byte), *want)?;
    }
    Ok(())
}

#[test]
fn one_byte_changed(rt: HostRuntime) -> Result<(), Fail> {
    are_answered(&rt, rt.alloc(), &CHANGES)
}

#[test]
fn type_of_service_is_copied(rt: HostRuntime) -> Result<(), Fail> {
    let bytes = with_byte(&rt, 15, 0xb8);
    let frame = is_answered(&rt, rt.alloc(), "a type of service", &bytes, 0)?;
    let head = [
        0x45, 0xb8, 0x00, 0x30, 0x00, 0x00, 0x40, 0x00, 0x40, 0x04, 0x6e, 0x08,
    ];
    same_bytes(&rt, "the outer header", part(&frame, 14, 26), &head);
    Ok(())
}

/// How long a frame of zeros is, the fields that are set in it (type and version, total length, time to live), and the number
/// of the refusal, or 0.
type Row = (&'static str, usize, u8, u16, u8, u8);

#[rattlefmt::skip]
const SIZES: [Row; 7] = [
    ("34 bytes, a bare header",            34, 0x45,   20, 64, 0),
    ("33 bytes",                           33, 0x45,   20, 64, 83),
    ("padding after the packet",           60, 0x45,   28, 64, 0),
    ("1480 in a long frame",             2048, 0x45, 1480, 64, 0),
    ("no plain IPv4 before time to live",  60, 0x46,   28,  0, 83),
    ("time to live before length",       1495, 0x45, 1481,  0, 80),
    ("cut before length",                1494, 0x45, 1481, 64, 83),
];

/// A frame of zeros except these fields.
fn frame_bytes(
    alloc: Global,
    size: usize,
    version: u8,
    total: u16,
    time_to_live: u8,
) -> Result<Vec<u8>, AllocError> {
    let mut bytes = Vec::new(alloc);
    for index in 0..size {
        let byte = match index {
            12 => 0x08,
            14 => version,
            16 => (total / 256) as u8,
            17 => (total % 256) as u8,
            22 => time_to_live,
            _ => 0,
        };
        bytes.push(byte)?;
    }
    Ok(bytes)
}

/// Compares a frame of these fields behind its outer header, or its refusal.
fn is_behind_its_header(rt: &impl Abort, alloc: Global, row: Row) -> Result<(), Fail> {
    let (name, size, version, total, time_to_live, want) = row;
    let bytes = frame_bytes(alloc, size, version, total, time_to_live)?;
    let frame = is_answered(rt, alloc, name, &bytes, want)?;
    if want == 0 {
        same_fact(rt, name, "length", &frame.len(), &size.wrapping_add(20));
        let outer = total.wrapping_add(20).to_be_bytes();
        same_bytes(rt, name, part(&frame, 16, 18), &outer);
        holds(rt, name, frame.bytes().ends_with(&bytes[14..]));
    }
    Ok(())
}

/// The same of each row.
fn are_behind_their_headers(rt: &impl Abort, alloc: Global, rows: &[Row]) -> Result<(), Fail> {
    for row in rows {
        is_behind_its_header(rt, alloc, *row)?;
    }
    Ok(())
}

#[test]
fn sizes_and_order(rt: HostRuntime) -> Result<(), Fail> {
    are_behind_their_headers(&rt, rt.alloc(), &SIZES)
}

#[test]
fn length_before_headroom(rt: HostRuntime) -> Result<(), Fail> {
    let bytes = frame_bytes(rt.alloc(), 1495, 0x45, 1481, 64)?;
    let mut frame = Frame::of(rt.alloc(), &bytes)?;
    frame.grow_front(256);
    holds(&rt, "room for the bytes", bytes.len() <= frame.len());
    frame.write(0, &bytes);
    same(&rt, "too long", &outcome(&mut frame), &81);
    same(&rt, "no room", &frame.room(), &0);
    Ok(())
}

#[rattlefmt::skip]
const FAULTS: [(IpipFault, u8, &str); 4] = [
    (IpipFault::TtlZero,      80, "fault 80 TtlZero"),
    (IpipFault::TooLong,      81, "fault 81 TooLong"),
    (IpipFault::NoRoom,       82, "fault 82 NoRoom"),
    (IpipFault::NotPlainIpv4, 83, "fault 83 NotPlainIpv4"),
];

/// Compares the number and the text of each fault.
fn compare_texts(
    rt: &impl Abort,
    alloc: Global,
    rows: &[(IpipFault, u8, &str)],
) -> Result<(), Fail> {
    for (fault, number, text) in rows {
        same(rt, text, &fault.number(), number);
        prints(rt, alloc, fault, text)?;
    }
    Ok(())
}

#[test]
fn fault_texts(rt: HostRuntime) -> Result<(), Fail> {
    compare_texts(&rt, rt.alloc(), &FAULTS)
}
