//! Rows from the standards and from frames worked out by hand.

use crate::asserting::{holds, prints, same, same_at, same_bytes};
use crate::datagrams::{UDP_FRAME, part, with_byte};
use std::alloc::Global;
use std::process::Abort;
use std::test::Fail;
use wire::{Frame, FrameFault, MemorySink, Sink, Transport, flow_of, ones_sum};

#[rattlefmt::skip]
const SUMS: [(&str, &[u8], u16); 5] = [
    ("no bytes",                    b"",                                               0),
    ("RFC 1071, section 3",         &[0x00, 0x01, 0xf2, 0x03, 0xf4, 0xf5, 0xf6, 0xf7], 0xddf2),
    ("an odd byte is a high byte",  &[0x12],                                           0x1200),
    ("the carry comes back in",     &[0xff, 0xff, 0x00, 0x01],                         1),
    ("an outer header",
        &[0x45, 0x00, 0x00, 0x30, 0x00, 0x00, 0x40, 0x00, 0x40, 0x04, 0x6e, 0xc0, 0x0a, 0x00, 0x00, 0x09, 0xc0, 0x00, 0x02, 0x01], 0xffff),
];

#[test]
fn ones_sums(rt: HostRuntime) {
    for (name, bytes, want) in &SUMS {
        same(&rt, *name, &ones_sum(*bytes), want);
    }
    let sum = ones_sum(&UDP_FRAME[14..34]);
    same(&rt, "a header with its checksum", &sum, &0xffff);
    let mut header = UDP_FRAME;
    header[24] = 0;
    header[25] = 0;
    let checksum = !ones_sum(&header[14..34]);
    same(&rt, "a header's checksum", &checksum, &0x1494);
}

#[test]
fn udp_flow(rt: HostRuntime) -> Result<(), Fail> {
    let key = flow_of(&UDP_FRAME).ok_or("no flow")?;
    same(&rt, "source", &key.source.0, &[198, 51, 100, 7]);
    same(&rt, "destination", &key.destination.0, &[203, 0, 113, 1]);
    same(&rt, "source port", &key.source_port, &40000);
    same(&rt, "destination port", &key.destination_port, &80);
    same(&rt, "transport", &key.transport, &Transport::Udp);
    same(&rt, "number", &key.transport.number(), &17);
    Ok(())
}

/// One byte of the UDP frame changed, and whether the frame still has a flow.
#[rattlefmt::skip]
const CHANGES: [(&str, usize, u8, bool); 14] = [
    ("another destination",           33, 0x02, true),
    ("TCP",                           23, 0x06, true),
    ("ICMP",                          23, 0x01, false),
    ("not IPv4 (high byte)",          12, 0x86, false),
    ("not IPv4 (low byte)",           13, 0x06, false),
    ("version 6",                     14, 0x65, false),
    ("a later fragment (high byte)",  20, 0x01, false),
    ("a later fragment (low byte)",   21, 0x01, false),
    ("must not be fragmented",        20, 0x40, true),
    ("the reserved flag",             20, 0x80, true),
    ("total length 27",               17, 0x1b, false),
    ("total length past the end",     17, 0x1d, false),
    ("total length past the end, by the high byte", 16, 0x01, false),
    ("a TTL of 0",                    22, 0x00, true),
];

/// Whether a datagram padded to the least Ethernet frame, with this low byte of its total length, has a flow.
fn has_flow_padded(total: u8) -> bool {
    let mut padded = [0; 60];
    padded[..42].copy_from_slice(&UDP_FRAME);
    padded[17] = total;
    flow_of(&padded).is_some()
}

#[test]
fn flow_forms(rt: HostRuntime) {
    for (name, at, byte, has_flow) in &CHANGES {
        let frame = with_byte(&rt, *at, *byte);
        same(&rt, *name, &flow_of(&frame).is_some(), has_flow);
    }
    holds(&rt, "no bytes", flow_of(&[]).is_none());
    holds(
        &rt,
        "padded to the least Ethernet frame",
        has_flow_padded(0x1c),
    );
    holds(&rt, "a datagram to the frame's end", has_flow_padded(0x2e));
    holds(
        &rt,
        "a datagram past the frame's end",
        !has_flow_padded(0x2f),
    );
}

const FRAME_SIZES: [(usize, Option<FrameFault>); 5] = [
    (0, Some(FrameFault::ShortFrame)),
    (13, Some(FrameFault::ShortFrame)),
    (14, None),
    (2048, None),
    (2049, Some(FrameFault::FrameTooLong)),
];

/// Makes a frame of this many bytes, and compares it, or why there is none.
fn is_made(
    rt: &impl Abort,
    alloc: Global,
    size: usize,
    want: Option<FrameFault>,
) -> Result<(), Fail> {
    let bytes = vec![in alloc; 7; size]?;
    match Frame::of(alloc, &bytes) {
        Ok(frame) => {
            same_at(rt, "size", size as u64, &None, &want);
            same(rt, "length", &frame.len(), &size);
            same_bytes(rt, "bytes", frame.bytes(), &bytes);
            same(rt, "room", &frame.room(), &256);
        }
        Err(fault) => same_at(rt, "size", size as u64, &Some(fault), &want),
    }
    Ok(())
}

#[test]
fn frame_sizes(rt: HostRuntime) -> Result<(), Fail> {
    for (size, fault) in &FRAME_SIZES {
        is_made(&rt, rt.alloc(), *size, *fault)?;
    }
    Ok(())
}

/// Fills a frame of 34 bytes with this many, and compares it, or why it stays as it was.
fn is_refilled(
    rt: &impl Abort,
    alloc: Global,
    size: usize,
    want: Option<FrameFault>,
) -> Result<(), Fail> {
    let bytes = vec![in alloc; 7; size]?;
    let mut frame = Frame::of(alloc, &UDP_FRAME)?;
    frame.shrink_front(8);
    match frame.refill(&bytes) {
        Ok(()) => {
            same_at(rt, "refilled size", size as u64, &None, &want);
            same(rt, "refilled length", &frame.len(), &size);
            same_bytes(rt, "refilled bytes", frame.bytes(), &bytes);
            same(rt, "refilled room", &frame.room(), &256);
        }
        Err(fault) => {
            same_at(rt, "refilled size", size as u64, &Some(fault), &want);
            same(rt, "kept room", &frame.room(), &264);
            same_bytes(rt, "kept bytes", frame.bytes(), &UDP_FRAME[8..]);
        }
    }
    Ok(())
}

#[test]
fn refilled_sizes(rt: HostRuntime) -> Result<(), Fail> {
    for (size, fault) in &FRAME_SIZES {
        is_refilled(&rt, rt.alloc(), *size, *fault)?;
    }
    Ok(())
}

#[test]
fn moving_heads(rt: HostRuntime) -> Result<(), Fail> {
    let mut frame = Frame::of(rt.alloc(), &UDP_FRAME)?;
    frame.grow_front(20);
    same(&rt, "room after 20 bytes", &frame.room(), &236);
    same(&rt, "length with 20 bytes", &frame.len(), &62);
    same_bytes(&rt, "20 bytes are zero", part(&frame, 0, 20), &[0; 20]);
    same_bytes(&rt, "the datagram", part(&frame, 20, 62), &UDP_FRAME);
    frame.set(19, 9);
    frame.write(0, &[1, 2, 3]);
    same_bytes(&rt, "what is written", part(&frame, 0, 4), &[1, 2, 3, 0]);
    same_bytes(&rt, "what is set", part(&frame, 19, 20), &[9]);
    frame.shrink_front(48);
    same(&rt, "room before 14 bytes", &frame.room(), &284);
    same_bytes(&rt, "14 bytes", frame.bytes(), &UDP_FRAME[28..]);
    frame.grow_front(284);
    same(&rt, "no room", &frame.room(), &0);
    same_bytes(
        &rt,
        "opened bytes are zero",
        part(&frame, 0, 284),
        &[0; 284],
    );
    let rest = part(&frame, 284, frame.len());
    same_bytes(&rt, "14 bytes behind them", rest, &UDP_FRAME[28..]);
    Ok(())
}

#[rattlefmt::skip]
const FAULTS: [(FrameFault, u8, &str); 3] = [
    (FrameFault::FrameTooLong, 6, "fault 6 FrameTooLong"),
    (FrameFault::Memory,       8, "fault 8 Memory"),
    (FrameFault::ShortFrame,   9, "fault 9 ShortFrame"),
];

/// Compares the number and the text of each fault.
fn compare_texts(
    rt: &impl Abort,
    alloc: Global,
    rows: &[(FrameFault, u8, &str)],
) -> Result<(), Fail> {
    for (fault, number, text) in rows {
        same(rt, text, &fault.number(), number);
        prints(rt, alloc, fault, text)?;
    }
    Ok(())
}

#[test]
fn fault_texts(rt: HostRuntime) -> Result<(), Fail> {
    compare_texts(&rt, rt.alloc(), &FAULTS)
}

#[test]
fn memory_sink(rt: HostRuntime) {
    let mut sink = MemorySink::new(rt.alloc());
    same(&rt, "two bytes", &sink.write(b"ab"), &Ok(2));
    same(&rt, "no byte", &sink.write(b""), &Ok(0));
    same(&rt, "one byte", &sink.write(b"c"), &Ok(1));
    same_bytes(&rt, "three bytes", sink.bytes(), b"abc");
    same(&rt, "failures", &sink.failures(), &0);
}
