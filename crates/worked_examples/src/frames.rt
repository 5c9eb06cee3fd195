//! Frames: their headroom, their flow, and tunnels.

use crate::asserting::{holds, same, same_bytes};
use helpers::adjust_head;
use ipip::{IpipFault, Tunnel, encapsulate};
use std::alloc::Global;
use std::process::Abort;
use wire::{Frame, Ipv4Address, MacAddress, flow_of};

/// A UDP datagram of no payload from 198.51.100.7:40000 to 203.0.113.1:80, with its Ethernet header.
pub(crate) const DATAGRAM: [u8; 42] = [
    0x02, 0x00, 0x00, 0x00, 0x00, 0x01, 0x02, 0x00, 0x00, 0x00, 0x00, 0x02, 0x08, 0x00, 0x45, 0x00,
    0x00, 0x1c, 0x00, 0x01, 0x00, 0x00, 0x40, 0x11, 0x14, 0x94, 0xc6, 0x33, 0x64, 0x07, 0xcb, 0x00,
    0x71, 0x01, 0x9c, 0x40, 0x00, 0x50, 0x00, 0x08, 0x00, 0x00,
];

/// A part of the frame; nothing, where it is not in the frame.
pub(crate) fn part(bytes: &[u8], from: usize, to: usize) -> &[u8] {
    if from <= to && to <= bytes.len() {
        &bytes[from..to]
    } else {
        &[]
    }
}

/// The start of a frame of 42 bytes 0xab moves so: the answer, and how long the frame then is. Opened bytes are zero.
fn moves(rt: &impl Abort, alloc: Global, name: &str, distance: i32, answer: i32, length: usize) {
    let mut frame = Frame::of(alloc, &[0xab; 42]).expect(rt, "a frame");
    same(rt, name, &adjust_head(&mut frame, distance), &answer);
    same(rt, name, &frame.len(), &length);
    let opened = length.saturating_sub(42);
    let zeros = part(frame.bytes(), 0, opened);
    holds(
        rt,
        name,
        zeros.len() == opened && zeros.iter().all(|byte| *byte == 0),
    );
    let rest = part(frame.bytes(), opened, length);
    holds(rt, name, rest.iter().all(|byte| *byte == 0xab));
}

#[test]
fn a_head_moves_within_its_room(rt: HostRuntime) {
    let alloc = rt.alloc();
    moves(&rt, alloc, "20 back", -20, 0, 62);
    moves(&rt, alloc, "256 back", -256, 0, 298);
    moves(&rt, alloc, "257 back", -257, -22, 42);
    moves(&rt, alloc, "28 forward", 28, 0, 14);
    moves(&rt, alloc, "29 forward", 29, -22, 42);
}

/// The tunnel from 10.0.0.9 to 192.0.2.1.
const TUNNEL: Tunnel = Tunnel {
    source: Ipv4Address([10, 0, 0, 9]),
    target: Ipv4Address([192, 0, 2, 1]),
    source_mac: MacAddress([0x02, 0, 0, 0, 0, 0x0a]),
    destination_mac: MacAddress([0x02, 0, 0, 0, 0, 0x0b]),
};

/// The outer header of a packet of 28 bytes, type of service 0, in this tunnel.
const OUTER: [u8; 20] = [
    0x45, 0x00, 0x00, 0x30, 0x00, 0x00, 0x40, 0x00, 0x40, 0x04, 0x6e, 0xc0, 0x0a, 0x00, 0x00, 0x09,
    0xc0, 0x00, 0x02, 0x01,
];

/// The datagram with another byte at its place.
fn with_byte(rt: &impl Abort, at: usize, byte: u8) -> [u8; 42] {
    let mut bytes = DATAGRAM;
    holds(rt, "the datagram has this byte", at < bytes.len());
    bytes[at] = byte;
    bytes
}

/// A packet of this total length, in a frame that ends with it.
fn packet(rt: &impl Abort, alloc: Global, total: u16) -> Vec<u8> {
    let mut bytes = DATAGRAM.to_vec(alloc).expect(rt, "a frame");
    let rest = usize::from(total).saturating_sub(28);
    for _ in 0..rest {
        bytes.push(0).expect(rt, "room");
    }
    let [high, low] = total.to_be_bytes();
    holds(rt, "the frame has a total length", 17 < bytes.len());
    bytes[16] = high;
    bytes[17] = low;
    bytes
}

/// A frame of these bytes is put into the tunnel: the outer header's total length.
fn is_taken(rt: &impl Abort, alloc: Global, bytes: &[u8], outer_total: u16) {
    let mut frame = Frame::of(alloc, bytes).expect(rt, "a frame");
    same(rt, "taken", &encapsulate(&mut frame, TUNNEL), &Ok(()));
    same_bytes(
        rt,
        "outer total",
        part(frame.bytes(), 16, 18),
        &outer_total.to_be_bytes(),
    );
}

/// A frame of these bytes is not, for this reason, and stays as it is.
fn is_not_taken(rt: &impl Abort, alloc: Global, bytes: &[u8], fault: IpipFault) {
    let mut frame = Frame::of(alloc, bytes).expect(rt, "a frame");
    same(rt, "refused", &encapsulate(&mut frame, TUNNEL), &Err(fault));
    same_bytes(rt, "unchanged", frame.bytes(), bytes);
}

#[test]
fn a_packet_gets_an_outer_header(rt: HostRuntime) {
    let alloc = rt.alloc();
    let mut frame = Frame::of(alloc, &DATAGRAM).expect(&rt, "a frame");
    same(&rt, "taken", &encapsulate(&mut frame, TUNNEL), &Ok(()));
    same_bytes(&rt, "the outer header", part(frame.bytes(), 14, 34), &OUTER);
    is_not_taken(&rt, alloc, &with_byte(&rt, 22, 0), IpipFault::TtlZero);
    is_taken(&rt, alloc, &packet(&rt, alloc, 1480), 1500);
    let long = packet(&rt, alloc, 1481);
    is_not_taken(&rt, alloc, &long, IpipFault::TooLong);
}

/// Puts a frame into tunnels, one in the other, and says how many were taken.
fn taken(frame: &mut Frame, count: u32) -> u32 {
    let mut taken = 0u32;
    for _ in 0..count {
        if encapsulate(frame, TUNNEL).is_ok() {
            taken = taken.saturating_add(1);
        }
    }
    taken
}

#[test]
fn twelve_tunnels_fit_into_the_headroom(rt: HostRuntime) {
    let mut frame = Frame::of(rt.alloc(), &DATAGRAM).expect(&rt, "a frame");
    same(&rt, "twelve", &taken(&mut frame, 12), &12);
    same(&rt, "bytes", &frame.len(), &282);
    let total = part(frame.bytes(), 16, 18);
    same_bytes(&rt, "a total of 268", total, &[0x01, 0x0c]);
    let before = frame.bytes().to_vec(rt.alloc()).expect(&rt, "a copy");
    let thirteenth = encapsulate(&mut frame, TUNNEL);
    same(&rt, "no room", &thirteenth, &Err(IpipFault::NoRoom));
    same_bytes(&rt, "unchanged", frame.bytes(), &before);
}

/// The datagram's flow: both addresses, both ports, the protocol, zeros.
const FLOW: [u8; 16] = [
    0xc6, 0x33, 0x64, 0x07, 0xcb, 0x00, 0x71, 0x01, 0x9c, 0x40, 0x00, 0x50, 0x11, 0x00, 0x00, 0x00,
];

#[test]
fn a_datagram_has_a_flow(rt: HostRuntime) {
    match flow_of(&DATAGRAM) {
        Some(flow) => same_bytes(&rt, "the flow", &flow.bytes(), &FLOW),
        None => panic!(&rt; "the datagram has a flow"),
    }
    let options = flow_of(&with_byte(&rt, 14, 0x46));
    same(&rt, "options", &options, &None);
    let fragment = flow_of(&with_byte(&rt, 20, 0x20));
    same(&rt, "a fragment", &fragment, &None);
    let cut = flow_of(&DATAGRAM[..41]);
    same(&rt, "without its last byte", &cut, &None);
}
