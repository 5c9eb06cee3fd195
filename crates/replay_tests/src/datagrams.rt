//! The datagram with which most rows begin.

use crate::asserting::holds_at;
use std::process::Abort;
use wire::Frame;

/// A UDP datagram of no payload from 198.51.100.7:40000 to 203.0.113.1:80.
pub(crate) const UDP_FRAME: [u8; 42] = [
    0x02, 0x00, 0x00, 0x00, 0x00, 0x01, 0x02, 0x00, 0x00, 0x00, 0x00, 0x02, 0x08, 0x00, 0x45, 0x00,
    0x00, 0x1c, 0x00, 0x01, 0x00, 0x00, 0x40, 0x11, 0x14, 0x94, 0xc6, 0x33, 0x64, 0x07, 0xcb, 0x00,
    0x71, 0x01, 0x9c, 0x40, 0x00, 0x50, 0x00, 0x08, 0x00, 0x00,
];

/// The datagram with one byte changed. Ends the test where it has no such byte.
pub(crate) fn with_byte(rt: &impl Abort, at: usize, byte: u8) -> [u8; 42] {
    let mut bytes = UDP_FRAME;
    holds_at(rt, "the datagram has byte", at as u64, at < bytes.len());
    bytes[at] = byte;
    bytes
}

/// A part of the frame; nothing, where it is not in the frame.
pub(crate) fn part(frame: &Frame, from: usize, to: usize) -> &[u8] {
    let bytes = frame.bytes();
    if from <= to && to <= bytes.len() {
        &bytes[from..to]
    } else {
        &[]
    }
}
