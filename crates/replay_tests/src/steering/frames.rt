//! Generated frames: datagrams with a flow, and such that miss one guard by a little.

use super::numbers::Numbers;

/// How many bytes the longest frame has.
const LONGEST: usize = 2048;

/// A frame: the first this many of the bytes.
#[derive(Clone, Copy, Debug)]
pub(super) struct Drawn {
    bytes: [u8; 2048],
    length: usize,
}

/// First bytes of a header that are neither version 4 nor without options.
const VERSIONS: [u8; 6] = [0x44, 0x46, 0x4f, 0x55, 0x65, 0x05];

/// Protocols beside TCP and UDP.
const PROTOCOLS: [u8; 8] = [0, 1, 5, 7, 16, 18, 47, 255];

/// How many bytes a packet has.
fn total(numbers: &mut Numbers) -> u16 {
    let total = match numbers.below(10) {
        0 => 28,
        1 => 1480,
        2 => 1481,
        3 => 2032 + numbers.below(3),
        4 => 28 + numbers.below(1453),
        _ => 28 + numbers.below(40),
    };
    total as u16
}

/// This many bytes, the first of them random.
fn noise(numbers: &mut Numbers, length: usize) -> Drawn {
    let mut bytes = [0; 2048];
    'places: for place in 0..64 {
        bytes[place] = numbers.byte();
    }
    Drawn { bytes, length }
}

impl Drawn {
    /// A datagram with a flow, and a few bytes after it at times.
    fn whole(numbers: &mut Numbers) -> Drawn {
        let total = total(numbers);
        let after = if numbers.once_in(3) {
            numbers.below(7)
        } else {
            0
        };
        let length = 14 + usize::from(total) + after as usize;
        let mut drawn = noise(numbers, length.min(LONGEST));
        drawn.bytes[12] = 0x08;
        drawn.bytes[13] = 0x00;
        drawn.bytes[14] = 0x45;
        drawn.set_total(total);
        drawn.bytes[20] = 0x40 * numbers.below(4) as u8;
        drawn.bytes[21] = 0;
        drawn.bytes[22] = if numbers.once_in(4) { 1 } else { 64 };
        drawn.bytes[23] = if numbers.once_in(2) { 6 } else { 17 };
        drawn
    }

    /// A frame that has a flow, or that had one before a byte or a length was changed.
    pub(super) fn of(numbers: &mut Numbers) -> Drawn {
        let mut drawn = Drawn::whole(numbers);
        match numbers.below(6) {
            0 => drawn.change_header(numbers),
            1 => drawn.change_length(numbers),
            2 => drawn.bytes[22] = 0,
            _ => {}
        }
        drawn
    }

    pub(super) fn bytes(&self) -> &[u8] {
        &self.bytes[..self.length.min(LONGEST)]
    }

    /// What the header says of the packet's length.
    fn set_total(&mut self, total: u16) {
        let [low, high] = total.to_le_bytes();
        self.bytes[16] = high;
        self.bytes[17] = low;
    }

    /// A type, version, fragment word or protocol of a frame without a flow.
    fn change_header(&mut self, numbers: &mut Numbers) {
        match numbers.below(7) {
            0 => self.bytes[12] = 0x86,
            1 => self.bytes[13] = 1 + numbers.below(255) as u8,
            2 => self.bytes[14] = VERSIONS[numbers.below(6) as usize],
            3 => self.bytes[20] |= 0x20,
            4 => self.bytes[20] |= 1 << numbers.below(5),
            5 => self.bytes[21] = 1 << numbers.below(8),
            _ => self.bytes[23] = PROTOCOLS[numbers.below(8) as usize],
        }
    }

    /// Another length, of the frame or in its header. The last one leaves the flow.
    fn change_length(&mut self, numbers: &mut Numbers) {
        match numbers.below(7) {
            0 => self.length = 14 + numbers.below(28) as usize,
            1 => self.length = self.length.saturating_sub(1),
            2 => self.set_total(27),
            3 => self.set_total(numbers.below(28) as u16),
            4 => self.set_total(self.length.saturating_sub(13).min(2035) as u16),
            5 => self.set_total(0xffff - numbers.below(3) as u16),
            _ => self.set_total(28),
        }
    }
}
