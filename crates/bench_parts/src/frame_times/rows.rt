//! What is measured: frames, and what the maps hold when they come.

use conntrack::{
    BackendRecord, FlowRecord, RingRecord, Service, SteeringMap, TunnelRecord, VipRecord, index_key,
};
use wire::{FlowKey, Ipv4Address, MacAddress};

/// How many frames a row has, each of a flow of its own.
pub(crate) const FRAMES: u32 = 1000;

/// How many slots the lookup table has.
pub(crate) const SIZE: u32 = 4093;

/// Frames of one kind, each of a flow of its own, and what the maps hold before they come.
#[derive(Clone, Copy, Debug)]
pub(crate) struct FrameRow {
    pub(crate) name: &'static str,
    /// A byte of each frame that is another one.
    pub(crate) change: (usize, u8),
    /// Whether the service has no tracking; none for no service.
    pub(crate) vip: Option<bool>,
    /// The backend that was noted for each flow.
    pub(crate) noted: Option<u32>,
    /// Which of the two backends is up. The first owns every slot.
    pub(crate) is_up: [bool; 2],
}

#[rattlefmt::skip]
pub(crate) const ROWS: [FrameRow; 8] = [
    FrameRow { name: "passed-no-flow",     change: (12, 0x86), vip: Some(false), noted: None,    is_up: [true, true] },
    FrameRow { name: "passed-no-service",  change: (0, 2),     vip: None,        noted: None,    is_up: [true, true] },
    FrameRow { name: "dropped-no-life",    change: (22, 0),    vip: Some(false), noted: None,    is_up: [true, true] },
    FrameRow { name: "dropped-no-backend", change: (0, 2),     vip: Some(false), noted: None,    is_up: [false, false] },
    FrameRow { name: "sent-tracked",       change: (0, 2),     vip: Some(false), noted: Some(1), is_up: [true, true] },
    FrameRow { name: "sent-untracked",     change: (0, 2),     vip: Some(true),  noted: None,    is_up: [true, true] },
    FrameRow { name: "sent-new-flow",      change: (0, 2),     vip: Some(false), noted: None,    is_up: [true, true] },
    FrameRow { name: "sent-dead-backend",  change: (0, 2),     vip: Some(false), noted: Some(1), is_up: [true, false] },
];

// A TCP segment from 198.51.100.7 to 203.0.113.1, port 80.
#[rattlefmt::skip]
const SEGMENT: [u8; 54] = [
    0x02, 0, 0, 0, 0, 0x01, 0x02, 0, 0, 0, 0, 0x02, 0x08, 0x00,
    0x45, 0, 0, 0x28, 0, 0x01, 0, 0, 0x40, 0x06, 0x14, 0x93, 198, 51, 100, 7, 203, 0, 113, 1,
    0x04, 0, 0, 0x50, 0, 0, 0, 1, 0, 0, 0, 0, 0x50, 0x10, 0x20, 0, 0, 0, 0, 0,
];

/// What a map is to hold under a key. Of both arrays the first bytes count, as many as the map's keys and values have.
#[derive(Clone, Copy, Debug)]
pub(crate) struct Put {
    pub(crate) map: SteeringMap,
    pub(crate) key: [u8; 16],
    pub(crate) value: [u8; 24],
}

fn wide_key(bytes: &[u8]) -> [u8; 16] {
    let mut key = [0; 16];
    for (to, from) in key.iter_mut().zip(bytes) {
        *to = *from;
    }
    key
}

fn wide_value(bytes: &[u8]) -> [u8; 24] {
    let mut value = [0; 24];
    for (to, from) in value.iter_mut().zip(bytes) {
        *to = *from;
    }
    value
}

fn put_of(map: SteeringMap, key: &[u8], value: &[u8]) -> Put {
    Put {
        map,
        key: wide_key(key),
        value: wide_value(value),
    }
}

/// The bytes of the frame of a number.
pub(crate) fn frame_bytes(row: &FrameRow, number: u32) -> [u8; 54] {
    let mut bytes = SEGMENT;
    let (place, byte) = row.change;
    bytes[place % 54] = byte;
    let [low, high, ..] = number.wrapping_add(1024).to_le_bytes();
    bytes[34] = high;
    bytes[35] = low;
    bytes
}

impl FrameRow {
    /// The record of a slot, which the first backend owns.
    pub(crate) fn slot_put(slot: u32) -> Put {
        let record = RingRecord { owner: Some(0) };
        put_of(SteeringMap::Ring, &index_key(slot), &record.bytes())
    }

    /// The note of a frame's flow.
    pub(crate) fn noted_put(&self, flow: &FlowKey) -> Option<Put> {
        let record = FlowRecord {
            backend: self.noted?,
        };
        Some(put_of(SteeringMap::Flows, &flow.bytes(), &record.bytes()))
    }

    pub(crate) fn vip_put(&self, flow: &FlowKey) -> Option<Put> {
        let record = VipRecord {
            is_notrack: self.vip?,
        };
        let key = Service::of_flow(flow).key();
        Some(put_of(SteeringMap::Vips, &key, &record.bytes()))
    }

    /// The record of the first or the second backend.
    pub(crate) fn backend_put(&self, number: u32) -> Put {
        let [first, second] = self.is_up;
        let record = BackendRecord {
            address: Ipv4Address([192, 0, 2, 1]),
            is_up: if number == 0 { first } else { second },
        };
        put_of(SteeringMap::Backends, &index_key(number), &record.bytes())
    }
}

/// The tunnel's record.
pub(crate) fn tunnel_put() -> Put {
    let record = TunnelRecord {
        source: Ipv4Address([10, 0, 0, 9]),
        source_mac: MacAddress([2, 0, 0, 0, 0, 10]),
        destination_mac: MacAddress([2, 0, 0, 0, 0, 11]),
        is_ready: true,
    };
    put_of(SteeringMap::Ctl, &index_key(0), &record.bytes())
}
