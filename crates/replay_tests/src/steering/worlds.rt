//! Generated records: what the maps hold when a frame comes.

use super::numbers::Numbers;
use conntrack::{
    Assigned, BackendRecord, FlowRecord, Records, RingRecord, SteeringMap, TunnelRecord, VipRecord,
    index_key,
};
use wire::fnv1a64;

/// What the maps hold, as bytes.
#[derive(Clone, Copy, Debug)]
pub(super) struct World {
    /// Of the frame's service.
    pub(super) vip: Option<[u8; 8]>,
    /// Of the frame's flow.
    pub(super) noted: Option<[u8; 8]>,
    pub(super) slots: [[u8; 8]; 7],
    /// The first four backends. The records of all others are zeros.
    pub(super) backends: [[u8; 8]; 4],
    pub(super) tunnel: [u8; 24],
}

/// What a map is to hold under a key. Of both arrays the first bytes count, as many as the map's keys and values have.
#[derive(Clone, Copy, Debug)]
pub(super) struct Put {
    map: SteeringMap,
    key: [u8; 16],
    value: [u8; 24],
}

impl Put {
    pub(super) fn map(&self) -> u32 {
        self.map.place()
    }

    pub(super) fn key(&self) -> &[u8] {
        match self.map {
            SteeringMap::Vips => &self.key[..8],
            SteeringMap::Flows => &self.key,
            _ => &self.key[..4],
        }
    }

    pub(super) fn value(&self) -> &[u8] {
        match self.map {
            SteeringMap::Ctl => &self.value,
            _ => &self.value[..8],
        }
    }
}

/// The keys under which a frame asks for its service and its flow, whether it has a flow or misses one by a little.
#[derive(Clone, Copy, Debug)]
pub(super) struct Keys {
    service: [u8; 8],
    flow: [u8; 16],
}

impl Keys {
    /// Those of a frame that has its ports, or zeros.
    pub(super) fn of(frame: &[u8]) -> Keys {
        let mut keys = Keys {
            service: [0; 8],
            flow: [0; 16],
        };
        if frame.len() >= 38 {
            keys.service[..4].copy_from_slice(&frame[30..34]);
            keys.service[4..6].copy_from_slice(&frame[36..38]);
            keys.service[6] = frame[23];
            keys.flow[..12].copy_from_slice(&frame[26..38]);
            keys.flow[12] = frame[23];
        }
        keys
    }
}

/// A record of eight bytes under a key of four, which is an index of an array.
fn put_at(map: SteeringMap, index: u32, record: &[u8; 8]) -> Put {
    let mut key = [0; 16];
    key[..4].copy_from_slice(&index_key(index));
    Put {
        map,
        key,
        value: wide(record),
    }
}

/// Zeros under a key of zeros.
fn zeros_put(map: SteeringMap) -> Put {
    Put {
        map,
        key: [0; 16],
        value: [0; 24],
    }
}

/// Eight bytes, then zeros.
fn wide(record: &[u8; 8]) -> [u8; 24] {
    let mut value = [0; 24];
    value[..8].copy_from_slice(record);
    value
}

/// Eight bytes of two numbers.
fn record_of(low: [u8; 4], high: [u8; 4]) -> [u8; 8] {
    let [a, b, c, d] = low;
    let [e, f, g, h] = high;
    [a, b, c, d, e, f, g, h]
}

/// The number of a backend, mostly one of the first four; the last three kinds have no record.
fn number(numbers: &mut Numbers) -> u32 {
    match numbers.below(12) {
        0 => 255,
        1 => 256,
        2 => 0xffff_fffe,
        3 => 256 + numbers.below(4),
        _ => numbers.below(4),
    }
}

/// Bytes that nobody reads: zeros, mostly.
fn unread(numbers: &mut Numbers) -> [u8; 4] {
    if numbers.once_in(4) {
        numbers.four()
    } else {
        [0; 4]
    }
}

/// A state: 1, or another number, near by.
fn state(numbers: &mut Numbers) -> u32 {
    match numbers.below(9) {
        0 => 0,
        1 => 2,
        2 => 0x0100_0001,
        3 => 0x8000_0001,
        _ => 1,
    }
}

/// A service's flags: only the lowest bit counts.
fn flags(numbers: &mut Numbers) -> u32 {
    match numbers.below(6) {
        0 => 1,
        1 => 0x8000_0003,
        2 => 2,
        3 => 0xffff_fffe,
        _ => 0,
    }
}

fn vip(numbers: &mut Numbers) -> Option<[u8; 8]> {
    if numbers.once_in(8) {
        return None;
    }
    let flags = flags(numbers).to_le_bytes();
    Some(record_of(flags, unread(numbers)))
}

fn noted(numbers: &mut Numbers) -> Option<[u8; 8]> {
    if numbers.once_in(3) {
        return None;
    }
    let number = number(numbers).to_le_bytes();
    Some(record_of(number, unread(numbers)))
}

fn slot(numbers: &mut Numbers) -> [u8; 8] {
    let owner = if numbers.once_in(5) {
        0
    } else {
        number(numbers).saturating_add(1)
    };
    record_of(owner.to_le_bytes(), unread(numbers))
}

fn backend(numbers: &mut Numbers) -> [u8; 8] {
    let address = numbers.four();
    record_of(address, state(numbers).to_le_bytes())
}

fn tunnel(numbers: &mut Numbers) -> [u8; 24] {
    let mut bytes = [0; 24];
    'places: for place in 0..24 {
        bytes[place] = numbers.byte();
    }
    let ready = if numbers.once_in(3) {
        state(numbers)
    } else {
        1
    };
    bytes[16..20].copy_from_slice(&ready.to_le_bytes());
    bytes
}

impl World {
    pub(super) fn of(numbers: &mut Numbers) -> World {
        let mut slots = [[0; 8]; 7];
        'slots: for place in 0..7 {
            slots[place] = slot(numbers);
        }
        World {
            vip: vip(numbers),
            noted: noted(numbers),
            slots,
            backends: [
                backend(numbers),
                backend(numbers),
                backend(numbers),
                backend(numbers),
            ],
            tunnel: tunnel(numbers),
        }
    }

    /// What is put there before a frame with these keys comes, place by place: 17 places, and the last two may have nothing.
    /// Something is put into each map: a service and a flow that no frame asks for, and a count of no verdict.
    pub(super) fn put(&self, keys: &Keys, place: u32) -> Option<Put> {
        match place {
            0 => Some(self.tunnel_put()),
            1..=7 => Some(self.slot_put(place - 1)),
            8..=11 => Some(self.backend_put(place - 8)),
            12 => Some(zeros_put(SteeringMap::Vips)),
            13 => Some(zeros_put(SteeringMap::Flows)),
            14 => Some(put_at(SteeringMap::Stats, 7, &[0; 8])),
            15 => self.vip_put(keys),
            _ => self.noted_put(keys),
        }
    }

    fn tunnel_put(&self) -> Put {
        Put {
            map: SteeringMap::Ctl,
            key: [0; 16],
            value: self.tunnel,
        }
    }

    fn slot_put(&self, slot: u32) -> Put {
        put_at(SteeringMap::Ring, slot, &self.slots[slot as usize % 7])
    }

    fn backend_put(&self, number: u32) -> Put {
        let record = &self.backends[number as usize % 4];
        put_at(SteeringMap::Backends, number, record)
    }

    fn vip_put(&self, keys: &Keys) -> Option<Put> {
        let mut key = [0; 16];
        key[..8].copy_from_slice(&keys.service);
        Some(Put {
            map: SteeringMap::Vips,
            key,
            value: wide(&self.vip?),
        })
    }

    fn noted_put(&self, keys: &Keys) -> Option<Put> {
        Some(Put {
            map: SteeringMap::Flows,
            key: keys.flow,
            value: wide(&self.noted?),
        })
    }

    /// The record of a backend: none past the end of the map.
    fn backend(&self, number: u32) -> Option<BackendRecord> {
        match number {
            0..=3 => Some(BackendRecord::of(&self.backends[number as usize])),
            4..=255 => Some(BackendRecord::of(&[0; 8])),
            _ => None,
        }
    }

    fn assigned(&self, number: u32) -> Assigned {
        Assigned {
            number,
            record: self.backend(number),
        }
    }

    /// Who owns the slot of a flow.
    fn owner(&self, keys: &Keys) -> Option<u32> {
        let slot = fnv1a64(&keys.flow) % 7;
        RingRecord::of(&self.slots[slot as usize]).owner
    }

    /// What a frame with these keys finds there.
    pub(super) fn records(&self, keys: &Keys) -> Records {
        let vip = self.vip.map(|record| VipRecord::of(&record));
        let tracked = self
            .noted
            .map(|record| self.assigned(FlowRecord::of(&record).backend));
        let slot = self.owner(keys).map(|number| self.assigned(number));
        Records {
            vip,
            tunnel: Some(TunnelRecord::of(&self.tunnel)),
            tracked,
            slot,
        }
    }
}
