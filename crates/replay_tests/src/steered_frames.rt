//! What no clause says: rows worked out elsewhere, and that maps are made with memory.

ghost use Rattle.std.specs.Prelude.{◌-◌, ◌<◌, ◌^◌};

use crate::asserting::{same, same_at, same_bytes, same_fact};
use crate::datagrams::{UDP_FRAME, with_byte};
use conntrack::{
    Assigned, BackendRecord, Choice, FlowRecord, Records, RingRecord, Service, SteerFault,
    TunnelRecord, VipRecord, choose, is_note_count, maps, maps_with, steer, table_size,
};
use std::alloc::Global;
use std::process::Abort;
use wire::{Frame, FrameFault, Ipv4Address, MacAddress, Transport, flow_of};

// The datagram behind 10.0.0.9, to 192.0.2.1.
#[rattlefmt::skip]
pub(crate) const SENT: [u8; 62] = [
    0x02, 0, 0, 0, 0, 0x0b, 0x02, 0, 0, 0, 0, 0x0a, 0x08, 0x00,
    0x45, 0, 0, 0x30, 0, 0, 0x40, 0, 0x40, 0x04, 0x6e, 0xc0, 10, 0, 0, 9, 192, 0, 2, 1,
    0x45, 0, 0, 0x1c, 0, 0x01, 0, 0, 0x40, 0x11, 0x14, 0x94, 198, 51, 100, 7, 203, 0, 113, 1,
    0x9c, 0x40, 0, 0x50, 0, 0x08, 0, 0,
];

const TUNNEL: TunnelRecord = TunnelRecord {
    source: Ipv4Address([10, 0, 0, 9]),
    source_mac: MacAddress([2, 0, 0, 0, 0, 10]),
    destination_mac: MacAddress([2, 0, 0, 0, 0, 11]),
    is_ready: true,
};

/// The address of backend 0.
const FIRST: Ipv4Address = Ipv4Address([192, 0, 2, 1]);

/// The address of backend 1.
const SECOND: Ipv4Address = Ipv4Address([192, 0, 2, 2]);

#[rattlefmt::skip]
const FIRST_UP: Option<Assigned> = Some(Assigned { number: 0, record: Some(BackendRecord { address: FIRST, is_up: true }) });

#[rattlefmt::skip]
const FIRST_DOWN: Option<Assigned> = Some(Assigned { number: 0, record: Some(BackendRecord { address: FIRST, is_up: false }) });

#[rattlefmt::skip]
const SECOND_UP: Option<Assigned> = Some(Assigned { number: 1, record: Some(BackendRecord { address: SECOND, is_up: true }) });

#[rattlefmt::skip]
const SECOND_DOWN: Option<Assigned> = Some(Assigned { number: 1, record: Some(BackendRecord { address: SECOND, is_up: false }) });

const NO_RECORD: Option<Assigned> = Some(Assigned {
    number: 5,
    record: None,
});

/// The frame is sent to backend 0, which its flow gets.
const TO_FIRST: Choice = Choice::Tx {
    number: 0,
    address: FIRST,
    updates_flows: true,
};

/// The frame is sent to backend 0, and its flow is not noted.
const TO_FIRST_ONCE: Choice = Choice::Tx {
    number: 0,
    address: FIRST,
    updates_flows: false,
};

/// The frame is sent to backend 1, which its flow has.
const TO_SECOND: Choice = Choice::Tx {
    number: 1,
    address: SECOND,
    updates_flows: false,
};

const TRACKED: Option<VipRecord> = Some(VipRecord { is_notrack: false });

const NOT_TRACKED: Option<VipRecord> = Some(VipRecord { is_notrack: true });

const READY: Option<TunnelRecord> = Some(TUNNEL);

const NOT_READY: Option<TunnelRecord> = Some(TunnelRecord {
    is_ready: false,
    ..TUNNEL
});

/// What a row shows; the service's record, the tunnel's, the backend that the flow has and the one of the slot; and the choice.
type Case = (
    &'static str,
    Option<VipRecord>,
    Option<TunnelRecord>,
    Option<Assigned>,
    Option<Assigned>,
    Choice,
);

#[rattlefmt::skip]
const CASES: [Case; 8] = [
    ("tunnel not set up",                TRACKED,     NOT_READY, SECOND_UP,   FIRST_UP,   Choice::Drop),
    ("noted and up",                     TRACKED,     READY,     SECOND_UP,   FIRST_UP,   TO_SECOND),
    ("noted, but down",                  TRACKED,     READY,     SECOND_DOWN, FIRST_UP,   TO_FIRST),
    ("noted, without a record",          TRACKED,     READY,     NO_RECORD,   FIRST_UP,   TO_FIRST),
    ("owner of the slot down",           TRACKED,     READY,     None,        FIRST_DOWN, Choice::Drop),
    ("owner of the slot without record", TRACKED,     READY,     None,        NO_RECORD,  Choice::Drop),
    ("not tracked: what is noted does not count", NOT_TRACKED, READY,     SECOND_UP,   FIRST_UP,   TO_FIRST_ONCE),
    ("not tracked, no owner",            NOT_TRACKED, READY,     SECOND_UP,   None,       Choice::Drop),
];

/// Compares the choice for a frame of these bytes.
fn is_chosen(
    rt: &impl Abort,
    alloc: Global,
    name: &str,
    bytes: &[u8],
    records: &Records,
    want: Choice,
) -> Result<(), FrameFault> {
    let frame = Frame::of(alloc, bytes)?;
    same(rt, name, &choose(&frame, records), &want);
    Ok(())
}

/// Compares the choice of each case.
fn are_decided(rt: &impl Abort, alloc: Global, cases: &[Case]) -> Result<(), FrameFault> {
    for (name, vip, tunnel, tracked, slot, want) in cases {
        let records = Records {
            vip: *vip,
            tunnel: *tunnel,
            tracked: *tracked,
            slot: *slot,
        };
        is_chosen(rt, alloc, name, &UDP_FRAME, &records, *want)?;
    }
    Ok(())
}

#[test]
fn the_first_case_that_applies_decides(rt: HostRuntime) -> Result<(), FrameFault> {
    are_decided(&rt, rt.alloc(), &CASES)
}

/// A service whose flows are tracked, a tunnel that is set up, a flow that nothing is noted of, and a backend that is up.
const WITH_BACKEND_UP: Records = Records {
    vip: TRACKED,
    tunnel: READY,
    tracked: None,
    slot: FIRST_UP,
};

/// The same with a backend that is down.
const WITH_BACKEND_DOWN: Records = Records {
    vip: TRACKED,
    tunnel: READY,
    tracked: None,
    slot: FIRST_DOWN,
};

#[rattlefmt::skip]
const CHANGES: [(&str, usize, u8, Choice); 4] = [
    ("as it is",            22, 0x40, TO_FIRST),
    ("with options",        14, 0x46, Choice::Pass),
    ("a fragment",          20, 0x20, Choice::Pass),
    ("neither TCP nor UDP", 23, 1,    Choice::Pass),
];

const TOTALS: [(&str, u16, Choice); 2] = [
    ("a packet of 1480 bytes", 1480, TO_FIRST),
    ("a packet of 1481 bytes", 1481, Choice::Drop),
];

/// The datagram's frame with this total length, and zeros behind it.
fn with_total(total: u16) -> [u8; 1500] {
    let mut bytes = [0; 1500];
    bytes[..42].copy_from_slice(&UDP_FRAME);
    bytes[16] = (total / 256) as u8;
    bytes[17] = (total % 256) as u8;
    bytes
}

#[test]
fn frames_that_cannot_be_steered(rt: HostRuntime) -> Result<(), FrameFault> {
    let records = WITH_BACKEND_UP;
    for (name, at, byte, want) in &CHANGES {
        let bytes = with_byte(&rt, *at, *byte);
        is_chosen(&rt, rt.alloc(), *name, &bytes, &records, *want)?;
    }
    for (name, total, want) in &TOTALS {
        let bytes = with_total(*total);
        is_chosen(&rt, rt.alloc(), *name, &bytes, &records, *want)?;
    }
    Ok(())
}

/// Compares what becomes of the datagram, and the choice.
fn becomes(
    rt: &impl Abort,
    alloc: Global,
    records: &Records,
    choice: Choice,
    want: &[u8],
) -> Result<(), FrameFault> {
    let mut frame = Frame::of(alloc, &UDP_FRAME)?;
    same(rt, "choice", &steer(&mut frame, records), &choice);
    same_bytes(rt, "frame", frame.bytes(), want);
    Ok(())
}

#[test]
fn the_chosen_backend_gets_the_frame(rt: HostRuntime) -> Result<(), FrameFault> {
    let up = WITH_BACKEND_UP;
    becomes(&rt, rt.alloc(), &up, TO_FIRST, &SENT)?;
    let down = WITH_BACKEND_DOWN;
    becomes(&rt, rt.alloc(), &down, Choice::Drop, &UDP_FRAME)
}

/// A choice of backend 3, at 192.0.2.4, which the flow gets.
const TO_FOURTH: Choice = Choice::Tx {
    number: 3,
    address: Ipv4Address([192, 0, 2, 4]),
    updates_flows: true,
};

/// The same, where the flow is not noted.
const TO_FOURTH_ONCE: Choice = Choice::Tx {
    number: 3,
    address: Ipv4Address([192, 0, 2, 4]),
    updates_flows: false,
};

#[test]
fn the_flow_is_noted_where_its_owner_is_chosen(rt: HostRuntime) {
    let Some(flow) = flow_of(&UDP_FRAME) else {
        panic!(&rt; "the frame has a flow");
    };
    #[rattlefmt::skip]
    let key = [198, 51, 100, 7, 203, 0, 113, 1, 0x9c, 0x40, 0, 0x50, 0x11, 0, 0, 0];
    let noted = Some((key, [3, 0, 0, 0, 0, 0, 0, 0]));
    same(&rt, "chosen", &TO_FOURTH.flow_update(&flow), &noted);
    same(&rt, "as noted", &TO_FOURTH_ONCE.flow_update(&flow), &None);
    same(&rt, "dropped", &Choice::Drop.flow_update(&flow), &None);
}

#[test]
fn keys_and_records_stand_as_the_maps_have_them(rt: HostRuntime) {
    let service = Service {
        address: Ipv4Address([203, 0, 113, 1]),
        port: 80,
        transport: Transport::Udp,
    };
    same(
        &rt,
        "key of a service",
        &service.key(),
        &[0xcb, 0, 0x71, 1, 0, 0x50, 0x11, 0],
    );
    let found = flow_of(&UDP_FRAME).map(|flow| Service::of_flow(&flow));
    same(&rt, "service of a flow", &found, &Some(service));
    let vip = VipRecord { is_notrack: true };
    same(&rt, "not tracked", &vip.bytes(), &[1, 0, 0, 0, 0, 0, 0, 0]);
    let vip = VipRecord { is_notrack: false };
    same(&rt, "tracked", &vip.bytes(), &[0; 8]);
    let up = BackendRecord {
        address: Ipv4Address([192, 0, 2, 1]),
        is_up: true,
    };
    same(&rt, "a backend", &up.bytes(), &[0xc0, 0, 2, 1, 1, 0, 0, 0]);
    let owned = RingRecord { owner: Some(0) };
    same(
        &rt,
        "a slot of backend 0",
        &owned.bytes(),
        &[1, 0, 0, 0, 0, 0, 0, 0],
    );
    let owned = RingRecord { owner: Some(258) };
    same(
        &rt,
        "a slot of backend 258",
        &owned.bytes(),
        &[3, 1, 0, 0, 0, 0, 0, 0],
    );
    let flow = FlowRecord { backend: 1 };
    same(&rt, "a flow", &flow.bytes(), &[1, 0, 0, 0, 0, 0, 0, 0]);
    #[rattlefmt::skip]
    let tunnel = [10, 0, 0, 9, 2, 0, 0, 0, 0, 10, 2, 0, 0, 0, 0, 11, 1, 0, 0, 0, 0, 0, 0, 0];
    same(&rt, "the tunnel", &TUNNEL.bytes(), &tunnel);
}

/// Records with this flag are read back from their bytes.
fn flags_are_read_back(rt: &impl Abort, name: &str, is_set: bool) {
    let vip = VipRecord { is_notrack: is_set };
    same_fact(rt, name, "service", &VipRecord::of(&vip.bytes()), &vip);
    let backend = BackendRecord {
        address: Ipv4Address([1, 2, 3, 4]),
        is_up: is_set,
    };
    same_fact(
        rt,
        name,
        "backend",
        &BackendRecord::of(&backend.bytes()),
        &backend,
    );
    let tunnel = TunnelRecord {
        is_ready: is_set,
        ..TUNNEL
    };
    same_fact(
        rt,
        name,
        "tunnel",
        &TunnelRecord::of(&tunnel.bytes()),
        &tunnel,
    );
}

/// Records with this backend's number are read back from their bytes.
fn number_is_read_back(rt: &impl Abort, number: u32)
    requires { number < 2 ^ 32 - 1 }
{
    let flow = FlowRecord { backend: number };
    same_at(
        rt,
        "flow of",
        u64::from(number),
        &FlowRecord::of(&flow.bytes()),
        &flow,
    );
    let slot = RingRecord {
        owner: Some(number),
    };
    same_at(
        rt,
        "slot of",
        u64::from(number),
        &RingRecord::of(&slot.bytes()),
        &slot,
    );
}

const NUMBERS: [u32; 6] = [0, 1, 255, 256, 65536, u32::MAX - 1];

#[test]
fn records_are_read_back(rt: HostRuntime) {
    flags_are_read_back(&rt, "unset", false);
    flags_are_read_back(&rt, "set", true);
    for number in NUMBERS {
        prove!(number < u32::MAX);
        number_is_read_back(&rt, number);
    }
    same(
        &rt,
        "no owner",
        &RingRecord::of(&[0; 8]),
        &RingRecord { owner: None },
    );
    let vip = VipRecord::of(&[2, 0, 0, 0, 0, 0, 0, 0]);
    same(&rt, "another bit", &vip, &VipRecord { is_notrack: false });
    let backend = BackendRecord::of(&[1, 2, 3, 4, 1, 1, 0, 0]);
    same(&rt, "a bit behind the flag", &backend.is_up, &false);
}

const SIZES: [(u32, u32); 4] = [(7, 8), (251, 256), (4093, 4096), (65537, 65544)];

const NO_SIZES: [u32; 7] = [0, 1, 6, 8, 252, 65536, 65538];

/// The maps for a table of this size, whose ring has this many entries.
fn are_six_maps(rt: &impl Abort, alloc: Global, size: u32, ring: u32) -> Result<(), SteerFault> {
    let maps = maps(alloc, size)?;
    let entries = maps.get(2).map(|map| map.max_entries);
    same_at(rt, "maps for", u64::from(size), &maps.len(), &6);
    same_at(rt, "entries for", u64::from(size), &entries, &Some(ring));
    same_at(
        rt,
        "size of maps for",
        u64::from(size),
        &table_size(&maps),
        &Some(size),
    );
    same_at(
        rt,
        "size of five maps for",
        u64::from(size),
        &table_size(&maps[..5]),
        &None,
    );
    Ok(())
}

/// The number of the refusal to make maps, or 0.
fn refusal_of(alloc: Global, size: u32) -> u8 {
    match maps(alloc, size) {
        Ok(_) => 0,
        Err(fault) => fault.number(),
    }
}

const NOTES: [u32; 6] = [4096, 8192, 16384, 32768, 65536, 131072];

/// Numbers of notes and sizes of lookup tables of which one is not served.
#[rattlefmt::skip]
const NO_NOTES: [(u32, u32); 8] = [
    (0, 7), (4095, 7), (4097, 7), (12288, 7), (131071, 7), (262144, 7), (4096, 8), (5000, 8),
];

/// The maps for a flow table of so many notes are those for one of 4096 in all but this number.
fn are_maps_with(rt: &impl Abort, alloc: Global, notes: u32, size: u32) -> Result<(), SteerFault> {
    let mut usual = maps(alloc, size)?;
    if let Some(flows) = usual.get_mut(1) {
        flows.max_entries = notes;
    }
    let made = maps_with(alloc, notes, size)?;
    let row = u64::from(notes);
    same_at(rt, "maps", row, &made.as_slice(), &usual.as_slice());
    same_at(rt, "size", row, &table_size(&made), &Some(size));
    same_at(rt, "may be", row, &is_note_count(notes), &true);
    Ok(())
}

/// The number of the refusal to make maps with so many notes, or 0; and the size of the lookup table that others with as many would have.
fn refusal_with(alloc: Global, notes: u32, size: u32) -> Result<(u8, Option<u32>), SteerFault> {
    let mut others = maps(alloc, 7)?;
    if let Some(flows) = others.get_mut(1) {
        flows.max_entries = notes;
    }
    let found = table_size(&others);
    match maps_with(alloc, notes, size) {
        Ok(_) => Ok((0, found)),
        Err(fault) => Ok((fault.number(), found)),
    }
}

#[test]
fn six_maps_for_each_number_of_notes(rt: HostRuntime) -> Result<(), SteerFault> {
    for notes in NOTES {
        are_maps_with(&rt, rt.alloc(), notes, 7)?;
        are_maps_with(&rt, rt.alloc(), notes, 65537)?;
    }
    for (notes, size) in NO_NOTES {
        let found = if notes == 4096 { Some(7) } else { None };
        same_at(
            &rt,
            "none with",
            u64::from(notes),
            &refusal_with(rt.alloc(), notes, size)?,
            &(73, found),
        );
    }
    Ok(())
}

#[test]
fn six_maps_for_each_size(rt: HostRuntime) -> Result<(), SteerFault> {
    for (size, ring) in &SIZES {
        are_six_maps(&rt, rt.alloc(), *size, *ring)?;
    }
    for size in NO_SIZES {
        same_at(
            &rt,
            "no maps for",
            u64::from(size),
            &refusal_of(rt.alloc(), size),
            &73,
        );
    }
    Ok(())
}
