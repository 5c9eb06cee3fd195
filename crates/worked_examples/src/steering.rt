//! Steering: rings, flows and their workers, what a controller's commands ask, and what becomes of a frame.

mod queues;
pub(crate) mod sessions;

ghost use Rattle.std.specs.Prelude.{◌≡◌, ◌<◌, ℕ, All, IsTrue, length};
ghost use Rattle.conntrack.specs.SteeringMaps.{AreSteeringMaps};

use crate::asserting::{holds, same, same_at};
use crate::frames::DATAGRAM;
use conntrack::{Assigned, BackendRecord, Choice, Records, TunnelRecord, VipRecord, choose, maps};
use control::{ControlFault, Controller, MadeUpdate, Slot, UpdateList, parse_script, ring_updates};
use maglev::Ring;
use rx_queues::spread;
use std::alloc::Global;
use std::process::Abort;
use wire::{FlowKey, Frame, Ipv4Address, MacAddress, Transport};

/// A backend's number, its offset and its skip.
type Given = (u32, u32, u32);

/// Three backends of a ring of seven slots, and the same without the second.
const THREE: &[Given] = &[(0, 3, 4), (1, 0, 2), (2, 3, 1)];

const TWO: &[Given] = &[(0, 3, 4), (2, 3, 1)];

/// Whether each offset is below seven, and each skip above 0 and below seven.
fn fit(given: &[Given]) -> bool
    ensures offsets { IsTrue result → All (λ (backend : ℕ × ℕ × ℕ). backend.1 < 7) given.now }
    ensures skips { IsTrue result → All (λ (backend : ℕ × ℕ × ℕ). (0 < backend.2) × (backend.2 < 7)) given.now }
{
    given
        .iter()
        .all(|backend| backend.1 < 7 && 0 < backend.2 && backend.2 < 7)
}

/// The ring of seven slots that backends make by turns.
fn ring_of(rt: &impl Abort, alloc: Global, given: &[Given]) -> Ring
    ensures { length result ≡ 7 }
{
    holds(rt, "offsets and skips", fit(given));
    Ring::turns(alloc, given, 7).expect(rt, "a ring")
}

/// The slots have these owners, from the first one on.
fn has_owners(rt: &impl Abort, ring: &Ring, owners: &[u32]) {
    let mut slot = 0;
    for owner in owners {
        holds(rt, "the ring has this slot", slot < ring.size());
        same_at(rt, "slot", u64::from(slot), &ring.owner(slot), owner);
        slot += 1;
    }
}

#[test]
fn backends_take_turns(rt: HostRuntime) {
    let ring = ring_of(&rt, rt.alloc(), THREE);
    has_owners(&rt, &ring, &[1, 0, 1, 0, 2, 2, 0]);
    let ring = ring_of(&rt, rt.alloc(), TWO);
    has_owners(&rt, &ring, &[0, 0, 0, 0, 2, 2, 2]);
}

/// The flow of a TCP segment from this port of 198.51.100.7 to port 80 of 203.0.113.1.
fn flow(source_port: u16) -> FlowKey {
    FlowKey {
        source: Ipv4Address([198, 51, 100, 7]),
        destination: Ipv4Address([203, 0, 113, 1]),
        source_port,
        destination_port: 80,
        transport: Transport::Tcp,
    }
}

#[test]
fn a_flow_has_its_worker(rt: HostRuntime) {
    let first = spread(Some(&flow(40000)), 2);
    same(&rt, "port 40000", &first, &0);
    let second = spread(Some(&flow(40001)), 2);
    same(&rt, "port 40001", &second, &1);
}

/// A controller for a table of seven slots, and its maps in memory.
fn opened(rt: &impl Abort, alloc: Global) -> (Controller, UpdateList)
    ensures { AreSteeringMaps result.0.size result.1.maps }
{
    let maps = maps(alloc, 7).expect(rt, "maps");
    let list = UpdateList::open(alloc, maps, 99).expect(rt, "a list");
    let controller = Controller::open(alloc, 7).expect(rt, "a controller");
    (controller, list)
}

/// What the last command of a script is answered, and the updates that all ask.
fn applied(rt: &impl Abort, alloc: Global, text: &str) -> (Result<(), ControlFault>, UpdateList) {
    let (mut controller, mut list) = opened(rt, alloc);
    let script = parse_script(alloc, text.as_bytes()).expect(rt, "a script");
    let mut last = Ok(());
    'commands: for command in script.commands() {
        last = controller.apply(alloc, command, &mut list);
    }
    (last, list)
}

/// Update number `at` sets this key of this map to this value.
fn is_asked(rt: &impl Abort, asked: &[MadeUpdate], at: usize, map: u32, key: u8, value: &[u8; 8]) {
    holds(rt, "there is this update", at < asked.len());
    let made = asked[at];
    same_at(rt, "map of update", at as u64, &made.map, &map);
    let key = [key, 0, 0, 0];
    same_at(
        rt,
        "key of update",
        at as u64,
        &made.key.as_slice(),
        &key.as_slice(),
    );
    same_at(
        rt,
        "value of update",
        at as u64,
        &made.value.as_slice(),
        &value.as_slice(),
    );
}

/// From update number `first` on, a record of backend 0 is put, and then each of seven slots has this value.
fn record_and_slots(
    rt: &impl Abort,
    asked: &[MadeUpdate],
    first: usize,
    record: &[u8; 8],
    slot: &[u8; 8],
) {
    is_asked(rt, asked, first, 3, 0, record);
    for place in 0..7u8 {
        let at = first.saturating_add(1).saturating_add(usize::from(place));
        is_asked(rt, asked, at, 2, place, slot);
    }
}

#[test]
fn up_and_down_ask_a_record_and_the_slots(rt: HostRuntime) {
    let text = "0 up 0 192.0.2.1\n0 down 0\n";
    let (answer, list) = applied(&rt, rt.alloc(), text);
    same(&rt, "the answer", &answer, &Ok(()));
    same(&rt, "eight and eight", &list.made().len(), &16);
    let up = [0xc0, 0, 2, 1, 1, 0, 0, 0];
    record_and_slots(&rt, list.made(), 0, &up, &[1, 0, 0, 0, 0, 0, 0, 0]);
    let down = [0xc0, 0, 2, 1, 0, 0, 0, 0];
    record_and_slots(&rt, list.made(), 8, &down, &[0; 8]);
}

/// The slots that change from one ring to the other, each with its new owner.
fn changed(rt: &impl Abort, alloc: Global, first: &Ring, second: &Ring) -> Vec<Slot>
    requires { length first.now ≡ length second.now }
{
    ring_updates(alloc, first, second).expect(rt, "slots")
}

fn slot(place: u32, owner: u32) -> Slot {
    Slot {
        place,
        owner: Some(owner),
    }
}

#[test]
fn only_slots_that_change_are_updated(rt: HostRuntime) {
    let first = ring_of(&rt, rt.alloc(), THREE);
    let second = ring_of(&rt, rt.alloc(), TWO);
    let slots = changed(&rt, rt.alloc(), &first, &second);
    let want = [slot(0, 0), slot(2, 0), slot(6, 2)];
    holds(&rt, "slots 0, 2 and 6", slots.as_slice() == want.as_slice());
}

#[test]
fn a_backend_has_a_number_below_the_slots(rt: HostRuntime) {
    let (answer, _list) = applied(&rt, rt.alloc(), "0 up 7 10.0.0.1\n");
    same(&rt, "91", &answer, &Err(ControlFault::UnknownBackend));
}

#[test]
fn frames_of_a_script_do_not_fall(rt: HostRuntime) {
    let script = parse_script(rt.alloc(), b"1 down 0\n0 down 0\n");
    let fault = script.err();
    same(&rt, "90", &fault, &Some(ControlFault::BadLine { line: 2 }));
}

#[test]
fn two_spaces_are_no_script(rt: HostRuntime) {
    let script = parse_script(rt.alloc(), b"0 vip 203.0.113.1 80 udp  notrack\n");
    let fault = script.err();
    same(&rt, "90", &fault, &Some(ControlFault::BadLine { line: 1 }));
}

const FIRST: Ipv4Address = Ipv4Address([192, 0, 2, 1]);

const SECOND: Ipv4Address = Ipv4Address([192, 0, 2, 2]);

/// A backend with its record.
fn backend(number: u32, address: Ipv4Address, is_up: bool) -> Option<Assigned> {
    Some(Assigned {
        number,
        record: Some(BackendRecord { address, is_up }),
    })
}

/// What the maps hold of the datagram when a service, the tunnel and backend 0 are set up.
fn set_up() -> Records {
    Records {
        vip: Some(VipRecord { is_notrack: false }),
        tunnel: Some(TunnelRecord {
            source: Ipv4Address([10, 0, 0, 9]),
            source_mac: MacAddress([2, 0, 0, 0, 0, 10]),
            destination_mac: MacAddress([2, 0, 0, 0, 0, 11]),
            is_ready: true,
        }),
        tracked: None,
        slot: backend(0, FIRST, true),
    }
}

/// The rule in plain code chooses this for a frame.
fn is_chosen(rt: &impl Abort, alloc: Global, bytes: &[u8], records: &Records, want: Choice) {
    let frame = Frame::of(alloc, bytes).expect(rt, "a frame");
    same(rt, "the choice", &choose(&frame, records), &want);
}

/// A frame goes to this backend.
fn sent_to(number: u32, address: Ipv4Address, updates_flows: bool) -> Choice {
    Choice::Tx {
        number,
        address,
        updates_flows,
    }
}

#[test]
fn the_rule_in_plain_code_chooses_a_backend(rt: HostRuntime) {
    let alloc = rt.alloc();
    is_chosen(&rt, alloc, &DATAGRAM, &set_up(), sent_to(0, FIRST, true));
    let moved = Records {
        slot: backend(1, SECOND, true),
        ..set_up()
    };
    is_chosen(&rt, alloc, &DATAGRAM, &moved, sent_to(1, SECOND, true));
    let untracked = Records {
        vip: Some(VipRecord { is_notrack: true }),
        ..set_up()
    };
    is_chosen(&rt, alloc, &DATAGRAM, &untracked, sent_to(0, FIRST, false));
    let noted = Records {
        tracked: backend(0, FIRST, true),
        ..moved
    };
    is_chosen(&rt, alloc, &DATAGRAM, &noted, sent_to(0, FIRST, false));
    let gone = Records {
        tracked: backend(0, FIRST, false),
        ..moved
    };
    is_chosen(&rt, alloc, &DATAGRAM, &gone, sent_to(1, SECOND, true));
}

#[test]
fn the_rule_in_plain_code_drops_and_passes(rt: HostRuntime) {
    let alloc = rt.alloc();
    let no_backend = Records {
        slot: None,
        ..set_up()
    };
    is_chosen(&rt, alloc, &DATAGRAM, &no_backend, Choice::Drop);
    let no_service = Records {
        vip: None,
        ..set_up()
    };
    is_chosen(&rt, alloc, &DATAGRAM, &no_service, Choice::Pass);
    let no_tunnel = Records {
        tunnel: None,
        ..set_up()
    };
    is_chosen(&rt, alloc, &DATAGRAM, &no_tunnel, Choice::Drop);
    let mut expired = DATAGRAM;
    expired[22] = 0;
    is_chosen(&rt, alloc, &expired, &set_up(), Choice::Drop);
}
