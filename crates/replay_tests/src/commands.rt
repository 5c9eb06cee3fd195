//! What no clause says: rows worked out elsewhere, and that what takes memory succeeds where there is enough.

ghost use Rattle.std.specs.Prelude.{◌≡◌, IfOk};
ghost use Rattle.conntrack.specs.SteeringMaps.{steering_maps, AreSteeringMaps};

use crate::asserting::{holds, holds_at, same, same_at, same_bytes, same_fact};
use conntrack::maps;
use control::{
    ControlFault, Controller, MadeUpdate, UpdateList, parse_script, ring_updates, round_trip,
};
use maglev::{Ring, RingFault};
use std::alloc::Global;
use std::process::Abort;

/// The maps of a table of seven slots, in memory.
fn maps_opened(alloc: Global, room: usize) -> Result<UpdateList, ControlFault>
    ensures { IfOk result (λ list. list.maps ≡ steering_maps 7) }
{
    match maps(alloc, 7) {
        Ok(maps) => Ok(UpdateList::open(alloc, maps, room)?),
        Err(_) => Err(ControlFault::Memory),
    }
}

/// A controller for a table of seven slots, and its maps in memory.
fn opened(alloc: Global, room: usize) -> Result<(Controller, UpdateList), ControlFault>
    ensures { IfOk result (λ both. AreSteeringMaps both.0.size both.1.maps) }
{
    let list = maps_opened(alloc, room)?;
    Ok((Controller::open(alloc, 7)?, list))
}

/// The number of the fault, or 0.
fn number_of(answer: Result<(), ControlFault>) -> u8 {
    match answer {
        Ok(()) => 0,
        Err(fault) => fault.number(),
    }
}

/// What a script's commands are answered, and the updates that they ask.
fn run(
    rt: &impl Abort,
    alloc: Global,
    text: &str,
    room: usize,
) -> Result<(Vec<u8>, UpdateList), ControlFault> {
    let (mut controller, mut list) = opened(alloc, room)?;
    let script = parse_script(alloc, text.as_bytes()).expect(rt, "a script");
    let mut answers = Vec::new(alloc);
    'commands: for command in script.commands() {
        answers
            .push(number_of(controller.apply(alloc, command, &mut list)))
            .expect(rt, "room");
    }
    Ok((answers, list))
}

#[rattlefmt::skip]
const SCRIPTS: [(&str, &str); 9] = [
    ("no line",            ""),
    ("service over UDP",   "0 vip 203.0.113.1 80 udp\n"),
    ("service over TCP",   "0 vip 0.0.0.0 0 tcp\n"),
    ("without tracking",   "0 vip 203.0.113.1 65535 udp notrack\n"),
    ("up",                 "0 up 0 192.0.2.1\n"),
    ("up, largest numbers", "4294967295 up 4294967295 255.255.255.255\n"),
    ("down",               "0 down 3\n"),
    ("gateway",            "0 gateway 10.0.0.9 02:00:00:00:00:0a ff:9f:a0:00:00:0b\n"),
    ("frames may repeat and rise", "1 down 0\n1 down 0\n7 down 0\n"),
];

/// Reads a script, and compares its text with the one that it was read from, and what comes of it there and back.
fn is_read_exactly(rt: &impl Abort, alloc: Global, name: &str, text: &str) {
    let script = parse_script(alloc, text.as_bytes()).expect(rt, "a script");
    let printed = script.text(alloc).expect(rt, "its text");
    same_bytes(rt, name, printed.as_bytes(), text.as_bytes());
    let again = round_trip(alloc, &script).expect(rt, "a script");
    holds(rt, name, again.commands() == script.commands());
}

/// The same of each script.
fn are_read_exactly(rt: &impl Abort, alloc: Global, rows: &[(&str, &str)]) {
    for (name, text) in rows {
        is_read_exactly(rt, alloc, name, text);
    }
}

#[test]
fn scripts_are_read_exactly(rt: HostRuntime) {
    are_read_exactly(&rt, rt.alloc(), &SCRIPTS);
}

#[rattlefmt::skip]
const BAD_LINES: [(&str, &str, usize); 28] = [
    ("no line feed",              "0 down 0", 1),
    ("empty line",                "\n", 1),
    ("unknown word",              "0 stop 0\n", 1),
    ("word in capitals",          "0 Down 0\n", 1),
    ("leading zero",              "00 down 0\n", 1),
    ("leading zero of a number",  "0 down 01\n", 1),
    ("plus",                      "0 down +1\n", 1),
    ("minus",                     "0 down -1\n", 1),
    ("frame of 2^32",             "4294967296 down 0\n", 1),
    ("number of 2^32",            "0 down 4294967296\n", 1),
    ("two spaces",                "0  down 0\n", 1),
    ("space at the end",          "0 down 0 \n", 1),
    ("space at the beginning",    " 0 down 0\n", 1),
    ("tab",                       "0\tdown 0\n", 1),
    ("carriage return",           "0 down 0\r\n", 1),
    ("no address",                "0 up 0\n", 1),
    ("part of 256",               "0 up 0 192.0.2.256\n", 1),
    ("three parts",               "0 up 0 192.0.2\n", 1),
    ("five parts",                "0 up 0 192.0.2.1.1\n", 1),
    ("leading zero of a part",    "0 up 0 192.0.02.1\n", 1),
    ("port of 65536",             "0 vip 203.0.113.1 65536 udp\n", 1),
    ("no transport",              "0 vip 203.0.113.1 80\n", 1),
    ("other transport",           "0 vip 203.0.113.1 80 icmp\n", 1),
    ("other word than notrack",   "0 vip 203.0.113.1 80 udp track\n", 1),
    ("capital digit",             "0 gateway 10.0.0.9 02:00:00:00:00:0A 02:00:00:00:00:0b\n", 1),
    ("single digit",              "0 gateway 10.0.0.9 02:00:00:00:00:a 02:00:00:00:00:0b\n", 1),
    ("other mark",                "0 gateway 10.0.0.9 02-00-00-00-00-0a 02:00:00:00:00:0b\n", 1),
    ("third line",                "0 down 0\n0 down 1\n0 down\n0 down 3\n", 3),
];

#[rattlefmt::skip]
const NO_TEXTS: [(&str, &[u8], usize); 2] = [
    ("no UTF-8 before bad line",  b"bad\n0 down 1\n0 \xffdown 2\n", 3),
    ("cut character",             b"0 down 0\n\xe2\x82", 2),
];

/// What is wrong with a script.
fn fault_of(alloc: Global, text: &[u8]) -> Option<ControlFault> {
    parse_script(alloc, text).err()
}

/// Holds what is wrong with a script against its first bad line.
fn is_bad_at(rt: &impl Abort, alloc: Global, name: &str, text: &[u8], line: usize) {
    let fault = Some(ControlFault::BadLine { line });
    same(rt, name, &fault_of(alloc, text), &fault);
}

/// The same of each script.
fn are_bad(rt: &impl Abort, alloc: Global, rows: &[(&str, &str, usize)]) {
    for (name, text, line) in rows {
        is_bad_at(rt, alloc, name, text.as_bytes(), *line);
    }
}

#[test]
fn the_first_bad_line_is_named(rt: HostRuntime) {
    are_bad(&rt, rt.alloc(), &BAD_LINES);
    for (name, bytes, line) in &NO_TEXTS {
        is_bad_at(&rt, rt.alloc(), *name, *bytes, *line);
    }
}

/// An update: its map, its key and its value.
type Row = (u32, &'static [u8], &'static [u8]);

/// Runs a script, and compares what its commands are answered, and how many updates they ask.
fn is_answered(
    rt: &impl Abort,
    alloc: Global,
    name: &str,
    text: &str,
    room: usize,
    answers: &[u8],
    made: usize,
) -> Result<UpdateList, ControlFault> {
    let (found, list) = run(rt, alloc, text, room)?;
    same_bytes(rt, name, &found, answers);
    same_fact(rt, name, "updates", &list.made().len(), &made);
    Ok(list)
}

/// Compares an update that was asked.
fn is_asked(rt: &impl Abort, place: u64, made: &MadeUpdate, row: Row) {
    let (map, key, value) = row;
    holds_at(rt, "map of update", place, made.map == map);
    holds_at(rt, "key of update", place, made.key.as_slice() == key);
    holds_at(rt, "value of update", place, made.value.as_slice() == value);
}

/// Compares the updates that were asked.
fn are_asked(rt: &impl Abort, asked: &[MadeUpdate], rows: &[Row]) {
    let mut place = 0u64;
    for (made, row) in asked.iter().zip(rows) {
        is_asked(rt, place, made, *row);
        place = place.wrapping_add(1);
    }
}

const SERVICES: &str =
    "0 vip 203.0.113.1 80 udp\n0 vip 203.0.113.1 80 udp notrack\n0 gateway 10.0.0.9 02:00:00:00:00:0a 02:00:00:00:00:0b\n";

#[rattlefmt::skip]
const PUT: [Row; 3] = [
    (0, &[0xcb, 0, 0x71, 1, 0, 0x50, 0x11, 0], &[0, 0, 0, 0, 0, 0, 0, 0]),
    (0, &[0xcb, 0, 0x71, 1, 0, 0x50, 0x11, 0], &[1, 0, 0, 0, 0, 0, 0, 0]),
    (4, &[0, 0, 0, 0], &[10, 0, 0, 9, 2, 0, 0, 0, 0, 10, 2, 0, 0, 0, 0, 11, 1, 0, 0, 0, 0, 0, 0, 0]),
];

#[test]
fn services_and_the_tunnel_are_put(rt: HostRuntime) -> Result<(), ControlFault> {
    let list = is_answered(&rt, rt.alloc(), "services", SERVICES, 3, &[0, 0, 0], 3)?;
    are_asked(&rt, list.made(), &PUT);
    Ok(())
}

#[rattlefmt::skip]
const REFUSED: [(&str, &str, usize, &[u8], usize); 8] = [
    ("down of none",             "0 down 3\n",                                              99, &[91], 0),
    ("number of the size, address up", "0 up 0 10.0.0.1\n0 up 7 10.0.0.1\n",                99, &[0, 91], 8),
    ("number twice",             "0 up 0 10.0.0.1\n0 up 0 10.0.0.2\n",                      99, &[0, 92], 8),
    ("address twice",            "0 up 0 10.0.0.1\n0 up 1 10.0.0.1\n",                      99, &[0, 92], 8),
    ("both twice",               "0 up 0 10.0.0.1\n0 up 0 10.0.0.1\n",                      99, &[0, 92], 8),
    ("down twice",               "0 up 0 10.0.0.1\n0 down 0\n0 down 0\n",                   99, &[0, 0, 91], 16),
    ("no room for the record",   "0 up 0 10.0.0.1\n",                                        0, &[94], 0),
    ("room for three updates",   "0 up 0 10.0.0.1\n0 down 5\n0 vip 1.2.3.4 1 tcp\n",         3, &[94, 94, 94], 3),
];

#[test]
fn commands_are_refused(rt: HostRuntime) -> Result<(), ControlFault> {
    for (name, text, room, answers, made) in &REFUSED {
        is_answered(&rt, rt.alloc(), *name, *text, *room, *answers, *made)?;
    }
    Ok(())
}

/// Adds a line that sets up a service.
fn put_service(rt: &impl Abort, alloc: Global, text: &mut String, port: u32) {
    let line = format!(in alloc; "0 vip 203.0.113.1 {port} udp\n").expect(rt, "a line");
    text.push_str(&line).expect(rt, "room");
}

/// Services of the ports 0 to 64, and the one of port 7 again.
fn services(rt: &impl Abort, alloc: Global) -> String {
    let mut text = String::new(alloc);
    for port in 0..65 {
        put_service(rt, alloc, &mut text, port);
    }
    put_service(rt, alloc, &mut text, 7);
    text
}

#[test]
fn the_65th_service_is_refused(rt: HostRuntime) -> Result<(), ControlFault> {
    let text = services(&rt, rt.alloc());
    let mut answers = [0; 66];
    answers[64] = 93;
    is_answered(&rt, rt.alloc(), "65 services", &text, 99, &answers, 66)?;
    Ok(())
}

#[test]
fn a_long_script_is_read_exactly(rt: HostRuntime) {
    let text = services(&rt, rt.alloc());
    is_read_exactly(&rt, rt.alloc(), "66 services", &text);
}

/// Of two backends on 65,537 slots the second one has 32,768, which go back to the first.
#[test]
fn slots_of_a_large_ring_change_hands(rt: HostRuntime) -> Result<(), RingFault> {
    let first = Ring::turns(rt.alloc(), &[(0, 3, 4), (1, 0, 2)], 65537)?;
    let second = Ring::turns(rt.alloc(), &[(0, 3, 4)], 65537)?;
    let slots = ring_updates(rt.alloc(), &first, &second).expect(&rt, "slots");
    same(&rt, "slots that change", &slots.len(), &32_768);
    let are_of_the_first = slots.iter().all(|slot| slot.owner == Some(0));
    holds(&rt, "they are the first one's", are_of_the_first);
    Ok(())
}

const NO_SIZES: [u32; 5] = [0, 1, 8, 252, 65536];

/// The number of the refusal to open a controller, or 0.
fn refusal_of(alloc: Global, size: u32) -> u8 {
    match Controller::open(alloc, size) {
        Ok(_) => 0,
        Err(fault) => fault.number(),
    }
}

/// Two controllers of one size without backends. That they have one table is a law, which a run cannot show.
#[test]
fn new_controllers_have_room(rt: HostRuntime) {
    let one = Controller::open(rt.alloc(), 251).expect(&rt, "a controller");
    let other = Controller::open(rt.alloc(), 251).expect(&rt, "a controller");
    one.same_ring(&other);
    same(&rt, "full", &one.is_full(), &false);
    same(&rt, "the other full", &other.is_full(), &false);
}

#[test]
fn other_sizes_have_no_controller(rt: HostRuntime) {
    for size in NO_SIZES {
        same_at(
            &rt,
            "no table of",
            u64::from(size),
            &refusal_of(rt.alloc(), size),
            &73,
        );
    }
}
