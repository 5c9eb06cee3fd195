//! Worked rings, each refusal, and the shares of large rings, with the time that they take in print.

ghost use Rattle.std.specs.Prelude.{◌<◌, ℕ, All, IsTrue};

use crate::asserting::{holds, holds_at, prints, same, same_at};
use maglev::{Backend, Ring, RingFault};
use std::alloc::Global;
use std::process::Abort;
use std::test::Fail;
use std::time::Instant;
use wire::Ipv4Address;

type Given = (u32, u32, u32);

#[rattlefmt::skip]
static TURNS: [(&str, &[Given], [u32; 7]); 1] = [
    ("one backend owns every slot",                   &[(9, 6, 6)],                       [9, 9, 9, 9, 9, 9, 9]),
];

const THREE: [Backend; 3] = [
    Backend {
        number: 0,
        address: Ipv4Address([192, 0, 2, 1]),
    },
    Backend {
        number: 1,
        address: Ipv4Address([192, 0, 2, 2]),
    },
    Backend {
        number: 2,
        address: Ipv4Address([10, 0, 0, 9]),
    },
];

#[rattlefmt::skip]
const BUILT: [(&str, u32, &[u32]); 2] = [
    ("all seven slots",               7,   &[2, 0, 0, 1, 2, 0, 1]),
    ("the first sixteen slots of 251", 251, &[1, 2, 0, 2, 0, 0, 0, 0, 1, 2, 0, 2, 0, 1, 0, 0]),
];

#[rattlefmt::skip]
const REFUSED_TURNS: [(&str, &[Given], u32, RingFault); 6] = [
    ("no backend goes before a bad size",           &[],                                5, RingFault::NoBackend),
    ("a number twice goes before too many",         &[(4, 0, 1), (5, 1, 1), (4, 1, 1)], 2, RingFault::Twice),
    ("one offset and skip for two is no fault",     &[(4, 0, 1), (5, 0, 1)],            5, RingFault::BadSize),
    ("too many goes before a bad size",             &[(0, 0, 1), (1, 1, 1), (2, 0, 1)], 2, RingFault::TooMany),
    ("more backends than slots",
        &[(0, 0, 1), (1, 0, 1), (2, 0, 1), (3, 0, 1), (4, 0, 1), (5, 0, 1), (6, 0, 1), (7, 0, 1)], 7, RingFault::TooMany),
    ("a size that is prime and not served",         &[(0, 0, 1)],                      13, RingFault::BadSize),
];

#[rattlefmt::skip]
const REFUSED_BUILDS: [(&str, &[Backend], u32, RingFault); 5] = [
    ("no backend goes before a bad size", &[], 0, RingFault::NoBackend),
    ("a number twice",
        &[Backend { number: 3, address: Ipv4Address([1, 2, 3, 4]) }, Backend { number: 3, address: Ipv4Address([1, 2, 3, 5]) }], 7,
        RingFault::Twice),
    ("an address twice",
        &[Backend { number: 3, address: Ipv4Address([1, 2, 3, 4]) }, Backend { number: 4, address: Ipv4Address([1, 2, 3, 4]) }], 7,
        RingFault::Twice),
    ("twice goes before a bad size",
        &[Backend { number: 3, address: Ipv4Address([1, 2, 3, 4]) }, Backend { number: 3, address: Ipv4Address([1, 2, 3, 4]) }],
        1, RingFault::Twice),
    ("a bad size",                        &[Backend { number: 3, address: Ipv4Address([1, 2, 3, 4]) }], 65536, RingFault::BadSize),
];

#[rattlefmt::skip]
const FAULTS: [(RingFault, u8, &str); 5] = [
    (RingFault::NoBackend, 70, "fault 70 NoBackend"),
    (RingFault::Twice,     71, "fault 71 Twice"),
    (RingFault::TooMany,   72, "fault 72 TooMany"),
    (RingFault::BadSize,   73, "fault 73 BadSize"),
    (RingFault::Memory,    74, "fault 74 Memory"),
];

/// Backends, and the smallest and the largest share that 65537 slots leave each.
#[rattlefmt::skip]
const SHARES: [(u32, u32, u32); 3] = [
    (10,  6553, 6554),
    (100,  655,  656),
    (250,  262,  263),
];

/// Whether each offset is below the size, and each skip above 0 and below it.
fn fit(given: &[Given], size: u32) -> bool
    ensures offsets { IsTrue result → All (λ (backend : ℕ × ℕ × ℕ). backend.1 < size) given.now }
    ensures skips { IsTrue result → All (λ (backend : ℕ × ℕ × ℕ). (0 < backend.2) × (backend.2 < size)) given.now }
{
    given.iter().all(|backend| backend.1 < size && 0 < backend.2 && backend.2 < size)
}

/// Compares the owners of a ring's slots, from the first slot on.
fn are_owners(rt: &impl Abort, name: &str, ring: &Ring, want: &[u32]) {
    let mut slot = 0;
    for number in want {
        holds(rt, name, slot < ring.size());
        same_at(rt, name, u64::from(slot), &ring.owner(slot), number);
        slot += 1;
    }
}

/// The ring that backends make by turns. Ends the test where an offset or a skip does not fit.
fn turns(
    rt: &impl Abort,
    alloc: Global,
    name: &str,
    given: &[Given],
    size: u32,
) -> Result<Ring, RingFault> {
    holds(rt, name, fit(given, size));
    Ring::turns(alloc, given, size)
}

/// Compares the owners of the seven slots that backends take by turns.
fn take_turns(
    rt: &impl Abort,
    alloc: Global,
    name: &str,
    given: &[Given],
    want: &[u32],
) -> Result<(), RingFault> {
    let ring = turns(rt, alloc, name, given, 7)?;
    same(rt, name, &ring.size(), &7);
    are_owners(rt, name, &ring, want);
    Ok(())
}

#[test]
fn owners_by_turns(rt: HostRuntime) -> Result<(), Fail> {
    for (name, given, want) in &TURNS {
        take_turns(&rt, rt.alloc(), *name, *given, want)?;
    }
    Ok(())
}

#[test]
fn owners_by_addresses(rt: HostRuntime) -> Result<(), Fail> {
    for (name, size, want) in &BUILT {
        let ring = Ring::build(rt.alloc(), &THREE, *size)?;
        same(&rt, *name, &ring.size(), size);
        are_owners(&rt, *name, &ring, *want);
    }
    Ok(())
}

/// Why these backends make no ring.
fn refused_build(alloc: Global, backends: &[Backend], size: u32) -> Option<RingFault> {
    Ring::build(alloc, backends, size).err()
}

/// Compares why the turns of each row make no ring.
fn are_refused_turns(rt: &impl Abort, alloc: Global, rows: &[(&str, &[Given], u32, RingFault)]) {
    for (name, given, size, want) in rows {
        let found = turns(rt, alloc, name, given, *size).err();
        same(rt, name, &found, &Some(*want));
    }
}

/// Compares why the backends of each row make no ring.
fn are_refused_builds(rt: &impl Abort, alloc: Global, rows: &[(&str, &[Backend], u32, RingFault)]) {
    for (name, backends, size, want) in rows {
        let found = refused_build(alloc, backends, *size);
        same(rt, name, &found, &Some(*want));
    }
}

#[test]
fn refusals_in_their_order(rt: HostRuntime) {
    are_refused_turns(&rt, rt.alloc(), &REFUSED_TURNS);
    are_refused_builds(&rt, rt.alloc(), &REFUSED_BUILDS);
}

/// Why this many backends make no ring of 4093 slots.
fn refused_count(rt: &impl Abort, alloc: Global, count: u32) -> Option<RingFault> {
    let backends = hundreds(rt, alloc, count);
    refused_build(alloc, &backends, 4093)
}

#[test]
fn more_than_256_backends(rt: HostRuntime) {
    let found = refused_count(&rt, rt.alloc(), 256);
    same(&rt, "256 backends", &found, &None);
    let found = refused_count(&rt, rt.alloc(), 257);
    same(&rt, "257 backends", &found, &Some(RingFault::TooMany));
}

/// Compares the number and the text of each fault.
fn compare_texts(
    rt: &impl Abort,
    alloc: Global,
    rows: &[(RingFault, u8, &str)],
) -> Result<(), Fail> {
    for (fault, number, text) in rows {
        same(rt, text, &fault.number(), number);
        prints(rt, alloc, fault, text)?;
    }
    Ok(())
}

#[test]
fn texts_and_numbers_of_faults(rt: HostRuntime) -> Result<(), Fail> {
    compare_texts(&rt, rt.alloc(), &FAULTS)
}

/// Holds a backend's share of the slots against its bounds.
fn has_share(rt: &impl Abort, ring: &Ring, number: u32, least: u32, most: u32) {
    let share = share_of(ring, number);
    holds_at(rt, "not too few slots:", u64::from(share), least <= share);
    holds_at(rt, "not too many slots:", u64::from(share), share <= most);
}

/// The same of each backend.
fn have_shares(rt: &impl Abort, ring: &Ring, backends: &[Backend], least: u32, most: u32) {
    for backend in backends {
        has_share(rt, ring, backend.number, least, most);
    }
}

/// A ring of 65537 slots, and the microseconds in which it was built.
fn timed(rt: &HostRuntime, backends: &[Backend]) -> Result<(Ring, u128), Fail> {
    let start = Instant::now(rt)?;
    let ring = Ring::build(rt.alloc(), backends, 65537)?;
    let time = start.elapsed(rt)?.as_micros();
    Ok((ring, time))
}

#[test]
fn shares_of_large_rings(rt: HostRuntime) -> Result<(), Fail> {
    for (count, least, most) in SHARES {
        let backends = hundreds(&rt, rt.alloc(), count);
        let (ring, time) = timed(&rt, &backends)?;
        let printed = println!(rt; "{count} backends on 65537 slots: {time} microseconds");
        printed.expect(&rt, "what is printed");
        have_shares(&rt, &ring, &backends, least, most);
    }
    Ok(())
}

/// Backends 0, 1 and so on, at 10.0.0.0 and the addresses after it.
fn hundreds(rt: &impl Abort, alloc: Global, count: u32) -> Vec<Backend> {
    let mut backends = Vec::new(alloc);
    for number in 0..count {
        let [_, high, middle, low] = number.to_be_bytes();
        let backend = Backend {
            number,
            address: Ipv4Address([10, high, middle, low]),
        };
        backends.push(backend).expect(rt, "room");
    }
    backends
}

/// How many slots the backend owns.
fn share_of(ring: &Ring, number: u32) -> u32 {
    let mut share = 0u32;
    for slot in 0..ring.size() {
        if ring.owner(slot) == number {
            share = share.saturating_add(1);
        }
    }
    share
}
