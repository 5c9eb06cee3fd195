//! Parts of frames and numbers of commands, worked out elsewhere.

ghost use Rattle.std.specs.Prelude.{◌<◌};

use crate::{Loss, Part, numbers_in_part, part_behind, part_of};
use std::alloc::{AllocError, Global};
use std::test::Fail;
use wire::Sent;

/// A DNS query over UDP, from 10.0.0.1, port 39936, to 192.0.2.1.
static QUERY: [u8; 42] = [
    2, 0, 0, 0, 0, 2, 2, 0, 0, 0, 0, 1, 8, 0, 0x45, 0, 0, 28, 0, 0, 0, 0, 64, 17, 0, 0, 10, 0, 0,
    1, 192, 0, 2, 1, 0x9c, 0, 0, 53, 0, 8, 0, 0,
];

/// The last bytes of the source's address and port, how many parts there are, and the frame's part.
#[rattlefmt::skip]
static ROWS: [(u8, u8, u32, u32); 11] = [
    (1, 0,    1,   0),
    (1, 0,    2,   0),
    (1, 0,    3,   2),
    (1, 0,    4,   2),
    (1, 0, 1024, 830),
    (2, 0,    4,   0),
    (3, 0,    4,   2),
    (4, 0,    4,   1),
    (1, 1,    4,   2),
    (1, 2,    4,   3),
    (1, 1, 1024, 394),
];

/// The query from another address and port.
fn query(address: u8, port: u8) -> [u8; 42] {
    let mut frame = QUERY;
    frame[29] = address;
    frame[35] = port;
    frame
}

#[test]
fn parts_are_those_of_the_flows(rt: HostRuntime) {
    for (address, port, of, part) in &ROWS {
        if *of > 0 {
            assert_eq!(rt; part_of(&query(*address, *port), *of), *part);
        }
    }
}

#[test]
fn frames_without_a_flow_are_of_the_first_part(rt: HostRuntime) {
    let mut fragment = query(4, 0);
    fragment[21] = 1;
    assert_eq!(rt; part_of(&fragment, 4), 0);
    assert_eq!(rt; part_of(&[], 4), 0);
}

/// The same rows, each with the lost part, and the frame's part behind the loss.
#[rattlefmt::skip]
static LOST_ROWS: [(u8, u8, u32, u32, u32); 12] = [
    (1, 0,    2,   0,   1),
    (1, 0,    3,   2,   0),
    (2, 0,    3,   1,   0),
    (4, 0,    3,   1,   2),
    (3, 0,    3,   0,   1),
    (1, 0,    4,   2,   1),
    (2, 0,    4,   0,   2),
    (4, 0,    4,   1,   3),
    (1, 2,    4,   3,   1),
    (1, 0,    4,   3,   2),
    (1, 1, 1024, 394, 731),
    (1, 0, 1024, 830,  16),
];

#[test]
fn flows_of_a_lost_part_are_spread(rt: HostRuntime) {
    for (address, port, of, lost, part) in &LOST_ROWS {
        if *of > 1 {
            assert_eq!(rt; part_behind(&query(*address, *port), *of, *lost), *part);
        }
    }
}

#[test]
fn frames_without_a_flow_go_to_the_first_part_that_is_left(rt: HostRuntime) {
    assert_eq!(rt; part_behind(&[], 4, 0), 1);
    assert_eq!(rt; part_behind(&[], 4, 1), 0);
}

/// The queries of several addresses, one after the other.
fn queries(alloc: Global, addresses: &[u8]) -> Result<Vec<Sent>, AllocError> {
    let mut records = Vec::new(alloc);
    for address in addresses {
        records.push(Sent {
            seconds: 0,
            micros: 0,
            bytes: Vec::from_slice(alloc, &query(*address, 0))?,
        })?;
    }
    Ok(records)
}

/// A part of three.
fn part(number: u32) -> Part
    requires { number < 3 }
{
    Part {
        number,
        of: 3,
        lost: None,
    }
}

/// The same, where the second part is lost behind three records.
fn part_with_loss(number: u32) -> Part
    requires { number < 3 }
{
    let loss = Loss { part: 1, from: 3 };
    Part {
        number,
        of: 3,
        lost: Some(loss),
    }
}

#[test]
fn commands_come_before_the_same_records(rt: HostRuntime) -> Result<(), Fail> {
    let records = queries(rt.alloc(), &[1, 2, 3, 4, 5, 1, 2, 3])?;
    let frames = [0, 3, 3, 8, 100];
    let first = numbers_in_part(rt.alloc(), part(0), &records, &frames)?;
    let second = numbers_in_part(rt.alloc(), part(1), &records, &frames)?;
    let third = numbers_in_part(rt.alloc(), part(2), &records, &frames)?;
    assert!(rt; first.as_slice() == [0, 1, 1, 2, 2].as_slice());
    assert!(rt; second.as_slice() == [0, 1, 1, 4, 4].as_slice());
    assert!(rt; third.as_slice() == [0, 1, 1, 2, 2].as_slice());
    Ok(())
}

#[test]
fn commands_come_before_the_same_records_with_a_loss(rt: HostRuntime) -> Result<(), Fail> {
    let records = queries(rt.alloc(), &[1, 2, 3, 4, 5, 1, 2, 3])?;
    let frames = [0, 3, 3, 8, 100];
    let first = numbers_in_part(rt.alloc(), part_with_loss(0), &records, &frames)?;
    let second = numbers_in_part(rt.alloc(), part_with_loss(1), &records, &frames)?;
    let third = numbers_in_part(rt.alloc(), part_with_loss(2), &records, &frames)?;
    assert!(rt; first.as_slice() == [0, 1, 1, 3, 3].as_slice());
    assert!(rt; second.as_slice() == [0, 1, 1, 1, 1].as_slice());
    assert!(rt; third.as_slice() == [0, 1, 1, 4, 4].as_slice());
    Ok(())
}

#[test]
fn frames_of_a_lost_part_are_of_another_one_from_the_loss_on(rt: HostRuntime) {
    let frame = query(4, 0);
    assert!(rt; part_with_loss(1).has(2, &frame));
    assert!(rt; !part_with_loss(1).has(3, &frame));
    assert!(rt; !part_with_loss(2).has(2, &frame));
    assert!(rt; part_with_loss(2).has(3, &frame));
}
