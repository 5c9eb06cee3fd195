//! Addresses in values that a program of version 2 names itself, worked out by hand.

use super::asking::{REPLIES, asks_of_arrays, ended};
use super::listing::EXIT;
use super::scripted::{Asked, Replies};
use ebpf_decode::{Insn, MapDef, MapKind};
use isa::Register::{R0, R1, R2, R3, R4, R5, R6, R10};
use isa::{AluOp, Size, SourceOperand, Test};
use machine::Stop;
use semantics::Verdict;
use test_support::{add, alu, jump, load, mov, number, put, store};

/// Arrays of values of 256 bytes.
const WIDE: [MapDef; 2] = [MapDef {
    kind: MapKind::Array,
    key_size: 4,
    value_size: 256,
    max_entries: 1,
}; 2];

#[rattlefmt::skip]
static PLACES: [(&str, u32, i16, u64); 5] = [
    ("the first byte",              0,   0,   0),
    ("by both offsets",             8,   3,  11),
    ("the last byte",             255,   0, 255),
    ("one back from the end",     256,  -1, 255),
    ("the start again",           256, -256,  0),
];

/// The address is the cell that the lookup found, and the offset.
#[test]
fn stores_at_an_address(rt: HostRuntime) {
    for &(name, offset, distance, place) in &PLACES {
        let head = [Insn::Ldval {
            dst: R6,
            map: 0,
            offset,
        }];
        let tail = [store!(Size::U8, R6, distance, 5), number!(R0, 3), EXIT];
        let asked = Asked::Store {
            handle: 1,
            offset: place,
            size: 1,
            value: 5,
        };
        let want = ended(Verdict::Tx, 4);
        asks_of_arrays(
            &rt,
            rt.alloc(),
            &WIDE,
            REPLIES,
            &head,
            &tail,
            want,
            asked,
            name,
        );
    }
}

/// The address of a value in R6, and a packet of at least 14 bytes.
const ADDRESS_AND_PACKET: [Insn; 7] = [
    Insn::Ldval {
        dst: R6,
        map: 0,
        offset: 0,
    },
    load!(Size::U32, R2, R1, 0),
    load!(Size::U32, R3, R1, 4),
    mov!(R4, R2),
    add!(R4, 14),
    number!(R0, 2),
    jump!(Test::Gt, R4, SourceOperand::Reg(R3), 4),
];

const AS_FAR_AS_IT_SAYS: [Insn; 5] = [
    load!(Size::U8, R5, R2, 13),
    alu!(AluOp::Add, R6, SourceOperand::Reg(R5)),
    store!(Size::U8, R6, 0, 3),
    number!(R0, 3),
    EXIT,
];

/// A byte of the packet says how far on: the address keeps its cell.
#[test]
fn stores_as_far_as_the_packet_says(rt: HostRuntime) {
    let asked = Asked::Store {
        handle: 1,
        offset: 0xaa,
        size: 1,
        value: 3,
    };
    let want = ended(Verdict::Tx, 12);
    asks_of_arrays(
        &rt,
        rt.alloc(),
        &WIDE,
        REPLIES,
        &ADDRESS_AND_PACKET,
        &AS_FAR_AS_IT_SAYS,
        want,
        asked,
        "byte 13",
    );
}

/// The address is the same after it was spilled.
#[test]
fn a_spilled_address(rt: HostRuntime) {
    let head = [
        Insn::Ldval {
            dst: R6,
            map: 0,
            offset: 24,
        },
        put!(Size::U64, R10, -8, R6),
        load!(Size::U64, R5, R10, -8),
    ];
    let tail = [store!(Size::U32, R5, 4, 9), number!(R0, 1), EXIT];
    let asked = Asked::Store {
        handle: 1,
        offset: 28,
        size: 4,
        value: 9,
    };
    let want = ended(Verdict::Drop, 6);
    asks_of_arrays(
        &rt,
        rt.alloc(),
        &WIDE,
        REPLIES,
        &head,
        &tail,
        want,
        asked,
        "28 bytes in",
    );
}

#[rattlefmt::skip]
static REFUSALS: [(&str, i32, u32, u32); 2] = [
    ("the port has no room",       0, 0, 0),
    ("the second map is refused",  1, 9, 1),
];

/// A refused lookup stops the run, and names the first shard of the map.
#[test]
fn refused_addresses(rt: HostRuntime) {
    for &(name, map, before_refusal, shard) in &REFUSALS {
        let head = [
            store!(Size::U8, R10, -1, 1),
            Insn::Ldval {
                dst: R6,
                map,
                offset: 0,
            },
        ];
        let tail = [store!(Size::U8, R6, 0, 5), number!(R0, 3), EXIT];
        let replies = Replies {
            before_refusal,
            ..REPLIES
        };
        let want = Err(Stop::JournalFull { shard });
        asks_of_arrays(
            &rt,
            rt.alloc(),
            &WIDE,
            replies,
            &head,
            &tail,
            want,
            Asked::Nothing,
            name,
        );
    }
}
