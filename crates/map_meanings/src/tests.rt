//! Entries by the layouts of docs/STEERING.md, and what they mean.

use crate::form::ContentsForm;
use crate::tables::{Tables, backend_address, slot_word};
use std::alloc::Global;
use std::process::Abort;
use wire::Ipv4Address;

/// A table of 7 slots, of which the backends 0 and 3 have three each, and the eighth element of its map; the backends 1 and 2 have no record.
fn tables<R: Abort>(rt: &R, alloc: Global) -> Tables {
    let nowhere = Ipv4Address([0, 0, 0, 0]);
    let addresses = [
        Ipv4Address([192, 0, 2, 1]),
        nowhere,
        nowhere,
        Ipv4Address([192, 0, 2, 4]),
    ];
    Tables {
        words: Vec::from_slice(alloc, &[1, 4, 4, 0, 4, 1, 1, 0]).expect(rt, "words"),
        addresses: Vec::from_slice(alloc, &addresses).expect(rt, "addresses"),
    }
}

/// What a row shows; the map's place, key and value; the meaning as words, and as fields of JSON.
type Row = (
    &'static str,
    u32,
    &'static str,
    &'static str,
    &'static str,
    &'static str,
);

#[rattlefmt::skip]
static ROWS: [Row; 18] = [
    ("a service",                   0, "cb00710100501100", "0000000000000000", " vip 203.0.113.1 80 udp",
        ",\"means\":{\"service\":\"203.0.113.1\",\"port\":80,\"protocol\":\"udp\",\"tracked\":true}"),
    ("the lowest flag",             0, "cb007101ffff0600", "0300000000000000", " vip 203.0.113.1 65535 tcp notrack",
        ",\"means\":{\"service\":\"203.0.113.1\",\"port\":65535,\"protocol\":\"tcp\",\"tracked\":false}"),
    ("another protocol",            0, "cb0071010102ff00", "0200000000000000", " vip 203.0.113.1 258 255",
        ",\"means\":{\"service\":\"203.0.113.1\",\"port\":258,\"protocol\":\"255\",\"tracked\":true}"),
    ("a note",                      1, "c6336407cb0071010400005011000000", "0300000000000000",
        " flow 198.51.100.7 1024 203.0.113.1 80 udp backend 3 192.0.2.4",
        ",\"means\":{\"source\":\"198.51.100.7\",\"source_port\":1024,\
         \"destination\":\"203.0.113.1\",\"destination_port\":80,\"protocol\":\"udp\",\"backend\":3,\"address\":\"192.0.2.4\"}"),
    ("a note of no backend",        1, "0a00000100000000ffff000006000000", "2c01000000000000",
        " flow 10.0.0.1 65535 0.0.0.0 0 tcp backend 300 0.0.0.0",
        ",\"means\":{\"source\":\"10.0.0.1\",\"source_port\":65535,\
         \"destination\":\"0.0.0.0\",\"destination_port\":0,\"protocol\":\"tcp\",\"backend\":300,\"address\":\"0.0.0.0\"}"),
    ("a slot",                      2, "11000000", "0400000000000000", " slot 17 backend 3 192.0.2.4",
        ",\"means\":{\"slot\":17,\"backend\":3,\"address\":\"192.0.2.4\"}"),
    ("a slot of nobody",            2, "00010000", "0000000000000000", " slot 256 none",
        ",\"means\":{\"slot\":256,\"backend\":null,\"address\":null}"),
    ("a backend that is up",        3, "03000000", "c000020401000000", " backend 3 192.0.2.4 up slots 3",
        ",\"means\":{\"backend\":3,\"address\":\"192.0.2.4\",\"up\":true,\"slots\":3}"),
    ("another state is down",       3, "00000000", "c000020102000000", " backend 0 192.0.2.1 down slots 3",
        ",\"means\":{\"backend\":0,\"address\":\"192.0.2.1\",\"up\":false,\"slots\":3}"),
    ("no backend",                  3, "ff000000", "0000000000000000", " backend 255 0.0.0.0 down slots 0",
        ",\"means\":{\"backend\":255,\"address\":\"0.0.0.0\",\"up\":false,\"slots\":0}"),
    ("the tunnel",                  4, "00000000", "0a00000902000000000a0200000000ff0100000000000000",
        " gateway 10.0.0.9 02:00:00:00:00:0a 02:00:00:00:00:ff ready",
        ",\"means\":{\"source\":\"10.0.0.9\",\"source_mac\":\"02:00:00:00:00:0a\",\"destination_mac\":\"02:00:00:00:00:ff\",\"ready\":true}"),
    ("no tunnel",                   4, "00000000", "000000000000000000000000000000000000000000000000",
        " gateway 0.0.0.0 00:00:00:00:00:00 00:00:00:00:00:00 not-ready",
        ",\"means\":{\"source\":\"0.0.0.0\",\"source_mac\":\"00:00:00:00:00:00\",\"destination_mac\":\"00:00:00:00:00:00\",\"ready\":false}"),
    ("an element that is not used", 4, "01000000", "000000000000000000000000000000000000000000000000", "", ""),
    ("a count",                     5, "03000000", "0a01000000000000", " verdict TX frames 266",
        ",\"means\":{\"verdict\":\"TX\",\"frames\":266}"),
    ("the largest count",           5, "00000000", "ffffffffffffffff", " verdict ABORTED frames 18446744073709551615",
        ",\"means\":{\"verdict\":\"ABORTED\",\"frames\":18446744073709551615}"),
    ("a count of no verdict",       5, "04000000", "0100000000000000", "", ""),
    ("of another length",           5, "0300",     "01",               " verdict ABORTED frames 0",
        ",\"means\":{\"verdict\":\"ABORTED\",\"frames\":0}"),
    ("another map",                 6, "00000000", "0000000000000000", "", ""),
];

/// Holds the meaning of an entry against what is wanted.
fn compare<R: Abort>(
    rt: &R,
    alloc: Global,
    tables: &Tables,
    row: &Row,
    form: ContentsForm,
    wanted: &str,
) {
    let (name, map, key, value, ..) = *row;
    let key = hex::decode(alloc, key).expect(rt, "a key");
    let value = hex::decode(alloc, value).expect(rt, "a value");
    let told = tables
        .entry_meaning(alloc, form, map, &key, &value)
        .expect(rt, "a meaning");
    assert_eq!(rt; told.as_str(), wanted, "{name}");
}

#[test]
fn entries_mean(rt: HostRuntime) {
    let tables = tables(&rt, rt.alloc());
    for row in &ROWS {
        compare(&rt, rt.alloc(), &tables, row, ContentsForm::Words, row.4);
        compare(&rt, rt.alloc(), &tables, row, ContentsForm::Json, row.5);
    }
}

/// All slots of the largest table are the last backend's.
#[test]
fn the_largest_table_has_one_owner(rt: HostRuntime) {
    let alloc = rt.alloc();
    let tables = Tables {
        words: vec![in alloc; 256u32; 65_537].expect(&rt, "words"),
        addresses: Vec::new(alloc),
    };
    let row = (
        "the largest",
        3,
        "ff000000",
        "cb0071ff01000000",
        " backend 255 203.0.113.255 up slots 65537",
        "",
    );
    compare(&rt, alloc, &tables, &row, ContentsForm::Words, row.4);
}

#[test]
fn records_are_read(rt: HostRuntime) {
    assert_eq!(&rt; slot_word(&[1, 2, 0, 0, 9, 9, 9, 9]), 513);
    assert_eq!(&rt; slot_word(&[1, 2, 0, 0]), 0);
    assert_eq!(&rt;
        backend_address(&[192, 0, 2, 1, 1, 0, 0, 0]).0,
        [192, 0, 2, 1]
    );
}
