//! Words that say updates, and maps that take them.

use crate::asserting::{holds_of, same, same_text};
use ebpf_decode::{MapDef, MapKind};
use map_updates::{MapUpdate, Misfit, Mistake, first_misfit, misfit_of, update_of};
use semantics::{Key, Value};
use std::alloc::Global;
use std::process::Abort;

/// What a row shows, the words, and the update's map, key and value.
type Row = (
    &'static str,
    &'static str,
    &'static str,
    &'static str,
    u32,
    &'static [u8],
    &'static [u8],
);

#[rattlefmt::skip]
const ROWS: [Row; 5] = [
    ("small",                "0", "07", "00ff",             0,          &[7],          &[0, 255]),
    ("digits of both cases", "3", "aBcD", "Ef",             3,          &[0xab, 0xcd], &[0xef]),
    ("the greatest map",     "4294967295", "00", "00",      4294967295, &[0],          &[0]),
    ("a plus and zeros",     "+007", "00", "00",            7,          &[0],          &[0]),
    ("no bytes",             "1", "", "",                   1,          &[],           &[]),
];

/// Compares the update that the words of each row say.
fn are_said(rt: &impl Abort, alloc: Global, rows: &[Row]) {
    for (name, map, key, value, place, key_bytes, value_bytes) in rows {
        let found = update_of(alloc, map, key, value).expect(rt, "an update");
        holds_of(rt, name, "map", found.map == *place);
        holds_of(rt, name, "key", found.key.as_slice() == *key_bytes);
        holds_of(rt, name, "value", found.value.as_slice() == *value_bytes);
    }
}

#[test]
fn words_say_updates(rt: HostRuntime) {
    are_said(&rt, rt.alloc(), &ROWS);
}

#[rattlefmt::skip]
const MISTAKEN: [(&str, &str, &str, &str, Mistake); 9] = [
    ("no number",                  "x", "00", "00",            Mistake::Map),
    ("a number of 33 bits",        "4294967296", "00", "00",   Mistake::Map),
    ("a negative number",          "-1", "00", "00",           Mistake::Map),
    ("the map's mistake is first", "", "0", "0",               Mistake::Map),
    ("an odd digit of a key",      "0", "000", "00",           Mistake::Key),
    ("no digit of a key",          "0", "0g", "00",            Mistake::Key),
    ("a prefix",                   "0", "0x00", "00",          Mistake::Key),
    ("an odd digit of a value",    "0", "00", "0",             Mistake::Value),
    ("a space in a value",         "0", "00", "0 00",          Mistake::Value),
];

/// Compares what is wrong with the words of each row.
fn are_mistaken(rt: &impl Abort, alloc: Global, rows: &[(&str, &str, &str, &str, Mistake)]) {
    for (name, map, key, value, want) in rows {
        let found = update_of(alloc, map, key, value).err();
        same(rt, name, &found, &Some(*want));
    }
}

#[test]
fn words_are_mistaken(rt: HostRuntime) {
    are_mistaken(&rt, rt.alloc(), &MISTAKEN);
}

/// This many times two zeros.
fn zeros(rt: &impl Abort, alloc: Global, bytes: usize) -> String {
    let mut text = String::new(alloc);
    for _ in 0..bytes {
        text.push_str("00").expect(rt, "memory");
    }
    text
}

/// Bytes of a key and of a value, and what is said of them.
#[rattlefmt::skip]
const LENGTHS: [(&str, usize, usize, Option<Mistake>); 3] = [
    ("the longest",      32, 256, None),
    ("a key too long",   33, 0,   Some(Mistake::Key)),
    ("a value too long", 0,  257, Some(Mistake::Value)),
];

/// What is said of zeros of these numbers of bytes.
fn mistake_of(rt: &impl Abort, alloc: Global, key: usize, value: usize) -> Option<Mistake> {
    let key = zeros(rt, alloc, key);
    let value = zeros(rt, alloc, value);
    update_of(alloc, "0", &key, &value).err()
}

#[test]
fn keys_and_values_are_short(rt: HostRuntime) {
    for (name, key, value, want) in &LENGTHS {
        let found = mistake_of(&rt, rt.alloc(), *key, *value);
        same(&rt, name, &found, want);
    }
}

const fn map(kind: MapKind, key_size: u32, value_size: u32) -> MapDef {
    MapDef {
        kind,
        key_size,
        value_size,
        max_entries: 1,
    }
}

/// This many zeros.
fn update(map: u32, key: usize, value: usize) -> MapUpdate {
    let zeros = [0; 300];
    MapUpdate {
        map,
        key: Key::of(&zeros[..key.min(300)]).unwrap_or(Key::empty()),
        value: Value::of(&zeros[..value.min(300)]).unwrap_or(Value::empty()),
    }
}

#[rattlefmt::skip]
const FITS: [(u32, usize, usize, &str); 7] = [
    (0, 4, 8,   ""),
    (1, 16, 64, ""),
    (2, 4, 8,   "the image has no map 2"),
    (0, 3, 8,   "a key of map 0 has 4 bytes, not 3"),
    (0, 5, 9,   "a key of map 0 has 4 bytes, not 5"),
    (0, 4, 7,   "a value of map 0 has 8 bytes, not 7"),
    (1, 16, 65, "a value of map 1 has 64 bytes, not 65"),
];

/// The text of a misfit.
fn misfit_text(rt: &impl Abort, alloc: Global, misfit: Option<Misfit>) -> String {
    match misfit {
        Some(misfit) => misfit.text(alloc).expect(rt, "memory"),
        None => String::new(alloc),
    }
}

/// Compares the text of a misfit.
fn is_misfit_text(rt: &impl Abort, alloc: Global, misfit: Option<Misfit>, want: &str) {
    let text = misfit_text(rt, alloc, misfit);
    same_text(rt, want, &text, want);
}

#[test]
fn maps_take_updates(rt: HostRuntime) {
    let maps = [map(MapKind::Array, 4, 8), map(MapKind::LruHash, 16, 64)];
    for (place, key, value, want) in &FITS {
        let misfit = misfit_of(&maps, &update(*place, *key, *value));
        is_misfit_text(&rt, rt.alloc(), misfit, want);
    }
}

/// The first misfit of a hundred updates that fit and of these.
fn first_behind(rt: &impl Abort, alloc: Global, last: &[MapUpdate]) -> Option<(usize, Misfit)> {
    let mut updates = vec![in alloc; update(0, 4, 8); 100].expect(rt, "memory");
    updates.extend_from_slice(last).expect(rt, "memory");
    first_misfit(&[map(MapKind::Array, 4, 8)], &updates)
}

#[test]
fn the_first_misfit_is_found(rt: HostRuntime) {
    same(&rt, "all fit", &first_behind(&rt, rt.alloc(), &[]), &None);
    let last = [update(1, 4, 8), update(0, 0, 8)];
    let want = Some((100, Misfit::NoMap { map: 1 }));
    let found = first_behind(&rt, rt.alloc(), &last);
    same(&rt, "two misfits", &found, &want);
}
