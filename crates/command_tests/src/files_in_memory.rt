//! Folders, and readers and writers that fail.

ghost use Rattle.std.specs.Prelude.{◌≡◌, ◌-◌, ◌<◌, ◌^◌};

use crate::asserting::{holds_of, same_bytes_of};
use folders::{Folder, FolderFault, MemoryFolder};
use std::alloc::Global;
use std::process::Abort;

/// This many bytes; each is its place modulo 251.
fn counted<R: Abort>(rt: &R, alloc: Global, count: usize) -> Vec<u8> {
    let mut bytes = Vec::new(alloc);
    for place in 0..count {
        bytes.push((place % 251) as u8).expect(rt, "room");
    }
    bytes
}

/// What a row shows, how many bytes a file has, how many are asked for, and how many are given.
#[rattlefmt::skip]
const FRONTS: [(&str, usize, usize, usize); 9] = [
    ("nothing of nothing", 0, 0, 0),
    ("five of nothing", 0, 5, 0),
    ("nothing of five", 5, 0, 0),
    ("four of five", 5, 4, 4),
    ("five of five", 5, 5, 5),
    ("six of five", 5, 6, 5),
    ("4096 of 4097", 4097, 4096, 4096),
    ("65,536 of 65,537", 65_537, 65_536, 65_536),
    ("100,000 of 65,537", 65_537, 100_000, 65_537),
];

/// Holds the front of a file of this many bytes against its first ones.
fn compare_front<R: Abort>(
    rt: &R,
    alloc: Global,
    name: &str,
    count: usize,
    most: usize,
    given: usize,
) {
    let bytes = counted(rt, alloc, count);
    let mut folder = MemoryFolder::new(alloc);
    folder
        .write(alloc, "file", &bytes)
        .expect(rt, "a file in memory");
    let front = folder.read_front(alloc, "file", most).expect(rt, "a front");
    let wanted = counted(rt, alloc, given);
    holds_of(rt, name, "length", front.length == count as u64);
    same_bytes_of(rt, name, "front", &front.bytes, &wanted);
    holds_of(rt, name, "all", front.is_whole() == (given == count));
}

#[test]
fn memory_gives_fronts(rt: HostRuntime) {
    for row in &FRONTS {
        compare_front(&rt, rt.alloc(), row.0, row.1, row.2, row.3);
    }
}

#[test]
fn memory_has_no_other_file(rt: HostRuntime) {
    let alloc = rt.alloc();
    let name = "a file that is not there";
    let mut folder = MemoryFolder::new(alloc);
    let found = folder.read_front(alloc, "file", 4).map(|_| ());
    holds_of(&rt, name, "the fault", found == Err(FolderFault::Device));
    holds_of(&rt, name, "one failure", folder.failures() == 1);
    let complaint = folder.complaint(alloc, "file").expect(&rt, "a text");
    let wanted = b"cannot open file: there is no such file";
    same_bytes_of(&rt, name, "complaint", complaint.as_bytes(), wanted);
}
