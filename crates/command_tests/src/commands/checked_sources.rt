//! Sources that are judged as they are.

use super::{Wanted, compare, put, refused};
use folders::MemoryFolder;
use std::alloc::Global;
use std::process::Abort;
use std::sync::Wait;
use std::thread::Threads;

/// What a row shows, the file, and what is printed on the error stream.
type Row = (&'static str, &'static [u8], &'static str);

#[rattlefmt::skip]
const REFUSED: [Row; 17] = [
    ("behind a label", b"version 1\n  mov r0, 0\nmiss: # no key\n\n  mov r0, r3\n  exit\n",
        "fault 35 UnsetRegister slot 1 register 3\n  line 5, after label \"miss\"\n"),
    ("before any label", b"# nothing is set\n\nversion 1\nmov r0, r3\nexit\n", "fault 35 UnsetRegister slot 0 register 3\n  line 4\n"),
    ("a jump to an earlier line", b"version 1\nmov r0, 2\nagain: ja again\nexit\n",
        "fault 30 JumpBackward slot 1\n  line 3, after label \"again\"\n"),
    ("a bad line", b"# twelve\nversion 1\nmov r12, 0\nexit\n", "fault 21 BadLine line 3\n  \"r12\": expected a register, r0 to r10\n"),
    ("a word in upper case", b"version 1\nMOV r0, 2\nexit\n", "fault 21 BadLine line 2\n  \"MOV\": in upper case: expected mov\n"),
    ("a register in upper case", b"version 1\nmov R0, 2\nexit\n", "fault 21 BadLine line 2\n  \"R0\": expected r0, in lower case\n"),
    ("a move of 64 bits by its size", b"version 1\nmov64 r0, 2\nexit\n",
        "fault 21 BadLine line 2\n  \"mov64\": no such instruction: mov works on 64 bits\n"),
    ("a missing comma", b"version 1\nmov r0 2\nexit\n", "fault 21 BadLine line 2\n  \"r0 2\": a comma is missing between two operands\n"),
    ("a missing comma before a label", b"version 1\njeq r1, r2 out\nout: exit\n",
        "fault 21 BadLine line 2\n  \"r2 out\": a comma is missing between two operands\n"),
    ("a comment of another form", b"version 1\nmov r0, 2 ; note: pass\nexit\n",
        "fault 21 BadLine line 2\n  \";\": a comment begins with #\n"),
    ("and of a third one", b"version 1\n// pass\nmov r0, 2\nexit\n", "fault 21 BadLine line 2\n  \"//\": a comment begins with #\n"),
    ("a jump of another language", b"version 1\ngoto out\nexit\n",
        "fault 21 BadLine line 2\n  \"goto\": no such instruction: ja LABEL jumps, and jeq r1, 5, LABEL jumps if r1 is 5\n"),
    ("a place with a missing comma behind it", b"version 1\nstxdw [r10-8] r1\nexit\n",
        "fault 21 BadLine line 2\n  \"[r10-8] r1\": a comma is missing between two operands\n"),
    ("a letter in Latin-1", b"version 1\nmov r0, 2 # caf\xe9\nexit\n", "fault 21 BadLine line 2\n"),
    ("a map's size", b"version 1\nmap lru 4 4 1024\nmov r0, 2\nexit\n",
        "fault 22 Image decode 11\n  line 2, map 0: its values have 4 bytes\n  expected a multiple of 8 from 8 to 64 (to 256 in version 2)\n"),
    ("no first line", b"mov r0, 2\nexit\n",
        "fault 10 BadHead\n  the file is a text\n  expected an image, which begins with 58 4c 42 50 (XLBP)\n  \
         an image is made of a text with xlb asm --source TEXT IMAGE; a text begins with version 1 or version 2\n"),
    ("an image whose slot is unset", b"XLBP\x01\0\0\0\xbf\x30\0\0\0\0\0\0\x95\0\0\0\0\0\0\0", "fault 35 UnsetRegister slot 0 register 3\n"),
];

/// Holds what is printed of a file that is refused against what is to be printed.
fn compare_refused<R: Abort + Threads + Wait + Sync>(rt: &R, alloc: Global, row: &Row) {
    let (name, bytes, err) = *row;
    let folder = put(rt, alloc, MemoryFolder::new(alloc), "source", bytes);
    compare(rt, alloc, name, folder, "xlb check source", refused(err));
}

#[test]
fn refuses_sources(rt: HostRuntime) {
    for row in &REFUSED {
        compare_refused(&rt, rt.alloc(), row);
    }
}

/// Holds what is printed of a source against what is to be printed.
fn compare_accepted<R: Abort + Threads + Wait + Sync>(
    rt: &R,
    alloc: Global,
    name: &str,
    bytes: &[u8],
    out: &str,
) {
    let folder = put(rt, alloc, MemoryFolder::new(alloc), "source", bytes);
    let wanted = Wanted {
        status: 0,
        out,
        err: "",
    };
    compare(rt, alloc, name, folder, "xlb check source", wanted);
}

#[test]
fn accepts_a_source(rt: HostRuntime) {
    let source = b"# passes all\n\nversion 1\nmov r0, 0x2\nja out\nout: exit\n";
    let line = "accepted slots 3 maps 0 reader yes\n";
    compare_accepted(&rt, rt.alloc(), "a source", source, line);
}

/// A source with a comment of more bytes than the longest image has.
fn long_source<R: Abort>(rt: &R, alloc: Global) -> String {
    let mut source = String::from_str(alloc, "version 1\n").expect(rt, "a line");
    for _ in 0..1000 {
        source
            .push_str("# a comment of forty bytes, with its feed\n")
            .expect(rt, "a comment");
    }
    source.push_str("mov r0, 2\nexit\n").expect(rt, "two lines");
    source
}

#[test]
fn accepts_a_long_source(rt: HostRuntime) {
    let alloc = rt.alloc();
    let source = long_source(&rt, alloc);
    let line = "accepted slots 2 maps 0 reader yes\n";
    compare_accepted(&rt, alloc, "a long source", source.as_bytes(), line);
}
