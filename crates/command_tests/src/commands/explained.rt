//! Checks that say why.

use super::{Wanted, compare_begins, with_image};
use folders::MemoryFolder;
use std::alloc::Global;
use std::process::Abort;
use std::sync::Wait;
use std::thread::Threads;

/// A program, the status, and what the output and the error stream begin with.
type Row = (&'static str, u8, &'static str, &'static str);

#[rattlefmt::skip]
const ROWS: [Row; 3] = [
    ("version 1\nldxw r2, [r1+0]\nldxb r0, [r2+13]\nexit\n", 1, "",
        "fault 37 PacketBounds slot 1\n  slot 1: ldxb r0, [r2+13]\n  r2: packet +0, 0 bytes known\n  \
         needs 14 bytes from the packet's start: no comparison with the packet's end shows, on every path to here, that the packet reaches so \
         far\n"),
    ("version 1\nmov r0, 2\nja -1\nexit\n", 1, "", "fault 30 JumpBackward slot 1\n  slot 1: ja -1\n  the jump goes back"),
    ("version 1\nmov r0, 2\nexit\n", 0,
        "accepted slots 2 maps 0 reader yes\n  slot 0: mov r0, 2\n    known: r1 context; r10 stack r10-0;\n  slot 1: exit\n", ""),
];

/// Holds why a row's program is refused, or accepted, against the row.
fn compare_row<R: Abort + Threads + Wait + Sync>(rt: &R, alloc: Global, row: &Row) {
    let (text, status, out, err) = *row;
    let folder = with_image(rt, alloc, text, MemoryFolder::new(alloc), text);
    let wanted = Wanted { status, out, err };
    compare_begins(rt, alloc, text, folder, "xlb check --explain image", wanted);
}

#[test]
fn tells_why(rt: HostRuntime) {
    for row in &ROWS {
        compare_row(&rt, rt.alloc(), row);
    }
}
