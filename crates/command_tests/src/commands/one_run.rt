//! Programs run, each from its text.

use super::first_path::IMAGE;
use super::{Wanted, compare, over_text, put, put_digits, refused};
use folders::MemoryFolder;
use std::alloc::Global;
use std::process::Abort;
use std::sync::Wait;
use std::thread::Threads;

/// What a row shows, the text, the frame, the command line, and what is printed.
type Row = (
    &'static str,
    &'static str,
    &'static str,
    &'static str,
    &'static str,
);

#[rattlefmt::skip]
const ROWS: [Row; 13] = [
    ("no time is time 0", "version 1\ncall 5\nexit\n", "0000000000000000000000000000", "xlb run image frame",
        "verdict aborted\ninstructions 2\nframe 0000000000000000000000000000\n"),
    ("the receive queue is the worker", "version 1\nldxw r0, [r1+16]\nexit\n", "0000000000000000000000000000",
        "xlb run image frame --worker 3", "verdict tx\ninstructions 2\nframe 0000000000000000000000000000\n"),
    ("0 is aborted", "version 1\nmov r0, 0\nexit\n", "0000000000000000000000000000", "xlb run image frame",
        "verdict aborted\ninstructions 2\nframe 0000000000000000000000000000\n"),
    ("4 is aborted", "version 1\nmov r0, 4\nexit\n", "0000000000000000000000000000", "xlb run image frame",
        "verdict aborted\ninstructions 2\nframe 0000000000000000000000000000\n"),
    ("-1 is aborted", "version 1\nmov r0, -1\nexit\n", "0000000000000000000000000000", "xlb run image frame",
        "verdict aborted\ninstructions 2\nframe 0000000000000000000000000000\n"),
    ("low 32 bits, a wide instruction once", "version 1\nlddw r0, 0x0000000100000001\nexit\n", "0000000000000000000000000000",
        "xlb run image frame", "verdict drop\ninstructions 2\nframe 0000000000000000000000000000\n"),
    ("7 by 0 is 0", "version 1\nmov r0, 7\nmov r1, 0\ndiv r0, r1\nadd r0, 2\nexit\n", "0000000000000000000000000000", "xlb run image frame",
        "verdict pass\ninstructions 5\nframe 0000000000000000000000000000\n"),
    ("big endian", "version 1\nmov r0, 768\nbe16 r0\nexit\n", "0000000000000000000000000000", "xlb run image frame",
        "verdict tx\ninstructions 3\nframe 0000000000000000000000000000\n"),
    ("a 32-bit shift", "version 1\nmov32 r0, -1\nrsh32 r0, 30\nexit\n", "0000000000000000000000000000", "xlb run image frame",
        "verdict tx\ninstructions 3\nframe 0000000000000000000000000000\n"),
    ("the stack", "version 1\nstdw [r10-8], 3\nldxdw r0, [r10-8]\nexit\n", "0000000000000000000000000000", "xlb run image frame",
        "verdict tx\ninstructions 3\nframe 0000000000000000000000000000\n"),
    ("a key of a hash map is put and found",
        "version 1\nmap hash 4 8 2\nstw [r10-4], 7\nstdw [r10-16], 3\nldmap r1, 0\nmov r2, r10\nadd r2, -4\nmov r3, r10\nadd r3, -16\nmov r4, 0\n\
         call 2\nldmap r1, 0\nmov r2, r10\nadd r2, -4\ncall 1\njeq r0, 0, +1\nldxdw r0, [r0+0]\nexit\n", "0000000000000000000000000000",
        "xlb run image frame", "verdict tx\ninstructions 16\nframe 0000000000000000000000000000\n"),
    ("a key of an LRU map is put and found",
        "version 1\nmap lru 4 8 2\nstw [r10-4], 7\nstdw [r10-16], 3\nldmap r1, 0\nmov r2, r10\nadd r2, -4\nmov r3, r10\nadd r3, -16\nmov r4, 0\n\
         call 2\nldmap r1, 0\nmov r2, r10\nadd r2, -4\ncall 1\njeq r0, 0, +1\nldxdw r0, [r0+0]\nexit\n", "0000000000000000000000000000",
        "xlb run image frame", "verdict tx\ninstructions 16\nframe 0000000000000000000000000000\n"),
    ("a number is added to an element",
        "version 1\nmap array 4 8 1\nstw [r10-4], 0\nmov r2, r10\nadd r2, -4\nldmap r1, 0\ncall 1\njeq r0, 0, +3\nmov r1, 2\naadddw [r0+0], r1\n\
         ldxdw r0, [r0+0]\nexit\n", "0000000000000000000000000000", "xlb run image frame",
        "verdict pass\ninstructions 10\nframe 0000000000000000000000000000\n"),
];

/// A row's program, run over its frame.
fn compare_row<R: Abort + Threads + Wait + Sync>(rt: &R, alloc: Global, row: &Row) {
    let (name, text, digits, line, out) = *row;
    let frame = hex::decode(alloc, digits).expect(rt, "a frame");
    let wanted = Wanted {
        status: 0,
        out,
        err: "",
    };
    over_text(rt, alloc, name, text, ("frame", &frame), line, wanted);
}

/// Each row's program, run.
fn compare_rows<R: Abort + Threads + Wait + Sync>(rt: &R, alloc: Global, rows: &[Row]) {
    for row in rows {
        compare_row(rt, alloc, row);
    }
}

#[test]
fn runs_programs(rt: HostRuntime) {
    compare_rows(&rt, rt.alloc(), &ROWS);
}

/// This many times `mov r0, 1`, and the end.
fn long_text<R: Abort>(rt: &R, alloc: Global, count: u32) -> String {
    let mut text = String::from_str(alloc, "version 1\n").expect(rt, "a line");
    for _ in 0..count {
        text.push_str("mov r0, 1\n").expect(rt, "a line");
    }
    text.push_str("exit\n").expect(rt, "a line");
    text
}

#[test]
fn refuses_4097_instructions(rt: HostRuntime) {
    let alloc = rt.alloc();
    let text = long_text(&rt, alloc, 4096);
    let folder = put(
        &rt,
        alloc,
        MemoryFolder::new(alloc),
        "text",
        text.as_bytes(),
    );
    let wanted = refused(
        "fault 22 Image decode 14\n  line 4098: an image has at most 4096 slots\n",
    );
    compare(
        &rt,
        alloc,
        "4097 slots",
        folder,
        "xlb asm text image",
        wanted,
    );
}

/// Holds what a run of the first image over this many zeros comes to against what is wanted.
fn compare_size<R: Abort + Threads + Wait + Sync>(
    rt: &R,
    alloc: Global,
    name: &str,
    size: usize,
    wanted: Wanted<'_>,
) {
    let folder = put_digits(rt, alloc, MemoryFolder::new(alloc), "image", IMAGE);
    let frame: Vec<u8> = vec![in alloc; 0; size].expect(rt, "a frame");
    let folder = put(rt, alloc, folder, "frame", &frame);
    compare(rt, alloc, name, folder, "xlb run image frame", wanted);
}

/// What a run of the first image over this many zeros prints.
fn ran_over<R: Abort>(rt: &R, alloc: Global, size: u32) -> String {
    let mut text = String::from_str(alloc, "verdict aborted\ninstructions 17\nframe ").expect(
        rt,
        "two lines",
    );
    for _ in 0..size {
        text.push_str("00").expect(rt, "two digits");
    }
    text.push_str("\n").expect(rt, "a line feed");
    text
}

#[test]
fn takes_2048_bytes(rt: HostRuntime) {
    let out = ran_over(&rt, rt.alloc(), 2048);
    let wanted = Wanted {
        status: 0,
        out: out.as_str(),
        err: "",
    };
    compare_size(&rt, rt.alloc(), "2048 bytes", 2048, wanted);
}

#[test]
fn refuses_2049_bytes(rt: HostRuntime) {
    let wanted = refused(
        "fault 6 FrameTooLong\n  the file has more than 2048 bytes\n  expected the bytes of one Ethernet frame, 14 to 2048 of them\n",
    );
    compare_size(&rt, rt.alloc(), "2049 bytes", 2049, wanted);
}
