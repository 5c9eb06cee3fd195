//! The first image, from its bytes to a verdict.

use super::{Wanted, compare, put_digits};
use folders::MemoryFolder;
use std::alloc::Global;
use std::process::Abort;
use std::sync::Wait;
use std::thread::Threads;

/// The image that checks 14 bytes, reads byte 13, looks element 0 up and exits with the sum.
pub const IMAGE: &str = "\
    584c42500101000002000000040000000800000001000000\
    61120000000000006113040000000000bf24000000000000070400000e000000\
    b7000000020000002d340b000000000071260d0000000000620afcff00000000\
    bfa200000000000007020000fcffffff18110000000000000000000000000000\
    8500000001000000150003000000000079070000000000000f76000000000000\
    bf600000000000009500000000000000";

/// A name, the frame's file, the command line, the status, and what is printed on the output and on the error stream.
type Row = (
    &'static str,
    &'static str,
    &'static str,
    u8,
    &'static str,
    &'static str,
);

#[rattlefmt::skip]
const ROWS: [Row; 16] = [
    ("at a time, on a worker", "0000000000000000000000000003", "xlb run image frame --now 18446744073709551615 --worker 7", 0,
        "verdict tx\ninstructions 17\nframe 0000000000000000000000000003\n", ""),
    ("a frame of letters", "61616161616161616161616161610a", "xlb run image frame", 0,
        "verdict aborted\ninstructions 17\nframe 61616161616161616161616161610a\n",
        "  FRAME: the file has hexadecimal digits in place of bytes\n  its 15 letters were run as the bytes of the frame\n  \
         xxd -r -p FRAME NEW makes bytes of hexadecimal digits\n"),
    ("a text", "7477656c766520776f7264730a0a", "xlb run image frame", 0,
        "verdict aborted\ninstructions 17\nframe 7477656c766520776f7264730a0a\n",
        "  FRAME: the file is a text\n  its 14 letters were run as the bytes of the frame\n"),
    ("13 bytes are no frame", "00000000000000000000000003", "xlb run image frame", 1, "",
        "fault 9 ShortFrame\n  the file has 13 bytes\n  expected the bytes of one Ethernet frame, 14 to 2048 of them\n"),
    ("an empty frame", "", "xlb run image frame", 1, "",
        "fault 9 ShortFrame\n  the file has 0 bytes\n  expected the bytes of one Ethernet frame, 14 to 2048 of them\n"),
    ("worker 8", "0000000000000000000000000003", "xlb run image frame --worker 8", 1, "",
        "fault 51 BadOptions\n  --worker 8\n  expected 0 to 7\n"),
    ("worker 9", "0000000000000000000000000003", "xlb run image frame --worker 9", 1, "",
        "fault 51 BadOptions\n  --worker 9\n  expected 0 to 7\n"),
    ("the frame before worker 9", "00000000000000000000000003", "xlb run image frame --worker 9", 1, "",
        "fault 9 ShortFrame\n  the file has 13 bytes\n  expected the bytes of one Ethernet frame, 14 to 2048 of them\n"),
    ("no frame before worker 9", "0000000000000000000000000003", "xlb run image nosuch --worker 9", 1, "",
        "fault 7 Device\n  cannot open nosuch: there is no such file\n"),
    ("the image before worker 9", "0000000000000000000000000003", "xlb run nosuch frame --worker 9", 1, "",
        "fault 7 Device\n  cannot open nosuch: there is no such file\n"),
    ("an image of a frame", "0000000000000000000000000003", "xlb run frame frame", 1, "",
        "fault 10 BadHead\n  the file begins with the bytes 00 00 00 00 00 00 00 00\n  expected an image, which begins with 58 4c 42 50 (XLBP)\n"),
    ("no frame", "0000000000000000000000000003", "xlb run image nosuch", 1, "",
        "fault 7 Device\n  cannot open nosuch: there is no such file\n"),
    ("no image", "0000000000000000000000000003", "xlb run nosuch frame", 1, "",
        "fault 7 Device\n  cannot open nosuch: there is no such file\n"),
    ("no image to check",         "", "xlb check nosuch", 1, "", "fault 7 Device\n  cannot open nosuch: there is no such file\n"),
    ("no image to print",         "", "xlb disasm nosuch", 1, "", "fault 7 Device\n  cannot open nosuch: there is no such file\n"),
    ("no text to assemble",       "", "xlb asm nosuch made", 1, "", "fault 7 Device\n  cannot open nosuch: there is no such file\n"),
];

/// Holds what a command over an image and a frame comes to against what is wanted.
pub fn over_image<R: Abort + Threads + Wait + Sync>(
    rt: &R,
    alloc: Global,
    name: &str,
    image: &str,
    frame: &str,
    line: &str,
    wanted: Wanted<'_>,
) {
    let folder = put_digits(rt, alloc, MemoryFolder::new(alloc), "image", image);
    let folder = put_digits(rt, alloc, folder, "frame", frame);
    compare(rt, alloc, name, folder, line, wanted);
}

/// Each row over the first image.
fn compare_rows<R: Abort + Threads + Wait + Sync>(rt: &R, alloc: Global, rows: &[Row]) {
    for row in rows {
        let (name, frame, line, status, out, err) = *row;
        let wanted = Wanted { status, out, err };
        over_image(rt, alloc, name, IMAGE, frame, line, wanted);
    }
}

#[test]
fn runs_of_the_first_image(rt: HostRuntime) {
    compare_rows(&rt, rt.alloc(), &ROWS);
}
