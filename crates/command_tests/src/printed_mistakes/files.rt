//! Files of another kind than the one that was wanted.

use crate::asserting::same_text;
use mistakes::{about_capture, about_frame, about_image, about_map, about_text_as_frame};
use std::alloc::Global;
use std::process::Abort;

/// What a row shows, the file, and what is said.
type Row = (&'static str, &'static [u8], &'static str);

#[rattlefmt::skip]
const IMAGES: [Row; 17] = [
    ("no bytes", b"", "  the file is empty\n  expected an image, which begins with 58 4c 42 50 (XLBP)\n"),
    ("an object of a compiler", b"\x7fELF\x02\x01\x01\x00",
        "  the file is an ELF object, as compilers write it\n  expected an image, which begins with 58 4c 42 50 (XLBP)\n  \
         xlb runs images of its own format: write the program as a source (docs/FORMATS.md), and make an image of it with xlb asm --source \
         SOURCE IMAGE\n"),
    ("a capture", b"\xd4\xc3\xb2\xa1\x02\x00\x04\x00",
        "  the file is a capture\n  expected an image, which begins with 58 4c 42 50 (XLBP)\n  \
         are two names on the command line swapped?\n"),
    ("a newer capture", b"\x0a\x0d\x0d\x0a\x1c\x00\x00\x00",
        "  the file is a pcapng capture\n  expected an image, which begins with 58 4c 42 50 (XLBP)\n  \
         are two names on the command line swapped?\n"),
    ("a text of an image", b"version 2\nexit\n",
        "  the file is the text of an image\n  expected an image, which begins with 58 4c 42 50 (XLBP)\n  \
         make an image of it with xlb asm TEXT IMAGE, or, where it has comments or labels, with xlb asm --source TEXT IMAGE\n"),
    ("a text with a comment first", b"# drops all\nversion 2\n",
        "  the file is a text\n  expected an image, which begins with 58 4c 42 50 (XLBP)\n  \
         an image is made of a text with xlb asm --source TEXT IMAGE; a text begins with version 1 or version 2\n"),
    ("a script", b"0 down 3\n",
        "  the file is a script of commands\n  expected an image, which begins with 58 4c 42 50 (XLBP)\n  \
         are two names on the command line swapped?\n"),
    ("journals", b"XLBJ 1 2 1 65536\n",
        "  the file has journals\n  expected an image, which begins with 58 4c 42 50 (XLBP)\n  \
         are two names on the command line swapped?\n"),
    ("a frame", b"\x02\x00\x00\x00\x00\x01\x02\x00\x00\x00\x00\x02\x08\x00\x45\x00",
        "  the file is an Ethernet frame\n  expected an image, which begins with 58 4c 42 50 (XLBP)\n  \
         are two names on the command line swapped?\n"),
    ("a packed file", b"\x1f\x8b\x08\x00",
        "  the file is compressed with gzip\n  expected an image, which begins with 58 4c 42 50 (XLBP)\n  unpack it first: gzip -d FILE\n"),
    ("anything", b"\x00\x01\x02\xff\x10\x11\x12\x13\x14",
        "  the file begins with the bytes 00 01 02 ff 10 11 12 13\n  expected an image, which begins with 58 4c 42 50 (XLBP)\n"),
    ("a source behind a byte order mark", b"\xef\xbb\xbfversion 1\n",
        "  the file begins with the bytes ef bb bf 76 65 72 73 69\n  expected an image, which begins with 58 4c 42 50 (XLBP)\n  \
         the bytes ef bb bf are a byte order mark: tail -c +4 FILE > NEW takes it away from a source\n"),
    ("a cut head", b"XLBP\x01", "  the file ends after 5 bytes, within its head of 8 bytes\n"),
    ("version 3", b"XLBP\x03\x00\x00\x00", "  byte 4, the version, is 3: expected 1 or 2\n"),
    ("17 maps", b"XLBP\x01\x11\x00\x00", "  byte 5, the number of maps, is 17: expected 0 to 16\n"),
    ("a byte that is not zero", b"XLBP\x01\x00\x00\x01", "  bytes 6 and 7 are not zero\n"),
    ("a cut list", b"XLBP\x01\x02\x00\x00\x01\x00\x00\x00\x04\x00\x00\x00",
        "  the file ends after 16 bytes, within its list of 2 maps: the list ends at byte 40\n"),
];

#[rattlefmt::skip]
const CAPTURES: [Row; 14] = [
    ("a newer capture", b"\x0a\x0d\x0d\x0a\x1c\x00\x00\x00",
        "  the file is a pcapng capture\n  expected a classic capture, low byte first, with microseconds: it begins with d4 c3 b2 a1\n  \
         editcap -F pcap CAPTURE NEW writes it as a classic capture (editcap comes with Wireshark)\n"),
    ("the high byte first", b"\xa1\xb2\xc3\xd4\x00\x02\x00\x04",
        "  the file is a capture whose numbers have the high byte first\n  \
         expected a classic capture, low byte first, with microseconds: it begins with d4 c3 b2 a1\n  \
         editcap -F pcap CAPTURE NEW writes it as a classic capture (editcap comes with Wireshark)\n"),
    ("nanoseconds", b"\x4d\x3c\xb2\xa1\x02\x00\x04\x00",
        "  the file is a capture with nanoseconds\n  \
         expected a classic capture, low byte first, with microseconds: it begins with d4 c3 b2 a1\n  \
         editcap -F pcap CAPTURE NEW writes it as a classic capture (editcap comes with Wireshark)\n"),
    ("nanoseconds, the high byte first", b"\xa1\xb2\x3c\x4d\x00\x02\x00\x04",
        "  the file is a capture with nanoseconds\n  \
         expected a classic capture, low byte first, with microseconds: it begins with d4 c3 b2 a1\n  \
         editcap -F pcap CAPTURE NEW writes it as a classic capture (editcap comes with Wireshark)\n"),
    ("a packed capture", b"\x1f\x8b\x08\x00",
        "  the file is compressed with gzip\n  expected a classic capture, low byte first, with microseconds: it begins with d4 c3 b2 a1\n  \
         unpack it first: gzip -d FILE\n"),
    ("an image", b"XLBP\x01\x00\x00\x00",
        "  the file is an image\n  expected a classic capture, low byte first, with microseconds: it begins with d4 c3 b2 a1\n  \
         are two names on the command line swapped?\n"),
    ("a frame", b"\x02\x00\x00\x00\x00\x01\x02\x00\x00\x00\x00\x02\x86\xdd\x60\x00",
        "  the file is an Ethernet frame\n  expected a classic capture, low byte first, with microseconds: it begins with d4 c3 b2 a1\n  \
         xlb run IMAGE FRAME runs one frame; text2pcap and editcap make captures\n"),
    ("digits", b"02 00 00 00 00 01\n",
        "  the file has hexadecimal digits in place of bytes\n  \
         expected a classic capture, low byte first, with microseconds: it begins with d4 c3 b2 a1\n  \
         text2pcap makes a capture of hexadecimal digits with offsets in front of them: xxd -g 1 FRAME | text2pcap - NEW (text2pcap comes with \
         Wireshark)\n"),
    ("anything", b"\x00\x01\x02",
        "  the file begins with the bytes 00 01 02\n  expected a classic capture, low byte first, with microseconds: it begins with d4 c3 b2 a1\n"),
    ("version 2.3", b"\xd4\xc3\xb2\xa1\x02\x00\x03\x00\x00\x00\x00\x00\x00\x00\x00\x00\xff\xff\x00\x00\x01\x00\x00\x00",
        "  the capture's version is 2.3\n  expected 2.4\n  editcap -F pcap CAPTURE NEW writes it so (editcap comes with Wireshark)\n"),
    ("a capture on all interfaces", b"\xd4\xc3\xb2\xa1\x02\x00\x04\x00\x00\x00\x00\x00\x00\x00\x00\x00\xff\xff\x00\x00\x71\x00\x00\x00",
        "  the capture's link type is 113 (Linux cooked: a capture on the interface \"any\")\n  expected 1, Ethernet\n  \
         capture on an Ethernet interface by its name, as in tcpdump -i eth0 -w NEW\n"),
    ("its second form", b"\xd4\xc3\xb2\xa1\x02\x00\x04\x00\x00\x00\x00\x00\x00\x00\x00\x00\xff\xff\x00\x00\x14\x01\x00\x00",
        "  the capture's link type is 276 (Linux cooked: a capture on the interface \"any\")\n  expected 1, Ethernet\n  \
         capture on an Ethernet interface by its name, as in tcpdump -i eth0 -w NEW\n"),
    ("packets alone", b"\xd4\xc3\xb2\xa1\x02\x00\x04\x00\x00\x00\x00\x00\x00\x00\x00\x00\xff\xff\x00\x00\x65\x00\x00\x00",
        "  the capture's link type is 101 (IP packets without a frame)\n  expected 1, Ethernet\n  \
         capture on an Ethernet interface by its name, as in tcpdump -i eth0 -w NEW\n"),
    ("a link type without a name here", b"\xd4\xc3\xb2\xa1\x02\x00\x04\x00\x00\x00\x00\x00\x00\x00\x00\x00\xff\xff\x00\x00\x0a\x00\x00\x00",
        "  the capture's link type is 10\n  expected 1, Ethernet\n  capture on an Ethernet interface by its name, as in tcpdump -i eth0 -w NEW\n"),
];

#[rattlefmt::skip]
const FRAMES: [Row; 5] = [
    ("digits", b"0200 0000\n",
        "  the file has hexadecimal digits in place of bytes\n  expected the bytes of one Ethernet frame, 14 to 2048 of them\n  \
         xxd -r -p FRAME NEW makes bytes of hexadecimal digits\n"),
    ("a capture", b"\xd4\xc3\xb2\xa1\x02\x00\x04\x00",
        "  the file is a capture\n  expected the bytes of one Ethernet frame, 14 to 2048 of them\n  xlb replay runs the frames of a capture\n"),
    ("an image", b"XLBP\x01\x00\x00\x00",
        "  the file is an image\n  expected the bytes of one Ethernet frame, 14 to 2048 of them\n  \
         the frame comes after the image on the command line: are two names swapped?\n"),
    ("13 bytes", b"\x02\x00\x00\x00\x00\x01\x02\x00\x00\x00\x00\x02\x08",
        "  the file has 13 bytes\n  expected the bytes of one Ethernet frame, 14 to 2048 of them\n"),
    ("no bytes", b"", "  the file has 0 bytes\n  expected the bytes of one Ethernet frame, 14 to 2048 of them\n"),
];

/// Files of 14 bytes and more that are run as frames.
#[rattlefmt::skip]
const RUN_FRAMES: [Row; 7] = [
    ("digits", b"020000000001020000000002080045\n",
        "  FRAME: the file has hexadecimal digits in place of bytes\n  its 31 letters were run as the bytes of the frame\n  \
         xxd -r -p FRAME NEW makes bytes of hexadecimal digits\n"),
    ("line feeds alone", b"\n\n\n\n\n\n\n\n\n\n\n\n\n\n\n\n",
        "  FRAME: the file is a text\n  its 16 letters were run as the bytes of the frame\n"),
    ("a text", b"just a few words\n",
        "  FRAME: the file is a text\n  its 17 letters were run as the bytes of the frame\n"),
    ("a script", b"0 down 3\n0 down 4\n",
        "  FRAME: the file is a script of commands\n  its 18 letters were run as the bytes of the frame\n  \
         the frame comes after the image on the command line: are two names swapped?\n"),
    ("a frame", b"\x02\x00\x00\x00\x00\x01\x02\x00\x00\x00\x00\x02\x08\x00\x45\x00", ""),
    ("zeros", b"\x00\x00\x00\x00\x00\x00\x00\x00\x00\x00\x00\x00\x00\x00", ""),
    ("letters around the type of a frame", b"abcdefabcdef\x08\x00E123", ""),
];

/// What a row shows, an image whose one map has a wrong number, and what is said.
#[rattlefmt::skip]
const MAPS: [Row; 8] = [
    ("kind 3", b"XLBP\x01\x01\x00\x00\x03\x00\x00\x00\x04\x00\x00\x00\x08\x00\x00\x00\x01\x00\x00\x00",
        "  map 0: its kind is 3\n  expected 1 (hash), 2 (array) or 9 (lru)\n"),
    ("keys of 33 bytes", b"XLBP\x01\x01\x00\x00\x01\x00\x00\x00\x21\x00\x00\x00\x08\x00\x00\x00\x01\x00\x00\x00",
        "  map 0: its keys have 33 bytes\n  expected 1 to 32 bytes\n"),
    ("keys of an array", b"XLBP\x01\x01\x00\x00\x02\x00\x00\x00\x08\x00\x00\x00\x08\x00\x00\x00\x01\x00\x00\x00",
        "  map 0: its keys have 8 bytes\n  expected 4: the keys of an array are numbers of 4 bytes\n"),
    ("values of 12 bytes", b"XLBP\x01\x01\x00\x00\x01\x00\x00\x00\x04\x00\x00\x00\x0c\x00\x00\x00\x01\x00\x00\x00",
        "  map 0: its values have 12 bytes\n  expected a multiple of 8 from 8 to 64 (to 256 in version 2)\n"),
    ("values of 72 bytes in version 1", b"XLBP\x01\x01\x00\x00\x01\x00\x00\x00\x04\x00\x00\x00\x48\x00\x00\x00\x01\x00\x00\x00",
        "  map 0: its values have 72 bytes\n  expected a multiple of 8 from 8 to 64 (to 256 in version 2)\n"),
    ("values of 264 bytes in version 2", b"XLBP\x02\x01\x00\x00\x01\x00\x00\x00\x04\x00\x00\x00\x08\x01\x00\x00\x01\x00\x00\x00",
        "  map 0: its values have 264 bytes\n  expected a multiple of 8 from 8 to 256\n"),
    ("no entries", b"XLBP\x01\x01\x00\x00\x09\x00\x00\x00\x04\x00\x00\x00\x08\x00\x00\x00\x00\x00\x00\x00",
        "  map 0: it has 0 entries\n  expected 1 to 131072 entries\n"),
    ("too many entries", b"XLBP\x01\x01\x00\x00\x09\x00\x00\x00\x04\x00\x00\x00\x08\x00\x00\x00\x01\x00\x02\x00",
        "  map 0: it has 131073 entries\n  expected 1 to 131072 entries\n"),
];

/// An image of two maps, the second of them wrong.
const SECOND: &[u8] =
    b"XLBP\x01\x02\x00\x00\x01\x00\x00\x00\x04\x00\x00\x00\x08\x00\x00\x00\x01\x00\x00\x00\x01\x00\x00\x00\x00\x00\x00\x00\x08\x00\x00\x00\x01\x00\x00\x00";

fn images_are_said(rt: &impl Abort, alloc: Global, rows: &[Row]) {
    for (name, bytes, wanted) in rows {
        let said = about_image(alloc, *bytes).expect(rt, "a text");
        same_text(rt, *name, said.as_str(), *wanted);
    }
}

fn captures_are_said(rt: &impl Abort, alloc: Global, rows: &[Row]) {
    for (name, bytes, wanted) in rows {
        let said = about_capture(alloc, *bytes).expect(rt, "a text");
        same_text(rt, *name, said.as_str(), *wanted);
    }
}

fn frames_are_said(rt: &impl Abort, alloc: Global, rows: &[Row]) {
    for (name, bytes, wanted) in rows {
        let said = about_frame(alloc, *bytes).expect(rt, "a text");
        same_text(rt, *name, said.as_str(), *wanted);
    }
}

fn run_frames_are_said(rt: &impl Abort, alloc: Global, rows: &[Row]) {
    for (name, bytes, wanted) in rows {
        let said = about_text_as_frame(alloc, *bytes).expect(rt, "a text");
        same_text(rt, *name, said.as_str(), *wanted);
    }
}

fn maps_are_said(rt: &impl Abort, alloc: Global, rows: &[Row]) {
    for (name, bytes, wanted) in rows {
        let said = about_map(alloc, *bytes, 0).expect(rt, "a text");
        same_text(rt, *name, said.as_str(), *wanted);
    }
}

#[test]
fn no_images(rt: HostRuntime) {
    images_are_said(&rt, rt.alloc(), &IMAGES);
}

#[test]
fn no_captures(rt: HostRuntime) {
    captures_are_said(&rt, rt.alloc(), &CAPTURES);
}

#[test]
fn no_frames(rt: HostRuntime) {
    frames_are_said(&rt, rt.alloc(), &FRAMES);
}

#[test]
fn frames_of_letters(rt: HostRuntime) {
    run_frames_are_said(&rt, rt.alloc(), &RUN_FRAMES);
}

#[test]
fn no_maps(rt: HostRuntime) {
    maps_are_said(&rt, rt.alloc(), &MAPS);
}

#[test]
fn the_second_map(rt: HostRuntime) {
    let said = about_map(rt.alloc(), SECOND, 1).expect(&rt, "a text");
    same_text(
        &rt,
        "keys of no bytes",
        said.as_str(),
        "  map 1: its keys have 0 bytes\n  expected 1 to 32 bytes\n",
    );
}
