//! Images that are refused for their bytes.

use super::first_path::over_image;
use super::refused;
use std::alloc::Global;
use std::process::Abort;
use std::sync::Wait;
use std::thread::Threads;

/// What a row shows, the image's digits, and what is printed.
type Row = (&'static str, &'static str, &'static str);

#[rattlefmt::skip]
const ROWS: [Row; 11] = [
    ("no bytes", "", "fault 10 BadHead\n  the file is empty\n  expected an image, which begins with 58 4c 42 50 (XLBP)\n"),
    ("a cut head", "584c4250010000", "fault 10 BadHead\n  the file ends after 7 bytes, within its head of 8 bytes\n"),
    ("another magic", "584c425101000000b7000000020000009500000000000000",
        "fault 10 BadHead\n  the file begins with the bytes 58 4c 42 51 01 00 00 00\n  expected an image, which begins with 58 4c 42 50 (XLBP)\n"),
    ("another version", "584c425003000000b7000000020000009500000000000000",
        "fault 10 BadHead\n  byte 4, the version, is 3: expected 1 or 2\n"),
    ("17 maps", "584c425001110000b7000000020000009500000000000000",
        "fault 10 BadHead\n  byte 5, the number of maps, is 17: expected 0 to 16\n"),
    ("a cut map list", "584c425001010000020000000400000008000000",
        "fault 10 BadHead\n  the file ends after 20 bytes, within its list of 1 maps: the list ends at byte 24\n"),
    ("a map of keys of five bytes", "584c42500101000002000000050000000800000001000000b7000000020000009500000000000000",
        "fault 11 BadMap map 0\n  map 0: its keys have 5 bytes\n  expected 4: the keys of an array are numbers of 4 bytes\n"),
    ("half a slot",                 "584c425001000000b7000000",                                          "fault 13 NotWhole\n"),
    ("at its slot",                 "584c425001000000b7000000020000003700020001000000",                  "fault 15 UnknownOpcode slot 1\n"),
    ("a legacy load",               "584c4250010000002000000000000000",                                  "fault 16 NotInProfile slot 0\n"),
    ("the first of two bad slots",  "584c425001000000bf010000050000003700020001000000",                  "fault 18 FieldNotZero slot 0\n"),
];

/// Each row's image, checked.
fn compare_rows<R: Abort + Threads + Wait + Sync>(rt: &R, alloc: Global, rows: &[Row]) {
    for row in rows {
        let (name, image, err) = *row;
        over_image(rt, alloc, name, image, "", "xlb check image", refused(err));
    }
}

#[test]
fn refuses_images(rt: HostRuntime) {
    compare_rows(&rt, rt.alloc(), &ROWS);
}
