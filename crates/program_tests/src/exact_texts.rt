//! Worked texts, each kind of bad line, and every spelling in both directions.

use crate::asserting::{prints, same, same_bytes, same_text};
use disasm::{AsmFault, assemble, line, round_trip, text};
use ebpf_decode::{DecodeFault, Insn, decode, encode};
use std::alloc::Global;
use std::process::Abort;
use test_support::programs::FIRST_RUN_IMAGE;

const HEAD: [u8; 8] = [0x58, 0x4c, 0x42, 0x50, 1, 0, 0, 0];

/// The text of an image.
fn text_of(rt: &impl Abort, alloc: Global, bytes: &[u8]) -> String {
    let image = decode(alloc, bytes).expect(rt, "an image");
    text(alloc, &image).expect(rt, "memory")
}

/// The image of a text.
fn bytes_of(rt: &impl Abort, alloc: Global, given: &str) -> Vec<u8> {
    let image = assemble(alloc, given).expect(rt, "a text");
    encode(alloc, &image).expect(rt, "memory")
}

/// Compares the text of an image.
fn is_text_of(rt: &impl Abort, alloc: Global, name: &str, bytes: &[u8], want: &str) {
    let printed = text_of(rt, alloc, bytes);
    same_text(rt, name, &printed, want);
}

/// Compares the image of a text.
fn is_image_of(rt: &impl Abort, alloc: Global, name: &str, given: &str, want: &[u8]) {
    let encoded = bytes_of(rt, alloc, given);
    same_bytes(rt, name, &encoded, want);
}

/// How many instructions an image has that went through its text.
fn count_there_and_back(rt: &impl Abort, alloc: Global, bytes: &[u8]) -> usize {
    let image = decode(alloc, bytes).expect(rt, "an image");
    let again = round_trip(alloc, &image).expect(rt, "memory");
    again.code().len()
}

#[test]
fn an_image_goes_through_its_text(rt: HostRuntime) {
    let count = count_there_and_back(&rt, rt.alloc(), &FIRST_RUN_IMAGE);
    same(&rt, "instructions", &count, &17);
}

// Each slot as its eight bytes are, by the opcodes of RFC 9669.
#[rattlefmt::skip]
const ARITHMETIC: [(&str, u64); 31] = [
    ("add r0, -5",            0x07000000fbffffff),
    ("add32 r3, r0",          0x0c03000000000000),
    ("sub r1, -5",            0x17010000fbffffff),
    ("sub32 r4, r1",          0x1c14000000000000),
    ("mul r2, -5",            0x27020000fbffffff),
    ("mul32 r5, r2",          0x2c25000000000000),
    ("div r3, -5",            0x37030000fbffffff),
    ("div32 r6, r3",          0x3c36000000000000),
    ("sdiv r4, -5",           0x37040100fbffffff),
    ("sdiv32 r7, r4",         0x3c47010000000000),
    ("or r5, -5",             0x47050000fbffffff),
    ("or32 r8, r5",           0x4c58000000000000),
    ("and r6, -5",            0x57060000fbffffff),
    ("and32 r9, r6",          0x5c69000000000000),
    ("lsh r7, -5",            0x67070000fbffffff),
    ("lsh32 r10, r7",         0x6c7a000000000000),
    ("rsh r8, -5",            0x77080000fbffffff),
    ("rsh32 r0, r8",          0x7c80000000000000),
    ("mod r9, -5",            0x97090000fbffffff),
    ("mod32 r1, r9",          0x9c91000000000000),
    ("smod r10, -5",          0x970a0100fbffffff),
    ("smod32 r2, r10",        0x9ca2010000000000),
    ("xor r0, -5",            0xa7000000fbffffff),
    ("xor32 r3, r0",          0xac03000000000000),
    ("mov r1, -5",            0xb7010000fbffffff),
    ("mov r0, 2",             0xb700000002000000),
    ("mov32 r4, r1",          0xbc14000000000000),
    ("arsh r2, -5",           0xc7020000fbffffff),
    ("arsh32 r5, r2",         0xcc25000000000000),
    ("add r1, r2",            0x0f21000000000000),
    ("add32 r1, 2147483647",  0x04010000ffffff7f),
];

#[rattlefmt::skip]
const UNARY: [(&str, u64); 16] = [
    ("neg r1",            0x8701000000000000),
    ("neg32 r10",         0x840a000000000000),
    ("movsx8 r1, r2",     0xbf21080000000000),
    ("movsx16 r1, r2",    0xbf21100000000000),
    ("movsx32 r1, r2",    0xbf21200000000000),
    ("movsx832 r1, r2",   0xbc21080000000000),
    ("movsx1632 r1, r2",  0xbc21100000000000),
    ("le16 r4",           0xd404000010000000),
    ("le32 r4",           0xd404000020000000),
    ("le64 r4",           0xd404000040000000),
    ("be16 r4",           0xdc04000010000000),
    ("be32 r4",           0xdc04000020000000),
    ("be64 r4",           0xdc04000040000000),
    ("swap16 r4",         0xd704000010000000),
    ("swap32 r4",         0xd704000020000000),
    ("swap64 r4",         0xd704000040000000),
];

#[rattlefmt::skip]
const JUMPS: [(&str, u64); 31] = [
    ("ja +3",                       0x0500030000000000),
    ("ja -32768",                   0x0500008000000000),
    ("ja32 +2147483647",            0x06000000ffffff7f),
    ("ja32 -2147483648",            0x0600000000000080),
    ("jeq r0, 5, +0",               0x1500000005000000),
    ("jeq32 r5, r0, -1",            0x1e05ffff00000000),
    ("jgt r1, 5, +0",               0x2501000005000000),
    ("jgt32 r6, r1, -1",            0x2e16ffff00000000),
    ("jge r2, 5, +0",               0x3502000005000000),
    ("jge32 r7, r2, -1",            0x3e27ffff00000000),
    ("jset r3, 5, +0",              0x4503000005000000),
    ("jset32 r8, r3, -1",           0x4e38ffff00000000),
    ("jne r4, 5, +0",               0x5504000005000000),
    ("jne32 r9, r4, -1",            0x5e49ffff00000000),
    ("jsgt r5, 5, +0",              0x6505000005000000),
    ("jsgt32 r10, r5, -1",          0x6e5affff00000000),
    ("jsge r6, 5, +0",              0x7506000005000000),
    ("jsge32 r0, r6, -1",           0x7e60ffff00000000),
    ("jlt r7, 5, +0",               0xa507000005000000),
    ("jlt32 r1, r7, -1",            0xae71ffff00000000),
    ("jle r8, 5, +0",               0xb508000005000000),
    ("jle32 r2, r8, -1",            0xbe82ffff00000000),
    ("jslt r9, 5, +0",              0xc509000005000000),
    ("jslt32 r3, r9, -1",           0xce93ffff00000000),
    ("jsle r10, 5, +0",             0xd50a000005000000),
    ("jsle32 r4, r10, -1",          0xdea4ffff00000000),
    ("jeq r1, r2, +32767",          0x1d21ff7f00000000),
    ("jeq32 r1, -2147483648, +12",  0x16010c0000000080),
    ("call 1",                      0x8500000001000000),
    ("call -2147483648",            0x8500000000000080),
    ("exit",                        0x9500000000000000),
];

#[rattlefmt::skip]
const MEMORY: [(&str, u64); 15] = [
    ("ldxw r1, [r2+4]",    0x6121040000000000),
    ("ldxh r1, [r2+4]",    0x6921040000000000),
    ("ldxb r1, [r2+4]",    0x7121040000000000),
    ("ldxdw r1, [r2+4]",   0x7921040000000000),
    ("ldxsw r1, [r2-1]",   0x8121ffff00000000),
    ("ldxsh r1, [r2-1]",   0x8921ffff00000000),
    ("ldxsb r1, [r2-1]",   0x9121ffff00000000),
    ("stw [r1+0], 7",      0x6201000007000000),
    ("sth [r1+0], 7",      0x6a01000007000000),
    ("stb [r1+0], 7",      0x7201000007000000),
    ("stdw [r1+0], 7",     0x7a01000007000000),
    ("stxw [r10-8], r1",   0x631af8ff00000000),
    ("stxh [r10-8], r1",   0x6b1af8ff00000000),
    ("stxb [r10-8], r1",   0x731af8ff00000000),
    ("stxdw [r10-8], r1",  0x7b1af8ff00000000),
];

#[rattlefmt::skip]
const ATOMICS: [(&str, u64); 20] = [
    ("aaddw [r1+0], r2",             0xc321000000000000),
    ("aadddw [r10-32768], r10",      0xdbaa008000000000),
    ("aorw [r1+0], r2",              0xc321000040000000),
    ("aordw [r10-32768], r10",       0xdbaa008040000000),
    ("aandw [r1+0], r2",             0xc321000050000000),
    ("aanddw [r10-32768], r10",      0xdbaa008050000000),
    ("axorw [r1+0], r2",             0xc3210000a0000000),
    ("axordw [r10-32768], r10",      0xdbaa0080a0000000),
    ("afaddw [r1+0], r2",            0xc321000001000000),
    ("afadddw [r10-32768], r10",     0xdbaa008001000000),
    ("aforw [r1+0], r2",             0xc321000041000000),
    ("afordw [r10-32768], r10",      0xdbaa008041000000),
    ("afandw [r1+0], r2",            0xc321000051000000),
    ("afanddw [r10-32768], r10",     0xdbaa008051000000),
    ("afxorw [r1+0], r2",            0xc3210000a1000000),
    ("afxordw [r10-32768], r10",     0xdbaa0080a1000000),
    ("axchgw [r1+0], r2",            0xc3210000e1000000),
    ("axchgdw [r10-32768], r10",     0xdbaa0080e1000000),
    ("acmpxchgw [r1+0], r2",         0xc3210000f1000000),
    ("acmpxchgdw [r10-32768], r10",  0xdbaa0080f1000000),
];

// The same of wide instructions, of two slots.
#[rattlefmt::skip]
const WIDE: [(&str, u64, u64); 4] = [
    ("lddw r1, 0x0000000000000002",     0x1801000002000000, 0),
    ("lddw r10, 0xfedcba9876543210",    0x180a000010325476, 0x0000000098badcfe),
    ("ldmap r1, 0",                     0x1811000000000000, 0),
    ("ldmap r0, -1",                    0x18100000ffffffff, 0),
];

/// An image without maps, of this slot.
fn image_of(slot: u64) -> [u8; 16] {
    let mut bytes = [0; 16];
    bytes[..8].copy_from_slice(&HEAD);
    bytes[8..].copy_from_slice(&slot.to_be_bytes());
    bytes
}

/// An image of this version without maps, of these slots.
fn wide_image_of(version: u8, first: u64, second: u64) -> [u8; 24] {
    let mut bytes = [0; 24];
    bytes[..8].copy_from_slice(&HEAD);
    bytes[4] = version;
    bytes[8..16].copy_from_slice(&first.to_be_bytes());
    bytes[16..].copy_from_slice(&second.to_be_bytes());
    bytes
}

/// Holds the line of one instruction against its image, in both directions.
fn is_spelled(
    rt: &impl Abort,
    alloc: Global,
    name: &str,
    version: u8,
    spelling: &str,
    bytes: &[u8],
) {
    let given = format!(in alloc; "version {version}\n{spelling}\n").expect(rt, "memory");
    is_text_of(rt, alloc, name, bytes, &given);
    is_image_of(rt, alloc, name, &given, bytes);
}

/// Holds each line against its slot.
fn are_spelled(rt: &impl Abort, alloc: Global, rows: &[(&'static str, u64)]) {
    for (spelling, slot) in rows {
        is_spelled(rt, alloc, spelling, 1, spelling, &image_of(*slot));
    }
}

#[test]
fn every_spelling(rt: HostRuntime) {
    are_spelled(&rt, rt.alloc(), &ARITHMETIC);
    are_spelled(&rt, rt.alloc(), &UNARY);
    are_spelled(&rt, rt.alloc(), &JUMPS);
    are_spelled(&rt, rt.alloc(), &MEMORY);
    are_spelled(&rt, rt.alloc(), &ATOMICS);
}

/// Holds each wide line against its two slots.
fn are_wide(rt: &impl Abort, alloc: Global, rows: &[(&str, u64, u64)]) {
    for (spelling, first, second) in rows {
        let bytes = wide_image_of(1, *first, *second);
        is_spelled(rt, alloc, spelling, 1, spelling, &bytes);
    }
}

#[test]
fn wide_spellings(rt: HostRuntime) {
    are_wide(&rt, rt.alloc(), &WIDE);
}

#[test]
fn one_line(rt: HostRuntime) {
    let printed = line(rt.alloc(), Insn::Ja32 { distance: -1 }).expect(&rt, "memory");
    same_text(&rt, "a jump back", &printed, "ja32 -1");
}

// Each is line 2, after `version 1`.
#[rattlefmt::skip]
const BAD_LINES: [(&str, &str); 33] = [
    ("empty line", ""),
    ("unknown word", "nop"),
    ("upper case", "EXIT"),
    ("space at the end", "exit "),
    ("carriage return", "exit\r"),
    ("two spaces", "mov  r0, 2"),
    ("no space after the comma", "mov r0,2"),
    ("plus before an immediate", "mov r0, +2"),
    ("distance without sign", "ja 3"),
    ("distance with two signs", "ja +-3"),
    ("distance minus zero", "ja -0"),
    ("distance above 16 bits", "ja +32768"),
    ("distance above 32 bits", "ja32 +2147483648"),
    ("offset without sign", "ldxw r1, [r2]"),
    ("offset above 16 bits", "ldxw r1, [r2+32768]"),
    ("no closing bracket", "ldxw r1, [r2+4"),
    ("text after the bracket", "stw [r1+0]x, 7"),
    ("register with a leading zero", "mov r01, 2"),
    ("operand too many", "neg r1, r2"),
    ("operand too few", "mov r1"),
    ("exit with an operand", "exit 1"),
    ("upper case digits", "lddw r1, 0x000000000000000A"),
    ("seventeen digits", "lddw r1, 0x00000000000000002"),
    ("call of a register", "call r1"),
    ("number for a register", "mov 1, 2"),
    ("32-bit form of a wide move", "movsx3232 r1, r2"),
    ("byte swap of 8 bits", "le8 r1"),
    ("two-byte character", "mov r0, é"),
    ("map with a leading zero", "map array 04 8 1"),
    ("map number above 32 bits", "map array 4 8 4294967296"),
    ("map of an unknown kind", "map queue 4 8 1"),
    ("map with too few numbers", "map array 4 8"),
    ("second version line", "version 1"),
];

/// The bad line of a text, or 0.
fn bad_line(alloc: Global, given: &str) -> usize {
    match assemble(alloc, given) {
        Err(AsmFault::BadLine { line }) => line,
        _ => 0,
    }
}

/// The bad line of a text with this line 2, or 0.
fn bad_line_at(rt: &impl Abort, alloc: Global, spelling: &str) -> usize {
    let given = format!(in alloc; "version 1\n{spelling}\nexit\n").expect(rt, "memory");
    bad_line(alloc, &given)
}

/// Each of these lines is bad as line 2 of a text.
fn are_bad(rt: &impl Abort, alloc: Global, rows: &[(&str, &str)]) {
    for (name, spelling) in rows {
        same(rt, name, &bad_line_at(rt, alloc, spelling), &2);
    }
}

#[test]
fn bad_lines(rt: HostRuntime) {
    are_bad(&rt, rt.alloc(), &BAD_LINES);
}

#[rattlefmt::skip]
const FIRST_BAD_LINES: [(&str, &str, usize); 19] = [
    ("empty text",                                  "",                                             1),
    ("version without a line feed",                 "version 1",                                    1),
    ("another version",                             "version 3\nexit\n",                            1),
    ("version 1 after version 2",                   "version 2\nversion 1\nexit\n",                 2),
    ("an address without its offset",               "version 2\nldval r1, 0\n",                     2),
    ("an address with a signed offset",             "version 2\nldval r1, 0, -8\n",                 2),
    ("an address with a plus",                      "version 2\nldval r1, 0, +8\n",                 2),
    ("an address with too large an offset",         "version 2\nldval r1, 0, 4294967296\n",         2),
    ("an immediate above 32 bits",                  "version 2\nmov r1, 2147483648\n",              2),
    ("an immediate below 32 bits",                  "version 2\nmov r1, -2147483649\n",             2),
    ("no version",                                  "exit\n",                                       1),
    ("last line without a line feed",               "version 1\nexit",                              2),
    ("last map without a line feed",                "version 1\nmap array 4 8 1",                   2),
    ("line feed too many",                          "version 1\nexit\n\n",                          3),
    ("first of two bad lines",                      "version 1\nexit\nmov r0, 02\nmov r0, 03\n",    3),
    ("map after an instruction",                    "version 1\nexit\nmap array 4 8 1\n",           3),
    ("bad map after a map",                         "version 1\nmap array 4 8 1\nmap array 4 8\nexit\n", 3),
    ("a bad line goes before a refused map",        "version 1\nmap hash 4 8 1\nexit\nno\n",        4),
    ("a bad line goes before the want of lines",    "version 1\nno\n",                             2),
];

/// Compares the first bad line of each text.
fn are_bad_at(rt: &impl Abort, alloc: Global, rows: &[(&str, &str, usize)]) {
    for (name, given, want) in rows {
        same(rt, name, &bad_line(alloc, given), want);
    }
}

#[test]
fn first_bad_lines(rt: HostRuntime) {
    are_bad_at(&rt, rt.alloc(), &FIRST_BAD_LINES);
}

// Texts of images that there are, and the bytes of these images, one number of 64 bits a slot.
#[rattlefmt::skip]
const VERSION_2: [(&str, &str, u64, u64); 4] = [
    ("an address in a value",  "ldval r1, 0, 8",           0x1821000000000000, 0x0000000008000000),
    ("the largest offset",     "ldval r10, 0, 4294967295", 0x182a000000000000, 0x00000000ffffffff),
    ("a map below 0",          "ldval r0, -1, 0",          0x18200000ffffffff, 0x0000000000000000),
    ("a map",                  "ldmap r1, 0",              0x1811000000000000, 0x0000000000000000),
];

/// Holds each text of version 2 against its two slots.
fn are_of_version_2(rt: &impl Abort, alloc: Global, rows: &[(&str, &str, u64, u64)]) {
    for (name, spelling, first, second) in rows {
        let bytes = wide_image_of(2, *first, *second);
        is_spelled(rt, alloc, name, 2, spelling, &bytes);
    }
}

#[test]
fn version_2(rt: HostRuntime) {
    are_of_version_2(&rt, rt.alloc(), &VERSION_2);
}

// The line of a map of each kind with the line after it, and bpf(2)'s number of the map's type.
#[rattlefmt::skip]
const KINDS: [(&str, u8); 3] = [
    ("map hash 4 8 1\nexit",  1),
    ("map array 4 8 1\nexit", 2),
    ("map lru 4 8 1\nexit",   9),
];

/// An image of one map of this type, of keys of four bytes and one value of eight, and an exit.
#[rattlefmt::skip]
fn one_map_image(number: u8) -> [u8; 32] {
    [
        0x58, 0x4c, 0x42, 0x50, 1, 1, 0, 0,
        number, 0, 0, 0, 4, 0, 0, 0, 8, 0, 0, 0, 1, 0, 0, 0,
        0x95, 0, 0, 0, 0, 0, 0, 0,
    ]
}

/// Holds each text of one map against its image.
fn are_of_kinds(rt: &impl Abort, alloc: Global, rows: &[(&str, u8)]) {
    for (spelling, number) in rows {
        let bytes = one_map_image(*number);
        is_spelled(rt, alloc, spelling, 1, spelling, &bytes);
    }
}

#[test]
fn one_map_of_each_kind(rt: HostRuntime) {
    are_of_kinds(&rt, rt.alloc(), &KINDS);
}

// Texts with maps of each kind, read and printed again.
#[rattlefmt::skip]
const MAPS: [&str; 5] = [
    "version 1\nmap hash 4 8 1\nexit\n",
    "version 1\nmap lru 32 64 131072\nexit\n",
    "version 1\nmap array 4 8 1\nmap hash 1 16 7\nmap lru 16 8 4096\nexit\n",
    "version 2\nmap array 4 256 1\nmap hash 13 72 9\nexit\n",
    "version 2\nmap lru 4 8 1\nexit\n",
];

/// Compares a text with the one of its image.
fn comes_back(rt: &impl Abort, alloc: Global, given: &str) {
    let bytes = bytes_of(rt, alloc, given);
    is_text_of(rt, alloc, given, &bytes, given);
}

/// The same of each text.
fn come_back(rt: &impl Abort, alloc: Global, texts: &[&str]) {
    for given in texts {
        comes_back(rt, alloc, given);
    }
}

#[test]
fn maps_of_each_kind(rt: HostRuntime) {
    come_back(&rt, rt.alloc(), &MAPS);
}

const SIXTEEN_MAPS: &str = "map array 4 8 1
map array 4 8 1
map array 4 8 1
map array 4 8 1
map array 4 8 1
map array 4 8 1
map array 4 8 1
map array 4 8 1
map array 4 8 1
map array 4 8 1
map array 4 8 1
map array 4 8 1
map array 4 8 1
map array 4 8 1
map array 4 8 1
map array 4 8 1
";

#[rattlefmt::skip]
const FAULTY: [(&str, &str, &str, DecodeFault); 8] = [
    ("maps without instructions",       "1", "map array 4 8 1\n",                                DecodeFault::Empty),
    ("a hash's keys have 32 bytes",     "1", "map hash 33 8 1\nexit\n",                          DecodeFault::BadMap { map: 0 }),
    ("so have those of last use",       "1", "map array 4 8 1\nmap lru 33 8 1\nexit\n",          DecodeFault::BadMap { map: 1 }),
    ("an array's keys have four bytes", "1", "map array 8 8 1\nexit\n",                          DecodeFault::BadMap { map: 0 }),
    ("a value of 32-bit numbers",       "1", "map array 4294967295 4294967295 4294967295\nexit\n", DecodeFault::BadMap { map: 0 }),
    ("a refused map goes first",        "1", "map array 4 12 1\n",                               DecodeFault::BadMap { map: 0 }),
    ("too large a value in version 2",  "2", "map array 4 264 1\nexit\n",                        DecodeFault::BadMap { map: 0 }),
    ("an address after a wide number",  "1", "lddw r1, 0x0000000000000000\nldval r1, 0, 8\n",     DecodeFault::NotInProfile { slot: 2 }),
];

/// How many instructions the image of a text has.
fn count_of(alloc: Global, given: &str) -> Result<usize, AsmFault> {
    Ok(assemble(alloc, given)?.code().len())
}

/// The same of a text behind its version.
fn count_of_version(
    rt: &impl Abort,
    alloc: Global,
    version: &str,
    given: &str,
) -> Result<usize, AsmFault> {
    let given = format!(in alloc; "version {version}\n{given}").expect(rt, "memory");
    count_of(alloc, &given)
}

/// The same of a text of sixteen maps and these lines.
fn count_behind_maps(rt: &impl Abort, alloc: Global, lines: &str) -> Result<usize, AsmFault> {
    let given = format!(in alloc; "version 1\n{SIXTEEN_MAPS}{lines}").expect(rt, "memory");
    count_of(alloc, &given)
}

/// Compares why each text makes no image.
fn are_faulty(rt: &impl Abort, alloc: Global, rows: &[(&str, &str, &str, DecodeFault)]) {
    for (name, version, given, want) in rows {
        let found = count_of_version(rt, alloc, version, given);
        same(rt, name, &found, &Err(AsmFault::Image(*want)));
    }
}

#[test]
fn faulty_images(rt: HostRuntime) {
    are_faulty(&rt, rt.alloc(), &FAULTY);
    let sixteen = count_behind_maps(&rt, rt.alloc(), "exit\n");
    same(&rt, "sixteen maps", &sixteen, &Ok(1));
    let seventeen = count_behind_maps(&rt, rt.alloc(), "map array 4 8 1\nexit\n");
    let want = Err(AsmFault::Image(DecodeFault::BadHead));
    same(&rt, "seventeen maps", &seventeen, &want);
}

/// This many lines `mov r0, 1` and an `exit`.
fn long_text(rt: &impl Abort, alloc: Global, count: u32) -> String {
    let mut given = String::from_str(alloc, "version 1\n").expect(rt, "memory");
    for _ in 0..count {
        given.push_str("mov r0, 1\n").expect(rt, "memory");
    }
    given.push_str("exit\n").expect(rt, "memory");
    given
}

/// How many instructions the image of this many lines and an `exit` has.
fn count_of_long(rt: &impl Abort, alloc: Global, count: u32) -> Result<usize, AsmFault> {
    let given = long_text(rt, alloc, count);
    count_of(alloc, &given)
}

/// A text of this many lines and an `exit` is the text of its image.
fn long_comes_back(rt: &impl Abort, alloc: Global, count: u32) {
    let given = long_text(rt, alloc, count);
    let bytes = bytes_of(rt, alloc, &given);
    is_text_of(rt, alloc, "the longest text", &bytes, &given);
}

#[test]
fn longest_text(rt: HostRuntime) {
    long_comes_back(&rt, rt.alloc(), 4095);
}

#[test]
fn longest_program(rt: HostRuntime) {
    let longest = count_of_long(&rt, rt.alloc(), 4095);
    same(&rt, "the longest", &longest, &Ok(4096));
    let too_long = count_of_long(&rt, rt.alloc(), 4096);
    let want = Err(AsmFault::Image(DecodeFault::TooLong));
    same(&rt, "too long", &too_long, &want);
}

#[rattlefmt::skip]
const FAULT_TEXTS: [(AsmFault, &str); 3] = [
    (AsmFault::BadLine { line: 2 },         "fault 21 BadLine line 2"),
    (AsmFault::Image(DecodeFault::Empty),   "fault 22 Image decode 12"),
    (AsmFault::Memory,                      "fault 23 Memory"),
];

#[test]
fn fault_texts(rt: HostRuntime) {
    for (fault, want) in &FAULT_TEXTS {
        prints(&rt, rt.alloc(), fault, want);
    }
}
