//! The rows of the table of faults, a match a section: a large constant that is cited by reference stops the prover
//! (docs/PROOF_FORMS.md). The last row of a section is its `_` arm.

ghost use Rattle.std.specs.Prelude.{◌≤◌};
ghost use Rattle.faults.specs.FaultTable.{IsRowOf};

use crate::explanation::{Explanation, FieldNames};

/// Frames and captures.
#[rattlefmt::skip]
pub(crate) fn frames(number: u8) -> Explanation
    requires least { 1 ≤ number }
    requires most { number ≤ 9 }
    ensures { IsRowOf number result }
{
    match number {
        1 => Explanation {
            number: 1,
            name: "BadMagic",
            fields: FieldNames::Empty,
            meaning: "The capture file does not begin with the magic number a1b2c3d4 in little-endian order.",
            causes: "The file is no classic pcap file: it is pcapng, big-endian, has times in nanoseconds, or is another kind of file.",
            example: "A file that begins with `0a 0d 0d 0a` is pcapng; `editcap -F pcap` turns it into a classic one.",
        },
        2 => Explanation {
            number: 2,
            name: "BadVersion",
            fields: FieldNames::Empty,
            meaning: "The capture file's version is not 2.4.",
            causes: "It was written by a very old or a faulty tool.",
            example: "Bytes 4 to 7 have to be `02 00 04 00`.",
        },
        3 => Explanation {
            number: 3,
            name: "BadLink",
            fields: FieldNames::Empty,
            meaning: "A capture's link type is not 1, Ethernet.",
            causes: "It was taken on a loopback, wireless or `any` interface.",
            example: "A capture of `lo` made by some systems has link type 0; take one on an Ethernet interface.",
        },
        4 => Explanation {
            number: 4,
            name: "CutHead",
            fields: FieldNames::One("record"),
            meaning: "A capture ends within the 24 bytes of its header (record 0) or within the 16 bytes before a record's frame.",
            causes: "The file was copied or written in part.",
            example: "`record 3` says that the third record's head is cut; `record 0` that the file has fewer than 24 bytes.",
        },
        5 => Explanation {
            number: 5,
            name: "CutFrame",
            fields: FieldNames::One("record"),
            meaning: "A capture ends within the bytes of a frame.",
            causes: "The file was copied or written in part.",
            example: "`record 3` says that the third record keeps fewer bytes than it says.",
        },
        6 => Explanation {
            number: 6,
            name: "FrameTooLong",
            fields: FieldNames::One("record"),
            meaning: "A frame has more than 2048 bytes.",
            causes: "The capture has frames that a network card merged, or the file is not a frame: it must hold the bytes themselves, not \
                hexadecimal digits.",
            example: "Captures taken with receive offload on have such frames.",
        },
        7 => Explanation {
            number: 7,
            name: "Device",
            fields: FieldNames::Empty,
            meaning: "A file could not be opened, read or written, or what was to be printed could not be.",
            causes: "A name is misspelt, rights are missing, or the disk is full.",
            example: "`xlb check missing.img`, where there is no such file.",
        },
        8 => Explanation {
            number: 8,
            name: "Memory",
            fields: FieldNames::Empty,
            meaning: "Out of memory while reading a file or making the output.",
            causes: "The file is larger than the memory that is free.",
            example: "A limit set by `ulimit -v` is too low for the file.",
        },
        _ => Explanation {
            number: 9,
            name: "ShortFrame",
            fields: FieldNames::Empty,
            meaning: "A frame has fewer than the 14 bytes of an Ethernet header.",
            causes: "The named file is empty or holds text in place of bytes.",
            example: "A file of 13 bytes.",
        },
    }
}

/// Images.
#[rattlefmt::skip]
pub(crate) fn images(number: u8) -> Explanation
    requires least { 10 ≤ number }
    requires most { number ≤ 20 }
    ensures { IsRowOf number result }
{
    match number {
        10 => Explanation {
            number: 10,
            name: "BadHead",
            fields: FieldNames::Empty,
            meaning: "The bytes do not begin as an image does.",
            causes: "The file is not an image (perhaps a text or a frame), its version is not 1 or 2, it has more than 16 maps, or its list of \
                maps is cut off.",
            example: "`xlb check first_run.txt`: a text has to go through `xlb asm` first.",
        },
        11 => Explanation {
            number: 11,
            name: "BadMap",
            fields: FieldNames::One("map"),
            meaning: "A map's definition is outside its limits.",
            causes: "The type is not array, hash or lru; the key size is not 1 to 32 bytes (array: 4); the value size is not 8, 16, .. 64 bytes \
                (version 2: up to 256); the number of entries is not 1 to 131,072.",
            example: "`map array 8 8 1`: the key of an array has 4 bytes.",
        },
        12 => Explanation {
            number: 12,
            name: "Empty",
            fields: FieldNames::Empty,
            meaning: "No instruction comes after the maps.",
            causes: "The program was left out, or the file is cut after its maps.",
            example: "A text of the line `version 1` alone.",
        },
        13 => Explanation {
            number: 13,
            name: "NotWhole",
            fields: FieldNames::Empty,
            meaning: "The number of bytes after the maps is not a multiple of 8.",
            causes: "The file is cut within a slot.",
            example: "An image without its last byte.",
        },
        14 => Explanation {
            number: 14,
            name: "TooLong",
            fields: FieldNames::Empty,
            meaning: "The program has more than 4096 slots.",
            causes: "A loop was unrolled too often.",
            example: "4096 times `mov r0, 1`, and `exit`.",
        },
        15 => Explanation {
            number: 15,
            name: "UnknownOpcode",
            fields: FieldNames::One("slot"),
            meaning: "The instruction is not in the instruction table.",
            causes: "The bytes are not a program, or the instruction is from another version of the instruction set.",
            example: "`37 00 02 00 01 00 00 00`: a division has offset 0, or 1 where it is signed.",
        },
        16 => Explanation {
            number: 16,
            name: "NotInProfile",
            fields: FieldNames::One("slot"),
            meaning: "The instruction is in RFC 9669, but images of this version may not use it.",
            causes: "The program uses legacy packet loads, calls between functions, or `ldval` in an image of version 1.",
            example: "`ldval r1, 0, 0` below `version 1`; write `version 2`.",
        },
        17 => Explanation {
            number: 17,
            name: "BadRegister",
            fields: FieldNames::One("slot"),
            meaning: "An instruction names a register above r10.",
            causes: "Bytes that are no program.",
            example: "`b7 0b 00 00 00 00 00 00` names register 11.",
        },
        18 => Explanation {
            number: 18,
            name: "FieldNotZero",
            fields: FieldNames::One("slot"),
            meaning: "A field that the instruction does not use is not zero.",
            causes: "An assembler left garbage there, or the opcode's source bit is wrong.",
            example: "`bf 01 00 00 05 00 00 00`: a move of a register has no immediate.",
        },
        19 => Explanation {
            number: 19,
            name: "WideCut",
            fields: FieldNames::One("slot"),
            meaning: "The second slot of a wide instruction is missing.",
            causes: "The program is cut after the first half of `lddw`, `ldmap` or `ldval`.",
            example: "`18 01 00 00 00 00 00 00` as the last slot.",
        },
        _ => Explanation {
            number: 20,
            name: "Memory",
            fields: FieldNames::Empty,
            meaning: "Out of memory while decoding an image.",
            causes: "Too little memory is free.",
            example: "A limit set by `ulimit -v` is too low.",
        },
    }
}

/// Texts.
#[rattlefmt::skip]
pub(crate) fn texts(number: u8) -> Explanation
    requires least { 21 ≤ number }
    requires most { number ≤ 23 }
    ensures { IsRowOf number result }
{
    match number {
        21 => Explanation {
            number: 21,
            name: "BadLine",
            fields: FieldNames::One("line"),
            meaning: "A line of the text is not in canonical form.",
            causes: "A misspelt instruction, a comment or an empty line, a number with a leading zero or outside its field, an offset without its \
                sign, two \
                spaces, or a last line without its line feed.",
            example: "`mov r0, 02` has to be `mov r0, 2`, and `ldxw r1, [r2]` has to be `ldxw r1, [r2+0]`.",
        },
        22 => Explanation {
            number: 22,
            name: "Image",
            fields: FieldNames::One("decode"),
            meaning: "The lines are right, but the image that they spell is refused.",
            causes: "The number after `decode` is the fault of that image: 10 for more than 16 maps, 11 for a map, 12 for no instruction, 14 for \
                too many, 16 \
                for one of another version.",
            example: "`map array 4 8 0`, which has no entries: decode 11.",
        },
        _ => Explanation {
            number: 23,
            name: "Memory",
            fields: FieldNames::Empty,
            meaning: "Out of memory while reading a text.",
            causes: "Too little memory is free.",
            example: "A limit set by `ulimit -v` is too low.",
        },
    }
}

/// A program's structure.
#[rattlefmt::skip]
pub(crate) fn structure(number: u8) -> Explanation
    requires least { 30 ≤ number }
    requires most { number ≤ 34 }
    ensures { IsRowOf number result }
{
    match number {
        30 => Explanation {
            number: 30,
            name: "JumpBackward",
            fields: FieldNames::One("slot"),
            meaning: "A jump goes backwards.",
            causes: "A loop: programs have none, so that each ends. Unroll it.",
            example: "`ja -1`.",
        },
        31 => Explanation {
            number: 31,
            name: "JumpOutside",
            fields: FieldNames::One("slot"),
            meaning: "A jump goes past the last slot.",
            causes: "The distance was counted wrongly: it counts slots from the one after the jump, and `lddw`, `ldmap` and `ldval` take two.",
            example: "`jeq r0, 0, +9` near the end of the program.",
        },
        32 => Explanation {
            number: 32,
            name: "JumpIntoWide",
            fields: FieldNames::One("slot"),
            meaning: "A jump goes to the second slot of a wide instruction.",
            causes: "The distance was counted in instructions, not in slots.",
            example: "`jeq r0, 0, +1` before `lddw r0, 0x0000000000000002`: write `+2` to pass it.",
        },
        33 => Explanation {
            number: 33,
            name: "FallsOff",
            fields: FieldNames::One("slot"),
            meaning: "The last instruction goes on past the end.",
            causes: "The program does not end with `exit`.",
            example: "`mov r0, 2` as the whole program.",
        },
        _ => Explanation {
            number: 34,
            name: "Unreachable",
            fields: FieldNames::One("slot"),
            meaning: "No path leads to an instruction.",
            causes: "It comes after a jump that is always taken, or after `exit`, and no jump goes to it.",
            example: "`ja +1`, `mov r0, 1`, `exit`: the move is never reached.",
        },
    }
}

/// What a program does with registers and memory.
#[rattlefmt::skip]
pub(crate) fn kinds(number: u8) -> Explanation
    requires least { 35 ≤ number }
    requires most { number ≤ 49 }
    ensures { IsRowOf number result }
{
    match number {
        35 => Explanation {
            number: 35,
            name: "UnsetRegister",
            fields: FieldNames::Two("slot", "register"),
            meaning: "An instruction reads a register that is not written on every path that leads there.",
            causes: "The register was never written; or only on one side of a test; or a call came between, after which r1 to r5 are unset; or \
                helper 44 \
                moved the packet's start, after which packet pointers are; or two paths bring it with kinds that do not agree.",
            example: "`exit` alone: r0 has to be written first.",
        },
        36 => Explanation {
            number: 36,
            name: "WrongKind",
            fields: FieldNames::Two("slot", "register"),
            meaning: "An instruction uses a register of a kind that it cannot take.",
            causes: "A lookup's result is used before it is compared with 0; two pointers are added; a number is used as an address; a pointer is \
                multiplied or compared with a number.",
            example: "`ldxdw r3, [r0+0]` after a lookup: put `jeq r0, 0, +1` before it.",
        },
        37 => Explanation {
            number: 37,
            name: "PacketBounds",
            fields: FieldNames::One("slot"),
            meaning: "Bytes of the packet are read or written that no test has shown to be there.",
            causes: "The end of the access was not compared with the packet's end (r1+4) on the path that leads here, the test shows fewer bytes, \
                or an \
                offset may go above 65535.",
            example: "`mov r4, r2`, `add r4, 14`, `jgt r4, r3, +n` shows that 14 bytes are there: those at [r2+0] to [r2+13].",
        },
        38 => Explanation {
            number: 38,
            name: "StackBounds",
            fields: FieldNames::One("slot"),
            meaning: "An address is outside the 512 bytes of the stack.",
            causes: "The offset from r10 is above -1 or below -512, or the access goes past r10.",
            example: "`stw [r10-2], 0` writes four bytes, two of them past the stack.",
        },
        39 => Explanation {
            number: 39,
            name: "StackUnset",
            fields: FieldNames::One("slot"),
            meaning: "A byte of the stack is read that was not written on every path, or a key or a value has a byte of a stored pointer.",
            causes: "A key was written in part, or on one path alone.",
            example: "A key of 4 bytes at r10-4 of which only `sth [r10-4], 0` was written.",
        },
        40 => Explanation {
            number: 40,
            name: "ValueBounds",
            fields: FieldNames::One("slot"),
            meaning: "An address is outside a map's value.",
            causes: "The access ends past the value: its offset and its size are together more than the value's size.",
            example: "`ldxdw r3, [r0+4]` where values have 8 bytes.",
        },
        41 => Explanation {
            number: 41,
            name: "Misaligned",
            fields: FieldNames::One("slot"),
            meaning: "An access is not aligned to its size.",
            causes: "Accesses to the stack and to values, and all atomic operations, must be at a multiple of their size.",
            example: "`stw [r10-6], 0`: 4 bytes may stand at -4 or -8.",
        },
        42 => Explanation {
            number: 42,
            name: "ContextAccess",
            fields: FieldNames::One("slot"),
            meaning: "There is no such field of the context, or it is not read with this size, or it is written.",
            causes: "The context in r1 has words of four bytes at 0 (packet), 4 (its end), 12 (interface) and 16 (receive queue), which can only \
                be read.",
            example: "`ldxdw r2, [r1+0]`: write `ldxw`.",
        },
        43 => Explanation {
            number: 43,
            name: "ReadOnlyFp",
            fields: FieldNames::One("slot"),
            meaning: "An instruction writes r10.",
            causes: "r10 is the upper end of the stack, and stays so.",
            example: "`add r10, -8`: copy it first, `mov r2, r10`, `add r2, -8`.",
        },
        44 => Explanation {
            number: 44,
            name: "UnknownHelper",
            fields: FieldNames::One("slot"),
            meaning: "There is no helper of this number.",
            causes: "The helpers are 1 (lookup), 2 (update), 3 (delete), 5 (time), 8 (worker) and 44 (moves the packet's start).",
            example: "`call 6`.",
        },
        45 => Explanation {
            number: 45,
            name: "BadArgument",
            fields: FieldNames::Two("slot", "register"),
            meaning: "An argument of a call is of the wrong kind.",
            causes: "r1 is not a map (helper 44: not the context), r2 or r3 does not point to the stack, or an argument that must be a number is \
                not (r4 of helper 2, r2 of helper 44).",
            example: "A key that lies in the packet: copy it to the stack first.",
        },
        46 => Explanation {
            number: 46,
            name: "PointerLeak",
            fields: FieldNames::One("slot"),
            meaning: "A pointer would become readable as a number.",
            causes: "It is stored in a map's value or in the packet, a part of it is stored or loaded, or the program ends with a pointer in r0.",
            example: "`mov r0, r1`, `exit`.",
        },
        47 => Explanation {
            number: 47,
            name: "UnknownMap",
            fields: FieldNames::One("slot"),
            meaning: "There is no map at this place of the image's list.",
            causes: "Places count from 0.",
            example: "`ldmap r1, 1` in an image with one map.",
        },
        48 => Explanation {
            number: 48,
            name: "Memory",
            fields: FieldNames::Empty,
            meaning: "Out of memory while verifying a program.",
            causes: "Too little memory is free.",
            example: "A limit set by `ulimit -v` is too low.",
        },
        _ => Explanation {
            number: 49,
            name: "NotArrayMap",
            fields: FieldNames::One("slot"),
            meaning: "`ldval` names a map that is not an array.",
            causes: "`ldval` gives an address in element 0 of an array, which is always there; a hash map's value has to be looked up.",
            example: "`ldval r1, 0, 0` where map 0 is `hash`.",
        },
    }
}

/// Shards, journals and runs.
#[rattlefmt::skip]
pub(crate) fn shards(number: u8) -> Explanation
    requires least { 50 ≤ number }
    requires most { number ≤ 56 }
    ensures { IsRowOf number result }
{
    match number {
        50 => Explanation {
            number: 50,
            name: "JournalFull",
            fields: FieldNames::One("shard"),
            meaning: "A shard's journal has no room for the call; one entry is reserved for the Leave of each run that is inside.",
            causes: "The journal was opened too small for the calls that are made: open it larger (--journal), open more shards (--shards), over \
                which the keys of hash maps are spread, or replay without rows (--no-journals).",
            example: "A journal of 16 entries and a run that makes twenty lookups.",
        },
        51 => Explanation {
            number: 51,
            name: "BadOptions",
            fields: FieldNames::Empty,
            meaning: "Shards cannot be opened with these options, or there is no such worker.",
            causes: "`--workers` is 1 to 8; `--shards`, of each map, is 1, 2, 4 or 8, and each map's entries are a multiple of it; `--journal`, \
                the entries \
                of each shard, is 16 to 1,048,576; `--worker`, whose run it is, counts from 0; a script with commands wants the maps of steering.",
            example: "`xlb run IMAGE FRAME --worker 8`.",
        },
        52 => Explanation {
            number: 52,
            name: "Memory",
            fields: FieldNames::Empty,
            meaning: "Out of memory for shards, journals or an audit.",
            causes: "All memory of the shards is taken when they are opened.",
            example: "Many large maps, or a limit set by `ulimit -v`.",
        },
        53 => Explanation {
            number: 53,
            name: "Illegal",
            fields: FieldNames::Two("shard", "place"),
            meaning: "A journal has an entry that a one-thread map would not make.",
            causes: "The reply is not the one that follows from the entries before it, the caller may not make the call, or the journal was full. \
                Places \
                count from 0, so place 3 of shard 0 is the fourth line of that shard.",
            example: "`word 1` where the element held 2.",
        },
        54 => Explanation {
            number: 54,
            name: "PassTaken",
            fields: FieldNames::Empty,
            meaning: "The caller's pass was handed out already.",
            causes: "Each worker, the controller and the reclaimer get theirs once.",
            example: "Asking twice for the pass of worker 0.",
        },
        55 => Explanation {
            number: 55,
            name: "BadJournalFile",
            fields: FieldNames::One("line"),
            meaning: "A line of the journals file is not valid where it stands.",
            causes: "A header with options that do not fit the image's maps, a misspelt line, a key or a value of another length than its map's, a \
                shard number below that of the line above, or a last line without its line feed.",
            example: "`XLBJ 1 9 1 16`: there are at most 8 workers.",
        },
        _ => Explanation {
            number: 56,
            name: "NoThread",
            fields: FieldNames::Empty,
            meaning: "A thread could not be started.",
            causes: "The system allows no more threads to this user.",
            example: "A limit set by `ulimit -u` is too low.",
        },
    }
}

/// Rings of backends.
#[rattlefmt::skip]
pub(crate) fn rings(number: u8) -> Explanation
    requires least { 70 ≤ number }
    requires most { number ≤ 74 }
    ensures { IsRowOf number result }
{
    match number {
        70 => Explanation {
            number: 70,
            name: "NoBackend",
            fields: FieldNames::Empty,
            meaning: "A lookup table needs at least one backend.",
            causes: "All backends are down.",
            example: "An empty list.",
        },
        71 => Explanation {
            number: 71,
            name: "Twice",
            fields: FieldNames::Empty,
            meaning: "Two backends have the same number or the same address.",
            causes: "A backend was entered twice.",
            example: "Numbers 0 and 1 with the address 192.0.2.1 both.",
        },
        72 => Explanation {
            number: 72,
            name: "TooMany",
            fields: FieldNames::Empty,
            meaning: "There are too many backends for the lookup table.",
            causes: "There are more than 256, or more than the ring has slots.",
            example: "Eight backends for a ring of 7 slots.",
        },
        73 => Explanation {
            number: 73,
            name: "BadSize",
            fields: FieldNames::Empty,
            meaning: "A lookup table or a flow table has an unsupported size.",
            causes: "A lookup table has 7, 251, 4093 or 65537 slots, a flow table 4096, 8192, 16384, 32768, 65536 or 131072 entries.",
            example: "A lookup table of 256 slots.",
        },
        _ => Explanation {
            number: 74,
            name: "Memory",
            fields: FieldNames::Empty,
            meaning: "Out of memory for a lookup table or an image.",
            causes: "Too little memory is free.",
            example: "A limit set by `ulimit -v` is too low.",
        },
    }
}

/// Tunnels.
#[rattlefmt::skip]
pub(crate) fn tunnels(number: u8) -> Explanation
    requires least { 80 ≤ number }
    requires most { number ≤ 83 }
    ensures { IsRowOf number result }
{
    match number {
        80 => Explanation {
            number: 80,
            name: "TtlZero",
            fields: FieldNames::Empty,
            meaning: "A packet to be tunnelled has a time to live of 0.",
            causes: "It should not have been sent.",
            example: "Byte 22 of the frame is 0.",
        },
        81 => Explanation {
            number: 81,
            name: "TooLong",
            fields: FieldNames::Empty,
            meaning: "A packet to be tunnelled has more than 1480 bytes.",
            causes: "With its outer header it would be longer than 1500.",
            example: "A packet of 1481 bytes.",
        },
        82 => Explanation {
            number: 82,
            name: "NoRoom",
            fields: FieldNames::Empty,
            meaning: "There is no room before the frame for an outer header of 20 bytes.",
            causes: "It was tunnelled as often as its headroom allows.",
            example: "The thirteenth tunnel of one frame.",
        },
        _ => Explanation {
            number: 83,
            name: "NotPlainIpv4",
            fields: FieldNames::Empty,
            meaning: "A frame has no whole IPv4 packet without options.",
            causes: "It is another protocol, has options, or is cut.",
            example: "A frame of ARP.",
        },
    }
}

/// Scripts.
#[rattlefmt::skip]
pub(crate) fn scripts(number: u8) -> Explanation
    requires least { 90 ≤ number }
    requires most { number ≤ 95 }
    ensures { IsRowOf number result }
{
    match number {
        90 => Explanation {
            number: 90,
            name: "BadLine",
            fields: FieldNames::One("line"),
            meaning: "A line of the script is not a command in canonical form.",
            causes: "A misspelt command, capitals, a number with a leading zero or too large, a frame number below that of the line above, two \
                spaces, a space \
                or a carriage return at the line's end, or a last line without its line feed.",
            example: "`0 up 0 192.0.2.01`.",
        },
        91 => Explanation {
            number: 91,
            name: "UnknownBackend",
            fields: FieldNames::Empty,
            meaning: "A script takes a backend down that is not up, or brings up a number that is too large.",
            causes: "Numbers are below 256 and below the ring's size.",
            example: "`0 down 3` where no backend is up.",
        },
        92 => Explanation {
            number: 92,
            name: "BackendTwice",
            fields: FieldNames::Empty,
            meaning: "A script brings up a backend whose number or address is up.",
            causes: "It was not taken down before.",
            example: "`0 up 0 10.0.0.1`, twice.",
        },
        93 => Explanation {
            number: 93,
            name: "Refused",
            fields: FieldNames::One("answer"),
            meaning: "A map refused what the controller set, a service's address or a value of `--update`; the answer is Linux's error number, \
                negated.",
            causes: "The map is full: -7; an array has no such element: -7.",
            example: "The 65th service of one shard.",
        },
        94 => Explanation {
            number: 94,
            name: "JournalFull",
            fields: FieldNames::Empty,
            meaning: "A journal was full when the controller changed maps.",
            causes: "The journal was opened too small (`--journal`, `--no-journals`); every later command is refused too.",
            example: "A journal of 16 entries and a ring of 251 slots.",
        },
        _ => Explanation {
            number: 95,
            name: "Memory",
            fields: FieldNames::Empty,
            meaning: "Out of memory for a script or one of its commands.",
            causes: "Too little memory is free.",
            example: "A limit set by `ulimit -v` is too low.",
        },
    }
}

/// A run that was stopped.
#[rattlefmt::skip]
pub(crate) fn stopped() -> Explanation
    ensures { IsRowOf 60 result }
{
    Explanation {
        number: 60,
        name: "JournalFull",
        fields: FieldNames::One("shard"),
        meaning: "A run was stopped because a shard's journal has no room for its next call.",
        causes: "The journal was opened too small for the calls of all runs together: open it larger (--journal), open more shards (--shards), \
            over which the keys of hash maps are spread, or replay without rows (--no-journals).",
        example: "A program of more lookups than the journal has entries.",
    }
}
