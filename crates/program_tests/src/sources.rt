//! Worked sources.

use crate::asserting::{holds, same, same_text};
use disasm::{assemble, text};
use ebpf_decode::DecodeFault;
use source_form::{
    Problem, SourceFault, assemble_source, begins_as_source, exact_text, explain, slot_note, source,
};
use std::alloc::Global;
use std::process::Abort;
use test_support::programs::FIRST_RUN;

/// The first run as people write it.
const FIRST_RUN_SOURCE: &str = "# adds a number to the byte 13
version 1
map array 4 8 1   # key 0: the number

  ldxw r2, [r1+0]
  ldxw r3,[r1+0x4]
  mov\tr4, r2
  add r4, 0xe
  mov   r0,2
  jgt r4, r3, out   # no byte 13\r
  ldxb r6, [r2+0x0D]
  stw [r10-0x4], 0
  mov r2, r10
  add r2, -0x4
  ldmap r1, 0
  call bpf_map_lookup_elem
  jeq r0, 0x0, out
  ldxdw r7, [r0+0]
  add r6, r7
  mov r0, r6
out:
  exit";

/// `examples/first_run.source.txt`.
const EXAMPLE: &str =
    "# Answers byte 13 of the frame plus the number in element 0: 1 drops the frame, 2 passes it on, 3 sends it.
version 1
map array 4 8 1                # map 0: the number to add

    ldxw r2, [r1+0]            # where the frame begins
    ldxw r3, [r1+4]            # where it ends
    mov  r4, r2
    add  r4, 0xe
    mov  r0, 2
    jgt  r4, r3, out           # fewer than 14 bytes: pass

    ldxb r6, [r2+0xd]          # byte 13
    stw  [r10-4], 0            # the key 0
    mov  r2, r10
    add  r2, -4
    ldmap r1, 0
    call map_lookup_elem
    jeq  r0, 0, out            # no such element

    ldxdw r7, [r0+0]
    add  r6, r7
    mov  r0, r6
out:
    exit
";

/// Compares the exact text that a source means.
fn is_meant(rt: &impl Abort, alloc: Global, name: &str, written: &str, want: &str) {
    let exact = exact_text(alloc, written).expect(rt, "an exact text");
    same_text(rt, name, &exact, want);
}

/// The exact text of a source's image.
fn text_of(rt: &impl Abort, alloc: Global, written: &str) -> String {
    let image = assemble_source(alloc, written).expect(rt, "an image");
    text(alloc, &image).expect(rt, "memory")
}

#[test]
fn first_run(rt: HostRuntime) {
    is_meant(&rt, rt.alloc(), "the example", EXAMPLE, FIRST_RUN);
    is_meant(&rt, rt.alloc(), "the source", FIRST_RUN_SOURCE, FIRST_RUN);
    let image = text_of(&rt, rt.alloc(), FIRST_RUN_SOURCE);
    same_text(&rt, "the source's image", &image, FIRST_RUN);
}

// A line of a source, behind a first line, and the line of the exact text.
#[rattlefmt::skip]
const LINES: [(&str, &str); 38] = [
    ("add r1, -0x5",              "add r1, -5\n"),
    ("\tmov\t r1 ,\tr2  # moved", "mov r1, r2\n"),
    ("exit#",                     "exit\n"),
    ("#exit",                     ""),
    ("",                          ""),
    ("name.1_a:",                 ""),
    ("drop: mov r0, 0x1 # both",  "mov r0, 1\n"),
    ("a:exit",                    "exit\n"),
    (" a:\tmap hash 4 8 16",      "map hash 4 8 16\n"),
    ("stxdw [r10-0x10],r1",       "stxdw [r10-16], r1\n"),
    ("ldxw r1, [r2+0xFf]",        "ldxw r1, [r2+255]\n"),
    ("acmpxchgdw [r1+0x0],  r2",  "acmpxchgdw [r1+0], r2\n"),
    ("lddw r1, 0x2",              "lddw r1, 0x0000000000000002\n"),
    ("lddw r1,18446744073709551615", "lddw r1, 0xffffffffffffffff\n"),
    ("lddw r1, 0xFFFFFFFFFFFFFFFF", "lddw r1, 0xffffffffffffffff\n"),
    ("ldval r1, 0x1, 0x8",        "ldval r1, 1, 8\n"),
    ("ja +0x10",                  "ja +16\n"),
    ("jeq32 r1, 0xa, -0x1",       "jeq32 r1, 10, -1\n"),
    ("call 0x1",                  "call 1\n"),
    ("call -1",                   "call -1\n"),
    ("call map_lookup_elem",      "call 1\n"),
    ("call map_update_elem",      "call 2\n"),
    ("call bpf_map_delete_elem",  "call 3\n"),
    ("call ktime_get_ns",         "call 5\n"),
    ("call bpf_get_smp_processor_id", "call 8\n"),
    ("call xdp_adjust_head",      "call 44\n"),
    ("map hash 4 8 16 # a map",   "map hash 4 8 16\n"),
    ("mov r1, 0x9e3779b1",        "mov r1, -1640531535\n"),
    ("mov32 r1,4294967295",       "mov32 r1, -1\n"),
    ("and r1, 2147483648",        "and r1, -2147483648\n"),
    ("and r1, 0x7fffffff",        "and r1, 2147483647\n"),
    ("jgt r1, 0x80000000, +1",    "jgt r1, -2147483648, +1\n"),
    ("stw [r10-4], 0xffffffff",   "stw [r10-4], -1\n"),
    ("ldval r1, 0, 0xffffffff",   "ldval r1, 0, 4294967295\n"),
    ("call 0xffffffff",           "call 4294967295\n"),
    ("mov r1, 04294967295",       "mov r1, 04294967295\n"),
    ("mov r1, 0x100000000",       "mov r1, 4294967296\n"),
    ("mov r1, -0x80000001",       "mov r1, -2147483649\n"),
];

/// Compares the line of the exact text that a line of a source means.
fn line_is_meant(rt: &impl Abort, alloc: Global, written: &str, want: &str) {
    let source = format!(in alloc; "version 1\n{written}").expect(rt, "memory");
    let want = format!(in alloc; "version 1\n{want}").expect(rt, "memory");
    is_meant(rt, alloc, written, &source, &want);
}

/// The same of each line.
fn lines_are_meant(rt: &impl Abort, alloc: Global, rows: &[(&str, &str)]) {
    for (written, want) in rows {
        line_is_meant(rt, alloc, written, want);
    }
}

#[test]
fn lines(rt: HostRuntime) {
    lines_are_meant(&rt, rt.alloc(), &LINES);
}

// The slots: a heading has none, a wide instruction two.
#[rattlefmt::skip]
const LABELS: [(&str, &str); 8] = [
    ("ja x\nlddw r1, 1\nx:\nexit\n",           "ja +2\nlddw r1, 0x0000000000000001\nexit\n"),
    ("version 1\nmap hash 4 8 1\nja x\nx:\n",  "version 1\nmap hash 4 8 1\nja +0\n"),
    ("x:\n\n# back\nmov r0, 1\nja32 x\n",      "mov r0, 1\nja32 -2\n"),
    ("x:\njne r1, r2, x\ny:\njne r1, 0x2, y",  "jne r1, r2, -1\njne r1, 2, -1\n"),
    ("ja a\nldmap r1, 0\nb:\nldval r1, 0, 8\na:\nja b\n", "ja +4\nldmap r1, 0\nldval r1, 0, 8\nja -3\n"),
    ("jeq r1, 0, drop\nexit\ndrop: mov r0, 1\nexit\n", "jeq r1, 0, +1\nexit\nmov r0, 1\nexit\n"),
    ("x: lddw r1, 1\ny: ja x\nja y",          "lddw r1, 0x0000000000000001\nja -3\nja -2\n"),
    ("a: ja a\nb: ja32 b",                    "ja -1\nja32 -1\n"),
];

/// Compares the exact text that each source means.
fn labels_are_meant(rt: &impl Abort, alloc: Global, rows: &[(&str, &str)]) {
    for (written, want) in rows {
        is_meant(rt, alloc, written, written, want);
    }
}

#[test]
fn labels(rt: HostRuntime) {
    labels_are_meant(&rt, rt.alloc(), &LABELS);
}

// A bad source, the line, what is wrong, and the words for it.
#[rattlefmt::skip]
const BAD: [(&str, usize, Problem, &str); 37] = [
    ("version 1\na:\nexit\n a: # again\n", 4, Problem::LabelTwice, "  \"a:\": an earlier line has this label\n"),
    ("version 1\n5a:\nexit\n", 2, Problem::NoLabelName,
        "  \"5a:\": expected a label's name before the colon: letters, digits, _ and ., no digit first\n"),
    ("version 1\na b:\nexit\n", 2, Problem::NoLabelName,
        "  \"a b:\": expected a label's name before the colon: letters, digits, _ and ., no digit first\n"),
    (":", 1, Problem::NoLabelName, "  \":\": expected a label's name before the colon: letters, digits, _ and ., no digit first\n"),
    ("version 1\njeq r1, 2, out\nexit\n", 2, Problem::UnknownLabel,
        "  \"out\": no line has the label out: (a distance has its sign, as +3)\n"),
    ("version 1\ncall map_lookup\n", 2, Problem::UnknownHelper,
        "  \"map_lookup\": no such helper: expected a number, map_lookup_elem, map_update_elem, map_delete_elem, ktime_get_ns, \
         get_smp_processor_id or xdp_adjust_head\n"),
    ("version 1\n\nmov r1, 0xg\n", 3, Problem::NoNumber,
        "  \"0xg\": no number: expected decimal digits, or 0x and hexadecimal digits, of 64 bits at most\n"),
    ("version 1\nmov r1, 10x5\n", 2, Problem::NoNumber,
        "  \"10x5\": no number: expected decimal digits, or 0x and hexadecimal digits, of 64 bits at most\n"),
    ("version 1\nmov r1, 0x\n", 2, Problem::NoNumber,
        "  \"0x\": no number: expected decimal digits, or 0x and hexadecimal digits, of 64 bits at most\n"),
    ("version 1\nmov r1, 0x+5\n", 2, Problem::NoNumber,
        "  \"0x+5\": no number: expected decimal digits, or 0x and hexadecimal digits, of 64 bits at most\n"),
    ("version 1\nlddw r1, 0x10000000000000000\n", 2, Problem::NoNumber,
        "  \"0x10000000000000000\": no number: expected decimal digits, or 0x and hexadecimal digits, of 64 bits at most\n"),
    ("version 1\nlddw r1, -1\n", 2, Problem::NoNumber,
        "  \"-1\": no number: expected decimal digits, or 0x and hexadecimal digits, of 64 bits at most\n"),
    ("version 1\n# c\njqe r1, 2, +3\nexit\n", 3, Problem::NoSpelling, "  \"jqe\": no such instruction\n"),
    ("version 1\nexit\nmov r11, 2\n", 3, Problem::NoSpelling, "  \"r11\": expected a register, r0 to r10\n"),
    ("version 1\na:\nmov r1, 0x100000000\n", 3, Problem::NoSpelling,
        "  \"0x100000000\": expected a register, r0 to r10, or a number from -2147483648 to 4294967295\n"),
    ("version 1\nmov r1, 04294967295\n", 2, Problem::NoSpelling, "  \"04294967295\": expected a number without a zero in front\n"),
    ("version 1\ncall 0xffffffff\n", 2, Problem::NoSpelling, "  \"0xffffffff\": expected a number from -2147483648 to 2147483647\n"),
    ("version 1\nldmap r1, 4294967295\n", 2, Problem::NoSpelling, "  \"4294967295\": expected a number from -2147483648 to 2147483647\n"),
    ("version 2\nldval r1, 0, -1\n", 2, Problem::NoSpelling, "  \"-1\": expected a number from 0 to 4294967295\n"),
    ("version 1\nldxw r0, [r1+70000]\n", 2, Problem::NoSpelling, "  \"[r1+70000]\": expected an offset from -32768 to +32767\n"),
    ("version 1\njeq r1, 5, +70000\n", 2, Problem::NoSpelling,
        "  \"+70000\": expected a label, or a distance with its sign as +3, from -32768 to +32767\n"),
    ("version 1\nja32 3\n", 2, Problem::NoSpelling,
        "  \"3\": expected a label, or a distance with its sign as +3, from -2147483648 to +2147483647\n"),
    ("version 1\nstxdw [r10-8], 5\n", 2, Problem::NoSpelling, "  \"5\": expected a register, r0 to r10: stdw stores a number\n"),
    ("version 1\njeq r1, 5\n", 2, Problem::NoSpelling,
        "  \"jeq\": an operand is missing: a label, or a distance with its sign as +3, from -32768 to +32767\n"),
    ("version 1\njeq r1, 5, 3\n", 2, Problem::NoSpelling,
        "  \"3\": expected a label, or a distance with its sign as +3, from -32768 to +32767\n"),
    ("version 1\nexit r1\n", 2, Problem::NoSpelling, "  \"r1\": no operand is expected here\n"),
    ("version 1\nldxw r0, [r1]\n", 2, Problem::NoSpelling, "  \"[r1]\": expected a place as [r1+0] or [r10-8]\n"),
    ("version 1\nstw [4+r1], 0\n", 2, Problem::NoSpelling, "  \"[4+r1]\": expected a place as [r1+0] or [r10-8]\n"),
    ("version 1\nstdw [r10-8], r1\n", 2, Problem::NoSpelling,
        "  \"r1\": expected a number from -2147483648 to 4294967295: stxdw stores a register\n"),
    ("version 1\na: out: exit\n", 2, Problem::NoNumber, "  \"out:\": a line has one label at most\n"),
    ("version 1\na: b:\nexit\n", 2, Problem::NoSpelling, "  \"b:\": a line has one label at most\n"),
    ("version 1\na: exit\na: exit\n", 3, Problem::LabelTwice, "  \"a:\": an earlier line has this label\n"),
    ("version 1\nmov r0: 2\n", 2, Problem::NoLabelName,
        "  \"mov r0:\": expected a label's name before the colon: letters, digits, _ and ., no digit first\n"),
    ("version 1\nja x\nx: mov r0, two\n", 3, Problem::NoSpelling,
        "  \"two\": expected a register, r0 to r10, or a number from -2147483648 to 4294967295\n"),
    ("version 1\nout: call lookup # none\n", 2, Problem::UnknownHelper,
        "  \"lookup\": no such helper: expected a number, map_lookup_elem, map_update_elem, map_delete_elem, ktime_get_ns, get_smp_processor_id or \
         xdp_adjust_head\n"),
    ("version 3\nexit\n", 1, Problem::NoSpelling,
        "  expected version 1 or version 2 on the first line, then map KIND KEY-BYTES VALUE-BYTES ENTRIES (hash, array or lru) before the \
         instructions\n"),
    ("", 1, Problem::NoSpelling,
        "  expected version 1 or version 2 on the first line, then map KIND KEY-BYTES VALUE-BYTES ENTRIES (hash, array or lru) before the \
         instructions\n"),
];

/// What is wrong with a source, if anything is.
fn fault_of(alloc: Global, written: &str) -> Option<SourceFault> {
    assemble_source(alloc, written).err()
}

/// Compares what is wrong with a source, and the words for it.
fn is_refused(
    rt: &impl Abort,
    alloc: Global,
    name: &str,
    written: &str,
    fault: SourceFault,
    words: &str,
) {
    same(rt, name, &fault_of(alloc, written), &Some(fault));
    let printed = explain(alloc, written, fault).expect(rt, "memory");
    same_text(rt, name, &printed, words);
}

/// The same of each source with a bad line.
fn are_refused(rt: &impl Abort, alloc: Global, rows: &[(&str, usize, Problem, &str)]) {
    for (written, line, problem, words) in rows {
        let fault = SourceFault::BadLine {
            line: *line,
            problem: *problem,
        };
        is_refused(rt, alloc, written, written, fault, words);
    }
}

#[test]
fn bad_lines(rt: HostRuntime) {
    are_refused(&rt, rt.alloc(), &BAD);
}

// A source that no image comes of though each line is right, why, and the words for it.
#[rattlefmt::skip]
const NO_IMAGE: [(&str, DecodeFault, &str); 5] = [
    ("version 1\nmap array 4 8 1\n# two\nx: map hash 4 8 0\nexit\n", DecodeFault::BadMap { map: 1 },
        "  line 4: map 1 has a size that no such map may have\n"),
    ("version 1\nmap array 4 8 1\nmap array 4 8 1\nmap array 4 8 1\nmap array 4 8 1\nmap array 4 8 1\nmap array 4 8 1\nmap array 4 8 1\n\
      map array 4 8 1\nmap array 4 8 1\nmap array 4 8 1\nmap array 4 8 1\nmap array 4 8 1\nmap array 4 8 1\nmap array 4 8 1\nmap array 4 8 1\n\
      map array 4 8 1\nmap array 4 8 1\nexit\n", DecodeFault::BadHead, "  line 18: an image has at most 16 maps\n"),
    ("# nothing\nversion 1\nmap array 4 8 1\nend:\n", DecodeFault::Empty, "  there is no instruction\n"),
    ("version 1\nmap array 4 8 1\n\nldval r1, 0, 0\nexit\n", DecodeFault::NotInProfile { slot: 0 },
        "  line 4, slot 0: images of this version have no such instruction\n"),
    ("version 1\nmap array 4 8 1\nlddw r1, 0x5\nb: mov r2, r1\na:  # three slots\nldval r1, 0, 0\nexit\n",
        DecodeFault::NotInProfile { slot: 3 }, "  line 6, slot 3: images of this version have no such instruction\n"),
];

/// Compares why no image comes of each source, and the words for it.
fn make_no_image(rt: &impl Abort, alloc: Global, rows: &[(&str, DecodeFault, &str)]) {
    for (written, why, words) in rows {
        let fault = SourceFault::Image(*why);
        is_refused(rt, alloc, written, written, fault, words);
    }
}

#[test]
fn no_image(rt: HostRuntime) {
    make_no_image(&rt, rt.alloc(), &NO_IMAGE);
}

/// After 4095 slots on the lines up to 2050, a label, and an instruction of these words.
fn long_source(rt: &impl Abort, alloc: Global, last: &str) -> String {
    let mut written = String::from_str(alloc, "version 1\n\n").expect(rt, "memory");
    for _ in 0..2047 {
        written.push_str("lddw r1, 0\n").expect(rt, "memory");
    }
    written.push_str("mov r0, 2\nend:\n").expect(rt, "memory");
    written.push_str(last).expect(rt, "memory");
    written
}

#[test]
fn too_long(rt: HostRuntime) {
    let fits = long_source(&rt, rt.alloc(), "exit\n");
    same(&rt, "4096 slots", &fault_of(rt.alloc(), &fits), &None);
    let long = long_source(&rt, rt.alloc(), "lddw r1, 0\n");
    let fault = SourceFault::Image(DecodeFault::TooLong);
    let words = "  line 2052: an image has at most 4096 slots\n";
    is_refused(&rt, rt.alloc(), "4097 slots", &long, fault, words);
}

// An instruction of each form, and jumps to all sides: to a label, into a wide instruction, and out of the program.
const FORMS: &str = "version 2
map hash 4 8 16
map array 4 8 1
map lru 2 16 3
add r1, -5
xor32 r2, r3
neg r1
neg32 r4
movsx8 r1, r2
movsx1632 r1, r2
le16 r1
swap64 r1
ja +3
ja32 -4
jeq r1, 5, +0
jsle32 r1, r2, -1
jgt r1, r2, +6
ja -100
ldxdw r1, [r2-8]
ldxsb r1, [r2+1]
stw [r10-4], -7
stxb [r10-4], r1
aaddw [r1+0], r2
afxordw [r1+0], r2
lddw r1, 0x00000000ffffffff
ja -2
ldmap r1, 2
ldval r1, 1, 8
call 44
exit
";

/// What `source` prints of a text's image.
fn source_of(rt: &impl Abort, alloc: Global, exact: &str) -> String {
    let image = assemble(alloc, exact).expect(rt, "an image");
    source(alloc, &image).expect(rt, "memory")
}

/// The text of the image of what `source` prints of a text's image.
fn there_and_back(rt: &impl Abort, alloc: Global, exact: &str) -> String {
    let printed = source_of(rt, alloc, exact);
    text_of(rt, alloc, &printed)
}

/// Compares a text with what comes of it there and back.
fn comes_back(rt: &impl Abort, alloc: Global, name: &str, exact: &str) {
    let again = there_and_back(rt, alloc, exact);
    same_text(rt, name, &again, exact);
}

#[test]
fn each_form_there_and_back(rt: HostRuntime) {
    comes_back(&rt, rt.alloc(), "each form", FORMS);
    comes_back(&rt, rt.alloc(), "the first run", FIRST_RUN);
}

const SMALL: &str =
    "version 1\nmap array 4 8 1\njeq r1, 5, +2\nlddw r1, 0x0000000000000001\nja -4\n";

const SMALL_SOURCE: &str = "version 1
map array 4 8 1                  # map 0
L0:
    jeq r1, 5, L3                # slot 0
    lddw r1, 0x0000000000000001  # slot 1
L3:
    ja L0                        # slot 3
";

#[test]
fn printed_source(rt: HostRuntime) {
    let printed = source_of(&rt, rt.alloc(), SMALL);
    same_text(&rt, "a small source", &printed, SMALL_SOURCE);
}

/// A program of 4,096 slots whose first jump goes to its last instruction.
fn largest(rt: &impl Abort, alloc: Global, first: &str, last: &str) -> String {
    let mut out = String::from_str(alloc, "version 1\n").expect(rt, "memory");
    out.push_str(first).expect(rt, "memory");
    for _ in 0..4094 {
        out.push_str("mov r0, 2\n").expect(rt, "memory");
    }
    out.push_str(last).expect(rt, "memory");
    out
}

/// Holds whether this is the exact text that a source means.
fn is_exact(rt: &impl Abort, alloc: Global, written: &str, exact: &str) {
    let meant = exact_text(alloc, written).expect(rt, "an exact text");
    holds(rt, "the text that is meant", meant.as_str() == exact);
}

/// Holds whether a text comes there and back.
fn is_the_same_again(rt: &impl Abort, alloc: Global, exact: &str) {
    let again = there_and_back(rt, alloc, exact);
    holds(rt, "there and back", again.as_str() == exact);
}

#[test]
fn a_large_source(rt: HostRuntime) {
    let exact = largest(&rt, rt.alloc(), "ja +4094\n", "exit\n");
    let written = largest(&rt, rt.alloc(), "ja end\n", "end:\nexit\n");
    is_exact(&rt, rt.alloc(), &written, &exact);
    is_the_same_again(&rt, rt.alloc(), &exact);
}

// A source, a slot, and where its instruction is.
#[rattlefmt::skip]
const SLOTS: [(&str, u32, &str); 7] = [
    ("version 1\nmov r0, 2\nexit\n",                     0, "  line 2\n"),
    ("version 1\nmov r0, 2\nexit\n",                     1, "  line 3\n"),
    ("version 1\nlddw r1, 5\nexit\n",                    1, "  line 2\n"),
    ("version 1\nlddw r1, 5\nexit\n",                    2, "  line 3\n"),
    ("version 1\na:\nja b\n# no key\nb:\n\n  exit\n",    1, "  line 7, after label \"b\"\n"),
    ("version 1\na: mov r0, 2\nexit\nb:\n",             1, "  line 3, after label \"a\"\n"),
    ("version 1\na: mov r0, 2\nb: exit",                 1, "  line 3, after label \"b\"\n"),
];

/// Compares where the instruction of each slot is.
fn are_found(rt: &impl Abort, alloc: Global, rows: &[(&str, u32, &str)]) {
    for (written, slot, words) in rows {
        let printed = slot_note(alloc, written, *slot).expect(rt, "memory");
        same_text(rt, written, &printed, words);
    }
}

#[test]
fn slots(rt: HostRuntime) {
    are_found(&rt, rt.alloc(), &SLOTS);
}

// A file, and whether it begins as a source does.
#[rattlefmt::skip]
const BEGINNINGS: [(&str, bool); 8] = [
    ("version 1\nexit\n",             true),
    ("# a comment\n\n \tversion 2\n",  true),
    ("\r\n#\n#version\nversion",       true),
    ("",                              false),
    ("# version 1\n",                 false),
    ("XLBP version 1\n",              false),
    ("mov r0, 2\nversion 1\n",        false),
    ("0 vip 203.0.113.1 80 tcp\n",    false),
];

/// Compares whether each file begins as a source does.
fn begin_so(rt: &impl Abort, rows: &[(&str, bool)]) {
    for (written, is_source) in rows {
        holds(
            rt,
            written,
            begins_as_source(written.as_bytes()) == *is_source,
        );
    }
}

#[test]
fn beginnings(rt: HostRuntime) {
    begin_so(&rt, &BEGINNINGS);
}
