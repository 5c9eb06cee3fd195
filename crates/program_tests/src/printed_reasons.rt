//! Programs with what is printed of them, worked out by hand from the rules.

use crate::asserting::{holds, holds_of, same_text};
use disasm::assemble;
use reasons::explain;
use std::alloc::Global;
use std::process::Abort;
use verifier::survey_of;

const LOOKUP: &str =
    "version 1\nmap array 4 8 1\nstw [r10-4], 0\nmov r2, r10\nadd r2, -4\nldmap r1, 0\ncall 1\n";

/// What is printed of the program of a text.
fn explained(rt: &impl Abort, alloc: Global, head: &str, code: &str) -> String {
    let text = format!(in alloc; "{head}{code}").expect(rt, "memory");
    let image = assemble(alloc, &text).expect(rt, "an image");
    let survey = survey_of(alloc, &image).expect(rt, "memory");
    explain(alloc, &image, &survey).expect(rt, "memory")
}

/// A program, and the lines of what is printed of it up to the rule.
type Row = (&'static str, &'static str, &'static str);

const V1: &str = "version 1\n";

const V2: &str = "version 2\nmap array 4 8 1\n";

#[rattlefmt::skip]
const STRUCTURE: [Row; 5] = [
    (V1, "mov r0, 2\nja -1\nexit\n", "  slot 1: ja -1\n  the jump goes back"),
    (V1, "mov r0, 2\njeq r0, 2, +1\nexit\n", "  slot 1: jeq r0, 2, +1\n  the jump goes past the last slot\n"),
    (V1, "ja +1\nlddw r0, 0x0000000000000002\nexit\n", "  slot 0: ja +1\n  the jump goes to the second slot of a wide instruction\n"),
    (V1, "mov r0, 2\nadd r0, 1\n", "  slot 1: add r0, 1\n  the program goes on past its end\n"),
    (V1, "mov r0, 2\nja +1\nmov r0, 1\nexit\n", "  slot 2: mov r0, 1\n  no path leads here from slot 0\n"),
];

#[rattlefmt::skip]
const KINDS: [Row; 18] = [
    (V1, "exit\n", "  slot 0: exit\n  r0: unset\n  nothing is written to the register on a path that leads here from slot 0\n"),
    (V1, "mov r2, 1\nmov r0, r2\nadd r0, r7\nexit\n",
        "  slot 2: add r0, r7\n  r0: number 1\n  r7: unset\n  nothing is written to the register on a path"),
    (V1, "mov r2, 1\ncall 5\nmov r3, 1\nmov r0, r2\nexit\n",
        "  slot 3: mov r0, r2\n  r2: unset\n  slot 1: a call leaves r1 to r5 unset, and helper 44 every pointer into the packet\n  \
         remedy: keep what is needed later in r6 to r9 or on the stack; after helper 44 load the packet and its end again, and test anew\n"),
    (V1, "call 5\nmov r2, r1\nmov r0, 2\nexit\n", "  slot 1: mov r2, r1\n  r1: unset\n  slot 0: a call leaves r1 to r5 unset"),
    (LOOKUP, "jeq r0, 0, +0\nldxdw r3, [r0+0]\nmov r0, 2\nexit\n",
        "  slot 7: ldxdw r3, [r0+0]\n  r0: unset\n  slot 6: both edges of this jump lead to one slot"),
    (V1, "ldxw r2, [r1+16]\nmov r0, 2\njeq r2, 0, +2\nmov r3, 1\nja +1\nmov r3, r1\nmov r4, 1\nadd r0, r3\nexit\n",
        "  slot 7: add r0, r3\n  r0: number 2\n  r3: unset\n  \
         slot 4 brings number 1, slot 5 brings context, they meet at slot 6: the paths that meet there leave different kinds"),
    (V1, "ldxw r2, [r1+16]\nmov r0, 2\njeq r2, 0, +1\nmov r3, 1\nadd r0, r3\nexit\n",
        "  slot 4: add r0, r3\n  r0: number 2\n  r3: unset\n  \
         slot 2 brings unset, slot 3 brings number 1, they meet at slot 4: the paths that meet there leave different kinds"),
    (LOOKUP, "ldxdw r3, [r0+0]\nmov r0, 2\nexit\n",
        "  slot 6: ldxdw r3, [r0+0]\n  r0: value of map 0 or null from slot 5\n  what a lookup gave may be null\n"),
    (V1, "mov r2, 5\nldxb r0, [r2+0]\nexit\n", "  slot 1: ldxb r0, [r2+0]\n  r2: number 5\n  memory is reached only from"),
    (V1, "mov r0, r1\nmul r0, 2\nexit\n", "  slot 1: mul r0, 2\n  r0: context\n  the only arithmetic with a pointer"),
    (V1, "ldxw r3, [r1+16]\nmov r2, r10\nadd r2, r3\nexit\n",
        "  slot 2: add r2, r3\n  r2: stack r10-0\n  r3: number 0..7\n  such a pointer moves only by"),
    (V1, "mov r0, 2\njeq r1, 0, +0\nexit\n", "  slot 1: jeq r1, 0, +0\n  r1: context\n  a test compares"),
    (V1, "mov r0, 2\nstdw [r10-8], 0\naadddw [r10-8], r0\nexit\n",
        "  slot 2: aadddw [r10-8], r0\n  r10: stack r10-0\n  r0: number 2\n  stack r10-8: spilled number 0\n  atomic operations work on"),
    (V2, "ldval r6, 0, 0\nmov r0, r1\nmov r2, 1\nacmpxchgdw [r6+0], r2\nexit\n",
        "  slot 4: acmpxchgdw [r6+0], r2\n  r6: value of map 0 from slot 0 +0\n  r2: number 1\n  r0: context\n  compare-and-exchange takes"),
    (V1, "mov r10, 1\nexit\n", "  slot 0: mov r10, 1\n  r10 is read-only\n"),
    (V1, "call 99\nexit\n", "  slot 0: call 99\n  there is no helper of this number\n"),
    (V1, "mov r0, r1\nexit\n", "  slot 1: exit\n  r0: context\n  the verdict in r0 is a number\n"),
    (V1, "ldmap r1, 0\nmov r0, 2\nexit\n", "  slot 0: ldmap r1, 0\n  the image has 0 maps: there is no map at this place"),
];

#[rattlefmt::skip]
const PACKETS: [Row; 9] = [
    (V1, "ldxw r2, [r1+0]\nldxb r0, [r2+13]\nexit\n",
        "  slot 1: ldxb r0, [r2+13]\n  r2: packet +0, 0 bytes known\n  \
         needs 14 bytes from the packet's start: no comparison with the packet's end shows, on every path to here, that the packet reaches so \
         far\n  remedy: load the end"),
    (V1, "ldxw r2, [r1+0]\nldxw r3, [r1+4]\nmov r4, r2\nadd r4, 14\nmov r0, 2\njgt r4, r3, +1\nldxb r0, [r2+14]\nexit\n",
        "  slot 6: ldxb r0, [r2+14]\n  r2: packet +0, 14 bytes known\n  needs 15 bytes from the packet's start, known 14: the packet was compared"),
    (V1, "ldxw r2, [r1+0]\nldxw r3, [r1+4]\nmov r4, r2\nadd r4, 14\nmov r0, 2\njgt r3, r4, +1\nldxb r0, [r2+13]\nexit\n",
        "  slot 6: ldxb r0, [r2+13]\n  r2: packet +0, 0 bytes known\n  needs 14 bytes from the packet's start: no comparison with the packet's end shows"),
    (V1, "ldxw r2, [r1+0]\nldxw r3, [r1+4]\nmov r4, r2\nadd r4, 24\nmov r0, 2\njgt r4, r3, +2\nadd r2, 24\nldxdw r0, [r2+16]\nexit\n",
        "  slot 7: ldxdw r0, [r2+16]\n  r2: packet +24, 24 bytes known\n  \
         needs 48 bytes from the packet's start (the register is at +24), known 24: the packet was compared"),
    (V1, "ldxw r2, [r1+0]\nldxb r0, [r2-1]\nexit\n",
        "  slot 1: ldxb r0, [r2-1]\n  r2: packet +0, 0 bytes known\n  the access begins before"),
    (V1, "ldxw r2, [r1+0]\nadd r2, 65536\nmov r0, 2\nexit\n",
        "  slot 1: add r2, 65536\n  r2: packet +0, 0 bytes known\n  a packet pointer's offset stays from 0 to 65535\n"),
    (V1, "ldxw r2, [r1+0]\nldxw r3, [r1+0]\nmov r0, 2\ncall 5\nexit\n",
        "  slot 0: ldxw r2, [r1+0]\n    known: r1 context; r10 stack r10-0;\n"),
    (V1, "ldxw r6, [r1+0]\ncall 5\nadd r6, r0\nmov r0, 2\nexit\n",
        "  slot 2: add r6, r0\n  r6: packet +0, 0 bytes known\n  r0: number 0..18446744073709551615\n  \
         the number may be up to 18446744073709551615: a number that is added"),
    (V1, "ldxw r6, [r1+0]\nldxw r3, [r1+16]\nadd r6, r3\nldxb r0, [r6+0]\nexit\n",
        "  slot 3: ldxb r0, [r6+0]\n  r6: packet past the sum of slot 2 +0, 0 bytes known\n  \
         needs 1 byte from the sum of slot 2: no comparison with the packet's end"),
];

#[rattlefmt::skip]
const MEMORY: [Row; 19] = [
    (V1, "stw [r10+0], 0\nmov r0, 2\nexit\n",
        "  slot 0: stw [r10+0], 0\n  r10: stack r10-0\n  the stack has the 512 bytes from r10-512 up to r10\n  \
         remedy: use an offset from -512 to -1 that leaves room for the access\n"),
    (V1, "mov r2, r10\nadd r2, 1\nmov r0, 2\nexit\n", "  slot 1: add r2, 1\n  r2: stack r10-0\n  a stack pointer stays from"),
    ("version 1\nmap array 4 8 1\n", "mov r2, r10\nldmap r1, 0\ncall 1\nmov r0, 2\nexit\n",
        "  slot 3: call 1\n  r1: map 0\n  r2: stack r10-0\n  the key or the value leaves the stack\n"),
    (V1, "stb [r10-2], 0\nldxh r0, [r10-2]\nexit\n",
        "  slot 1: ldxh r0, [r10-2]\n  r10: stack r10-0\n  stack r10-8: bytes ------w-\n  a byte that is loaded was not written"),
    ("version 1\nmap array 4 8 1\n", "mov r2, r10\nadd r2, -4\nldmap r1, 0\ncall 1\nmov r0, 2\nexit\n",
        "  slot 4: call 1\n  r1: map 0\n  r2: stack r10-4\n  stack r10-8: bytes --------\n  a byte of the key or the value was not written"),
    ("version 1\nmap hash 4 16 1\n",
        "stw [r10-4], 0\nmov r2, r10\nadd r2, -4\nmov r3, r10\nadd r3, -24\nstdw [r10-24], 1\nmov r4, 0\nldmap r1, 0\ncall 2\nexit\n",
        "  slot 9: call 2\n  r1: map 0\n  r2: stack r10-4\n  r3: stack r10-24\n  r4: number 0\n  stack r10-8: bytes ----wwww\n  \
         stack r10-24: spilled number 1\n  stack r10-16: bytes --------\n  a byte of the key"),
    (LOOKUP, "jeq r0, 0, +1\nldxdw r3, [r0+8]\nmov r0, 2\nexit\n",
        "  slot 7: ldxdw r3, [r0+8]\n  r0: value of map 0 from slot 5 +0\n  the value has 8 bytes: the access leaves the map's value\n"),
    (LOOKUP, "jeq r0, 0, +1\nadd r0, 9\nmov r0, 2\nexit\n",
        "  slot 7: add r0, 9\n  r0: value of map 0 from slot 5 +0\n  the value has 8 bytes: an address in a value stays"),
    (V2, "ldval r6, 0, 9\nmov r0, 2\nexit\n", "  slot 0: ldval r6, 0, 9\n  the value has 8 bytes: the offset is above"),
    (V1, "stw [r10-6], 0\nmov r0, 2\nexit\n",
        "  slot 0: stw [r10-6], 0\n  r10: stack r10-0\n  stack r10-8: bytes --------\n  4 bytes wide: an access of the stack is at"),
    (LOOKUP, "jeq r0, 0, +1\nldxw r3, [r0+2]\nmov r0, 2\nexit\n",
        "  slot 7: ldxw r3, [r0+2]\n  r0: value of map 0 from slot 5 +0\n  4 bytes wide: an access at a known offset"),
    (V2, "ldxw r5, [r1+16]\nand r5, 4\nldval r6, 0, 0\nadd r6, r5\naaddw [r6+0], r5\nmov r0, 2\nexit\n",
        "  slot 5: aaddw [r6+0], r5\n  r6: value of map 0 from slot 2 +0..4\n  r5: number 0..4\n  an atomic operation wants a single known offset"),
    (V1, "stw [r1+0], 0\nmov r0, 2\nexit\n", "  slot 0: stw [r1+0], 0\n  r1: context\n  the context is only read\n"),
    (V1, "ldxw r0, [r1+8]\nexit\n", "  slot 0: ldxw r0, [r1+8]\n  r1: context\n  the context has words of four bytes"),
    (V1, "stw [r10-4], 0\nmov r2, r10\nadd r2, -4\ncall 1\nexit\n",
        "  slot 3: call 1\n  r1: context\n  r2: stack r10-4\n  r1 of this helper is a map\n"),
    ("version 1\nmap array 4 8 1\n", "mov r2, 5\nldmap r1, 0\ncall 1\nexit\n",
        "  slot 3: call 1\n  r1: map 0\n  r2: number 5\n  keys and values are passed on the stack\n"),
    (V1, "mov r2, r1\ncall 44\nexit\n",
        "  slot 1: call 44\n  r1: context\n  r2: context\n  this argument is a number\n  \
         remedy: put a number into the register (flags: 0 any, 1 new key, 2 old key)\n"),
    (V1, "stxdw [r10-8], r1\nldxw r2, [r10-8]\nmov r0, 2\nexit\n",
        "  slot 1: ldxw r2, [r10-8]\n  r10: stack r10-0\n  stack r10-8: spilled context\n  a pointer is stored and loaded only as a whole"),
    ("version 2\nmap hash 4 8 1\n", "ldval r6, 0, 0\nmov r0, 2\nexit\n",
        "  slot 0: ldval r6, 0, 0\n  an address in a value is loaded from arrays alone\n"),
];

const PROGRAM: &str = "  slot 0: ldmap r6, 0
    known: r1 context; r10 stack r10-0;
  slot 2: ldxw r7, [r1+16]
    known: r1 context; r6 map 0; r10 stack r10-0;
    no reader: it reads the number of the receive queue
  slot 3: stb [r10-1], 7
    known: r1 context; r6 map 0; r7 number 0..7; r10 stack r10-0;
  slot 4: stxdw [r10-16], r6
    known: r1 context; r6 map 0; r7 number 0..7; r10 stack r10-0; r10-8 bytes -------w;
  slot 5: call 8
    known: r1 context; r6 map 0; r7 number 0..7; r10 stack r10-0; r10-16 spilled map 0; r10-8 bytes -------w;
    no reader: it asks for the worker's number
  slot 6: exit
    known: r0 number 0..7; r6 map 0; r7 number 0..7; r10 stack r10-0; r10-16 spilled map 0; r10-8 bytes -------w;
";

/// Holds the beginning of what is printed of a program against its lines.
fn check_row(rt: &impl Abort, alloc: Global, head: &str, code: &str, want: &str) {
    let text = explained(rt, alloc, head, code);
    holds_of(rt, code, &text, text.starts_with(want));
}

fn check_rows(rt: &impl Abort, alloc: Global, rows: &[Row]) {
    for (head, code, want) in rows {
        check_row(rt, alloc, head, code, want);
    }
}

#[test]
fn structure(rt: HostRuntime) {
    check_rows(&rt, rt.alloc(), &STRUCTURE);
}

#[test]
fn kinds(rt: HostRuntime) {
    check_rows(&rt, rt.alloc(), &KINDS);
}

#[test]
fn packets(rt: HostRuntime) {
    check_rows(&rt, rt.alloc(), &PACKETS);
}

#[test]
fn memory(rt: HostRuntime) {
    check_rows(&rt, rt.alloc(), &MEMORY);
}

#[test]
fn accepted_program(rt: HostRuntime) {
    let text = explained(
        &rt,
        rt.alloc(),
        "version 1\nmap array 4 8 1\n",
        "ldmap r6, 0\nldxw r7, [r1+16]\nstb [r10-1], 7\nstxdw [r10-16], r6\ncall 8\nexit\n",
    );
    same_text(&rt, "a program that is accepted", &text, PROGRAM);
}

/// 4095 moves and an `exit`.
fn largest(rt: &impl Abort, alloc: Global) -> String {
    let mut code = String::new(alloc);
    for _ in 0..4095 {
        code.push_str("mov r0, 2\n").expect(rt, "memory");
    }
    code.push_str("exit\n").expect(rt, "memory");
    code
}

#[test]
fn largest_program(rt: HostRuntime) {
    let code = largest(&rt, rt.alloc());
    let text = explained(&rt, rt.alloc(), V1, &code);
    let last = "  slot 4095: exit\n    known: r0 number 2; r1 context; r10 stack r10-0;\n";
    holds(&rt, "the last slot", text.ends_with(last));
}
