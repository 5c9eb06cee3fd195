//! Programs: what is accepted, what is refused and where, and what a run comes to.

mod on_maps;

use crate::asserting::same;
use crate::commands::{ZEROS, prints, put_digits, refuses, runs, runs_to, with_image_of_digits};
use disasm::assemble;
use std::alloc::Global;
use std::process::Abort;
use std::sync::Wait;
use std::thread::Threads;
use test_support::programs::{READS_BYTE_13, READS_BYTE_14};
use verifier::{Reject, verify};

/// A program's text is accepted.
fn is_accepted(rt: &impl Abort, alloc: Global, text: &str) {
    same(rt, text, &judged(rt, alloc, text), &None);
}

/// A program's text is refused for this.
fn is_refused(rt: &impl Abort, alloc: Global, text: &str, reject: Reject) {
    same(rt, text, &judged(rt, alloc, text), &Some(reject));
}

/// The first reason why a program is refused, if it is.
fn judged(rt: &impl Abort, alloc: Global, text: &str) -> Option<Reject> {
    let image = assemble(alloc, text).expect(rt, "an image");
    verify(alloc, image).err()
}

/// The bytes of an image of two instructions: `mov r0, 2` and `exit`.
const PASSES: &str = "584c425001000000b7000000020000009500000000000000";

#[test]
fn two_instructions_pass_a_frame(rt: HostRuntime) {
    let alloc = rt.alloc();
    let folder = with_image_of_digits(&rt, alloc, PASSES);
    let out = "accepted slots 2 maps 0 reader yes\n";
    let folder = prints(&rt, alloc, folder, "xlb check image", out);
    let ended = "verdict pass\ninstructions 2";
    let folder = runs_to(&rt, alloc, folder, "", ZEROS, ended, ZEROS);
    let out = "version 1\nmov r0, 2\nexit\n";
    prints(&rt, alloc, folder, "xlb disasm image", out);
}

#[test]
fn an_exit_without_a_verdict_is_refused(rt: HostRuntime) {
    let reject = Reject::UnsetRegister {
        slot: 0,
        register: 0,
    };
    is_refused(&rt, rt.alloc(), "version 1\nexit\n", reject);
}

/// The digits of an image of this many times `mov r0, 1`, and an `exit`.
fn moves_and_exit(rt: &impl Abort, alloc: Global, count: u32) -> String {
    let mut digits = String::from_str(alloc, "584c425001000000").expect(rt, "a head");
    for _ in 0..count {
        digits.push_str("b700000001000000").expect(rt, "a slot");
    }
    digits.push_str("9500000000000000").expect(rt, "a slot");
    digits
}

#[test]
fn a_program_has_at_most_4096_slots(rt: HostRuntime) {
    let alloc = rt.alloc();
    let longest = moves_and_exit(&rt, alloc, 4095);
    let folder = with_image_of_digits(&rt, alloc, &longest);
    let ended = "verdict drop\ninstructions 4096";
    runs_to(&rt, alloc, folder, "", ZEROS, ended, ZEROS);
    let longer = moves_and_exit(&rt, alloc, 4096);
    let folder = with_image_of_digits(&rt, alloc, &longer);
    let line = "xlb check image";
    refuses(&rt, alloc, folder, line, "fault 14 TooLong\n");
}

#[test]
fn a_packet_byte_is_not_read_without_a_test(rt: HostRuntime) {
    let text = "version 1\nldxw r2, [r1+0]\nldxb r0, [r2+0]\nexit\n";
    let reject = Reject::PacketBounds { slot: 1 };
    is_refused(&rt, rt.alloc(), text, reject);
}

/// Reads byte 14 where the packet has 14 bytes.
const READS_TOO_FAR: &str = "version 1
ldxw r2, [r1+0]
ldxw r3, [r1+4]
mov r4, r2
add r4, 14
mov r0, 2
jgt r4, r3, +1
ldxb r0, [r2+14]
exit
";

/// Frames of 14 and 15 bytes, with byte 13 equal to 1.
const ENDS_WITH_1: &str = "0000000000000000000000000001";

const ONE_BYTE_MORE: &str = "000000000000000000000000000100";

#[test]
fn a_packet_byte_is_read_behind_a_test(rt: HostRuntime) {
    let alloc = rt.alloc();
    is_accepted(&rt, alloc, READS_BYTE_13);
    let ended = "verdict drop\ninstructions 8";
    runs(&rt, alloc, READS_BYTE_13, "", ENDS_WITH_1, ended);
    runs(&rt, alloc, READS_BYTE_13, "", ONE_BYTE_MORE, ended);
    let reject = Reject::PacketBounds { slot: 6 };
    is_refused(&rt, alloc, READS_TOO_FAR, reject);
}

#[test]
fn a_frame_has_at_least_14_bytes(rt: HostRuntime) {
    let alloc = rt.alloc();
    let folder = with_image_of_digits(&rt, alloc, PASSES);
    let folder = put_digits(&rt, alloc, folder, "frame", "00000000000000000000000001");
    let line = "xlb run image frame";
    refuses(&rt, alloc, folder, line, "fault 9 ShortFrame\n");
}

#[test]
fn a_jump_leads_forward_and_to_an_instruction(rt: HostRuntime) {
    let alloc = rt.alloc();
    let text = "version 1\nja +1\nlddw r0, 0x0000000000000002\nexit\n";
    is_refused(&rt, alloc, text, Reject::JumpIntoWide { slot: 0 });
    let text = "version 1\nmov r0, 2\nja -1\nexit\n";
    is_refused(&rt, alloc, text, Reject::JumpBackward { slot: 1 });
}

#[test]
fn a_moved_head_ends_packet_pointers(rt: HostRuntime) {
    let text = "version 1\nldxw r6, [r1+0]\nmov r2, -20\ncall 44\nldxb r0, [r6+0]\nexit\n";
    let reject = Reject::UnsetRegister {
        slot: 3,
        register: 6,
    };
    is_refused(&rt, rt.alloc(), text, reject);
}

/// The bytes of a program that adds a packet's byte 13 to element 0 of an array, and answers the sum.
const FIRST_IMAGE: &str = "\
    584c42500101000002000000040000000800000001000000\
    61120000000000006113040000000000bf24000000000000070400000e000000\
    b7000000020000002d340b000000000071260d0000000000620afcff00000000\
    bfa200000000000007020000fcffffff18110000000000000000000000000000\
    8500000001000000150003000000000079070000000000000f76000000000000\
    bf600000000000009500000000000000";

/// The journals of a run that looks element 0 up and reads it.
const FOUND_AND_READ: &str = "XLBJ 1 8 1 65536
0 w0 enter ok
0 w0 lookup 00000000 cell 0
0 w0 load 0 0 8 word 0
0 w0 leave ok
";

/// The first image, run over a frame, comes to this verdict after 17 instructions.
fn first_image_runs<R: Abort + Threads + Wait + Sync>(
    rt: &R,
    alloc: Global,
    frame: &str,
    ended: &str,
) {
    let folder = with_image_of_digits(rt, alloc, FIRST_IMAGE);
    let words = " --journals journals";
    let folder = runs_to(rt, alloc, folder, words, frame, ended, frame);
    crate::commands::has_file(rt, alloc, folder, "journals", FOUND_AND_READ.as_bytes());
}

#[test]
fn first_path(rt: HostRuntime) {
    let alloc = rt.alloc();
    let folder = with_image_of_digits(&rt, alloc, FIRST_IMAGE);
    let out = "accepted slots 18 maps 1 reader yes\n";
    prints(&rt, alloc, folder, "xlb check image", out);
    let frame = "0000000000000000000000000003";
    first_image_runs(&rt, alloc, frame, "verdict tx\ninstructions 17");
    let frame = "0000000000000000000000000001";
    first_image_runs(&rt, alloc, frame, "verdict drop\ninstructions 17");
    first_image_runs(&rt, alloc, ZEROS, "verdict aborted\ninstructions 17");
}

#[test]
fn a_pointer_is_kept_on_the_stack(rt: HostRuntime) {
    let alloc = rt.alloc();
    let text = "version 1\nstxdw [r10-8], r1\nldxdw r2, [r10-8]\nldxw r0, [r2+12]\nexit\n";
    runs(&rt, alloc, text, "", ZEROS, "verdict drop\ninstructions 4");
    let text = "version 1\nstxdw [r10-8], r1\nldxw r2, [r10-8]\nldxw r0, [r2+12]\nexit\n";
    is_refused(&rt, alloc, text, Reject::PointerLeak { slot: 1 });
}

#[test]
fn the_stack_has_512_bytes(rt: HostRuntime) {
    let alloc = rt.alloc();
    let text = "version 1\nstw [r10-6], 0\nmov r0, 2\nexit\n";
    is_refused(&rt, alloc, text, Reject::Misaligned { slot: 0 });
    let text = "version 1\nstw [r10+0], 0\nmov r0, 2\nexit\n";
    is_refused(&rt, alloc, text, Reject::StackBounds { slot: 0 });
    let text = "version 1\nstdw [r10-520], 0\nmov r0, 2\nexit\n";
    is_refused(&rt, alloc, text, Reject::StackBounds { slot: 0 });
    let text = "version 1\nstdw [r10-512], 0\nmov r0, 2\nexit\n";
    is_accepted(&rt, alloc, text);
}

#[test]
fn an_unset_byte_of_the_stack_is_not_read(rt: HostRuntime) {
    let text = "version 1\nldxb r0, [r10-1]\nexit\n";
    is_refused(&rt, rt.alloc(), text, Reject::StackUnset { slot: 0 });
}

#[test]
fn a_strict_test_covers_one_byte_more(rt: HostRuntime) {
    let alloc = rt.alloc();
    is_accepted(&rt, alloc, READS_BYTE_14);
    let ended = "verdict pass\ninstructions 7";
    runs(&rt, alloc, READS_BYTE_14, "", ZEROS, ended);
    let frame = "000000000000000000000000000001";
    let ended = "verdict drop\ninstructions 8";
    runs(&rt, alloc, READS_BYTE_14, "", frame, ended);
}

#[test]
fn an_instruction_that_no_path_reaches_is_refused(rt: HostRuntime) {
    let text = "version 1\nmov r0, 2\nja +1\nmov r0, 1\nexit\n";
    is_refused(&rt, rt.alloc(), text, Reject::Unreachable { slot: 2 });
}

#[test]
fn a_pointer_is_no_verdict(rt: HostRuntime) {
    let text = "version 1\nmov r0, r1\nexit\n";
    is_refused(&rt, rt.alloc(), text, Reject::PointerLeak { slot: 1 });
}

#[test]
fn a_run_has_its_time_and_its_worker(rt: HostRuntime) {
    let alloc = rt.alloc();
    let text = "version 1\ncall 5\nexit\n";
    let ended = "verdict tx\ninstructions 2";
    runs(&rt, alloc, text, " --now 3", ZEROS, ended);
    let text = "version 1\ncall 8\nexit\n";
    let ended = "verdict pass\ninstructions 2";
    runs(&rt, alloc, text, " --worker 2", ZEROS, ended);
}

#[test]
fn no_other_field_no_other_map_no_write_of_r10(rt: HostRuntime) {
    let alloc = rt.alloc();
    let text = "version 1\nldxw r0, [r1+8]\nexit\n";
    is_refused(&rt, alloc, text, Reject::ContextAccess { slot: 0 });
    let text = "version 1\nldmap r1, 0\nmov r0, 2\nexit\n";
    is_refused(&rt, alloc, text, Reject::UnknownMap { slot: 0 });
    let text = "version 1\nmov r10, 1\nexit\n";
    is_refused(&rt, alloc, text, Reject::ReadOnlyFp { slot: 0 });
}

/// Byte 13 says where the byte is that is the verdict.
const READS_WHERE_THE_PACKET_SAYS: &str = "version 1
ldxw r2, [r1+0]
ldxw r3, [r1+4]
mov r4, r2
add r4, 14
mov r0, 2
jgt r4, r3, +6
ldxb r5, [r2+13]
add r2, r5
mov r4, r2
add r4, 1
jgt r4, r3, +1
ldxb r0, [r2+0]
exit
";

/// The same, and one byte further than the test says.
const ONE_BYTE_FURTHER: &str = "version 1
ldxw r2, [r1+0]
ldxw r3, [r1+4]
mov r4, r2
add r4, 14
mov r0, 2
jgt r4, r3, +6
ldxb r5, [r2+13]
add r2, r5
mov r4, r2
add r4, 1
jgt r4, r3, +1
ldxb r0, [r2+1]
exit
";

/// The same with four bytes that say where, which may lead past any packet.
const ANY_NUMBER_FURTHER: &str = "version 1
ldxw r2, [r1+0]
ldxw r3, [r1+4]
mov r4, r2
add r4, 14
mov r0, 2
jgt r4, r3, +6
ldxw r5, [r2+10]
add r2, r5
mov r4, r2
add r4, 1
jgt r4, r3, +1
ldxb r0, [r2+0]
exit
";

#[test]
fn the_packet_says_where_to_read(rt: HostRuntime) {
    let alloc = rt.alloc();
    let text = READS_WHERE_THE_PACKET_SAYS;
    let frame = "0000000100000000000000000003";
    runs(&rt, alloc, text, "", frame, "verdict drop\ninstructions 13");
    let frame = "000000000000000000000000000e";
    runs(&rt, alloc, text, "", frame, "verdict pass\ninstructions 12");
    let reject = Reject::PacketBounds { slot: 11 };
    is_refused(&rt, alloc, ONE_BYTE_FURTHER, reject);
    let reject = Reject::PacketBounds { slot: 7 };
    is_refused(&rt, alloc, ANY_NUMBER_FURTHER, reject);
}

/// Moves the frame's start back by 20 bytes.
const BACK_20: &str = "version 1\nmov r2, -20\ncall 44\nmov r0, 3\nexit\n";

/// The same by one byte more than there is room for.
const BACK_257: &str = "version 1\nmov r2, -257\ncall 44\nmov r0, 3\nexit\n";

#[test]
fn a_run_moves_the_head_of_its_frame(rt: HostRuntime) {
    let alloc = rt.alloc();
    let frame = "aaaaaaaaaaaaaaaaaaaaaaaaaaaa";
    let ended = "verdict tx\ninstructions 4";
    let left = "0000000000000000000000000000000000000000aaaaaaaaaaaaaaaaaaaaaaaaaaaa";
    let folder = crate::commands::with_image(&rt, alloc, BACK_20);
    runs_to(&rt, alloc, folder, "", frame, ended, left);
    runs(&rt, alloc, BACK_257, "", frame, ended);
}
