//! Images, from bytes and from texts.

use crate::asserting::{same, same_at, same_text};
use crate::commands::{has_file, with_image};
use disasm::{AsmFault, assemble, text};
use ebpf_decode::{DecodeFault, decode};
use std::alloc::Global;
use std::process::Abort;
use test_support::programs::{FIRST_RUN, FIRST_RUN_IMAGE};
use verifier::{Reject, verify};

/// The head of an image of version 1 without maps.
const HEAD: [u8; 8] = [0x58, 0x4c, 0x42, 0x50, 1, 0, 0, 0];

/// What is wrong with the bytes of an image, if anything is.
fn fault_of(alloc: Global, bytes: &[u8]) -> Option<DecodeFault> {
    decode(alloc, bytes).err()
}

#[test]
fn an_empty_program_is_12(rt: HostRuntime) {
    let found = fault_of(rt.alloc(), &HEAD);
    same(&rt, "the head alone", &found, &Some(DecodeFault::Empty));
}

#[test]
fn a_cut_head_is_10(rt: HostRuntime) {
    let found = fault_of(rt.alloc(), &HEAD[..7]);
    same(&rt, "seven bytes", &found, &Some(DecodeFault::BadHead));
}

/// An image of this slot alone has this fault.
fn is_faulty_slot(rt: &impl Abort, alloc: Global, name: &str, slot: &[u8; 8], fault: DecodeFault) {
    let mut bytes = [0; 16];
    bytes[..8].copy_from_slice(&HEAD);
    bytes[8..].copy_from_slice(slot);
    same(rt, name, &fault_of(alloc, &bytes), &Some(fault));
}

#[test]
fn slots_that_are_no_instructions(rt: HostRuntime) {
    let alloc = rt.alloc();
    let slot = [0x37, 0x00, 0x02, 0x00, 0x01, 0x00, 0x00, 0x00];
    let fault = DecodeFault::UnknownOpcode { slot: 0 };
    is_faulty_slot(&rt, alloc, "a division with offset 2", &slot, fault);
    let slot = [0xb7, 0x0b, 0x00, 0x00, 0x00, 0x00, 0x00, 0x00];
    let fault = DecodeFault::BadRegister { slot: 0 };
    is_faulty_slot(&rt, alloc, "register 11", &slot, fault);
    let slot = [0xbf, 0x01, 0x00, 0x00, 0x05, 0x00, 0x00, 0x00];
    let fault = DecodeFault::FieldNotZero { slot: 0 };
    is_faulty_slot(&rt, alloc, "an immediate beside a register", &slot, fault);
    let slot = [0x18, 0x01, 0x00, 0x00, 0x00, 0x00, 0x00, 0x00];
    let fault = DecodeFault::WideCut { slot: 0 };
    is_faulty_slot(&rt, alloc, "half a wide instruction", &slot, fault);
}

/// The lines of a text of version 1, each but the last ended by a line feed.
fn are_lines(rt: &impl Abort, alloc: Global, printed: &str) {
    let lines: Vec<&str> = printed.split('\n').collect(alloc).expect(rt, "lines");
    same(rt, "19 lines, each with a line feed", &lines.len(), &20);
    same(
        rt,
        "line 2",
        &lines.get(1).copied(),
        &Some("map array 4 8 1"),
    );
    same(
        rt,
        "line 8",
        &lines.get(7).copied(),
        &Some("jgt r4, r3, +11"),
    );
}

#[test]
fn an_image_is_printed_as_text(rt: HostRuntime) {
    let image = decode(rt.alloc(), &FIRST_RUN_IMAGE).expect(&rt, "an image");
    let printed = text(rt.alloc(), &image).expect(&rt, "memory");
    same_text(&rt, "the text", &printed, FIRST_RUN);
    are_lines(&rt, rt.alloc(), &printed);
}

#[test]
fn a_text_makes_its_image(rt: HostRuntime) {
    let folder = with_image(&rt, rt.alloc(), FIRST_RUN);
    has_file(&rt, rt.alloc(), folder, "image", &FIRST_RUN_IMAGE);
}

/// A text makes no image for this reason.
pub(crate) fn is_no_image(rt: &impl Abort, alloc: Global, given: &str, fault: AsmFault) {
    same(rt, given, &assemble(alloc, given).err(), &Some(fault));
}

#[test]
fn each_line_has_one_spelling(rt: HostRuntime) {
    let alloc = rt.alloc();
    let second = AsmFault::BadLine { line: 2 };
    is_no_image(&rt, alloc, "version 1\nmov r0, 02\n", second);
    is_no_image(&rt, alloc, "version 1\nmov r11, 1\n", second);
    is_no_image(&rt, alloc, "version 1\nmov r0, -0\n", second);
    is_no_image(&rt, alloc, "version 1\nmov r0, 4294967295\n", second);
    is_no_image(&rt, alloc, "version 1\nlddw r1, 0x2\n", second);
    is_no_image(&rt, alloc, "version 1\nexit", second);
}

#[test]
fn a_text_without_instructions_is_22(rt: HostRuntime) {
    let empty = AsmFault::Image(DecodeFault::Empty);
    is_no_image(&rt, rt.alloc(), "version 1\n", empty);
}

/// What becomes of a beginning of the first image: the number of the fault, and the slot that it names.
fn end_of(alloc: Global, bytes: &[u8]) -> (u8, usize) {
    match decode(alloc, bytes) {
        Err(DecodeFault::WideCut { slot }) => (19, slot as usize),
        Err(fault) => (fault.number(), 0),
        Ok(image) => match verify(alloc, image) {
            Err(Reject::JumpOutside { slot }) => (31, slot as usize),
            Err(Reject::FallsOff { slot }) => (33, slot as usize),
            Err(reject) => (reject.number(), 0),
            Ok(_) => (0, 0),
        },
    }
}

/// A head and a map have 24 bytes. The jump in slot 5 leads past the end up to 17 slots, and slots 10 and 11 are one instruction.
fn wanted_end(length: usize) -> (u8, usize) {
    if length < 24 {
        return (10, 0);
    }
    let slots = (length - 24) / 8;
    if length == 24 {
        (12, 0)
    } else if length % 8 != 0 {
        (13, 0)
    } else if slots <= 5 {
        (33, slots.saturating_sub(1))
    } else if slots == 11 {
        (19, 10)
    } else {
        (31, 5)
    }
}

#[test]
fn each_beginning_of_an_image_is_refused(rt: HostRuntime) {
    for length in 0..FIRST_RUN_IMAGE.len() {
        let found = end_of(rt.alloc(), &FIRST_RUN_IMAGE[..length]);
        same_at(&rt, "bytes:", length as u64, &found, &wanted_end(length));
    }
}

#[test]
fn an_address_in_a_value_needs_version_2(rt: HostRuntime) {
    let given =
        "version 1\nmap array 4 8 1\nldval r1, 0, 0\nmov r2, 3\naadddw [r1+0], r2\nldxdw r0, [r1+0]\nexit\n";
    let fault = DecodeFault::NotInProfile { slot: 0 };
    is_no_image(&rt, rt.alloc(), given, AsmFault::Image(fault));
}

#[test]
fn a_value_of_256_bytes_needs_version_2(rt: HostRuntime) {
    let given = "version 1\nmap array 4 256 1\nmov r0, 2\nexit\n";
    let fault = DecodeFault::BadMap { map: 0 };
    is_no_image(&rt, rt.alloc(), given, AsmFault::Image(fault));
}
