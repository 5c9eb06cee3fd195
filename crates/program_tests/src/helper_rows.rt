//! Rows worked out by hand from what Linux says of `bpf_xdp_adjust_head`.

use crate::asserting::{same, same_byte, same_fact};
use helpers::adjust_head;
use helpers::arguments::answer_word;
use std::alloc::Global;
use std::process::Abort;
use std::test::Fail;
use wire::Frame;

/// How far the start of a frame of 42 bytes 0xab moves; the answer, the frame's length and its headroom after it.
#[rattlefmt::skip]
static MOVES: [(&str, i32, i32, usize, usize); 8] = [
    ("1 back",                    -1,        0,   43, 255),
    ("2 ^ 31 - 1 back",           -2147483647, -22, 42, 256),
    ("2 ^ 31 back",               i32::MIN, -22,  42, 256),
    ("nowhere",                   0,         0,   42, 256),
    ("1 forward",                 1,         0,   41, 257),
    ("nothing would be left",     42,      -22,   42, 256),
    ("past the frame",            43,      -22,   42, 256),
    ("2 ^ 31 - 1 forward",        i32::MAX, -22,  42, 256),
];

/// A frame of 42 bytes 0xab moves its start so, and has zeros before the bytes that it had.
fn moves_so(
    rt: &impl Abort,
    alloc: Global,
    name: &str,
    distance: i32,
    answer: i32,
    length: usize,
    headroom: usize,
) -> Result<(), Fail> {
    let mut frame = Frame::of(alloc, &[0xab; 42])?;
    let found = adjust_head(&mut frame, distance);
    same_fact(rt, name, "the answer", &found, &answer);
    same_fact(rt, name, "the length", &frame.len(), &length);
    same_fact(rt, name, "the headroom", &frame.room(), &headroom);
    let opened = length.saturating_sub(42);
    for (index, byte) in frame.bytes().iter().enumerate() {
        let want = if index < opened { 0 } else { 0xab };
        same_byte(rt, name, index, *byte, want);
    }
    Ok(())
}

#[test]
fn moves(rt: HostRuntime) -> Result<(), Fail> {
    for &(name, distance, answer, length, headroom) in &MOVES {
        moves_so(&rt, rt.alloc(), name, distance, answer, length, headroom)?;
    }
    Ok(())
}

/// A frame's start after 28 bytes forward and back again: those bytes are zero, and 14 stay.
#[rattlefmt::skip]
static COME_BACK: [u8; 42] = [
    0, 0, 0, 0, 0, 0, 0, 0, 0, 0, 0, 0, 0, 0, 0, 0, 0, 0, 0, 0, 0, 0, 0, 0, 0, 0, 0, 0,
    0xab, 0xab, 0xab, 0xab, 0xab, 0xab, 0xab, 0xab, 0xab, 0xab, 0xab, 0xab, 0xab, 0xab,
];

#[test]
fn bytes_that_come_back_are_zero(rt: HostRuntime) -> Result<(), Fail> {
    let mut frame = Frame::of(rt.alloc(), &[0xab; 42])?;
    same(&rt, "28 forward", &adjust_head(&mut frame, 28), &0);
    same(&rt, "28 back", &adjust_head(&mut frame, -28), &0);
    same(&rt, "the bytes", &frame.bytes(), &COME_BACK.as_slice());
    Ok(())
}

/// Answers of bpf-helpers(7), as R0 has them.
#[rattlefmt::skip]
static WORDS: [(&str, i32, u64); 4] = [
    ("done",             0,  0),
    ("EEXIST",         -17,  0xffff_ffff_ffff_ffef),
    ("EINVAL",         -22,  0xffff_ffff_ffff_ffea),
    ("a positive one", 255,  0xff),
];

#[test]
fn answers_are_sign_extended(rt: HostRuntime) {
    for &(name, code, word) in &WORDS {
        same(&rt, name, &answer_word(code), &word);
    }
}
