//! What instructions make of numbers, and the hash of bytes.

use crate::asserting::same;
use isa::{
    AluOp, ByteOrder, Extension, ShortExtension, SwapWidth, Test, alu32, alu64, movsx32, movsx64,
    sign_extend_immediate, swap, test32, test64,
};
use wire::fnv1a64;

/// The least number of 64 bits, read as signed.
const LEAST: u64 = 0x8000_0000_0000_0000;

const MINUS_ONE: u64 = 0xffff_ffff_ffff_ffff;

#[test]
fn a_division_by_zero_is_zero_and_a_remainder_the_number(rt: HostRuntime) {
    same(&rt, "7 by 0", &alu64(AluOp::Div, 7, 0), &0);
    let number = 0xffff_ffff_0000_0007;
    let found = alu32(AluOp::Mod, number, 0);
    same(&rt, "32 bits, modulo 0", &found, &0x0000_0000_0000_0007);
    let found = alu64(AluOp::Mod, number, 0);
    same(&rt, "64 bits, modulo 0", &found, &number);
}

#[test]
fn the_least_number_by_minus_one_stays_and_shifts_are_masked(rt: HostRuntime) {
    let found = alu64(AluOp::Sdiv, LEAST, MINUS_ONE);
    same(&rt, "the least by -1", &found, &LEAST);
    let found = alu64(AluOp::Smod, LEAST, MINUS_ONE);
    same(&rt, "its remainder", &found, &0);
    let found = alu64(AluOp::Lsh, LEAST, 64);
    same(&rt, "shifted by 64", &found, &LEAST);
    let found = alu32(AluOp::Lsh, 1, 33);
    same(&rt, "1 shifted by 33 in 32 bits", &found, &2);
}

#[test]
fn a_hash_of_bytes(rt: HostRuntime) {
    same(&rt, "no bytes", &fnv1a64(b""), &0xcbf2_9ce4_8422_2325);
    same(&rt, "a", &fnv1a64(b"a"), &0xaf63_dc4c_8601_ec8c);
    same(&rt, "foobar", &fnv1a64(b"foobar"), &0x8594_4171_f739_67e8);
}

#[test]
fn bytes_change_places(rt: HostRuntime) {
    let number = 0x1122_3344_5566_7788;
    let found = swap(ByteOrder::Swapped, SwapWidth::Swap16, number);
    same(&rt, "swap16", &found, &0x8877);
    let found = swap(ByteOrder::ToBig, SwapWidth::Swap32, number);
    same(&rt, "be32", &found, &0x8877_6655);
    let found = swap(ByteOrder::ToLittle, SwapWidth::Swap16, number);
    same(&rt, "le16", &found, &0x7788);
}

#[test]
fn a_byte_is_extended_with_its_sign(rt: HostRuntime) {
    let found = movsx64(Extension::I8, 0x80);
    same(&rt, "to 64 bits", &found, &0xffff_ffff_ffff_ff80);
    let found = movsx32(ShortExtension::Short8, 0x80);
    same(&rt, "to 32 bits", &found, &0xffff_ff80);
}

#[test]
fn divisions_by_width_and_sign(rt: HostRuntime) {
    let by = sign_extend_immediate(-1);
    let found = alu64(AluOp::Div, 0x1_ffff_ffff, by);
    same(&rt, "64 bits by the immediate -1", &found, &0);
    let found = alu32(AluOp::Div, 0x1_ffff_ffff, by);
    same(&rt, "32 bits by the immediate -1", &found, &1);
    let minus_13 = 0xffff_ffff_ffff_fff3;
    let found = alu64(AluOp::Sdiv, minus_13, 3);
    same(&rt, "-13 by 3 is -4", &found, &0xffff_ffff_ffff_fffc);
    let found = alu64(AluOp::Smod, minus_13, 3);
    same(&rt, "and its remainder -1", &found, &MINUS_ONE);
    let found = alu32(AluOp::Sdiv, 0x8000_0000, by);
    same(&rt, "the least of 32 bits by -1", &found, &0x8000_0000);
}

#[test]
fn signs_by_width(rt: HostRuntime) {
    let found = alu32(AluOp::Arsh, 0x8000_0000, 1);
    same(&rt, "a shift copies the sign", &found, &0xc000_0000);
    let found = test32(Test::Slt, 0x1_ffff_ffff, 0);
    same(&rt, "the low half is below 0", &found, &true);
    let found = test64(Test::Slt, 0x1_ffff_ffff, 0);
    same(&rt, "all 64 bits are not", &found, &false);
}
