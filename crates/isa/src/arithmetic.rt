//! Arithmetic on 64 and on 32 bits (RFC 9669, section 4.1), each row as its operation says.
ghost use Rattle.std.specs.Prelude.{◌≡◌};
ghost use Rattle.isa.specs.Words.{low_half, twos_complement};
ghost use Rattle.isa.specs.Alu.{alu_result, neg_result, sign_extended, extension_bits, short_extension_bits};

use crate::halves::{low_byte, low_short, low_word};
use crate::operation::{AluOp, Extension, ShortExtension};

/// What the operation leaves in the destination, from the destination `a` and the source `b`, both of 64 bits
/// (class ALU64; RFC 9669, section 4.1). It refuses nothing: division by zero has a value.
pub fn alu64(operation: AluOp, a: u64, b: u64) -> u64
    ensures { result ≡ alu_result 64 operation a b }
{
    match operation {
        AluOp::Add => a.wrapping_add(b),
        AluOp::Sub => a.wrapping_sub(b),
        AluOp::Mul => a.wrapping_mul(b),
        AluOp::Div => { if b == 0 { 0 } else { a / b } }
        AluOp::Sdiv => signed_quotient64(a, b),
        AluOp::Or => a | b,
        AluOp::And => a & b,
        AluOp::Lsh => a << (b % 64),
        AluOp::Rsh => a >> (b % 64),
        AluOp::Mod => { if b == 0 { a } else { a % b } }
        AluOp::Smod => signed_remainder64(a, b),
        AluOp::Xor => a ^ b,
        AluOp::Mov => b,
        AluOp::Arsh => (a.cast_signed() >> (b % 64)).cast_unsigned(),
    }
}

/// The signed quotient of 64 bits, toward zero.
fn signed_quotient64(a: u64, b: u64) -> u64
    ensures { result ≡ alu_result 64 AluOp.Sdiv a b }
{
    if b == 0 {
        return 0;
    }
    a.cast_signed()
        .wrapping_div(b.cast_signed())
        .cast_unsigned()
}

/// The remainder of the signed quotient of 64 bits.
fn signed_remainder64(a: u64, b: u64) -> u64
    ensures { result ≡ alu_result 64 AluOp.Smod a b }
{
    if b == 0 {
        return a;
    }
    a.cast_signed()
        .wrapping_rem(b.cast_signed())
        .cast_unsigned()
}

/// What the operation leaves in the destination where it works on the low halves of `a` and `b`, zero-extended
/// (class ALU; RFC 9669, section 4.1). It refuses nothing.
pub fn alu32(operation: AluOp, a: u64, b: u64) -> u64
    ensures { result ≡ alu_result 32 operation (low_half a) (low_half b) }
{
    u64::from(word_result(operation, low_word(a), low_word(b)))
}

/// The table's row on numbers of 32 bits.
fn word_result(operation: AluOp, a: u32, b: u32) -> u32
    ensures { result ≡ alu_result 32 operation a b }
{
    match operation {
        AluOp::Add => a.wrapping_add(b),
        AluOp::Sub => a.wrapping_sub(b),
        AluOp::Mul => a.wrapping_mul(b),
        AluOp::Div => { if b == 0 { 0 } else { a / b } }
        AluOp::Sdiv => signed_quotient32(a, b),
        AluOp::Or => a | b,
        AluOp::And => a & b,
        AluOp::Lsh => a << (b % 32),
        AluOp::Rsh => a >> (b % 32),
        AluOp::Mod => { if b == 0 { a } else { a % b } }
        AluOp::Smod => signed_remainder32(a, b),
        AluOp::Xor => a ^ b,
        AluOp::Mov => b,
        AluOp::Arsh => (a.cast_signed() >> (b % 32)).cast_unsigned(),
    }
}

/// The signed quotient of 32 bits, toward zero.
fn signed_quotient32(a: u32, b: u32) -> u32
    ensures { result ≡ alu_result 32 AluOp.Sdiv a b }
{
    if b == 0 {
        return 0;
    }
    a.cast_signed()
        .wrapping_div(b.cast_signed())
        .cast_unsigned()
}

/// The remainder of the signed quotient of 32 bits.
fn signed_remainder32(a: u32, b: u32) -> u32
    ensures { result ≡ alu_result 32 AluOp.Smod a b }
{
    if b == 0 {
        return a;
    }
    a.cast_signed()
        .wrapping_rem(b.cast_signed())
        .cast_unsigned()
}

/// 0 less `a`, on 64 bits (NEG in the class ALU64; RFC 9669, section 4.1).
pub fn neg64(a: u64) -> u64
    ensures { result ≡ neg_result 64 a }
{
    0u64.wrapping_sub(a)
}

/// 0 less the low half of `a`, on 32 bits and zero-extended (NEG in the class ALU; RFC 9669, section 4.1).
pub fn neg32(a: u64) -> u64
    ensures { result ≡ neg_result 32 (low_half a) }
{
    u64::from(0u32.wrapping_sub(low_word(a)))
}

/// The low 8, 16 or 32 bits of `b`, sign-extended to 64 bits (MOVSX in the class ALU64; RFC 9669, section 4.1).
pub fn movsx64(extension: Extension, b: u64) -> u64
    ensures { result ≡ sign_extended (extension_bits extension) 64 b }
{
    match extension {
        Extension::I8 => i64::from(low_byte(b).cast_signed()).cast_unsigned(),
        Extension::I16 => i64::from(low_short(b).cast_signed()).cast_unsigned(),
        Extension::I32 => i64::from(low_word(b).cast_signed()).cast_unsigned(),
    }
}

/// The low 8 or 16 bits of `b`, sign-extended to 32 bits and then zero-extended (MOVSX in the class ALU; RFC 9669,
/// section 4.1).
pub fn movsx32(extension: ShortExtension, b: u64) -> u64
    ensures { result ≡ sign_extended (short_extension_bits extension) 32 b }
{
    let word = match extension {
        ShortExtension::Short8 => i32::from(low_byte(b).cast_signed()).cast_unsigned(),
        ShortExtension::Short16 => i32::from(low_short(b).cast_signed()).cast_unsigned(),
    };
    u64::from(word)
}

/// An immediate as an operand of 64 bits: sign-extended (RFC 9669, section 4.1). Its low half is the immediate's 32 bits,
/// which the 32-bit operations read.
pub fn sign_extend_immediate(immediate: i32) -> u64
    ensures { result ≡ twos_complement 64 immediate }
{
    i64::from(immediate).cast_unsigned()
}
