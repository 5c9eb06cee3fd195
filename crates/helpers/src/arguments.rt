//! Which registers have a helper's arguments and its answer: R1 to R5, and R0 (RFC 9669, section 4.3.1). What each helper takes is
//! Linux's (bpf-helpers(7)).

ghost use Rattle.std.specs.Prelude.{◌≡◌};
ghost use Rattle.isa.specs.Words.{twos_complement, signed_value, low_half};

use isa::Register;

/// The map of `map_lookup_elem`, `map_update_elem` and `map_delete_elem`.
pub const MAP: Register = Register::R1;

/// Where the key of these begins, on the stack.
pub const KEY: Register = Register::R2;

/// Where the value of `map_update_elem` begins, on the stack.
pub const VALUE: Register = Register::R3;

/// The flags of `map_update_elem`.
pub const FLAGS: Register = Register::R4;

/// How far `xdp_adjust_head` moves the frame's start: the low 32 bits, signed (`delta_of`). Its R1 is the context.
pub const DELTA: Register = Register::R2;

/// What a helper answers.
pub const ANSWER: Register = Register::R0;

/// An answer as the word that R0 gets: 0, or Linux's error number, negated, in two's complement of 64 bits.
pub fn answer_word(code: i32) -> u64
    ensures { result ≡ twos_complement 64 code }
{
    isa::sign_extend_immediate(code)
}

/// A time in nanoseconds as the word that R0 gets for `ktime_get_ns`.
pub fn time_word(now_ns: u64) -> u64
    ensures { result ≡ now_ns }
{
    now_ns
}

/// A worker's number as the word that R0 gets for `get_smp_processor_id`.
pub fn worker_word(worker: u8) -> u64
    ensures { result ≡ worker }
{
    u64::from(worker)
}

/// How far a word of `DELTA` moves a frame's start: its low 32 bits, signed.
pub fn delta_of(word: u64) -> i32
    ensures { result ≡ signed_value 32 (low_half word) }
{
    ((word % 0x1_0000_0000) as u32).cast_signed()
}
