//! The arithmetic, byte swaps, comparisons and atomic operations of eBPF (RFC 9669, sections 4 and 5), on plain numbers.
#![tactic(auto)]

mod arithmetic;
mod atomics;
mod byte_swap;
mod comparison;
mod halves;
pub mod operation;

pub use arithmetic::{alu32, alu64, movsx32, movsx64, neg32, neg64, sign_extend_immediate};
pub use atomics::atomic;
pub use byte_swap::swap;
pub use comparison::{test32, test64};
pub use operation::{
    AluOp, AtomicOp, ByteOrder, Class, Extension, Mode, Register, ShortExtension, Size,
    SourceOperand, SwapWidth, Test, Width,
};
