//! Instructions, by the words of a listing, for the rows of tables: a constant can have no call in its value except of a macro.

/// An operation on all 64 bits of a register.
#[macro_export]
macro_rules! alu {
    ($op:expr, $dst:expr, $source:expr) => {
        ebpf_decode::Insn::Alu {
            width: isa::Width::Bits64,
            op: $op,
            dst: $dst,
            source: $source,
        }
    };
}

/// A register is copied: `mov r4, r2`.
#[macro_export]
macro_rules! mov {
    ($dst:expr, $src:expr) => {
        $crate::alu!(isa::AluOp::Mov, $dst, isa::SourceOperand::Reg($src))
    };
}

/// A number is put into a register: `mov r0, 2`.
#[macro_export]
macro_rules! number {
    ($dst:expr, $immediate:expr) => {
        $crate::alu!(isa::AluOp::Mov, $dst, isa::SourceOperand::Imm($immediate))
    };
}

/// A number of 64 bits is put into a register.
#[macro_export]
macro_rules! lddw {
    ($dst:expr, $value:expr) => {
        ebpf_decode::Insn::Lddw {
            dst: $dst,
            value: $value,
        }
    };
}

/// A number is added to a register: `add r2, -4`.
#[macro_export]
macro_rules! add {
    ($dst:expr, $immediate:expr) => {
        $crate::alu!(isa::AluOp::Add, $dst, isa::SourceOperand::Imm($immediate))
    };
}

/// A load into a register: `ldxdw r0, [r1+0]`.
#[macro_export]
macro_rules! load {
    ($size:expr, $dst:expr, $src:expr, $offset:expr) => {
        ebpf_decode::Insn::Ldx {
            size: $size,
            dst: $dst,
            src: $src,
            offset: $offset,
        }
    };
}

/// A store of a number: `stw [r10-4], 7`.
#[macro_export]
macro_rules! store {
    ($size:expr, $dst:expr, $offset:expr, $immediate:expr) => {
        ebpf_decode::Insn::St {
            size: $size,
            dst: $dst,
            offset: $offset,
            immediate: $immediate,
        }
    };
}

/// A store of a register: `stxdw [r10-8], r1`.
#[macro_export]
macro_rules! put {
    ($size:expr, $dst:expr, $offset:expr, $src:expr) => {
        ebpf_decode::Insn::Stx {
            size: $size,
            dst: $dst,
            src: $src,
            offset: $offset,
        }
    };
}

/// An atomic operation on a number in memory, which fetches nothing: `aadddw [r0+0], r1`.
#[macro_export]
macro_rules! atomic {
    ($width:expr, $op:expr, $dst:expr, $offset:expr, $src:expr) => {
        ebpf_decode::Insn::AtomicUpdate {
            width: $width,
            op: $op,
            dst: $dst,
            src: $src,
            offset: $offset,
        }
    };
}

/// A jump by the distance, which is 0 where it is left out, if a test of all 64 bits holds: `jeq r0, 0, +3`.
#[macro_export]
macro_rules! jump {
    ($test:expr, $dst:expr, $source:expr) => {
        $crate::jump!($test, $dst, $source, 0)
    };
    ($test:expr, $dst:expr, $source:expr, $distance:expr) => {
        ebpf_decode::Insn::JumpIf {
            width: isa::Width::Bits64,
            test: $test,
            dst: $dst,
            source: $source,
            distance: $distance,
        }
    };
}

/// The address of a value in R6: `ldval r6, 0, 4`.
#[macro_export]
macro_rules! address {
    ($map:expr, $offset:expr) => {
        ebpf_decode::Insn::Ldval {
            dst: isa::Register::R6,
            map: $map,
            offset: $offset,
        }
    };
}

/// A helper is called: `call 1`.
#[macro_export]
macro_rules! call {
    ($helper:expr) => {
        ebpf_decode::Insn::CallHelper { helper: $helper }
    };
}
