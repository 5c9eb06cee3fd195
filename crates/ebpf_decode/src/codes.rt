//! What a number in a slot names, or the fault where it names nothing (RFC 9669, sections 3 to 5).

ghost use Rattle.std.specs.Prelude.{◌≡◌, ◌==◌, ◌<◌};
ghost use Rattle.std.specs.List.{find};
ghost use Rattle.ebpf_decode.specs.InstructionEncoding.{operation_opcode, memory_opcode, order_opcode};
ghost use Rattle.ebpf_decode.specs.InstructionReading.{register_at, alu_op_at, extension_at, short_extension_at, order_at};
ghost use Rattle.ebpf_decode.specs.InstructionReading.{swap_width_at, test_at, size_at, extension_size_at, width_at, atomic_op_at};

use crate::fault::SlotFault;
use isa::operation::{EXTENSIONS, ORDERS, SHORT_EXTENSIONS, SWAP_WIDTHS};
use isa::{
    AluOp, AtomicOp, ByteOrder, Class, Extension, Mode, Register, ShortExtension, Size, SwapWidth,
    Test, Width,
};

/// The operation of a negation (section 4.1).
pub const NEG: u8 = 8;
/// The operation of a byte swap (section 4.2).
pub const END: u8 = 13;

/// The operation of an unconditional jump (section 4.3).
pub const JA: u8 = 0;
/// The operation of a call.
pub const CALL: u8 = 8;
/// The operation of an exit.
pub const EXIT: u8 = 9;

/// The opcode of arithmetic and jumps: operation, source bit, class (section 4).
pub fn operation_opcode(code: u8, bit: u8, class: Class) -> u8
    requires code { code < 16 }
    requires bit { bit < 2 }
    ensures { result ≡ operation_opcode code bit «class» }
{
    code * 16 + bit * 8 + class.number()
}

/// The opcode of loads and stores: mode, size, class (section 5).
pub fn memory_opcode(mode: Mode, size: Size, class: Class) -> u8
    ensures { result ≡ memory_opcode mode size «class» }
{
    mode.number() * 32 + size.code() * 8 + class.number()
}

/// The opcode of an order of bytes.
pub fn order_opcode(order: ByteOrder) -> u8
    ensures { result ≡ order_opcode order }
{
    operation_opcode(END, order.source_bit(), order.width().alu_class())
}

/// The register of this number, or fault 17.
#[tactic(auto, unfolding(crate::specs::InstructionReading::register_at))]
pub fn register_at(number: u8) -> Result<Register, SlotFault>
    ensures { result ≡ register_at number }
{
    Register::of(number).ok_or(SlotFault::BadRegister)
}

/// The arithmetic operation of this code and offset, or fault 15.
#[tactic(auto, unfolding(crate::specs::InstructionReading::alu_op_at))]
pub fn alu_op_at(code: u8, offset: i16) -> Result<AluOp, SlotFault>
    ensures { result ≡ alu_op_at code offset }
{
    AluOp::of(code, offset).ok_or(SlotFault::UnknownOpcode)
}

/// The extension of this offset, or fault 15.
#[tactic(auto, unfolding(crate::specs::InstructionReading::extension_at))]
pub fn extension_at(offset: i16) -> Result<Extension, SlotFault>
    ensures { result ≡ extension_at offset }
{
    EXTENSIONS
        .iter()
        .copied()
        .find(|extension| i16::from(extension.bits()) == offset)
        .ok_or(SlotFault::UnknownOpcode)
}

/// The short extension of this offset, or fault 15.
#[tactic(auto, unfolding(crate::specs::InstructionReading::short_extension_at))]
pub fn short_extension_at(offset: i16) -> Result<ShortExtension, SlotFault>
    ensures { result ≡ short_extension_at offset }
{
    SHORT_EXTENSIONS
        .iter()
        .copied()
        .find(|extension| i16::from(extension.bits()) == offset)
        .ok_or(SlotFault::UnknownOpcode)
}

/// The order of this opcode, or fault 15.
#[tactic(auto, unfolding(crate::specs::InstructionReading::order_at))]
pub fn order_at(opcode: u8) -> Result<ByteOrder, SlotFault>
    ensures { result ≡ order_at opcode }
{
    ORDERS
        .iter()
        .copied()
        .find(|order| order_opcode(*order) == opcode)
        .ok_or(SlotFault::UnknownOpcode)
}

/// The width of this immediate, or fault 15.
#[tactic(auto, unfolding(crate::specs::InstructionReading::swap_width_at))]
pub fn swap_width_at(immediate: i32) -> Result<SwapWidth, SlotFault>
    ensures { result ≡ swap_width_at immediate }
{
    SWAP_WIDTHS
        .iter()
        .copied()
        .find(|width| i32::from(width.bits()) == immediate)
        .ok_or(SlotFault::UnknownOpcode)
}

/// The test of this code, or fault 15.
#[tactic(auto, unfolding(crate::specs::InstructionReading::test_at))]
pub fn test_at(code: u8) -> Result<Test, SlotFault>
    ensures { result ≡ test_at code }
{
    Test::of(code).ok_or(SlotFault::UnknownOpcode)
}

/// The size of this code. There is one for each code below 4.
#[tactic(auto, unfolding(crate::specs::InstructionReading::size_at))]
pub fn size_at(code: u8) -> Result<Size, SlotFault>
    ensures { result ≡ size_at code }
{
    Size::of(code).ok_or(SlotFault::UnknownOpcode)
}

/// The sign-extending load of this size's code, or fault 15.
#[tactic(auto, unfolding(crate::specs::InstructionReading::extension_size_at))]
pub fn extension_size_at(code: u8) -> Result<Extension, SlotFault>
    ensures { result ≡ extension_size_at code }
{
    EXTENSIONS
        .iter()
        .copied()
        .find(|extension| extension.size().code() == code)
        .ok_or(SlotFault::UnknownOpcode)
}

/// The width of an atomic operation, by its size's code, or fault 15.
#[tactic(auto, unfolding(crate::specs::InstructionReading::width_at))]
pub fn width_at(code: u8) -> Result<Width, SlotFault>
    ensures { result ≡ width_at code }
{
    Width::of_size_code(code).ok_or(SlotFault::UnknownOpcode)
}

/// The atomic operation of this immediate, or fault 15. A negative one is no operation's.
#[tactic(auto, unfolding(crate::specs::InstructionReading::atomic_op_at))]
pub fn atomic_op_at(immediate: i32) -> Result<AtomicOp, SlotFault>
    ensures { result ≡ atomic_op_at immediate }
{
    if immediate < 0 {
        return Err(SlotFault::UnknownOpcode);
    }
    AtomicOp::of(immediate as u64).ok_or(SlotFault::UnknownOpcode)
}
