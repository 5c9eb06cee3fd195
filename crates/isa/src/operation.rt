//! What an instruction may ask for: operations, tests, widths and registers, in RFC 9669's names, with the numbers by which
//! sections 3 to 5 name them, each written once.

ghost use Rattle.std.specs.Prelude.{◌≡◌, ◌<◌, ◌≤◌, ◌-◌, ◌%◌, ◌^◌, pos, Option, if◌then◌else◌};
ghost use Rattle.std.specs.Ordering.{int_eq};
ghost use Rattle.isa.specs.Words.{width_bits};
ghost use Rattle.isa.specs.Alu.{extension_bits, short_extension_bits};
ghost use Rattle.isa.specs.Swap.{swap_bits};
ghost use Rattle.isa.specs.InstructionCodes.{class_number, class_of_opcode, alu_class, jump_class, mode_number, mode_of_opcode};
ghost use Rattle.isa.specs.InstructionCodes.{register_number, register_of, alu_code, alu_offset, alu_op_of, order_width, order_bit};
ghost use Rattle.isa.specs.InstructionCodes.{test_code, test_of, size_code, size_of_code, size_bytes, size_bits, extension_size};
ghost use Rattle.isa.specs.InstructionCodes.{width_size, width_of_size_code, atomic_code, atomic_op_of};
ghost use Rattle.isa.specs.Atomic.{fetched_register, compares_r0};

/// The class of an instruction: the low three bits of its opcode (RFC 9669, section 3.3).
#[derive(Clone, Copy, Debug, PartialEq, Eq)]
pub enum Class {
    /// Wide instructions, and legacy packet loads.
    Ld,
    /// Loads.
    Ldx,
    /// Stores of an immediate.
    St,
    /// Stores of a register, and atomic operations.
    Stx,
    /// Arithmetic on low halves.
    Alu,
    /// Jumps that compare whole registers, calls and exits.
    Jmp,
    /// Jumps that compare low halves.
    Jmp32,
    /// Arithmetic on whole registers.
    Alu64,
}

/// The mode of a load or a store: the high three bits of its opcode (RFC 9669, section 5).
#[derive(Clone, Copy, Debug, PartialEq, Eq)]
pub enum Mode {
    /// Wide instructions.
    Imm,
    /// Legacy packet loads at a constant place.
    Abs,
    /// Legacy packet loads at a register's place.
    Ind,
    /// Loads and stores.
    Mem,
    /// Sign-extending loads.
    MemSx,
    /// Atomic operations.
    Atomic,
}

/// How much of its operands an arithmetic instruction, a jump or an atomic operation works on (the
/// instruction classes ALU and JMP32, or ALU64 and JMP; RFC 9669, section 3.3).
#[derive(Clone, Copy, Debug, PartialEq, Eq)]
pub enum Width {
    /// The low halves; a result is zero-extended to 64 bits.
    Bits32,
    /// The whole registers.
    Bits64,
}

/// An arithmetic operation that takes an immediate or a register (RFC 9669, section 4.1).
#[derive(Clone, Copy, Debug, PartialEq, Eq)]
pub enum AluOp {
    Add,
    Sub,
    Mul,
    /// Unsigned; by zero: zero.
    Div,
    /// Signed, toward zero; by zero: zero.
    Sdiv,
    Or,
    And,
    /// Left shift; the count is masked with the width less one.
    Lsh,
    /// Logical right shift, its count masked so.
    Rsh,
    /// Unsigned; by zero: the dividend.
    Mod,
    /// Signed; by zero: the dividend.
    Smod,
    Xor,
    Mov,
    /// Arithmetic right shift, its count masked so.
    Arsh,
}

/// The low part of a register or a value in memory that is sign-extended to 64 bits (RFC 9669, sections 4.1 and 5.2).
#[derive(Clone, Copy, Debug, PartialEq, Eq)]
pub enum Extension {
    I8,
    I16,
    I32,
}

/// The low part of a register that is sign-extended to 32 bits (RFC 9669, section 4.1).
#[derive(Clone, Copy, Debug, PartialEq, Eq)]
pub enum ShortExtension {
    Short8,
    Short16,
}

/// The order of bytes that a swap returns, on a host that is little-endian (RFC 9669, section 4.2).
#[derive(Clone, Copy, Debug, PartialEq, Eq)]
pub enum ByteOrder {
    /// To little endian: the low bytes as they are.
    ToLittle,
    /// To big endian.
    ToBig,
    /// Swapped, whatever the host.
    Swapped,
}

/// How many low bits a byte swap works on; the result is zero-extended (RFC 9669, section 4.2).
#[derive(Clone, Copy, Debug, PartialEq, Eq)]
pub enum SwapWidth {
    Swap16,
    Swap32,
    Swap64,
}

/// The test of a conditional jump, of the destination against the source (RFC 9669, section 4.3).
#[derive(Clone, Copy, Debug, PartialEq, Eq)]
pub enum Test {
    Eq,
    Gt,
    Ge,
    /// The two share a bit.
    Set,
    Ne,
    /// Signed.
    Sgt,
    /// Signed.
    Sge,
    Lt,
    Le,
    /// Signed.
    Slt,
    /// Signed.
    Sle,
}

/// What an atomic instruction does to a value in memory (RFC 9669, section 5.3).
#[derive(Clone, Copy, Debug, PartialEq, Eq)]
pub enum AtomicOp {
    AtomicAdd,
    AtomicOr,
    AtomicAnd,
    AtomicXor,
    FetchAdd,
    FetchOr,
    FetchAnd,
    FetchXor,
    /// The source is stored, the old value fetched.
    Exchange,
    /// The source is stored where the old value is that of R0; the old value goes to R0.
    CompareExchange,
}

/// How much a load or a store moves (RFC 9669, section 5): 8, 16, 32 or 64 bits.
#[derive(Clone, Copy, Debug, PartialEq, Eq)]
pub enum Size {
    U8,
    U16,
    U32,
    U64,
}

/// One of the eleven registers (RFC 9669, section 3.1): R0 answers, R1 to R5 are arguments, R10 is the read-only frame pointer.
#[derive(Clone, Copy, Debug, PartialEq, Eq)]
pub enum Register {
    R0,
    R1,
    R2,
    R3,
    R4,
    R5,
    R6,
    R7,
    R8,
    R9,
    R10,
}

/// The second operand of an instruction (RFC 9669, section 4).
#[derive(Clone, Copy, Debug, PartialEq, Eq)]
pub enum SourceOperand {
    /// K: the 32-bit immediate, sign-extended where 64 bits are wanted.
    Imm(i32),
    /// X: the source register.
    Reg(Register),
}

/// Every register, by its number.
pub const REGISTERS: [Register; 11] = [
    Register::R0,
    Register::R1,
    Register::R2,
    Register::R3,
    Register::R4,
    Register::R5,
    Register::R6,
    Register::R7,
    Register::R8,
    Register::R9,
    Register::R10,
];

/// Every extension to 64 bits.
pub const EXTENSIONS: [Extension; 3] = [Extension::I8, Extension::I16, Extension::I32];

/// Every extension to 32 bits.
pub const SHORT_EXTENSIONS: [ShortExtension; 2] = [ShortExtension::Short8, ShortExtension::Short16];

/// Every order of bytes.
pub const ORDERS: [ByteOrder; 3] = [ByteOrder::ToLittle, ByteOrder::ToBig, ByteOrder::Swapped];

/// Every width of a byte swap.
pub const SWAP_WIDTHS: [SwapWidth; 3] = [SwapWidth::Swap16, SwapWidth::Swap32, SwapWidth::Swap64];

impl Class {
    /// The class's number.
    pub fn number(self) -> u8
        ensures number { result ≡ class_number self }
        ensures below { result < 8 }
    {
        match self {
            Class::Ld => 0,
            Class::Ldx => 1,
            Class::St => 2,
            Class::Stx => 3,
            Class::Alu => 4,
            Class::Jmp => 5,
            Class::Jmp32 => 6,
            Class::Alu64 => 7,
        }
    }

    /// The class of an opcode. Every opcode has one.
    pub fn of_opcode(opcode: u8) -> Class
        ensures class { result ≡ class_of_opcode opcode }
        ensures number { class_number result ≡ opcode % 8 }
    {
        match opcode % 8 {
            0 => Class::Ld,
            1 => Class::Ldx,
            2 => Class::St,
            3 => Class::Stx,
            4 => Class::Alu,
            5 => Class::Jmp,
            6 => Class::Jmp32,
            _ => Class::Alu64,
        }
    }
}

impl Mode {
    /// The mode's number.
    pub fn number(self) -> u8
        ensures number { result ≡ mode_number self }
        ensures below { result < 8 }
    {
        match self {
            Mode::Imm => 0,
            Mode::Abs => 1,
            Mode::Ind => 2,
            Mode::Mem => 3,
            Mode::MemSx => 4,
            Mode::Atomic => 6,
        }
    }

    /// The mode of an opcode; none where its high three bits are 5 or 7.
    pub fn of_opcode(opcode: u8) -> Option<Mode>
        ensures { result ≡ mode_of_opcode opcode }
    {
        match opcode / 32 {
            0 => Some(Mode::Imm),
            1 => Some(Mode::Abs),
            2 => Some(Mode::Ind),
            3 => Some(Mode::Mem),
            4 => Some(Mode::MemSx),
            6 => Some(Mode::Atomic),
            _ => None,
        }
    }
}

impl Width {
    /// How many bits an instruction of this width works on.
    pub fn bits(self) -> u32
        ensures bits { result ≡ width_bits self }
        ensures most { result ≤ 64 }
    {
        match self {
            Width::Bits32 => 32,
            Width::Bits64 => 64,
        }
    }

    /// How much an atomic operation of this width reads and writes (section 5.3).
    pub fn size(self) -> Size
        ensures { result ≡ width_size self }
    {
        match self {
            Width::Bits32 => Size::U32,
            Width::Bits64 => Size::U64,
        }
    }

    /// The width of an atomic operation whose size has this code; none of the sizes of 8 and 16 bits.
    pub fn of_size_code(code: u8) -> Option<Width>
        ensures { result ≡ width_of_size_code code }
    {
        match code {
            0 => Some(Width::Bits32),
            3 => Some(Width::Bits64),
            _ => None,
        }
    }

    /// The class ALU or ALU64.
    pub fn alu_class(self) -> Class
        ensures { result ≡ alu_class self }
    {
        match self {
            Width::Bits32 => Class::Alu,
            Width::Bits64 => Class::Alu64,
        }
    }

    /// The class JMP32 or JMP.
    pub fn jump_class(self) -> Class
        ensures { result ≡ jump_class self }
    {
        match self {
            Width::Bits32 => Class::Jmp32,
            Width::Bits64 => Class::Jmp,
        }
    }
}

impl AluOp {
    /// The high four bits of the operation's opcode (section 4.1).
    pub fn code(self) -> u8
        ensures code { result ≡ alu_code self }
        ensures below { result < 16 }
    {
        match self {
            AluOp::Add => 0,
            AluOp::Sub => 1,
            AluOp::Mul => 2,
            AluOp::Div | AluOp::Sdiv => 3,
            AluOp::Or => 4,
            AluOp::And => 5,
            AluOp::Lsh => 6,
            AluOp::Rsh => 7,
            AluOp::Mod | AluOp::Smod => 9,
            AluOp::Xor => 10,
            AluOp::Mov => 11,
            AluOp::Arsh => 12,
        }
    }

    /// The offset of the operation's slot: 1 for signed division and remainder, else 0.
    pub fn offset(self) -> u8
        ensures { result ≡ alu_offset self }
    {
        match self {
            AluOp::Sdiv | AluOp::Smod => 1,
            _ => 0,
        }
    }

    /// The operation of this code and offset, if it is one's. The offset distinguishes division and remainder from their signed
    /// forms, and no other operation.
    pub fn of(code: u8, offset: i16) -> Option<AluOp>
        ensures { result ≡ alu_op_of code offset }
    {
        match code {
            0 => Some(AluOp::Add),
            1 => Some(AluOp::Sub),
            2 => Some(AluOp::Mul),
            3 => signed_or_not(offset, AluOp::Div, AluOp::Sdiv),
            4 => Some(AluOp::Or),
            5 => Some(AluOp::And),
            6 => Some(AluOp::Lsh),
            7 => Some(AluOp::Rsh),
            9 => signed_or_not(offset, AluOp::Mod, AluOp::Smod),
            10 => Some(AluOp::Xor),
            11 => Some(AluOp::Mov),
            12 => Some(AluOp::Arsh),
            _ => None,
        }
    }
}

/// The operation at the offset 0, or its signed form at 1.
fn signed_or_not(offset: i16, unsigned: AluOp, signed: AluOp) -> Option<AluOp>
    ensures { result ≡ (if int_eq (pos 0) offset then Some unsigned else if int_eq (pos 1) offset then Some signed else None) }
{
    match offset {
        0 => Some(unsigned),
        1 => Some(signed),
        _ => None,
    }
}

impl Extension {
    /// How many low bits are extended.
    pub fn bits(self) -> u8
        ensures { result ≡ extension_bits self }
    {
        match self {
            Extension::I8 => 8,
            Extension::I16 => 16,
            Extension::I32 => 32,
        }
    }

    /// How much a sign-extending load reads (section 5.2).
    pub fn size(self) -> Size
        ensures { result ≡ extension_size self }
    {
        match self {
            Extension::I8 => Size::U8,
            Extension::I16 => Size::U16,
            Extension::I32 => Size::U32,
        }
    }
}

impl ShortExtension {
    /// How many low bits are extended.
    pub fn bits(self) -> u8
        ensures { result ≡ short_extension_bits self }
    {
        match self {
            ShortExtension::Short8 => 8,
            ShortExtension::Short16 => 16,
        }
    }
}

impl ByteOrder {
    /// The width of the class that the order is written in (section 4.2).
    pub fn width(self) -> Width
        ensures { result ≡ order_width self }
    {
        match self {
            ByteOrder::ToLittle | ByteOrder::ToBig => Width::Bits32,
            ByteOrder::Swapped => Width::Bits64,
        }
    }

    /// The source bit of the order's opcode.
    pub fn source_bit(self) -> u8
        ensures bit { result ≡ order_bit self }
        ensures below { result < 2 }
    {
        match self {
            ByteOrder::ToLittle | ByteOrder::Swapped => 0,
            ByteOrder::ToBig => 1,
        }
    }
}

impl SwapWidth {
    /// How many low bits are swapped: the immediate of a byte swap (section 4.2).
    pub fn bits(self) -> u8
        ensures { result ≡ swap_bits self }
    {
        match self {
            SwapWidth::Swap16 => 16,
            SwapWidth::Swap32 => 32,
            SwapWidth::Swap64 => 64,
        }
    }
}

impl Test {
    /// The high four bits of the test's opcode (section 4.3).
    pub fn code(self) -> u8
        ensures code { result ≡ test_code self }
        ensures below { result < 16 }
    {
        match self {
            Test::Eq => 1,
            Test::Gt => 2,
            Test::Ge => 3,
            Test::Set => 4,
            Test::Ne => 5,
            Test::Sgt => 6,
            Test::Sge => 7,
            Test::Lt => 10,
            Test::Le => 11,
            Test::Slt => 12,
            Test::Sle => 13,
        }
    }

    /// The test of this code, if it is one's.
    pub fn of(code: u8) -> Option<Test>
        ensures { result ≡ test_of code }
    {
        match code {
            1 => Some(Test::Eq),
            2 => Some(Test::Gt),
            3 => Some(Test::Ge),
            4 => Some(Test::Set),
            5 => Some(Test::Ne),
            6 => Some(Test::Sgt),
            7 => Some(Test::Sge),
            10 => Some(Test::Lt),
            11 => Some(Test::Le),
            12 => Some(Test::Slt),
            13 => Some(Test::Sle),
            _ => None,
        }
    }
}

impl Size {
    /// The two bits of an opcode that say the size (section 5).
    pub fn code(self) -> u8
        ensures code { result ≡ size_code self }
        ensures below { result < 4 }
    {
        match self {
            Size::U32 => 0,
            Size::U16 => 1,
            Size::U8 => 2,
            Size::U64 => 3,
        }
    }

    /// The size of this code; none from 4 on.
    pub fn of(code: u8) -> Option<Size>
        ensures { result ≡ size_of_code code }
    {
        match code {
            0 => Some(Size::U32),
            1 => Some(Size::U16),
            2 => Some(Size::U8),
            3 => Some(Size::U64),
            _ => None,
        }
    }

    /// How many bytes a load or a store of this size moves.
    pub fn bytes(self) -> u32
        ensures count { result ≡ size_bytes self }
        ensures some { 1 ≤ result }
        ensures most { result ≤ 8 }
    {
        match self {
            Size::U8 => 1,
            Size::U16 => 2,
            Size::U32 => 4,
            Size::U64 => 8,
        }
    }

    /// How many bits these are.
    pub fn bits(self) -> u32
        ensures count { result ≡ size_bits self }
        ensures most { result ≤ 64 }
    {
        match self {
            Size::U8 => 8,
            Size::U16 => 16,
            Size::U32 => 32,
            Size::U64 => 64,
        }
    }

    /// The largest number of this size.
    pub fn most(self) -> u64
        ensures { result ≡ 2 ^ size_bits self - 1 }
    {
        match self {
            Size::U8 => 0xff,
            Size::U16 => 0xffff,
            Size::U32 => 0xffff_ffff,
            Size::U64 => u64::MAX,
        }
    }
}

impl AtomicOp {
    /// The immediate of the operation's slot (section 5.3).
    pub fn code(self) -> u8
        ensures { result ≡ atomic_code self }
    {
        match self {
            AtomicOp::AtomicAdd => 0x00,
            AtomicOp::AtomicOr => 0x40,
            AtomicOp::AtomicAnd => 0x50,
            AtomicOp::AtomicXor => 0xa0,
            AtomicOp::FetchAdd => 0x01,
            AtomicOp::FetchOr => 0x41,
            AtomicOp::FetchAnd => 0x51,
            AtomicOp::FetchXor => 0xa1,
            AtomicOp::Exchange => 0xe1,
            AtomicOp::CompareExchange => 0xf1,
        }
    }

    /// The operation of this immediate, if it is one's.
    pub fn of(code: u64) -> Option<AtomicOp>
        ensures { result ≡ atomic_op_of code }
    {
        match code {
            0x00 => Some(AtomicOp::AtomicAdd),
            0x40 => Some(AtomicOp::AtomicOr),
            0x50 => Some(AtomicOp::AtomicAnd),
            0xa0 => Some(AtomicOp::AtomicXor),
            0x01 => Some(AtomicOp::FetchAdd),
            0x41 => Some(AtomicOp::FetchOr),
            0x51 => Some(AtomicOp::FetchAnd),
            0xa1 => Some(AtomicOp::FetchXor),
            0xe1 => Some(AtomicOp::Exchange),
            0xf1 => Some(AtomicOp::CompareExchange),
            _ => None,
        }
    }

    /// The register that gets the old value (section 5.3): none without FETCH, and R0 for a compare-and-exchange.
    pub fn fetched(self, src: Register) -> Option<Register>
        ensures { result ≡ fetched_register self src }
    {
        match self {
            AtomicOp::AtomicAdd | AtomicOp::AtomicOr | AtomicOp::AtomicAnd | AtomicOp::AtomicXor =>
                None,
            AtomicOp::CompareExchange => Some(Register::R0),
            _ => Some(src),
        }
    }

    /// Whether the operation compares the old value with R0.
    pub fn compares(self) -> bool
        ensures { result ≡ compares_r0 self }
    {
        match self {
            AtomicOp::CompareExchange => true,
            _ => false,
        }
    }
}

impl Register {
    /// The register's number, which is its place where registers are listed.
    pub fn number(self) -> u8
        ensures number { result ≡ register_number self }
        ensures below { result < 11 }
    {
        match self {
            Register::R0 => 0,
            Register::R1 => 1,
            Register::R2 => 2,
            Register::R3 => 3,
            Register::R4 => 4,
            Register::R5 => 5,
            Register::R6 => 6,
            Register::R7 => 7,
            Register::R8 => 8,
            Register::R9 => 9,
            Register::R10 => 10,
        }
    }

    /// The register of this number; none above 10.
    pub fn of(number: u8) -> Option<Register>
        ensures { result ≡ register_of number }
    {
        match number {
            0 => Some(Register::R0),
            1 => Some(Register::R1),
            2 => Some(Register::R2),
            3 => Some(Register::R3),
            4 => Some(Register::R4),
            5 => Some(Register::R5),
            6 => Some(Register::R6),
            7 => Some(Register::R7),
            8 => Some(Register::R8),
            9 => Some(Register::R9),
            10 => Some(Register::R10),
            _ => None,
        }
    }
}
