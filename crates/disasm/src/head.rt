//! The first word of an instruction's line.

ghost use Rattle.std.specs.Prelude.{◌≡◌, ◌++◌, string_bytes, OnOk, true};
ghost use Rattle.std.specs.List.{find};
ghost use Rattle.std.specs.Str.{bytes_eq};
ghost use Rattle.disasm.specs.Names.{alu_name, width_suffix, extension_bits_text, short_bits, order_name, swap_bits_text, test_name, size_letters};
ghost use Rattle.disasm.specs.Names.{atomic_name, head_stem, head_suffix, head_name, Spells};

use isa::{AluOp, AtomicOp, ByteOrder, Extension, ShortExtension, Size, SwapWidth, Test, Width};
use std::alloc::AllocError;

/// What the first word of a line says: the operation, with its width or size (RFC 9669, sections 4 and 5).
#[derive(Clone, Copy, Debug, PartialEq, Eq)]
pub enum Head {
    Alu(Width, AluOp),
    Neg(Width),
    Movsx(Extension),
    Movsx32(ShortExtension),
    End(ByteOrder, SwapWidth),
    Ja,
    Ja32,
    JumpIf(Width, Test),
    Ldx(Size),
    Ldxs(Extension),
    St(Size),
    Stx(Size),
    Atomic(Width, AtomicOp),
    Lddw,
    Ldmap,
    Ldval,
    Call,
    Exit,
}

/// Every first word once.
#[rattlefmt::skip]
const HEADS: [Head; 108] = [
    Head::Alu(Width::Bits64, AluOp::Add), Head::Alu(Width::Bits64, AluOp::Sub), Head::Alu(Width::Bits64, AluOp::Mul),
    Head::Alu(Width::Bits64, AluOp::Div), Head::Alu(Width::Bits64, AluOp::Sdiv), Head::Alu(Width::Bits64, AluOp::Or),
    Head::Alu(Width::Bits64, AluOp::And), Head::Alu(Width::Bits64, AluOp::Lsh), Head::Alu(Width::Bits64, AluOp::Rsh),
    Head::Alu(Width::Bits64, AluOp::Mod), Head::Alu(Width::Bits64, AluOp::Smod), Head::Alu(Width::Bits64, AluOp::Xor),
    Head::Alu(Width::Bits64, AluOp::Mov), Head::Alu(Width::Bits64, AluOp::Arsh), Head::Alu(Width::Bits32, AluOp::Add),
    Head::Alu(Width::Bits32, AluOp::Sub), Head::Alu(Width::Bits32, AluOp::Mul), Head::Alu(Width::Bits32, AluOp::Div),
    Head::Alu(Width::Bits32, AluOp::Sdiv), Head::Alu(Width::Bits32, AluOp::Or), Head::Alu(Width::Bits32, AluOp::And),
    Head::Alu(Width::Bits32, AluOp::Lsh), Head::Alu(Width::Bits32, AluOp::Rsh), Head::Alu(Width::Bits32, AluOp::Mod),
    Head::Alu(Width::Bits32, AluOp::Smod), Head::Alu(Width::Bits32, AluOp::Xor), Head::Alu(Width::Bits32, AluOp::Mov),
    Head::Alu(Width::Bits32, AluOp::Arsh), Head::Neg(Width::Bits64), Head::Neg(Width::Bits32),
    Head::Movsx(Extension::I8), Head::Movsx(Extension::I16), Head::Movsx(Extension::I32),
    Head::Movsx32(ShortExtension::Short8), Head::Movsx32(ShortExtension::Short16),
    Head::End(ByteOrder::ToLittle, SwapWidth::Swap16), Head::End(ByteOrder::ToLittle, SwapWidth::Swap32),
    Head::End(ByteOrder::ToLittle, SwapWidth::Swap64), Head::End(ByteOrder::ToBig, SwapWidth::Swap16),
    Head::End(ByteOrder::ToBig, SwapWidth::Swap32), Head::End(ByteOrder::ToBig, SwapWidth::Swap64),
    Head::End(ByteOrder::Swapped, SwapWidth::Swap16), Head::End(ByteOrder::Swapped, SwapWidth::Swap32),
    Head::End(ByteOrder::Swapped, SwapWidth::Swap64), Head::Ja, Head::Ja32, Head::JumpIf(Width::Bits64, Test::Eq),
    Head::JumpIf(Width::Bits64, Test::Gt), Head::JumpIf(Width::Bits64, Test::Ge),
    Head::JumpIf(Width::Bits64, Test::Set), Head::JumpIf(Width::Bits64, Test::Ne),
    Head::JumpIf(Width::Bits64, Test::Sgt), Head::JumpIf(Width::Bits64, Test::Sge),
    Head::JumpIf(Width::Bits64, Test::Lt), Head::JumpIf(Width::Bits64, Test::Le),
    Head::JumpIf(Width::Bits64, Test::Slt), Head::JumpIf(Width::Bits64, Test::Sle),
    Head::JumpIf(Width::Bits32, Test::Eq), Head::JumpIf(Width::Bits32, Test::Gt),
    Head::JumpIf(Width::Bits32, Test::Ge), Head::JumpIf(Width::Bits32, Test::Set),
    Head::JumpIf(Width::Bits32, Test::Ne), Head::JumpIf(Width::Bits32, Test::Sgt),
    Head::JumpIf(Width::Bits32, Test::Sge), Head::JumpIf(Width::Bits32, Test::Lt),
    Head::JumpIf(Width::Bits32, Test::Le), Head::JumpIf(Width::Bits32, Test::Slt),
    Head::JumpIf(Width::Bits32, Test::Sle), Head::Ldx(Size::U32), Head::Ldx(Size::U16), Head::Ldx(Size::U8),
    Head::Ldx(Size::U64), Head::Ldxs(Extension::I8), Head::Ldxs(Extension::I16), Head::Ldxs(Extension::I32),
    Head::St(Size::U32), Head::St(Size::U16), Head::St(Size::U8), Head::St(Size::U64), Head::Stx(Size::U32),
    Head::Stx(Size::U16), Head::Stx(Size::U8), Head::Stx(Size::U64), Head::Atomic(Width::Bits64, AtomicOp::AtomicAdd),
    Head::Atomic(Width::Bits64, AtomicOp::AtomicOr), Head::Atomic(Width::Bits64, AtomicOp::AtomicAnd),
    Head::Atomic(Width::Bits64, AtomicOp::AtomicXor), Head::Atomic(Width::Bits64, AtomicOp::FetchAdd),
    Head::Atomic(Width::Bits64, AtomicOp::FetchOr), Head::Atomic(Width::Bits64, AtomicOp::FetchAnd),
    Head::Atomic(Width::Bits64, AtomicOp::FetchXor), Head::Atomic(Width::Bits64, AtomicOp::Exchange),
    Head::Atomic(Width::Bits64, AtomicOp::CompareExchange), Head::Atomic(Width::Bits32, AtomicOp::AtomicAdd),
    Head::Atomic(Width::Bits32, AtomicOp::AtomicOr), Head::Atomic(Width::Bits32, AtomicOp::AtomicAnd),
    Head::Atomic(Width::Bits32, AtomicOp::AtomicXor), Head::Atomic(Width::Bits32, AtomicOp::FetchAdd),
    Head::Atomic(Width::Bits32, AtomicOp::FetchOr), Head::Atomic(Width::Bits32, AtomicOp::FetchAnd),
    Head::Atomic(Width::Bits32, AtomicOp::FetchXor), Head::Atomic(Width::Bits32, AtomicOp::Exchange),
    Head::Atomic(Width::Bits32, AtomicOp::CompareExchange), Head::Lddw, Head::Ldmap, Head::Ldval, Head::Call, Head::Exit,
];

fn alu_name(of: AluOp) -> &'static str
    ensures { result.now ≡ alu_name of }
{
    match of {
        AluOp::Add => "add",
        AluOp::Sub => "sub",
        AluOp::Mul => "mul",
        AluOp::Div => "div",
        AluOp::Sdiv => "sdiv",
        AluOp::Or => "or",
        AluOp::And => "and",
        AluOp::Lsh => "lsh",
        AluOp::Rsh => "rsh",
        AluOp::Mod => "mod",
        AluOp::Smod => "smod",
        AluOp::Xor => "xor",
        AluOp::Mov => "mov",
        AluOp::Arsh => "arsh",
    }
}

fn width_suffix(of: Width) -> &'static str
    ensures { result.now ≡ width_suffix of }
{
    match of {
        Width::Bits64 => "",
        Width::Bits32 => "32",
    }
}

fn extension_bits(of: Extension) -> &'static str
    ensures { result.now ≡ extension_bits_text of }
{
    match of {
        Extension::I8 => "8",
        Extension::I16 => "16",
        Extension::I32 => "32",
    }
}

fn short_bits(of: ShortExtension) -> &'static str
    ensures { result.now ≡ short_bits of }
{
    match of {
        ShortExtension::Short8 => "832",
        ShortExtension::Short16 => "1632",
    }
}

fn order_name(of: ByteOrder) -> &'static str
    ensures { result.now ≡ order_name of }
{
    match of {
        ByteOrder::ToLittle => "le",
        ByteOrder::ToBig => "be",
        ByteOrder::Swapped => "swap",
    }
}

fn swap_bits(of: SwapWidth) -> &'static str
    ensures { result.now ≡ swap_bits_text of }
{
    match of {
        SwapWidth::Swap16 => "16",
        SwapWidth::Swap32 => "32",
        SwapWidth::Swap64 => "64",
    }
}

fn test_name(of: Test) -> &'static str
    ensures { result.now ≡ test_name of }
{
    match of {
        Test::Eq => "jeq",
        Test::Gt => "jgt",
        Test::Ge => "jge",
        Test::Set => "jset",
        Test::Ne => "jne",
        Test::Sgt => "jsgt",
        Test::Sge => "jsge",
        Test::Lt => "jlt",
        Test::Le => "jle",
        Test::Slt => "jslt",
        Test::Sle => "jsle",
    }
}

fn size_letters(of: Size) -> &'static str
    ensures { result.now ≡ size_letters of }
{
    match of {
        Size::U8 => "b",
        Size::U16 => "h",
        Size::U32 => "w",
        Size::U64 => "dw",
    }
}

fn atomic_name(of: AtomicOp) -> &'static str
    ensures { result.now ≡ atomic_name of }
{
    match of {
        AtomicOp::AtomicAdd => "aadd",
        AtomicOp::AtomicOr => "aor",
        AtomicOp::AtomicAnd => "aand",
        AtomicOp::AtomicXor => "axor",
        AtomicOp::FetchAdd => "afadd",
        AtomicOp::FetchOr => "afor",
        AtomicOp::FetchAnd => "afand",
        AtomicOp::FetchXor => "afxor",
        AtomicOp::Exchange => "axchg",
        AtomicOp::CompareExchange => "acmpxchg",
    }
}

impl Head {
    /// The operation's part of the word.
    fn stem(self) -> &'static str
        ensures { result.now ≡ head_stem self }
    {
        match self {
            Head::Alu(_, op) => alu_name(op),
            Head::Neg(_) => "neg",
            Head::Movsx(_) | Head::Movsx32(_) => "movsx",
            Head::End(order, _) => order_name(order),
            Head::Ja | Head::Ja32 => "ja",
            Head::JumpIf(_, test) => test_name(test),
            Head::Ldx(_) => "ldx",
            Head::Ldxs(_) => "ldxs",
            Head::St(_) => "st",
            Head::Stx(_) => "stx",
            Head::Atomic(_, op) => atomic_name(op),
            Head::Lddw => "lddw",
            Head::Ldmap => "ldmap",
            Head::Ldval => "ldval",
            Head::Call => "call",
            Head::Exit => "exit",
        }
    }

    /// The part of the word that says the width or the size.
    fn suffix(self) -> &'static str
        ensures { result.now ≡ head_suffix self }
    {
        match self {
            Head::Alu(width, _) | Head::Neg(width) | Head::JumpIf(width, _) => width_suffix(width),
            Head::Movsx(extension) => extension_bits(extension),
            Head::Movsx32(extension) => short_bits(extension),
            Head::End(_, swap_width) => swap_bits(swap_width),
            Head::Ja32 => "32",
            Head::Ldx(size) | Head::St(size) | Head::Stx(size) => size_letters(size),
            Head::Ldxs(extension) => size_letters(extension.size()),
            Head::Atomic(width, _) => size_letters(width.size()),
            Head::Ja | Head::Lddw | Head::Ldmap | Head::Ldval | Head::Call | Head::Exit => "",
        }
    }

    /// Writes the word.
    #[tactic(auto, unfolding(crate::specs::Names::head_name))]
    pub(crate) fn put(self, out: &mut String) -> Result<(), AllocError>
        ensures { OnOk result (string_bytes out.new ≡ string_bytes out.old ++ head_name self) }
    {
        out.push_str(self.stem())?;
        out.push_str(self.suffix())?;
        Ok(())
    }

    /// Whether the word is the name.
    #[tactic(auto, unfolding(crate::specs::Names::head_name))]
    fn is_named(self, name: &str) -> bool
        ensures { result ≡ bytes_eq (head_name self) name.now }
    {
        let (name, stem) = (name.as_bytes(), self.stem().as_bytes());
        name.starts_with(stem) && &name[stem.len()..] == self.suffix().as_bytes()
    }

    /// The operation of this name, if there is one.
    pub(crate) fn named(name: &str) -> Head
        ensures { (head : Head) → name.now ≡ head_name head → result ≡ head }
    {
        first_named(&HEADS, name).unwrap_or(Head::Exit)
    }
}

fn first_named(all: &[Head], name: &str) -> Option<Head>
    ensures { result ≡ find (λ head. bytes_eq (head_name head) name.now) all.now }
{
    all.iter().copied().find(|head| head.is_named(name))
}

/// Whether an instruction's line begins with the word.
pub fn is_first_word(word: &str) -> bool
    ensures known { (head : Head) → word.now ≡ head_name head → result ≡ true }
    ensures only { result ≡ true → Spells word.now }
{
    match first_named(&HEADS, word) {
        Some(_) => true,
        None => false,
    }
}
