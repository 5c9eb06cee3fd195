//! The low parts of a register.
ghost use Rattle.std.specs.Prelude.{◌≡◌, ◌%◌, ◌^◌};

/// The low 32 bits of a register.
pub fn low_word(value: u64) -> u32
    ensures { result ≡ value % 2 ^ 32 }
{
    (value % 0x1_0000_0000) as u32
}

/// The low 16 bits of a register.
pub fn low_short(value: u64) -> u16
    ensures { result ≡ value % 2 ^ 16 }
{
    (value % 0x1_0000) as u16
}

/// The low 8 bits of a register.
pub fn low_byte(value: u64) -> u8
    ensures { result ≡ value % 2 ^ 8 }
{
    (value % 0x100) as u8
}
