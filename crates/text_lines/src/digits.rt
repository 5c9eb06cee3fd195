//! Hexadecimal digits as letters.

ghost use Rattle.std.specs.Prelude.{◌≡◌, ◌<◌};
ghost use Rattle.text_lines.specs.Digits.{hex_digit};

/// The letter of a digit up to 15, in lower case.
pub fn hex_digit(value: u8) -> u8
    requires { value < 16 }
    ensures digit { result ≡ hex_digit value }
    ensures ascii { result < 128 }
{
    if value < 10 { 48 + value } else { 87 + value }
}
