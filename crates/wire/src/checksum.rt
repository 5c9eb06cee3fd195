//! The ones' complement sum of the internet checksum.

ghost use Rattle.std.specs.Prelude.{◌≡◌};
ghost use Rattle.wire.specs.Checksum.{ones_add, ones_sum_of, ComplementInPlace};

/// The ones' complement sum of two words: a carry comes back in at the low end.
fn ones_add(a: u16, b: u16) -> u16
    ensures { result ≡ ones_add a b }
{
    let sum = u32::from(a) + u32::from(b);
    (sum % 0x10000 + sum / 0x10000) as u16
}

/// The ones' complement sum of the 16-bit words of the bytes, high byte first
/// (RFC 1071, section 1). A last odd byte is the high byte of a word.
///
/// The header checksum is the complement of this sum over the header whose
/// checksum field is zero.
pub fn ones_sum(bytes: &[u8]) -> u16
    ensures sum { result ≡ ones_sum_of bytes.now }
    ensures complement_in_place { ComplementInPlace bytes.now }
{
    let mut sum = 0;
    let mut rest = bytes;
    while let [high, low, tail @ ..] = rest {
        sum = ones_add(sum, u16::from_be_bytes([*high, *low]));
        rest = tail;
    }
    match rest {
        [last] => ones_add(sum, u16::from(*last) * 256),
        _ => sum,
    }
}
