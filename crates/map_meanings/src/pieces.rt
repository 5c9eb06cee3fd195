//! What meanings are put together from.

ghost use Rattle.std.specs.Prelude.{◌≡◌, IfOk, string_bytes};
ghost use Rattle.map_meanings.specs.Pieces.{address_of, address_text, colons, count_of, dotted, index_of, mac_text, means_text, pair};
ghost use Rattle.map_meanings.specs.Pieces.{protocol_text, sized, truth_text};

use crate::form::ContentsForm;
use std::alloc::{AllocError, Global};
use wire::{Ipv4Address, MacAddress};

/// The bytes of a key or a record of this length; zeros where it has another.
pub(crate) fn sized<const N: usize>(bytes: &[u8]) -> [u8; N]
    ensures { result ≡ sized N bytes.now }
{
    match bytes.as_array::<N>() {
        Some(bytes) => *bytes,
        None => [0; N],
    }
}

/// The index that an array's key is.
pub(crate) fn index_of(key: &[u8]) -> u32
    ensures { result ≡ index_of key.now }
{
    u32::from_le_bytes(sized::<4>(key))
}

/// The count in a record of eight bytes.
pub(crate) fn count_of(value: &[u8]) -> u64
    ensures { result ≡ count_of value.now }
{
    u64::from_le_bytes(sized::<8>(value))
}

/// Four bytes as decimal numbers with dots between them.
pub(crate) fn dotted(alloc: Global, a: u8, b: u8, c: u8, d: u8) -> Result<String, AllocError>
    ensures { IfOk result (λ text. string_bytes text ≡ dotted a b c d) }
{
    format!(in alloc; "{a}.{b}.{c}.{d}")
}

/// An address.
pub(crate) fn address_text(alloc: Global, address: Ipv4Address) -> Result<String, AllocError>
    ensures { IfOk result (λ text. string_bytes text ≡ address_text address.0) }
{
    let [a, b, c, d] = address.0;
    dotted(alloc, a, b, c, d)
}

/// A byte as two hexadecimal digits.
fn pair(alloc: Global, byte: u8) -> Result<String, AllocError>
    ensures { IfOk result (λ text. string_bytes text ≡ pair byte) }
{
    hex::encode(alloc, &[byte])
}

/// Six bytes with colons between them.
fn colons(
    alloc: Global,
    a: &str,
    b: &str,
    c: &str,
    d: &str,
    e: &str,
    f: &str,
) -> Result<String, AllocError>
    ensures { IfOk result (λ text. string_bytes text ≡ colons a.now b.now c.now d.now e.now f.now) }
{
    format!(in alloc; "{a}:{b}:{c}:{d}:{e}:{f}")
}

/// An Ethernet address.
pub(crate) fn mac_text(alloc: Global, mac: MacAddress) -> Result<String, AllocError>
    ensures { IfOk result (λ text. string_bytes text ≡ mac_text mac.0) }
{
    let [a, b, c, d, e, f] = mac.0;
    let a = pair(alloc, a)?;
    let b = pair(alloc, b)?;
    let c = pair(alloc, c)?;
    let d = pair(alloc, d)?;
    let e = pair(alloc, e)?;
    let f = pair(alloc, f)?;
    colons(
        alloc,
        a.as_str(),
        b.as_str(),
        c.as_str(),
        d.as_str(),
        e.as_str(),
        f.as_str(),
    )
}

/// A protocol's word, or its number where it is neither of TCP nor of UDP.
pub(crate) fn protocol_text(alloc: Global, number: u8) -> Result<String, AllocError>
    ensures { IfOk result (λ text. string_bytes text ≡ protocol_text number) }
{
    if number == 6 {
        return String::from_str(alloc, "tcp");
    }
    if number == 17 {
        return String::from_str(alloc, "udp");
    }
    format!(in alloc; "{number}")
}

pub(crate) fn truth_text(holds: bool) -> &'static str
    ensures { result.now ≡ truth_text holds }
{
    if holds { "true" } else { "false" }
}

/// The address in the record of the backend of this number; zeros where there is none.
pub(crate) fn address_of(addresses: &[Ipv4Address], number: u32) -> Ipv4Address
    ensures { result ≡ address_of addresses.now number }
{
    addresses
        .get(number as usize)
        .copied()
        .unwrap_or(Ipv4Address([0, 0, 0, 0]))
}

/// How an entry's meaning stands behind its bytes, if there is one.
pub(crate) fn means_text(
    alloc: Global,
    form: ContentsForm,
    meaning: &str,
) -> Result<String, AllocError>
    ensures { IfOk result (λ text. string_bytes text ≡ means_text form meaning.now) }
{
    if meaning.is_empty() {
        return Ok(String::new(alloc));
    }
    match form {
        ContentsForm::Words => format!(in alloc; " {meaning}"),
        ContentsForm::Json => format!(in alloc; ",\"means\":{{{meaning}}}"),
    }
}
