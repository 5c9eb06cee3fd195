//! The FNV-1a hash that spreads flows and keys.

ghost use Rattle.std.specs.Prelude.{◌≡◌};
ghost use Rattle.wire.specs.Fnv.{fnv1a64_of};

/// The offset basis of 64-bit FNV-1a.
const OFFSET_BASIS: u64 = 0xcbf29ce484222325;

/// The prime of 64-bit FNV-1a.
const PRIME: u64 = 0x100000001b3;

/// The 64-bit FNV-1a hash of the bytes (draft-eastlake-fnv).
pub fn fnv1a64(bytes: &[u8]) -> u64
    ensures { result ≡ fnv1a64_of bytes.now }
{
    bytes.iter().fold(
        OFFSET_BASIS,
        |hash, byte| (hash ^ u64::from(*byte)).wrapping_mul(PRIME),
    )
}
