//! The versions of the image format.

ghost use Rattle.std.specs.Prelude.{◌≡◌, ◌≤◌};
ghost use Rattle.ebpf_decode.specs.Versions.{version_number, version_of, has_value_addresses, most_value_bytes};

/// The version of an image. Version 2 has addresses in map values ([`Ldval`](crate::Insn::Ldval)) and larger values.
#[derive(Clone, Copy, Debug, PartialEq, Eq)]
pub enum Version {
    V1,
    V2,
}

impl Version {
    /// The version's byte in an image.
    pub fn number(self) -> u8
        ensures { result ≡ version_number self }
    {
        match self {
            Version::V1 => 1,
            Version::V2 => 2,
        }
    }

    /// The version of this number, if there is one.
    pub fn of(number: u8) -> Option<Version>
        ensures { result ≡ version_of number }
    {
        match number {
            1 => Some(Version::V1),
            2 => Some(Version::V2),
            _ => None,
        }
    }

    /// Whether an instruction of this version may load an address in a map's value.
    pub fn has_value_addresses(self) -> bool
        ensures { result ≡ has_value_addresses self }
    {
        match self {
            Version::V1 => false,
            Version::V2 => true,
        }
    }

    /// How many bytes a map's value may have at most: 64 in version 1, 256 in version 2.
    pub fn most_value_bytes(self) -> u32
        ensures bytes { result ≡ most_value_bytes self }
        ensures most { result ≤ 256 }
    {
        match self {
            Version::V1 => 64,
            Version::V2 => 256,
        }
    }
}
