//! A backend, and the preferences of its address.

ghost use Rattle.std.specs.Prelude.{◌≡◌, ◌<◌, ◌∷◌, ◌↔◌, IsTrue};
ghost use Rattle.wire.specs.Fnv.{fnv1a64_of};
ghost use Rattle.maglev.specs.Hashing.{hashed_preference};

use crate::preference::Preference;
use wire::{Ipv4Address, fnv1a64};

/// A server behind the load balancer.
#[derive(Clone, Copy, Debug, PartialEq, Eq)]
pub struct Backend {
    /// The number by which a ring names it.
    pub number: u32,
    pub address: Ipv4Address,
}

/// The hash of a tag and the four bytes of an address.
fn tagged_hash(tag: u8, address: Ipv4Address) -> u64
    ensures { result ≡ fnv1a64_of (tag ∷ address.0) }
{
    let [a, b, c, d] = address.0;
    fnv1a64(&[tag, a, b, c, d])
}

impl Backend {
    /// The preferences that the backend's address has in a table of this many slots.
    pub fn preference(&self, size: u32) -> Preference
        requires { 1 < size }
        ensures { result ≡ hashed_preference size self.now }
    {
        let offset = tagged_hash(1, self.address) % u64::from(size);
        let skip = tagged_hash(2, self.address) % u64::from(size - 1) + 1;
        Preference {
            number: self.number,
            offset: offset as u32,
            skip: skip as u32,
        }
    }
}
