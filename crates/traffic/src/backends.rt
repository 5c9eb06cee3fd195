//! Which backend of a script has an address.

ghost use Rattle.std.specs.Prelude.{◌≡◌, ℕ, None, OnOk};
ghost use Rattle.traffic.specs.Holders.{holder_after, holder_in, merged, only_number};

use std::alloc::{AllocError, Global};
use std::collections::BTreeMap;

/// Who has an address.
#[derive(Clone, Copy, Debug, PartialEq, Eq)]
enum Holder {
    /// The backend of this number alone.
    One(u32),
    /// Backends of several numbers.
    Several,
}

/// Of each address that a script names, which number it names it with.
#[derive(Drop)]
pub struct Backends {
    holders: BTreeMap<u32, Holder>,
}

/// Who has an address that one number more is named with.
fn merged(older: Option<Holder>, number: u32) -> Holder
    ensures { result ≡ merged older number }
{
    match older {
        None => Holder::One(number),
        Some(Holder::One(other)) => if other == number {
            Holder::One(number)
        } else {
            Holder::Several
        },
        Some(Holder::Several) => Holder::Several,
    }
}

impl Backends {
    /// No backend was named.
    pub fn none(alloc: Global) -> Backends
        ensures { (address : ℕ) → holder_in result address ≡ None }
    {
        Backends {
            holders: BTreeMap::new(alloc),
        }
    }

    /// A backend is named, by its number and its address.
    pub fn name(&mut self, number: u32, address: u32) -> Result<(), AllocError>
        ensures { OnOk result ((other : ℕ) → holder_in self.new other ≡ holder_after number address other (holder_in self.old other)) }
    {
        let older = self.holders.get(&address).copied();
        self.holders.insert(address, merged(older, number))?;
        Ok(())
    }

    /// The number of the backend with this address: the only one with which it was named. None where it was not named, or with several.
    pub fn number_of(&self, address: u32) -> Option<u32>
        ensures { result ≡ only_number (holder_in self.now address) }
    {
        match self.holders.get(&address) {
            Some(Holder::One(number)) => Some(*number),
            Some(Holder::Several) | None => None,
        }
    }
}
