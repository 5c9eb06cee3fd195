//! The ring: which backend owns each slot.

ghost use Rattle.std.specs.Prelude.{◌≡◌, ◌≢◌, ℕ, ◌<◌, ◌↔◌, List, [], length, slice_get, Some, All, Contains, IfOk, IsErrOf, IsTrue};
ghost use Rattle.maglev.specs.RingSize.{IsRingSize};
ghost use Rattle.maglev.specs.Population.{IsPreference, IsPermutationOfSlots, IsPopulation, IsOnlyPopulation, IsBalanced};
ghost use Rattle.maglev.specs.Hashing.{hashed_preferences};
ghost use Rattle.maglev.specs.Given.{given_preferences, given_numbers};
ghost use Rattle.maglev.specs.Refusals.{HasRepeat, backend_numbers, HaveRepeat, AreTooMany};

use crate::backend::Backend;
use crate::fault::RingFault;
use crate::population::populate;
use crate::preference::Preference;
use crate::repeats::{is_backend_twice, is_given_twice};
use std::alloc::{AllocError, Global};
use std::marker::Model;

/// The most backends of a ring.
pub const MOST_BACKENDS: u32 = 256;

/// How many slots a ring may have: primes, so that each skip leads through all slots.
pub const RING_SIZES: [u32; 4] = [7, 251, 4093, 65537];

/// The number of the backend that owns each slot. Contracts see a ring as the list of these numbers, by slot.
#[derive(Debug, Drop)]
pub struct Ring {
    owners: Vec<u32>,
}

impl Model for Ring {
    ghost use Rattle.std.specs.Prelude.{ℕ, ◌<◌, List, length};

    ghost Value = { List ℕ };

    ghost view = { λ ring. ring.owners.items };

    ghost invariant = { λ ring. length ring.owners.items < 65538 };
}

/// Whether a table may have this size.
pub fn is_ring_size(size: u32) -> bool
    ensures { IsTrue result ↔ IsRingSize size }
{
    RING_SIZES.contains(&size)
}

/// Whether there are more backends than 256, or than slots.
fn are_too_many(count: usize, size: u32) -> bool
    ensures { IsTrue result ↔ AreTooMany size count }
{
    count > MOST_BACKENDS as usize || count > size as usize
}

/// The preference lists that the backends' addresses give them.
fn hashed_list(
    alloc: Global,
    backends: &[Backend],
    size: u32,
) -> Result<Vec<Preference>, AllocError>
    requires { 1 < size }
    ensures { IfOk result (λ list. list.items ≡ hashed_preferences size backends.now) }
{
    backends
        .iter()
        .map(|backend| backend.preference(size))
        .collect(alloc)
}

/// The preference lists of given offsets and skips.
fn given_list(alloc: Global, given: &[(u32, u32, u32)]) -> Result<Vec<Preference>, AllocError>
    ensures { IfOk result (λ list. list.items ≡ given_preferences given.now) }
{
    given
        .iter()
        .map(|&(number, offset, skip)| Preference {
            number,
            offset,
            skip,
        })
        .collect(alloc)
}

impl Ring {
    /// The ring of `size` slots that the backends' turns make (Maglev, NSDI 2016, section 3.4), where each backend's
    /// preferences follow from two hashes of its address.
    ///
    /// Refused with 70 if there is no backend, 71 if two have one number or one address, 72 if there are more than
    /// 256 or than slots, 73 if the size is not served, 74 if memory is refused; the lowest that applies is answered,
    /// and nothing is left behind. The time grows with the square of the list's length, and about with M ln M.
    pub fn build(alloc: Global, backends: &[Backend], size: u32) -> Result<Ring, RingFault>
        // The table is what the backends' turns make, and nothing but the list decides it.
        ensures population { IfOk result (IsPopulation size (hashed_preferences size backends.now)) }
        ensures only_one { IfOk result (IsOnlyPopulation size (hashed_preferences size backends.now)) }

        // Each slot has an owner, each backend its share, and each preference list has each slot once.
        ensures size { IfOk result (λ ring. length ring ≡ size) }
        ensures owned { IfOk result (All (Contains (backend_numbers backends.now))) }
        ensures balanced { IfOk result (IsBalanced (backend_numbers backends.now)) }
        ensures permutations { IfOk result (λ _. All (IsPermutationOfSlots size) (hashed_preferences size backends.now)) }

        // The fault of the lowest number that applies.
        ensures no_backend { IsErrOf result RingFault.NoBackend ↔ (backends.now ≡ []) }
        ensures twice { IsErrOf result RingFault.Twice ↔ HaveRepeat backends.now }
        ensures too_many { IsErrOf result RingFault.TooMany ↔
            (¬ HaveRepeat backends.now × AreTooMany size (length backends.now)) }
        ensures bad_size { IsErrOf result RingFault.BadSize ↔
            ((backends.now ≢ []) × ¬ HaveRepeat backends.now × ¬ AreTooMany size (length backends.now)
            × ¬ IsRingSize size) }
    {
        if backends.is_empty() {
            return Err(RingFault::NoBackend);
        }
        if is_backend_twice(backends) {
            return Err(RingFault::Twice);
        }
        if are_too_many(backends.len(), size) {
            return Err(RingFault::TooMany);
        }
        if !is_ring_size(size) {
            return Err(RingFault::BadSize);
        }
        let preferences = hashed_list(alloc, backends, size)?;
        let owners = populate(alloc, preferences, size)?;
        Ok(Ring { owners })
    }

    /// The ring of `size` slots that the backends' turns make, where each backend is given as its number, its offset
    /// and its skip. The caller keeps each offset below the size, and each skip above 0 and below the size.
    ///
    /// Refused with 70 if there is no backend, 71 if two have one number, 72 if there are more than 256 or than slots,
    /// 73 if the size is not served, 74 if memory is refused; the lowest that applies is answered, and nothing is left
    /// behind.
    pub fn turns(alloc: Global, backends: &[(u32, u32, u32)], size: u32) -> Result<Ring, RingFault>
        requires offsets { All (λ (backend : ℕ × ℕ × ℕ). backend.1 < size) backends.now }
        requires skips { All (λ (backend : ℕ × ℕ × ℕ). (0 < backend.2) × (backend.2 < size)) backends.now }

        // The table is what the backends' turns make, and nothing but the list decides it.
        ensures population { IfOk result (IsPopulation size (given_preferences backends.now)) }
        ensures only_one { IfOk result (IsOnlyPopulation size (given_preferences backends.now)) }

        // Each slot has an owner, each backend its share, and each preference list has each slot once.
        ensures size { IfOk result (λ ring. length ring ≡ size) }
        ensures owned { IfOk result (All (Contains (given_numbers backends.now))) }
        ensures balanced { IfOk result (IsBalanced (given_numbers backends.now)) }
        ensures permutations { IfOk result (λ _. All (IsPermutationOfSlots size) (given_preferences backends.now)) }

        // The fault of the lowest number that applies.
        ensures no_backend { IsErrOf result RingFault.NoBackend ↔ (backends.now ≡ []) }
        ensures twice { IsErrOf result RingFault.Twice ↔ HasRepeat (given_numbers backends.now) }
        ensures too_many { IsErrOf result RingFault.TooMany ↔
            (¬ HasRepeat (given_numbers backends.now) × AreTooMany size (length backends.now)) }
        ensures bad_size { IsErrOf result RingFault.BadSize ↔
            ((backends.now ≢ []) × ¬ HasRepeat (given_numbers backends.now) × ¬ AreTooMany size (length backends.now)
            × ¬ IsRingSize size) }
    {
        if backends.is_empty() {
            return Err(RingFault::NoBackend);
        }
        if is_given_twice(backends) {
            return Err(RingFault::Twice);
        }
        if are_too_many(backends.len(), size) {
            return Err(RingFault::TooMany);
        }
        if !is_ring_size(size) {
            return Err(RingFault::BadSize);
        }
        let preferences = given_list(alloc, backends)?;
        let owners = populate(alloc, preferences, size)?;
        Ok(Ring { owners })
    }

    /// The number of the backend that owns the slot.
    pub fn owner(&self, slot: u32) -> u32
        requires { slot < length self.now }
        ensures { slice_get self.now slot ≡ Some result }
    {
        self.owners[slot as usize]
    }

    /// The numbers of the owners, by slot.
    pub fn owners(&self) -> &[u32]
        ensures { result.now ≡ self.now }
    {
        &self.owners
    }

    /// How many slots the ring has.
    pub fn size(&self) -> u32
        ensures { result ≡ length self.now }
    {
        self.owners.len() as u32
    }
}
