//! Whether a list names a backend twice.

ghost use Rattle.std.specs.Prelude.{◌≡◌, ◌⊎◌, ◌↔◌, Any, IsTrue};
ghost use Rattle.maglev.specs.Given.{given_numbers};
ghost use Rattle.maglev.specs.Refusals.{HasRepeat, HaveRepeat};

use crate::backend::Backend;
use wire::Ipv4Address;

/// Whether one of the given preferences has this number.
fn is_given(earlier: &[(u32, u32, u32)], number: u32) -> bool
    ensures { IsTrue result ↔ Any (λ given. given.0 ≡ number) earlier.now }
{
    earlier.iter().any(|given| given.0 == number)
}

/// Whether one of the backends has this number.
fn is_number_of(earlier: &[Backend], number: u32) -> bool
    ensures { IsTrue result ↔ Any (λ backend. backend.number ≡ number) earlier.now }
{
    earlier.iter().any(|backend| backend.number == number)
}

/// Whether one of the backends has this address.
fn is_address_of(earlier: &[Backend], address: Ipv4Address) -> bool
    ensures { IsTrue result ↔ Any (λ backend. backend.address ≡ address) earlier.now }
{
    earlier.iter().any(|backend| backend.address == address)
}

/// Whether two of the given preferences have one number. The time grows with the square of the list's length.
pub fn is_given_twice(given: &[(u32, u32, u32)]) -> bool
    ensures { IsTrue result ↔ HasRepeat (given_numbers given.now) }
{
    'given: for later in 0..given.len() {
        if is_given(&given[..later], given[later].0) {
            return true;
        }
    }
    false
}

/// Whether two of the backends have one number or one address. The time grows with the square of the list's length.
pub fn is_backend_twice(backends: &[Backend]) -> bool
    ensures { IsTrue result ↔ HaveRepeat backends.now }
{
    'backends: for later in 0..backends.len() {
        let backend = backends[later];
        let earlier = &backends[..later];
        if is_number_of(earlier, backend.number) || is_address_of(earlier, backend.address) {
            return true;
        }
    }
    false
}
