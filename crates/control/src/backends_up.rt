//! The backends that are up, by rising number.

ghost use Rattle.std.specs.Prelude.{◌≡◌, ◌<◌, nat_lt, not, All, IfOk};
ghost use Rattle.std.specs.List.{filter, find, list_any};
ghost use Rattle.maglev.specs.RingSize.{IsRingSize};
ghost use Rattle.maglev.specs.declared.backend.Backend.{Backend as Server};
ghost use Rattle.control.specs.Controlling.{has_number, has_address, with_backend, without_backend, AreUp, IsTable, owners_in};

use maglev::{Backend, Ring, RingFault};
use std::alloc::{AllocError, Global};
use wire::Ipv4Address;

/// Whether a backend of this number is up.
pub(crate) fn is_number_up(up: &[Backend], number: u32) -> bool
    ensures { result ≡ list_any (has_number number) up.now }
{
    up.iter().any(|backend| backend.number == number)
}

/// Whether a backend of this address is up.
pub(crate) fn is_address_up(up: &[Backend], address: Ipv4Address) -> bool
    ensures { result ≡ list_any (has_address address) up.now }
{
    up.iter().any(|backend| backend.address == address)
}

/// The backend of this number, if it is up.
pub(crate) fn backend_of(up: &[Backend], number: u32) -> Option<Backend>
    ensures { result ≡ find (has_number number) up.now }
{
    up.iter().copied().find(|backend| backend.number == number)
}

/// The backends of lower numbers that are up.
fn lower(alloc: Global, up: &[Backend], number: u32) -> Result<Vec<Backend>, AllocError>
    ensures { IfOk result (λ kept. kept.items ≡ filter (λ (other : Server). nat_lt other.number number) up.now) }
{
    up.iter()
        .copied()
        .filter(|other| other.number < number)
        .collect(alloc)
}

/// The backends of higher numbers that are up.
fn higher(alloc: Global, up: &[Backend], number: u32) -> Result<Vec<Backend>, AllocError>
    ensures { IfOk result (λ kept. kept.items ≡ filter (λ (other : Server). nat_lt number other.number) up.now) }
{
    up.iter()
        .copied()
        .filter(|other| number < other.number)
        .collect(alloc)
}

/// The backends with this one among them.
pub(crate) fn with_backend(
    alloc: Global,
    up: &[Backend],
    backend: Backend,
) -> Result<Vec<Backend>, AllocError>
    ensures { IfOk result (λ all. all.items ≡ with_backend up.now backend) }
{
    let mut all = lower(alloc, up, backend.number)?;
    all.push(backend)?;
    let later = higher(alloc, up, backend.number)?;
    all.extend_from_slice(&later)?;
    Ok(all)
}

/// The backends without that of this number.
pub(crate) fn without_backend(
    alloc: Global,
    up: &[Backend],
    number: u32,
) -> Result<Vec<Backend>, AllocError>
    ensures { IfOk result (λ left. left.items ≡ without_backend up.now number) }
{
    up.iter()
        .copied()
        .filter(|other| other.number != number)
        .collect(alloc)
}

/// The ring of the backends that are up, if one is.
pub(crate) fn ring_of(alloc: Global, up: &[Backend], size: u32) -> Result<Option<Ring>, AllocError>
    requires size { IsRingSize size }
    requires up { AreUp size up.now }
    ensures table { IfOk result (λ ring. IsTable size up.now (owners_in ring)) }
    ensures numbers { IfOk result (λ ring. All (λ owner. owner < 256) (owners_in ring)) }
{
    if up.is_empty() {
        return Ok(None);
    }
    match Ring::build(alloc, up, size) {
        Ok(ring) => Ok(Some(ring)),
        Err(fault) => match fault {
            RingFault::Memory => Err(AllocError),
            RingFault::NoBackend => unreachable!(),
            RingFault::Twice => unreachable!(),
            RingFault::TooMany => unreachable!(),
            RingFault::BadSize => unreachable!(),
        },
    }
}

/// The owners in a ring, if there is one.
pub(crate) fn owners(ring: &Option<Ring>) -> &[u32]
    ensures { result.now ≡ owners_in ring.now }
{
    match ring {
        Some(ring) => ring.owners(),
        None => &[],
    }
}
