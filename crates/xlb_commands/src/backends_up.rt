//! The backends that are up when the turn of a record comes, by the commands of a script alone.

ghost use Rattle.std.specs.Prelude.{◌≡◌, ◌≤◌, ℕ, nat_le, IfOk, OnOk};
ghost use Rattle.std.specs.List.{find, list_any};
ghost use Rattle.traffic.specs.Counting.{address_at};
ghost use Rattle.xlb_commands.specs.BackendsUp.{has_address, has_number, is_taken, number_at, up_before, up_behind, up_with, up_without};

use control::{Action, Command};
use std::alloc::{AllocError, Global};
use wire::Ipv4Address;

/// How many numbers there are for backends.
const NUMBERS: u32 = 256;

/// A backend that is up.
#[derive(Clone, Copy, Debug, PartialEq, Eq)]
pub(crate) struct UpBackend {
    pub number: u32,
    /// Its address as one number, the first byte highest.
    pub address: u32,
}

/// An address as one number, the first byte highest.
pub(crate) fn address_number(address: Ipv4Address) -> u32
    ensures { result ≡ address_at 0 address.0 }
{
    let [first, second, third, last] = address.0;
    let high = u32::from(first) * 256 + u32::from(second);
    let low = u32::from(third) * 256 + u32::from(last);
    high * 65536 + low
}

fn is_number_up(up: &[UpBackend], number: u32) -> bool
    ensures { result ≡ list_any (has_number number) up.now }
{
    up.iter().any(|backend| backend.number == number)
}

fn is_address_up(up: &[UpBackend], address: u32) -> bool
    ensures { result ≡ list_any (has_address address) up.now }
{
    up.iter().any(|backend| backend.address == address)
}

/// Whether a backend of this number, or one of this address, is up.
fn is_taken(up: &[UpBackend], number: u32, address: u32) -> bool
    ensures { result ≡ is_taken up.now number address }
{
    is_number_up(up, number) || is_address_up(up, address)
}

/// A backend comes up, unless its command is refused.
fn come_up(up: &mut Vec<UpBackend>, number: u32, address: u32) -> Result<(), AllocError>
    ensures { OnOk result (up.new.items ≡ up_with up.old.items number address) }
{
    if number >= NUMBERS || is_taken(up, number, address) {
        return Ok(());
    }
    up.push(UpBackend { number, address })?;
    Ok(())
}

/// The backends that are up without that of this number.
fn without(alloc: Global, up: &[UpBackend], number: u32) -> Result<Vec<UpBackend>, AllocError>
    ensures { IfOk result (λ left. left.items ≡ up_without up.now number) }
{
    up.iter()
        .copied()
        .filter(|backend| backend.number != number)
        .collect(alloc)
}

/// Carries a command out, unless it is refused.
fn carry_out(alloc: Global, up: &mut Vec<UpBackend>, action: Action) -> Result<(), AllocError>
    ensures { OnOk result (up.new.items ≡ up_behind up.old.items action) }
{
    match action {
        Action::Up { backend, address } => come_up(up, backend, address_number(address)),
        Action::Down { backend } => {
            *up = without(alloc, up, backend)?;
            Ok(())
        }
        _ => Ok(()),
    }
}

/// Whether a command comes before the record of this number.
fn is_due(command: &Command, number: usize) -> bool
    ensures { result ≡ nat_le command.now.frame number }
{
    u64::from(command.frame) <= number as u64
}

/// Carries out those of these commands that come before the record of this number, and returns the others.
pub(crate) fn carried_out<'a>(
    alloc: Global,
    up: &mut Vec<UpBackend>,
    commands: &'a [Command],
    number: usize,
) -> Result<&'a [Command], AllocError>
    ensures further { IfOk result (λ later. (n : ℕ) → number ≤ n →
        up_before n up.new.items later.now ≡ up_before n up.old.items commands.now) }
    ensures done { IfOk result (λ later. up_before number up.new.items later.now ≡ up.new.items) }
{
    let mut later = commands;
    'commands: while let [command, behind @ ..] = later {
        if !is_due(command, number) {
            return Ok(later);
        }
        carry_out(alloc, up, command.action)?;
        later = behind;
    }
    Ok(later)
}

/// The backend that is up at this address.
fn backend_up_at(up: &[UpBackend], address: u32) -> Option<UpBackend>
    ensures { result ≡ find (has_address address) up.now }
{
    up.iter()
        .copied()
        .find(|backend| backend.address == address)
}

/// The number of the backend that is up at this address.
pub(crate) fn number_at(up: &[UpBackend], address: u32) -> Option<u32>
    ensures { result ≡ number_at up.now address }
{
    match backend_up_at(up, address) {
        Some(backend) => Some(backend.number),
        None => None,
    }
}
