//! What a backend is called.

ghost use Rattle.std.specs.Prelude.{◌≡◌, IfOk, decimal, string_bytes};
ghost use Rattle.page.specs.Labels.{address_by, address_of_key, backend_label, backend_phrase, both_text, label_with};

use control::{Action, Command};
use flows::address_text;
use std::alloc::{AllocError, Global};
use wire::Ipv4Address;

/// The address of the backend with this key after a command, if it had this one or none before.
fn address_by(key: u64, was: Option<Ipv4Address>, action: Action) -> Option<Ipv4Address>
    ensures { result ≡ address_by key was action }
{
    match action {
        Action::Up { backend, address } => {
            if u64::from(backend) + 1 == key {
                Some(address)
            } else {
                was
            }
        }
        Action::Down { .. } => was,
        Action::Vip { .. } => was,
        Action::Gateway { .. } => was,
    }
}

/// The address that the last of these commands gives the backend with this key.
fn address_of_key(commands: &[Command], key: u64) -> Option<Ipv4Address>
    ensures { result ≡ address_of_key commands.now key }
{
    let mut address = None;
    'commands: for command in commands {
        address = address_by(key, address, command.action);
    }
    address
}

/// A number and an address.
#[tactic(auto, unfolding(crate::specs::Labels::both_text))]
fn both_text(alloc: Global, backend: &str, address: &str) -> Result<String, AllocError>
    ensures { IfOk result (λ text. string_bytes text ≡ both_text backend.now address.now) }
{
    format!(in alloc; "{backend} ({address})")
}

/// The number and the address of a backend, as far as they are known.
pub(crate) fn backend_phrase(
    alloc: Global,
    backend: &str,
    address: &str,
) -> Result<String, AllocError>
    ensures { IfOk result (λ text. string_bytes text ≡ backend_phrase backend.now address.now) }
{
    if backend.len() == 0 {
        String::from_str(alloc, address)
    } else if address.len() == 0 {
        String::from_str(alloc, backend)
    } else {
        both_text(alloc, backend, address)
    }
}

/// A number in decimal.
fn decimal(alloc: Global, number: u64) -> Result<String, AllocError>
    ensures { IfOk result (λ text. string_bytes text ≡ decimal number) }
{
    format!(in alloc; "{number}")
}

/// The label of a number, whose address is this one or not known.
#[tactic(auto, unfolding(crate::specs::Labels::label_with))]
fn label_with(
    alloc: Global,
    number: u64,
    address: Option<Ipv4Address>,
) -> Result<String, AllocError>
    ensures { IfOk result (λ text. string_bytes text ≡ label_with number address) }
{
    match address {
        None => format!(in alloc; "backend {number}"),
        Some(address) => {
            let number = decimal(alloc, number)?;
            let address = address_text(alloc, address)?;
            both_text(alloc, number.as_str(), address.as_str())
        }
    }
}

/// The label of the backend with this key.
pub(crate) fn backend_label(
    alloc: Global,
    commands: &[Command],
    key: u64,
) -> Result<String, AllocError>
    ensures { IfOk result (λ text. string_bytes text ≡ backend_label commands.now key) }
{
    label_with(alloc, key.saturating_sub(1), address_of_key(commands, key))
}
