//! Lines read leniently: what is misspelled is read as anything. The caller prints the result again and compares.

ghost use Rattle.std.specs.Prelude.{◌≡◌, ◌++◌, ◌∷◌, ◌+◌, ◌/◌, ◌%◌, ◌<◌, ◌^◌, ℕ, Bool, List, slice_index, slice_index_or, drop};
ghost use Rattle.std.specs.Fmt.{decimal};
ghost use Rattle.wire.specs.declared.flow.Transport.{Transport as Protocol};
ghost use Rattle.conntrack.specs.declared.keys.Service.{Service as Vip};
ghost use Rattle.control.specs.declared.command.Action.{Action as Act};
ghost use Rattle.control.specs.declared.command.Action.TheVariants as acts;
ghost use Rattle.control.specs.declared.command.Command.{Command as Line};
ghost use Rattle.text_lines.specs.Digits.{hex_digit};
ghost use Rattle.control.specs.ScriptText.{AreBytesOfLength, ActionFits, IsCommandLine, address_text, mac_text, transport_text, notrack_text};
ghost use Rattle.control.specs.ScriptText.{vip_text, gateway_text, action_text};

use crate::command::{Action, Command};
use conntrack::Service;
use text_lines::{after, count_of, cut};
use wire::{Ipv4Address, MacAddress, Transport};

/// The byte at an index, or 0.
fn byte_at(bytes: &[u8], place: usize) -> u8
    ensures { result ≡ slice_index_or bytes.now place 0 }
{
    match bytes.get(place) {
        Some(byte) => *byte,
        None => 0,
    }
}

fn port_of(text: &str) -> u16
    ensures { (number : ℕ) → number < 2 ^ 16 → text.now ≡ decimal number → result ≡ number }
{
    match text.parse::<u16>() {
        Ok(value) => value,
        Err(_) => 0,
    }
}

fn part_of(text: &str) -> u8
    ensures { (number : ℕ) → number < 256 → text.now ≡ decimal number → result ≡ number }
{
    match text.parse::<u8>() {
        Ok(value) => value,
        Err(_) => 0,
    }
}

fn address_of(text: &str) -> Ipv4Address
    ensures { (bytes : List ℕ) → AreBytesOfLength 4 bytes → text.now ≡ address_text bytes → result.0 ≡ bytes }
{
    let (a, others) = cut(text, '.');
    let (b, later) = cut(others, '.');
    let (c, d) = cut(later, '.');
    Ipv4Address([part_of(a), part_of(b), part_of(c), part_of(d)])
}

/// The value of a hexadecimal digit in lower case.
fn digit_of(letter: u8) -> u8
    ensures digit { (digit : ℕ) → digit < 16 → letter ≡ hex_digit digit → result ≡ digit }
    ensures below { result < 16 }
{
    if letter < 48 {
        return 0;
    }
    if letter < 58 {
        return letter - 48;
    }
    if letter < 87 { 0 } else { (letter - 87) % 16 }
}

/// The byte whose two digits are from an index on.
fn pair_at(bytes: &[u8], place: usize) -> u8
    requires { place < 2 ^ 32 }
    ensures { (byte : ℕ) → byte < 256 → slice_index_or bytes.now place 0 ≡ hex_digit (byte / 16) →
        slice_index_or bytes.now (place + 1) 0 ≡ hex_digit (byte % 16) → result ≡ byte }
{
    let high = digit_of(byte_at(bytes, place));
    let low = digit_of(byte_at(bytes, place + 1));
    high * 16 + low
}

fn mac_of(text: &str) -> MacAddress
    ensures { (bytes : List ℕ) → AreBytesOfLength 6 bytes → text.now ≡ mac_text bytes → result.0 ≡ bytes }
{
    let letters = text.as_bytes();
    MacAddress([
        pair_at(letters, 0),
        pair_at(letters, 3),
        pair_at(letters, 6),
        pair_at(letters, 9),
        pair_at(letters, 12),
        pair_at(letters, 15),
    ])
}

fn transport_of(text: &str) -> Transport
    ensures { (transport : Protocol) → text.now ≡ transport_text transport → result ≡ transport }
{
    if text == "udp" {
        Transport::Udp
    } else {
        Transport::Tcp
    }
}

/// Whether the service's line ends so that its flows are not tracked.
fn is_notrack(text: &str) -> bool
    ensures { (is_notrack : Bool) → text.now ≡ drop 1 (notrack_text is_notrack) → result ≡ is_notrack }
{
    text == "notrack"
}

fn vip_of(text: &str) -> Action
    ensures { (service : Vip) (is_notrack : Bool) → ActionFits (acts.Vip service is_notrack) → text.now ≡ vip_text service is_notrack
        → result ≡ acts.Vip service is_notrack }
{
    let (address, rest) = cut(text, ' ');
    let (port, ending) = cut(rest, ' ');
    let (transport, flag) = cut(ending, ' ');
    Action::Vip {
        service: Service {
            address: address_of(address),
            port: port_of(port),
            transport: transport_of(transport),
        },
        is_notrack: is_notrack(flag),
    }
}

fn up_of(text: &str) -> Action
    ensures { (backend : ℕ) (address : List ℕ) → backend < 2 ^ 32 → AreBytesOfLength 4 address →
        text.now ≡ decimal backend ++ 32 ∷ address_text address
        → result ≡ acts.Up backend (record { 0 = address }) }
{
    let (backend, address) = cut(text, ' ');
    Action::Up {
        backend: count_of(backend),
        address: address_of(address),
    }
}

fn gateway_of(text: &str) -> Action
    ensures { (source source_mac destination_mac : List ℕ) → AreBytesOfLength 4 source → AreBytesOfLength 6 source_mac → AreBytesOfLength 6 destination_mac
        → text.now ≡ gateway_text source source_mac destination_mac
        → result ≡ acts.Gateway (record { 0 = source }) (record { 0 = source_mac }) (record { 0 = destination_mac }) }
{
    let (source, macs) = cut(text, ' ');
    let (source_mac, destination_mac) = cut(macs, ' ');
    Action::Gateway {
        source: address_of(source),
        source_mac: mac_of(source_mac),
        destination_mac: mac_of(destination_mac),
    }
}

/// What the command does: its first word's first letter says which kind it is.
fn action_of(text: &str) -> Action
    ensures { (action : Act) → ActionFits action → text.now ≡ action_text action → result ≡ action }
{
    let letter = byte_at(text.as_bytes(), 0);
    if letter == b'v' {
        return vip_of(after(text, "vip "));
    }
    if letter == b'u' {
        return up_of(after(text, "up "));
    }
    if letter == b'd' {
        return Action::Down {
            backend: count_of(after(text, "down ")),
        };
    }
    gateway_of(after(text, "gateway "))
}

/// The command of the line, if it is spelled exactly so.
pub(crate) fn command_read(line: &str) -> Command
    ensures { (command : Line) → IsCommandLine command line.now → result ≡ command }
{
    let (frame, action) = cut(line, ' ');
    Command {
        frame: count_of(frame),
        action: action_of(action),
    }
}
