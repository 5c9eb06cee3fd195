//! The text of a script.

ghost use Rattle.std.specs.Prelude.{◌≡◌, ◌++◌, ◌∷◌, ◌<◌, [], string_bytes, OnOk, IfOk};
ghost use Rattle.std.specs.Fmt.{decimal};
ghost use Rattle.control.specs.ScriptText.{address_text, hex_pair, colon_pair, mac_text, transport_text, notrack_text, vip_text};
ghost use Rattle.control.specs.ScriptText.{gateway_text, action_text, script_line, script_text, IsCommandLine};

use crate::command::{Action, Command, Script};
use crate::facts::command_fits;
use conntrack::Service;
use std::alloc::{AllocError, Global};
use text_lines::hex_digit;
use wire::{Ipv4Address, MacAddress, Transport};

/// Writes a number in decimal.
fn put_number(alloc: Global, out: &mut String, value: u32) -> Result<(), AllocError>
    ensures { OnOk result (string_bytes out.new ≡ string_bytes out.old ++ decimal value) }
{
    out.push_str(&format!(in alloc; "{value}")?)
}

/// Writes a dot and a number.
fn put_part(alloc: Global, out: &mut String, value: u8) -> Result<(), AllocError>
    ensures { OnOk result (string_bytes out.new ≡ string_bytes out.old ++ 46 ∷ decimal value) }
{
    out.push_str(".")?;
    put_number(alloc, out, u32::from(value))
}

/// Writes an address.
#[tactic(auto, unfolding(crate::specs::ScriptText::address_text))]
fn put_address(alloc: Global, out: &mut String, address: Ipv4Address) -> Result<(), AllocError>
    ensures { OnOk result (string_bytes out.new ≡ string_bytes out.old ++ address_text address.0) }
{
    let [a, b, c, d] = address.0;
    put_number(alloc, out, u32::from(a))?;
    put_part(alloc, out, b)?;
    put_part(alloc, out, c)?;
    put_part(alloc, out, d)
}

/// Writes a byte as two hexadecimal digits.
#[tactic(auto, unfolding(crate::specs::ScriptText::hex_pair))]
fn put_pair(out: &mut String, byte: u8) -> Result<(), AllocError>
    ensures { OnOk result (string_bytes out.new ≡ string_bytes out.old ++ hex_pair byte) }
{
    out.push(hex_digit(byte / 16) as char)?;
    out.push(hex_digit(byte % 16) as char)
}

/// Writes a colon and a byte.
fn put_colon_pair(out: &mut String, byte: u8) -> Result<(), AllocError>
    ensures { OnOk result (string_bytes out.new ≡ string_bytes out.old ++ colon_pair byte) }
{
    out.push_str(":")?;
    put_pair(out, byte)
}

/// Writes the last three bytes of an Ethernet address, each after a colon.
fn put_ending(out: &mut String, d: u8, e: u8, f: u8) -> Result<(), AllocError>
    ensures { OnOk result (string_bytes out.new ≡ string_bytes out.old ++ (colon_pair d ++ (colon_pair e ++ colon_pair f))) }
{
    put_colon_pair(out, d)?;
    put_colon_pair(out, e)?;
    put_colon_pair(out, f)
}

/// Writes an Ethernet address.
#[tactic(auto, unfolding(crate::specs::ScriptText::mac_text))]
fn put_mac(out: &mut String, mac: MacAddress) -> Result<(), AllocError>
    ensures { OnOk result (string_bytes out.new ≡ string_bytes out.old ++ mac_text mac.0) }
{
    let [a, b, c, d, e, f] = mac.0;
    put_pair(out, a)?;
    put_colon_pair(out, b)?;
    put_colon_pair(out, c)?;
    put_ending(out, d, e, f)
}

/// A transport's word, as a script has it: `tcp` or `udp`.
pub fn transport_text(transport: Transport) -> &'static str
    ensures { result.now ≡ transport_text transport }
{
    match transport {
        Transport::Tcp => "tcp",
        Transport::Udp => "udp",
    }
}

fn notrack_text(is_notrack: bool) -> &'static str
    ensures { result.now ≡ notrack_text is_notrack }
{
    if is_notrack { " notrack" } else { "" }
}

/// Writes a service.
#[tactic(auto, unfolding(crate::specs::ScriptText::vip_text))]
fn put_vip(
    alloc: Global,
    out: &mut String,
    service: Service,
    is_notrack: bool,
) -> Result<(), AllocError>
    ensures { OnOk result (string_bytes out.new ≡ string_bytes out.old ++ vip_text service is_notrack) }
{
    put_address(alloc, out, service.address)?;
    out.push_str(" ")?;
    put_number(alloc, out, u32::from(service.port))?;
    out.push_str(" ")?;
    out.push_str(transport_text(service.transport))?;
    out.push_str(notrack_text(is_notrack))
}

/// Writes the ends of a tunnel.
#[tactic(auto, unfolding(crate::specs::ScriptText::gateway_text))]
fn put_gateway(
    alloc: Global,
    out: &mut String,
    source: Ipv4Address,
    source_mac: MacAddress,
    destination_mac: MacAddress,
) -> Result<(), AllocError>
    ensures { OnOk result (string_bytes out.new ≡ string_bytes out.old ++ gateway_text source.0 source_mac.0 destination_mac.0) }
{
    put_address(alloc, out, source)?;
    out.push_str(" ")?;
    put_mac(out, source_mac)?;
    out.push_str(" ")?;
    put_mac(out, destination_mac)
}

/// Writes what a command does.
#[tactic(auto, unfolding(crate::specs::ScriptText::action_text))]
fn put_action(alloc: Global, out: &mut String, action: Action) -> Result<(), AllocError>
    ensures { OnOk result (string_bytes out.new ≡ string_bytes out.old ++ action_text action) }
{
    match action {
        Action::Vip {
            service,
            is_notrack,
        } => {
            out.push_str("vip ")?;
            put_vip(alloc, out, service, is_notrack)
        }
        Action::Up { backend, address } => {
            out.push_str("up ")?;
            put_number(alloc, out, backend)?;
            out.push_str(" ")?;
            put_address(alloc, out, address)
        }
        Action::Down { backend } => {
            out.push_str("down ")?;
            put_number(alloc, out, backend)
        }
        Action::Gateway {
            source,
            source_mac,
            destination_mac,
        } => {
            out.push_str("gateway ")?;
            put_gateway(alloc, out, source, source_mac, destination_mac)
        }
    }
}

/// Writes the line of a command, without a line feed.
#[tactic(auto, unfolding(crate::specs::ScriptText::script_line))]
pub(crate) fn put_line(alloc: Global, out: &mut String, command: Command) -> Result<(), AllocError>
    ensures { OnOk result (string_bytes out.new ≡ string_bytes out.old ++ script_line command) }
{
    put_number(alloc, out, command.frame)?;
    out.push_str(" ")?;
    put_action(alloc, out, command.action)
}

/// The line of a command, without a line feed.
pub(crate) fn line(alloc: Global, command: Command) -> Result<String, AllocError>
    ensures { IfOk result (λ line. IsCommandLine command (string_bytes line)) }
{
    let mut out = String::new(alloc);
    put_line(alloc, &mut out, command)?;
    command_fits(command);
    Ok(out)
}

/// Writes a line for each command.
fn put_lines(alloc: Global, out: &mut String, commands: &[Command]) -> Result<(), AllocError>
    ensures { OnOk result (string_bytes out.new ≡ string_bytes out.old ++ script_text commands.now) }
{
    'lines: for command in commands {
        put_line(alloc, out, *command)?;
        out.push_str("\n")?;
    }
    Ok(())
}

impl Script {
    /// The one text of the script: a line for each command, each ended by a line feed. It fails only where memory is refused.
    pub fn text(&self, alloc: Global) -> Result<String, AllocError>
        ensures { IfOk result (λ text. string_bytes text ≡ script_text self.now) }
    {
        let mut out = String::new(alloc);
        put_lines(alloc, &mut out, &self.commands)?;
        Ok(out)
    }
}
