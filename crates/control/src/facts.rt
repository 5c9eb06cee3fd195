//! What the types of a command's numbers say of them. The functions do nothing: each brings the fact that it is named after.

ghost use Rattle.std.specs.Prelude.{◌<◌, ◌^◌};
ghost use Rattle.std.specs.List.{AllByRecursion};
ghost use Rattle.control.specs.ScriptText.{AreBytesOfLength, ActionFits, CommandFits, IsScriptText, NeverFalls, script_text};

use crate::command::{Action, Command, Script};
use wire::{Ipv4Address, MacAddress};

fn address_fits(address: Ipv4Address)
    ensures { AreBytesOfLength 4 address.0 }
{
    let [_a, _b, _c, _d] = address.0;
}

fn mac_fits(mac: MacAddress)
    ensures { AreBytesOfLength 6 mac.0 }
{
    let [_a, _b, _c, _d, _e, _f] = mac.0;
}

fn number_fits(number: u32)
    ensures { number < 2 ^ 32 }
{}

fn port_fits(number: u16)
    ensures { number < 2 ^ 16 }
{}

#[tactic(auto, unfolding(crate::specs::ScriptText::ActionFits))]
fn action_fits(action: Action)
    ensures { ActionFits action }
{
    match action {
        Action::Vip { service, .. } => {
            address_fits(service.address);
            port_fits(service.port);
        }
        Action::Up { backend, address } => {
            number_fits(backend);
            address_fits(address);
        }
        Action::Down { backend } => number_fits(backend),
        Action::Gateway {
            source,
            source_mac,
            destination_mac,
        } => {
            address_fits(source);
            mac_fits(source_mac);
            mac_fits(destination_mac);
        }
    }
}

pub(crate) fn command_fits(command: Command)
    ensures { CommandFits command }
{
    number_fits(command.frame);
    action_fits(command.action);
}

pub(crate) fn script_is_of_its_text(script: &Script)
    ensures { IsScriptText (script_text script.now) script.now }
{
    let _commands = script.commands.len();
}

/// The frames of the script's commands never fall.
pub fn commands_never_fall(script: &Script)
    ensures { NeverFalls 0 script.now }
{
    script_is_of_its_text(script);
}

/// Each number of the script's commands fits its field.
pub fn commands_fit(script: &Script)
    ensures { AllByRecursion CommandFits script.now }
{
    script_is_of_its_text(script);
}
