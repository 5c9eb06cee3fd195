//! Commands, and scripts of them.

use conntrack::Service;
use std::marker::Model;
use wire::{Ipv4Address, MacAddress};

/// What a command does.
#[derive(Clone, Copy, Debug, PartialEq, Eq)]
pub enum Action {
    /// `vip`: there is this service. The flows of one without tracking are not noted.
    Vip {
        service: Service,
        is_notrack: bool,
    },
    /// `up`: the backend of this number comes up, at this address.
    Up {
        backend: u32,
        address: Ipv4Address,
    },
    /// `down`: the backend of this number goes down.
    Down {
        backend: u32,
    },
    /// `gateway`: frames go through a tunnel with these ends.
    Gateway {
        source: Ipv4Address,
        source_mac: MacAddress,
        destination_mac: MacAddress,
    },
}

/// A line of a script.
#[derive(Clone, Copy, Debug, PartialEq, Eq)]
pub struct Command {
    /// How many frames come before it.
    pub frame: u32,
    pub action: Action,
}

/// The commands of a script, in its order; their frame numbers never fall. Contracts see the list of them.
#[derive(Debug, Drop)]
pub struct Script {
    pub(crate) commands: Vec<Command>,
}

impl Model for Script {
    ghost use Rattle.std.specs.Prelude.{List};
    ghost use Rattle.control.specs.declared.command.Command.{Command as Line};
    ghost use Rattle.control.specs.ScriptText.{IsScriptText, script_text};

    ghost Value = { List Line };

    ghost view = { λ script. script.commands.items };

    ghost invariant = { λ script. IsScriptText (script_text script.commands.items) script.commands.items };
}

impl Script {
    ghost use Rattle.std.specs.Prelude.{◌≡◌};

    /// The commands, in the script's order.
    pub fn commands(&self) -> &[Command]
        ensures { result.now ≡ self.now }
    {
        &self.commands
    }
}
