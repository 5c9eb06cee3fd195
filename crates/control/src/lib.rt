//! The controller: scripts of commands, and what they make of the maps of steering.
#![tactic(auto)]

mod backends_up;
mod command;
mod controller;
mod facts;
mod fault;
mod parsing;
mod printing;
mod reading;
mod renumbering;
mod ring_changes;
mod sending;
mod update;
mod update_list;
mod update_port;

pub use command::{Action, Command, Script};
pub use controller::Controller;
pub use facts::{commands_fit, commands_never_fall};
pub use fault::ControlFault;
pub use parsing::{one_script, parse_script, round_trip};
pub use printing::transport_text;
pub use ring_changes::{Slot, ring_updates};
pub use update::Update;
pub use update_list::{MadeUpdate, UpdateList};
pub use update_port::UpdatePort;
