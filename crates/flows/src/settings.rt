//! What a script has set when a record comes.

ghost use Rattle.std.specs.Prelude.{◌≡◌, ◌<◌, ◌+◌, List, ℕ, IfOk, OnOk, decimal, false, length, slice_get, string_bytes};
ghost use Rattle.control.specs.ScriptText.{address_text};
ghost use Rattle.flows.specs.Settings.{before, is_up};
ghost use Rattle.flows.specs.Walking.{IsSetBy, IsWalked, KnowsSettings, SetsFlag, applied, flag, is_one_due};

use control::{Action, Command};
use std::alloc::{AllocError, Global};
use std::collections::BTreeMap;
use wire::Ipv4Address;

/// Of names, whether something is so; of any other name it is not.
#[derive(Drop)]
pub(crate) struct Flags {
    set: BTreeMap<String, bool>,
}

impl Flags {
    /// Nothing is so.
    fn none(alloc: Global) -> Flags
        ensures { (name : List ℕ) → flag result name ≡ false }
    {
        Flags {
            set: BTreeMap::new(alloc),
        }
    }

    /// Whether it is so of this name.
    fn has(&self, name: &str) -> bool
        ensures { result ≡ flag self.now name.now }
    {
        self.set.get(name).copied().unwrap_or(false)
    }

    /// Says whether it is so of this name.
    fn put(&mut self, name: String, is_so: bool) -> Result<(), AllocError>
        ensures { OnOk result (SetsFlag self.old self.new (string_bytes name) is_so) }
    {
        self.set.insert(name, is_so)?;
        Ok(())
    }
}

/// A number in decimal.
fn decimal(alloc: Global, number: u32) -> Result<String, AllocError>
    ensures { IfOk result (λ text. string_bytes text ≡ decimal number) }
{
    format!(in alloc; "{number}")
}

/// An address in four decimal numbers with dots between them. It fails only for lack of memory.
#[tactic(auto, unfolding(control::specs::ScriptText::address_text))]
pub fn address_text(alloc: Global, address: Ipv4Address) -> Result<String, AllocError>
    ensures { IfOk result (λ text. string_bytes text ≡ address_text address.0) }
{
    let [a, b, c, d] = address.0;
    format!(in alloc; "{a}.{b}.{c}.{d}")
}

/// What the commands of a script have set, as far as they were carried out.
#[derive(Drop)]
pub(crate) struct Settings<'a> {
    commands: &'a [Command],
    /// So many of the commands, from the first on.
    done: usize,
    /// The numbers of the backends that are up.
    up: Flags,
}

impl<'a> Settings<'a> {
    /// Before the first command.
    pub(crate) fn new(alloc: Global, commands: &'a [Command]) -> Settings<'a>
        ensures knows { KnowsSettings result }
        ensures start { result.done ≡ 0 }
        ensures of { result.commands.now ≡ commands.now }
    {
        Settings {
            commands,
            done: 0,
            up: Flags::none(alloc),
        }
    }

    /// Whether the backend of this number is up.
    pub(crate) fn is_up(&self, number: &str) -> bool
        requires { KnowsSettings self.now }
        ensures { result ≡ is_up number.now (applied self.now) }
    {
        self.up.has(number)
    }

    /// Sets what an action sets.
    fn set(&mut self, alloc: Global, action: &Action) -> Result<(), AllocError>
        ensures { OnOk result (IsSetBy self.old self.new action.now) }
    {
        match action {
            Action::Up { backend, .. } => self.up.put(decimal(alloc, *backend)?, true),
            Action::Down { backend } => self.up.put(decimal(alloc, *backend)?, false),
            Action::Vip { .. } | Action::Gateway { .. } => Ok(()),
        }
    }

    /// Carries the next command out.
    fn step(&mut self, alloc: Global) -> Result<(), AllocError>
        requires knows { KnowsSettings self.old }
        requires next { self.old.done < length self.old.commands.now }
        ensures knows { OnOk result (KnowsSettings self.new) }
        ensures further { OnOk result (self.new.done ≡ self.old.done + 1) }
        ensures same { OnOk result (self.new.commands.now ≡ self.old.commands.now) }
    {
        let command = self.commands[self.done];
        self.set(alloc, &command.action)?;
        self.done += 1;
        Ok(())
    }

    /// Whether the next command comes before the record at this place.
    fn is_next_due(&self, place: usize) -> bool
        ensures { result ≡ is_one_due place (slice_get self.now.commands.now self.now.done) }
    {
        match self.commands.get(self.done) {
            Some(command) => command.frame as usize <= place,
            None => false,
        }
    }

    /// Carries out the commands that come before the record at this place, counted from 0.
    pub(crate) fn advance(&mut self, alloc: Global, place: usize) -> Result<(), AllocError>
        requires { IsWalked self.old place }
        ensures walked { OnOk result (IsWalked self.new place) }
        ensures before { OnOk result (applied self.new ≡ before place self.old.commands.now) }
        ensures same { OnOk result (self.new.commands.now ≡ self.old.commands.now) }
    {
        'commands: while self.is_next_due(place) {
            self.step(alloc)?;
        }
        Ok(())
    }
}
