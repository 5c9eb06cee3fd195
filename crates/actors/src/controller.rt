//! The controller of a replay: it applies the commands of the script, those of its queue until the end.

ghost use Rattle.std.specs.Prelude.{◌≡◌, ◌<◌, ◌∷◌, ◌++◌, [], length, Option, Some, slice_get, IfOk, IfErr, OnOk, OnErr, false, MatchOption};
ghost use Rattle.rx_queues.specs.Passes.{IsTakePassOf, jobs_taken, place_taken_from, workers_of, command_count_of};
ghost use Rattle.rx_queues.specs.declared.job.Job.TheVariants.{Command as CommandJob, End};
ghost use Rattle.actors.specs.ActorJobs.{AreCommandsTaken, IsActorAccounted, IsForCommands};
ghost use Rattle.actors.specs.Actors.{HasEndLast};
ghost use Rattle.maglev.specs.RingSize.{IsRingSize};
ghost use Rattle.semantics.specs.declared.call.Caller.TheVariants.{Controller as TheController};
ghost use Rattle.control.specs.declared.fault.ControlFault.{ControlFault as Fault};
ghost use Rattle.conntrack.specs.SteeringMaps.{AreSteeringMaps};
ghost use Rattle.control.specs.Controlling.{opened_controller};
ghost use Rattle.actors.specs.Commands.{CommanderView, HasEffect, HasSet, IsScriptAccount, HasAccount, HasAccountBehind, OfEachAccount};
ghost use Rattle.actors.specs.Commands.{StaysOf, ServesScript};
ghost use Rattle.std.specs.Prelude.{◌+◌, true, slice_set, replicate};

use crate::actor::{Actor, ActorEnded};
use crate::outcome::Applied;
use crate::updates::{GatedUpdates, SharedUpdates};
use control::{Command, ControlFault, Controller};
use map_updates::MapUpdate;
use rx_queues::{Job, Queues, TakePass};
use semantics::Caller;
use shard_port::{Gate, Tally};
use shards::{Dealer, First, Naming, Pass, Shards};
use std::alloc::{AllocError, Global};
use std::marker::Model;
use std::sync::Wait;

/// The controller of a replay: it applies commands of a script to shards that it shares with others, and notes what came of each.
/// Contracts see what was made before the script, the script, what was noted, the controller and its port; what the type keeps is
/// `has_account`.
#[derive(Drop)]
pub struct Commander<'a, B: Naming, W: Wait, G: Gate> {
    updates: &'a [MapUpdate],
    script: &'a [Command],
    controller: Controller,
    port: GatedUpdates<'a, SharedUpdates<'a, B, W>, G>,
    noted: Vec<Applied>,
}

impl<'a, B: Naming, W: Wait, G: Gate> Model for Commander<'a, B, W, G> {
    ghost use Rattle.actors.specs.Commands.{CommanderView, IsCommander};

    ghost Value = { CommanderView };

    ghost view = { λ c. record
        { updates = c.updates.now; script = c.script.now; noted = c.noted.items; controller = c.controller; port = c.port.port } };

    ghost invariant = { λ c. IsCommander B.plan c.updates.now c.script.now c.noted.items c.controller c.port.port };
}

impl<'a, B: Naming, W: Wait, G: Gate> Commander<'a, B, W, G> {
    /// The controller of a script that has applied nothing, with a pass that has made these updates and nothing else: for a lookup table of
    /// `size` slots, which the shards' maps have, or for an empty script. Each answer goes through the gate.
    pub fn over(
        alloc: Global,
        rt: &'a W,
        shards: &'a Shards<B>,
        pass: Pass<B>,
        gate: &'a G,
        updates: &'a [MapUpdate],
        script: &'a [Command],
        size: u32,
    ) -> Commander<'a, B, W, G>
        requires who { pass.who ≡ TheController }
        requires set { HasSet shards.now.maps shards.now.options updates.now pass }
        requires size { IsRingSize size }
        requires serves { ServesScript shards.now.maps size script.now }
        ensures updates { result.updates ≡ updates.now }
        ensures script { result.script ≡ script.now }
        ensures noted { result.noted ≡ [] }
        ensures controller { result.controller ≡ opened_controller size }
        ensures maps { result.port.maps ≡ shards.now.maps }
        ensures options { result.port.options ≡ shards.now.options }
    {
        let controller = match Controller::open(alloc, size) {
            Ok(controller) => controller,
            Err(_) => unreachable!(),
        };
        Commander {
            updates,
            script,
            controller,
            port: GatedUpdates {
                port: SharedUpdates::over(rt, shards, pass),
                tally: Tally::new(gate, Caller::Controller, updates.len() as u64),
            },
            noted: Vec::new(alloc),
        }
    }

    /// What it did so far, as the beginning of what all callers will have done: nobody else has a pass yet. Changes nothing.
    pub fn first(&mut self, dealer: &mut Dealer<B>) -> First<B>
        requires alone { dealer.old ≡ slice_set (replicate (self.old.port.options.workers + 2) false) 0 true }
        ensures first { result ≡ self.old.port.pass.deeds }
        ensures same { self.new ≡ self.old }
        ensures unchanged { dealer.new ≡ dealer.old }
    {
        self.port.port.first(dealer)
    }

    /// The account of the commands applied so far. The function does nothing: it brings this fact into a proof.
    pub fn has_account(&self)
        ensures { HasAccount B.plan self.now }
    {
        let _noted = self.noted.len();
    }

    /// The script.
    pub fn script(&self) -> &[Command]
        ensures { result.now ≡ self.now.script }
    {
        self.script
    }

    /// Applies the script's command of this number, counted from 0, and notes whether it was refused. Fails only where memory is
    /// refused for the note; then nothing is changed.
    pub fn apply(&mut self, alloc: Global, number: usize) -> Result<(), AllocError>
        requires { number < length self.old.script }
        ensures noted { OnOk result ((fault : Option Fault) × (self.new.noted ≡ self.old.noted ++ (record {
          command = number;
          fault =
              fault;
        }) ∷ [])) }
        ensures more { OnOk result (OfEachAccount B.plan self.old (HasAccountBehind B.plan self.new)) }
        ensures same { StaysOf self.old self.new }
        ensures unchanged { OnErr result (self.new ≡ self.old) }
    {
        if self.noted.reserve(1).is_err() {
            return Err(AllocError);
        }
        let command = command_at(self.script, number);
        let fault = apply_to(alloc, &mut self.controller, command, &mut self.port);
        self.noted.push_reserved(Applied {
            command: number,
            fault,
        });
        Ok(())
    }

    /// Gives the pass back, with what was noted.
    pub fn finish(self) -> (Pass<B>, Vec<Applied>)
        ensures pass { result.0 ≡ self.entry.port.pass }
        ensures who { result.0.who ≡ TheController }
        ensures noted { result.1.items ≡ self.entry.noted }
        ensures account { IsScriptAccount B.plan self.entry.port.maps self.entry.port.options self.entry.updates self.entry.script
            self.entry.controller.size result.1.items self.entry.controller result.0 }
    {
        let Commander { port, noted, .. } = self;
        let GatedUpdates { port, .. } = port;
        (port.finish(), noted)
    }
}

/// The command of a number.
pub fn command_at(script: &[Command], number: usize) -> &Command
    requires { number < length script.now }
    ensures { slice_get script.now number ≡ Some result.now }
{
    &script[number]
}

/// Applies a command to a controller and its port, and says for which fault it was refused, if for one.
fn apply_to<B: Naming, W: Wait, G: Gate>(
    alloc: Global,
    controller: &mut Controller,
    command: &Command,
    port: &mut GatedUpdates<'_, SharedUpdates<'_, B, W>, G>,
) -> Option<ControlFault>
    requires serves { AreSteeringMaps controller.old.size port.old.port.maps }
    requires who { port.old.port.pass.who ≡ TheController }
    ensures effect { HasEffect B.plan controller.old command.now.action result controller.new port.old.port port.new.port }
    ensures size { controller.new.size ≡ controller.old.size }
{
    match controller.apply(alloc, command, port) {
        Ok(()) => None,
        Err(fault) => Some(fault),
    }
}

/// What the controller hands back: its pass, and what came of each command, those before its thread began among them.
#[derive(Drop)]
pub struct Commanded<B: Naming> {
    pub pass: Pass<B>,
    pub noted: Vec<Applied>,
}

impl<'a, B: Naming, W: Wait, G: Gate> Actor<Commanded<B>> for Commander<'a, B, W, G> {
    ghost use Rattle.actors.specs.ActorJobs.{IsForCommands};
    ghost use Rattle.actors.specs.Parts.{HasCommanded};

    ghost is_ready = { λ actor queues place. IsForCommands actor.script queues place };

    ghost gives = { λ actor jobs given. HasCommanded B.plan actor jobs given.noted.items given.pass };

    fn until_end<R: Wait>(
        self,
        rt: &R,
        alloc: Global,
        queues: &Queues,
        take: TakePass,
    ) -> ActorEnded<Commanded<B>> {
        commands_until_end(rt, alloc, queues, take, self)
    }
}

/// Applies the commands that the controller is handed, in order, until the end. Where memory is refused for a note, that command and
/// the later ones are taken and not applied. Waits while the queue is empty.
fn commands_until_end<B: Naming, W: Wait, G: Gate, R: Wait>(
    rt: &R,
    alloc: Global,
    queues: &Queues,
    mut take: TakePass,
    mut commander: Commander<'_, B, W, G>,
) -> ActorEnded<Commanded<B>>
    requires take { IsTakePassOf queues.now take × (jobs_taken take ≡ []) }
    requires jobs { IsForCommands commander.script queues.now (place_taken_from take) }
    ensures take { IsTakePassOf queues.now result.take × (place_taken_from result.take ≡ place_taken_from take) }
    ensures ended { HasEndLast (jobs_taken result.take) }
    ensures jobs { result.is_refused ≡ false → AreCommandsTaken commander.entry.noted result.given.noted.items (jobs_taken result.take) }
    ensures account { IsActorAccounted B.plan commander.entry result.given.noted.items result.given.pass }
    ensures who { result.given.pass.who ≡ TheController }
{
    let mut is_refused = false;
    'jobs: for _ in rt.forever() {
        match next_command(rt, queues, &mut take) {
            Some(number) => {
                if !is_refused {
                    match commander.apply(alloc, number) {
                        Ok(()) => {}
                        Err(_) => is_refused = true,
                    }
                }
            }
            None => break,
        }
    }
    let (pass, noted) = commander.finish();
    ActorEnded {
        take,
        given: Commanded { pass, noted },
        is_refused,
    }
}

/// The number of the next command; none at the end.
fn next_command<W: Wait>(rt: &W, queues: &Queues, take: &mut TakePass) -> Option<usize>
    requires take { IsTakePassOf queues.now take.old }
    requires of_controller { place_taken_from take.old ≡ workers_of queues.now }
    ensures take { IsTakePassOf queues.now take.new × (place_taken_from take.new ≡ place_taken_from take.old) }
    ensures taken { MatchOption result (jobs_taken take.new ≡ jobs_taken take.old ++ End ∷ [])
        (λ number. (number < command_count_of queues.now) × (jobs_taken take.new ≡ jobs_taken take.old ++ CommandJob number ∷ [])) }
{
    match queues.take_waiting(rt, take) {
        Job::Command(number) => Some(number),
        Job::End => None,
        Job::Frame(_) => unreachable!(),
        Job::Note => unreachable!(),
    }
}
