//! The controller: it knows which backends are up, and makes of each command the updates that it asks.

ghost use Rattle.std.specs.Prelude.{◌≡◌, ◌≢◌, ◌↔◌, ◌⊎◌, ◌&&◌, ◌||◌, false, true, IsTrue, nat_lt, ℤ, pos};
ghost use Rattle.std.specs.Prelude.{List, [], ◌∷◌, Option, Some, Err, IfOk, IfErr, IsErrOf, OnOk, OnErr};
ghost use Rattle.std.specs.List.{list_any};
ghost use Rattle.maglev.specs.RingSize.{IsRingSize};
ghost use Rattle.conntrack.specs.SteeringMaps.{AreSteeringMaps};
ghost use Rattle.control.specs.declared.command.Action.{Action as Act};
ghost use Rattle.control.specs.declared.fault.ControlFault.{ControlFault as Fault};
ghost use Rattle.control.specs.declared.fault.ControlFault.TheVariants as faults;
ghost use Rattle.control.specs.MapUpdates.{map_update, StandsInArray, HasOwner};
ghost use Rattle.control.specs.Controlling.{ControllerState, IsController, AreUp, IsTable, has_number, has_address};
ghost use Rattle.control.specs.Controlling.{action_refusal, refusal_of, first_updates, up_after};
ghost use Rattle.control.specs.Controlling.{IsCarriedOut, IsStopped, IsUnchanged, IsServiceAnswered, IsLeft};

use crate::backends_up::{
    backend_of, is_address_up, is_number_up, owners, ring_of, with_backend, without_backend,
};
use crate::command::{Action, Command};
use crate::fault::ControlFault;
use crate::ring_changes::changes;
use crate::sending::{make_all, make_in_array};
use crate::update::Update;
use crate::update_port::{UpdatePort, make};
use conntrack::{BACKENDS, BackendRecord, Service, TunnelRecord, VipRecord};
use maglev::{Backend, Ring, is_ring_size};
use std::alloc::Global;
use std::marker::Model;
use wire::{Ipv4Address, MacAddress};

/// The controller of a lookup table: which backends are up, and their ring. Contracts see its state.
#[derive(Debug, Drop)]
pub struct Controller {
    size: u32,
    up: Vec<Backend>,
    ring: Option<Ring>,
    is_full: bool,
}

impl Model for Controller {
    ghost use Rattle.control.specs.Controlling.{ControllerState, IsController, owners_in};

    ghost Value = { ControllerState };

    ghost view = { λ c. record { size = c.size; up = c.up.items; owners = owners_in c.ring; is_full = c.is_full } };

    ghost invariant = { λ c. IsController c.size c.up.items (owners_in c.ring) };
}

/// Whether an update was made.
fn is_done(answer: i32) -> bool
    ensures { IsTrue result ↔ (answer ≡ pos 0) }
{
    answer == 0
}

/// Whether a backend may have this number.
fn is_served_number(number: u32, size: u32) -> bool
    ensures { result ≡ nat_lt number 256 && nat_lt number size }
{
    number < BACKENDS && number < size
}

/// Whether a backend of this number or address is up.
fn is_taken(up: &[Backend], number: u32, address: Ipv4Address) -> bool
    ensures { result ≡ list_any (has_number number) up.now || list_any (has_address address) up.now }
{
    is_number_up(up, number) || is_address_up(up, address)
}

impl Controller {
    /// A controller for a lookup table of `size` slots, with no backend up. Refused with 73 exactly where that is none of Maglev's sizes
    /// here (7, 251, 4093, 65537). It takes no memory before its first command.
    pub fn open(alloc: Global, size: u32) -> Result<Controller, ControlFault>
        ensures opened { IfOk result (λ controller. controller ≡ record { size = size; up = []; owners = []; is_full = false }) }
        ensures bad_size { IsErrOf result faults.BadSize ↔ ¬ IsRingSize size }
        ensures only { IfErr result (λ fault. fault ≡ faults.BadSize) }
    {
        if !is_ring_size(size) {
            return Err(ControlFault::BadSize);
        }
        Ok(Controller {
            size,
            up: Vec::new(alloc),
            ring: None,
            is_full: false,
        })
    }

    /// Whether a journal was full when a command was carried out.
    pub fn is_full(&self) -> bool
        ensures { result ≡ self.now.is_full }
    {
        self.is_full
    }

    /// Puts a service.
    #[tactic(auto, using(crate::proofs::Serving::still_steering))]
    fn put_vip<U: UpdatePort>(
        &mut self,
        service: Service,
        is_notrack: bool,
        port: &mut U,
    ) -> Result<(), ControlFault>
        requires serves { AreSteeringMaps self.old.size (U.serves port.old) }
        requires not_full { self.old.is_full ≡ false }
        ensures done { OnOk result (IsCarriedOut U.gives self.old port.old
            (first_updates self.old.up (Act.Vip service is_notrack)) self.old.up self.new port.new) }
        ensures left { IfErr result
            (λ fault. IsLeft U.gives U.refuses self.old port.old (Act.Vip service is_notrack) self.new port.new fault) }
        ensures stays { (self.new.size ≡ self.old.size) × AreSteeringMaps self.new.size (U.serves port.new) }
    {
        let vip = VipRecord { is_notrack };
        match make(port, Update::Vip { service, vip }) {
            Ok(answer) => {
                if !is_done(answer) {
                    return Err(ControlFault::Refused { answer });
                }
                Ok(())
            }
            Err(_) => {
                self.is_full = true;
                Err(ControlFault::JournalFull)
            }
        }
    }

    /// Puts the tunnel.
    fn put_tunnel<U: UpdatePort>(
        &mut self,
        source: Ipv4Address,
        source_mac: MacAddress,
        destination_mac: MacAddress,
        port: &mut U,
    ) -> Result<(), ControlFault>
        requires serves { AreSteeringMaps self.old.size (U.serves port.old) }
        requires not_full { self.old.is_full ≡ false }
        ensures done { OnOk result (IsCarriedOut U.gives self.old port.old
            (first_updates self.old.up (Act.Gateway source source_mac destination_mac)) self.old.up self.new port.new) }
        ensures left { IfErr result (λ fault. IsLeft U.gives U.refuses self.old port.old
            (Act.Gateway source source_mac destination_mac) self.new port.new fault) }
        ensures stays { (self.new.size ≡ self.old.size) × AreSteeringMaps self.new.size (U.serves port.new) }
    {
        let tunnel = TunnelRecord {
            source,
            source_mac,
            destination_mac,
            is_ready: true,
        };
        match make_in_array(port, Update::Tunnel { tunnel }, self.size) {
            Ok(()) => Ok(()),
            Err(_) => {
                self.is_full = true;
                Err(ControlFault::JournalFull)
            }
        }
    }

    /// Puts a backend's record, and then sets each slot to the owner that it has among the backends that are up now.
    fn change_up<U: UpdatePort>(
        &mut self,
        alloc: Global,
        first: Update,
        up: Vec<Backend>,
        port: &mut U,
    ) -> Result<(), ControlFault>
        requires serves { AreSteeringMaps self.old.size (U.serves port.old) }
        requires not_full { self.old.is_full ≡ false }
        requires up { AreUp self.old.size up.items }
        requires first { StandsInArray self.old.size first }
        requires owner { HasOwner first }
        ensures done { OnOk result (IsCarriedOut U.gives self.old port.old (first ∷ []) up.items self.new port.new) }
        ensures refused { IfErr result (λ fault. ((fault ≡ faults.Memory) × IsUnchanged self.old port.old self.new port.new)
            ⊎ ((fault ≡ faults.JournalFull) × IsStopped U.gives U.refuses self.old port.old (first ∷ []) up.items self.new port.new)) }
        ensures stays { (self.new.size ≡ self.old.size) × AreSteeringMaps self.new.size (U.serves port.new) }
    {
        let ring = ring_of(alloc, &up, self.size)?;
        let slots = changes(alloc, owners(&self.ring), owners(&ring), self.size)?;
        match make_all(port, first, &slots, self.size) {
            Ok(()) => {
                self.up = up;
                self.ring = ring;
                Ok(())
            }
            Err(_) => {
                self.is_full = true;
                Err(ControlFault::JournalFull)
            }
        }
    }

    /// Takes a backend up.
    fn take_up<U: UpdatePort>(
        &mut self,
        alloc: Global,
        number: u32,
        address: Ipv4Address,
        port: &mut U,
    ) -> Result<(), ControlFault>
        requires serves { AreSteeringMaps self.old.size (U.serves port.old) }
        requires not_full { self.old.is_full ≡ false }
        ensures done { OnOk result (IsCarriedOut U.gives self.old port.old
            (first_updates self.old.up (Act.Up number address))
            (up_after self.old.up (Act.Up number address)) self.new port.new) }
        ensures left { IfErr result (λ fault. IsLeft U.gives U.refuses self.old port.old (Act.Up number address) self.new port.new fault) }
        ensures first { (fault : Fault) → action_refusal self.old.size self.old.up (Act.Up number address) ≡ Some fault →
            result ≡ Err fault }
        ensures stays { (self.new.size ≡ self.old.size) × AreSteeringMaps self.new.size (U.serves port.new) }
    {
        if !is_served_number(number, self.size) {
            return Err(ControlFault::UnknownBackend);
        }
        if is_taken(&self.up, number, address) {
            return Err(ControlFault::BackendTwice);
        }
        let up = with_backend(alloc, &self.up, Backend { number, address })?;
        let backend = BackendRecord {
            address,
            is_up: true,
        };
        self.change_up(alloc, Update::Backend { number, backend }, up, port)
    }

    /// Takes a backend down.
    fn take_down<U: UpdatePort>(
        &mut self,
        alloc: Global,
        number: u32,
        port: &mut U,
    ) -> Result<(), ControlFault>
        requires serves { AreSteeringMaps self.old.size (U.serves port.old) }
        requires not_full { self.old.is_full ≡ false }
        ensures done { OnOk result (IsCarriedOut U.gives self.old port.old
            (first_updates self.old.up (Act.Down number)) (up_after self.old.up (Act.Down number)) self.new port.new) }
        ensures left { IfErr result (λ fault. IsLeft U.gives U.refuses self.old port.old (Act.Down number) self.new port.new fault) }
        ensures first { (fault : Fault) → action_refusal self.old.size self.old.up (Act.Down number) ≡ Some fault → result ≡ Err fault }
        ensures stays { (self.new.size ≡ self.old.size) × AreSteeringMaps self.new.size (U.serves port.new) }
    {
        let Some(known) = backend_of(&self.up, number) else {
            return Err(ControlFault::UnknownBackend);
        };
        let up = without_backend(alloc, &self.up, number)?;
        let number = known.number;
        let backend = BackendRecord {
            address: known.address,
            is_up: false,
        };
        self.change_up(alloc, Update::Backend { number, backend }, up, port)
    }

    /// Carries a command out: exactly its updates, in this order: the record first (of the service, the backend or the tunnel), then each
    /// slot of the lookup table whose owner changes, rising. The ring is built from the backends that are up, by rising number; with none
    /// up no slot has an owner. The port serves the six maps of steering for the controller's size.
    ///
    /// Refused, and nothing is changed, with 94 after an earlier 94, whatever else is wrong; else with 91 (`down` of a backend that is not
    /// up, `up` of a number not below 256 and the size), 92 (`up` of a number or an address that is up), 95 (memory is refused). Refused
    /// with 93 where the map of services answers a service with another number than 0: only that update was made. Refused with 94 where an
    /// update meets a full journal: those before it remain, and every later command is refused with 94.
    pub fn apply<U: UpdatePort>(
        &mut self,
        alloc: Global,
        command: &Command,
        port: &mut U,
    ) -> Result<(), ControlFault>
        requires serves { AreSteeringMaps self.old.size (U.serves port.old) }

        // The updates that are made, and the controller after them.
        ensures done { OnOk result (IsCarriedOut U.gives self.old port.old
            (first_updates self.old.up command.now.action) (up_after self.old.up command.now.action) self.new port.new) }

        // Each refusal, and what it leaves.
        ensures left { IfErr result (λ fault. IsLeft U.gives U.refuses self.old port.old command.now.action self.new port.new fault) }
        ensures first { (fault : Fault) → refusal_of self.old command.now.action ≡ Some fault → result ≡ Err fault }

        // The next command can be carried out with the same port.
        ensures stays { (self.new.size ≡ self.old.size) × AreSteeringMaps self.new.size (U.serves port.new) }
    {
        if self.is_full {
            return Err(ControlFault::JournalFull);
        }
        match command.action {
            Action::Vip {
                service,
                is_notrack,
            } => self.put_vip(service, is_notrack, port),
            Action::Up { backend, address } => self.take_up(alloc, backend, address, port),
            Action::Down { backend } => self.take_down(alloc, backend, port),
            Action::Gateway {
                source,
                source_mac,
                destination_mac,
            } => self.put_tunnel(source, source_mac, destination_mac, port),
        }
    }

    /// The law of the ring: it is a function of the backends that are up alone. Two controllers of one size with the same backends up have
    /// one table.
    pub fn same_ring(&self, other: &Controller)
        ensures { self.now.size ≡ other.now.size → self.now.up ≡ other.now.up → self.now.owners ≡ other.now.owners }
    {
        let _sizes = (self.size, other.size);
    }
}
