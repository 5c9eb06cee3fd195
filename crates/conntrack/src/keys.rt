//! The keys of the maps.

ghost use Rattle.std.specs.Prelude.{◌≡◌};
ghost use Rattle.semantics.specs.LittleEndian.{bytes_of_number};
ghost use Rattle.conntrack.specs.Layouts.{service_key, service_of};

use wire::{FlowKey, Ipv4Address, Transport};

/// What clients of a service send to.
#[derive(Clone, Copy, Debug, PartialEq, Eq)]
pub struct Service {
    pub address: Ipv4Address,
    pub port: u16,
    pub transport: Transport,
}

impl Service {
    /// The service that a flow asks.
    pub fn of_flow(flow: &FlowKey) -> Service
        ensures { result ≡ service_of flow.now }
    {
        Service {
            address: flow.destination,
            port: flow.destination_port,
            transport: flow.transport,
        }
    }

    /// The eight bytes of its key in the map of services: address 4, port 2 as in a frame (high byte first), protocol 1, zero 1.
    pub fn key(&self) -> [u8; 8]
        ensures { result ≡ service_key self.now }
    {
        let [a, b, c, d] = self.address.0;
        let (high, low) = ((self.port / 256) as u8, (self.port % 256) as u8);
        [a, b, c, d, high, low, self.transport.number(), 0]
    }
}

/// The four bytes of an array's index, the lowest first: a slot of the ring, a backend's number, a verdict.
pub fn index_key(index: u32) -> [u8; 4]
    ensures { result ≡ bytes_of_number 4 index }
{
    index.to_le_bytes()
}
