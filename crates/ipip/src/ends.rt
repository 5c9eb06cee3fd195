//! The two ends of a tunnel.

use wire::{Ipv4Address, MacAddress};

/// From where to where an encapsulated frame goes.
#[derive(Clone, Copy, Debug, PartialEq, Eq)]
pub struct Tunnel {
    /// The tunnel's entry: the outer header's source address.
    pub source: Ipv4Address,
    /// The tunnel's exit: the outer header's destination address.
    pub target: Ipv4Address,
    /// The frame's new source address.
    pub source_mac: MacAddress,
    /// The frame's new destination address.
    pub destination_mac: MacAddress,
}
