//! Addresses, and the header of an Ethernet frame.

ghost use Rattle.std.specs.Prelude.{◌≡◌};
ghost use Rattle.wire.specs.EthernetBytes.{ethernet_bytes};

use crate::big_endian::be_bytes;

/// An IPv4 address: its bytes as they are in a header (RFC 791, section 3.1).
#[derive(Clone, Copy, Debug, PartialEq, Eq)]
pub struct Ipv4Address(pub [u8; 4]);

/// An Ethernet address: its bytes as they are in a frame.
#[derive(Clone, Copy, Debug, PartialEq, Eq)]
pub struct MacAddress(pub [u8; 6]);

/// The header of an Ethernet frame.
#[derive(Clone, Copy, Debug, PartialEq, Eq)]
pub struct EthernetHeader {
    pub destination: MacAddress,
    pub source: MacAddress,
    /// What the frame carries; 0x0800 is IPv4.
    pub ether_type: u16,
}

impl EthernetHeader {
    /// The fourteen bytes of the header: destination 6, source 6, type 2 (high byte first).
    pub fn bytes(&self) -> [u8; 14]
        ensures { result ≡ ethernet_bytes self.now }
    {
        let [d0, d1, d2, d3, d4, d5] = self.destination.0;
        let [s0, s1, s2, s3, s4, s5] = self.source.0;
        let [t0, t1] = be_bytes(self.ether_type);
        [d0, d1, d2, d3, d4, d5, s0, s1, s2, s3, s4, s5, t0, t1]
    }
}
