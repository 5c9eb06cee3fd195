//! The two headers that go before a packet in a tunnel.

ghost use Rattle.std.specs.Prelude.{◌≡◌};
ghost use Rattle.wire.specs.Checksum.{ones_sum_of};
ghost use Rattle.ipip.specs.Encapsulation.{header_with, outer_header, ethernet_header};

use crate::ends::Tunnel;
use wire::{EthernetHeader, be_bytes, ones_sum};

/// The type of an Ethernet frame that carries IPv4.
const IPV4: u16 = 0x0800;

/// The outer header with this checksum: type of service and total length as given, identification 0,
/// don't fragment, time to live 64, protocol 4 (RFC 791, section 3.1; RFC 2003, section 3.1).
fn header_with(checksum: u16, service: u8, total: u16, tunnel: &Tunnel) -> [u8; 20]
    ensures { result ≡ header_with checksum service total tunnel.now }
{
    let [total_high, total_low] = be_bytes(total);
    let [sum_high, sum_low] = be_bytes(checksum);
    let [s0, s1, s2, s3] = tunnel.source.0;
    let [t0, t1, t2, t3] = tunnel.target.0;
    [
        0x45, service, total_high, total_low, 0, 0, 0x40, 0x00, 64, 4, sum_high, sum_low, s0, s1,
        s2, s3, t0, t1, t2, t3,
    ]
}

/// The outer header, with its checksum, of a packet of this many bytes, this header among them.
#[tactic(auto, unfolding(crate::specs::Encapsulation::outer_header))]
pub(crate) fn outer_header(service: u8, total: u16, tunnel: &Tunnel) -> [u8; 20]
    ensures header { result ≡ outer_header service total tunnel.now }
    ensures verifies { ones_sum_of (outer_header service total tunnel.now) ≡ 0xffff }
{
    let checksum = 0xffff - ones_sum(&header_with(0, service, total, tunnel));
    header_with(checksum, service, total, tunnel)
}

/// The Ethernet header: the tunnel's two addresses, type IPv4.
pub(crate) fn ethernet_header(tunnel: &Tunnel) -> [u8; 14]
    ensures { result ≡ ethernet_header tunnel.now }
{
    let header = EthernetHeader {
        destination: tunnel.destination_mac,
        source: tunnel.source_mac,
        ether_type: IPV4,
    };
    header.bytes()
}
