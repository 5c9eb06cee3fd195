//! The flow of a frame: who talks to whom, by which transport protocol.

ghost use Rattle.std.specs.Prelude.{◌≡◌, ℕ, ◌+◌, ◌/◌, ◌%◌, ◌<◌, ◌↔◌, length, slice_index, IsSome, IfSome};
ghost use Rattle.wire.specs.PlainIpv4.{total_length, IsPlainIpv4};
ghost use Rattle.wire.specs.FlowForm.{be_word_at, flow_bytes_of, HasFlow};
ghost use Rattle.wire.specs.FlowBytes.{protocol_number, be_bytes, flow_key_bytes};

use crate::big_endian::{be_bytes, word_at};
use crate::ethernet::Ipv4Address;
use crate::ipv4::Ipv4Packet;

/// The transport protocols that a flow may have.
#[derive(Clone, Copy, Debug, PartialEq, Eq)]
pub enum Transport {
    Tcp,
    Udp,
}

impl Transport {
    /// The protocol number in the IPv4 header.
    pub fn number(self) -> u8
        ensures { result ≡ protocol_number self }
    {
        match self {
            Transport::Tcp => 6,
            Transport::Udp => 17,
        }
    }
}

/// A flow: addresses and ports as they are in the frame.
#[derive(Clone, Copy, Debug, PartialEq, Eq)]
pub struct FlowKey {
    pub source: Ipv4Address,
    pub destination: Ipv4Address,
    pub source_port: u16,
    pub destination_port: u16,
    pub transport: Transport,
}

impl FlowKey {
    /// The sixteen bytes of the key: source 4, destination 4, source port 2,
    /// destination port 2 (high byte first), protocol 1, zeros 3.
    pub fn bytes(&self) -> [u8; 16]
        ensures { result ≡ flow_key_bytes self.now }
    {
        let [s0, s1, s2, s3] = self.source.0;
        let [d0, d1, d2, d3] = self.destination.0;
        let [p0, p1] = be_bytes(self.source_port);
        let [q0, q1] = be_bytes(self.destination_port);
        let protocol = self.transport.number();
        [
            s0, s1, s2, s3, d0, d1, d2, d3, p0, p1, q0, q1, protocol, 0, 0, 0,
        ]
    }
}

/// The flow of an Ethernet frame, where it holds a whole IPv4 datagram without
/// options (RFC 791), no fragment, of TCP or UDP.
pub fn flow_of(frame: &[u8]) -> Option<FlowKey>
    ensures form { IsSome result ↔ HasFlow frame.now }
    ensures key { IfSome result (λ key. flow_key_bytes key ≡ flow_bytes_of frame.now) }
{
    let Some(packet) = Ipv4Packet::of(frame) else {
        return None;
    };
    if packet.total_length < 28 || word_at(frame, 20) & 0x3fff != 0 {
        return None;
    }
    let transport = match frame[23] {
        6 => Transport::Tcp,
        17 => Transport::Udp,
        _ => return None,
    };
    Some(FlowKey {
        source: Ipv4Address([frame[26], frame[27], frame[28], frame[29]]),
        destination: Ipv4Address([frame[30], frame[31], frame[32], frame[33]]),
        source_port: word_at(frame, 34),
        destination_port: word_at(frame, 36),
        transport,
    })
}
