//! The IPv4 packet in an Ethernet frame.

ghost use Rattle.std.specs.Prelude.{◌≡◌, ◌+◌, ◌<◌, ◌≤◌, ◌↔◌, length, IsSome, IfSome};
ghost use Rattle.wire.specs.PlainIpv4.{type_of_service, total_length, time_to_live, IsPlainIpv4};

use crate::big_endian::word_at;

/// What is read of the header of an IPv4 packet without options (RFC 791, section 3.1).
#[derive(Clone, Copy, Debug, PartialEq, Eq)]
pub struct Ipv4Packet {
    pub type_of_service: u8,
    /// How many bytes the packet has: the header's 20 and the data.
    pub total_length: u16,
    pub time_to_live: u8,
}

impl Ipv4Packet {
    /// The packet of a frame, where the frame holds a whole IPv4 packet without options.
    pub fn of(frame: &[u8]) -> Option<Self>
        ensures plain { IsSome result ↔ IsPlainIpv4 frame.now }
        ensures type_of_service { IfSome result (λ packet. packet.type_of_service ≡ type_of_service frame.now) }
        ensures total_length { IfSome result (λ packet. packet.total_length ≡ total_length frame.now) }
        ensures time_to_live { IfSome result (λ packet. packet.time_to_live ≡ time_to_live frame.now) }
        ensures whole { IfSome result (λ packet. 14 + packet.total_length ≤ length frame.now) }
    {
        if frame.len() < 34 || frame[12] != 0x08 || frame[13] != 0x00 || frame[14] != 0x45 {
            return None;
        }
        let total_length = word_at(frame, 16);
        if total_length < 20 || frame.len() < 14 + usize::from(total_length) {
            return None;
        }
        Some(Ipv4Packet {
            type_of_service: frame[15],
            total_length,
            time_to_live: frame[22],
        })
    }
}
