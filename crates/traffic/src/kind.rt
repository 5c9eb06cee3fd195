//! What a frame is to a balancer of TCP and UDP over IPv4.

ghost use Rattle.std.specs.Prelude.{◌≡◌, ◌+◌, ◌<◌, ◌≤◌, ◌↔◌, length, slice_index, true};
ghost use Rattle.wire.specs.FlowForm.{HasFlow};
ghost use Rattle.wire.specs.PlainIpv4.{IsPlainIpv4};
ghost use Rattle.traffic.specs.Counting.{how_many_of_kind, place_of};
ghost use Rattle.traffic.specs.Kinds.{flow_kind, ipv4_kind, is_of_flow_kind, frame_kind_of, packet_kind};

use ipip::MOST_TUNNELLED;
use wire::{MIN_FRAME, Sent, word_at};

/// What a frame is to a balancer of TCP and UDP over IPv4 (RFC 791, section 3.1). A frame that fits several kinds is of the first one.
#[derive(Clone, Copy, Debug, PartialEq, Eq)]
pub enum FrameKind {
    /// Fewer than 14 bytes: no Ethernet frame.
    Short,
    /// IPv6, by its Ethernet type.
    Ipv6,
    /// ARP, by its Ethernet type.
    Arp,
    /// A frame with a VLAN tag (Ethernet type 8100 or 88a8).
    Vlan,
    /// Any other Ethernet type except IPv4.
    OtherType,
    /// IPv4 whose header or data is cut, or whose lengths disagree.
    Malformed,
    /// IPv4 whose header has options.
    Options,
    /// A part of a fragmented IPv4 packet.
    Fragment,
    /// ICMP over IPv4.
    Icmp,
    /// Another protocol than TCP and UDP over IPv4.
    OtherProtocol,
    /// TCP or UDP, with a time to live of 0.
    Expired,
    /// TCP or UDP, in a packet of more than 1480 bytes, which has no room for an outer header.
    Large,
    /// TCP or UDP, which can be put into a tunnel.
    Flow,
}

impl FrameKind {
    /// The place of the kind in their order, from 0.
    pub fn place(self) -> usize
        ensures { result ≡ place_of self }
    {
        match self {
            FrameKind::Short => 0,
            FrameKind::Ipv6 => 1,
            FrameKind::Arp => 2,
            FrameKind::Vlan => 3,
            FrameKind::OtherType => 4,
            FrameKind::Malformed => 5,
            FrameKind::Options => 6,
            FrameKind::Fragment => 7,
            FrameKind::Icmp => 8,
            FrameKind::OtherProtocol => 9,
            FrameKind::Expired => 10,
            FrameKind::Large => 11,
            FrameKind::Flow => 12,
        }
    }

    /// Whether a frame of this kind has a flow: a whole datagram of TCP or UDP.
    pub fn has_flow(self) -> bool
        ensures { result ≡ is_of_flow_kind self }
    {
        matches!(
            self,
            FrameKind::Expired | FrameKind::Large | FrameKind::Flow
        )
    }

    /// How many of the frames are of this kind.
    pub fn count_in(self, frames: &[Sent]) -> usize
        ensures { result ≡ how_many_of_kind self frames.now }
    {
        let place = self.place();
        frames
            .iter()
            .filter(|sent| FrameKind::of(&sent.bytes).place() == place)
            .count()
    }

    /// The kind of a frame.
    pub fn of(frame: &[u8]) -> FrameKind
        ensures kind { result ≡ frame_kind_of frame.now }
        ensures flow { is_of_flow_kind result ≡ true ↔ HasFlow frame.now }
    {
        if frame.len() < MIN_FRAME {
            return FrameKind::Short;
        }
        match word_at(frame, 12) {
            0x0800 => ipv4_kind(frame),
            0x86dd => FrameKind::Ipv6,
            0x0806 => FrameKind::Arp,
            0x8100 | 0x88a8 => FrameKind::Vlan,
            _ => FrameKind::OtherType,
        }
    }
}

/// The kind of a frame whose Ethernet type is that of IPv4.
fn ipv4_kind(frame: &[u8]) -> FrameKind
    requires long { 14 ≤ length frame.now }
    requires ether_type { (slice_index frame.now 12 ≡ 0x08) × (slice_index frame.now 13 ≡ 0x00) }
    ensures kind { result ≡ ipv4_kind frame.now }
    ensures flow { is_of_flow_kind result ≡ true ↔ HasFlow frame.now }
{
    if frame.len() < 34 || frame[14] / 16 != 4 || frame[14] % 16 < 5 {
        return FrameKind::Malformed;
    }
    if frame[14] % 16 > 5 {
        return FrameKind::Options;
    }
    let total = word_at(frame, 16);
    if total < 20 || frame.len() < 14 + usize::from(total) {
        return FrameKind::Malformed;
    }
    packet_kind(frame)
}

/// The kind of a whole IPv4 packet without options.
fn packet_kind(frame: &[u8]) -> FrameKind
    requires plain { IsPlainIpv4 frame.now }
    ensures kind { result ≡ packet_kind frame.now }
    ensures flow { is_of_flow_kind result ≡ true ↔ HasFlow frame.now }
{
    if word_at(frame, 20) & 0x3fff != 0 {
        return FrameKind::Fragment;
    }
    match frame[23] {
        1 => FrameKind::Icmp,
        6 | 17 => {
            if word_at(frame, 16) < 28 {
                FrameKind::Malformed
            } else {
                flow_kind(frame)
            }
        }
        _ => FrameKind::OtherProtocol,
    }
}

/// The kind of a datagram of TCP or UDP that is whole and no fragment.
fn flow_kind(frame: &[u8]) -> FrameKind
    requires plain { IsPlainIpv4 frame.now }
    ensures kind { result ≡ flow_kind frame.now }
    ensures flow { is_of_flow_kind result ≡ true }
{
    if frame[22] == 0 {
        FrameKind::Expired
    } else if word_at(frame, 16) > MOST_TUNNELLED {
        FrameKind::Large
    } else {
        FrameKind::Flow
    }
}
