//! Putting a frame into a tunnel.

ghost use Rattle.std.specs.Prelude.{◌≡◌, ◌+◌, ◌-◌, ◌<◌, ◌≤◌, ◌↔◌, length, drop, slice_range, OnOk, OnErr, IsErrOf};
ghost use Rattle.wire.specs.Checksum.{ones_sum_of};
ghost use Rattle.wire.specs.PlainIpv4.{total_length, time_to_live, IsPlainIpv4};
ghost use Rattle.ipip.specs.Encapsulation.{with_headers, encapsulated_frame};

use crate::ends::Tunnel;
use crate::fault::IpipFault;
use crate::header::{ethernet_header, outer_header};
use wire::{Frame, Ipv4Packet};

/// The bytes of an IPv4 header without options.
const HEADER: usize = 20;

/// The most bytes of an inner packet: with the outer header it fills 1500, the most that Ethernet carries.
pub const MOST_TUNNELLED: u16 = 1480;

/// Puts both headers in place of the frame's Ethernet header, with 20 bytes of its headroom.
fn put_headers(frame: &mut Frame, ethernet: &[u8; 14], outer: &[u8; 20])
    requires headroom { 20 ≤ frame.old.headroom }
    requires ethernet { 14 ≤ length frame.old.bytes }
    ensures { frame.new ≡ with_headers ethernet.now outer.now frame.old }
{
    frame.grow_front(HEADER);
    frame.write(0, ethernet);
    frame.write(14, outer);
}

/// Puts a frame's IPv4 packet into a tunnel (RFC 2003).
///
/// The frame grows by 20 bytes out of its headroom and takes no memory: the tunnel's Ethernet
/// addresses, type `08 00`, the outer header (the inner packet's type of service, its total length
/// plus 20, identification 0, don't fragment, time to live 64, protocol 4), then the old bytes from
/// the inner header on, unchanged. The inner time to live is not lowered.
///
/// Refusals are tested in this order, and each leaves the frame as it was: 83 where the frame holds
/// no whole IPv4 packet without options, 80 where that packet's time to live is 0, 81 where it has
/// more than 1480 bytes, 82 where the headroom is under 20.
pub fn encapsulate(frame: &mut Frame, tunnel: Tunnel) -> Result<(), IpipFault>
    ensures encapsulated { OnOk result (frame.new ≡ encapsulated_frame tunnel frame.old) }

    // when each refusal comes
    ensures not_plain_ipv4 { IsErrOf result IpipFault.NotPlainIpv4 ↔ ¬ IsPlainIpv4 frame.old.bytes }
    ensures ttl_zero { IsErrOf result IpipFault.TtlZero ↔ (IsPlainIpv4 frame.old.bytes × (time_to_live frame.old.bytes ≡ 0)) }
    ensures too_long { IsErrOf result IpipFault.TooLong
        ↔ (IsPlainIpv4 frame.old.bytes × (0 < time_to_live frame.old.bytes) × (1480 < total_length frame.old.bytes)) }
    ensures no_room { IsErrOf result IpipFault.NoRoom
        ↔ (IsPlainIpv4 frame.old.bytes × (0 < time_to_live frame.old.bytes) × (total_length frame.old.bytes ≤ 1480)
        × (frame.old.headroom < 20)) }
    ensures refused_unchanged { OnErr result (frame.new ≡ frame.old) }

    // the outer header verifies, the inner packet is as it was
    ensures header_verifies { OnOk result (ones_sum_of (slice_range frame.new.bytes 14 34) ≡ 0xffff) }
    ensures inner_unchanged { OnOk result (drop 34 frame.new.bytes ≡ drop 14 frame.old.bytes) }

    // what is encapsulated can be encapsulated again, while length and headroom last
    ensures plain_again { OnOk result (IsPlainIpv4 frame.new.bytes) }
    ensures alive_again { OnOk result (time_to_live frame.new.bytes ≡ 64) }
    ensures longer { OnOk result (total_length frame.new.bytes ≡ total_length frame.old.bytes + 20) }
{
    let Some(packet) = Ipv4Packet::of(frame.bytes()) else {
        return Err(IpipFault::NotPlainIpv4);
    };
    if packet.time_to_live == 0 {
        return Err(IpipFault::TtlZero);
    }
    if packet.total_length > MOST_TUNNELLED {
        return Err(IpipFault::TooLong);
    }
    if frame.room() < HEADER {
        return Err(IpipFault::NoRoom);
    }
    let header = outer_header(packet.type_of_service, packet.total_length + 20, &tunnel);
    put_headers(frame, &ethernet_header(&tunnel), &header);
    Ok(())
}
