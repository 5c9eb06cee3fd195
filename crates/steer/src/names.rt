//! Names of the places and values that the program's lines speak of.

// What a run finds in its context.
/// The packet's start.
pub(crate) const PACKET_START: i16 = 0;
/// The packet's end.
pub(crate) const PACKET_END: i16 = 4;

// Where the frame's fields begin, before it is moved and after: both have their headers in the same places.
/// The frame's type.
pub(crate) const ETHER_TYPE: i16 = 12;
/// The version and the header's length, in one byte.
pub(crate) const VERSION: i16 = 14;
/// The type of service.
pub(crate) const TYPE_OF_SERVICE: i16 = 15;
/// The packet's length.
pub(crate) const TOTAL_LENGTH: i16 = 16;
/// Flags and offset of a fragment.
pub(crate) const FRAGMENT: i16 = 20;
/// The time to live.
pub(crate) const TIME_TO_LIVE: i16 = 22;
/// The protocol.
pub(crate) const PROTOCOL: i16 = 23;
/// The header's checksum.
pub(crate) const HEADER_CHECKSUM: i16 = 24;
/// The source address, and after it the destination address.
pub(crate) const SOURCE: i16 = 26;
/// The destination address.
pub(crate) const DESTINATION: i16 = 30;
/// The two ports.
pub(crate) const PORTS: i16 = 34;
/// The destination's MAC address: its first two bytes.
pub(crate) const DESTINATION_MAC: i16 = 0;
/// Its last four bytes.
pub(crate) const DESTINATION_MAC_REST: i16 = 2;
/// The source's MAC address: its first four bytes.
pub(crate) const SOURCE_MAC: i16 = 6;
/// Its last two bytes.
pub(crate) const SOURCE_MAC_REST: i16 = 10;

// Where values are on the stack, from its upper end.
/// The flow's key, of sixteen bytes.
pub(crate) const FLOW_KEY: i16 = -16;
/// The ports in it.
pub(crate) const FLOW_PORTS: i16 = -8;
/// The protocol in it, and three zeros.
pub(crate) const FLOW_PROTOCOL: i16 = -4;
/// The service's key, of eight bytes.
pub(crate) const SERVICE_KEY: i16 = -24;
/// The port in it, the protocol and a zero.
pub(crate) const SERVICE_PORT: i16 = -20;
/// An index of four bytes.
pub(crate) const INDEX: i16 = -28;
/// The first sixteen bytes of the tunnel's record: the source address.
pub(crate) const TUNNEL: i16 = -48;
/// In it the source's MAC address: its first four bytes.
pub(crate) const TUNNEL_SOURCE_MAC: i16 = -44;
/// Its last two bytes.
pub(crate) const TUNNEL_MACS: i16 = -40;
/// The destination's MAC address: its first two bytes.
pub(crate) const TUNNEL_DESTINATION_MAC: i16 = -38;
/// Its last four bytes.
pub(crate) const TUNNEL_DESTINATION_MAC_REST: i16 = -36;
/// The chosen backend's number, of eight bytes.
pub(crate) const NUMBER: i16 = -56;

// Where words begin in records.
/// A record's first word.
pub(crate) const FIRST_WORD: i16 = 0;
/// The owner's number plus 1, in a slot's record.
pub(crate) const OWNER: i16 = 0;
/// The tunnel's record: its first word.
pub(crate) const TUNNEL_SOURCE_WORD: i16 = 0;
/// Its second word.
pub(crate) const TUNNEL_MACS_WORD: i16 = 8;
/// Its third word.
pub(crate) const TUNNEL_READY_WORD: i16 = 16;

// Values.
/// The bytes of an Ethernet header, an IPv4 header and two ports with what follows them in UDP's header.
pub(crate) const HEADERS: i32 = 42;
/// The type of IPv4, 08 00, as a number of the frame's own byte order.
pub(crate) const IPV4: i32 = 8;
/// Version 4, and a header of five words: no options.
pub(crate) const PLAIN_HEADER: i32 = 69;
/// The fewest bytes of a packet with an IPv4 and a UDP header.
pub(crate) const LEAST_PACKET: i32 = 28;
/// The most bytes of a packet in a frame of 2048.
pub(crate) const MOST_PACKET: i32 = 2034;
/// The bytes of an Ethernet header.
pub(crate) const ETHERNET_HEADER: i32 = 14;
/// "More fragments" and the offset: all bits of flags and offset except the reserved one and "don't fragment", as a number whose low byte
/// is the frame's first.
pub(crate) const FRAGMENT_BITS: i32 = 65343;
/// The protocol TCP.
pub(crate) const TCP: i32 = 6;
/// The protocol UDP.
pub(crate) const UDP: i32 = 17;
/// The most bytes of a packet that goes through the tunnel.
pub(crate) const MOST_TUNNELLED: i32 = ipip::MOST_TUNNELLED as i32;
/// The bytes of the outer header.
pub(crate) const OUTER_HEADER: i32 = 20;
/// The bytes of an Ethernet header and the outer header.
pub(crate) const NEW_HEADERS: i32 = 34;
/// The bytes 40 00 40 04 of the outer header: don't fragment, time to live 64, protocol 4 (IP in IP).
pub(crate) const UNFRAGMENTED_TTL_64_IPIP: i32 = 71303232;
/// The sum of the outer header's two words that never change: 40 00 and 40 04, in the frame's own byte order.
pub(crate) const FIXED_WORDS: i32 = 1152;
/// The lower sixteen bits.
pub(crate) const LOW_HALF: i32 = 65535;
/// The service's flag for no tracking.
pub(crate) const NOTRACK: i32 = 1;
/// The tunnel is set up.
pub(crate) const READY: i32 = 1;
/// The backend is up.
pub(crate) const UP: i32 = 1;
/// A lookup found nothing, or a slot has no owner.
pub(crate) const NOTHING: i32 = 0;
