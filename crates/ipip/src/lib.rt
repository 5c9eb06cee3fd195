//! IPv4 packets in an IPv4 tunnel (RFC 2003): an outer header before the packet in an Ethernet frame.
#![tactic(auto)]

mod encapsulation;
mod ends;
mod fault;
mod header;

pub use encapsulation::{MOST_TUNNELLED, encapsulate};
pub use ends::Tunnel;
pub use fault::IpipFault;
