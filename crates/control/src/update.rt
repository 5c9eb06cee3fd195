//! What commands put into the maps of steering.

use conntrack::{BackendRecord, RingRecord, Service, TunnelRecord, VipRecord};

/// An update of a map of steering.
#[derive(Clone, Copy, Debug, PartialEq, Eq)]
pub enum Update {
    /// There is this service.
    Vip { service: Service, vip: VipRecord },
    /// The slot of the lookup table has this owner.
    Ring { slot: u32, ring: RingRecord },
    /// The backend of this number has this address, and is up or down.
    Backend { number: u32, backend: BackendRecord },
    /// Frames go through this tunnel.
    Tunnel { tunnel: TunnelRecord },
}
