//! Where the rule comes to its end for a frame, and how many calls on the maps that costs.

ghost use Rattle.std.specs.Prelude.{◌<◌};

use conntrack::{Assigned, Records};

/// What was noted for a flow.
#[derive(Clone, Copy, Debug, PartialEq, Eq)]
pub(super) enum Tracked {
    /// The service has no tracking.
    Off,
    Nothing,
    /// A number without a record.
    Absent,
    NotUp,
    Up,
}

/// The owner of a flow's slot.
#[derive(Clone, Copy, Debug, PartialEq, Eq)]
pub(super) enum Owner {
    Nobody,
    /// A number without a record.
    Absent,
    NotUp,
    Up,
}

/// Where the rule ends: at the frame's form, at its service, at the guards, or at a backend or the lack of one.
#[derive(Clone, Copy, Debug, PartialEq, Eq)]
pub(super) enum Ending {
    /// Fewer than 42 bytes.
    Short,
    Type,
    Version,
    /// A packet of fewer than 28 bytes.
    ShortPacket,
    /// A packet that ends behind the frame.
    Cut,
    Fragment,
    Protocol,
    NoService,
    /// A time to live of 0.
    Dead,
    /// A packet of more than 1480 bytes.
    Long,
    NoTunnel,
    Noted,
    Ring { tracked: Tracked, owner: Owner },
}

/// What the rule looks at first that keeps the frame from having a flow; the frame has one where that is nothing.
fn without_flow(frame: &[u8]) -> Option<Ending> {
    if frame.len() < 42 {
        return Some(Ending::Short);
    }
    let total = usize::from(frame[16]) * 256 + usize::from(frame[17]);
    if frame[12] != 8 || frame[13] != 0 {
        Some(Ending::Type)
    } else if frame[14] != 0x45 {
        Some(Ending::Version)
    } else if total < 28 {
        Some(Ending::ShortPacket)
    } else if 14 + total > frame.len() {
        Some(Ending::Cut)
    } else if frame[20] % 64 != 0 || frame[21] != 0 {
        Some(Ending::Fragment)
    } else if frame[23] != 6 && frame[23] != 17 {
        Some(Ending::Protocol)
    } else {
        None
    }
}

/// The same of the guards, for a frame of at least 42 bytes.
fn guarded(frame: &[u8], records: &Records) -> Option<Ending> {
    if frame.len() < 42 || records.vip.is_none() {
        return Some(Ending::NoService);
    }
    let total = usize::from(frame[16]) * 256 + usize::from(frame[17]);
    let is_ready = match records.tunnel {
        Some(tunnel) => tunnel.is_ready,
        None => false,
    };
    if frame[22] == 0 {
        Some(Ending::Dead)
    } else if total > 1480 {
        Some(Ending::Long)
    } else if !is_ready {
        Some(Ending::NoTunnel)
    } else {
        None
    }
}

fn tracked_by(records: &Records) -> Tracked {
    if let Some(vip) = records.vip
        && vip.is_notrack
    {
        return Tracked::Off;
    }
    match records.tracked {
        Some(
            Assigned {
                record: Some(backend),
                ..
            },
        ) if backend.is_up => Tracked::Up,
        Some(
            Assigned {
                record: Some(_),
                ..
            },
        ) => Tracked::NotUp,
        Some(Assigned { record: None, .. }) => Tracked::Absent,
        None => Tracked::Nothing,
    }
}

fn owner_by(records: &Records) -> Owner {
    match records.slot {
        Some(
            Assigned {
                record: Some(backend),
                ..
            },
        ) if backend.is_up => Owner::Up,
        Some(
            Assigned {
                record: Some(_),
                ..
            },
        ) => Owner::NotUp,
        Some(Assigned { record: None, .. }) => Owner::Absent,
        None => Owner::Nobody,
    }
}

impl Tracked {
    fn place(self) -> usize
        ensures { result < 4 }
    {
        match self {
            Tracked::Off => 0,
            Tracked::Nothing => 1,
            Tracked::Absent => 2,
            _ => 3,
        }
    }

    /// The calls on the flows, without an Update; and on the backends, without Enter and Leave.
    fn calls(self) -> (u64, u64) {
        match self {
            // Not looked at.
            Tracked::Off => (0, 0),
            // Enter, Lookup, Leave.
            Tracked::Nothing => (3, 0),
            // Enter, Lookup, Load, Leave; Lookup.
            Tracked::Absent => (4, 1),
            // The same; Lookup, Load.
            Tracked::NotUp => (4, 2),
            Tracked::Up => (4, 2),
        }
    }
}

impl Owner {
    fn place(self) -> usize
        ensures { result < 4 }
    {
        match self {
            Owner::Nobody => 0,
            Owner::Absent => 1,
            Owner::NotUp => 2,
            Owner::Up => 3,
        }
    }

    /// The calls on the backends, without Enter and Leave.
    fn calls(self) -> u64 {
        match self {
            Owner::Nobody => 0,
            // Lookup.
            Owner::Absent => 1,
            // Lookup, Load.
            Owner::NotUp => 2,
            Owner::Up => 2,
        }
    }
}

/// Enter and Leave of the backends, where anything else is asked there.
fn visit(calls: u64) -> u64 {
    if calls > 0 { 2 } else { 0 }
}

/// The calls of a run that looks at the slot's owner, beside those of the service (4), the tunnel (6), the ring (4) and the count (4).
fn ring_calls(tracked: Tracked, owner: Owner) -> u64 {
    let (flows, noted) = tracked.calls();
    let updates = u64::from(owner == Owner::Up && tracked != Tracked::Off);
    let backends = noted.saturating_add(owner.calls());
    flows
        .saturating_add(updates)
        .saturating_add(backends)
        .saturating_add(visit(backends))
}

impl Ending {
    pub(super) fn of(frame: &[u8], records: &Records) -> Ending {
        if let Some(ending) = without_flow(frame) {
            return ending;
        }
        if let Some(ending) = guarded(frame, records) {
            return ending;
        }
        match tracked_by(records) {
            Tracked::Up => Ending::Noted,
            tracked => Ending::Ring {
                tracked,
                owner: owner_by(records),
            },
        }
    }

    /// The ending's number, from 0.
    pub(super) fn place(self) -> usize
        ensures { result < 28 }
    {
        match self {
            Ending::Short => 0,
            Ending::Type => 1,
            Ending::Version => 2,
            Ending::ShortPacket => 3,
            Ending::Cut => 4,
            Ending::Fragment => 5,
            Ending::Protocol => 6,
            Ending::NoService => 7,
            Ending::Dead => 8,
            Ending::Long => 9,
            Ending::NoTunnel => 10,
            Ending::Noted => 11,
            Ending::Ring { tracked, owner } => 12 + tracked.place() * 4 + owner.place(),
        }
    }

    /// How many calls a run makes that ends here, with Enter and Leave: of each map each record is looked up once, and loaded in words of
    /// eight bytes.
    pub(super) fn calls(self) -> u64 {
        match self {
            // The service's Enter, Lookup, Leave; the count's Enter, Lookup, Atomic, Leave.
            Ending::NoService => 3 + 4,
            // A Load more of the service.
            Ending::Dead => 4 + 4,
            Ending::Long => 4 + 4,
            // The tunnel's Enter, Lookup, Load of its state, Leave.
            Ending::NoTunnel => 4 + 4 + 4,
            // Two Loads more of the tunnel; Enter, Lookup, Load, Leave of the flow and of the backend.
            Ending::Noted => 4 + 6 + 4 + 4 + 4,
            Ending::Ring { tracked, owner } => {
                ring_calls(tracked, owner).saturating_add(4 + 6 + 4 + 4)
            }
            // The count alone.
            _ => 4,
        }
    }
}
