//! The records of the maps. Each is made of its bytes by `of`, whatever they are, and gives them by `bytes`; `of` gives back what `bytes`
//! made.

ghost use Rattle.std.specs.Prelude.{◌≡◌, ◌<◌, ◌^◌, ◌+◌, IfSome};
ghost use Rattle.conntrack.specs.Layouts.{padded_word, flag_number, owner_word, vip_bytes, flow_bytes, ring_bytes, backend_bytes};
ghost use Rattle.conntrack.specs.Layouts.{tunnel_bytes, vip_of, flow_record_of, ring_of, backend_of, tunnel_of, record_word_at, owner_of};
ghost use Rattle.semantics.specs.LittleEndian.{bytes_of_number};

use wire::{Ipv4Address, MacAddress};

/// A service.
#[derive(Clone, Copy, Debug, PartialEq, Eq)]
pub struct VipRecord {
    /// Its flows are not tracked: the lowest bit of the record's flags.
    pub is_notrack: bool,
}

/// The backend that was noted for a flow.
#[derive(Clone, Copy, Debug, PartialEq, Eq)]
pub struct FlowRecord {
    /// Its number.
    pub backend: u32,
}

/// A slot of the lookup table.
#[derive(Clone, Copy, Debug, PartialEq, Eq)]
pub struct RingRecord {
    /// The number of the backend that owns it, below 2^32 - 1. It is kept as one more, so that 0 means none.
    pub owner: Option<u32>,
}

/// A backend.
#[derive(Clone, Copy, Debug, PartialEq, Eq)]
pub struct BackendRecord {
    pub address: Ipv4Address,
    /// Its state is 1.
    pub is_up: bool,
}

/// The tunnel that frames are sent through.
#[derive(Clone, Copy, Debug, PartialEq, Eq)]
pub struct TunnelRecord {
    /// The outer header's source address.
    pub source: Ipv4Address,
    pub source_mac: MacAddress,
    pub destination_mac: MacAddress,
    /// It was set up: its state is 1.
    pub is_ready: bool,
}

impl VipRecord {
    /// Eight bytes: flags 4, zeros 4.
    pub fn bytes(&self) -> [u8; 8]
        ensures { result ≡ vip_bytes self.now }
    {
        padded(flag(self.is_notrack))
    }

    /// What the bytes say; only the lowest bit of the flags is looked at.
    pub fn of(bytes: &[u8; 8]) -> VipRecord
        ensures { result ≡ vip_of bytes.now }
    {
        VipRecord {
            is_notrack: bytes[0] % 2 == 1,
        }
    }
}

impl FlowRecord {
    /// Eight bytes: the backend's number 4, zeros 4.
    pub fn bytes(&self) -> [u8; 8]
        ensures { result ≡ flow_bytes self.now }
    {
        padded(self.backend)
    }

    /// What the bytes say.
    pub fn of(bytes: &[u8; 8]) -> FlowRecord
        ensures { result ≡ flow_record_of bytes.now }
    {
        let [a, b, c, d, ..] = *bytes;
        FlowRecord {
            backend: u32::from_le_bytes([a, b, c, d]),
        }
    }
}

impl RingRecord {
    /// Eight bytes: one more than the owner's number, or 0 for none, 4; zeros 4.
    pub fn bytes(&self) -> [u8; 8]
        requires { IfSome self.now.owner (λ number. number + 1 < 2 ^ 32) }
        ensures { result ≡ ring_bytes self.now }
    {
        match self.owner {
            Some(number) => padded(number + 1),
            None => padded(0),
        }
    }

    /// What the bytes say.
    pub fn of(bytes: &[u8; 8]) -> RingRecord
        ensures { result ≡ ring_of bytes.now }
    {
        let [a, b, c, d, ..] = *bytes;
        let word = u32::from_le_bytes([a, b, c, d]);
        RingRecord {
            owner: if word == 0 { None } else { Some(word - 1) },
        }
    }
}

impl BackendRecord {
    /// Eight bytes: the address 4, then 1 where it is up and 0 where not, 4.
    pub fn bytes(&self) -> [u8; 8]
        ensures { result ≡ backend_bytes self.now }
    {
        let [a, b, c, d] = self.address.0;
        let [e, f, g, h] = state(self.is_up);
        [a, b, c, d, e, f, g, h]
    }

    /// What the bytes say: every state but 1 is down.
    pub fn of(bytes: &[u8; 8]) -> BackendRecord
        ensures { result ≡ backend_of bytes.now }
    {
        let [a, b, c, d, e, f, g, h] = *bytes;
        BackendRecord {
            address: Ipv4Address([a, b, c, d]),
            is_up: u32::from_le_bytes([e, f, g, h]) == 1,
        }
    }
}

impl TunnelRecord {
    /// Twenty-four bytes: the source address 4, the source MAC 6, the destination MAC 6, then 1 where it is ready and 0 where not, 4;
    /// zeros 4.
    pub fn bytes(&self) -> [u8; 24]
        ensures { result ≡ tunnel_bytes self.now }
    {
        let [a, b, c, d] = self.source.0;
        let [e, f, g, h, i, j] = self.source_mac.0;
        let [k, l, m, n, o, p] = self.destination_mac.0;
        let [q, r, s, t] = state(self.is_ready);
        [
            a, b, c, d, e, f, g, h, i, j, k, l, m, n, o, p, q, r, s, t, 0, 0, 0, 0,
        ]
    }

    /// What the bytes say: every state but 1 is not ready.
    pub fn of(bytes: &[u8; 24]) -> TunnelRecord
        ensures { result ≡ tunnel_of bytes.now }
    {
        let [
            a,
            b,
            c,
            d,
            e,
            f,
            g,
            h,
            i,
            j,
            k,
            l,
            m,
            n,
            o,
            p,
            q,
            r,
            s,
            t,
            ..
        ] = *bytes;
        TunnelRecord {
            source: Ipv4Address([a, b, c, d]),
            source_mac: MacAddress([e, f, g, h, i, j]),
            destination_mac: MacAddress([k, l, m, n, o, p]),
            is_ready: u32::from_le_bytes([q, r, s, t]) == 1,
        }
    }
}

// 1 where it holds, else 0.
fn flag(holds: bool) -> u32
    ensures { result ≡ flag_number holds }
{
    if holds { 1 } else { 0 }
}

// A state of 1 or 0 in four bytes, the lowest first.
fn state(holds: bool) -> [u8; 4]
    ensures { result ≡ bytes_of_number 4 (flag_number holds) }
{
    flag(holds).to_le_bytes()
}

// A number in four bytes, the lowest first, then four zeros.
fn padded(number: u32) -> [u8; 8]
    ensures { result ≡ padded_word number }
{
    let [a, b, c, d] = number.to_le_bytes();
    [a, b, c, d, 0, 0, 0, 0]
}
