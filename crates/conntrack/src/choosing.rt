//! The steering rule in plain Rust.

ghost use Rattle.std.specs.Prelude.{◌≡◌, ℕ, ◌≤◌, Bool, List, length};
ghost use Rattle.wire.specs.FlowForm.{flow_bytes_of};
ghost use Rattle.wire.specs.FlowBytes.{flow_key_bytes};
ghost use Rattle.conntrack.specs.SteeringRule.{IsSteered, fits_tunnel, choice_if_up, choice_of, tracked_choice, ring_choice};
ghost use Rattle.conntrack.specs.SteeringRule.{verdict_of_choice, tunnel_to, counted_verdict, is_set_up, flow_update};

use crate::records::{BackendRecord, FlowRecord, TunnelRecord, VipRecord};
use ipip::{MOST_TUNNELLED, Tunnel};
use semantics::Verdict;
use wire::{FlowKey, Frame, Ipv4Address, flow_of};

/// A backend that a map names, with its record, where it has one.
#[derive(Clone, Copy, Debug, PartialEq, Eq)]
pub struct Assigned {
    pub number: u32,
    pub record: Option<BackendRecord>,
}

/// What the maps say of a frame. Each is None where the map has nothing.
#[derive(Clone, Copy, Debug, PartialEq, Eq)]
pub struct Records {
    /// The service that the frame's flow asks.
    pub vip: Option<VipRecord>,
    /// The tunnel.
    pub tunnel: Option<TunnelRecord>,
    /// The backend that was noted for the flow.
    pub tracked: Option<Assigned>,
    /// The owner of the flow's slot in the lookup table.
    pub slot: Option<Assigned>,
}

/// What becomes of a frame.
#[derive(Clone, Copy, Debug, PartialEq, Eq)]
pub enum Choice {
    /// It is left to the host (the verdict PASS).
    Pass,
    Drop,
    /// It is sent through the tunnel to this backend, which is noted for the flow where `updates_flows` says so.
    Tx {
        number: u32,
        address: Ipv4Address,
        updates_flows: bool,
    },
}

impl Choice {
    /// The verdict of a run that chooses so.
    pub fn verdict(&self) -> Verdict
        ensures { result ≡ verdict_of_choice self.now }
    {
        match self {
            Choice::Pass => Verdict::Pass,
            Choice::Drop => Verdict::Drop,
            Choice::Tx { .. } => Verdict::Tx,
        }
    }

    /// The index of the count that the choice raises by one: Linux's number of its verdict.
    pub fn counted(&self) -> u32
        ensures { result ≡ counted_verdict self.now }
    {
        match self {
            Choice::Drop => 1,
            Choice::Pass => 2,
            Choice::Tx { .. } => 3,
        }
    }

    /// What is put into the map of flows where the choice is of a frame of this flow: the flow's key and the record of the chosen backend,
    /// where that is to be noted.
    pub fn flow_update(&self, flow: &FlowKey) -> Option<([u8; 16], [u8; 8])>
        ensures { (frame : List ℕ) → flow_key_bytes flow.now ≡ flow_bytes_of frame → result ≡ flow_update frame self.now }
    {
        match self {
            Choice::Tx {
                number,
                updates_flows: true,
                ..
            } => Some((flow.bytes(), FlowRecord { backend: *number }.bytes())),
            _ => None,
        }
    }
}

impl TunnelRecord {
    /// The tunnel to a backend's address.
    pub fn to(&self, address: Ipv4Address) -> Tunnel
        ensures { result ≡ tunnel_to self.now address }
    {
        Tunnel {
            source: self.source,
            target: address,
            source_mac: self.source_mac,
            destination_mac: self.destination_mac,
        }
    }
}

/// What becomes of a frame whose records are these.
pub fn choose(frame: &Frame, records: &Records) -> Choice
    ensures { IsSteered frame.now.bytes records.now result }
{
    let bytes = frame.bytes();
    if flow_of(bytes).is_none() {
        return Choice::Pass;
    }
    let Some(vip) = records.vip else {
        return Choice::Pass;
    };
    if !fits(bytes) || !set_up(&records.tunnel) {
        return Choice::Drop;
    }
    if let Some(choice) = tracked(&vip, records) {
        return choice;
    }
    match by_ring(&vip, records) {
        Some(choice) => choice,
        None => Choice::Drop,
    }
}

// Whether the packet can go through the tunnel.
fn fits(frame: &[u8]) -> bool
    requires { 42 ≤ length frame.now }
    ensures { result ≡ fits_tunnel frame.now }
{
    let total = u16::from(frame[16]) * 256 + u16::from(frame[17]);
    frame[22] > 0 && total <= MOST_TUNNELLED
}

fn set_up(tunnel: &Option<TunnelRecord>) -> bool
    ensures { result ≡ is_set_up tunnel.now }
{
    match tunnel {
        Some(tunnel) => tunnel.is_ready,
        None => false,
    }
}

fn tracked(vip: &VipRecord, records: &Records) -> Option<Choice>
    ensures { result ≡ tracked_choice vip.now records.now }
{
    if vip.is_notrack {
        None
    } else {
        chosen(false, &records.tracked)
    }
}

fn by_ring(vip: &VipRecord, records: &Records) -> Option<Choice>
    ensures { result ≡ ring_choice vip.now records.now }
{
    chosen(!vip.is_notrack, &records.slot)
}

fn chosen(updates_flows: bool, assigned: &Option<Assigned>) -> Option<Choice>
    ensures { result ≡ choice_of updates_flows assigned.now }
{
    match assigned {
        Some(assigned) => if_up(assigned.number, updates_flows, &assigned.record),
        None => None,
    }
}

fn if_up(number: u32, updates_flows: bool, backend: &Option<BackendRecord>) -> Option<Choice>
    ensures { result ≡ choice_if_up number updates_flows backend.now }
{
    match backend {
        Some(backend) if backend.is_up => Some(Choice::Tx {
            number,
            address: backend.address,
            updates_flows,
        }),
        _ => None,
    }
}
