//! Flows that are sent to another backend than before.

ghost use Rattle.std.specs.Prelude.{◌≡◌, ◌+◌, ◌^◌, ◌<◌, ◌≤◌, ◌∷◌, ◌++◌, [], ℕ};
ghost use Rattle.std.specs.Prelude.{None, IfOk, OnOk, List, length, if◌then◌else◌};
ghost use Rattle.wire.specs.declared.records.Sent.{Sent as Frame};
ghost use Rattle.traffic.specs.Counting.{address_at, one_if};
ghost use Rattle.traffic.specs.Moving.{inner_flow, last_after, last_in, moved_places, moves_by, passage_of};
ghost use Rattle.traffic.specs.Tallies.{AreLast, AreMoves};

use crate::tunnels::target_of;
use std::alloc::{AllocError, Global};
use std::collections::BTreeMap;
use wire::{Sent, word_at};

/// The four bytes at an index as one number, the first byte highest.
pub(crate) fn address_at(frame: &[u8], at: usize) -> u32
    requires { at + 4 ≤ length frame.now }
    ensures { result ≡ address_at at frame.now }
{
    u32::from(word_at(frame, at)) * 65536 + u32::from(word_at(frame, at + 2))
}

/// The flow of the packet within a tunnel as one number: addresses, ports and protocol.
fn inner_flow(frame: &[u8]) -> u128
    requires { 58 ≤ length frame.now }
    ensures { result ≡ inner_flow frame.now }
{
    let source = u128::from(address_at(frame, 46));
    let destination = u128::from(address_at(frame, 50));
    let ports = u128::from(address_at(frame, 54));
    ((source * 4_294_967_296 + destination) * 4_294_967_296 + ports) * 256 + u128::from(frame[43])
}

/// The flow of a frame in a tunnel, and the address to which the tunnel leads.
fn passage_of(frame: &[u8]) -> Option<(u128, u32)>
    ensures { result ≡ passage_of frame.now }
{
    match target_of(frame) {
        Some(target) => {
            if frame.len() < 58 {
                None
            } else {
                Some((inner_flow(frame), target))
            }
        }
        None => None,
    }
}

/// 1 for a frame that is counted.
pub(crate) fn one_if(counted: bool) -> u64
    ensures { result ≡ one_if counted }
{
    if counted { 1 } else { 0 }
}

/// Of each flow, where its last frame went.
#[derive(Drop)]
pub struct LastTargets {
    targets: BTreeMap<u128, u32>,
}

impl LastTargets {
    /// No frame was sent.
    fn none(alloc: Global) -> LastTargets
        ensures { (flow : ℕ) → last_in result flow ≡ None }
    {
        LastTargets {
            targets: BTreeMap::new(alloc),
        }
    }

    /// Notes where a frame goes, and says whether its flow's last frame went elsewhere.
    fn note(&mut self, frame: &[u8]) -> Result<bool, AllocError>
        ensures last { IfOk result (λ moved. (flow : ℕ) → last_in self.new flow ≡ last_after self.old (passage_of frame.now) flow) }
        ensures moved { IfOk result (λ moved. moved ≡ moves_by self.old (passage_of frame.now)) }
    {
        match passage_of(frame) {
            None => Ok(false),
            Some((flow, target)) => {
                let last = self.targets.insert(flow, target)?;
                Ok(last.is_some_and(|last| last != target))
            }
        }
    }

    /// Notes where the next frames go, of which the first has this place, and returns the places of those whose flow's last frame went
    /// elsewhere.
    fn note_all(
        &mut self,
        alloc: Global,
        frames: &[Sent],
        first: usize,
    ) -> Result<Vec<usize>, AllocError>
        requires room { first + length frames.now < 2 ^ 64 }
        ensures last { OnOk result ((past : List Frame) → AreLast past self.old → AreLast (past ++ frames.now) self.new) }
        ensures places { IfOk result (λ places. (past : List Frame) → AreLast past self.old → first ≡ length past →
            moved_places (past ++ frames.now) ≡ moved_places past ++ places.items) }
    {
        let mut places = Vec::new(alloc);
        let mut place = first;
        'frames: for sent in frames {
            let is_moved = self.note(&sent.bytes)?;
            put_place(&mut places, is_moved, place)?;
            place += 1;
        }
        Ok(places)
    }
}

/// Appends a place, if its frame is moved.
fn put_place(places: &mut Vec<usize>, is_moved: bool, place: usize) -> Result<(), AllocError>
    ensures { OnOk result (places.new.items ≡ places.old.items ++ (if is_moved then place ∷ [] else [])) }
{
    if is_moved {
        places.push(place)?;
    }
    Ok(())
}

/// How many of the frames that were noted so far, in their order, went through a tunnel to another address than the last frame of their flow
/// before them.
#[derive(Drop)]
pub(crate) struct Moves {
    table: LastTargets,
    /// How many frames were noted.
    passed: usize,
    count: u64,
}

impl Moves {
    /// No frame was noted.
    pub(crate) fn none(alloc: Global) -> Moves
        ensures { AreMoves [] result }
    {
        Moves {
            table: LastTargets::none(alloc),
            passed: 0,
            count: 0,
        }
    }

    /// How many went elsewhere.
    pub(crate) fn count(&self) -> u64
        ensures { result ≡ self.now.count }
    {
        self.count
    }

    /// Notes the next frames, and returns the places of those that went elsewhere, counted from 0 from the first frame on that was ever noted.
    /// It fails for lack of memory, and where there would be 2^64 frames.
    pub(crate) fn note(&mut self, alloc: Global, frames: &[Sent]) -> Result<Vec<usize>, AllocError>
        ensures moves { OnOk result ((past : List Frame) → AreMoves past self.old → AreMoves (past ++ frames.now) self.new) }
        ensures places { IfOk result (λ places. (past : List Frame) → AreMoves past self.old →
            moved_places (past ++ frames.now) ≡ moved_places past ++ places.items) }
    {
        let first = self.passed;
        let Some(passed) = first.checked_add(frames.len()) else {
            return Err(AllocError);
        };
        let places = self.table.note_all(alloc, frames, first)?;
        let Some(count) = self.count.checked_add(places.len() as u64) else {
            return Err(AllocError);
        };
        self.passed = passed;
        self.count = count;
        Ok(places)
    }
}

/// The places, counted from 0, of the frames that went through a tunnel to another address than the last frame of their flow before them.
/// It fails only for lack of memory.
pub fn moved_places(alloc: Global, frames: &[Sent]) -> Result<Vec<usize>, AllocError>
    ensures { IfOk result (λ places. places.items ≡ moved_places frames.now) }
{
    let mut moves = Moves::none(alloc);
    let places = moves.note(alloc, frames)?;
    Ok(places)
}
