//! Which records are in a part.

ghost use Rattle.std.specs.Prelude.{◌≡◌, ◌+◌, ◌-◌, ◌<◌, ◌≤◌, ◌++◌, ◌∷◌, [], ℕ, length, slice_index, IsTrue};
ghost use Rattle.wire.specs.declared.records.Sent.{Sent as Record};
ghost use Rattle.wire.specs.FlowForm.{flow_bytes_of};
ghost use Rattle.wire.specs.Fnv.{fnv1a64_next, fnv1a64_of};
ghost use Rattle.fleet.specs.Parts.{has_flow_key, heir_of_frame, heir_place, is_in_part, part_behind, part_by, part_of_frame};
ghost use Rattle.fleet.specs.Parts.{records_left, records_of_part};

use crate::part::Part;
use wire::{Capture, Sent, word_at};

/// The byte behind a flow's key, in what is hashed.
const SALT: u8 = 0x70;

/// The one in its place, where the flow's part is lost.
const SECOND_SALT: u8 = 0x6c;

/// The offset basis of 64-bit FNV-1a.
const OFFSET_BASIS: u64 = 0xcbf29ce484222325;

/// The prime of 64-bit FNV-1a.
const PRIME: u64 = 0x100000001b3;

/// Whether a frame has a flow. It is read where it is: a record of another part is given no key of its own.
#[inline(always)]
fn has_flow(frame: &[u8]) -> bool
    ensures has { result ≡ has_flow_key frame.now }
    ensures long { IsTrue result → 42 ≤ length frame.now }
{
    if frame.len() < 42 || frame[12] != 0x08 || frame[13] != 0x00 || frame[14] != 0x45 {
        return false;
    }
    let total_length = word_at(frame, 16);
    if total_length < 28 || frame.len() < 14 + usize::from(total_length) {
        return false;
    }
    word_at(frame, 20) & 0x3fff == 0 && (frame[23] == 6 || frame[23] == 17)
}

/// The hash after one more byte.
#[inline(always)]
fn after_byte(hash: u64, byte: u8) -> u64
    ensures { result ≡ fnv1a64_next hash byte }
{
    (hash ^ u64::from(byte)).wrapping_mul(PRIME)
}

/// The hash after the four bytes at an index.
#[inline(always)]
fn after_four(hash: u64, bytes: &[u8], at: usize) -> u64
    requires { at + 3 < length bytes.now }
    ensures { result ≡ fnv1a64_next (fnv1a64_next (fnv1a64_next (fnv1a64_next hash (slice_index bytes.now at))
        (slice_index bytes.now (at + 1))) (slice_index bytes.now (at + 2))) (slice_index bytes.now (at + 3)) }
{
    let first = after_byte(hash, bytes[at]);
    let second = after_byte(first, bytes[at + 1]);
    let third = after_byte(second, bytes[at + 2]);
    after_byte(third, bytes[at + 3])
}

/// The hash of the key of a frame that has a flow, and of one byte more.
#[inline(always)]
fn hash_of_flow(frame: &[u8], byte: u8) -> u64
    requires { 42 ≤ length frame.now }
    ensures { result ≡ fnv1a64_of (flow_bytes_of frame.now ++ byte ∷ []) }
{
    let source = after_four(OFFSET_BASIS, frame, 26);
    let addresses = after_four(source, frame, 30);
    let ports = after_four(addresses, frame, 34);
    let protocol = after_byte(ports, frame[23]);
    let key = after_byte(after_byte(after_byte(protocol, 0), 0), 0);
    after_byte(key, byte)
}

/// A part of so many, by the hash of the key of a frame that has a flow, and of one byte more.
#[inline(always)]
fn part_by(frame: &[u8], byte: u8, of: u32) -> u32
    requires some { 0 < of }
    requires long { 42 ≤ length frame.now }
    ensures { result ≡ part_by byte of (flow_bytes_of frame.now) }
{
    let hash = hash_of_flow(frame, byte);
    (hash >> 32) as u32 % of
}

/// Which of `of` parts, counted from 0, a frame is in: the one of its flow, by a hash of the flow's key; the first one where it has no flow.
#[inline(always)]
pub fn part_of(frame: &[u8], of: u32) -> u32
    requires { 0 < of }
    ensures part { result ≡ part_of_frame of frame.now }
    ensures below { result < of }
{
    if has_flow(frame) {
        part_by(frame, SALT, of)
    } else {
        0
    }
}

/// The place, among the other parts, of the one that has a frame of the lost part.
fn heir_place(frame: &[u8], others: u32) -> u32
    requires { 0 < others }
    ensures place { result ≡ heir_place others frame.now }
    ensures below { result < others }
{
    if has_flow(frame) {
        part_by(frame, SECOND_SALT, others)
    } else {
        0
    }
}

/// Which part a frame is in that was in part `lost`: another one, by a second hash of the flow's key; the first of the others where it has
/// no flow.
#[inline(never)]
fn heir_of(frame: &[u8], of: u32, lost: u32) -> u32
    requires { 1 < of }
    ensures { result ≡ heir_of_frame of lost frame.now }
{
    let place = heir_place(frame, of - 1);
    if place < lost { place } else { place + 1 }
}

/// Which part a frame is in behind the loss of part `lost`.
pub fn part_behind(frame: &[u8], of: u32, lost: u32) -> u32
    requires { 1 < of }
    ensures { result ≡ part_behind of lost frame.now }
{
    let part = part_of(frame, of);
    if part == lost {
        heir_of(frame, of, lost)
    } else {
        part
    }
}

impl Part {
    /// How many records of the capture come before the loss, behind the first `past`; none where there is no loss.
    #[inline(always)]
    fn left_behind(self, past: usize) -> usize
        ensures { result ≡ records_left self.lost past }
    {
        match self.lost {
            Some(loss) => (loss.from as usize).saturating_sub(past),
            None => 0,
        }
    }

    /// Whether a record of this frame is in the part, where `left` records, this one too, come before the loss.
    #[inline(always)]
    fn has_before(self, left: usize, frame: &[u8]) -> bool
        ensures { (place : ℕ) (sent : Record) → left ≡ records_left self.lost place → sent.bytes.items ≡ frame.now →
            result ≡ is_in_part self.of self.lost self.number place sent }
    {
        let part = part_of(frame, self.of);
        match self.lost {
            Some(loss) if left == 0 && part == loss.part => {
                heir_of(frame, self.of, loss.part) == self.number
            }
            _ => part == self.number,
        }
    }

    /// Whether a record of this frame is in the part, behind the first `past` records of the capture.
    #[inline(always)]
    pub fn has(self, past: usize, frame: &[u8]) -> bool
        ensures { (sent : Record) → sent.bytes.items ≡ frame.now → result ≡ is_in_part self.of self.lost self.number past sent }
    {
        self.has_before(self.left_behind(past), frame)
    }

    /// The part of a capture: its records that are in the part, in order.
    pub fn taken_from(self, capture: Capture) -> Capture
        ensures { result.records.items ≡ records_of_part self.of self.lost self.number capture.records.items }
    {
        let mut records = capture.records;
        let mut left = self.left_behind(0);
        records.retain(
            move |sent: &Sent| -> bool
                ensures has { (place : ℕ) → left.entry ≡ records_left self.lost place →
                    result ≡ is_in_part self.of self.lost self.number place sent.now }
                ensures left { left.exit ≡ left.entry - 1 }
            {
                let has = self.has_before(left, &sent.bytes);
                left = left.saturating_sub(1);
                has
            },
        );
        Capture { records }
    }
}
