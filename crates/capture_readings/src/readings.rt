//! The ways in which the bytes of a file are read as a capture.

ghost use Rattle.std.specs.Prelude.{◌≡◌, ◌+◌, ◌≤◌, ◌++◌, [], ◌∷◌, false, length, take, drop, replicate, IfOk, OnOk, MatchOption};
ghost use Rattle.capture_readings.specs.Readings.{HasNoRecord, IsAltered, alters, filled_of, frame_len, is_padded, is_skipped, kept_len};
ghost use Rattle.capture_readings.specs.Readings.{left_over_of, padded_record, read_record, read_rest, skipped_of, unaltered, zeros_for};

use byteorder::{ByteOrder, LittleEndian};
use std::alloc::{AllocError, Global};
use wire::{CAPTURE_HEADER_LEN, MAX_FRAME, RECORD_HEAD_LEN};

/// How the bytes of a file are read as a capture. Where nothing is set, they are the capture.
#[derive(Clone, Copy, Debug, Default)]
pub struct Reading {
    /// Whether records of more than 2048 bytes are skipped.
    pub skip_long: bool,
    /// Whether a record that keeps fewer bytes than its frame had is padded with zeros.
    pub pad_cut: bool,
    /// Whether a record at the end of the file that is cut short is left out.
    pub allow_cut: bool,
}

impl Reading {
    /// Whether anything is set.
    pub fn alters(self) -> bool
        ensures alters { result ≡ alters self }
        ensures unaltered { result ≡ false → self ≡ unaltered }
    {
        self.allow_cut || self.pad_cut || self.skip_long
    }
}

/// A capture file as it is read.
#[derive(Debug, Drop)]
pub struct AlteredCapture {
    /// The bytes that are read.
    pub bytes: Vec<u8>,
    /// How many records were skipped.
    pub skipped: u64,
    /// How many records got zeros for the bytes that their frames had and they do not keep.
    pub padded: u64,
    /// How many bytes of the file's end were left out: those of a record that is cut short.
    pub left_over: usize,
}

/// How many bytes a record says that it keeps.
fn kept_in(bytes: &[u8]) -> u32
    requires { 16 ≤ length bytes.now }
    ensures { result ≡ kept_len bytes.now }
{
    LittleEndian::read_u32(&bytes[8..])
}

/// How many bytes a record says that its frame had.
fn frame_in(bytes: &[u8]) -> u32
    requires { 16 ≤ length bytes.now }
    ensures { result ≡ frame_len bytes.now }
{
    LittleEndian::read_u32(&bytes[12..])
}

/// The length of the record at the front of the rest of a file, if the whole record is there.
pub fn record_len(rest: &[u8]) -> Option<usize>
    ensures { MatchOption result (HasNoRecord rest.now) (λ len. (len ≡ 16 + kept_len rest.now) × (len ≤ length rest.now)) }
{
    if rest.len() < RECORD_HEAD_LEN {
        return None;
    }
    let len = RECORD_HEAD_LEN + kept_in(rest) as usize;
    if rest.len() < len { None } else { Some(len) }
}

/// Whether a record is padded.
fn pads(reading: Reading, one: &[u8]) -> bool
    requires { 16 ≤ length one.now }
    ensures { result ≡ is_padded reading one.now }
{
    reading.pad_cut && kept_in(one) < frame_in(one)
}

/// Whether a record is skipped.
fn skips(reading: Reading, one: &[u8]) -> bool
    requires { 16 ≤ length one.now }
    ensures { result ≡ is_skipped reading one.now }
{
    let len = if pads(reading, one) {
        frame_in(one)
    } else {
        kept_in(one)
    };
    reading.skip_long && len as usize > MAX_FRAME
}

/// 1 for a record that is skipped, else 0.
pub fn skipped_by(reading: Reading, one: &[u8]) -> u64
    requires { 16 ≤ length one.now }
    ensures { result ≡ skipped_of reading (one.now ∷ []) }
{
    if skips(reading, one) { 1 } else { 0 }
}

/// 1 for a record that gets zeros, else 0.
pub fn filled_by(reading: Reading, one: &[u8]) -> u64
    requires { 16 ≤ length one.now }
    ensures { result ≡ filled_of reading (one.now ∷ []) }
{
    if pads(reading, one) && frame_in(one) as usize <= MAX_FRAME {
        1
    } else {
        0
    }
}

/// How many zeros a record gets that is padded.
fn zeros_of(one: &[u8]) -> usize
    requires { 16 ≤ length one.now }
    ensures zeros { result ≡ zeros_for one.now }
    ensures few { result ≤ 2048 }
{
    let frame = frame_in(one) as usize;
    if frame > MAX_FRAME {
        return 0;
    }
    frame.saturating_sub(kept_in(one) as usize)
}

/// Appends zeros.
fn put_zeros(kept: &mut Vec<u8>, count: usize) -> Result<(), AllocError>
    requires { count ≤ 2048 }
    ensures { OnOk result (kept.new.items ≡ kept.old.items ++ replicate count 0) }
{
    kept.resize(kept.len() + count, 0)
}

/// Appends a record as one of its whole frame.
fn put_padded(kept: &mut Vec<u8>, one: &[u8]) -> Result<(), AllocError>
    requires { 16 ≤ length one.now }
    ensures { OnOk result (kept.new.items ≡ kept.old.items ++ padded_record one.now) }
{
    kept.extend_from_slice(&one[..8])?;
    kept.extend_from_slice(&one[12..16])?;
    kept.extend_from_slice(&one[12..])?;
    put_zeros(kept, zeros_of(one))
}

/// Appends what is read of a whole record. It can fail only for lack of memory.
pub fn put_record(reading: Reading, kept: &mut Vec<u8>, one: &[u8]) -> Result<(), AllocError>
    requires { 16 ≤ length one.now }
    ensures { OnOk result (kept.new.items ≡ kept.old.items ++ read_record reading one.now) }
{
    if skips(reading, one) {
        return Ok(());
    }
    if pads(reading, one) {
        return put_padded(kept, one);
    }
    kept.extend_from_slice(one)
}

/// Appends what is read behind the last whole record. Returns how many bytes are not.
fn put_rest(reading: Reading, kept: &mut Vec<u8>, rest: &[u8]) -> Result<usize, AllocError>
    ensures kept { OnOk result (kept.new.items ≡ kept.old.items ++ read_rest reading rest.now) }
    ensures left { IfOk result (λ left. left ≡ left_over_of reading rest.now) }
{
    if reading.allow_cut {
        return Ok(rest.len());
    }
    kept.extend_from_slice(rest)?;
    Ok(0)
}

/// The header of a file, and what follows it. A file that ends in its header is all header.
fn header_and_rest(bytes: &[u8]) -> (&[u8], &[u8])
    ensures header { result.0.now ≡ take 24 bytes.now }
    ensures rest { result.1.now ≡ drop 24 bytes.now }
{
    bytes.split_at(CAPTURE_HEADER_LEN.min(bytes.len()))
}

/// The bytes of a capture file as they are read, and what was altered in them, in this order. `allow_cut`: what follows the last whole
/// record is left out. `pad_cut`: a record that keeps fewer bytes than its frame had gets zeros for these, and its head says so; if the
/// frame had more than 2048 bytes, the head alone is changed, so that the record counts as a long one. `skip_long`: records of more than
/// 2048 bytes are left out. The header stays whatever it says, and so does a record that is cut short, unless `allow_cut` is set. So
/// `read_capture` finds the same fault as in the whole file, unless that is the fault of something that was altered. It can fail only for
/// lack of memory. With `pad_cut` the bytes may be 129 times as many as the file's.
pub fn altered_capture(
    alloc: Global,
    bytes: &[u8],
    reading: Reading,
) -> Result<AlteredCapture, AllocError>
    ensures altered { IfOk result (IsAltered reading bytes.now) }
    ensures unaltered { IfOk result (λ altered. alters reading ≡ false → altered.bytes.items ≡ bytes.now) }
{
    let (header, mut rest) = header_and_rest(bytes);
    let mut kept = Vec::from_slice(alloc, header)?;
    let mut skipped = 0;
    let mut filled = 0;
    'records: while let Some(len) = record_len(rest) {
        let (record, later) = rest.split_at(len);
        put_record(reading, &mut kept, record)?;
        skipped += skipped_by(reading, record);
        filled += filled_by(reading, record);
        rest = later;
    }
    let left_over = put_rest(reading, &mut kept, rest)?;
    Ok(AlteredCapture {
        bytes: kept,
        skipped,
        padded: filled,
        left_over,
    })
}
