//! The bytes of a file that were read and are not used yet.

ghost use Rattle.std.specs.Prelude.{◌≡◌, ◌+◌, ◌-◌, ◌^◌, ◌<◌, ◌≤◌, ◌↔◌, ◌⊎◌, nat_le, true, ℕ, [], List, length, take, drop};
ghost use Rattle.std.specs.Prelude.{IfErr, IfOk, OnErr, OnOk};
ghost use Rattle.wire.specs.CaptureFormat.{le32_at, RefusesRecord};
ghost use Rattle.folders.specs.Filling.{IsFilled};
ghost use Rattle.folders.specs.PieceReading.{IsAtFront};

use crate::folder::{Folder, FolderFault};
use crate::record_head::RecordHead;
use byteorder::{ByteOrder, LittleEndian};
use std::alloc::{AllocError, Global};
use std::marker::Model;
use wire::{CaptureFault, MAX_FRAME, RECORD_HEAD_LEN};

/// How many bytes a window has room for.
const ROOM: usize = 1 << 18;

/// The most bytes of a record: those of its head, and those that it keeps.
pub(crate) const MOST_OF_RECORD: usize = RECORD_HEAD_LEN + MAX_FRAME;

/// The next bytes of a file that is read in pieces, in a buffer of one size.
#[derive(Drop)]
pub(crate) struct Window {
    bytes: Vec<u8>,
    /// Where the unread bytes begin.
    at: usize,
    /// Where they end.
    end: usize,
}

impl Model for Window {
    ghost use Rattle.std.specs.Prelude.{List, ℕ, ◌≤◌, length};
    ghost use Rattle.std.specs.List.{between};

    ghost Value = { List ℕ };

    ghost view = { λ window. between window.at window.end window.bytes.items };

    ghost invariant = { λ window.
        (window.at ≤ window.end) × (window.end ≤ length window.bytes.items) × (2064 ≤ length window.bytes.items) };
}

/// Reads on into the buffer, which has `end` bytes, until at least `least` are there or the file has ended, and says how many bytes are there
/// then.
fn read_on<D: Folder>(
    folder: &mut D,
    bytes: &mut [u8],
    end: usize,
    least: usize,
) -> Result<usize, FolderFault>
    requires failures { D.failure_count folder.old < 2 ^ 64 - 1 }
    requires room { (end ≤ length bytes.old) × (least ≤ length bytes.old) }
    ensures filled { IfOk result (λ all. IsFilled (D.is_left folder.old) (D.is_left folder.new) (take end bytes.old) (take all bytes.new)) }
    ensures within { IfOk result (λ all. (end ≤ all) × (all ≤ length bytes.new)) }
    ensures enough { IfOk result (λ all. (least ≤ all) ⊎ D.is_left folder.new []) }
    ensures fewer { IfOk result (λ all. all + D.most_left folder.new ≤ end + D.most_left folder.old) }
    ensures kept { (name held : List ℕ) → (D.holds folder.old name held ↔ D.holds folder.new name held) }
    ensures begun_kept { (name held : List ℕ) → (D.is_begun folder.old name held ↔ D.is_begun folder.new name held) }
    ensures steady { OnOk result (D.failure_count folder.new ≡ D.failure_count folder.old) }
    ensures counted { OnErr result (D.failure_count folder.new ≡ D.failure_count folder.old + 1) }
{
    let mut all = end;
    'filling: while all < least {
        match folder.next(&mut bytes[all..]) {
            Ok(0) => return Ok(all),
            Ok(count) => all += count,
            Err(fault) => return Err(fault),
        }
    }
    Ok(all)
}

/// Copies bytes over the first ones of a buffer.
fn put_front(buffer: &mut [u8], bytes: &[u8])
    requires { length bytes.now ≤ length buffer.old }
    ensures front { take (length bytes.now) buffer.new ≡ bytes.now }
    ensures same { length buffer.new ≡ length buffer.old }
{
    buffer[..bytes.len()].copy_from_slice(bytes);
}

/// The 32-bit number at an index, low byte first.
#[inline(always)]
fn le32_at(bytes: &[u8], at: usize) -> u32
    requires { at + 4 ≤ length bytes.now }
    ensures { result ≡ le32_at at bytes.now }
{
    LittleEndian::read_u32(&bytes[at..])
}

impl Window {
    /// A window with no bytes.
    pub(crate) fn new(alloc: Global) -> Result<Window, AllocError>
        ensures { IfOk result (λ window. window ≡ []) }
    {
        let bytes = vec![in alloc; 0; ROOM]?;
        Ok(Window {
            bytes,
            at: 0,
            end: 0,
        })
    }

    /// The unread bytes.
    #[inline(always)]
    pub(crate) fn unread(&self) -> &[u8]
        ensures { result.now ≡ self.now }
    {
        &self.bytes[self.at..self.end]
    }

    /// What the head of the record at the front of the unread bytes says. The record has this number, counted from 1.
    ///
    /// Refused with 4 where the bytes end in the head; with 6 where the record keeps more than 2048 bytes; with 5 where they end in what it
    /// keeps.
    #[inline(always)]
    pub(crate) fn head(&self, number: u64) -> Result<RecordHead, CaptureFault>
        requires { 0 < length self.now }
        ensures front { IfOk result (IsAtFront self.now) }
        ensures fault { IfErr result (RefusesRecord self.now number) }
    {
        let _ = &self.bytes;
        let bytes = self.unread();
        if bytes.len() < RECORD_HEAD_LEN {
            return Err(CaptureFault::CutHead { record: number });
        }
        let seconds = le32_at(bytes, 0);
        let micros = le32_at(bytes, 4);
        let kept = le32_at(bytes, 8);
        let had = le32_at(bytes, 12);
        if kept as usize > MAX_FRAME {
            return Err(CaptureFault::FrameTooLong { record: number });
        }
        if bytes.len() < RECORD_HEAD_LEN + kept as usize {
            return Err(CaptureFault::CutFrame { record: number });
        }
        Ok(RecordHead {
            seconds,
            micros,
            kept: kept as usize,
            is_cut: kept < had,
        })
    }

    /// Goes past this many of the unread bytes.
    #[inline(always)]
    pub(crate) fn skip(&mut self, count: usize)
        requires { count ≤ length self.old }
        ensures { self.new ≡ drop count self.old }
    {
        self.at += count;
    }

    /// Moves the unread bytes to the front of the buffer, and reads on behind them, until a whole record must be unread or the file has ended.
    #[inline(never)]
    pub(crate) fn read_more<D: Folder>(&mut self, folder: &mut D) -> Result<(), FolderFault>
        requires { D.failure_count folder.old < 2 ^ 64 - 1 }
        ensures filled { OnOk result (IsFilled (D.is_left folder.old) (D.is_left folder.new) self.old self.new) }
        ensures enough { OnOk result ((2064 ≤ length self.new) ⊎ D.is_left folder.new []) }
        ensures fewer { OnOk result (length self.new + D.most_left folder.new ≤ length self.old + D.most_left folder.old) }
        ensures kept { (name held : List ℕ) → (D.holds folder.old name held ↔ D.holds folder.new name held) }
        ensures begun_kept { (name held : List ℕ) → (D.is_begun folder.old name held ↔ D.is_begun folder.new name held) }
        ensures steady { OnOk result (D.failure_count folder.new ≡ D.failure_count folder.old) }
        ensures counted { OnErr result (D.failure_count folder.new ≡ D.failure_count folder.old + 1) }
    {
        let unread = self.end - self.at;
        self.bytes.copy_within(self.at..self.end, 0);
        self.at = 0;
        self.end = unread;
        self.end = read_on(folder, &mut self.bytes, unread, MOST_OF_RECORD)?;
        Ok(())
    }

    /// Moves the unread bytes to the front of the buffer, and reads on behind them, until it is full or the file has ended; says whether it is
    /// known that it has.
    pub(crate) fn fill_up<D: Folder>(&mut self, folder: &mut D) -> Result<bool, FolderFault>
        requires { D.failure_count folder.old < 2 ^ 64 - 1 }
        ensures filled { OnOk result (IsFilled (D.is_left folder.old) (D.is_left folder.new) self.old self.new) }
        ensures ended { IfOk result (λ ended. ended ≡ true → D.is_left folder.new []) }
        ensures fewer { OnOk result (length self.new + D.most_left folder.new ≤ length self.old + D.most_left folder.old) }
        ensures kept { (name held : List ℕ) → (D.holds folder.old name held ↔ D.holds folder.new name held) }
        ensures begun_kept { (name held : List ℕ) → (D.is_begun folder.old name held ↔ D.is_begun folder.new name held) }
        ensures steady { OnOk result (D.failure_count folder.new ≡ D.failure_count folder.old) }
        ensures counted { OnErr result (D.failure_count folder.new ≡ D.failure_count folder.old + 1) }
    {
        let unread = self.end - self.at;
        self.bytes.copy_within(self.at..self.at + unread, 0);
        self.at = 0;
        self.end = unread;
        let room = self.bytes.len();
        self.end = read_on(folder, &mut self.bytes, unread, room)?;
        Ok(self.end < room)
    }

    /// Takes these bytes in place of all that are unread.
    pub(crate) fn put(&mut self, bytes: &[u8])
        requires { length bytes.now ≤ 2064 }
        ensures { self.new ≡ bytes.now }
    {
        put_front(&mut self.bytes, bytes);
        self.at = 0;
        self.end = bytes.len();
    }

    /// Whether a whole record must be unread.
    #[inline(always)]
    pub(crate) fn is_enough(&self) -> bool
        ensures { result ≡ nat_le 2064 (length self.now) }
    {
        self.end - self.at >= MOST_OF_RECORD
    }

    /// Reads on, until a whole record must be unread or the file has ended. After a fault it is not known what is unread.
    #[inline(always)]
    pub(crate) fn fill<D: Folder>(&mut self, folder: &mut D) -> Result<(), FolderFault>
        requires { D.failure_count folder.old < 2 ^ 64 - 1 }
        ensures filled { OnOk result (IsFilled (D.is_left folder.old) (D.is_left folder.new) self.old self.new) }
        ensures enough { OnOk result ((2064 ≤ length self.new) ⊎ D.is_left folder.new []) }
        ensures fewer { OnOk result (length self.new + D.most_left folder.new ≤ length self.old + D.most_left folder.old) }
        ensures kept { (name held : List ℕ) → (D.holds folder.old name held ↔ D.holds folder.new name held) }
        ensures begun_kept { (name held : List ℕ) → (D.is_begun folder.old name held ↔ D.is_begun folder.new name held) }
        ensures steady { OnOk result (D.failure_count folder.new ≡ D.failure_count folder.old) }
        ensures counted { OnErr result (D.failure_count folder.new ≡ D.failure_count folder.old + 1) }
    {
        if self.is_enough() {
            return Ok(());
        }
        self.read_more(folder)
    }
}
