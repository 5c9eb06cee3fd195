//! A capture file in pieces, as a reading has it that alters it.

ghost use Rattle.std.specs.Prelude.{◌≡◌, ◌≢◌, ◌+◌, ◌-◌, ◌*◌, ◌^◌, ◌<◌, ◌≤◌, ◌↔◌, ◌⊎◌, ℕ, [], List, Some, length, take, drop};
ghost use Rattle.std.specs.Prelude.{IfErr, IfNone, IfOk, IfSome, IsErrOf, OnOk};
ghost use Rattle.capture_readings.specs.Readings.{HasNoRecord, kept_len, read_record, read_rest};
ghost use Rattle.folders.specs.AlteredReading.{AreStillRead};
ghost use Rattle.folders.specs.Filling.{IsFilled};

use crate::folder::Folder;
use crate::window::{MOST_OF_RECORD, Window};
use capture_readings::{Reading, filled_by, put_record, record_len, skipped_by};
use std::alloc::Global;
use std::marker::Model;
use wire::CaptureFault;

/// What a reading altered in the records that were read.
#[derive(Clone, Copy, Debug, Default, PartialEq, Eq)]
pub struct Alterations {
    /// How many records were skipped.
    pub skipped: u64,
    /// How many records got zeros for the bytes that their frames had and they do not keep.
    pub padded: u64,
    /// How many bytes of the file's end were left out: those of a record that is cut short.
    pub left_over: usize,
}

/// The next bytes of a capture file, and what its reading altered so far.
#[derive(Drop)]
pub(crate) struct Altering {
    reading: Reading,
    /// The bytes that its folder returned, and of which nothing was read yet.
    raw: Window,
    /// What is read of one record.
    one: Vec<u8>,
    done: Alterations,
}

impl Model for Altering {
    ghost use Rattle.folders.specs.AlteredReading.{AlteringView};

    ghost Value = { AlteringView };

    ghost view = { λ altering. record { reading = altering.reading; raw = altering.raw } };
}

impl Altering {
    /// Behind the header of a capture file, where these bytes of it were returned.
    pub(crate) fn new(alloc: Global, reading: Reading, raw: Window) -> Altering
        ensures { result ≡ record { reading = reading; raw = raw } }
    {
        Altering {
            reading,
            raw,
            one: Vec::new(alloc),
            done: Alterations::default(),
        }
    }

    /// What was altered so far.
    pub(crate) fn done(&self) -> Alterations {
        self.done
    }

    /// How many bytes the next record has, if the file has a whole one: they are there then.
    ///
    /// Refused with 6 where there is no room for all of them, and with 7 where the file cannot be read on.
    fn next_len<D: Folder>(&mut self, folder: &mut D) -> Result<Option<usize>, CaptureFault>
        requires { D.failure_count folder.old < 2 ^ 64 - 1 }
        ensures filled { OnOk result (IsFilled (D.is_left folder.old) (D.is_left folder.new) self.old.raw self.new.raw) }
        ensures reading { self.new.reading ≡ self.old.reading }
        ensures whole { IfOk result (λ found. IfSome found (λ len. (len ≡ 16 + kept_len self.new.raw) × (len ≤ length self.new.raw))) }
        ensures none { IfOk result (λ found. IfNone found (HasNoRecord self.new.raw × D.is_left folder.new [])) }
        ensures fewer { OnOk result (length self.new.raw + D.most_left folder.new ≤ length self.old.raw + D.most_left folder.old) }
        ensures kept { (name held : List ℕ) → (D.holds folder.old name held ↔ D.holds folder.new name held) }
        ensures begun_kept { (name held : List ℕ) → (D.is_begun folder.old name held ↔ D.is_begun folder.new name held) }
        ensures device { IsErrOf result CaptureFault.Device ↔ (D.failure_count folder.new ≡ D.failure_count folder.old + 1) }
        ensures steady { IsErrOf result CaptureFault.Device ⊎ (D.failure_count folder.new ≡ D.failure_count folder.old) }
    {
        if let Some(len) = record_len(self.raw.unread()) {
            return Ok(Some(len));
        }
        let is_ended = match self.raw.fill_up(folder) {
            Ok(is_ended) => is_ended,
            Err(_) => return Err(CaptureFault::Device),
        };
        match record_len(self.raw.unread()) {
            Some(len) => Ok(Some(len)),
            None => {
                if is_ended {
                    Ok(None)
                } else {
                    Err(CaptureFault::FrameTooLong { record: 0 })
                }
            }
        }
    }

    /// Goes past the next record, which has so many bytes, and puts what is read of it into a window.
    ///
    /// Refused with 6 where it has more than 2048 bytes, and is not skipped; with 8 for lack of memory.
    fn take(&mut self, len: usize, window: &mut Window) -> Result<(), CaptureFault>
        requires whole { len ≡ 16 + kept_len self.old.raw }
        requires there { len ≤ length self.old.raw }
        ensures read { OnOk result (window.new ≡ read_record self.old.reading (take len self.old.raw)) }
        ensures rest { OnOk result (self.new ≡ record { reading = self.old.reading; raw = drop len self.old.raw }) }
        ensures reading { self.new.reading ≡ self.old.reading }
        ensures served { IfErr result (λ fault. fault ≢ CaptureFault.Device) }
    {
        self.one.clear();
        let record = &self.raw.unread()[..len];
        match put_record(self.reading, &mut self.one, record) {
            Ok(()) => {}
            Err(_) => return Err(CaptureFault::Memory),
        }
        if self.one.len() > MOST_OF_RECORD {
            return Err(CaptureFault::FrameTooLong { record: 0 });
        }
        let skipped = skipped_by(self.reading, record);
        let padded = filled_by(self.reading, record);
        self.done.skipped = self.done.skipped.saturating_add(skipped);
        self.done.padded = self.done.padded.saturating_add(padded);
        self.raw.skip(len);
        window.put(&self.one);
        Ok(())
    }

    /// Notes that the file ends behind the bytes that are there. Refused with 5 where some are, unless such an end is left out.
    fn end_here(&mut self) -> Result<(), CaptureFault>
        ensures ended { OnOk result (read_rest self.old.reading self.old.raw ≡ []) }
        ensures same { self.new ≡ self.old }
        ensures served { IfErr result (λ fault. fault ≢ CaptureFault.Device) }
    {
        let left_over = self.raw.unread().len();
        if left_over > 0 && !self.reading.allow_cut {
            return Err(CaptureFault::CutFrame { record: 0 });
        }
        self.done.left_over = left_over;
        Ok(())
    }

    /// Reads on in the file until something is read of a record, or to the file's end, where nothing is unread in a window; it comes into that.
    ///
    /// Refused with 5 where the file ends within a record, unless such an end is left out; with 6 where a record is too long, or there is no
    /// room for one that is skipped; with 7 where the file cannot be read on; with 8 for lack of memory.
    pub(crate) fn fill<D: Folder>(
        &mut self,
        folder: &mut D,
        window: &mut Window,
    ) -> Result<(), CaptureFault>
        requires { D.failure_count folder.old < 2 ^ 64 - 1 }
        ensures filled { OnOk result (IsFilled (AreStillRead self.old (D.is_left folder.old))
            (AreStillRead self.new (D.is_left folder.new)) window.old window.new) }
        ensures enough { OnOk result ((0 < length window.new) ⊎ AreStillRead self.new (D.is_left folder.new) []) }
        ensures reading { self.new.reading ≡ self.old.reading }
        ensures fewer { OnOk result (length window.new + 129 * (length self.new.raw + D.most_left folder.new)
            ≤ length window.old + 129 * (length self.old.raw + D.most_left folder.old)) }
        ensures kept { (name held : List ℕ) → (D.holds folder.old name held ↔ D.holds folder.new name held) }
        ensures begun_kept { (name held : List ℕ) → (D.is_begun folder.old name held ↔ D.is_begun folder.new name held) }
        ensures device { IsErrOf result CaptureFault.Device ↔ (D.failure_count folder.new ≡ D.failure_count folder.old + 1) }
        ensures steady { IsErrOf result CaptureFault.Device ⊎ (D.failure_count folder.new ≡ D.failure_count folder.old) }
    {
        'records: while window.unread().is_empty() {
            let found = match self.next_len(folder) {
                Ok(found) => found,
                Err(fault) => return Err(fault),
            };
            let len = match found {
                Some(len) => len,
                None => return self.end_here(),
            };
            match self.take(len, window) {
                Ok(()) => {}
                Err(fault) => return Err(fault),
            }
        }
        Ok(())
    }
}
