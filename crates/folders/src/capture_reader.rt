//! Records of a capture file, one after another.

ghost use Rattle.std.specs.Prelude.{◌≡◌, ◌+◌, ◌-◌, ◌*◌, ◌^◌, ◌<◌, ◌≤◌, ◌↔◌, ◌⊎◌, ◌++◌};
ghost use Rattle.std.specs.Prelude.{ℕ, [], ◌∷◌, List, None, length};
ghost use Rattle.std.specs.Prelude.{IfErr, IfNone, IfOk, IfSome, IsErrOf, OnErr, OnOk};
ghost use Rattle.wire.specs.declared.records.Sent.{Sent as Record};
ghost use Rattle.wire.specs.CaptureFormat.{BeginsWithRecord};
ghost use Rattle.capture_readings.specs.Readings.{alters};
ghost use Rattle.folders.specs.AlteredReading.{IsReadAlike, raw_of, still_read};
ghost use Rattle.folders.specs.Filling.{IsFilled};
ghost use Rattle.folders.specs.PieceReading.{HasRoom, IsAtFront, IsFileRefused, IsReadTo, ReadsOn, ReadsToEnd, RefusesNext};
ghost use Rattle.folders.specs.PieceReading.{behind_record, most_to_come, read_behind};

use crate::altering::{Alterations, Altering};
use crate::folder::{Folder, FolderFault};
use crate::record_buffer::RecordBuffer;
use crate::record_head::RecordHead;
use crate::window::Window;
use capture_readings::Reading;
use std::alloc::{AllocError, Global};
use std::marker::Model;
use wire::{CAPTURE_HEADER_LEN, CaptureFault, RECORD_HEAD_LEN, check_capture_header};

/// Reads a capture file (pcap 2.4, little-endian, microseconds, Ethernet) record by record. It has a buffer of 256 KiB, a second one where
/// the file is altered, and what it counts; the file is the one that its folder reads in pieces.
#[derive(Drop)]
pub struct CaptureReader {
    window: Window,
    count: u64,
    cut: u64,
    /// What alters the file; none where its bytes are read as they are.
    altering: Option<Altering>,
}

impl Model for CaptureReader {
    ghost use Rattle.std.specs.Prelude.{◌≤◌};
    ghost use Rattle.folders.specs.PieceReading.{ReaderView};

    ghost Value = { ReaderView };

    ghost view = { λ reader. record {
      unread = reader.window;
      count = reader.count;
      cut = reader.cut;
      source = reader.altering;
    } };

    ghost invariant = { λ reader. reader.cut ≤ reader.count };
}

impl CaptureReader {
    /// Opens a capture file and reads its header. None where the folder can only read the file whole.
    ///
    /// Refused with 4 where the file ends in its header (record 0), with 1, 2 and 3 for its magic number, its version and its link type, in
    /// this order; with 7 where the file cannot be opened or read; with 8 for lack of memory.
    pub fn open<D: Folder>(
        alloc: Global,
        folder: &mut D,
        name: &str,
        reading: Reading,
    ) -> Result<Option<CaptureReader>, CaptureFault>
        requires { D.failure_count folder.old < 2 ^ 64 - 1 }
        ensures opened { IfOk result (λ found. IfSome found (IsReadTo reading (D.holds folder.old name.now) (D.is_left folder.new) [])) }
        ensures start { IfOk result (λ found. IfSome found (λ reader. reader.count ≡ 0)) }
        ensures room { IfOk result (λ found. IfSome found (HasRoom (D.most_left folder.new))) }
        ensures fault { IfErr result (λ fault.
            fault ≡ CaptureFault.Device ⊎ fault ≡ CaptureFault.Memory ⊎ IsFileRefused (D.holds folder.old name.now) fault) }
        ensures kept { (other held : List ℕ) → (D.holds folder.old other held ↔ D.holds folder.new other held) }
        ensures begun_kept { (other held : List ℕ) → (D.is_begun folder.old other held ↔ D.is_begun folder.new other held) }
        ensures device { IsErrOf result CaptureFault.Device ↔ (D.failure_count folder.new ≡ D.failure_count folder.old + 1) }
        ensures steady { IsErrOf result CaptureFault.Device ⊎ (D.failure_count folder.new ≡ D.failure_count folder.old) }
    {
        match folder.open(alloc, name) {
            Ok(true) => {}
            Ok(false) => return Ok(None),
            Err(FolderFault::Device) => return Err(CaptureFault::Device),
            Err(FolderFault::Memory) => return Err(CaptureFault::Memory),
        }
        let Ok(mut window) = Window::new(alloc) else {
            return Err(CaptureFault::Memory);
        };
        match window.fill(folder) {
            Ok(()) => {}
            Err(_) => return Err(CaptureFault::Device),
        }
        match check_capture_header(window.unread()) {
            Ok(()) => {}
            Err(fault) => return Err(fault),
        }
        window.skip(CAPTURE_HEADER_LEN);
        match CaptureReader::behind_header(alloc, window, reading) {
            Ok(reader) => Ok(Some(reader)),
            Err(_) => Err(CaptureFault::Memory),
        }
    }

    /// A reader of a file whose header was read, where the window has the bytes behind it.
    fn behind_header(
        alloc: Global,
        window: Window,
        reading: Reading,
    ) -> Result<CaptureReader, AllocError>
        ensures { IfOk result (λ reader. reader ≡ read_behind (alters reading) reading window) }
    {
        let is_altered = reading.alters();
        if is_altered {
            return Ok(CaptureReader {
                window: Window::new(alloc)?,
                count: 0,
                cut: 0,
                altering: Some(Altering::new(alloc, reading, window)),
            });
        }
        Ok(CaptureReader {
            window,
            count: 0,
            cut: 0,
            altering: None,
        })
    }

    /// What its reading altered in the records that were read.
    pub fn alterations(&self) -> Alterations {
        match &self.altering {
            Some(altering) => altering.done(),
            None => Alterations::default(),
        }
    }

    /// Reads on, until a whole record must be unread or the file has ended; in a file that is altered, where nothing is unread.
    #[inline(never)]
    fn read_more<D: Folder>(&mut self, folder: &mut D) -> Result<(), CaptureFault>
        requires { D.failure_count folder.old < 2 ^ 64 - 1 }
        ensures filled { OnOk result (IsFilled (still_read self.old.source (D.is_left folder.old))
            (still_read self.new.source (D.is_left folder.new)) self.old.unread self.new.unread) }
        ensures alike { OnOk result (IsReadAlike self.old.source self.new.source) }
        ensures enough { OnOk result ((0 < length self.new.unread) ⊎ still_read self.new.source (D.is_left folder.new) []) }
        ensures whole { OnOk result (self.new.source ≡ None → (2064 ≤ length self.new.unread) ⊎ D.is_left folder.new []) }
        ensures count { self.new.count ≡ self.old.count }
        ensures cut { self.new.cut ≡ self.old.cut }
        ensures fewer { OnOk result (most_to_come (D.most_left folder.new) self.new ≤ most_to_come (D.most_left folder.old) self.old) }
        ensures plain { IfErr result (λ fault. self.old.source ≡ None → fault ≡ CaptureFault.Device) }
        ensures kept { (other held : List ℕ) → (D.holds folder.old other held ↔ D.holds folder.new other held) }
        ensures begun_kept { (other held : List ℕ) → (D.is_begun folder.old other held ↔ D.is_begun folder.new other held) }
        ensures device { IsErrOf result CaptureFault.Device ↔ (D.failure_count folder.new ≡ D.failure_count folder.old + 1) }
        ensures steady { IsErrOf result CaptureFault.Device ⊎ (D.failure_count folder.new ≡ D.failure_count folder.old) }
    {
        match &mut self.altering {
            Some(altering) => altering.fill(folder, &mut self.window),
            None => match self.window.read_more(folder) {
                Ok(()) => Ok(()),
                Err(_) => Err(CaptureFault::Device),
            },
        }
    }

    /// The same, if it is not known that a whole record is unread.
    #[inline(always)]
    fn fill<D: Folder>(&mut self, folder: &mut D) -> Result<(), CaptureFault>
        requires { D.failure_count folder.old < 2 ^ 64 - 1 }
        ensures filled { OnOk result (IsFilled (still_read self.old.source (D.is_left folder.old))
            (still_read self.new.source (D.is_left folder.new)) self.old.unread self.new.unread) }
        ensures alike { OnOk result (IsReadAlike self.old.source self.new.source) }
        ensures enough { OnOk result ((0 < length self.new.unread) ⊎ still_read self.new.source (D.is_left folder.new) []) }
        ensures whole { OnOk result (self.new.source ≡ None → (2064 ≤ length self.new.unread) ⊎ D.is_left folder.new []) }
        ensures count { self.new.count ≡ self.old.count }
        ensures cut { self.new.cut ≡ self.old.cut }
        ensures fewer { OnOk result (most_to_come (D.most_left folder.new) self.new ≤ most_to_come (D.most_left folder.old) self.old) }
        ensures plain { IfErr result (λ fault. self.old.source ≡ None → fault ≡ CaptureFault.Device) }
        ensures kept { (other held : List ℕ) → (D.holds folder.old other held ↔ D.holds folder.new other held) }
        ensures begun_kept { (other held : List ℕ) → (D.is_begun folder.old other held ↔ D.is_begun folder.new other held) }
        ensures device { IsErrOf result CaptureFault.Device ↔ (D.failure_count folder.new ≡ D.failure_count folder.old + 1) }
        ensures steady { IsErrOf result CaptureFault.Device ⊎ (D.failure_count folder.new ≡ D.failure_count folder.old) }
    {
        if self.window.is_enough() {
            return Ok(());
        }
        self.read_more(folder)
    }

    /// How many records it read.
    pub fn count(&self) -> u64
        ensures { result ≡ self.now.count }
    {
        self.count
    }

    /// How many of these keep fewer bytes than their frames had.
    pub fn cut(&self) -> u64
        ensures cut { result ≡ self.now.cut }
        ensures few { result ≤ self.now.count }
    {
        self.cut
    }

    /// Looks for the next record, and reads on for that where need be: what its head says; none at the end of the file. It goes past no
    /// record.
    ///
    /// Refused with 4 and 5 where the file ends in the record, with 6 where it keeps more than 2048 bytes, and with 7 where the file cannot be
    /// read on. After a fault the reader is of no more use.
    #[inline(always)]
    pub fn find<D: Folder>(&mut self, folder: &mut D) -> Result<Option<RecordHead>, CaptureFault>
        requires failures { D.failure_count folder.old < 2 ^ 64 - 1 }
        requires room { HasRoom (D.most_left folder.old) self.old }
        ensures read { OnOk result (ReadsOn D.holds (D.is_left folder.old) (D.is_left folder.new) self.old self.new []) }
        ensures front { IfOk result (λ found. IfSome found (IsAtFront self.new.unread)) }
        ensures whole { IfOk result (λ found. IfNone found (ReadsToEnd D.holds (D.is_left folder.old) self.old [] self.new.cut)) }
        ensures count { OnOk result (self.new.count ≡ self.old.count) }
        ensures fewer { OnOk result (most_to_come (D.most_left folder.new) self.new ≤ most_to_come (D.most_left folder.old) self.old) }
        ensures fault { IfErr result (λ fault. fault ≡ CaptureFault.Device ⊎ RefusesNext D.holds (D.is_left folder.old) self.old fault) }
        ensures kept { (other held : List ℕ) → (D.holds folder.old other held ↔ D.holds folder.new other held) }
        ensures begun_kept { (other held : List ℕ) → (D.is_begun folder.old other held ↔ D.is_begun folder.new other held) }
        ensures device { IsErrOf result CaptureFault.Device ↔ (D.failure_count folder.new ≡ D.failure_count folder.old + 1) }
        ensures steady { IsErrOf result CaptureFault.Device ⊎ (D.failure_count folder.new ≡ D.failure_count folder.old) }
    {
        match self.fill(folder) {
            Ok(()) => {}
            Err(fault) => return Err(fault),
        }
        if self.window.unread().is_empty() {
            return Ok(None);
        }
        match self.window.head(self.count + 1) {
            Ok(head) => Ok(Some(head)),
            Err(fault) => Err(fault),
        }
    }

    /// The bytes of the frame that the record at the front keeps.
    #[inline(always)]
    pub fn frame(&self, head: RecordHead) -> &[u8]
        requires { IsAtFront self.now.unread head }
        ensures { (sent : Record) → BeginsWithRecord self.now.unread sent → result.now ≡ sent.bytes.items }
    {
        &self.window.unread()[RECORD_HEAD_LEN..RECORD_HEAD_LEN + head.kept]
    }

    /// Goes past the record at the front.
    #[inline(always)]
    pub fn pass(&mut self, head: RecordHead)
        requires front { IsAtFront self.old.unread head }
        requires room { self.old.count < 2 ^ 64 - 1 }
        ensures behind { (sent : Record) → BeginsWithRecord self.old.unread sent → self.new ≡ behind_record self.old sent }
        ensures count { self.new.count ≡ self.old.count + 1 }
        ensures fewer { length self.new.unread + 16 ≤ length self.old.unread }
        ensures raw { length (raw_of self.new.source) ≡ length (raw_of self.old.source) }
    {
        self.window.skip(RECORD_HEAD_LEN + head.kept);
        self.count += 1;
        if head.is_cut {
            self.cut += 1;
        }
    }

    /// Goes past the record at the front, and adds it to those of a buffer. It fails only for lack of memory; then nothing is changed.
    pub fn keep(
        &mut self,
        alloc: Global,
        head: RecordHead,
        buffer: &mut RecordBuffer,
    ) -> Result<(), AllocError>
        requires front { IsAtFront self.old.unread head }
        requires room { self.old.count < 2 ^ 64 - 1 }
        ensures added { OnOk result ((sent : Record) × BeginsWithRecord self.old.unread sent × (self.new ≡ behind_record self.old sent)
            × (buffer.new ≡ buffer.old ++ sent ∷ [])) }
        ensures count { OnOk result (self.new.count ≡ self.old.count + 1) }
        ensures fewer { OnOk result (length self.new.unread + 16 ≤ length self.old.unread) }
        ensures raw { OnOk result (length (raw_of self.new.source) ≡ length (raw_of self.old.source)) }
        ensures refused { OnErr result ((self.new ≡ self.old) × (buffer.new ≡ buffer.old)) }
    {
        buffer.push(alloc, head.seconds, head.micros, self.frame(head))?;
        self.pass(head);
        Ok(())
    }
}
