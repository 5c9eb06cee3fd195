//! Files by their names, whole and in pieces.

ghost use Rattle.std.specs.Prelude.{◌≡◌, ◌≢◌, ℕ, ◌+◌, ◌-◌, ◌^◌, ◌<◌, ◌≤◌, ◌==◌, ◌++◌, [], List, length, take};
ghost use Rattle.std.specs.Prelude.{Bool, IfOk, IfErr, OnOk, OnErr, ◌↔◌, IsErrOf, IsTrue};
ghost use Rattle.folders.specs.Fronts.{HasFront, IsFrontOf};
ghost use Rattle.folders.specs.Pieces.{IsOpened, IsPiece};

use std::alloc::{AllocError, Global};
use thiserror::Error;

/// Why a file was not read or written. docs/FAULTS.md says when each comes, in which order, and what it leaves.
#[derive(Clone, Copy, Debug, PartialEq, Eq, Error)]
pub enum FolderFault {
    /// 7: it could not be opened, read or written.
    #[error("fault 7 Device")]
    Device,
    /// 8: memory was refused.
    #[error("fault 8 Memory")]
    Memory,
}

impl FolderFault {
    ghost use Rattle.std.specs.Prelude.{◌≡◌, true};
    ghost use Rattle.faults.specs.Explanations.{is_fault};
    ghost use Rattle.folders.specs.FaultNumber.{folder_fault_number};

    /// The number that the fault's text prints.
    pub fn number(self) -> u8
        ensures number { result ≡ folder_fault_number self }
        ensures known { is_fault result ≡ true }
    {
        match self {
            FolderFault::Device => 7,
            FolderFault::Memory => 8,
        }
    }
}

/// The first bytes of a file.
#[derive(Debug, Drop)]
pub struct Front {
    pub bytes: Vec<u8>,
    /// How many bytes the file has in all.
    pub length: u64,
}

impl Front {
    /// Whether these are all bytes of the file.
    pub fn is_whole(&self) -> bool
        ensures all { IsTrue result → (bytes : List ℕ) (most : ℕ) → IsFrontOf bytes most self.now → bytes ≡ self.now.bytes.items }
        ensures counted { result ≡ (length self.now.bytes.items == self.now.length) }
    {
        self.bytes.len() as u64 == self.length
    }
}

/// Files by their names: in memory, or the system's.
///
/// A file is read and written whole, or in pieces: `open` and then `next` until nothing more comes; `begin`, `add` and then `finish`,
/// before which no file of the name is changed. At most one file is read in pieces at a time, and one of each name made.
pub trait Folder {
    /// The file of a name has these bytes; anything may where the type does not say it.
    ghost holds: { Self → List ℕ → List ℕ → Type 0 };

    /// Two names are those of one file; any two may be where the type does not say it.
    ghost are_one: { Self → List ℕ → List ℕ → Type 0 };

    /// Whether a file of a name is there; either may be where the type does not say.
    ghost has: { Self → List ℕ → Bool → Type 0 };

    /// These bytes are left of the file that is read in pieces; any may be where the type does not say.
    ghost is_left: { Self → List ℕ → Type 0 };

    /// No more bytes than these are still to come of the file that is read in pieces.
    ghost most_left: { Self → ℕ };

    /// The file that is made in pieces under this name has these bytes so far; any may where the type does not say.
    ghost is_begun: { Self → List ℕ → List ℕ → Type 0 };

    /// How many calls failed.
    ghost failure_count: { Self → ℕ };

    /// The bytes of a file.
    fn read(&mut self, alloc: Global, name: &str) -> Result<Vec<u8>, FolderFault>
        requires { failure_count self.old < 2 ^ 64 - 1 }
        ensures bytes { IfOk result (λ bytes. holds self.old name.now bytes.items) }
        ensures kept { (other bytes : List ℕ) → (holds self.old other bytes ↔ holds self.new other bytes) }
        ensures steady { OnOk result (failure_count self.new ≡ failure_count self.old) }
        ensures device { IsErrOf result FolderFault.Device ↔ (failure_count self.new ≡ failure_count self.old + 1) }
        ensures no_device { IsErrOf result FolderFault.Memory → failure_count self.new ≡ failure_count self.old };

    /// The first bytes of a file, at most `most`, and how many it has. It takes no memory for more, however long the file is. A device or a
    /// pipe has no length: the front of one that has more counts as 8 bytes longer than what is returned, and `read` of the same name, if
    /// nothing else is read before, returns the front and the rest.
    fn read_front(&mut self, alloc: Global, name: &str, most: usize) -> Result<Front, FolderFault>
        requires { failure_count self.old < 2 ^ 64 - 1 }
        ensures front { IfOk result (HasFront (holds self.old name.now) most) }
        ensures kept { (other bytes : List ℕ) → (holds self.old other bytes ↔ holds self.new other bytes) }
        ensures steady { OnOk result (failure_count self.new ≡ failure_count self.old) }
        ensures device { IsErrOf result FolderFault.Device ↔ (failure_count self.new ≡ failure_count self.old + 1) }
        ensures no_device { IsErrOf result FolderFault.Memory → failure_count self.new ≡ failure_count self.old };

    /// Makes a file of the bytes, in place of one that has the name already. After a fault that file may be gone.
    fn write(&mut self, alloc: Global, name: &str, bytes: &[u8]) -> Result<(), FolderFault>
        requires { failure_count self.old < 2 ^ 64 - 1 }
        ensures written { OnOk result (holds self.new name.now bytes.now) }
        ensures others { (other bytes : List ℕ) → other ≢ name.now → (holds self.old other bytes ↔ holds self.new other bytes) }
        ensures begun_kept { (other bytes : List ℕ) → (is_begun self.old other bytes ↔ is_begun self.new other bytes) }
        ensures steady { OnOk result (failure_count self.new ≡ failure_count self.old) }
        ensures device { IsErrOf result FolderFault.Device ↔ (failure_count self.new ≡ failure_count self.old + 1) }
        ensures no_device { IsErrOf result FolderFault.Memory → failure_count self.new ≡ failure_count self.old };

    /// Begins to read a file in pieces, in place of one that was read so before. `false` where it can only be read whole, and then none of it
    /// was read; where it can, `open`, `read` and `read_front` of the same name begin again at its beginning, if no other file is opened
    /// before, also of the standard input, a pipe or a device. After `false` and after a fault nothing is left to read in pieces.
    fn open(&mut self, alloc: Global, name: &str) -> Result<bool, FolderFault>
        requires { failure_count self.old < 2 ^ 64 - 1 }
        ensures opened { IfOk result (λ in_pieces. IsTrue in_pieces → IsOpened (holds self.old name.now) (is_left self.new)) }
        ensures bounded { most_left self.new ≤ 2 ^ 40 }
        ensures kept { (other bytes : List ℕ) → (holds self.old other bytes ↔ holds self.new other bytes) }
        ensures begun_kept { (other bytes : List ℕ) → (is_begun self.old other bytes ↔ is_begun self.new other bytes) }
        ensures steady { OnOk result (failure_count self.new ≡ failure_count self.old) }
        ensures device { IsErrOf result FolderFault.Device ↔ (failure_count self.new ≡ failure_count self.old + 1) }
        ensures no_device { IsErrOf result FolderFault.Memory → failure_count self.new ≡ failure_count self.old };

    /// Fills a front of the buffer with the next bytes of the file that is read in pieces, and says how many: none at the end, nor where
    /// none is read.
    ///
    /// Refused with 7, where the file cannot be read on or has more than 2^40 bytes.
    fn next(&mut self, buffer: &mut [u8]) -> Result<usize, FolderFault>
        requires { failure_count self.old < 2 ^ 64 - 1 }
        ensures within { IfOk result (λ count. count ≤ length buffer.new) }
        ensures piece { IfOk result (λ count. IsPiece (is_left self.old) (is_left self.new) (take count buffer.new)) }
        ensures end { IfOk result (λ count. count ≡ 0 → 0 < length buffer.new → is_left self.old [] × is_left self.new []) }
        ensures fewer { IfOk result (λ count. most_left self.new + count ≤ most_left self.old) }
        ensures kept { (other bytes : List ℕ) → (holds self.old other bytes ↔ holds self.new other bytes) }
        ensures begun_kept { (other bytes : List ℕ) → (is_begun self.old other bytes ↔ is_begun self.new other bytes) }
        ensures steady { OnOk result (failure_count self.new ≡ failure_count self.old) }
        ensures only_device { IfErr result (λ fault. fault ≡ FolderFault.Device) }
        ensures counted { OnErr result (failure_count self.new ≡ failure_count self.old + 1) };

    /// Begins to make a file in pieces, in place of one that was begun under this name before, which is removed. `false` where it can only be
    /// written whole. Then, and after a fault, none is begun under it.
    fn begin(&mut self, alloc: Global, name: &str) -> Result<bool, FolderFault>
        requires { failure_count self.old < 2 ^ 64 - 1 }
        ensures begun { IfOk result (λ in_pieces. IsTrue in_pieces → is_begun self.new name.now []) }
        ensures others_begun { (other bytes : List ℕ) → other ≢ name.now → (is_begun self.old other bytes ↔ is_begun self.new other bytes) }
        ensures kept { (other bytes : List ℕ) → (holds self.old other bytes ↔ holds self.new other bytes) }
        ensures left_kept { (bytes : List ℕ) → (is_left self.old bytes ↔ is_left self.new bytes) }
        ensures most_kept { most_left self.new ≡ most_left self.old }
        ensures steady { OnOk result (failure_count self.new ≡ failure_count self.old) }
        ensures device { IsErrOf result FolderFault.Device ↔ (failure_count self.new ≡ failure_count self.old + 1) }
        ensures no_device { IsErrOf result FolderFault.Memory → failure_count self.new ≡ failure_count self.old };

    /// Puts bytes at the end of the file that is made in pieces under this name. After a fault it is removed. Refused with 7 where none is
    /// begun.
    fn add(&mut self, name: &str, bytes: &[u8]) -> Result<(), FolderFault>
        requires { failure_count self.old < 2 ^ 64 - 1 }
        ensures added { OnOk result ((before : List ℕ) → is_begun self.old name.now before →
            is_begun self.new name.now (before ++ bytes.now)) }
        ensures others_begun { (other bytes : List ℕ) → other ≢ name.now → (is_begun self.old other bytes ↔ is_begun self.new other bytes) }
        ensures kept { (other bytes : List ℕ) → (holds self.old other bytes ↔ holds self.new other bytes) }
        ensures left_kept { (bytes : List ℕ) → (is_left self.old bytes ↔ is_left self.new bytes) }
        ensures most_kept { most_left self.new ≡ most_left self.old }
        ensures steady { OnOk result (failure_count self.new ≡ failure_count self.old) }
        ensures device { IsErrOf result FolderFault.Device ↔ (failure_count self.new ≡ failure_count self.old + 1) }
        ensures no_device { IsErrOf result FolderFault.Memory → failure_count self.new ≡ failure_count self.old };

    /// Renames the file that is made in pieces under this name to it, in place of a file that has the name already. After a fault it is
    /// removed, and that file is as it was. Refused with 7 where none is begun.
    fn finish(&mut self, name: &str) -> Result<(), FolderFault>
        requires { failure_count self.old < 2 ^ 64 - 1 }
        ensures written { OnOk result ((bytes : List ℕ) → is_begun self.old name.now bytes → holds self.new name.now bytes) }
        ensures others_begun { (other bytes : List ℕ) → other ≢ name.now → (is_begun self.old other bytes ↔ is_begun self.new other bytes) }
        ensures others { (other bytes : List ℕ) → other ≢ name.now → (holds self.old other bytes ↔ holds self.new other bytes) }
        ensures refused_unchanged { OnErr result ((other bytes : List ℕ) → (holds self.old other bytes ↔ holds self.new other bytes)) }
        ensures left_kept { (bytes : List ℕ) → (is_left self.old bytes ↔ is_left self.new bytes) }
        ensures most_kept { most_left self.new ≡ most_left self.old }
        ensures steady { OnOk result (failure_count self.new ≡ failure_count self.old) }
        ensures device { IsErrOf result FolderFault.Device ↔ (failure_count self.new ≡ failure_count self.old + 1) }
        ensures no_device { IsErrOf result FolderFault.Memory → failure_count self.new ≡ failure_count self.old };

    /// Removes all files that are made in pieces: no file of their names was changed.
    fn give_up(&mut self)
        ensures kept { (other bytes : List ℕ) → (holds self.old other bytes ↔ holds self.new other bytes) }
        ensures left_kept { (bytes : List ℕ) → (is_left self.old bytes ↔ is_left self.new bytes) }
        ensures most_kept { most_left self.new ≡ most_left self.old }
        ensures steady { failure_count self.new ≡ failure_count self.old };

    /// Whether two names are those of one file: one name twice, or two names that the folder knows to be one file's. The name that a file has
    /// while it is made under the first name counts as its own.
    fn is_same(&self, name: &str, other: &str) -> bool
        ensures one { IsTrue result → are_one self.now name.now other.now }
        ensures itself { name.now ≡ other.now → IsTrue result };

    /// Whether an ordinary file of this name is there now, which a file that is made under this name would replace.
    fn has(&self, name: &str) -> bool
        ensures { has self.now name.now result };

    /// How many calls of this folder failed so far.
    fn failures(&self) -> u64
        ensures { result ≡ failure_count self.now };

    /// A line for people on the last call that failed, which was of the file of this name: what could not be done, and why.
    fn complaint(&self, alloc: Global, name: &str) -> Result<String, AllocError>;
}
