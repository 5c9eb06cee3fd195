//! Files in memory, whose bytes contracts know.

ghost use Rattle.std.specs.Prelude.{◌≡◌, ◌-◌, ◌≤◌, ℕ, List, Some, None, is_some, option_map, take, drop, length};
ghost use Rattle.std.specs.BTreeMap.{get_by_text};

use crate::folder::{Folder, FolderFault, Front};
use std::alloc::{AllocError, Global};
use std::collections::BTreeMap;
use wire::MOST_GIVEN;

/// Files in memory. A file that is not there counts as a failure of the device.
#[derive(Drop)]
pub struct MemoryFolder {
    alloc: Global,
    files: BTreeMap<String, Vec<u8>>,
    failures: u64,
    /// The bytes of the file that is read in pieces, as they were when it was opened.
    opened: Vec<u8>,
    /// How many of these were read.
    given: usize,
    /// The files that are made in pieces.
    begun: BTreeMap<String, Vec<u8>>,
    ghost within: { given ≤ length opened.items },
}

impl MemoryFolder {
    /// A folder with no files.
    pub fn new(alloc: Global) -> MemoryFolder
        ensures empty { (name : List ℕ) → get_by_text result.files name ≡ None }
        ensures no_failures { result.failures ≡ 0 }
    {
        MemoryFolder {
            alloc,
            files: BTreeMap::new(alloc),
            failures: 0,
            opened: Vec::new(alloc),
            given: 0,
            begun: BTreeMap::new(alloc),
        }
    }
}

impl Folder for MemoryFolder {
    ghost holds = { λ folder name bytes. option_map (λ v. v.items) (get_by_text folder.files name) ≡ Some bytes };

    ghost are_one = { λ _ name other. name ≡ other };

    ghost has = { λ folder name answer. answer ≡ is_some (get_by_text folder.files name) };

    ghost is_left = { λ folder bytes. bytes ≡ drop folder.given folder.opened.items };

    ghost most_left = { λ folder. length folder.opened.items - folder.given };

    ghost is_begun = { λ folder name bytes. option_map (λ v. v.items) (get_by_text folder.begun name) ≡ Some bytes };

    ghost failure_count = { λ folder. folder.failures };

    fn read(&mut self, alloc: Global, name: &str) -> Result<Vec<u8>, FolderFault> {
        let Some(bytes) = self.files.get(name) else {
            self.failures += 1;
            return Err(FolderFault::Device);
        };
        match Vec::from_slice(alloc, bytes) {
            Ok(bytes) => Ok(bytes),
            Err(_) => Err(FolderFault::Memory),
        }
    }

    fn read_front(&mut self, alloc: Global, name: &str, most: usize) -> Result<Front, FolderFault> {
        let Some(bytes) = self.files.get(name) else {
            self.failures += 1;
            return Err(FolderFault::Device);
        };
        let length = bytes.len() as u64;
        match Vec::from_slice(alloc, first(bytes, most)) {
            Ok(bytes) => Ok(Front { bytes, length }),
            Err(_) => Err(FolderFault::Memory),
        }
    }

    fn write(&mut self, alloc: Global, name: &str, bytes: &[u8]) -> Result<(), FolderFault> {
        let Ok(name) = String::from_str(alloc, name) else {
            return Err(FolderFault::Memory);
        };
        let Ok(bytes) = Vec::from_slice(alloc, bytes) else {
            return Err(FolderFault::Memory);
        };
        match self.files.insert(name, bytes) {
            Ok(_) => Ok(()),
            Err(_) => Err(FolderFault::Memory),
        }
    }

    fn open(&mut self, alloc: Global, name: &str) -> Result<bool, FolderFault> {
        self.given = 0;
        self.opened = Vec::new(alloc);
        let Some(bytes) = self.files.get(name) else {
            self.failures += 1;
            return Err(FolderFault::Device);
        };
        if bytes.len() as u64 > MOST_GIVEN {
            self.failures += 1;
            return Err(FolderFault::Device);
        }
        match Vec::from_slice(alloc, bytes) {
            Ok(bytes) => {
                self.opened = bytes;
                Ok(true)
            }
            Err(_) => Err(FolderFault::Memory),
        }
    }

    fn next(&mut self, buffer: &mut [u8]) -> Result<usize, FolderFault> {
        let left = &self.opened[self.given..];
        let count = left.len().min(buffer.len());
        buffer[..count].copy_from_slice(&left[..count]);
        self.given += count;
        Ok(count)
    }

    fn begin(&mut self, alloc: Global, name: &str) -> Result<bool, FolderFault> {
        let _ = self.begun.remove(name);
        let Ok(name) = String::from_str(alloc, name) else {
            return Err(FolderFault::Memory);
        };
        match self.begun.insert(name, Vec::new(alloc)) {
            Ok(_) => Ok(true),
            Err(_) => Err(FolderFault::Memory),
        }
    }

    fn add(&mut self, name: &str, bytes: &[u8]) -> Result<(), FolderFault> {
        let Some(mut begun) = self.begun.remove(name) else {
            self.failures += 1;
            return Err(FolderFault::Device);
        };
        let Ok(name) = String::from_str(self.alloc, name) else {
            return Err(FolderFault::Memory);
        };
        if begun.extend_from_slice(bytes).is_err() {
            return Err(FolderFault::Memory);
        }
        match self.begun.insert(name, begun) {
            Ok(_) => Ok(()),
            Err(_) => Err(FolderFault::Memory),
        }
    }

    fn finish(&mut self, name: &str) -> Result<(), FolderFault> {
        let Some(bytes) = self.begun.remove(name) else {
            self.failures += 1;
            return Err(FolderFault::Device);
        };
        let Ok(name) = String::from_str(self.alloc, name) else {
            return Err(FolderFault::Memory);
        };
        match self.files.insert(name, bytes) {
            Ok(_) => Ok(()),
            Err(_) => Err(FolderFault::Memory),
        }
    }

    fn give_up(&mut self) {
        self.begun.clear();
    }

    fn is_same(&self, name: &str, other: &str) -> bool {
        name == other
    }

    fn has(&self, name: &str) -> bool {
        self.files.get(name).is_some()
    }

    fn failures(&self) -> u64 {
        self.failures
    }

    fn complaint(&self, alloc: Global, name: &str) -> Result<String, AllocError> {
        format!(in alloc; "cannot open {name}: there is no such file")
    }
}

/// The first `most` bytes, or all where there are fewer.
fn first(bytes: &[u8], most: usize) -> &[u8]
    ensures { result.now ≡ take most bytes.now }
{
    if most < bytes.len() {
        &bytes[..most]
    } else {
        bytes
    }
}
