//! Where sent frames go: the addresses of their tunnels, and how many go to each.

ghost use Rattle.std.specs.Prelude.{◌≡◌, ◌+◌, ℕ, IfOk, OnOk};
ghost use Rattle.std.specs.Ordering.{nat_cmp};
ghost use Rattle.std.specs.List.Sorted.{IsStrictlySortedBy};
ghost use Rattle.std.specs.Map.{keys_of};
ghost use Rattle.traffic.specs.Counting.{count_to, HasOneMoreFor, how_many_to, is_target_address, one_if, target_of};

use std::alloc::{AllocError, Global};
use std::collections::BTreeMap;
use wire::{Sent, word_at};

/// The address to which a frame's tunnel leads, as one number with the first byte highest: that of its outer header, if it holds IP in IP
/// (RFC 2003).
pub fn target_of(frame: &[u8]) -> Option<u32>
    ensures { result ≡ target_of frame.now }
{
    if frame.len() < 34 || word_at(frame, 12) != 0x0800 || frame[14] != 0x45 || frame[23] != 4 {
        return None;
    }
    Some(u32::from(word_at(frame, 30)) * 65536 + u32::from(word_at(frame, 32)))
}

/// How many frames go through a tunnel to which address.
#[derive(Drop)]
pub struct Targets {
    counts: BTreeMap<u32, u64>,
}

impl Targets {
    /// No frame was counted.
    pub(crate) fn none(alloc: Global) -> Targets
        ensures { (address : ℕ) → count_to result address ≡ 0 }
    {
        Targets {
            counts: BTreeMap::new(alloc),
        }
    }

    /// How many go to this address.
    pub fn count(&self, address: u32) -> u64
        ensures { result ≡ count_to self.now address }
    {
        self.counts.get(&address).copied().unwrap_or(0)
    }

    /// The addresses, by rising number, each with how many frames go there.
    pub fn list(&self, alloc: Global) -> Result<Vec<(u32, u64)>, AllocError>
        ensures list { IfOk result (λ list. list.items ≡ self.now.counts.entries) }
        ensures rising { IfOk result (λ list. IsStrictlySortedBy nat_cmp (keys_of list.items)) }
    {
        self.counts
            .iter()
            .map(|(address, count)| (*address, *count))
            .collect(alloc)
    }

    /// Counts one frame more. It fails for lack of memory, and where the count would reach 2^64.
    fn add(&mut self, address: u32) -> Result<(), AllocError>
        ensures { OnOk result (HasOneMoreFor self.old self.new address) }
    {
        let Some(count) = self.count(address).checked_add(1) else {
            return Err(AllocError);
        };
        self.counts.insert(address, count)?;
        Ok(())
    }

    /// Counts a frame, if it goes through a tunnel.
    fn note(&mut self, frame: &[u8]) -> Result<(), AllocError>
        ensures { OnOk result
            ((address : ℕ) → count_to self.new address ≡ count_to self.old address + one_if (is_target_address address (target_of frame.now))) }
    {
        match target_of(frame) {
            Some(address) => self.add(address),
            None => Ok(()),
        }
    }

    /// Counts these frames too.
    pub(crate) fn note_all(&mut self, frames: &[Sent]) -> Result<(), AllocError>
        ensures { OnOk result ((address : ℕ) → count_to self.new address ≡ count_to self.old address + how_many_to address frames.now) }
    {
        'frames: for sent in frames {
            self.note(&sent.bytes)?;
        }
        Ok(())
    }
}
