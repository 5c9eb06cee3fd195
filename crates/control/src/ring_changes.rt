//! Which slots of the lookup table change hands.

ghost use Rattle.std.specs.Prelude.{◌≡◌, length, slice_get, IfOk};
ghost use Rattle.control.specs.RingChanges.{is_same_owner, slot_change, changes_below, slot_list};

use maglev::Ring;
use std::alloc::{AllocError, Global};

/// A slot of the lookup table that changes hands.
#[derive(Clone, Copy, Debug, PartialEq, Eq)]
pub struct Slot {
    /// Which slot it is.
    pub place: u32,
    /// The number of its new owner, if it has one.
    pub owner: Option<u32>,
}

fn is_same_owner(one: Option<u32>, other: Option<u32>) -> bool
    ensures { result ≡ is_same_owner one other }
{
    match (one, other) {
        (None, None) => true,
        (Some(owner), Some(other)) => owner == other,
        _ => false,
    }
}

fn owner_at(owners: &[u32], place: u32) -> Option<u32>
    ensures { result ≡ slice_get owners.now place }
{
    owners.get(place as usize).copied()
}

/// The slot, if its owner changes.
fn change_at(old: &[u32], new: &[u32], place: u32) -> Option<Slot>
    ensures { slot_list result ≡ slot_change old.now new.now place }
{
    let owner = owner_at(new, place);
    if is_same_owner(owner_at(old, place), owner) {
        None
    } else {
        Some(Slot { place, owner })
    }
}

/// The slots below `size` whose owner changes, rising. A table without owners has none anywhere.
pub(crate) fn changes(
    alloc: Global,
    old: &[u32],
    new: &[u32],
    size: u32,
) -> Result<Vec<Slot>, AllocError>
    ensures { IfOk result (λ slots. slots.items ≡ changes_below old.now new.now size) }
{
    let mut slots = Vec::new(alloc);
    'places: for place in 0..size {
        if let Some(slot) = change_at(old, new, place) {
            slots.push(slot)?;
        }
    }
    Ok(slots)
}

/// The slots whose owner differs from the first ring to the second, rising, each with its owner in the second. Both rings have one size.
/// It fails only where memory is refused.
pub fn ring_updates(alloc: Global, old: &Ring, new: &Ring) -> Result<Vec<Slot>, AllocError>
    requires { length old.now ≡ length new.now }
    ensures { IfOk result (λ slots. slots.items ≡ changes_below old.now new.now (length new.now)) }
{
    changes(alloc, old.owners(), new.owners(), new.size())
}
