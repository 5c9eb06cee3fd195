//! Population: backends take turns until each slot of the table has an owner.
ghost use Rattle.std.specs.Prelude.{◌≡◌, ℕ, ◌≢◌, ◌+◌, ◌%◌, ◌<◌, ◌≤◌, length, replicate, Contains, All, AllPairs, IfOk};
ghost use Rattle.maglev.specs.RingSize.{IsRingSize};
ghost use Rattle.maglev.specs.Population.{IsPreference, IsPopulation, IsOnlyPopulation, IsBalanced, preference_numbers};
ghost use Rattle.maglev.specs.Turns.{IsFirstMarked, AreTurnsTaken, owners_of};

use crate::preference::Preference;
use std::alloc::{AllocError, Global};

/// What the table has for a slot with no owner; it is above each place in a list of backends.
pub const FREE: u32 = u32::MAX;

/// The slot that a backend prefers right after this one.
fn next_slot(slot: u32, skip: u32, size: u32) -> u32
    requires slot_below { slot < size }
    requires skip_below { skip < size }
    requires fits { size < 65538 }
    ensures { result ≡ (slot + skip) % size }
{
    let next = slot + skip;
    if next < size { next } else { next - size }
}

/// The first of the preferred slots that is free in the table.
fn first_free(table: &Vec<u32>, preference: Preference, size: u32) -> u32
    requires whole { length table.now.items ≡ size }
    requires served { IsRingSize size }
    requires fits { IsPreference size preference }
    requires some_free { Contains table.now.items FREE }
    ensures first { IsFirstMarked size preference table.now.items FREE result }
    ensures within { result < size }
{
    let mut slot = preference.offset;
    'choices: for _choice in 0..size {
        if table[slot as usize] == FREE {
            return slot;
        }
        slot = next_slot(slot, preference.skip, size);
    }
    unreachable!()
}

/// Lets the backends take turns until no slot is free. The table becomes that of the owners' places in the list,
/// and of each preference list what is left is in the list.
fn take_turns(table: &mut Vec<u32>, backends: &mut Vec<Preference>, size: u32)
    requires served { IsRingSize size }
    requires all_free { table.old.items ≡ replicate size FREE }
    requires some { 0 < length backends.old.items }
    requires few { length backends.old.items ≤ 256 }
    requires fits { All (IsPreference size) backends.old.items }
    ensures { AreTurnsTaken size FREE backends.old.items size table.new.items backends.new.items }
{
    let count = backends.len() as u32;
    'turns: for turn in 0..size {
        let place = turn % count;
        let preference = backends[place as usize];
        let slot = first_free(table, preference, size);
        table[slot as usize] = place;
        backends[place as usize] = Preference {
            offset: slot,
            ..preference
        };
    }
}

/// Puts in place of each owner's place in the list its number.
fn name_owners(table: &mut Vec<u32>, backends: &Vec<Preference>)
    requires { All (λ place. place < length backends.now.items) table.old.items }
    ensures { table.new.items ≡ owners_of backends.now.items table.old.items }
{
    'slots: for owner in table.iter_mut() {
        *owner = backends[*owner as usize].number;
    }
}

/// The table that the backends' turns make, as the owners' numbers.
pub fn populate(
    alloc: Global,
    mut backends: Vec<Preference>,
    size: u32,
) -> Result<Vec<u32>, AllocError>
    requires served { IsRingSize size }
    requires some { 0 < length backends.items }
    requires few { length backends.items ≤ 256 }
    requires fits { All (IsPreference size) backends.items }
    ensures population { IfOk result (λ owners. IsPopulation size backends.items owners.items) }
    ensures only_one { IfOk result (λ owners. IsOnlyPopulation size backends.items owners.items) }
    ensures owned { IfOk result (λ owners. All (Contains (preference_numbers backends.items)) owners.items) }
    ensures balanced { AllPairs (λ number other. number ≢ other) (preference_numbers backends.items) →
        IfOk result (λ owners. IsBalanced (preference_numbers backends.items) owners.items) }
{
    let mut table = vec![in alloc; FREE; size as usize]?;
    take_turns(&mut table, &mut backends, size);
    name_owners(&mut table, &backends);
    Ok(table)
}
