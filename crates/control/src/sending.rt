//! Updates made one after the other.

ghost use Rattle.std.specs.Prelude.{◌≡◌, ◌≢◌, ◌∷◌, ◌<◌, ◌+◌, ◌^◌, ℤ, pos, All, IfOk, IfErr, IfSome, OnOk, OnErr};
ghost use Rattle.conntrack.specs.SteeringMaps.{AreSteeringMaps};
ghost use Rattle.control.specs.MapUpdates.{map_update, StandsInArray, HasOwner, AreMade, AreCutShort};
ghost use Rattle.control.specs.RingChanges.{slot_update, slot_updates, IsServedSlot};

use crate::ring_changes::Slot;
use crate::update::Update;
use crate::update_port::{UpdatePort, make};
use conntrack::RingRecord;
use semantics::JournalFull;

/// Makes an update of an array, which is answered 0.
#[tactic(auto, using(crate::proofs::Serving::still_steering))]
pub(crate) fn make_in_array<U: UpdatePort>(
    port: &mut U,
    update: Update,
    size: u32,
) -> Result<(), JournalFull>
    requires serves { AreSteeringMaps size (U.serves port.old) }
    requires array { StandsInArray size update }
    requires owner { HasOwner update }
    ensures gives { OnOk result (U.gives port.old (map_update update) (pos 0) port.new) }
    ensures serves { AreSteeringMaps size (U.serves port.new) }
    ensures refuses { OnErr result (U.refuses port.old (map_update update) port.new) }
{
    match make(port, update) {
        Ok(_answer) => Ok(()),
        Err(full) => Err(full),
    }
}

fn slot_update(slot: Slot) -> Update
    ensures { result ≡ slot_update slot }
{
    Update::Ring {
        slot: slot.place,
        ring: RingRecord { owner: slot.owner },
    }
}

/// Gives each slot its owner, in their order.
fn make_slots<U: UpdatePort>(port: &mut U, slots: &[Slot], size: u32) -> Result<(), JournalFull>
    requires serves { AreSteeringMaps size (U.serves port.old) }
    requires slots { All (IsServedSlot size) slots.now }
    ensures made { OnOk result (AreMade U.gives port.old (slot_updates slots.now) port.new) }
    ensures cut { OnErr result (AreCutShort U.gives U.refuses port.old (slot_updates slots.now) port.new) }
    ensures serves { AreSteeringMaps size (U.serves port.new) }
{
    'slots: for slot in slots {
        match make_in_array(port, slot_update(*slot), size) {
            Ok(()) => {}
            Err(full) => return Err(full),
        }
    }
    Ok(())
}

/// Puts the record, and then sets each slot to its owner.
pub(crate) fn make_all<U: UpdatePort>(
    port: &mut U,
    first: Update,
    slots: &[Slot],
    size: u32,
) -> Result<(), JournalFull>
    requires serves { AreSteeringMaps size (U.serves port.old) }
    requires first { StandsInArray size first }
    requires owner { HasOwner first }
    requires slots { All (IsServedSlot size) slots.now }
    ensures made { OnOk result (AreMade U.gives port.old (first ∷ slot_updates slots.now) port.new) }
    ensures cut { OnErr result (AreCutShort U.gives U.refuses port.old (first ∷ slot_updates slots.now) port.new) }
    ensures serves { AreSteeringMaps size (U.serves port.new) }
{
    match make_in_array(port, first, size) {
        Ok(()) => match make_slots(port, slots, size) {
            Ok(()) => Ok(()),
            Err(full) => Err(full),
        },
        Err(full) => Err(full),
    }
}
