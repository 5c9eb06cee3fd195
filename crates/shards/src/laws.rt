//! Laws of the definitions: each is the contract of a function that does nothing.

ghost use Rattle.shards.specs.EntryCounts.{AllEntriesAreSomebodys};

/// Each entry of a legal journal was made by one caller: the controller, the reclaimer, or a worker that the plan has. So the own entries
/// of all of them are as many as the journal has entries.
pub fn all_entries_are_somebodys()
    ensures { AllEntriesAreSomebodys }
{}
