//! Laws of the definitions: each is the contract of a function that does nothing.

ghost use Rattle.semantics.specs.CallerLaws.{ConditionIsOwn};
ghost use Rattle.semantics.specs.SystemLaws.{ReachedHistoriesAreLegal};
ghost use Rattle.semantics.specs.SystemRows.{RunOverAnArray, RunOverAHashMap, HeldCellOutlivesItsKey, FullJournalHasRoomForLeave};
ghost use Rattle.semantics.specs.SystemRows.{UnsafeProgramIsRefused};
ghost use Rattle.semantics.specs.TraceRows.{StoresAsk, AtomicsAsk, ShortAtomicsAsk, HelpersAsk, AddressesAsk, SpilledPointersComeBack};
ghost use Rattle.semantics.specs.PlanLimits.{ShardsHavePlans};
ghost use Rattle.semantics.specs.UseLaws.{PresentKeysWereUsed, PresentKeysDiffer, LastUsesDiffer};
ghost use Rattle.semantics.specs.IdLaws.{IdsCountCreations, IdsAreFew};
ghost use Rattle.semantics.specs.Laws.{HasOneReply, LeavesOneState, KeepsLegal, CellsStay, NewKeyHasNextCell, HeldCellStays};
ghost use Rattle.semantics.specs.Laws.{HeldCellIsKept};

/// A call on a shard has one outcome: what it replies and what it leaves.
pub fn one_outcome()
    ensures reply { HasOneReply }
    ensures state { LeavesOneState }
{}

/// What a shard does at a call, with room in its journal, keeps its history legal.
pub fn steps_keep_legal()
    ensures { KeepsLegal }
{}

/// No cell id is given twice: cells stay, and a new key gets the next one.
pub fn ids_are_new()
    ensures stay { CellsStay }
    ensures next { NewKeyHasNextCell }
{}

/// A cell that a worker holds is not freed, also when its key was deleted or evicted.
pub fn held_cell_stays()
    ensures stays { HeldCellStays }
    ensures kept { HeldCellIsKept }
{}

/// Whether a caller may make a call is a matter of its own entries: the entries of others don't count.
pub fn condition_is_own()
    ensures { ConditionIsOwn }
{}

/// A new cell's id is the number of cells that the shard was opened with and of those created since; so ids stay below the
/// opening cells and the entries.
pub fn ids_count_creations()
    ensures count { IdsCountCreations }
    ensures few { IdsAreFew }
{}

/// Each present key was used, and no two were last used by the same entry: so the least recently used key is one.
pub fn last_uses_differ()
    ensures used { PresentKeysWereUsed }
    ensures keys { PresentKeysDiffer }
    ensures uses { LastUsesDiffer }
{}

/// Whatever workers, controller and reclaimer do around a safe image, each shard has one legal history.
pub fn reached_histories_are_legal()
    ensures { ReachedHistoriesAreLegal }
{}

/// Four lists of events that can happen, and that lead each to exactly the history that it is to have: a run over an array, one
/// over a hash map, a cell that is held while its key goes, and a run that a full journal ends.
pub fn events_happen()
    ensures array { RunOverAnArray }
    ensures hash_map { RunOverAHashMap }
    ensures held_cell { HeldCellOutlivesItsKey }
    ensures full_journal { FullJournalHasRoomForLeave }
{}

/// A program that loads through what a lookup answered, and does not test it, is not safe.
pub fn unsafe_program_is_refused()
    ensures { UnsafeProgramIsRefused }
{}

/// What stores, atomic operations, helpers and addresses in values ask of a map, and what its replies make of the registers.
pub fn instructions_ask()
    ensures stores { StoresAsk }
    ensures atomics { AtomicsAsk }
    ensures short_atomics { ShortAtomicsAsk }
    ensures helpers { HelpersAsk }
    ensures addresses { AddressesAsk }
{}

/// A pointer that is stored on the stack is loaded as it was.
pub fn spilled_pointers_come_back()
    ensures { SpilledPointersComeBack }
{}

/// Each shard of an image's maps has a plan within the limits, for every kind of map.
pub fn shards_have_plans()
    ensures { ShardsHavePlans }
{}
