//! Laws of journals and contents: each is the contract of a function that does nothing.

ghost use Rattle.shard_core.specs.Laws.{LeaveHasRoom};
ghost use Rattle.shard_core.specs.Listing.{ContentsAreOne};

/// A run inside always has room for its Leave.
pub fn leave_has_room()
    ensures { LeaveHasRoom }
{}

/// What a shard or a map holds is one list: `Shard::contents` and the like return the only one that there is.
pub fn contents_are_one()
    ensures { ContentsAreOne }
{}
