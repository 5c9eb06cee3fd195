//! Laws of ports: each is the contract of a function that does nothing.

ghost use Rattle.shard_port.specs.PassSessions.{WritesOwnSessions, WritesRefusedOwnSessions};
ghost use Rattle.shard_port.specs.Sessions.{WritesSessions, WritesRefusedSessions, StaysOnePort, IsOutsideAll, LeavesOthersAlone};
ghost use Rattle.shard_port.specs.Sessions.{OpenedServe, OpenedAreOutside, CallsKeepServing};

/// From a port whose worker is outside a shard: what the shard was asked and what it answered is what its journal then has more,
/// between one Enter and one Leave.
pub fn journals_have_the_calls()
    ensures { WritesSessions }
{}

/// From a port whose worker is outside a shard, of a run that ended because a call was refused: what the shard was asked and what it
/// answered is what its journal then has more, between one Enter and one Leave. Where the refused call alone was of this shard, the
/// journal may have an Enter and a Leave more with no call between.
pub fn journals_after_a_refusal()
    ensures { WritesRefusedSessions }
{}

/// Calls leave the port over the same shards, maps and options, for the same worker.
pub fn stays_one_port()
    ensures { StaysOnePort }
{}

/// A port that is finished has left every shard.
pub fn finish_leaves()
    ensures { IsOutsideAll }
{}

/// A worker's session leaves every other worker inside or outside a shard, as it was: so runs of several workers, one after the
/// other, each write their sessions.
pub fn leaves_others_alone()
    ensures { LeavesOthersAlone }
{}

/// Shards that were opened are those of the maps.
pub fn opened_serve()
    ensures { OpenedServe }
{}

/// Nobody is inside a shard that was opened: so what is said of a worker's sessions holds of the first run over them.
pub fn opened_are_outside()
    ensures { OpenedAreOutside }
{}

/// Shards of the maps stay that by every call that sets bytes, of any caller.
pub fn calls_keep_serving()
    ensures { CallsKeepServing }
{}

/// From a pass whose worker is outside the shards: what a run asked of each shard and what it was answered is, between an Enter and a
/// Leave, what the worker's own entries have more once the port is finished.
pub fn own_entries_are_sessions()
    ensures { WritesOwnSessions }
{}

/// From a pass whose worker is outside the shards, of a run that ended because a call was refused: what the run asked of each shard and
/// what it was answered is, between an Enter and a Leave, what the worker's own entries have more once the port is finished. Where the
/// refused call alone was of a shard, there may be an Enter and a Leave with no call between. The journal was full for the call, or for
/// the Enter where the run had not entered the shard.
pub fn own_entries_after_a_refusal()
    ensures { WritesRefusedOwnSessions }
{}
