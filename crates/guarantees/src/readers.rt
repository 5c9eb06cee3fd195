//! Programs that only read.

ghost use Rattle.verifier.specs.Readers.{IsReader};
ghost use Rattle.guarantees.specs.SameRuns.{RunsTheSame};
ghost use Rattle.guarantees.specs.ReaderRuns.{OnlyReads, QuietShardsAreAsOpened};
ghost use Rattle.guarantees.specs.ReaderReplays.{SendsAsAtOpening};

use verifier::Verified;

/// A run of an accepted program that only reads (`Verified::is_reader`) is the same on whichever worker: on the same frame at the same
/// time, where it is given the same replies, it makes the same calls, ends with the same verdict after as many instructions, and
/// leaves the same frame.
pub fn readers_run_the_same(verified: &Verified)
    requires reads { IsReader verified.now.code verified.now.states }
    ensures { RunsTheSame verified.now.maps verified.now.code }
{
    let _ = verified.image();
    verified.encodable();
}

/// A run of an accepted program that only reads asks maps for nothing but lookups and loads.
pub fn readers_only_read(verified: &Verified)
    requires reads { IsReader verified.now.code verified.now.states }
    ensures { OnlyReads verified.now.maps verified.now.code }
{
    let _ = verified.image();
    verified.encodable();
}

/// A shard that saw no calls except Enters, Leaves, Lookups, Loads and Reclaims is as it was opened, and each
/// lookup and load in its legal history has the reply that it would have had then.
pub fn quiet_shards_are_as_opened()
    ensures { QuietShardsAreAsOpened }
{}

/// What a replay of an accepted program that only reads sends, where there is no update before it, no command, and no run was stopped:
/// frame by frame what the program's run over maps in which nothing has happened sends. So it is the same for every number of workers.
pub fn readers_send_as_at_opening(verified: &Verified)
    requires reads { IsReader verified.now.code verified.now.states }
    ensures { SendsAsAtOpening verified.now.maps verified.now.code }
{
    readers_only_read(verified);
    readers_run_the_same(verified);
}
