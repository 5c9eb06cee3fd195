//! What holds of counts, of runs of the shipped program and of its replays, as contracts of functions that do nothing.

ghost use Rattle.std.specs.Prelude.{◌≡◌, [], List};
ghost use Rattle.std.specs.List.{AllByRecursion};
ghost use Rattle.maglev.specs.RingSize.{IsRingSize};
ghost use Rattle.machine.specs.Running.{program_of};
ghost use Rattle.semantics.specs.ShardPlan.{AreOptions};
ghost use Rattle.semantics.specs.declared.options.Options.{Options};
ghost use Rattle.wire.specs.declared.records.Sent.{Sent};
ghost use Rattle.control.specs.declared.command.Command.{Command};
ghost use Rattle.actors.specs.Accounted.{IsAccounted};
ghost use Rattle.actors.specs.declared.outcome.Outcome.{Outcome};
ghost use Rattle.steer.specs.ShippedProgram.{sized_image};
ghost use Rattle.steered_replays.specs.Counting.{CountsAreExact, LookupsOfArraysFind};
ghost use Rattle.steered_replays.specs.SteeredRuns.{RunsAreSteered, RefusedRunsAreSteered, ReplaysAreSteered};
ghost use Rattle.steered_replays.specs.SteeredRuns.{FatesStand, IsSteeredReplay};
ghost use Rattle.actors.specs.Captured.{IsCaptured};
ghost use Rattle.steered_replays.specs.StickyFlows.{NotesAreFound, NotedFlowsStick};
ghost use Rattle.steered_replays.specs.StickyReplays.{FlowsStayInReplays};
ghost use Rattle.steered_replays.specs.StickyRow.{StickyRow};
ghost use Rattle.steered_replays.specs.LastWords.{LastWordsFollow};
ghost use Rattle.steered_replays.specs.TablesAtEnd.{MomentsExist, TablesFollow, TablesAreLeft, ServicesFollow, ServicesAreLeft};
ghost use Rattle.steered_replays.specs.TablesAtEnd.{MetNoFullJournal, AreServices, AreTablesAtEnd, carried_out, maps_at_end};
ghost use Rattle.steered_replays.specs.Fleets.{SameTables, OwnersAreSentTo, SomeAreSentTo, FramesAreSent, StrangersAgree, StrangersMove};
ghost use Rattle.steered_replays.specs.Fleets.{StrangersMoveInReplays};
ghost use Rattle.steered_replays.specs.StrangerRuns.{MomentsLieAnywhere, StrangersAreSent, StrangersMoveBetweenRuns};
ghost use Rattle.steered_replays.specs.StrangerRow.{StrangerRow};
ghost use Rattle.steered_replays.specs.Totals.{AreTotals, TotalsAreExact};

use conntrack::laws::{finished_runs_are_results, flows_stick};
use steer::laws::steers;
use verifier::Verified;

/// In an array's shard that saw no calls except to find, read and raise counts, each cell holds how often it was raised; and each
/// lookup of an index that the array has finds that index's cell.
pub fn counts_are_exact()
    ensures counts { CountsAreExact }
    ensures lookups { LookupsOfArraysFind }
{}

/// A run of the shipped program over a worker's pass makes the calls of the steering rule's plan, on the replies that are among the
/// worker's own entries, and ends with the plan's verdict and frame, which are a result of the rule. A run that a full journal stopped made
/// a beginning of these calls.
pub fn runs_are_steered()
    ensures ended { RunsAreSteered }
    ensures refused { RefusedRunsAreSteered }
{
    steers();
}

/// So all runs of a replay of the shipped program follow the rule: each on the records that its worker's entries say it read. Each record
/// is counted, and its frame is sent or not, by the end of its own run among these, if it is not short.
pub fn replays_are_steered()
    ensures { ReplaysAreSteered }
{
    steers();
}

/// What such a run asked and was answered, if no full journal stopped it, is in the journals: in each shard's its session is one part of its
/// worker's entries, right behind those that the worker had there when the run began.
pub fn fates_stand_in_journals()
    ensures { FatesStand }
{}

/// Where a replay of the shipped program stopped no run, the counts in its maps are the report's: in the state to which the journals lead
/// the one-thread map, the verdicts' counts are how many frames were aborted, dropped, passed and sent.
pub fn totals_are_exact()
    ensures { TotalsAreExact }
{
    counts_are_exact();
    replays_are_steered();
}

/// At each moment of a replay of the shipped program in which no command met a full journal, its lookup table and its backends are those
/// that the commands so far have left, whatever frames came: each slot names the owner that it has by the population of the backends that
/// are up, and each backend's record is what the last command of it put there. At the end they are those that the script has left.
pub fn tables_follow()
    ensures moments { TablesFollow }
    ensures end { TablesAreLeft }
{
    replays_are_steered();
}

/// So the words that `last_words` finds in its journals are those of the lookup table by the population of the backends that the script has
/// left up: each backend has as many of them as it has slots, and 0 stands where none is up. And those of the backends are their addresses.
pub fn last_words_follow()
    ensures { LastWordsFollow }
{
    replays_are_steered();
}

/// And its services are those that the commands so far have named, each with its last flags; there is no other.
pub fn services_follow()
    ensures moments { ServicesFollow }
    ensures end { ServicesAreLeft }
{
    replays_are_steered();
}

/// There are such moments: a replay of the shipped program in which no command met a full journal has one behind any number of its commands.
/// There the history of each shard is the oldest part of what its journal leads to, with the controller's updates of these commands, and with
/// none of later ones.
pub fn moments_exist()
    ensures { MomentsExist }
{}

/// Two machines on which the same backends are up have the same tables: at moments of any two replays, of any captures, on any numbers of
/// workers and shards, when the commands carried out so far leave the same backends up, the slots of the lookup tables and the records of
/// these backends are the same.
pub fn same_tables()
    ensures { SameTables }
{}

/// So a frame that is sent by no note goes to the same backend on both: to the owner of its flow's slot, which is up while any backend is.
/// That is each frame of a service without tracking, and of another service each whose flow has no note, or one of a backend that is down.
pub fn strangers_agree()
    ensures owners { OwnersAreSentTo }
    ensures some { SomeAreSentTo }
    ensures frames { FramesAreSent }
    ensures agree { StrangersAgree }
{}

/// What moves when a backend goes down: of the frames that are sent by no note exactly those whose flow's slot has another owner than before
/// the command. One with a note goes where it went, by `flows_stay_in_replays`, as long as that backend is up.
pub fn strangers_move()
    ensures { StrangersMove }
{}

/// So it is in a replay: before a `down` that was carried out and behind it, whatever frames came between, of the frames that are sent by no
/// note exactly those go to the same backend whose flow's slot has the same owner by the population of the backends that were up before the
/// command, and by that of all of them but its own.
pub fn strangers_move_in_replays()
    ensures { StrangersMoveInReplays }
{
    tables_follow();
    strangers_move();
}

/// So it is of the runs of a replay. At each moment of it, whenever the run of a record comes past its flow's note (its service is not tracked,
/// its Lookup of the flow finds none, or the noted backend is down), and reads its flow's slot and then the owner's record right behind that
/// moment's histories, the record's frame is sent through the tunnel to the owner of the slot by the population of the backends that the
/// commands so far have left up; where none is up, it is dropped. Two such runs of a flow, before a `down` that was carried out and behind
/// it, send to the same backend exactly if the slot has the same owner. A moment may lie behind each Load between two commands.
pub fn strangers_go_to_owners()
    ensures runs { StrangersAreSent }
    ensures moved { StrangersMoveBetweenRuns }
    ensures anywhere { MomentsLieAnywhere }
{
    tables_follow();
    strangers_agree();
}

/// What the laws on replays above say of every replay of an image that is the shipped one for a lookup table of `size` slots and a flow
/// table of `notes` notes, however it was made.
pub fn shipped_replays_are_steered(verified: &Verified, notes: u32, size: u32)
    requires size { IsRingSize size }
    requires image { record { version = verified.now.version; maps = verified.now.maps; code = verified.now.code }
        ≡ sized_image notes size }
    ensures steered { (script : List Command) (options : Options) (records : List Sent) (outcome : Outcome) →
        AreOptions verified.now.maps options → AllByRecursion IsCaptured records →
        (accounted : IsAccounted (program_of verified.now options.shards) script options records outcome) →
        IsSteeredReplay size (program_of verified.now options.shards) script options records outcome accounted }
    ensures totals { (script : List Command) (options : Options) (records : List Sent) (outcome : Outcome) →
        AreOptions verified.now.maps options → AllByRecursion IsCaptured records →
        IsAccounted (program_of verified.now options.shards) script options records outcome →
        outcome.updates.items ≡ [] → outcome.counts.stopped ≡ 0 → AreTotals outcome }
    ensures tables { (script : List Command) (options : Options) (records : List Sent) (outcome : Outcome) →
        AreOptions verified.now.maps options → AllByRecursion IsCaptured records →
        IsAccounted (program_of verified.now options.shards) script options records outcome →
        outcome.updates.items ≡ [] → MetNoFullJournal outcome.refused.items →
        AreTablesAtEnd size (carried_out outcome.refused.items 0 script) (maps_at_end outcome.journals) }
    ensures services { (script : List Command) (options : Options) (records : List Sent) (outcome : Outcome) →
        AreOptions verified.now.maps options → AllByRecursion IsCaptured records →
        IsAccounted (program_of verified.now options.shards) script options records outcome →
        outcome.updates.items ≡ [] → MetNoFullJournal outcome.refused.items →
        AreServices (carried_out outcome.refused.items 0 script) (maps_at_end outcome.journals) }
{
    let _ = notes;
    let _ = size;
    let _ = verified.image();
    replays_are_steered();
    totals_are_exact();
    tables_follow();
    services_follow();
}

/// A flow stays with the backend that was noted for it. In a legal history of the flows' shard, as long as after the Update that noted a
/// backend there is no Update, Delete or eviction of the flow's key and no store into its cell, a Lookup of the key finds the cell, and the
/// cell holds the backend's number. So a run of the flow whose Lookup and Load are there, and which gets past the guards of a tracked
/// service, chooses that backend where the backend's record, when the run reads it, says that it is up.
pub fn noted_flows_stick()
    ensures found { NotesAreFound }
    ensures stick { NotedFlowsStick }
{
    flows_stick();
}

/// So flows stay in every replay of the shipped program. Whenever the run of a record, which no full journal stopped, got past the guards of
/// a tracked service, its Lookup of the flow stands in the journal of the replay's shard of flows while a backend is noted there, and the
/// backend's record says that it is up when the run reads it, the record's frame is sent through the tunnel to this backend.
pub fn flows_stay_in_replays()
    ensures { FlowsStayInReplays }
{
    noted_flows_stick();
}

/// One such run, computed, with the histories of both shards.
pub fn a_noted_flow_sticks()
    ensures { StickyRow }
{
    finished_runs_are_results();
}

/// One run without a note, computed, with the histories of both shards.
pub fn a_stranger_goes_to_its_owner()
    ensures { StrangerRow }
{
    finished_runs_are_results();
}
