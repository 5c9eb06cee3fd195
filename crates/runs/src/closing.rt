//! The journals of shards that nobody calls any more.

ghost use Rattle.std.specs.Prelude.{◌≡◌, ◌<◌, ℕ, length};
ghost use Rattle.semantics.specs.History.{IsLegalJournal};
ghost use Rattle.journals.specs.JournalsView.{AreJournals, entries_at};
ghost use Rattle.journals.specs.KeptEntries.{ArePlanned};
ghost use Rattle.shards.specs.NewShards.{shard_at};

use ebpf_decode::MapDef;
use journals::Journals;
use semantics::Options;
use shards::{PlainShards, Shard};

/// The shards' journals, with the shards that wrote them, which are moved and not copied.
pub fn journals_of(shards: PlainShards, maps: Vec<MapDef>, options: Options) -> Journals
    requires are { AreJournals maps.items options (length shards) }
    requires planned { ArePlanned maps.items options shards }
    ensures maps { result.maps ≡ maps.items }
    ensures options { result.options ≡ options }
    ensures count { length result.shards ≡ length shards }
    ensures written { (number : ℕ) → number < length shards → entries_at result number ≡ (shard_at shards number).journal }
    ensures legal { (number : ℕ) → number < length shards → IsLegalJournal (shard_at shards number).plan (entries_at result number) }
{
    let shards = shards.into_list();
    are_legal(&shards);
    Journals::written(maps, options, shards)
}

/// The journal of each shard is legal. The function does nothing: it brings this fact into a proof.
fn are_legal(shards: &[Shard])
    ensures { (number : ℕ) → number < length shards.now →
        IsLegalJournal (shard_at shards.now number).plan (shard_at shards.now number).journal }
{
    'shards: for number in 0..shards.len() {
        let _ = shards[number].journal();
    }
}
