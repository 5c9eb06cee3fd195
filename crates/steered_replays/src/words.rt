//! What the lookup table and the backends hold at the end of a replay, by its journals.

ghost use Rattle.std.specs.Prelude.{◌≡◌, ◌*◌, ◌+◌, ◌<◌, IfOk};
ghost use Rattle.semantics.specs.ShardPlan.{KeepsRows};
ghost use Rattle.journals.specs.JournalsView.{entries_at};
ghost use Rattle.steered_replays.specs.LastWords.{front_number, last_words, with_word, word_put, words_after};

use conntrack::SteeringMap;
use journals::{Journals, ShardJournal};
use semantics::{Call, Entry};
use std::alloc::{AllocError, Global};

/// The number in the first four bytes, the lowest first; 0 where there are fewer.
fn front_number(bytes: &[u8]) -> u32
    ensures { result ≡ front_number bytes.now }
{
    if bytes.len() < 4 {
        return 0;
    }
    u32::from_le_bytes([bytes[0], bytes[1], bytes[2], bytes[3]])
}

/// Puts a word in its place, if there is one.
fn put_word(words: &mut Vec<u32>, place: u32, word: u32)
    ensures { words.new.items ≡ with_word words.old.items place word }
{
    if (place as usize) < words.len() {
        words[place as usize] = word;
    }
}

/// Puts the word of an entry, if it puts one.
fn put_entry(words: &mut Vec<u32>, entry: &Entry)
    ensures { words.new.items ≡ word_put words.old.items entry.now.call entry.now.reply }
{
    if let Call::Update { key, value, .. } = &entry.call
        && entry.reply.is_done()
    {
        put_word(
            words,
            front_number(key.as_slice()),
            front_number(value.as_slice()),
        );
    }
}

/// Puts the words of all entries of a journal.
fn put_entries(words: &mut Vec<u32>, journal: &ShardJournal<'_>)
    ensures { words.new.items ≡ words_after words.old.items journal.now }
{
    'entries: for place in 0..journal.len() {
        put_entry(words, &journal.entry(place));
    }
}

/// Puts the words of the shard of this number, if there is one.
fn put_shard(words: &mut Vec<u32>, journals: &Journals, number: usize)
    requires { KeepsRows journals.now.options.journal }
    ensures { words.new.items ≡ words_after words.old.items (entries_at journals.now number) }
{
    if number < journals.count() {
        put_entries(words, &journals.journal(number));
    }
}

/// The numbers with which the values of a map's first places begin at the end of a replay, by its journals. It fails only for lack of memory.
pub fn last_words(
    alloc: Global,
    journals: &Journals,
    map: SteeringMap,
    count: u32,
) -> Result<Vec<u32>, AllocError>
    requires { KeepsRows journals.now.options.journal }
    ensures { IfOk result (λ words. words.items ≡ last_words journals.now map count) }
{
    let mut words = vec![in alloc; 0u32; count as usize]?;
    let shards = journals.options().shards;
    let first = map.place() as usize * shards as usize;
    'shards: for part in 0..shards {
        put_shard(&mut words, journals, first + part as usize);
    }
    Ok(words)
}
