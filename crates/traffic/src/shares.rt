//! How much of a lookup table each backend has, and how many slots change hands.

ghost use Rattle.std.specs.Prelude.{◌≡◌, ◌≤◌, ◌<◌, ◌+◌, ◌*◌, ◌^◌, ◌==◌, length, IfOk};
ghost use Rattle.maglev.specs.Population.{share_of};
ghost use Rattle.traffic.specs.Shares.{AreShares, share_counted, entry_gain, entry_gains, least_moves, moved_below, share_at};

use std::alloc::{AllocError, Global};

/// The words that a slot may have: 0 where nobody owns it, or the number of one of 256 backends and one.
pub(crate) const WORDS: u32 = 257;

/// How many slots have this word.
pub fn share_of(word: u32, words: &[u32]) -> usize
    ensures { result ≡ share_of word words.now }
{
    words.iter().filter(|other| **other == word).count()
}

/// The word of a slot.
pub(crate) fn word_at(words: &[u32], place: u32) -> u32
    ensures { result ≡ share_at words.now place }
{
    words.get(place as usize).copied().unwrap_or(0)
}

/// How many of the first slots have another word in the second table than in the first.
pub fn moved_slots(old: &[u32], new: &[u32], size: u32) -> u32
    ensures { result ≡ moved_below old.now new.now size }
{
    let mut moved = 0;
    'places: for place in 0..size {
        if word_at(old, place) != word_at(new, place) {
            moved += 1;
        }
    }
    moved
}

/// The entry of a word; 0 where there is none.
pub(crate) fn entry_at(shares: &[usize], word: u32) -> usize
    ensures { result ≡ share_at shares.now word }
{
    shares.get(word as usize).copied().unwrap_or(0)
}

/// Counts a slot of this word, if the word has an entry.
fn count_slot(shares: &mut Vec<usize>, word: u32)
    requires { share_at shares.old.items word + 1 < 2 ^ 64 }
    ensures { shares.new.items ≡ share_counted shares.old.items word }
{
    let place = word as usize;
    if place < shares.len() {
        shares[place] += 1;
    }
}

/// How many slots have each of the words below this one, by word, in one pass over the table. It fails only for lack of memory.
pub fn shares_of(alloc: Global, table: &[u32], words: u32) -> Result<Vec<usize>, AllocError>
    ensures { IfOk result (λ shares. AreShares table.now words shares.items) }
{
    let mut shares = vec![in alloc; 0usize; words as usize]?;
    'slots: for word in table {
        count_slot(&mut shares, *word);
    }
    Ok(shares)
}

/// How many slots more have this word, by the shares in the first and in the second table.
fn gain_of(old: &[usize], new: &[usize], word: u32) -> usize
    ensures { result ≡ entry_gain old.now new.now word }
{
    entry_at(new, word).saturating_sub(entry_at(old, word))
}

/// What the words below this one gain, by the shares in the first and in the second table.
#[tactic(auto, unfolding(crate::specs::Shares::entry_gains))]
fn gains_below(old: &[usize], new: &[usize], words: u32) -> u128
    ensures { result ≡ entry_gains old.now new.now words }
{
    let mut gains: u128 = 0;
    'below: for word in 0..words {
        gains += gain_of(old, new, word) as u128;
    }
    gains
}

/// The least number of slots that change hands from the first table to any in which each backend, and nobody, has the share of the second.
/// It fails only for lack of memory.
#[tactic(auto, using(crate::proofs::ShareLemmas::gains_are))]
pub fn least_moves(alloc: Global, old: &[u32], new: &[u32]) -> Result<u128, AllocError>
    ensures { IfOk result (λ least. least ≡ least_moves old.now new.now) }
{
    let before = shares_of(alloc, old, WORDS)?;
    let after = shares_of(alloc, new, WORDS)?;
    Ok(gains_below(&before, &after, WORDS))
}
