//! The maps of steering as a controller writes them, without journals.

ghost use Rattle.std.specs.Prelude.{◌≡◌, ◌==◌, ◌<◌, nat_lt, [], IfOk, List, length, ℕ, replicate, unwrap_or, slice_get};
ghost use Rattle.conntrack.specs.SteeringMaps.{steering_maps};
ghost use Rattle.control.specs.ListOfUpdates.{answer_if};
ghost use Rattle.traffic.specs.WrittenMaps.{MapsState, after_update, written_answer, front_word, is_key_of, is_key_taken, keys_with, with_item_at};

use conntrack::{BACKENDS, MOST_SERVICES, SteeringMap};
use control::UpdatePort;
use semantics::{Errno, JournalFull, Key, Value};
use std::alloc::{AllocError, Global};
use std::marker::Model;

/// New maps of steering for a lookup table of a size, as a controller writes them: the table's words, the backends' records, and the
/// services' keys. They answer as those of a replay do, except that no journal is ever full. Contracts see these parts.
#[derive(Debug, Drop)]
pub(crate) struct WrittenMaps {
    size: u32,
    words: Vec<u32>,
    backends: Vec<Value>,
    keys: Vec<Key>,
}

impl Model for WrittenMaps {
    ghost use Rattle.std.specs.Prelude.{◌≤◌, ◌<◌, length};
    ghost use Rattle.traffic.specs.WrittenMaps.{MapsState};

    ghost Value = { MapsState };

    ghost view = { λ maps. record { size = maps.size; words = maps.words.items; backends = maps.backends.items; keys = maps.keys.items } };

    ghost invariant = { λ maps. (0 < maps.size) × (length maps.keys.items ≤ 64) × (64 ≤ maps.keys.cap) };
}

/// 0, or that the map is full.
fn answer_if(is_taken: bool) -> i32
    ensures { result ≡ answer_if is_taken }
{
    if is_taken { 0 } else { Errno::TooBig.code() }
}

/// Whether a service is kept.
fn is_key_of(keys: &[Key], key: &Key) -> bool
    ensures { result ≡ is_key_of keys.now key.now }
{
    keys.iter().any(|other| other.is_same(key))
}

/// The number in the first four bytes, the lowest first; 0 where there are fewer.
fn front_word(bytes: &[u8]) -> u32
    ensures { result ≡ front_word bytes.now }
{
    if bytes.len() < 4 {
        return 0;
    }
    u32::from_le_bytes([bytes[0], bytes[1], bytes[2], bytes[3]])
}

impl WrittenMaps {
    /// The maps before the first update.
    pub(crate) fn open(alloc: Global, size: u32) -> Result<WrittenMaps, AllocError>
        requires { 0 < size }
        ensures { IfOk result (λ maps. maps ≡ record { size = size; words = replicate size 0; backends = replicate 256 []; keys = [] }) }
    {
        let words = vec![in alloc; 0; size as usize]?;
        let backends = vec![in alloc; Value::empty(); BACKENDS as usize]?;
        let keys = Vec::with_capacity(alloc, MOST_SERVICES as usize)?;
        Ok(WrittenMaps {
            size,
            words,
            backends,
            keys,
        })
    }

    /// How many slots the lookup table has.
    pub(crate) fn size(&self) -> u32
        ensures size { result ≡ self.now.size }
        ensures positive { 0 < result }
    {
        self.size
    }

    /// The word of each slot of the lookup table: its owner's number and one, or 0.
    pub(crate) fn words(&self) -> &[u32]
        ensures { result.now ≡ self.now.words }
    {
        &self.words
    }

    /// The record of each backend, by its number.
    pub(crate) fn backends(&self) -> &[Value]
        ensures { result.now ≡ self.now.backends }
    {
        &self.backends
    }

    /// Keeps a service; false where there was no room for it.
    fn put_key(&mut self, key: &Key) -> bool
        ensures taken { result ≡ is_key_taken self.old.keys key.now }
        ensures kept { self.new ≡ record (self.old) { keys = keys_with self.old.keys key.now } }
    {
        if is_key_of(&self.keys, key) {
            return true;
        }
        if self.keys.len() >= MOST_SERVICES as usize {
            return false;
        }
        if self.keys.push(*key).is_err() {
            unreachable!();
        }
        true
    }

    /// Gives a slot its word.
    fn put_word(&mut self, place: u32, word: u32)
        ensures { self.new ≡ record (self.old) { words = with_item_at self.old.words place word } }
    {
        if (place as usize) < self.words.len() {
            self.words[place as usize] = word;
        }
    }

    /// Gives a backend its record.
    fn put_backend(&mut self, number: u32, backend: &Value)
        ensures { self.new ≡ record (self.old) { backends = with_item_at self.old.backends number backend.now } }
    {
        if (number as usize) < self.backends.len() {
            self.backends[number as usize] = *backend;
        }
    }
}

impl UpdatePort for WrittenMaps {
    ghost use Rattle.conntrack.specs.SteeringMaps.{steering_maps};
    ghost use Rattle.traffic.specs.WrittenMaps.{IsUpdateAnswered, IsNeverRefused};
    ghost use Rattle.traffic.specs.MapLaws.{same_size, arrays_take};

    ghost serves = { λ maps. steering_maps maps.size };

    ghost gives = { λ before update answer after. IsUpdateAnswered before update answer after };

    ghost refuses = { λ before update after. IsNeverRefused before update after };

    ghost keeps = { λ before after update answer answered. same_size before after update answer answered };

    ghost stays = { λ before after update never. absurd never };

    ghost arrays_answer = { λ before after update answer stands answered. arrays_take before after update answer stands answered };

    fn update(&mut self, map: u32, key: &Key, value: &Value) -> Result<i32, JournalFull> {
        if map == SteeringMap::Vips.place() {
            return Ok(answer_if(self.put_key(key)));
        }
        let place = front_word(key.as_slice());
        if map == SteeringMap::Ring.place() {
            self.put_word(place, front_word(value.as_slice()));
        } else if map == SteeringMap::Backends.place() {
            self.put_backend(place, value);
        }
        Ok(0)
    }
}
