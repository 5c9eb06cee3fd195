//! A port to maps in memory.

ghost use Rattle.std.specs.Prelude.{◌≡◌, ◌+◌, ◌==◌, ◌&&◌, nat_lt, ℕ, List, [], length, count_by, IfOk, OnErr};
ghost use Rattle.std.specs.List.{list_any};
ghost use Rattle.semantics.specs.LittleEndian.{number_of_bytes};
ghost use Rattle.control.specs.MapUpdates.{IsUpdateOf};
ghost use Rattle.control.specs.ListOfUpdates.{is_new_in, is_known, is_taken_by, made_of, answer_if, IsUpdateNoted, IsWithoutRoom};

use crate::update_port::UpdatePort;
use ebpf_decode::{MapDef, MapKind};
use semantics::{Errno, JournalFull, Key, Value};
use std::alloc::{AllocError, Global};
use std::marker::Model;

/// An update that a list in memory was asked.
#[derive(Clone, Copy, Debug, PartialEq, Eq)]
pub struct MadeUpdate {
    /// The map's place in the list of maps.
    pub map: u32,
    pub key: Key,
    pub value: Value,
    /// The update was made; else it was answered -7.
    pub is_present: bool,
    /// It brought a new key.
    pub is_new: bool,
}

/// Maps in memory, as the list of the updates that they were asked: for tests, and to see what a command asks. An array takes each index
/// that it has, a hash map as many keys as it has entries, an LRU map every key; what is not taken is answered -7. Contracts see the maps,
/// the room, and the list.
#[derive(Debug, Drop)]
pub struct UpdateList {
    maps: Vec<MapDef>,
    room: usize,
    made: Vec<MadeUpdate>,
}

impl Model for UpdateList {
    ghost use Rattle.std.specs.Prelude.{◌≤◌, length};
    ghost use Rattle.control.specs.ListOfUpdates.{UpdateListState};

    ghost Value = { UpdateListState };

    ghost view = { λ list. record { maps = list.maps.items; room = list.room; made = list.made.items } };

    ghost invariant = { λ list. (length list.made.items ≤ list.room) × (list.room ≤ list.made.cap) };
}

/// 0, or that the map is full or the index out of range.
fn answer_if(is_present: bool) -> i32
    ensures { result ≡ answer_if is_present }
{
    if is_present { 0 } else { Errno::TooBig.code() }
}

/// Whether the key is an index of four bytes below this number.
fn is_index_below(key: &Key, most: u32) -> bool
    ensures { result ≡ (length key.now == 4 && nat_lt (number_of_bytes key.now) most) }
{
    let bytes = key.as_slice();
    if bytes.len() != 4 {
        return false;
    }
    let index = u32::from_le_bytes([bytes[0], bytes[1], bytes[2], bytes[3]]);
    index < most
}

fn is_known(made: &[MadeUpdate], map: u32, key: &Key) -> bool
    ensures { result ≡ is_known made.now map key.now }
{
    made.iter().any(|update| update.map == map && update.key.is_same(key) && update.is_present)
}

fn count_new(made: &[MadeUpdate], map: u32) -> usize
    ensures { result ≡ count_by (is_new_in map) made.now }
{
    made.iter()
        .filter(|update| update.map == map && update.is_new)
        .count()
}

/// Whether the map takes the key.
fn is_taken(made: &[MadeUpdate], map: u32, key: &Key, definition: &MapDef) -> bool
    ensures { result ≡ is_taken_by definition.now.kind made.now map key.now definition.now.max_entries }
{
    let most = definition.max_entries;
    match definition.kind {
        MapKind::Array => is_index_below(key, most),
        MapKind::Hash => is_known(made, map, key) || count_new(made, map) < most as usize,
        MapKind::LruHash => true,
    }
}

impl UpdateList {
    /// No updates of these maps as yet, with room for this many.
    pub fn open(alloc: Global, maps: Vec<MapDef>, room: usize) -> Result<UpdateList, AllocError>
        ensures { IfOk result (λ list. list ≡ record { maps = maps.items; room = room; made = [] }) }
    {
        let made = Vec::with_capacity(alloc, room)?;
        Ok(UpdateList { maps, room, made })
    }

    /// What was asked, in order.
    pub fn made(&self) -> &[MadeUpdate]
        ensures { result.now ≡ self.now.made }
    {
        &self.made
    }

    /// Answers an update and notes it, if there is room.
    fn note(&mut self, map: u32, key: &Key, value: &Value) -> Result<i32, JournalFull>
        requires { IsUpdateOf self.old.maps (record { map = map; key = key.now; value = value.now }) }
        ensures noted { IfOk result (λ answer. IsUpdateNoted self.old (record { map = map; key = key.now; value = value.now }) answer self.new) }
        ensures no_room { OnErr result (IsWithoutRoom self.old self.new) }
    {
        let count = self.made.len();
        let room = self.room;
        if count >= room {
            return Err(JournalFull { shard: map });
        }
        let entry = self.entry(map, key, value);
        let answer = answer_if(entry.is_present);
        if self.made.push(entry).is_err() {
            unreachable!();
        }
        Ok(answer)
    }

    /// The entry of an update.
    fn entry(&self, map: u32, key: &Key, value: &Value) -> MadeUpdate
        requires { IsUpdateOf self.now.maps (record { map = map; key = key.now; value = value.now }) }
        ensures { result ≡ made_of self.now (record { map = map; key = key.now; value = value.now }) }
    {
        let is_present = is_taken(&self.made, map, key, &self.maps[map as usize]);
        MadeUpdate {
            map,
            key: *key,
            value: *value,
            is_present,
            is_new: is_present && !is_known(&self.made, map, key),
        }
    }
}

impl UpdatePort for UpdateList {
    ghost use Rattle.control.specs.ListOfUpdates.{IsUpdateNoted, IsWithoutRoom};
    ghost use Rattle.control.specs.ListLaws.{same_maps, still_maps, listed_array_takes};

    ghost serves = { λ list. list.maps };

    ghost gives = { λ before update answer after. IsUpdateNoted before update answer after };

    ghost refuses = { λ before update after. IsWithoutRoom before after };

    ghost keeps = { λ before after update answer noted. same_maps before after update answer noted };

    ghost stays = { λ before after update refused. still_maps before after refused };

    ghost arrays_answer = { λ before after update answer stands noted. listed_array_takes before update answer after stands noted };

    fn update(&mut self, map: u32, key: &Key, value: &Value) -> Result<i32, JournalFull> {
        self.note(map, key, value)
    }
}
