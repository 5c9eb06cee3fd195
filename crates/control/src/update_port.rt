//! What a controller updates maps through.

ghost use Rattle.std.specs.Prelude.{◌≡◌, ◌≤◌, ◌<◌, ◌+◌, ◌^◌, ℕ, ℤ, pos, List, length, IfOk, IfSome, OnOk, OnErr};
ghost use Rattle.ebpf_decode.specs.declared.map.MapDef.{MapDef};
ghost use Rattle.semantics.specs.LittleEndian.{bytes_of_number};
ghost use Rattle.conntrack.specs.SteeringMaps.{map_place, AreSteeringMaps};
ghost use Rattle.control.specs.declared.update.Update.{Update as Change};
ghost use Rattle.control.specs.MapUpdates.{UpdateBytes, map_update, IsUpdateOf, IsInArray, HasOwner};

use crate::update::Update;
use conntrack::{RingRecord, SteeringMap, index_key};
use semantics::{JournalFull, Key, Value};

/// The maps that a controller updates. What an update returns is a relation of the port before, the update, its answer and the port after.
/// Each update is made whether or not its key is present (the flags ANY of bpf(2)).
pub trait UpdatePort {
    /// The maps that it has.
    ghost serves: { Self → List MapDef };

    /// What an update returns: the port before, the update, its answer, and the port after.
    ghost gives: { Self → UpdateBytes → ℤ → Self → Type 0 };

    /// What a refusal leaves: the port before, the update, and the port after.
    ghost refuses: { Self → UpdateBytes → Self → Type 0 };

    /// Puts a value under a key of a map, and returns the answer: 0, or Linux's error number, negated. Refused where a journal has no room.
    fn update(&mut self, map: u32, key: &Key, value: &Value) -> Result<i32, JournalFull>
        requires { IsUpdateOf (serves self.old) (record { map = map; key = key.now; value = value.now }) }
        ensures gives { IfOk result (λ answer. gives self.old (record { map = map; key = key.now; value = value.now }) answer self.new) }
        ensures refuses { OnErr result (refuses self.old (record { map = map; key = key.now; value = value.now }) self.new) };

    /// An update leaves the maps as they are.
    ghost keeps: { (before after : Self) (update : UpdateBytes) (answer : ℤ) → gives before update answer after →
        serves after ≡ serves before };

    /// So does a refusal.
    ghost stays: { (before after : Self) (update : UpdateBytes) → refuses before update after → serves after ≡ serves before };

    /// An update of an array at an index that it has is answered 0.
    ghost arrays_answer: { (before after : Self) (update : UpdateBytes) (answer : ℤ) → IsInArray (serves before) update
        → gives before update answer after → answer ≡ pos 0 };
}

fn key_of(bytes: &[u8]) -> Key
    requires { length bytes.now ≤ 32 }
    ensures { result ≡ bytes.now }
{
    let mut key = Key::empty();
    key.append(bytes);
    key
}

fn value_of(bytes: &[u8]) -> Value
    requires { length bytes.now ≤ 256 }
    ensures { result ≡ bytes.now }
{
    let mut value = Value::empty();
    value.append(bytes);
    value
}

/// Puts a record of eight bytes or more into a map.
fn put<U: UpdatePort>(
    port: &mut U,
    map: SteeringMap,
    key: &[u8],
    value: &[u8],
) -> Result<i32, JournalFull>
    requires few { length key.now ≤ 32 }
    requires short { length value.now ≤ 256 }
    requires known { IsUpdateOf (U.serves port.old) (record { map = map_place map; key = key.now; value = value.now }) }
    ensures gives { IfOk result
        (λ answer. U.gives port.old (record { map = map_place map; key = key.now; value = value.now }) answer port.new) }
    ensures refuses { OnErr result (U.refuses port.old (record { map = map_place map; key = key.now; value = value.now }) port.new) }
    ensures serves { U.serves port.new ≡ U.serves port.old }
{
    port.update(map.place(), &key_of(key), &value_of(value))
}

/// Makes an update.
pub(crate) fn make<U: UpdatePort>(port: &mut U, update: Update) -> Result<i32, JournalFull>
    requires size { (size : ℕ) × AreSteeringMaps size (U.serves port.old) }
    requires owner { HasOwner update }
    ensures gives { IfOk result (λ answer. U.gives port.old (map_update update) answer port.new) }
    ensures refuses { OnErr result (U.refuses port.old (map_update update) port.new) }
    ensures serves { U.serves port.new ≡ U.serves port.old }
{
    match update {
        Update::Vip { service, vip } => put(port, SteeringMap::Vips, &service.key(), &vip.bytes()),
        Update::Ring { slot, ring } => put(
            port,
            SteeringMap::Ring,
            &index_key(slot),
            &ring.bytes(),
        ),
        Update::Backend { number, backend } => put(
            port,
            SteeringMap::Backends,
            &index_key(number),
            &backend.bytes(),
        ),
        Update::Tunnel { tunnel } => put(port, SteeringMap::Ctl, &index_key(0), &tunnel.bytes()),
    }
}
